//! Paths above and below one another.
ghost use Rattle.std.specs.Prelude.{◌≡◌, ◌+◌, ◌++◌, ◌∷◌, [], length, bytes_eq, IfOk, MatchOption, IfSome};
ghost use Rattle.svn_types.specs.NameFaults.{AnswersPath, count_fault};
ghost use Rattle.svn_types.specs.Paths.{parent, parent_path, last_name, child, is_within};

use crate::fault::PathFault;
use crate::limits::MAX_COMPONENTS;
use crate::name::Name;
use crate::rel_path::{RelPath, behind};
use std::alloc::{AllocError, Global};

impl RelPath {
    /// The path without its last name, which is the path of the directory that it is in; none for the root. AllocError if an allocation fails.
    pub fn parent(&self, alloc: Global) -> Result<Option<RelPath>, AllocError>
        ensures { IfOk result (λ above. above ≡ parent_path self.now) }
    {
        let Some((_, above)) = self.components().split_last() else {
            return Ok(None);
        };
        Ok(Some(RelPath::from_names(alloc, above)?))
    }

    /// Its last name, none for the root. It takes no memory.
    pub fn last_name(&self) -> Option<&Name>
        ensures name { MatchOption result (self.now ≡ []) (λ name. last_name self.now ≡ name.now ∷ []) }
        ensures split { IfSome result (λ name. self.now ≡ child (parent self.now) name.now) }
    {
        self.components().last()
    }

    /// Whether it is that path or is below it. It takes no memory.
    pub fn is_within(&self, above: &RelPath) -> bool
        ensures { result ≡ is_within above.now self.now }
    {
        behind(self.key(), above.key()).is_some()
    }

    /// The path with the names of another one after its own: TooManyComponents where they are over 128 together, else Memory alone.
    pub fn join_path(&self, alloc: Global, below: &RelPath) -> Result<RelPath, PathFault>
        ensures { AnswersPath (count_fault (length self.now + length below.now)) (self.now ++ below.now) result }
    {
        if self.components().len() + below.components().len() > MAX_COMPONENTS {
            return Err(PathFault::TooManyComponents);
        }
        Ok(self.joined(alloc, below)?)
    }
}
