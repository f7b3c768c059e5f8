//! The path of an open file or directory.
ghost use Rattle.std.specs.Prelude.{◌≡◌, IfOk, IfSome};
ghost use Rattle.svn_types.specs.Paths.{parent, parent as directory_of};

use crate::baton::Baton;
use std::alloc::{AllocError, Global};
use std::marker::Model;
use svn_nodes::paths::parent_path;
use svn_types::RelPath;

/// The path of an open file or directory. An added file also keeps its directory's: its close looks up the directory's node.
/// A contract sees the path alone.
#[derive(Drop)]
pub(crate) struct OpenPath {
    path: RelPath,
    above: Option<RelPath>,
}

impl Model for OpenPath {
    ghost use Rattle.std.specs.Prelude.{◌≡◌, ℕ, List, IfSome};
    ghost use Rattle.svn_types.specs.Paths.{parent};

    ghost Value = { List (List ℕ) };

    ghost view = { λ p. p.path };

    ghost invariant = { λ p. IfSome p.above (λ a. a ≡ parent p.path) };
}

impl OpenPath {
    /// The path of what is opened, or of a directory that is added.
    pub(crate) fn opened(path: &RelPath) -> Result<OpenPath, AllocError>
        ensures { IfOk result (λ p. p ≡ path.now) }
    {
        Ok(OpenPath {
            path: path.clone()?,
            above: None,
        })
    }

    /// The path of a file that is added to the directory above.
    pub(crate) fn added(path: &RelPath, above: RelPath) -> Result<OpenPath, AllocError>
        requires { above ≡ parent path.now }
        ensures { IfOk result (λ p. p ≡ path.now) }
    {
        Ok(OpenPath {
            path: path.clone()?,
            above: Some(above),
        })
    }

    /// The path alone.
    pub(crate) fn as_rel_path(&self) -> &RelPath
        ensures { result.now ≡ self.now }
    {
        &self.path
    }

    /// That of the directory, if it is of an added file.
    pub(crate) fn above(&self) -> Option<&RelPath>
        ensures { IfSome result (λ a. a.now ≡ parent self.now) }
    {
        self.above.as_ref()
    }
}

/// The path of the directory that a path is in. If that is the parent, as in each call in order, a clone shares its path.
pub(crate) fn above(
    alloc: Global,
    path: &RelPath,
    parent: Option<&Baton>,
) -> Result<RelPath, AllocError>
    ensures { IfOk result (λ p. p ≡ directory_of path.now) }
{
    let (Some(parent), Some(name)) = (parent, path.components().last()) else {
        return parent_path(alloc, path);
    };
    let above = parent.path.as_rel_path();
    if path.is_child_of(above, name) {
        above.clone()
    } else {
        parent_path(alloc, path)
    }
}
