//! What can be done to a folder.
ghost use Rattle.std.specs.Prelude.{◌≡◌, ◌∷◌, [], IfOk, MatchOption};
ghost use Rattle.svn_folder.specs.declared.step.Step.TheVariants.{Make};
ghost use Rattle.svn_folder.specs.declared.entry.Entry.TheVariants.{File};
ghost use Rattle.svn_folder.specs.Steps.{new_name};

use crate::entry::{Entry, Mode};
use std::alloc::AllocError;
use std::fmt;
use svn_types::{Name, RelPath, Text};

/// One thing that is done to a folder. `specs/Steps.antt` says what it does, and when it fits.
#[derive(Debug, PartialEq, Eq, Drop)]
pub enum Step {
    /// Makes an entry where there is none, in a directory that is there.
    Make {
        /// Its path.
        path: RelPath,
        /// The entry: a file with all its bytes, an empty directory or a link.
        entry: Entry,
        /// The time that a file gets, in microseconds since 1970; by default that of the step. What a folder shows has no times.
        modified: Option<u64>,
    },
    /// Brings the bytes of a file to the disk. Its name is another matter.
    SyncFile(RelPath),
    /// Brings the names in a directory to the disk, if each name on the way to it is there.
    SyncDirectory(RelPath),
    /// Gives a file or link another path, in place of the file or link there, if there is one.
    Rename {
        /// The path that it has.
        from: RelPath,
        /// The path that it gets.
        to: RelPath,
    },
    /// Gives a directory in the folder itself, with all that is below it, another name there, which is free, and brings both names to the disk.
    RenameDirectory {
        /// The name that it has.
        from: Name,
        /// The name that it gets.
        to: Name,
    },
    /// Removes a file or link.
    RemoveFile(RelPath),
    /// Removes a directory with nothing in it.
    RemoveDirectory(RelPath),
}

impl Step {
    /// The name under which an entry is made or put: the last of its path, none for the folder itself.
    pub fn new_name(&self) -> Option<&Name>
        ensures { MatchOption result (new_name self.now ≡ []) (λ name. new_name self.now ≡ name.now ∷ []) }
    {
        match self {
            Step::Make { path, .. } => path.last_name(),
            Step::Rename { to, .. } => to.last_name(),
            Step::RenameDirectory { to, .. } => Some(to),
            Step::SyncFile(_)
            | Step::SyncDirectory(_)
            | Step::RemoveFile(_)
            | Step::RemoveDirectory(_) => None,
        }
    }
}

/// The step that makes a file of these bytes. The error is that of an allocation that fails.
pub(crate) fn make_step(
    path: &RelPath,
    bytes: Text,
    mode: Mode,
    modified: Option<u64>,
) -> Result<Step, AllocError>
    ensures { IfOk result (λ step. step ≡ Make path.now (File bytes mode) modified) }
{
    Ok(Step::Make {
        path: path.clone()?,
        entry: Entry::File(bytes, mode),
        modified,
    })
}

/// What it does, in words, with its paths.
impl fmt::Display for Step {
    fn fmt<W: fmt::Write>(&self, f: &mut fmt::Formatter<W>) -> fmt::Result {
        match self {
            Step::Make { path, entry, .. } => write!(f, "make the {entry} {path}"),
            Step::SyncFile(path) => write!(f, "sync the file {path}"),
            Step::SyncDirectory(path) => write!(f, "sync the directory {path}"),
            Step::Rename { from, to } => write!(f, "rename {from} to {to}"),
            Step::RenameDirectory { from, to } => write!(f, "rename the directory {from} to {to}"),
            Step::RemoveFile(path) => write!(f, "remove {path}"),
            Step::RemoveDirectory(path) => write!(f, "remove the directory {path}"),
        }
    }
}
