//! Why a folder doesn't take a step.
ghost use Rattle.std.specs.Prelude.{◌≡◌, ◌⊎◌};
ghost use Rattle.svn_folder.specs.declared.fault.FolderFault.TheVariants.{Path, Memory};

use crate::step::Step;
use std::alloc::{AllocError, AllocFailed};
use std::io;
use svn_types::{PathFault, RelPath};
use thiserror::Error;

/// Why a step doesn't fit what is there.
#[derive(Clone, Copy, Debug, PartialEq, Eq, Error)]
pub enum Misfit {
    /// Something is at the path where an entry would be made, or a directory where a file would be put.
    #[error("something is there")]
    Taken,
    /// The directory that an entry would be in isn't there.
    #[error("its directory isn't there")]
    NoParent,
    /// No file is there, or, where a link would do, no link either.
    #[error("no such file")]
    NoFile,
    /// No directory is there.
    #[error("no such directory")]
    NoDirectory,
    /// Something is in the directory, or it is the folder itself.
    #[error("the directory isn't empty")]
    NotEmpty,
}

/// Why a folder doesn't take a step, or can't be read.
#[derive(Debug, Drop, Error)]
pub enum FolderFault {
    /// The step doesn't fit what is there. Nothing was changed.
    #[error("can't {step}: {misfit}")]
    Refused {
        /// The step.
        step: Step,
        /// What is in its way.
        misfit: Misfit,
    },
    /// The system failed. The step was taken, or it wasn't, or in part: look at the folder afresh.
    #[error("can't {step}: {error}")]
    Failed {
        /// The step.
        step: Step,
        /// What the system says.
        error: io::Error,
    },
    /// What is at a path couldn't be read.
    #[error("can't read {path}: {error}")]
    Unread {
        /// The path.
        path: RelPath,
        /// What the system says.
        error: io::Error,
    },
    /// The folder takes no more steps. Nothing was changed.
    #[error("stopped")]
    Stopped,
    /// A name in the folder is none that a path may have.
    #[error("{0}")]
    Path(PathFault),
    /// An allocation failed. Nothing was changed.
    #[error("out of memory")]
    Memory,
}

impl From<AllocError> for FolderFault {
    ghost from_gives = { λ _ e. e ≡ Memory };

    fn from(_error: AllocError) -> FolderFault {
        FolderFault::Memory
    }
}

impl<T: Drop> From<AllocFailed<T>> for FolderFault {
    ghost from_gives = { λ _ e. e ≡ Memory };

    fn from(_error: AllocFailed<T>) -> FolderFault {
        FolderFault::Memory
    }
}

impl From<PathFault> for FolderFault {
    ghost from_gives = { λ fault e. (e ≡ Memory) ⊎ (e ≡ Path fault) };

    fn from(fault: PathFault) -> FolderFault {
        match fault {
            PathFault::Memory => FolderFault::Memory,
            fault => FolderFault::Path(fault),
        }
    }
}
