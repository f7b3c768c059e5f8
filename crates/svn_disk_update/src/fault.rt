//! Why a working copy on disk isn't updated.
ghost use Rattle.std.specs.Prelude.{◌≡◌};
ghost use Rattle.svn_disk_update.specs.declared.fault.UpdateFault.TheVariants.{Memory};

use std::alloc::{AllocError, AllocFailed};
use svn_disk::DiskFault;
use svn_run::RunFault;
use svn_types::{PathFault, RelPath};
use svn_wc::WcFault;
use thiserror::Error;

/// Why a working copy on disk isn't updated. But for some of a `DiskFault`, nothing was changed.
#[derive(Debug, Drop, Error)]
pub enum UpdateFault {
    /// The copy can't be updated, or something is in the way, or it isn't brought to disk.
    #[error("{0}")]
    Disk(DiskFault),
    /// The repository has no such revision; the last one.
    #[error("there is no r{0}: the last is r{1}")]
    NoRevision(u64, u64),
    /// The copy isn't what the repository has at a path, so that no update leads to a copy that is.
    #[error("{0}: not what the repository has there: `svncopy mend` comes first")]
    Untrue(RelPath),
    /// The target has nothing in the place of a path that the copy doesn't have either, or of its root, or where a switch leads.
    #[error("{0}: nothing is there in the target")]
    Nothing(RelPath),
    /// The node in the target is no later or other state of the one at a path, so a switch doesn't lead there, nor an update of the copy's root.
    #[error("{0}: another node is there in the target")]
    OtherNode(RelPath),
    /// The copy has no directory above a path, or, for a switch, no node there.
    #[error("{0}: not in the working copy")]
    NotInCopy(RelPath),
    /// The copy can't have such a node.
    #[error("{0}")]
    Copy(WcFault),
    /// No run begins.
    #[error("{0}")]
    Run(RunFault),
    /// A path is longer than one may be.
    #[error("{0}")]
    Path(PathFault),
    /// An allocation failed.
    #[error("out of memory")]
    Memory,
}

impl UpdateFault {
    /// Why no run begins on the copy that is at a path.
    pub(crate) fn of_run(fault: RunFault, path: RelPath) -> UpdateFault {
        match fault {
            RunFault::NoRoot => UpdateFault::Nothing(path),
            RunFault::OtherRoot => UpdateFault::OtherNode(path),
            RunFault::Memory => UpdateFault::Memory,
            RunFault::NoSuchRevision | RunFault::Capacity | RunFault::NoThread => {
                UpdateFault::Run(fault)
            }
        }
    }
}

impl From<DiskFault> for UpdateFault {
    fn from(fault: DiskFault) -> UpdateFault {
        match fault {
            DiskFault::Memory => UpdateFault::Memory,
            fault => UpdateFault::Disk(fault),
        }
    }
}

impl From<WcFault> for UpdateFault {
    fn from(fault: WcFault) -> UpdateFault {
        match fault {
            WcFault::Memory => UpdateFault::Memory,
            fault => UpdateFault::Copy(fault),
        }
    }
}

impl From<PathFault> for UpdateFault {
    fn from(fault: PathFault) -> UpdateFault {
        match fault {
            PathFault::Memory => UpdateFault::Memory,
            fault => UpdateFault::Path(fault),
        }
    }
}

impl From<AllocError> for UpdateFault {
    ghost from_gives = { λ _ e. e ≡ Memory };

    fn from(_error: AllocError) -> UpdateFault {
        UpdateFault::Memory
    }
}

impl<T: Drop> From<AllocFailed<T>> for UpdateFault {
    ghost from_gives = { λ _ e. e ≡ Memory };

    fn from(_error: AllocFailed<T>) -> UpdateFault {
        UpdateFault::Memory
    }
}
