//! Why a history can't be loaded.
ghost use Rattle.std.specs.Prelude.{◌≡◌};
ghost use Rattle.svn_history.specs.declared.fault.LoadFault.TheVariants.{Memory};
ghost use Rattle.svn_history.specs.Results.{of_dump, of_commit};

use std::alloc::{AllocError, AllocFailed};
use svn_dump::DumpFault;
use svn_repo::CommitFault;
use svndiff::SvndiffFault;
use thiserror::Error;

/// Why a revision of a dump wasn't loaded.
#[derive(Clone, Copy, Debug, PartialEq, Eq, Error)]
pub enum LoadFault {
    /// The dump can't be read further; never `DumpFault::Memory`, which is `Memory`.
    #[error("{0}")]
    Dump(DumpFault),
    /// The repository refuses the change; never `CommitFault::Memory`, which is `Memory`.
    #[error("{0}")]
    Commit(CommitFault),
    /// A revision whose number isn't above those before it.
    #[error("the revision's number isn't above the one before")]
    NotRising,
    /// A revision whose number is over the limit.
    #[error("the revision's number is too large")]
    TooManyRevisions,
    /// A node before the first revision, or in revision 0.
    #[error("a node before revision 1")]
    NoRevision,
    /// A node that is added without a kind.
    #[error("a node is added without a kind")]
    NoKind,
    /// A text delta that can't be read; offsets are within the delta.
    #[error("text delta: {0}")]
    Delta(SvndiffFault),
    /// An allocation failed.
    #[error("out of memory")]
    Memory,
}

impl From<AllocError> for LoadFault {
    ghost from_gives = { λ _ e. e ≡ Memory };

    fn from(_error: AllocError) -> LoadFault {
        LoadFault::Memory
    }
}

impl<T: Drop> From<AllocFailed<T>> for LoadFault {
    ghost from_gives = { λ _ e. e ≡ Memory };

    fn from(_error: AllocFailed<T>) -> LoadFault {
        LoadFault::Memory
    }
}

impl From<DumpFault> for LoadFault {
    ghost from_gives = { λ fault e. e ≡ of_dump fault };

    fn from(fault: DumpFault) -> LoadFault {
        match fault {
            DumpFault::Memory => LoadFault::Memory,
            fault => LoadFault::Dump(fault),
        }
    }
}

impl From<CommitFault> for LoadFault {
    ghost from_gives = { λ fault e. e ≡ of_commit fault };

    fn from(fault: CommitFault) -> LoadFault {
        match fault {
            CommitFault::Memory => LoadFault::Memory,
            fault => LoadFault::Commit(fault),
        }
    }
}
