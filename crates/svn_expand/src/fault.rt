//! Why a dump can't be expanded.
ghost use Rattle.std.specs.Prelude.{◌≡◌};
ghost use Rattle.svn_expand.specs.declared.fault.ExpandFault.TheVariants.{Memory};
ghost use Rattle.svn_expand.specs.Results.{of_dump};

use std::alloc::{AllocError, AllocFailed};
use svn_dump::DumpFault;
use svndiff::SvndiffFault;
use thiserror::Error;

/// Why the bytes at a place of an expansion can't be had.
#[derive(Clone, Copy, Debug, PartialEq, Eq)]
pub enum StoreFault {
    /// What keeps the expansion failed.
    Failed,
    /// An allocation failed.
    Memory,
}

/// Why the next record of a dump isn't expanded.
#[derive(Clone, Copy, Debug, PartialEq, Eq, Error)]
pub enum ExpandFault {
    /// The dump can't be read further, or a checksum is wrong; never `DumpFault::Memory`, which is `Memory`.
    #[error("{0}")]
    Dump(DumpFault),
    /// A text delta that can't be read; offsets are within the delta.
    #[error("text delta: {0}")]
    Delta(SvndiffFault),
    /// A text delta over a text that isn't given before it.
    #[error("a text delta over a text that the dump doesn't give before it")]
    NoBase,
    /// A text delta of a node that isn't new, without the MD5 checksum of the text before.
    #[error("a text delta without the MD5 checksum of the text before")]
    NoBaseSum,
    /// A text that was written can't be read again.
    #[error("a text that was written can't be read again")]
    Store,
    /// An allocation failed.
    #[error("out of memory")]
    Memory,
}

impl From<AllocError> for ExpandFault {
    ghost from_gives = { λ _ e. e ≡ Memory };

    fn from(_error: AllocError) -> ExpandFault {
        ExpandFault::Memory
    }
}

impl<T: Drop> From<AllocFailed<T>> for ExpandFault {
    ghost from_gives = { λ _ e. e ≡ Memory };

    fn from(_error: AllocFailed<T>) -> ExpandFault {
        ExpandFault::Memory
    }
}

impl From<DumpFault> for ExpandFault {
    ghost from_gives = { λ fault e. e ≡ of_dump fault };

    fn from(fault: DumpFault) -> ExpandFault {
        match fault {
            DumpFault::Memory => ExpandFault::Memory,
            fault => ExpandFault::Dump(fault),
        }
    }
}

impl From<StoreFault> for ExpandFault {
    fn from(fault: StoreFault) -> ExpandFault {
        match fault {
            StoreFault::Memory => ExpandFault::Memory,
            StoreFault::Failed => ExpandFault::Store,
        }
    }
}
