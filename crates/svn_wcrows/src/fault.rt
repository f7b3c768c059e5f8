//! Why rows aren't written or read.
ghost use Rattle.std.specs.Prelude.{◌≡◌};
ghost use Rattle.svn_wcrows.specs.declared.fault.RowsFault.TheVariants.{Image, Memory, Refused};

use std::alloc::{AllocError, AllocFailed};
use svn_image::ImageFault;
use svn_wcdb::{Reason, WcdbFault};
use thiserror::Error;

/// Why a database isn't written or read.
#[derive(Clone, Copy, Debug, PartialEq, Eq, Error)]
pub enum RowsFault {
    /// It can't be read.
    #[error("{0}")]
    Refused(Reason),
    /// It has a table that no working copy of this format has.
    #[error("the database has a table that isn't known")]
    UnknownTable,
    /// It can't be written.
    #[error("{0}")]
    Image(ImageFault),
    /// A number is above 9,223,372,036,854,775,807, the largest that a column can have.
    #[error("a number is too large for the database")]
    TooLarge,
    /// The node isn't present: its row isn't that of a base node.
    #[error("no row is made for a node that isn't present")]
    NotPresent,
    /// What was written isn't read back as the nodes that were to be written. As some of `ImageFault`, this is a fault of this crate.
    #[error("the nodes aren't read back")]
    NodesDiffer,
    /// An allocation failed.
    #[error("out of memory")]
    Memory,
}

impl From<ImageFault> for RowsFault {
    ghost from_gives = { λ fault e. e ≡ of_image fault };

    ghost use Rattle.svn_wcrows.specs.Faults.{of_image};

    fn from(fault: ImageFault) -> RowsFault {
        match fault {
            ImageFault::Memory => RowsFault::Memory,
            fault => RowsFault::Image(fault),
        }
    }
}

impl From<WcdbFault> for RowsFault {
    ghost from_gives = { λ fault e. e ≡ of_wcdb fault };

    ghost use Rattle.svn_wcrows.specs.Faults.{of_wcdb};

    fn from(fault: WcdbFault) -> RowsFault {
        match fault {
            WcdbFault::Memory => RowsFault::Memory,
            WcdbFault::Refused(reason) => RowsFault::Refused(reason),
        }
    }
}

impl From<Reason> for RowsFault {
    ghost from_gives = { λ reason e. e ≡ Refused reason };

    fn from(reason: Reason) -> RowsFault {
        RowsFault::Refused(reason)
    }
}

impl From<AllocError> for RowsFault {
    ghost from_gives = { λ _ e. e ≡ Memory };

    fn from(_error: AllocError) -> RowsFault {
        RowsFault::Memory
    }
}

impl<T: Drop> From<AllocFailed<T>> for RowsFault {
    ghost from_gives = { λ _ e. e ≡ Memory };

    fn from(_error: AllocFailed<T>) -> RowsFault {
        RowsFault::Memory
    }
}
