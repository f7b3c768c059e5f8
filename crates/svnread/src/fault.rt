//! Why the program refuses.

use std::alloc::{AllocError, AllocFailed};
use std::io;
use svn_dump::DumpFault;
use svn_history::LoadFault;
use svn_served::ServeFault;
use thiserror::Error;

/// Why nothing is served, or no more than was.
#[derive(Debug, Drop, Error)]
pub(crate) enum Fault {
    /// The words of the command line can't be had.
    #[error("words of the command line: {0}")]
    Words(io::Error),
    /// A word is no number.
    #[error("not a number")]
    BadNumber,
    /// The dump can't be read.
    #[error("{0}")]
    Unread(io::Error),
    /// The dump isn't one, or its first bytes can't be read.
    #[error("byte 0: {0}")]
    Front(DumpFault),
    /// The dump is refused: where, and why.
    #[error("byte {byte}: {fault}")]
    Dump {
        /// So many bytes are before the record that is refused.
        byte: u64,
        /// Why it is.
        fault: LoadFault,
    },
    /// The dump gives no UUID.
    #[error("the dump has no UUID")]
    NoUuid,
    /// The connection ended before its input.
    #[error("{0}")]
    Served(ServeFault),
    /// An allocation failed.
    #[error("out of memory")]
    Memory,
}

impl From<AllocError> for Fault {
    fn from(_error: AllocError) -> Fault {
        Fault::Memory
    }
}

impl<T: Drop> From<AllocFailed<T>> for Fault {
    fn from(_error: AllocFailed<T>) -> Fault {
        Fault::Memory
    }
}
