//! Why a connection ends.

use std::alloc::{AllocError, AllocFailed};
use std::io;
use svn_wire::Malformed;
use svn_wire_calls::SendFault;
use thiserror::Error;

/// Why a connection ended before its input.
#[derive(Debug, Drop, Error)]
pub enum ServeFault {
    /// The client's bytes are no items.
    #[error("{0}")]
    Malformed(Malformed),
    /// An item of the client's is none that may come then.
    #[error("a command that isn't one")]
    BadCommand,
    /// The client's bytes couldn't be read.
    #[error("{0}")]
    Read(io::Error),
    /// The client takes no more bytes.
    #[error("{0}")]
    Write(io::Error),
    /// The file of the texts can't be read.
    #[error("texts: {0}")]
    Texts(io::Error),
    /// The dump's index doesn't know a text.
    #[error("texts: a text that the dump doesn't give whole")]
    NoText,
    /// The file of the texts has another text where one was.
    #[error("texts: another text than when the dump was loaded")]
    OtherText,
    /// An allocation failed.
    #[error("out of memory")]
    Memory,
}

impl From<SendFault> for ServeFault {
    fn from(fault: SendFault) -> ServeFault {
        match fault {
            SendFault::Write(error) => ServeFault::Write(error),
            SendFault::Texts(error) => ServeFault::Texts(error),
            SendFault::Unknown => ServeFault::NoText,
            SendFault::OtherText => ServeFault::OtherText,
            SendFault::Memory => ServeFault::Memory,
        }
    }
}

impl From<AllocError> for ServeFault {
    fn from(_error: AllocError) -> ServeFault {
        ServeFault::Memory
    }
}

impl<T: Drop> From<AllocFailed<T>> for ServeFault {
    fn from(_error: AllocFailed<T>) -> ServeFault {
        ServeFault::Memory
    }
}
