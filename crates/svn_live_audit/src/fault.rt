//! Why a server gives no verdict.
ghost use Rattle.std.specs.Prelude.{◌≡◌, ◌⊎◌};
ghost use Rattle.svn_live_audit.specs.declared.fault.LiveFault.TheVariants.{Asked, Memory};

use std::alloc::{AllocError, AllocFailed};
use std::io;
use svn_ask::AskFault;
use thiserror::Error;

/// Why a server gives no verdict.
#[derive(Debug, Drop, Error)]
pub enum LiveFault {
    /// What it sent is at fault, or it refuses.
    #[error("{0}")]
    Asked(AskFault),
    /// The connection failed before.
    #[error("the connection has failed")]
    Failed,
    /// It says of a place that no directory is there, and that one is; or it answers to another question.
    #[error("the server contradicts itself")]
    Contradiction,
    /// Its bytes couldn't be read.
    #[error("{0}")]
    Read(io::Error),
    /// It takes no more bytes.
    #[error("{0}")]
    Write(io::Error),
    /// An allocation failed.
    #[error("out of memory")]
    Memory,
}

impl From<AllocError> for LiveFault {
    ghost from_gives = { λ _ e. e ≡ Memory };

    fn from(_error: AllocError) -> LiveFault {
        LiveFault::Memory
    }
}

impl<T: Drop> From<AllocFailed<T>> for LiveFault {
    ghost from_gives = { λ _ e. e ≡ Memory };

    fn from(_error: AllocFailed<T>) -> LiveFault {
        LiveFault::Memory
    }
}

impl From<AskFault> for LiveFault {
    ghost from_gives = { λ fault e. (e ≡ Memory) ⊎ (e ≡ Asked fault) };

    fn from(fault: AskFault) -> LiveFault {
        match fault {
            AskFault::Memory => LiveFault::Memory,
            fault => LiveFault::Asked(fault),
        }
    }
}
