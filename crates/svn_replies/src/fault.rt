//! Why a command fails.
ghost use Rattle.std.specs.Prelude.{◌≡◌};
ghost use Rattle.svn_replies.specs.declared.fault.Refused.TheVariants.{Memory};
ghost use Rattle.svn_replies.specs.Refusals.{FromPath};

use std::alloc::{AllocError, AllocFailed};
use svn_types::{PathFault, Text};

/// Codes of failures, as in `svn_error_codes.h`.
pub mod code {
    /// No revision of that number (SVN_ERR_FS_NO_SUCH_REVISION).
    pub const NO_REVISION: u64 = 160006;
    /// A path that is none (SVN_ERR_FS_PATH_SYNTAX).
    pub const BAD_PATH: u64 = 160005;
    /// Nothing is there (SVN_ERR_FS_NOT_FOUND).
    pub const NOT_FOUND: u64 = 160013;
    /// A file is there, not a directory (SVN_ERR_FS_NOT_DIRECTORY).
    pub const NOT_DIRECTORY: u64 = 160016;
    /// A directory is there, not a file (SVN_ERR_FS_NOT_FILE).
    pub const NOT_FILE: u64 = 160017;
    /// A report out of order (SVN_ERR_REPOS_BAD_REVISION_REPORT).
    pub const BAD_REPORT: u64 = 165004;
    /// What isn't served (SVN_ERR_UNSUPPORTED_FEATURE).
    pub const UNSUPPORTED: u64 = 200007;
    /// A stop that was asked for (SVN_ERR_CANCELLED).
    pub const CANCELLED: u64 = 200015;
    /// No such command (SVN_ERR_RA_SVN_UNKNOWN_CMD).
    pub const UNKNOWN_COMMAND: u64 = 210001;
    /// A URL of another repository (SVN_ERR_RA_SVN_REPOS_NOT_FOUND).
    pub const NO_REPOSITORY: u64 = 210005;
}

/// Why a command fails: what is sent to the client.
#[derive(Debug, Drop)]
pub struct Failure {
    /// Its code, as in `svn_error_codes.h`.
    pub code: u64,
    /// What it says.
    pub message: Text,
}

impl Failure {
    /// A failure of a code, with this message.
    pub fn new(code: u64, message: String) -> Failure
        ensures { result.code ≡ code }
    {
        Failure {
            code,
            message: Text::new(message.into_bytes()),
        }
    }
}

/// Why a command isn't answered by success.
#[derive(Debug, Drop)]
pub enum Refused {
    /// A failure, which is sent to the client.
    Failed(Failure),
    /// Its fields aren't those of the command.
    BadFields,
    /// An allocation failed.
    Memory,
}

impl From<AllocError> for Refused {
    ghost from_gives = { λ _ e. e ≡ Memory };

    fn from(_error: AllocError) -> Refused {
        Refused::Memory
    }
}

impl<T: Drop> From<AllocFailed<T>> for Refused {
    ghost from_gives = { λ _ e. e ≡ Memory };

    fn from(_error: AllocFailed<T>) -> Refused {
        Refused::Memory
    }
}

impl From<PathFault> for Refused {
    ghost from_gives = { FromPath };

    fn from(fault: PathFault) -> Refused {
        match fault {
            PathFault::Memory => Refused::Memory,
            // no path that a repository has is joined to one that it hasn't
            _ => Refused::BadFields,
        }
    }
}
