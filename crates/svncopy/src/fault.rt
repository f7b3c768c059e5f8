//! Why the program refuses.

use std::alloc::{AllocError, AllocFailed};
use std::io;
use svn_disk::DiskFault;
use svn_disk_update::UpdateFault;
use svn_dump::DumpFault;
use svn_expand::ExpandFault;
use svn_history::LoadFault;
use svn_types::PathFault;
use svn_wc::WcFault;
use thiserror::Error;

/// Why nothing is done, or no more than was.
#[derive(Debug, Drop, Error)]
pub(crate) enum Fault {
    /// The words of the command line can't be had.
    #[error("words of the command line: {0}")]
    Words(io::Error),
    /// The dump can't be opened.
    #[error("{0}")]
    Unread(io::Error),
    /// Standard input can't be kept in a file.
    #[error("{path}: {error}")]
    Kept {
        /// The file.
        path: String,
        /// What the system says.
        error: io::Error,
    },
    /// The dump isn't one, or its first bytes can't be read.
    #[error("byte 0: {0}")]
    Front(DumpFault),
    /// The dump is refused: where, and why.
    #[error("byte {byte}: {fault}")]
    Dump {
        /// So many bytes are before the record that is refused.
        byte: u64,
        /// Why it is.
        fault: LoadFault,
    },
    /// The dump can't be expanded: where, and why.
    #[error("byte {byte}: {fault}")]
    Deltas {
        /// So many bytes are before the record that is refused.
        byte: u64,
        /// Why it is.
        fault: ExpandFault,
    },
    /// The dump gives no UUID.
    #[error("the dump has no UUID")]
    NoUuid,
    /// The URL isn't below the root's.
    #[error("the URL isn't below the root's")]
    OtherRoot,
    /// What is after the root's URL is no path, or what is after `@` no number.
    #[error("bad URL")]
    BadUrl,
    /// The history has no such revision; the last one.
    #[error("there is no r{0}: the last is r{1}")]
    NoRevision(u64, u64),
    /// The revision has no directory at the path.
    #[error("{0}")]
    NoDirectory(WcFault),
    /// The folder can't be made, or isn't there.
    #[error("{0}")]
    NoFolder(io::Error),
    /// What is named isn't in a working copy.
    #[error("no working copy")]
    NoCopy,
    /// What is named in a working copy has a path that none may have.
    #[error("{0}")]
    BadPath(PathFault),
    /// A word is no number.
    #[error("not a number")]
    BadNumber,
    /// The copy isn't updated.
    #[error("{0}")]
    Update(UpdateFault),
    /// The clock can't be read.
    #[error("the clock: {0}")]
    Clock(io::Error),
    /// The copy isn't brought to disk.
    #[error("{0}")]
    Disk(DiskFault),
    /// The output couldn't be written.
    #[error("write fault")]
    Write,
    /// An allocation failed.
    #[error("out of memory")]
    Memory,
}

impl Fault {
    /// The word of a call that it is about: that of the dump, of the URL or of the folder.
    pub(crate) fn subject<'a>(&self, dump: &'a str, url: &'a str, folder: &'a str) -> &'a str {
        match self {
            Fault::Unread(_)
            | Fault::Kept { .. }
            | Fault::Front(_)
            | Fault::Dump { .. }
            | Fault::Deltas { .. }
            | Fault::NoUuid
            | Fault::NoRevision(_, _)
            | Fault::Update(UpdateFault::NoRevision(_, _)) => dump,
            Fault::OtherRoot
            | Fault::BadUrl
            | Fault::NoDirectory(_)
            | Fault::Disk(DiskFault::Reserved(_)) => url,
            Fault::Words(_)
            | Fault::NoFolder(_)
            | Fault::NoCopy
            | Fault::BadPath(_)
            | Fault::BadNumber
            | Fault::Clock(_)
            | Fault::Disk(_)
            | Fault::Update(_)
            | Fault::Write
            | Fault::Memory => folder,
        }
    }
}

impl From<AllocError> for Fault {
    fn from(_error: AllocError) -> Fault {
        Fault::Memory
    }
}

impl<T: Drop> From<AllocFailed<T>> for Fault {
    fn from(_error: AllocFailed<T>) -> Fault {
        Fault::Memory
    }
}

impl From<UpdateFault> for Fault {
    fn from(fault: UpdateFault) -> Fault {
        match fault {
            UpdateFault::Memory => Fault::Memory,
            UpdateFault::Disk(fault) => Fault::from(fault),
            fault => Fault::Update(fault),
        }
    }
}

impl From<DiskFault> for Fault {
    fn from(fault: DiskFault) -> Fault {
        match fault {
            DiskFault::Memory => Fault::Memory,
            fault => Fault::Disk(fault),
        }
    }
}
