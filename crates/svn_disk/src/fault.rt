//! Why a working copy isn't brought to disk.
ghost use Rattle.std.specs.Prelude.{◌≡◌};
ghost use Rattle.svn_disk.specs.declared.fault.DiskFault.TheVariants.{Memory};

use std::alloc::{AllocError, AllocFailed};
use std::fmt;
use svn_editor::Word;
use svn_folder::FolderFault;
use svn_image::ImageFault;
use svn_types::{PathFault, RelPath, Text};
use svn_wc::WcFault;
use svn_wcdb::{Refusal, WcdbFault};
use svn_wcrows::RowsFault;
use thiserror::Error;

/// Why a working copy isn't brought to disk.
#[derive(Debug, Drop, Error)]
pub enum DiskFault {
    /// Something is at a path where the copy would put a node. Nothing was changed; or, if it is where a directory would be made, and came there since the work
    /// was begun, what is left of the work waits.
    #[error("{0}: something is in the way")]
    InTheWay(RelPath),
    /// A file that would change was edited: what is on disk isn't the text of the copy. Nothing was changed; or, if it was edited since the work was begun, what is
    /// left of the work waits.
    #[error("{0}: changed on disk")]
    Changed(RelPath),
    /// Something else is on disk where the copy has a directory in which something would change. Nothing was changed.
    #[error("{0}: not a directory on disk")]
    NoDirectory(RelPath),
    /// A local change, a conflict, a changelist or an external file is where something would change, or above or below it. Nothing was changed.
    #[error("{0}: a local change")]
    Local(RelPath),
    /// The database has a journal, of a transaction that was begun and hasn't ended. Nothing was changed.
    #[error("the database has a journal: a client is at work, or was cut off, and `svn cleanup` comes first")]
    Journal,
    /// A client has changed the copy meanwhile, or is about to. Nothing was changed; or, if the work was begun, what is left of it waits.
    #[error("the working copy is in use")]
    InUse,
    /// A client began to change the database in the instant in which another one took its place: what it changes is lost. If work is left, it waits.
    #[error("a client began to write when the database was replaced, and its change is lost")]
    Overwritten,
    /// Work of this library is left. Nothing was changed.
    #[error("a change was cut off: run `svncopy resume`")]
    Unfinished,
    /// The working copy is of another repository. Nothing was changed.
    #[error("{0}")]
    Repository(OtherRepository),
    /// The repository has no directory where the root of the copy says that it is. Nothing was changed.
    #[error(".: the repository has no directory there")]
    NoRoot,
    /// What was put right isn't true of the repository. This is a fault of this crate.
    #[error("{0}: it isn't put right")]
    Untrue(RelPath),
    /// A working copy is there already. Nothing was changed.
    #[error("there is a working copy already")]
    ACopy,
    /// No working copy is there.
    #[error("no working copy")]
    NoCopy,
    /// A checkout was cut off here before there was a copy. Nothing was changed.
    #[error("a checkout was cut off: `svncopy resume` removes what it left")]
    CutOff,
    /// A node has the name of the administrative folder. Nothing was changed.
    #[error("{0}: no node of a working copy may have the name .svn")]
    Reserved(RelPath),
    /// The work of a change is at a path that neither copy has. Nothing was changed. This is a fault of this crate.
    #[error("{0}: the change isn't one of this copy")]
    Elsewhere(RelPath),
    /// The copy is locked, or has work left that isn't this library's, or that a client has changed since. Nothing was changed.
    #[error("locked, or with unfinished work of a client: run `svn cleanup`")]
    Foreign,
    /// Two items of the work are about the same path. Nothing was changed. Of a change this is a fault of this crate.
    #[error("{0}: work is left for it twice: run `svn cleanup`")]
    Repeated(RelPath),
    /// The database can't be read, or isn't that of a copy.
    #[error("{0}")]
    Database(Refusal),
    /// Its nodes are no working copy.
    #[error("{0}")]
    Nodes(WcFault),
    /// The source has another text for a stand-in, or none.
    #[error("{0}: its text isn't given")]
    NoText(RelPath),
    /// A node's text is no stand-in by SHA-1.
    #[error("a text is no checksum")]
    NoStandIn,
    /// Not all was on the disk before it counted. This is a fault of this crate.
    #[error("not all of it is on the disk")]
    NotSynced,
    /// The database that was written isn't the one that is read. This is a fault of the system's.
    #[error("the database isn't read as it was written")]
    NoImage,
    /// The folder refuses a step, or fails.
    #[error("{0}")]
    Folder(FolderFault),
    /// The database can't be written.
    #[error("{0}")]
    Rows(RowsFault),
    /// A path is longer than a folder takes.
    #[error("{0}")]
    Path(PathFault),
    /// An allocation failed.
    #[error("out of memory")]
    Memory,
}

/// The UUID of a copy's repository, and the one that it should have.
#[derive(Debug, Drop)]
pub struct OtherRepository {
    /// That of the copy.
    pub copy: Text,
    /// The one that it should have.
    pub wanted: Text,
}

impl fmt::Display for OtherRepository {
    fn fmt<W: fmt::Write>(&self, f: &mut fmt::Formatter<W>) -> fmt::Result {
        let (copy, wanted) = (Word(self.copy.as_slice()), Word(self.wanted.as_slice()));
        write!(
            f,
            "the working copy is of repository {copy}, not of {wanted}"
        )
    }
}

impl From<FolderFault> for DiskFault {
    fn from(fault: FolderFault) -> DiskFault {
        match fault {
            FolderFault::Memory => DiskFault::Memory,
            fault => DiskFault::Folder(fault),
        }
    }
}

impl From<Refusal> for DiskFault {
    fn from(refusal: Refusal) -> DiskFault {
        match refusal.fault {
            WcdbFault::Memory => DiskFault::Memory,
            WcdbFault::Refused(_) => DiskFault::Database(refusal),
        }
    }
}

impl From<WcFault> for DiskFault {
    fn from(fault: WcFault) -> DiskFault {
        match fault {
            WcFault::Memory => DiskFault::Memory,
            fault => DiskFault::Nodes(fault),
        }
    }
}

impl From<RowsFault> for DiskFault {
    fn from(fault: RowsFault) -> DiskFault {
        match fault {
            RowsFault::Memory => DiskFault::Memory,
            fault => DiskFault::Rows(fault),
        }
    }
}

impl From<ImageFault> for DiskFault {
    fn from(fault: ImageFault) -> DiskFault {
        DiskFault::from(RowsFault::from(fault))
    }
}

impl From<PathFault> for DiskFault {
    fn from(fault: PathFault) -> DiskFault {
        match fault {
            PathFault::Memory => DiskFault::Memory,
            fault => DiskFault::Path(fault),
        }
    }
}

impl From<AllocError> for DiskFault {
    ghost from_gives = { λ _ e. e ≡ Memory };

    fn from(_error: AllocError) -> DiskFault {
        DiskFault::Memory
    }
}

impl<T: Drop> From<AllocFailed<T>> for DiskFault {
    ghost from_gives = { λ _ e. e ≡ Memory };

    fn from(_error: AllocFailed<T>) -> DiskFault {
        DiskFault::Memory
    }
}
