//! Why the base nodes of a working copy can't be read.
ghost use Rattle.std.specs.Prelude.{◌≡◌};
ghost use Rattle.svn_wcdb.specs.declared.fault.WcdbFault.TheVariants.{Memory, Refused};

use std::alloc::{AllocError, AllocFailed};
use svn_types::PathFault;
use thiserror::Error;

/// A table of the database.
#[derive(Clone, Copy, Debug, PartialEq, Eq, Error)]
pub enum TableName {
    /// Nodes, of the base tree and of the local changes over it.
    #[error("NODES")]
    Nodes,
    /// Repositories.
    #[error("REPOSITORY")]
    Repository,
    /// Roots of working copies.
    #[error("WCROOT")]
    Wcroot,
    /// Pristine texts.
    #[error("PRISTINE")]
    Pristine,
    /// Local properties, changelists and conflicts.
    #[error("ACTUAL_NODE")]
    ActualNode,
    /// Locks of working copies, which an operation holds while it runs.
    #[error("WC_LOCK")]
    WcLock,
    /// Locks in the repository that the client holds.
    #[error("LOCK")]
    Lock,
    /// What an operation has still to do in the working copy.
    #[error("WORK_QUEUE")]
    WorkQueue,
}

/// What is wrong with a database, or what it has that the library doesn't take.
#[derive(Clone, Copy, Debug, PartialEq, Eq, Error)]
pub enum Reason {
    /// The file doesn't begin as one of SQLite 3.
    #[error("not a database of SQLite 3")]
    NotADatabase,
    /// The pages aren't of 512 to 65536 bytes, or so many bytes of each are reserved that fewer than 480 are left.
    #[error("a page size that no working copy has")]
    PageSize,
    /// The file has, or had, a write-ahead log.
    #[error("a database with a write-ahead log")]
    WriteAheadLog,
    /// The texts aren't in UTF-8.
    #[error("a database whose texts aren't UTF-8")]
    Encoding,
    /// A format other than 31, which is that of Subversion 1.8 to 1.14.
    #[error("working copy format {0}; format 31 is read")]
    Format(u32),
    /// The file ends within a page, or has fewer pages than its header says.
    #[error("the database is cut off")]
    CutOff,
    /// A page of a table isn't there, or isn't well formed.
    #[error("page {0} isn't a page of a table")]
    BadPage(u32),
    /// A table's tree has more than 20 levels.
    #[error("a table of over 20 levels, at page {0}")]
    TooDeep(u32),
    /// A table has more pages than the file, so one of them is there twice. This is the first over their number.
    #[error("a table of more pages than the file, at page {0}")]
    Loop(u32),
    /// A row goes on in a page that isn't there, or in one more than it needs.
    #[error("a row goes on in page {0}, which isn't its own")]
    BadOverflow(u32),
    /// A row isn't a record, or the length of its payload takes nine bytes.
    #[error("a row isn't a record")]
    BadRecord,
    /// A table isn't there.
    #[error("the database has no table {0}")]
    NoTable(TableName),
    /// A column of a table, counted from 0, has a value of another type, a number below 0, or NULL where the library needs a value.
    #[error("column {1} of {0} has no value of its type")]
    BadColumn(TableName, u32),
    /// The database has none or more than one working copy root, or a node of another.
    #[error("more than one working copy root, or none")]
    NotOneRoot,
    /// The root has no row, or none of the base.
    #[error("no root")]
    NoRoot,
    /// The repository of the root has no row.
    #[error("no repository")]
    NoRepository,
    /// A node of another repository than the root's.
    #[error("a node of another repository")]
    OtherRepository,
    /// A directory whose depth isn't infinity.
    #[error("a directory of another depth than infinity")]
    Depth,
    /// A node that was excluded by the user.
    #[error("an excluded node")]
    Excluded,
    /// A node that the server doesn't show.
    #[error("a node excluded by the server")]
    ServerExcluded,
    /// A presence that no base node has.
    #[error("a presence that no base node has")]
    BadPresence,
    /// A kind other than file and directory.
    #[error("neither a file nor a directory")]
    BadKind,
    /// A file that isn't complete.
    #[error("an incomplete file")]
    IncompleteFile,
    /// A path that isn't UTF-8.
    #[error("bad path: not UTF-8")]
    NotUtf8,
    /// A path that the library doesn't take.
    #[error("bad path: {0}")]
    BadPath(PathFault),
    /// A node whose row names another parent than the path above it, so that a client doesn't find it.
    #[error("the row has another path for the parent")]
    WrongParent,
    /// A node without a revision.
    #[error("no revision")]
    NoRevision,
    /// A node without a path in the repository.
    #[error("no path in the repository")]
    NoReposPath,
    /// A file whose checksum isn't `$sha1$` and 40 hexadecimal digits.
    #[error("no SHA-1 checksum")]
    NoChecksum,
    /// A file whose text the database doesn't have.
    #[error("the database has no pristine text of this checksum")]
    NoPristine,
    /// A pristine text that is compressed, which no client writes.
    #[error("a compressed pristine text")]
    Compressed,
    /// Properties that aren't a list of names and values.
    #[error("malformed properties")]
    BadProperties,
    /// The name of a property that the library doesn't take.
    #[error("bad property name: {0}")]
    BadPropName(PathFault),
}

/// Why the base nodes weren't read.
#[derive(Clone, Copy, Debug, PartialEq, Eq, Error)]
pub enum WcdbFault {
    /// The database is at fault.
    #[error("{0}")]
    Refused(Reason),
    /// An allocation failed.
    #[error("out of memory")]
    Memory,
}

impl From<AllocError> for WcdbFault {
    ghost from_gives = { λ _ e. e ≡ Memory };

    fn from(_error: AllocError) -> WcdbFault {
        WcdbFault::Memory
    }
}

impl<T: Drop> From<AllocFailed<T>> for WcdbFault {
    ghost from_gives = { λ _ e. e ≡ Memory };

    fn from(_error: AllocFailed<T>) -> WcdbFault {
        WcdbFault::Memory
    }
}

impl From<Reason> for WcdbFault {
    ghost from_gives = { λ reason e. e ≡ Refused reason };

    fn from(reason: Reason) -> WcdbFault {
        WcdbFault::Refused(reason)
    }
}
