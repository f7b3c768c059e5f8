//! Why a dump can't be read.
ghost use Rattle.std.specs.Prelude.{◌≡◌};
ghost use Rattle.svn_dump.specs.declared.fault.DumpFault.TheVariants.{Memory};

use std::alloc::{AllocError, AllocFailed};
use svn_types::PathFault;
use thiserror::Error;

/// What is wrong with a dump: the first fault from left to right.
#[derive(Clone, Copy, Debug, PartialEq, Eq, Error)]
pub enum Reason {
    /// The first record has no `SVN-fs-dump-format-version`.
    #[error("not a dump: it doesn't begin with its format version")]
    NotADump,
    /// A format that is neither 2 nor 3.
    #[error("dump format {0}; formats 2 and 3 are read")]
    Version(u64),
    /// The bytes end within a record.
    #[error("the dump ends within a record")]
    CutOff,
    /// A record's headers, with the blank lines before them, have more bytes than the limit.
    #[error("the headers of a record are too long")]
    HeadersTooLong,
    /// A line among the headers has no colon with a space after it.
    #[error("a line of the headers isn't a header")]
    NotAHeader,
    /// A header is given twice.
    #[error("a header is given twice")]
    Twice,
    /// A header that must be a number isn't one.
    #[error("a header that must be a number isn't one")]
    NotANumber,
    /// A header that must be a checksum isn't one in hexadecimal digits.
    #[error("a header that must be a checksum isn't one")]
    NotAChecksum,
    /// A record that is no revision and no node.
    #[error("a record of no known kind")]
    UnknownRecord,
    /// A path that the library doesn't take.
    #[error("bad path: {0}")]
    BadPath(PathFault),
    /// A path that isn't UTF-8.
    #[error("bad path: not UTF-8")]
    NotUtf8,
    /// A `Node-kind` that is neither `file` nor `dir`.
    #[error("a node kind that is neither file nor dir")]
    NotAKind,
    /// A `Node-action` that is none of `add`, `change`, `delete` and `replace`, or is missing.
    #[error("a node without one of the actions add, change, delete and replace")]
    NotAnAction,
    /// A copy source with only its revision or only its path.
    #[error("a copy source with only its revision or only its path")]
    HalfSource,
    /// A `Content-length` that isn't the length of the sections.
    #[error("the content length isn't that of the sections")]
    Lengths,
    /// A property section of so many bytes, where so many are the most.
    #[error("property section of {0} bytes, the most is {1}")]
    PropsTooLong(u64, u64),
    /// A property section that isn't what its length says, entry by entry.
    #[error("a property section is malformed")]
    NotProperties,
    /// The name of a property that the library doesn't take.
    #[error("bad property name: {0}")]
    BadPropName(PathFault),
    /// A text section of so many bytes, where so many are the most.
    #[error("text of {0} bytes, the most is {1}")]
    TextTooLong(u64, u64),
    /// A text delta without the SHA-1 checksum that replaces its text.
    #[error("a text delta without the SHA-1 checksum of its text")]
    NoSha1,
    /// A text delta without the MD5 checksum that replaces its text.
    #[error("a text delta without the MD5 checksum of its text")]
    NoMd5,
    /// The MD5 checksum of the text that a text delta is applied to isn't the one that is given for it.
    #[error("the text before isn't of the MD5 checksum that its delta gives")]
    WrongBaseMd5,
    /// The SHA-1 checksum of that text isn't the one that is given for it.
    #[error("the text before isn't of the SHA-1 checksum that its delta gives")]
    WrongBaseSha1,
    /// The text's MD5 checksum isn't the one that is given.
    #[error("the text isn't of its MD5 checksum")]
    WrongMd5,
    /// The text's SHA-1 checksum isn't the one that is given.
    #[error("the text isn't of its SHA-1 checksum")]
    WrongSha1,
}

/// Why no record was read.
#[derive(Clone, Copy, Debug, PartialEq, Eq, Error)]
pub enum DumpFault {
    /// The dump is at fault.
    #[error("{0}")]
    Refused(Reason),
    /// The reader failed.
    #[error("read fault")]
    Read,
    /// An allocation failed.
    #[error("out of memory")]
    Memory,
}

impl From<AllocError> for DumpFault {
    ghost from_gives = { λ _ e. e ≡ Memory };

    fn from(_error: AllocError) -> DumpFault {
        DumpFault::Memory
    }
}

impl<T: Drop> From<AllocFailed<T>> for DumpFault {
    ghost from_gives = { λ _ e. e ≡ Memory };

    fn from(_error: AllocFailed<T>) -> DumpFault {
        DumpFault::Memory
    }
}
