//! What a commit is asked to change, and why it refuses.
ghost use Rattle.std.specs.Prelude.{◌≡◌};
ghost use Rattle.svn_repo.specs.declared.change.CommitFault.TheVariants.{Memory};
ghost use Rattle.svn_repo.specs.Changes.{commit_fault_number, commit_fault_name};

use std::alloc::AllocError;
use svn_types::{PropName, RelPath, Rev, Text};
use thiserror::Error;

/// One change of a commit (of a transaction, `svn_fs.h`). Each makes every directory above its path anew; what it doesn't make stays the node
/// revision that it was. The fields say what `Repo::commit` requires of them; besides, each path must be below directories.
#[derive(Clone, Debug, PartialEq, Eq, Drop)]
pub enum Change {
    /// Makes a directory of a new line, without entries and properties, where nothing is.
    MakeDir {
        /// Of at most 64 names, and not the root.
        path: RelPath,
    },
    /// Gives the file at the path this text; it keeps its line and its properties. Where nothing is it makes a file of a new line.
    PutFile {
        /// Of at most 64 names, and not the root.
        path: RelPath,
        /// Of at most 1,048,576 bytes.
        text: Text,
    },
    /// Sets a property of the node at the path, or removes it where there is no value. Removing one that isn't set is no fault.
    SetProp {
        /// Where a node is; the root too.
        path: RelPath,
        /// Of 1 to 255 bytes, as every name of a property.
        name: PropName,
        /// Of at most 1,048,576 bytes.
        value: Option<Text>,
    },
    /// Removes the node at the path, with everything below it.
    Remove {
        /// Where a node is that isn't the root.
        path: RelPath,
    },
    /// Puts the source's own node revision, of an existing revision, at a path where nothing is (`svn_fs_copy` of `svn_fs.h`).
    CopyFrom {
        /// An existing revision, so not the one that the commit makes.
        rev: Rev,
        /// Where the source is in that revision; the root too.
        source: RelPath,
        /// Not the root, and such that what is below the source has paths of at most 64 names here.
        path: RelPath,
    },
}

/// Why a commit is refused. The first change that can't be made decides, and of its faults the first in this order: IsRoot,
/// NoSuchRevision, TooLong, then Missing or NotDir on the ways down, then Exists, NotFile, TooDeep, Memory.
#[derive(Clone, Copy, Debug, PartialEq, Eq, Error)]
pub enum CommitFault {
    /// Something is where a directory would be made or a copy put.
    #[error("something is at the path already")]
    Exists,
    /// Nothing is at the path, at its source, or at a path above one of them.
    #[error("there is nothing at the path")]
    Missing,
    /// A file is above the path or its source.
    #[error("a file is where a directory is needed")]
    NotDir,
    /// A directory is where a text would be put.
    #[error("a directory is where a file is needed")]
    NotFile,
    /// The root would be made, put, removed or copied to.
    #[error("the root can't be made, replaced or removed")]
    IsRoot,
    /// A node would be at a path of over 64 names.
    #[error("a path has over 64 names")]
    TooDeep,
    /// The source of a copy is in a revision that doesn't exist.
    #[error("there is no such revision")]
    NoSuchRevision,
    /// A text or a value has over 1,048,576 bytes.
    #[error("a text has over 1,048,576 bytes")]
    TooLong,
    /// No revision, line or node number is left. Memory always comes before it, so it is never returned.
    #[error("too many revisions or nodes")]
    Full,
    /// An allocation failed.
    #[error("out of memory")]
    Memory,
}

impl CommitFault {
    /// The fault's number: from 1, Exists, to 10, Memory, in the order of the variants.
    pub fn number(self) -> u32
        ensures { result ≡ commit_fault_number self }
    {
        match self {
            CommitFault::Exists => 1,
            CommitFault::Missing => 2,
            CommitFault::NotDir => 3,
            CommitFault::NotFile => 4,
            CommitFault::IsRoot => 5,
            CommitFault::TooDeep => 6,
            CommitFault::NoSuchRevision => 7,
            CommitFault::TooLong => 8,
            CommitFault::Full => 9,
            CommitFault::Memory => 10,
        }
    }

    /// The fault's name: that of its variant.
    pub fn name(self) -> &'static str
        ensures { result.now ≡ commit_fault_name self }
    {
        match self {
            CommitFault::Exists => "Exists",
            CommitFault::Missing => "Missing",
            CommitFault::NotDir => "NotDir",
            CommitFault::NotFile => "NotFile",
            CommitFault::IsRoot => "IsRoot",
            CommitFault::TooDeep => "TooDeep",
            CommitFault::NoSuchRevision => "NoSuchRevision",
            CommitFault::TooLong => "TooLong",
            CommitFault::Full => "Full",
            CommitFault::Memory => "Memory",
        }
    }
}

impl From<AllocError> for CommitFault {
    ghost from_gives = { λ _ e. e ≡ Memory };

    fn from(_error: AllocError) -> CommitFault {
        CommitFault::Memory
    }
}
