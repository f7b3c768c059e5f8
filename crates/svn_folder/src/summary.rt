//! What a name in a folder stands for, without the bytes of a file.
ghost use Rattle.std.specs.Prelude.{◌≡◌, IfOk};
ghost use Rattle.svn_folder.specs.Summaries.{summary_of};

use crate::entry::{Entry, Mode};
use std::alloc::AllocError;
use svn_types::{Sha1Sum, Text};

/// What a name in a folder stands for, without the bytes of a file.
#[derive(Debug, PartialEq, Eq, Drop)]
pub enum Summary {
    /// A file.
    File {
        /// How many bytes it has.
        len: u64,
        /// Their SHA-1 checksum.
        sha1: Sha1Sum,
        /// How it may be used.
        mode: Mode,
    },
    /// A directory.
    Directory,
    /// A symbolic link to this target.
    Link(Text),
}

impl Entry {
    /// The entry without its bytes. The error is that of an allocation that fails.
    pub fn summary(&self) -> Result<Summary, AllocError>
        ensures { IfOk result (λ s. s ≡ summary_of self.now) }
    {
        Ok(match self {
            Entry::File(bytes, mode) => Summary::File {
                len: bytes.as_slice().len() as u64,
                sha1: Sha1Sum::of(bytes.as_slice()),
                mode: *mode,
            },
            Entry::Directory => Summary::Directory,
            Entry::Link(target) => Summary::Link(target.clone()?),
        })
    }
}
