//! Why a server's answers can't be used.
ghost use Rattle.std.specs.Prelude.{◌≡◌};
ghost use Rattle.svn_ask.specs.declared.fault.AskFault.TheVariants.{Memory, Refused};

use std::alloc::{AllocError, AllocFailed};
use std::fmt;
use svn_types::{PathFault, Text};
use svn_wire::Malformed as BadItem;
use thiserror::Error;

/// What is wrong with what a server sent, or what it refuses.
#[derive(Debug, Drop, Error)]
pub enum Reason {
    /// Bytes that are no item of the protocol.
    #[error("{0}")]
    BadItem(BadItem),
    /// An item that is no answer to what was asked.
    #[error("an item that is no answer")]
    Malformed,
    /// The server doesn't speak version 2 of the protocol.
    #[error("another version of the protocol")]
    Version,
    /// The server takes neither EXTERNAL nor ANONYMOUS.
    #[error("the server wants another authentication than EXTERNAL and ANONYMOUS")]
    NoMechanism,
    /// The server refuses the client, and says why, in at most 1,024 bytes.
    #[error("the server refuses the connection: {}", Shown(.0.as_slice()))]
    NotAdmitted(Text),
    /// The repository has another UUID.
    #[error("the server has another repository")]
    OtherRepository,
    /// The server failed for a reason of its own: its code of `svn_error_codes.h`, and at most 1,024 bytes of its message.
    #[error("the server failed with E{code}: {}", Shown(.message.as_slice()))]
    Failed {
        /// The code of the first error.
        code: u64,
        /// Its message.
        message: Text,
    },
    /// An answer for another revision than was asked for.
    #[error("an answer for r{0}")]
    OtherRevision(u64),
    /// A file without a checksum.
    #[error("a file without a checksum")]
    NoChecksum,
    /// A checksum that isn't 32 hexadecimal digits.
    #[error("a checksum that is no MD5 checksum")]
    NotAChecksum,
    /// A name in a directory that isn't UTF-8.
    #[error("bad name: not UTF-8")]
    NotUtf8,
    /// A name in a directory that no node may have.
    #[error("bad name: {0}")]
    BadName(PathFault),
    /// A name that is twice in a directory.
    #[error("a name that is twice in a directory")]
    NameTwice,
    /// The name of a property that the library doesn't take.
    #[error("bad property name: {0}")]
    BadPropName(PathFault),
    /// A property that a node has twice.
    #[error("a property that a node has twice")]
    PropTwice,
    /// An answer that nobody asked for.
    #[error("an answer to no question")]
    Unasked,
    /// The bytes end within an item.
    #[error("the answers end within an item")]
    HalfItem,
    /// The bytes end before all questions are answered.
    #[error("the answers end before all questions are answered")]
    Ended,
}

/// Why a server wasn't heard.
#[derive(Debug, Drop, Error)]
pub enum AskFault {
    /// What it sent is at fault, or it refuses.
    #[error("{0}")]
    Refused(Reason),
    /// An allocation failed.
    #[error("out of memory")]
    Memory,
}

impl From<AllocError> for AskFault {
    ghost from_gives = { λ _ e. e ≡ Memory };

    fn from(_error: AllocError) -> AskFault {
        AskFault::Memory
    }
}

impl<T: Drop> From<AllocFailed<T>> for AskFault {
    ghost from_gives = { λ _ e. e ≡ Memory };

    fn from(_error: AllocFailed<T>) -> AskFault {
        AskFault::Memory
    }
}

// The text of a server, as a terminal may show it: what is no printable ASCII character is a question mark.
#[derive(Clone, Copy)]
struct Shown<'a>(&'a [u8]);

impl fmt::Display for Shown<'_> {
    fn fmt<W: fmt::Write>(&self, f: &mut fmt::Formatter<W>) -> fmt::Result {
        for byte in self.0 {
            let shown = if (32..127).contains(byte) {
                *byte
            } else {
                b'?'
            };
            f.write_char(char::from(shown))?;
        }
        Ok(())
    }
}
