//! What a server says of a path.
use svn_types::{Digest, Kind, Name, Props};

/// What a server says of a path in a revision.
#[derive(Debug, Drop)]
pub enum Said {
    /// A file is there.
    File {
        /// The MD5 checksum of its text.
        sum: Digest,
        /// Its properties, without those of the server's own.
        props: Props,
    },
    /// A directory is there.
    Directory {
        /// Its properties, without those of the server's own.
        props: Props,
        /// The names of its entries, each once, in byte order.
        names: Vec<Name>,
    },
    /// A node of this kind is there; no more is said of it.
    OfKind(Kind),
    /// Nothing is there.
    Nothing,
    /// No directory is there: a file is, or is above it (a server doesn't say which).
    NoDirectory,
    /// There is no such revision.
    NoRevision,
}
