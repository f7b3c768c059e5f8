//! Where texts, and what is recorded of nodes, come from.

use std::alloc::{AllocError, Global};
use svn_folder::Pieces;
use svn_types::{Digest, RelPath, Rev, Sha1Sum};
use svn_wcrows::LastChange;

/// What is known of a text before its bytes come.
#[derive(Clone, Copy, Debug, PartialEq, Eq)]
pub struct TextSums {
    /// How many bytes it has.
    pub len: u64,
    /// Its MD5 checksum.
    pub md5: Digest,
}

/// What is known of a history beside its tree: its texts, piece by piece, and each node's last change.
pub trait Source: Pieces {
    /// Begins the text with this SHA-1 checksum, whose pieces come next, and returns what is known of it; none if the text isn't given. The pieces may be
    /// any: whether they are the text is seen by their checksum, once they are in a file.
    fn begin_text(&mut self, sha1: &Sha1Sum) -> Option<TextSums>;

    /// The last change of the node at a path of a revision, if it is known. Take the result apart by `match`.
    fn last_change(
        &self,
        alloc: Global,
        rev: Rev,
        path: &RelPath,
    ) -> Result<Option<LastChange<'_>>, AllocError>;
}
