//! What is noted of a record while it is read.
ghost use Rattle.std.specs.Prelude.{◌≡◌, None};

use crate::index::RevisionNote;
use svn_types::{Digest, Sha1Sum};

/// How long a whole text is, and its checksums.
#[derive(Clone, Copy)]
pub(crate) struct TextSums {
    pub(crate) len: u64,
    pub(crate) md5: Digest,
    pub(crate) sha1: Sha1Sum,
}

/// What is noted of one record.
#[derive(Drop)]
pub(crate) struct Notes {
    /// Whether an index is kept: without one a revision's properties are passed over.
    pub(crate) wanted: bool,
    /// What a revision's properties say.
    pub(crate) revision: RevisionNote,
    /// Of a node's text, if it is given whole.
    pub(crate) text: Option<TextSums>,
}

impl Notes {
    /// Nothing is noted yet.
    pub(crate) fn new(wanted: bool) -> Notes
        ensures wanted { result.wanted ≡ wanted }
        ensures text { result.text ≡ None }
    {
        Notes {
            wanted,
            revision: RevisionNote {
                date: None,
                author: None,
            },
            text: None,
        }
    }
}
