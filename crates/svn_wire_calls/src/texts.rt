//! What the texts of calls stand for, and where these are.
ghost use Rattle.std.specs.Prelude.{◌≡◌, true, Some, None, IfOk, IfSome, IfNone};
ghost use Rattle.svn_wire_calls.specs.Pieces.{sums_of};

use crate::entered::NothingTold;
use crate::sums::TextSums;
use std::alloc::{AllocError, Global};
use std::io;
use svn_types::{Digest, Text};

/// Why something isn't written.
#[derive(Debug, Drop)]
pub enum SendFault {
    /// The writer failed.
    Write(io::Error),
    /// The file of the texts can't be read.
    Texts(io::Error),
    /// A text isn't known, or its checksum.
    Unknown,
    /// What was read isn't the text, as its checksums show.
    OtherText,
    /// An allocation failed.
    Memory,
}

impl From<AllocError> for SendFault {
    fn from(_error: AllocError) -> SendFault {
        SendFault::Memory
    }
}

/// Where a text is in a file.
#[derive(Clone, Copy, Debug, PartialEq, Eq)]
pub struct Stretch {
    /// How many bytes of the file are before it.
    pub begin: u64,
    /// How many bytes it has.
    pub len: u64,
}

/// What the texts of calls stand for.
pub trait TextMap {
    ghost use Rattle.std.specs.Prelude.{ℕ, List};
    ghost use Rattle.md5.specs.Md5.{md5};

    // the texts that one stands for
    ghost stands_for: { Self → List ℕ → List ℕ → Type 0 };

    // the checksums that are known of these, by the checksum of the one that stands for them
    ghost sums: { Self → List ℕ → List ℕ → Type 0 };

    /// Whether each text stands for itself.
    fn is_whole(&self) -> bool
        ensures { result ≡ true → (sum : List ℕ) → sums self.now sum sum };

    /// Where the text is that one stands for; None where it stands for itself.
    fn place(&self, alloc: Global, held: &Text) -> Result<Option<Stretch>, SendFault>
        ensures { IfOk result (λ place. IfNone place (stands_for self.now held.now held.now)) };

    /// Whether a text with these checksums is one that `held` stands for.
    fn is_text(&self, alloc: Global, held: &Text, found: &TextSums) -> Result<bool, SendFault>
        ensures { IfOk result (λ is. is ≡ true → (text : List ℕ) → found.now ≡ sums_of text → stands_for self.now held.now text) };

    /// The checksum of the text that one stands for, if it is known.
    fn known_sum(&self, alloc: Global, held: &Text) -> Result<Option<Digest>, SendFault>
        ensures { IfOk result (λ known. IfSome known (λ sum. sums self.now (md5 held.now) sum)) };
}

// Each text stands for itself.
impl TextMap for NothingTold {
    ghost use Rattle.std.specs.Prelude.{◌≡◌};

    ghost stands_for = { λ _ held text. text ≡ held };

    ghost sums = { λ _ sum known. known ≡ sum };

    fn is_whole(&self) -> bool {
        true
    }

    fn place(&self, _alloc: Global, _held: &Text) -> Result<Option<Stretch>, SendFault> {
        Ok(None)
    }

    fn is_text(&self, _alloc: Global, _held: &Text, _found: &TextSums) -> Result<bool, SendFault> {
        Ok(false)
    }

    fn known_sum(&self, _alloc: Global, held: &Text) -> Result<Option<Digest>, SendFault> {
        Ok(Some(held.checksum()))
    }
}
