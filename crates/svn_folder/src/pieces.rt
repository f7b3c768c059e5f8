//! Bytes that come piece by piece.
ghost use Rattle.std.specs.Prelude.{◌≡◌, ◌≤◌, ◌⊎◌, true, take, length, Some, IfOk, OnOk};
ghost use Rattle.std.specs.Io.KnownBytes.{Appends};
ghost use Rattle.svn_folder.specs.Files.{Gives};

use crate::fault::FolderFault;
use std::alloc::Global;
use svn_types::Text;

/// Bytes that come piece by piece, as those of a file that isn't held in memory.
pub trait Pieces {
    ghost use Rattle.std.specs.Prelude.{ℕ, List, [], Option, None, MatchOption, ⊤};
    ghost use Rattle.std.specs.Io.KnownBytes.{Appends};

    /// All bytes that were given so far; by default they aren't known.
    ghost given: { Self → Option (List ℕ) } = { λ _. None };

    /// Nothing more comes. By default nothing is said of that.
    ghost is_over: { Self → Type 0 } = { λ _. ⊤ };

    /// The next piece, of one byte or more; none once all were given.
    fn next_piece(&mut self, alloc: Global) -> Option<Text>
        ensures given { MatchOption result (Appends (given self.old) (given self.new) []) (λ piece. Appends (given self.old) (given self.new) piece) }
        ensures over { MatchOption result (is_over self.new) (λ piece. ⊤) };
}

// All pieces, one after the other. An error leaves those that have come so far as given.
pub(crate) fn all_of<P: Pieces>(alloc: Global, pieces: &mut P) -> Result<Text, FolderFault>
    ensures given { Gives (P.given pieces.old) (P.given pieces.new) }
    ensures bytes { IfOk result (λ bytes. Appends (P.given pieces.old) (P.given pieces.new) bytes) }
    ensures over { OnOk result (P.is_over pieces.new) }
{
    let mut bytes = Vec::new(alloc);
    'pieces: for _ in 0..u64::MAX {
        let Some(piece) = pieces.next_piece(alloc) else {
            return Ok(Text::new(bytes));
        };
        bytes.extend_from_slice(piece.as_slice())?;
    }
    // so many pieces fit into no memory
    Err(FolderFault::Memory)
}

/// Bytes that are in memory, as pieces.
#[derive(Drop)]
pub struct BytePieces<'a> {
    bytes: &'a [u8],
    size: usize,
    at: usize,
    is_short: bool,
    ghost bound: { at ≤ length bytes.now },
}

impl<'a> BytePieces<'a> {
    /// Pieces of so many bytes each, and of one at least; the last one may have fewer. If an allocation fails no more come.
    pub fn new(bytes: &'a [u8], size: usize) -> BytePieces<'a> {
        BytePieces {
            bytes,
            size: size.max(1),
            at: 0,
            is_short: false,
        }
    }
}

impl Pieces for BytePieces<'_> {
    ghost given = { λ p. Some (take p.at p.bytes.now) };

    ghost is_over = { λ p. (p.at ≡ length p.bytes.now) ⊎ (p.is_short ≡ true) };

    fn next_piece(&mut self, alloc: Global) -> Option<Text> {
        let rest = self.bytes.len() - self.at;
        if rest == 0 || self.is_short {
            return None;
        }
        let end = self.at + rest.min(self.size);
        match Text::from_slice(alloc, &self.bytes[self.at..end]) {
            Ok(piece) => {
                self.at = end;
                Some(piece)
            }
            Err(_) => {
                self.is_short = true;
                None
            }
        }
    }
}
