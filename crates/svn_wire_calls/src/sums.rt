//! The checksums of a text that is read piece by piece.
ghost use Rattle.std.specs.Prelude.{◌≡◌, ℕ, List, [], ◌++◌, length};
ghost use Rattle.svn_wire_calls.specs.Pieces.{Sums, sums_of};

use md5::{Digest as Hasher, Md5};
use sha1::Sha1;
use svn_types::{Digest, Sha1Sum};

/// How long a text is, and its checksums.
#[derive(Clone, Copy, Debug, PartialEq, Eq)]
pub struct TextSums {
    /// How many bytes it has.
    pub len: u64,
    /// Its MD5 checksum.
    pub md5: Digest,
    /// Its SHA-1 checksum.
    pub sha1: Sha1Sum,
}

/// The checksums of what was read so far.
#[derive(Drop)]
pub(crate) struct Running {
    md5: Md5,
    sha1: Sha1,
}

impl Running {
    /// Nothing was read.
    pub(crate) fn new() -> Running
        ensures { Sums result [] }
    {
        Running {
            md5: Md5::new(),
            sha1: Sha1::new(),
        }
    }

    /// A piece was read.
    pub(crate) fn update(&mut self, piece: &[u8])
        ensures { (m : List ℕ) → Sums self.old m → Sums self.new (m ++ piece.now) }
    {
        self.md5.update(piece);
        self.sha1.update(piece);
    }

    /// The checksums of a text that has so many bytes.
    pub(crate) fn finish(self, len: u64) -> TextSums
        ensures { (m : List ℕ) → Sums self m → length m ≡ len → result ≡ sums_of m }
    {
        let Running { md5, sha1 } = self;
        let md5 = md5.finalize();
        let sha1 = sha1.finalize();
        TextSums {
            len,
            md5: Digest(md5),
            sha1: Sha1Sum(sha1),
        }
    }
}
