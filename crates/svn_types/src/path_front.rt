//! The part of a path that is in the value itself, not in its block.
ghost use Rattle.std.specs.Prelude.{◌≡◌, ◌<◌, ◌%◌, IsTrue};
ghost use Rattle.svn_types.specs.Forms.{head_in, cut_in, IsSmallCut};
ghost use Rattle.svn_types.specs.PathHeads.{second_limit};

use crate::cut::Cut;
use crate::path_head::Head;

// The second number of a head has six bytes; below them lie a byte for the names that are left out, and one for the bytes.
const BYTE: u64 = 256;

const BELOW_HEAD: u64 = 65536;

/// The head of a path and its cut, in two numbers: a cut adds no field to a path.
#[derive(Clone, Copy)]
pub(crate) struct PathFront {
    /// The first number of the head.
    pub(crate) first: u64,
    // The second number of the head, and below it the cut.
    rest: u64,
}

/// That of the root.
pub(crate) const ROOT_FRONT: PathFront = PathFront { first: 0, rest: 0 };

impl PathFront {
    /// This head and this cut.
    pub(crate) fn of(head: Head, cut: Cut) -> PathFront
        requires head { head.second < second_limit }
        requires cut { IsSmallCut cut }
        ensures head { head_in result ≡ head }
        ensures cut { cut_in result ≡ cut }
    {
        PathFront {
            first: head.first,
            rest: head.second * BELOW_HEAD + cut.names as u64 * BYTE + cut.bytes as u64,
        }
    }

    /// The second number of the head.
    pub(crate) fn second(self) -> u64
        ensures { result ≡ (head_in self).second }
    {
        self.rest / BELOW_HEAD
    }

    /// Whether all of a key lies in its head. No key has a zero byte, so a zero at the end of the head comes after the key.
    #[inline(always)]
    pub(crate) fn is_whole(self) -> bool
        ensures { IsTrue result → (head_in self).second % 256 ≡ 0 }
    {
        self.second() % BYTE == 0
    }

    /// The cut.
    pub(crate) fn cut(self) -> Cut
        ensures { result ≡ cut_in self }
    {
        Cut {
            names: (self.rest / BYTE % BYTE) as u8,
            bytes: (self.rest % BYTE) as u8,
        }
    }
}
