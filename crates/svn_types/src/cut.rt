//! What a path leaves out at the front of its block.
ghost use Rattle.std.specs.Prelude.{◌≡◌, ◌+◌, ◌<◌, ◌≤◌, length, IfSome};
ghost use Rattle.svn_types.specs.Forms.{IsSmallCut};
ghost use Rattle.svn_types.specs.Names.{depth_limit};
ghost use Rattle.svn_types.specs.PathKeys.{path_key};

use crate::name::Name;

// The most names, and the most bytes of the key, that a path leaves out. A path keeps its whole block alive, so what it leaves out
// must be little; the roots of most working copies are shorter than this.
const MAX_CUT_NAMES: usize = 4;

const MAX_CUT_BYTES: usize = 64;

/// How many names, and how many bytes of the key, a path leaves out at the front of its block: a path that is the tail of another may lie in the
/// same block.
#[derive(Clone, Copy)]
pub(crate) struct Cut {
    pub(crate) names: u8,
    pub(crate) bytes: u8,
}

/// Nothing is left out.
pub(crate) const UNCUT: Cut = Cut { names: 0, bytes: 0 };

/// How many bytes the key of some names has, if a path may have that many names.
pub(crate) fn key_len(names: &[Name]) -> usize
    requires { length names.now ≤ depth_limit }
    ensures len { result ≡ length (path_key names.now) }
    ensures bounded { result < 65536 }
{
    let mut len = 0;
    for name in names {
        len += name.as_str().len() + 1;
    }
    len
}

impl Cut {
    /// The cut that leaves out these names too, if it stays small: at most 4 names and 64 bytes.
    pub(crate) fn further(self, front: &[Name]) -> Option<Cut>
        ensures names { IfSome result (λ c. c.names ≡ self.names + length front.now) }
        ensures bytes { IfSome result (λ c. c.bytes ≡ self.bytes + length (path_key front.now)) }
        ensures small { IfSome result IsSmallCut }
    {
        let names = self.names as usize + front.len();
        if names > MAX_CUT_NAMES {
            return None;
        }
        let bytes = self.bytes as usize + key_len(front);
        if bytes > MAX_CUT_BYTES {
            return None;
        }
        Some(Cut {
            names: names as u8,
            bytes: bytes as u8,
        })
    }
}
