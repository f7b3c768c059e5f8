//! Keys of paths that lie in the value itself.
ghost use Rattle.std.specs.Prelude.{◌≡◌, ◌+◌, ◌<◌, ◌≤◌, ◌∷◌, ◌++◌, [], length, IsUtf8, true};
ghost use Rattle.svn_types.specs.PathKeys.{path_key, is_plain_path};

use crate::name::Name;
use crate::short_bytes::ShortBytes;
use std::marker::Model;
use std::str;

/// A key of at most `K` bytes, which takes no memory of its own. `K` is below 256. A contract sees it as its bytes, which are a text.
#[derive(Drop)]
pub(crate) struct ShortKey<const K: usize> {
    bytes: ShortBytes<K>,
}

impl<const K: usize> Model for ShortKey<K> {
    ghost use Rattle.std.specs.Prelude.{ℕ, List, IsUtf8};

    ghost Value = { List ℕ };

    ghost view = { λ k. k.bytes };

    ghost invariant = { λ k. ∥ IsUtf8 k.bytes ∥₁ };
}

impl<const K: usize> ShortKey<K> {
    /// The key of no name.
    pub(crate) fn empty() -> ShortKey<K>
        ensures key { result ≡ [] }
        ensures text { ∥ IsUtf8 result ∥₁ }
    {
        ShortKey {
            bytes: ShortBytes::new(),
        }
    }

    /// The key of these names, which has at most `K` bytes.
    pub(crate) fn of(names: &[Name]) -> ShortKey<K>
        requires small { K < 256 }
        requires fits { length (path_key names.now) ≤ K }
        ensures key { result ≡ path_key names.now }
        ensures plain { is_plain_path names.now ≡ true }
        ensures text { ∥ IsUtf8 result ∥₁ }
    {
        let mut bytes = ShortBytes::new();
        for name in names {
            bytes.push_all(name.as_str().as_bytes());
            bytes.push_all(&[1]);
        }
        ShortKey { bytes }
    }

    /// The key that is these texts, one after the other, which have at most `K` bytes.
    pub(crate) fn joined(above: &str, below: &str, end: &str) -> ShortKey<K>
        requires small { K < 256 }
        requires fits { length above.now + length below.now + length end.now ≤ K }
        ensures key { result ≡ above.now ++ below.now ++ end.now }
        ensures text { ∥ IsUtf8 result ∥₁ }
    {
        let mut bytes = ShortBytes::of(above.as_bytes());
        bytes.push_all(below.as_bytes());
        bytes.push_all(end.as_bytes());
        ShortKey { bytes }
    }

    /// Its text.
    pub(crate) fn as_str(&self) -> &str
        ensures { result.now ≡ self.now }
    {
        unsafe { str::from_utf8_unchecked(self.bytes.as_slice()) }
    }
}
