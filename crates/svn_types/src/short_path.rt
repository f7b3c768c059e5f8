//! Paths of a few short names.
ghost use Rattle.std.specs.Prelude.{◌≡◌, true};
ghost use Rattle.svn_types.specs.PathKeys.{path_key, is_plain_path};

use crate::name::Name;
use crate::short_key::ShortKey;
use std::marker::Model;

/// `N` names, and beside them their key of at most `K` bytes: names that are short themselves take no other block. A contract sees it as the list
/// of the names.
#[derive(Drop)]
pub(crate) struct ShortPath<const N: usize, const K: usize> {
    // The key comes first, as in a `PathBlock`.
    pub(crate) key: ShortKey<K>,
    pub(crate) names: [Name; N],
}

impl<const N: usize, const K: usize> Model for ShortPath<N, K> {
    ghost use Rattle.std.specs.Prelude.{◌≡◌, ℕ, List, true};
    ghost use Rattle.svn_types.specs.PathKeys.{path_key, is_plain_path};

    ghost Value = { List (List ℕ) };

    ghost view = { λ p. p.names };

    ghost invariant = { λ p. (is_plain_path p.names ≡ true) × (p.key ≡ path_key p.names) };
}

impl<const N: usize, const K: usize> ShortPath<N, K> {
    /// The names, from the root down.
    pub(crate) fn names(&self) -> &[Name]
        ensures { result.now ≡ self.now }
    {
        &self.names
    }

    /// Their key.
    pub(crate) fn key(&self) -> &str
        ensures key { result.now ≡ path_key self.now }
        ensures plain { is_plain_path self.now ≡ true }
    {
        self.key.as_str()
    }
}
