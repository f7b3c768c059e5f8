//! The pairs of a map, one after the other, the next of them ready to be read.
ghost use Rattle.std.specs.Prelude.{◌≡◌, ◌∷◌, [], List, MatchOption};
ghost use Rattle.std.specs.BTreeMap.{IsOrdered, IsRun};
ghost use Rattle.std.specs.BTreeMap.Range.{entries_between};
ghost use Rattle.std.specs.Map.Iter.{deref_pair};
ghost use Rattle.std.specs.declared.ops.Bound.TheVariants.{Included, Unbounded};
ghost use Rattle.svn_nodes.specs.Ahead.{behind_first};

use std::collections::BTreeMap;
use std::collections::btree_map::Range;
use std::marker::Model;
use std::ops::Bound;

/// What is left of the pairs of a map, in the order of their keys. A contract sees it as these pairs. None of its calls takes memory.
#[derive(Drop)]
pub struct Ahead<'a, K, V> {
    next: Option<(&'a K, &'a V)>,
    // after that one
    left: Range<'a, K, V>,
}

impl<'a, K, V> Model for Ahead<'a, K, V> {
    ghost use Rattle.std.specs.Prelude.{◌≡◌, List, [], None, option_map};
    ghost use Rattle.std.specs.List.{cons_option};
    ghost use Rattle.std.specs.Map.Iter.{deref_pair};

    ghost Value = { List (K × V) };

    ghost view = { λ a. cons_option (option_map deref_pair a.next) a.left };

    ghost invariant = { λ a. a.next ≡ None → a.left ≡ [] };
}

impl<'a, K: Ord, V> Ahead<'a, K, V> {
    fn new(mut left: Range<'a, K, V>) -> Ahead<'a, K, V>
        ensures { result ≡ left.entry }
    {
        let next = left.next();
        Ahead { next, left }
    }

    /// All pairs of a map.
    pub fn of(map: &'a BTreeMap<K, V>) -> Ahead<'a, K, V>
        ensures all { result ≡ map.now.entries }
        ensures ordered { IsOrdered K.cmp map.now }
    {
        Ahead::new(map.range(..))
    }

    /// The pairs of a map from a key on.
    pub(crate) fn from(map: &'a BTreeMap<K, V>, key: &K) -> Ahead<'a, K, V>
        ensures behind { result ≡ entries_between K.cmp (Included key.now) Unbounded map.now.entries }
        ensures run { IsRun map.now result }
        ensures ordered { IsOrdered K.cmp map.now }
    {
        Ahead::new(map.range((Bound::Included(key), Bound::Unbounded)))
    }

    /// The next pair, if one is left. It isn't passed.
    pub fn first(&self) -> Option<(&'a K, &'a V)>
        ensures { MatchOption result (self.now ≡ []) (λ e. self.now ≡ deref_pair e ∷ behind_first self.now) }
    {
        self.next
    }

    /// Passes the next pair, if one is left.
    pub fn advance(&mut self)
        ensures { self.new ≡ behind_first self.old }
    {
        self.next = self.left.next();
    }
}
