//! The map.
ghost use Rattle.std.specs.Prelude.{◌≡◌, ◌<◌, ◌^◌, ◌↔◌, IsTrue, [], length, IfOk, OnOk, OnErr, Some, None};
ghost use Rattle.std.specs.Option.{option_copied};
ghost use Rattle.std.specs.Map.{remove_entry};
ghost use Rattle.std.specs.BTreeMap.{is_at, insert_entry};
ghost use Rattle.svn_types.specs.Names.{name_cmp};
ghost use Rattle.svn_types.specs.Pairs.{InNameOrder, ChangesOnly, value_of};

use crate::iter::Iter;
use crate::run::Run;
use crate::runs::{insert_pair, remove_pair, set_value, value_under};
use std::alloc::{AllocError, Global};
use std::marker::Model;
use svn_types::{Name, impossible};

// How many pairs there may be: more than fit into memory.
const MAX_LEN: usize = (1 << 63) - 1;

/// Values by names. A clone shares the names. A contract sees it as the list of its pairs, in byte order of the names.
#[derive(Debug, Drop)]
pub struct NameMap<V> {
    // Each begins after the one before.
    runs: Vec<Run<V>>,
    // How many pairs they have.
    len: usize,
}

impl<V> Model for NameMap<V> {
    ghost use Rattle.std.specs.Prelude.{◌≡◌, ◌<◌, ◌^◌, ℕ, List, length};
    ghost use Rattle.svn_types.specs.Pairs.{InNameOrder};
    ghost use Rattle.svn_name_map.specs.Runs.{joined};

    ghost Value = { List (List ℕ × V) };

    ghost view = { λ m. joined m.runs.items };

    ghost invariant = { λ m. InNameOrder (joined m.runs.items) × (m.len ≡ length (joined m.runs.items)) × (m.len < 2 ^ 63) };
}

impl<V> NameMap<V> {
    /// A map without pairs, which takes no memory until the first is put in.
    pub fn new(alloc: Global) -> NameMap<V>
        ensures { result ≡ [] }
    {
        NameMap {
            runs: Vec::new(alloc),
            len: 0,
        }
    }

    /// How many pairs there are: at most 2^63 - 1.
    pub fn len(&self) -> usize
        ensures length { result ≡ length self.now }
        ensures bounded { result < 2 ^ 63 }
    {
        self.len
    }

    /// Whether there is none.
    pub fn is_empty(&self) -> bool
        ensures { IsTrue result ↔ (self.now ≡ []) }
    {
        self.len == 0
    }

    /// The pairs, in byte order of the names. It takes no memory.
    pub fn iter(&self) -> Iter<'_, V>
        ensures all { result ≡ self.now }
        ensures ordered { InNameOrder self.now }
        ensures fits { length self.now < 2 ^ 63 }
    {
        Iter::of(self.runs.as_slice())
    }

    /// The value of a name; None where it has none. It costs the logarithm of the pairs, and takes no memory.
    pub fn get(&self, name: &Name) -> Option<&V>
        ensures { option_copied result ≡ value_of self.now name.now }
    {
        value_under(self.runs.as_slice(), name)
    }
}

impl<V: Copy> NameMap<V> {
    /// Gives a name that has a value another one, and returns the one before; None where it has none, and then nothing has changed. It takes no
    /// memory.
    pub fn set(&mut self, name: &Name, value: V) -> Option<V>
        ensures before { result ≡ value_of self.old name.now }
        ensures set { (v : V) → result ≡ Some v → self.new ≡ insert_entry name_cmp self.old name.now value }
        ensures lookups { (v : V) → result ≡ Some v → ChangesOnly self.old self.new name.now (Some value) }
        ensures unchanged { result ≡ None → self.new ≡ self.old }
        ensures ordered { InNameOrder self.old }
    {
        set_value(&mut self.runs, name, value)
    }

    /// Gives a name a value, and returns the one that it had. The only error is that there is no memory, or no room for one pair more, and then
    /// nothing has changed.
    pub fn insert(&mut self, name: Name, value: V) -> Result<Option<V>, AllocError>
        ensures before { IfOk result (λ found. found ≡ value_of self.old name) }
        ensures put { OnOk result (self.new ≡ insert_entry name_cmp self.old name value) }
        ensures lookups { OnOk result (ChangesOnly self.old self.new name (Some value)) }
        ensures unchanged { OnErr result (self.new ≡ self.old) }
    {
        if self.len == MAX_LEN {
            // memory ends before 2^63 - 1 pairs
            return Err(impossible(AllocError));
        }
        let before = insert_pair(&mut self.runs, name, value)?;
        self.len += usize::from(before.is_none());
        Ok(before)
    }

    /// Takes a name out, and returns the value that it had. The only error is that there is no memory, and then nothing has changed.
    pub fn remove(&mut self, name: &Name) -> Result<Option<V>, AllocError>
        ensures before { IfOk result (λ found. found ≡ value_of self.old name.now) }
        ensures removed { OnOk result (self.new ≡ remove_entry (is_at (name_cmp name.now)) self.old) }
        ensures lookups { OnOk result (ChangesOnly self.old self.new name.now None) }
        ensures unchanged { OnErr result (self.new ≡ self.old) }
    {
        let before = remove_pair(&mut self.runs, name)?;
        self.len -= usize::from(before.is_some());
        Ok(before)
    }
}

impl<V: Copy> Clone for NameMap<V> {
    ghost is_clone = { λ map copy. copy ≡ map };

    fn clone(&self) -> Result<NameMap<V>, AllocError> {
        Ok(NameMap {
            runs: self.runs.clone()?,
            len: self.len,
        })
    }
}
