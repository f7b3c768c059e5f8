//! Sets of names that mostly come in order.
ghost use Rattle.std.specs.Prelude.{◌≡◌, [], OnOk};
ghost use Rattle.std.specs.List.{list_any};
ghost use Rattle.std.specs.Prelude.{bytes_eq, slice_get, length, ◌-◌};
ghost use Rattle.std.specs.List.Sorted.{IsSorted};
ghost use Rattle.svn_types.specs.Names.{name_cmp};
ghost use Rattle.svn_order.specs.NameSets.{has_name, Inserts, is_behind};

use std::alloc::{AllocError, Global};
use std::collections::BTreeSet;
use std::marker::Model;
use svn_types::Name;

/// A set of names. Those that came in their order are in a list, so that a name after its last costs one comparison; the others are in a
/// tree, so that no order of names is expensive.
#[derive(Debug, Drop)]
pub struct NameSet {
    in_order: Vec<Name>,
    others: BTreeSet<Name>,
}

impl Model for NameSet {
    ghost use Rattle.std.specs.Prelude.{ℕ, List, ◌++◌};
    ghost use Rattle.std.specs.List.Sorted.{IsSorted};
    ghost use Rattle.svn_types.specs.Names.{name_cmp};

    ghost Value = { List (List ℕ) };

    ghost view = { λ s. s.in_order.items ++ s.others.keys };

    ghost invariant = { λ s. IsSorted name_cmp s.in_order.items };
}

// Whether a name is after the last of some names, or there is none.
fn is_behind(names: &[Name], name: &Name) -> bool
    ensures { result ≡ is_behind (slice_get names.now (length names.now - 1)) name.now }
{
    match names.last() {
        Some(last) => last.cmp(name).is_lt(),
        None => true,
    }
}

// Whether a name is among names in order.
fn is_among(names: &[Name], name: &Name) -> bool
    requires { IsSorted name_cmp names.now }
    ensures { result ≡ list_any (bytes_eq name.now) names.now }
{
    if is_behind(names, name) {
        return false;
    }
    match names.binary_search(name) {
        Ok(_) => true,
        Err(_) => false,
    }
}

impl NameSet {
    /// No names. It takes no memory.
    pub fn new(alloc: Global) -> NameSet
        ensures { result ≡ [] }
    {
        NameSet {
            in_order: Vec::new(alloc),
            others: BTreeSet::new(alloc),
        }
    }

    /// Whether it has the name.
    pub fn contains(&self, name: &Name) -> bool
        ensures { result ≡ has_name self.now name.now }
    {
        is_among(&self.in_order, name) || self.others.contains(name)
    }

    /// Puts a name into it. AllocError if an allocation fails.
    pub fn insert(&mut self, name: Name) -> Result<(), AllocError>
        ensures { OnOk result (Inserts self.old name self.new) }
    {
        if is_behind(&self.in_order, &name) {
            self.in_order.push(name)?;
        } else {
            self.others.insert(name)?;
        }
        Ok(())
    }
}
