//! Node numbers, and the entries of a directory.
ghost use Rattle.std.specs.Prelude.{◌≡◌, ◌↔◌, IsTrue, ℕ, ◌<◌, ◌≤◌, ◌^◌, List, [], length, IfOk, OnOk, OnErr, Some, None};
ghost use Rattle.std.specs.List.{All};
ghost use Rattle.std.specs.Map.{lookup, remove_entry};
ghost use Rattle.std.specs.BTreeMap.{is_at, insert_entry};
ghost use Rattle.svn_types.specs.Names.{name_cmp};
ghost use Rattle.svn_types.specs.Pairs.{InNameOrder, ChangesOnly, value_of};

use std::alloc::{AllocError, Global};
use std::marker::Model;
use svn_name_map::{Iter, NameMap};
use svn_types::Name;

/// Names a node revision of a repository (a node-revision ID, `svn_fs_id_t` of `svn_fs.h`). Two that are equal have one line, one content and one
/// subtree. A repository returns None of one that it doesn't have, as another's may be. A contract sees it as its number.
#[derive(Clone, Copy, Debug, PartialEq, Eq, PartialOrd, Ord, Hash)]
pub struct NodeId {
    pub(crate) index: usize,
}

impl Model for NodeId {
    ghost use Rattle.std.specs.Prelude.{ℕ};

    ghost Value = { ℕ };

    ghost view = { λ n. n.index };

    ghost inverse = { λ n. record { index = n } };
}

/// The entries of a directory: a node under each name; only memory limits their number. A contract sees them as pairs of a name and a
/// node, in byte order of the names.
#[derive(Debug, Drop)]
pub struct Entries {
    map: NameMap<NodeId>,
}

impl Model for Entries {
    ghost use Rattle.std.specs.Prelude.{ℕ, List};

    ghost Value = { List (List ℕ × ℕ) };

    ghost view = { λ e. e.map };
}

impl Entries {
    /// No entries. It takes no memory.
    pub(crate) fn new(alloc: Global) -> Entries
        ensures { result ≡ [] }
    {
        Entries {
            map: NameMap::new(alloc),
        }
    }

    /// The node under a name, if there is one. It takes no memory.
    pub fn get(&self, name: &Name) -> Option<NodeId>
        ensures { result ≡ lookup (is_at (name_cmp name.now)) self.now }
    {
        self.map.get(name).copied()
    }

    /// How many entries there are.
    pub fn len(&self) -> usize
        ensures { result ≡ length self.now }
    {
        self.map.len()
    }

    /// Whether there is none.
    pub fn is_empty(&self) -> bool
        ensures { IsTrue result ↔ (self.now ≡ []) }
    {
        self.map.is_empty()
    }

    /// The names and nodes, in byte order of the names. It takes no memory.
    pub fn iter(&self) -> Iter<'_, NodeId>
        ensures rest { result ≡ self.now }
        ensures ordered { InNameOrder self.now }
        ensures fits { length self.now < 2 ^ 63 }
        ensures found { All (λ e. value_of self.now e.0 ≡ Some e.1) self.now }
    {
        self.map.iter()
    }

    // Makes a name lead to a node, and returns where it led.
    pub(crate) fn insert(&mut self, name: Name, node: NodeId) -> Result<Option<NodeId>, AllocError>
        ensures found { IfOk result (λ found. found ≡ value_of self.old name) }
        ensures ok { OnOk result (self.new ≡ insert_entry name_cmp self.old name node) }
        ensures lookups { OnOk result (ChangesOnly self.old self.new name (Some node)) }
        ensures err { OnErr result (self.new ≡ self.old) }
    {
        Ok(self.map.insert(name, node)?)
    }

    // Makes a name lead to another node, if it leads to one below a bound, and returns where it led. It takes no memory.
    pub(crate) fn redirect(&mut self, name: &Name, bound: usize, node: NodeId) -> Option<NodeId>
        ensures found { result ≡ value_of self.old name.now }
        ensures stays { (n : ℕ) → result ≡ Some n → bound ≤ n → self.new ≡ self.old }
        ensures leads { (n : ℕ) → result ≡ Some n → n < bound → self.new ≡ insert_entry name_cmp self.old name.now node }
        ensures lookups { (n : ℕ) → result ≡ Some n → n < bound → ChangesOnly self.old self.new name.now (Some node) }
    {
        let found = self.map.set(name, node)?;
        if found.index < bound {
            return Some(found);
        }
        self.map.set(name, found);
        Some(found)
    }

    // Makes a name lead nowhere, and returns where it led.
    pub(crate) fn remove(&mut self, name: &Name) -> Result<Option<NodeId>, AllocError>
        ensures found { IfOk result (λ found. found ≡ value_of self.old name.now) }
        ensures ok { OnOk result (self.new ≡ remove_entry (is_at (name_cmp name.now)) self.old) }
        ensures lookups { OnOk result (ChangesOnly self.old self.new name.now None) }
        ensures err { OnErr result (self.new ≡ self.old) }
    {
        self.map.remove(name)
    }
}

impl<'a> IntoIterator for &'a Entries {
    type Item = (&'a Name, &'a NodeId);

    type IntoIter = Iter<'a, NodeId>;

    ghost into_iter_gives = { λ entries pairs. pairs ≡ entries.now };

    fn into_iter(self) -> Iter<'a, NodeId> {
        self.iter()
    }
}

impl Clone for Entries {
    ghost is_clone = { λ entries copy. copy ≡ entries };

    fn clone(&self) -> Result<Entries, AllocError> {
        Ok(Entries {
            map: self.map.clone()?,
        })
    }
}
