//! Properties of nodes.
ghost use Rattle.std.specs.Prelude.{◌≡◌, ◌↔◌, ◌&&◌, IsTrue, [], length, nat_eq, OnOk, OnErr};
ghost use Rattle.std.specs.Cmp.{and_equiv, and_per, on_equiv, on_per, partial_equiv_from_equiv};
ghost use Rattle.std.specs.Cmp.Lexicographic.{pointwise, nat_list_eq_equiv, lists_equiv, lists_per};
ghost use Rattle.std.specs.Option.{option_copied};
ghost use Rattle.std.specs.Map.{lookup, remove_entry};
ghost use Rattle.std.specs.BTreeMap.{is_at, insert_entry};
ghost use Rattle.svn_types.specs.Names.{name_cmp};
ghost use Rattle.svn_types.specs.Pairs.{InNameOrder};

use crate::prop_name::PropName;
use crate::text::Text;
use std::alloc::{AllocError, Global};
use std::collections::BTreeMap;
use std::collections::btree_map::Iter;
use std::marker::Model;

/// The properties of a node (`svn_props.h`): values by their names, each name once. A contract sees them as the pairs in byte order of the names.
/// Neither their number nor the length of a value is bounded here; a commit and an edit refuse values of over 1,048,576 bytes.
#[derive(Debug, Drop)]
pub struct Props {
    map: BTreeMap<PropName, Text>,
}

impl Model for Props {
    ghost use Rattle.std.specs.Prelude.{ℕ, List};
    ghost use Rattle.svn_types.specs.Pairs.{InNameOrder};

    ghost Value = { List (List ℕ × List ℕ) };

    ghost view = { λ p. p.map.entries };

    ghost invariant = { λ p. InNameOrder p.map.entries };
}

impl Props {
    /// No properties. It takes no memory.
    pub fn new(alloc: Global) -> Props
        ensures { result ≡ [] }
    {
        Props {
            map: BTreeMap::new(alloc),
        }
    }

    /// How many there are. Nothing but memory limits it.
    pub fn len(&self) -> usize
        ensures { result ≡ length self.now }
    {
        self.map.len()
    }

    /// Whether there are none.
    pub fn is_empty(&self) -> bool
        ensures { IsTrue result ↔ (self.now ≡ []) }
    {
        self.map.is_empty()
    }

    /// Whether the properties are the same ones, with the same values.
    pub fn is_same(&self, other: &Props) -> bool
        ensures { IsTrue result ↔ (self.now ≡ other.now) }
    {
        self.map == other.map
    }

    /// The properties as a map, in byte order of the names. It takes no memory.
    pub fn as_map(&self) -> &BTreeMap<PropName, Text>
        ensures { result.now.entries ≡ self.now }
    {
        &self.map
    }

    /// The names and values, in byte order of the names. It takes no memory.
    pub fn iter(&self) -> Iter<'_, PropName, Text>
        ensures rest { result ≡ self.now }
        ensures ordered { InNameOrder self.now }
    {
        self.map.iter()
    }

    /// The value under a name, if it is set.
    pub fn get(&self, name: &PropName) -> Option<&Text>
        ensures { option_copied result ≡ lookup (is_at (name_cmp name.now)) self.now }
    {
        self.map.get(name)
    }

    /// Sets a property; the value before goes. AllocError if an allocation fails, and then nothing has changed.
    pub fn insert(&mut self, name: PropName, value: Text) -> Result<(), AllocError>
        ensures ok { OnOk result (self.new ≡ insert_entry name_cmp self.old name value) }
        ensures err { OnErr result (self.new ≡ self.old) }
    {
        self.map.insert(name, value)?;
        Ok(())
    }

    /// Removes a property, if it is set. It takes no memory.
    pub fn remove(&mut self, name: &PropName)
        ensures { self.new ≡ remove_entry (is_at (name_cmp name.now)) self.old }
    {
        self.map.remove(name);
    }
}

impl<'a> IntoIterator for &'a Props {
    type Item = (&'a PropName, &'a Text);

    type IntoIter = Iter<'a, PropName, Text>;

    ghost into_iter_gives = { λ props pairs. pairs ≡ props.now };

    fn into_iter(self) -> Iter<'a, PropName, Text> {
        self.iter()
    }
}

impl Clone for Props {
    ghost is_clone = { λ props copy. copy ≡ props };

    fn clone(&self) -> Result<Props, AllocError> {
        Ok(Props {
            map: self.map.clone()?,
        })
    }
}

impl PartialEq for Props {
    ghost eq = { pointwise (λ p q. pointwise nat_eq p.0 q.0 && pointwise nat_eq p.1 q.1) };

    ghost laws = { lists_per (and_per (on_per (λ p. p.0) (partial_equiv_from_equiv nat_list_eq_equiv)) (on_per (λ p. p.1) (partial_equiv_from_equiv nat_list_eq_equiv))) };

    fn eq(&self, other: &Props) -> bool {
        self.as_map() == other.as_map()
    }
}

impl Eq for Props {
    ghost laws = { lists_equiv (and_equiv (on_equiv (λ p. p.0) nat_list_eq_equiv) (on_equiv (λ p. p.1) nat_list_eq_equiv)) };
}
