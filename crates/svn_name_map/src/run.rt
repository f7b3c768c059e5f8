//! Some neighbouring pairs of a map.
ghost use Rattle.std.specs.Prelude.{◌≡◌, ℕ, ◌<◌, ◌≤◌, List, [], ◌∷◌, ◌++◌, length, take, drop, IfOk, OnOk, OnErr, set, slice_get, Some, MatchResult};
ghost use Rattle.std.specs.Arc.{arc_value};
ghost use Rattle.std.specs.List.{insert, remove, zip};
ghost use Rattle.std.specs.List.Sorted.{IsStrictlySortedBy};
ghost use Rattle.std.specs.Map.{keys_of, values_of};
ghost use Rattle.std.specs.Ordering.{is_gt};
ghost use Rattle.svn_types.specs.Names.{name_cmp};
ghost use Rattle.svn_types.specs.Pairs.{InNameOrder};
ghost use Rattle.svn_name_map.specs.Runs.{IsFoundAt, IsPlaceFor};

use std::alloc::{AllocError, Global};
use std::cmp::Ordering;
use std::marker::Model;
use std::mem::replace;
use std::sync::Arc;
use svn_types::Name;

/// The most pairs of a run.
pub(crate) const MAX_RUN: usize = 256;

/// Some pairs of a map, at least one, in order of their names. A contract sees it as these pairs.
#[derive(Debug, Drop)]
pub(crate) struct Run<V> {
    // Clones share the names.
    names: Arc<Vec<Name>>,
    values: Vec<V>,
}

impl<V> Model for Run<V> {
    ghost use Rattle.std.specs.Prelude.{◌≡◌, ◌<◌, ℕ, List, length};
    ghost use Rattle.std.specs.Arc.{arc_value};
    ghost use Rattle.std.specs.List.{zip};
    ghost use Rattle.std.specs.List.Sorted.{IsStrictlySortedBy};
    ghost use Rattle.svn_types.specs.Names.{name_cmp};

    ghost Value = { List (List ℕ × V) };

    ghost view = { λ r. zip (arc_value r.names).items r.values.items };

    ghost invariant = { λ r. (length r.values.items ≡ length (arc_value r.names).items) × (0 < length r.values.items) × IsStrictlySortedBy name_cmp (arc_value r.names).items };
}

impl<V> Run<V> {
    /// A run of one pair.
    pub(crate) fn of(alloc: Global, name: Name, value: V) -> Result<Run<V>, AllocError>
    where
        V: Drop,
        ensures { IfOk result (λ r. r ≡ (name, value) ∷ []) }
    {
        let mut names = Vec::new(alloc);
        names.push(name)?;
        let mut values = Vec::new(alloc);
        values.push(value)?;
        Ok(Run {
            names: Arc::new(alloc, names)?,
            values,
        })
    }

    pub(crate) fn len(&self) -> usize
        ensures length { result ≡ length self.now }
        ensures some { 0 < result }
    {
        self.values.len()
    }

    /// The names, in order.
    pub(crate) fn names(&self) -> &[Name]
        ensures names { result.now ≡ keys_of self.now }
        ensures ordered { InNameOrder self.now }
        ensures some { 0 < length self.now }
    {
        self.names.as_slice()
    }

    /// The values, in order of their names.
    pub(crate) fn values(&self) -> &[V]
        ensures { result.now ≡ values_of self.now }
    {
        self.values.as_slice()
    }

    /// Whether its first name is after a name.
    pub(crate) fn begins_after(&self, name: &Name) -> bool
        ensures value { (q : List ℕ) → slice_get (keys_of self.now) 0 ≡ Some q → result ≡ is_gt (name_cmp q name.now) }
        ensures ordered { InNameOrder self.now }
        ensures some { 0 < length self.now }
    {
        self.names()[0].cmp(name).is_gt()
    }

    /// Where a name is, or where it would be. Names mostly come in their order; then a comparison with the last one suffices.
    pub(crate) fn find(&self, name: &Name) -> Result<usize, usize>
        ensures { MatchResult result (IsFoundAt self.now name.now) (IsPlaceFor self.now name.now) }
    {
        let names = self.names();
        let last = names.len() - 1;
        match names[last].cmp(name) {
            Ordering::Less => Err(names.len()),
            Ordering::Equal => Ok(last),
            Ordering::Greater => names.binary_search(name),
        }
    }

    /// Gives the name at a place another value, and returns the one before.
    pub(crate) fn set(&mut self, place: usize, value: V) -> V
        requires { place < length self.old }
        ensures before { slice_get (values_of self.old) place ≡ Some result }
        ensures set { self.new ≡ zip (keys_of self.old) (set (values_of self.old) place value) }
    {
        replace(&mut self.values[place], value)
    }

    /// Puts a pair in at a place.
    pub(crate) fn insert(&mut self, place: usize, name: Name, value: V) -> Result<(), AllocError>
    where
        V: Drop,
        requires { IsPlaceFor self.old name place }
        ensures ok { OnOk result (self.new ≡ insert self.old place (name, value)) }
        ensures err { OnErr result (self.new ≡ self.old) }
    {
        self.values.reserve(1)?;
        insert_name(&mut self.names, place, name)?;
        match self.values.insert(place, value) {
            Ok(()) => Ok(()),
            Err(_) => unreachable!(),
        }
    }

    /// Takes the pair at a place out, where it isn't the only one, and returns its value.
    pub(crate) fn remove(&mut self, place: usize) -> Result<V, AllocError>
    where
        V: Drop,
        requires place { place < length self.old }
        requires more { 1 < length self.old }
        ensures value { IfOk result (λ v. slice_get (values_of self.old) place ≡ Some v) }
        ensures ok { OnOk result (self.new ≡ remove self.old place) }
        ensures err { OnErr result (self.new ≡ self.old) }
    {
        Arc::make_mut(&mut self.names)?.remove(place);
        Ok(self.values.remove(place))
    }
}

// Puts a name in at a place. Where the names are shared, the copy has room for that one and no more.
fn insert_name(names: &mut Arc<Vec<Name>>, place: usize, name: Name) -> Result<(), AllocError>
    requires { place ≤ length (arc_value names.old).items }
    ensures ok { OnOk result ((arc_value names.new).items ≡ insert (arc_value names.old).items place name) }
    ensures err { OnErr result ((arc_value names.new).items ≡ (arc_value names.old).items) }
{
    if let Some(own) = Arc::get_mut(names) {
        own.insert(place, name)?;
    } else {
        let alloc = *names.allocator();
        let copy = with_name(alloc, names.as_slice(), place, name)?;
        *names = Arc::new(alloc, copy)?;
    }
    Ok(())
}

// Copies of the names, and one more put in at a place.
fn with_name(
    alloc: Global,
    names: &[Name],
    place: usize,
    name: Name,
) -> Result<Vec<Name>, AllocError>
    requires { place ≤ length names.now }
    ensures { IfOk result (λ v. v.items ≡ insert names.now place name) }
{
    let (before, after) = names.split_at(place);
    let mut all = Vec::with_capacity(alloc, names.len() + 1)?;
    all.extend_with_clones(before)?;
    all.push(name)?;
    all.extend_with_clones(after)?;
    Ok(all)
}

impl<V: Copy> Run<V> {
    /// Two runs with copies of the pairs, and one more put in at a place.
    pub(crate) fn with(
        &self,
        alloc: Global,
        place: usize,
        name: Name,
        value: V,
    ) -> Result<(Run<V>, Run<V>), AllocError>
        requires place { IsPlaceFor self.now name place }
        requires more { 1 < length self.now }
        ensures { IfOk result (λ h. h.0 ++ h.1 ≡ insert self.now place (name, value)) }
    {
        let half = self.len() / 2;
        let (mut before, mut after) = self.halves(alloc, half)?;
        if place <= half {
            before.insert(place, name, value)?;
        } else {
            after.insert(place - half, name, value)?;
        }
        Ok((before, after))
    }

    // A copy of the pairs before a place, and one of those from it on.
    fn halves(&self, alloc: Global, place: usize) -> Result<(Run<V>, Run<V>), AllocError>
        requires some { 0 < place }
        requires less { place < length self.now }
        ensures before { IfOk result (λ h. h.0 ≡ take place self.now) }
        ensures after { IfOk result (λ h. h.1 ≡ drop place self.now) }
    {
        let (names, more_names) = self.names().split_at(place);
        let (values, more_values) = self.values().split_at(place);
        let before = Run::copied(alloc, names, values)?;
        let after = Run::copied(alloc, more_names, more_values)?;
        Ok((before, after))
    }

    // A run with copies of these names and values.
    fn copied(alloc: Global, names: &[Name], values: &[V]) -> Result<Run<V>, AllocError>
        requires length { length values.now ≡ length names.now }
        requires some { 0 < length names.now }
        requires ordered { IsStrictlySortedBy name_cmp names.now }
        ensures { IfOk result (λ r. r ≡ zip names.now values.now) }
    {
        let names = Vec::from_clones(alloc, names)?;
        Ok(Run {
            names: Arc::new(alloc, names)?,
            values: Vec::from_slice(alloc, values)?,
        })
    }
}

impl<V: Copy> Clone for Run<V> {
    ghost is_clone = { λ run copy. copy ≡ run };

    fn clone(&self) -> Result<Run<V>, AllocError> {
        Ok(Run {
            names: self.names.clone()?,
            values: Vec::from_slice(*self.values.allocator(), self.values.as_slice())?,
        })
    }
}
