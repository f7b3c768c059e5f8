//! The runs of a map, each after the one before.
ghost use Rattle.std.specs.Prelude.{◌≡◌, ◌<◌, ℕ, suc, take, drop, ◌++◌, length, slice_get, slice_index_or, [], Some, None, IfOk, MatchOption, OnOk, OnErr};
ghost use Rattle.std.specs.List.{remove};
ghost use Rattle.std.specs.Option.{option_copied};
ghost use Rattle.std.specs.Map.{remove_entry, values_of};
ghost use Rattle.std.specs.BTreeMap.{is_at, insert_entry};
ghost use Rattle.svn_types.specs.Names.{name_cmp};
ghost use Rattle.svn_types.specs.Pairs.{InNameOrder, value_of};
ghost use Rattle.svn_name_map.specs.Runs.{joined, IsRunFor, IsPlaceFor};

use crate::run::{MAX_RUN, Run};
use std::alloc::AllocError;
use svn_types::Name;

// The run that has a name, if any has, and into which it is put: the last that doesn't begin after it, or else the first.
// None if there is no run. Most maps have one.
fn run_for<V>(runs: &[Run<V>], name: &Name) -> Option<usize>
    requires { InNameOrder (joined runs.now) }
    ensures { MatchOption result (runs.now ≡ []) (IsRunFor runs.now name.now) }
{
    if runs.is_empty() {
        return None;
    }
    let last = runs.len() - 1;
    if last == 0 || !runs[last].begins_after(name) {
        return Some(last);
    }
    Some(run_before(runs, name))
}

// The same where the last run is too far: a binary search.
fn run_before<V>(runs: &[Run<V>], name: &Name) -> usize
    requires order { InNameOrder (joined runs.now) }
    requires some { 0 < length runs.now }
    ensures { IsRunFor runs.now name.now result }
{
    let mut low = 0;
    let mut high = runs.len();
    'halves: while high > low + 1 {
        let middle = low + (high - low) / 2;
        if runs[middle].begins_after(name) {
            high = middle;
        } else {
            low = middle;
        }
    }
    low
}

/// The value of a name; None where it has none.
pub(crate) fn value_under<'a, V>(runs: &'a [Run<V>], name: &Name) -> Option<&'a V>
    requires { InNameOrder (joined runs.now) }
    ensures { option_copied result ≡ value_of (joined runs.now) name.now }
{
    let at = run_for(runs, name)?;
    match runs[at].find(name) {
        Ok(place) => Some(&runs[at].values()[place]),
        Err(_) => None,
    }
}

/// Gives a name that has a value another one, and returns the one before.
pub(crate) fn set_value<V: Copy>(runs: &mut Vec<Run<V>>, name: &Name, value: V) -> Option<V>
    requires { InNameOrder (joined runs.old.items) }
    ensures before { result ≡ value_of (joined runs.old.items) name.now }
    ensures set { (v : V) → result ≡ Some v → joined runs.new.items ≡ insert_entry name_cmp (joined runs.old.items) name.now value }
    ensures unchanged { result ≡ None → runs.new ≡ runs.old }
{
    let at = run_for(runs.as_slice(), name)?;
    match runs[at].find(name) {
        Ok(place) => Some(runs[at].set(place, value)),
        Err(_) => None,
    }
}

// Puts a pair in, at a place of a run. If an allocation fails, nothing has changed.
fn put<V: Copy>(
    runs: &mut Vec<Run<V>>,
    at: usize,
    place: usize,
    name: Name,
    value: V,
) -> Result<(), AllocError>
    requires run { IsRunFor runs.old.items name at }
    requires place { IsPlaceFor (slice_index_or runs.old.items at []) name place }
    ensures put { OnOk result (joined runs.new.items ≡ insert_entry name_cmp (joined runs.old.items) name value) }
    ensures unchanged { OnErr result (joined runs.new.items ≡ joined runs.old.items) }
{
    let len = runs[at].len();
    if len < MAX_RUN {
        runs[at].insert(place, name, value)
    } else if place == len {
        put_after(runs, at, name, value)
    } else {
        put_within(runs, at, place, name, value)
    }
}

// Puts a pair in after a run that is full, which stays full.
fn put_after<V: Copy>(
    runs: &mut Vec<Run<V>>,
    at: usize,
    name: Name,
    value: V,
) -> Result<(), AllocError>
    requires run { IsRunFor runs.old.items name at }
    requires place { let es = slice_index_or runs.old.items at [] in IsPlaceFor es name (length es) }
    ensures put { OnOk result (joined runs.new.items ≡ insert_entry name_cmp (joined runs.old.items) name value) }
    ensures unchanged { OnErr result (joined runs.new.items ≡ joined runs.old.items) }
{
    let next = Run::of(*runs.allocator(), name, value)?;
    runs.insert(at + 1, next)?;
    Ok(())
}

// Puts a pair into a run that is full, which becomes two.
fn put_within<V: Copy>(
    runs: &mut Vec<Run<V>>,
    at: usize,
    place: usize,
    name: Name,
    value: V,
) -> Result<(), AllocError>
    requires run { IsRunFor runs.old.items name at }
    requires place { IsPlaceFor (slice_index_or runs.old.items at []) name place }
    requires more { 1 < length (slice_index_or runs.old.items at []) }
    ensures put { OnOk result (joined runs.new.items ≡ insert_entry name_cmp (joined runs.old.items) name value) }
    ensures unchanged { OnErr result (joined runs.new.items ≡ joined runs.old.items) }
{
    let (before, after) = runs[at].with(*runs.allocator(), place, name, value)?;
    runs.insert(at + 1, after)?;
    runs[at] = before;
    Ok(())
}

/// Gives a name a value, and returns the one that it had. If an allocation fails, nothing has changed.
pub(crate) fn insert_pair<V: Copy>(
    runs: &mut Vec<Run<V>>,
    name: Name,
    value: V,
) -> Result<Option<V>, AllocError>
    requires { InNameOrder (joined runs.old.items) }
    ensures before { IfOk result (λ found. found ≡ value_of (joined runs.old.items) name) }
    ensures put { OnOk result (joined runs.new.items ≡ insert_entry name_cmp (joined runs.old.items) name value) }
    ensures unchanged { OnErr result (joined runs.new.items ≡ joined runs.old.items) }
{
    let Some(at) = run_for(runs.as_slice(), &name) else {
        let first = Run::of(*runs.allocator(), name, value)?;
        runs.push(first)?;
        return Ok(None);
    };
    match runs[at].find(&name) {
        Ok(place) => Ok(Some(runs[at].set(place, value))),
        Err(place) => {
            put(runs, at, place, name, value)?;
            Ok(None)
        }
    }
}

// Takes a pair out of a run. A run that has no other goes.
fn take_out<V: Copy>(runs: &mut Vec<Run<V>>, at: usize, place: usize) -> Result<V, AllocError>
    requires within { at < length runs.old.items }
    requires place { place < length (slice_index_or runs.old.items at []) }
    ensures value { IfOk result (λ v. slice_get (values_of (slice_index_or runs.old.items at [])) place ≡ Some v) }
    ensures removed { OnOk result (joined runs.new.items ≡ joined (take at runs.old.items) ++ (remove (slice_index_or runs.old.items at []) place ++ joined (drop (suc at) runs.old.items))) }
    ensures unchanged { OnErr result (joined runs.new.items ≡ joined runs.old.items) }
{
    if runs[at].len() > 1 {
        return runs[at].remove(place);
    }
    let value = runs[at].values()[place];
    runs.remove(at);
    Ok(value)
}

/// Takes a name out, and returns the value that it had. If an allocation fails, nothing has changed.
pub(crate) fn remove_pair<V: Copy>(
    runs: &mut Vec<Run<V>>,
    name: &Name,
) -> Result<Option<V>, AllocError>
    requires { InNameOrder (joined runs.old.items) }
    ensures before { IfOk result (λ found. found ≡ value_of (joined runs.old.items) name.now) }
    ensures removed { OnOk result (joined runs.new.items ≡ remove_entry (is_at (name_cmp name.now)) (joined runs.old.items)) }
    ensures unchanged { OnErr result (joined runs.new.items ≡ joined runs.old.items) }
{
    let Some(at) = run_for(runs.as_slice(), name) else {
        return Ok(None);
    };
    match runs[at].find(name) {
        Ok(place) => Ok(Some(take_out(runs, at, place)?)),
        Err(_) => Ok(None),
    }
}
