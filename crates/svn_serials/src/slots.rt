// Slots in the order of their serials, and where a serial is among them.
ghost use Rattle.std.specs.Prelude.{◌≡◌, ◌≢◌, ◌++◌, ◌∷◌, ℕ, ◌-◌, ◌<◌, ◌≤◌, [], true, false, length, slice_index, IfOk, OnOk, OnErr, MatchOption, MatchResult};
ghost use Rattle.std.specs.BTreeMap.{insert_entry};
ghost use Rattle.std.specs.Ordering.{nat_cmp};
ghost use Rattle.svn_serials.specs.Serials.{get};
ghost use Rattle.svn_serials.specs.Slots.{EndsFilled, IsAt, IsFilledAt, IsGap, IsInOrder, IsNowhere, held, serials_of};

use std::alloc::{AllocError, Allocator};
use std::mem::replace;

// A serial, and its value if that was not removed.
#[derive(Drop)]
pub(crate) struct Slot<V> {
    pub(crate) serial: u64,
    pub(crate) value: Option<V>,
}

// The first place whose serial is not below this one.
fn place_for<V>(slots: &[Slot<V>], serial: u64) -> usize
    requires { IsInOrder slots.now }
    ensures within { result ≤ length slots.now }
    ensures below { (k : ℕ) → k < result → slice_index (serials_of slots.now) k < serial }
    ensures from { (k : ℕ) → result ≤ k → k < length slots.now → serial ≤ slice_index (serials_of slots.now) k }
{
    slots.partition_point(|slot| slot.serial < serial)
}

// The serial of the last slot.
#[inline(always)]
pub(crate) fn last_serial<V>(slots: &[Slot<V>]) -> Option<u64>
    ensures { MatchOption result (slots.now ≡ []) (λ s. (0 < length slots.now) × (slice_index (serials_of slots.now) (length slots.now - 1) ≡ s)) }
{
    if slots.is_empty() {
        return None;
    }
    Some(slots[slots.len() - 1].serial)
}

// Where the value of a serial is, which may be near a place. Inlined, since it is mostly the last.
#[inline(always)]
pub(crate) fn find<V>(slots: &[Slot<V>], serial: u64, near: usize) -> Option<usize>
    requires order { IsInOrder slots.now }
    requires ends { EndsFilled slots.now }
    ensures { MatchOption result (get (held slots.now) serial ≡ None) (IsFilledAt slots.now serial) }
{
    let Some(last) = last_serial(slots) else {
        return None;
    };
    if last == serial {
        return Some(slots.len() - 1);
    }
    find_before_last(slots, serial, last, near)
}

// Where the value of a serial is that is not the last.
fn find_before_last<V>(slots: &[Slot<V>], serial: u64, last: u64, near: usize) -> Option<usize>
    requires { IsInOrder slots.now }
    ensures { MatchOption result (get (held slots.now) serial ≡ None) (IsFilledAt slots.now serial) }
{
    let Some(place) = place_before_last(slots, serial, last, near) else {
        return None;
    };
    if slots[place].value.is_some() {
        Some(place)
    } else {
        None
    }
}

// Whether a serial is at a place.
#[inline(always)]
fn is_at<V>(slots: &[Slot<V>], place: usize, serial: u64) -> bool
    ensures hit { result ≡ true → IsAt slots.now serial place }
    ensures miss { result ≡ false → place < length slots.now → slice_index (serials_of slots.now) place ≢ serial }
{
    place < slots.len() && slots[place].serial == serial
}

// Where a serial is that is not the last. If none from it on was left out, it is as far from the end as it is below the last.
fn place_before_last<V>(slots: &[Slot<V>], serial: u64, last: u64, near: usize) -> Option<usize>
    requires { IsInOrder slots.now }
    ensures { MatchOption result (IsNowhere slots.now serial) (IsAt slots.now serial) }
{
    let back = last.saturating_sub(serial);
    if back < slots.len() as u64 {
        let place = slots.len() - 1 - back as usize;
        if is_at(slots, place, serial) {
            return Some(place);
        }
    }
    place_with_gaps(slots, serial, near)
}

// Where a serial is if some slots were left out: at the place where it is likely to be, or the next, or the first, as a root
// is whose newer serials come and go; else by a binary search. Not inlined, since most look-ups end before it.
#[inline(never)]
fn place_with_gaps<V>(slots: &[Slot<V>], serial: u64, near: usize) -> Option<usize>
    requires { IsInOrder slots.now }
    ensures { MatchOption result (IsNowhere slots.now serial) (IsAt slots.now serial) }
{
    if is_at(slots, near, serial) {
        return Some(near);
    }
    let next = near.saturating_add(1);
    if is_at(slots, next, serial) {
        return Some(next);
    }
    if is_at(slots, 0, serial) {
        return Some(0);
    }
    match search(slots, serial) {
        Ok(place) => Some(place),
        Err(_) => None,
    }
}

// Where a serial is, else where it would be: a binary search.
fn search<V>(slots: &[Slot<V>], serial: u64) -> Result<usize, usize>
    requires { IsInOrder slots.now }
    ensures { MatchResult result (IsAt slots.now serial) (IsGap slots.now serial) }
{
    let place = place_for(slots, serial);
    if is_at(slots, place, serial) {
        Ok(place)
    } else {
        Err(place)
    }
}

// Whether a serial is above those of all slots.
#[inline(always)]
fn is_above_all<V>(slots: &[Slot<V>], serial: u64) -> bool
    requires { IsInOrder slots.now }
    ensures { result ≡ true → (k : ℕ) → k < length slots.now → slice_index (serials_of slots.now) k < serial }
{
    match last_serial(slots) {
        Some(last) => last < serial,
        None => true,
    }
}

// The factor by which the room for slots grows. Each slot is then copied a third of a time
// on average, with a factor of two once; unused room costs only addresses.
const GROWTH: usize = 4;

// Makes room for more slots, if there is that much memory. Not inlined, since there is mostly room left.
#[cold]
#[inline(never)]
fn make_room<V, A: Allocator>(slots: &mut Vec<Slot<V>, A>)
    ensures { slots.new.items ≡ slots.old.items }
{
    let more = slots.len().saturating_mul(GROWTH - 1);
    let _has_room = slots.reserve(more).is_ok();
}

// Appends a slot.
#[inline(always)]
fn append<V: Drop, A: Allocator>(
    slots: &mut Vec<Slot<V>, A>,
    slot: Slot<V>,
) -> Result<(), AllocError>
    ensures items { OnOk result (slots.new.items ≡ slots.old.items ++ slot ∷ []) }
    ensures refused { OnErr result (slots.new.items ≡ slots.old.items) }
{
    if slots.len() == slots.capacity() {
        make_room(slots);
    }
    slots.push(slot)?;
    Ok(())
}

// Puts a value in, and returns the one that the serial had. Inlined, since it mostly goes to the end.
#[inline(always)]
pub(crate) fn put<V: Drop, A: Allocator>(
    slots: &mut Vec<Slot<V>, A>,
    serial: u64,
    value: V,
) -> Result<Option<V>, AllocError>
    requires order { IsInOrder slots.old.items }
    requires ends { EndsFilled slots.old.items }
    ensures was { IfOk result (λ was. was ≡ get (held slots.old.items) serial) }
    ensures put { OnOk result (held slots.new.items ≡ insert_entry nat_cmp (held slots.old.items) serial value) }
    ensures refused { OnErr result (slots.new.items ≡ slots.old.items) }
    ensures order { IsInOrder slots.new.items }
    ensures ends { EndsFilled slots.new.items }
{
    if !is_above_all(slots.as_slice(), serial) {
        return put_before_end(slots, serial, value);
    }
    let slot = Slot {
        serial,
        value: Some(value),
    };
    append(slots, slot)?;
    Ok(None)
}

// Puts a value in where its serial is not above all others.
fn put_before_end<V: Drop, A: Allocator>(
    slots: &mut Vec<Slot<V>, A>,
    serial: u64,
    value: V,
) -> Result<Option<V>, AllocError>
    requires order { IsInOrder slots.old.items }
    requires ends { EndsFilled slots.old.items }
    ensures was { IfOk result (λ was. was ≡ get (held slots.old.items) serial) }
    ensures put { OnOk result (held slots.new.items ≡ insert_entry nat_cmp (held slots.old.items) serial value) }
    ensures refused { OnErr result (slots.new.items ≡ slots.old.items) }
    ensures order { IsInOrder slots.new.items }
    ensures ends { EndsFilled slots.new.items }
{
    let slot = Slot {
        serial,
        value: Some(value),
    };
    match search(slots.as_slice(), serial) {
        Ok(place) => {
            let Slot { serial: _, value } = replace(&mut slots[place], slot);
            Ok(value)
        }
        Err(place) => {
            slots.insert(place, slot)?;
            Ok(None)
        }
    }
}

// Removes the empty slots at the end, and all others where more than half are empty. Inlined, since it mostly removes the last alone.
#[inline(always)]
pub(crate) fn settle<V: Drop, A: Allocator>(slots: &mut Vec<Slot<V>, A>, filled: usize)
    requires { IsInOrder slots.old.items }
    ensures held { held slots.new.items ≡ held slots.old.items }
    ensures order { IsInOrder slots.new.items }
    ensures ends { EndsFilled slots.new.items }
{
    trim(slots);
    if filled < slots.len() / 2 {
        drop_empty(slots);
    }
}

// Removes the empty slots at the end.
#[inline(always)]
fn trim<V: Drop, A: Allocator>(slots: &mut Vec<Slot<V>, A>)
    requires { IsInOrder slots.old.items }
    ensures held { held slots.new.items ≡ held slots.old.items }
    ensures order { IsInOrder slots.new.items }
    ensures ends { EndsFilled slots.new.items }
{
    'end: while let Some(last) = slots.last() {
        if last.value.is_some() {
            return;
        }
        slots.pop();
    }
}

// Removes all empty slots.
fn drop_empty<V: Drop, A: Allocator>(slots: &mut Vec<Slot<V>, A>)
    requires { IsInOrder slots.old.items }
    ensures held { held slots.new.items ≡ held slots.old.items }
    ensures order { IsInOrder slots.new.items }
    ensures ends { EndsFilled slots.new.items }
{
    slots.retain(|slot| slot.value.is_some());
}
