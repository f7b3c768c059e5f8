//! The map.
ghost use Rattle.std.specs.Prelude.{nat_eq, ◌≡◌, ℕ, ◌≤◌, [], length, option_copied, IsSome, IfOk, OnOk, OnErr, MatchOption};
ghost use Rattle.std.specs.Borrow.{sem};
ghost use Rattle.std.specs.BTreeMap.{insert_entry};
ghost use Rattle.std.specs.Map.{remove_entry};
ghost use Rattle.std.specs.Option.{option_copied_mut};
ghost use Rattle.std.specs.Ordering.{nat_cmp};
ghost use Rattle.svn_serials.specs.Serials.{IsRising, get};

use crate::slots::{Slot, find, last_serial, put, settle};
use std::alloc::{AllocError, Allocator};
use std::marker::Model;
use std::mem::replace;

/// Values by serials. It is seen as the list of its pairs, in rising order of the serials.
#[derive(Drop)]
pub struct SerialMap<V, A: Allocator> {
    slots: Vec<Slot<V>, A>,
    // How many slots have a value.
    filled: usize,
    // Where a value was removed last: values are mostly removed in the order of their serials, or in the other one.
    near: usize,
}

impl<V, A: Allocator> Model for SerialMap<V, A> {
    ghost use Rattle.std.specs.Prelude.{ℕ, List};

    ghost Value = { List (ℕ × V) };

    ghost use Rattle.svn_serials.specs.Slots.{IsSound, held};

    ghost view = { λ m. held m.slots.items };

    ghost invariant = { λ m. IsSound m.slots.items m.filled };
}

impl<V, A: Allocator> SerialMap<V, A> {
    ghost use Rattle.svn_serials.specs.Lends.{lends_value};

    /// A map without values, which takes no memory until the first is put in.
    pub fn new(alloc: A) -> SerialMap<V, A>
        ensures { result ≡ [] }
    {
        SerialMap {
            slots: Vec::new(alloc),
            filled: 0,
            near: 0,
        }
    }

    /// How many values there are.
    #[inline(always)]
    pub fn len(&self) -> usize
        ensures len { result ≡ length self.now }
        ensures rising { IsRising self.now }
    {
        self.filled
    }

    /// The greatest serial that has a value; None where there is none.
    #[inline(always)]
    pub fn newest(&self) -> Option<u64>
        ensures { MatchOption result (self.now ≡ []) (λ s. IsSome (get self.now s) × ((q : ℕ) → IsSome (get self.now q) → q ≤ s)) }
    {
        last_serial(self.slots.as_slice())
    }

    /// The value of a serial; None where it has none.
    #[inline(always)]
    pub fn get(&self, serial: u64) -> Option<&V>
        ensures value { option_copied result ≡ get self.now serial }
    {
        let Some(place) = find(self.slots.as_slice(), serial, self.near) else {
            return None;
        };
        self.slots[place].value.as_ref()
    }

    /// The value of a serial, to be written; None where it has none.
    #[inline(always)]
    pub fn get_mut(&mut self, serial: u64) -> Option<&mut V>
        ensures* writes_back { sem 𝓛 (lends_value V.row A.row A.Allocator self.entry serial result) }
        ensures value { option_copied_mut result ≡ get self.old serial }
        ensures rising { IsRising self.old }
    {
        match find(self.slots.as_slice(), serial, self.near) {
            Some(place) => self.slots[place].value.as_mut(),
            None => None,
        }
    }

    /// Puts a value in, and returns the one that the serial had. The only error is that there is no memory, which only a serial without a value
    /// can need.
    #[inline(always)]
    pub fn insert(&mut self, serial: u64, value: V) -> Result<Option<V>, AllocError>
    where
        V: Drop,
        ensures was { IfOk result (λ was. was ≡ get self.old serial) }
        ensures put { OnOk result (self.new ≡ insert_entry nat_cmp self.old serial value) }
        ensures refused { OnErr result (self.new ≡ self.old) }
        ensures rising { IsRising self.new }
    {
        let was = put(&mut self.slots, serial, value)?;
        self.filled += usize::from(was.is_none());
        Ok(was)
    }

    /// Removes the value of a serial, and returns it; None if it has none.
    #[inline(always)]
    pub fn remove(&mut self, serial: u64) -> Option<V>
    where
        V: Drop,
        ensures value { result ≡ get self.old serial }
        ensures removed { self.new ≡ remove_entry (nat_eq serial) self.old }
        ensures rising { IsRising self.new }
        ensures was_rising { IsRising self.old }
    {
        let Some(place) = find(self.slots.as_slice(), serial, self.near) else {
            return None;
        };
        let empty = Slot {
            serial,
            value: None,
        };
        let Slot { serial: _, value } = replace(&mut self.slots[place], empty);
        self.filled -= 1;
        self.near = place;
        settle(&mut self.slots, self.filled);
        value
    }

    /// Removes all values, and keeps the memory for others.
    pub fn clear(&mut self)
    where
        V: Drop,
        ensures { self.new ≡ [] }
    {
        self.slots.clear();
        self.filled = 0;
    }
}
