//! A map by serials: numbers that mostly rise, where mostly the newest is looked up. Pools and the batons of an edit are kept in such maps.
//!
//! ```
//! let mut map = SerialMap::new(alloc);
//! map.insert(7, 'a')?;
//! map.insert(8, 'b')?;
//! assert_eq!(rt; map.remove(8), Some('b'));
//! assert_eq!(rt; map.newest(), Some(7));
//! ```
//!
//! A [`SerialMap`] (`map`) is one vector of slots in the order of their serials (`slots`). A value that is removed leaves its slot empty; empty
//! slots at the end go at once, and all others as soon as more than half of the slots are empty. So an operation costs a constant on average if
//! serials rise, and there are at most twice as many slots as values, and one more; the vector keeps its memory. A look-up tries the last slot,
//! then the slot where the serial is if none from it on was left out, then the one where a value was removed last, the one after it and the
//! first, and then makes a binary search.
//!
//! Promises: a map is seen as the list of its pairs in rising order, and each call says what becomes of that list and no more (`value`, `put`,
//! `removed`, `writes_back`); an insert that runs out of memory changes nothing (`refused`). `proofs/Pairs.antt` has what a caller may need of such
//! a list. The tests are in `test_pool` (`serials.rt`).
#![tactic(auto)]

mod map;
mod slots;

pub use map::SerialMap;
