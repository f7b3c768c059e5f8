//! Random numbers, the same on every machine for the same seed.

use crate::plain::{PlainPath, ROOT};
use rand_core::Rng;
use rand_pcg::Pcg32;
use std::collections::BTreeMap;

/// A generator. Two of one seed and of different numbers give different histories.
#[derive(Drop)]
pub(crate) struct Dice {
    generator: Pcg32,
}

impl Dice {
    pub(crate) fn new(seed: u64, number: u64) -> Dice {
        Dice {
            generator: Pcg32::new(seed, number),
        }
    }

    /// A number below the bound; 0 where that is 0.
    pub(crate) fn below(&mut self, bound: u64) -> u64 {
        self.generator.next_u64() % bound.max(1)
    }

    /// True once in that many times.
    pub(crate) fn once_in(&mut self, times: u64) -> bool {
        self.below(times) == 0
    }

    /// One of the items.
    pub(crate) fn pick<T: Copy>(&mut self, items: &[T], otherwise: T) -> T {
        let at = self.below(items.len() as u64) as usize;
        match items.get(at) {
            Some(item) => *item,
            None => otherwise,
        }
    }

    /// One of the places of a map; the root where it has none.
    pub(crate) fn place<T>(&mut self, map: &BTreeMap<PlainPath, T>) -> PlainPath {
        let wanted = self.below(map.len() as u64) as usize;
        for (at, place) in map.keys().enumerate() {
            if at == wanted {
                return *place;
            }
        }
        ROOT
    }
}
