//! Random numbers, the same on every machine for the same seed.

use rand_core::Rng;
use rand_pcg::Pcg32;

/// A generator. Those of one seed and of different jobs give different numbers.
#[derive(Drop)]
pub(crate) struct Dice {
    generator: Pcg32,
}

impl Dice {
    pub(crate) fn new(seed: u64, job: u64) -> Dice {
        Dice {
            generator: Pcg32::new(seed, job),
        }
    }

    /// A number below the bound; 0 where that is 0.
    pub(crate) fn below(&mut self, bound: u64) -> u64 {
        self.generator.next_u64() % bound.max(1)
    }

    /// A number from the least up to as many after it.
    pub(crate) fn from(&mut self, least: u64, more: u64) -> u64 {
        self.below(more).saturating_add(least)
    }

    /// True once in that many times.
    pub(crate) fn once_in(&mut self, times: u64) -> bool {
        self.below(times) == 0
    }

    /// A place in a list of that many; 0 where it is empty.
    pub(crate) fn place(&mut self, count: usize) -> usize {
        self.below(count as u64) as usize
    }
}
