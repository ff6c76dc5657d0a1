//! Pseudorandom numbers from a seed.
use rand_core::{Rng, SeedableRng};
use rand_xoshiro::Xoshiro256PlusPlus;

/// A pseudorandom generator. Its sequence depends on the seed alone.
#[derive(Drop)]
pub struct Draws {
    rng: Xoshiro256PlusPlus,
}

impl Draws {
    /// A generator with this seed.
    pub fn new(seed: u64) -> Draws {
        Draws {
            rng: Xoshiro256PlusPlus::seed_from_u64(seed),
        }
    }

    /// A number under `limit`, or 0 if that is 0.
    pub fn below(&mut self, limit: u64) -> u64 {
        self.rng.next_u64().checked_rem(limit).unwrap_or(0)
    }

    /// An index into a list of this length, or 0 if it is empty.
    pub fn place(&mut self, length: usize) -> usize {
        usize::try_from(self.below(length as u64)).unwrap_or(0)
    }

    /// A number under `limit`, or 0 if that is 0.
    pub fn small(&mut self, limit: u32) -> u32 {
        u32::try_from(self.below(u64::from(limit))).unwrap_or(0)
    }

    /// An octet under `limit`, or 0 if that is 0.
    pub fn octet_below(&mut self, limit: u32) -> u8 {
        u8::try_from(self.small(limit)).unwrap_or(0)
    }

    /// An octet.
    pub fn octet(&mut self) -> u8 {
        self.octet_below(256)
    }

    /// True with probability 1/`times`.
    pub fn one_in(&mut self, times: u64) -> bool {
        self.below(times) == 0
    }

    /// An element of `all`, or `other` if it is empty.
    pub fn of<T: Copy>(&mut self, all: &[T], other: T) -> T {
        let place = self.place(all.len());
        match all.get(place) {
            Some(one) => *one,
            None => other,
        }
    }
}
