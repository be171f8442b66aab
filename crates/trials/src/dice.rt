//! Random numbers, the same in every run.

use rand::RngExt;
use rand_core::SeedableRng;
use rand_xoshiro::Xoshiro256PlusPlus;

#[derive(Drop)]
pub struct Dice {
    rng: Xoshiro256PlusPlus,
}

impl Dice {
    pub fn new(seed: u64) -> Dice {
        Dice {
            rng: Xoshiro256PlusPlus::seed_from_u64(seed),
        }
    }

    /// A number from `low` to `high`, or `low` where they are out of order.
    pub fn between(&mut self, low: i32, high: i32) -> i32 {
        if low >= high {
            return low;
        }
        self.rng.random_range(low..=high)
    }

    /// A number from `-most` to `most`.
    pub fn around(&mut self, most: i32) -> i32 {
        self.between(0i32.saturating_sub(most), most)
    }

    /// A number from 0 to `most`.
    pub fn up_to(&mut self, most: usize) -> usize {
        self.rng.random_range(0..=most)
    }

    /// A number from 1 to `most`.
    pub fn one_to(&mut self, most: usize) -> usize {
        self.up_to(most.saturating_sub(1)).saturating_add(1)
    }

    /// Yes, once in so many times.
    pub fn once_in(&mut self, times: usize) -> bool {
        self.up_to(times.saturating_sub(1)) == 0
    }

    /// Any price.
    pub fn wild(&mut self) -> i64 {
        self.rng.random_range(i64::MIN..=i64::MAX)
    }
}
