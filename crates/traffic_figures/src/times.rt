//! Histograms of times with fixed buckets.

ghost use Rattle.std.specs.Prelude.{◌≡◌, ◌<◌, ◌≤◌};
ghost use Rattle.traffic_figures.specs.Buckets.{IsBucketOf, capped_sum, cumulated};

use std::array;
use std::sync::atomic::{AtomicU64, Ordering};

/// The upper bounds of the buckets, in seconds, as both texts write them.
pub(crate) const BOUNDS: [&'static str; 15] = [
    "0.001", "0.0025", "0.005", "0.01", "0.025", "0.05", "0.1", "0.25", "0.5", "1", "2.5", "5",
    "10", "30", "+Inf",
];

/// The place, from 0, of the bucket that a time in microseconds belongs into. A bucket's upper bound is inclusive.
pub fn bucket_of(micros: u64) -> usize
    ensures { IsBucketOf micros result }
{
    if micros <= 1_000 {
        0
    } else if micros <= 2_500 {
        1
    } else if micros <= 5_000 {
        2
    } else if micros <= 10_000 {
        3
    } else if micros <= 25_000 {
        4
    } else if micros <= 50_000 {
        5
    } else if micros <= 100_000 {
        6
    } else if micros <= 250_000 {
        7
    } else if micros <= 500_000 {
        8
    } else if micros <= 1_000_000 {
        9
    } else if micros <= 2_500_000 {
        10
    } else if micros <= 5_000_000 {
        11
    } else if micros <= 10_000_000 {
        12
    } else if micros <= 30_000_000 {
        13
    } else {
        14
    }
}

/// The sum of numbers, or the largest number of 64 bits if it is larger.
pub(crate) fn total(counts: &[u64]) -> u64
    ensures { result ≡ capped_sum counts.now }
{
    let mut sum: u64 = 0;
    for count in counts {
        sum = sum.saturating_add(*count);
    }
    sum
}

/// How many times there were in each bucket, and their sum.
#[derive(Clone, Copy)]
pub struct Times {
    /// How many times there were in each bucket alone.
    pub counts: [u64; 15],
    /// The sum of all times in microseconds, modulo 2^64.
    pub micros: u64,
}

impl Times {
    /// How many times there were in a bucket and those before it.
    pub(crate) fn up_to(&self, bucket: usize) -> u64
        requires { bucket < 15 }
        ensures { result ≡ cumulated self.now.counts bucket }
    {
        total(&self.counts[..bucket + 1])
    }

    /// How many times there were.
    pub(crate) fn count(&self) -> u64
        ensures { result ≡ capped_sum self.now.counts }
    {
        total(&self.counts)
    }
}

/// A histogram that any thread may add to.
#[derive(Drop)]
pub(crate) struct Histogram {
    counts: [AtomicU64; 15],
    // The sum of all times in microseconds, modulo 2^64.
    micros: AtomicU64,
}

impl Histogram {
    /// A histogram of no times.
    pub fn new() -> Histogram {
        Histogram {
            counts: array::from_fn(|_| AtomicU64::new(0)),
            micros: AtomicU64::new(0),
        }
    }

    /// Adds a time in microseconds.
    pub fn add(&self, micros: u64) {
        self.counts[bucket_of(micros)].fetch_add(1, Ordering::SeqCst);
        self.micros.fetch_add(micros, Ordering::SeqCst);
    }

    /// What it holds. Where another thread adds a time meanwhile, that may be counted and not be in the sum yet.
    pub fn load(&self) -> Times {
        let micros = self.micros.load(Ordering::SeqCst);
        let mut counts = [0; 15];
        load_into(&self.counts, &mut counts);
        Times { counts, micros }
    }
}

/// Loads counters into as many places.
pub(crate) fn load_into(counters: &[AtomicU64], places: &mut [u64]) {
    for (place, counter) in places.iter_mut().zip(counters) {
        *place = counter.load(Ordering::SeqCst);
    }
}
