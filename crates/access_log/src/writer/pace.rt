//! How many lines a second are offered.
use std::time::{Duration, Instant};

/// Admits at most so many lines a second, and counts those that it leaves out. A second begins with the first line that it admits
/// after the one before has ended.
#[derive(Drop)]
pub struct Pace {
    most: u32,
    // When the second began that is counted.
    began: Option<Instant>,
    // The lines that were admitted in it.
    admitted: u32,
    // The lines that were left out since the last that was admitted.
    left_out: u64,
}

impl Pace {
    /// At most so many lines a second.
    pub fn new(most: u32) -> Pace {
        Pace {
            most,
            began: None,
            admitted: 0,
            left_out: 0,
        }
    }

    // Whether the second that is counted has ended.
    fn is_over(&self, now: Instant) -> bool {
        match self.began {
            Some(began) => Duration::from_secs(1) <= now.saturating_duration_since(began),
            None => true,
        }
    }

    /// Asks to offer a line now. Returns how many were left out since the last one that was admitted; `None` if this one is left
    /// out too.
    pub fn admit(&mut self, now: Instant) -> Option<u64> {
        if self.is_over(now) {
            self.began = Some(now);
            self.admitted = 0;
        }
        if self.most <= self.admitted {
            self.left_out = self.left_out.saturating_add(1);
            return None;
        }
        self.admitted = self.admitted.saturating_add(1);
        Some(std::mem::replace(&mut self.left_out, 0))
    }
}
