//! Entries of the queue of undecided rounds.

use neighbours::Moment;

/// An undecided round: the number of its fetch, and when it started.
#[derive(Clone, Copy)]
pub struct Undecided {
    pub number: u32,
    pub start: Moment,
}
