//! Objects that were fetched once and can be asked about again, or served once they are stale: the most recent ones by key, each with the
//! time at which it was put there, fresh or not, limited in number and in octets.
//!
//! `Shelf` is seen by contracts as a store is, by its limits and its list of pairs, the one that was put there last first
//! (`specs/Shelf.antt`). Contracts state the result and the next state of each call; what is counted is never above the limits.
//! Tested by: crates/test_codecs, must-fail edits.
#![tactic(auto)]

mod shelf;

pub use shelf::Shelf;
