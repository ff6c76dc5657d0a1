//! Query rounds: which neighbours were asked, their replies, and the sources to fetch an object from.
//!
//! `Round` is seen by contracts as a `Poll`: its start, its peers, and all replies in order (`specs/Poll.antt`). Contracts
//! define when a round is decided, and its sources as a function of the whole list of replies (`specs/Choice.antt`): the
//! peer with the first Hit, the best parent with a Miss, then the origin or the remaining parents.
//! Tested by: crates/test_codecs, must-fail edits.
#![tactic(auto)]

mod choice;
mod laws;
mod reply;
mod round;
mod set;

pub use laws::{matching_law, parent_law, unchanged_law};
pub use reply::{Kind, Peer, Reply, Source};
pub use round::Round;
