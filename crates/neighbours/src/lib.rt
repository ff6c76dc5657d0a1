//! The neighbour caches: configuration, signing keys, smoothed response times, missed rounds, and their order.
//!
//! `Table` is seen by contracts as `Rows`: the configured neighbours and keys, and a mark per neighbour
//! (`specs/Rows.antt`). Contracts state the first configuration fault (`specs/Faults.antt`), each change of a mark, and the
//! order by smoothed time over weight (`specs/Rank.antt`).
//! Tested by: crates/test_codecs, must-fail edits.
#![tactic(auto)]

mod checking;
mod fault;
mod key;
mod laws;
mod neighbour;
mod octets;
mod rank;
mod table;

pub use fault::ConfigFault;
pub use key::Key;
pub use laws::{
    distinct_law, irreflexive_law, one_way_law, order_law, test_law, through_law, total_law,
    transitive_law,
};
pub use neighbour::{Neighbour, Role};
pub use node_terms::{End, Moment, Socket};
pub use octets::Octets;
pub use rank::{Ranked, is_before};
pub use std::alloc::AllocError as NoMemory;
pub use table::{Mark, Table};
