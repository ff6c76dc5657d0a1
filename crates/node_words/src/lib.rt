//! What the node and the edge say to one another: events and their outcomes, actions and answers, a node's configuration, its
//! counters, and what its log shows of it. The edge stands on these, so that it neither waits for the node nor changes with it.
//! `plain_node`, `node_core` and `node_book` hand these on as their own.
//! Tested by: crates/test_node, test_loop, test_storm, test_refusals, cases/, more-edits.
#![tactic(auto)]

mod action;
mod config;
mod event;
mod stats;
mod views;

pub use action::{Action, Answer, Payload, SharedOctets};
pub use config::Config;
pub use event::{Event, Outcome};
pub use node_terms::{MAX_PENDING_FETCHES, Mode, Network};
pub use stats::{Counters, Stats};
pub use std::alloc::AllocError as NoMemory;
pub use views::{NeighbourView, Sizes};
