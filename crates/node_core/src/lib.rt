//! The node: a deterministic state machine over events, with filters and counters in front of a node that knows no filters
//! (`plain_node`). A datagram is judged by the filters of its socket and of its sender, truncated to the verdict, and passed on.
//! Contracts see a `State`: the plain node, the program of each slot and the counters. `HasTaken` relates the states before and
//! after a list of events to the actions of each event.
//! Tested by: crates/test_node, crates/test_loop, crates/test_storm, crates/test_refusals, more-edits.
#![tactic(auto)]

mod comparing;
mod laws;
mod node;
mod run;
mod stats;

pub use comparing::{same_event, same_outcome, same_tally};
pub use laws::{
    accepted_law, append_law, filters_law, kept_law, rejected_law, slots_law, step_law,
};
pub use node::Node;
pub use node_words::{
    Action, Answer, Config, Counters, Event, Mode, Network, Outcome, Payload, Stats,
};
pub use plain_node::{NoMemory, NodeFault, Out, Tally};
pub use run::{RunFault, run_events};
