//! The node without filters and counters: a state machine that takes one event at a time (a datagram, a client's request, a
//! tick, the end of a fetch, a client that leaves) and returns a list of actions. It answers ICP and HTCP queries from the
//! store, polls neighbours, and lets clients share fetches.
//! Contracts see the node as a `PlainNode` and each call as one `plain_step` (specs/Plain.antt). A call that fails for lack of
//! memory leaves the node unchanged; specs/Memory.antt says which events need none.
//! Tested by: crates/test_node, test_loop, test_storm, test_refusals, cases/, more-edits.
#![tactic(auto)]

mod action;
mod config;
mod core_node;
mod finding;
mod htcp_replies;
mod htcp_requests;
pub mod laws;
mod messages;
mod outcomes;
mod queries;
mod requests;
mod rounds;
mod serving;
mod signatures;
mod sources;
mod tally;

pub use action::{MAX_ACTIONS, Out};
pub use config::NodeFault;
pub use core_node::Core;
pub use node_words::{Action, Answer, Config, Mode, Network, Outcome, Payload};
pub use pending_fetch::MAX_PENDING_FETCHES;
pub use std::alloc::AllocError as NoMemory;
pub use tally::Tally;
