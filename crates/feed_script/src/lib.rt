//! Runs a script of settings, events and questions against a node, and prints the node's actions.
//!
//! The script is text from any reader, the output is text to any writer; `script_lines` parses each line, and this crate
//! executes it. The contract of [`feed`] sees the octets read and written: after success the output is exactly the text that
//! `specs/Script.antt` defines for the whole input, and after a fault it is a prefix of the text of what was read.
//! Tested by: crates/test_node, must-fail edits.
#![tactic(auto)]

mod engine;
mod fault;
mod laws;
mod phase;
mod print;
mod station;
mod stream;

pub use fault::FeedFault;
pub use stream::feed;
