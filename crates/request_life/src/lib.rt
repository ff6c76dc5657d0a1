//! The life of a client's request, from its head to its line in the access log: a state machine without I/O, locks or buffers. What serves
//! clients computes facts, steps the machine, and carries out its commands in their order. `specs/Table.antt` is the machine as a table,
//! `laws` is what holds of each run of it.
//!
//! Tested by: its own tests.
#![tactic(auto)]

mod answers;
mod commands;
mod events;
mod facts;
pub mod laws;
mod life;
mod lookup;
mod parting;
mod passage;
mod stages;
mod tunnels;

pub use commands::{Answer, Changed, Command, Commands, Given, Shape, Step};
pub use events::{
    Acceptance, ContentEnd, Event, Failure, Fetched, Hit, Outcome, PassedEnd, PassedHead, TunnelEnd,
};
pub use facts::{Choice, Lookup, Method, Passage, RequestHead, Target, TunnelTarget};
pub use stages::{Content, Life, Round, Share, Stage, Submission, Wait};

#[cfg(test)]
mod tests;
