//! The life of one attempt of a fetch, from the node's order to the result that is handed in: a state machine without I/O, locks or
//! buffers. What fetches computes facts, steps the machine, and carries out its commands in their order. `specs/Table.antt` is the machine as a
//! table, `laws` is what holds of each run of it.
//!
//! Tested by: its own tests.
#![tactic(auto)]

mod commands;
mod events;
mod facts;
mod fetch;
pub mod laws;
mod leaving;
mod reaching;
mod results;
mod stages;

pub use commands::{
    Brought, BroughtObject, Command, Commands, Count, Request, Step, Supplier, Which,
};
pub use events::{Event, Head};
pub use facts::{Addresses, End, Failure, Fault, Order, Page, Source};
pub use stages::{Exchange, Fetch, Flight, Landing, Reach, Stage};

#[cfg(test)]
mod tests;
