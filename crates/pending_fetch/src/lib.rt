//! The table of in-flight fetches: each has a number, a cache key, a polling round and the clients that wait for it. Shared
//! fetches are indexed by key, waiting clients by client, and undecided rounds by start time.
//! Contracts see one list of fetches in the order of opening, with the last number given (specs/Fetches.antt); the indexes
//! beside the list are private, and an invariant ties them to it. At most 256 fetches are pending and 1,024 clients wait
//! (src/bounds.rt).
//! Tested by: src/pending/tests.rt, crates/test_loop, test_storm, test_refusals, must-fail edits.
#![tactic(auto)]

mod bounds;
mod clients;
mod fault;
mod fetch;
mod fetch_slab;
mod kept;
mod keys;
mod laws;
mod order;
mod pending;
mod queue;
mod slots;
mod undecided;

pub use bounds::{MAX_PENDING_FETCHES, MAX_WAITERS};
pub use fault::{JoinFault, OpenFault};
pub use fetch::{Fetch, Located};
pub use laws::{due_law, fitting_law, next_law, waits_law};
pub use pending::Pending;
pub use std::alloc::AllocError as NoMemory;
