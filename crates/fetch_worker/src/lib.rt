//! A worker that answers a list of fetch jobs one at a time. `serve` doesn't run it: its fetches overlap (http_fetches,
//! cache_serve). The worker takes jobs from a channel, fetches while holding no lock, and submits each result to its clerk.
//! Contracts see, as far as the clerk tells of its node, its seat and what was passed on, that each job is answered by one result,
//! the outcome of its fetch or a failure, and that the actions of that result which are not sends are passed on in order.
//! Tested by: crates/test_loop, must-fail edits.
#![tactic(auto)]

mod fetcher;
mod results;
mod working;

pub use fetcher::{Fetcher, Job};
pub use results::{MOST_TRIES, WorkFault};
pub use std::alloc::AllocError as NoMemory;
pub use working::{answer, work};
