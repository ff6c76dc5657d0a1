//! Fetches from origin servers and neighbours, and requests that are passed on to them as they are: HTTP/1.1 on hyper, whose types stay
//! inside this crate, many at a time on one thread.
//!
//! The contracts see that every future is polled in a state in which it may be, and that an origin is judged before it is connected to;
//! nothing is proved about the HTTP messages.
//!
//! Tested by: must-fail edits; tests/serve, tests/serve_slow, tests/serve_passages, tests/serve_kept, tests/serve_early and
//! tests/serve_hostile, which run the built program over loopback.
#![tactic(auto)]

mod budget;
mod dialer;
mod early;
mod exchange;
mod fetching;
mod kept;
mod moves;
mod outlet;
mod passing;
mod reply;
mod sending;
mod speaking;
mod visit;

pub use budget::{Budget, Party, Share};
pub use fetching::{FetchLimits, FetchRules, run_fetches};
