//! The threads of a running proxy. One thread owns both UDP query sockets, up to 16 serve clients, one serves administration and four
//! fetch; each of these submits events to the one node, which is behind a lock, through a seat of its own. Four more threads look up
//! host names. Actions for another thread go through channels: datagrams to the query thread, fetches to a fetch thread, answers to
//! the thread that serves the client.
//!
//! The contracts see almost nothing of this: `start` requires a ledger with one part per seat, and what is proved of the node
//! holds by the contracts of the crates below.
//!
//! Tested by: tests/serve, tests/serve_slow and tests/serve_hostile, which run the built program over loopback.
#![tactic(auto)]

mod administration;
mod clients;
mod config;
mod descriptors;
mod fetches;
mod limits;
mod opening;
mod queries;
mod starting;
mod tasks;

pub use config::few_files;
pub use limits::ProxyLimits;
pub use starting::start;
