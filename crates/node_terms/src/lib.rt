//! Terms of the node that crates beside it use too: the endpoints, sockets and moments of datagrams, an IPv4 network, how a client's
//! request may be answered, and how many fetches may be pending. Contracts see a moment as its number of milliseconds.
//!
//! Tested by: crates/test_codecs, tests/serve_rules, cases/, more-edits.
#![tactic(auto)]

mod bounds;
mod ends;
mod mode;
mod moment;
mod network;

pub use bounds::MAX_PENDING_FETCHES;
pub use ends::{End, Socket};
pub use mode::Mode;
pub use moment::{LAST_MOMENT, Moment};
pub use network::Network;
