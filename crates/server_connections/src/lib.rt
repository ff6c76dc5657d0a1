//! Connections to servers, over all threads: how many there may be by the files that the program may open, and which are kept while they
//! are idle.
//!
//! What is decided is in `fair_use`; the contracts see that what is polled may be polled.
//!
//! Tested by: tests/serve_kept and tests/serve_descriptors, which run the built program over loopback.
#![tactic(auto)]

mod attempts;
mod idle;
mod place;
mod table;

pub use attempts::Attempts;
pub use idle::{IdlePlace, KeptShare};
pub use place::ServerPlace;
pub use table::ServerConnections;
