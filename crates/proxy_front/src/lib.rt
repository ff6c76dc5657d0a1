//! Client requests and results of fetches on their way to the node, and what passes beside it: requests that are passed on, and tunnels.
//!
//! What is proved of the node holds by the contracts of the crates below; proved here is in place of which ends of a fetch something
//! stale may be served. Tested by: tests/serve, tests/serve_freshness, tests/serve_passages and tests/serve_hostile, which run the built
//! program over loopback; more-edits.
#![tactic(auto)]

mod early;
mod ends;
mod front;
mod front_modes;
mod front_passes;
mod front_stale;
mod good_texts;
mod handing;
mod results;
mod shapes;

pub use front::{NodeFront, ServeFront};
pub use good_texts::GoodTexts;
pub use handing::{Call, Handed, Returned, TakeCalls};
pub use results::Results;
