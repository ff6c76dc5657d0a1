//! Administration of a proxy: filters, figures, what is stored, and captures.
//!
//! What is proved of the node holds by the contracts of the crates below. Tested by: tests/serve and tests/serve_operator, which run the
//! built program over loopback.
#![tactic(auto)]

mod overview;
mod panel;

pub use panel::{NodePanel, ServePanel};
