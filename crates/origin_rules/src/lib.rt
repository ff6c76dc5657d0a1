//! Which servers may be fetched from as origins, by address and port, and which addresses of IPv6 stand for one of IPv4; and a type for those
//! servers that may be connected to, so that no other is.
//!
//! Pure functions. Their contracts define each result.
//! Tested by: tests/serve_rules, tests/serve_six, must-fail edits.
#![tactic(auto)]

mod admitted;
mod origins;
mod origins_six;

pub use admitted::{Admitted, AdmittedOrigin, chosen};
pub use origins::{OriginRules, usual_denials};
pub use origins_six::{SixEnd, SixNetwork, embedded_law, usual_six_denials};
