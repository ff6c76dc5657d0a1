//! Connections to servers, as they are made: at the addresses of a server by attempts side by side (RFC 8305, section 5), of which
//! the first that connects is taken and the others are closed.
//!
//! What is done next is decided by `fair_use::Race`; that a server may be connected to is said by its type, `origin_rules::Admitted`. The
//! contracts here see that each address that is handed on was judged, and that whoever waits is woken. Tested by:
//! must-fail edits; tests/serve_addresses, tests/serve_six, tests/serve.
#![tactic(auto)]

mod judging;
mod racing;

pub use judging::{Judge, admitted_by, poll_addresses};
pub use racing::{Connected, DialFault, Dialing};
