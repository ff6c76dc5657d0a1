//! The node as the threads of a proxy share it: its state with theirs, and the handle that each thread has to it.
//!
//! What is proved of the node holds by the contracts of the crates below. Tested by: tests/serve, tests/serve_slow and
//! tests/serve_hostile, which run the built program over loopback.
#![tactic(auto)]

mod malformed_watch;
mod node_handle;
mod overseen;
mod state;

pub use malformed_watch::MalformedWatch;
pub use node_handle::{NodeHandle, Outbox, Outgoing, ThreadSeat};
pub use overseen::Overseen;
pub use state::{
    AtDesk, Desks, FetchersPart, KeptPart, MailPart, OutwardPart, PassesPart, ProxyState,
    StoppingPart, TapPart, TellingPart,
};
