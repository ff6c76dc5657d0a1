//! A TCP listener, or two, as a stream of futures, one per client, with a limit on concurrent clients and a stop signal; and a socket that
//! fails when its peer is silent for too long. How a client is served is behind the trait `Accept`. Several threads can serve the
//! clients of a listener, which then have the limit together.
//!
//! The contracts see only that each future the stream yields may be polled, and which socket event a read or write waits for.
//!
//! Tested by: tests/serve, tests/serve_attacks, tests/serve_slow.
#![tactic(auto)]

mod clients;
mod listeners;
mod patient;
mod pool;
mod refusal;
mod request_line;
mod seats;

pub use clients::{Accept, AcceptedClients, ClientLimits, Seated, Stops};
pub use listeners::Listeners;
pub use patient::{Patience, Patient, SharedStage, Stage, StreamTimeouts};
pub use pool::{SeatShare, seat_shares};
pub use refusal::Refusal;
