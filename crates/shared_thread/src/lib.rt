//! What shares a thread: many jobs that run concurrently on one, and a connection that lets other tasks of its thread run, however much
//! its peer sends.
//!
//! The contracts see only that the future of a job may be polled and which socket event a read or write waits for, and require a limit of
//! at least one job. Tested by: crates/test_http, tests/serve_attacks.
#![tactic(auto)]

mod jobs;
mod paced;

pub use jobs::{Begin, Submit, Tend, run_jobs};
pub use paced::{CLIENT_TURN, FETCH_TURN, Paced};
