//! Results and errors of pumping.
use thiserror::Error;

/// Counts of what was done. Saturating.
#[derive(Clone, Copy, PartialEq, Eq)]
pub struct Pumped {
    /// Turns in which a datagram was received.
    pub received: u64,
    /// Turns in which none was received.
    pub idle: u64,
    /// Datagrams sent.
    pub sent: u64,
    /// Datagrams that the wire failed to send.
    pub failed: u64,
}

impl Pumped {
    /// All counts at 0.
    pub(crate) const ZERO: Pumped = Pumped {
        received: 0,
        idle: 0,
        sent: 0,
        failed: 0,
    };
}

/// Errors of pumping. What was done before the error stands.
#[derive(Clone, Copy, Debug, PartialEq, Eq, Error)]
pub enum PumpFault {
    /// The wire failed to receive.
    #[error("the wire failed")]
    Receive,
    /// Allocation failure, or a reference count at its maximum.
    #[error("no memory")]
    NoMemory,
    /// The clerk has no more event numbers.
    #[error("no event has a number any more")]
    Ended,
}
