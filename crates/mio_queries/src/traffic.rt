//! What a wire receives and sends.
use crate::NoMemory;
use filter_slots::{Datagram, End, Moment, Socket};
use node_core::Payload;
use std::io;
use std::sync::Arc;
use thiserror::Error;

/// The result of receiving.
#[derive(Drop)]
pub enum Received {
    /// A datagram, and when it was received.
    Datagram(Arc<Datagram>, Moment),
    /// No datagram came within the wait; the present time.
    Idle(Moment),
}

/// A sent datagram: the socket it was sent from, its destination and its payload.
#[derive(Drop)]
pub struct Sending {
    pub socket: Socket,
    pub to: End,
    pub payload: Payload,
}

/// Errors of a wire.
#[derive(Clone, Copy, Debug, Error)]
pub enum WireFault {
    /// The wire failed. It counts these failures.
    #[error("the wire failed")]
    Io,
    /// Allocation failure in `receive`: nothing was received.
    #[error("no memory")]
    NoMemory,
}

impl From<NoMemory> for WireFault {
    fn from(_: NoMemory) -> WireFault {
        WireFault::NoMemory
    }
}

impl From<io::Error> for WireFault {
    fn from(_: io::Error) -> WireFault {
        WireFault::Io
    }
}
