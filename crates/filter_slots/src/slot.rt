//! Slots for filter programs.

use bpf_run::Socket;
use thiserror::Error;

/// A slot for a filter program.
#[derive(Clone, Copy, PartialEq, Eq)]
pub enum Slot {
    /// The slot of a query socket. Its program judges each datagram that the socket receives.
    Socket(Socket),
    /// The slot of a neighbour, by its index in the configuration. Its program judges datagrams from the neighbour, after
    /// and as truncated by the program of the socket.
    Neighbour(usize),
}

/// Error: the index is not that of a neighbour.
#[derive(Clone, Copy, Debug, PartialEq, Eq, Error)]
#[error("there is no such slot")]
pub struct NoSlot;
