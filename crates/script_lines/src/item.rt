//! A parsed line of a script.

use bpf_check::CheckFault;
use filter_slots::{End, Moment, Slot, Socket};
use neighbours::{Key, Neighbour};
use node_words::{Event, Network};

/// A parsed line of a script.
#[derive(Drop)]
pub enum Item {
    /// Sets the address of both of the node's sockets.
    Own([u8; 4]),
    /// Adds a network whose queries are answered.
    Allow(Network),
    /// Sets whether the node answers MISS_NOFETCH instead of MISS.
    NoFetch(bool),
    /// Sets whether the node fetches from origin servers.
    Origin(bool),
    /// Sets the capacity of the store, in entries and octets.
    Limits {
        entries: u32,
        octets: u32,
    },
    /// Adds a signing key.
    AddKey(Key),
    /// Adds a neighbour.
    AddNeighbour(Neighbour),
    /// Starts the node.
    Go,
    /// A datagram arrives at the node's own endpoint for a socket. Its payload has at most 65,507 octets.
    Receive {
        socket: Socket,
        from: End,
        payload: Vec<u8>,
        now: Moment,
    },
    /// An event that the line describes in full.
    Take(Event),
    /// A program for a slot, rejected by the checker, with its first fault.
    Refuse {
        slot: Slot,
        fault: CheckFault,
    },
    /// Asks for the counters.
    Ask,
    /// Nothing: the line is empty or a comment.
    Blank,
    /// Not a line of the format.
    Wrong,
}
