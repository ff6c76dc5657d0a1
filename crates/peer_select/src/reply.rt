//! Replies, peers and sources.

use neighbours::Role;

/// How a peer replied.
#[derive(Clone, Copy)]
pub enum Kind {
    /// The peer has the object.
    Hit,
    /// The peer does not have the object.
    Miss,
    /// The peer will not serve the object.
    Refused,
}

/// A reply: its kind, the index of its peer, and the peer's smoothed response time including this reply.
#[derive(Clone, Copy)]
pub struct Reply {
    pub s: u32,
    pub n: u8,
    pub kind: Kind,
}

/// A neighbour as copied into a round: weight and role, and whether it was up at the start.
#[derive(Clone, Copy)]
pub struct Peer {
    pub weight: u32,
    pub role: Role,
    pub up: bool,
}

/// Where to fetch an object from: a neighbour, by index, or the origin server.
#[derive(Clone, Copy, PartialEq, Eq)]
pub enum Source {
    Peer(usize),
    Origin,
}
