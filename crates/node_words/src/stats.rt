//! Datagram counters.

/// Numbers of datagrams at one socket, by what became of them. Saturating.
#[derive(Clone, Copy, PartialEq, Eq)]
pub struct Counters {
    /// All datagrams.
    pub judged: u64,
    /// Datagrams with verdict 0.
    pub rejected: u64,
    /// Accepted, but truncated.
    pub cut: u64,
    /// Accepted, but failed to decode.
    pub malformed: u64,
}

/// The counters of both sockets.
#[derive(Clone, Copy, PartialEq, Eq)]
pub struct Stats {
    pub icp: Counters,
    pub htcp: Counters,
}
