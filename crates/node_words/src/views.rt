//! What a node's log shows of its node at one moment.
use filter_slots::{End, Socket};

/// The state of a neighbour at one moment.
#[derive(Clone, Copy, PartialEq)]
pub struct NeighbourView {
    /// The socket from which it is queried.
    pub protocol: Socket,
    /// The address and port at which it is queried.
    pub end: End,
    /// Whether it has missed fewer than 20 query rounds since it was last heard from.
    pub is_up: bool,
    /// Its smoothed response time in eighths of a millisecond; `None` before the first sample.
    pub time: Option<u32>,
    /// Number of query rounds it has missed since it was last heard from, at most 20.
    pub misses: u8,
    /// Whether its slot has a filter.
    pub has_filter: bool,
}

/// How large the book and the store of its node are at one moment.
#[derive(Clone, Copy)]
pub struct Sizes {
    /// Number of events taken.
    pub events: u64,
    /// Number of events taken before the present volume began.
    pub base: u64,
    /// Number of stored objects, those that are no longer fresh among them.
    pub objects: usize,
    /// Octets of stored objects and their keys.
    pub octets: u64,
    /// Number of objects that had to make room for others, modulo 2^64.
    pub evictions: u64,
}
