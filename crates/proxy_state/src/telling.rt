//! What is counted and told of a running proxy.
use crate::log::AccessLog;
use crate::neighbour_counts::NeighbourEnds;
use crate::notices::Notices;
use std::sync::Arc;
use std::sync::atomic::{AtomicU16, AtomicU64, AtomicUsize};
use std::time::Instant;
use traffic_figures::Figures;

/// What is counted and told.
pub struct Telling {
    /// Counts answers, fetches, and datagrams to and from the neighbours.
    pub figures: Figures,
    /// Tells which neighbour a datagram goes to or comes from.
    pub ends: NeighbourEnds,
    /// The number of open connections of clients.
    pub connections: Arc<AtomicUsize>,
    /// How many octets of bodies wait for room.
    pub wanted_octets: Arc<AtomicU64>,
    /// How many answers clients were given.
    pub answered: AtomicU64,
    /// Where lines about answers go, if anywhere, and their form.
    pub log: Option<AccessLog>,
    /// Where notices of what fails go, if they are asked for.
    pub notices: Option<Notices>,
    /// The port that administration is served on: the configuration's, and once its socket is bound that of the socket.
    pub admin_port: AtomicU16,
    /// The version of the program.
    pub version: &'static str,
    /// When the proxy started, for its uptime. `None` if the clock could not be read.
    pub started: Option<Instant>,
}

// Written by hand, so that what lets it go is one call for the prover (docs/GATE.md).
impl Drop for Telling {
    fn drop(self) {
        let Self {
            figures: _,
            ends: _,
            connections: _,
            wanted_octets: _,
            answered: _,
            log: _,
            notices: _,
            admin_port: _,
            version: _,
            started: _,
        } = self;
    }
}
