//! The nodes that the tests ask, by what they differ in.
use crate::messages::{OWN, OWN_HTCP, PEER};
use filter_slots::{End, Socket};
use neighbours::{Neighbour, Role};
use node_book::Lone;
use node_core::{Config, Counters, Network, Node};
use std::alloc::Global;

/// An ICP neighbour.
pub(crate) struct Peer {
    pub(crate) kind: Role,
    pub(crate) end: End,
    pub(crate) http_port: u16,
}

/// A node at 10.0.0.1.
#[derive(Drop)]
pub(crate) struct Site {
    pub(crate) htcp: End,
    /// The networks whose queries are answered.
    pub(crate) allowed: &'static [Network],
    /// Whether it may fetch from origins.
    pub(crate) origin: bool,
    pub(crate) entries: u32,
    pub(crate) octets: u32,
    pub(crate) peers: &'static [Peer],
}

const TEN: Network = Network {
    addr: [10, 0, 0, 0],
    prefix: 8,
};

const LOOPBACK: Network = Network {
    addr: [127, 0, 0, 0],
    prefix: 8,
};

/// A node without neighbours that answers clients in 10.0.0.0/8 and 127.0.0.0/8.
pub(crate) const ALONE: Site = Site {
    htcp: OWN,
    allowed: &[TEN, LOOPBACK],
    origin: true,
    entries: 10,
    octets: 1_000,
    peers: &[],
};

/// The same with a parent that never replies.
pub(crate) const WAITS: Site = Site {
    peers: &[Peer {
        kind: Role::Parent,
        end: PEER,
        http_port: 3128,
    }],
    ..ALONE
};

/// A node that answers 10.0.0.0/8, whose one neighbour sends the queries.
pub(crate) const FILTERED: Site = Site {
    htcp: OWN_HTCP,
    allowed: &[TEN],
    origin: true,
    entries: 100,
    octets: 10_000,
    peers: &[Peer {
        kind: Role::Parent,
        end: PEER,
        http_port: 8_080,
    }],
};

fn neighbour(peer: &Peer) -> Neighbour {
    Neighbour {
        kind: peer.kind,
        protocol: Socket::Icp,
        end: peer.end,
        http_port: peer.http_port,
        weight: 1,
        key: None,
    }
}

fn neighbours(alloc: Global, peers: &[Peer]) -> Option<Vec<Neighbour>> {
    let mut neighbours = Vec::new(alloc);
    for peer in peers {
        neighbours.push(neighbour(peer)).ok()?;
    }
    Some(neighbours)
}

fn settings(
    alloc: Global,
    site: &Site,
    allowed: Vec<Network>,
    neighbours: Vec<Neighbour>,
) -> Config {
    Config {
        icp: OWN,
        htcp: site.htcp,
        allowed,
        miss_nofetch: false,
        origin: site.origin,
        entries: site.entries,
        octets: site.octets,
        neighbours,
        keys: Vec::new(alloc),
    }
}

/// A new node.
pub(crate) fn node_of(alloc: Global, site: &Site) -> Option<Node> {
    let allowed = site.allowed.to_vec(alloc).ok()?;
    let neighbours = neighbours(alloc, site.peers)?;
    Node::new(alloc, settings(alloc, site, allowed, neighbours)).ok()
}

/// A new node's clerk, without a desk.
pub(crate) fn lone_of(alloc: Global, site: &Site) -> Option<Lone> {
    Some(Lone::new(alloc, node_of(alloc, site)?))
}

/// The ICP counters of a clerk's node.
pub(crate) fn counted_by(clerk: &Lone) -> Counters {
    clerk.node().stats().icp
}
