//! Addresses and datagrams.
use filter_slots::{Datagram, End, Slot, Socket};
use std::alloc::Global;
use std::sync::Arc;

/// The node's own address for ICP.
pub(crate) const OWN: End = End {
    addr: [10, 0, 0, 1],
    port: 3130,
};

/// The node's own address for HTCP, where that is another one.
pub(crate) const OWN_HTCP: End = End {
    addr: [10, 0, 0, 1],
    port: 4827,
};

/// The address of the node's client or neighbour, which sends all datagrams.
pub(crate) const PEER: End = End {
    addr: [10, 0, 0, 9],
    port: 3130,
};

/// The slots whose filters judge such a datagram, if its sender is the first neighbour.
pub(crate) const SLOTS: [Slot; 2] = [Slot::Socket(Socket::Icp), Slot::Neighbour(0)];

/// ICP queries for `http://a/` with request numbers 1 to 5.
const QUERIES: [&[u8]; 5] = [
    b"\x01\x02\x00\x22\x00\x00\x00\x01\x00\x00\x00\x00\x00\x00\x00\x00\x00\x00\x00\x00\x00\x00\x00\x00http://a/\x00",
    b"\x01\x02\x00\x22\x00\x00\x00\x02\x00\x00\x00\x00\x00\x00\x00\x00\x00\x00\x00\x00\x00\x00\x00\x00http://a/\x00",
    b"\x01\x02\x00\x22\x00\x00\x00\x03\x00\x00\x00\x00\x00\x00\x00\x00\x00\x00\x00\x00\x00\x00\x00\x00http://a/\x00",
    b"\x01\x02\x00\x22\x00\x00\x00\x04\x00\x00\x00\x00\x00\x00\x00\x00\x00\x00\x00\x00\x00\x00\x00\x00http://a/\x00",
    b"\x01\x02\x00\x22\x00\x00\x00\x05\x00\x00\x00\x00\x00\x00\x00\x00\x00\x00\x00\x00\x00\x00\x00\x00http://a/\x00",
];

/// The MISS reply to the first query of a node at 10.0.0.1 with nothing stored.
pub(crate) const MISS: &[u8] =
    b"\x03\x02\x00\x1e\x00\x00\x00\x01\x00\x00\x00\x00\x00\x00\x00\x00\x0a\x00\x00\x01http://a/\x00";

/// Its MISS replies to all five.
pub(crate) const MISSES: [&[u8]; 5] = [
    MISS,
    b"\x03\x02\x00\x1e\x00\x00\x00\x02\x00\x00\x00\x00\x00\x00\x00\x00\x0a\x00\x00\x01http://a/\x00",
    b"\x03\x02\x00\x1e\x00\x00\x00\x03\x00\x00\x00\x00\x00\x00\x00\x00\x0a\x00\x00\x01http://a/\x00",
    b"\x03\x02\x00\x1e\x00\x00\x00\x04\x00\x00\x00\x00\x00\x00\x00\x00\x0a\x00\x00\x01http://a/\x00",
    b"\x03\x02\x00\x1e\x00\x00\x00\x05\x00\x00\x00\x00\x00\x00\x00\x00\x0a\x00\x00\x01http://a/\x00",
];

/// A datagram from the peer to the node's ICP socket.
fn datagram(alloc: Global, octets: Vec<u8>) -> Option<Arc<Datagram>> {
    let datagram = Datagram::new(Socket::Icp, PEER, OWN, octets).ok()?;
    Arc::new(alloc, datagram).ok()
}

/// The query at this place of the list.
pub(crate) fn query(alloc: Global, place: usize) -> Option<Arc<Datagram>> {
    datagram(alloc, QUERIES.get(place)?.to_vec(alloc).ok()?)
}
