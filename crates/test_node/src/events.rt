//! Fixtures: nodes, events for them, and what they are made of.

use bpf_check::{Checked, Insn, check};
use filter_slots::{Datagram, End, Moment, Slot, Socket};
use node_core::{Config, Event, Mode, Network, Node, Outcome};
use object_store::{CacheKey, Object, SharedObject};
use std::alloc::Global;
use std::sync::Arc;

pub(crate) const OWN: End = End {
    addr: [10, 0, 0, 1],
    port: 3130,
};

/// The neighbour that asks and replies.
pub(crate) const PEER: End = End {
    addr: [10, 0, 0, 9],
    port: 3130,
};

/// An ICP query for `http://a/`.
pub(crate) const QUERY: &[u8] =
    b"\x01\x02\x00\x22\x00\x00\x00\x01\x00\x00\x00\x00\x00\x00\x00\x00\x00\x00\x00\x00\x00\x00\x00\x00http://a/\x00";

/// The MISS reply of a node at 10.0.0.1 to the query.
pub(crate) const MISS: &[u8] =
    b"\x03\x02\x00\x1e\x00\x00\x00\x01\x00\x00\x00\x00\x00\x00\x00\x00\x0a\x00\x00\x01http://a/\x00";

/// What the nodes of these tests differ in: the limits of the store.
#[derive(Clone, Copy)]
pub(crate) struct Settings {
    pub(crate) entries: u32,
    pub(crate) octets: u32,
}

/// The settings of most nodes.
pub(crate) const USUAL: Settings = Settings {
    entries: 100,
    octets: 10_000,
};

/// The network 10.0.0.0/8.
fn allowed(alloc: Global) -> Option<Vec<Network>> {
    let ten = Network {
        addr: [10, 0, 0, 0],
        prefix: 8,
    };
    Vec::from_array(alloc, [ten]).ok()
}

/// The configuration of a node at 10.0.0.1 without neighbours.
pub(crate) fn config_of(alloc: Global, settings: &Settings) -> Option<Config> {
    let htcp = End {
        addr: OWN.addr,
        port: 4827,
    };
    Some(Config {
        icp: OWN,
        htcp,
        allowed: allowed(alloc)?,
        miss_nofetch: false,
        origin: true,
        entries: settings.entries,
        octets: settings.octets,
        neighbours: Vec::new(alloc),
        keys: Vec::new(alloc),
    })
}

/// A node at 10.0.0.1.
pub(crate) fn node_with(alloc: Global, settings: &Settings) -> Option<Node> {
    Node::new(alloc, config_of(alloc, settings)?).ok()
}

/// A node at 10.0.0.1 that answers queries from 10.0.0.0/8.
pub(crate) fn node_of(alloc: Global) -> Option<Node> {
    node_with(alloc, &USUAL)
}

/// A datagram for the node.
pub(crate) fn datagram_of(
    alloc: Global,
    socket: Socket,
    from: End,
    octets: &[u8],
) -> Option<Arc<Datagram>> {
    let payload = octets.to_vec(alloc).ok()?;
    let datagram = Datagram::new(socket, from, OWN, payload).ok()?;
    Arc::new(alloc, datagram).ok()
}

/// The arrival of a datagram from the neighbour.
pub(crate) fn arrival(alloc: Global, socket: Socket, octets: &[u8], now: Moment) -> Option<Event> {
    let datagram = datagram_of(alloc, socket, PEER, octets)?;
    Some(Event::Datagram { datagram, now })
}

/// A timer event at this millisecond.
pub(crate) fn timer(alloc: Global, millis: u64) -> Option<Arc<Event>> {
    let now = Moment::new(millis)?;
    Arc::new(alloc, Event::Timer { now }).ok()
}

/// A neighbour's query at this millisecond.
pub(crate) fn query(alloc: Global, millis: u64) -> Option<Arc<Event>> {
    let query = arrival(alloc, Socket::Icp, QUERY, Moment::new(millis)?)?;
    Arc::new(alloc, query).ok()
}

/// A client's request for `http://a/`.
pub(crate) fn request(alloc: Global, client: u64, mode: Mode, now: Moment) -> Option<Event> {
    let key = CacheKey::new(alloc, b"http://a/".to_vec(alloc).ok()?).ok()?;
    Some(Event::Request {
        client,
        key,
        mode,
        now,
    })
}

/// An object of status 200 with the body `hi`, no header fields and a time to live of 60 seconds.
pub(crate) fn greeting(alloc: Global) -> Option<SharedObject> {
    let body = b"hi".to_vec(alloc).ok()?;
    SharedObject::new(alloc, Object::new(200, Vec::new(alloc), body, 0, 60)).ok()
}

/// A header field.
pub(crate) fn field(alloc: Global, name: &[u8], value: &[u8]) -> Option<(Vec<u8>, Vec<u8>)> {
    Some((name.to_vec(alloc).ok()?, value.to_vec(alloc).ok()?))
}

/// The end of a fetch with an object of body `hi` and a time to live of 60 seconds.
pub(crate) fn fetched(alloc: Global, fetch: u32, now: Moment) -> Option<Event> {
    let object = greeting(alloc)?;
    Some(Event::Fetched {
        fetch,
        attempt: 0,
        result: Outcome::Object(object),
        now,
    })
}

/// The instruction of a filter that accepts the first `k` octets of a packet.
pub(crate) fn limit(k: u32) -> Insn {
    Insn {
        code: 6,
        jt: 0,
        jf: 0,
        k,
    }
}

/// A filter with these instructions.
pub(crate) fn filter_of(alloc: Global, insns: &[Insn]) -> Option<Arc<Checked>> {
    let program = check(insns.to_vec(alloc).ok()?).ok()?;
    Arc::new(alloc, program).ok()
}

/// A swap of the ICP socket's filter for one with these instructions.
pub(crate) fn swap(alloc: Global, insns: &[Insn]) -> Option<Event> {
    Some(Event::Swap {
        slot: Slot::Socket(Socket::Icp),
        program: Some(filter_of(alloc, insns)?),
    })
}

/// The values, if none is missing.
pub(crate) fn all_of<T: Drop>(alloc: Global, found: Vec<Option<T>>) -> Option<Vec<T>> {
    let mut all = Vec::new(alloc);
    for value in found {
        all.push(value?).ok()?;
    }
    Some(all)
}

/// Whether a text spells these octets in hexadecimal.
pub(crate) fn spells(alloc: Global, text: &str, octets: &[u8]) -> bool {
    let Ok(spelled) = hex::encode(alloc, octets) else {
        return false;
    };
    let is_same = spelled.as_str() == text;
    drop(spelled);
    is_same
}
