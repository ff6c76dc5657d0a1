//! Nodes and events of scenarios. All functions return `None` when out of memory.
use crate::stories::{Beside, Line, Story, What};
use bpf_check::{Checked, Insn, check};
use filter_slots::{Datagram, End, Moment, Slot, Socket};
use neighbours::{Key, Neighbour, Octets};
use node_core::{Config, Event, Mode, Network, Node, Outcome};
use object_store::{CacheKey, Object, SharedObject};
use std::alloc::Global;
use std::sync::Arc;

/// The key that clients ask for.
const KEY: &[u8] = b"http://a/";

/// The default port of a socket.
fn port_of(socket: Socket) -> u16 {
    match socket {
        Socket::Icp => 3130,
        Socket::Htcp => 4827,
    }
}

/// The address 10.0.0.`last` with the socket's default port.
fn end_of(socket: Socket, last: u8) -> End {
    End {
        addr: [10, 0, 0, last],
        port: port_of(socket),
    }
}

/// The name of the signing key, if the neighbour has it.
fn key_name(alloc: Global, is_signed: bool) -> Option<Option<Octets>> {
    if is_signed {
        return Some(Some(octets_of(alloc, b"k")?));
    }
    Some(None)
}

fn neighbour_of(alloc: Global, beside: &Beside) -> Option<Neighbour> {
    Some(Neighbour {
        kind: beside.kind,
        protocol: beside.protocol,
        end: end_of(beside.protocol, beside.last),
        http_port: 3128,
        weight: beside.weight,
        key: key_name(alloc, beside.is_signed)?,
    })
}

fn neighbours_of(alloc: Global, story: &Story) -> Option<Vec<Neighbour>> {
    let mut neighbours = Vec::new(alloc);
    for beside in story.neighbours {
        neighbours.push(neighbour_of(alloc, beside)?).ok()?;
    }
    Some(neighbours)
}

fn octets_of(alloc: Global, text: &[u8]) -> Option<Octets> {
    Some(Octets::new(text.to_vec(alloc).ok()?))
}

/// The only signing key.
fn key_of(alloc: Global) -> Option<Key> {
    let name = octets_of(alloc, b"k")?;
    let secret = octets_of(alloc, b"secret")?;
    Some(Key { name, secret })
}

/// The signing keys: one.
fn keys_of(alloc: Global) -> Option<Vec<Key>> {
    let key = key_of(alloc)?;
    let mut keys = Vec::new(alloc);
    keys.push(key).ok()?;
    Some(keys)
}

/// The network whose queries are answered: 10.0.0.0 to 10.0.0.15.
fn allowed(alloc: Global) -> Option<Vec<Network>> {
    let mut allowed = Vec::new(alloc);
    let sixteen = Network {
        addr: [10, 0, 0, 0],
        prefix: 28,
    };
    allowed.push(sixteen).ok()?;
    Some(allowed)
}

/// The node of a scenario, at 10.0.0.1.
pub fn node_of(alloc: Global, story: &Story) -> Option<Node> {
    let config = Config {
        icp: end_of(Socket::Icp, 1),
        htcp: end_of(Socket::Htcp, 1),
        allowed: allowed(alloc)?,
        miss_nofetch: false,
        origin: story.has_origin,
        entries: 10,
        octets: 1_000,
        neighbours: neighbours_of(alloc, story)?,
        keys: keys_of(alloc)?,
    };
    Node::new(alloc, config).ok()
}

/// A datagram with these octets (hexadecimal) that arrives at a socket from 10.0.0.`last` and the default port.
pub fn datagram_of(alloc: Global, socket: Socket, last: u8, octets: &str) -> Option<Arc<Datagram>> {
    let payload = hex::decode(alloc, octets).ok()?;
    let datagram = Datagram::new(socket, end_of(socket, last), end_of(socket, 1), payload).ok()?;
    Arc::new(alloc, datagram).ok()
}

/// A program that returns `k` for every packet.
fn program_of(alloc: Global, k: u32) -> Option<Arc<Checked>> {
    let insn = Insn {
        code: 6,
        jt: 0,
        jf: 0,
        k,
    };
    let insns = [insn].to_vec(alloc).ok()?;
    Arc::new(alloc, check(insns).ok()?).ok()
}

fn swap_of(alloc: Global, slot: Slot, k: Option<u32>) -> Option<Event> {
    let program = match k {
        Some(k) => Some(program_of(alloc, k)?),
        None => None,
    };
    Some(Event::Swap { slot, program })
}

/// An object with the body `hi`.
fn object_of(alloc: Global, status: u16, life: u32) -> Option<SharedObject> {
    let body = b"hi".to_vec(alloc).ok()?;
    SharedObject::new(alloc, Object::new(status, Vec::new(alloc), body, 0, life)).ok()
}

fn request_of(alloc: Global, client: u64, mode: Mode, now: Moment) -> Option<Event> {
    Some(Event::Request {
        client,
        key: CacheKey::new(alloc, KEY.to_vec(alloc).ok()?).ok()?,
        mode,
        now,
    })
}

/// The end of an attempt of fetch 1.
fn ended(attempt: u16, outcome: Outcome, now: Moment) -> Event {
    Event::Fetched {
        fetch: 1,
        attempt,
        result: outcome,
        now,
    }
}

/// The end of an attempt of fetch 1 with an object.
fn given(alloc: Global, attempt: u16, status: u16, life: u32, now: Moment) -> Option<Event> {
    let object = object_of(alloc, status, life)?;
    Some(ended(attempt, Outcome::Object(object), now))
}

fn arrival(alloc: Global, socket: Socket, last: u8, octets: &str, now: Moment) -> Option<Event> {
    let datagram = datagram_of(alloc, socket, last, octets)?;
    Some(Event::Datagram { datagram, now })
}

/// The event of a line.
pub fn event_of(alloc: Global, line: &Line) -> Option<Event> {
    let now = Moment::new(line.0)?;
    match line.1 {
        What::Comes(socket, last, octets) => arrival(alloc, socket, last, octets, now),
        What::Asks(client, mode) => request_of(alloc, client, mode, now),
        What::Ticks => Some(Event::Timer { now }),
        What::Gives(life) => given(alloc, 0, 200, life, now),
        What::Lacks(attempt) => given(alloc, attempt, 504, 0, now),
        What::Fails(attempt) => Some(ended(attempt, Outcome::Failed, now)),
        What::Leaves(client) => Some(Event::Gone { client }),
        What::Lets(slot, k) => swap_of(alloc, slot, k),
    }
}
