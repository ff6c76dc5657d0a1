//! The node that is measured, and the events that it is given.

use bpf_check::{Checked, Insn, check};
use filter_slots::{Datagram, End, Judged, Moment, Slot, Slots, Socket};
use node_core::{Config, Event, Mode, Network, Node, Out, Outcome};
use object_store::{CacheKey, Object, SharedObject};
use std::alloc::Global;
use std::sync::Arc;

const ICP_END: End = End {
    addr: [10, 0, 0, 1],
    port: 3130,
};

const HTCP_END: End = End {
    addr: [10, 0, 0, 1],
    port: 4827,
};

/// Who sends the queries.
const PEER: End = End {
    addr: [10, 0, 0, 9],
    port: 3130,
};

/// The header of an ICP query, and the requester's address behind it.
const HEADER: &[u8] =
    b"\x01\x02\x00\x23\x00\x00\x00\x01\x00\x00\x00\x00\x00\x00\x00\x00\x00\x00\x00\x00\x00\x00\x00\x00";

/// The event that a node is given over and over.
#[derive(Clone, Copy)]
pub enum Kind {
    /// A query for what isn't stored.
    Miss,
    /// A query for what is stored.
    Hit,
    /// A client's request for what is stored.
    Served,
    /// A query that a filter of one instruction rejects.
    Rejected,
    /// A query for what isn't stored, which a filter of 512 instructions accepts.
    LongMiss,
    /// A query that a filter of 512 instructions rejects.
    LongRejected,
    /// A tick with nothing due.
    Timer,
}

/// The kind with this name.
pub fn parse_kind(name: &str) -> Option<Kind> {
    match name {
        "miss" => Some(Kind::Miss),
        "hit" => Some(Kind::Hit),
        "served" => Some(Kind::Served),
        "rejected" => Some(Kind::Rejected),
        "long_miss" => Some(Kind::LongMiss),
        "long_rejected" => Some(Kind::LongRejected),
        "timer" => Some(Kind::Timer),
        _ => None,
    }
}

/// The network 10.0.0.0/8.
fn networks(alloc: Global) -> Option<Vec<Network>> {
    let mut networks = Vec::new(alloc);
    networks
        .push(Network {
            addr: [10, 0, 0, 0],
            prefix: 8,
        })
        .ok()?;
    Some(networks)
}

/// The settings of a node without neighbours, which stores at most `entries` objects.
fn config(alloc: Global, allowed: Vec<Network>, entries: u32) -> Config {
    Config {
        icp: ICP_END,
        htcp: HTCP_END,
        allowed,
        miss_nofetch: false,
        origin: true,
        entries,
        octets: 1_073_741_824,
        neighbours: Vec::new(alloc),
        keys: Vec::new(alloc),
    }
}

fn empty_node(alloc: Global, entries: u32) -> Option<Node> {
    Node::new(alloc, config(alloc, networks(alloc)?, entries)).ok()
}

/// How many instructions the filter for a kind of event loads a constant with, and the verdict that it returns then. `None`
/// if that kind has no filter.
fn shape_of(kind: Kind) -> Option<(u32, u32)> {
    match kind {
        Kind::Rejected => Some((0, 0)),
        Kind::LongMiss => Some((511, u32::MAX)),
        Kind::LongRejected => Some((511, 0)),
        Kind::Miss | Kind::Hit | Kind::Served | Kind::Timer => None,
    }
}

/// An instruction that doesn't jump.
fn insn(code: u16, k: u32) -> Insn {
    Insn {
        code,
        jt: 0,
        jf: 0,
        k,
    }
}

/// Loads of a constant, and a return of `verdict`.
fn instructions(alloc: Global, loads: u32, verdict: u32) -> Option<Vec<Insn>> {
    let mut insns = Vec::new(alloc);
    for _ in 0..loads {
        insns.push(insn(0, 1)).ok()?;
    }
    insns.push(insn(6, verdict)).ok()?;
    Some(insns)
}

fn checked(insns: Vec<Insn>) -> Option<Checked> {
    check(insns).ok()
}

fn filter(alloc: Global, loads: u32, verdict: u32) -> Option<Arc<Checked>> {
    Arc::new(alloc, checked(instructions(alloc, loads, verdict)?)?).ok()
}

/// The event that puts a filter on the ICP socket.
fn swap(alloc: Global, loads: u32, verdict: u32) -> Option<Event> {
    Some(Event::Swap {
        slot: Slot::Socket(Socket::Icp),
        program: Some(filter(alloc, loads, verdict)?),
    })
}

/// The key `http://a/` and a number.
fn key(alloc: Global, number: u32) -> Option<CacheKey> {
    let text = format!(in alloc; "http://a/{number}").ok()?;
    CacheKey::new(alloc, text.as_bytes().to_vec(alloc).ok()?).ok()
}

/// A client's request for the key with this number.
fn request(alloc: Global, client: u64, number: u32) -> Option<Event> {
    let now = moment()?;
    Some(Event::Request {
        client,
        key: key(alloc, number)?,
        mode: Mode::Shared,
        now,
    })
}

/// An object with the body `hi`, which stays fresh for long.
fn object(alloc: Global) -> Option<SharedObject> {
    let body = b"hi".to_vec(alloc).ok()?;
    let object = Object::new(200, Vec::new(alloc), body, 0, 2_147_483_648);
    SharedObject::new(alloc, object).ok()
}

/// The result of a fetch: an object that may be stored.
fn fetched(alloc: Global, fetch: u32) -> Option<Event> {
    let now = moment()?;
    Some(Event::Fetched {
        fetch,
        attempt: 0,
        result: Outcome::Object(object(alloc)?),
        now,
    })
}

/// The payload of a query for `http://a/` and a digit.
fn payload(alloc: Global, digit: u8) -> Option<Vec<u8>> {
    let mut payload = HEADER.to_vec(alloc).ok()?;
    payload.extend_from_slice(b"http://a/").ok()?;
    payload.push(digit).ok()?;
    payload.push(0).ok()?;
    Some(payload)
}

fn query(alloc: Global, digit: u8) -> Option<Arc<Datagram>> {
    let datagram = Datagram::new(Socket::Icp, PEER, ICP_END, payload(alloc, digit)?).ok()?;
    Arc::new(alloc, datagram).ok()
}

/// The datagram of a kind of event, or `None` if that has none or memory runs out.
fn datagram(alloc: Global, kind: Kind) -> Option<Arc<Datagram>> {
    match kind {
        Kind::Miss | Kind::LongMiss => query(alloc, b'x'),
        Kind::Hit | Kind::Rejected | Kind::LongRejected => query(alloc, b'0'),
        Kind::Served | Kind::Timer => None,
    }
}

/// The datagram of a kind of event, judged by `programs`.
pub fn make_judged(alloc: Global, kind: Kind, programs: &Slots) -> Option<Judged> {
    programs.judge(datagram(alloc, kind)?).ok()
}

/// The time of all events.
pub fn moment() -> Option<Moment> {
    Moment::new(5_000)
}

fn arrival(alloc: Global, kind: Kind) -> Option<Event> {
    let now = moment()?;
    let datagram = datagram(alloc, kind)?;
    Some(Event::Datagram { datagram, now })
}

fn timer() -> Option<Event> {
    Some(Event::Timer { now: moment()? })
}

fn event(alloc: Global, kind: Kind) -> Option<Event> {
    match kind {
        Kind::Served => request(alloc, 7, 0),
        Kind::Timer => timer(),
        _ => arrival(alloc, kind),
    }
}

/// A new event of a kind.
pub fn make_event(alloc: Global, kind: Kind) -> Option<Arc<Event>> {
    Arc::new(alloc, event(alloc, kind)?).ok()
}

/// Steps the node once. All that is in `out` then are this event's actions.
pub fn is_taken(alloc: Global, node: &mut Node, event: &Event, out: &mut Out) -> bool {
    out.clear();
    node.step(alloc, event, out).is_ok()
}

/// Stores the object with this number: a client asks for it, and it is fetched.
fn store(alloc: Global, node: &mut Node, number: u32, out: &mut Out) -> Option<bool> {
    let request = request(alloc, 1, number)?;
    let is_asked = is_taken(alloc, node, &request, out);
    let fetched = fetched(alloc, number.wrapping_add(1))?;
    Some(is_asked && is_taken(alloc, node, &fetched, out))
}

fn store_all(alloc: Global, node: &mut Node, entries: u32, out: &mut Out) -> Option<bool> {
    for number in 0..entries {
        if !store(alloc, node, number, out)? {
            return Some(false);
        }
    }
    Some(true)
}

/// Puts in the filter for a kind of event, if that has one.
fn put_filter(alloc: Global, node: &mut Node, kind: Kind, out: &mut Out) -> Option<bool> {
    match shape_of(kind) {
        Some((loads, verdict)) => {
            Some(is_taken(alloc, node, &swap(alloc, loads, verdict)?, out))
        }
        None => Some(true),
    }
}

fn prepare(alloc: Global, node: &mut Node, kind: Kind, entries: u32) -> Option<bool> {
    let mut out = Out::new(alloc).ok()?;
    let is_full = store_all(alloc, node, entries, &mut out);
    let is_filtered = put_filter(alloc, node, kind, &mut out);
    drop(out);
    Some(is_full? && is_filtered?)
}

/// A node that has the filter for a kind of event, and `entries` objects in its store, which is full.
pub fn make_node(alloc: Global, kind: Kind, entries: u32) -> Option<Node> {
    let mut node = empty_node(alloc, entries)?;
    let is_ready = prepare(alloc, &mut node, kind, entries) == Some(true);
    is_ready.then_some(node)
}
