//! Lists of events: a short one with a filter that is swapped in it, and long ones.

use crate::calls::{outs_by, outs_of};
use crate::events::{PEER, Settings, all_of, arrival, node_with, spells, swap};
use bpf_check::Insn;
use filter_slots::{Moment, Socket};
use node_core::{Action, Event, Node, Out};
use std::alloc::Global;

/// An ICP query for `http://a/`.
const QUERY: &str = "010200220000000100000000000000000000000000000000687474703a2f2f612f00";

/// The MISS from 10.0.0.1 that answers it.
const MISS: &str = "0302001e0000000100000000000000000a000001687474703a2f2f612f00";

/// A MISS from 10.0.0.9.
const REPLY: &str = "0302001e0000000100000000000000000a000009687474703a2f2f612f00";

/// A filter program that accepts ICP queries and nothing else.
const QUERIES_ONLY: [Insn; 4] = [
    Insn {
        code: 48,
        jt: 0,
        jf: 0,
        k: 28,
    },
    Insn {
        code: 21,
        jt: 0,
        jf: 1,
        k: 1,
    },
    Insn {
        code: 6,
        jt: 0,
        jf: 0,
        k: 65_535,
    },
    Insn {
        code: 6,
        jt: 0,
        jf: 0,
        k: 0,
    },
];

/// The settings of a node that answers queries from 10.0.0.0/8.
const ROOMY: Settings = Settings {
    entries: 1000,
    octets: 1_048_576,
};

/// The arrival of a datagram from the neighbour at the node's ICP port.
fn spelled(alloc: Global, octets: &str, millis: u64) -> Option<Event> {
    let now = Moment::new(millis)?;
    let payload = hex::decode(alloc, octets).ok()?;
    let event = arrival(alloc, Socket::Icp, &payload, now);
    drop(payload);
    event
}

/// Whether an event sends these octets to the neighbour and does nothing else; where there are none, whether it does nothing.
fn sends(alloc: Global, out: &Out, wanted: &str) -> bool {
    match out.actions() {
        [] => wanted.is_empty(),
        [Action::Send { to, payload, .. }] if *to == PEER => {
            spells(alloc, wanted, payload.as_slice())
        }
        _ => false,
    }
}

/// A filter swap, a query that the filter accepts, and a reply that it rejects.
fn three_events(alloc: Global) -> Option<Vec<Event>> {
    let swap = swap(alloc, &QUERIES_ONLY);
    let events = [swap, spelled(alloc, QUERY, 5), spelled(alloc, REPLY, 6)];
    all_of(alloc, Vec::from_array(alloc, events).ok()?)
}

/// Whether each event sends what is expected.
fn are_sent(alloc: Global, outs: &[Out], wanted: &[&str]) -> bool {
    for (out, wanted) in outs.iter().zip(wanted) {
        if !sends(alloc, out, *wanted) {
            return false;
        }
    }
    outs.len() == wanted.len()
}

/// Whether the three events send what is expected.
fn takes_three(alloc: Global, node: &mut Node) -> Option<bool> {
    let outs = outs_by(alloc, node, three_events(alloc)?)?;
    let are_sent = are_sent(alloc, &outs, &["", MISS, ""]);
    drop(outs);
    Some(are_sent)
}

/// Whether the three events send what is expected of a new node, and how many datagrams it has then judged and rejected, and cut
/// and found malformed.
fn three_taken(alloc: Global) -> Option<(bool, (u64, u64), (u64, u64))> {
    let mut node = node_with(alloc, &ROOMY)?;
    let are_sent = takes_three(alloc, &mut node);
    let counters = node.stats().icp;
    drop(node);
    let judged = (counters.judged, counters.rejected);
    Some((are_sent?, judged, (counters.cut, counters.malformed)))
}

#[test]
fn a_run_takes_all_events(rt: HostRuntime) {
    assert!(rt; three_taken(rt.alloc()) == Some((true, (2, 1), (0, 0))));
}

/// The number of ticks in a long list. The actions of each event have room for 1,344, some 75 KB that are asked for and hardly
/// touched: this list asks for 15 GB and takes 0.8 GB, and a list of a million events would take 4 GB.
const TICKS: u64 = 200_000;

/// Ticks, one for each millisecond, and then a query.
fn ticks_and_query(alloc: Global) -> Option<Vec<Event>> {
    let mut events = Vec::new(alloc);
    for now in 0..TICKS {
        let now = Moment::new(now)?;
        events.push(Event::Timer { now }).ok()?;
    }
    events.push(spelled(alloc, QUERY, TICKS)?).ok()?;
    Some(events)
}

/// Whether there are actions for each event, and the last one sends the MISS.
fn is_answered_last(alloc: Global, outs: &[Out]) -> bool {
    match outs.last() {
        Some(out) => outs.len() as u64 == TICKS + 1 && sends(alloc, out, MISS),
        None => false,
    }
}

/// Whether a run of a new node takes the whole list.
fn takes_all(alloc: Global) -> Option<bool> {
    let outs = outs_of(alloc, &ROOMY, ticks_and_query(alloc)?)?;
    let is_answered = is_answered_last(alloc, &outs);
    drop(outs);
    Some(is_answered)
}

#[test]
fn a_run_takes_a_long_list(rt: HostRuntime) {
    assert!(rt; takes_all(rt.alloc()) == Some(true));
}

/// This many queries.
fn queries(alloc: Global, count: u64) -> Option<Vec<Event>> {
    let mut events = Vec::new(alloc);
    for now in 0..count {
        events.push(spelled(alloc, QUERY, now)?).ok()?;
    }
    Some(events)
}

/// Whether all that each event does is to send the MISS.
fn are_missed(alloc: Global, outs: &[Out]) -> bool {
    for out in outs {
        if !sends(alloc, out, MISS) {
            return false;
        }
    }
    true
}

/// For how many of this many queries, in one list, a new node gives actions, and whether each of these is to send the MISS.
fn missed(alloc: Global, count: u64) -> Option<(usize, bool)> {
    let outs = outs_of(alloc, &ROOMY, queries(alloc, count)?)?;
    let missed = (outs.len(), are_missed(alloc, &outs));
    drop(outs);
    Some(missed)
}

#[test]
fn a_long_list_is_taken(rt: HostRuntime) {
    assert!(rt; missed(rt.alloc(), 1_000) == Some((1_000, true)));
}
