//! Tests of a node that takes many queries, of copies of nodes, and of configurations that the node refuses.

use crate::calls::{is_sent, is_taken};
use crate::events::{MISS, OWN, USUAL, config_of, node_of, query, request};
use filter_slots::{Moment, Socket};
use neighbours::{ConfigFault, Neighbour, Role};
use node_core::{Event, Mode, Network, Node, NodeFault, Out};
use std::alloc::Global;
use std::test::Fail;

/// Whether a node takes an event, and all that it does is to send a MISS (`true`), or any one thing.
fn answers(alloc: Global, node: &mut Node, event: &Event, is_missed: bool) -> Option<bool> {
    let mut out = Out::new(alloc).ok()?;
    let is_taken = is_taken(alloc, node, event, &mut out);
    let is_answered = is_missed && is_sent(&out, MISS) || !is_missed && out.actions().len() == 1;
    drop(out);
    Some(is_taken && is_answered)
}

/// Whether a client's request begins a fetch.
fn waits(alloc: Global, node: &mut Node) -> Option<bool> {
    let event = request(alloc, 1, Mode::Shared, Moment::new(5)?)?;
    let waits = answers(alloc, node, &event, false);
    drop(event);
    waits
}

/// Whether a neighbour's query is answered with a MISS.
fn misses(alloc: Global, node: &mut Node) -> Option<bool> {
    let event = query(alloc, 5)?;
    let misses = answers(alloc, node, &*event, true);
    drop(event);
    misses
}

/// Gives a client's request to a node and a neighbour's query to its copy. Whether each acts on its own event only, and counts
/// only that.
fn are_apart(alloc: Global, node: &mut Node, copy: &mut Node) -> bool {
    let waits = waits(alloc, node) == Some(true);
    let is_missed = misses(alloc, copy) == Some(true);
    let judged = (node.stats().icp.judged, copy.stats().icp.judged);
    waits && is_missed && judged == (0, 1) && node.key_of(1).is_some() && copy.key_of(1).is_none()
}

/// Whether a node and its copy are independent.
fn is_copied(alloc: Global, node: &mut Node) -> Option<bool> {
    let mut copy = node.copy(alloc).ok()?;
    let are_apart = are_apart(alloc, node, &mut copy);
    drop(copy);
    Some(are_apart)
}

#[test]
fn a_copy_goes_its_own_way(rt: HostRuntime) -> Result<(), Fail> {
    let mut node = node_of(rt.alloc()).ok_or("a node")?;
    let is_copied = is_copied(rt.alloc(), &mut node);
    drop(node);
    assert!(rt; is_copied == Some(true));
    Ok(())
}

/// How many of this many equal queries a node answers with a MISS.
fn missed(alloc: Global, node: &mut Node, event: &Event, queries: u32) -> Option<u32> {
    let mut out = Out::new(alloc).ok()?;
    let mut count = 0u32;
    for _ in 0..queries {
        let is_missed = is_taken(alloc, node, event, &mut out) && is_sent(&out, MISS);
        count = count.wrapping_add(is_missed as u32);
    }
    drop(out);
    Some(count)
}

/// The same of a new node.
fn missed_by_a_node(alloc: Global, queries: u32) -> Option<u32> {
    let event = query(alloc, 5)?;
    let Some(mut node) = node_of(alloc) else {
        drop(event);
        return None;
    };
    let count = missed(alloc, &mut node, &*event, queries);
    drop(node);
    drop(event);
    count
}

#[test]
fn many_queries_get_their_replies(rt: HostRuntime) {
    assert!(rt; missed_by_a_node(rt.alloc(), 100_000) == Some(100_000));
}

/// This many neighbours, all at the node's own address.
fn neighbours_of(alloc: Global, count: u8) -> Option<Vec<Neighbour>> {
    let mut list = Vec::new(alloc);
    for _ in 0..count {
        let neighbour = Neighbour {
            kind: Role::Parent,
            protocol: Socket::Icp,
            end: OWN,
            http_port: 3128,
            weight: 1,
            key: None,
        };
        list.push(neighbour).ok()?;
    }
    Some(list)
}

/// The prefix of the network 10.0.0.0 whose queries are answered, a store's number of entries, a number of neighbours, and the fault of
/// such a configuration, in which HTCP has the port of ICP.
type Refused = (u8, u32, u8, NodeFault);

const REFUSED: [Refused; 5] = [
    (33, 10, 0, NodeFault::Limits),
    (8, 0, 0, NodeFault::Limits),
    (8, 1_000_001, 1, NodeFault::Limits),
    (33, 0, 2, NodeFault::Table(ConfigFault::DoubleAddress)),
    (8, 10, 65, NodeFault::Table(ConfigFault::Count)),
];

/// The fault of the configuration of a row.
fn fault_of(alloc: Global, row: &Refused) -> Option<NodeFault> {
    let ten = Network {
        addr: [10, 0, 0, 0],
        prefix: row.0,
    };
    let allowed = Vec::from_array(alloc, [ten]).ok()?;
    let neighbours = neighbours_of(alloc, row.2)?;
    let mut config = config_of(alloc, &USUAL)?;
    config.htcp = OWN;
    config.allowed = allowed;
    config.entries = row.1;
    config.neighbours = neighbours;
    Node::new(alloc, config).err()
}

#[test]
fn configurations_are_refused(rt: HostRuntime) {
    for row in &REFUSED {
        assert!(rt; fault_of(rt.alloc(), row) == Some(row.3));
    }
}
