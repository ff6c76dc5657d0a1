//! In-memory wires, and pumping over them.
use crate::messages::{MISSES, PEER, query};
use crate::sites::{ALONE, counted_by, lone_of};
use filter_slots::{Datagram, Moment, Socket};
use mio_queries::{MemoryWire, PumpFault, Pumped, Received, Sending, WireFault, pump};
use node_book::Clerk;
use std::alloc::Global;
use std::sync::Arc;

/// What one receive of an in-memory wire gives. Datagrams arrive at 5.
#[derive(Clone, Copy)]
pub(crate) enum Step {
    /// A query, by its place in the list.
    Query(usize),
    Idle(u64),
    Fault(WireFault),
}

/// All five queries, in order.
pub(crate) const FIVE: [Step; 5] = [
    Step::Query(0),
    Step::Query(1),
    Step::Query(2),
    Step::Query(3),
    Step::Query(4),
];

/// What a wire receives, which of its sends fail, for how many turns it is pumped, and the queries whose replies are expected.
#[derive(Drop)]
pub(crate) struct Script<'a> {
    pub(crate) steps: &'a [Step],
    pub(crate) failing: &'a [bool],
    pub(crate) turns: u32,
    pub(crate) replied: &'a [usize],
}

/// What came of pumping.
#[derive(Drop)]
pub(crate) struct Told {
    /// What `pump` returned.
    pub(crate) gives: Result<Pumped, PumpFault>,
    /// Whether exactly the expected replies were sent, in this order, to their sender.
    pub(crate) replied: bool,
    /// How many steps were received.
    pub(crate) taken: usize,
    /// How often the wire failed.
    pub(crate) faults: u64,
}

fn received(datagram: Option<Arc<Datagram>>) -> Option<Received> {
    let now = Moment::new(5)?;
    Some(Received::Datagram(datagram?, now))
}

fn answer_of(alloc: Global, step: Step) -> Option<Result<Received, WireFault>> {
    match step {
        Step::Query(place) => Some(Ok(received(query(alloc, place))?)),
        Step::Idle(now) => Some(Ok(Received::Idle(Moment::new(now)?))),
        Step::Fault(fault) => Some(Err(fault)),
    }
}

fn answers_of(alloc: Global, steps: &[Step]) -> Option<Vec<Result<Received, WireFault>>> {
    let mut answers = Vec::new(alloc);
    for step in steps {
        answers.push(answer_of(alloc, *step)?).ok()?;
    }
    Some(answers)
}

fn wire_of(alloc: Global, steps: &[Step], failing: &[bool]) -> Option<MemoryWire> {
    let failing = failing.to_vec(alloc).ok()?;
    Some(MemoryWire::new(alloc, answers_of(alloc, steps)?, failing))
}

/// Whether this is the reply to a query, sent to its sender.
fn is_reply(sending: &Sending, place: usize) -> bool {
    sending.socket == Socket::Icp
        && sending.to == PEER
        && MISSES.get(place).copied() == Some(sending.payload.as_slice())
}

/// Whether exactly the replies to these queries were sent, in this order, to their sender.
fn has_replied(wire: &MemoryWire, places: &[usize]) -> bool {
    for (sending, place) in wire.sent().iter().zip(places) {
        if !is_reply(sending, *place) {
            return false;
        }
    }
    wire.sent().len() == places.len()
}

/// Calls `pump`.
fn called<C: Clerk>(
    alloc: Global,
    wire: &mut MemoryWire,
    clerk: &mut C,
    turns: u32,
) -> Result<Pumped, PumpFault> {
    pump(alloc, wire, clerk, turns)
}

/// Pumps for a clerk over an in-memory wire. Returns `None` if the wire can't be made.
pub(crate) fn pumped<C: Clerk>(alloc: Global, clerk: &mut C, script: &Script<'_>) -> Option<Told> {
    let mut wire = wire_of(alloc, script.steps, script.failing)?;
    let gives = called(alloc, &mut wire, clerk, script.turns);
    let told = Told {
        gives,
        replied: has_replied(&wire, script.replied),
        taken: wire.taken(),
        faults: wire.faults(),
    };
    drop(wire);
    Some(told)
}

/// The same for a new node without neighbours. Also returns the number of ICP datagrams that the node judged.
pub(crate) fn pumped_alone(alloc: Global, script: &Script<'_>) -> Option<(Told, u64)> {
    let mut clerk = lone_of(alloc, &ALONE)?;
    let told = pumped(alloc, &mut clerk, script);
    let judged = counted_by(&clerk).judged;
    drop(clerk);
    Some((told?, judged))
}
