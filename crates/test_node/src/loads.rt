//! The events that the threads at the seats of a desk submit.

use crate::events::{QUERY, arrival, fetched, limit, query, request, swap, timer};
use bpf_check::Checked;
use filter_slots::{Moment, Slot, Socket};
use node_core::{Event, Mode, Outcome};
use std::alloc::Global;
use std::sync::Arc;

/// An HTCP NOP request.
const NOP: &[u8] = b"\x00\x0e\x00\x00\x00\x08\x00\x02\x00\x00\x00\x07\x00\x02";

/// The kinds of events to submit.
#[derive(Clone, Copy)]
pub(crate) enum Load {
    Timers,
    Queries,
    Mixed,
}

/// The event at index `i` of those that a seat's thread submits.
pub(crate) fn event_of(alloc: Global, load: Load, place: u64, i: u32) -> Option<Arc<Event>> {
    match load {
        Load::Timers => timer(alloc, i as u64),
        Load::Queries => query(alloc, (i as u64).wrapping_add(1)),
        Load::Mixed => Arc::new(alloc, mixed(alloc, place, i, Moment::new(i as u64)?)?).ok(),
    }
}

/// A cycle of sixteen events: half of them datagrams, the others timers, a client's events and filter swaps.
fn mixed(alloc: Global, place: u64, i: u32, now: Moment) -> Option<Event> {
    let client = place.wrapping_mul(65_536).wrapping_add((i / 16) as u64);
    match i % 16 {
        0 | 8 => Some(Event::Timer { now }),
        1 => request(alloc, client, Mode::Shared, now),
        2 => fetched(alloc, i % 64, now),
        3 => request(alloc, client, Mode::Private, now),
        4 => Some(Event::Gone { client }),
        5 => swap(alloc, &[limit(65_535 - i % 3)]),
        6 => arrival(alloc, Socket::Htcp, NOP, now),
        7 => swap(alloc, &[limit(i % 60)]),
        _ => arrival(alloc, Socket::Icp, QUERY, now),
    }
}

/// A copy of an outcome; its object is shared.
fn outcome_again(outcome: &Outcome) -> Option<Outcome> {
    match outcome {
        Outcome::Object(object) => Some(Outcome::Object(object.share().ok()?)),
        Outcome::Failed => Some(Outcome::Failed),
    }
}

/// A copy of an event; its contents are shared.
pub(crate) fn again(event: &Event) -> Option<Event> {
    match event {
        Event::Datagram { datagram, now } => Some(Event::Datagram {
            datagram: Arc::try_clone(datagram).ok()?,
            now: *now,
        }),
        Event::Request {
            client,
            key,
            mode,
            now,
        } => Some(Event::Request {
            client: *client,
            key: key.share().ok()?,
            mode: *mode,
            now: *now,
        }),
        Event::Timer { now } => Some(Event::Timer { now: *now }),
        Event::Fetched {
            fetch,
            attempt,
            result,
            now,
        } => Some(Event::Fetched {
            fetch: *fetch,
            attempt: *attempt,
            result: outcome_again(result)?,
            now: *now,
        }),
        Event::Gone { client } => Some(Event::Gone { client: *client }),
        Event::Swap { slot, program } => swap_again(*slot, program),
    }
}

/// A copy of a swap; its program is shared.
fn swap_again(slot: Slot, program: &Option<Arc<Checked>>) -> Option<Event> {
    let program = match program {
        Some(program) => Some(Arc::try_clone(program).ok()?),
        None => None,
    };
    Some(Event::Swap { slot, program })
}
