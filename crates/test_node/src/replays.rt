//! Test of a book written by many threads, which one thread replays.
ghost use Rattle.std.specs.Prelude.{◌≡◌};

use crate::calls::outs_by;
use crate::desks::{Row, desk_of, worked};
use crate::events::node_of;
use crate::loads::{Load, again};
use node_book::{Entry, Ledgered, Report, Seat};
use node_core::{Event, Node, Out};
use std::alloc::Global;
use std::marker::Brand;
use std::sync::Wait;
use std::sync::ledger::{Blank, Ledger};
use std::thread::Threads;

/// Copies of the events of some entries.
fn events_of(alloc: Global, entries: &[Entry]) -> Option<Vec<Event>> {
    let mut events = Vec::new(alloc);
    for entry in entries {
        events.push(again(&*entry.event)?).ok()?;
    }
    Some(events)
}

/// Whether the tallies of these actions are those of the entries.
fn are_tallies(outs: &[Out], entries: &[Entry]) -> bool {
    for (out, entry) in outs.iter().zip(entries) {
        if out.tally() != entry.tally {
            return false;
        }
    }
    outs.len() == entries.len()
}

/// Whether a node that replays the events of these entries, as one list, gets their tallies.
fn is_replayed(alloc: Global, node: &mut Node, entries: &[Entry]) -> Option<bool> {
    let outs = outs_by(alloc, node, events_of(alloc, entries)?)?;
    let are_tallies = are_tallies(&outs, entries);
    drop(outs);
    Some(are_tallies)
}

/// Whether a node that replays the events of all entries, fifty at a time, gets their tallies.
fn are_replayed(alloc: Global, node: &mut Node, entries: &[Entry]) -> Option<bool> {
    for some in entries.chunks(50) {
        if !is_replayed(alloc, node, some)? {
            return Some(false);
        }
    }
    Some(true)
}

/// The same for a new node.
fn all_replayed(alloc: Global, entries: &[Entry]) -> Option<bool> {
    let mut node = node_of(alloc)?;
    let are_replayed = are_replayed(alloc, &mut node, entries);
    drop(node);
    are_replayed
}

/// Whether one thread that replays a desk's book gets its tallies, and the report of the desk, after its threads have ended.
fn replayed<L: Ledger + Send + Sync, R: Threads + Wait + Sync>(
    rt: &R,
    alloc: Global,
    blank: Blank,
    row: &Row,
) -> Option<(bool, Report)>
    requires name { blank.name ≡ L.name }
    requires parts { blank.parts ≡ L.parts }
    requires one_each { blank.parts ≡ row.now.seats }
{
    let (desk, seats) = desk_of::<L>(alloc, blank, row.volume, row.seats)?;
    let seats = worked(rt, alloc, &desk, seats, row);
    replayed_and_settled(alloc, desk.close(), seats)
}

/// The same of the book of a closed desk, if there are any seats.
fn replayed_and_settled<L: Ledger>(
    alloc: Global,
    ledgered: Ledgered<L>,
    seats: Option<Vec<Seat<L>>>,
) -> Option<(bool, Report)> {
    let Some(seats) = seats else {
        drop(ledgered);
        return None;
    };
    let is_same = all_replayed(alloc, ledgered.booked().entries());
    let report = ledgered.settle(seats).ok();
    Some((is_same?, report?))
}

const LONGEST: Row = Row {
    seats: 8,
    volume: 200_000,
    each: 20_000,
    load: Load::Mixed,
    wanted: Report {
        count: 160_000,
        base: 0,
        matched: 8_192,
    },
};

#[test]
fn one_thread_gives_every_tally(rt: HostRuntime) {
    let row = &LONGEST;
    let told = replayed::<Brand, _>(&rt, rt.alloc(), Blank::new(row.seats), row);
    assert!(rt; told == Some((true, row.wanted)));
}
