//! Tests of desks whose seats are used by threads.
ghost use Rattle.std.specs.Prelude.{◌≡◌, ◌<◌, ◌≤◌, IfSome};
ghost use Rattle.node_book.specs.Book.{count_of};

use crate::events::{all_of, node_of};
use crate::loads::{Load, event_of};
use node_book::{Booked, Desk, OpenFault, Report, Seat, SettleFault};
use node_core::{Event, Out};
use std::alloc::Global;
use std::marker::Brand;
use std::sync::ledger::{Blank, Ledger};
use std::sync::{Arc, Wait};
use std::test::Fail;
use std::thread;
use std::thread::Threads;

/// A test case: each of `seats` seats submits `each` events to a book with this volume capacity.
pub(crate) struct Row {
    pub(crate) seats: u64,
    pub(crate) volume: usize,
    pub(crate) each: u32,
    pub(crate) load: Load,
    pub(crate) wanted: Report,
}

const ROWS: [Row; 4] = [
    Row {
        seats: 2,
        volume: 1_000,
        each: 500,
        load: Load::Timers,
        wanted: Report {
            count: 1_000,
            base: 0,
            matched: 1_000,
        },
    },
    // The volume is turned fifteen times.
    Row {
        seats: 2,
        volume: 64,
        each: 500,
        load: Load::Timers,
        wanted: Report {
            count: 1_000,
            base: 960,
            matched: 40,
        },
    },
    // More events than the seats keep receipts of.
    Row {
        seats: 2,
        volume: 5_000,
        each: 1_500,
        load: Load::Timers,
        wanted: Report {
            count: 3_000,
            base: 0,
            matched: 2_048,
        },
    },
    Row {
        seats: 4,
        volume: 256,
        each: 1_000,
        load: Load::Mixed,
        wanted: Report {
            count: 4_000,
            base: 3_840,
            matched: 160,
        },
    },
];

/// The book of a new node.
pub(crate) fn book_of(alloc: Global, volume: usize) -> Option<Booked>
    ensures { IfSome result (λ b. count_of b ≡ 0) }
{
    Booked::new(alloc, node_of(alloc)?, volume).ok()
}

/// Submits an event through a seat. `out` then has its actions alone.
pub(crate) fn submit<L: Ledger, R: Wait>(
    rt: &R,
    alloc: Global,
    desk: &Desk<L>,
    seat: &mut Seat<L>,
    event: Arc<Event>,
    out: &mut Out,
) -> Option<()> {
    out.clear();
    desk.submit(rt, alloc, seat, event, out).ok()?;
    Some(())
}

/// Submits events through a seat.
pub(crate) fn submit_all<L: Ledger, R: Wait>(
    rt: &R,
    alloc: Global,
    desk: &Desk<L>,
    seat: &mut Seat<L>,
    load: Load,
    each: u32,
) -> Option<()> {
    let mut out = Out::new(alloc).ok()?;
    for i in 0..each {
        let event = event_of(alloc, load, seat.place(), i)?;
        submit(rt, alloc, desk, seat, event, &mut out)?;
    }
    Some(())
}

/// The same, and returns the seat.
fn call<L: Ledger, R: Wait>(
    rt: &R,
    alloc: Global,
    desk: &Desk<L>,
    mut seat: Seat<L>,
    load: Load,
    each: u32,
) -> Option<Seat<L>> {
    let is_done = submit_all(rt, alloc, desk, &mut seat, load, each);
    if is_done.is_none() {
        drop(seat);
        return None;
    }
    Some(seat)
}

/// The desk of a new node, and its seats.
pub(crate) fn desk_of<L: Ledger>(
    alloc: Global,
    blank: Blank,
    volume: usize,
    seats: u64,
) -> Option<(Desk<L>, Vec<Seat<L>>)>
    requires name { blank.name ≡ L.name }
    requires parts { blank.parts ≡ L.parts }
    requires one_each { blank.parts ≡ seats }
{
    let booked = book_of(alloc, volume)?;
    Desk::<L>::open(alloc, blank, booked, seats).ok()
}

/// The desk of a new node, and its only seat, whose receipts keep at most `room` octets of contents.
pub(crate) fn desk_with_room<L: Ledger>(
    alloc: Global,
    blank: Blank,
    volume: usize,
    room: u32,
) -> Option<(Desk<L>, Vec<Seat<L>>)>
    requires name { blank.name ≡ L.name }
    requires parts { blank.parts ≡ L.parts }
    requires one { blank.parts ≡ 1 }
{
    let booked = book_of(alloc, volume)?;
    Desk::<L>::open_with(alloc, blank, booked, 1, room).ok()
}

/// Submits events from one thread per seat and returns the seats.
pub(crate) fn worked<L: Ledger + Send + Sync, R: Threads + Wait + Sync>(
    rt: &R,
    alloc: Global,
    desk: &Desk<L>,
    seats: Vec<Seat<L>>,
    row: &Row,
) -> Option<Vec<Seat<L>>> {
    let (load, each) = (row.load, row.each);
    let done = thread::map_vec(rt, seats, &|seat| call(rt, alloc, desk, seat, load, each)).ok()?;
    all_of(alloc, done)
}

/// The report of a desk that is settled with its seats, if there are any.
pub(crate) fn settled_with<L: Ledger>(
    desk: Desk<L>,
    seats: Option<Vec<Seat<L>>>,
) -> Option<Report> {
    let Some(seats) = seats else {
        drop(desk);
        return None;
    };
    desk.settle(seats).ok()
}

/// The report of a desk that is settled after its threads have ended.
fn settled<L: Ledger + Send + Sync, R: Threads + Wait + Sync>(
    rt: &R,
    alloc: Global,
    blank: Blank,
    row: &Row,
) -> Option<Report>
    requires name { blank.name ≡ L.name }
    requires parts { blank.parts ≡ L.parts }
    requires one_each { blank.parts ≡ row.now.seats }
{
    let (desk, seats) = desk_of::<L>(alloc, blank, row.volume, row.seats)?;
    let seats = worked(rt, alloc, &desk, seats, row);
    settled_with(desk, seats)
}

#[test]
fn threads_share_a_desk(rt: HostRuntime) -> Result<(), Fail> {
    for row in &ROWS {
        let report = settled::<Brand, _>(&rt, rt.alloc(), Blank::new(row.seats), row);
        assert!(rt; report == Some(row.wanted));
    }
    Ok(())
}

/// The result of settling a desk without one of its seats.
fn missing<L: Ledger>(alloc: Global, blank: Blank) -> Option<Result<Report, SettleFault>>
    requires name { blank.name ≡ L.name }
    requires parts { blank.parts ≡ L.parts }
    requires two { blank.parts ≡ 2 }
{
    let (desk, mut seats) = desk_of::<L>(alloc, blank, 8, 2)?;
    drop(seats.pop());
    Some(desk.settle(seats))
}

#[test]
fn a_missing_seat_is_told(rt: HostRuntime) {
    let told = missing::<Brand>(rt.alloc(), Blank::new(2));
    assert!(rt; told == Some(Err(SettleFault::Seats)));
}

/// The error of opening a desk with this many seats.
fn refused<L: Ledger>(alloc: Global, blank: Blank, seats: u64) -> Option<OpenFault>
    requires name { blank.name ≡ L.name }
    requires parts { blank.parts ≡ L.parts }
    requires none { (0 < seats) × (seats ≤ 64) → ⊥ }
{
    let booked = book_of(alloc, 8)?;
    Desk::<L>::open(alloc, blank, booked, seats).err()
}

#[test]
fn no_seat_and_too_many_are_refused(rt: HostRuntime) {
    let none = refused::<Brand>(rt.alloc(), Blank::new(1), 0);
    assert!(rt; none == Some(OpenFault::Seats));
    let many = refused::<Brand>(rt.alloc(), Blank::new(1), 65);
    assert!(rt; many == Some(OpenFault::Seats));
}
