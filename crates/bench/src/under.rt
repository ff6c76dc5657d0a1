//! What a desk does under its lock, without the lock.
ghost use Rattle.std.specs.Prelude.{◌≡◌};

use crate::alone::LARGE;
use crate::events::{Kind, make_event, make_judged, moment};
use crate::seats::open_desk;
use filter_slots::{Judged, Moment};
use node_book::{Ledgered, Seat, Spent};
use node_core::{Event, Out};
use std::alloc::Global;
use std::sync::Arc;
use std::sync::ledger::{Blank, Ledger};

/// Submits an event. Returns whether it is taken. What is no longer needed goes to `spent`.
pub fn is_taken<L: Ledger>(
    alloc: Global,
    ledgered: &mut Ledgered<L>,
    seat: &mut Seat<L>,
    event: Arc<Event>,
    out: &mut Out,
    spent: &mut Spent,
) -> bool {
    out.clear();
    ledgered.submit(alloc, seat, event, out, spent).is_ok()
}

/// Submits one more owner of an event, and drops what is no longer needed. Returns whether it is taken.
fn is_shared<L: Ledger>(
    alloc: Global,
    ledgered: &mut Ledgered<L>,
    seat: &mut Seat<L>,
    event: &Arc<Event>,
    out: &mut Out,
) -> bool {
    let mut spent = Spent::new();
    let is_taken = match Arc::try_clone(event) {
        Ok(event) => is_taken(alloc, ledgered, seat, event, out, &mut spent),
        Err(_) => false,
    };
    drop(spent);
    is_taken
}

fn submit_often<L: Ledger>(
    alloc: Global,
    ledgered: &mut Ledgered<L>,
    seat: &mut Seat<L>,
    event: &Arc<Event>,
    out: &mut Out,
    count: u32,
) -> bool {
    for _ in 0..count {
        if !is_shared(alloc, ledgered, seat, event, out) {
            return false;
        }
    }
    true
}

/// Submits one event `count` times at the first of some seats. Returns whether each is taken.
fn submit_all<L: Ledger>(
    alloc: Global,
    ledgered: &mut Ledgered<L>,
    seats: &mut Vec<Seat<L>>,
    kind: Kind,
    count: u32,
) -> Option<bool> {
    let event = make_event(alloc, kind)?;
    let seat = seats.get_mut(0)?;
    let mut out = Out::new(alloc).ok()?;
    let succeeded = submit_often(alloc, ledgered, seat, &event, &mut out, count);
    drop(out);
    Some(succeeded)
}

/// What lies behind the lock of a new desk with one seat, and that seat.
pub fn open_ledgered<L: Ledger>(
    alloc: Global,
    blank: Blank,
    kind: Kind,
    entries: u32,
    volume: usize,
) -> Option<(Ledgered<L>, Vec<Seat<L>>)>
    requires name { blank.name ≡ L.name }
    requires parts { blank.parts ≡ L.parts }
    requires one { blank.parts ≡ 1 }
{
    let (desk, seats) = open_desk::<L>(alloc, blank, kind, entries, volume, 1)?;
    Some((desk.close(), seats))
}

/// The number of events in a book.
fn taken<L: Ledger>(ledgered: &Ledgered<L>) -> u64 {
    ledgered.booked().count()
}

/// One event is submitted over and over to what lies behind a lock. Returns the number of events in the book.
pub fn under<L: Ledger>(alloc: Global, blank: Blank, kind: Kind, count: u32) -> Option<u64>
    requires name { blank.name ≡ L.name }
    requires parts { blank.parts ≡ L.parts }
    requires one { blank.parts ≡ 1 }
{
    let (mut ledgered, mut seats) = open_ledgered::<L>(alloc, blank, kind, 10, LARGE)?;
    let succeeded = submit_all(alloc, &mut ledgered, &mut seats, kind, count);
    let taken = taken(&ledgered);
    drop(ledgered);
    drop(seats);
    succeeded?.then_some(taken)
}

/// Submits a datagram that is judged already, and drops what is no longer needed. Returns whether it is taken.
fn is_judged_taken<L: Ledger>(
    alloc: Global,
    ledgered: &mut Ledgered<L>,
    seat: &mut Seat<L>,
    judged: &Judged,
    now: Moment,
    out: &mut Out,
) -> bool {
    out.clear();
    let mut spent = Spent::new();
    let is_taken = ledgered
        .submit_judged(alloc, seat, judged, now, out, &mut spent)
        .is_ok();
    drop(spent);
    is_taken
}

fn submit_judged_often<L: Ledger>(
    alloc: Global,
    ledgered: &mut Ledgered<L>,
    seat: &mut Seat<L>,
    judged: &Judged,
    out: &mut Out,
    count: u32,
) -> Option<bool> {
    let now = moment()?;
    for _ in 0..count {
        if !is_judged_taken(alloc, ledgered, seat, judged, now, out) {
            return Some(false);
        }
    }
    Some(true)
}

/// A datagram that the programs in force have judged.
fn judge<L: Ledger>(alloc: Global, ledgered: &Ledgered<L>, kind: Kind) -> Option<Judged> {
    make_judged(alloc, kind, ledgered.booked().node().programs())
}

/// Submits one judged datagram `count` times at the first of some seats. Returns whether each is taken.
fn submit_judged_all<L: Ledger>(
    alloc: Global,
    ledgered: &mut Ledgered<L>,
    seats: &mut Vec<Seat<L>>,
    kind: Kind,
    count: u32,
) -> Option<bool> {
    let seat = seats.get_mut(0)?;
    let judged = judge(alloc, ledgered, kind)?;
    let mut out = Out::new(alloc).ok()?;
    let succeeded = submit_judged_often(alloc, ledgered, seat, &judged, &mut out, count);
    drop(out);
    succeeded
}

/// One judged datagram is submitted over and over to what lies behind a lock. Returns the number of events in the book.
pub fn judged<L: Ledger>(alloc: Global, blank: Blank, kind: Kind, count: u32) -> Option<u64>
    requires name { blank.name ≡ L.name }
    requires parts { blank.parts ≡ L.parts }
    requires one { blank.parts ≡ 1 }
{
    let (mut ledgered, mut seats) = open_ledgered::<L>(alloc, blank, kind, 10, LARGE)?;
    let succeeded = submit_judged_all(alloc, &mut ledgered, &mut seats, kind, count);
    let taken = taken(&ledgered);
    drop(ledgered);
    drop(seats);
    succeeded?.then_some(taken)
}
