//! A test of who lets go of a finished volume: the caller, by what a submission leaves over, and not the submission.
ghost use Rattle.std.specs.Prelude.{◌≡◌};

use crate::desks::desk_of;
use crate::events::timer;
use node_book::{Ledgered, Seat, Spent};
use node_core::{Event, Out};
use std::alloc::Global;
use std::marker::Brand;
use std::sync::Arc;
use std::sync::ledger::{Blank, Ledger};

/// Submits an event. `spent` then has what the submission leaves over.
fn submit<L: Ledger>(
    alloc: Global,
    ledgered: &mut Ledgered<L>,
    seat: &mut Seat<L>,
    event: &Arc<Event>,
    spent: &mut Spent,
) -> Option<()> {
    let mut out = Out::new(alloc).ok()?;
    let event = Arc::try_clone(event).ok()?;
    ledgered.submit(alloc, seat, event, &mut out, spent).ok()?;
    Some(())
}

/// Submits an event. Returns the references to the first one: with what the submission leaves over, and once that is let go of.
fn references_after<L: Ledger>(
    alloc: Global,
    ledgered: &mut Ledgered<L>,
    seat: &mut Seat<L>,
    event: &Arc<Event>,
    first: &Arc<Event>,
) -> Option<[usize; 2]> {
    let mut spent = Spent::new();
    let is_taken = submit(alloc, ledgered, seat, event, &mut spent);
    let with_spent = Arc::strong_count(first);
    drop(spent);
    is_taken?;
    Some([with_spent, Arc::strong_count(first)])
}

/// The references to the first of two events, that of a full volume: before the second event turns it, after that, and once the
/// caller has let go of what the turn left over.
fn references_to<L: Ledger>(
    alloc: Global,
    ledgered: &mut Ledgered<L>,
    seat: &mut Seat<L>,
    events: &[Arc<Event>; 2],
) -> Option<[usize; 3]> {
    let [first, second] = events;
    let [_, before] = references_after(alloc, ledgered, seat, first, first)?;
    let [turned, after] = references_after(alloc, ledgered, seat, second, first)?;
    Some([before, turned, after])
}

/// The same for new events and the first seat.
fn references<L: Ledger>(
    alloc: Global,
    ledgered: &mut Ledgered<L>,
    seats: &mut Vec<Seat<L>>,
) -> Option<[usize; 3]> {
    let seat = seats.first_mut()?;
    let events = [timer(alloc, 1)?, timer(alloc, 2)?];
    let references = references_to(alloc, ledgered, seat, &events);
    drop(events);
    references
}

/// The same for the book of a new desk, whose volumes have one event each.
fn told<L: Ledger>(alloc: Global, blank: Blank) -> Option<[usize; 3]>
    requires name { blank.name ≡ L.name }
    requires parts { blank.parts ≡ L.parts }
    requires one { blank.parts ≡ 1 }
{
    let (desk, mut seats) = desk_of::<L>(alloc, blank, 1, 1)?;
    let mut ledgered = desk.close();
    let references = references(alloc, &mut ledgered, &mut seats);
    drop(ledgered);
    drop(seats);
    references
}

#[test]
fn a_finished_volume_is_left_to_the_caller(rt: HostRuntime) {
    // This test's own, the book's and that of the seat's receipt; at the end without the book's.
    let told = told::<Brand>(rt.alloc(), Blank::new(1));
    assert!(rt; told == Some([3, 3, 2]));
}
