//! A filter of the socket or of the sender is swapped after a datagram is judged and before it is taken.
use crate::desks::{Story, alone, at_desk, book_of, booked};
use crate::events::{arrival, at, filter_if, judged_under, swap_in, takes_judged};
use crate::messages::{MISS, SLOTS};
use crate::rows::{Question, all_hold};
use crate::sites::FILTERED;
use filter_slots::{Judged, Moment, Slot};
use node_book::{Booked, Clerk, Report, TakeFault};
use node_core::{Action, Counters, Event, Out, same_event};
use std::alloc::Global;
use std::sync::Wait;
use std::test::Fail;

/// The verdict of the filter that judges the query, that of the filter in force when it is taken, and whether it is answered.
/// `None` is no filter.
struct Row {
    judged: Option<u32>,
    in_force: Option<u32>,
    is_answered: bool,
}

const ROWS: [Row; 8] = [
    // Accepted by the old filter, rejected by the new one.
    Row {
        judged: Some(65_535),
        in_force: Some(0),
        is_answered: false,
    },
    // The other way round.
    Row {
        judged: Some(0),
        in_force: Some(65_535),
        is_answered: true,
    },
    Row {
        judged: Some(0),
        in_force: None,
        is_answered: true,
    },
    Row {
        judged: None,
        in_force: Some(0),
        is_answered: false,
    },
    Row {
        judged: None,
        in_force: None,
        is_answered: true,
    },
    Row {
        judged: Some(65_535),
        in_force: Some(65_535),
        is_answered: true,
    },
    // An equal one, which was not the one in force.
    Row {
        judged: Some(0),
        in_force: Some(0),
        is_answered: false,
    },
    // Cut by the new filter to 12 octets, which are no message.
    Row {
        judged: Some(65_535),
        in_force: Some(40),
        is_answered: false,
    },
];

/// Whether a reply to the query is the only action (`true`) or there is none (`false`); `None` if there is any other.
fn is_answer(out: &Out) -> Option<bool> {
    match out.actions() {
        [] => Some(false),
        [Action::Send { payload, .. }] if payload.as_slice() == MISS => Some(true),
        _ => None,
    }
}

/// The expected counters for a query that this filter judges.
fn counted(in_force: Option<u32>) -> Counters {
    Counters {
        judged: 1,
        rejected: (in_force == Some(0)) as u64,
        cut: (in_force == Some(40)) as u64,
        malformed: (in_force == Some(40)) as u64,
    }
}

/// Submits a swap, then this query, which was judged before. Returns whether it is answered.
fn is_answered<C: Clerk>(
    alloc: Global,
    clerk: &mut C,
    slot: Slot,
    in_force: Option<u32>,
    judged: &Judged,
) -> Option<bool> {
    let now = Moment::new(5)?;
    swap_in(alloc, clerk, slot, in_force)?;
    let mut out = Out::new(alloc).ok()?;
    match takes_judged(alloc, clerk, judged, now, &mut out) {
        true => is_answer(&out),
        false => None,
    }
}

/// The query is answered: it was judged by the one filter of a row in a slot, and the other is put there before it is submitted.
#[derive(Drop)]
struct Swapped<'a> {
    slot: Slot,
    row: &'a Row,
}

impl Story for Swapped<'_> {
    fn tell<C: Clerk>(&self, alloc: Global, clerk: &mut C) -> Option<bool> {
        let judged = judged_under(alloc, self.slot, filter_if(alloc, self.row.judged)?)?;
        let is_answered = is_answered(alloc, clerk, self.slot, self.row.in_force, &judged);
        drop(judged);
        is_answered
    }
}

/// By a new node, in this slot, the query is answered and counted as a row says.
#[derive(Drop)]
struct ByNode {
    slot: Slot,
}

impl Question<Row> for ByNode {
    fn holds(&self, alloc: Global, row: &Row) -> Option<bool> {
        let story = Swapped {
            slot: self.slot,
            row,
        };
        let told = alone(alloc, &FILTERED, &story)?;
        Some(told == (row.is_answered, counted(row.in_force)))
    }
}

#[test]
fn a_node_by_itself_judges_again(rt: HostRuntime) -> Result<(), Fail> {
    all_hold(rt.alloc(), &ROWS, &ByNode { slot: SLOTS[0] })?;
    all_hold(rt.alloc(), &ROWS, &ByNode { slot: SLOTS[1] })
}

/// The same at a new desk, whose book has the swap and the query.
#[derive(Drop)]
struct ByDesk<'a, R> {
    rt: &'a R,
    slot: Slot,
}

impl<R: Wait> Question<Row> for ByDesk<'_, R> {
    fn holds(&self, alloc: Global, row: &Row) -> Option<bool> {
        let report = Report {
            count: 2,
            base: 0,
            matched: 2,
        };
        let story = Swapped {
            slot: self.slot,
            row,
        };
        let told = at_desk(self.rt, alloc, &FILTERED, 4, &story)?;
        Some(told == (row.is_answered, counted(row.in_force), report))
    }
}

#[test]
fn a_desk_judges_again(rt: HostRuntime) -> Result<(), Fail> {
    let of_socket = ByDesk {
        rt: &rt,
        slot: SLOTS[0],
    };
    all_hold(rt.alloc(), &ROWS, &of_socket)?;
    let of_sender = ByDesk {
        rt: &rt,
        slot: SLOTS[1],
    };
    all_hold(rt.alloc(), &ROWS, &of_sender)
}

/// Whether this is the event of the query's arrival at second 5.
fn is_arrival(alloc: Global, event: &Event) -> Option<bool> {
    Some(same_event(event, &*arrival(alloc, at(5))?))
}

/// Whether a book that takes the judged query records its arrival, and refuses another once its volume is full.
fn keeps(alloc: Global, book: &mut Booked, judged: &Judged) -> Option<bool> {
    let now = Moment::new(at(5))?;
    let mut out = Out::new(alloc).ok()?;
    let receipt = booked(alloc, book, judged, now, &mut out).ok()?;
    let is_same = is_arrival(alloc, &*receipt.event);
    drop(receipt);
    let refused = booked(alloc, book, judged, now, &mut out).err();
    Some(is_same? && refused == Some(TakeFault::VolumeFull) && book.count() == 1)
}

/// The same for a new book.
fn kept_by_new(alloc: Global, judged: &Judged) -> Option<bool> {
    let mut book = book_of(alloc, &FILTERED, 1)?;
    let is_kept = keeps(alloc, &mut book, judged);
    drop(book);
    is_kept
}

/// The same for the query, judged by a filter that accepts it.
fn is_kept(alloc: Global) -> Option<bool> {
    let judged = judged_under(alloc, SLOTS[0], filter_if(alloc, Some(65_535))?)?;
    let is_kept = kept_by_new(alloc, &judged);
    drop(judged);
    is_kept
}

#[test]
fn a_book_keeps_the_event_of_what_was_judged(rt: HostRuntime) {
    assert!(rt; is_kept(rt.alloc()) == Some(true));
}
