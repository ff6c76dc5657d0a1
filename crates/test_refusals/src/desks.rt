//! Scenarios that are submitted at a desk.
ghost use Rattle.std.specs.Prelude.{◌≡◌, IfOk};
ghost use Rattle.node_book.specs.Book.{count_of};

use crate::books::{book_of, counted, needs_some};
use crate::given::{Given, Way, given_for};
use crate::nodes::room;
use crate::stories::{Line, Story};
use crate::trouble::{Trouble, made};
use filter_slots::Slots;
use node_book::{Booked, Desk, NeighbourView, Report, Seat, SubmitFault};
use node_core::{Out, Stats, Tally};
use std::alloc::Global;
use std::sync::ledger::{Blank, Ledger};
use std::sync::{Arc, Wait};

/// A snapshot of what can be read of a desk.
#[derive(Drop)]
struct View {
    stats: Stats,
    neighbours: Vec<NeighbourView>,
    is_fetching: bool,
}

/// Whether fetch 1 is under way, or `None` when out of memory.
fn is_fetching<L: Ledger, R: Wait>(rt: &R, desk: &Desk<L>) -> Option<bool> {
    let key = desk.key_of(rt, 1).ok()?;
    Some(key.is_some())
}

/// A snapshot of a desk, or `None` when out of memory.
fn shown<L: Ledger, R: Wait>(rt: &R, alloc: Global, desk: &Desk<L>) -> Option<View> {
    let is_fetching = is_fetching(rt, desk)?;
    let neighbours = desk.neighbours(rt, alloc).ok()?;
    Some(View {
        stats: desk.stats(rt),
        neighbours,
        is_fetching,
    })
}

/// A snapshot of a desk, tried once more when out of memory.
fn shown_at_last<L: Ledger, R: Wait>(
    rt: &R,
    alloc: Global,
    desk: &Desk<L>,
) -> Result<View, Trouble> {
    if let Some(shown) = shown(rt, alloc, desk) {
        return Ok(shown);
    }
    shown(rt, alloc, desk).ok_or(Trouble::Twice)
}

fn is_same(one: &View, other: &View) -> bool {
    one.stats == other.stats
        && one.neighbours.as_slice() == other.neighbours.as_slice()
        && one.is_fetching == other.is_fetching
}

/// Submits an input by a seat.
fn hand_in<L: Ledger, R: Wait>(
    rt: &R,
    alloc: Global,
    desk: &Desk<L>,
    seat: &mut Seat<L>,
    given: &Given,
    out: &mut Out,
) -> Result<u64, SubmitFault> {
    out.clear();
    match given {
        Given::Event(event) => match Arc::try_clone(event) {
            Ok(event) => desk.submit(rt, alloc, seat, event, out),
            Err(_) => Err(SubmitFault::NoMemory),
        },
        Given::Judged(judged, now) => desk.submit_judged(rt, alloc, seat, judged, *now, out),
    }
}

/// Checks that a desk and a seat that refused an input are unchanged.
fn is_unchanged<L: Ledger, R: Wait>(
    rt: &R,
    alloc: Global,
    desk: &Desk<L>,
    before: &View,
    out: &Out,
) -> Result<(), Trouble> {
    let after = shown_at_last(rt, alloc, desk)?;
    let is_same = is_same(before, &after);
    drop(after);
    if is_same && out.actions().is_empty() {
        return Ok(());
    }
    Err(Trouble::Changed)
}

/// Submits an input by a seat of a desk that looks like `before`. If that fails, checks that desk and seat are unchanged, and
/// tries again.
fn submit_or_again<L: Ledger, R: Wait>(
    rt: &R,
    alloc: Global,
    desk: &Desk<L>,
    before: &View,
    seat: &mut Seat<L>,
    given: &Given,
    is_needless: bool,
    out: &mut Out,
) -> Result<u64, Trouble> {
    let receipts = seat.len();
    if let Ok(number) = hand_in(rt, alloc, desk, seat, given, out) {
        return Ok(number);
    }
    if is_needless {
        return Err(Trouble::NeedsNone);
    }
    if seat.len() != receipts {
        return Err(Trouble::Changed);
    }
    is_unchanged(rt, alloc, desk, before, out)?;
    hand_in(rt, alloc, desk, seat, given, out).map_err(|_| Trouble::Twice)
}

/// The same, with a snapshot made before.
fn submit_at_last<L: Ledger, R: Wait>(
    rt: &R,
    alloc: Global,
    desk: &Desk<L>,
    seat: &mut Seat<L>,
    given: &Given,
    is_needless: bool,
    out: &mut Out,
) -> Result<u64, Trouble> {
    let before = shown_at_last(rt, alloc, desk)?;
    let number = submit_or_again(rt, alloc, desk, &before, seat, given, is_needless, out);
    drop(before);
    number
}

/// The programs in force at a desk.
fn programs_of<L: Ledger, R: Wait>(rt: &R, desk: &Desk<L>) -> Result<Slots, Trouble> {
    desk.programs(rt).map_err(|_| Trouble::Twice)
}

/// The input for a line, by the programs in force at a desk.
fn given_at<L: Ledger, R: Wait>(
    rt: &R,
    alloc: Global,
    desk: &Desk<L>,
    line: &Line,
    way: Way,
) -> Result<Given, Trouble> {
    let programs = programs_of(rt, desk)?;
    let given = made(|| given_for(alloc, line, &programs, way));
    drop(programs);
    given
}

/// Submits a line by a seat.
fn submit_line<L: Ledger, R: Wait>(
    rt: &R,
    alloc: Global,
    desk: &Desk<L>,
    seat: &mut Seat<L>,
    line: &Line,
    way: Way,
    out: &mut Out,
) -> Result<u64, Trouble> {
    let given = given_at(rt, alloc, desk, line, way)?;
    let is_needless = !needs_some(line, &given);
    let number = submit_at_last(rt, alloc, desk, seat, &given, is_needless, out);
    drop(given);
    number
}

/// Submits a line by a seat after so many others, and compares its actions with this tally.
fn submit_told<L: Ledger, R: Wait>(
    rt: &R,
    alloc: Global,
    desk: &Desk<L>,
    seat: &mut Seat<L>,
    told: (&Line, &Tally, u64),
    way: Way,
    out: &mut Out,
) -> Result<(), Trouble> {
    let (line, tally, count) = told;
    let number = submit_line(rt, alloc, desk, seat, line, way, out)?;
    if out.tally() != *tally {
        return Err(Trouble::Actions);
    }
    counted(number == count)
}

/// Submits these lines by one seat, and compares their actions with these tallies. Returns the number of events taken.
fn submit_lines<L: Ledger, R: Wait>(
    rt: &R,
    alloc: Global,
    desk: &Desk<L>,
    seat: &mut Seat<L>,
    lines: &[Line],
    tallies: &[Tally],
    way: Way,
    out: &mut Out,
) -> Result<u64, Trouble> {
    let mut count = 0u64;
    for told in lines.iter().zip(tallies) {
        submit_told(rt, alloc, desk, seat, (told.0, told.1, count), way, out)?;
        count = count.saturating_add(1);
    }
    Ok(count)
}

/// The same, with a buffer.
fn submitted<L: Ledger, R: Wait>(
    rt: &R,
    alloc: Global,
    desk: &Desk<L>,
    seat: &mut Seat<L>,
    lines: &[Line],
    tallies: &[Tally],
    way: Way,
) -> Result<u64, Trouble> {
    let mut out = room(alloc)?;
    let count = submit_lines(rt, alloc, desk, seat, lines, tallies, way, &mut out);
    drop(out);
    count
}

/// The desk of a scenario and its one seat, or `None` when out of memory.
fn desk_of<L: Ledger>(
    alloc: Global,
    blank: Blank,
    booked: Booked,
) -> Option<(Desk<L>, Vec<Seat<L>>)>
    requires new { count_of booked ≡ 0 }
    requires name { blank.name ≡ L.name }
    requires parts { blank.parts ≡ L.parts }
    requires one { blank.parts ≡ 1 }
{
    Desk::<L>::open(alloc, blank, booked, 1).ok()
}

/// The book of a scenario, tried once more when out of memory.
fn book_at_last(alloc: Global, story: &Story) -> Result<Booked, Trouble>
    ensures { IfOk result (λ b. count_of b ≡ 0) }
{
    if let Some(booked) = book_of(alloc, story) {
        return Ok(booked);
    }
    book_of(alloc, story).ok_or(Trouble::Twice)
}

/// Whether a report accounts for this many events.
fn is_whole(report: &Report, count: u64) -> bool {
    report.count == count && report.base.checked_add(report.matched) == Some(count)
}

/// Settles the book of a desk at which so many events were submitted.
fn settled<L: Ledger>(desk: Desk<L>, seats: Vec<Seat<L>>, count: u64) -> Result<(), Trouble> {
    match desk.settle(seats) {
        Ok(report) => counted(is_whole(&report, count)),
        Err(_) => Err(Trouble::Book),
    }
}

/// Submits a scenario by the first of these seats.
fn submitted_by_first<L: Ledger, R: Wait>(
    rt: &R,
    alloc: Global,
    desk: &Desk<L>,
    seats: &mut [Seat<L>],
    story: &Story,
    tallies: &[Tally],
    way: Way,
) -> Result<u64, Trouble> {
    match seats.first_mut() {
        Some(seat) => submitted(rt, alloc, desk, seat, story.lines, tallies, way),
        None => Err(Trouble::Book),
    }
}

/// Submits a scenario by the one seat of a desk, and settles its book.
fn submit_and_settle<L: Ledger, R: Wait>(
    rt: &R,
    alloc: Global,
    desk: Desk<L>,
    mut seats: Vec<Seat<L>>,
    story: &Story,
    tallies: &[Tally],
    way: Way,
) -> Result<(), Trouble> {
    let submitted = submitted_by_first(rt, alloc, &desk, &mut seats, story, tallies, way);
    let settled = settled(desk, seats, submitted.unwrap_or(0));
    submitted?;
    settled
}

/// Runs a scenario at a desk with one seat, and settles its book at the end. Returns `false` if the desk could not be opened
/// for lack of memory.
pub fn by_submit<L: Ledger, R: Wait>(
    rt: &R,
    alloc: Global,
    blank: Blank,
    story: &Story,
    tallies: &[Tally],
    way: Way,
) -> Result<bool, Trouble>
    requires name { blank.name ≡ L.name }
    requires parts { blank.parts ≡ L.parts }
    requires one { blank.parts ≡ 1 }
{
    let booked = book_at_last(alloc, story)?;
    match desk_of::<L>(alloc, blank, booked) {
        Some((desk, seats)) => {
            submit_and_settle(rt, alloc, desk, seats, story, tallies, way)?;
            Ok(true)
        }
        None => Ok(false),
    }
}
