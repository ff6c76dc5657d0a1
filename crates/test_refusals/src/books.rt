//! Scenarios that a book takes.
ghost use Rattle.std.specs.Prelude.{◌≡◌, IfSome};
ghost use Rattle.node_book.specs.Book.{count_of};

use crate::given::{Given, Way, given_for};
use crate::making::node_of;
use crate::nodes::{copy_of, look_alike, room};
use crate::stories::{Line, Story};
use crate::trouble::{Trouble, made};
use node_book::{Booked, Receipt, TakeFault};
use node_core::{Node, Out, Tally};
use std::alloc::Global;
use std::sync::Arc;

/// The events that a book keeps, so few that it fills up and has to be turned.
const VOLUME: usize = 3;

/// The book of a scenario, or `None` when out of memory.
pub fn book_of(alloc: Global, story: &Story) -> Option<Booked>
    ensures { IfSome result (λ b. count_of b ≡ 0) }
{
    Booked::new(alloc, node_of(alloc, story)?, VOLUME).ok()
}

/// Hands an input to a book.
fn hand_in(
    alloc: Global,
    booked: &mut Booked,
    given: &Given,
    out: &mut Out,
) -> Result<Receipt, TakeFault> {
    out.clear();
    match given {
        Given::Event(event) => match Arc::try_clone(event) {
            Ok(event) => booked.take(alloc, event, out),
            Err(_) => Err(TakeFault::NoMemory),
        },
        Given::Judged(judged, now) => booked.take_judged(alloc, judged, *now, out),
    }
}

/// Whether a line, or the input given for it, needs memory.
pub fn needs_some(line: &Line, given: &Given) -> bool {
    match given {
        Given::Event(_) => !line.takes_none(),
        Given::Judged(..) => true,
    }
}

pub fn counted(is_so: bool) -> Result<(), Trouble> {
    if is_so { Ok(()) } else { Err(Trouble::Book) }
}

/// The counts of a book: events taken, and events kept.
fn counts_of(booked: &Booked) -> (u64, usize) {
    (booked.count(), booked.entries().len())
}

/// Checks that a call failed for lack of memory, and that it needs memory.
fn is_due(fault: TakeFault, needs_some: bool) -> Result<(), Trouble> {
    match fault {
        TakeFault::NoMemory if needs_some => Ok(()),
        TakeFault::NoMemory => Err(Trouble::NeedsNone),
        _ => Err(Trouble::Book),
    }
}

/// Checks that a book that refused an input is unchanged, and hands the input in again.
fn take_again(
    alloc: Global,
    booked: &mut Booked,
    before: (&Node, u64, usize),
    given: &Given,
    out: &mut Out,
) -> Result<Receipt, Trouble> {
    let (node, count, kept) = before;
    let is_same = counts_of(booked) == (count, kept) && look_alike(booked.node(), node);
    if !is_same || !out.actions().is_empty() {
        return Err(Trouble::Changed);
    }
    hand_in(alloc, booked, given, out).map_err(|_| Trouble::Twice)
}

/// Hands an input to a book whose node agrees with `node`. If that fails, checks that the book is unchanged, and tries again.
fn take_or_again(
    alloc: Global,
    booked: &mut Booked,
    node: &Node,
    given: &Given,
    needs_some: bool,
    out: &mut Out,
) -> Result<Receipt, Trouble> {
    let (count, kept) = counts_of(booked);
    match hand_in(alloc, booked, given, out) {
        Ok(receipt) => Ok(receipt),
        Err(fault) => {
            is_due(fault, needs_some)?;
            take_again(alloc, booked, (node, count, kept), given, out)
        }
    }
}

/// The same, with a copy of the node made before.
fn take_at_last(
    alloc: Global,
    booked: &mut Booked,
    given: &Given,
    needs_some: bool,
    out: &mut Out,
) -> Result<Receipt, Trouble> {
    let node = copy_of(alloc, booked.node())?;
    let receipt = take_or_again(alloc, booked, &node, given, needs_some, out);
    drop(node);
    receipt
}

/// Hands a line's input to a book.
fn take_line(
    alloc: Global,
    booked: &mut Booked,
    line: &Line,
    way: Way,
    out: &mut Out,
) -> Result<Receipt, Trouble> {
    let given = made(|| given_for(alloc, line, booked.node().programs(), way))?;
    let receipt = take_at_last(alloc, booked, &given, needs_some(line, &given), out);
    drop(given);
    receipt
}

/// Turns a book if it is full; turning needs no memory.
fn turn_if_full(alloc: Global, booked: &mut Booked) -> Result<(), Trouble> {
    if !booked.is_full() {
        return Ok(());
    }
    let count = booked.count();
    drop(booked.turn(alloc));
    counted(booked.count() == count && booked.base() == count && booked.entries().is_empty())
}

/// Hands a line to a book, which is turned when full, after so many others, and compares its actions and its receipt with this tally.
fn take_told(
    alloc: Global,
    booked: &mut Booked,
    told: (&Line, &Tally, u64),
    way: Way,
    out: &mut Out,
) -> Result<(), Trouble> {
    let (line, tally, number) = told;
    turn_if_full(alloc, booked)?;
    let receipt = take_line(alloc, booked, line, way, out)?;
    if out.tally() != *tally {
        return Err(Trouble::Actions);
    }
    counted(receipt.number == number && receipt.tally == *tally && booked.has(&receipt))
}

/// Hands the lines of a scenario to a book.
fn take_lines(
    alloc: Global,
    booked: &mut Booked,
    story: &Story,
    tallies: &[Tally],
    way: Way,
    out: &mut Out,
) -> Result<(), Trouble> {
    let mut number = 0u64;
    for told in story.lines.iter().zip(tallies) {
        take_told(alloc, booked, (told.0, told.1, number), way, out)?;
        number = number.saturating_add(1);
    }
    counted(booked.count() == number)
}

/// The same, with a buffer.
fn take_story(
    alloc: Global,
    booked: &mut Booked,
    story: &Story,
    tallies: &[Tally],
    way: Way,
) -> Result<(), Trouble> {
    let mut out = room(alloc)?;
    let ended = take_lines(alloc, booked, story, tallies, way, &mut out);
    drop(out);
    ended
}

/// Runs a scenario by a book, which is turned when full, and compares its actions with these tallies.
pub fn by_take(alloc: Global, story: &Story, tallies: &[Tally], way: Way) -> Result<(), Trouble> {
    let mut booked = made(|| book_of(alloc, story))?;
    let ended = take_story(alloc, &mut booked, story, tallies, way);
    drop(booked);
    ended
}
