//! Desks of new nodes, and the seats of their threads.
ghost use Rattle.std.specs.Prelude.{◌≡◌, ◌<◌, ◌≤◌, IfSome};
ghost use Rattle.node_book.specs.Book.{count_of};

use crate::sites::{Site, counted_by, lone_of, node_of};
use crate::workers::answered;
use filter_slots::{Judged, Moment};
use node_book::{Booked, Clerk, Desk, Receipt, Report, Seat, Seated, TakeFault};
use node_core::{Counters, Out};
use std::alloc::Global;
use std::marker::Brand;
use std::sync::Wait;
use std::sync::ledger::{Blank, Ledger};

/// The book of a new node.
pub(crate) fn book_of(alloc: Global, site: &Site, volume: usize) -> Option<Booked>
    ensures { IfSome result (λ b. count_of b ≡ 0) }
{
    Booked::new(alloc, node_of(alloc, site)?, volume).ok()
}

/// A book takes a judged datagram. On success `out` has its actions alone.
pub(crate) fn booked(
    alloc: Global,
    book: &mut Booked,
    judged: &Judged,
    now: Moment,
    out: &mut Out,
) -> Result<Receipt, TakeFault> {
    out.clear();
    book.take_judged(alloc, judged, now, out)
}

/// The desk of a new node, and its seats.
pub(crate) fn desk_of<L: Ledger>(
    alloc: Global,
    blank: Blank,
    site: &Site,
    volume: usize,
    seats: u64,
) -> Option<(Desk<L>, Vec<Seat<L>>)>
    requires name { blank.name ≡ L.name }
    requires parts { blank.parts ≡ L.parts }
    requires one_each { blank.parts ≡ seats }
{
    let booked = book_of(alloc, site, volume)?;
    Desk::<L>::open(alloc, blank, booked, seats).ok()
}

/// The report of a settled desk, or `None` if it doesn't settle.
pub(crate) fn settled<L: Ledger>(desk: Desk<L>, seats: Vec<Seat<L>>) -> Option<Report> {
    desk.settle(seats).ok()
}

/// What is asked of a clerk, whether it is a node's only one or sits at a desk.
pub(crate) trait Story {
    /// Whether it went as the story says, or `None` if something that it needs can't be made.
    fn tell<C: Clerk>(&self, alloc: Global, clerk: &mut C) -> Option<bool>;
}

/// Tells a story to the clerk of a new node. Also returns the ICP counters.
pub(crate) fn alone<S: Story>(alloc: Global, site: &Site, story: &S) -> Option<(bool, Counters)> {
    let mut clerk = lone_of(alloc, site)?;
    let told = story.tell(alloc, &mut clerk);
    let icp = counted_by(&clerk);
    drop(clerk);
    Some((told?, icp))
}

/// Tells a story to a clerk at the last of the seats.
fn told_at<L: Ledger, R: Wait, S: Story>(
    rt: &R,
    alloc: Global,
    desk: &Desk<L>,
    seats: &mut Vec<Seat<L>>,
    story: &S,
) -> Option<bool> {
    let mut clerk = Seated::new(alloc, rt, desk, seats.pop()?);
    let told = story.tell(alloc, &mut clerk);
    seats.push(clerk.into_seat()).ok()?;
    told
}

/// The same at a new desk with one seat, which is settled. Also returns the ICP counters and the report.
fn told<L: Ledger, R: Wait, S: Story>(
    rt: &R,
    alloc: Global,
    blank: Blank,
    site: &Site,
    volume: usize,
    story: &S,
) -> Option<(bool, Counters, Report)>
    requires name { blank.name ≡ L.name }
    requires parts { blank.parts ≡ L.parts }
    requires one { blank.parts ≡ 1 }
{
    let (desk, mut seats) = desk_of::<L>(alloc, blank, site, volume, 1)?;
    let told = told_at(rt, alloc, &desk, &mut seats, story);
    let icp = desk.stats(rt).icp;
    let report = settled(desk, seats)?;
    Some((told?, icp, report))
}

/// Tells a story to a clerk at the one seat of a new node's desk, and settles that. Also returns the ICP counters and the report.
pub(crate) fn at_desk<R: Wait, S: Story>(
    rt: &R,
    alloc: Global,
    site: &Site,
    volume: usize,
    story: &S,
) -> Option<(bool, Counters, Report)> {
    told::<Brand, R, S>(rt, alloc, Blank::new(1), site, volume, story)
}

/// A seat whose thread has ended, what the thread counted, and how many clients the actions passed on there have answered.
#[derive(Drop)]
pub(crate) struct Ending<L: Ledger> {
    seat: Seat<L>,
    counted: u64,
    answered: u64,
}

/// The sums over all threads.
#[derive(Drop)]
pub(crate) struct Sums {
    pub(crate) counted: u64,
    pub(crate) answered: u64,
}

/// The ending of a thread that has counted this, or `None` if it has failed.
pub(crate) fn ended<L: Ledger, R: Wait>(
    clerk: Seated<'_, L, R>,
    counted: Option<u64>,
) -> Option<Ending<L>> {
    let answered = answered(clerk.passed()).all();
    let seat = clerk.into_seat();
    let Some(counted) = counted else {
        drop(seat);
        return None;
    };
    Some(Ending {
        seat,
        counted,
        answered,
    })
}

/// Adds a thread's ending to the sums, and its seat to the seats. Returns `None` if the thread has failed.
fn add<L: Ledger>(
    sums: &mut Sums,
    seats: &mut Vec<Seat<L>>,
    ending: Option<Ending<L>>,
) -> Option<()> {
    let Ending {
        seat,
        counted,
        answered,
    } = ending?;
    sums.counted = sums.counted.saturating_add(counted);
    sums.answered = sums.answered.saturating_add(answered);
    seats.push(seat).ok()
}

/// Adds the endings of all threads.
fn add_all<L: Ledger>(seats: &mut Vec<Seat<L>>, endings: Vec<Option<Ending<L>>>) -> Option<Sums> {
    let mut sums = Sums {
        counted: 0,
        answered: 0,
    };
    for ending in endings {
        add(&mut sums, seats, ending)?;
    }
    Some(sums)
}

/// The sums over all threads and their seats, or `None` if a thread has failed.
fn summed<L: Ledger>(
    alloc: Global,
    endings: Option<Vec<Option<Ending<L>>>>,
) -> Option<(Sums, Vec<Seat<L>>)> {
    let endings = endings?;
    let mut seats = Vec::new(alloc);
    let Some(sums) = add_all(&mut seats, endings) else {
        drop(seats);
        return None;
    };
    Some((sums, seats))
}

/// The sums over all threads, and the report of the desk that is settled with their seats.
pub(crate) fn settled_with<L: Ledger>(
    alloc: Global,
    desk: Desk<L>,
    endings: Option<Vec<Option<Ending<L>>>>,
) -> Option<(Sums, Report)> {
    let Some((sums, seats)) = summed(alloc, endings) else {
        drop(desk);
        return None;
    };
    Some((sums, settled(desk, seats)?))
}
