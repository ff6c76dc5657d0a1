//! One thread swaps filters while others submit datagrams that they judged by the filters they last read.
ghost use Rattle.std.specs.Prelude.{◌≡◌, ◌<◌, ◌≤◌};

use crate::desks::{Ending, desk_of, ended, settled_with};
use crate::events::{judged_for, swap, takes, takes_judged};
use crate::messages::{SLOTS, query};
use crate::sites::FILTERED;
use filter_slots::Moment;
use node_book::{Clerk, Desk, Report, Seat, Seated};
use node_core::{Counters, Out};
use std::alloc::Global;
use std::marker::Brand;
use std::sync::Wait;
use std::sync::ledger::{Blank, Ledger};
use std::thread;
use std::thread::Threads;

/// The number of threads that submit datagrams while one swaps.
const SUBMITTERS: u64 = 3;

/// The datagrams that each submitter submits, the number of swaps, the book's volume and the expected report.
#[derive(Clone, Copy)]
struct Crowd {
    datagrams: u32,
    swaps: u32,
    volume: usize,
    wanted: Report,
}

const CROWDS: [Crowd; 2] = [
    // More events than receipts: each seat keeps the latest 1,024.
    Crowd {
        datagrams: 10_000,
        swaps: 2_000,
        volume: 100_000,
        wanted: Report {
            count: 32_000,
            base: 0,
            matched: 4_096,
        },
    },
    // The book turns fifteen times.
    Crowd {
        datagrams: 1_000,
        swaps: 1_000,
        volume: 256,
        wanted: Report {
            count: 4_000,
            base: 3_840,
            matched: 160,
        },
    },
];

/// Submits the swap with this number. Returns whether the clerk takes it.
fn swap_once<C: Clerk>(alloc: Global, clerk: &mut C, i: u32, out: &mut Out) -> Option<bool> {
    let k = if i % 2 == 0 { Some(0) } else { None };
    let slot = SLOTS[(i / 2 % 2) as usize];
    Some(takes(alloc, clerk, swap(alloc, slot, k)?, out))
}

/// Makes `swaps` swaps: the socket's filter and the sender's are each set to one that rejects everything, and removed again.
fn swap_often<C: Clerk>(alloc: Global, clerk: &mut C, swaps: u32) -> Option<()> {
    let mut out = Out::new(alloc).ok()?;
    for i in 0..swaps {
        if !swap_once(alloc, clerk, i, &mut out)? {
            return None;
        }
    }
    Some(())
}

/// Judges the query by the clerk's programs and submits it at this millisecond. Returns the number of its actions.
fn ask_once<C: Clerk>(alloc: Global, clerk: &mut C, ms: u64, out: &mut Out) -> Option<u64> {
    let now = Moment::new(ms)?;
    let judged = judged_for(clerk, query(alloc, 0)?)?;
    match takes_judged(alloc, clerk, &judged, now, out) {
        true => Some(out.actions().len() as u64),
        false => None,
    }
}

/// Submits the query `datagrams` times. Returns the total number of actions.
fn ask_often<C: Clerk>(alloc: Global, clerk: &mut C, datagrams: u32) -> Option<u64> {
    let mut out = Out::new(alloc).ok()?;
    let mut sent = 0u64;
    for i in 0..datagrams {
        sent = sent.saturating_add(ask_once(alloc, clerk, u64::from(i), &mut out)?);
    }
    Some(sent)
}

/// Runs one thread: the first swaps, the others submit queries. Returns the number of sends it saw.
fn work_by<C: Clerk>(alloc: Global, clerk: &mut C, place: u64, crowd: Crowd) -> Option<u64> {
    if place != 0 {
        return ask_often(alloc, clerk, crowd.datagrams);
    }
    swap_often(alloc, clerk, crowd.swaps)?;
    Some(0)
}

/// The same at the thread's seat.
fn work<L: Ledger, R: Wait>(
    rt: &R,
    alloc: Global,
    desk: &Desk<L>,
    seat: Seat<L>,
    crowd: Crowd,
) -> Option<Ending<L>> {
    let place = seat.place();
    let mut clerk = Seated::new(alloc, rt, desk, seat);
    let sent = work_by(alloc, &mut clerk, place, crowd);
    ended(clerk, sent)
}

/// Runs a thread for each seat.
fn each_worked<L: Ledger + Send + Sync, R: Threads + Wait + Sync>(
    rt: &R,
    alloc: Global,
    desk: &Desk<L>,
    seats: Vec<Seat<L>>,
    crowd: Crowd,
) -> Option<Vec<Option<Ending<L>>>> {
    thread::map_vec(rt, seats, &|seat| work(rt, alloc, desk, seat, crowd)).ok()
}

/// Runs the threads at a new desk and settles it. Returns the total number of sends, the ICP counters, the number of swaps and
/// the report.
fn told<L: Ledger + Send + Sync, R: Threads + Wait + Sync>(
    rt: &R,
    alloc: Global,
    blank: Blank,
    crowd: Crowd,
) -> Option<(u64, Counters, u64, Report)>
    requires name { blank.name ≡ L.name }
    requires parts { blank.parts ≡ L.parts }
    requires one_each { blank.parts ≡ 4 }
{
    let (desk, seats) = desk_of::<L>(alloc, blank, &FILTERED, crowd.volume, 4)?;
    let endings = each_worked(rt, alloc, &desk, seats, crowd);
    let (icp, swaps) = (desk.stats(rt).icp, desk.swaps());
    let (sums, report) = settled_with(alloc, desk, endings)?;
    Some((sums.counted, icp, swaps, report))
}

/// Whether each datagram was judged and either rejected or answered, and the swaps and the report are as expected.
fn adds_up(crowd: Crowd, told: Option<(u64, Counters, u64, Report)>) -> bool {
    let Some((sent, icp, swaps, report)) = told else {
        return false;
    };
    let asked = SUBMITTERS * crowd.datagrams as u64;
    let is_whole = icp.cut == 0 && icp.malformed == 0;
    let is_split = icp.rejected.checked_add(sent) == Some(asked);
    let are_swapped = swaps == crowd.swaps as u64;
    report == crowd.wanted && are_swapped && icp.judged == asked && is_whole && is_split
}

#[test]
fn counters_add_up_while_filters_are_swapped(rt: HostRuntime) {
    for crowd in &CROWDS {
        let told = told::<Brand, _>(&rt, rt.alloc(), Blank::new(4), *crowd);
        assert!(rt; adds_up(*crowd, told));
    }
}
