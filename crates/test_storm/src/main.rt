//! A randomized test of the node: the same random events go to a node with filters, and, after applying the filters by
//! other code, to a node without filters. Actions and counters of both must agree after each event.
//!
//! `storm SEED EVENTS` prints the number of events and actions of each kind. If the nodes differ, or the receipts of a book
//! do not add up, it prints after how many events, and exits with status 1. All random choices come from the seed. Its
//! functions have no contracts beyond what their calls require.
//! Tested by: nothing else; it is a test itself, run by `make test` and, longer, by `make storm`.
#![tactic(auto)]

mod chapter;
mod draws;
mod happenings;
mod packets;
mod programs;
mod ring;
mod sums;
mod twin;

use chapter::{StormFault, chapter};
use happenings::Weather;
use std::alloc::AllocGlobal;
use std::marker::Brand;
use std::process::ExitCode;
use std::sync::Wait;
use std::sync::ledger::Blank;
use std::{env, io};
use sums::Sums;

/// Number of events after which a book is settled.
const CHAPTER: u64 = 10_000;

/// Parses the arguments: the seed and the number of events.
fn wanted(rt: &HostRuntime) -> Option<(u64, u64)> {
    let words: Vec<String> = env::args(rt).ok()?.skip(1).collect(rt.alloc()).ok()?;
    match words.as_slice() {
        [seed, events] => Some((
            seed.as_str().parse::<u64>().ok()?,
            events.as_str().parse::<u64>().ok()?,
        )),
        _ => None,
    }
}

/// Runs one chapter.
fn one<R: Wait + AllocGlobal>(
    rt: &R,
    weather: &mut Weather,
    count: u64,
    sums: &mut Sums,
) -> Result<(), StormFault> {
    chapter::<Brand, _>(rt, rt.alloc(), Blank::new(2), weather, count, sums)
}

/// Runs chapters until all events are done.
fn run<R: Wait + AllocGlobal>(
    rt: &R,
    seed: u64,
    events: u64,
    sums: &mut Sums,
) -> Result<(), StormFault> {
    let mut weather = Weather::new(rt.alloc(), seed);
    let mut left = events;
    for _ in 0..u64::MAX {
        if left == 0 {
            break;
        }
        let count = left.min(CHAPTER);
        one(rt, &mut weather, count, sums)?;
        left -= count;
    }
    Ok(())
}

/// Prints the totals.
fn tell(rt: &HostRuntime, seed: u64, sums: &Sums) -> io::Result<()> {
    println!(rt; "seed {seed}: {} events, 0 differences", sums.events)?;
    println!(rt;
        "{} datagrams: {} rejected, {} cut, {} malformed",
        sums.datagrams, sums.rejected, sums.cut, sums.malformed
    )?;
    println!(rt;
        "{} requests, {} ticks, {} results, {} lost clients, {} swaps",
        sums.requests, sums.ticks, sums.results, sums.gone, sums.swaps
    )?;
    println!(rt;
        "{} sends, {} fetches, {} hits, {} objects, {} failures",
        sums.sends, sums.fetches, sums.hits, sums.gots, sums.fails
    )
}

fn main(rt: HostRuntime) -> ExitCode {
    let Some((seed, events)) = wanted(&rt) else {
        let _ = eprintln!(rt; "usage: storm <seed> <events>");
        return ExitCode::from(2);
    };
    let mut sums = Sums::new();
    if let Err(fault) = run(&rt, seed, events, &mut sums) {
        let count = u8::from(fault.is_difference());
        let _ = println!(rt;
            "seed {seed}: {} events, {count} differences: {fault}",
            sums.events
        );
        return ExitCode::FAILURE;
    }
    match tell(&rt, seed, &sums) {
        Ok(()) => ExitCode::SUCCESS,
        Err(_) => ExitCode::FAILURE,
    }
}
