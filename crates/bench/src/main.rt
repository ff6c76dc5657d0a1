//! Measures a node's book (what a step, a take and a submit cost, what threads at one desk gain, and how long its lock is held) and the
//! object store (a hit, and a put that evicts the least recently used entry).
//!
//! Its usage line names the measurements, of which it makes one for each four words. Those that make one call over and over print a
//! number, mostly of the events in the book, of the store of the calls that succeeded; `threads` and `judges` print milliseconds; `holds`
//! prints times in nanoseconds. `bench/book_cost` and `bench/store_cost` run the program and print the costs. The contracts carry only
//! what a desk requires: that its ledger is new and has a part for each seat.
//!
//! Tested by: the gate, which runs `bench` as `args` says and compares what it prints with `stdout`.
#![tactic(auto)]

mod alone;
mod events;
mod holds;
mod seats;
mod store;
mod under;

use events::{Kind, parse_kind};
use holds::{Holds, Load, Times, time_holds};
use seats::{Crowd, Judging, submit, time_crowd};
use std::alloc::Global;
use std::marker::Brand;
use std::process::ExitCode;
use std::sync::Wait;
use std::sync::ledger::Blank;
use std::thread::Threads;
use std::time::{Clock, Duration};
use std::{env, io};
use under::{judged, under};

/// A call that is made over and over.
#[derive(Clone, Copy)]
enum Call {
    Step,
    Take,
    Keep,
    Submit,
    Under,
    Judged,
}

/// A measurement.
#[derive(Clone, Copy)]
enum Work {
    Calls(Call, Kind, u32),
    Turns { entries: u32, count: u32 },
    Store(store::Work),
    Threads(Crowd),
    Holds(Load),
}

/// What a measurement gives.
#[derive(Clone, Copy)]
enum Figures {
    Count(u64),
    Time(Duration),
    Holds(Holds),
}

fn main(rt: HostRuntime) -> ExitCode {
    let Ok(words) = arguments(&rt) else {
        return ExitCode::FAILURE;
    };
    let done = measure_all(&rt, &rt, words.as_slice());
    drop(words);
    exit_code(done)
}

/// Makes the measurements, of which each has four words, and prints what they give on `host`. Returns `None` if one fails, or there are
/// other words.
fn measure_all<R: Threads + Wait + Sync + Clock>(
    rt: &R,
    host: &HostRuntime,
    words: &[String],
) -> Option<()> {
    if words.is_empty() {
        return print_usage(host);
    }
    for four in words.chunks(4) {
        measure_one(rt, host, four)?;
    }
    Some(())
}

/// The same for one of them.
fn measure_one<R: Threads + Wait + Sync + Clock>(
    rt: &R,
    host: &HostRuntime,
    words: &[String],
) -> Option<()> {
    let Some(work) = parse_words(words) else {
        return print_usage(host);
    };
    print_figures(host, measure(rt, host.alloc(), work))
}

fn exit_code(done: Option<()>) -> ExitCode {
    match done {
        Some(()) => ExitCode::SUCCESS,
        None => ExitCode::FAILURE,
    }
}

fn print_usage(rt: &HostRuntime) -> Option<()> {
    let _ = eprintln!(rt;
        "usage: bench step|take|keep|submit|under|judged KIND COUNT 0 | turn 0 ENTRIES COUNT | nothing|get|put 0 ENTRIES COUNT | threads|judges KIND COUNT THREADS | holds VOLUME ENTRIES COUNT .."
    );
    None
}

/// Makes a measurement. Returns `None` if memory runs out, the settings are refused or the clock can't be read.
fn measure<R: Threads + Wait + Sync + Clock>(rt: &R, alloc: Global, work: Work) -> Option<Figures> {
    Some(match work {
        Work::Calls(call, kind, count) => {
            Figures::Count(make_calls(rt, alloc, call, kind, count)?)
        }
        Work::Turns { entries, count } => Figures::Count(alone::turn(alloc, entries, count)?),
        Work::Store(work) => Figures::Count(u64::from(store::measured(alloc, &work)?)),
        Work::Threads(crowd) => Figures::Time(run_crowd(rt, alloc, crowd)?),
        Work::Holds(load) => Figures::Holds(measure_holds(rt, alloc, load)?),
    })
}

/// The number that a call made over and over gives.
fn make_calls<R: Wait>(rt: &R, alloc: Global, call: Call, kind: Kind, count: u32) -> Option<u64> {
    match call {
        Call::Step => alone::step(alloc, kind, count),
        Call::Take => alone::take(alloc, kind, count),
        Call::Keep => alone::keep(alloc, kind, count),
        Call::Submit => submit::<Brand, R>(rt, alloc, Blank::new(1), kind, count),
        Call::Under => under::<Brand>(alloc, Blank::new(1), kind, count),
        Call::Judged => judged::<Brand>(alloc, Blank::new(1), kind, count),
    }
}

/// How long threads take.
fn run_crowd<R: Threads + Wait + Sync + Clock>(
    rt: &R,
    alloc: Global,
    crowd: Crowd,
) -> Option<Duration> {
    time_crowd::<Brand, R>(rt, alloc, Blank::new(crowd.threads), crowd)
}

/// How long the lock is held.
fn measure_holds<R: Clock>(rt: &R, alloc: Global, load: Load) -> Option<Holds> {
    time_holds::<Brand, R>(rt, alloc, Blank::new(1), load)
}

/// The arguments after the program's name.
fn arguments(rt: &HostRuntime) -> io::Result<Vec<String>> {
    Ok(env::args(rt)?.skip(1).collect(rt.alloc())?)
}

fn parse_words(words: &[String]) -> Option<Work> {
    match words {
        [mode, what, first, second] => parse_work(
            mode.as_str(),
            what.as_str(),
            parse_number(first.as_str())?,
            parse_number(second.as_str())?,
        ),
        _ => None,
    }
}

fn parse_number(digits: &str) -> Option<u32> {
    digits.parse::<u32>().ok()
}

fn parse_work(mode: &str, what: &str, first: u32, second: u32) -> Option<Work> {
    match mode {
        "turn" => Some(Work::Turns {
            entries: first,
            count: second,
        }),
        "holds" => parse_holds(what, first, second),
        "threads" => parse_crowd(Judging::UnderLock, what, first, second),
        "judges" => parse_crowd(Judging::Beforehand, what, first, second),
        "nothing" | "get" | "put" => Some(Work::Store(store::Work {
            call: store::parse_call(mode)?,
            entries: first,
            count: second,
        })),
        _ => Some(Work::Calls(parse_call(mode)?, parse_kind(what)?, first)),
    }
}

fn parse_holds(volume: &str, entries: u32, count: u32) -> Option<Work> {
    let volume = parse_number(volume)?;
    Some(Work::Holds(Load {
        volume,
        entries,
        count,
    }))
}

fn parse_crowd(judging: Judging, kind: &str, count: u32, threads: u32) -> Option<Work> {
    let kind = parse_kind(kind)?;
    Some(Work::Threads(Crowd {
        judging,
        kind,
        count: u64::from(count),
        threads: u64::from(threads),
    }))
}

fn parse_call(name: &str) -> Option<Call> {
    match name {
        "step" => Some(Call::Step),
        "take" => Some(Call::Take),
        "keep" => Some(Call::Keep),
        "submit" => Some(Call::Submit),
        "under" => Some(Call::Under),
        "judged" => Some(Call::Judged),
        _ => None,
    }
}

fn print_count(rt: &HostRuntime, count: u64) -> Option<()> {
    println!(rt; "{count}").ok()
}

fn print_millis(rt: &HostRuntime, time: Duration) -> Option<()> {
    let millis = time.as_millis();
    println!(rt; "{millis}").ok()
}

/// Prints how many times there are, the mean and the longest in nanoseconds, and how many are 10 and 100 microseconds or more.
fn print_times(rt: &HostRuntime, name: &str, times: &Times) -> Option<()> {
    let (count, longest) = (times.count, times.longest.as_nanos());
    let mean = times.total.as_nanos().checked_div(count.max(1) as u128)?;
    let (ten, hundred) = (times.over_ten, times.over_hundred);
    println!(rt; "{name} {count} {mean} {longest} {ten} {hundred}").ok()
}

fn print_holds(rt: &HostRuntime, holds: &Holds) -> Option<()> {
    print_times(rt, "plain", &holds.plain)?;
    print_times(rt, "turns", &holds.turns)?;
    print_times(rt, "nothing", &holds.nothing)
}

fn print_figures(rt: &HostRuntime, figures: Option<Figures>) -> Option<()> {
    match figures? {
        Figures::Count(count) => print_count(rt, count),
        Figures::Time(time) => print_millis(rt, time),
        Figures::Holds(holds) => print_holds(rt, &holds),
    }
}
