//! Readers and writers that fail or are interrupted at one call.

use crate::memory::{Flushed, Source};
use crate::runs::{Faults, NEVER, run_script};
use feed_script::{FeedFault, feed};
use std::alloc::Global;
use std::cell::Cell;
use std::io::ErrorKind;
use std::test::Fail;

/// A query that a filter rejects, and the same query without the filter.
const SCRIPT: &[u8] =
    b"allow 10.0.0.0/8\ngo\ns icp 6,0,0,0\nd icp 10.0.0.9:3130 010200220000000100000000000000000000000000000000687474703a2f2f612f00 5\ns icp off\nd icp 10.0.0.9:3130 010200220000000100000000000000000000000000000000687474703a2f2f612f00 5\n?\n";

const TEXT: &[u8] =
    b".\n.\n.\nsend icp 10.0.0.9:3130 0302001e0000000100000000000000000a000001687474703a2f2f612f00\n.\nstats icp 2 1 0 0\nstats htcp 0 0 0 0\n";

/// Whether a run with these injected faults ends with `fault` after a prefix of the text.
fn ends_with(alloc: Global, faults: Faults, fault: FeedFault) -> bool {
    let run = run_script(alloc, SCRIPT, faults);
    run.outcome == Err(fault) && TEXT.starts_with(run.held.as_slice())
}

/// The numbers of reads and writes of a run without faults; `None` if it does not write the whole text.
fn calls(alloc: Global) -> Option<(u64, u64)> {
    let run = run_script(alloc, SCRIPT, NEVER);
    if run.outcome != Ok(()) || run.held.as_slice() != TEXT {
        return None;
    }
    Some((run.reads, run.writes))
}

// Every read fails in turn.
#[test]
fn failing_reads(rt: HostRuntime) -> Result<(), Fail> {
    let alloc = rt.alloc();
    let (reads, _) = calls(alloc).ok_or("the whole text")?;
    assert!(rt; reads > 20 && reads < 100, "{reads}");
    for k in 1..=reads {
        let faults = Faults { read: k, ..NEVER };
        assert!(rt; ends_with(alloc, faults, FeedFault::Read), "read {k}");
    }
    Ok(())
}

// Every write fails in turn.
#[test]
fn failing_writes(rt: HostRuntime) -> Result<(), Fail> {
    let alloc = rt.alloc();
    let (_, writes) = calls(alloc).ok_or("the whole text")?;
    assert!(rt; writes > 20 && writes < 100, "{writes}");
    for k in 1..=writes {
        let faults = Faults { write: k, ..NEVER };
        assert!(rt; ends_with(alloc, faults, FeedFault::Write), "write {k}");
    }
    Ok(())
}

/// Whether a run with these calls interrupted still writes the whole text.
fn goes_on(alloc: Global, read: u64, write: u64) -> bool {
    let kind = ErrorKind::Interrupted;
    let run = run_script(alloc, SCRIPT, Faults { read, write, kind });
    run.outcome == Ok(()) && run.held.as_slice() == TEXT
}

// Every read is interrupted in turn, then every write, then both.
#[test]
fn interruptions(rt: HostRuntime) {
    let alloc = rt.alloc();
    for k in 1..=60u64 {
        assert!(rt; goes_on(alloc, k, 0), "read {k}");
        assert!(rt; goes_on(alloc, 0, k), "write {k}");
        assert!(rt; goes_on(alloc, k, k), "read and write {k}");
    }
}

/// The outcome of the script and the number of flushes, which fail if `fails`.
fn flushed(alloc: Global, fails: bool) -> (Result<(), FeedFault>, u64) {
    let flushes = Cell::new(0);
    let mut input = Source {
        rest: SCRIPT,
        calls: 0,
        fail_at: 0,
        fault: ErrorKind::Other,
    };
    let mut output = Flushed {
        flushes: &flushes,
        fails,
    };
    let outcome = feed(alloc, &mut input, &mut output);
    (outcome, flushes.get())
}

// A writer may hold octets back until it is flushed.
#[test]
fn the_output_is_flushed_at_the_end(rt: HostRuntime) {
    assert!(rt; flushed(rt.alloc(), false) == (Ok(()), 1));
}

#[test]
fn a_failing_flush(rt: HostRuntime) {
    assert!(rt; flushed(rt.alloc(), true) == (Err(FeedFault::Write), 1));
}
