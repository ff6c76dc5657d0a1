//! Running a script with an in-memory reader and writer.

use crate::memory::{Sink, Source};
use feed_script::{FeedFault, feed};
use std::alloc::Global;
use std::io::ErrorKind;

/// The calls of the reader and of the writer that fail, counted from 1 (0 means none), and the kind of the error.
#[derive(Clone, Copy)]
pub(crate) struct Faults {
    pub(crate) read: u64,
    pub(crate) write: u64,
    pub(crate) kind: ErrorKind,
}

/// No injected fault.
pub(crate) const NEVER: Faults = Faults {
    read: 0,
    write: 0,
    kind: ErrorKind::Other,
};

/// The outcome of a run, what it wrote, and the number of reads and writes.
#[derive(Drop)]
pub(crate) struct Run {
    pub(crate) outcome: Result<(), FeedFault>,
    pub(crate) held: Vec<u8>,
    pub(crate) reads: u64,
    pub(crate) writes: u64,
}

/// Runs a script with these injected faults.
pub(crate) fn run_script(alloc: Global, script: &[u8], faults: Faults) -> Run {
    let mut input = Source {
        rest: script,
        calls: 0,
        fail_at: faults.read,
        fault: faults.kind,
    };
    let mut output = Sink {
        held: Vec::new(alloc),
        calls: 0,
        fail_at: faults.write,
        fault: faults.kind,
    };
    let outcome = feed(alloc, &mut input, &mut output);
    let Source {
        rest: _,
        calls: reads,
        fail_at: _,
        fault: _,
    } = input;
    let Sink {
        held,
        calls: writes,
        fail_at: _,
        fault: _,
    } = output;
    Run {
        outcome,
        held,
        reads,
        writes,
    }
}
