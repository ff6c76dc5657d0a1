//! Five queries, of which each receive and each send fails in turn.
use crate::rows::{Question, all_hold};
use crate::wires::{FIVE, Script, Step, pumped_alone};
use mio_queries::{PumpFault, Pumped, WireFault};
use std::alloc::Global;
use std::test::Fail;

/// The index of the receive or send that fails, and the queries that are answered.
struct Row {
    place: usize,
    replied: &'static [usize],
}

/// A receive fails; the earlier queries are answered.
const LOST: [Row; 5] = [
    Row {
        place: 0,
        replied: &[],
    },
    Row {
        place: 1,
        replied: &[0],
    },
    Row {
        place: 2,
        replied: &[0, 1],
    },
    Row {
        place: 3,
        replied: &[0, 1, 2],
    },
    Row {
        place: 4,
        replied: &[0, 1, 2, 3],
    },
];

/// The five queries, with a fault in place of one.
fn steps_but(place: usize, fault: WireFault) -> [Step; 5] {
    let mut steps = FIVE;
    if let Some(step) = steps.get_mut(place) {
        *step = Step::Fault(fault);
    }
    steps
}

/// Pumping while one of five receives fails ends with this error, and all earlier queries were judged and answered.
#[derive(Drop)]
struct Loses {
    fault: WireFault,
    gives: PumpFault,
}

impl Question<Row> for Loses {
    fn holds(&self, alloc: Global, row: &Row) -> Option<bool> {
        let steps = steps_but(row.place, self.fault);
        let script = Script {
            steps: &steps,
            failing: &[],
            turns: 5,
            replied: row.replied,
        };
        let (told, judged) = pumped_alone(alloc, &script)?;
        let are_judged = judged == row.replied.len() as u64;
        Some(told.gives == Err(self.gives) && told.replied && are_judged)
    }
}

#[test]
fn a_receive_fails(rt: HostRuntime) -> Result<(), Fail> {
    let loses = Loses {
        fault: WireFault::Io,
        gives: PumpFault::Receive,
    };
    all_hold(rt.alloc(), &LOST, &loses)
}

#[test]
fn a_receive_has_no_memory(rt: HostRuntime) -> Result<(), Fail> {
    let loses = Loses {
        fault: WireFault::NoMemory,
        gives: PumpFault::NoMemory,
    };
    all_hold(rt.alloc(), &LOST, &loses)
}

/// A send fails; all others succeed, and the failed one isn't retried.
const UNSENT: [Row; 5] = [
    Row {
        place: 0,
        replied: &[1, 2, 3, 4],
    },
    Row {
        place: 1,
        replied: &[0, 2, 3, 4],
    },
    Row {
        place: 2,
        replied: &[0, 1, 3, 4],
    },
    Row {
        place: 3,
        replied: &[0, 1, 2, 4],
    },
    Row {
        place: 4,
        replied: &[0, 1, 2, 3],
    },
];

/// Flags for five sends: the one at `place` fails.
fn failing_at(place: usize) -> [bool; 5] {
    let mut failing = [false; 5];
    if let Some(fails) = failing.get_mut(place) {
        *fails = true;
    }
    failing
}

/// What pumping returns while one of five sends fails.
const LEFT_OUT: Pumped = Pumped {
    received: 5,
    idle: 0,
    sent: 4,
    failed: 1,
};

/// All others were sent then, and that one wasn't retried.
struct LeavesOut;

impl Question<Row> for LeavesOut {
    fn holds(&self, alloc: Global, row: &Row) -> Option<bool> {
        let failing = failing_at(row.place);
        let script = Script {
            steps: &FIVE,
            failing: &failing,
            turns: 5,
            replied: row.replied,
        };
        let (told, _) = pumped_alone(alloc, &script)?;
        Some(told.gives == Ok(LEFT_OUT) && told.replied && told.faults == 1)
    }
}

#[test]
fn a_send_fails(rt: HostRuntime) -> Result<(), Fail> {
    all_hold(rt.alloc(), &UNSENT, &LeavesOut)
}
