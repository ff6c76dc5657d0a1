//! Pumping over in-memory wires with scripted receives and failures.
use crate::rows::{Question, all_hold};
use crate::wires::{Script, Step, pumped_alone};
use mio_queries::{PumpFault, Pumped, WireFault};
use std::alloc::Global;
use std::test::Fail;

/// A wire's script, and what is expected: what `pump` returns, and the number of datagrams judged.
struct Row {
    script: Script<'static>,
    gives: Result<Pumped, PumpFault>,
    judged: u64,
}

const ROWS: [Row; 7] = [
    Row {
        script: Script {
            steps: &[Step::Query(0), Step::Idle(6), Step::Idle(7)],
            failing: &[],
            turns: 3,
            replied: &[0],
        },
        gives: Ok(Pumped {
            received: 1,
            idle: 2,
            sent: 1,
            failed: 0,
        }),
        judged: 1,
    },
    // The first send fails.
    Row {
        script: Script {
            steps: &[Step::Query(0), Step::Idle(6), Step::Idle(7)],
            failing: &[true],
            turns: 3,
            replied: &[],
        },
        gives: Ok(Pumped {
            received: 1,
            idle: 2,
            sent: 0,
            failed: 1,
        }),
        judged: 1,
    },
    // The reply of the last turn is sent too.
    Row {
        script: Script {
            steps: &[Step::Query(0)],
            failing: &[],
            turns: 1,
            replied: &[0],
        },
        gives: Ok(Pumped {
            received: 1,
            idle: 0,
            sent: 1,
            failed: 0,
        }),
        judged: 1,
    },
    Row {
        script: Script {
            steps: &[Step::Query(0)],
            failing: &[],
            turns: 0,
            replied: &[],
        },
        gives: Ok(Pumped {
            received: 0,
            idle: 0,
            sent: 0,
            failed: 0,
        }),
        judged: 0,
    },
    Row {
        script: Script {
            steps: &[Step::Query(0), Step::Fault(WireFault::Io), Step::Query(1)],
            failing: &[],
            turns: 3,
            replied: &[0],
        },
        gives: Err(PumpFault::Receive),
        judged: 1,
    },
    Row {
        script: Script {
            steps: &[
                Step::Query(0),
                Step::Fault(WireFault::NoMemory),
                Step::Query(1),
            ],
            failing: &[],
            turns: 3,
            replied: &[0],
        },
        gives: Err(PumpFault::NoMemory),
        judged: 1,
    },
    // The script has ended.
    Row {
        script: Script {
            steps: &[Step::Query(0)],
            failing: &[],
            turns: 2,
            replied: &[0],
        },
        gives: Err(PumpFault::Receive),
        judged: 1,
    },
];

/// A row, for a new node by itself.
struct AsScripted;

impl Question<Row> for AsScripted {
    fn holds(&self, alloc: Global, row: &Row) -> Option<bool> {
        let (told, judged) = pumped_alone(alloc, &row.script)?;
        Some(told.gives == row.gives && told.replied && judged == row.judged)
    }
}

#[test]
fn rows_hold(rt: HostRuntime) -> Result<(), Fail> {
    all_hold(rt.alloc(), &ROWS, &AsScripted)
}
