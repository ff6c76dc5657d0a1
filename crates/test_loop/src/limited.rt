//! A clerk that refuses: what was done before the refusal stays done.
use crate::events::asked_by_two;
use crate::refusing::{Left, NOTHING, Refusing};
use crate::rows::{Question, all_hold};
use crate::sites::{ALONE, WAITS, lone_of};
use crate::wires::{FIVE, Script, Step, pumped};
use mio_queries::PumpFault;
use node_book::{Lone, SubmitFault};
use std::alloc::Global;
use std::test::Fail;

/// The number of events that a clerk takes before it refuses with `fault`, and the expected result of pumping five queries: the
/// error, and the queries that are answered.
struct Row {
    events: u32,
    fault: SubmitFault,
    gives: PumpFault,
    replied: &'static [usize],
}

const ROWS: [Row; 5] = [
    Row {
        events: 0,
        fault: SubmitFault::Ended,
        gives: PumpFault::Ended,
        replied: &[],
    },
    Row {
        events: 3,
        fault: SubmitFault::Ended,
        gives: PumpFault::Ended,
        replied: &[0, 1, 2],
    },
    Row {
        events: 0,
        fault: SubmitFault::NoMemory,
        gives: PumpFault::NoMemory,
        replied: &[],
    },
    Row {
        events: 3,
        fault: SubmitFault::NoMemory,
        gives: PumpFault::NoMemory,
        replied: &[0, 1, 2],
    },
    Row {
        events: 4,
        fault: SubmitFault::NoMemory,
        gives: PumpFault::NoMemory,
        replied: &[0, 1, 2, 3],
    },
];

/// Pumps five queries. Returns whether the row holds: its error, its replies, and one more query received than answered.
fn holds(alloc: Global, clerk: &mut Refusing<Lone>, row: &Row) -> Option<bool> {
    let script = Script {
        steps: &FIVE,
        failing: &[],
        turns: 5,
        replied: row.replied,
    };
    let told = pumped(alloc, clerk, &script)?;
    let one_more = told.taken.checked_sub(1) == Some(row.replied.len());
    Some(told.gives == Err(row.gives) && one_more && told.replied)
}

/// A row, for a new node's clerk.
struct TakesNoMore;

impl Question<Row> for TakesNoMore {
    fn holds(&self, alloc: Global, row: &Row) -> Option<bool> {
        let left = Left {
            events: row.events,
            room: 0,
            fault: row.fault,
            ..NOTHING
        };
        let mut clerk = Refusing::new(alloc, lone_of(alloc, &ALONE)?, left);
        let holds = holds(alloc, &mut clerk, row);
        drop(clerk);
        holds
    }
}

#[test]
fn a_clerk_takes_no_more(rt: HostRuntime) -> Result<(), Fail> {
    all_hold(rt.alloc(), &ROWS, &TakesNoMore)
}

/// An idle turn at 3000, in which two fetches are due, and a query.
const IDLE_THEN_QUERY: Script<'static> = Script {
    steps: &[Step::Idle(3_000), Step::Query(0)],
    failing: &[],
    turns: 2,
    replied: &[],
};

/// Pumps these while the clerk takes only `room` actions. Returns the error, if there is one, and how many actions were passed on.
fn passes(alloc: Global, room: u32) -> Option<(Option<PumpFault>, usize)> {
    let left = Left {
        events: 2,
        room,
        fault: SubmitFault::Ended,
        ..NOTHING
    };
    let lone = asked_by_two(alloc, &WAITS, b"http://a/", b"http://b/")?;
    let mut clerk = Refusing::new(alloc, lone, left);
    let told = pumped(alloc, &mut clerk, &IDLE_THEN_QUERY);
    let passed = clerk.clerk.passed().len();
    drop(clerk);
    Some((told?.gives.err(), passed))
}

/// How many actions a clerk takes, the error, if there is one, and how many actions are passed on.
type Room = (u32, Option<PumpFault>, usize);

const ROOMS: [Room; 3] = [
    (0, Some(PumpFault::NoMemory), 0),
    (1, Some(PumpFault::NoMemory), 1),
    (2, None, 2),
];

/// A row, for a new node's clerk.
struct HasRoom;

impl Question<Room> for HasRoom {
    fn holds(&self, alloc: Global, row: &Room) -> Option<bool> {
        let (room, fault, passed) = *row;
        Some(passes(alloc, room)? == (fault, passed))
    }
}

#[test]
fn a_clerk_has_no_room(rt: HostRuntime) -> Result<(), Fail> {
    all_hold(rt.alloc(), &ROOMS, &HasRoom)
}
