//! What a worker does when its clerk refuses.
use crate::events::{actions_of, asked_by_two, tick};
use crate::messages::OWN_HTCP;
use crate::refusing::{Handed, Left, NOTHING, Refusing};
use crate::rows::{Question, all_hold};
use crate::sites::{Peer, Site};
use crate::workers::{Echo, answered, fault_of, job_of};
use crossbeam_channel::unbounded;
use fetch_worker::{Job, WorkFault};
use filter_slots::End;
use neighbours::Role;
use node_book::{Clerk, Gate, Lone};
use node_core::Action;
use std::alloc::Global;
use std::sync::Wait;
use std::test::Fail;
use std::time::Clock;

/// A node with two silent parents that may not fetch from origins.
const BELOW: Site = Site {
    htcp: OWN_HTCP,
    allowed: &[],
    origin: false,
    entries: 100,
    octets: 10_000,
    peers: &[
        Peer {
            kind: Role::Parent,
            end: End {
                addr: [10, 0, 0, 2],
                port: 3130,
            },
            http_port: 3128,
        },
        Peer {
            kind: Role::Parent,
            end: End {
                addr: [10, 0, 0, 3],
                port: 3130,
            },
            http_port: 3128,
        },
    ],
};

/// A gate that is always open.
#[derive(Drop)]
struct Open {}

impl Gate for Open {
    fn hold(&self, _fetch: u32) -> bool {
        true
    }
}

/// What is refused, and the expected outcome for two clients that wait for one key at a node with two parents.
struct Row {
    left: Left,
    /// The results that are submitted.
    results: &'static [Handed],
    fetched: u32,
    got: u64,
    failed: u64,
    fault: Option<WorkFault>,
}

const GOT_FIRST: Handed = Handed {
    fetch: 1,
    attempt: 0,
    is_object: true,
};

const FAILED_FIRST: Handed = Handed {
    fetch: 1,
    attempt: 0,
    is_object: false,
};

const GOT_SECOND: Handed = Handed {
    fetch: 1,
    attempt: 1,
    is_object: true,
};

const FAILED_SECOND: Handed = Handed {
    fetch: 1,
    attempt: 1,
    is_object: false,
};

const ROWS: [Row; 6] = [
    Row {
        left: NOTHING,
        results: &[GOT_FIRST],
        fetched: 1,
        got: 2,
        failed: 0,
        fault: None,
    },
    // The first object is refused: the attempt counts as failed, and the clients get the next source's object.
    Row {
        left: Left {
            objects: 1,
            failures: 3,
            ..NOTHING
        },
        results: &[
            GOT_FIRST,
            FAILED_FIRST,
            FAILED_FIRST,
            FAILED_FIRST,
            FAILED_FIRST,
            GOT_SECOND,
        ],
        fetched: 2,
        got: 2,
        failed: 0,
        fault: None,
    },
    // Every object is refused: no source is left.
    Row {
        left: Left {
            objects: 9,
            ..NOTHING
        },
        results: &[GOT_FIRST, FAILED_FIRST, GOT_SECOND, FAILED_SECOND],
        fetched: 2,
        got: 0,
        failed: 2,
        fault: None,
    },
    // The key is refused: the first attempt fetches nothing.
    Row {
        left: Left { keys: 1, ..NOTHING },
        results: &[FAILED_FIRST, GOT_SECOND],
        fetched: 1,
        got: 2,
        failed: 0,
        fault: None,
    },
    // The key is refused each time.
    Row {
        left: Left { keys: 2, ..NOTHING },
        results: &[FAILED_FIRST, FAILED_SECOND],
        fetched: 0,
        got: 0,
        failed: 2,
        fault: None,
    },
    // One answer is not passed on.
    Row {
        left: Left {
            passes: 1,
            ..NOTHING
        },
        results: &[GOT_FIRST],
        fetched: 1,
        got: 0,
        failed: 0,
        fault: Some(WorkFault::NoMemory),
    },
];

/// Passes on all actions.
fn pass_all<C: Clerk>(alloc: Global, clerk: &mut C, actions: &[Action]) -> Option<()> {
    for action in actions {
        clerk.pass(alloc, action).ok()?;
    }
    Some(())
}

/// The end of the clients' round: the first attempt of their fetch is passed on.
fn begun<C: Clerk>(alloc: Global, clerk: &mut C) -> Option<()> {
    let out = actions_of(alloc, clerk, tick(alloc, 3_000)?)?;
    pass_all(alloc, clerk, out.actions())
}

/// The clerk of a node with two parents, at which two clients wait for the first attempt of a fetch.
fn waiting(alloc: Global) -> Option<Lone> {
    let mut clerk = asked_by_two(alloc, &BELOW, b"http://a/", b"http://a/")?;
    match begun(alloc, &mut clerk) {
        Some(()) => Some(clerk),
        None => {
            drop(clerk);
            None
        }
    }
}

/// The job of the last action that was passed on, or `None` if that isn't a fetch.
fn next_job(alloc: Global, clerk: &Refusing<Lone>) -> Option<Job> {
    job_of(alloc, clerk.clerk.passed().last()?)
}

/// Runs a worker with one job. Returns why it ended early, if it did.
fn worked_once<R: Wait + Clock>(
    rt: &R,
    alloc: Global,
    echo: &mut Echo,
    clerk: &mut Refusing<Lone>,
    job: Job,
) -> Option<Option<WorkFault>> {
    let (to, jobs) = unbounded(alloc).ok()?;
    to.send(rt, job).ok()?;
    drop(to);
    Some(fault_of(rt, alloc, &jobs, echo, &Open {}, clerk))
}

/// Runs a worker with one job after another, until no fetch is passed on, at most ten.
fn worked<R: Wait + Clock>(
    rt: &R,
    alloc: Global,
    echo: &mut Echo,
    clerk: &mut Refusing<Lone>,
) -> Option<Option<WorkFault>> {
    for _ in 0..10 {
        let Some(job) = next_job(alloc, clerk) else {
            return Some(None);
        };
        let fault = worked_once(rt, alloc, echo, clerk, job)?;
        if fault.is_some() {
            return Some(fault);
        }
    }
    None
}

fn is_same(one: &Handed, other: &Handed) -> bool {
    one.fetch == other.fetch && one.attempt == other.attempt && one.is_object == other.is_object
}

/// Whether these results were submitted, in this order.
fn are(results: &[Handed], wanted: &[Handed]) -> bool {
    for (one, other) in results.iter().zip(wanted) {
        if !is_same(one, other) {
            return false;
        }
    }
    results.len() == wanted.len()
}

/// Whether the row's results, fetches and answers occurred.
fn has_come(clerk: &Refusing<Lone>, fetched: u32, row: &Row) -> bool {
    let answered = answered(clerk.clerk.passed());
    are(clerk.results.as_slice(), row.results)
        && fetched == row.fetched
        && answered.got == row.got
        && answered.failed == row.failed
        && answered.hits == 0
}

/// A row, for a worker with one job after another.
#[derive(Drop)]
struct Works<'a, R> {
    rt: &'a R,
}

impl<R: Wait + Clock> Question<Row> for Works<'_, R> {
    fn holds(&self, alloc: Global, row: &Row) -> Option<bool> {
        let mut clerk = Refusing::new(alloc, waiting(alloc)?, row.left);
        let mut echo = Echo { alloc, fetched: 0 };
        let fault = worked(self.rt, alloc, &mut echo, &mut clerk);
        let has_come = has_come(&clerk, echo.fetched, row);
        drop(clerk);
        Some(fault? == row.fault && has_come)
    }
}

#[test]
fn the_same_attempt_fails_where_a_result_is_refused(rt: HostRuntime) -> Result<(), Fail> {
    all_hold(rt.alloc(), &ROWS, &Works { rt: &rt })
}

/// Runs a worker whose clerk refuses up to 2,000 failures. Returns how many results were submitted, and how many refusals are
/// left.
fn refused_often<R: Wait + Clock>(
    rt: &R,
    alloc: Global,
) -> Option<(Option<WorkFault>, usize, u32)> {
    let left = Left {
        objects: 1,
        failures: 2_000,
        ..NOTHING
    };
    let mut clerk = Refusing::new(alloc, waiting(alloc)?, left);
    let mut echo = Echo { alloc, fetched: 0 };
    let fault = worked(rt, alloc, &mut echo, &mut clerk);
    let (results, failures) = (clerk.results.len(), clerk.left.failures);
    drop(clerk);
    Some((fault?, results, failures))
}

/// The object and a thousand failures were submitted and refused.
#[test]
fn a_worker_gives_up_after_a_thousand_refusals(rt: HostRuntime) -> Result<(), Fail> {
    let told = refused_often(&rt, rt.alloc());
    let (fault, results, failures) = told.ok_or("a worker")?;
    assert!(rt; fault == Some(WorkFault::NoMemory));
    assert!(rt; results == 1_001);
    assert!(rt; failures == 1_000);
    Ok(())
}

/// The same job with another fetch number.
fn of_fetch(job: Job, other: u32) -> Job {
    let Job { mut action, fields } = job;
    if let Action::Fetch { fetch, .. } = &mut action {
        *fetch = other;
    }
    Job { action, fields }
}

/// Runs a worker with the next job, renumbered as a fetch that is not pending. Returns `None` if the worker ended early.
fn takes_unknown<R: Wait + Clock>(
    rt: &R,
    alloc: Global,
    echo: &mut Echo,
    clerk: &mut Refusing<Lone>,
) -> Option<()> {
    let job = of_fetch(next_job(alloc, clerk)?, 7);
    match worked_once(rt, alloc, echo, clerk, job)? {
        Some(_) => None,
        None => Some(()),
    }
}

/// What is submitted for a fetch that is not pending, and how many fetches are made.
fn unknown<R: Wait + Clock>(rt: &R, alloc: Global) -> Option<(bool, u32)> {
    let mut clerk = Refusing::new(alloc, waiting(alloc)?, NOTHING);
    let mut echo = Echo { alloc, fetched: 0 };
    let taken = takes_unknown(rt, alloc, &mut echo, &mut clerk);
    let wanted = Handed {
        fetch: 7,
        attempt: 0,
        is_object: false,
    };
    let is_handed = are(clerk.results.as_slice(), &[wanted]);
    drop(clerk);
    taken?;
    Some((is_handed, echo.fetched))
}

#[test]
fn a_fetch_that_is_not_pending_has_failed(rt: HostRuntime) -> Result<(), Fail> {
    let (has_failed, fetched) = unknown(&rt, rt.alloc()).ok_or("a worker")?;
    assert!(rt; has_failed);
    assert!(rt; fetched == 0);
    Ok(())
}
