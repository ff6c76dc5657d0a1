//! The threads at a desk: clients at one seat, and a worker at each other seat.
use crate::desks::{Ending, ended};
use crate::events::asked;
use crate::workers::{Echo, answered, fault_of, job_of};
use crossbeam_channel::{Receiver, Sender, unbounded};
use fetch_worker::Job;
use node_book::{Clerk, Desk, Gate, Seat, Seated};
use node_core::{Action, Mode};
use std::alloc::Global;
use std::sync::Wait;
use std::sync::atomic::{AtomicBool, Ordering};
use std::sync::ledger::Ledger;
use std::thread;
use std::time::{Clock, Duration};

/// How often a thread polls, and the milliseconds between two polls.
const MOST_LOOKS: u64 = 1_000;

const MILLIS_BETWEEN: u64 = 10;

/// Flags that the threads share.
#[derive(Drop)]
pub(crate) struct Signs {
    /// The second client was answered from the store.
    is_answered: AtomicBool,
    /// The gate gave up waiting for that.
    has_given_up: AtomicBool,
}

impl Signs {
    pub(crate) fn new() -> Signs {
        Signs {
            is_answered: AtomicBool::new(false),
            has_given_up: AtomicBool::new(false),
        }
    }

    pub(crate) fn has_given_up(&self) -> bool {
        self.has_given_up.load(Ordering::SeqCst)
    }
}

/// A gate that holds back the first fetch's result until the second client was answered from the store.
#[derive(Drop)]
struct UntilHit<'a, R> {
    rt: &'a R,
    signs: &'a Signs,
}

impl<'a, R: Clock> Gate for UntilHit<'a, R> {
    fn hold(&self, fetch: u32) -> bool {
        if fetch != 1 {
            return true;
        }
        for _ in 0..MOST_LOOKS {
            if self.signs.is_answered.load(Ordering::SeqCst) {
                return true;
            }
            thread::sleep(self.rt, Duration::from_millis(MILLIS_BETWEEN));
        }
        self.signs.has_given_up.store(true, Ordering::SeqCst);
        false
    }
}

/// What one thread does, and its seat.
#[derive(Drop)]
pub(crate) enum Part<L: Ledger> {
    /// Clients send requests, and hand the fetches to the workers.
    Clients(Seat<L>, Vec<Sender<Job, Global>>),
    /// A worker runs fetches.
    Worker(Seat<L>, Receiver<Job, Global>),
}

/// The index of the worker that an action is a job for, or `None` if it is no fetch.
fn lane_of(action: &Action) -> Option<usize> {
    match action {
        Action::Fetch { fetch, .. } => Some((*fetch % 4) as usize),
        _ => None,
    }
}

/// Passes an action on, and hands a fetch to its worker.
fn hand_on<C: Clerk, R: Wait>(
    rt: &R,
    alloc: Global,
    clerk: &mut C,
    lanes: &[Sender<Job, Global>],
    action: &Action,
) -> Option<()> {
    clerk.pass(alloc, action).ok()?;
    let Some(lane) = lane_of(action) else {
        return Some(());
    };
    lanes.get(lane)?.send(rt, job_of(alloc, action)?).ok()
}

/// The same for all of these.
fn hand_all<C: Clerk, R: Wait>(
    rt: &R,
    alloc: Global,
    clerk: &mut C,
    lanes: &[Sender<Job, Global>],
    actions: &[Action],
) -> Option<()> {
    for action in actions {
        hand_on(rt, alloc, clerk, lanes, action)?;
    }
    Some(())
}

/// Submits a client's request, and hands its fetch, if there is one, to a worker. Returns whether it is a hit.
fn ask<C: Clerk, R: Wait>(
    rt: &R,
    alloc: Global,
    clerk: &mut C,
    lanes: &[Sender<Job, Global>],
    client: u64,
    key: &[u8],
    mode: Mode,
) -> Option<bool> {
    let out = asked(alloc, clerk, client, key, mode, 1_000)?;
    let are_handed = hand_all(rt, alloc, clerk, lanes, out.actions());
    let is_hit = answered(out.actions()).hits > 0;
    drop(out);
    are_handed?;
    Some(is_hit)
}

/// Asks for the second client's key until that is a hit. Returns the number of requests.
fn ask_until_hit<C: Clerk, R: Wait + Clock>(
    rt: &R,
    alloc: Global,
    clerk: &mut C,
    lanes: &[Sender<Job, Global>],
) -> Option<u64> {
    for looks in 0..MOST_LOOKS {
        if ask(rt, alloc, clerk, lanes, 3, b"http://b/", Mode::Cached)? {
            return looks.checked_add(1);
        }
        thread::sleep(rt, Duration::from_millis(MILLIS_BETWEEN));
    }
    None
}

/// The first client asks for one key, and the second for another until that is a hit. Returns the number of requests.
fn asks<C: Clerk, R: Wait + Clock>(
    rt: &R,
    alloc: Global,
    clerk: &mut C,
    lanes: &[Sender<Job, Global>],
    signs: &Signs,
) -> Option<u64> {
    ask(rt, alloc, clerk, lanes, 1, b"http://a/", Mode::Shared)?;
    ask(rt, alloc, clerk, lanes, 2, b"http://b/", Mode::Shared)?;
    let looks = ask_until_hit(rt, alloc, clerk, lanes)?;
    signs.is_answered.store(true, Ordering::SeqCst);
    looks.checked_add(2)
}

/// Runs the clients. Counts their requests.
fn play_clients<L: Ledger, R: Wait + Clock>(
    rt: &R,
    alloc: Global,
    desk: &Desk<L>,
    signs: &Signs,
    seat: Seat<L>,
    lanes: Vec<Sender<Job, Global>>,
) -> Option<Ending<L>> {
    let mut clerk = Seated::new(alloc, rt, desk, seat);
    let asked = asks(rt, alloc, &mut clerk, lanes.as_slice(), signs);
    drop(lanes);
    ended(clerk, asked)
}

/// Answers jobs until no jobs are left. Returns the number of fetches, or `None` if the worker ended early.
fn fetches<L: Ledger, R: Wait + Clock>(
    rt: &R,
    alloc: Global,
    clerk: &mut Seated<'_, L, R>,
    signs: &Signs,
    jobs: &Receiver<Job, Global>,
) -> Option<u64> {
    let mut echo = Echo { alloc, fetched: 0 };
    let gate = UntilHit { rt, signs };
    match fault_of(rt, alloc, jobs, &mut echo, &gate, clerk) {
        Some(_) => None,
        None => Some(u64::from(echo.fetched)),
    }
}

/// Runs a worker. Counts its fetches.
fn play_worker<L: Ledger, R: Wait + Clock>(
    rt: &R,
    alloc: Global,
    desk: &Desk<L>,
    signs: &Signs,
    seat: Seat<L>,
    jobs: Receiver<Job, Global>,
) -> Option<Ending<L>> {
    let mut clerk = Seated::new(alloc, rt, desk, seat);
    let fetched = fetches(rt, alloc, &mut clerk, signs, &jobs);
    drop(jobs);
    ended(clerk, fetched)
}

/// Runs one part.
pub(crate) fn play<L: Ledger, R: Wait + Clock>(
    rt: &R,
    alloc: Global,
    desk: &Desk<L>,
    signs: &Signs,
    part: Part<L>,
) -> Option<Ending<L>> {
    match part {
        Part::Clients(seat, lanes) => play_clients(rt, alloc, desk, signs, seat, lanes),
        Part::Worker(seat, jobs) => play_worker(rt, alloc, desk, signs, seat, jobs),
    }
}

/// Adds a worker at this seat, and where it gets its jobs from.
fn add_worker<L: Ledger>(
    alloc: Global,
    parts: &mut Vec<Part<L>>,
    lanes: &mut Vec<Sender<Job, Global>>,
    seat: Seat<L>,
) -> Option<()> {
    let (lane, jobs) = unbounded(alloc).ok()?;
    lanes.push(lane).ok()?;
    parts.push(Part::Worker(seat, jobs)).ok()
}

/// Adds a worker at each of these seats.
fn add_workers<L: Ledger>(
    alloc: Global,
    parts: &mut Vec<Part<L>>,
    lanes: &mut Vec<Sender<Job, Global>>,
    seats: Vec<Seat<L>>,
) -> Option<()> {
    for seat in seats {
        add_worker(alloc, parts, lanes, seat)?;
    }
    Some(())
}

/// Adds the clients at the last seat, and a worker at each other seat.
fn add_parts<L: Ledger>(
    alloc: Global,
    parts: &mut Vec<Part<L>>,
    mut seats: Vec<Seat<L>>,
) -> Option<()> {
    let last = seats.pop()?;
    let mut lanes = Vec::new(alloc);
    match add_workers(alloc, parts, &mut lanes, seats) {
        Some(()) => parts.push(Part::Clients(last, lanes)).ok(),
        None => {
            drop(last);
            drop(lanes);
            None
        }
    }
}

/// Assigns the parts: the clients at one seat, and a worker at each other seat.
pub(crate) fn parts_of<L: Ledger>(alloc: Global, seats: Vec<Seat<L>>) -> Option<Vec<Part<L>>> {
    let mut parts = Vec::new(alloc);
    match add_parts(alloc, &mut parts, seats) {
        Some(()) => Some(parts),
        None => {
            drop(parts);
            None
        }
    }
}
