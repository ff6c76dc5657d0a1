//! Submitting the results of fetches to a clerk.
ghost use Rattle.std.specs.Prelude.{◌≡◌, ◌≤◌, ◌+◌, [], OnOk, OnErr};
ghost use Rattle.node_words.specs.declared.event.Outcome.TheVariants as outcome;
ghost use Rattle.fetch_worker.specs.Working.{Submitted};

use crate::NoMemory;
use filter_slots::Moment;
use node_book::{Clerk, SubmitFault};
use node_core::{Event, Out, Outcome};
use std::alloc::Global;
use std::sync::Arc;
use std::time::{Clock, SystemTime};
use thiserror::Error;

/// Number of tries to submit a failure in place of a result for which there was no memory.
pub const MOST_TRIES: u32 = 1_000;

/// Errors of a worker.
#[derive(Clone, Copy, Debug, PartialEq, Eq, Error)]
pub enum WorkFault {
    /// Allocation failure in submitting a failure or passing an action on.
    #[error("no memory")]
    NoMemory,
    /// The clerk has no more event numbers.
    #[error("no event has a number any more")]
    Ended,
}

impl From<NoMemory> for WorkFault {
    fn from(_: NoMemory) -> WorkFault {
        WorkFault::NoMemory
    }
}

impl From<SubmitFault> for WorkFault {
    fn from(fault: SubmitFault) -> WorkFault {
        match fault {
            SubmitFault::Ended => WorkFault::Ended,
            SubmitFault::NoMemory => WorkFault::NoMemory,
        }
    }
}

/// An attempt of a fetch, by the numbers of both.
#[derive(Clone, Copy)]
pub(crate) struct Attempt {
    pub(crate) fetch: u32,
    pub(crate) attempt: u16,
}

/// Submits the result of an attempt; on allocation failure submits the attempt as failed instead, in at most 1,000 tries. The
/// actions are left in `out`. On error nothing was taken.
pub(crate) fn submit_result<R: Clock, C: Clerk>(
    rt: &R,
    alloc: Global,
    of: Attempt,
    outcome: Outcome,
    clerk: &mut C,
    out: &mut Out,
) -> Result<(), WorkFault>
    ensures taken { OnOk result (Submitted (C.told clerk.old) (C.told clerk.new) of.fetch of.attempt outcome out.new) }
    ensures counted { OnOk result (C.taken clerk.new ≡ C.taken clerk.old + 1) }
    ensures refused { OnErr result ((C.told clerk.new ≡ C.told clerk.old) × (C.taken clerk.new ≡ C.taken clerk.old)) }
{
    match submit_once(rt, alloc, of, outcome, clerk, out) {
        Ok(()) => Ok(()),
        Err(SubmitFault::Ended) => Err(WorkFault::Ended),
        Err(SubmitFault::NoMemory) => submit_failure(rt, alloc, of, clerk, out),
    }
}

/// Submits an attempt as failed, trying again on allocation failure, at most 1,000 times in all.
fn submit_failure<R: Clock, C: Clerk>(
    rt: &R,
    alloc: Global,
    of: Attempt,
    clerk: &mut C,
    out: &mut Out,
) -> Result<(), WorkFault>
    ensures taken { OnOk result (Submitted (C.told clerk.old) (C.told clerk.new) of.fetch of.attempt outcome.Failed out.new) }
    ensures counted { OnOk result (C.taken clerk.new ≡ C.taken clerk.old + 1) }
    ensures refused { OnErr result ((C.told clerk.new ≡ C.told clerk.old) × (C.taken clerk.new ≡ C.taken clerk.old)) }
{
    for refused in 0..MOST_TRIES {
        match submit_once(rt, alloc, of, Outcome::Failed, clerk, out) {
            Ok(()) => return Ok(()),
            Err(SubmitFault::Ended) => return Err(WorkFault::Ended),
            Err(SubmitFault::NoMemory) => {}
        }
    }
    Err(WorkFault::NoMemory)
}

/// Tries once to submit the result of an attempt.
fn submit_once<R: Clock, C: Clerk>(
    rt: &R,
    alloc: Global,
    of: Attempt,
    outcome: Outcome,
    clerk: &mut C,
    out: &mut Out,
) -> Result<(), SubmitFault>
    ensures taken { OnOk result (Submitted (C.told clerk.old) (C.told clerk.new) of.fetch of.attempt outcome out.new) }
    ensures counted { OnOk result (C.taken clerk.new ≡ C.taken clerk.old + 1) }
    ensures refused { OnErr result ((C.told clerk.new ≡ C.told clerk.old) × (C.taken clerk.new ≡ C.taken clerk.old)) }
{
    out.clear();
    let event = Event::Fetched {
        fetch: of.fetch,
        attempt: of.attempt,
        result: outcome,
        now: now(rt),
    };
    let Ok(event) = Arc::new(alloc, event) else {
        return Err(SubmitFault::NoMemory);
    };
    match clerk.submit(alloc, event, out) {
        Ok(_) => Ok(()),
        Err(fault) => Err(fault),
    }
}

/// The present time in milliseconds since 1970. Returns 0, which moves no node's clock, if the clock can't be read or is out of
/// the range of a `Moment`.
fn now<R: Clock>(rt: &R) -> Moment {
    match read(rt) {
        Some(now) => now,
        None => Moment::new(0).unwrap(),
    }
}

fn read<R: Clock>(rt: &R) -> Option<Moment> {
    let now = SystemTime::now(rt).ok()?;
    let since = now.duration_since(SystemTime::UNIX_EPOCH).ok()?;
    Moment::new(u64::try_from(since.as_millis()).ok()?)
}
