//! The loop of a worker.
ghost use Rattle.std.specs.Prelude.{◌≡◌, ◌≤◌, ◌+◌, ◌++◌, ◌∷◌, [], List, OnOk, OnErr, filter};
ghost use Rattle.node_words.specs.declared.action.Action.{Action};
ghost use Rattle.plain_node.specs.Memory.{is_no_send};
ghost use Rattle.node_book.specs.Told.{Told, passing};
ghost use Rattle.fetch_worker.specs.Working.{FailsUnknown, AnswersJob, AnswersJobs, Breaks, Stops};

use crate::NoMemory;
use crate::fetcher::{Fetcher, Job};
use crate::results::{Attempt, WorkFault, submit_result};
use crossbeam_channel::Receiver;
use node_book::{Clerk, Gate};
use node_core::{Action, Out, Outcome};
use object_store::{Object, SharedObject};
use std::alloc::Global;
use std::sync::Wait;
use std::time::Clock;

/// Answers jobs one after another until the channel is closed. Errors: allocation failure in submitting a failure or passing an
/// action on; the clerk has no more event numbers. What was done before an error stands.
pub fn work<R: Wait + Clock, F: Fetcher, G: Gate, C: Clerk>(
    rt: &R,
    alloc: Global,
    jobs: &Receiver<Job, Global>,
    fetcher: &mut F,
    gate: &G,
    clerk: &mut C,
) -> Result<(), WorkFault>
    ensures all { OnOk result ((answered : List Action) × AnswersJobs (C.told clerk.old) (C.told clerk.new) answered) }
    ensures some { OnErr result ((answered : List Action) × (between : Told) × AnswersJobs (C.told clerk.old) between answered ×
        Stops between (C.told clerk.new)) }
{
    let mut out = Out::new(alloc)?;
    for answered in 0..u64::MAX {
        let Ok(job) = jobs.recv(rt) else {
            return Ok(());
        };
        answer(rt, alloc, &job, fetcher, gate, clerk, &mut out)?;
    }
    Ok(())
}

/// Answers one job: asks the clerk for the key, fetches, waits at the gate, submits the result and passes its actions on. The
/// fetch has failed if there is no key or no memory for its result. No lock is held while it fetches or waits. A job that is not
/// a `Fetch` is ignored. `out` is a buffer for the actions. Errors: as `work`.
pub fn answer<R: Clock, F: Fetcher, G: Gate, C: Clerk>(
    rt: &R,
    alloc: Global,
    job: &Job,
    fetcher: &mut F,
    gate: &G,
    clerk: &mut C,
    out: &mut Out,
) -> Result<(), WorkFault>
    ensures answered { OnOk result (AnswersJob (C.told clerk.old) (C.told clerk.new) job.now.action []) }
    ensures refused { OnErr result (Breaks (C.told clerk.old) (C.told clerk.new) job.now.action) }
    ensures once { C.taken clerk.new ≤ C.taken clerk.old + 1 }
{
    let Action::Fetch { fetch, attempt, .. } = &job.action else {
        return Ok(());
    };
    let of = Attempt {
        fetch: *fetch,
        attempt: *attempt,
    };
    let outcome = outcome_of(alloc, of.fetch, job, fetcher, clerk);
    let _has_waited = gate.hold(of.fetch);
    submit_result(rt, alloc, of, outcome, clerk, out)?;
    pass_on(alloc, clerk, out.actions())?;
    Ok(())
}

/// Asks for the key of a fetch and fetches its object. The outcome is `Failed` if either is missing.
fn outcome_of<F: Fetcher, C: Clerk>(
    alloc: Global,
    fetch: u32,
    job: &Job,
    fetcher: &mut F,
    clerk: &mut C,
) -> Outcome
    ensures unknown { FailsUnknown (C.told clerk.old) fetch result }
    ensures same { C.told clerk.new ≡ C.told clerk.old }
    ensures counted { C.taken clerk.new ≡ C.taken clerk.old }
{
    let Ok(key) = clerk.key_of(alloc, fetch) else {
        return Outcome::Failed;
    };
    let Some(key) = key else {
        return Outcome::Failed;
    };
    match fetcher.get(&job.action, &key, job.fields.as_slice()) {
        Some(object) => shared(alloc, object),
        None => Outcome::Failed,
    }
}

/// The outcome of a fetched object: a shared object, or `Failed` on allocation failure.
fn shared(alloc: Global, object: Object) -> Outcome {
    match SharedObject::new(alloc, object) {
        Ok(object) => Outcome::Object(object),
        Err(_) => Outcome::Failed,
    }
}

/// Passes on the actions that are not sends, in order. Errors: allocation failure; a prefix of them was passed on.
fn pass_on<C: Clerk>(alloc: Global, clerk: &mut C, actions: &[Action]) -> Result<(), NoMemory>
    ensures all { OnOk result (C.told clerk.new ≡ passing (filter is_no_send actions.now) (C.told clerk.old)) }
    ensures some { OnErr result ((done : List Action) × (left : List Action) × (filter is_no_send actions.now ≡ done ++ left) ×
        (C.told clerk.new ≡ passing done (C.told clerk.old))) }
    ensures same { C.taken clerk.new ≡ C.taken clerk.old }
{
    for action in actions {
        pass_one(alloc, clerk, action)?;
    }
    Ok(())
}

/// Passes an action on unless it is a send.
fn pass_one<C: Clerk>(alloc: Global, clerk: &mut C, action: &Action) -> Result<(), NoMemory>
    ensures done { OnOk result (C.told clerk.new ≡ passing (filter is_no_send (action.now ∷ [])) (C.told clerk.old)) }
    ensures refused { OnErr result (C.told clerk.new ≡ C.told clerk.old) }
    ensures same { C.taken clerk.new ≡ C.taken clerk.old }
{
    match action {
        Action::Send { .. } => Ok(()),
        Action::Fetch { .. } | Action::Serve { .. } => clerk.pass(alloc, action),
    }
}
