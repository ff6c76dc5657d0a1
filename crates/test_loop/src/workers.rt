//! Jobs of fetch workers, a fetcher, and what clients were answered.
use crossbeam_channel::Receiver;
use fetch_worker::{Fetcher, Job, WorkFault, work};
use node_book::{Clerk, Gate};
use node_core::{Action, Answer};
use object_store::{CacheKey, Object};
use std::alloc::Global;
use std::sync::Wait;
use std::time::Clock;

/// The job of a fetch action, or `None` for other actions.
pub(crate) fn job_of(alloc: Global, action: &Action) -> Option<Job> {
    match action {
        Action::Fetch {
            fetch,
            attempt,
            source,
            only_if_cached,
            owner,
        } => Some(Job {
            action: Action::Fetch {
                fetch: *fetch,
                attempt: *attempt,
                source: *source,
                only_if_cached: *only_if_cached,
                owner: *owner,
            },
            fields: Vec::new(alloc),
        }),
        _ => None,
    }
}

/// An in-memory fetcher: the object of each key has the key as its body, and stays fresh for a minute.
#[derive(Drop)]
pub(crate) struct Echo {
    pub(crate) alloc: Global,
    pub(crate) fetched: u32,
}

impl Fetcher for Echo {
    fn get(
        &mut self,
        _job: &Action,
        key: &CacheKey,
        _fields: &[(Vec<u8>, Vec<u8>)],
    ) -> Option<Object> {
        self.fetched = self.fetched.saturating_add(1);
        let body = key.as_slice().to_vec(self.alloc).ok()?;
        Some(Object::new(200, Vec::new(self.alloc), body, 0, 60))
    }
}

/// Runs a worker until no jobs are left. Returns why it ended early, if it did.
pub(crate) fn fault_of<R: Wait + Clock, G: Gate, C: Clerk>(
    rt: &R,
    alloc: Global,
    jobs: &Receiver<Job, Global>,
    echo: &mut Echo,
    gate: &G,
    clerk: &mut C,
) -> Option<WorkFault> {
    work(rt, alloc, jobs, echo, gate, clerk).err()
}

/// How many clients were answered: from the store, with an object that was fetched, and with an error.
#[derive(Drop)]
pub(crate) struct AnswerCounts {
    pub(crate) hits: u64,
    pub(crate) got: u64,
    pub(crate) failed: u64,
}

impl AnswerCounts {
    /// Counts an answer.
    fn add(&mut self, answer: &Answer) {
        match answer {
            Answer::Hit { .. } => self.hits = self.hits.saturating_add(1),
            Answer::Got(_) => self.got = self.got.saturating_add(1),
            Answer::Fail(_) => self.failed = self.failed.saturating_add(1),
        }
    }

    /// How many clients were answered.
    pub(crate) fn all(&self) -> u64 {
        self.hits
            .saturating_add(self.got)
            .saturating_add(self.failed)
    }
}

/// How many clients these actions answer.
pub(crate) fn answered(actions: &[Action]) -> AnswerCounts {
    let mut answered = AnswerCounts {
        hits: 0,
        got: 0,
        failed: 0,
    };
    for action in actions {
        if let Action::Serve { answer, .. } = action {
            answered.add(answer);
        }
    }
    answered
}
