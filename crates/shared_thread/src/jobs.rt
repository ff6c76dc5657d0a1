//! Runs many jobs concurrently on one thread. How a job starts and what takes its result are behind traits.
ghost use Rattle.std.specs.Prelude.{◌<◌};
ghost use Rattle.futures.specs.Task.{Keeps};

use futures::channel::mpsc::UnboundedReceiver;
use futures::future::ready;
use futures::task::{Context, Poll};
use futures::{Future, StreamExt};
use std::alloc::AllocGlobal;
use std::io;
use std::random::RandomSource;
use std::sync::Wait;
use std::time::Clock;
use tokio::runtime::LocalRuntime;

/// Starts jobs.
pub trait Begin: Drop {
    /// A job to be done.
    type Job: Drop;

    /// The result of a job.
    type Done: Drop;

    /// A job in progress.
    type Running: Future<Output = Self::Done>;

    /// Starts a job. Returns the future of its result.
    fn begin(&mut self, job: Self::Job) -> Self::Running
        ensures { Self.Running.can_poll result };
}

/// Takes results.
pub trait Submit<T>: Drop {
    /// Called once the thread has all that it needs to take jobs.
    fn opened(&mut self) {}

    /// Takes one result. It blocks all other jobs of the thread until it returns.
    fn submit(&mut self, done: T);
}

/// Looks after what the jobs of a thread leave to one another.
pub trait Tend: Drop {
    /// Looks after it, each time that jobs of the thread have run.
    fn poll_tend(&mut self, cx: &mut Context<'_>)
        ensures { Keeps cx.old cx.new };
}

// All jobs of a thread, and what looks after what they leave.
#[derive(Drop)]
struct Tended<F, T> {
    jobs: F,
    tend: T,
}

impl<F: Future, T: Tend> Future for Tended<F, T> {
    type Output = F::Output;

    ghost can_poll = { λ t. F.can_poll t.jobs };

    fn poll(&mut self, cx: &mut Context<'_>) -> Poll<F::Output> {
        let polled = self.jobs.poll(cx);
        if polled.is_pending() {
            self.tend.poll_tend(cx);
        }
        polled
    }
}

/// Runs the jobs of a channel, at most `most` concurrently, until all its senders are gone and the last job has ended. Tells `seat` once
/// it takes them, passes each result to it as soon as it is ready, and has `tend` look after what they leave. Errors: the event loop
/// failed, or out of memory.
pub fn run_jobs<R, B, S, T>(
    rt: &R,
    runtime: &mut LocalRuntime,
    jobs: UnboundedReceiver<B::Job>,
    begin: B,
    seat: &mut S,
    tend: T,
    most: usize,
) -> io::Result<()>
where
    R: Wait + Clock + RandomSource + AllocGlobal,
    B: Begin,
    S: Submit<B::Done>,
    T: Tend,
    requires { 0 < most }
{
    let mut begin = begin;
    let running = jobs
        .map(move |job| begin.begin(job))
        .buffer_unordered(rt.alloc(), most)?;
    seat.opened();
    let jobs = running.for_each(|done| {
        seat.submit(done);
        ready(())
    });
    runtime.block_on(rt, Tended { jobs, tend })
}
