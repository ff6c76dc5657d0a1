//! How many jobs of a thread are under way at a time (shared_thread).
ghost use Rattle.std.specs.Prelude.{◌<◌};

use futures::Future;
use futures::channel::mpsc::{UnboundedReceiver, UnboundedSender, unbounded};
use futures::task::{Context, Poll};
use shared_thread::{Begin, Submit, Tend, run_jobs};
use std::alloc::{AllocGlobal, Global};
use std::io;
use std::net::Net;
use std::random::RandomSource;
use std::sync::Wait;
use std::test::Fail;
use std::time::Clock;
use tokio::runtime::LocalRuntime;

/// A job that has a number, and is done when it is polled once more than so often.
#[derive(Drop)]
struct Work {
    number: u32,
    polls: u32,
}

impl Future for Work {
    type Output = u32;

    fn poll(&mut self, cx: &mut Context<'_>) -> Poll<u32> {
        match self.polls.checked_sub(1) {
            Some(polls) => {
                self.polls = polls;
                cx.yield_now()
            }
            None => Poll::Ready(self.number),
        }
    }
}

/// Begins each job as it comes.
#[derive(Drop)]
struct AsItComes;

impl Begin for AsItComes {
    type Job = Work;

    type Done = u32;

    type Running = Work;

    fn begin(&mut self, job: Work) -> Work {
        job
    }
}

/// The numbers of the jobs that are done, in the order in which they were.
#[derive(Drop)]
struct Ended {
    numbers: Vec<u32>,
}

impl Submit<u32> for Ended {
    fn submit(&mut self, done: u32) {
        let _ = self.numbers.push(done);
    }
}

/// Nothing is left to look after.
#[derive(Drop)]
struct Nothing;

impl Tend for Nothing {
    fn poll_tend(&mut self, _cx: &mut Context<'_>) {}
}

/// How often each job is polled before it is done.
const POLLS: [u32; 4] = [9, 0, 20, 3];

// Sends a job for each of these.
fn send_all(jobs: &UnboundedSender<Work>, all: &[u32]) -> bool {
    let mut number = 0u32;
    for polls in all {
        let work = Work {
            number,
            polls: *polls,
        };
        if jobs.unbounded_send(work).is_err() {
            return false;
        }
        number = number.wrapping_add(1);
    }
    true
}

// Runs these jobs, so many at a time.
fn run_all<R>(
    rt: &R,
    work: UnboundedReceiver<Work>,
    ended: &mut Ended,
    most: usize,
) -> io::Result<()>
where
    R: Wait + Clock + RandomSource + AllocGlobal + Net,
    requires { 0 < most }
{
    let mut runtime = LocalRuntime::new(rt)?;
    let ran = run_jobs(rt, &mut runtime, work, AsItComes, ended, Nothing, most);
    drop(runtime);
    ran
}

// Whether the jobs are done in this order where so many are under way at a time.
fn is_order<R>(rt: &R, alloc: Global, most: usize, wanted: &[u32]) -> io::Result<bool>
where
    R: Wait + Clock + RandomSource + AllocGlobal + Net,
    requires { 0 < most }
{
    let (jobs, work) = unbounded(alloc)?;
    let are_sent = send_all(&jobs, &POLLS);
    drop(jobs);
    let mut ended = Ended {
        numbers: Vec::new(alloc),
    };
    let ran = run_all(rt, work, &mut ended, most);
    let is_order = ended.numbers.as_slice() == wanted;
    drop(ended);
    ran?;
    Ok(are_sent && is_order)
}

/// With one at a time, a job that is done at once waits for one that is not; with two it is done first, and the third begins then.
#[test]
fn no_more_jobs_than_the_limit_says(rt: HostRuntime) -> Result<(), Fail> {
    assert!(rt; is_order(&rt, rt.alloc(), 1, &[0, 1, 2, 3])?);
    assert!(rt; is_order(&rt, rt.alloc(), 2, &[1, 0, 3, 2])?);
    assert!(rt; is_order(&rt, rt.alloc(), 4, &[1, 3, 0, 2])?);
    Ok(())
}
