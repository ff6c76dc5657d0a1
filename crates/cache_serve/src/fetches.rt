//! The threads that fetch.
ghost use Rattle.std.specs.Prelude.{◌<◌};

use crate::config::ThreadConfig;
use crate::limits::FREE_OCTETS;
use crate::tasks::{Ended, Work, ending_of};
use crossbeam_channel::Sender;
use futures::channel::mpsc;
use http_fetches::{Budget, FetchLimits, FetchRules, run_fetches};
use http_traffic::Job;
use node_words::MAX_PENDING_FETCHES;
use proxy_front::Results;
use proxy_node::{AtDesk, NodeHandle, ThreadSeat};
use proxy_setup::{Ending, ServeFault};
use proxy_state::{Origins, Shared, TakeEvents};
use server_connections::KeptShare;
use std::alloc::{AllocGlobal, Global};
use std::io;
use std::net::Net;
use std::random::RandomSource;
use std::sync::ledger::Ledger;
use std::sync::{Arc, RwLock, Wait};
use std::time::Clock;

/// The work of a fetch thread, which owns the connections of its fetches and runs many concurrently.
pub struct FetchTask<S, L: Ledger> {
    pub seat: ThreadSeat<S, L>,
    pub fetching: Fetching<S>,
}

// Written by hand, so that what lets it go is one call for the prover (docs/GATE.md).
impl<S: Drop, L: Ledger> Drop for FetchTask<S, L> {
    fn drop(self) {
        let Self {
            seat: _,
            fetching: _,
        } = self;
    }
}

/// What a fetch thread fetches with.
#[derive(Drop)]
pub struct Fetching<S> {
    pub jobs: mpsc::UnboundedReceiver<Job>,
    pub shares: FetchShares<S>,
    pub config: ThreadConfig,
    /// Receives a message once the thread takes jobs.
    pub opened: Sender<(), Global>,
    pub end: Sender<(), Global>,
}

/// What a fetch thread has together with other threads.
#[derive(Drop)]
pub struct FetchShares<S> {
    /// For the results of the thread's fetches.
    pub proxy: Arc<S>,
    /// For the judge of the servers that these lead to.
    pub judged: Arc<S>,
    /// The lock by which changes of what is stored wait for the results of fetches.
    pub changes: Arc<RwLock<()>>,
    pub budget: Arc<Budget>,
    /// The thread's part in the connections that are kept.
    pub kept: KeptShare,
}

impl<R, S, L> Work<R, L> for FetchTask<S, L>
where
    R: Wait + Net + Clock + RandomSource + AllocGlobal + Copy,
    S: AtDesk<L>,
    L: Ledger,
{
    fn run(self, rt: R) -> Ending<L> {
        let Self { seat, fetching } = self;
        let node = NodeHandle::new(rt, rt.alloc(), seat, None);
        ending_of(fetch(rt, node, fetching))
    }
}

/// The most jobs of a fetch thread at a time: the fetches that a node has pending and all requests that are passed on, so that none
/// waits for another of its thread.
fn at_once(streams: u32) -> usize
    ensures { 0 < result }
{
    MAX_PENDING_FETCHES.saturating_add(streams as usize)
}

/// The limits of the fetches of a thread.
fn fetch_limits(config: ThreadConfig) -> FetchLimits
    ensures { 0 < result.at_once }
{
    FetchLimits {
        octets: config.body_limit,
        free: FREE_OCTETS,
        connecting: config.limits.connecting,
        idle: config.limits.idle,
        speed: config.limits.speed,
        keep: config.limits.keep,
        at_once: at_once(config.streams),
    }
}

/// Runs a fetch thread, until all senders of its jobs are gone and its last fetch has ended.
fn fetch<R, S, N>(rt: R, node: N, fetching: Fetching<S>) -> Ended<N>
where
    R: Wait + Net + Clock + RandomSource + AllocGlobal + Copy,
    S: Shared,
    N: TakeEvents,
{
    let Fetching {
        jobs,
        shares,
        config,
        opened,
        end,
    } = fetching;
    let FetchShares {
        proxy,
        judged,
        changes,
        budget,
        kept,
    } = shares;
    let mut results = Results {
        rt,
        alloc: rt.alloc(),
        proxy,
        node,
        changes,
        has_given_up: false,
        end,
        opened: Some(opened),
    };
    let rules = FetchRules {
        budget,
        kept,
        admit: Origins { rt, proxy: judged },
    };
    let ran = run_fetches(rt, jobs, &mut results, rules, fetch_limits(config));
    let _ = results.end.send(&rt, ());
    fetches_ended(results, ran)
}

/// How the work of a fetch thread ended whose fetches did so.
fn fetches_ended<R: Drop, S: Drop, N: Drop>(
    results: Results<R, S, N>,
    ran: io::Result<()>,
) -> Ended<N> {
    let is_well = ran.is_ok() && !results.has_given_up;
    drop(ran);
    let node = Some(node_of(results));
    if is_well {
        Ended { node, fault: None }
    } else {
        Ended {
            node,
            fault: Some(ServeFault::NoMemory),
        }
    }
}

/// The handle to the node, after which nothing hands in results any more.
fn node_of<R: Drop, S: Drop, N: Drop>(results: Results<R, S, N>) -> N {
    let Results { node, .. } = results;
    node
}
