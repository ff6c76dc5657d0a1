//! The threads that serve clients.
use crate::config::ThreadConfig;
use crate::tasks::{Ended, Work, end_of, ending_of, lost, shared_of};
use client_streams::Stops;
use crossbeam_channel::Sender;
use http_clients::{ClientSocket, ServeLimits, serve_clients};
use http_traffic::{FollowUp, Front, PassOn};
use proxy_front::{GoodTexts, NodeFront, ServeFront};
use proxy_node::{AtDesk, NodeHandle, Outbox, ThreadSeat};
use proxy_setup::{Ending, Port};
use proxy_state::{FrontRules, KnownKeys, Shared, TakeEvents};
use std::alloc::{AllocError, AllocGlobal, Global};
use std::io;
use std::net::{Net, SocketAddr};
use std::random::RandomSource;
use std::sync::atomic::AtomicUsize;
use std::sync::ledger::Ledger;
use std::sync::{Arc, Mutex, Wait};
use std::time::Clock;

/// The work of a thread that serves clients, which owns their connections.
pub struct ClientTask<S, L: Ledger> {
    pub seat: ThreadSeat<S, L>,
    pub outbox: Outbox,
    pub front: FrontTask<S>,
    pub serving: ServingTask,
    pub end: Sender<(), Global>,
}

// Written by hand, so that what lets it go is one call for the prover (docs/GATE.md).
impl<S: Drop, L: Ledger> Drop for ClientTask<S, L> {
    fn drop(self) {
        let Self {
            seat: _,
            outbox: _,
            front: _,
            serving: _,
            end: _,
        } = self;
    }
}

/// What a thread that serves clients gives the node their requests with.
#[derive(Drop)]
pub struct FrontTask<S> {
    pub proxy: Arc<S>,
    pub rules: Arc<FrontRules>,
    pub config: ThreadConfig,
    /// The thread's number among those that serve clients, from 0 on.
    pub number: u64,
}

/// What a thread that serves clients serves them with.
#[derive(Drop)]
pub struct ServingTask {
    pub name: String,
    pub socket: ClientSocket,
    pub bound: Sender<SocketAddr, Global>,
    pub stops: Stops,
}

impl<R, S, L> Work<R, L> for ClientTask<S, L>
where
    R: Wait + Net + Clock + RandomSource + AllocGlobal + Copy,
    S: AtDesk<L>,
    L: Ledger,
{
    fn run(self, rt: R) -> Ending<L> {
        let Self {
            seat,
            outbox,
            front,
            serving,
            end,
        } = self;
        let node = NodeHandle::new(rt, rt.alloc(), seat, Some(outbox));
        ending_of(answer_clients(rt, node, front, serving, end))
    }
}

/// Runs a thread that serves clients.
fn answer_clients<R, S, N>(
    rt: R,
    node: N,
    front: FrontTask<S>,
    serving: ServingTask,
    end: Sender<(), Global>,
) -> Ended<N>
where
    R: Wait + Net + Clock + RandomSource + AllocGlobal + Copy,
    S: Shared,
    N: TakeEvents,
{
    match client_shares(rt.alloc(), node, &*front.proxy, &end) {
        Ok(shares) => serve_front(rt, shares, front, serving, end),
        Err(_) => {
            drop(front);
            drop(serving);
            lost(&rt, end)
        }
    }
}

/// Serves clients with what the thread shares.
fn serve_front<R, S, N>(
    rt: R,
    shares: ClientShares<N>,
    front: FrontTask<S>,
    serving: ServingTask,
    end: Sender<(), Global>,
) -> Ended<N>
where
    R: Wait + Net + Clock + RandomSource + AllocGlobal + Copy,
    S: Shared,
    N: TakeEvents,
{
    let ClientShares {
        node,
        kept,
        stop,
        connections,
    } = shares;
    let limits = front.config.limits.clients;
    let front = front_of(rt, front, node, stop);
    let ran = front.served_by(ClientServer {
        rt,
        limits,
        serving,
        connections,
    });
    end_of(&rt, kept, ran, Port::Clients, end)
}

/// What gives the node the requests of a thread's clients.
fn front_of<R, S, N>(
    rt: R,
    front: FrontTask<S>,
    node: Arc<Mutex<N>>,
    stop: Sender<(), Global>,
) -> NodeFront<R, S, N>
where
    R: AllocGlobal + Copy,
    S: Drop,
    N: Drop,
{
    let FrontTask {
        proxy,
        rules,
        config,
        number,
    } = front;
    let alloc = rt.alloc();
    NodeFront {
        rt,
        alloc,
        proxy,
        node,
        rules,
        keys: KnownKeys::new(alloc),
        hosts: GoodTexts::new(alloc),
        servers: GoodTexts::new(alloc),
        last: number,
        step: config.client_threads as u64,
        stop_after: config.stop_after,
        stop,
    }
}

/// What a thread that serves clients shares with its server and with others.
#[derive(Drop)]
struct ClientShares<N> {
    node: Arc<Mutex<N>>,
    kept: Arc<Mutex<N>>,
    stop: Sender<(), Global>,
    connections: Arc<AtomicUsize>,
}

/// What a thread that serves clients shares. Errors: out of memory; the handle to the node is dropped.
fn client_shares<S: Shared, N: Drop>(
    alloc: Global,
    node: N,
    proxy: &S,
    end: &Sender<(), Global>,
) -> Result<ClientShares<N>, AllocError> {
    let (node, kept) = shared_of(alloc, node)?;
    match told_by(proxy, end) {
        Ok((stop, connections)) => Ok(ClientShares {
            node,
            kept,
            stop,
            connections,
        }),
        Err(fault) => {
            drop(node);
            drop(kept);
            Err(fault)
        }
    }
}

/// What receives a message when the last answer has been given, and the number of open connections.
fn told_by<S: Shared>(
    proxy: &S,
    end: &Sender<(), Global>,
) -> Result<(Sender<(), Global>, Arc<AtomicUsize>), AllocError> {
    let stop = end.clone()?;
    Ok((stop, Arc::try_clone(&proxy.telling().connections)?))
}

/// Serves clients on their port.
#[derive(Drop)]
struct ClientServer<R> {
    rt: R,
    limits: ServeLimits,
    serving: ServingTask,
    connections: Arc<AtomicUsize>,
}

impl<R> ServeFront for ClientServer<R>
where
    R: Wait + Net + Clock + RandomSource + AllocGlobal + Copy,
{
    fn serve<F: Front + FollowUp + PassOn>(self, front: F) -> io::Result<()> {
        let ClientServer {
            rt,
            limits,
            serving,
            connections,
        } = self;
        let ServingTask {
            name,
            socket,
            bound,
            stops,
        } = serving;
        let label = name.as_str();
        let ran = serve_clients(rt, socket, label, front, bound, stops, connections, limits);
        drop(name);
        ran
    }
}
