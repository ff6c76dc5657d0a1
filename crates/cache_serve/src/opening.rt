//! A proxy whose threads are being started.

mod administration;
mod clients;
mod fetchers;
mod queries;

use crate::config::ThreadConfig;
use crossbeam_channel::{Receiver, Sender, unbounded};
use filter_slots::End;
use filter_text::Filter;
use futures::channel::oneshot;
use http_rules::SixEnd;
use name_lookup::NameDesk;
use node_words::Event;
use proxy_node::{AtDesk, NodeHandle, Overseen, ThreadSeat};
use proxy_setup::{Ending, Orders, ServeFault, ServerOrders, Site, SiteOf, no_memory};
use proxy_state::{Shared, TakeEvents, add_own, note_own_six};
use std::alloc::{AllocError, AllocGlobal, Global};
use std::fs::Files;
use std::net::{IpAddr, Net, SocketAddr};
use std::random::RandomSource;
use std::sync::ledger::Ledger;
use std::sync::{Arc, Wait};
use std::thread::{JoinHandle, Threads};
use std::time::Clock;

/// The handle of a thread that was started.
pub(crate) type Begun<L> = Result<JoinHandle<Ending<L>>, ServeFault>;

/// A proxy whose threads are being started. `I` is its site: what has no need of that, or of what the site holds of its threads, is generic over
/// it, since the prover does not look behind a type parameter (docs/GATE.md).
pub(crate) struct OpeningOf<R, I> {
    rt: R,
    pub(crate) alloc: Global,
    pub(crate) config: ThreadConfig,
    pub(crate) site: I,
}

/// A proxy whose threads are being started, and share the state `S`.
pub(crate) type Opening<R, S, L> = OpeningOf<R, Site<S, L>>;

// Written by hand, so that what lets it go is one call for the prover (docs/GATE.md).
impl<R: Drop, I: Drop> Drop for OpeningOf<R, I> {
    fn drop(self) {
        let Self {
            rt: _,
            alloc: _,
            config: _,
            site: _,
        } = self;
    }
}

/// The addresses of the query sockets.
#[derive(Clone, Copy)]
struct QueryEnds {
    icp: End,
    htcp: End,
}

/// The addresses of the query sockets, and that of the socket for clients.
#[derive(Clone, Copy)]
struct FrontEnds {
    queries: QueryEnds,
    clients: SocketAddr,
}

/// What the thread of a server has of the one that starts it.
#[derive(Drop)]
struct ServerEnd {
    bound: Sender<SocketAddr, Global>,
    stopped: oneshot::Receiver<()>,
    end: Sender<(), Global>,
}

/// What the thread that starts a server has of that server's.
#[derive(Drop)]
struct ServerLine {
    heard: Receiver<SocketAddr, Global>,
    stop: oneshot::Sender<()>,
}

impl<R: Drop, S: AtDesk<L>, L: Ledger + Send + Sync + 'static> OpeningOf<R, Site<S, L>> {
    /// The proxy, if its threads were started. Else they are ended.
    pub(crate) fn into_site(self, opened: Result<(), ServeFault>) -> Result<Site<S, L>, ServeFault>
    where
        R: Threads + Wait + Clock + Copy,
    {
        let Self {
            rt,
            alloc: _,
            config: _,
            site,
        } = self;
        match opened {
            Ok(()) => Ok(site),
            Err(fault) => Err(told_at_end(rt, site, fault)),
        }
    }
}

impl<R, S: Drop, L: Ledger + Send + Sync + 'static> OpeningOf<R, Site<S, L>> {
    /// Keeps the handle of a thread, if it was started.
    fn keep(&mut self, begun: Begun<L>) -> Result<(), ServeFault> {
        match begun {
            Ok(thread) => self.site.keep(thread),
            Err(fault) => Err(fault),
        }
    }
}

impl<R, S, H> OpeningOf<R, SiteOf<S, H>> {
    /// How a server's thread and this one hear of each other.
    fn server_line(&self) -> Result<(ServerEnd, ServerLine), ServeFault> {
        let end = self.site.ender()?;
        line_to(self.alloc, end).map_err(no_memory)
    }
}

impl<R, S: Shared, L: Ledger> OpeningOf<R, Site<S, L>> {
    /// The shared state for one more thread, and a seat for it.
    fn share_and_seat(&mut self) -> Result<(Arc<S>, ThreadSeat<S, L>), ServeFault> {
        let proxy = self.site.share()?;
        match self.site.seat() {
            Ok(seat) => Ok((proxy, seat)),
            Err(fault) => {
                drop(proxy);
                Err(fault)
            }
        }
    }
}

impl<R: Wait, S: Shared, H> OpeningOf<R, SiteOf<S, H>> {
    /// Has a bound socket never fetched from.
    fn add_own(&self, bound: SocketAddr) -> Result<(), ServeFault> {
        let IpAddr::V4(address) = bound.ip() else {
            return Ok(());
        };
        let end = End {
            addr: address.octets(),
            port: bound.port(),
        };
        add_own(&self.rt, &*self.site.proxy, end).map_err(no_memory)
    }

    /// Has the socket for clients at an address of IPv6, which has the same port as the one that is bound here, never fetched from.
    fn note_own_six(&self, bound: SocketAddr) {
        if let Some(address) = self.config.six {
            let end = SixEnd {
                address: address.to_bits(),
                port: bound.port(),
            };
            note_own_six(&self.rt, &*self.site.proxy, end);
        }
    }
}

impl<R: Wait + Clock + Copy, S: AtDesk<L>, L: Ledger> OpeningOf<R, Site<S, L>> {
    /// Installs the filters, if the threads that come before are started. Returns what has names looked up.
    fn installed(
        &mut self,
        filters: Vec<Filter>,
        names: Result<NameDesk, ServeFault>,
    ) -> Result<NameDesk, ServeFault> {
        match names {
            Ok(names) => match self.install(filters) {
                Ok(()) => Ok(names),
                Err(fault) => {
                    drop(names);
                    Err(fault)
                }
            },
            Err(fault) => {
                drop(filters);
                Err(fault)
            }
        }
    }

    /// Installs filters, as events of the node.
    fn install(&mut self, filters: Vec<Filter>) -> Result<(), ServeFault> {
        match self.site.seat() {
            Ok(seat) => self.install_from(seat, filters),
            Err(fault) => {
                drop(filters);
                Err(fault)
            }
        }
    }

    /// Installs filters from this seat, which is spare again afterwards.
    fn install_from(
        &mut self,
        seat: ThreadSeat<S, L>,
        filters: Vec<Filter>,
    ) -> Result<(), ServeFault> {
        let mut node = NodeHandle::new(self.rt, self.alloc, seat, None);
        let installed = install_all(&mut node, filters);
        let kept = self.site.held.spare.push(node.into_seat());
        let is_kept = kept.is_ok();
        drop(kept);
        if is_kept {
            installed
        } else {
            Err(ServeFault::NoMemory)
        }
    }
}

impl<R, S, L> OpeningOf<R, Site<S, L>>
where
    L: Ledger + Send + Sync + 'static,
    S: AtDesk<L> + Overseen + Send + Sync + 'static,
    R: Threads + Wait + Net + Clock + RandomSource + AllocGlobal + Files + Copy + Send + 'static,
    R::Stream: Send + 'static,
    R::Listener: Send + 'static,
    R::File: Send + 'static,
    R::Dir: Send + 'static,
{
    /// Installs the filters, then starts the threads that fetch, and last those that have sockets of this proxy: that of the query sockets
    /// before those that serve clients, since these have queries sent. Each step is given whether the one before it was made, and what came
    /// of that; after one that was not the others are left out.
    pub(crate) fn open(
        &mut self,
        filters: Vec<Filter>,
        names: Result<NameDesk, ServeFault>,
        servers: ServerOrders,
    ) -> Result<(), ServeFault> {
        let ServerOrders {
            rules,
            keeping,
            hurry,
        } = servers;
        let names = self.installed(filters, names);
        let fetching = self.open_fetchers(names);
        let queries = self.open_queries(fetching);
        let clients = self.open_clients(queries, rules, hurry);
        self.open_administration(clients, keeping)
    }
}

/// A proxy around the site that was made, and what its threads are started with.
pub(crate) fn opening_of<R: Drop, I, F: Drop>(
    rt: R,
    alloc: Global,
    config: ThreadConfig,
    site: Result<I, ServeFault>,
    orders: Orders<F>,
) -> Result<(OpeningOf<R, I>, Orders<F>), ServeFault> {
    match site {
        Ok(site) => {
            let opening = OpeningOf {
                rt,
                alloc,
                config,
                site,
            };
            Ok((opening, orders))
        }
        Err(fault) => {
            drop(orders);
            Err(fault)
        }
    }
}

/// Ends the threads of a proxy that did not start. Returns what they tell of why, or else this fault: a server's thread tells more of
/// why its socket was not bound.
fn told_at_end<R, S, L>(rt: R, site: Site<S, L>, fault: ServeFault) -> ServeFault
where
    R: Threads + Wait + Clock + Copy,
    S: AtDesk<L>,
    L: Ledger + Send + Sync + 'static,
{
    match site.shut(rt) {
        Ok(ended) => {
            drop(ended);
            fault
        }
        Err(told) => told,
    }
}

/// How a server's thread, which has this to ask the proxy to end, and the one that starts it hear of each other. Errors: out of memory.
fn line_to(alloc: Global, end: Sender<(), Global>) -> Result<(ServerEnd, ServerLine), AllocError> {
    let (stop, stopped) = oneshot::channel(alloc)?;
    let (bound, heard) = unbounded(alloc)?;
    let there = ServerEnd {
        bound,
        stopped,
        end,
    };
    Ok((there, ServerLine { heard, stop }))
}

/// Submits the swap of each filter. Errors: out of memory.
fn install_all<N: TakeEvents>(node: &mut N, filters: Vec<Filter>) -> Result<(), ServeFault> {
    for filter in filters {
        if node.take(swap_to(filter)).is_none() {
            return Err(ServeFault::NoMemory);
        }
    }
    Ok(())
}

/// The event that has this filter in force.
fn swap_to(filter: Filter) -> Event {
    let Filter { slot, program } = filter;
    Event::Swap {
        slot,
        program: Some(program),
    }
}
