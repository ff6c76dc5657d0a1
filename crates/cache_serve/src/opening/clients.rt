//! Starting the threads that serve clients.
use super::{Begun, FrontEnds, OpeningOf, QueryEnds, ServerEnd, ServerLine};
use crate::clients::{ClientTask, FrontTask, ServingTask};
use crate::config::ThreadConfig;
use crate::starting::begin;
use crate::tasks::fault_at;
use client_streams::Stops;
use crossbeam_channel::{Receiver, Sender};
use http_clients::{ClientSocket, client_sockets, listen_at_six};
use proxy_node::{AtDesk, Outbox, ThreadSeat};
use proxy_setup::{Port, ServeFault, Site, SiteOf};
use proxy_state::{FrontRules, Shared};
use std::alloc::{AllocError, AllocGlobal, Global};
use std::io::ErrorKind;
use std::net::{Net, SocketAddr};
use std::random::RandomSource;
use std::sync::ledger::Ledger;
use std::sync::{Arc, Wait};
use std::thread::Threads;
use std::time::Clock;
use std::vec::IntoIter;
use tokio_util::sync::CancellationToken;

/// What a thread that serves clients has of the shared state.
#[derive(Drop)]
struct ClientShare<S, L: Ledger> {
    kit: ClientKit,
    name: String,
    proxy: Arc<S>,
    seat: ThreadSeat<S, L>,
}

/// What all threads that serve clients have.
#[derive(Drop)]
struct ClientKit {
    rules: Arc<FrontRules>,
    outbox: Outbox,
    hurry: CancellationToken,
}

impl ClientKit {
    /// Rules, a way for datagrams and an early end of the grace for several threads. Errors: out of memory.
    fn new(
        alloc: Global,
        rules: FrontRules,
        outbox: Outbox,
        hurry: CancellationToken,
    ) -> Result<ClientKit, AllocError> {
        match shared_rules(alloc, rules) {
            Ok(rules) => Ok(ClientKit {
                rules,
                outbox,
                hurry,
            }),
            Err(fault) => {
                drop(outbox);
                drop(hurry);
                Err(fault)
            }
        }
    }

    /// The same for one more thread. Errors: out of memory.
    fn share(&self) -> Result<ClientKit, AllocError> {
        let rules = Arc::try_clone(&self.rules)?;
        let hurry = self.hurry.clone()?;
        match share_of(&self.outbox) {
            Ok(outbox) => Ok(ClientKit {
                rules,
                outbox,
                hurry,
            }),
            Err(fault) => {
                drop(rules);
                drop(hurry);
                Err(fault)
            }
        }
    }
}

/// What one of the threads that serve clients is started with.
#[derive(Drop)]
struct ClientPlace {
    number: u64,
    socket: ClientSocket,
}

/// What the threads that serve clients are started with.
struct ClientStart {
    kit: ClientKit,
    /// The number of the next thread.
    number: u64,
    sockets: IntoIter<ClientSocket>,
    /// What hears from each that was started where it serves clients.
    heard: Vec<Receiver<SocketAddr, Global>>,
}

// Written by hand, so that what lets it go is one call for the prover (docs/GATE.md).
impl Drop for ClientStart {
    fn drop(self) {
        let Self {
            kit: _,
            number: _,
            sockets: _,
            heard: _,
        } = self;
    }
}

impl ClientStart {
    /// What no thread was started with yet: these sockets, one for each. Errors: out of memory.
    fn new(
        alloc: Global,
        kit: ClientKit,
        sockets: Vec<ClientSocket>,
    ) -> Result<ClientStart, AllocError> {
        match Vec::with_capacity(alloc, sockets.len()) {
            Ok(heard) => Ok(ClientStart {
                kit,
                number: 0,
                sockets: sockets.into_iter(),
                heard,
            }),
            Err(fault) => {
                drop(kit);
                drop(sockets);
                Err(fault)
            }
        }
    }

    /// What the next thread is started with. `None` if all are started.
    fn next_place(&mut self) -> Option<ClientPlace> {
        let number = self.number;
        let socket = self.sockets.next()?;
        self.number = number.saturating_add(1);
        Some(ClientPlace { number, socket })
    }
}

impl<R, S: Shared, H> OpeningOf<R, SiteOf<S, H>> {
    /// This kit for one more thread, and the name of the cache.
    fn named(&self, kit: &ClientKit) -> Result<(ClientKit, String), ServeFault> {
        let Ok(kit) = kit.share() else {
            return Err(ServeFault::NoMemory);
        };
        let name = self.site.proxy.outward().name.as_str();
        match String::from_str(self.alloc, name) {
            Ok(name) => Ok((kit, name)),
            Err(_) => {
                drop(kit);
                Err(ServeFault::NoMemory)
            }
        }
    }
}

impl<R, S: Shared, L: Ledger> OpeningOf<R, Site<S, L>> {
    /// The task of a thread that serves clients at this place, and what this one has of it.
    fn client_task(
        &mut self,
        kit: &ClientKit,
        place: ClientPlace,
    ) -> Result<(ClientTask<S, L>, ServerLine), ServeFault> {
        match self.client_parts(kit) {
            Ok((share, there, here)) => Ok((task_of(self.config, share, place, there), here)),
            Err(fault) => {
                drop(place);
                Err(fault)
            }
        }
    }

    /// What a thread that serves clients has of the shared state, and how it and this one hear of each other.
    fn client_parts(
        &mut self,
        kit: &ClientKit,
    ) -> Result<(ClientShare<S, L>, ServerEnd, ServerLine), ServeFault> {
        let (there, here) = self.server_line()?;
        match self.client_share(kit) {
            Ok(share) => Ok((share, there, here)),
            Err(fault) => {
                drop(there);
                drop(here);
                Err(fault)
            }
        }
    }

    /// What a thread that serves clients has of the shared state.
    fn client_share(&mut self, kit: &ClientKit) -> Result<ClientShare<S, L>, ServeFault> {
        let (kit, name) = self.named(kit)?;
        match self.share_and_seat() {
            Ok((proxy, seat)) => Ok(ClientShare {
                kit,
                name,
                proxy,
                seat,
            }),
            Err(fault) => {
                drop(kit);
                drop(name);
                Err(fault)
            }
        }
    }
}

impl<R, S: Drop, L: Ledger + Send + Sync + 'static> OpeningOf<R, Site<S, L>> {
    /// Keeps the handle of a thread that serves clients, if it was started, with what ends it; `start` keeps what hears from it.
    fn keep_client(
        &mut self,
        begun: Begun<L>,
        here: ServerLine,
        start: &mut ClientStart,
    ) -> Result<(), ServeFault> {
        match begun {
            Ok(thread) => {
                let ServerLine { heard, stop } = here;
                // (these have the capacity for all of these threads)
                drop(self.site.held.clients.push(thread));
                drop(self.site.stop_clients.push(stop));
                drop(start.heard.push(heard));
                Ok(())
            }
            Err(fault) => {
                drop(here);
                Err(fault)
            }
        }
    }
}

impl<R: Net + AllocGlobal, I> OpeningOf<R, I> {
    /// What the threads that serve clients are started with, if the query sockets are bound, and where those are.
    fn client_start(
        &self,
        queries: Result<(Outbox, QueryEnds), ServeFault>,
        rules: FrontRules,
        hurry: CancellationToken,
    ) -> Result<(ClientStart, QueryEnds), ServeFault> {
        let (kit, ends) = kit_of(self.alloc, queries, rules, hurry)?;
        match self.start_with(kit) {
            Ok(start) => Ok((start, ends)),
            Err(fault) => Err(fault),
        }
    }

    /// What the threads that serve clients are started with.
    fn start_with(&self, kit: ClientKit) -> Result<ClientStart, ServeFault> {
        match self.bound_sockets() {
            Ok(sockets) => match ClientStart::new(self.alloc, kit, sockets) {
                Ok(start) => Ok(start),
                Err(_) => Err(ServeFault::NoMemory),
            },
            Err(fault) => {
                drop(kit);
                Err(fault)
            }
        }
    }

    /// A handle to the one socket for clients, and to that at an address of IPv6, for each thread that serves them. Errors also if too few
    /// files may be open for any client.
    fn bound_sockets(&self) -> Result<Vec<ClientSocket>, ServeFault> {
        let (limits, threads) = (
            self.config.limits.clients.connections,
            self.config.client_threads,
        );
        if limits.most == 0 {
            return Err(ServeFault::Bind(Port::Clients, ErrorKind::Uncategorized));
        }
        match client_sockets(&self.rt, self.config.clients, limits, threads) {
            Ok(sockets) => self.with_six(sockets),
            Err(error) => Err(fault_at(Port::Clients, error)),
        }
    }

    /// These sockets, which also have handles to that at an address of IPv6 then, if there is to be one.
    fn with_six(&self, sockets: Vec<ClientSocket>) -> Result<Vec<ClientSocket>, ServeFault> {
        let mut sockets = sockets;
        match self.listen_at_six(&mut sockets) {
            Ok(()) => Ok(sockets),
            Err(fault) => {
                drop(sockets);
                Err(fault)
            }
        }
    }

    /// Listens for clients at an address of IPv6 too, if there is one.
    fn listen_at_six(&self, sockets: &mut [ClientSocket]) -> Result<(), ServeFault> {
        let Some(address) = self.config.six else {
            return Ok(());
        };
        match listen_at_six(&self.rt, sockets, address) {
            Ok(()) => Ok(()),
            Err(error) => Err(fault_at(Port::SixClients, error)),
        }
    }
}

impl<R: Wait, S: Shared, H> OpeningOf<R, SiteOf<S, H>> {
    /// Waits until all threads that serve clients do, if they were started. Returns where, and where the query sockets are bound.
    fn opened_clients(
        &self,
        start: ClientStart,
        begun: Result<(), ServeFault>,
        queries: QueryEnds,
    ) -> Result<FrontEnds, ServeFault> {
        let opened = self.heard_of_clients(begun, start.heard.as_slice());
        drop(start);
        let clients = opened?;
        self.add_own(clients)?;
        self.note_own_six(clients);
        Ok(FrontEnds { queries, clients })
    }

    /// Where clients are served, once all threads do that report it here, if they were started.
    fn heard_of_clients(
        &self,
        begun: Result<(), ServeFault>,
        heard: &[Receiver<SocketAddr, Global>],
    ) -> Result<SocketAddr, ServeFault> {
        begun?;
        let mut address = self.config.clients;
        for line in heard {
            let Ok(bound) = line.recv(&self.rt) else {
                return Err(ServeFault::Bind(Port::Clients, ErrorKind::Other));
            };
            address = bound;
        }
        Ok(address)
    }
}

impl<R, S, L> OpeningOf<R, Site<S, L>>
where
    L: Ledger + Send + Sync + 'static,
    S: AtDesk<L> + Send + Sync + 'static,
    R: Threads + Wait + Net + Clock + RandomSource + AllocGlobal + Copy + Send + 'static,
    R::Stream: Send + 'static,
    R::Listener: Send + 'static,
{
    /// Binds the sockets for clients, if those for queries are bound, and starts the threads that serve clients there. Returns where both
    /// are, that of IPv4 for clients, once all of these threads serve them.
    pub(super) fn open_clients(
        &mut self,
        queries: Result<(Outbox, QueryEnds), ServeFault>,
        rules: FrontRules,
        hurry: CancellationToken,
    ) -> Result<FrontEnds, ServeFault> {
        let (mut start, ends) = self.client_start(queries, rules, hurry)?;
        let begun = self.begin_clients(&mut start);
        self.opened_clients(start, begun, ends)
    }

    /// Starts the threads that serve clients.
    fn begin_clients(&mut self, start: &mut ClientStart) -> Result<(), ServeFault> {
        for _ in 0..self.config.client_threads {
            let Some(place) = start.next_place() else {
                return Ok(());
            };
            self.begin_client(start, place)?;
        }
        Ok(())
    }

    /// Starts a thread that serves clients at this place.
    fn begin_client(
        &mut self,
        start: &mut ClientStart,
        place: ClientPlace,
    ) -> Result<(), ServeFault> {
        let (task, here) = self.client_task(&start.kit, place)?;
        let begun = begin(self.rt, task);
        self.keep_client(begun, here, start)
    }
}

/// What all threads that serve clients by these rules have, if the query sockets are bound, and where those are.
fn kit_of(
    alloc: Global,
    queries: Result<(Outbox, QueryEnds), ServeFault>,
    rules: FrontRules,
    hurry: CancellationToken,
) -> Result<(ClientKit, QueryEnds), ServeFault> {
    match queries {
        Ok((outbox, ends)) => match ClientKit::new(alloc, rules, outbox, hurry) {
            Ok(kit) => Ok((kit, ends)),
            Err(_) => Err(ServeFault::NoMemory),
        },
        Err(fault) => {
            drop(rules);
            drop(hurry);
            Err(fault)
        }
    }
}

/// Rules for several threads. Errors: out of memory.
fn shared_rules(alloc: Global, rules: FrontRules) -> Result<Arc<FrontRules>, AllocError> {
    Ok(Arc::new(alloc, rules)?)
}

/// The same way for datagrams for one more thread. Errors: out of memory.
fn share_of(outbox: &Outbox) -> Result<Outbox, AllocError> {
    let to = outbox.to.clone()?;
    match outbox.bell.share() {
        Ok(bell) => Ok(Outbox { to, bell }),
        Err(fault) => {
            drop(to);
            Err(fault)
        }
    }
}

/// The task of a thread that serves clients.
fn task_of<S: Drop, L: Ledger>(
    config: ThreadConfig,
    share: ClientShare<S, L>,
    place: ClientPlace,
    there: ServerEnd,
) -> ClientTask<S, L> {
    let ClientShare {
        kit,
        name,
        proxy,
        seat,
    } = share;
    let ClientKit {
        rules,
        outbox,
        hurry,
    } = kit;
    let (serving, number, end) = serving_of(name, place, there, hurry);
    ClientTask {
        seat,
        outbox,
        front: FrontTask {
            proxy,
            rules,
            config,
            number,
        },
        serving,
        end,
    }
}

/// What a thread serves clients with at this place, the number of the thread, and what asks the proxy to end.
fn serving_of(
    name: String,
    place: ClientPlace,
    there: ServerEnd,
    hurry: CancellationToken,
) -> (ServingTask, u64, Sender<(), Global>) {
    let ClientPlace { number, socket } = place;
    let ServerEnd {
        bound,
        stopped,
        end,
    } = there;
    let serving = ServingTask {
        name,
        socket,
        bound,
        stops: Stops {
            stop: stopped,
            hurry: Some(hurry),
        },
    };
    (serving, number, end)
}
