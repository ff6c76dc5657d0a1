//! A running proxy.
use crate::ending::Ending;
use crate::fault::{ServeFault, no_memory};
use crate::limits::{ENDS, MOST_CLIENT_THREADS, THREADS};
use crate::shutdown::Finish;
use crate::writing::Writings;
use crossbeam_channel::{Receiver, Sender, bounded};
use filter_slots::End;
use futures::channel::oneshot;
use node_book::Seat;
use proxy_node::{AtDesk, ThreadSeat};
use proxy_state::{Shared, close};
use query_handles::Bell;
use std::alloc::{AllocError, Global};
use std::net::SocketAddr;
use std::sync::atomic::{AtomicBool, Ordering};
use std::sync::ledger::Ledger;
use std::sync::{Arc, Wait};
use std::thread::{JoinHandle, Threads};
use std::time::Clock;

/// The addresses that a proxy listens on, with the ports that the system chose.
#[derive(Clone, Copy)]
pub struct Addresses {
    /// Of ICP's socket.
    pub icp: End,
    /// Of HTCP's socket.
    pub htcp: End,
    /// Of the socket for clients.
    pub clients: SocketAddr,
    /// Of the socket for administrators.
    pub administration: SocketAddr,
}

/// A running proxy. `S` is the state that its threads share, `H` what it holds of them: what has no need of that is generic over it, since the
/// prover does not look behind a type parameter (docs/GATE.md).
#[derive(Drop)]
pub struct SiteOf<S, H> {
    /// What the threads share.
    pub proxy: Arc<S>,
    /// The addresses that the proxy listens on, once all are bound.
    pub addresses: Option<Addresses>,
    /// Its threads, and the seats that are spare.
    pub held: H,
    /// What writes the access log and the notices, which ends last.
    pub writings: Writings,
    /// Ends the thread of the query sockets.
    pub is_ended: Arc<AtomicBool>,
    /// Wakes that thread, once it is started.
    pub bell: Option<Bell>,
    /// End the threads that serve clients.
    pub stop_clients: Vec<oneshot::Sender<()>>,
    /// Ends the thread that serves administration, once it is started.
    pub stop_administration: Option<oneshot::Sender<()>>,
    ends: Ends,
}

/// What a proxy holds of its threads.
#[derive(Drop)]
pub struct Held<L: Ledger> {
    // The threads with a seat but those that serve clients.
    pub(crate) threads: Vec<JoinHandle<Ending<L>>>,
    /// The threads that serve clients, which end before the others.
    pub clients: Vec<JoinHandle<Ending<L>>>,
    /// Seats of threads that were not started.
    pub spare: Vec<Seat<L>>,
}

/// A running proxy, with its threads.
pub type Site<S, L> = SiteOf<S, Held<L>>;

/// What asks the proxy to end, after the last answer or from a thread that ends, and what hears of that.
#[derive(Drop)]
pub struct Ends {
    end: Sender<(), Global>,
    heard: Receiver<(), Global>,
}

/// What asks a proxy to end, for the state that the threads share, and the proxy's own part of that. Errors: out of memory.
pub fn ends_of(alloc: Global) -> Result<(Sender<(), Global>, Ends), AllocError> {
    let (end, heard) = bounded(alloc, ENDS)?;
    Ok((end.clone()?, Ends { end, heard }))
}

impl<S: Drop, L: Ledger> SiteOf<S, Held<L>> {
    /// A proxy around the shared state and the seats that were made, which has no thread yet. Errors: that of `made`, or out of memory.
    pub fn around(
        alloc: Global,
        made: Result<(S, Vec<Seat<L>>), ServeFault>,
        ends: Ends,
    ) -> Result<SiteOf<S, Held<L>>, ServeFault> {
        let (proxy, seats) = made?;
        match held_of(alloc, seats) {
            Ok(held) => site_with(alloc, proxy, held, ends).map_err(no_memory),
            Err(_) => {
                drop(proxy);
                drop(ends);
                Err(ServeFault::NoMemory)
            }
        }
    }

    /// The next free seat, with the shared state.
    pub fn seat(&mut self) -> Result<ThreadSeat<S, L>, ServeFault> {
        let Some(seat) = self.held.spare.pop() else {
            return Err(ServeFault::NoMemory);
        };
        match Arc::try_clone(&self.proxy) {
            Ok(proxy) => Ok(ThreadSeat { proxy, seat }),
            Err(_) => {
                drop(seat);
                Err(ServeFault::NoMemory)
            }
        }
    }

    /// Keeps the handle of a thread.
    pub fn keep(&mut self, thread: JoinHandle<Ending<L>>) -> Result<(), ServeFault>
    where
        L: Send + Sync + 'static,
    {
        match self.held.threads.push(thread) {
            Ok(()) => Ok(()),
            Err(_) => Err(ServeFault::NoMemory),
        }
    }
}

/// No threads as yet, and these seats. Errors: out of memory.
fn held_of<L: Ledger>(alloc: Global, spare: Vec<Seat<L>>) -> Result<Held<L>, AllocError> {
    Ok(Held {
        threads: Vec::with_capacity(alloc, THREADS)?,
        clients: Vec::with_capacity(alloc, MOST_CLIENT_THREADS)?,
        spare,
    })
}

/// A proxy around this state that holds this of its threads. Errors: out of memory.
fn site_with<S: Drop, H: Drop>(
    alloc: Global,
    proxy: S,
    held: H,
    ends: Ends,
) -> Result<SiteOf<S, H>, AllocError> {
    Ok(SiteOf {
        proxy: Arc::new(alloc, proxy)?,
        addresses: None,
        held,
        writings: Writings {
            log: None,
            notices: None,
        },
        is_ended: Arc::new(alloc, AtomicBool::new(false))?,
        bell: None,
        stop_clients: Vec::with_capacity(alloc, MOST_CLIENT_THREADS)?,
        stop_administration: None,
        ends,
    })
}

impl<S, H> SiteOf<S, H> {
    /// The addresses that the proxy listens on.
    pub fn addresses(&self) -> Option<Addresses> {
        self.addresses
    }

    /// Has the logs written from now on. What was told for them before waits until this is called or the proxy ends.
    pub fn begin_logs<R: Wait>(&self, rt: &R) {
        self.writings.begin(rt);
    }

    /// One more owner of the shared state.
    pub fn share(&self) -> Result<Arc<S>, ServeFault> {
        Arc::try_clone(&self.proxy).map_err(no_memory)
    }

    /// One more sender that asks the proxy to end.
    pub fn ender(&self) -> Result<Sender<(), Global>, ServeFault> {
        self.ends.end.clone().map_err(no_memory)
    }

    // Ends the thread of the query sockets.
    fn end_queries(&self) {
        self.is_ended.store(true, Ordering::SeqCst);
        if let Some(bell) = &self.bell {
            bell.ring();
        }
    }
}

impl<S: AtDesk<L>, L: Ledger + Send + Sync + 'static> SiteOf<S, Held<L>> {
    /// Waits until the last answer is given, an administrator ends the proxy or a thread ends, then shuts the proxy down.
    pub fn finish<R: Threads + Wait + Clock + Copy>(self, rt: R) -> Result<Finish, ServeFault> {
        let _ = self.ends.heard.recv(&rt);
        let was_asked = self.proxy.stopping().is_stopping.load(Ordering::SeqCst);
        if !was_asked {
            self.end_queries();
            close(&rt, &*self.proxy);
        }
        let (report, written) = self.shut(rt)?;
        Ok(Finish {
            report,
            was_asked,
            is_logged: written.is_logged,
            is_told: written.is_told,
        })
    }
}
