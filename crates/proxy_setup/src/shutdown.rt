//! The end of a proxy: its threads are joined, and the event log is settled.
use crate::ending::Ending;
use crate::fault::ServeFault;
use crate::site::{Held, SiteOf};
use crate::writing::Written;
use futures::channel::oneshot;
use node_book::{Report, Seat};
use proxy_node::AtDesk;
use proxy_state::{Shared, close};
use std::sync::atomic::Ordering;
use std::sync::ledger::Ledger;
use std::sync::{Arc, Wait};
use std::thread::{JoinHandle, Threads};
use std::time::Clock;

/// How a proxy ended.
#[derive(Drop)]
pub struct Finish {
    /// The report of the event log.
    pub report: Report,
    /// Whether an administrator ended it.
    pub was_asked: bool,
    /// Whether all lines of the access log are written. They are not where what it is written to takes nothing.
    pub is_logged: bool,
    /// Whether all notices are written. They are not where standard error takes nothing.
    pub is_told: bool,
}

impl<S: AtDesk<L>, L: Ledger + Send + Sync + 'static> SiteOf<S, Held<L>> {
    /// Stops and joins all threads but those that look up names, and settles the event log. Those that serve clients go first, so that
    /// fetches that are still under way have their grace. Returns the report, and which logs are written to their end.
    pub fn shut<R: Threads + Wait + Clock + Copy>(
        self,
        rt: R,
    ) -> Result<(Report, Written), ServeFault> {
        let SiteOf {
            proxy,
            held,
            writings,
            is_ended,
            bell,
            stop_clients,
            stop_administration,
            ..
        } = self;
        let Held {
            threads,
            clients,
            spare,
        } = held;
        let mut endings = Endings {
            seats: spare,
            fault: None,
        };
        tell_stop(stop_clients);
        endings.join(&rt, clients);
        is_ended.store(true, Ordering::SeqCst);
        if let Some(bell) = &bell {
            bell.ring();
        }
        if let Some(stop) = stop_administration {
            let _ = stop.send(());
        }
        close(&rt, &*proxy);
        endings.join(&rt, threads);
        let settled = settled(proxy, endings);
        let written = writings.finish(&rt);
        Ok((settled?, written))
    }
}

/// What the threads that have ended gave back.
#[derive(Drop)]
struct Endings<L: Ledger> {
    seats: Vec<Seat<L>>,
    fault: Option<ServeFault>,
}

impl<L: Ledger + Send + Sync + 'static> Endings<L> {
    /// Waits until these threads have ended, and adds what they gave back.
    fn join<R: Threads>(&mut self, rt: &R, threads: Vec<JoinHandle<Ending<L>>>) {
        for thread in threads {
            self.add(thread.join(rt));
        }
    }
}

impl<L: Ledger> Endings<L> {
    /// Adds what one more thread gave back. The first fault counts.
    fn add(&mut self, ending: Ending<L>) {
        let Ending { seat, fault } = ending;
        if self.fault.is_none() {
            self.fault = fault;
        }
        if let Some(seat) = seat
            && self.seats.push(seat).is_err()
        {
            self.fault = Some(ServeFault::NoMemory);
        }
    }
}

/// Tells servers to stop.
fn tell_stop(stops: Vec<oneshot::Sender<()>>) {
    for stop in stops {
        let _ = stop.send(());
    }
}

/// Settles the event log, unless a thread ended with a fault.
fn settled<S: AtDesk<L>, L: Ledger>(
    proxy: Arc<S>,
    endings: Endings<L>,
) -> Result<Report, ServeFault> {
    let Endings { seats, fault } = endings;
    if let Some(fault) = fault {
        return Err(fault);
    }
    let Some(proxy) = Arc::into_inner(proxy) else {
        return Err(ServeFault::Settle);
    };
    if proxy.stopping().is_astray.load(Ordering::SeqCst) {
        drop(proxy);
        return Err(ServeFault::Settle);
    }
    match proxy.into_desk().settle(seats) {
        Ok(report) => Ok(report),
        Err(_) => Err(ServeFault::Settle),
    }
}
