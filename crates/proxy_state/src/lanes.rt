//! The ways to the threads that fetch.
use futures::channel::mpsc::UnboundedSender;
use http_traffic::{Job, Order, Passage, Server};
use name_lookup::{NameCounts, NameDesk, NotTaken, hand_over, pass_over, server_of};
use server_connections::Attempts;
use std::alloc::Global;
use std::net::IpAddr;
use std::sync::{Mutex, Wait};
use std::time::Clock;
use traffic_figures::AttemptFigures;

/// Senders to the threads that fetch. Generic over that to those that look up names and over one, since the prover does not look behind a type
/// parameter (docs/GATE.md).
pub struct Lanes<N, J> {
    /// To the threads that look up names.
    pub names: N,
    /// To each fetch thread, by index.
    pub jobs: Vec<J>,
}

// Written by hand, so that what lets it go is one call for the prover (docs/GATE.md).
impl<N: Drop, J: Drop> Drop for Lanes<N, J> {
    fn drop(self) {
        let Self { names: _, jobs: _ } = self;
    }
}

/// The ways to the threads that fetch. Generic as `Lanes` is.
pub struct Ways<N, J> {
    // `None` before these threads start and after `close`. Locked while an order is sent.
    lanes: Mutex<Option<Lanes<N, J>>>,
}

/// The same to the threads of this program.
pub type Fetchers = Ways<NameDesk, UnboundedSender<Job>>;

// Written by hand, so that what lets it go is one call for the prover (docs/GATE.md).
impl<N: Drop, J: Drop> Drop for Ways<N, J> {
    fn drop(self) {
        let Self { lanes: _lanes } = self;
    }
}

impl<N: Drop, J: Drop> Ways<N, J> {
    /// No thread fetches yet.
    pub fn none() -> Ways<N, J> {
        Ways {
            lanes: Mutex::new(None),
        }
    }

    /// Sends orders these ways from now on.
    pub fn open<R: Wait>(&self, rt: &R, lanes: Lanes<N, J>) {
        *self.lanes.lock(rt) = Some(lanes);
    }

    /// Accepts no more orders.
    pub fn close<R: Wait>(&self, rt: &R) {
        let lanes = self.lanes.lock(rt).take();
        drop(lanes);
    }

    /// What is counted of the attempts to connect that go beside others. `None` before these threads start and after `close`.
    pub fn attempts<R: Wait>(&self, rt: &R, attempts: &Attempts) -> Option<AttemptFigures> {
        if self.lanes.lock(rt).is_none() {
            return None;
        }
        Some(AttemptFigures {
            under_way: attempts.under_way(),
            begun: attempts.begun(),
            held: attempts.refused(),
        })
    }
}

impl<J> Ways<NameDesk, J> {
    /// How many names wait and are being looked up. Returns `None` before these threads start and after `close`.
    pub fn name_counts<R: Wait>(&self, rt: &R) -> Option<NameCounts> {
        let lanes = self.lanes.lock(rt);
        match &*lanes {
            Some(lanes) => Some(lanes.names.counts(rt)),
            None => None,
        }
    }

    /// The server of this name, for this client. Errors: there is no way to it.
    pub fn server_of<R: Wait + Clock>(
        &self,
        rt: &R,
        alloc: Global,
        name: &str,
        port: u16,
        asker: Option<IpAddr>,
    ) -> Result<Server, NotTaken> {
        let lanes = self.lanes.lock(rt);
        match &*lanes {
            Some(lanes) => server_of(rt, alloc, &lanes.names, name, port, asker),
            None => Err(NotTaken::Way),
        }
    }
}

impl Ways<NameDesk, UnboundedSender<Job>> {
    /// Sends an order to a fetch thread, for the server of this name. Errors: it was not taken.
    pub fn send<R: Wait + Clock>(
        &self,
        rt: &R,
        alloc: Global,
        name: String,
        port: u16,
        order: Order,
    ) -> Result<(), NotTaken> {
        match &*self.lanes.lock(rt) {
            Some(lanes) => {
                let (names, jobs) = (&lanes.names, lanes.jobs.as_slice());
                hand_over(rt, alloc, names, jobs, name, port, order)
            }
            None => {
                drop(name);
                drop(order);
                Err(NotTaken::Way)
            }
        }
    }

    /// Sends a request of this client that is passed on to a fetch thread, that of `number`. Errors: it was not taken.
    pub fn pass_on<R: Wait + Clock>(
        &self,
        rt: &R,
        alloc: Global,
        number: u64,
        name: &str,
        port: u16,
        asker: Option<IpAddr>,
        passage: Passage,
    ) -> Result<(), NotTaken> {
        let lanes = self.lanes.lock(rt);
        let Some(lanes) = &*lanes else {
            drop(passage);
            return Err(NotTaken::Way);
        };
        let (names, jobs) = (&lanes.names, lanes.jobs.as_slice());
        pass_over(rt, alloc, names, jobs, number, name, port, asker, passage)
    }
}
