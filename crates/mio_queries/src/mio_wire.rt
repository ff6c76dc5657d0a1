//! The wire over the system's sockets.
ghost use Rattle.std.specs.Prelude.{◌≡◌, None, IfOk};
ghost use Rattle.node_core.specs.Counters.{plus};
ghost use Rattle.mio_queries.specs.Traffic.{Traffic};

use crate::NoMemory;
use crate::sockets::{BindFault, Sockets};
use crate::traffic::{Received, WireFault};
use crate::wire::Wire;
use filter_slots::{End, Socket};
use query_handles::{Bell, Timeline};
use std::alloc::{AllocGlobal, Global};
use std::net::Net;
use std::time::Clock;

/// The two non-blocking query sockets of a node. To contracts it reports only its number of failures, not its traffic.
///
/// `receive` alternates between the sockets and waits at most 100 milliseconds if both would block. It returns `Idle` at least
/// once in 100 milliseconds, however many datagrams are waiting, and when its bell rings. A send that
/// would block fails. Times are those of its timeline.
pub struct MioWire<R> {
    sockets: Sockets<R>,
    faults: u64,
}

// Written by hand, so that what lets it go is one call for the prover (docs/GATE.md).
impl<R: Drop> Drop for MioWire<R> {
    fn drop(self) {
        let Self {
            sockets: _,
            faults: _,
        } = self;
    }
}

impl<R: Net + Clock + AllocGlobal + Drop> MioWire<R> {
    /// Binds both sockets. For port 0 the system chooses a port. Errors: an address can't be bound, another system call failed,
    /// or allocation failure.
    pub fn bind(rt: R, timeline: Timeline, icp: End, htcp: End) -> Result<MioWire<R>, BindFault>
        ensures { IfOk result (λ wire. wire.faults ≡ 0) }
    {
        Ok(MioWire {
            sockets: Sockets::bind(rt, timeline, icp, htcp)?,
            faults: 0,
        })
    }

    /// The local address and port of a socket.
    pub fn end(&self, socket: Socket) -> End {
        self.sockets.end(socket)
    }

    /// A handle that wakes `receive` from another thread. Errors: the bell's reference count is at its maximum.
    pub fn bell(&self) -> Result<Bell, NoMemory> {
        self.sockets.bell().share()
    }

    /// Number of failures of the wire.
    pub fn faults(&self) -> u64
        ensures { result ≡ self.now.faults }
    {
        self.faults
    }

    // Counts a failure.
    fn count_fault(&mut self)
        ensures { self.new.faults ≡ plus self.old.faults 1 }
    {
        self.faults = self.faults.saturating_add(1);
    }
}

impl<R: Net + Clock + AllocGlobal + Drop> Wire for MioWire<R> {
    ghost traffic = { λ w. record { received = None; sent = None; faults = w.faults } };

    fn receive(&mut self, alloc: Global) -> Result<Received, WireFault> {
        match self.sockets.receive(alloc) {
            Ok(received) => Ok(received),
            Err(WireFault::NoMemory) => Err(WireFault::NoMemory),
            Err(WireFault::Io) => {
                self.count_fault();
                Err(WireFault::Io)
            }
        }
    }

    fn send(&mut self, socket: Socket, to: End, payload: &[u8]) -> Result<(), WireFault> {
        match self.sockets.send(socket, to, payload) {
            Ok(()) => Ok(()),
            Err(_) => {
                self.count_fault();
                Err(WireFault::Io)
            }
        }
    }
}
