//! An in-memory wire, for tests.
ghost use Rattle.std.specs.Prelude.{◌≡◌, Some, take, IfOk, OnOk, OnErr, [], ◌∷◌, ◌++◌};
ghost use Rattle.mio_queries.specs.Traffic.{Traffic, receipt_of};
ghost use Rattle.mio_queries.specs.Memory.{receipts_of};

use crate::NoMemory;
use crate::traffic::{Received, Sending, WireFault};
use crate::wire::Wire;
use filter_slots::{End, Socket};
use node_core::Payload;
use std::alloc::Global;
use std::sync::Arc;

/// An in-memory wire: it receives the given results, then fails, and it records what it sends.
pub struct MemoryWire {
    alloc: Global,
    answers: Vec<Result<Received, WireFault>>,
    taken: usize,
    failing: Vec<bool>,
    tried: usize,
    sent: Vec<Sending>,
    faults: u64,
}

// Written by hand, so that what lets it go is one call for the prover (docs/GATE.md).
impl Drop for MemoryWire {
    fn drop(self) {
        let Self {
            alloc: _,
            answers: _,
            taken: _,
            failing: _,
            tried: _,
            sent: _,
            faults: _,
        } = self;
    }
}

impl MemoryWire {
    /// A wire whose `receive` returns `answers` in order, then fails. The n-th send fails if the n-th of `failing` is true, and
    /// any send fails on allocation failure.
    pub fn new(
        alloc: Global,
        answers: Vec<Result<Received, WireFault>>,
        failing: Vec<bool>,
    ) -> MemoryWire
        ensures answers { (result.answers.items ≡ answers.items) × (result.taken ≡ 0) }
        ensures failing { (result.failing.items ≡ failing.items) × (result.tried ≡ 0) }
        ensures unused { (result.sent.items ≡ []) × (result.faults ≡ 0) }
    {
        MemoryWire {
            alloc,
            answers,
            taken: 0,
            failing,
            tried: 0,
            sent: Vec::new(alloc),
            faults: 0,
        }
    }

    /// The datagrams sent, in order.
    pub fn sent(&self) -> &[Sending]
        ensures { result.now ≡ self.now.sent.items }
    {
        self.sent.as_slice()
    }

    /// Number of results that `receive` took from the given ones.
    pub fn taken(&self) -> usize
        ensures { result ≡ self.now.taken }
    {
        self.taken
    }

    /// Number of failures of the wire.
    pub fn faults(&self) -> u64
        ensures { result ≡ self.now.faults }
    {
        self.faults
    }
}

impl Wire for MemoryWire {
    ghost traffic = { λ w. record {
      received = Some (receipts_of (take w.taken w.answers.items));
      sent = Some w.sent.items;
      faults = w.faults;
    } };

    fn receive(&mut self, _alloc: Global) -> Result<Received, WireFault> {
        match self.answers.get(self.taken) {
            Some(Ok(received)) => {
                let Ok(shared) = received.share() else {
                    return Err(WireFault::NoMemory);
                };
                self.taken += 1;
                Ok(shared)
            }
            Some(Err(WireFault::NoMemory)) => {
                self.taken += 1;
                Err(WireFault::NoMemory)
            }
            Some(Err(WireFault::Io)) => {
                self.taken += 1;
                self.faults = self.faults.saturating_add(1);
                Err(WireFault::Io)
            }
            None => {
                self.faults = self.faults.saturating_add(1);
                Err(WireFault::Io)
            }
        }
    }

    fn send(&mut self, socket: Socket, to: End, payload: &[u8]) -> Result<(), WireFault> {
        let place = self.tried;
        self.tried = self.tried.saturating_add(1);
        let fails = self.failing.get(place).copied().unwrap_or(false);
        if !fails && self.keep(socket, to, payload).is_ok() {
            return Ok(());
        }
        self.faults = self.faults.saturating_add(1);
        Err(WireFault::Io)
    }
}

impl MemoryWire {
    /// Records a sent datagram. Errors: allocation failure.
    fn keep(&mut self, socket: Socket, to: End, payload: &[u8]) -> Result<(), NoMemory>
        ensures sent { OnOk result (self.new.sent.items ≡ self.old.sent.items ++ record { socket = socket; to = to; payload = payload.now } ∷ []) }
        ensures refused { OnErr result (self.new.sent.items ≡ self.old.sent.items) }
        ensures answers { self.new.answers ≡ self.old.answers }
        ensures taken { self.new.taken ≡ self.old.taken }
        ensures faults { self.new.faults ≡ self.old.faults }
    {
        let payload = Payload::new(payload.to_vec(self.alloc)?);
        self.sent.push(Sending {
            socket,
            to,
            payload,
        })?;
        Ok(())
    }
}

impl Received {
    /// A copy that shares the datagram. Errors: a reference count at its maximum.
    fn share(&self) -> Result<Received, NoMemory>
        ensures { IfOk result (λ shared. receipt_of shared ≡ receipt_of self.now) }
    {
        match self {
            Received::Datagram(datagram, now) => {
                Ok(Received::Datagram(Arc::try_clone(datagram)?, *now))
            }
            Received::Idle(now) => Ok(Received::Idle(*now)),
        }
    }
}
