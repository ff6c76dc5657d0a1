//! The interface to what receives and sends datagrams.
ghost use Rattle.std.specs.Prelude.{◌≡◌, ◌∷◌, [], ℕ, IfOk, OnOk, OnErr};
ghost use Rattle.mio_queries.specs.Traffic.{Traffic, receipt_of, grown, faults_after};

use crate::traffic::{Received, WireFault};
use filter_slots::{End, Socket};
use std::alloc::Global;

/// Receives and sends datagrams, and counts its failures. The count is saturating.
pub trait Wire {
    // What is known of the wire's traffic, and its number of failures.
    ghost traffic: { Self → Traffic };

    /// Waits for a datagram for a limited time. Errors: the wire failed; or allocation failure, and nothing was received.
    fn receive(&mut self, alloc: Global) -> Result<Received, WireFault>
        ensures received { IfOk result (λ r. (traffic self.new).received ≡ grown (traffic self.old).received (receipt_of r ∷ [])) }
        ensures refused { OnErr result ((traffic self.new).received ≡ (traffic self.old).received) }
        ensures sent { (traffic self.new).sent ≡ (traffic self.old).sent }
        ensures faults { (traffic self.new).faults ≡ faults_after (traffic self.old).faults result };

    /// Sends a datagram from a socket. Errors: the wire failed, and nothing was sent.
    fn send(&mut self, socket: Socket, to: End, payload: &[u8]) -> Result<(), WireFault>
        ensures received { (traffic self.new).received ≡ (traffic self.old).received }
        ensures sent { OnOk result ((traffic self.new).sent ≡ grown (traffic self.old).sent (record { socket = socket; to = to; payload = payload.now } ∷ [])) }
        ensures refused { OnErr result ((traffic self.new).sent ≡ (traffic self.old).sent) }
        ensures io { OnErr result (result ≡ Err WireFault.Io) }
        ensures faults { (traffic self.new).faults ≡ faults_after (traffic self.old).faults result };
}
