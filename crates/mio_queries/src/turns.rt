//! The loop between a wire and a clerk.
ghost use Rattle.std.specs.Prelude.{◌≡◌, ◌+◌, ◌∷◌, [], ℕ, take, OnOk, OnErr, IfOk, IsErrOf};
ghost use Rattle.node_core.specs.Counters.{plus};
ghost use Rattle.std.specs.Arc.{arc_value};
ghost use Rattle.node_core.specs.Happening.{arrives, ticks};
ghost use Rattle.mio_queries.specs.Traffic.{receipt_of, grown};
ghost use Rattle.mio_queries.specs.Pumping.{event_of, HasServed, Try, gone, failures, Counts, Carries, Pumps, Makes, LosesWire, Breaks};

use crate::NoMemory;
use crate::pumped::{PumpFault, Pumped};
use crate::traffic::{Received, WireFault};
use crate::wire::Wire;
use filter_slots::{Datagram, End, Judged, Moment, Socket};
use node_book::{Clerk, SubmitFault};
use node_core::{Action, Event, Out, Payload, append_law};
use std::alloc::Global;
use std::sync::Arc;

/// Makes this many turns. A turn receives once, judges the datagram by the clerk's programs and submits it to the clerk, or
/// submits a timer event if none came. Then it carries out the actions in order: sends by the wire, all others by the clerk. A
/// failed send is only counted. Errors: the wire failed to receive; allocation failure or a reference count at its maximum; the
/// clerk has no more event numbers. What was done before an error stands.
pub fn pump<W: Wire, C: Clerk>(
    alloc: Global,
    wire: &mut W,
    clerk: &mut C,
    turns: u32,
) -> Result<Pumped, PumpFault>
    ensures all { IfOk result (λ pumped. Makes (W.traffic wire.old) (W.traffic wire.new) (C.told clerk.old) (C.told clerk.new) pumped turns) }
    ensures turns { IfOk result (λ pumped. pumped.received + pumped.idle ≡ turns) }
    ensures receive { IsErrOf result PumpFault.Receive → LosesWire (W.traffic wire.old) (W.traffic wire.new) (C.told clerk.old) (C.told clerk.new) turns }
    ensures no_memory { IsErrOf result PumpFault.NoMemory → Breaks (W.traffic wire.old) (W.traffic wire.new) (C.told clerk.old) (C.told clerk.new) turns }
    ensures ended { IsErrOf result PumpFault.Ended → Breaks (W.traffic wire.old) (W.traffic wire.new) (C.told clerk.old) (C.told clerk.new) turns }
{
    let Ok(mut out) = Out::new(alloc) else {
        return Err(PumpFault::NoMemory);
    };
    pump_with(alloc, wire, clerk, &mut out, turns)
}

/// As `pump`, with a buffer for the actions that the caller supplies. Its contents are discarded.
pub fn pump_with<W: Wire, C: Clerk>(
    alloc: Global,
    wire: &mut W,
    clerk: &mut C,
    out: &mut Out,
    turns: u32,
) -> Result<Pumped, PumpFault>
    ensures all { IfOk result (λ pumped. Makes (W.traffic wire.old) (W.traffic wire.new) (C.told clerk.old) (C.told clerk.new) pumped turns) }
    ensures turns { IfOk result (λ pumped. pumped.received + pumped.idle ≡ turns) }
    ensures receive { IsErrOf result PumpFault.Receive → LosesWire (W.traffic wire.old) (W.traffic wire.new) (C.told clerk.old) (C.told clerk.new) turns }
    ensures no_memory { IsErrOf result PumpFault.NoMemory → Breaks (W.traffic wire.old) (W.traffic wire.new) (C.told clerk.old) (C.told clerk.new) turns }
    ensures ended { IsErrOf result PumpFault.Ended → Breaks (W.traffic wire.old) (W.traffic wire.new) (C.told clerk.old) (C.told clerk.new) turns }
{
    let mut pumped = Pumped::ZERO;
    for made in 0..turns {
        append_law();
        turn(alloc, wire, clerk, out, &mut pumped)?;
    }
    Ok(pumped)
}

/// Makes one turn.
fn turn<W: Wire, C: Clerk>(
    alloc: Global,
    wire: &mut W,
    clerk: &mut C,
    out: &mut Out,
    pumped: &mut Pumped,
) -> Result<(), PumpFault>
    ensures made { OnOk result (Pumps (W.traffic wire.old) (W.traffic wire.new) (C.told clerk.old) (C.told clerk.new) pumped.old pumped.new 1) }
    ensures receive { IsErrOf result PumpFault.Receive → LosesWire (W.traffic wire.old) (W.traffic wire.new) (C.told clerk.old) (C.told clerk.new) 1 }
    ensures no_memory { IsErrOf result PumpFault.NoMemory → Breaks (W.traffic wire.old) (W.traffic wire.new) (C.told clerk.old) (C.told clerk.new) 1 }
    ensures ended { IsErrOf result PumpFault.Ended → Breaks (W.traffic wire.old) (W.traffic wire.new) (C.told clerk.old) (C.told clerk.new) 1 }
{
    let received = receive_one(alloc, wire, pumped)?;
    submit_one(alloc, clerk, received, out)?;
    out.facts();
    match carry_out(alloc, wire, clerk, out.actions(), pumped) {
        Ok(()) => Ok(()),
        Err(_) => Err(PumpFault::NoMemory),
    }
}

/// Receives once and counts it.
fn receive_one<W: Wire>(
    alloc: Global,
    wire: &mut W,
    pumped: &mut Pumped,
) -> Result<Received, PumpFault>
    ensures received { IfOk result (λ r. (W.traffic wire.new).received ≡ grown (W.traffic wire.old).received (receipt_of r ∷ [])) }
    ensures refused { OnErr result ((W.traffic wire.new).received ≡ (W.traffic wire.old).received) }
    ensures sent { (W.traffic wire.new).sent ≡ (W.traffic wire.old).sent }
    ensures right { OnOk result ((W.traffic wire.new).faults ≡ (W.traffic wire.old).faults) }
    ensures receive { IsErrOf result PumpFault.Receive → (W.traffic wire.new).faults ≡ plus (W.traffic wire.old).faults 1 }
    ensures no_memory { IsErrOf result PumpFault.NoMemory → (W.traffic wire.new).faults ≡ (W.traffic wire.old).faults }
    ensures no_end { IsErrOf result PumpFault.Ended → ⊥ }
    ensures counts { IfOk result (λ r. Counts pumped.old pumped.new (receipt_of r ∷ []) []) }
{
    match wire.receive(alloc) {
        Ok(received) => {
            count_received(pumped, &received);
            Ok(received)
        }
        Err(WireFault::Io) => Err(PumpFault::Receive),
        Err(WireFault::NoMemory) => Err(PumpFault::NoMemory),
    }
}

/// Counts what was received.
fn count_received(pumped: &mut Pumped, received: &Received)
    ensures { Counts pumped.old pumped.new (receipt_of received.now ∷ []) [] }
{
    match received {
        Received::Datagram(_, _) => pumped.received = pumped.received.saturating_add(1),
        Received::Idle(_) => pumped.idle = pumped.idle.saturating_add(1),
    }
}

/// Submits what was received to the clerk.
fn submit_one<C: Clerk>(
    alloc: Global,
    clerk: &mut C,
    received: Received,
    out: &mut Out,
) -> Result<(), PumpFault>
    ensures taken { OnOk result (HasServed (C.told clerk.old) (C.told clerk.new) (event_of (receipt_of received) ∷ []) (out.new ∷ []) []) }
    ensures refused { OnErr result (C.told clerk.new ≡ C.told clerk.old) }
    ensures no_fault { IsErrOf result PumpFault.Receive → ⊥ }
{
    out.clear();
    let submitted = match received {
        Received::Datagram(datagram, now) => submit_datagram(alloc, clerk, datagram, now, out),
        Received::Idle(now) => submit_tick(alloc, clerk, now, out),
    };
    match submitted {
        Ok(()) => Ok(()),
        Err(SubmitFault::Ended) => Err(PumpFault::Ended),
        Err(SubmitFault::NoMemory) => Err(PumpFault::NoMemory),
    }
}

/// Judges a datagram by the clerk's programs and submits it.
fn submit_datagram<C: Clerk>(
    alloc: Global,
    clerk: &mut C,
    datagram: Arc<Datagram>,
    now: Moment,
    out: &mut Out,
) -> Result<(), SubmitFault>
    requires { out.old ≡ [] }
    ensures taken { OnOk result (HasServed (C.told clerk.old) (C.told clerk.new) (arrives (arc_value datagram) now ∷ []) (out.new ∷ []) []) }
    ensures refused { OnErr result (C.told clerk.new ≡ C.told clerk.old) }
{
    let judged = clerk.judge(datagram)?;
    submit_judged(alloc, clerk, &judged, now, out)
}

/// Submits a judged datagram.
#[tactic(auto, using(crate::proofs::PumpLemmas::served_one))]
fn submit_judged<C: Clerk>(
    alloc: Global,
    clerk: &mut C,
    judged: &Judged,
    now: Moment,
    out: &mut Out,
) -> Result<(), SubmitFault>
    requires { out.old ≡ [] }
    ensures taken { OnOk result (HasServed (C.told clerk.old) (C.told clerk.new) (arrives judged.now.datagram now ∷ []) (out.new ∷ []) []) }
    ensures refused { OnErr result (C.told clerk.new ≡ C.told clerk.old) }
{
    clerk.submit_judged(alloc, judged, now, out)?;
    Ok(())
}

/// Submits a timer event.
#[tactic(auto, using(crate::proofs::PumpLemmas::served_one))]
fn submit_tick<C: Clerk>(
    alloc: Global,
    clerk: &mut C,
    now: Moment,
    out: &mut Out,
) -> Result<(), SubmitFault>
    requires { out.old ≡ [] }
    ensures taken { OnOk result (HasServed (C.told clerk.old) (C.told clerk.new) (ticks now ∷ []) (out.new ∷ []) []) }
    ensures refused { OnErr result (C.told clerk.new ≡ C.told clerk.old) }
{
    let Ok(event) = Arc::new(alloc, Event::Timer { now }) else {
        return Err(SubmitFault::NoMemory);
    };
    clerk.submit(alloc, event, out)?;
    Ok(())
}

/// Carries out actions in order. Errors: allocation failure in passing one on; a prefix of them was carried out.
fn carry_out<W: Wire, C: Clerk>(
    alloc: Global,
    wire: &mut W,
    clerk: &mut C,
    actions: &[Action],
    pumped: &mut Pumped,
) -> Result<(), NoMemory>
    ensures all { OnOk result (Carries (W.traffic wire.old) (W.traffic wire.new) (C.told clerk.old) (C.told clerk.new) pumped.old pumped.new actions.now) }
    ensures some { OnErr result ((n : ℕ) × Carries (W.traffic wire.old) (W.traffic wire.new) (C.told clerk.old) (C.told clerk.new) pumped.old pumped.new (take n actions.now)) }
{
    for action in actions {
        carry_one(alloc, wire, clerk, action, pumped)?;
    }
    Ok(())
}

/// Carries out one action.
fn carry_one<W: Wire, C: Clerk>(
    alloc: Global,
    wire: &mut W,
    clerk: &mut C,
    action: &Action,
    pumped: &mut Pumped,
) -> Result<(), NoMemory>
    ensures done { OnOk result (Carries (W.traffic wire.old) (W.traffic wire.new) (C.told clerk.old) (C.told clerk.new) pumped.old pumped.new (action.now ∷ [])) }
    ensures refused { OnErr result (Carries (W.traffic wire.old) (W.traffic wire.new) (C.told clerk.old) (C.told clerk.new) pumped.old pumped.new []) }
{
    match action {
        Action::Send {
            socket,
            to,
            payload,
        } => {
            send_one(wire, *socket, *to, payload, pumped);
            Ok(())
        }
        Action::Fetch { .. } | Action::Serve { .. } => clerk.pass(alloc, action),
    }
}

/// Tries one send and counts it. Returns whether the wire took it.
fn send_one<W: Wire>(
    wire: &mut W,
    socket: Socket,
    to: End,
    payload: &Payload,
    pumped: &mut Pumped,
) -> bool
    ensures received { (W.traffic wire.new).received ≡ (W.traffic wire.old).received }
    ensures sent { (W.traffic wire.new).sent ≡ grown (W.traffic wire.old).sent (gone (record { sending = record { socket = socket; to = to; payload = payload.now }; went = result } ∷ [])) }
    ensures faults { (W.traffic wire.new).faults ≡ plus (W.traffic wire.old).faults (failures (record { sending = record { socket = socket; to = to; payload = payload.now }; went = result } ∷ [])) }
    ensures counts { Counts pumped.old pumped.new [] (record { sending = record { socket = socket; to = to; payload = payload.now }; went = result } ∷ []) }
{
    match wire.send(socket, to, payload.as_slice()) {
        Ok(()) => {
            pumped.sent = pumped.sent.saturating_add(1);
            true
        }
        Err(_) => {
            pumped.failed = pumped.failed.saturating_add(1);
            false
        }
    }
}
