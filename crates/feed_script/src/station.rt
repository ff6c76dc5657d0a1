//! A running node and its output.
ghost use Rattle.std.specs.Prelude.{◌≡◌, ◌≤◌, ◌++◌, length, OnOk, OnErr, IfOk};
ghost use Rattle.bpf_run.specs.Packet.{most_payload};
ghost use Rattle.node_core.specs.Happening.{happening};
ghost use Rattle.node_core.specs.State.{actions_at, state_after};
ghost use Rattle.feed_script.specs.Printed.{actions_text, refuse_text, stats_text};
ghost use Rattle.script_lines.specs.ScriptLine.{receives};
ghost use Rattle.feed_script.specs.Script.{event_of, own_end, is_there, lacks_slot};
ghost use Rattle.feed_script.specs.Ahead.{fixed_of};

use super::print::{push_actions, push_refusal, push_stats};
use bpf_check::CheckFault;
use filter_slots::{Datagram, End, Moment, Slot, Socket};
use node_core::{Event, Node, Out, step_law};
use std::alloc::{AllocError, Global};
use std::sync::Arc;

/// A running node: its two endpoints, its number of neighbours, and reused buffers for the actions of one event and their text.
#[derive(Drop)]
pub(crate) struct Station {
    node: Node,
    icp: End,
    htcp: End,
    neighbours: usize,
    actions: Out,
    printed: Vec<u8>,
}

impl Station {
    /// Wraps a node with these endpoints and this number of neighbours. Errors: out of memory.
    pub(crate) fn new(
        alloc: Global,
        node: Node,
        icp: End,
        htcp: End,
        neighbours: usize,
    ) -> Result<Station, AllocError>
        ensures node { IfOk result (λ station. station.node ≡ node) }
        ensures icp { IfOk result (λ station. station.icp ≡ icp) }
        ensures htcp { IfOk result (λ station. station.htcp ≡ htcp) }
        ensures neighbours { IfOk result (λ station. station.neighbours ≡ neighbours) }
    {
        Ok(Station {
            node,
            icp,
            htcp,
            neighbours,
            actions: Out::new(alloc)?,
            printed: Vec::new(alloc),
        })
    }

    // The node's own endpoint for a socket.
    fn own_end(&self, socket: Socket) -> End
        ensures { result ≡ own_end (fixed_of self.now) socket }
    {
        match socket {
            Socket::Icp => self.icp,
            Socket::Htcp => self.htcp,
        }
    }

    /// Whether the node has this slot.
    pub(crate) fn has(&self, slot: Slot) -> bool
        ensures { result ≡ is_there (fixed_of self.now).neighbours slot }
    {
        match slot {
            Slot::Socket(_) => true,
            Slot::Neighbour(n) => n < self.neighbours,
        }
    }

    /// Whether an event names a slot that the node lacks.
    pub(crate) fn lacks(&self, event: &Event) -> bool
        ensures { result ≡ lacks_slot (fixed_of self.now).neighbours (happening event.now) }
    {
        match event {
            Event::Swap { slot, .. } => !self.has(*slot),
            _ => false,
        }
    }

    /// Delivers an event to the node and appends the resulting actions to `out`. On an error nothing is appended.
    /// Errors: out of memory.
    pub(crate) fn take(
        &mut self,
        alloc: Global,
        event: &Event,
        out: &mut Vec<u8>,
    ) -> Result<(), AllocError>
        ensures own { OnOk result (fixed_of self.new ≡ fixed_of self.old) }
        ensures state { OnOk result (self.new.node ≡ state_after self.old.node (happening event.now)) }
        ensures shown { OnOk result (out.new.items ≡ out.old.items
            ++ actions_text (state_after self.old.node (happening event.now)).plain.fetches.list (actions_at self.old.node (happening event.now))) }
        ensures err { OnErr result (out.new.items ≡ out.old.items) }
    {
        step_law();
        self.actions.clear();
        self.node.step(alloc, event, &mut self.actions)?;
        self.printed.clear();
        push_actions(&mut self.printed, alloc, &self.node, self.actions.actions())?;
        out.extend_from_slice(self.printed.as_slice())
    }

    // The event that a datagram arrives at the node's endpoint for the socket.
    fn arrival(
        &self,
        alloc: Global,
        socket: Socket,
        from: End,
        payload: Vec<u8>,
        now: Moment,
    ) -> Result<Event, AllocError>
        requires { length payload.items ≤ most_payload }
        ensures { IfOk result (λ event. happening event ≡ event_of (fixed_of self.now) (receives socket from payload.items now)) }
    {
        let Ok(datagram) = Datagram::new(socket, from, self.own_end(socket), payload) else {
            unreachable!()
        };
        let datagram = Arc::new(alloc, datagram)?;
        Ok(Event::Datagram { datagram, now })
    }

    /// Delivers a datagram to the node's endpoint for the socket. On an error nothing is appended to `out`.
    /// Errors: out of memory.
    pub(crate) fn receive(
        &mut self,
        alloc: Global,
        socket: Socket,
        from: End,
        payload: Vec<u8>,
        now: Moment,
        out: &mut Vec<u8>,
    ) -> Result<(), AllocError>
        requires { length payload.items ≤ most_payload }
        ensures own { OnOk result (fixed_of self.new ≡ fixed_of self.old) }
        ensures state { OnOk result (self.new.node ≡ state_after self.old.node (event_of (fixed_of self.old) (receives socket from payload.items now))) }
        ensures shown { OnOk result (out.new.items ≡ out.old.items
            ++ actions_text (state_after self.old.node (event_of (fixed_of self.old) (receives socket from payload.items now))).plain.fetches.list
            (actions_at self.old.node (event_of (fixed_of self.old) (receives socket from payload.items now)))) }
        ensures err { OnErr result (out.new.items ≡ out.old.items) }
    {
        let event = self.arrival(alloc, socket, from, payload, now)?;
        self.take(alloc, &event, out)
    }

    /// Reports a program that the checker rejected. On an error nothing is appended to `out`. Errors: out of memory.
    pub(crate) fn refuse(&mut self, fault: CheckFault, out: &mut Vec<u8>) -> Result<(), AllocError>
        ensures own { fixed_of self.new ≡ fixed_of self.old }
        ensures state { self.new.node ≡ self.old.node }
        ensures shown { OnOk result (out.new.items ≡ out.old.items ++ refuse_text fault) }
        ensures err { OnErr result (out.new.items ≡ out.old.items) }
    {
        self.printed.clear();
        push_refusal(&mut self.printed, fault)?;
        out.extend_from_slice(self.printed.as_slice())
    }

    /// Prints the counters. On an error nothing is appended to `out`. Errors: out of memory.
    pub(crate) fn tell(&mut self, out: &mut Vec<u8>) -> Result<(), AllocError>
        ensures own { fixed_of self.new ≡ fixed_of self.old }
        ensures state { self.new.node ≡ self.old.node }
        ensures shown { OnOk result (out.new.items ≡ out.old.items ++ stats_text self.old.node.stats) }
        ensures err { OnErr result (out.new.items ≡ out.old.items) }
    {
        self.printed.clear();
        push_stats(&mut self.printed, self.node.stats())?;
        out.extend_from_slice(self.printed.as_slice())
    }
}
