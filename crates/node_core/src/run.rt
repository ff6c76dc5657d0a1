//! Runs over lists of events.
ghost use Rattle.std.specs.Prelude.{◌≤◌, length, take, map, IfOk, IfErr};
ghost use Rattle.node_words.specs.Happening.{happening};
ghost use Rattle.node_core.specs.State.{HasTaken};
ghost use Rattle.node_words.specs.Installs.{PutsInAccepted};

use crate::node::Node;
use node_words::Event;
use plain_node::Out;
use std::alloc::Global;

/// A run that stopped at an allocation failure or a reference count at its maximum: the node has taken `done` events, and `outs`
/// has the actions of each.
#[derive(Drop)]
pub struct RunFault {
    /// Number of events taken.
    pub done: usize,
    /// The actions of each event taken.
    pub outs: Vec<Out>,
}

/// Takes the events in order and returns the actions of each. The node and the actions are those of a node without filters
/// that is given what the filters keep of the events.
pub fn run_events(alloc: Global, node: &mut Node, events: &[Event]) -> Result<Vec<Out>, RunFault>
    ensures all { IfOk result (λ outs. HasTaken node.old node.new (map happening events.now) outs.items) }
    ensures some { IfErr result (λ fault. (fault.done ≤ length events.now)
        × HasTaken node.old node.new (take fault.done (map happening events.now)) fault.outs.items) }
    ensures accepted { IfOk result (λ outs. PutsInAccepted (map happening events.now)) }
    ensures accepted_before { IfErr result (λ fault. PutsInAccepted (take fault.done (map happening events.now))) }
{
    let mut outs = match Vec::with_capacity(alloc, events.len()) {
        Ok(outs) => outs,
        Err(_) => {
            return Err(RunFault {
                done: 0,
                outs: Vec::new(alloc),
            });
        }
    };
    for (i, event) in events.iter().enumerate() {
        let mut out = match Out::new(alloc) {
            Ok(out) => out,
            Err(_) => return Err(RunFault { done: i, outs }),
        };
        match node.step(alloc, event, &mut out) {
            Ok(()) => outs.push(out).unwrap(),
            Err(_) => return Err(RunFault { done: i, outs }),
        }
    }
    Ok(outs)
}
