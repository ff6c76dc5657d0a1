//! Calls of nodes behind functions without contracts, so that tests depend on results only, and what a node answers.

use crate::events::{Settings, node_with};
use node_core::{Action, Event, Node, Out, run_events};
use std::alloc::Global;

/// Takes an event and leaves its actions in `out`. Returns whether that succeeded.
pub(crate) fn is_taken(alloc: Global, node: &mut Node, event: &Event, out: &mut Out) -> bool {
    out.clear();
    node.step(alloc, event, out).is_ok()
}

/// The actions of each event of a list, or `None` when out of memory. The events are let go of.
pub(crate) fn outs_by(alloc: Global, node: &mut Node, events: Vec<Event>) -> Option<Vec<Out>> {
    let outs = run_events(alloc, node, &events).ok();
    drop(events);
    outs
}

/// The same of a new node.
pub(crate) fn outs_of(alloc: Global, settings: &Settings, events: Vec<Event>) -> Option<Vec<Out>> {
    let Some(mut node) = node_with(alloc, settings) else {
        drop(events);
        return None;
    };
    let outs = outs_by(alloc, &mut node, events);
    drop(node);
    outs
}

/// Whether the only action is to send these octets.
pub(crate) fn is_sent(out: &Out, octets: &[u8]) -> bool {
    match out.actions() {
        [Action::Send { payload, .. }] => payload.as_slice() == octets,
        _ => false,
    }
}
