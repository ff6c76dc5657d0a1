//! The state of each neighbour, for monitoring.
ghost use Rattle.std.specs.Prelude.{◌≡◌, ◌<◌, is_some, length, slice_get, IfOk, Some};
ghost use Rattle.filter_slots.specs.Filters.{slot};
ghost use Rattle.node_book.specs.NeighbourView.{view_of, AreViews};

use crate::NoMemory;
use filter_slots::Slot;
use neighbours::{Neighbour, Table};
use node_core::Node;
use node_words::NeighbourView;
use std::alloc::Global;

// Whether the slot of the neighbour at index `n` has a filter.
fn has_filter(node: &Node, n: usize) -> bool
    ensures { result ≡ is_some (slot node.now.filters (Slot.Neighbour n)) }
{
    match node.programs().installed(Slot::Neighbour(n)) {
        Some(_) => true,
        None => false,
    }
}

// The neighbour at index `n`.
#[tactic(auto, using(crate::proofs::Views::there))]
fn neighbour_at(table: &Table, n: usize) -> &Neighbour
    requires { n < length table.now.neighbours }
    ensures { slice_get table.now.neighbours n ≡ Some result.now }
{
    match table.get(n) {
        Some(neighbour) => neighbour,
        None => unreachable!(),
    }
}

// The state of the neighbour at index `n`.
fn view_of(node: &Node, n: usize, neighbour: &Neighbour) -> NeighbourView
    requires { n < length node.now.plain.rows.neighbours }
    ensures { result ≡ view_of node.now n neighbour.now }
{
    let table = node.neighbours();
    NeighbourView {
        protocol: neighbour.protocol,
        end: neighbour.end,
        is_up: table.is_up(n),
        time: table.time(n),
        misses: table.misses(n),
        has_filter: has_filter(node, n),
    }
}

/// The state of each neighbour of a node, in configuration order. Errors: allocation failure.
pub(crate) fn views_of(alloc: Global, node: &Node) -> Result<Vec<NeighbourView>, NoMemory>
    ensures { IfOk result (λ views. AreViews node.now views.items) }
{
    let table = node.neighbours();
    let mut views = Vec::new(alloc);
    for n in 0..table.len() {
        views.push(view_of(node, n, neighbour_at(table, n)))?;
    }
    Ok(views)
}
