//! A snapshot of a node's state, for contracts alone.
ghost use Rattle.std.specs.Prelude.{◌≡◌};

use http_server::Log;
use node_core::Node;
use std::marker::Model;

/// A snapshot of a node's state. It takes no memory and does nothing at run time. Contracts see the state.
#[derive(Drop)]
pub(crate) struct Image {
    log: Log<Node, ()>,
}

impl Model for Image {
    ghost use Rattle.node_core.specs.State.{State};

    ghost Value = { State };

    ghost use Rattle.node_book.specs.Shown.{shown};

    ghost view = { λ i. shown i.log.items };
}

impl Image {
    /// The node's present state. This is the only constructor.
    pub(crate) fn of(node: &Node) -> Image
        ensures { result ≡ node.now }
    {
        Image {
            log: Log::new().and(node, &()),
        }
    }
}
