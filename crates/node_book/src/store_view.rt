//! What is stored, for monitoring.
ghost use Rattle.std.specs.Prelude.{◌≡◌, IfOk};
ghost use Rattle.object_store.specs.Store.{fresh_at};
ghost use Rattle.node_book.specs.Sizes.{AreSizes};

use crate::NoMemory;
use crate::booked::Booked;
use filter_slots::Moment;
use node_core::Node;
use node_words::Sizes;
use object_store::Entry;

/// How large a book and the store of its node are.
pub(crate) fn sizes_of(booked: &Booked) -> Sizes
    ensures { AreSizes booked.now result }
{
    let store = booked.node().store();
    Sizes {
        events: booked.count(),
        base: booked.base(),
        objects: store.len(),
        octets: store.octets(),
        evictions: store.evictions(),
    }
}

/// The entry of a key, shared, or `None` if none is fresh at `now`. Errors: a reference count at its maximum.
pub(crate) fn stored_at(node: &Node, key: &[u8], now: Moment) -> Result<Option<Entry>, NoMemory>
    ensures { IfOk result (λ found. found ≡ fresh_at key.now now node.now.plain.store) }
{
    match node.store().peek_octets(key, now) {
        Some(entry) => Ok(Some(entry.share()?)),
        None => Ok(None),
    }
}
