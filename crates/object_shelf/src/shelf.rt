//! The shelf.

ghost use Rattle.std.specs.Prelude.{◌≡◌, ◌≤◌, [], IsOk, IfOk, IfErr, OnOk, OnErr, length, option_copied};
ghost use Rattle.object_store.specs.Pairs.{size_of, total_size, entry_at};
ghost use Rattle.object_store.specs.Store.{AreLimits, IsStoreFault, IsPutFault, after_remove};
ghost use Rattle.object_shelf.specs.Shelf.{IsShelf, after_object, entry_of};

use node_terms::Moment;
use object_store::{CacheKey, Entry, KeyHashes, PutFault, SharedObject, Store, StoreFault};
use std::alloc::{AllocError, Global};
use std::marker::Model;

/// The objects that were put here last, by key, limited in number and in octets. Objects are shared with whoever else has them.
/// Contracts see the limits and the list of pairs, the one that was put here last first.
#[derive(Drop)]
pub struct Shelf {
    // No entry has the first millisecond as its time, so that all of them are fresh to the store then.
    store: Store,
}

impl Model for Shelf {
    ghost use Rattle.object_store.specs.Store.{StoreState};
    ghost use Rattle.object_shelf.specs.Shelf.{AreTimed};

    ghost Value = { StoreState };

    ghost view = { λ s. s.store };

    ghost invariant = { λ s. AreTimed s.store.pairs };
}

impl Shelf {
    /// Makes an empty shelf. The limits are 1 to 1,000,000 objects and 1 to 1,073,741,824 octets.
    pub fn new(alloc: Global, objects: u32, octets: u32) -> Result<Shelf, StoreFault>
        ensures value { IfOk result (λ shelf. shelf ≡ record { most_entries = objects; most_octets = octets; pairs = [] }) }
        ensures fault { IfErr result (λ fault. IsStoreFault objects octets fault) }
    {
        let store = Store::new(alloc, objects, octets)?;
        Ok(Shelf { store })
    }

    /// Hashes keys so from now on. What is here stays. Errors: an allocation failed, or a reference count would overflow; then it goes on
    /// as before.
    pub fn hash_by(&mut self, alloc: Global, hashes: KeyHashes) -> Result<(), AllocError>
        ensures { self.new ≡ self.old }
    {
        self.store.hash_by(alloc, hashes)
    }

    /// Publishes the invariant: what is here is within the limits, each object under a key of its own. Does nothing at run time.
    pub fn facts(&self)
        ensures { IsShelf self.now }
    {
        self.store.facts();
    }

    /// Number of objects.
    pub fn len(&self) -> usize
        ensures { result ≡ length self.now.pairs }
    {
        self.store.len()
    }

    /// Octets of all keys and objects.
    pub fn octets(&self) -> u64
        ensures { result ≡ total_size self.now.pairs }
    {
        self.store.octets()
    }

    /// The object of a key, and when it was put here. Changes nothing.
    #[tactic(auto, using(crate::proofs::Timed::fresh_before))]
    pub fn get(&self, key: &[u8]) -> Option<&Entry>
        ensures { option_copied result ≡ entry_at key.now self.now.pairs }
    {
        self.store.peek_octets(key, first())
    }

    /// Puts an object here, in place of the one of its key; those that were put here before all others make room for it. `at` is the
    /// time, of which the first millisecond counts as the second one.
    ///
    /// Errors: `TooLarge` if key and object alone exceed the octet limit, `NoMemory` if the allocation fails; nothing changes.
    #[tactic(auto, using(crate::proofs::Timed::timed_put))]
    pub fn put(&mut self, key: CacheKey, object: SharedObject, at: Moment) -> Result<(), PutFault>
        ensures fits { IsOk result → size_of key (entry_of object at) ≤ self.old.most_octets }
        ensures changed { OnOk result (self.new ≡ after_object key object at self.old) }
        ensures fault { IfErr result (λ fault. IsPutFault self.old key (entry_of object at) fault) }
        ensures unchanged { OnErr result (self.new ≡ self.old) }
    {
        let at = at.later(second());
        let entry = Entry { object, at };
        match self.store.put(key, entry) {
            Ok(()) => Ok(()),
            Err((fault, _, _)) => Err(fault),
        }
    }

    /// Takes the object of a key away, if there is one.
    #[tactic(auto, using(crate::proofs::Timed::timed_without))]
    pub fn remove(&mut self, key: &[u8])
        ensures { self.new ≡ after_remove key.now self.old }
    {
        let _ = self.store.remove_octets(key);
    }
}

// The first moment.
fn first() -> Moment
    ensures { result ≡ 0 }
{
    Moment::new(0).unwrap()
}

// The one after it.
fn second() -> Moment
    ensures { result ≡ 1 }
{
    Moment::new(1).unwrap()
}
