//! The store.

ghost use Rattle.std.specs.Prelude.{◌≡◌, ◌≤◌, ◌↔◌, [], IsTrue, IsOk, IfOk, IfErr, IsSome, OnOk, OnErr, is_some, length, option_copied, take};
ghost use Rattle.std.specs.Borrow.{sem};
ghost use Rattle.object_store.specs.Pairs.{entry_at, size_of, total_size};
ghost use Rattle.object_store.specs.Store.{AreLimits, IsPutFault, IsStore, IsStoreFault, after_get, after_put, after_remove, fresh_at};
ghost use Rattle.object_store.specs.Lending.{ends_as};

use crate::entry::{Entry, size};
use crate::faults::{PutFault, StoreFault};
use crate::hashing::KeyHashes;
use crate::key::{CacheKey, KeyOctets};
use crate::pairs::{Pairs, copy_pairs, evict, newest_pairs, put_pair};
use lru::LruCache;
use node_terms::Moment;
use std::alloc::{AllocError, Global};
use std::marker::Model;

/// Maximum of the entry limit.
pub const MOST_ENTRIES: u32 = 1_000_000;

/// Maximum of the octet limit.
pub const MOST_OCTETS: u32 = 1_073_741_824;

/// An LRU store of entries by key, limited in entries and in octets. Contracts see the limits and the list of pairs, the
/// most recently used first.
pub struct Store {
    most_entries: u32,
    most_octets: u32,
    sum: u64,
    pairs: Pairs,
    // How `pairs` hashes keys.
    hashes: KeyHashes,
    // Number of pairs evicted since the store was made, modulo 2^64. No contract mentions it.
    evicted: u64,
}

// Written by hand, so that what lets it go is one call for the prover (docs/GATE.md).
impl Drop for Store {
    fn drop(self) {
        let Self {
            most_entries: _,
            most_octets: _,
            sum: _,
            pairs: _,
            hashes: _,
            evicted: _,
        } = self;
    }
}

impl Model for Store {
    ghost use Rattle.object_store.specs.Store.{StoreState, IsSummed};

    ghost Value = { StoreState };

    ghost view = { λ s. record { most_entries = s.most_entries; most_octets = s.most_octets; pairs = s.pairs.entries } };

    ghost invariant = { λ s. IsSummed s.most_entries s.most_octets s.sum s.pairs.cap s.pairs.entries };
}

impl Store {
    /// Makes an empty store. The limits are 1 to 1,000,000 entries and 1 to 1,073,741,824 octets.
    pub fn new(alloc: Global, entries: u32, octets: u32) -> Result<Store, StoreFault>
        ensures limits { IsOk result → AreLimits entries octets }
        ensures value { IfOk result (λ store. store ≡ record { most_entries = entries; most_octets = octets; pairs = [] }) }
        ensures fault { IfErr result (λ fault. IsStoreFault entries octets fault) }
    {
        if entries == 0 || entries > MOST_ENTRIES || octets == 0 || octets > MOST_OCTETS {
            return Err(StoreFault::Limits);
        }
        let hashes = KeyHashes::seeded(0);
        let Ok(pairs) = LruCache::unbounded_with_hasher(alloc, hashes) else {
            return Err(StoreFault::NoMemory);
        };
        Ok(Store {
            most_entries: entries,
            most_octets: octets,
            sum: 0,
            pairs,
            hashes,
            evicted: 0,
        })
    }

    /// Hashes keys so from now on; until it is told, a store hashes without a secret. What it holds stays. Errors: an allocation
    /// failed, or a reference count would overflow; then it goes on as before.
    pub fn hash_by(&mut self, alloc: Global, hashes: KeyHashes) -> Result<(), AllocError>
        ensures { self.new ≡ self.old }
    {
        self.pairs = copy_pairs(&self.pairs, alloc, hashes)?;
        self.hashes = hashes;
        Ok(())
    }

    /// A copy that shares keys and objects. Errors: an allocation failed, or a reference count would overflow.
    pub fn copy(&self, alloc: Global) -> Result<Store, AllocError>
        ensures { IfOk result (λ store. store ≡ self.now) }
    {
        let pairs = copy_pairs(&self.pairs, alloc, self.hashes)?;
        Ok(Store {
            most_entries: self.most_entries,
            most_octets: self.most_octets,
            sum: self.sum,
            pairs,
            hashes: self.hashes,
            evicted: self.evicted,
        })
    }

    /// Publishes the invariant: keys are distinct, and the pairs are within the limits. Does nothing at run time.
    pub fn facts(&self)
        ensures { IsStore self.now }
    {
        let _ = self.pairs.len();
    }

    /// Number of entries, those that are no longer fresh among them.
    pub fn len(&self) -> usize
        ensures { result ≡ length self.now.pairs }
    {
        self.pairs.len()
    }

    /// Octets of all keys and entries.
    pub fn octets(&self) -> u64
        ensures { result ≡ total_size self.now.pairs }
    {
        self.sum
    }

    /// Number of entries that had to make room for others since the store was made, modulo 2^64.
    pub fn evictions(&self) -> u64 {
        self.evicted
    }

    /// The entries that were used last, at most so many, with their keys, the most recently used first; those that are no longer
    /// fresh among them. Keys and objects are shared. Errors: an allocation failed, or a reference count would overflow.
    pub fn newest(&self, alloc: Global, most: usize) -> Result<Vec<(CacheKey, Entry)>, AllocError>
        ensures { IfOk result (λ newest. newest.items ≡ take most self.now.pairs) }
    {
        newest_pairs(&self.pairs, alloc, most)
    }

    /// Returns the entry of a key and marks it most recently used. A stale entry is removed, and `None` returned.
    pub fn get(&mut self, key: &CacheKey, now: Moment) -> Option<&Entry>
        ensures* changed { sem 𝓛 (ends_as self.entry (after_get key.now now self.old)) }
        ensures value { option_copied result ≡ fresh_at key.now now self.old }
    {
        if !self.touch(key, now) {
            return None;
        }
        match self.pairs.peek_mru() {
            Some((_, entry)) => Some(entry),
            None => None,
        }
    }

    // Moves a fresh entry to the front, and removes a stale one. Returns whether there is a fresh one.
    fn touch(&mut self, key: &CacheKey, now: Moment) -> bool
        ensures changed { self.new ≡ after_get key.now now self.old }
        ensures value { result ≡ is_some (fresh_at key.now now self.old) }
    {
        let _ = self.pairs.len();
        let Some(entry) = self.pairs.get(key) else {
            return false;
        };
        if entry.is_fresh(now) {
            return true;
        }
        self.remove(key);
        false
    }

    /// Returns the entry of a key if it is fresh. Changes nothing.
    pub fn peek(&self, key: &CacheKey, now: Moment) -> Option<&Entry>
        ensures { option_copied result ≡ fresh_at key.now now self.now }
    {
        self.peek_octets(key.as_slice(), now)
    }

    /// Returns the entry whose key has these octets if it is fresh. Changes nothing.
    pub fn peek_octets(&self, key: &[u8], now: Moment) -> Option<&Entry>
        ensures { option_copied result ≡ fresh_at key.now now self.now }
    {
        let entry = self.pairs.peek(KeyOctets { octets: key })?;
        if entry.is_fresh(now) {
            Some(entry)
        } else {
            None
        }
    }

    /// Whether there is an entry for this key, fresh or not.
    pub fn holds(&self, key: &CacheKey) -> bool
        ensures { result ≡ is_some (entry_at key.now self.now.pairs) }
    {
        self.holds_octets(key.as_slice())
    }

    /// Whether there is an entry whose key has these octets, fresh or not.
    pub fn holds_octets(&self, key: &[u8]) -> bool
        ensures { result ≡ is_some (entry_at key.now self.now.pairs) }
    {
        self.pairs.contains(KeyOctets { octets: key })
    }

    /// Removes and returns the entry of a key.
    pub fn remove(&mut self, key: &CacheKey) -> Option<Entry>
        ensures value { result ≡ entry_at key.now self.old.pairs }
        ensures changed { self.new ≡ after_remove key.now self.old }
    {
        self.remove_octets(key.as_slice())
    }

    /// Removes and returns the entry whose key has these octets.
    pub fn remove_octets(&mut self, key: &[u8]) -> Option<Entry>
        ensures value { result ≡ entry_at key.now self.old.pairs }
        ensures changed { self.new ≡ after_remove key.now self.old }
    {
        let _ = self.pairs.len();
        let Some(removed) = self.pairs.pop(KeyOctets { octets: key }) else {
            return None;
        };
        self.sum -= size(key.len(), &removed);
        Some(removed)
    }

    /// Inserts an entry as the most recently used, replacing the old one of its key, then evicts the least recently used
    /// pairs until the rest is within the limits. Allocates nothing if there is an entry for the key.
    ///
    /// Errors: `TooLarge` if the entry alone exceeds the octet limit, `NoMemory` if the allocation fails. Key and entry are
    /// returned with the fault, and nothing changes.
    pub fn put(&mut self, key: CacheKey, entry: Entry) -> Result<(), (PutFault, CacheKey, Entry)>
        ensures fits { IsOk result → size_of key entry ≤ self.old.most_octets }
        ensures changed { OnOk result (self.new ≡ after_put key entry self.old) }
        ensures fault { IfErr result (λ refused. IsPutFault self.old key entry refused.0) }
        ensures back { IfErr result (λ refused. (refused.1 ≡ key) × (refused.2 ≡ entry)) }
        ensures unchanged { OnErr result (self.new ≡ self.old) }
        ensures held { IsSome (entry_at key self.old.pairs) → size_of key entry ≤ self.old.most_octets → IsOk result }
    {
        let octets = size(key.as_slice().len(), &entry);
        if octets > u64::from(self.most_octets) {
            return Err((PutFault::TooLarge, key, entry));
        }
        match put_pair(&mut self.pairs, self.sum, key, entry, octets) {
            Err(refused) => {
                let (key, entry) = refused.value;
                Err((PutFault::NoMemory, key, entry))
            }
            Ok(sum) => {
                let before = self.pairs.len();
                self.sum = evict(&mut self.pairs, sum, self.most_entries, self.most_octets);
                let gone = before.wrapping_sub(self.pairs.len());
                self.evicted = self.evicted.wrapping_add(gone as u64);
                Ok(())
            }
        }
    }
}

#[cfg(test)]
mod tests;
