//! Reference implementation of the store for tests: a vector of pairs, the most recently used first, with the same contract
//! as `Store`.

ghost use Rattle.std.specs.Prelude.{◌≡◌, ◌+◌, ◌<◌, ◌≤◌, [], IfSome, IfNone, IsOk, IfOk, IfErr, OnOk, OnErr, is_some, length, option_copied, slice_get, Some, None, ⊤, take, vec_capacity, vec_len};
ghost use Rattle.std.specs.Borrow.{follows_so, sem};
ghost use Rattle.object_store.specs.Pairs.{Pair, cut, entry_at, size_of, without};
ghost use Rattle.object_store.specs.Store.{AreLimits, IsPutFault, IsStoreFault, after_get, after_put, after_remove, fresh_at};
ghost use Rattle.object_store.specs.contracts.plain.PlainStore.{the_row};
ghost use mathlib.Core.Option.{none};

use crate::entry::{Entry, size};
use crate::faults::{PutFault, StoreFault};
use crate::key::CacheKey;
use crate::store::{MOST_ENTRIES, MOST_OCTETS};
use node_terms::Moment;
use std::alloc::Global;
use std::marker::Model;

/// A store that finds pairs by linear search.
#[derive(Drop)]
pub(crate) struct PlainStore {
    most_entries: u32,
    most_octets: u32,
    pairs: Vec<(CacheKey, Entry)>,
}

impl Model for PlainStore {
    ghost use Rattle.object_store.specs.Store.{StoreState};

    ghost Value = { StoreState };

    ghost view = { λ s. record { most_entries = s.most_entries; most_octets = s.most_octets; pairs = s.pairs.items } };
}

impl PlainStore {
    pub(crate) fn new(alloc: Global, entries: u32, octets: u32) -> Result<PlainStore, StoreFault>
        ensures limits { IsOk result → AreLimits entries octets }
        ensures value { IfOk result (λ store. store ≡ record { most_entries = entries; most_octets = octets; pairs = [] }) }
        ensures fault { IfErr result (λ fault. IsStoreFault entries octets fault) }
    {
        if entries == 0 || entries > MOST_ENTRIES || octets == 0 || octets > MOST_OCTETS {
            return Err(StoreFault::Limits);
        }
        Ok(PlainStore {
            most_entries: entries,
            most_octets: octets,
            pairs: Vec::new(alloc),
        })
    }

    pub(crate) fn pairs(&self) -> &[(CacheKey, Entry)]
        ensures { result.now ≡ self.now.pairs }
    {
        &self.pairs
    }

    pub(crate) fn get(&mut self, key: &CacheKey, now: Moment) -> Option<&Entry>
        ensures* changed { sem 𝓛 (follows_so the_row the_row self.entry.ghost_name none (λ _ _. ⊤) (λ ended. ended ≡ after_get key.now now self.old)) }
        ensures value { option_copied result ≡ fresh_at key.now now self.old }
    {
        if !self.touch(key, now) {
            return None;
        }
        match self.pairs.first() {
            Some(pair) => Some(&pair.1),
            None => None,
        }
    }

    fn touch(&mut self, key: &CacheKey, now: Moment) -> bool
        ensures changed { self.new ≡ after_get key.now now self.old }
        ensures value { result ≡ is_some (fresh_at key.now now self.old) }
    {
        let Some(place) = pair_index(&self.pairs, key) else {
            return false;
        };
        let pair = self.pairs.remove(place);
        leave_out(&mut self.pairs, key);
        if !pair.1.is_fresh(now) {
            return false;
        }
        self.pairs.insert(0, pair).unwrap();
        true
    }

    pub(crate) fn peek(&self, key: &CacheKey, now: Moment) -> Option<&Entry>
        ensures { option_copied result ≡ fresh_at key.now now self.now }
    {
        let place = pair_index(&self.pairs, key)?;
        let entry = &self.pairs[place].1;
        if entry.is_fresh(now) {
            Some(entry)
        } else {
            None
        }
    }

    pub(crate) fn holds(&self, key: &CacheKey) -> bool
        ensures { result ≡ is_some (entry_at key.now self.now.pairs) }
    {
        pair_index(&self.pairs, key).is_some()
    }

    pub(crate) fn remove(&mut self, key: &CacheKey) -> Option<Entry>
        ensures value { result ≡ entry_at key.now self.old.pairs }
        ensures changed { self.new ≡ after_remove key.now self.old }
    {
        let Some(place) = pair_index(&self.pairs, key) else {
            leave_out(&mut self.pairs, key);
            return None;
        };
        let (_, entry) = self.pairs.remove(place);
        leave_out(&mut self.pairs, key);
        Some(entry)
    }

    pub(crate) fn put(
        &mut self,
        key: CacheKey,
        entry: Entry,
    ) -> Result<(), (PutFault, CacheKey, Entry)>
        ensures fits { IsOk result → size_of key entry ≤ self.old.most_octets }
        ensures changed { OnOk result (self.new ≡ after_put key entry self.old) }
        ensures fault { IfErr result (λ refused. IsPutFault self.old key entry refused.0) }
        ensures back { IfErr result (λ refused. (refused.1 ≡ key) × (refused.2 ≡ entry)) }
        ensures unchanged { OnErr result (self.new ≡ self.old) }
    {
        if size(key.as_slice().len(), &entry) > u64::from(self.most_octets) {
            return Err((PutFault::TooLarge, key, entry));
        }
        if self.pairs.reserve(1).is_err() {
            return Err((PutFault::NoMemory, key, entry));
        }
        leave_out(&mut self.pairs, &key);
        self.pairs.insert(0, (key, entry)).unwrap();
        let count = front_within(&self.pairs, self.most_entries, self.most_octets);
        self.pairs.truncate(count);
        Ok(())
    }
}

// Index of the first pair of a key, or `None`.
fn pair_index(pairs: &[(CacheKey, Entry)], key: &CacheKey) -> Option<usize>
    ensures inside { IfSome result (λ place. place < length pairs.now) }
    ensures found { IfSome result (λ place. (pair : Pair) × (slice_get pairs.now place ≡ Some pair) × (pair.0 ≡ key.now) × (entry_at key.now pairs.now ≡ Some pair.1)) }
    ensures missing { IfNone result (entry_at key.now pairs.now ≡ None) }
{
    for (place, pair) in pairs.iter().enumerate() {
        if *key == pair.0 {
            return Some(place);
        }
    }
    None
}

// Removes all pairs of a key.
fn leave_out(pairs: &mut Vec<(CacheKey, Entry)>, key: &CacheKey)
    ensures pairs { pairs.new.items ≡ without key.now pairs.old.items }
    ensures shorter { vec_len pairs.new ≤ vec_len pairs.old }
    ensures capacity { vec_capacity pairs.new ≡ vec_capacity pairs.old }
{
    pairs.retain(|pair| *key != pair.0);
}

// Length of the longest prefix within both limits.
fn front_within(pairs: &[(CacheKey, Entry)], entries: u32, octets: u32) -> usize
    ensures { cut entries octets pairs.now ≡ take result pairs.now }
{
    let mut room = u64::from(octets);
    for (count, pair) in pairs.iter().enumerate() {
        let needed = size(pair.0.as_slice().len(), &pair.1);
        if count as u64 >= u64::from(entries) || needed > room {
            return count;
        }
        room -= needed;
    }
    pairs.len()
}
