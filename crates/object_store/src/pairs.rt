//! The LRU map of a store, and the total size of its pairs, which the store keeps beside it.

ghost use Rattle.std.specs.Prelude.{◌≡◌, ◌+◌, ◌-◌, ◌^◌, ◌<◌, ◌≤◌, ◌∷◌, length, min, take, bytes_eq, OnOk, OnErr, IfOk, IfErr, IsOk, IsSome, IsTrue, None, ◌↔◌};
ghost use Rattle.lru.specs.LruCache.{lru_cache};
ghost use Rattle.object_store.specs.Pairs.{IsWithin, cut, entry_at, total_size, size_of, without};

use crate::entry::{Entry, size};
use crate::hashing::KeyHashes;
use crate::key::CacheKey;
use lru::LruCache;
use std::alloc::{AllocError, AllocFailed, Global};

/// The LRU map of a store.
pub(crate) type Pairs = LruCache<CacheKey, Entry, KeyHashes>;

// Inserts a pair of size `octets` at the front, replacing the old one of its key. Returns the new total size.
pub(crate) fn put_pair(
    pairs: &mut Pairs,
    sum: u64,
    key: CacheKey,
    entry: Entry,
    octets: u64,
) -> Result<u64, AllocFailed<(CacheKey, Entry)>>
    requires sum { sum ≡ total_size pairs.old.entries }
    requires octets { octets ≡ size_of key entry }
    requires room { sum + octets < 2 ^ 64 }
    requires boundless { pairs.old.cap ≡ 2 ^ 64 - 1 }
    ensures pairs { OnOk result (pairs.new ≡ lru_cache ((key, entry) ∷ without key pairs.old.entries) pairs.old.cap) }
    ensures sum { IfOk result (λ new_sum. new_sum ≡ total_size ((key, entry) ∷ without key pairs.old.entries)) }
    ensures back { IfErr result (λ refused. refused.value ≡ (key, entry)) }
    ensures unchanged { OnErr result (pairs.new ≡ pairs.old) }
    ensures held { IsSome (entry_at key pairs.old.entries) → IsOk result }
{
    let key_octets = key.as_slice().len();
    let _ = pairs.len();
    match pairs.put(key, entry)? {
        None => Ok(sum + octets),
        Some(old) => Ok(sum + octets - size(key_octets, &old)),
    }
}

// Evicts the least recently used pairs until the others are within both limits. Returns their total size.
pub(crate) fn evict(pairs: &mut Pairs, sum: u64, most_entries: u32, most_octets: u32) -> u64
    requires { sum ≡ total_size pairs.old.entries }
    ensures pairs { pairs.new ≡ lru_cache (cut most_entries most_octets pairs.old.entries) pairs.old.cap }
    ensures sum { result ≡ total_size (cut most_entries most_octets pairs.old.entries) }
{
    let mut rest = sum;
    'full: while !are_within(pairs, rest, most_entries, most_octets) {
        rest = drop_last(pairs, rest);
    }
    rest
}

// Whether the pairs, of total size `sum`, are within both limits.
fn are_within(pairs: &Pairs, sum: u64, most_entries: u32, most_octets: u32) -> bool
    requires { sum ≡ total_size pairs.now.entries }
    ensures { IsTrue result ↔ IsWithin most_entries most_octets pairs.now.entries }
{
    pairs.len() <= most_entries as usize && sum <= u64::from(most_octets)
}

// Evicts the least recently used pair. Returns the total size of the others.
fn drop_last(pairs: &mut Pairs, sum: u64) -> u64
    requires { sum ≡ total_size pairs.old.entries }
    ensures pairs { pairs.new ≡ lru_cache (take (length pairs.old.entries - 1) pairs.old.entries) pairs.old.cap }
    ensures sum { result ≡ total_size (take (length pairs.old.entries - 1) pairs.old.entries) }
{
    match pairs.pop_lru() {
        None => sum,
        Some((key, entry)) => sum - size(key.as_slice().len(), &entry),
    }
}

// Copies the map into one that hashes so, inserting from the least recently used pair on. Keys and objects are shared.
pub(crate) fn copy_pairs(
    pairs: &Pairs,
    alloc: Global,
    hashes: KeyHashes,
) -> Result<Pairs, AllocError>
    ensures { IfOk result (λ copy. copy ≡ lru_cache pairs.now.entries (2 ^ 64 - 1)) }
{
    let _ = pairs.len();
    let mut copy = LruCache::unbounded_with_hasher(alloc, hashes)?;
    let mut rest = pairs.iter();
    'least: while let Some((key, entry)) = rest.next_back() {
        let key = key.share()?;
        let entry = entry.share()?;
        add_pair(&mut copy, key, entry)?;
    }
    Ok(copy)
}

// The pairs that were used last, at most so many, the most recently used first. Keys and objects are shared.
pub(crate) fn newest_pairs(
    pairs: &Pairs,
    alloc: Global,
    most: usize,
) -> Result<Vec<(CacheKey, Entry)>, AllocError>
    ensures { IfOk result (λ newest. newest.items ≡ take most pairs.now.entries) }
{
    let mut newest = Vec::new(alloc);
    let mut rest = pairs.iter();
    'newest: while newest.len() < most {
        let Some((key, entry)) = rest.next() else {
            break;
        };
        let key = key.share()?;
        let entry = entry.share()?;
        newest.push((key, entry))?;
    }
    Ok(newest)
}

// Inserts a pair with a new key at the front.
fn add_pair(pairs: &mut Pairs, key: CacheKey, entry: Entry) -> Result<(), AllocError>
    requires absent { entry_at key pairs.old.entries ≡ None }
    requires boundless { pairs.old.cap ≡ 2 ^ 64 - 1 }
    ensures { OnOk result (pairs.new ≡ lru_cache ((key, entry) ∷ pairs.old.entries) pairs.old.cap) }
{
    let _ = pairs.len();
    match pairs.put(key, entry) {
        Ok(_) => Ok(()),
        Err(_) => Err(AllocError),
    }
}
