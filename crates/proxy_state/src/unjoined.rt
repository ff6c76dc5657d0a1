//! URLs whose answers could not be stored a short time ago: who asks for them waits for no other client's fetch.
use fair_use::{MOST_UNJOINED, SharedEnd, is_recent, is_remembered};
use filter_slots::Moment;
use lru::LruCache;
use object_store::{CacheKey, KeyHashes};
use std::alloc::{AllocError, Global};

/// URLs whose answers could not be stored a short time ago.
pub struct UnjoinedKeys {
    // When that was noted of each, the ones that were noted last before the others.
    noted: LruCache<CacheKey, Moment, KeyHashes>,
}

// Written by hand, so that what lets it go is one call for the prover (docs/GATE.md).
impl Drop for UnjoinedKeys {
    fn drop(self) {
        let Self { noted: _noted } = self;
    }
}

impl UnjoinedKeys {
    /// None yet; keys are hashed so. Errors: out of memory.
    pub fn new(alloc: Global, hashes: KeyHashes) -> Result<UnjoinedKeys, AllocError> {
        Ok(UnjoinedKeys {
            noted: LruCache::unbounded_with_hasher(alloc, hashes)?,
        })
    }

    /// Notes how a fetch of this URL for all clients has ended now: it is remembered where `is_remembered` says so, and forgotten where the
    /// answer may be stored. Of 1,024 others the one that was noted first is forgotten. Where memory is short, nothing is noted.
    pub fn note(&mut self, key: CacheKey, end: SharedEnd, now: Moment) {
        if is_remembered(end) {
            drop(self.noted.put(key, now));
            if self.noted.len() > MOST_UNJOINED {
                drop(self.noted.pop_lru());
            }
            return;
        }
        if end == SharedEnd::Storable {
            drop(self.noted.pop(&key));
        }
        drop(key);
    }

    /// Whether the answer of this URL is known to be one that can't be stored.
    pub fn has(&self, key: &CacheKey, now: Moment) -> bool {
        match self.noted.peek(key) {
            Some(noted) => is_recent(now.millis().saturating_sub(noted.millis())),
            None => false,
        }
    }

    /// How many are known.
    pub fn len(&self) -> usize {
        self.noted.len()
    }
}
