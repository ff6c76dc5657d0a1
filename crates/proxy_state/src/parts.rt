//! URLs of which nothing is stored and parts were asked for a short time ago.
use http_rules::PartRequests;
use lru::LruCache;
use object_store::{CacheKey, KeyHashes};
use std::alloc::{AllocError, Global};

/// The most URLs whose requests for parts are counted.
const PART_KEYS: usize = 1_024;

/// The requests for parts of each of these URLs.
pub struct PartKeys {
    // The ones of which parts were asked for last before the others.
    requests: LruCache<CacheKey, PartRequests, KeyHashes>,
    // The most octets that a stored body has.
    limit: u32,
}

// Written by hand, so that what lets it go is one call for the prover (docs/GATE.md).
impl Drop for PartKeys {
    fn drop(self) {
        let Self {
            requests: _,
            limit: _,
        } = self;
    }
}

impl PartKeys {
    /// None yet; keys are hashed so. Stored bodies have at most `limit` octets. Errors: out of memory.
    pub fn new(alloc: Global, hashes: KeyHashes, limit: u32) -> Result<PartKeys, AllocError> {
        Ok(PartKeys {
            requests: LruCache::unbounded_with_hasher(alloc, hashes)?,
            limit,
        })
    }

    // The requests for parts of this URL.
    fn requests_for(&self, key: &CacheKey) -> PartRequests {
        match self.requests.peek(key) {
            Some(requests) => *requests,
            None => PartRequests::none(),
        }
    }

    /// Notes a request for a part of this URL, at this time in milliseconds. Returns whether the whole is to be fetched for it; then the
    /// requests are counted anew. Of 1,024 others the URL is forgotten that was asked for longest ago. Where memory is short, nothing is
    /// noted.
    pub fn note(&mut self, key: CacheKey, now: u64) -> bool {
        let requests = self.requests_for(&key);
        if requests.is_third(now, self.limit) {
            drop(self.requests.pop(&key));
            drop(key);
            return true;
        }
        self.put(key, requests.with_request(now));
        false
    }

    /// Notes the length of the whole of which a part has come, if parts of this URL are counted.
    pub fn note_length(&mut self, key: CacheKey, length: u32) {
        let requests = self.requests_for(&key);
        if requests.last.is_some() {
            self.put(key, requests.with_length(length));
        } else {
            drop(key);
        }
    }

    // Puts the requests for a URL in front of all others.
    fn put(&mut self, key: CacheKey, requests: PartRequests) {
        drop(self.requests.put(key, requests));
        if self.requests.len() > PART_KEYS {
            drop(self.requests.pop_lru());
        }
    }
}
