//! What origins are not asked about.
use lru::LruCache;
use object_store::{CacheKey, KeyHashes, KeyOctets};
use std::alloc::{AllocError, Global};

/// The most keys that are known at a time.
const MOST_KEYS: usize = 1_024;

/// Keys of what is on the shelf and its origin is not asked about: it was, and has not answered as it should.
pub struct UnaskedKeys {
    // The ones that were noted last before the others.
    keys: LruCache<CacheKey, (), KeyHashes>,
}

// Written by hand, so that what lets it go is one call for the prover (docs/GATE.md).
impl Drop for UnaskedKeys {
    fn drop(self) {
        let Self { keys: _keys } = self;
    }
}

impl UnaskedKeys {
    /// None yet; keys are hashed so. Errors: out of memory.
    pub fn new(alloc: Global, hashes: KeyHashes) -> Result<UnaskedKeys, AllocError> {
        Ok(UnaskedKeys {
            keys: LruCache::unbounded_with_hasher(alloc, hashes)?,
        })
    }

    /// Notes a key. Of 1,024 others the one that was noted first is forgotten. Where memory is short, nothing is noted.
    pub fn note(&mut self, key: CacheKey) {
        drop(self.keys.put(key, ()));
        if self.keys.len() > MOST_KEYS {
            drop(self.keys.pop_lru());
        }
    }

    /// Forgets a key, under which there is something else now.
    pub fn forget(&mut self, key: &[u8]) {
        drop(self.keys.pop(KeyOctets { octets: key }));
    }

    /// Whether this key was noted.
    pub fn has(&self, key: &[u8]) -> bool {
        self.keys.peek(KeyOctets { octets: key }).is_some()
    }
}
