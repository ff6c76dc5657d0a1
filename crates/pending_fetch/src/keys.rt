//! An index of the shared fetches: cache key to fetch number.

ghost use Rattle.std.specs.Prelude.{◌≡◌, ℕ, List, Some, None, OnOk, OnErr, if◌then◌else◌};
ghost use Rattle.pending_fetch.specs.Fetches.{shares};
ghost use Rattle.pending_fetch.specs.Indexes.{number_under};

use crate::kept::KeptFetch;
use object_store::{CacheKey, KeyHashes, KeyOctets};
use std::alloc::{AllocError, Global};
use std::collections::HashMap;
use std::marker::Model;

/// A hash map from the keys of the shared fetches to their numbers. Contracts see the list of its entries.
#[derive(Drop)]
pub struct Keys {
    map: HashMap<CacheKey, u32, KeyHashes>,
}

impl Model for Keys {
    ghost use Rattle.pending_fetch.specs.Indexes.{Keyed};

    ghost Value = { Keyed };

    ghost view = { λ keys. keys.map.entries };
}

impl Keys {
    /// An empty index that hashes keys so. Does not allocate.
    pub fn new(alloc: Global, hashes: KeyHashes) -> Keys
        ensures { (key : List ℕ) → number_under key result ≡ None }
    {
        Keys {
            map: HashMap::with_hasher(alloc, hashes),
        }
    }

    /// The number of the shared fetch for this key, or `None` if there is none.
    pub fn number_of(&self, key: &[u8]) -> Option<u32>
        ensures { result ≡ number_under key.now self.now }
    {
        self.map.get(KeyOctets { octets: key }).copied()
    }

    /// Adds a fetch if it is shared; a private one is not indexed. On an error (out of memory, or too many owners of the key)
    /// nothing changes.
    pub fn open(&mut self, fetch: &KeptFetch) -> Result<(), AllocError>
        ensures ok { OnOk result ((key : List ℕ) → number_under key self.new ≡ (if shares key fetch.now then Some fetch.now.number else number_under key self.old)) }
        ensures err { OnErr result ((key : List ℕ) → number_under key self.new ≡ number_under key self.old) }
    {
        if !fetch.is_shared() {
            return Ok(());
        }
        let key = fetch.key().share()?;
        match self.map.insert(key, fetch.number()) {
            Ok(_) => Ok(()),
            Err(_) => Err(AllocError),
        }
    }

    /// Removes a fetch, if it is shared.
    pub fn close(&mut self, fetch: &KeptFetch)
        ensures { (key : List ℕ) → number_under key self.new ≡ (if shares key fetch.now then None else number_under key self.old) }
    {
        if fetch.is_shared() {
            self.map.remove(fetch.key());
        }
    }
}
