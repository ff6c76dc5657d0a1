//! The keys of requests that come again and again.
ghost use Rattle.std.specs.Prelude.{◌≡◌, IfOk, IfSome, IsErrOf, Some, None};
ghost use Rattle.http_rules.specs.Targets.{target_key, IsTooLong};

use http_rules::{TargetFault, key_of};
use object_store::CacheKey;
use std::alloc::{AllocError, Global};
use std::hash::{FoldHasher, Hasher};
use std::marker::Model;

// The most keys that are remembered, each at a place of its own.
const PLACES: usize = 8192;

// The most octets of a key that is remembered.
const MOST_OCTETS: usize = 512;

// The key of a target that is written as its key is. Contracts see the octets of both.
#[derive(Drop)]
struct Known {
    key: CacheKey,
}

impl Model for Known {
    ghost use Rattle.std.specs.Prelude.{◌≡◌, List, ℕ, Some};
    ghost use Rattle.http_rules.specs.Targets.{target_key};

    ghost Value = { List ℕ };

    ghost view = { λ k. k.key };

    ghost invariant = { λ k. target_key k.key ≡ Some k.key };
}

impl Known {
    // Remembers the key of a target. Returns `None` if it is written otherwise or long, or if there are too many handles.
    fn new(target: &[u8], key: &CacheKey) -> Option<Known>
        requires { target_key target.now ≡ Some key.now }
    {
        if MOST_OCTETS < target.len() || target != key.as_slice() {
            return None;
        }
        match key.share() {
            Ok(key) => Some(Known { key }),
            Err(_) => None,
        }
    }

    // The key of this target, if it is this one.
    fn key_of(&self, target: &[u8]) -> Option<CacheKey>
        ensures { IfSome result (λ key. target_key target.now ≡ Some key) }
    {
        if target != self.key.as_slice() {
            return None;
        }
        match self.key.share() {
            Ok(key) => Some(key),
            Err(_) => None,
        }
    }
}

/// The keys of targets, of which up to 8,192 with at most 512 octets each are remembered, since to parse a URL takes much longer
/// than to compare it. Only targets are remembered that are written as their keys are; one takes the place of another where
/// both have the same place.
pub struct KnownKeys {
    alloc: Global,
    // Empty until a key is remembered.
    places: Vec<Option<Known>>,
}

// Written by hand, so that what lets it go is one call for the prover (docs/GATE.md).
impl Drop for KnownKeys {
    fn drop(self) {
        let Self {
            alloc: _,
            places: _,
        } = self;
    }
}

impl KnownKeys {
    /// No keys. Takes no memory until one is remembered.
    pub fn new(alloc: Global) -> KnownKeys {
        KnownKeys {
            alloc,
            places: Vec::new(alloc),
        }
    }

    /// The key of a target, as `http_rules::key_of` gives it. Where memory is short, it is not remembered.
    pub fn key_of(&mut self, target: &str) -> Result<CacheKey, TargetFault>
        ensures key { IfOk result (λ key. target_key target.now ≡ Some key) }
        ensures not_http { IsErrOf result TargetFault.NotHttp → target_key target.now ≡ None }
        ensures too_long { IsErrOf result TargetFault.TooLong → IsTooLong target.now }
    {
        let place = place_of(target.as_bytes());
        if let Some(key) = self.known(place, target.as_bytes()) {
            return Ok(key);
        }
        match key_of(self.alloc, target) {
            Ok(key) => {
                self.remember(place, target.as_bytes(), &key);
                Ok(key)
            }
            Err(fault) => Err(fault),
        }
    }

    // The key of this target, if it is the one that is remembered at this place.
    fn known(&self, place: usize, target: &[u8]) -> Option<CacheKey>
        ensures { IfSome result (λ key. target_key target.now ≡ Some key) }
    {
        match self.places.get(place) {
            Some(Some(known)) => known.key_of(target),
            _ => None,
        }
    }

    // Remembers the key of a target at this place.
    fn remember(&mut self, place: usize, target: &[u8], key: &CacheKey)
        requires { target_key target.now ≡ Some key.now }
    {
        let Some(known) = Known::new(target, key) else {
            return;
        };
        if self.places.is_empty() && self.make_places().is_err() {
            self.places = Vec::new(self.alloc);
            return;
        }
        if let Some(kept) = self.places.get_mut(place) {
            *kept = Some(known);
        }
    }

    // Makes all places, where no key is remembered as yet. Errors: out of memory.
    fn make_places(&mut self) -> Result<(), AllocError> {
        self.places.reserve_exact(PLACES)?;
        for _ in 0..PLACES {
            self.places.push(None)?;
        }
        Ok(())
    }
}

// The place of a target.
fn place_of(target: &[u8]) -> usize {
    let mut hasher = FoldHasher::default();
    hasher.write(target);
    (hasher.finish() >> 32) as usize % PLACES
}
