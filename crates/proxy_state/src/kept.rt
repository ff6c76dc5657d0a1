//! What is kept of answers beside the store of the node.
ghost use Rattle.std.specs.Prelude.{◌≡◌, IfSome, true};
ghost use Rattle.http_rules.specs.Stale.{may_serve_stale};
ghost use Rattle.proxy_state.specs.Shelved.{current_age, resident_seconds};

use crate::keeping::Profile;
use crate::parts::PartKeys;
use crate::unasked::UnaskedKeys;
use filter_slots::Moment;
use http_rules::{StaleUse, has_stale_use, has_validator, may_serve_stale};
use object_shelf::Shelf;
use object_store::{CacheKey, Entry, SharedObject};
use std::alloc::Global;
use std::mem;
use std::sync::atomic::{AtomicBool, Ordering};
use std::sync::{Mutex, Wait};

/// The most keys whose objects are to be fetched anew, at a time.
const CHANGED_KEYS: usize = 64;

/// What is kept of answers beside the store of the node, and by which rules.
pub struct Kept {
    /// The rules by which responses are kept and requests answered from what is stored.
    pub profile: Profile,
    /// What origins are asked about, and what may be served while it is stale; `None` if they are asked for whole objects alone. Locked
    /// to look for an object, to put one there, or to take one away.
    pub shelf: Option<Mutex<Shelf>>,
    /// The keys there whose origins are not asked. Locked to note, to forget, or to look for one.
    pub unasked: Mutex<UnaskedKeys>,
    /// For how many seconds after it went stale an object may be served whose origin is down, if its own directives allow no more.
    pub serve_stale: u32,
    /// The keys of what reloads have found changed and has not been fetched anew for all yet. Locked to add or remove one.
    pub changed: Mutex<Vec<CacheKey>>,
    /// Whether there are such keys.
    pub has_changed: AtomicBool,
    /// The most octets of head and body of an object whose client is told that it was stored: one that has no more is within the limits
    /// of the store with any key. `None` by the published rules, which don't tell it.
    pub tells_stored: Option<u32>,
    /// URLs of which parts were asked for and nothing is stored; `None` by the published rules. Locked to note a request or a length.
    pub parts: Option<Mutex<PartKeys>>,
}

// Written by hand, so that what lets it go is one call for the prover (docs/GATE.md).
impl Drop for Kept {
    fn drop(self) {
        let Self {
            profile: _,
            shelf: _,
            unasked: _,
            serve_stale: _,
            changed: _,
            has_changed: _,
            tells_stored: _,
            parts: _,
        } = self;
    }
}

/// An object that is stale and may be served all the same, and its age in seconds.
#[derive(Drop)]
pub struct Stale {
    pub object: SharedObject,
    pub age: u32,
}

/// The object of an entry of the shelf, if it is stale and may be used for this. `serve_stale` are the operator's seconds.
fn stale_in(entry: &Entry, now: Moment, occasion: StaleUse, serve_stale: u32) -> Option<Stale>
    ensures object { IfSome result (λ stale. stale.object ≡ entry.now.object) }
    ensures age { IfSome result (λ stale. stale.age ≡ current_age now entry.now) }
    ensures may { IfSome result (λ _. may_serve_stale occasion (resident_seconds now entry.now) entry.now.object.life serve_stale entry.now.object.head ≡ true) }
{
    let object = entry.object.get();
    let stay = now.millis().saturating_sub(entry.at.millis()) / 1000;
    let stay = u32::try_from(stay).unwrap_or(u32::MAX);
    if !may_serve_stale(object.head(), occasion, stay, object.life(), serve_stale) {
        return None;
    }
    Some(Stale {
        object: entry.object.share().ok()?,
        age: object.age().saturating_add(stay),
    })
}

impl Kept {
    /// What is on the shelf under a key and can be asked about, if its origin is asked. `None` if nothing is.
    pub fn to_ask_about<R: Wait>(&self, rt: &R, key: &[u8]) -> Option<SharedObject> {
        let shelf = self.shelf.as_ref()?;
        if self.unasked.lock(rt).has(key) {
            return None;
        }
        let shelf = shelf.lock(rt);
        let object = &shelf.get(key)?.object;
        if has_validator(object.get().head()) {
            object.share().ok()
        } else {
            None
        }
    }

    /// What is on the shelf under a key, if it is stale at this moment and may be used for this.
    pub fn stale<R: Wait>(
        &self,
        rt: &R,
        now: Moment,
        key: &[u8],
        occasion: StaleUse,
    ) -> Option<Stale> {
        let shelf = self.shelf.as_ref()?;
        let shelf = shelf.lock(rt);
        stale_in(shelf.get(key)?, now, occasion, self.serve_stale)
    }

    /// Puts an object on the shelf that is stored, and that can be asked about or may be of use once it is stale. Returns whether it is
    /// there: `false` also where memory is short, or if it is too large for the shelf.
    pub fn shelve<R: Wait>(
        &self,
        rt: &R,
        key: &CacheKey,
        object: &SharedObject,
        now: Moment,
    ) -> bool {
        let Some(shelf) = &self.shelf else {
            return false;
        };
        let head = object.get().head();
        if !has_validator(head) && !has_stale_use(head, self.serve_stale) {
            return false;
        }
        let (Ok(own), Ok(object)) = (key.share(), object.share()) else {
            return false;
        };
        let put = shelf.lock(rt).put(own, object, now);
        self.unasked.lock(rt).forget(key.as_slice());
        put.is_ok()
    }

    /// Notes the key of what a reload has found changed. Where 64 are noted, it is not.
    pub fn note_changed<R: Wait>(&self, rt: &R, key: CacheKey) {
        let mut changed = self.changed.lock(rt);
        if changed.len() < CHANGED_KEYS {
            drop(changed.push(key));
        } else {
            drop(key);
        }
        self.has_changed.store(true, Ordering::SeqCst);
    }

    /// Removes the keys of what reloads have found changed, which the caller has fetched anew.
    pub fn take_changed<R: Wait>(&self, rt: &R, alloc: Global) -> Vec<CacheKey> {
        if !self.has_changed.load(Ordering::SeqCst) {
            return Vec::new(alloc);
        }
        let mut changed = self.changed.lock(rt);
        self.has_changed.store(false, Ordering::SeqCst);
        mem::replace(&mut *changed, Vec::new(alloc))
    }

    /// Takes what is on the shelf under a key away.
    pub fn unshelve<R: Wait>(&self, rt: &R, key: &CacheKey) {
        if let Some(shelf) = &self.shelf {
            shelf.lock(rt).remove(key.as_slice());
        }
    }

    /// Has what is on the shelf under a key not be asked about any more. What may be of use once it is stale stays there for that.
    pub fn ask_no_more<R: Wait>(&self, rt: &R, key: CacheKey) {
        if self.has_use_when_stale(rt, key.as_slice()) {
            self.unasked.lock(rt).note(key);
        } else {
            self.unshelve(rt, &key);
            drop(key);
        }
    }

    // Whether what is on the shelf under a key may be of use once it is stale.
    fn has_use_when_stale<R: Wait>(&self, rt: &R, key: &[u8]) -> bool {
        let Some(shelf) = &self.shelf else {
            return false;
        };
        let shelf = shelf.lock(rt);
        match shelf.get(key) {
            Some(entry) => has_stale_use(entry.object.get().head(), self.serve_stale),
            None => false,
        }
    }

    /// Counts a request for a part of what is under a key, at this moment. Returns whether the whole is to be fetched for it. Where memory
    /// is short, or by the published rules, it is not counted.
    pub fn note_part<R: Wait>(&self, rt: &R, key: &CacheKey, now: Moment) -> bool {
        let Some(parts) = &self.parts else {
            return false;
        };
        match key.share() {
            Ok(key) => parts.lock(rt).note(key, now.millis()),
            Err(_) => false,
        }
    }
}
