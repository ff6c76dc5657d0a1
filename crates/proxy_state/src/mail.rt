//! Waiting clients and fetches under way.
use crate::in_flight::{Flight, Reading, Unwanted};
use crate::mailbox::{Field, Mailbox};
use crate::unjoined::UnjoinedKeys;
use fair_use::SharedEnd;
use filter_slots::Moment;
use futures::channel::oneshot;
use http_traffic::{Outcome, Progress};
use node_words::MAX_PENDING_FETCHES;
use object_store::{CacheKey, KeyHashes, SharedObject};
use std::alloc::{AllocError, Global};
use std::net::IpAddr;
use std::sync::atomic::{AtomicBool, Ordering};
use std::sync::{Arc, Mutex, RwLock, Wait};
use std::time::{Clock, Instant};

/// One attempt of a fetch that was not started.
#[derive(Clone, Copy)]
pub struct Attempt {
    pub fetch: u32,
    pub attempt: u16,
    /// Whether that is for want of clients.
    pub is_unwanted: bool,
}

/// Waiting clients and fetches under way. Generic as `Mailbox` is.
pub struct Letters<A, O, W, D> {
    /// Waiting clients and in-flight fetches. Locked by a thread that serves clients when one comes or leaves, by a thread whose action
    /// starts a fetch or answers a client, and by a fetch thread when a fetch ends or a long answer of one begins.
    pub mailbox: Mutex<Mailbox<A, O, W, D>>,
    /// Attempts that could not be started and that no thread has reported to the node yet. Locked to add or remove one.
    pub failed: Mutex<Vec<Attempt>>,
    /// Held by each fetch thread from when it looks whether what it fetched was changed meanwhile until the node has the result, and by
    /// one that notes such a change, alone: no change is missed between the two.
    pub changes: Arc<RwLock<()>>,
    /// Whether something may be in flight that was changed meanwhile. Set and unset while `mailbox` is locked.
    pub has_outdated: AtomicBool,
    /// URLs whose next askers don't join a fetch. Locked to note one, to forget one, or to look for one that was joined.
    pub unjoined: Mutex<UnjoinedKeys>,
    /// Whether shared fetches are ended that have no client.
    pub ends_unwanted: bool,
}

/// The same with the channels of this program.
pub type Mail = Letters<
    oneshot::Sender<Outcome>,
    SharedObject,
    oneshot::Sender<()>,
    oneshot::Receiver<()>,
>;

// Written by hand, so that what lets it go is one call for the prover (docs/GATE.md).
impl<A: Drop, O: Drop, W: Drop, D: Drop> Drop for Letters<A, O, W, D> {
    fn drop(self) {
        let Self {
            mailbox: _,
            failed: _,
            changes: _,
            has_outdated: _,
            unjoined: _,
            ends_unwanted: _,
        } = self;
    }
}

/// These fields of a client's request without Accept-Encoding: what is asked about was fetched without the fields of any client, so
/// that an entity tag for another coding would not be its own (RFC 9110, section 8.8.3.3).
fn without_codings(alloc: Global, fields: Vec<Field>) -> Result<Vec<Field>, AllocError> {
    let mut kept = Vec::new(alloc);
    for (name, value) in fields {
        if name.as_slice() != b"accept-encoding".as_slice() {
            kept.push((name, value))?;
        }
    }
    Ok(kept)
}

impl<A: Drop, O: Drop, W: Drop, D: Reading> Letters<A, O, W, D> {
    /// Nobody waits, and nothing is under way; keys are hashed so. Shared fetches end for want of clients as `Mailbox::new` says. Errors: out of
    /// memory.
    pub fn new(
        alloc: Global,
        hashes: KeyHashes,
        quick_abort: Option<u64>,
    ) -> Result<Letters<A, O, W, D>, AllocError> {
        Ok(Letters {
            mailbox: Mutex::new(Mailbox::new(alloc, quick_abort)),
            failed: Mutex::new(Vec::with_capacity(alloc, MAX_PENDING_FETCHES)?),
            changes: Arc::new(alloc, RwLock::new(()))?,
            has_outdated: AtomicBool::new(false),
            unjoined: Mutex::new(UnjoinedKeys::new(alloc, hashes)?),
            ends_unwanted: quick_abort.is_some(),
        })
    }

    /// Notes that a fetch of `key` is in flight. Errors: out of memory; it is not.
    pub fn begin<R: Wait>(
        &self,
        rt: &R,
        fetch: u32,
        key: &CacheKey,
        flight: Flight,
        sender: W,
        progress: Option<Arc<Progress>>,
    ) -> Result<(), AllocError> {
        match key.share() {
            Ok(own) => self
                .mailbox
                .lock(rt)
                .begin(fetch, own, flight, sender, progress),
            Err(fault) => {
                drop(sender);
                drop(progress);
                Err(fault)
            }
        }
    }

    /// Ends the shared fetches that have no client and are to end.
    pub fn end_unwanted<R: Wait + Clock>(&self, rt: &R) {
        if self.ends_unwanted
            && let Ok(now) = Instant::now(rt)
        {
            self.mailbox.lock(rt).end_unwanted(now);
        }
    }

    /// Removes a fetch if it was ended for want of clients: what is known of it.
    pub fn take_unwanted<R: Wait>(&self, rt: &R, fetch: u32) -> Option<Unwanted> {
        if self.ends_unwanted {
            self.mailbox.lock(rt).take_unwanted(fetch)
        } else {
            None
        }
    }

    /// Removes a client that has gone, as `Mailbox::remove` says.
    pub fn remove<R: Wait + Clock>(&self, rt: &R, client: u64) {
        let now = Instant::now(rt).ok();
        self.mailbox.lock(rt).remove(client, now);
    }

    /// Notes that a client waits for what is fetched of this key for all, where that makes a difference. Where memory is short, it is not
    /// noted.
    pub fn attend<R: Wait>(&self, rt: &R, alloc: Global, client: u64, key: CacheKey) {
        if self.ends_unwanted {
            drop(self.mailbox.lock(rt).attend(alloc, client, key, false));
        } else {
            drop(key);
        }
    }

    /// Notes that what is fetched of this key for all needs no client for some time from now on.
    pub fn spare<R: Wait + Clock>(&self, rt: &R, alloc: Global, key: &[u8]) {
        if self.ends_unwanted
            && let Ok(now) = Instant::now(rt)
        {
            self.mailbox.lock(rt).spare(alloc, key, now);
        }
    }

    /// Notes that what is fetched of this key for all needs clients again.
    pub fn spare_no_more<R: Wait>(&self, rt: &R, key: &[u8]) {
        if self.ends_unwanted {
            self.mailbox.lock(rt).spare_no_more(key);
        }
    }

    /// Whether a fetch of this key for all is to begin: a client waits for it, or none needs to, or `is_asking` says that it asks about what is
    /// there. After one was ended for want of clients (`is_unwanted`), only a client counts.
    pub fn is_wanted<R: Wait + Clock>(
        &self,
        rt: &R,
        key: &[u8],
        is_asking: bool,
        is_unwanted: bool,
    ) -> bool {
        let Ok(now) = Instant::now(rt) else {
            return true;
        };
        let mailbox = self.mailbox.lock(rt);
        if is_unwanted {
            mailbox.may_be_awaited(key)
        } else {
            is_asking || mailbox.is_wanted(key, now)
        }
    }

    /// Notes that a fetch is no longer in flight.
    pub fn end<R: Wait>(&self, rt: &R, fetch: u32) {
        self.mailbox.lock(rt).end(fetch);
    }

    /// Notes what a fetch in flight asks about, if it asks.
    pub fn note_asked<R: Wait>(&self, rt: &R, fetch: u32, asked: Option<O>) {
        if let Some(object) = asked {
            self.mailbox.lock(rt).ask(fetch, object);
        }
    }

    /// The address of the client that a fetch of this key is made for: its owner, or the first that waits for it. `None` if there is none.
    pub fn asker_of<R: Wait>(&self, rt: &R, owner: Option<u64>, key: &[u8]) -> Option<IpAddr> {
        self.mailbox.lock(rt).asker_of(owner, key)
    }

    /// Whether a client that owns a fetch lets that ask about what is there; where no client does, it may.
    pub fn validates<R: Wait>(&self, rt: &R, owner: Option<u64>) -> bool {
        match owner {
            Some(client) => self.mailbox.lock(rt).validates(client),
            None => true,
        }
    }

    /// The fields of the client that owns a private fetch, without Accept-Encoding where something is asked about.
    pub fn own_fields<R: Wait>(
        &self,
        rt: &R,
        alloc: Global,
        client: u64,
        fetch: u32,
        is_asking: bool,
    ) -> Result<Vec<Field>, AllocError> {
        let found = self.mailbox.lock(rt).fields_for(alloc, client, fetch)?;
        match found {
            Some(kept) if is_asking => without_codings(alloc, kept),
            Some(kept) => Ok(kept),
            None => Err(AllocError),
        }
    }

    /// The CDN-Loop fields of the client that began the shared fetch of a key: those of `marked`, whose own request has it started, or else
    /// of whoever is noted. Errors: out of memory.
    pub fn marks<R: Wait>(
        &self,
        rt: &R,
        alloc: Global,
        marked: Option<u64>,
        key: &[u8],
    ) -> Result<Vec<Field>, AllocError> {
        let mailbox = self.mailbox.lock(rt);
        match marked {
            Some(client) => mailbox.fields_of(alloc, client),
            None => mailbox.loop_fields(alloc, key),
        }
    }

    /// Records an attempt that could not be started, for some thread to report to the node.
    pub fn record_failure<R: Wait>(&self, rt: &R, failed: Attempt) {
        let _ = self.failed.lock(rt).push(failed);
    }

    /// Removes a recorded attempt, which the caller reports to the node.
    pub fn next_failure<R: Wait>(&self, rt: &R) -> Option<Attempt> {
        self.failed.lock(rt).pop()
    }

    /// Notes how a fetch of `key` for all clients has ended now, for who asks for it next.
    pub fn note_shared_end<R: Wait>(&self, rt: &R, key: CacheKey, end: SharedEnd, now: Moment) {
        self.unjoined.lock(rt).note(key, end, now);
    }

    /// Whether this client, which has joined a fetch of `key`, is to ask alone: it waits, and a short time ago the answer was one that may not
    /// be stored.
    pub fn is_kept_out<R: Wait>(&self, rt: &R, client: u64, key: &CacheKey, now: Moment) -> bool {
        self.unjoined.lock(rt).has(key, now) && self.mailbox.lock(rt).waits(client)
    }

    /// Has what is being fetched of a key given only to those who wait for it.
    pub fn outdate<R: Wait>(&self, rt: &R, key: &CacheKey) {
        let mut mailbox = self.mailbox.lock(rt);
        if mailbox.outdate(key.as_slice()) {
            self.has_outdated.store(true, Ordering::SeqCst);
        }
    }

    /// Whether what is being fetched of a key was changed meanwhile, so that nobody who comes now may have it.
    pub fn is_outdated<R: Wait>(&self, rt: &R, key: &CacheKey) -> bool {
        if !self.has_outdated.load(Ordering::SeqCst) {
            return false;
        }
        let mailbox = self.mailbox.lock(rt);
        if !mailbox.has_outdated() {
            self.has_outdated.store(false, Ordering::SeqCst);
            return false;
        }
        mailbox.is_outdated(key.as_slice())
    }

    /// The numbers of waiting clients and of fetches in flight.
    pub fn counts<R: Wait>(&self, rt: &R) -> (u64, u64) {
        let mailbox = self.mailbox.lock(rt);
        (mailbox.waiting() as u64, mailbox.fetching() as u64)
    }
}
