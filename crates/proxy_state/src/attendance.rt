//! Who waits for what is fetched for all clients, by key.
use fair_use::is_alone_too_long;
use std::alloc::{AllocError, Global};
use std::collections::BTreeMap;
use std::time::Instant;

/// The most keys whose fetches may have no client for some time: more than there can be fetches.
const MOST_SPARED: usize = 1_024;

/// Who waits for what is fetched of one key.
#[derive(Clone, Copy)]
struct Attending {
    // How many clients do.
    clients: u64,
    // The one that may have the answer while it is collected.
    leader: Option<u64>,
}

/// Who waits for what is fetched for all clients, and what may be fetched for none of them for some time, by key.
pub(crate) struct Attendance {
    waiting: BTreeMap<Vec<u8>, Attending>,
    // What was begun for no client, or for one that has something stale in its place, and since when it has none.
    spared: BTreeMap<Vec<u8>, Instant>,
}

// Written by hand, so that what lets it go is one call for the prover (docs/GATE.md).
impl Drop for Attendance {
    fn drop(self) {
        let Self {
            waiting: _,
            spared: _,
        } = self;
    }
}

/// The milliseconds between two times.
pub(crate) fn millis_between(since: Instant, now: Instant) -> u64 {
    let passed = now.saturating_duration_since(since);
    u64::try_from(passed.as_millis()).unwrap_or(u64::MAX)
}

impl Attendance {
    /// Nobody waits.
    pub(crate) fn new(alloc: Global) -> Attendance {
        Attendance {
            waiting: BTreeMap::new(alloc),
            spared: BTreeMap::new(alloc),
        }
    }

    /// Whether anybody waits for what is fetched of this key.
    pub(crate) fn has(&self, key: &[u8]) -> bool {
        self.waiting.contains_key(key)
    }

    /// Notes one more client that waits for what is fetched of this key. Errors: out of memory.
    pub(crate) fn join(&mut self, alloc: Global, key: &[u8]) -> Result<(), AllocError> {
        if let Some(attending) = self.waiting.get_mut(key) {
            attending.clients = attending.clients.saturating_add(1);
            return Ok(());
        }
        let first = Attending {
            clients: 1,
            leader: None,
        };
        match self.waiting.insert(key.to_vec(alloc)?, first) {
            Ok(_) => Ok(()),
            Err(_) => Err(AllocError),
        }
    }

    /// Notes that one of the clients that wait for this key may have the answer while it is collected.
    pub(crate) fn lead(&mut self, key: &[u8], client: u64) {
        if let Some(attending) = self.waiting.get_mut(key) {
            attending.leader = Some(client);
        }
    }

    /// The client that waits for this key and may have the answer while it is collected.
    pub(crate) fn leader(&self, key: &[u8]) -> Option<u64> {
        self.waiting.get(key)?.leader
    }

    /// Notes that one of the clients that wait for this key does so no more.
    pub(crate) fn leave(&mut self, key: &[u8], client: u64) {
        let Some(attending) = self.waiting.get_mut(key) else {
            return;
        };
        if attending.leader == Some(client) {
            attending.leader = None;
        }
        attending.clients = attending.clients.saturating_sub(1);
        if attending.clients == 0 {
            let _ = self.waiting.remove(key);
        }
    }

    /// Notes that what is fetched of this key needs no client for some time from now on. Where memory is short, or too many are, it is not.
    pub(crate) fn spare(&mut self, alloc: Global, key: &[u8], now: Instant) {
        if self.spared.len() >= MOST_SPARED {
            self.forget_old(now);
        }
        if self.spared.len() < MOST_SPARED
            && let Ok(octets) = key.to_vec(alloc)
        {
            drop(self.spared.insert(octets, now));
        }
    }

    /// Since when nobody waits for what is fetched of this key, if it needs no client at this time.
    pub(crate) fn spared_since(&self, key: &[u8], now: Instant) -> Option<Instant> {
        let since = *self.spared.get(key)?;
        if is_alone_too_long(millis_between(since, now)) {
            None
        } else {
            Some(since)
        }
    }

    /// Notes that the last client of this key has gone now.
    pub(crate) fn note_last(&mut self, key: &[u8], now: Instant) {
        if let Some(since) = self.spared.get_mut(key) {
            *since = now;
        }
    }

    /// Forgets that what is fetched of this key needs no client: it was fetched.
    pub(crate) fn forget(&mut self, key: &[u8]) {
        let _ = self.spared.remove(key);
    }

    /// Forgets what had its time without a client.
    pub(crate) fn forget_old(&mut self, now: Instant) {
        self.spared
            .retain(|_, since| !is_alone_too_long(millis_between(*since, now)));
    }

    /// Nobody waits any more.
    pub(crate) fn clear(&mut self) {
        self.waiting.clear();
        self.spared.clear();
    }
}
