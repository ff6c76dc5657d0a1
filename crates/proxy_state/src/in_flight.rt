//! A fetch that is in flight.
use crate::attendance::millis_between;
use fair_use::{ends_unwanted, is_alone_too_long};
use futures::channel::oneshot;
use http_traffic::{Progress, Supplier};
use node_terms::Mode;
use object_store::CacheKey;
use std::sync::Arc;
use std::time::Instant;

/// What is known of an in-flight fetch.
#[derive(Clone, Copy)]
pub struct Flight {
    /// Private, or shared between clients.
    pub mode: Mode,
    /// Who is asked.
    pub supplier: Supplier,
    /// Whether it is asked only for what it has stored.
    pub only_if_cached: bool,
    /// When it began. `None` if the clock could not be read.
    pub began: Option<Instant>,
}

impl Flight {
    /// Whether the origin is asked, and not a neighbour.
    pub fn is_origin(&self) -> bool {
        self.supplier == Supplier::Origin
    }
}

/// A fetch that was ended for want of clients.
#[derive(Clone, Copy)]
pub struct Unwanted {
    pub flight: Flight,
    /// Whether a client waits for it again.
    pub is_awaited: bool,
}

/// What a fetch in flight is looked at by.
#[derive(Clone, Copy)]
pub(crate) struct Look {
    /// Under how many missing octets it goes on without a client.
    pub(crate) quick_abort: u64,
    pub(crate) now: Instant,
}

/// Says when a client reads no more that has the answer while it is collected. What is in flight is generic over this, over what it asks about and
/// over what cancels it, since the prover does not look behind a type parameter (docs/GATE.md).
pub trait Reading: Drop {
    /// Whether the client reads.
    fn is_read(&mut self) -> bool;
}

impl Reading for oneshot::Receiver<()> {
    fn is_read(&mut self) -> bool {
        matches!(self.try_recv(), Ok(None))
    }
}

/// An in-flight fetch.
#[derive(Drop)]
pub(crate) struct InFlight<O, W, D> {
    /// The key of what is fetched.
    pub(crate) key: CacheKey,
    pub(crate) flight: Flight,
    /// The object whose validators its request has.
    pub(crate) asked: Option<O>,
    /// Whether what it fetches was changed while it is under way.
    pub(crate) is_outdated: bool,
    // Cancels the fetch when dropped. `None` once it was ended for want of clients.
    wanted: Option<W>,
    // How much of its answer has come, if that is asked for.
    progress: Option<Arc<Progress>>,
    // Whether it needs no client for some time.
    is_spared: bool,
    // Since when it has no client, as far as that is known.
    alone: Option<Instant>,
    // Complete once the client reads no more that has the answer while it is collected.
    reading: Option<D>,
}

impl<O: Drop, W: Drop, D: Reading> InFlight<O, W, D> {
    /// A fetch of this key, which is cancelled when `wanted` is dropped, and which needs no client for some time if it has had none
    /// since `spared`.
    pub(crate) fn new(
        key: CacheKey,
        flight: Flight,
        wanted: W,
        progress: Option<Arc<Progress>>,
        spared: Option<Instant>,
    ) -> InFlight<O, W, D> {
        InFlight {
            key,
            flight,
            asked: None,
            is_outdated: false,
            wanted: Some(wanted),
            progress,
            is_spared: spared.is_some(),
            alone: spared,
            reading: None,
        }
    }

    /// Whether who joined it would have what was changed meanwhile.
    pub(crate) fn misleads(&self) -> bool {
        self.is_outdated && self.flight.mode == Mode::Shared
    }

    /// Whether it is one of this key for all clients.
    pub(crate) fn is_shared_of(&self, key: &[u8]) -> bool {
        self.flight.mode == Mode::Shared && self.key.as_slice() == key
    }

    /// Whether it needs no client for some time: nobody waited for it from its start, or it asks about what is there.
    pub(crate) fn is_spared(&self) -> bool {
        self.is_spared || self.asked.is_some()
    }

    /// Whether it was ended for want of clients.
    pub(crate) fn is_ended(&self) -> bool {
        self.wanted.is_none()
    }

    /// Notes that it needs no client for some time.
    pub(crate) fn spare(&mut self) {
        self.is_spared = true;
    }

    /// Notes that a client has the answer while it is collected, which says when it reads no more.
    pub(crate) fn note_reading(&mut self, reading: D) {
        self.reading = Some(reading);
    }

    // Whether a client reads the answer while it is collected.
    fn is_read(&mut self) -> bool {
        match &mut self.reading {
            Some(reading) => reading.is_read(),
            None => false,
        }
    }

    /// Looks at it as its last client has gone.
    pub(crate) fn leave(&mut self, look: Look) {
        self.alone = None;
        self.look(false, look);
    }

    /// Looks whether it is to go on: it is ended if no client waits for it, none reads its answer, and it is not nearly whole, or has been
    /// without one for too long where it needs none.
    pub(crate) fn look(&mut self, is_attended: bool, look: Look) {
        if is_attended || self.is_read() {
            self.alone = None;
            return;
        }
        let since = self.alone.unwrap_or(look.now);
        self.alone = Some(since);
        if self.is_over(since, look) {
            drop(self.wanted.take());
        }
    }

    // Whether it ends, which has had no client since then.
    fn is_over(&self, since: Instant, look: Look) -> bool {
        if self.is_spared() {
            return is_alone_too_long(millis_between(since, look.now));
        }
        match &self.progress {
            Some(progress) => {
                ends_unwanted(look.quick_abort, progress.announced(), progress.received())
            }
            None => false,
        }
    }
}
