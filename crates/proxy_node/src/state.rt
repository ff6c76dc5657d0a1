//! The state that the threads of a proxy share, with the node.
use crate::overseen::Overseen;
use filter_slots::{Moment, Slots};
use node_book::Desk;
use node_words::{NeighbourView, NoMemory, Sizes, Stats};
use object_store::{CacheKey, Entry};
use proxy_state::{Fetchers, Kept, Mail, Outward, Passes, Shared, Stopping, Tap, Telling};
use query_handles::Timeline;
use std::alloc::Global;
use std::sync::Wait;
use std::sync::ledger::Ledger;
use std::time::Clock;

/// Waiting clients and fetches under way, as a part of the shared state. The state is generic over its parts, since the prover looks at all of
/// a type that a function or a bound of it names (docs/GATE.md), but not at what stands behind a type parameter: so each part has a trait of its own.
pub trait MailPart: Drop {
    /// The part.
    fn mail(&self) -> &Mail;
}

/// The ways to the threads that fetch, as a part.
pub trait FetchersPart: Drop {
    /// The part.
    fn fetchers(&self) -> &Fetchers;
}

/// What is asked of other servers, and of which, as a part.
pub trait OutwardPart: Drop {
    /// The part.
    fn outward(&self) -> &Outward;
}

/// What is kept of answers beside the store of the node, as a part.
pub trait KeptPart: Drop {
    /// The part.
    fn kept(&self) -> &Kept;
}

/// What passes the proxy without the node, as a part.
pub trait PassesPart: Drop {
    /// The part.
    fn passes(&self) -> &Passes;
}

/// Where the administration hands a capture to the query thread, as a part.
pub trait TapPart: Drop {
    /// The part.
    fn tap(&self) -> &Tap;
}

/// What is counted and told, as a part.
pub trait TellingPart: Drop {
    /// The part.
    fn telling(&self) -> &Telling;
}

/// The end of the proxy, as a part.
pub trait StoppingPart: Drop {
    /// The part.
    fn stopping(&self) -> &Stopping;
}

/// The node and its event log, as a part.
pub trait Desks: Drop {
    /// The ledger of its log.
    type Ledger: Ledger;

    /// The desk.
    fn desk(&self) -> &Desk<Self::Ledger>;

    /// The desk, taken out.
    fn into_desk(self) -> Desk<Self::Ledger>;
}

impl<L: Ledger> Desks for Desk<L> {
    type Ledger = L;

    fn desk(&self) -> &Desk<L> {
        self
    }

    fn into_desk(self) -> Desk<L> {
        self
    }
}

impl MailPart for Mail {
    fn mail(&self) -> &Mail {
        self
    }
}

impl FetchersPart for Fetchers {
    fn fetchers(&self) -> &Fetchers {
        self
    }
}

impl OutwardPart for Outward {
    fn outward(&self) -> &Outward {
        self
    }
}

impl KeptPart for Kept {
    fn kept(&self) -> &Kept {
        self
    }
}

impl PassesPart for Passes {
    fn passes(&self) -> &Passes {
        self
    }
}

impl TapPart for Tap {
    fn tap(&self) -> &Tap {
        self
    }
}

impl TellingPart for Telling {
    fn telling(&self) -> &Telling {
        self
    }
}

impl StoppingPart for Stopping {
    fn stopping(&self) -> &Stopping {
        self
    }
}

/// State shared by the threads of a proxy. No thread holds two of its locks at once, but for `changes`, which a fetch thread holds while
/// it uses others to hand a result in.
#[derive(Drop)]
pub struct ProxyState<D, M, F, O, K, P, A, T, S> {
    /// The node and its event log, behind a lock of its own that is held for one event or one question at a time.
    pub desk: D,
    /// The moments of all threads.
    pub timeline: Timeline,
    /// Waiting clients and fetches under way.
    pub mail: M,
    /// The ways to the threads that fetch.
    pub fetchers: F,
    /// What is asked of other servers, and of which.
    pub outward: O,
    /// What is kept of answers beside the store of the node.
    pub kept: K,
    /// What passes the proxy without the node.
    pub passes: P,
    /// Where the administration hands a capture to the query thread.
    pub tap: A,
    /// What is counted and told.
    pub telling: T,
    /// The end of the proxy.
    pub stopping: S,
}

/// The shared state with the node, for what submits events.
pub trait AtDesk<L: Ledger>: Shared {
    /// The node and its event log.
    fn desk(&self) -> &Desk<L>;

    /// The moments of all threads.
    fn timeline(&self) -> &Timeline;

    /// Lets all go but the node and its event log.
    fn into_desk(self) -> Desk<L>;
}

impl<
    D: Desks,
    M: MailPart,
    F: FetchersPart,
    O: OutwardPart,
    K: KeptPart,
    P: PassesPart,
    A: TapPart,
    T: TellingPart,
    S: StoppingPart,
> Shared for ProxyState<D, M, F, O, K, P, A, T, S> {
    fn now<R: Clock>(&self, rt: &R) -> Moment {
        match self.timeline.now(rt) {
            Ok(now) => now,
            Err(_) => Moment::new(0).unwrap(),
        }
    }

    fn mail(&self) -> &Mail {
        self.mail.mail()
    }

    fn fetchers(&self) -> &Fetchers {
        self.fetchers.fetchers()
    }

    fn outward(&self) -> &Outward {
        self.outward.outward()
    }

    fn kept(&self) -> &Kept {
        self.kept.kept()
    }

    fn passes(&self) -> &Passes {
        self.passes.passes()
    }

    fn tap(&self) -> &Tap {
        self.tap.tap()
    }

    fn telling(&self) -> &Telling {
        self.telling.telling()
    }

    fn stopping(&self) -> &Stopping {
        self.stopping.stopping()
    }

    fn key_of<R: Wait>(&self, rt: &R, fetch: u32) -> Result<Option<CacheKey>, NoMemory> {
        self.desk.desk().key_of(rt, fetch)
    }

    fn stored<R: Wait>(&self, rt: &R, key: &[u8], now: Moment) -> Result<Option<Entry>, NoMemory> {
        self.desk.desk().stored(rt, key, now)
    }
}

impl<
    D: Desks,
    M: MailPart,
    F: FetchersPart,
    O: OutwardPart,
    K: KeptPart,
    P: PassesPart,
    A: TapPart,
    T: TellingPart,
    S: StoppingPart,
> AtDesk<D::Ledger> for ProxyState<D, M, F, O, K, P, A, T, S> {
    fn desk(&self) -> &Desk<D::Ledger> {
        self.desk.desk()
    }

    fn timeline(&self) -> &Timeline {
        &self.timeline
    }

    fn into_desk(self) -> Desk<D::Ledger> {
        let ProxyState { desk, .. } = self;
        desk.into_desk()
    }
}

impl<
    D: Desks,
    M: MailPart,
    F: FetchersPart,
    O: OutwardPart,
    K: KeptPart,
    P: PassesPart,
    A: TapPart,
    T: TellingPart,
    S: StoppingPart,
> Overseen for ProxyState<D, M, F, O, K, P, A, T, S> {
    fn stats<R: Wait>(&self, rt: &R) -> Stats {
        self.desk.desk().stats(rt)
    }

    fn sizes<R: Wait>(&self, rt: &R) -> Sizes {
        self.desk.desk().sizes(rt)
    }

    fn swaps(&self) -> u64 {
        self.desk.desk().swaps()
    }

    fn neighbours<R: Wait>(&self, rt: &R, alloc: Global) -> Result<Vec<NeighbourView>, NoMemory> {
        self.desk.desk().neighbours(rt, alloc)
    }

    fn programs<R: Wait>(&self, rt: &R) -> Result<Slots, NoMemory> {
        self.desk.desk().programs(rt)
    }

    fn newest<R: Wait>(
        &self,
        rt: &R,
        alloc: Global,
        most: usize,
    ) -> Result<Vec<(CacheKey, Entry)>, NoMemory> {
        self.desk.desk().newest(rt, alloc, most)
    }
}
