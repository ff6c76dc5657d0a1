//! Starting the threads that fetch.
use super::OpeningOf;
use crate::fetches::{FetchShares, FetchTask, Fetching};
use crate::starting::begin;
use crossbeam_channel::{Receiver, Sender, bounded};
use futures::channel::mpsc;
use http_fetches::Budget;
use http_traffic::Job;
use name_lookup::NameDesk;
use proxy_node::AtDesk;
use proxy_setup::{FETCHERS, ServeFault, Site, SiteOf};
use proxy_state::{Lanes, Shared};
use server_connections::KeptShare;
use std::alloc::{AllocError, AllocGlobal, Global};
use std::net::Net;
use std::random::RandomSource;
use std::sync::atomic::AtomicU64;
use std::sync::ledger::Ledger;
use std::sync::{Arc, Wait};
use std::thread::Threads;
use std::time::Clock;

/// What the threads that fetch are started with.
struct LaneKit<J> {
    /// To each of those that were started, by index. What has no need of these is generic over them.
    jobs: Vec<J>,
    /// The octets that bodies under way may have, for all of them.
    budget: Arc<Budget>,
    /// Receives a message of each once it takes jobs.
    opened: Sender<(), Global>,
    heard: Receiver<(), Global>,
}

// Written by hand, so that what lets it go is one call for the prover (docs/GATE.md).
impl<J: Drop> Drop for LaneKit<J> {
    fn drop(self) {
        let Self {
            jobs: _,
            budget: _,
            opened: _,
            heard: _,
        } = self;
    }
}

impl<J: Drop> LaneKit<J> {
    /// What no thread was started with yet, with so many octets for bodies under way, of which those that are waited for are kept in
    /// `wanted`. Errors: out of memory.
    fn new(
        alloc: Global,
        octets: usize,
        wanted: &Arc<AtomicU64>,
    ) -> Result<LaneKit<J>, AllocError> {
        let (opened, heard) = bounded(alloc, FETCHERS)?;
        let wanted = Arc::try_clone(wanted)?;
        let budget = Arc::new(alloc, Budget::new(alloc, octets, wanted))?;
        Ok(LaneKit {
            jobs: Vec::with_capacity(alloc, FETCHERS)?,
            budget,
            opened,
            heard,
        })
    }

    /// The ways to the threads that were started, and what hears that they take jobs, when no more are started.
    fn into_ends(self) -> (Vec<J>, Receiver<(), Global>) {
        let Self {
            jobs,
            budget,
            opened,
            heard,
        } = self;
        drop(budget);
        drop(opened);
        (jobs, heard)
    }
}

/// The same with the ways to the threads.
type JobKit = LaneKit<mpsc::UnboundedSender<Job>>;

/// How a fetch thread hears of its jobs, and what it tells other threads by.
#[derive(Drop)]
struct Lane {
    jobs: mpsc::UnboundedReceiver<Job>,
    opened: Sender<(), Global>,
    end: Sender<(), Global>,
}

impl<R, S: Shared, L: Ledger> OpeningOf<R, Site<S, L>> {
    /// The task of one more fetch thread.
    fn fetch_task(&mut self, kit: &mut JobKit) -> Result<FetchTask<S, L>, ServeFault> {
        let fetching = self.fetching(kit)?;
        match self.site.seat() {
            Ok(seat) => Ok(FetchTask { seat, fetching }),
            Err(fault) => {
                drop(fetching);
                Err(fault)
            }
        }
    }
}

impl<R, S: Shared, H> OpeningOf<R, SiteOf<S, H>> {
    /// What the threads that fetch are started with, and what has names looked up, if that is there.
    fn lane_kit<J: Drop>(
        &self,
        names: Result<NameDesk, ServeFault>,
    ) -> Result<(LaneKit<J>, NameDesk), ServeFault> {
        match names {
            Ok(names) => match self.kit() {
                Ok(kit) => Ok((kit, names)),
                Err(_) => {
                    drop(names);
                    Err(ServeFault::NoMemory)
                }
            },
            Err(fault) => Err(fault),
        }
    }

    /// What no thread was started with yet. Errors: out of memory.
    fn kit<J: Drop>(&self) -> Result<LaneKit<J>, AllocError> {
        let wanted = &self.site.proxy.telling().wanted_octets;
        LaneKit::new(self.alloc, self.config.fetch_octets, wanted)
    }

    /// What one more fetch thread fetches with.
    fn fetching(&self, kit: &mut JobKit) -> Result<Fetching<S>, ServeFault> {
        let shares = self.fetch_shares(kit)?;
        match self.lane(kit) {
            Ok(Lane { jobs, opened, end }) => Ok(Fetching {
                jobs,
                shares,
                config: self.config,
                opened,
                end,
            }),
            Err(fault) => {
                drop(shares);
                Err(fault)
            }
        }
    }

    /// What one more fetch thread has together with others.
    fn fetch_shares<J: Drop>(&self, kit: &LaneKit<J>) -> Result<FetchShares<S>, ServeFault> {
        let Ok(changes) = Arc::try_clone(&self.site.proxy.mail().changes) else {
            return Err(ServeFault::NoMemory);
        };
        let Ok(budget) = Arc::try_clone(&kit.budget) else {
            return Err(ServeFault::NoMemory);
        };
        let Ok(kept) = KeptShare::new(&self.site.proxy.passes().servers, kit.jobs.len()) else {
            return Err(ServeFault::NoMemory);
        };
        Ok(FetchShares {
            proxy: self.site.share()?,
            judged: self.site.share()?,
            changes,
            budget,
            kept,
        })
    }

    /// How one more fetch thread hears of its jobs, the way to which the kit has then.
    fn lane(&self, kit: &mut JobKit) -> Result<Lane, ServeFault> {
        let Ok(opened) = kit.opened.clone() else {
            return Err(ServeFault::NoMemory);
        };
        let end = self.site.ender()?;
        let Ok((to, jobs)) = mpsc::unbounded(self.alloc) else {
            return Err(ServeFault::NoMemory);
        };
        // (there is the capacity for all of these threads)
        drop(kit.jobs.push(to));
        Ok(Lane { jobs, opened, end })
    }
}

impl<R: Wait, S: Shared, H> OpeningOf<R, SiteOf<S, H>> {
    /// Has no more connections to servers than there is room for by the files that the program may open.
    fn limit_servers(&self) {
        if let Some(division) = self.config.division {
            let servers = &self.site.proxy.passes().servers;
            servers.limit(&self.rt, division.servers);
        }
    }

    /// Has jobs sent to the fetch threads, if they were started, once all of them take some.
    fn open_lanes(
        &self,
        kit: JobKit,
        names: NameDesk,
        begun: Result<(), ServeFault>,
    ) -> Result<(), ServeFault> {
        let (jobs, heard) = kit.into_ends();
        let opened = self.wait_for_lanes(begun, &heard);
        drop(heard);
        match opened {
            Ok(()) => {
                let lanes = Lanes { names, jobs };
                self.site.proxy.fetchers().open(&self.rt, lanes);
                Ok(())
            }
            Err(fault) => {
                drop(names);
                drop(jobs);
                Err(fault)
            }
        }
    }

    /// Waits until all fetch threads take jobs. Errors: they were not started, or one of them has ended.
    fn wait_for_lanes(
        &self,
        begun: Result<(), ServeFault>,
        heard: &Receiver<(), Global>,
    ) -> Result<(), ServeFault> {
        begun?;
        for _ in 0..FETCHERS {
            if heard.recv(&self.rt).is_err() {
                return Err(ServeFault::NoMemory);
            }
        }
        Ok(())
    }
}

impl<R, S, L> OpeningOf<R, Site<S, L>>
where
    L: Ledger + Send + Sync + 'static,
    S: AtDesk<L> + Send + Sync + 'static,
    R: Threads + Wait + Net + Clock + RandomSource + AllocGlobal + Copy + Send + 'static,
    R::Stream: Send + 'static,
    R::Listener: Send + 'static,
{
    /// Starts the threads that fetch, for which `names` looks up names, if that is there.
    pub(super) fn open_fetchers(
        &mut self,
        names: Result<NameDesk, ServeFault>,
    ) -> Result<(), ServeFault> {
        let (mut kit, names) = self.lane_kit(names)?;
        self.limit_servers();
        let begun = self.begin_fetchers(&mut kit);
        self.open_lanes(kit, names, begun)
    }

    /// Starts the fetch threads, to each of which the kit has the way then.
    fn begin_fetchers(&mut self, kit: &mut JobKit) -> Result<(), ServeFault> {
        for _ in 0..FETCHERS {
            self.begin_fetcher(kit)?;
        }
        Ok(())
    }

    /// Starts one more fetch thread.
    fn begin_fetcher(&mut self, kit: &mut JobKit) -> Result<(), ServeFault> {
        let task = self.fetch_task(kit)?;
        let begun = begin(self.rt, task);
        self.keep(begun)
    }
}
