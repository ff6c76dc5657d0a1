//! Starting the thread of the query sockets.
use super::{Begun, OpeningOf, QueryEnds};
use crate::queries::{BoundQueries, QueryLine, QueryTask};
use crate::starting::begin;
use crossbeam_channel::{Receiver, Sender, unbounded};
use proxy_node::{AtDesk, Outbox, Outgoing, Overseen};
use proxy_setup::{ServeFault, Site, SiteOf};
use proxy_state::Shared;
use std::alloc::{AllocGlobal, Global};
use std::mem;
use std::net::Net;
use std::sync::ledger::Ledger;
use std::sync::{Arc, Wait};
use std::thread::Threads;
use std::time::Clock;

/// What the thread that starts that of the query sockets has of it.
#[derive(Drop)]
struct QueryStart {
    outgoing: Sender<Outgoing, Global>,
    heard: Receiver<Result<BoundQueries, ServeFault>, Global>,
}

impl<R, S, H> OpeningOf<R, SiteOf<S, H>> {
    /// How the thread of the query sockets and other threads hear of each other.
    fn query_line(&self) -> Result<(QueryLine, QueryStart), ServeFault> {
        let Ok(is_ended) = Arc::try_clone(&self.site.is_ended) else {
            return Err(ServeFault::NoMemory);
        };
        let end = self.site.ender()?;
        let Ok((to, outgoing)) = unbounded(self.alloc) else {
            return Err(ServeFault::NoMemory);
        };
        let Ok((bound, heard)) = unbounded(self.alloc) else {
            return Err(ServeFault::NoMemory);
        };
        let line = QueryLine {
            outgoing,
            bound,
            is_ended,
            end,
        };
        let start = QueryStart {
            outgoing: to,
            heard,
        };
        Ok((line, start))
    }

    /// What takes datagrams for the query sockets that were bound, and where they are.
    fn outbox_to(
        &mut self,
        outgoing: Sender<Outgoing, Global>,
        bound: BoundQueries,
    ) -> Result<(Outbox, QueryEnds), ServeFault> {
        let BoundQueries { bell, icp, htcp } = bound;
        match bell.share() {
            Ok(shared) => {
                drop(mem::replace(&mut self.site.bell, Some(shared)));
                let outbox = Outbox { to: outgoing, bell };
                Ok((outbox, QueryEnds { icp, htcp }))
            }
            Err(_) => {
                drop(outgoing);
                drop(bell);
                Err(ServeFault::NoMemory)
            }
        }
    }
}

impl<R, S: Shared, L: Ledger> OpeningOf<R, Site<S, L>> {
    /// The task of the thread of the query sockets, and what this one has of that.
    fn query_task(&mut self) -> Result<(QueryTask<S, L>, QueryStart), ServeFault> {
        let (line, start) = self.query_line()?;
        match self.site.seat() {
            Ok(seat) => {
                let task = QueryTask {
                    seat,
                    icp: self.config.icp,
                    htcp: self.config.htcp,
                    line,
                };
                Ok((task, start))
            }
            Err(fault) => {
                drop(line);
                drop(start);
                Err(fault)
            }
        }
    }
}

impl<R: Wait, S: Shared, L: Ledger + Send + Sync + 'static> OpeningOf<R, Site<S, L>> {
    /// Waits until the query sockets are bound, if their thread was started. Returns what takes datagrams for them, and where they are.
    fn opened_queries(
        &mut self,
        begun: Begun<L>,
        start: QueryStart,
    ) -> Result<(Outbox, QueryEnds), ServeFault> {
        let QueryStart { outgoing, heard } = start;
        let told = self.heard_of_queries(begun, &heard);
        drop(heard);
        match told {
            Ok(bound) => self.outbox_to(outgoing, bound),
            Err(fault) => {
                drop(outgoing);
                Err(fault)
            }
        }
    }

    /// What the thread of the query sockets reports, if it was started.
    fn heard_of_queries(
        &mut self,
        begun: Begun<L>,
        heard: &Receiver<Result<BoundQueries, ServeFault>, Global>,
    ) -> Result<BoundQueries, ServeFault> {
        self.keep(begun)?;
        match heard.recv(&self.rt) {
            Ok(bound) => bound,
            Err(_) => Err(ServeFault::NoMemory),
        }
    }
}

impl<R, S, L> OpeningOf<R, Site<S, L>>
where
    L: Ledger + Send + Sync + 'static,
    S: AtDesk<L> + Overseen + Send + Sync + 'static,
    R: Threads + Wait + Net + Clock + AllocGlobal + Copy + Send + 'static,
    R::Stream: Send + 'static,
    R::Listener: Send + 'static,
{
    /// Starts the thread of the query sockets, if those that fetch are started. Returns what takes datagrams for them, and where they are
    /// bound.
    pub(super) fn open_queries(
        &mut self,
        fetching: Result<(), ServeFault>,
    ) -> Result<(Outbox, QueryEnds), ServeFault> {
        fetching?;
        let (task, start) = self.query_task()?;
        let begun = begin(self.rt, task);
        self.opened_queries(begun, start)
    }
}
