//! Starting the thread that serves administration.
use super::{Begun, FrontEnds, OpeningOf, ServerEnd, ServerLine};
use crate::administration::{AdministrationTask, OfficeTask, PanelTask};
use crate::starting::begin;
use client_streams::Stops;
use crossbeam_channel::Receiver;
use futures::channel::oneshot;
use proxy_node::{AtDesk, Overseen, ThreadSeat};
use proxy_setup::{Addresses, Keeping, Port, ServeFault, Site, SiteOf};
use proxy_state::Shared;
use std::alloc::{AllocGlobal, Global};
use std::fs::Files;
use std::io::ErrorKind;
use std::mem;
use std::net::{Net, SocketAddr};
use std::random::RandomSource;
use std::sync::atomic::Ordering;
use std::sync::ledger::Ledger;
use std::sync::{Arc, Wait};
use std::thread::Threads;
use std::time::Clock;

impl<R: Wait, S: Shared, H> OpeningOf<R, SiteOf<S, H>> {
    /// Notes where all sockets are bound.
    fn note_ends(&mut self, ends: FrontEnds, administration: SocketAddr) -> Result<(), ServeFault> {
        let port = &self.site.proxy.telling().admin_port;
        port.store(administration.port(), Ordering::SeqCst);
        self.add_own(administration)?;
        self.site.addresses = Some(Addresses {
            icp: ends.queries.icp,
            htcp: ends.queries.htcp,
            clients: ends.clients,
            administration,
        });
        Ok(())
    }
}

impl<R, S: Shared, L: Ledger> OpeningOf<R, Site<S, L>> {
    /// The task of the thread that serves administration, what this one has of that, and where clients are served, if they are.
    fn administration_task(
        &mut self,
        clients: Result<FrontEnds, ServeFault>,
        keeping: Keeping,
    ) -> Result<(AdministrationTask<S, L>, ServerLine, FrontEnds), ServeFault> {
        match clients {
            Ok(ends) => match self.administration_with(keeping) {
                Ok((task, here)) => Ok((task, here, ends)),
                Err(fault) => Err(fault),
            },
            Err(fault) => {
                drop(keeping);
                Err(fault)
            }
        }
    }

    /// The task of the thread that serves administration with what is kept of the settings, and what this one has of that.
    fn administration_with(
        &mut self,
        keeping: Keeping,
    ) -> Result<(AdministrationTask<S, L>, ServerLine), ServeFault> {
        match self.administration_parts() {
            Ok((share, there, here)) => Ok((self.task_of(keeping, share, there), here)),
            Err(fault) => {
                drop(keeping);
                Err(fault)
            }
        }
    }

    /// What the thread that serves administration has of the shared state, and how it and this one hear of each other.
    fn administration_parts(
        &mut self,
    ) -> Result<((Arc<S>, ThreadSeat<S, L>), ServerEnd, ServerLine), ServeFault> {
        let (there, here) = self.server_line()?;
        match self.share_and_seat() {
            Ok(share) => Ok((share, there, here)),
            Err(fault) => {
                drop(there);
                drop(here);
                Err(fault)
            }
        }
    }

    /// The task of the thread that serves administration with these parts. Nothing ends the grace of administrators early.
    fn task_of(
        &self,
        keeping: Keeping,
        share: (Arc<S>, ThreadSeat<S, L>),
        there: ServerEnd,
    ) -> AdministrationTask<S, L> {
        let (proxy, seat) = share;
        let ServerEnd {
            bound,
            stopped,
            end,
        } = there;
        AdministrationTask {
            seat,
            panel: PanelTask { proxy, keeping },
            office: OfficeTask {
                port: self.config.admin_port,
                limits: self.config.limits.administration,
                bound,
                stops: Stops {
                    stop: stopped,
                    hurry: None,
                },
            },
            end,
        }
    }
}

impl<R, S, L> OpeningOf<R, Site<S, L>>
where
    R: Wait + Clock + Copy,
    S: AtDesk<L>,
    L: Ledger + Send + Sync + 'static,
{
    /// Waits until administration is served, if its thread was started, and notes where all sockets are bound.
    fn opened_administration(
        &mut self,
        begun: Begun<L>,
        here: ServerLine,
        ends: FrontEnds,
    ) -> Result<(), ServeFault> {
        let ServerLine { heard, stop } = here;
        let told = self.heard_of_administration(begun, stop, &heard);
        drop(heard);
        let administration = told?;
        self.note_ends(ends, administration)
    }

    /// Where administration is served, if its thread was started, which `stop` ends.
    fn heard_of_administration(
        &mut self,
        begun: Begun<L>,
        stop: oneshot::Sender<()>,
        heard: &Receiver<SocketAddr, Global>,
    ) -> Result<SocketAddr, ServeFault> {
        match self.keep(begun) {
            Ok(()) => drop(mem::replace(&mut self.site.stop_administration, Some(stop))),
            Err(fault) => {
                drop(stop);
                return Err(fault);
            }
        }
        match heard.recv(&self.rt) {
            Ok(address) => Ok(address),
            Err(_) => Err(ServeFault::Bind(Port::Administration, ErrorKind::Other)),
        }
    }
}

impl<R, S, L> OpeningOf<R, Site<S, L>>
where
    L: Ledger + Send + Sync + 'static,
    S: AtDesk<L> + Overseen + Send + Sync + 'static,
    R: Threads + Wait + Net + Clock + RandomSource + AllocGlobal + Files + Copy + Send + 'static,
    R::Stream: Send + 'static,
    R::Listener: Send + 'static,
    R::File: Send + 'static,
    R::Dir: Send + 'static,
{
    /// Starts the thread that serves administration, if clients are served, and notes where all sockets are bound.
    pub(super) fn open_administration(
        &mut self,
        clients: Result<FrontEnds, ServeFault>,
        keeping: Keeping,
    ) -> Result<(), ServeFault> {
        let (task, here, ends) = self.administration_task(clients, keeping)?;
        let begun = begin(self.rt, task);
        self.opened_administration(begun, here, ends)
    }
}
