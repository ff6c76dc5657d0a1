//! The thread that serves administration.
use crate::tasks::{Ended, Work, end_of, ending_of, lost, shared_of};
use client_streams::Stops;
use crossbeam_channel::Sender;
use http_clients::{ServeLimits, serve_admin};
use http_traffic::Panel;
use proxy_node::{AtDesk, NodeHandle, Overseen, ThreadSeat};
use proxy_panel::{NodePanel, ServePanel};
use proxy_setup::{Ending, Keeping, Port};
use proxy_state::TakeEvents;
use std::alloc::{AllocGlobal, Global};
use std::fs::Files;
use std::io;
use std::net::{Net, SocketAddr};
use std::random::RandomSource;
use std::sync::ledger::Ledger;
use std::sync::{Arc, Mutex, Wait};
use std::time::Clock;

/// The work of the administration thread, which owns the administrators' connections.
pub struct AdministrationTask<S, L: Ledger> {
    pub seat: ThreadSeat<S, L>,
    pub panel: PanelTask<S>,
    pub office: OfficeTask,
    pub end: Sender<(), Global>,
}

// Written by hand, so that what lets it go is one call for the prover (docs/GATE.md).
impl<S: Drop, L: Ledger> Drop for AdministrationTask<S, L> {
    fn drop(self) {
        let Self {
            seat: _,
            panel: _,
            office: _,
            end: _,
        } = self;
    }
}

/// What the administration thread shows and changes.
#[derive(Drop)]
pub struct PanelTask<S> {
    pub proxy: Arc<S>,
    pub keeping: Keeping,
}

/// What the administration thread serves administrators with.
#[derive(Drop)]
pub struct OfficeTask {
    pub port: u16,
    pub limits: ServeLimits,
    pub bound: Sender<SocketAddr, Global>,
    pub stops: Stops,
}

impl<R, S, L> Work<R, L> for AdministrationTask<S, L>
where
    R: Wait + Net + Clock + RandomSource + AllocGlobal + Files + Copy,
    S: AtDesk<L> + Overseen,
    L: Ledger,
{
    fn run(self, rt: R) -> Ending<L> {
        let Self {
            seat,
            panel,
            office,
            end,
        } = self;
        let node = NodeHandle::new(rt, rt.alloc(), seat, None);
        ending_of(administer(rt, node, panel, office, end))
    }
}

/// Runs the thread that serves administration.
fn administer<R, S, N>(
    rt: R,
    node: N,
    panel: PanelTask<S>,
    office: OfficeTask,
    end: Sender<(), Global>,
) -> Ended<N>
where
    R: Wait + Net + Clock + RandomSource + AllocGlobal + Files + Copy,
    S: Overseen,
    N: TakeEvents,
{
    match shared_of(rt.alloc(), node) {
        Ok((shared, kept)) => {
            let panel = panel_of(rt, panel, shared);
            let ran = panel.served_by(AdministrationServer { rt, office });
            end_of(&rt, kept, ran, Port::Administration, end)
        }
        Err(_) => {
            drop(panel);
            drop(office);
            lost(&rt, end)
        }
    }
}

/// What administrators see of the proxy and change in it.
fn panel_of<R, S, N>(rt: R, panel: PanelTask<S>, node: Arc<Mutex<N>>) -> NodePanel<R, S, N>
where
    R: AllocGlobal + Copy,
    S: Drop,
    N: Drop,
{
    let PanelTask { proxy, keeping } = panel;
    let Keeping {
        token,
        files,
        purger,
    } = keeping;
    NodePanel {
        rt,
        alloc: rt.alloc(),
        proxy,
        node,
        token,
        files,
        purger,
    }
}

/// Serves administration on its port.
#[derive(Drop)]
struct AdministrationServer<R> {
    rt: R,
    office: OfficeTask,
}

impl<R> ServePanel for AdministrationServer<R>
where
    R: Wait + Net + Clock + RandomSource + AllocGlobal + Copy,
{
    fn serve<P: Panel>(self, panel: P) -> io::Result<()> {
        let AdministrationServer { rt, office } = self;
        let OfficeTask {
            port,
            limits,
            bound,
            stops,
        } = office;
        serve_admin(rt, port, panel, bound, stops, limits)
    }
}
