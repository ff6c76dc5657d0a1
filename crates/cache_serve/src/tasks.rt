//! What the threads of a proxy have in common.
use crossbeam_channel::Sender;
use proxy_node::{AtDesk, NodeHandle};
use proxy_setup::{Ending, Port, ServeFault, socket_fault};
use std::alloc::{AllocError, Global};
use std::io;
use std::sync::ledger::Ledger;
use std::sync::{Arc, Mutex, Wait};
use std::time::Clock;

/// What a thread does, which has a seat at the node. Each kind of thread has a type of its own for it, so that what starts one kind has
/// nothing of the others in it (docs/GATE.md).
pub trait Work<R, L: Ledger>: Drop {
    /// The life of the thread.
    fn run(self, rt: R) -> Ending<L>;
}

/// How a thread's work ended. `N` is its handle to the node.
#[derive(Drop)]
pub struct Ended<N> {
    /// The handle. `None` if it is lost.
    pub node: Option<N>,
    /// Why the work ended, if that is an error.
    pub fault: Option<ServeFault>,
}

/// How a thread ended whose work did, with its seat.
pub fn ending_of<R, S, L>(ended: Ended<NodeHandle<R, S, L>>) -> Ending<L>
where
    R: Wait + Clock + Drop,
    S: AtDesk<L>,
    L: Ledger,
{
    let Ended { node, fault } = ended;
    match node {
        Some(node) => Ending {
            seat: Some(node.into_seat()),
            fault,
        },
        None => Ending { seat: None, fault },
    }
}

/// A handle to the node with two owners: the server, and the thread that takes the seat back when the server has ended.
pub fn shared_of<N: Drop>(
    alloc: Global,
    node: N,
) -> Result<(Arc<Mutex<N>>, Arc<Mutex<N>>), AllocError> {
    let shared = Arc::new(alloc, Mutex::new(node))?;
    let kept = Arc::try_clone(&shared)?;
    Ok((shared, kept))
}

/// How the work of a thread ended whose server did so.
pub fn end_of<R: Wait, N: Drop>(
    rt: &R,
    kept: Arc<Mutex<N>>,
    ran: io::Result<()>,
    port: Port,
    end: Sender<(), Global>,
) -> Ended<N> {
    let _ = end.send(rt, ());
    drop(end);
    Ended {
        node: taken_back(kept),
        fault: fault_in(port, ran),
    }
}

/// The handle to the node, if nobody else has a part of it any more.
fn taken_back<N: Drop>(kept: Arc<Mutex<N>>) -> Option<N> {
    match Arc::into_inner(kept) {
        Some(node) => Some(node.into_inner()),
        None => None,
    }
}

/// Why a server ended, if that is an error.
fn fault_in(port: Port, ran: io::Result<()>) -> Option<ServeFault> {
    match ran {
        Ok(()) => None,
        Err(error) => Some(fault_at(port, error)),
    }
}

/// A failure of a server or its socket as a fault of the proxy, as `socket_fault`.
pub fn fault_at(port: Port, error: io::Error) -> ServeFault {
    let fault = socket_fault(port, &error);
    drop(error);
    fault
}

/// How the work of a thread ended that ran out of memory before it started to serve. Its seat is lost.
pub fn lost<R: Wait, N: Drop>(rt: &R, end: Sender<(), Global>) -> Ended<N> {
    let _ = end.send(rt, ());
    drop(end);
    Ended {
        node: None,
        fault: Some(ServeFault::NoMemory),
    }
}
