//! The thread that owns the query sockets.
use crate::limits::{LOOK_MILLIS, SENDS_A_TURN};
use crate::tasks::Work;
use crossbeam_channel::{Receiver, Sender};
use filter_slots::{End, Socket};
use mio_queries::{BindFault, MioWire, PumpFault, Wire, pump_with};
use node_book::Clerk;
use node_core::Out;
use proxy_node::{AtDesk, MalformedWatch, NodeHandle, Outgoing, Overseen, ThreadSeat};
use proxy_setup::{Ending, Port, ServeFault};
use proxy_state::{RETRIES, RETRY_MILLIS};
use query_handles::{Bell, Timeline};
use std::alloc::{AllocError, AllocGlobal, Global};
use std::net::Net;
use std::sync::atomic::{AtomicBool, Ordering};
use std::sync::ledger::Ledger;
use std::sync::{Arc, Wait};
use std::thread;
use std::time::{Clock, Duration, Instant};

/// The work of the query thread, which owns both UDP sockets and sends every datagram. `S` is the state that all threads share.
pub struct QueryTask<S, L: Ledger> {
    pub seat: ThreadSeat<S, L>,
    pub icp: End,
    pub htcp: End,
    pub line: QueryLine,
}

// Written by hand, as other drops of this file, so that what lets it go is one call for the prover (docs/GATE.md).
impl<S: Drop, L: Ledger> Drop for QueryTask<S, L> {
    fn drop(self) {
        let Self {
            seat: _,
            icp: _,
            htcp: _,
            line: _,
        } = self;
    }
}

/// What the query thread reports once its sockets are bound: the handle that wakes it, and the addresses.
#[derive(Drop)]
pub struct BoundQueries {
    pub bell: Bell,
    pub icp: End,
    pub htcp: End,
}

/// How the query thread and other threads hear of each other.
pub struct QueryLine {
    pub outgoing: Receiver<Outgoing, Global>,
    pub bound: Sender<Result<BoundQueries, ServeFault>, Global>,
    pub is_ended: Arc<AtomicBool>,
    pub end: Sender<(), Global>,
}

impl Drop for QueryLine {
    fn drop(self) {
        let Self {
            outgoing: _,
            bound: _,
            is_ended: _,
            end: _,
        } = self;
    }
}

/// A handle to the node that is looked after between datagrams. What is generic over this has nothing of the handle in it.
trait Tended {
    /// Reports the fetches that no thread could start, ends those that have no client and are to end if that `is_time`, and has `watch` look
    /// at the node's counters.
    fn tend<H: Wait + Clock>(
        &mut self,
        rt: &H,
        alloc: Global,
        watch: &mut MalformedWatch,
        is_time: bool,
    );
}

impl<R: Wait + Clock + Drop, S: AtDesk<L> + Overseen, L: Ledger> Tended for NodeHandle<R, S, L> {
    fn tend<H: Wait + Clock>(
        &mut self,
        rt: &H,
        alloc: Global,
        watch: &mut MalformedWatch,
        is_time: bool,
    ) {
        self.report_failures();
        if is_time {
            self.proxy().mail().end_unwanted(rt);
        }
        watch.look(rt, alloc, self.proxy());
    }
}

/// What the query thread has beside the wire and the node.
#[derive(Drop)]
struct Rounds {
    // The actions of an event.
    out: Out,
    // Wakes the wire.
    bell: Bell,
    watch: MalformedWatch,
    // When it was last looked for fetches that have no client.
    looked: Option<Instant>,
}

impl Rounds {
    // Whether it is time to look for fetches that have no client: as often as the thread wakes by itself, however many datagrams come.
    fn is_time<R: Clock>(&mut self, rt: &R) -> bool {
        let Ok(now) = Instant::now(rt) else {
            return true;
        };
        if let Some(looked) = self.looked
            && now.saturating_duration_since(looked) < Duration::from_millis(LOOK_MILLIS)
        {
            return false;
        }
        self.looked = Some(now);
        true
    }
}

/// What the query thread has, with this handle that wakes its wire. Errors: there is none, or out of memory.
fn rounds_of(alloc: Global, bell: Result<Bell, AllocError>) -> Result<Rounds, AllocError> {
    let bell = bell?;
    match Out::new(alloc) {
        Ok(out) => Ok(Rounds {
            out,
            bell,
            watch: MalformedWatch::new(),
            looked: None,
        }),
        Err(fault) => {
            drop(bell);
            Err(fault)
        }
    }
}

impl<R, S, L> Work<R, L> for QueryTask<S, L>
where
    R: Wait + Net + Clock + AllocGlobal + Copy,
    S: AtDesk<L> + Overseen,
    L: Ledger,
{
    fn run(self, rt: R) -> Ending<L> {
        let Self {
            seat,
            icp,
            htcp,
            line,
        } = self;
        let mut node = NodeHandle::new(rt, rt.alloc(), seat, None);
        let timeline = node.proxy().timeline().share();
        let fault = answer_queries(rt, timeline, icp, htcp, &mut node, &line);
        let _ = line.end.send(&rt, ());
        drop(line);
        Ending {
            seat: Some(node.into_seat()),
            fault,
        }
    }
}

/// Binds both query sockets, and answers queries at them until the thread is to end. Returns why it ended, if that is an error.
fn answer_queries<R, N>(
    rt: R,
    timeline: Result<Timeline, AllocError>,
    icp: End,
    htcp: End,
    node: &mut N,
    line: &QueryLine,
) -> Option<ServeFault>
where
    R: Wait + Net + Clock + AllocGlobal + Copy,
    N: Clerk + Tended,
{
    match bound_wire(rt, timeline, icp, htcp, line) {
        Ok(wire) => carry_by(rt, wire, node, line).err(),
        Err(fault) => Some(fault),
    }
}

/// Receives and sends by this wire until the thread is to end. Errors: as `carry`, or out of memory.
fn carry_by<R, N>(rt: R, wire: MioWire<R>, node: &mut N, line: &QueryLine) -> Result<(), ServeFault>
where
    R: Wait + Net + Clock + AllocGlobal + Copy,
    N: Clerk + Tended,
{
    let mut wire = wire;
    let alloc = rt.alloc();
    match rounds_of(alloc, wire.bell()) {
        Ok(mut rounds) => {
            let carried = carry(&rt, alloc, &mut wire, node, &mut rounds, line);
            drop(rounds);
            drop(wire);
            carried
        }
        Err(_) => {
            drop(wire);
            Err(ServeFault::NoMemory)
        }
    }
}

/// Binds both query sockets, and says that they are bound, or else why not.
fn bound_wire<R>(
    rt: R,
    timeline: Result<Timeline, AllocError>,
    icp: End,
    htcp: End,
    line: &QueryLine,
) -> Result<MioWire<R>, ServeFault>
where
    R: Wait + Net + Clock + AllocGlobal + Copy,
{
    match bind(rt, timeline, icp, htcp) {
        Ok((wire, ready)) => {
            drop(line.bound.send(&rt, Ok(ready)));
            Ok(wire)
        }
        Err(fault) => {
            drop(line.bound.send(&rt, Err(fault)));
            Err(fault)
        }
    }
}

/// Binds both query sockets.
fn bind<R>(
    rt: R,
    timeline: Result<Timeline, AllocError>,
    icp: End,
    htcp: End,
) -> Result<(MioWire<R>, BoundQueries), ServeFault>
where
    R: Net + Clock + AllocGlobal + Copy,
{
    let Ok(timeline) = timeline else {
        return Err(ServeFault::NoMemory);
    };
    match MioWire::bind(rt, timeline, icp, htcp) {
        Ok(wire) => ready_of(wire),
        Err(fault) => Err(bind_fault(fault)),
    }
}

/// What is reported of these sockets. Errors: out of memory.
fn ready_of<R>(wire: MioWire<R>) -> Result<(MioWire<R>, BoundQueries), ServeFault>
where
    R: Net + Clock + AllocGlobal + Drop,
{
    match wire.bell() {
        Ok(bell) => {
            let (icp, htcp) = (wire.end(Socket::Icp), wire.end(Socket::Htcp));
            Ok((wire, BoundQueries { bell, icp, htcp }))
        }
        Err(_) => {
            drop(wire);
            Err(ServeFault::NoMemory)
        }
    }
}

/// Why the query sockets were not bound, as a fault of the proxy.
fn bind_fault(fault: BindFault) -> ServeFault {
    match fault {
        BindFault::End(Socket::Icp, kind) => ServeFault::Bind(Port::Icp, kind),
        BindFault::End(Socket::Htcp, kind) => ServeFault::Bind(Port::Htcp, kind),
        BindFault::Io => ServeFault::QuerySocket,
        BindFault::NoMemory => ServeFault::NoMemory,
    }
}

/// Receives and sends datagrams until the thread is to end. Errors: a socket failed, or too many consecutive allocation failures.
fn carry<R, W, N>(
    rt: &R,
    alloc: Global,
    wire: &mut W,
    node: &mut N,
    rounds: &mut Rounds,
    line: &QueryLine,
) -> Result<(), ServeFault>
where
    R: Wait + Clock,
    W: Wire,
    N: Clerk + Tended,
{
    let mut failures = 0u32;
    for _ in rt.forever() {
        if line.is_ended.load(Ordering::SeqCst) {
            return Ok(());
        }
        if send_some(rt, wire, &line.outgoing) {
            rounds.bell.ring();
        }
        let is_time = rounds.is_time(rt);
        node.tend(rt, alloc, &mut rounds.watch, is_time);
        rounds.out.clear();
        match pump_with(alloc, wire, node, &mut rounds.out, 1) {
            Ok(_) => failures = 0,
            Err(PumpFault::NoMemory) if failures < RETRIES => {
                failures += 1;
                thread::sleep(rt, Duration::from_millis(RETRY_MILLIS));
            }
            Err(PumpFault::Receive) => return Err(ServeFault::QuerySocket),
            Err(_) => return Err(ServeFault::NoMemory),
        }
    }
    Ok(())
}

/// Sends the datagrams that other threads have queued, in order, at most `SENDS_A_TURN` of them. One that cannot be sent is dropped,
/// as UDP may drop any. Returns whether there may be more.
fn send_some<R: Wait, W: Wire>(
    rt: &R,
    wire: &mut W,
    outgoing: &Receiver<Outgoing, Global>,
) -> bool {
    for _ in 0..SENDS_A_TURN {
        let Ok(next) = outgoing.try_recv(rt) else {
            return false;
        };
        let _ = wire.send(next.socket, next.to, next.payload.as_slice());
    }
    true
}
