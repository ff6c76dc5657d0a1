//! Host names of servers. Look-ups block, so threads of their own make them, and a fetch waits for its address on its own thread,
//! under its own deadline. What was found is kept for a while, and a name is looked up once at a time, for all that wait for it. Threads
//! are started as they are needed, and take the names of those who ask in turns (`fair_use`).
//!
//! Nothing is proved here but that it is free of panics and overflows; whose turn it is and for how long what is known is used is decided
//! by `fair_use`. Tested by: crates/test_http, tests/serve, tests/serve_slow, tests/serve_six, tests/serve_attacks.
#![tactic(auto)]

mod asker;
mod entry;
mod limits;
mod table;
mod threads;

use crossbeam_channel::{Sender, bounded};
use futures::channel::mpsc::UnboundedSender;
use futures::channel::oneshot;
use http_traffic::{Job, Order, Passage, Server, Work, address_in_digits};
pub use limits::NameLimits;
use std::alloc::{AllocError, Global};
use std::net::{IpAddr, SocketAddr};
use std::sync::{Arc, Mutex, Wait};
use std::time::{Clock, Instant};
pub use table::{Answer, LookUp, NameCounts, NameTable, Seeking, Waiter};
pub use threads::{Hired, NameWatch, look_up, watch_names};

/// Has names looked up by the threads that `watch_names` starts.
pub struct NameDesk {
    table: Arc<Mutex<NameTable>>,
    // Wakes an idle thread for each name that is queued.
    wakes: Sender<(), Global>,
    // Tells that something is queued to what starts threads.
    bell: Sender<(), Global>,
    // Whether addresses of IPv6 are used.
    has_six: bool,
}

// Written by hand, so that what lets it go is one call for the prover (docs/GATE.md).
impl Drop for NameDesk {
    fn drop(self) {
        let Self {
            table: _,
            wakes: _,
            bell: _,
            has_six: _,
        } = self;
    }
}

/// A desk without names, and what starts its threads. Addresses of IPv6 are used where `has_six`. Errors: out of memory.
pub fn open_names(
    alloc: Global,
    limits: NameLimits,
    has_six: bool,
) -> Result<(NameDesk, NameWatch), AllocError> {
    let table = Arc::new(alloc, Mutex::new(NameTable::new(alloc, limits)))?;
    let (to, wakes) = bounded(alloc, limits.names.max(1))?;
    let (bell, rung) = bounded(alloc, 1)?;
    let desk = NameDesk {
        table: Arc::try_clone(&table)?,
        wakes: to,
        bell,
        has_six,
    };
    Ok((
        desk,
        NameWatch::new(alloc, limits, table, wakes, rung, has_six),
    ))
}

impl NameDesk {
    /// How many names wait and are being looked up, and what has become of others.
    pub fn counts<R: Wait>(&self, rt: &R) -> NameCounts {
        self.table.lock(rt).counts()
    }
}

/// Why what was handed over was not taken. It is dropped.
#[derive(Clone, Copy, PartialEq, Eq)]
pub enum NotTaken {
    /// The name of its server may not wait for a look-up: too many do, of whom it is for or of all, or memory is short.
    Name,
    /// It has no way to a fetch thread, the clock cannot be read, or memory is short.
    Way,
}

// The fetch thread of this number, modulo the number of threads. Returns `None` if there are none.
fn lane_of<'a>(lanes: &'a [UnboundedSender<Job>], number: u64) -> Option<&'a UnboundedSender<Job>> {
    let place = number.checked_rem(lanes.len() as u64)?;
    lanes.get(place as usize)
}

/// Sends an order to its fetch thread, that of its number. If `name` is not an address in digits and its address is not known, it is
/// looked up meanwhile. Errors: it was not taken.
pub fn hand_over<R: Wait + Clock>(
    rt: &R,
    alloc: Global,
    names: &NameDesk,
    lanes: &[UnboundedSender<Job>],
    name: String,
    port: u16,
    order: Order,
) -> Result<(), NotTaken> {
    let lane = lane_of(lanes, u64::from(order.fetch)).ok_or(NotTaken::Way)?;
    let server = server_of(rt, alloc, names, name.as_str(), port, order.asker)?;
    send(lane, server, Work::Fetch(order))
}

/// As `hand_over`, for a request of this asker that is passed on: it goes to the fetch thread of `number`.
pub fn pass_over<R: Wait + Clock>(
    rt: &R,
    alloc: Global,
    names: &NameDesk,
    lanes: &[UnboundedSender<Job>],
    number: u64,
    name: &str,
    port: u16,
    asker: Option<IpAddr>,
    passage: Passage,
) -> Result<(), NotTaken> {
    let lane = lane_of(lanes, number).ok_or(NotTaken::Way)?;
    let server = server_of(rt, alloc, names, name, port, asker)?;
    send(lane, server, Work::Pass(passage))
}

// Sends a job to a fetch thread. Errors: the thread has ended, or out of memory.
fn send(lane: &UnboundedSender<Job>, server: Server, work: Work) -> Result<(), NotTaken> {
    match lane.unbounded_send(Job { server, work }) {
        Ok(()) => Ok(()),
        Err(_) => Err(NotTaken::Way),
    }
}

/// The server of this name: its address in digits, or those that are sought, for this asker; where IPv6 is not used, digits of it are
/// sought, and not found. Errors: there is no way to it.
pub fn server_of<R: Wait + Clock>(
    rt: &R,
    alloc: Global,
    names: &NameDesk,
    name: &str,
    port: u16,
    asker: Option<IpAddr>,
) -> Result<Server, NotTaken> {
    if let Some(address) = address_in_digits(name)
        && (address.is_ipv4() || names.has_six)
    {
        return Ok(Server::At(SocketAddr::new(address, port)));
    }
    let Ok(now) = Instant::now(rt) else {
        return Err(NotTaken::Way);
    };
    let Ok((found, sought)) = oneshot::channel(alloc) else {
        return Err(NotTaken::Way);
    };
    let waiter = Waiter { port, found };
    let Ok(seeking) = names.table.lock(rt).seek(now, name, asker, waiter) else {
        drop(sought);
        return Err(NotTaken::Name);
    };
    if seeking == Seeking::Queued {
        // If a channel is full, threads are woken already for as many names as there can be, or what starts them is told already.
        let _ = names.wakes.try_send(rt, ());
        let _ = names.bell.try_send(rt, ());
    }
    Ok(Server::Sought(sought))
}
