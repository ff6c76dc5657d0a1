//! The start of a proxy's threads.
ghost use Rattle.std.specs.Prelude.{◌≡◌};

use crate::config::thread_config;
use crate::limits::ProxyLimits;
use crate::opening::{Begun, Opening, OpeningOf, opening_of};
use crate::tasks::Work;
use access_log::writer::{LogTask, run_log};
use crossbeam_channel::{Receiver, Sender, bounded};
use name_lookup::{NameDesk, NameLimits, NameWatch, open_names, watch_names};
use proxy_node::{AtDesk, Overseen};
use proxy_setup::{
    Equipment, LogTasks, Orders, Proxy, SEATS, ServeFault, Site, SiteOf, Writing, Writings,
    equipped, server_orders, site_of,
};
use proxy_state::{Passes, Shared};
use serve_config::Settings;
use std::alloc::{AllocError, AllocGlobal, Global};
use std::fs::Files;
use std::io::{Eprint, Print};
use std::net::Net;
use std::random::RandomSource;
use std::sync::Wait;
use std::sync::ledger::{Blank, Ledger};
use std::thread::{JoinHandle, Threads};
use std::time::Clock;
use std::{mem, thread};

/// Starts a proxy. When this returns `Ok`, all sockets are bound; after an error all threads have ended but those that look up names, which
/// are told to. The ledger behind `blank` has one part per seat.
pub fn start<L, R>(
    rt: R,
    blank: Blank,
    settings: Settings,
    equipment: Equipment<R::File>,
    limits: ProxyLimits,
) -> Result<Site<Proxy<L>, L>, ServeFault>
where
    L: Ledger + Send + Sync + 'static,
    R: Threads
        + Wait
        + Net
        + Clock
        + RandomSource
        + AllocGlobal
        + Files
        + Print
        + Eprint
        + Copy
        + Send
        + 'static,
    R::Stream: Send + 'static,
    R::Listener: Send + 'static,
    R::File: Send + 'static,
    R::Dir: Send + 'static,
    requires name { blank.name ≡ L.name }
    requires parts { blank.parts ≡ L.parts }
    requires seats { blank.parts ≡ SEATS }
{
    match prepared(rt, blank, settings, equipment, limits) {
        Ok((opening, orders)) => open_all(rt, opening, orders),
        Err(fault) => Err(fault),
    }
}

// A proxy that has no thread yet, and what its threads are started with.
fn prepared<R, L>(
    rt: R,
    blank: Blank,
    mut settings: Settings,
    equipment: Equipment<R::File>,
    limits: ProxyLimits,
) -> Result<(Opening<R, Proxy<L>, L>, Orders<R::File>), ServeFault>
where
    R: Threads + Clock + RandomSource + AllocGlobal + Files + Drop,
    L: Ledger,
    requires name { blank.name ≡ L.name }
    requires parts { blank.parts ≡ L.parts }
    requires seats { blank.parts ≡ SEATS }
{
    let alloc = rt.alloc();
    let config = thread_config(&rt, &settings, limits);
    let (connecting, fetching) = (config.limits.connecting, config.limits.fetching);
    match server_orders(&rt, alloc, &mut settings) {
        Ok((servers, hurry)) => {
            let (given, logs, filters) = equipped(equipment, connecting, fetching, hurry);
            let site = site_of(&rt, alloc, blank, settings, given);
            let orders = Orders {
                logs,
                filters,
                servers,
            };
            opening_of(rt, alloc, config, site, orders)
        }
        Err(_) => {
            drop(settings);
            drop(equipment);
            Err(ServeFault::NoMemory)
        }
    }
}

// Starts all threads. Those that write logs are the first, so that the others may tell.
fn open_all<R, S, L>(
    rt: R,
    mut opening: Opening<R, S, L>,
    orders: Orders<R::File>,
) -> Result<Site<S, L>, ServeFault>
where
    L: Ledger + Send + Sync + 'static,
    S: AtDesk<L> + Overseen + Send + Sync + 'static,
    R: Threads
        + Wait
        + Net
        + Clock
        + RandomSource
        + AllocGlobal
        + Files
        + Print
        + Eprint
        + Copy
        + Send
        + 'static,
    R::Stream: Send + 'static,
    R::Listener: Send + 'static,
    R::File: Send + 'static,
    R::Dir: Send + 'static,
{
    let Orders {
        logs,
        filters,
        servers,
    } = orders;
    let names = open_first(rt, &mut opening, logs);
    let opened = opening.open(filters, names, servers);
    opening.into_site(opened)
}

// Starts the threads that have no part of the shared state.
fn open_first<R, S, H>(
    rt: R,
    opening: &mut OpeningOf<R, SiteOf<S, H>>,
    logs: LogTasks<R::File>,
) -> Result<NameDesk, ServeFault>
where
    S: Shared,
    R: Threads + Wait + Net + Clock + Files + Print + Eprint + Copy + Send + 'static,
    R::Stream: Send + 'static,
    R::Listener: Send + 'static,
    R::File: Send + 'static,
    R::Dir: Send + 'static,
{
    match open_logs(rt, opening.alloc, &mut opening.site.writings, logs) {
        Ok(()) => {
            let passes = opening.site.proxy.passes();
            open_look_ups(rt, opening.alloc, opening.config.lookup_threads, passes)
        }
        Err(fault) => Err(fault),
    }
}

// Starts a thread that does this work. What the work needs of the host is the work's own, so nothing of that is in sight here.
pub(crate) fn begin<R, W, L>(rt: R, work: W) -> Begun<L>
where
    R: Threads + Copy + Send + 'static,
    W: Work<R, L> + Send + 'static,
    L: Ledger + Send + Sync + 'static,
{
    match thread::spawn(&rt, move || work.run(rt)) {
        Ok(thread) => Ok(thread),
        Err(refused) => {
            drop(refused);
            Err(ServeFault::NoMemory)
        }
    }
}

// Starts the threads that write logs.
fn open_logs<R>(
    rt: R,
    alloc: Global,
    writings: &mut Writings,
    logs: LogTasks<R::File>,
) -> Result<(), ServeFault>
where
    R: Threads + Wait + Files + Print + Eprint + Copy + Send + 'static,
    R::File: Send + 'static,
    R::Dir: Send + 'static,
{
    let LogTasks { log, notices } = logs;
    let begun = open_log(rt, alloc, log);
    let notices = after(keep_writing(&mut writings.log, begun), notices)?;
    let begun = open_log(rt, alloc, notices);
    keep_writing(&mut writings.notices, begun)
}

// Keeps what writes a log there, if that was started or if there is none.
fn keep_writing(
    place: &mut Option<Writing>,
    begun: Result<Option<Writing>, ServeFault>,
) -> Result<(), ServeFault> {
    match begun {
        Ok(writing) => {
            drop(mem::replace(place, writing));
            Ok(())
        }
        Err(fault) => Err(fault),
    }
}

// What is next, if what was before it was done.
fn after<T: Drop>(done: Result<(), ServeFault>, next: T) -> Result<T, ServeFault> {
    match done {
        Ok(()) => Ok(next),
        Err(fault) => {
            drop(next);
            Err(fault)
        }
    }
}

// Starts a thread that writes a log, if there is one.
fn open_log<R>(
    rt: R,
    alloc: Global,
    log: Option<LogTask<R::File>>,
) -> Result<Option<Writing>, ServeFault>
where
    R: Threads + Wait + Files + Print + Eprint + Copy + Send + 'static,
    R::File: Send + 'static,
    R::Dir: Send + 'static,
{
    match log_line(alloc, log)? {
        Some((task, LogEnds { begin, end }, line)) => {
            let write = move || {
                let _ = begin.recv(&rt);
                run_log(&rt, task);
                let _ = end.send(&rt, ());
            };
            writing_of(thread::spawn(&rt, write), line)
        }
        None => Ok(None),
    }
}

// What the thread that writes a log has of the one that starts it: it begins by a message, or once nobody is there to send one, and sends
// one when all is written.
#[derive(Drop)]
struct LogEnds {
    begin: Receiver<(), Global>,
    end: Sender<(), Global>,
}

// What the thread that starts it has of that one.
#[derive(Drop)]
struct LogLine {
    held: Sender<(), Global>,
    written: Receiver<(), Global>,
}

// How a thread that writes a log and the one that starts it hear of each other. Errors: out of memory.
fn log_ends(alloc: Global) -> Result<(LogEnds, LogLine), AllocError> {
    let (held, begin) = bounded(alloc, 1)?;
    let (end, written) = bounded(alloc, 1)?;
    Ok((LogEnds { begin, end }, LogLine { held, written }))
}

// What writes a log, if there is one, with what its thread and the one that starts it hear of each other by.
fn log_line<F: Drop>(
    alloc: Global,
    log: Option<LogTask<F>>,
) -> Result<Option<(LogTask<F>, LogEnds, LogLine)>, ServeFault> {
    match log {
        Some(task) => match log_ends(alloc) {
            Ok((ends, line)) => Ok(Some((task, ends, line))),
            Err(_) => {
                drop(task);
                Err(ServeFault::NoMemory)
            }
        },
        None => Ok(None),
    }
}

// The thread that writes a log, if it was started.
fn writing_of<E: Drop>(
    begun: Result<JoinHandle<()>, E>,
    line: LogLine,
) -> Result<Option<Writing>, ServeFault> {
    match begun {
        Ok(thread) => {
            let LogLine { held, written } = line;
            Ok(Some(Writing {
                thread,
                held,
                written,
            }))
        }
        Err(refused) => {
            drop(refused);
            drop(line);
            Err(ServeFault::NoMemory)
        }
    }
}

// Starts the thread that starts those that look up names, as they are needed. It is not joined, as they are not: it ends when the desk is
// dropped. None of them has a seat or a part of the shared state.
fn open_look_ups<R>(
    rt: R,
    alloc: Global,
    threads: usize,
    passes: &Passes,
) -> Result<NameDesk, ServeFault>
where
    R: Threads + Wait + Net + Clock + Copy + Send + 'static,
    R::Stream: Send + 'static,
    R::Listener: Send + 'static,
{
    let limits = NameLimits::usual(threads);
    match open_names(alloc, limits, passes.has_six) {
        Ok((desk, watch)) => after(begin_look_ups(rt, watch), desk),
        Err(_) => Err(ServeFault::NoMemory),
    }
}

// Starts the thread that starts those that look up names.
fn begin_look_ups<R>(rt: R, watch: NameWatch) -> Result<(), ServeFault>
where
    R: Threads + Wait + Net + Clock + Copy + Send + 'static,
    R::Stream: Send + 'static,
    R::Listener: Send + 'static,
{
    match thread::spawn(&rt, move || watch_names(rt, watch)) {
        Ok(thread) => {
            drop(thread);
            Ok(())
        }
        Err(refused) => {
            drop(refused);
            Err(ServeFault::NoMemory)
        }
    }
}
