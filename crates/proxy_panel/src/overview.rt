//! All that the texts of figures show, gathered from the node and the threads.
use name_lookup::NameCounts;
use node_words::{Counters, NeighbourView};
use proxy_node::Overseen;
use proxy_state::{AccessLog, Fetchers, Passes, Shared, date_seconds};
use std::alloc::{AllocError, AllocGlobal, Global};
use std::fs;
use std::fs::Files;
use std::io::Read;
use std::sync::Wait;
use std::sync::atomic::Ordering;
use std::time::{Clock, Instant};
use traffic_figures::{
    LogLines, LookUps, NeighbourFigures, NeighbourState, Page, ServerConnectionFigures, Snapshot,
    SocketFigures, Sockets,
};

/// The octets of a page of memory, as the system's counts of them have it.
const PAGE_OCTETS: u64 = 4096;

/// What there is to show now. Errors: out of memory.
pub fn page_of<R: Wait + Clock + Files + AllocGlobal, S: Overseen>(
    rt: &R,
    alloc: Global,
    proxy: &S,
) -> Result<Page, AllocError> {
    let process = Process {
        resident: resident_octets(rt),
        open_files: open_files(rt),
    };
    page_with(rt, alloc, proxy, process)
}

/// What the system says of this process.
#[derive(Clone, Copy)]
struct Process {
    resident: Option<u64>,
    open_files: Option<u64>,
}

// What there is to show now, with what the system says of this process. Errors: out of memory.
fn page_with<R: Wait + Clock, S: Overseen>(
    rt: &R,
    alloc: Global,
    proxy: &S,
    process: Process,
) -> Result<Page, AllocError> {
    let figures = proxy.telling().figures.snapshot(alloc)?;
    match neighbours_of(rt, alloc, proxy) {
        Ok(neighbours) => Ok(gathered(rt, proxy, process, figures, neighbours)),
        Err(fault) => {
            drop(figures);
            Err(fault)
        }
    }
}

// What there is to show now beside what memory was needed for.
fn gathered<R: Wait + Clock, S: Overseen>(
    rt: &R,
    proxy: &S,
    process: Process,
    figures: Snapshot,
    neighbours: Vec<NeighbourFigures>,
) -> Page {
    let (telling, passes) = (proxy.telling(), proxy.passes());
    let uptime = uptime_of(rt, telling.started);
    let stats = proxy.stats(rt);
    let sizes = proxy.sizes(rt);
    let (waiting, fetching) = proxy.mail().counts(rt);
    Page {
        figures,
        version: telling.version,
        uptime,
        started: date_seconds(rt).checked_sub(uptime),
        resident: process.resident,
        open_files: process.open_files,
        sockets: Some(Sockets {
            icp: socket_figures(stats.icp),
            htcp: socket_figures(stats.htcp),
        }),
        neighbours,
        connections: Some(telling.connections.load(Ordering::SeqCst) as u64),
        fetching: Some(fetching),
        wanted_octets: Some(telling.wanted_octets.load(Ordering::SeqCst)),
        waiting: Some(waiting),
        streams: streams_of(passes),
        tunnels: tunnels_of(passes),
        attempts: proxy.fetchers().attempts(rt, passes.servers.attempts()),
        look_ups: look_ups_of(rt, proxy.fetchers()),
        servers: Some(servers_of(rt, passes)),
        unwanted: unwanted_of(proxy),
        objects: Some(sizes.objects as u64),
        stored: Some(sizes.octets),
        evictions: Some(sizes.evictions),
        swaps: Some(proxy.swaps()),
        book: Some(sizes.base),
        events: Some(sizes.events),
        log: log_lines(telling.log.as_ref()),
    }
}

// How many requests are being passed on. `None` if none ever are.
fn streams_of(passes: &Passes) -> Option<u64> {
    if passes.has_streams() {
        Some(passes.streams.taken())
    } else {
        None
    }
}

// How many names wait and are being looked up. `None` once the proxy ends.
fn look_ups_of<R: Wait>(rt: &R, fetchers: &Fetchers) -> Option<LookUps> {
    let NameCounts {
        waiting,
        under_way,
        failed,
        refused,
    } = fetchers.name_counts(rt)?;
    Some(LookUps {
        waiting,
        under_way,
        failed,
        refused,
    })
}

// The connections to servers.
fn servers_of<R: Wait>(rt: &R, passes: &Passes) -> ServerConnectionFigures {
    let servers = &passes.servers;
    ServerConnectionFigures {
        busy: servers.busy() as u64,
        idle: servers.idle(rt) as u64,
        refused: servers.refused(),
    }
}

// How many tunnels are open. `None` if there never are any.
fn tunnels_of(passes: &Passes) -> Option<u64> {
    if passes.has_tunnels() {
        Some(passes.tunnels.taken())
    } else {
        None
    }
}

// How many fetches were ended for want of clients. `None` if none ever are.
fn unwanted_of<S: Overseen>(proxy: &S) -> Option<u64> {
    if proxy.mail().ends_unwanted {
        Some(proxy.telling().figures.unwanted())
    } else {
        None
    }
}

// Seconds since an instant; 0 if the clock could not be read.
fn uptime_of<R: Clock>(rt: &R, started: Option<Instant>) -> u64 {
    let (Some(started), Ok(now)) = (started, Instant::now(rt)) else {
        return 0;
    };
    match now.checked_duration_since(started) {
        Some(since) => since.as_secs(),
        None => 0,
    }
}

// The octets of memory that are resident, by the second number of Linux's /proc/self/statm. `None` if it can't be read.
fn resident_octets<R: Files + AllocGlobal>(rt: &R) -> Option<u64> {
    let text = fs::read(rt, "/proc/self/statm").ok()?;
    let resident = resident_in(text.as_slice());
    drop(text);
    resident
}

// The octets of memory that are resident, by the second number of this text.
fn resident_in(text: &[u8]) -> Option<u64> {
    let text = str::from_utf8(text).ok()?;
    let pages: u64 = text.split(' ').nth(1)?.parse().ok()?;
    pages.checked_mul(PAGE_OCTETS)
}

// The files that are open, by the names in Linux's /proc/self/fd: without `.`, `..`, and the one that this opens. `None` if they can't
// be read.
fn open_files<R: Files>(rt: &R) -> Option<u64> {
    let mut listing = rt.open_dir("/proc/self/fd/").ok()?;
    let names = names_in(&mut listing);
    drop(listing);
    names?.checked_sub(3)
}

// How many names there are in a listing. `None` if it can't be read.
fn names_in<D: Read>(listing: &mut D) -> Option<u64> {
    let mut piece = [0; 4096];
    let mut names: u64 = 0;
    for _ in 0..u64::MAX {
        let count = listing.read(&mut piece).ok()?;
        if count == 0 {
            break;
        }
        names = names.saturating_add(ends_in(&piece[..count]));
    }
    Some(names)
}

// How many names end in these octets of a listing: each ends with a NUL.
fn ends_in(piece: &[u8]) -> u64 {
    let mut ends: u64 = 0;
    for octet in piece {
        if *octet == 0 {
            ends = ends.saturating_add(1);
        }
    }
    ends
}

fn socket_figures(counters: Counters) -> SocketFigures {
    let Counters {
        judged,
        rejected,
        cut,
        malformed,
    } = counters;
    SocketFigures {
        judged,
        rejected,
        cut,
        malformed,
    }
}

// The lines of the access log, if there is one.
fn log_lines(log: Option<&AccessLog>) -> Option<LogLines> {
    let counts = log?.desk.counts();
    Some(LogLines {
        written: counts.written,
        lost: counts.lost,
    })
}

// What is known of each neighbour, in the order of the configuration. Errors: out of memory.
fn neighbours_of<R: Wait, S: Overseen>(
    rt: &R,
    alloc: Global,
    proxy: &S,
) -> Result<Vec<NeighbourFigures>, AllocError> {
    let views = proxy.neighbours(rt, alloc)?;
    let mut neighbours = Vec::with_capacity(alloc, views.len())?;
    for view in &views {
        neighbours.push(neighbour_of(view))?;
    }
    Ok(neighbours)
}

fn neighbour_of(view: &NeighbourView) -> NeighbourFigures {
    NeighbourFigures {
        address: view.end.addr,
        port: view.end.port,
        state: Some(NeighbourState {
            is_up: view.is_up,
            // (its unit is an eighth of a millisecond)
            micros: match view.time {
                Some(eighths) => Some(u64::from(eighths) * 125),
                None => None,
            },
            misses: u64::from(view.misses),
            outstanding: None,
        }),
    }
}
