//! The figures in the text format of Prometheus, version 0.0.4.

use crate::figures::{NeighbourCounts, Snapshot};
use crate::kinds::{Course, FetchOutcome, StatusClass};
use crate::lines::{Kind, put_family, put_histogram, put_one, put_sample, put_text, seconds_text};
use crate::page::{NeighbourFigures, NeighbourState, Page, SocketFigures, Sockets};
use crate::replies::ReplyKind;
use std::alloc::{AllocError, Global};
use std::net::Ipv4Addr;

/// All figures in the text format of Prometheus, version 0.0.4: families of samples, each with its help and its type. Counters begin
/// at 0 with the program. What isn't known is left out.
pub fn metrics_text(alloc: Global, page: &Page) -> Result<Vec<u8>, AllocError> {
    let mut out = Vec::new(alloc);
    put_program(&mut out, page)?;
    put_answers(&mut out, &page.figures)?;
    put_fetches(&mut out, &page.figures)?;
    put_times(&mut out, alloc, &page.figures)?;
    put_present(&mut out, page)?;
    put_node(&mut out, page)?;
    if let Some(sockets) = &page.sockets {
        put_sockets(&mut out, sockets)?;
    }
    if !page.neighbours.is_empty() {
        put_neighbours(&mut out, alloc, page)?;
    }
    Ok(out)
}

fn put_program(out: &mut Vec<u8>, page: &Page) -> Result<(), AllocError> {
    let build = "wabretos_build_info";
    put_family(
        out,
        build,
        Kind::Gauge,
        "Always 1; its label is the version of the program.",
    )?;
    put_sample(out, build, &[("version", page.version)], 1)?;
    put_one(
        out,
        "wabretos_uptime_seconds",
        Kind::Gauge,
        "Seconds since the proxy was started.",
        Some(page.uptime),
    )?;
    put_one(
        out,
        "process_start_time_seconds",
        Kind::Gauge,
        "When the process was started, in seconds since 1970.",
        page.started,
    )?;
    put_one(
        out,
        "process_resident_memory_bytes",
        Kind::Gauge,
        "Memory that the process holds.",
        page.resident,
    )?;
    put_one(
        out,
        "process_open_fds",
        Kind::Gauge,
        "Files and sockets that the process has open.",
        page.open_files,
    )
}

fn put_answers(out: &mut Vec<u8>, figures: &Snapshot) -> Result<(), AllocError> {
    let answers = "wabretos_answers_total";
    put_family(
        out,
        answers,
        Kind::Counter,
        "Requests that have ended, and connections that brought none, by how they were answered and by class of status.",
    )?;
    for course in &Course::ALL {
        put_course(out, answers, *course, &figures.answers[course.place()])?;
    }
    let content = "wabretos_answer_content_bytes_total";
    put_family(
        out,
        content,
        Kind::Counter,
        "Content handed to clients, by how the answer came to be.",
    )?;
    for course in &Course::ALL {
        let labels = [("course", course.name())];
        put_sample(out, content, &labels, figures.content[course.place()])?;
    }
    Ok(())
}

fn put_course(
    out: &mut Vec<u8>,
    name: &str,
    course: Course,
    counts: &[u64; 6],
) -> Result<(), AllocError> {
    for class in &StatusClass::ALL {
        let labels = [("course", course.name()), ("class", class.name())];
        put_sample(out, name, &labels, counts[class.place()])?;
    }
    Ok(())
}

fn put_fetches(out: &mut Vec<u8>, figures: &Snapshot) -> Result<(), AllocError> {
    let [from_origins, from_neighbours] = &figures.fetches;
    let fetches = "wabretos_fetches_total";
    put_family(
        out,
        fetches,
        Kind::Counter,
        "Fetches that have ended, by kind of source and outcome.",
    )?;
    put_outcomes(out, fetches, "origin", from_origins)?;
    put_outcomes(out, fetches, "neighbour", from_neighbours)?;

    let [from_origins, from_neighbours] = figures.bodies;
    let bodies = "wabretos_fetched_bytes_total";
    put_family(
        out,
        bodies,
        Kind::Counter,
        "Bodies of complete responses that were fetched, by kind of source.",
    )?;
    put_sample(out, bodies, &[("source", "origin")], from_origins)?;
    put_sample(out, bodies, &[("source", "neighbour")], from_neighbours)
}

fn put_outcomes(
    out: &mut Vec<u8>,
    name: &str,
    source: &'static str,
    counts: &[u64; 3],
) -> Result<(), AllocError> {
    for outcome in &FetchOutcome::ALL {
        let labels = [("source", source), ("outcome", outcome.name())];
        put_sample(out, name, &labels, counts[outcome.place()])?;
    }
    Ok(())
}

fn put_times(out: &mut Vec<u8>, alloc: Global, figures: &Snapshot) -> Result<(), AllocError> {
    put_histogram(
        out,
        alloc,
        "wabretos_hit_duration_seconds",
        "From a request to the end of its answer, for hits.",
        &figures.hits,
    )?;
    put_histogram(
        out,
        alloc,
        "wabretos_forwarded_duration_seconds",
        "From a request to the end of its answer, for misses, collapsed requests and bypasses.",
        &figures.forwarded,
    )?;
    put_histogram(
        out,
        alloc,
        "wabretos_fetch_duration_seconds",
        "How long fetches took, those that failed among them.",
        &figures.fetched,
    )
}

fn put_present(out: &mut Vec<u8>, page: &Page) -> Result<(), AllocError> {
    put_one(
        out,
        "wabretos_client_connections",
        Kind::Gauge,
        "Open connections of clients.",
        page.connections,
    )?;
    put_one(
        out,
        "wabretos_waiting_clients",
        Kind::Gauge,
        "Clients that wait for an answer.",
        page.waiting,
    )?;
    put_one(
        out,
        "wabretos_pending_fetches",
        Kind::Gauge,
        "Fetches under way.",
        page.fetching,
    )?;
    put_one(
        out,
        "wabretos_waiting_octets",
        Kind::Gauge,
        "Octets of bodies that wait for room among those under way.",
        page.wanted_octets,
    )?;
    put_passing(out, page)?;
    put_look_ups(out, page)?;
    let Some(log) = page.log else {
        return Ok(());
    };
    put_one(
        out,
        "wabretos_log_lines_written_total",
        Kind::Counter,
        "Lines of the access log that were written.",
        Some(log.written),
    )?;
    put_one(
        out,
        "wabretos_log_lines_lost_total",
        Kind::Counter,
        "Lines of the access log that were lost.",
        Some(log.lost),
    )
}

fn put_passing(out: &mut Vec<u8>, page: &Page) -> Result<(), AllocError> {
    put_one(
        out,
        "wabretos_streams",
        Kind::Gauge,
        "Requests that are being passed on.",
        page.streams,
    )?;
    put_one(
        out,
        "wabretos_tunnels",
        Kind::Gauge,
        "Open tunnels.",
        page.tunnels,
    )?;
    put_one(
        out,
        "wabretos_fetches_unwanted_total",
        Kind::Counter,
        "Fetches that were ended for want of clients.",
        page.unwanted,
    )?;
    put_servers(out, page)?;
    put_attempts(out, page)
}

fn put_servers(out: &mut Vec<u8>, page: &Page) -> Result<(), AllocError> {
    let Some(servers) = page.servers else {
        return Ok(());
    };
    put_one(
        out,
        "wabretos_busy_server_connections",
        Kind::Gauge,
        "Connections to servers that carry something or are being made.",
        Some(servers.busy),
    )?;
    put_one(
        out,
        "wabretos_idle_server_connections",
        Kind::Gauge,
        "Connections to servers that are kept while they are idle.",
        Some(servers.idle),
    )?;
    put_one(
        out,
        "wabretos_refused_server_connections_total",
        Kind::Counter,
        "Connections to servers that were not made, as no open file was left for them.",
        Some(servers.refused),
    )
}

fn put_attempts(out: &mut Vec<u8>, page: &Page) -> Result<(), AllocError> {
    let Some(attempts) = page.attempts else {
        return Ok(());
    };
    put_one(
        out,
        "wabretos_connect_attempts",
        Kind::Gauge,
        "Attempts to connect that go beside another one of the same server.",
        Some(attempts.under_way),
    )?;
    put_one(
        out,
        "wabretos_connect_attempts_begun_total",
        Kind::Counter,
        "Attempts to connect that have begun beside another one of the same server.",
        Some(attempts.begun),
    )?;
    put_one(
        out,
        "wabretos_connect_attempts_held_total",
        Kind::Counter,
        "Attempts to connect that came after another one of the same server, since there were as many beside others as there may be.",
        Some(attempts.held),
    )
}

fn put_look_ups(out: &mut Vec<u8>, page: &Page) -> Result<(), AllocError> {
    let Some(look_ups) = page.look_ups else {
        return Ok(());
    };
    put_one(
        out,
        "wabretos_waiting_lookups",
        Kind::Gauge,
        "Names of servers that wait for their look-up.",
        Some(look_ups.waiting),
    )?;
    put_one(
        out,
        "wabretos_pending_lookups",
        Kind::Gauge,
        "Look-ups of names of servers under way.",
        Some(look_ups.under_way),
    )?;
    put_one(
        out,
        "wabretos_lookups_failed_total",
        Kind::Counter,
        "Names of servers that were not found within their time.",
        Some(look_ups.failed),
    )?;
    put_one(
        out,
        "wabretos_lookups_refused_total",
        Kind::Counter,
        "Look-ups that were refused, since too many names wait.",
        Some(look_ups.refused),
    )
}

fn put_node(out: &mut Vec<u8>, page: &Page) -> Result<(), AllocError> {
    put_one(
        out,
        "wabretos_stored_objects",
        Kind::Gauge,
        "Stored objects, those that are no longer fresh among them.",
        page.objects,
    )?;
    put_one(
        out,
        "wabretos_stored_bytes",
        Kind::Gauge,
        "Stored objects and their keys.",
        page.stored,
    )?;
    put_one(
        out,
        "wabretos_evictions_total",
        Kind::Counter,
        "Objects that had to make room for others in the store.",
        page.evictions,
    )?;
    put_one(
        out,
        "wabretos_filter_swaps_total",
        Kind::Counter,
        "Filters installed and removed.",
        page.swaps,
    )?;
    put_one(
        out,
        "wabretos_events_total",
        Kind::Counter,
        "Events that the node has taken: requests, clients that left, results of fetches, datagrams, ticks and filters.",
        page.events,
    )?;
    put_one(
        out,
        "wabretos_book_first_event",
        Kind::Gauge,
        "Number, from 0, of the first event in the present volume of the log of events: so many were taken before it began.",
        page.book,
    )
}

fn put_sockets(out: &mut Vec<u8>, sockets: &Sockets) -> Result<(), AllocError> {
    let Sockets { icp, htcp } = sockets;
    put_both(
        out,
        "wabretos_datagrams_judged_total",
        "Datagrams judged by the filters, by query socket.",
        [icp.judged, htcp.judged],
    )?;
    put_both(
        out,
        "wabretos_datagrams_rejected_total",
        "Datagrams that a filter dropped, by query socket.",
        [icp.rejected, htcp.rejected],
    )?;
    put_both(
        out,
        "wabretos_datagrams_cut_total",
        "Datagrams that a filter cut, by query socket.",
        [icp.cut, htcp.cut],
    )?;
    put_both(
        out,
        "wabretos_datagrams_malformed_total",
        "Datagrams that were no message of the socket's protocol, by query socket.",
        [icp.malformed, htcp.malformed],
    )
}

// A family with a sample for each query socket, ICP first.
fn put_both(out: &mut Vec<u8>, name: &str, help: &str, values: [u64; 2]) -> Result<(), AllocError> {
    put_family(out, name, Kind::Counter, help)?;
    let [icp, htcp] = values;
    put_sample(out, name, &[("socket", "icp")], icp)?;
    put_sample(out, name, &[("socket", "htcp")], htcp)
}

/// A neighbour with the values of its labels.
#[derive(Drop)]
struct Row {
    number: String,
    address: String,
    state: Option<NeighbourState>,
    counts: Option<NeighbourCounts>,
}

fn put_neighbours(out: &mut Vec<u8>, alloc: Global, page: &Page) -> Result<(), AllocError> {
    let rows = rows_of(alloc, page)?;
    if rows.iter().any(|row| row.counts.is_some()) {
        put_neighbour_fetches(out, &rows)?;
        put_neighbour_queries(out, &rows)?;
        put_neighbour_replies(out, &rows)?;
    }
    for reading in &Reading::ALL {
        put_reading(out, alloc, &rows, *reading)?;
    }
    Ok(())
}

fn rows_of(alloc: Global, page: &Page) -> Result<Vec<Row>, AllocError> {
    let mut rows = Vec::new(alloc);
    for (n, neighbour) in page.neighbours.iter().enumerate() {
        rows.push(Row {
            number: n.to_string(alloc)?,
            address: address_text(alloc, neighbour)?,
            state: neighbour.state,
            counts: page.figures.neighbours.get(n).copied(),
        })?;
    }
    Ok(rows)
}

fn address_text(alloc: Global, neighbour: &NeighbourFigures) -> Result<String, AllocError> {
    format!(in alloc;
        "{}:{}",
        Ipv4Addr::from_octets(neighbour.address),
        neighbour.port
    )
}

fn put_neighbour_fetches(out: &mut Vec<u8>, rows: &[Row]) -> Result<(), AllocError> {
    let name = "wabretos_neighbour_fetches_total";
    put_family(
        out,
        name,
        Kind::Counter,
        "Fetches from the neighbour that have ended, by outcome.",
    )?;
    for row in rows {
        if let Some(counts) = &row.counts {
            put_row_fetches(out, name, row, &counts.fetches)?;
        }
    }
    Ok(())
}

fn put_row_fetches(
    out: &mut Vec<u8>,
    name: &str,
    row: &Row,
    counts: &[u64; 3],
) -> Result<(), AllocError> {
    for outcome in &FetchOutcome::ALL {
        let labels = [
            ("neighbour", row.number.as_str()),
            ("address", row.address.as_str()),
            ("outcome", outcome.name()),
        ];
        put_sample(out, name, &labels, counts[outcome.place()])?;
    }
    Ok(())
}

fn put_neighbour_queries(out: &mut Vec<u8>, rows: &[Row]) -> Result<(), AllocError> {
    let name = "wabretos_neighbour_queries_total";
    put_family(
        out,
        name,
        Kind::Counter,
        "Queries that were sent to the neighbour.",
    )?;
    for row in rows {
        if let Some(counts) = &row.counts {
            let labels = [
                ("neighbour", row.number.as_str()),
                ("address", row.address.as_str()),
            ];
            put_sample(out, name, &labels, counts.queries)?;
        }
    }
    Ok(())
}

fn put_neighbour_replies(out: &mut Vec<u8>, rows: &[Row]) -> Result<(), AllocError> {
    let name = "wabretos_neighbour_replies_total";
    put_family(
        out,
        name,
        Kind::Counter,
        "Replies of the neighbour that the filters let through, by kind.",
    )?;
    for row in rows {
        if let Some(counts) = &row.counts {
            put_row_replies(out, name, row, &counts.replies)?;
        }
    }
    Ok(())
}

fn put_row_replies(
    out: &mut Vec<u8>,
    name: &str,
    row: &Row,
    counts: &[u64; 8],
) -> Result<(), AllocError> {
    for kind in &ReplyKind::ALL {
        let labels = [
            ("neighbour", row.number.as_str()),
            ("address", row.address.as_str()),
            ("kind", kind.name()),
        ];
        put_sample(out, name, &labels, counts[kind.place()])?;
    }
    Ok(())
}

/// A number in the state of a neighbour.
#[derive(Clone, Copy)]
enum Reading {
    Up,
    Time,
    Misses,
    Outstanding,
}

impl Reading {
    const ALL: [Reading; 4] = [
        Reading::Up,
        Reading::Time,
        Reading::Misses,
        Reading::Outstanding,
    ];

    fn name(self) -> &'static str {
        match self {
            Reading::Up => "wabretos_neighbour_up",
            Reading::Time => "wabretos_neighbour_response_seconds",
            Reading::Misses => "wabretos_neighbour_misses",
            Reading::Outstanding => "wabretos_neighbour_outstanding_queries",
        }
    }

    fn help(self) -> &'static str {
        match self {
            Reading::Up => {
                "Whether the neighbour is waited for: 0 once it was silent in 20 rounds, until it answers."
            }
            Reading::Time => "Smoothed time to the neighbour's answers to queries.",
            Reading::Misses => {
                "Rounds of queries in which the neighbour was silent since it was last heard from, at most 20."
            }
            Reading::Outstanding => "Queries to the neighbour that are not answered yet.",
        }
    }

    /// The number as text. `None` if it isn't known.
    fn text(self, alloc: Global, state: &NeighbourState) -> Result<Option<String>, AllocError> {
        let count = match self {
            Reading::Time => return time_text(alloc, state.micros),
            Reading::Up => Some(u64::from(state.is_up)),
            Reading::Misses => Some(state.misses),
            Reading::Outstanding => state.outstanding,
        };
        let Some(count) = count else {
            return Ok(None);
        };
        Ok(Some(count.to_string(alloc)?))
    }
}

fn time_text(alloc: Global, micros: Option<u64>) -> Result<Option<String>, AllocError> {
    match micros {
        Some(micros) => Ok(Some(seconds_text(alloc, micros)?)),
        None => Ok(None),
    }
}

// A family of gauges with what is known of each neighbour; nothing if nothing is known.
fn put_reading(
    out: &mut Vec<u8>,
    alloc: Global,
    rows: &[Row],
    reading: Reading,
) -> Result<(), AllocError> {
    let mut is_begun = false;
    for row in rows {
        let Some(text) = row.text(alloc, reading)? else {
            continue;
        };
        if !is_begun {
            put_family(out, reading.name(), Kind::Gauge, reading.help())?;
            is_begun = true;
        }
        let labels = [
            ("neighbour", row.number.as_str()),
            ("address", row.address.as_str()),
        ];
        put_text(out, reading.name(), &labels, text.as_str())?;
    }
    Ok(())
}

impl Row {
    fn text(&self, alloc: Global, reading: Reading) -> Result<Option<String>, AllocError> {
        match &self.state {
            Some(state) => reading.text(alloc, state),
            None => Ok(None),
        }
    }
}
