//! The metrics and the JSON of a page (`traffic_figures`).
use crate::rows::{Question, all_hold};
use json::Writer;
use std::alloc::{AllocError, Global};
use std::test::Fail;
use traffic_figures::{
    AnswerNote, AttemptFigures, Course, FetchNote, FetchOutcome, FetchedFrom, Figures, LogLines,
    NeighbourCounts, NeighbourFigures, NeighbourState, Page, ReplyKind, ServerConnectionFigures,
    Snapshot, SocketFigures, Sockets, clients_text, metrics_text, write_neighbour_counts,
};

/// Answers: course, status, octets and microseconds.
const ANSWERS: [(Course, u16, u64, Option<u64>); 8] = [
    (Course::Hit, 200, 1000, Some(1_000)),
    (Course::Hit, 304, 0, Some(1_001)),
    (Course::Hit, 399, 0, None),
    (Course::Miss, 200, 500, Some(250_000)),
    (Course::Miss, 600, 1, Some(40_000_000)),
    (Course::Collapsed, 404, 20, None),
    // The client left before there was an answer: it isn't timed.
    (Course::Bypass, 0, 0, Some(5)),
    (Course::Own, 403, 30, Some(7)),
];

/// Fetches: source, outcome, octets and microseconds.
const FETCHES: [(FetchedFrom, FetchOutcome, u64, Option<u64>); 5] = [
    (FetchedFrom::Origin, FetchOutcome::Whole, 600, Some(10_000)),
    (FetchedFrom::Origin, FetchOutcome::Refused, 0, Some(1)),
    (
        FetchedFrom::Neighbour(1),
        FetchOutcome::Whole,
        400,
        Some(5_000_001),
    ),
    (FetchedFrom::Neighbour(0), FetchOutcome::Failed, 7, None),
    // There is no such neighbour.
    (FetchedFrom::Neighbour(9), FetchOutcome::Failed, 0, None),
];

/// Places of neighbours, of which there are two, and how many queries are sent to each.
const QUERIES: [(usize, u32); 3] = [(0, 30), (1, 11), (2, 1)];

/// Replies: the neighbour's place, the kind, and how many.
const REPLIES: [(usize, ReplyKind, u32); 10] = [
    (0, ReplyKind::Hit, 2),
    (0, ReplyKind::Miss, 1),
    (0, ReplyKind::Denied, 3),
    (0, ReplyKind::MissNoFetch, 4),
    (0, ReplyKind::Error, 5),
    (0, ReplyKind::Other, 6),
    (1, ReplyKind::Found, 7),
    (1, ReplyKind::NotFound, 8),
    (1, ReplyKind::Other, 9),
    // There is no such neighbour.
    (2, ReplyKind::Hit, 1),
];

fn note_queries(figures: &Figures) {
    for (neighbour, times) in &QUERIES {
        for _ in 0..*times {
            figures.note_query(*neighbour);
        }
    }
}

fn note_replies(figures: &Figures) {
    for (neighbour, kind, times) in &REPLIES {
        for _ in 0..*times {
            figures.note_reply(*neighbour, *kind);
        }
    }
}

fn note_answers(figures: &Figures) {
    for (course, status, octets, micros) in &ANSWERS {
        figures.note_answer(AnswerNote {
            course: *course,
            status: *status,
            octets: *octets,
            micros: *micros,
        });
    }
}

fn note_fetches(figures: &Figures) {
    for (from, outcome, octets, micros) in &FETCHES {
        figures.note_fetch(FetchNote {
            from: *from,
            outcome: *outcome,
            octets: *octets,
            micros: *micros,
        });
    }
}

// The counters after all of these.
fn figures(alloc: Global) -> Result<Figures, AllocError> {
    let figures = Figures::new(alloc, 2)?;
    note_queries(&figures);
    note_replies(&figures);
    note_answers(&figures);
    note_fetches(&figures);
    Ok(figures)
}

fn snapshot(alloc: Global) -> Result<Snapshot, AllocError> {
    let figures = figures(alloc)?;
    let snapshot = figures.snapshot(alloc);
    drop(figures);
    snapshot
}

fn socket(first: u64) -> SocketFigures {
    SocketFigures {
        judged: first,
        rejected: first.saturating_add(1),
        cut: first.saturating_add(2),
        malformed: first.saturating_add(3),
    }
}

fn neighbours(alloc: Global) -> Result<Vec<NeighbourFigures>, AllocError> {
    let mut neighbours = Vec::new(alloc);
    neighbours.push(NeighbourFigures {
        address: [10, 0, 0, 9],
        port: 3130,
        state: Some(NeighbourState {
            is_up: true,
            micros: Some(12_375),
            misses: 4,
            outstanding: None,
        }),
    })?;
    neighbours.push(NeighbourFigures {
        address: [255, 0, 100, 1],
        port: 65_535,
        state: None,
    })?;
    Ok(neighbours)
}

const VERSION: &'static str = "1.0 \"a\\b\"\n";

// Some figures are known, and some are not.
fn page(alloc: Global) -> Result<Page, AllocError> {
    let neighbours = neighbours(alloc)?;
    let figures = snapshot(alloc)?;
    Ok(Page {
        figures,
        version: VERSION,
        uptime: 90,
        started: Some(1_700_000_000),
        resident: Some(18_446_744_073_709_551_615),
        open_files: Some(35),
        sockets: Some(Sockets {
            icp: socket(11),
            htcp: socket(21),
        }),
        neighbours,
        connections: Some(3),
        fetching: Some(2),
        wanted_octets: Some(65_536),
        waiting: None,
        streams: Some(4),
        tunnels: None,
        servers: Some(ServerConnectionFigures {
            busy: 6,
            idle: 32,
            refused: 7,
        }),
        attempts: Some(AttemptFigures {
            under_way: 6,
            begun: 70,
            held: 8,
        }),
        look_ups: None,
        unwanted: Some(6),
        objects: None,
        stored: Some(7000),
        evictions: Some(0),
        swaps: None,
        book: Some(1),
        events: Some(99),
        log: Some(LogLines {
            written: 5,
            lost: 0,
        }),
    })
}

const JSON: &'static str =
    "{\"uptime\":90,\"answers\":{\"hit\":3,\"miss\":2,\"collapsed\":1,\"bypass\":1,\"refused\":1},\"statuses\":{\"1xx\":0,\"2xx\":2,\"3xx\":2,\"4xx\":2,\"5xx\":1,\"none\":1},\"octets\":{\"clients\":1551,\"origins\":600,\"neighbours\":407},\"fetches\":{\"origins\":{\"whole\":1,\"refused\":1,\"failed\":0},\"neighbours\":{\"whole\":1,\"refused\":0,\"failed\":2}},\"seconds\":{\"hits\":{\"buckets\":[[0.001,1],[0.0025,2],[0.005,2],[0.01,2],[0.025,2],[0.05,2],[0.1,2],[0.25,2],[0.5,2],[1,2],[2.5,2],[5,2],[10,2],[30,2],[\"+Inf\",2]],\"sum\":0.002001,\"count\":2},\"forwarded\":{\"buckets\":[[0.001,0],[0.0025,0],[0.005,0],[0.01,0],[0.025,0],[0.05,0],[0.1,0],[0.25,1],[0.5,1],[1,1],[2.5,1],[5,1],[10,1],[30,1],[\"+Inf\",2]],\"sum\":40.250000,\"count\":2},\"fetches\":{\"buckets\":[[0.001,0],[0.0025,0],[0.005,0],[0.01,1],[0.025,1],[0.05,1],[0.1,1],[0.25,1],[0.5,1],[1,1],[2.5,1],[5,1],[10,2],[30,2],[\"+Inf\",2]],\"sum\":5.010001,\"count\":2}},\"connections\":3,\"waiting\":null,\"fetching\":2,\"waiting_octets\":65536,\"streams\":4,\"servers\":{\"busy\":6,\"idle\":32,\"refused\":7},\"attempts\":{\"beside\":6,\"begun\":70,\"held\":8},\"unwanted\":6,\"log\":{\"written\":5,\"lost\":0}}\n";

// A page in JSON. What owns a page has no way out while it has it: each would drop all of it anew.
fn page_as_json(alloc: Global) -> Result<Vec<u8>, AllocError> {
    let page = page(alloc)?;
    let text = clients_text(alloc, &page);
    drop(page);
    text
}

#[test]
fn the_figures_as_json(rt: HostRuntime) -> Result<(), Fail> {
    let text = page_as_json(rt.alloc())?;
    assert!(rt; text.as_slice() == JSON.as_bytes());
    Ok(())
}

/// What is counted of both neighbours.
const NEIGHBOURS: [&'static str; 2] = [
    "{\"queries\":30,\"replies\":{\"hit\":2,\"miss\":1,\"denied\":3,\"miss_nofetch\":4,\"error\":5,\"found\":0,\"not_found\":0,\"other\":6},\"fetches\":{\"whole\":0,\"refused\":0,\"failed\":1}}",
    "{\"queries\":11,\"replies\":{\"hit\":0,\"miss\":0,\"denied\":0,\"miss_nofetch\":0,\"error\":0,\"found\":7,\"not_found\":8,\"other\":9},\"fetches\":{\"whole\":1,\"refused\":0,\"failed\":0}}",
];

fn counts(alloc: Global) -> Result<Vec<NeighbourCounts>, AllocError> {
    let figures = figures(alloc)?;
    let counts = figures.by_neighbour(alloc);
    drop(figures);
    counts
}

fn write_counts(json: &mut Writer, counts: &NeighbourCounts) -> Result<(), AllocError> {
    json.begin_object()?;
    write_neighbour_counts(json, counts)?;
    json.end_object()
}

fn counts_as_json(alloc: Global, counts: &NeighbourCounts) -> Result<Vec<u8>, AllocError> {
    let mut json = Writer::new(Vec::new(alloc));
    let written = write_counts(&mut json, counts);
    let text = json.into_inner();
    written?;
    Ok(text)
}

// Whether the counts of both neighbours are written as they should be.
fn are_written(alloc: Global, counts: &[NeighbourCounts]) -> Result<bool, AllocError> {
    for (counts, text) in counts.iter().zip(&NEIGHBOURS) {
        if counts_as_json(alloc, counts)?.as_slice() != text.as_bytes() {
            return Ok(false);
        }
    }
    Ok(counts.len() == 2)
}

#[test]
fn the_counts_of_neighbours_as_json(rt: HostRuntime) -> Result<(), Fail> {
    let counts = counts(rt.alloc())?;
    let are_written = are_written(rt.alloc(), &counts);
    drop(counts);
    assert!(rt; are_written?);
    Ok(())
}

/// Lines of the metrics.
const LINES: [&'static str; 66] = [
    "wabretos_build_info{version=\"1.0 \\\"a\\\\b\\\"\\n\"} 1",
    "# HELP wabretos_uptime_seconds Seconds since the proxy was started.",
    "# TYPE wabretos_uptime_seconds gauge",
    "wabretos_uptime_seconds 90",
    "process_start_time_seconds 1700000000",
    "process_resident_memory_bytes 18446744073709551615",
    "process_open_fds 35",
    "wabretos_answers_total{course=\"hit\",class=\"2xx\"} 1",
    "wabretos_answers_total{course=\"hit\",class=\"3xx\"} 2",
    "wabretos_answers_total{course=\"miss\",class=\"5xx\"} 1",
    "wabretos_answers_total{course=\"bypass\",class=\"none\"} 1",
    "wabretos_answers_total{course=\"refused\",class=\"4xx\"} 1",
    "wabretos_answer_content_bytes_total{course=\"hit\"} 1000",
    "wabretos_fetches_total{source=\"origin\",outcome=\"refused\"} 1",
    "wabretos_fetches_total{source=\"neighbour\",outcome=\"failed\"} 2",
    "wabretos_fetched_bytes_total{source=\"neighbour\"} 407",
    "# TYPE wabretos_forwarded_duration_seconds histogram",
    "wabretos_forwarded_duration_seconds_bucket{le=\"0.1\"} 0",
    "wabretos_forwarded_duration_seconds_bucket{le=\"0.25\"} 1",
    "wabretos_forwarded_duration_seconds_bucket{le=\"30\"} 1",
    "wabretos_forwarded_duration_seconds_bucket{le=\"+Inf\"} 2",
    "wabretos_forwarded_duration_seconds_sum 40.250000",
    "wabretos_forwarded_duration_seconds_count 2",
    "wabretos_client_connections 3",
    "wabretos_pending_fetches 2",
    "# HELP wabretos_waiting_octets Octets of bodies that wait for room among those under way.",
    "# TYPE wabretos_waiting_octets gauge",
    "wabretos_waiting_octets 65536",
    "wabretos_streams 4",
    "# TYPE wabretos_refused_server_connections_total counter",
    "wabretos_refused_server_connections_total 7",
    "wabretos_busy_server_connections 6",
    "wabretos_idle_server_connections 32",
    "wabretos_connect_attempts 6",
    "# TYPE wabretos_connect_attempts_begun_total counter",
    "wabretos_connect_attempts_begun_total 70",
    "wabretos_connect_attempts_held_total 8",
    "# TYPE wabretos_fetches_unwanted_total counter",
    "wabretos_fetches_unwanted_total 6",
    "wabretos_log_lines_written_total 5",
    "wabretos_log_lines_lost_total 0",
    "wabretos_stored_bytes 7000",
    "wabretos_evictions_total 0",
    "# TYPE wabretos_events_total counter",
    "wabretos_events_total 99",
    "# TYPE wabretos_book_first_event gauge",
    "wabretos_book_first_event 1",
    "wabretos_datagrams_judged_total{socket=\"icp\"} 11",
    "wabretos_datagrams_malformed_total{socket=\"htcp\"} 24",
    "wabretos_neighbour_fetches_total{neighbour=\"0\",address=\"10.0.0.9:3130\",outcome=\"failed\"} 1",
    "wabretos_neighbour_fetches_total{neighbour=\"1\",address=\"255.0.100.1:65535\",outcome=\"whole\"} 1",
    "# TYPE wabretos_neighbour_queries_total counter",
    "wabretos_neighbour_queries_total{neighbour=\"0\",address=\"10.0.0.9:3130\"} 30",
    "wabretos_neighbour_queries_total{neighbour=\"1\",address=\"255.0.100.1:65535\"} 11",
    "# TYPE wabretos_neighbour_replies_total counter",
    "wabretos_neighbour_replies_total{neighbour=\"0\",address=\"10.0.0.9:3130\",kind=\"hit\"} 2",
    "wabretos_neighbour_replies_total{neighbour=\"0\",address=\"10.0.0.9:3130\",kind=\"miss\"} 1",
    "wabretos_neighbour_replies_total{neighbour=\"0\",address=\"10.0.0.9:3130\",kind=\"denied\"} 3",
    "wabretos_neighbour_replies_total{neighbour=\"0\",address=\"10.0.0.9:3130\",kind=\"miss_nofetch\"} 4",
    "wabretos_neighbour_replies_total{neighbour=\"0\",address=\"10.0.0.9:3130\",kind=\"error\"} 5",
    "wabretos_neighbour_replies_total{neighbour=\"0\",address=\"10.0.0.9:3130\",kind=\"other\"} 6",
    "wabretos_neighbour_replies_total{neighbour=\"1\",address=\"255.0.100.1:65535\",kind=\"found\"} 7",
    "wabretos_neighbour_replies_total{neighbour=\"1\",address=\"255.0.100.1:65535\",kind=\"not_found\"} 8",
    "wabretos_neighbour_up{neighbour=\"0\",address=\"10.0.0.9:3130\"} 1",
    "wabretos_neighbour_response_seconds{neighbour=\"0\",address=\"10.0.0.9:3130\"} 0.012375",
    "wabretos_neighbour_misses{neighbour=\"0\",address=\"10.0.0.9:3130\"} 4",
];

/// Samples of what isn't known.
const ABSENT: [&'static str; 6] = [
    "wabretos_waiting_clients",
    "wabretos_tunnels",
    "wabretos_waiting_lookups",
    "wabretos_stored_objects",
    "wabretos_neighbour_outstanding_queries",
    "wabretos_neighbour_up{neighbour=\"1\"",
];

// The metrics of a page with this version, and with this sum of the times of hits.
fn metrics(alloc: Global, version: &'static str, micros: u64) -> Result<Vec<u8>, AllocError> {
    let mut page = page(alloc)?;
    page.version = version;
    page.figures.hits.micros = micros;
    let text = metrics_text(alloc, &page);
    drop(page);
    text
}

fn has_line(text: &[u8], line: &str) -> bool {
    let text = str::from_utf8(text).unwrap_or("");
    for shown in text.lines() {
        if shown == line {
            return true;
        }
    }
    false
}

// The metrics have the line.
#[derive(Drop)]
struct HasLine<'a> {
    text: &'a [u8],
}

impl Question<&'static str> for HasLine<'_> {
    fn holds(&self, _alloc: Global, row: &&'static str) -> Result<bool, Fail> {
        Ok(has_line(self.text, *row))
    }
}

#[test]
fn the_metrics(rt: HostRuntime) -> Result<(), Fail> {
    let text = metrics(rt.alloc(), VERSION, 2_001)?;
    let question = HasLine {
        text: text.as_slice(),
    };
    let told = all_hold(rt.alloc(), &LINES, &question);
    drop(text);
    told
}

// The metrics have no such sample.
#[derive(Drop)]
struct LeavesOut<'a> {
    text: &'a str,
}

impl Question<&'static str> for LeavesOut<'_> {
    fn holds(&self, _alloc: Global, row: &&'static str) -> Result<bool, Fail> {
        Ok(!self.text.contains(*row))
    }
}

#[test]
fn what_is_not_known_is_left_out(rt: HostRuntime) -> Result<(), Fail> {
    let text = metrics(rt.alloc(), VERSION, 2_001)?;
    let text = String::from_utf8(text).ok().ok_or("it is text")?;
    let question = LeavesOut {
        text: text.as_str(),
    };
    let told = all_hold(rt.alloc(), &ABSENT, &question);
    drop(text);
    told
}

/// Values of labels, and how they are written.
const ESCAPES: [(&'static str, &'static str); 4] = [
    ("", ""),
    ("10.0.0.9:3130", "10.0.0.9:3130"),
    ("a\\b\"c\nd", "a\\\\b\\\"c\\nd"),
    ("\n\n\u{e9}", "\\n\\n\u{e9}"),
];

// A version is written as the value of a label as in its row.
struct EscapedAs;

impl Question<(&'static str, &'static str)> for EscapedAs {
    fn holds(&self, alloc: Global, row: &(&'static str, &'static str)) -> Result<bool, Fail> {
        let (version, written) = *row;
        let text = metrics(alloc, version, 0)?;
        let line = format!(in alloc; "wabretos_build_info{{version=\"{written}\"}} 1")?;
        Ok(has_line(text.as_slice(), line.as_str()))
    }
}

// The version is the value of a label.
#[test]
fn the_values_of_labels(rt: HostRuntime) -> Result<(), Fail> {
    all_hold(rt.alloc(), &ESCAPES, &EscapedAs)
}

/// Microseconds, and how they are written in seconds.
const SECONDS: [(u64, &'static str); 4] = [
    (0, "0.000000"),
    (1, "0.000001"),
    (12_034_500, "12.034500"),
    (18_446_744_073_709_551_615, "18446744073709.551615"),
];

// Microseconds are written as in their row.
struct WrittenAs;

impl Question<(u64, &'static str)> for WrittenAs {
    fn holds(&self, alloc: Global, row: &(u64, &'static str)) -> Result<bool, Fail> {
        let (micros, written) = *row;
        let text = metrics(alloc, VERSION, micros)?;
        let line = format!(in alloc; "wabretos_hit_duration_seconds_sum {written}")?;
        Ok(has_line(text.as_slice(), line.as_str()))
    }
}

#[test]
fn seconds_have_six_decimals(rt: HostRuntime) -> Result<(), Fail> {
    all_hold(rt.alloc(), &SECONDS, &WrittenAs)
}
