//! The figures of clients and fetches as JSON, and those of a neighbour.

use crate::figures::{NeighbourCounts, Snapshot};
use crate::kinds::{Course, FetchOutcome, StatusClass};
use crate::lines::seconds_text;
use crate::page::Page;
use crate::replies::ReplyKind;
use crate::times::{BOUNDS, Times, total};
use json::Writer;
use std::alloc::{AllocError, Global};

/// The figures of clients and fetches as JSON: one line that ends in LF. What isn't known is `null`; numbers of what
/// is passed on stand there only where something may be. Times are in seconds; the buckets count all times up to their bounds.
///
/// It is written token by token, by the writer on which serde_json stands: serde_json gives a float as few digits as it needs, and
/// sums of times have six decimals here.
pub fn clients_text(alloc: Global, page: &Page) -> Result<Vec<u8>, AllocError> {
    let mut json = Writer::new(Vec::new(alloc));
    match write_page(alloc, &mut json, page) {
        Ok(()) => ended(json.into_inner()),
        Err(fault) => {
            drop(json);
            Err(fault)
        }
    }
}

// The text with the LF at its end.
fn ended(text: Vec<u8>) -> Result<Vec<u8>, AllocError> {
    let mut text = text;
    text.push(b'\n')?;
    Ok(text)
}

fn write_page(alloc: Global, json: &mut Writer, page: &Page) -> Result<(), AllocError> {
    json.begin_object()?;
    json.key("uptime")?;
    json.u64(page.uptime)?;
    write_figures(alloc, json, &page.figures)?;
    write_numbers(json, page)?;
    write_look_ups(json, page)?;
    write_log(json, page)?;
    json.end_object()
}

fn write_figures(alloc: Global, json: &mut Writer, figures: &Snapshot) -> Result<(), AllocError> {
    write_answers(json, figures)?;
    write_octets(json, figures)?;
    write_fetches(json, figures)?;
    write_seconds(alloc, json, figures)
}

fn write_numbers(json: &mut Writer, page: &Page) -> Result<(), AllocError> {
    write_optional(json, "connections", page.connections)?;
    write_optional(json, "waiting", page.waiting)?;
    write_optional(json, "fetching", page.fetching)?;
    write_optional(json, "waiting_octets", page.wanted_octets)?;
    write_known(json, "streams", page.streams)?;
    write_known(json, "tunnels", page.tunnels)?;
    write_servers(json, page)?;
    write_attempts(json, page)?;
    write_known(json, "unwanted", page.unwanted)
}

// Connections to servers, if they are known.
fn write_servers(json: &mut Writer, page: &Page) -> Result<(), AllocError> {
    let Some(servers) = page.servers else {
        return Ok(());
    };
    json.key("servers")?;
    json.begin_object()?;
    write_count(json, "busy", servers.busy)?;
    write_count(json, "idle", servers.idle)?;
    write_count(json, "refused", servers.refused)?;
    json.end_object()
}

fn write_attempts(json: &mut Writer, page: &Page) -> Result<(), AllocError> {
    let Some(attempts) = page.attempts else {
        return Ok(());
    };
    json.key("attempts")?;
    json.begin_object()?;
    write_count(json, "beside", attempts.under_way)?;
    write_count(json, "begun", attempts.begun)?;
    write_count(json, "held", attempts.held)?;
    json.end_object()
}

/// Writes what is counted of a neighbour, as the members `queries`, `replies` (by kind) and `fetches` (by outcome) of the object that
/// is begun. Errors: out of memory.
pub fn write_neighbour_counts(
    json: &mut Writer,
    counts: &NeighbourCounts,
) -> Result<(), AllocError> {
    write_count(json, "queries", counts.queries)?;
    json.key("replies")?;
    json.begin_object()?;
    for kind in &ReplyKind::ALL {
        write_count(json, kind.name(), counts.replies[kind.place()])?;
    }
    json.end_object()?;
    json.key("fetches")?;
    write_outcomes(json, &counts.fetches)
}

// A key and its number.
fn write_count(json: &mut Writer, key: &str, count: u64) -> Result<(), AllocError> {
    json.key(key)?;
    json.u64(count)
}

// A key, and its number or `null`.
fn write_optional(json: &mut Writer, key: &str, count: Option<u64>) -> Result<(), AllocError> {
    json.key(key)?;
    match count {
        Some(count) => json.u64(count),
        None => json.null(),
    }
}

// A key and its number; nothing if there is none.
fn write_known(json: &mut Writer, key: &str, count: Option<u64>) -> Result<(), AllocError> {
    match count {
        Some(count) => write_count(json, key, count),
        None => Ok(()),
    }
}

fn write_answers(json: &mut Writer, figures: &Snapshot) -> Result<(), AllocError> {
    json.key("answers")?;
    json.begin_object()?;
    for course in &Course::ALL {
        let counts = &figures.answers[course.place()];
        write_count(json, course.name(), total(counts))?;
    }
    json.end_object()?;
    write_statuses(json, figures)
}

fn write_statuses(json: &mut Writer, figures: &Snapshot) -> Result<(), AllocError> {
    json.key("statuses")?;
    json.begin_object()?;
    for class in &StatusClass::ALL {
        let count = figures.of_class(*class);
        write_count(json, class.name(), count)?;
    }
    json.end_object()
}

fn write_octets(json: &mut Writer, figures: &Snapshot) -> Result<(), AllocError> {
    let [origins, neighbours] = figures.bodies;
    json.key("octets")?;
    json.begin_object()?;
    write_count(json, "clients", total(&figures.content))?;
    write_count(json, "origins", origins)?;
    write_count(json, "neighbours", neighbours)?;
    json.end_object()
}

fn write_fetches(json: &mut Writer, figures: &Snapshot) -> Result<(), AllocError> {
    let [origins, neighbours] = &figures.fetches;
    json.key("fetches")?;
    json.begin_object()?;
    json.key("origins")?;
    write_outcomes(json, origins)?;
    json.key("neighbours")?;
    write_outcomes(json, neighbours)?;
    json.end_object()
}

fn write_outcomes(json: &mut Writer, counts: &[u64; 3]) -> Result<(), AllocError> {
    json.begin_object()?;
    for outcome in &FetchOutcome::ALL {
        write_count(json, outcome.name(), counts[outcome.place()])?;
    }
    json.end_object()
}

fn write_seconds(alloc: Global, json: &mut Writer, figures: &Snapshot) -> Result<(), AllocError> {
    json.key("seconds")?;
    json.begin_object()?;
    json.key("hits")?;
    write_times(alloc, json, &figures.hits)?;
    json.key("forwarded")?;
    write_times(alloc, json, &figures.forwarded)?;
    json.key("fetches")?;
    write_times(alloc, json, &figures.fetched)?;
    json.end_object()
}

fn write_times(alloc: Global, json: &mut Writer, times: &Times) -> Result<(), AllocError> {
    json.begin_object()?;
    json.key("buckets")?;
    write_buckets(json, times)?;
    json.key("sum")?;
    write_sum(alloc, json, times.micros)?;
    write_count(json, "count", times.count())?;
    json.end_object()
}

// How many of these times are up to each bound.
fn write_buckets(json: &mut Writer, times: &Times) -> Result<(), AllocError> {
    json.begin_array()?;
    for (bucket, bound) in BOUNDS.iter().enumerate() {
        write_bucket(json, bound, times.up_to(bucket))?;
    }
    json.end_array()
}

fn write_bucket(json: &mut Writer, bound: &str, count: u64) -> Result<(), AllocError> {
    json.begin_array()?;
    write_number(json, bound)?;
    json.u64(count)?;
    json.end_array()
}

fn write_sum(alloc: Global, json: &mut Writer, micros: u64) -> Result<(), AllocError> {
    let sum = seconds_text(alloc, micros)?;
    let written = write_number(json, sum.as_str());
    drop(sum);
    written
}

// A number in decimals; a text that is none, as "+Inf", as a string.
fn write_number(json: &mut Writer, text: &str) -> Result<(), AllocError> {
    if json::is_number(text) {
        json.number(text)
    } else {
        json.string(text)
    }
}

fn write_look_ups(json: &mut Writer, page: &Page) -> Result<(), AllocError> {
    let Some(look_ups) = page.look_ups else {
        return Ok(());
    };
    json.key("lookups")?;
    json.begin_object()?;
    write_count(json, "waiting", look_ups.waiting)?;
    write_count(json, "under_way", look_ups.under_way)?;
    write_count(json, "failed", look_ups.failed)?;
    write_count(json, "refused", look_ups.refused)?;
    json.end_object()
}

fn write_log(json: &mut Writer, page: &Page) -> Result<(), AllocError> {
    json.key("log")?;
    let Some(log) = page.log else {
        return json.null();
    };
    json.begin_object()?;
    write_count(json, "written", log.written)?;
    write_count(json, "lost", log.lost)?;
    json.end_object()
}
