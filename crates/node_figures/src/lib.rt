//! The counters, the neighbours and the stored objects of a node as JSON, for its administration. Each public function returns one line that ends in
//! LF, or `None` if out of memory.
//!
//! Tested by: crates/test_operator, exact texts; tests/serve.
#![tactic(auto)]

mod storage;

use filter_slots::{End, Socket};
use json::Writer;
use node_words::{Counters, NeighbourView, Stats};
use serde::Serialize;
use std::alloc::{AllocError, Global};
use std::net::Ipv4Addr;
pub use storage::{store_text, stored_text};
use traffic_figures::{NeighbourCounts, write_neighbour_counts};

/// The counters of a socket.
#[derive(Drop, Serialize)]
struct JsonCounters {
    judged: u64,
    rejected: u64,
    cut: u64,
    malformed: u64,
}

/// The counters of both sockets.
#[derive(Drop, Serialize)]
struct JsonStats {
    icp: JsonCounters,
    htcp: JsonCounters,
}

/// The counters of both sockets.
pub fn stats_text(alloc: Global, stats: Stats) -> Option<String> {
    let shown = JsonStats {
        icp: counters_of(stats.icp),
        htcp: counters_of(stats.htcp),
    };
    let mut text = serde_json::to_string(alloc, &shown).ok()?;
    text.push('\n').ok()?;
    Some(text)
}

fn counters_of(counters: Counters) -> JsonCounters {
    let Counters {
        judged,
        rejected,
        cut,
        malformed,
    } = counters;
    JsonCounters {
        judged,
        rejected,
        cut,
        malformed,
    }
}

/// The state of each neighbour: an array with one object per neighbour.
pub fn neighbours_text(alloc: Global, views: &[NeighbourView]) -> Option<String> {
    let mut list = Writer::new(Vec::new(alloc));
    write_views(alloc, &mut list, views).ok()?;
    let mut text = String::from_utf8(list.into_inner()).ok()?;
    text.push('\n').ok()?;
    Some(text)
}

/// The state of each neighbour, as `neighbours_text` shows it, and what is counted of it. Both lists are in the order of the
/// configuration.
pub fn neighbour_figures_text(
    alloc: Global,
    views: &[NeighbourView],
    counts: &[NeighbourCounts],
) -> Option<String> {
    let mut list = Writer::new(Vec::new(alloc));
    write_figures(alloc, &mut list, views, counts).ok()?;
    let mut text = String::from_utf8(list.into_inner()).ok()?;
    text.push('\n').ok()?;
    Some(text)
}

// serde_json writes a float with as few digits as it needs, and a time has three decimals or none. So the list is written token
// by token, by the writer on which serde_json stands.
fn write_views(
    alloc: Global,
    list: &mut Writer,
    views: &[NeighbourView],
) -> Result<(), AllocError> {
    list.begin_array()?;
    for view in views {
        list.begin_object()?;
        write_view(alloc, list, view)?;
        list.end_object()?;
    }
    list.end_array()
}

fn write_figures(
    alloc: Global,
    list: &mut Writer,
    views: &[NeighbourView],
    counts: &[NeighbourCounts],
) -> Result<(), AllocError> {
    list.begin_array()?;
    for (view, counts) in views.iter().zip(counts) {
        list.begin_object()?;
        write_view(alloc, list, view)?;
        write_neighbour_counts(list, counts)?;
        list.end_object()?;
    }
    list.end_array()
}

// The members of a neighbour's object that tell its state.
fn write_view(alloc: Global, list: &mut Writer, view: &NeighbourView) -> Result<(), AllocError> {
    list.key("end")?;
    list.string(end_text(alloc, view.end)?.as_str())?;
    list.key("protocol")?;
    list.string(protocol_text(view.protocol))?;
    list.key("up")?;
    list.boolean(view.is_up)?;
    list.key("time_ms")?;
    write_time(alloc, list, view.time)?;
    list.key("misses")?;
    list.u64(u64::from(view.misses))?;
    list.key("filter")?;
    list.boolean(view.has_filter)
}

fn end_text(alloc: Global, end: End) -> Result<String, AllocError> {
    format!(in alloc; "{}:{}", Ipv4Addr::from_octets(end.addr), end.port)
}

fn protocol_text(protocol: Socket) -> &'static str {
    match protocol {
        Socket::Icp => "icp",
        Socket::Htcp => "htcp",
    }
}

// A smoothed round-trip time, given in eighths of a millisecond, as decimal milliseconds; `null` for `None`.
fn write_time(alloc: Global, list: &mut Writer, time: Option<u32>) -> Result<(), AllocError> {
    let Some(time) = time else {
        return list.null();
    };
    let whole = u64::from(time / 8);
    let thousandths = time % 8 * 125;
    if thousandths == 0 {
        return list.u64(whole);
    }
    let text = format!(in alloc; "{whole}.{thousandths}")?;
    // Digits, a point and digits are always a number.
    if json::is_number(text.as_str()) {
        list.number(text.as_str())
    } else {
        list.null()
    }
}
