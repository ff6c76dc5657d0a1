//! The counters of a node and its neighbours as JSON (`node_figures`).
use crate::rows::{Question, all_hold};
use filter_slots::{End, Socket};
use node_figures::{neighbour_figures_text, neighbours_text, stats_text};
use node_words::{Counters, NeighbourView, Stats};
use std::alloc::Global;
use std::test::Fail;
use traffic_figures::NeighbourCounts;

#[test]
fn the_counters_of_both_sockets(rt: HostRuntime) -> Result<(), Fail> {
    let stats = Stats {
        icp: Counters {
            judged: 18_446_744_073_709_551_615,
            rejected: 2,
            cut: 30,
            malformed: 0,
        },
        htcp: Counters {
            judged: 4,
            rejected: 0,
            cut: 0,
            malformed: 1,
        },
    };
    let text = stats_text(rt.alloc(), stats).ok_or("the counters are printed")?;
    assert!(rt;
        text.as_str()
            == "{\"icp\":{\"judged\":18446744073709551615,\"rejected\":2,\"cut\":30,\"malformed\":0},\"htcp\":{\"judged\":4,\"rejected\":0,\"cut\":0,\"malformed\":1}}\n"
    );
    Ok(())
}

/// Times in eighths of a millisecond, and how they are shown.
type Time = (Option<u32>, &'static str);

const TIMES: [Time; 12] = [
    (None, "null"),
    (Some(0), "0"),
    (Some(1), "0.125"),
    (Some(2), "0.250"),
    (Some(3), "0.375"),
    (Some(4), "0.500"),
    (Some(5), "0.625"),
    (Some(6), "0.750"),
    (Some(7), "0.875"),
    (Some(96), "12"),
    (Some(100), "12.500"),
    // The longest time that is kept.
    (Some(524_280), "65535"),
];

fn view(time: Option<u32>) -> NeighbourView {
    NeighbourView {
        protocol: Socket::Icp,
        end: End {
            addr: [10, 0, 0, 9],
            port: 3130,
        },
        is_up: true,
        time,
        misses: 0,
        has_filter: false,
    }
}

/// The time in the JSON of one neighbour.
fn time_in(text: &str) -> Option<&str> {
    let (_, rest) = text.split_once("\"time_ms\":")?;
    let (number, _) = rest.split_once(",\"misses\"")?;
    Some(number)
}

/// A time is shown as in its row.
struct ShownAs;

impl Question<Time> for ShownAs {
    fn holds(&self, alloc: Global, row: &Time) -> Result<bool, Fail> {
        let text = neighbours_text(alloc, &[view(row.0)]).ok_or("the view is printed")?;
        Ok(time_in(text.as_str()) == Some(row.1))
    }
}

#[test]
fn a_time_has_three_decimals_or_none(rt: HostRuntime) -> Result<(), Fail> {
    all_hold(rt.alloc(), &TIMES, &ShownAs)
}

#[test]
fn no_neighbours(rt: HostRuntime) -> Result<(), Fail> {
    let text = neighbours_text(rt.alloc(), &[]).ok_or("the list is printed")?;
    assert!(rt; text.as_str() == "[]\n");
    Ok(())
}

// A neighbour that is down, and whose slot has a filter.
fn silent() -> NeighbourView {
    NeighbourView {
        protocol: Socket::Htcp,
        end: End {
            addr: [255, 0, 100, 1],
            port: 65_535,
        },
        is_up: false,
        time: None,
        misses: 20,
        has_filter: true,
    }
}

#[test]
fn a_list_of_two(rt: HostRuntime) -> Result<(), Fail> {
    let views = [view(Some(99)), silent()];
    let text = neighbours_text(rt.alloc(), &views).ok_or("the list is printed")?;
    assert!(rt;
        text.as_str()
            == "[{\"end\":\"10.0.0.9:3130\",\"protocol\":\"icp\",\"up\":true,\"time_ms\":12.375,\"misses\":0,\"filter\":false},{\"end\":\"255.0.100.1:65535\",\"protocol\":\"htcp\",\"up\":false,\"time_ms\":null,\"misses\":20,\"filter\":true}]\n"
    );
    Ok(())
}

const COUNTS: [NeighbourCounts; 2] = [
    NeighbourCounts {
        fetches: [1, 2, 3],
        queries: 4,
        replies: [5, 6, 7, 8, 9, 10, 11, 12],
    },
    NeighbourCounts {
        fetches: [0, 0, 0],
        queries: 18_446_744_073_709_551_615,
        replies: [0, 0, 0, 0, 0, 0, 1, 0],
    },
];

#[test]
fn figures_of_two(rt: HostRuntime) -> Result<(), Fail> {
    let views = [view(Some(99)), silent()];
    let text = neighbour_figures_text(rt.alloc(), &views, &COUNTS).ok_or("the list is printed")?;
    assert!(rt;
        text.as_str()
            == "[{\"end\":\"10.0.0.9:3130\",\"protocol\":\"icp\",\"up\":true,\"time_ms\":12.375,\"misses\":0,\"filter\":false,\"queries\":4,\"replies\":{\"hit\":5,\"miss\":6,\"denied\":7,\"miss_nofetch\":8,\"error\":9,\"found\":10,\"not_found\":11,\"other\":12},\"fetches\":{\"whole\":1,\"refused\":2,\"failed\":3}},{\"end\":\"255.0.100.1:65535\",\"protocol\":\"htcp\",\"up\":false,\"time_ms\":null,\"misses\":20,\"filter\":true,\"queries\":18446744073709551615,\"replies\":{\"hit\":0,\"miss\":0,\"denied\":0,\"miss_nofetch\":0,\"error\":0,\"found\":0,\"not_found\":1,\"other\":0},\"fetches\":{\"whole\":0,\"refused\":0,\"failed\":0}}]\n"
    );
    Ok(())
}

#[test]
fn figures_of_no_neighbours(rt: HostRuntime) -> Result<(), Fail> {
    let text = neighbour_figures_text(rt.alloc(), &[], &[]).ok_or("the list is printed")?;
    assert!(rt; text.as_str() == "[]\n");
    Ok(())
}
