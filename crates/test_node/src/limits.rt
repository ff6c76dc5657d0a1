//! The maximum lengths of lines, datagrams and scripts.

use crate::memory::{Comments, Counted};
use crate::runs::{NEVER, run_script};
use feed_script::{FeedFault, feed};
use std::alloc::Global;
use std::cell::Cell;
use std::test::Fail;

/// The outcome of a script with a single comment line of `octets` octets, with or without a line break; `None` if it wrote
/// anything.
fn line_ends(alloc: Global, octets: usize, is_broken: bool) -> Option<Result<(), FeedFault>> {
    let mut line = vec![in alloc; b'#'; octets].ok()?;
    if is_broken {
        line.push(b'\n').ok()?;
    }
    let run = run_script(alloc, line.as_slice(), NEVER);
    if !run.held.is_empty() {
        return None;
    }
    Some(run.outcome)
}

#[test]
fn lines_of_the_longest_length(rt: HostRuntime) {
    let alloc = rt.alloc();
    for is_broken in [true, false] {
        assert!(rt; line_ends(alloc, 262_144, is_broken) == Some(Ok(())));
        assert!(rt; line_ends(alloc, 262_145, is_broken) == Some(Err(FeedFault::Line(1))));
    }
}

/// A request, and the front of the line with its result.
const REQUEST: &[u8] = b"go\nr 1 shared http://a/ 1000\nf 1 0 60 0 200 ";

/// What is printed for the request.
const FETCHED: &[u8] = b"fetch 1 0 origin plain - http://a/\n.\n";

/// A body of 131,062 octets `A`, in hexadecimal.
fn body(alloc: Global) -> Option<Vec<u8>> {
    let mut text = Vec::new(alloc);
    for _ in 0..131_062 {
        text.extend_from_slice(b"41").ok()?;
    }
    Some(text)
}

/// These octets, the body, and those after it.
fn around_body(alloc: Global, front: &[u8], back: &[u8]) -> Option<Vec<u8>> {
    let mut whole = front.to_vec(alloc).ok()?;
    whole.extend_from_slice(body(alloc)?.as_slice()).ok()?;
    whole.extend_from_slice(back).ok()?;
    Some(whole)
}

/// What is printed for a result that is served.
fn served(alloc: Global) -> Option<Vec<u8>> {
    let front = b"fetch 1 0 origin plain - http://a/\n.\nserve 1 got 200 ";
    around_body(alloc, front, b"\n.\n")
}

/// Whether a script with a result in its last line, which ends with `end`, has this outcome and prints this text.
fn result_ends(
    alloc: Global,
    end: &[u8],
    wanted: Result<(), FeedFault>,
    text: &[u8],
) -> Option<bool> {
    let script = around_body(alloc, REQUEST, end)?;
    let run = run_script(alloc, script.as_slice(), NEVER);
    Some(run.outcome == wanted && run.held.as_slice() == text)
}

// The line has 15 octets before the body, 262,124 in the body, and 5 after it.
#[test]
fn an_event_of_the_longest_line(rt: HostRuntime) -> Result<(), Fail> {
    let text = served(rt.alloc()).ok_or("memory")?;
    for end in [b" 1010".as_slice(), b" 1010\n".as_slice()] {
        assert!(rt; result_ends(rt.alloc(), end, Ok(()), text.as_slice()) == Some(true));
    }
    Ok(())
}

// One octet more, a leading zero of the moment.
#[test]
fn an_event_of_a_line_that_is_too_long(rt: HostRuntime) {
    let fault = Err(FeedFault::Line(3));
    assert!(rt; result_ends(rt.alloc(), b" 01010", fault, FETCHED) == Some(true));
}

/// A script with a datagram of `octets` zero octets, then a question for the counters.
fn datagram_script(alloc: Global, octets: usize) -> Option<Vec<u8>> {
    let mut script = b"go\nd icp 10.0.0.9:3130 ".to_vec(alloc).ok()?;
    for _ in 0..octets {
        script.extend_from_slice(b"00").ok()?;
    }
    script.extend_from_slice(b" 5\n?\n").ok()?;
    Some(script)
}

/// Whether a script with a datagram of `octets` octets has this outcome and writes this text.
fn datagram_ends(alloc: Global, octets: usize, wanted: Result<(), FeedFault>, text: &[u8]) -> bool {
    let Some(script) = datagram_script(alloc, octets) else {
        return false;
    };
    let run = run_script(alloc, script.as_slice(), NEVER);
    run.outcome == wanted && run.held.as_slice() == text
}

#[test]
fn datagrams_of_the_longest_length(rt: HostRuntime) {
    let alloc = rt.alloc();
    let text = b".\nstats icp 1 0 0 1\nstats htcp 0 0 0 0\n";
    assert!(rt; datagram_ends(alloc, 65_507, Ok(()), text));
    assert!(rt; datagram_ends(alloc, 65_508, Err(FeedFault::Line(2)), b""));
}

/// The outcome of a script of `octets` octets of comments, and the number of octets that it wrote.
fn comments_end(alloc: Global, octets: u64) -> (Result<(), FeedFault>, u64) {
    let mut input = Comments {
        left: octets,
        place: 0,
    };
    let written = Cell::new(0);
    let mut output = Counted { written: &written };
    let outcome = feed(alloc, &mut input, &mut output);
    (outcome, written.get())
}

#[test]
fn a_script_of_the_longest_length(rt: HostRuntime) {
    assert!(rt; comments_end(rt.alloc(), 1_000_000_000) == (Ok(()), 0));
}

#[test]
fn a_script_that_is_too_long(rt: HostRuntime) {
    assert!(rt; comments_end(rt.alloc(), 1_000_000_001) == (Err(FeedFault::Read), 0));
}
