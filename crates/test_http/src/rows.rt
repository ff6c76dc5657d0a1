//! Tables of cases. One loop is proved for all of them, so that a test has neither a loop nor assertions of its own: each of these lays
//! out once more how what the test holds is dropped. For the same reason a row that does not hold ends the test, as does what cannot be
//! made, so that no function has a way out beside its end, and what a function owns it drops by a call (docs/GATE.md).

use crate::heads::head_of;
use http_header::HeaderMap;
use std::alloc::Global;
use std::process::Abort;

pub(crate) const NO_MEMORY: &str = "no memory";

/// What is asked for each row of a table.
pub(crate) trait Question<T> {
    /// Whether the answer is the one that the row has.
    fn holds<R: Abort>(&self, rt: &R, alloc: Global, row: &T) -> bool;
}

// The place of the first row that does not hold.
fn first_wrong<R: Abort, T, Q: Question<T>>(
    rt: &R,
    alloc: Global,
    rows: &[T],
    question: &Q,
) -> Option<usize> {
    for (place, row) in rows.iter().enumerate() {
        if !question.holds(rt, alloc, row) {
            return Some(place);
        }
    }
    None
}

/// Ends the test with the place of the first row that does not hold, counted from 0.
pub(crate) fn all_hold<R: Abort, T, Q: Question<T>>(
    rt: &R,
    alloc: Global,
    rows: &[T],
    question: &Q,
) {
    if let Some(place) = first_wrong(rt, alloc, rows, question) {
        panic!(*rt; "row {place} does not hold");
    }
}

/// What is asked of a head, for each row of a table that has the lines of the head and the answer.
pub(crate) trait OfHead<A> {
    /// Whether this is the answer.
    fn is_answer(&self, alloc: Global, head: &HeaderMap, answer: &A) -> bool;
}

fn is_answered<R: Abort, A, Q: OfHead<A>>(
    rt: &R,
    alloc: Global,
    row: &(&'static str, A),
    question: &Q,
) -> bool {
    let head = head_of(rt, alloc, row.0);
    let is_answer = question.is_answer(alloc, &head, &row.1);
    drop(head);
    is_answer
}

/// The same for these tables.
pub(crate) fn heads_hold<R: Abort, A, Q: OfHead<A>>(
    rt: &R,
    alloc: Global,
    rows: &[(&'static str, A)],
    question: &Q,
) {
    for (place, row) in rows.iter().enumerate() {
        if !is_answered(rt, alloc, row, question) {
            panic!(*rt; "row {place} does not hold");
        }
    }
}

/// Ends the test with the place of the first of these that does not hold, counted from 0.
pub(crate) fn all_true<R: Abort>(rt: &R, found: &[bool]) {
    for (place, holds) in found.iter().enumerate() {
        assert!(*rt; *holds, "what stands at place {place} does not hold");
    }
}
