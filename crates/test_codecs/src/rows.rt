//! Tables of cases. One loop is proved for all of them, so that a test has neither a loop nor assertions of its own: each of these
//! lays out once more how what the test holds is dropped (docs/GATE.md). What a question needs for a row it makes, lends, and drops
//! by a call.

use std::alloc::Global;
use std::process::Abort;

/// What is asked for each row of a table.
pub(crate) trait Question<T> {
    /// Whether the answer is the one that the row has.
    fn holds<R: Abort>(&self, rt: &R, alloc: Global, row: &T) -> bool;
}

/// Ends the test with the place of the first row that does not hold, counted from 0.
pub(crate) fn all_hold<R: Abort, T, Q: Question<T>>(
    rt: &R,
    alloc: Global,
    rows: &[T],
    question: &Q,
) {
    for (place, row) in rows.iter().enumerate() {
        if !question.holds(rt, alloc, row) {
            panic!(*rt; "row {place} does not hold");
        }
    }
}
