//! Tables of cases. One loop is proved for all of them, so that a test has neither a loop nor assertions of its own: each of these lays
//! out once more how what the test holds is dropped (docs/GATE.md).

use std::alloc::Global;
use std::test::Fail;

/// What is asked for each row of a table.
pub(crate) trait Question<Row> {
    /// Whether the row holds, or `None` if something that it needs can't be made.
    fn holds(&self, alloc: Global, row: &Row) -> Option<bool>;
}

/// The place of the first row that does not hold.
fn first_wrong<Row, Q: Question<Row>>(alloc: Global, rows: &[Row], question: &Q) -> Option<usize> {
    for (place, row) in rows.iter().enumerate() {
        if question.holds(alloc, row) != Some(true) {
            return Some(place);
        }
    }
    None
}

/// Fails with the place of the first row that does not hold, counted from 0.
pub(crate) fn all_hold<Row, Q: Question<Row>>(
    alloc: Global,
    rows: &[Row],
    question: &Q,
) -> Result<(), Fail> {
    match first_wrong(alloc, rows, question) {
        Some(place) => Err(Fail::new(format_args!("row {place} does not hold"))),
        None => Ok(()),
    }
}
