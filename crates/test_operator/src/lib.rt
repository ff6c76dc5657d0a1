//! Tests of what an operator reads: the counters and both texts of them (`traffic_figures`), a node's state as JSON (`node_figures`),
//! the lines of the access log (`access_log`), and the thread that writes them (`access_log::writer`). Exact texts, worked by hand.
//! No contract is proved here beyond the safety of the tests.
//!
//! Tested by: nothing; its `#[test]` functions are the tests.
#![tactic(auto)]

#[cfg(test)]
mod figures;
#[cfg(test)]
mod log_files;
#[cfg(test)]
mod log_lines;
#[cfg(test)]
mod node_texts;
#[cfg(test)]
mod pages;
#[cfg(test)]
mod rows;
