//! Parses one line of a script for the node: a setting, an event or a question.
//!
//! The parser is stateless: [`read_line`] splits a line into words and turns them into an [`Item`]. Whether the line is allowed
//! where it stands, and what it does, is the business of `feed_script`.
//! Its contract says that the item is the reading (`script_line`) that the format gives for the octets of the line.
//! Tested by: crates/test_node (through `feed_script`), must-fail edits.
#![tactic(auto)]

mod address;
mod choice;
mod command;
mod event;
mod item;
mod line;
mod number;
mod octets;
mod parts;
mod program;
mod setting;
mod slot;

pub use item::Item;
pub use line::{LINE_LIMIT, read_line};
