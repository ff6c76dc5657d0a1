//! The commands `replay`, which runs a filter over a capture and prints what becomes of its datagrams, or runs two and prints where
//! they differ, or writes the capture's script, or compares a node's answers with it; and `explain`, which prints the run of one
//! datagram instruction by instruction.
//!
//! This crate reads the files of both commands, and turns the results of the crates below into lines and exit statuses. Of that it has no contract beyond being safe.
//!
//! A script is what a capture makes of the node itself: `feed` delivers the captured datagrams to a node by it, and the answers of such a
//! node are compared with those that the captured cache sent. `specs/Part.antt` says which datagrams of a capture the cache received and
//! which it sent, `specs/Moment.antt` when, `specs/Line.antt` the line of each, `specs/Taking.antt` what one packet adds to a script,
//! `specs/Answer.antt` what is equal and what differs in two answers, `specs/Tally.antt` the counts. Walking through a file, printing and
//! pairing answers have no contract beyond being safe. Memory is bounded whatever the file.
//! Tested by: cases/replay, cases/explain, must-fail edits.
#![tactic(auto)]

mod answer;
mod compare_command;
mod compare_json;
mod expected;
mod explain_command;
mod fault;
mod files;
mod line;
mod moment;
mod options;
mod packets;
mod part;
mod plan;
mod progress;
mod replay_command;
mod report_json;
mod report_text;
mod script;
mod script_command;
mod tally;
mod waiting;

pub use answer::{Answer, Kind, answer_of, is_question, kind_of};
pub use explain_command::run_explain;
pub use moment::{Clock, time_of};
pub use options::Options;
pub use part::{Part, Sockets, part_of};
pub use plan::Plan;
pub use replay_command::run_replay;
pub use script_command::{run_expect, run_script};
pub use tally::{Answers, Counts};
