//! Runs a filter over the datagrams of a capture, and counts what becomes of them, before the filter is put in force.
//!
//! Contracts see a file as the list of its octets and the counts as a function of its frames: `specs/Aim.antt` says which
//! datagrams are judged, `specs/Finding.antt` what becomes of one, `specs/Tally.antt` the counts, `specs/File.antt` the frames of
//! a file. Senders, opcodes, instructions and samples are counted beside, without a contract. Memory is bounded whatever the file.
//! `compare` runs two filters over the same datagrams: `specs/Contrast.antt` says how they differ in one, `specs/Comparison.antt`
//! the counts.
#![tactic(auto)]

mod aim;
mod contrast;
mod details;
mod fault;
mod file;
mod finding;
mod samples;
mod senders;
mod tally;
mod two_filters;

pub use aim::Aim;
pub use contrast::{Comparison, Contrast, Differences, contrast_by};
pub use details::{Details, Sender, Share};
pub use fault::ReplayFault;
pub use file::{Question, Report, replay};
pub use finding::{Finding, Judged, judge_datagram};
pub use samples::{Sample, Samples};
pub use tally::{Counts, Tally};
pub use two_filters::{Compared, Differing, Pair, compare};
