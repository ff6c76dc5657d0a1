//! Runs classic BPF filters (McCanne and Jacobson, 1993) on datagrams: the packet that a filter sees of a datagram, and the
//! interpreter that returns an accepted program's verdict on it. It hands on the endpoints, sockets and moments of `node_terms`.
//!
//! Contracts see a packet as the list of its octets and a moment as its number of milliseconds. `specs/Machine.antt` defines the
//! effect of each operation, `specs/Chain.antt` the runs. Every run ends, within as many steps as the program has instructions;
//! `run_states` keeps its states, the chain of the definitions; `judge_with_end` says which instruction ended it.
//!
//! Tested by: crates/test_codecs, the script cases in cases/filter, must-fail edits.
#![tactic(auto)]

pub mod ends;
pub mod interpreter;
pub mod laws;
pub mod machine;
pub mod moment;
pub mod packet;
pub mod states;

pub use ends::{End, Socket};
pub use interpreter::{Ending, Verdict, judge, judge_with_end};
pub use moment::Moment;
pub use packet::Packet;
pub use states::{Run, State, run_states};
