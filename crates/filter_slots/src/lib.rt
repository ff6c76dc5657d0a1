//! Packet filters in force: one optional BPF program per query socket (ICP, HTCP) and per configured neighbour.
//!
//! A received datagram is judged by the program of its socket, and what that lets through by the program of the
//! neighbour that sent it. Contracts see the slots as lists of instructions (`specs/Filters.antt`), a datagram as a record,
//! and the verdict as a function of both (`specs/Verdict.antt`). A verdict also truncates the payload (`cut`).
//! Tested by: crates/test_codecs, crates/test_loop, crates/test_storm, must-fail edits.
#![tactic(auto)]

pub mod comparing;
pub mod cutting;
pub mod datagram;
pub mod judged;
mod judging;
pub mod laws;
mod senders;
pub mod slot;
pub mod slots;

pub use bpf_check::Checked;
pub use bpf_run::{End, Moment, Socket, Verdict};
pub use comparing::same_datagram;
pub use cutting::cut;
pub use datagram::{Datagram, both_ends};
pub use judged::Judged;
pub use slot::{NoSlot, Slot};
pub use slots::Slots;
pub use std::alloc::AllocError as NoMemory;
