//! Classic BPF filter programs (McCanne and Jacobson, 1993): instructions, the checker that accepts or refuses a program, and a
//! reader for listings as `tcpdump -ddd` prints them.
//!
//! Contracts see an accepted program as the list of its instructions. `specs/Accepted.antt` defines which programs are accepted,
//! `specs/Listing.antt` which text is a listing of which program. Both refuse with the first fault in a fixed order.
//!
//! Tested by: crates/test_codecs, the script cases in cases/check and cases/filter, must-fail edits.
#![tactic(auto)]

pub mod checked;
pub mod insn;
pub mod laws;
pub mod listing;
pub mod operation;

pub use checked::{CheckFault, Checked, check};
pub use insn::Insn;
pub use listing::{ListingFault, read_listing};
