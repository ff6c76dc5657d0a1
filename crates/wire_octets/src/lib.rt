//! Big-endian (network order) numbers of 16 and 32 bits, for the ICP and HTCP codecs: `split_` functions read a number from the
//! front of a slice, `put_` functions append one to a buffer.
//!
//! Contracts see slices and buffers as lists of octets; the encoding is defined by the crate byteorder.
//!
//! Tested by: crates/test_codecs, must-fail edits.
#![tactic(auto)]

mod appending;
mod encode_fault;
mod laws;
mod reading;

pub use appending::{put_u16, put_u32};
pub use encode_fault::EncodeFault;
pub use laws::{number_from_its_octets, octets_from_their_number};
pub use reading::{split_u16, split_u32};
