//! Hyper Text Caching Protocol, HTCP/0.0 (RFC 2756): decoder, encoder, signing and signature verification.
//!
//! A datagram consists of a header (length, MAJOR, MINOR), DATA (length, opcode, flags, transaction number, OP-DATA) and
//! AUTH (empty, or a signature). The decoder ignores padding and reserved bits; the encoder writes no padding and zero
//! bits. Contracts see a message as a record of numbers and octet lists (`specs/Message.antt`), and state which datagrams
//! encode it, the first decoding fault, and when a signature is good (`specs/Signing.antt`).
//! Tested by: crates/test_codecs, crates/test_storm, must-fail edits.
#![tactic(auto)]

pub mod codes;
mod fault;
mod laws;
mod message;
mod reading;
mod signing;
mod verifying;
mod writing;

pub use fault::HtcpFault;
pub use laws::{good_where_signed_so, one_message, read_as_spelled, verdict_of_signed};
pub use message::{Detail, Form, HtcpAuth, HtcpBody, HtcpView, Specifier};
pub use reading::decode;
pub use signing::sign;
pub use verifying::{Sign, verify};
pub use wire_octets::EncodeFault;
pub use writing::encode;
