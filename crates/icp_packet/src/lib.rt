//! Internet Cache Protocol, version 2 (RFC 2186): decoder and encoder.
//!
//! A decoded message borrows its URL and object from the datagram. Contracts see a message as a record of numbers and
//! octet lists (`specs/Message.antt`). `decode` accepts exactly the datagrams that encode a message and otherwise returns
//! the first fault; `encode` writes the message's only encoding.
//! Tested by: crates/test_codecs, must-fail edits.
#![tactic(auto)]

mod fault;
mod laws;
mod message;
mod reading;
mod writing;

pub use fault::IcpFault;
pub use laws::{message_read_is_spelled, one_message, one_spelling};
pub use message::{IcpBody, IcpView, Opcode};
pub use reading::decode;
pub use wire_octets::EncodeFault;
pub use writing::encode;
