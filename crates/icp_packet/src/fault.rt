//! Decoding errors.

use thiserror::Error;

/// Why a datagram is not an ICP message. Faults are tested in this order, and the first that applies is reported.
#[derive(Clone, Copy, Debug, PartialEq, Eq, Error)]
pub enum IcpFault {
    /// Shorter than the header, which has 20 octets.
    #[error("under 20 octets")]
    Short,
    /// The version is not 2.
    #[error("not version 2")]
    Version,
    /// The first octet is not an opcode.
    #[error("unknown opcode")]
    Opcode,
    /// The length field differs from the length of the datagram, or the datagram is longer than 16,384 octets.
    #[error("the length field differs from the octets, or is over 16384")]
    Length,
    /// The requester address is truncated, or the URL is not terminated by a zero octet where it must be.
    #[error("the URL is not whole")]
    Url,
    /// The object size is truncated, or differs from the number of remaining octets.
    #[error("the object is not whole")]
    Object,
}
