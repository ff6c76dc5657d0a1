//! Decoding errors.

use thiserror::Error;

/// Why a datagram is not an HTCP message. Faults are tested in this order, and the first that applies is reported.
#[derive(Clone, Copy, Debug, PartialEq, Eq, Error)]
pub enum HtcpFault {
    /// Shorter than the header, which has 4 octets.
    #[error("under 4 octets")]
    Short,
    /// The length field differs from the length of the datagram.
    #[error("the length field differs from the octets")]
    Length,
    /// MAJOR is not 0.
    #[error("unknown major version")]
    Major,
    /// The length of DATA is truncated, is under 8, or exceeds the datagram.
    #[error("the data isn't whole")]
    Data,
    /// OP-DATA is too short for the form that opcode, response and flags give.
    #[error("a text of the operation isn't whole")]
    Text,
    /// The octets after DATA are not a complete AUTH.
    #[error("the authentication isn't whole")]
    Auth,
}
