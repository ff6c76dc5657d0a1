//! Configuration faults.

use thiserror::Error;

/// Why a configuration is rejected. Faults are tested in this order, and the first that applies is reported.
#[derive(Clone, Copy, Debug, PartialEq, Eq, Error)]
pub enum ConfigFault {
    /// More than 64 neighbours.
    #[error("over 64 neighbours")]
    Count,
    /// Two neighbours with the same address and port.
    #[error("two neighbours with one address and port")]
    DoubleAddress,
    /// A weight out of the range 1 to 100.
    #[error("a weight that is not 1 to 100")]
    Weight,
    /// A key name that is empty, longer than 255 octets or used twice, or a neighbour that refers to an unknown key.
    #[error("a key's name that is unknown, doubled, empty or over 255 octets")]
    KeyName,
    /// An allocation failed.
    #[error("out of memory")]
    NoMemory,
}
