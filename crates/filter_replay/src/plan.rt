//! The cache that a capture is about.

use crate::part::Sockets;
use node_core::Network;

/// The cache that a capture is about: its own query sockets, and the settings of the node that stands for it.
#[derive(Clone, Copy)]
pub struct Plan<'a> {
    /// Its query sockets.
    pub sockets: Sockets,
    /// The networks whose queries are answered.
    pub allowed: &'a [Network],
    /// Whether misses are answered with MISS_NOFETCH instead of MISS.
    pub miss_nofetch: bool,
    /// Whether moments count from 1970, as the times in HTCP's signatures do; from the first packet otherwise.
    pub from_1970: bool,
}
