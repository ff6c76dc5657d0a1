//! What a capture file says of a packet.

use crate::link::Link;

/// What a capture file says of a packet besides its octets.
#[derive(Clone, Copy, PartialEq, Eq)]
pub struct PacketHead {
    /// The link type of the packet, or `None` if it is not one that is read.
    pub link: Option<Link>,
    /// The whole seconds of the moment at which the packet came, since 1970.
    pub seconds: u64,
    /// The rest of that moment in nanoseconds, less than a second.
    pub nanoseconds: u32,
    /// The number of octets that the packet had.
    pub original: u32,
}
