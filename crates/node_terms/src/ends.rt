//! Endpoints of a datagram, and the query sockets.

/// An endpoint: an IPv4 address and a UDP port.
#[derive(Clone, Copy, Debug, PartialEq, Eq)]
pub struct End {
    /// The address, in network order.
    pub addr: [u8; 4],
    /// The UDP port.
    pub port: u16,
}

/// A query socket.
#[derive(Clone, Copy, Debug, PartialEq, Eq)]
pub enum Socket {
    /// The socket for the Internet Cache Protocol (RFC 2186).
    Icp,
    /// The socket for the Hyper Text Caching Protocol (RFC 2756).
    Htcp,
}
