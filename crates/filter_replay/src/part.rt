//! What a datagram is to the cache.

ghost use Rattle.std.specs.Prelude.{◌≡◌};
ghost use Rattle.capture.specs.View.{shown};
ghost use Rattle.filter_replay.specs.Part.{is_complete, part_of, socket_at, socket_of};

use bpf_run::packet::MOST_PAYLOAD;
use bpf_run::{End, Socket};
use capture::UdpView;

/// The two query sockets of a cache.
#[derive(Clone, Copy)]
pub struct Sockets {
    /// The address of both.
    pub own: [u8; 4],
    /// The port of the ICP socket, usually 3130.
    pub icp_port: u16,
    /// The port of the HTCP socket, usually 4827; for a port that is that of both, only the ICP socket counts.
    pub htcp_port: u16,
}

impl Sockets {
    /// The socket that has this end, if one has.
    pub fn socket_of(&self, end: End) -> Option<Socket>
        ensures { result ≡ socket_of self.now end }
    {
        if end.addr == self.own {
            self.socket_at(end.port)
        } else {
            None
        }
    }

    fn socket_at(&self, port: u16) -> Option<Socket>
        ensures { result ≡ socket_at self.now port }
    {
        if port == self.icp_port {
            Some(Socket::Icp)
        } else if port == self.htcp_port {
            Some(Socket::Htcp)
        } else {
            None
        }
    }

    /// The end of a socket.
    pub(crate) fn end_of(&self, socket: Socket) -> End {
        End {
            addr: self.own,
            port: match socket {
                Socket::Icp => self.icp_port,
                Socket::Htcp => self.htcp_port,
            },
        }
    }
}

// Whether the capture has all octets of a datagram's payload.
fn is_complete(datagram: &UdpView<'_>) -> bool
    ensures { result ≡ is_complete (shown datagram.now) }
{
    datagram.whole && datagram.payload.len() <= MOST_PAYLOAD
}

/// What a datagram of a capture is to the cache.
#[derive(Clone, Copy)]
pub enum Part {
    /// It came to this query socket.
    Received(Socket),
    /// This query socket sent it.
    Sent(Socket),
    /// One of the two, but the capture does not hold all of it.
    Partial,
    /// Neither.
    Other,
}

/// What a datagram is to the cache with these query sockets.
pub fn part_of(sockets: &Sockets, datagram: &UdpView<'_>) -> Part
    ensures { result ≡ part_of sockets.now (shown datagram.now) }
{
    if let Some(socket) = sockets.socket_of(datagram.to) {
        return if is_complete(datagram) {
            Part::Received(socket)
        } else {
            Part::Partial
        };
    }
    if let Some(socket) = sockets.socket_of(datagram.from) {
        return if is_complete(datagram) {
            Part::Sent(socket)
        } else {
            Part::Partial
        };
    }
    Part::Other
}
