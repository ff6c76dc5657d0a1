//! Which datagrams of a capture are judged.

ghost use Rattle.std.specs.Prelude.{◌≡◌, MatchOption};
ghost use Rattle.capture.specs.View.{shown};
ghost use Rattle.replay.specs.Aim.{is_own, socket_at, socket_of, is_complete};

use bpf_run::packet::MOST_PAYLOAD;
use bpf_run::{End, Socket};
use capture::UdpView;

/// Where the datagrams go that are judged.
#[derive(Clone, Copy)]
pub struct Aim {
    /// The port of the ICP socket, usually 3130.
    pub icp_port: u16,
    /// The port of the HTCP socket, usually 4827; for a port that is that of both, only the ICP socket counts.
    pub htcp_port: u16,
    /// The address of the cache, or `None` for datagrams to any address.
    pub own: Option<[u8; 4]>,
}

impl Aim {
    /// The query socket that a datagram to this end is for, if it is for one.
    pub fn socket_of(&self, to: End) -> Option<Socket>
        ensures { result ≡ socket_of self.now to }
    {
        if !is_own(self.own, to.addr) {
            return None;
        }
        self.socket_at(to.port)
    }

    fn socket_at(&self, port: u16) -> Option<Socket>
        ensures { result ≡ socket_at self.now port }
    {
        if port == self.icp_port {
            Some(Socket::Icp)
        } else if port == self.htcp_port {
            Some(Socket::Htcp)
        } else {
            None
        }
    }
}

fn is_own(own: Option<[u8; 4]>, address: [u8; 4]) -> bool
    ensures { result ≡ is_own own address }
{
    match own {
        None => true,
        Some(own) => own == address,
    }
}

/// Whether the capture has all octets of a datagram's payload.
pub(crate) fn is_complete(datagram: &UdpView<'_>) -> bool
    ensures { result ≡ is_complete (shown datagram.now) }
{
    datagram.whole && datagram.payload.len() <= MOST_PAYLOAD
}
