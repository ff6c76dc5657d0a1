//! The sockets at which a thread's clients come.
ghost use Rattle.std.specs.Net.Addr.{IsCanonicalOf, MatchIp};
ghost use Rattle.std.specs.Net.Socket.{socket_ip, socket_port};
ghost use Rattle.std.specs.Prelude.{◌≡◌};
ghost use Rattle.client_streams.specs.Counting.{IsCountedAt};
ghost use Rattle.futures.specs.Poll.{OnPending};
ghost use Rattle.futures.specs.Task.{Covers, Keeps};

use futures::task::{Context, Poll};
use std::io;
use std::net::{IpAddr, Ipv6Addr, SocketAddr};
use tokio::net::{TcpListener, TcpStream};

/// The sockets at which a thread's clients come: one, or two.
#[derive(Drop)]
pub struct Listeners {
    first: TcpListener,
    second: Option<TcpListener>,
    // Whether a client at the second one goes before one at the first.
    is_turned: bool,
}

impl Listeners {
    /// These sockets.
    pub fn new(first: TcpListener, second: Option<TcpListener>) -> Listeners {
        Listeners {
            first,
            second,
            is_turned: false,
        }
    }

    /// Waits for a client at any of the sockets. Each is looked at first in turn, so that the clients of neither keep the other's waiting.
    pub(crate) fn poll_accept(
        &mut self,
        cx: &mut Context<'_>,
    ) -> Poll<io::Result<(TcpStream, SocketAddr)>>
        ensures registered { OnPending result (Covers cx.new (λ _. ⊥)) }
        ensures kept { Keeps cx.old cx.new }
    {
        self.is_turned = !self.is_turned;
        match &mut self.second {
            None => self.first.poll_accept(cx),
            Some(second) if self.is_turned => poll_both(second, &mut self.first, cx),
            Some(second) => poll_both(&mut self.first, second, cx),
        }
    }
}

// Waits for a client at one of two sockets. One at the first goes before one at the second.
fn poll_both(
    first: &mut TcpListener,
    second: &mut TcpListener,
    cx: &mut Context<'_>,
) -> Poll<io::Result<(TcpStream, SocketAddr)>>
    ensures registered { OnPending result (Covers cx.new (λ _. ⊥)) }
    ensures kept { Keeps cx.old cx.new }
{
    match first.poll_accept(cx) {
        Poll::Ready(accepted) => Poll::Ready(accepted),
        Poll::Pending => second.poll_accept(cx),
    }
}

/// The address of a client as it is judged and told: that of IPv4 where one of IPv6 stands for it.
pub(crate) fn canonical(address: SocketAddr) -> SocketAddr
    ensures ip { MatchIp (socket_ip address) (λ _. socket_ip result ≡ socket_ip address) (λ a. IsCanonicalOf a (socket_ip result)) }
    ensures port { socket_port result ≡ socket_port address }
{
    SocketAddr::new(address.ip().to_canonical(), address.port())
}

/// The address at which the seat of a client at this address is counted.
pub(crate) fn counted_at(address: IpAddr) -> IpAddr
    ensures { IsCountedAt address result }
{
    match address {
        IpAddr::V4(_) => address,
        IpAddr::V6(six) => {
            let [a, b, c, d, _, _, _, _] = six.segments();
            IpAddr::V6(Ipv6Addr::new(a, b, c, d, 0, 0, 0, 0))
        }
    }
}
