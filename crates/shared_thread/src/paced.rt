//! A TCP connection that lets other tasks of its thread run, however much its peer sends.
ghost use Rattle.std.specs.Prelude.{◌≡◌, ◌≤◌, ⊤, length};
ghost use Rattle.tokio.specs.Io.Moved.{count_moved};
ghost use Rattle.tokio.specs.Net.{stream_readable, stream_writable};

use futures::task::{Context, Poll};
use std::io;
use std::io::ErrorKind;
use tokio::io::{AsyncRead, AsyncWrite};
use tokio::net::TcpStream;

/// The most octets that a fetch reads without a wait before it gives up its turn.
pub const FETCH_TURN: usize = 64 * 1024;

/// That of a client, of which less is read: an event loop that always has a task to poll looks for events after each 64 polls alone,
/// so all other clients wait for as many turns.
pub const CLIENT_TURN: usize = 8 * 1024;

/// A connection whose reads give up their turn after so many octets: one is pending then, and its task is polled again.
#[derive(Drop)]
pub struct Paced {
    socket: TcpStream,
    // The octets of a turn.
    turn: usize,
    // What may still be read in this one.
    left: usize,
    // Whether a read has waited for an event of the socket. The event loop notes each event that comes after that, but may have passed over
    // one that came before the first read.
    has_waited: bool,
}

impl Paced {
    /// This connection, with so many octets a turn. A turn of none is read as one of an octet.
    pub fn new(socket: TcpStream, turn: usize) -> Paced {
        let turn = turn.max(1);
        Paced {
            socket,
            turn,
            left: turn,
            has_waited: false,
        }
    }

    /// Sets whether short segments are sent at once.
    pub fn set_nodelay(&self, nodelay: bool) -> io::Result<()> {
        self.socket.set_nodelay(nodelay)
    }

    /// Whether nothing is there to be read, by a read of its own: no octets, no end and no error. An octet that is there is lost.
    pub fn is_silent(&self) -> bool {
        let mut octet = [0; 1];
        match self.socket.try_read(&mut octet) {
            Ok(_) => false,
            Err(error) => error.kind() == ErrorKind::WouldBlock,
        }
    }

    // A read that is about to wait for an event: until one has found nothing, what is there is read without one.
    fn read_before_waiting(&mut self, buf: &mut [u8]) -> Poll<io::Result<usize>>
        ensures socket { self.new.socket ≡ self.old.socket }
        ensures bound { count_moved result ≤ length buf.new }
    {
        if self.has_waited {
            return Poll::Pending;
        }
        match self.socket.try_read(buf) {
            Err(error) if error.kind() == ErrorKind::WouldBlock => {
                self.has_waited = true;
                Poll::Pending
            }
            read => Poll::Ready(read),
        }
    }
}

impl AsyncRead for Paced {
    ghost needs = { λ p source. source ≡ stream_readable p.socket };

    ghost reads = { λ _ _ _. ⊤ };

    ghost is_at_end = { λ _. ⊤ };

    ghost reads_nothing = { λ _. tt };

    ghost reads_in_order = { λ _ _ _ _ _ _ _. tt };

    fn poll_read(&mut self, cx: &mut Context<'_>, buf: &mut [u8]) -> Poll<io::Result<usize>> {
        if self.left == 0 {
            self.left = self.turn;
            return cx.yield_now();
        }
        let most = self.left.min(buf.len());
        let polled = match AsyncRead::poll_read(&mut self.socket, cx, &mut buf[..most]) {
            Poll::Pending => self.read_before_waiting(&mut buf[..most]),
            polled => polled,
        };
        match &polled {
            Poll::Ready(Ok(count)) => self.left = self.left.saturating_sub(*count),
            Poll::Ready(Err(_)) => {}
            Poll::Pending => self.left = self.turn,
        }
        polled
    }
}

impl AsyncWrite for Paced {
    ghost needs = { λ p source. source ≡ stream_writable p.socket };

    ghost writes = { λ _ _ _. ⊤ };

    ghost writes_nothing = { λ _. tt };

    ghost writes_in_order = { λ _ _ _ _ _ _ _. tt };

    fn poll_write(&mut self, cx: &mut Context<'_>, buf: &[u8]) -> Poll<io::Result<usize>> {
        AsyncWrite::poll_write(&mut self.socket, cx, buf)
    }

    fn poll_flush(&mut self, cx: &mut Context<'_>) -> Poll<io::Result<()>> {
        self.socket.poll_flush(cx)
    }

    fn poll_shutdown(&mut self, cx: &mut Context<'_>) -> Poll<io::Result<()>> {
        self.socket.poll_shutdown(cx)
    }
}
