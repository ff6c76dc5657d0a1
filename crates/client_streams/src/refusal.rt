//! A text for a client that is refused.
use crate::patient::Patient;
use futures::task::{Context, Poll};
use futures::{Future, ready};
use std::time::Clock;
use tokio::io::{AsyncRead, AsyncWrite};

// The most reads of up to 1 KiB each that discard what the client has sent; closing with unread octets could lose the text.
const MOST_READS: u32 = 64;

/// Sends a client one text, shuts down its own side, discards what the client has sent by then, at most some 64 KiB, and ends. It
/// waits only until the socket takes the text, which a new connection does at once, so a silent client is not waited for.
#[derive(Drop)]
pub struct Refusal<R> {
    socket: Patient<R>,
    text: Vec<u8>,
    is_sent: bool,
    is_shut: bool,
    reads: u32,
}

impl<R: Clock + Drop> Refusal<R> {
    /// Sends `text`, which has to be short: only one write is made, and what it does not take is not sent.
    pub fn new(socket: Patient<R>, text: Vec<u8>) -> Refusal<R> {
        Refusal {
            socket,
            text,
            is_sent: false,
            is_shut: false,
            reads: 0,
        }
    }
}

impl<R: Clock + Drop> Future for Refusal<R> {
    type Output = ();

    fn poll(&mut self, cx: &mut Context<'_>) -> Poll<()> {
        if !self.is_sent {
            let text = self.text.as_slice();
            let _ = ready!(AsyncWrite::poll_write(&mut self.socket, cx, text));
            self.is_sent = true;
        }
        if !self.is_shut {
            let _ = ready!(self.socket.poll_shutdown(cx));
            self.is_shut = true;
        }
        let mut piece = [0; 1024];
        match AsyncRead::poll_read(&mut self.socket, cx, &mut piece) {
            Poll::Ready(Ok(count)) if 0 < count && self.reads < MOST_READS => {
                self.reads = self.reads.saturating_add(1);
                cx.yield_now()
            }
            _ => Poll::Ready(()),
        }
    }
}
