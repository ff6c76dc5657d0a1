//! The octets of a tunnel, once both of its ends are connected.
ghost use Rattle.futures.specs.Poll.{OnPending};
ghost use Rattle.futures.specs.Task.{Covers, Keeps};

use crate::account::Tally;
use crate::tunnel::{Dialer, Opened, PIECE};
use bytes::BytesMut;
use client_streams::Patience;
use futures::ready;
use futures::task::{Context, Poll};
use http_traffic::Ticket;
use shared_thread::Paced;
use std::alloc::AllocError;
use std::io::ErrorKind;
use std::time::{Clock, Duration};
use std::{io, mem};
use tokio::io::{AsyncRead, AsyncWrite, poll_read_buf, poll_write_buf};

// One direction of a tunnel.
#[derive(Drop)]
struct Way {
    // What was read and is not written yet.
    held: BytesMut,
    // Whether the end of the input was read, and whether it was passed on.
    has_ended: bool,
    is_shut: bool,
    // The octets that were passed on.
    octets: u64,
    // Whether octets were read or written since this was last asked.
    has_moved: bool,
}

impl Way {
    // A direction that begins with these octets.
    fn new(early: BytesMut) -> Way {
        Way {
            held: early,
            has_ended: false,
            is_shut: false,
            octets: 0,
            has_moved: false,
        }
    }

    // Whether octets were read or written since this was last asked.
    fn take_moved(&mut self) -> bool {
        mem::replace(&mut self.has_moved, false)
    }

    // Passes on octets until the end of the input, and then the end. Other tasks have their turn after each piece.
    fn poll_way<A: AsyncRead, B: AsyncWrite>(
        &mut self,
        from: &mut A,
        to: &mut B,
        cx: &mut Context<'_>,
    ) -> Poll<io::Result<()>>
        ensures registered { OnPending result (Covers cx.new (λ _. ⊥)) }
        ensures kept { Keeps cx.old cx.new }
    {
        if self.is_shut {
            return Poll::Ready(Ok(()));
        }
        if let Err(fault) = ready!(self.poll_fill(from, cx)) {
            return Poll::Ready(Err(fault));
        }
        if self.held.is_empty() {
            return self.poll_shut(to, cx);
        }
        if let Err(fault) = ready!(self.poll_send(to, cx)) {
            return Poll::Ready(Err(fault));
        }
        cx.yield_now()
    }

    // One read, if nothing is held. Nothing is held then at the end of the input alone.
    fn poll_fill<A: AsyncRead>(
        &mut self,
        from: &mut A,
        cx: &mut Context<'_>,
    ) -> Poll<io::Result<()>>
        ensures registered { OnPending result (Covers cx.new (λ _. ⊥)) }
        ensures kept { Keeps cx.old cx.new }
    {
        if self.has_ended || !self.held.is_empty() {
            return Poll::Ready(Ok(()));
        }
        if self.held.reserve(PIECE).is_err() {
            return Poll::Ready(Err(io::Error::from(ErrorKind::OutOfMemory)));
        }
        match ready!(poll_read_buf(from, cx, &mut self.held)) {
            Ok(count) => {
                self.has_ended = count == 0;
                self.has_moved = true;
                Poll::Ready(Ok(()))
            }
            Err(fault) => Poll::Ready(Err(fault)),
        }
    }

    // One write of what is held.
    fn poll_send<B: AsyncWrite>(&mut self, to: &mut B, cx: &mut Context<'_>) -> Poll<io::Result<()>>
        ensures registered { OnPending result (Covers cx.new (λ _. ⊥)) }
        ensures kept { Keeps cx.old cx.new }
    {
        match ready!(poll_write_buf(to, cx, &mut self.held)) {
            Ok(0) => Poll::Ready(Err(io::Error::from(ErrorKind::WriteZero))),
            Ok(count) => {
                self.octets = self.octets.saturating_add(count as u64);
                self.has_moved = true;
                Poll::Ready(Ok(()))
            }
            Err(fault) => Poll::Ready(Err(fault)),
        }
    }

    // Passes on the end of the input.
    fn poll_shut<B: AsyncWrite>(&mut self, to: &mut B, cx: &mut Context<'_>) -> Poll<io::Result<()>>
        ensures registered { OnPending result (Covers cx.new (λ _. ⊥)) }
        ensures kept { Keeps cx.old cx.new }
    {
        let shut = ready!(to.poll_shutdown(cx));
        self.is_shut = shut.is_ok();
        Poll::Ready(shut)
    }
}

/// The octets of a tunnel, in both directions, until both ends are closed, one of them fails, or neither has moved one for too long.
/// An end that closes only its own direction goes on to receive. What became of the tunnel is told when this is dropped.
pub(crate) struct Copying<I, R, L> {
    client: I,
    server: Paced,
    there: Way,
    back: Way,
    patience: Patience<R>,
    still: Duration,
    ticket: Ticket,
    // The last to be dropped.
    telling: Option<L>,
}

// Written by hand, so that what lets it go is one call for the prover (docs/GATE.md). The fields go in the order in which they stand.
impl<I: Drop, R: Drop, L: Drop> Drop for Copying<I, R, L> {
    fn drop(self) {
        let Self {
            client: _,
            server: _,
            there: _,
            back: _,
            patience: _,
            still: _,
            ticket: _,
            telling: _,
        } = self;
    }
}

impl<I: AsyncRead + AsyncWrite, R: Clock + Copy, L: Tally> Copying<I, R, L> {
    /// A tunnel to a client that has sent these octets already. Errors: out of memory.
    pub(crate) fn new(
        dialer: &Dialer<R>,
        client: I,
        sent: BytesMut,
        opened: Box<Opened>,
        telling: Option<L>,
    ) -> Result<Copying<I, R, L>, AllocError> {
        match dialer.patience() {
            Ok(patience) => Ok(Copying::over(patience, client, sent, opened, telling)),
            Err(fault) => {
                drop(opened);
                drop(client);
                drop(sent);
                drop(telling);
                Err(fault)
            }
        }
    }

    // A tunnel with this timeout.
    fn over(
        patience: Patience<R>,
        client: I,
        sent: BytesMut,
        opened: Box<Opened>,
        telling: Option<L>,
    ) -> Copying<I, R, L> {
        let Opened {
            server,
            early,
            still,
            ticket,
        } = Box::into_inner(opened);
        Copying {
            client,
            server,
            there: Way::new(sent),
            back: Way::new(early),
            patience,
            still,
            ticket,
            telling,
        }
    }

    // Moves octets in both directions. Ready once both are closed, or one has failed.
    fn poll_ways(&mut self, cx: &mut Context<'_>) -> Poll<()>
        ensures registered { OnPending result (Covers cx.new (λ _. ⊥)) }
        ensures kept { Keeps cx.old cx.new }
    {
        let there = self.there.poll_way(&mut self.client, &mut self.server, cx);
        if let Poll::Ready(Err(_)) = there {
            return Poll::Ready(());
        }
        let back = self.back.poll_way(&mut self.server, &mut self.client, cx);
        if let Poll::Ready(Err(_)) = back {
            return Poll::Ready(());
        }
        if there.is_pending() || back.is_pending() {
            return Poll::Pending;
        }
        Poll::Ready(())
    }

    // Notes what was handed to the client since so many octets were, and whether both directions are closed.
    fn note(&mut self, before: u64) {
        let is_whole = self.there.is_shut && self.back.is_shut;
        if let Some(telling) = &mut self.telling {
            telling.note_octets(self.back.octets.saturating_sub(before), is_whole);
        }
    }

    // Whether no octet has been moved for too long.
    fn is_still(&mut self, cx: &mut Context<'_>) -> bool
        ensures { Keeps cx.old cx.new }
    {
        let there = self.there.take_moved();
        let back = self.back.take_moved();
        if there || back {
            self.patience.begin_anew();
        }
        self.patience.is_over(self.still, cx)
    }
}

/// A tunnel whose both ends are connected. What has it is generic over it, since the prover does not look behind a type parameter
/// (docs/GATE.md).
pub(crate) trait Carry: Drop {
    /// Goes on. Ready once the tunnel has ended.
    fn poll_carried(&mut self, cx: &mut Context<'_>) -> Poll<()>
        ensures registered { OnPending result (Covers cx.new (λ _. ⊥)) }
        ensures kept { Keeps cx.old cx.new };
}

impl<I: AsyncRead + AsyncWrite, R: Clock + Copy, L: Tally> Carry for Copying<I, R, L> {
    fn poll_carried(&mut self, cx: &mut Context<'_>) -> Poll<()> {
        let before = self.back.octets;
        let ended = self.poll_ways(cx);
        self.note(before);
        if let Poll::Ready(()) = ended {
            return Poll::Ready(());
        }
        if self.is_still(cx) {
            return Poll::Ready(());
        }
        Poll::Pending
    }
}

/// A connection that can be taken apart once its last response has handed it over.
pub(crate) trait HandOver: Drop {
    /// Its socket.
    type Socket: AsyncRead + AsyncWrite;

    /// The socket, and what was read from it and not used.
    fn hand_over(self) -> (Self::Socket, BytesMut);
}
