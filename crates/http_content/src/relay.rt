//! Passes on the content of a message as it comes.
ghost use Rattle.std.specs.Prelude.{◌≡◌};
ghost use Rattle.futures.specs.Poll.{OnPending};
ghost use Rattle.futures.specs.Task.{Covers, Keeps};

use bytes::Bytes;
use futures::channel::mpsc;
use futures::sink::Sink;
use futures::task::{Context, Poll};
use futures::{Future, ready};
use http_body::{Body, Frame};
use http_traffic::Piece;
use std::alloc::Global;

// The most octets of a piece.
const MOST_OCTETS: usize = 64 * 1024;

// The most pieces that one poll passes on.
const PIECES_A_TURN: u32 = 16;

/// How it ended that a content was passed on.
#[derive(Clone, Copy, PartialEq, Eq)]
pub enum Relayed {
    /// All of it was passed on, and its end.
    Whole,
    /// It is broken, or out of memory.
    Broken,
    /// Nobody takes it any more.
    Unwanted,
}

/// The future of a content that is passed on: sends the data of a body in pieces, of which it takes the next only where there is room
/// for it, and after them that it is complete. Its trailers are left out. A body that is not read to its end is cut for who takes the
/// pieces, as its sender is dropped with this.
#[derive(Drop)]
pub struct Relay<B> {
    alloc: Global,
    body: B,
    pieces: mpsc::Sender<Piece>,
    // What came last and is not yet passed on.
    rest: Bytes,
    // Whether there was no room when it was polled last.
    is_full: bool,
}

impl<B: Body<Data = Bytes>> Relay<B> {
    /// Sends this body in pieces. It is first polled when this is, and there is room.
    pub fn new(alloc: Global, body: B, pieces: mpsc::Sender<Piece>) -> Relay<B>
        requires { B.can_poll body }
        ensures { B.can_poll result.body }
    {
        Relay {
            alloc,
            body,
            pieces,
            rest: Bytes::new(),
            is_full: true,
        }
    }

    /// Whether it waits for who takes the pieces, and not for the body.
    pub fn is_full(&self) -> bool {
        self.is_full
    }

    // Ready once there is room for a piece: whether the pieces are taken.
    fn poll_room(&mut self, cx: &mut Context<'_>) -> Poll<bool>
        ensures registered { OnPending result (Covers cx.new (λ _. ⊥)) }
        ensures kept { Keeps cx.old cx.new }
        ensures same { self.new.body ≡ self.old.body }
    {
        self.is_full = true;
        let is_taken = ready!(self.pieces.poll_ready(cx)).is_ok();
        self.is_full = false;
        Poll::Ready(is_taken)
    }

    // Keeps the octets of a frame until they are passed on.
    fn keep(&mut self, frame: Frame<Bytes>)
        ensures { self.new.body ≡ self.old.body }
    {
        if let Ok(data) = frame.into_data() {
            self.rest = data;
        }
    }

    // Passes on the next piece of what is kept. Returns whether that went well.
    fn pass(&mut self) -> bool
        ensures { self.new.body ≡ self.old.body }
    {
        let most = self.rest.len().min(MOST_OCTETS);
        if most == 0 {
            return true;
        }
        let Ok(piece) = self.rest.split_to(most) else {
            return false;
        };
        match piece.to_vec(self.alloc) {
            Ok(octets) => self.pieces.try_send(Piece::Octets(octets)).is_ok(),
            Err(_) => false,
        }
    }

    // How it ends where nobody takes the pieces any more: they may have been all.
    fn left_alone(&self) -> Relayed {
        if self.rest.is_empty() && self.body.size_hint().exact() == Some(0) {
            Relayed::Whole
        } else {
            Relayed::Unwanted
        }
    }

    // Says that the content is complete.
    fn finish(&mut self) -> Relayed {
        match self.pieces.try_send(Piece::End) {
            Ok(()) => Relayed::Whole,
            Err(_) => Relayed::Unwanted,
        }
    }
}

impl<B: Body<Data = Bytes>> Future for Relay<B> {
    type Output = Relayed;

    ghost can_poll = { λ r. B.can_poll r.body };

    fn poll(&mut self, cx: &mut Context<'_>) -> Poll<Relayed> {
        for _ in 0..PIECES_A_TURN {
            if !ready!(self.poll_room(cx)) {
                return Poll::Ready(self.left_alone());
            }
            if self.rest.is_empty() {
                match ready!(self.body.poll_frame(cx)) {
                    Some(Ok(frame)) => self.keep(frame),
                    Some(Err(_)) => return Poll::Ready(Relayed::Broken),
                    None => return Poll::Ready(self.finish()),
                }
            }
            if !self.pass() {
                return Poll::Ready(Relayed::Broken);
            }
        }
        cx.yield_now()
    }
}
