//! The body of a response.
ghost use Rattle.std.specs.Prelude.{◌≡◌, IsSomeAnd};
ghost use Rattle.futures.specs.Channel.{readable_source};
ghost use Rattle.futures.specs.Poll.{OnPending};
ghost use Rattle.futures.specs.Task.{Covers, Keeps};

use crate::account::Tally;
use crate::responses::ResponseBody;
use crate::upload::RelayContent;
use bytes::Bytes;
use client_streams::{SharedStage, Stage};
use futures::channel::{mpsc, oneshot};
use futures::ready;
use futures::stream::Stream;
use futures::task::{Context, Poll};
use http_body::{Body, Frame, SizeHint};
use http_content::Portions;
use http_traffic::Piece;
use std::alloc::{AllocError, Global};
use std::mem;

// The most octets of a frame of an answer that is passed on: as many as the HTTP server sends without a copy of its own.
const MOST_OCTETS: usize = 128 * 1024;

/// Octets that are known when the response begins, or pieces that are made while it is sent, or those of an answer that is passed on.
/// What became of the request is told when this is dropped.
pub(crate) struct Reply<L, U> {
    known: Portions,
    coming: Option<mpsc::Receiver<Vec<u8>>>,
    passed: Option<Box<Passed<U>>>,
    telling: Option<L>,
}

// Written by hand, so that what lets it go is one call for the prover (docs/GATE.md).
impl<L: Drop, U: Drop> Drop for Reply<L, U> {
    fn drop(self) {
        let Self {
            known: _,
            coming: _,
            passed: _,
            telling: _,
        } = self;
    }
}

// The content of an answer that is passed on, and what is left of the content of its request.
#[derive(Drop)]
struct Passed<U> {
    pieces: mpsc::Receiver<Piece>,
    length: Option<u64>,
    // What is left of the piece that came last.
    rest: Bytes,
    // Ends the passage when it is dropped. None if what brings the answer goes on without its client.
    wanted: Option<oneshot::Sender<()>>,
    upload: Option<Box<U>>,
    // None if there are too many handles.
    stage: Option<SharedStage>,
}

impl<U: RelayContent> Passed<U> {
    // The next piece. The content of the request goes on meanwhile.
    fn poll_piece(&mut self, cx: &mut Context<'_>) -> Poll<Option<Piece>>
        ensures registered { OnPending result (Covers cx.new (λ _. ⊥)) }
        ensures kept { Keeps cx.old cx.new }
    {
        if let Some(upload) = &mut self.upload
            && let Poll::Ready(_) = upload.poll_relay(cx)
        {
            drop(self.upload.take());
        }
        self.pieces.poll_next(cx)
    }

    // Waits until there are octets to be sent. Returns whether there are; otherwise the end of the content has come. Errors: it was cut, or
    // out of memory.
    fn poll_octets(&mut self, cx: &mut Context<'_>) -> Poll<Result<bool, AllocError>>
        ensures registered { OnPending result (Covers cx.new (λ _. ⊥)) }
        ensures kept { Keeps cx.old cx.new }
    {
        if !self.rest.is_empty() {
            return Poll::Ready(Ok(true));
        }
        match ready!(self.poll_piece(cx)) {
            Some(Piece::Octets(octets)) => Poll::Ready(self.keep(octets)),
            Some(Piece::End) => {
                self.rest();
                Poll::Ready(Ok(false))
            }
            // Whatever the error, the connection ends without the end of the content.
            None => Poll::Ready(Err(AllocError)),
        }
    }

    // Keeps the octets of a piece, which are to be sent. Returns that there are some. Errors: out of memory.
    fn keep(&mut self, octets: Vec<u8>) -> Result<bool, AllocError> {
        let Ok(octets) = Bytes::from_vec(octets) else {
            return Err(AllocError);
        };
        drop(mem::replace(&mut self.rest, octets));
        Ok(true)
    }

    // The next octets to be sent. Errors: out of memory.
    fn next_octets(&mut self) -> Result<Bytes, AllocError> {
        let most = self.rest.len().min(MOST_OCTETS);
        self.rest.split_to(most)
    }

    // Has the connection wait for its next request.
    fn rest(&self) {
        if let Some(stage) = &self.stage {
            stage.set(Stage::Idle);
        }
    }
}

impl<L: Tally, U: RelayContent> ResponseBody for Reply<L, U> {
    fn of(known: Portions) -> Reply<L, U> {
        Reply {
            known,
            coming: None,
            passed: None,
            telling: None,
        }
    }

    fn of_pieces(alloc: Global, pieces: mpsc::Receiver<Vec<u8>>) -> Reply<L, U> {
        Reply {
            known: Portions::of_text(alloc, Vec::new(alloc)),
            coming: Some(pieces),
            passed: None,
            telling: None,
        }
    }

    fn of_passed(
        alloc: Global,
        pieces: mpsc::Receiver<Piece>,
        length: Option<u64>,
        wanted: Option<oneshot::Sender<()>>,
    ) -> Option<Reply<L, U>> {
        let passed = Passed {
            pieces,
            length,
            rest: Bytes::new(),
            wanted,
            upload: None,
            stage: None,
        };
        let passed = Box::new(alloc, passed).ok()?;
        Some(Reply {
            known: Portions::of_text(alloc, Vec::new(alloc)),
            coming: None,
            passed: Some(passed),
            telling: None,
        })
    }
}

impl<L: Tally, U: RelayContent> Reply<L, U> {
    /// Leaves it to a body that is passed on to pass on what is left of its request's content, and to set the stage once it has ended.
    pub(crate) fn attend(&mut self, upload: Option<Box<U>>, stage: Option<SharedStage>) {
        match &mut self.passed {
            Some(passed) => {
                drop(mem::replace(&mut passed.upload, upload));
                drop(mem::replace(&mut passed.stage, stage));
            }
            None => {
                drop(stage);
                drop(upload);
            }
        }
    }

    /// Whether the body has no octets.
    pub(crate) fn is_empty(&self) -> bool {
        self.coming.is_none() && self.passed.is_none() && self.known.size_hint().lower() == 0
    }

    // The next frame of a body that is passed on. Errors: it was cut, or out of memory.
    fn poll_passed(
        &mut self,
        cx: &mut Context<'_>,
    ) -> Poll<Option<Result<Frame<Bytes>, AllocError>>>
        ensures registered { OnPending result (Covers cx.new (λ _. ⊥)) }
        ensures kept { Keeps cx.old cx.new }
        ensures same { self.new.coming ≡ self.old.coming }
    {
        let Some(passed) = &mut self.passed else {
            return Poll::Ready(None);
        };
        match ready!(passed.poll_octets(cx)) {
            Ok(true) => Poll::Ready(self.passed_frame()),
            Ok(false) => {
                self.note(0, true);
                Poll::Ready(None)
            }
            Err(fault) => Poll::Ready(Some(Err(fault))),
        }
    }

    // A frame with the next octets of the piece that came last. Errors: out of memory.
    fn passed_frame(&mut self) -> Option<Result<Frame<Bytes>, AllocError>>
        ensures { self.new.coming ≡ self.old.coming }
    {
        let passed = self.passed.as_mut()?;
        let Ok(octets) = passed.next_octets() else {
            return Some(Err(AllocError));
        };
        self.note(octets.len() as u64, false);
        Some(Ok(Frame::data(octets)))
    }

    // The next frame of a body whose octets are known, or that is passed on. Errors: it was cut, or out of memory.
    fn poll_alone(&mut self, cx: &mut Context<'_>) -> Poll<Option<Result<Frame<Bytes>, AllocError>>>
        ensures registered { OnPending result (Covers cx.new (λ _. ⊥)) }
        ensures kept { Keeps cx.old cx.new }
        ensures same { self.new.coming ≡ self.old.coming }
    {
        if self.passed.is_some() {
            return self.poll_passed(cx);
        }
        let before = self.known.size_hint().lower();
        let frame = self.known.poll_frame(cx);
        let left = self.known.size_hint().lower();
        self.note(before.saturating_sub(left), left == 0);
        frame
    }

    /// Has `telling` note what is handed to the connection from now on.
    pub(crate) fn account_to(&mut self, telling: L) {
        drop(self.telling.replace(telling));
    }

    // Notes a piece of so many octets.
    fn note(&mut self, count: u64, is_last: bool)
        ensures { (self.new.coming ≡ self.old.coming) × (self.new.known ≡ self.old.known) }
    {
        if let Some(telling) = &mut self.telling {
            telling.note_octets(count, is_last);
        }
    }
}

impl<L: Tally, U: RelayContent> Body for Reply<L, U> {
    type Data = Bytes;

    type Error = AllocError;

    ghost needs = { λ r s. IsSomeAnd r.coming (λ coming. s ≡ readable_source coming) };

    fn poll_frame(
        &mut self,
        cx: &mut Context<'_>,
    ) -> Poll<Option<Result<Frame<Bytes>, AllocError>>> {
        let Some(coming) = &mut self.coming else {
            return self.poll_alone(cx);
        };
        let Some(piece) = ready!(coming.poll_next(cx)) else {
            self.note(0, true);
            return Poll::Ready(None);
        };
        let count = piece.len() as u64;
        match Bytes::from_vec(piece) {
            Ok(piece) => {
                self.note(count, false);
                Poll::Ready(Some(Ok(Frame::data(piece))))
            }
            Err(_) => Poll::Ready(Some(Err(AllocError))),
        }
    }

    fn size_hint(&self) -> SizeHint {
        if let Some(passed) = &self.passed {
            return match passed.length {
                Some(length) => SizeHint::with_exact(length),
                None => SizeHint::new(),
            };
        }
        match self.coming {
            Some(_) => SizeHint::new(),
            None => self.known.size_hint(),
        }
    }
}
