//! The content of a request that is passed on.
ghost use Rattle.futures.specs.Poll.{OnPending};
ghost use Rattle.futures.specs.Task.{Covers, Keeps};

use client_streams::{SharedStage, Stage};
use futures::Future;
use futures::channel::mpsc;
use futures::task::{Context, Poll};
use http_content::{Hear, Heard, Relay, Relayed};
use http_traffic::Coming;
use std::alloc::Global;

/// Notes the pieces of a content at the stage of its connection. Without a stage all of them have the time of one.
#[derive(Drop)]
pub(crate) struct Pieces(pub(crate) Option<SharedStage>);

impl Hear for Pieces {
    fn hear(&self) {
        if let Some(stage) = &self.0 {
            stage.note_piece();
        }
    }
}

// The most pieces that wait for who takes them, beside the one that every sender may have there.
const WAITING_PIECES: usize = 1;

/// Passes on the content of a request as it comes. Who holds one is generic over it, since the prover does not look behind a type parameter
/// (docs/GATE.md).
pub(crate) trait RelayContent: Drop {
    /// Goes on with it. Ready once it has ended.
    fn poll_relay(&mut self, cx: &mut Context<'_>) -> Poll<Relayed>
        ensures registered { OnPending result (Covers cx.new (λ _. ⊥)) }
        ensures kept { Keeps cx.old cx.new };
}

/// Passes on the content of a request as it comes. The connection is at the stage of a content only while this waits for the client.
pub(crate) struct Upload<I> {
    relay: Relay<Heard<I, Pieces>>,
    // None if there are too many handles.
    stage: Option<SharedStage>,
}

// Written by hand, so that what lets it go is one call for the prover (docs/GATE.md).
impl<I: Drop> Drop for Upload<I> {
    fn drop(self) {
        let Self { relay, stage } = self;
        drop(relay);
        drop(stage);
    }
}

impl<I: Drop> Upload<I> {
    /// Passes on this content, of this length if that is known, to who takes the other end. Returns `None` if out of memory.
    pub(crate) fn new(
        alloc: Global,
        body: Heard<I, Pieces>,
        length: Option<u64>,
        stage: Option<SharedStage>,
    ) -> Option<(Box<Upload<I>>, Coming)> {
        let Ok((to, pieces)) = mpsc::channel(alloc, WAITING_PIECES) else {
            drop(stage);
            drop(body);
            return None;
        };
        let relay = Relay::new(alloc, body, to);
        match Box::new(alloc, Upload { relay, stage }) {
            Ok(upload) => Some((upload, Coming { length, pieces })),
            Err(_) => {
                drop(pieces);
                None
            }
        }
    }

    // Sets the stage of the connection, if it is another one.
    fn note(&self, next: Stage) {
        if let Some(stage) = &self.stage
            && stage.get() != next
        {
            stage.set(next);
        }
    }
}

impl<I: Drop> RelayContent for Upload<I> {
    fn poll_relay(&mut self, cx: &mut Context<'_>) -> Poll<Relayed> {
        let polled = self.relay.poll(cx);
        if matches!(polled, Poll::Pending) && !self.relay.is_full() {
            self.note(Stage::Content);
        } else {
            self.note(Stage::Asked);
        }
        polled
    }
}
