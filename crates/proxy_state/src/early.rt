//! Answers that the client which began their fetch has while they are collected for all.
use crate::mailbox::Led;
use crate::passes::Passes;
use crate::shared::Shared;
use futures::channel::oneshot;
use http_traffic::{Early, Outcome};
use std::alloc::Global;
use std::sync::Wait;
use std::time::Clock;

/// Whether the client that began a shared fetch has the answer while it is collected: where long answers are passed on.
pub fn gives_early(passes: &Passes) -> bool {
    passes.large.is_some()
}

/// Gives an answer to the client that began its fetch. Returns whether there is one that takes it.
pub(crate) fn give_early<R: Wait + Clock, S: Shared>(
    rt: &R,
    alloc: Global,
    proxy: &S,
    fetch: u32,
    early: Early,
) -> bool {
    let Some(early) = proxy.outward().whole_head(rt, alloc, early) else {
        return false;
    };
    let Ok((reading, read)) = oneshot::channel(alloc) else {
        drop(early);
        return false;
    };
    let led = proxy.mail().mailbox.lock(rt).take_leader(fetch, read);
    match led {
        Some(led) => give_to(led, with_reading(early, reading)),
        None => {
            drop(reading);
            drop(early);
            false
        }
    }
}

// This answer, whose client says so when it reads no more.
fn with_reading(early: Box<Early>, reading: oneshot::Sender<()>) -> Box<Early> {
    let mut early = early;
    early.reading = Some(reading);
    early
}

// Gives a client an answer while it is collected. Returns whether it takes it.
fn give_to(led: Led<oneshot::Sender<Outcome>>, early: Box<Early>) -> bool {
    let Led { reply, supplier } = led;
    let sent = reply.send(Outcome::Early { early, supplier });
    let is_sent = sent.is_ok();
    drop(sent);
    is_sent
}
