//! An answer that is given to the client that began its fetch, while it is collected.
ghost use Rattle.futures.specs.Task.{Keeps};

use crate::fetching::{FetchRules, put};
use futures::Stream;
use futures::channel::mpsc;
use futures::channel::mpsc::{UnboundedReceiver, UnboundedSender};
use futures::sink::Sink;
use futures::task::{Context, Poll};
use http_content::Follow;
use http_rules::end_to_end;
use http_traffic as traffic;
use http_traffic::{Admit, Piece, Progress};
use hyper::HeaderMap;
use shared_thread::Tend;
use std::alloc::{AllocError, Global};
use std::mem;
use std::rc::Rc;
use std::sync::Arc;

// The fewest octets of an answer that is given while it is collected.
const FEWEST_OCTETS: u64 = 128 * 1024;

// The most octets of a piece.
const PIECE_OCTETS: usize = 64 * 1024;

// How many pieces wait for the client, beside the one that every sender may have there: four while the answer is collected.
const WAITING_PIECES: usize = 3;

// The most pieces that are handed over at a time.
const PIECES_A_TURN: u32 = 16;

// The most octets that are copied at a time of what a client has not taken once its answer is whole.
const COPIED_A_TURN: usize = 1024 * 1024;

// The most answers that are given to clients at a time.
const ANSWERS_A_TURN: u32 = 64;

/// An answer for the client that began this fetch.
pub struct Offered {
    fetch: u32,
    early: traffic::Early,
}

// Written by hand, as other drops of this file, so that what lets it go is one call for the prover (docs/GATE.md).
impl Drop for Offered {
    fn drop(self) {
        let Self { fetch: _, early: _ } = self;
    }
}

impl Offered {
    // Gives it to its client. Where no client takes it, its pieces have no reader from here on.
    fn give<A: Admit>(self, alloc: Global, admit: &A) {
        let Self { fetch, early } = self;
        let _ = admit.give_early(alloc, fetch, early);
    }
}

/// Gives answers to the clients that began their fetches, as they are offered.
pub struct Doorman<A> {
    alloc: Global,
    rules: Rc<FetchRules<A>>,
    offered: UnboundedReceiver<Offered>,
}

impl<A: Drop> Drop for Doorman<A> {
    fn drop(self) {
        let Self {
            alloc: _,
            rules: _,
            offered: _,
        } = self;
    }
}

/// What gives answers to clients by these rules, and where it is offered them. Errors: out of memory.
pub fn gate<A: Drop>(
    alloc: Global,
    rules: &Rc<FetchRules<A>>,
) -> Result<(UnboundedSender<Offered>, Doorman<A>), AllocError> {
    let rules = rules.clone()?;
    let (offers, offered) = mpsc::unbounded(alloc)?;
    let doorman = Doorman {
        alloc,
        rules,
        offered,
    };
    Ok((offers, doorman))
}

impl<A: Admit> Tend for Doorman<A> {
    fn poll_tend(&mut self, cx: &mut Context<'_>)
        ensures { Keeps cx.old cx.new }
    {
        for _ in 0..ANSWERS_A_TURN {
            let Poll::Ready(Some(offered)) = self.offered.poll_next(cx) else {
                return;
            };
            offered.give(self.alloc, &self.rules.admit);
        }
        let _: Poll<()> = cx.yield_now();
    }
}

/// Follows the content of an answer once its head is known. What reads contents is generic over this, since the prover does not look behind
/// a type parameter (docs/GATE.md).
pub trait Offers: Follow {
    /// This, for an answer with this status, these fields, and a content of this length if that is known; nothing is left here. An answer
    /// whose Connection fields name too many others is not given, nor is one where memory is short.
    fn of_answer(&mut self, status: u16, fields: &HeaderMap, length: Option<u64>) -> Self;
}

/// Gives the answer of a fetch to the client that began it, while it is collected: that of status 200 with an announced length of 128 KiB
/// or more, from its first octets on. Collecting never waits for the client: what it is behind is handed over in one piece when the answer is
/// whole, which is copied a mebibyte at a time, so that other fetches of the thread have their turn. An answer that does not become whole is cut for it. Of each answer is noted how
/// much has come.
pub struct Early {
    alloc: Global,
    fetch: u32,
    // None where nobody looks at that.
    progress: Option<Arc<Progress>>,
    // None where no client may have it.
    gate: Option<UnboundedSender<Offered>>,
    // What may be given of an answer, until its first octets have come.
    offer: Option<Offer>,
    reader: Option<Reader>,
}

impl Drop for Early {
    fn drop(self) {
        let Self {
            alloc: _,
            fetch: _,
            progress,
            gate,
            offer,
            reader,
        } = self;
        drop(progress);
        drop(gate);
        drop(offer);
        drop(reader);
    }
}

// The end-to-end fields of an answer, and the length of its content.
struct Offer {
    fields: Vec<(Vec<u8>, Vec<u8>)>,
    length: u64,
}

impl Drop for Offer {
    fn drop(self) {
        let Self {
            fields: _,
            length: _,
        } = self;
    }
}

impl Early {
    /// Offers the answer of this fetch at this gate, if there is one, and notes in `progress` how much of it has come.
    pub fn new(
        alloc: Global,
        gate: Option<UnboundedSender<Offered>>,
        fetch: u32,
        progress: Option<Arc<Progress>>,
    ) -> Early {
        Early {
            alloc,
            fetch,
            progress,
            gate,
            offer: None,
            reader: None,
        }
    }

    // Offers the answer to the client that began the fetch. Returns `None` if there is nothing to offer, or if out of memory.
    fn begin(&mut self) -> Option<Reader> {
        let gate = self.gate.take()?;
        let reader = self.begin_at(&gate);
        drop(gate);
        reader
    }

    // As `begin`, at this gate.
    fn begin_at(&mut self, gate: &UnboundedSender<Offered>) -> Option<Reader> {
        let offer = self.offer.take()?;
        let (reader, offered) = offer.open(self.alloc, self.fetch)?;
        gate.unbounded_send(offered).ok()?;
        Some(reader)
    }
}

impl Offer {
    // What hands over pieces of this answer, and the answer for the client that began this fetch. Returns `None` if out of memory.
    fn open(self, alloc: Global, fetch: u32) -> Option<(Reader, Offered)> {
        let Self { fields, length } = self;
        let Ok((reader, pieces)) = Reader::new(alloc, length) else {
            drop(fields);
            return None;
        };
        let early = traffic::Early {
            fields,
            length,
            pieces,
            reading: None,
        };
        Some((reader, Offered { fetch, early }))
    }
}

// What is given of an answer with these fields. Returns `None` if Connection names too many others, or if out of memory.
fn offer_of(alloc: Global, fields: &HeaderMap, length: u64) -> Option<Offer> {
    let fields = end_to_end(alloc, fields).ok()?;
    Some(Offer { fields, length })
}

impl Offers for Early {
    fn of_answer(&mut self, status: u16, fields: &HeaderMap, length: Option<u64>) -> Early {
        let gate = self.gate.take();
        let progress = self.progress.take();
        if let Some(progress) = &progress {
            progress.begin(length);
        }
        let offer = match length {
            Some(length) if gate.is_some() && status == 200 && FEWEST_OCTETS <= length => {
                offer_of(self.alloc, fields, length)
            }
            _ => None,
        };
        Early {
            alloc: self.alloc,
            fetch: self.fetch,
            progress,
            gate,
            offer,
            reader: None,
        }
    }
}

impl Follow for Early {
    fn follow(&mut self, cx: &mut Context<'_>, octets: &[u8]) {
        if let Some(progress) = &self.progress {
            progress.note(octets.len());
        }
        if self.offer.is_some() && !octets.is_empty() {
            let reader = self.begin();
            put(&mut self.reader, reader);
        }
        let reads_on = match &mut self.reader {
            Some(reader) => reader.hand_over(self.alloc, cx, octets),
            None => return,
        };
        if !reads_on {
            put(&mut self.reader, None);
        }
    }

    fn poll_finish(&mut self, cx: &mut Context<'_>, octets: &[u8]) -> Poll<()> {
        let Some(reader) = &mut self.reader else {
            return Poll::Ready(());
        };
        if octets.len() as u64 == reader.length && reader.copies_on(octets) {
            return cx.yield_now();
        }
        if let Some(reader) = self.reader.take() {
            reader.finish(octets);
        }
        Poll::Ready(())
    }
}

// Hands pieces over to a client.
struct Reader {
    pieces: mpsc::Sender<Piece>,
    // Each has room for one piece more, at any time: for what is left once the answer is whole, and for its end.
    last: mpsc::Sender<Piece>,
    end: mpsc::Sender<Piece>,
    // The length of the whole.
    length: u64,
    // How many octets were handed over.
    given: usize,
    // Those behind them, as far as they are copied, once all have come.
    rest: Vec<u8>,
}

impl Drop for Reader {
    fn drop(self) {
        let Self {
            pieces: _,
            last: _,
            end: _,
            length: _,
            given: _,
            rest: _,
        } = self;
    }
}

impl Reader {
    // Nothing is handed over as yet. What the client reads from is returned as well. Errors: out of memory.
    fn new(alloc: Global, length: u64) -> Result<(Reader, mpsc::Receiver<Piece>), AllocError> {
        let (pieces, coming) = mpsc::channel(alloc, WAITING_PIECES)?;
        let reader = Reader {
            last: pieces.clone()?,
            end: pieces.clone()?,
            pieces,
            length,
            given: 0,
            rest: Vec::new(alloc),
        };
        Ok((reader, coming))
    }

    // Hands over as many of these octets as there is room for; once there is more, the task is woken. Returns whether the client still
    // reads: `false` also if out of memory.
    fn hand_over(&mut self, alloc: Global, cx: &mut Context<'_>, octets: &[u8]) -> bool
        ensures kept { Keeps cx.old cx.new }
    {
        for _ in 0..PIECES_A_TURN {
            let left = octets.len().saturating_sub(self.given);
            if left == 0 {
                return true;
            }
            match self.pieces.poll_ready(cx) {
                Poll::Ready(Ok(())) => {}
                Poll::Ready(Err(_)) => return false,
                Poll::Pending => return true,
            }
            let end = self.given.saturating_add(left.min(PIECE_OCTETS));
            let Some(piece) = piece_of(alloc, octets, self.given, end) else {
                return false;
            };
            if self.pieces.try_send(piece).is_err() {
                return false;
            }
            self.given = end;
        }
        true
    }

    // Copies some more of what is left of these octets, which are all. Returns whether there is more to copy: `false` also if out of memory.
    fn copies_on(&mut self, octets: &[u8]) -> bool {
        let begin = self.given.saturating_add(self.rest.len());
        let left = octets.len().saturating_sub(begin);
        if left == 0 || (self.rest.is_empty() && self.rest.reserve_exact(left).is_err()) {
            return false;
        }
        let end = begin.saturating_add(left.min(COPIED_A_TURN));
        match octets.get(begin..end) {
            Some(some) => self.rest.extend_from_slice(some).is_ok(),
            None => false,
        }
    }

    // Hands over what is left of these octets, if that was copied, and that they are all. Where they are not, or memory is short, they are cut.
    fn finish(self, octets: &[u8]) {
        let mut reader = self;
        if octets.len() as u64 == reader.length && reader.hand_over_rest(octets) {
            let _ = reader.end.try_send(Piece::End);
        }
        drop(reader);
    }

    // Hands over what is left of these octets, however many it is. Returns whether the client has all of them then: `false` if it reads
    // no more, or if they weren't copied.
    fn hand_over_rest(&mut self, octets: &[u8]) -> bool {
        if octets.len() <= self.given {
            return true;
        }
        let alloc = *self.rest.allocator();
        let rest = mem::replace(&mut self.rest, Vec::new(alloc));
        if octets.len().saturating_sub(self.given) != rest.len() {
            drop(rest);
            return false;
        }
        self.last.try_send(Piece::Octets(rest)).is_ok()
    }
}

// The octets from the place `first` to the one before `end`. Returns `None` if there are no such places, or if out of memory.
fn piece_of(alloc: Global, octets: &[u8], first: usize, end: usize) -> Option<Piece> {
    let octets = octets.get(first..end)?.to_vec(alloc).ok()?;
    Some(Piece::Octets(octets))
}
