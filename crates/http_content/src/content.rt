//! Reads the whole content of a message, up to a limit.
ghost use Rattle.std.specs.Prelude.{IsSome};
ghost use Rattle.futures.specs.Poll.{OnPending};
ghost use Rattle.futures.specs.Task.{Covers, Keeps};
ghost use Rattle.hyper.specs.Incoming.{IncomingNeeds};

use bytes::{Buf, Bytes};
use futures::task::{Context, Poll};
use futures::{Future, ready};
use http_body::{Body, Frame, SizeHint};
use http_body_util::combinators::Collect;
use http_body_util::{BodyExt, Collected, Limited, LimitedError};
use hyper::body::Incoming;
use std::alloc::{AllocError, Global};

// The most frames that one poll reads.
const FRAMES_A_TURN: u32 = 32;

/// Why a body was not read.
#[derive(Clone, Copy)]
pub enum ReadFault {
    /// It is longer than the limit, or than what can ever be paid for.
    TooLong,
    /// The connection ended or failed within it, or its framing is broken.
    Broken,
    /// Out of memory.
    NoMemory,
}

/// Pays for the octets of a content.
pub trait Purse: Drop {
    /// Is told, before anything is taken, how many octets are taken at most, and whether that is their announced number and not the limit of
    /// all contents. Errors: there can never be so many as are announced.
    fn expect(&mut self, octets: usize, is_announced: bool) -> Result<(), ReadFault>;

    /// Takes so many octets more. Errors: there can never be so many, or out of memory.
    fn poll_take(&mut self, cx: &mut Context<'_>, octets: usize) -> Poll<Result<(), ReadFault>>
        ensures registered { OnPending result (Covers cx.new (λ _. ⊥)) }
        ensures kept { Keeps cx.old cx.new };
}

/// Is shown a content while it is gathered.
pub trait Follow: Drop {
    /// These octets have come so far.
    fn follow(&mut self, cx: &mut Context<'_>, octets: &[u8])
        ensures kept { Keeps cx.old cx.new };

    /// The content is complete, and these are its octets. Ready once it needs them no more.
    fn poll_finish(&mut self, cx: &mut Context<'_>, octets: &[u8]) -> Poll<()>
        ensures registered { OnPending result (Covers cx.new (λ _. ⊥)) }
        ensures kept { Keeps cx.old cx.new };
}

/// How the reading of a content ended that is not paid for.
#[derive(Drop)]
pub enum Ending {
    /// With all its octets.
    Whole(Vec<u8>),
    /// It is longer than the limit.
    TooLong,
    /// It is broken, or out of memory.
    Broken,
}

/// Starts reading a body that is not paid for.
pub trait Read: Drop {
    /// The body to be read.
    type Body: Drop;

    /// The future of the content.
    type Reading: Future<Output = Ending>;

    /// Starts reading this body.
    fn read(&self, body: Self::Body) -> Self::Reading
        ensures { Self.Reading.can_poll result };
}

/// Is told of each piece of a content.
pub trait Hear: Drop {
    /// A piece came.
    fn hear(&self);
}

/// A body whose pieces are told.
#[derive(Drop)]
pub struct Heard<I, H> {
    body: Incoming<I>,
    by: H,
}

impl<I: Drop, H: Hear> Heard<I, H> {
    /// This body, of whose pieces `by` is told.
    pub fn new(body: Incoming<I>, by: H) -> Heard<I, H> {
        Heard { body, by }
    }
}

impl<I: Drop, H: Hear> Body for Heard<I, H> {
    type Data = Bytes;

    type Error = hyper::Error;

    ghost needs = { λ h. IncomingNeeds h.body };

    fn poll_frame(
        &mut self,
        cx: &mut Context<'_>,
    ) -> Poll<Option<Result<Frame<Bytes>, hyper::Error>>> {
        let next = ready!(self.body.poll_frame(cx));
        if let Some(Ok(frame)) = &next
            && frame.is_data()
        {
            self.by.hear();
        }
        Poll::Ready(next)
    }

    fn size_hint(&self) -> SizeHint {
        self.body.size_hint()
    }
}

/// Reads bodies of at most `limit` octets.
#[derive(Drop)]
pub struct AtMost<I, H> {
    alloc: Global,
    limit: usize,
    body: std::marker::PhantomData<Heard<I, H>>,
}

impl<I: Drop, H: Hear> AtMost<I, H> {
    /// A reader with this limit, in octets.
    pub fn new(alloc: Global, limit: usize) -> AtMost<I, H> {
        AtMost {
            alloc,
            limit,
            body: std::marker::PhantomData,
        }
    }
}

impl<I: Drop, H: Hear> Read for AtMost<I, H> {
    type Body = Heard<I, H>;

    type Reading = Gathering<Limited<Heard<I, H>>>;

    fn read(&self, body: Heard<I, H>) -> Gathering<Limited<Heard<I, H>>> {
        Gathering {
            alloc: self.alloc,
            collect: Limited::new(body, self.limit).collect(self.alloc),
        }
    }
}

/// Tells a body that is too long from one that is broken.
pub trait Excess: Drop {
    /// Whether the body is longer than its limit.
    fn is_excess(&self) -> bool;
}

impl<E: Drop> Excess for LimitedError<E> {
    fn is_excess(&self) -> bool {
        match self {
            LimitedError::LengthLimit => true,
            LimitedError::Body(_) => false,
        }
    }
}

/// The future of a content that is not paid for.
#[derive(Drop)]
pub struct Gathering<B: Body> {
    alloc: Global,
    collect: Collect<B>,
}

impl<D: Buf + Into<Bytes> + Drop, E: From<AllocError> + Excess, B: Body<Data = D, Error = E>> Future
    for Gathering<B> {
    type Output = Ending;

    ghost can_poll = { λ g. B.can_poll g.collect.body × IsSome g.collect.collected };

    fn poll(&mut self, cx: &mut Context<'_>) -> Poll<Ending> {
        match ready!(self.collect.poll(cx)) {
            Ok(collected) => Poll::Ready(ending_of(self.alloc, collected)),
            Err(error) if error.is_excess() => Poll::Ready(Ending::TooLong),
            Err(_) => Poll::Ready(Ending::Broken),
        }
    }
}

// The octets of a whole body.
fn ending_of(alloc: Global, collected: Collected) -> Ending {
    let Ok(octets) = collected.to_bytes() else {
        return Ending::Broken;
    };
    match octets.to_vec(alloc) {
        Ok(octets) => Ending::Whole(octets),
        Err(_) => Ending::Broken,
    }
}

/// A complete content, with what paid for it.
#[derive(Drop)]
pub struct Content<P> {
    pub octets: Vec<u8>,
    pub purse: P,
}

/// The future of a content: gathers the octets of a body in one vector. What a body has beyond its first `free` octets is paid for as it
/// comes, piece by piece; nothing more is read until a piece is paid for. The vector grows with what has come, and never beyond an announced
/// length. It is shown to `W` as it comes.
#[derive(Drop)]
pub struct Gathered<B, P, W> {
    body: B,
    // The most octets.
    limit: usize,
    octets: Vec<u8>,
    // What pays, until the content is complete.
    purse: Option<P>,
    // The announced length, or that of what has come if none is.
    announced: usize,
    // Why it is not read at all.
    fault: Option<ReadFault>,
    // Octets that are paid for, or free.
    paid: usize,
    // Octets to be paid for before anything else is read.
    due: usize,
    // Octets that came, and are added once they are paid for.
    piece: Option<Bytes>,
    // Whether all have come.
    has_ended: bool,
    follower: W,
}

impl<I: Drop, P: Purse, W: Follow> Gathered<Incoming<I>, P, W> {
    /// Reads this body of at most `limit` octets, of which `free` need not be paid for, and shows it to `follower`. Without a purse it
    /// fails, as out of memory.
    pub fn new(
        alloc: Global,
        body: Incoming<I>,
        limit: usize,
        free: usize,
        purse: Option<P>,
        follower: W,
    ) -> Gathered<Incoming<I>, P, W> {
        let announced = announced_of(&body);
        let free = limit.min(free);
        let mut purse = purse;
        let fault = match &mut purse {
            Some(purse) => expect(purse, limit, free, announced).err(),
            None => Some(ReadFault::NoMemory),
        };
        Gathered {
            body,
            limit,
            octets: Vec::new(alloc),
            purse,
            announced: announced.unwrap_or(0),
            fault,
            paid: free,
            due: 0,
            piece: None,
            has_ended: false,
            follower,
        }
    }

    // Whether what is due is over the limit.
    fn is_too_long(&self) -> bool {
        self.limit.saturating_sub(self.paid) < self.due
    }

    // Pays for what is due. Errors: those of the purse, or there is none.
    fn poll_pay(&mut self, cx: &mut Context<'_>) -> Poll<Result<(), ReadFault>>
        ensures registered { OnPending result (Covers cx.new (λ _. ⊥)) }
        ensures kept { Keeps cx.old cx.new }
    {
        if self.due == 0 {
            return Poll::Ready(Ok(()));
        }
        let Some(purse) = &mut self.purse else {
            return Poll::Ready(Err(ReadFault::NoMemory));
        };
        if let Err(fault) = ready!(purse.poll_take(cx, self.due)) {
            return Poll::Ready(Err(fault));
        }
        self.paid = self.paid.saturating_add(self.due);
        self.due = 0;
        Poll::Ready(Ok(()))
    }

    // Adds the octets that are paid for. Returns `None` if out of memory.
    fn add(&mut self) -> Option<()> {
        let Some(piece) = self.piece.take() else {
            return Some(());
        };
        let more = more_for(
            self.octets.len(),
            self.octets.capacity(),
            piece.len(),
            self.announced,
        );
        if 0 < more {
            self.octets.reserve_exact(more).ok()?;
        }
        self.octets.extend_from_slice(&piece).ok()
    }

    // Keeps the octets of a frame until they are paid for.
    fn keep(&mut self, frame: Frame<Bytes>) {
        let Ok(piece) = frame.into_data() else {
            return;
        };
        let len = self.octets.len().saturating_add(piece.len());
        self.due = len.saturating_sub(self.paid);
        self.piece = Some(piece);
    }

    // The complete content. Returns `None` if it has been given before.
    fn finish(&mut self) -> Option<Content<P>> {
        let purse = self.purse.take()?;
        let alloc = *self.octets.allocator();
        let mut octets = std::mem::replace(&mut self.octets, Vec::new(alloc));
        octets.shrink_to_fit();
        Some(Content { octets, purse })
    }

    // The complete content, once it was shown whole. Errors: it has been given before.
    fn poll_end(&mut self, cx: &mut Context<'_>) -> Poll<Result<Content<P>, ReadFault>>
        ensures registered { OnPending result (Covers cx.new (λ _. ⊥)) }
        ensures kept { Keeps cx.old cx.new }
    {
        ready!(self.follower.poll_finish(cx, self.octets.as_slice()));
        Poll::Ready(self.finish().ok_or(ReadFault::NoMemory))
    }
}

impl<I: Drop, P: Purse, W: Follow> Future for Gathered<Incoming<I>, P, W> {
    type Output = Result<Content<P>, ReadFault>;

    fn poll(&mut self, cx: &mut Context<'_>) -> Poll<Result<Content<P>, ReadFault>> {
        if let Some(fault) = self.fault {
            return Poll::Ready(Err(fault));
        }
        for _ in 0..FRAMES_A_TURN {
            if self.has_ended {
                return self.poll_end(cx);
            }
            if self.is_too_long() {
                return Poll::Ready(Err(ReadFault::TooLong));
            }
            if let Err(fault) = ready!(self.poll_pay(cx)) {
                return Poll::Ready(Err(fault));
            }
            if self.add().is_none() {
                return Poll::Ready(Err(ReadFault::NoMemory));
            }
            self.follower.follow(cx, self.octets.as_slice());
            match ready!(self.body.poll_frame(cx)) {
                Some(Ok(frame)) => self.keep(frame),
                Some(Err(error)) => return Poll::Ready(Err(fault_of(&error))),
                None => self.has_ended = true,
            }
        }
        cx.yield_now()
    }
}

// The announced length of a body, if one is.
fn announced_of<I: Drop>(body: &Incoming<I>) -> Option<usize> {
    let octets = body.size_hint().exact()?;
    Some(usize::try_from(octets).unwrap_or(usize::MAX))
}

// Tells a purse what is taken at most: what is announced, or else what the limit leaves, beyond the octets that are free. Errors: that of the
// purse, or what is announced is over the limit.
fn expect<P: Purse>(
    purse: &mut P,
    limit: usize,
    free: usize,
    announced: Option<usize>,
) -> Result<(), ReadFault> {
    match announced {
        Some(octets) if limit < octets => Err(ReadFault::TooLong),
        Some(octets) => purse.expect(octets.saturating_sub(free), true),
        None => purse.expect(limit.saturating_sub(free), false),
    }
}

// For how many octets beyond its length a vector of this length and capacity gets room before a piece of so many is added: twice what it has,
// so that what has come is rarely moved, but no more than is announced. 0 where there is room.
fn more_for(len: usize, capacity: usize, piece: usize, announced: usize) -> usize {
    let needed = len.saturating_add(piece);
    if needed <= capacity {
        return 0;
    }
    let doubled = needed.max(len.saturating_mul(2));
    let wanted = if needed <= announced {
        doubled.min(announced)
    } else {
        doubled
    };
    wanted.saturating_sub(len)
}

// Why a body was not read to its end.
fn fault_of(error: &hyper::Error) -> ReadFault {
    if error.is_out_of_memory() {
        ReadFault::NoMemory
    } else {
        ReadFault::Broken
    }
}
