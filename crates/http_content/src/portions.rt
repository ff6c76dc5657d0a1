//! The HTTP body of a response: the octets of a text, or of a stored object that many responses share or of a part of it, at most
//! 64 KiB a frame, or 128 KiB of a long object, which a frame shares with it wherever that can be.
//!
//! Contracts see a body as the octets that remain and the most of them that a frame may hold. They prove that the frames are those octets
//! in order, none longer than that, that the body ends only when none remain, and that the size hint is exact; an allocation failure loses
//! nothing.
ghost use Rattle.std.specs.Prelude.{◌≡◌, ◌≤◌, Some, IfOk, length, take, drop, slice_range, nat_lt};
ghost use Rattle.http_body.specs.SizeHint.{exact};
ghost use Rattle.http_content.specs.Octets.{source_octets, frame_limit, limit_of};
ghost use Rattle.http_content.specs.Pieces.{in_pieces};

use bytes::Bytes;
use futures::task::{Context, Poll};
use http_body::{Body, Frame, SizeHint};
use object_store::SharedObject;
use std::alloc::{AllocError, Global};
use std::marker::Model;

// The most octets of a frame of a text or of a shorter object, which is a copy.
const PIECE: usize = 64 * 1024;

// The most octets of a frame of a long object, which is shared with it wherever that can be: as many as the HTTP server sends without a
// copy of its own.
const SHARED_PIECE: usize = 128 * 1024;

// The octets of a body.
#[derive(Drop)]
enum Source {
    Object(SharedObject),
    // So many octets at the beginning of an object's.
    Front(SharedObject, usize),
    Text(Vec<u8>),
}

impl Source {
    fn as_slice(&self) -> &[u8]
        ensures { result.now ≡ source_octets self.now }
    {
        match self {
            Source::Object(object) => object.get().body(),
            Source::Front(object, end) => up_to(object.get().body(), *end),
            Source::Text(text) => text.as_slice(),
        }
    }

    // The most octets of a frame of it.
    fn most(&self) -> usize
        ensures { result ≡ frame_limit self.now }
    {
        match self {
            Source::Object(object) | Source::Front(object, _) => most_of(object),
            Source::Text(_) => PIECE,
        }
    }

    // The octets from the place `first` to the one before `end`, shared if they can be.
    fn octets(&self, alloc: Global, first: usize, end: usize) -> Result<Bytes, AllocError>
        requires places { (first ≤ end) × (end ≤ length (source_octets self.now)) }
        ensures { IfOk result (λ octets. octets ≡ slice_range (source_octets self.now) first end) }
    {
        let shared = match self {
            Source::Object(object) | Source::Front(object, _) => object
                .get()
                .share_body(first, end),
            Source::Text(_) => None,
        };
        match shared {
            Some(octets) => Ok(octets),
            None => Bytes::copy_from_slice(alloc, &self.as_slice()[first..end]),
        }
    }
}

// The most octets of a frame of an object.
fn most_of(object: &SharedObject) -> usize
    ensures { result ≡ limit_of (length object.now.body) }
{
    if object.get().body().len() < SHARED_PIECE {
        PIECE
    } else {
        SHARED_PIECE
    }
}

// The first octets, of which there are at most so many.
fn up_to(octets: &[u8], end: usize) -> &[u8]
    ensures { result.now ≡ take end octets.now }
{
    if end < octets.len() {
        &octets[..end]
    } else {
        octets
    }
}

/// The octets of an object, of a part of it or of a text, in frames of at most 64 KiB, or of at most 128 KiB where the object has that
/// many. Contracts see the octets that remain, and the most that a frame may have.
#[derive(Drop)]
pub struct Portions {
    alloc: Global,
    source: Source,
    next: usize,
}

impl Model for Portions {
    ghost use Rattle.std.specs.Prelude.{drop};
    ghost use Rattle.http_content.specs.Octets.{source_octets, frame_limit};
    ghost use Rattle.http_content.specs.Pieces.{Rest};

    ghost Value = { Rest };

    ghost view = { λ p. record { most = frame_limit p.source; octets = drop p.next (source_octets p.source) } };
}

impl Portions {
    /// The body of `object`.
    pub fn of_object(alloc: Global, object: SharedObject) -> Portions
        ensures octets { result.octets ≡ object.body }
        ensures most { result.most ≡ limit_of (length object.body) }
    {
        Portions {
            alloc,
            source: Source::Object(object),
            next: 0,
        }
    }

    /// The octets of the body of `object` from the place `first` to the one before `end`, counted from 0.
    pub fn of_part(alloc: Global, object: SharedObject, first: usize, end: usize) -> Portions
        ensures octets { result.octets ≡ drop first (take end object.body) }
        ensures most { result.most ≡ limit_of (length object.body) }
    {
        Portions {
            alloc,
            source: Source::Front(object, end),
            next: first,
        }
    }

    /// The octets of `text`.
    pub fn of_text(alloc: Global, text: Vec<u8>) -> Portions
        ensures octets { result.octets ≡ text.items }
        ensures most { result.most ≡ 65536 }
    {
        Portions {
            alloc,
            source: Source::Text(text),
            next: 0,
        }
    }

    // The number of octets that remain.
    fn left(&self) -> usize
        ensures { result ≡ length self.now.octets }
    {
        self.source.as_slice().len().saturating_sub(self.next)
    }
}

impl Body for Portions {
    type Data = Bytes;

    type Error = AllocError;

    ghost yields = { in_pieces };

    fn poll_frame(
        &mut self,
        _cx: &mut Context<'_>,
    ) -> Poll<Option<Result<Frame<Bytes>, AllocError>>> {
        let content = self.source.as_slice();
        if content.len() <= self.next {
            return Poll::Ready(None);
        }
        let most = self.source.most();
        let end = content.len().min(self.next.saturating_add(most));
        match self.source.octets(self.alloc, self.next, end) {
            Ok(piece) => {
                self.next = end;
                Poll::Ready(Some(Ok(Frame::data(piece))))
            }
            Err(e) => Poll::Ready(Some(Err(e))),
        }
    }

    fn size_hint(&self) -> SizeHint
        ensures { exact result ≡ Some (length self.now.octets) }
    {
        SizeHint::with_exact(self.left() as u64)
    }
}
