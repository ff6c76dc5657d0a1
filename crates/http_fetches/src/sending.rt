//! What is sent of a request that is passed on: its head, and its content as it comes.
ghost use Rattle.std.specs.Prelude.{◌≡◌, IsSomeAnd};
ghost use Rattle.futures.specs.Channel.{readable_source};

use crate::fetching::put;
use bytes::Bytes;
use futures::channel::mpsc;
use futures::ready;
use futures::stream::Stream;
use futures::task::{Context, Poll};
use http_body::{Body, Frame, SizeHint};
use http_content::{add_field, add_fields};
use http_traffic::{Coming, Piece};
use hyper::{HeaderMap, Method, Request, header};
use std::alloc::{AllocError, Global};
use std::cell::Cell;
use std::io;
use std::io::ErrorKind;
use std::rc::Rc;

/// Whether all of a request was sent. Reference-counted within one thread.
pub(crate) struct Whole(Rc<Cell<bool>>);

impl Drop for Whole {
    fn drop(self) {
        let Self(_) = self;
    }
}

impl Whole {
    /// Not all was. Errors: out of memory.
    pub(crate) fn new(alloc: Global) -> Result<Whole, AllocError> {
        Ok(Whole(Rc::new(alloc, Cell::new(false))?))
    }

    /// Another handle to the same. Errors: there are too many.
    pub(crate) fn share(&self) -> Result<Whole, AllocError> {
        Ok(Whole(self.0.clone()?))
    }

    // Notes that all was.
    fn note(&self) {
        self.0.set(true);
    }

    /// Whether all was.
    pub(crate) fn is_noted(&self) -> bool {
        self.0.get()
    }
}

/// The content of the request, as it comes.
pub struct Sent {
    // None if there is none, and once it is complete.
    coming: Option<mpsc::Receiver<Piece>>,
    // What is still to come, where that is known.
    left: Option<u64>,
    // Whether no field says that there is none.
    is_bare: bool,
    // Where is noted that all was sent. None if out of memory.
    whole: Option<Whole>,
}

// Written by hand, as other drops of this file, so that what lets it go is one call for the prover (docs/GATE.md).
impl Drop for Sent {
    fn drop(self) {
        let Self {
            coming,
            left: _,
            is_bare: _,
            whole,
        } = self;
        drop(coming);
        drop(whole);
    }
}

impl Sent {
    // The content of a request with this method, which has none if nothing is coming.
    fn new(method: &str, content: Option<Coming>, whole: Option<Whole>) -> Sent {
        match content {
            Some(Coming { length, pieces }) => Sent {
                coming: Some(pieces),
                left: length,
                is_bare: false,
                whole,
            },
            None => Sent {
                coming: None,
                left: Some(0),
                is_bare: !matches!(method, "POST" | "PUT" | "PATCH"),
                whole,
            },
        }
    }

    /// Notes that its request is given to a connection: that is all of it where nothing is coming.
    pub(crate) fn note_delivered(&self) {
        if self.coming.is_none() {
            self.note_whole();
        }
    }

    // Notes that all was sent.
    fn note_whole(&self) {
        if let Some(whole) = &self.whole {
            whole.note();
        }
    }
}

impl Body for Sent {
    type Data = Bytes;

    type Error = io::Error;

    ghost needs = { λ b s. IsSomeAnd b.coming (λ coming. s ≡ readable_source coming) };

    fn poll_frame(
        &mut self,
        cx: &mut Context<'_>,
    ) -> Poll<Option<Result<Frame<Bytes>, io::Error>>> {
        let Some(coming) = &mut self.coming else {
            return Poll::Ready(None);
        };
        match ready!(coming.poll_next(cx)) {
            Some(Piece::Octets(octets)) => {
                let count = octets.len() as u64;
                if let Some(left) = self.left {
                    self.left = Some(left.saturating_sub(count));
                }
                Poll::Ready(Some(frame_of(octets)))
            }
            Some(Piece::End) => {
                put(&mut self.coming, None);
                self.note_whole();
                Poll::Ready(None)
            }
            // (a client may go as its last octets have come, of which the number was known)
            None if self.left == Some(0) => {
                put(&mut self.coming, None);
                self.note_whole();
                Poll::Ready(None)
            }
            None => Poll::Ready(Some(Err(io::Error::from(ErrorKind::UnexpectedEof)))),
        }
    }

    fn is_end_stream(&self) -> bool {
        self.is_bare
    }

    fn size_hint(&self) -> SizeHint {
        match self.left {
            Some(left) => SizeHint::with_exact(left),
            None => SizeHint::new(),
        }
    }
}

// The frame of these octets. Errors: out of memory.
fn frame_of(octets: Vec<u8>) -> io::Result<Frame<Bytes>> {
    match Bytes::from_vec(octets) {
        Ok(octets) => Ok(Frame::data(octets)),
        Err(_) => Err(io::Error::from(ErrorKind::OutOfMemory)),
    }
}

/// The head of a request that is passed on.
#[derive(Drop)]
pub(crate) struct Line {
    pub(crate) method: String,
    pub(crate) host: String,
    pub(crate) target: String,
    pub(crate) fields: Vec<(Vec<u8>, Vec<u8>)>,
}

/// The request to be sent. A content of unknown length comes in chunks, which its head says, since otherwise the library sends no
/// content with a HEAD. Returns `None` if a part of it is no valid HTTP, or if out of memory.
pub(crate) fn request_of(
    alloc: Global,
    line: &Line,
    content: Option<Coming>,
    whole: Option<Whole>,
) -> Option<Request<Sent>> {
    let is_chunked = matches!(&content, Some(coming) if coming.length.is_none());
    let Ok(method) = Method::from_bytes(alloc, line.method.as_bytes()) else {
        drop(content);
        drop(whole);
        return None;
    };
    let mut request = Request::builder(alloc)
        .method(method)
        .uri(line.target.as_str())
        .header(header::HOST, line.host.as_str())
        .body(Sent::new(line.method.as_str(), content, whole))
        .ok()?;
    match add_head(alloc, request.headers_mut(), line, is_chunked) {
        Some(()) => Some(request),
        None => {
            drop(request);
            None
        }
    }
}

// Adds the fields of this line, and that the content comes in chunks if it does. Returns `None` if one is no valid HTTP, or if out of
// memory.
fn add_head(alloc: Global, head: &mut HeaderMap, line: &Line, is_chunked: bool) -> Option<()> {
    add_fields(alloc, head, line.fields.as_slice())?;
    if is_chunked {
        add_field(alloc, head, b"transfer-encoding", b"chunked")?;
    }
    Some(())
}
