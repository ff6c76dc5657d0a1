//! The reply of a server: its head, then its content.
ghost use Rattle.futures.specs.Poll.{OnPending};
ghost use Rattle.futures.specs.Task.{Covers, Keeps};

use crate::exchange::Paid;
use crate::fetching::put;
use futures::Future;
use futures::task::{Context, Poll};
use http_content::{Content, ReadFault, has_foreign_coding};
use http_rules::lasts;
use http_traffic::{FetchFault, Page};
use hyper::HeaderMap;
use std::alloc::Global;

/// The head of an answer.
pub struct Head {
    pub status: u16,
    /// Whether its version is HTTP/1.1.
    pub is_newest: bool,
    pub fields: HeaderMap,
}

// Written by hand, so that what lets it go is one call for the prover (docs/GATE.md).
impl Drop for Head {
    fn drop(self) {
        let Self {
            status: _,
            is_newest: _,
            fields: _,
        } = self;
    }
}

impl Head {
    /// Whether it announces a transfer coding other than chunked.
    pub fn is_foreign(&self) -> bool {
        has_foreign_coding(&self.fields)
    }

    /// The status, and the fields.
    pub fn into_parts(self) -> (u16, HeaderMap) {
        let Self {
            status,
            is_newest: _is_newest,
            fields,
        } = self;
        (status, fields)
    }

    // Whether its connection may carry another request once the content has been read.
    fn lasts(&self, alloc: Global) -> bool {
        lasts(alloc, self.is_newest, self.status, &self.fields).unwrap_or(false)
    }
}

/// Brings the answer to a request, whose content it collects. What waits for one is generic over this, since the prover does not look behind
/// a type parameter (docs/GATE.md).
pub trait Answer: Drop {
    /// What the content is paid for with.
    type Purse: Drop;

    /// Waits for the head of the answer, and begins with its content. Errors: why there is none.
    fn poll_head(&mut self, cx: &mut Context<'_>) -> Poll<Result<Head, FetchFault>>
        ensures registered { OnPending result (Covers cx.new (λ _. ⊥)) }
        ensures kept { Keeps cx.old cx.new };

    /// Waits for the content, after the head. Errors: why there is none.
    fn poll_content(
        &mut self,
        cx: &mut Context<'_>,
    ) -> Poll<Result<Content<Self::Purse>, ReadFault>>
        ensures registered { OnPending result (Covers cx.new (λ _. ⊥)) }
        ensures kept { Keeps cx.old cx.new };
}

/// Receives the head of an answer, then its content.
pub struct Reply<A> {
    alloc: Global,
    answer: A,
    head: Option<Head>,
    // Whether the connection may carry another request once the content has been read: until there is a head, whether it may be kept at
    // all, which it may not be for a request with credentials.
    lasts: bool,
}

impl<A: Drop> Drop for Reply<A> {
    fn drop(self) {
        let Self {
            alloc: _,
            answer,
            head,
            lasts: _,
        } = self;
        drop(answer);
        drop(head);
    }
}

impl<A: Drop> Reply<A> {
    /// Nothing has come as yet. `may_last` says whether connections are kept at all.
    pub fn new(alloc: Global, answer: A, may_last: bool) -> Reply<A> {
        Reply {
            alloc,
            answer,
            head: None,
            lasts: may_last,
        }
    }

    /// Whether its head has come, and its content is being read.
    pub fn has_head(&self) -> bool {
        self.head.is_some()
    }

    // Keeps the head, which has come.
    fn keep(&mut self, head: Head) {
        self.lasts = self.lasts && head.lasts(self.alloc);
        put(&mut self.head, Some(head));
    }

    // The page of the head and this content. There is a head wherever there is a content; without one the exchange failed.
    fn page<P: Drop>(&mut self, content: Content<P>) -> Result<Paid<P>, FetchFault> {
        match self.head.take() {
            Some(head) => Ok(paid_page(head, content, self.lasts)),
            None => {
                drop(content);
                Err(FetchFault::NotHttp)
            }
        }
    }
}

impl<P: Drop, A: Answer<Purse = P>> Future for Reply<A> {
    type Output = Result<Paid<P>, FetchFault>;

    fn poll(&mut self, cx: &mut Context<'_>) -> Poll<Result<Paid<P>, FetchFault>> {
        if self.head.is_none() {
            match self.answer.poll_head(cx) {
                Poll::Ready(Ok(head)) => self.keep(head),
                Poll::Ready(Err(fault)) => return Poll::Ready(Err(fault)),
                Poll::Pending => return Poll::Pending,
            }
        }
        match self.answer.poll_content(cx) {
            Poll::Ready(Ok(content)) => Poll::Ready(self.page(content)),
            Poll::Ready(Err(fault)) => Poll::Ready(Err(body_fault(fault))),
            Poll::Pending => Poll::Pending,
        }
    }
}

// Why no whole content came.
fn body_fault(fault: ReadFault) -> FetchFault {
    match fault {
        ReadFault::TooLong => FetchFault::TooLarge,
        ReadFault::Broken => FetchFault::Cut,
        ReadFault::NoMemory => FetchFault::NoMemory,
    }
}

// The page of this head and this content, whose connection may carry another request if it lasts.
fn paid_page<P: Drop>(head: Head, content: Content<P>, lasts: bool) -> Paid<P> {
    let (status, head) = head.into_parts();
    let Content {
        octets: body,
        purse,
    } = content;
    Paid::of(Page { status, head, body }, purse, lasts)
}
