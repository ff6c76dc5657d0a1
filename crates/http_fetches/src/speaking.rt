//! How exchanges are made, on hyper.
ghost use Rattle.std.specs.Prelude.{IfSome};
ghost use Rattle.futures.specs.Poll.{OnPending};
ghost use Rattle.futures.specs.Task.{Covers, Keeps};

use crate::early::Offers;
use crate::exchange::{Ask, Asked};
use crate::fetching::put;
use crate::moves::{Moves, Noted};
use crate::passing::{Bring, Deliver};
use crate::reply::{Answer, Head};
use crate::sending;
use crate::sending::{Line, Sent};
use bytes::Bytes;
use futures::Future;
use futures::channel::mpsc;
use futures::task::{Context, Poll};
use http_body::Body;
use http_body_util::Empty;
use http_content::{Content, Gathered, Purse, ReadFault, Relay, Relayed, add_fields};
use http_rules::may_retry;
use http_traffic::{FetchFault, Piece};
use hyper::body::Incoming;
use hyper::client::conn::http1;
use hyper::client::conn::http1::{Connection, Parts, ResponseFuture, WithoutShutdown};
use hyper::{Request, Response, Version, header};
use std::alloc::Global;
use std::net::SocketAddr;

// Waits for the head of an answer. Errors: why there is none.
fn poll_response<I: Drop>(
    answer: &mut ResponseFuture<I>,
    cx: &mut Context<'_>,
) -> Poll<Result<(Head, Incoming<I>), FetchFault>>
    ensures registered { OnPending result (Covers cx.new (λ _. ⊥)) }
    ensures kept { Keeps cx.old cx.new }
{
    match answer.poll(cx) {
        Poll::Ready(Ok(response)) => Poll::Ready(Ok(taken_apart(response))),
        Poll::Ready(Err(error)) => {
            let fault = head_fault(&error);
            drop(error);
            Poll::Ready(Err(fault))
        }
        Poll::Pending => Poll::Pending,
    }
}

// The head of an answer, and its body.
fn taken_apart<I: Drop>(response: Response<Incoming<I>>) -> (Head, Incoming<I>) {
    let (parts, body) = response.into_parts();
    let head = Head {
        status: parts.status.as_u16(),
        is_newest: parts.version == Version::HTTP_11,
        fields: parts.headers,
    };
    (head, body)
}

// Why no head of an answer came.
fn head_fault(error: &hyper::Error) -> FetchFault {
    if error.is_out_of_memory() {
        FetchFault::NoMemory
    } else if error.is_parse_too_large() {
        FetchFault::LargeHead
    } else if error.is_parse() {
        FetchFault::NotHttp
    } else if error.is_user() {
        FetchFault::Request
    } else {
        FetchFault::Cut
    }
}

/// Knows how contents are to be read.
pub trait Meter: Drop {
    /// Pays for a content.
    type Purse: Purse;

    /// Is shown it.
    type Follower: Offers;

    /// How the content of an answer of this server is to be read. What pays for it notes that in `moves`.
    fn metered(&self, server: SocketAddr, moves: &Moves) -> Metered<Self::Purse, Self::Follower>;
}

/// How one content is to be read: at most `limit` octets of it. The purse pays for what is beyond the first `free`.
pub struct Metered<P, W> {
    pub alloc: Global,
    pub limit: usize,
    pub free: usize,
    /// None if out of memory.
    pub purse: Option<P>,
    pub follower: W,
}

// Written by hand, as other drops of this file, so that what lets it go is one call for the prover (docs/GATE.md).
impl<P: Drop, W: Drop> Drop for Metered<P, W> {
    fn drop(self) {
        let Self {
            alloc: _,
            limit: _,
            free: _,
            purse,
            follower,
        } = self;
        drop(purse);
        drop(follower);
    }
}

impl<P: Purse, W: Offers> Metered<P, W> {
    // Starts reading the body of an answer with this head.
    fn gather<I: Drop>(&mut self, head: &Head, body: Incoming<I>) -> Gathered<Incoming<I>, P, W> {
        let length = body.size_hint().exact();
        let follower = self.follower.of_answer(head.status, &head.fields, length);
        let purse = self.purse.take();
        Gathered::new(self.alloc, body, self.limit, self.free, purse, follower)
    }
}

/// Collects the content of an answer.
pub struct Collecting<I, P, W> {
    answer: ResponseFuture<I>,
    meter: Metered<P, W>,
    // The content, once there is a head.
    content: Option<Gathered<Incoming<I>, P, W>>,
}

impl<I: Drop, P: Drop, W: Drop> Drop for Collecting<I, P, W> {
    fn drop(self) {
        let Self {
            answer,
            meter,
            content,
        } = self;
        drop(answer);
        drop(content);
        drop(meter);
    }
}

impl<I: Drop, P: Purse, W: Offers> Collecting<I, P, W> {
    // Begins with the content of an answer with this head. Errors: it has a transfer coding other than chunked.
    fn begin(&mut self, head: &Head, body: Incoming<I>) -> Result<(), FetchFault> {
        if head.is_foreign() {
            drop(body);
            return Err(FetchFault::NotHttp);
        }
        let content = self.meter.gather(head, body);
        put(&mut self.content, Some(content));
        Ok(())
    }
}

impl<I: Drop, P: Purse, W: Offers> Answer for Collecting<I, P, W> {
    type Purse = P;

    fn poll_head(&mut self, cx: &mut Context<'_>) -> Poll<Result<Head, FetchFault>> {
        match poll_response(&mut self.answer, cx) {
            Poll::Ready(Ok((head, body))) => match self.begin(&head, body) {
                Ok(()) => Poll::Ready(Ok(head)),
                Err(fault) => {
                    drop(head);
                    Poll::Ready(Err(fault))
                }
            },
            Poll::Ready(Err(fault)) => Poll::Ready(Err(fault)),
            Poll::Pending => Poll::Pending,
        }
    }

    fn poll_content(&mut self, cx: &mut Context<'_>) -> Poll<Result<Content<P>, ReadFault>> {
        match &mut self.content {
            Some(content) => content.poll(cx),
            None => Poll::Ready(Err(ReadFault::NoMemory)),
        }
    }
}

/// Sends the requests of fetches, whose answers are read as `M` knows.
pub struct Asker<M> {
    pub alloc: Global,
    pub http: http1::Builder,
    pub meter: M,
}

impl<M: Drop> Drop for Asker<M> {
    fn drop(self) {
        let Self {
            alloc: _,
            http: _,
            meter: _,
        } = self;
    }
}

impl<M: Meter> Ask for Asker<M> {
    type Purse = M::Purse;

    type Answer = Collecting<Noted, M::Purse, M::Follower>;

    type Connection = Lasting;

    fn ask(
        &self,
        server: SocketAddr,
        noted: Noted,
        asked: &Asked,
        moves: &Moves,
    ) -> Option<(Self::Answer, Self::Connection)> {
        let Some(request) = request_of(self.alloc, asked) else {
            drop(noted);
            return None;
        };
        let (answer, conn) = asked_over(&self.http, noted, request)?;
        let answer = Collecting {
            answer,
            meter: self.meter.metered(server, moves),
            content: None,
        };
        Some((answer, conn))
    }
}

// The request to be sent. Returns `None` if a part of it is no valid HTTP, or if out of memory.
fn request_of(alloc: Global, asked: &Asked) -> Option<Request<Empty<Bytes>>> {
    let mut request = Request::get(alloc, asked.target.as_str())
        .header(header::HOST, asked.host.as_str())
        .body(Empty::<Bytes>::new())
        .ok()?;
    match add_fields(alloc, request.headers_mut(), asked.fields.as_slice()) {
        Some(()) => Some(request),
        None => {
            drop(request);
            None
        }
    }
}

// Sends this request over this connection. Returns `None` if out of memory.
fn asked_over(
    http: &http1::Builder,
    noted: Noted,
    request: Request<Empty<Bytes>>,
) -> Option<(ResponseFuture<Noted>, Lasting)>
    ensures { IfSome result (λ ends. ⟦<Lasting as Future>⟧.can_poll ends.1) }
{
    match http.handshake(noted) {
        Ok((sender, conn)) => {
            let mut sender = sender;
            let answer = sender.send_request(request);
            drop(sender);
            let conn = conn.without_shutdown();
            Some((answer, Lasting { conn }))
        }
        Err(error) => {
            drop(error);
            drop(request);
            None
        }
    }
}

/// The connection of a fetch, which gives what is left of it. Like `Closing`, it has no parameter: what the library asks of the types of
/// its parts would be compared anew wherever these types are given for a parameter.
pub struct Lasting {
    conn: WithoutShutdown<Noted, Empty<Bytes>>,
}

impl Drop for Lasting {
    fn drop(self) {
        let Self { conn } = self;
        drop(conn);
    }
}

impl Future for Lasting {
    type Output = hyper::Result<Parts<Noted>>;

    ghost can_poll = { λ l. ⟦<WithoutShutdown<Noted, Empty<Bytes>> as Future>⟧.can_poll l.conn };

    fn poll(&mut self, cx: &mut Context<'_>) -> Poll<hyper::Result<Parts<Noted>>> {
        self.conn.poll(cx)
    }
}

/// Passes on the content of an answer.
pub struct Relaying {
    alloc: Global,
    answer: ResponseFuture<Noted>,
    // The body, once there is a head and until it is passed on.
    body: Option<Incoming<Noted>>,
    relay: Option<Relay<Incoming<Noted>>>,
}

impl Drop for Relaying {
    fn drop(self) {
        let Self {
            alloc: _,
            answer,
            body,
            relay,
        } = self;
        drop(answer);
        drop(body);
        drop(relay);
    }
}

impl Bring for Relaying {
    fn poll_head(&mut self, cx: &mut Context<'_>) -> Poll<Result<Head, FetchFault>> {
        match poll_response(&mut self.answer, cx) {
            Poll::Ready(Ok((head, body))) => {
                put(&mut self.body, Some(body));
                Poll::Ready(Ok(head))
            }
            Poll::Ready(Err(fault)) => Poll::Ready(Err(fault)),
            Poll::Pending => Poll::Pending,
        }
    }

    fn begin(&mut self, pieces: mpsc::Sender<Piece>) {
        match self.body.take() {
            Some(body) => put(&mut self.relay, Some(Relay::new(self.alloc, body, pieces))),
            None => drop(pieces),
        }
    }

    fn poll_relay(&mut self, cx: &mut Context<'_>) -> Poll<Relayed> {
        match &mut self.relay {
            Some(relay) => relay.poll(cx),
            None => Poll::Ready(Relayed::Unwanted),
        }
    }

    fn is_full(&self) -> bool {
        match &self.relay {
            Some(relay) => relay.is_full(),
            None => false,
        }
    }
}

/// Sends requests that are passed on.
pub struct Deliverer {
    pub alloc: Global,
    pub http: http1::Builder,
    /// The head of a request without content, from which it can be made once more.
    pub(crate) again: Option<Line>,
}

impl Drop for Deliverer {
    fn drop(self) {
        let Self {
            alloc: _,
            http: _,
            again,
        } = self;
        drop(again);
    }
}

impl Deliver<Request<Sent>> for Deliverer {
    type Answer = Relaying;

    type Connection = Closing;

    fn deliver(
        &self,
        noted: Noted,
        request: Request<Sent>,
    ) -> Option<(Self::Answer, Self::Connection)> {
        match self.http.handshake(noted) {
            Ok((sender, conn)) => {
                let mut sender = sender;
                request.body().note_delivered();
                let answer = Relaying {
                    alloc: self.alloc,
                    answer: sender.send_request(request),
                    body: None,
                    relay: None,
                };
                drop(sender);
                Some((answer, Closing { conn }))
            }
            Err(error) => {
                drop(error);
                drop(request);
                None
            }
        }
    }

    fn may_repeat(&self, has_answer: bool) -> bool {
        match &self.again {
            Some(line) => may_retry(line.method.as_str(), true, has_answer),
            None => false,
        }
    }

    fn another(&self) -> Option<Request<Sent>> {
        match &self.again {
            Some(line) => sending::request_of(self.alloc, line, None, None),
            None => None,
        }
    }
}

/// The connection of a request that is passed on, which is closed at its end.
pub struct Closing {
    conn: Connection<Noted, Sent>,
}

impl Drop for Closing {
    fn drop(self) {
        let Self { conn } = self;
        drop(conn);
    }
}

impl Future for Closing {
    type Output = hyper::Result<()>;

    ghost can_poll = { λ c. ⟦<Connection<Noted, Sent> as Future>⟧.can_poll c.conn };

    fn poll(&mut self, cx: &mut Context<'_>) -> Poll<hyper::Result<()>> {
        self.conn.poll(cx)
    }
}
