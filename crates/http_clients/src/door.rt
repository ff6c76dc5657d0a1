//! The hyper service of one connection.
ghost use Rattle.std.specs.Prelude.{◌≡◌, IfSome, None, box_value};
ghost use Rattle.futures.specs.Poll.{OnPending};
ghost use Rattle.futures.specs.Task.{Covers, Keeps};

use crate::account::{Account, SharedFacts, Telling};
use crate::reply::Reply;
use crate::requests::{Given, OwnAnswer, Serves, TextKind};
use crate::responses::{announce_close, bare, response_of};
use crate::tunnel::KeepTunnel;
use crate::upload::{Pieces, RelayContent, Upload};
use client_streams::{SharedStage, Stage};
use futures::channel::oneshot;
use futures::task::{Context, Poll};
use futures::{Future, ready};
use http_body::Body;
use http_content::{AtMost, Ending, Heard, Read, Relayed, has_foreign_coding};
use http_traffic::{Asked, Coming, Early, Road};
use hyper::body::Incoming;
use hyper::service::Service;
use hyper::{Request, Response, Uri, Version, header};
use std::alloc::{AllocError, Global};
use std::convert::Infallible;
use std::net::IpAddr;

// The octets of a target that are made room for at once.
const USUAL_TARGET: usize = 128;

/// Passes the requests of one connection to `answers`, which is shared by all connections.
pub(crate) struct Door<H, K> {
    pub(crate) alloc: Global,
    pub(crate) answers: H,
    /// The client's address.
    pub(crate) from: IpAddr,
    pub(crate) facts: SharedFacts<K>,
    pub(crate) stage: SharedStage,
    /// The most octets of a request's content; more is refused with 413.
    pub(crate) limit: usize,
}

// Written by hand, so that what lets it go is one call for the prover (docs/GATE.md).
impl<H: Drop, K: Drop> Drop for Door<H, K> {
    fn drop(self) {
        let Self {
            alloc: _,
            answers: _,
            from: _,
            facts: _,
            stage: _,
            limit: _,
        } = self;
    }
}

impl<H: Serves<K>, K: KeepTunnel> Door<H, K> {
    // The request to be answered, as yet without its content. Returns `None` if out of memory.
    fn keep(&self, parts: http::request::Parts) -> Option<Asked> {
        let Some((method, target)) = self.line(&parts) else {
            drop(parts);
            return None;
        };
        let http::request::Parts {
            method: sent,
            uri,
            version,
            headers,
        } = parts;
        drop(sent);
        drop(uri);
        Some(Asked {
            method,
            target,
            head: headers,
            content: Vec::new(self.alloc),
            from: self.from,
            is_old: version != Version::HTTP_11,
        })
    }

    // The method and the target of a request. Returns `None` if out of memory.
    fn line(&self, parts: &http::request::Parts) -> Option<(String, String)> {
        let has_no_path = self.stage.take_no_path();
        let method = String::from_str(self.alloc, parts.method.as_str()).ok()?;
        let mut target = target_of(self.alloc, &parts.uri).ok()?;
        if has_no_path && is_about_a_root(parts) {
            // The library has put the path `/` there.
            let _ = target.pop();
        }
        Some((method, target))
    }

    // Asks for the tunnel that the request opens. Errors: the status to answer.
    fn tunnel(&self) -> Result<oneshot::Receiver<Result<(), u16>>, u16> {
        self.stage.set(Stage::Asked);
        let end = self.answers.tunnel(&self.facts)?;
        match self.facts.want_tunnel(self.alloc, end) {
            Some(tunnel) => Ok(tunnel),
            None => Err(503),
        }
    }
}

impl<I: Drop, H: Serves<K>, K: KeepTunnel> Service<Request<Incoming<I>>> for Door<H, K> {
    type Response = Response<Reply<Telling<H, K>, Upload<I>>>;

    type Error = Infallible;

    type Future = Serving<Telling<H, K>, AtMost<I, Pieces>, Upload<I>>;

    fn call(&self, req: Request<Incoming<I>>) -> Self::Future {
        let (parts, body) = req.into_parts();
        let way = self.way(&parts, body.size_hint().lower());
        if let Ok(Road::Passed) = way {
            return self.pass(parts, body);
        }
        let is_empty = body.size_hint().exact() == Some(0);
        let heard = Heard::new(body, Pieces(self.stage.share().ok()));
        let reader: AtMost<I, Pieces> = AtMost::new(self.alloc, self.limit);
        let serving = self.take(way, parts, heard, is_empty, &reader);
        drop(reader);
        serving
    }
}

impl<H: Serves<K>, K: KeepTunnel> Door<H, K> {
    // How this request is taken, whose content has at least so many octets. Errors: the status that refuses it before its content is
    // read. A content that is passed on may have no transfer coding but chunked (RFC 9112, section 6.1).
    fn way(&self, parts: &http::request::Parts, least: u64) -> Result<Road, u16> {
        let road = self.answers.road(parts.method.as_str())?;
        if road == Road::Passed {
            return if has_foreign_coding(&parts.headers) {
                Err(501)
            } else {
                Ok(road)
            };
        }
        if (self.limit as u64) < least {
            Err(413)
        } else {
            Ok(road)
        }
    }

    // A response that neither reads the content nor waits for an answer, as yet: 503, after which the connection closes if the content
    // is in chunks.
    fn serving<T: Read, U: RelayContent>(
        &self,
        parts: http::request::Parts,
    ) -> Serving<Telling<H, K>, T, U>
        ensures { (result.content ≡ None) × (result.answering ≡ None) }
    {
        let is_coded = parts.headers.contains_key(header::TRANSFER_ENCODING);
        // (RFC 9112, section 9.3, for a proxy's clients)
        let is_old = parts.version != Version::HTTP_11;
        self.stage.set(Stage::Content);
        Serving {
            alloc: self.alloc,
            stage: self.stage.share().ok(),
            is_last: is_coded || is_old,
            telling: Telling::new(&self.answers, &self.facts, self.keep(parts)),
            refusal: 503,
            tunnel: None,
            content: None,
            upload: None,
            answering: None,
        }
    }

    // Takes a request that is not passed on, in this way. `reader` reads its content if that is collected.
    fn take<T: Read, U: RelayContent>(
        &self,
        way: Result<Road, u16>,
        parts: http::request::Parts,
        body: T::Body,
        is_empty: bool,
        reader: &T,
    ) -> Serving<Telling<H, K>, T, U>
        ensures { ⟦<Serving<Telling<H, K>, T, U> as Future>⟧.can_poll result }
    {
        match way {
            Ok(Road::Tunnel) => {
                let serving = self.open(parts);
                drop(body);
                serving
            }
            Ok(_) => self.collect(parts, body, is_empty, reader),
            Err(status) => {
                let mut serving = self.serving(parts);
                serving.turn_down(status);
                drop(body);
                serving
            }
        }
    }

    // Opens a tunnel. Where it is refused, the connection ends: what stands behind the request was meant for the tunnel, and is no request.
    fn open<T: Read, U: RelayContent>(
        &self,
        parts: http::request::Parts,
    ) -> Serving<Telling<H, K>, T, U>
        ensures { (result.content ≡ None) × (result.answering ≡ None) }
    {
        let mut serving = self.serving(parts);
        match self.tunnel() {
            Ok(tunnel) => serving.tunnel = Some(tunnel),
            Err(status) => serving.turn_down(status),
        }
        serving
    }

    // Collects the content of a request by `reader`, and answers it then; at once if it has none, or is refused whatever it is.
    fn collect<T: Read, U: RelayContent>(
        &self,
        parts: http::request::Parts,
        body: T::Body,
        is_empty: bool,
        reader: &T,
    ) -> Serving<Telling<H, K>, T, U>
        ensures { ⟦<Serving<Telling<H, K>, T, U> as Future>⟧.can_poll result }
    {
        let mut serving = self.serving(parts);
        if is_empty || self.answers.refuses(&self.facts) {
            self.stage.set(Stage::Asked);
            serving.answering = begin(&serving.telling, Vec::new(self.alloc));
            serving.is_last = serving.is_last || !is_empty;
            drop(body);
            return serving;
        }
        let reading = reader.read(body);
        serving.content = boxed(self.alloc, reading);
        serving
    }

    // Passes on a request, and its content as it comes if it has one.
    fn pass<I: Drop, T: Read>(
        &self,
        parts: http::request::Parts,
        body: Incoming<I>,
    ) -> Serving<Telling<H, K>, T, Upload<I>>
        ensures { (result.content ≡ None) × (IfSome result.answering H.Answering.can_poll) }
    {
        let length = body.size_hint().exact();
        let mut serving = self.serving(parts);
        if length == Some(0) {
            self.stage.set(Stage::Asked);
            serving.answering = pass_on(&serving.telling, None);
            drop(body);
            return serving;
        }
        match self.upload(body, length) {
            Some((upload, coming)) => {
                serving.answering = pass_on(&serving.telling, Some(coming));
                serving.upload = Some(upload);
            }
            None => serving.is_last = true,
        }
        serving
    }

    // What passes on this content, of this length if that is known. Returns `None` if out of memory.
    fn upload<I: Drop>(
        &self,
        body: Incoming<I>,
        length: Option<u64>,
    ) -> Option<(Box<Upload<I>>, Coming)> {
        let heard = Heard::new(body, Pieces(self.stage.share().ok()));
        let stage = self.stage.share().ok();
        Upload::new(self.alloc, heard, length, stage)
    }
}

/// The future of one response: reads the content, then waits for the answer; or passes on the content while it waits for the answer.
pub(crate) struct Serving<L: Account, T: Read, U> {
    alloc: Global,
    stage: Option<SharedStage>,
    is_last: bool,
    // What becomes of the request, which is told. `None` if there are too many handles.
    telling: Option<L>,
    // The status if the request is refused without being passed on.
    refusal: u16,
    // Receives whether the server of a tunnel is connected, or the status to answer.
    tunnel: Option<oneshot::Receiver<Result<(), u16>>>,
    content: Option<Box<T::Reading>>,
    // The content that is passed on, until it is complete.
    upload: Option<Box<U>>,
    answering: Option<L::Answering>,
}

// Written by hand, so that what lets it go is one call for the prover (docs/GATE.md).
impl<L: Account, T: Read, U: Drop> Drop for Serving<L, T, U> {
    fn drop(self) {
        let Self {
            alloc: _,
            stage: _,
            is_last: _,
            telling: _,
            refusal: _,
            tunnel: _,
            content: _,
            upload: _,
            answering: _,
        } = self;
    }
}

impl<L: Account, T: Read, U: RelayContent> Serving<L, T, U> {
    // The response, after which the connection is idle again. Status 503 if it cannot be made. A capture is the last response of
    // its connection, which stays at the stage in which nothing is awaited of the client. So it does while an answer is passed on. A
    // response before the end of its request's content is the connection's last.
    fn respond(&mut self, given: Given) -> Response<Reply<L, U>> {
        let is_passed = self.passes_content(&given);
        self.note_given(&given, is_passed);
        let mut response: Response<Reply<L, U>> = match response_of(self.alloc, given) {
            Some(response) => response,
            None => bare(self.alloc, 503),
        };
        if self.is_last {
            announce_close(response.headers_mut());
        }
        if is_passed {
            response
                .body_mut()
                .attend(self.upload.take(), self.stage.take());
        }
        self.hand_over(&mut response);
        response
    }

    // Notes that the response with this content begins, and whether it is its connection's last.
    fn note_given(&mut self, given: &Given, is_passed: bool) {
        if let Given::Own(OwnAnswer::Capture(_)) = given {
            self.is_last = true;
        } else if let Some(stage) = &self.stage
            && !is_passed
        {
            stage.set(Stage::Idle);
        }
        if self.upload.is_some() {
            self.is_last = true;
        }
        if let Some(telling) = &self.telling {
            telling.note_answer();
        }
    }

    // Whether the response is one that is passed on and has a content (RFC 9110, section 6.4.1).
    fn passes_content(&self, given: &Given) -> bool {
        match given {
            Given::Passed(answer) => {
                !matches!(answer.head.status, 204 | 205 | 304) && !is_for_head(&self.telling)
            }
            Given::Early { .. } => true,
            _ => false,
        }
    }

    // Passes on what has come of the content. Returns whether it is broken.
    fn is_broken(&mut self, cx: &mut Context<'_>) -> bool
        ensures kept { Keeps cx.old cx.new }
        ensures same { (self.new.content ≡ self.old.content) × (self.new.answering ≡ self.old.answering) }
    {
        let Some(upload) = &mut self.upload else {
            return false;
        };
        let Poll::Ready(relayed) = upload.poll_relay(cx) else {
            return false;
        };
        drop(self.upload.take());
        if relayed == Relayed::Unwanted {
            self.is_last = true;
        }
        relayed == Relayed::Broken
    }

    // Leaves it to the body of the response to tell what becomes of the request.
    fn hand_over(&mut self, response: &mut Response<Reply<L, U>>) {
        let Some(mut telling) = self.telling.take() else {
            return;
        };
        let status = response.status().as_u16();
        let is_empty = matches!(status, 204 | 304) || response.body().is_empty();
        telling.note_response(status, self.is_last, is_empty);
        response.body_mut().account_to(telling);
    }

    // Notes that the request is refused with this status, and its connection closed, because of its content or of what was to follow.
    fn turn_down(&mut self, status: u16)
        ensures { (self.new.content ≡ self.old.content) × (self.new.answering ≡ self.old.answering) }
    {
        self.is_last = true;
        self.refusal = status;
    }

    // Waits for the tunnel that the request opens. Returns whether it is open. Where it is not, the connection ends with the response.
    fn poll_tunnel(&mut self, cx: &mut Context<'_>) -> Poll<bool>
        ensures same { (self.new.content ≡ self.old.content) × (self.new.answering ≡ self.old.answering) }
        ensures registered { OnPending result (Covers cx.new (λ _. ⊥)) }
        ensures kept { Keeps cx.old cx.new }
    {
        let Some(tunnel) = &mut self.tunnel else {
            return Poll::Ready(false);
        };
        match ready!(tunnel.poll(cx)) {
            Ok(Ok(())) => return Poll::Ready(true),
            Ok(Err(status)) => self.turn_down(status),
            Err(_) => self.turn_down(503),
        }
        Poll::Ready(false)
    }

    // Waits for the whole content, if it is collected, and begins to answer the request then.
    fn poll_content(&mut self, cx: &mut Context<'_>) -> Poll<()>
        requires content { IfSome self.old.content (λ c. T.Reading.can_poll (box_value c)) }
        requires answering { IfSome self.old.answering L.Answering.can_poll }
        ensures content { IfSome self.new.content (λ c. T.Reading.can_poll (box_value c)) }
        ensures answering { IfSome self.new.answering L.Answering.can_poll }
        ensures registered { OnPending result (Covers cx.new (λ _. ⊥)) }
        ensures kept { Keeps cx.old cx.new }
    {
        let Some(mut content) = self.content.take() else {
            return Poll::Ready(());
        };
        let Poll::Ready(collected) = content.poll(cx) else {
            self.content = Some(content);
            return Poll::Pending;
        };
        self.take_up(collected);
        drop(content);
        Poll::Ready(())
    }

    // Begins to answer the request whose content was read like this, or turns it down.
    fn take_up(&mut self, collected: Ending)
        requires { IfSome self.old.answering L.Answering.can_poll }
        ensures content { self.new.content ≡ self.old.content }
        ensures answering { IfSome self.new.answering L.Answering.can_poll }
    {
        if let Some(stage) = &self.stage {
            stage.set(Stage::Asked);
        }
        match collected {
            Ending::Whole(content) => self.answering = begin(&self.telling, content),
            Ending::TooLong => self.turn_down(413),
            Ending::Broken => self.turn_down(400),
        }
    }

    // The response that opens a tunnel. Nothing is awaited of the client until its socket is taken over.
    fn agree(&mut self) -> Response<Reply<L, U>> {
        if let Some(telling) = &self.telling {
            telling.note_answer();
        }
        let mut response: Response<Reply<L, U>> = bare(self.alloc, 200);
        self.hand_over(&mut response);
        response
    }

    // The response to a request that is not passed on.
    fn refuse(&mut self) -> Response<Reply<L, U>> {
        let status = self.refusal;
        let text = match &self.telling {
            Some(telling) => telling.failure(self.alloc, status),
            None => Vec::new(self.alloc),
        };
        self.respond(Given::Own(OwnAnswer::Text {
            status,
            text,
            kind: TextKind::Plain,
        }))
    }
}

impl<L: Account, T: Read, U: RelayContent> Future for Serving<L, T, U> {
    type Output = Result<Response<Reply<L, U>>, Infallible>;

    ghost can_poll = { λ w. IfSome w.content (λ c. T.Reading.can_poll (box_value c))
        × IfSome w.answering L.Answering.can_poll };

    fn poll(&mut self, cx: &mut Context<'_>) -> Poll<Result<Response<Reply<L, U>>, Infallible>> {
        if ready!(self.poll_tunnel(cx)) {
            return Poll::Ready(Ok(self.agree()));
        }
        ready!(self.poll_content(cx));
        if self.is_broken(cx) {
            self.turn_down(400);
            drop(self.answering.take());
        }
        let Some(answering) = &mut self.answering else {
            return Poll::Ready(Ok(self.refuse()));
        };
        let given = ready!(answering.poll(cx));
        Poll::Ready(Ok(self.respond(given)))
    }
}

// The target of a request as it is written (RFC 3986, section 5.3). Errors: out of memory.
fn target_of(alloc: Global, uri: &Uri) -> Result<String, AllocError> {
    let mut text = String::with_capacity(alloc, USUAL_TARGET)?;
    write_origin(&mut text, uri)?;
    write_path(&mut text, uri)?;
    Ok(text)
}

// Whether a request is an OPTIONS with the path `/` and no query.
fn is_about_a_root(parts: &http::request::Parts) -> bool {
    parts.method.as_str() == "OPTIONS" && parts.uri.path() == "/" && parts.uri.query().is_none()
}

// Writes the scheme and the authority of a target, as far as it has them. Errors: out of memory.
fn write_origin(text: &mut String, uri: &Uri) -> Result<(), AllocError> {
    if let Some(scheme) = uri.scheme_str() {
        text.push_str(scheme)?;
        text.push_str("://")?;
    }
    if let Some(authority) = uri.authority() {
        text.push_str(authority.as_str())?;
    }
    Ok(())
}

// Writes the path of a target, and its query if it has one. Errors: out of memory.
fn write_path(text: &mut String, uri: &Uri) -> Result<(), AllocError> {
    text.push_str(uri.path())?;
    if let Some(query) = uri.query() {
        text.push_str("?")?;
        text.push_str(query)?;
    }
    Ok(())
}

// A future in a box. Returns `None` if out of memory.
fn boxed<F: Future>(alloc: Global, future: F) -> Option<Box<F>>
    requires { F.can_poll future }
    ensures { IfSome result (λ f. F.can_poll (box_value f)) }
{
    Box::new(alloc, future).ok()
}

// Passes on a request whose content is complete. Returns `None` if out of memory.
fn begin<L: Account>(telling: &Option<L>, content: Vec<u8>) -> Option<L::Answering>
    ensures { IfSome result L.Answering.can_poll }
{
    match telling {
        Some(telling) => telling.begin(content),
        None => None,
    }
}

// Passes on a request, whose content comes by and by. Returns `None` if out of memory.
fn pass_on<L: Account>(telling: &Option<L>, content: Option<Coming>) -> Option<L::Answering>
    ensures { IfSome result L.Answering.can_poll }
{
    let Some(telling) = telling else {
        drop(content);
        return None;
    };
    telling.pass(content)
}

// Whether the response is to a HEAD request.
fn is_for_head<L: Account>(telling: &Option<L>) -> bool {
    match telling {
        Some(telling) => telling.is_for_head(),
        None => false,
    }
}
