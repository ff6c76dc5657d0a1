//! One request that is passed on as it is, over a connection of its own, its content and that of the answer as they come.
ghost use Rattle.std.specs.Prelude.{◌≡◌, IfSome, box_value};
ghost use Rattle.futures.specs.Poll.{OnPending};
ghost use Rattle.futures.specs.Task.{Covers, Keeps};

use crate::dialer::Dial;
use crate::exchange::{Aside, Beside, Talk};
use crate::fetching::{boxed, put};
use crate::moves::{Moves, Noted, Patience};
use crate::outlet::SharedOutlet;
use crate::reply::Head;
use crate::sending::{Line, Sent, Whole, request_of};
use crate::speaking::Deliverer;
use crate::visit::{Visit, Visited};
use futures::channel::mpsc;
use futures::task::{Context, Poll};
use futures::{Future, ready};
use http_content::Relayed;
use http_rules::Admitted;
use http_traffic::{
    Change, FetchFault, LeftChange, PassFault, Passage, PassageParts, Piece, Server, Ticket,
};
use hyper::Request;
use hyper::client::conn::http1;
use shared_thread::Paced;
use std::alloc::Global;
use std::time::{Clock, Duration};
use tokio::time::Handle;

// How long the answer to a request with an unsafe method is waited for whose client has gone, in seconds.
const LEFT_SECONDS: u64 = 5;

/// Brings the answer to a request, whose content is passed on. What passes on requests is generic over this, since the prover does not look
/// behind a type parameter (docs/GATE.md).
pub trait Bring: Drop {
    /// Waits for the head of the answer. Errors: why there is none.
    fn poll_head(&mut self, cx: &mut Context<'_>) -> Poll<Result<Head, FetchFault>>
        ensures registered { OnPending result (Covers cx.new (λ _. ⊥)) }
        ensures kept { Keeps cx.old cx.new };

    /// Has the content, after the head, passed on in these pieces.
    fn begin(&mut self, pieces: mpsc::Sender<Piece>);

    /// Goes on with the content. Ready once it has ended.
    fn poll_relay(&mut self, cx: &mut Context<'_>) -> Poll<Relayed>
        ensures registered { OnPending result (Covers cx.new (λ _. ⊥)) }
        ensures kept { Keeps cx.old cx.new };

    /// Whether the content waits for who takes it.
    fn is_full(&self) -> bool;
}

/// Sends a request of type `Q` that is passed on. What does so is generic over this, for the same reason as over `Bring`.
pub trait Deliver<Q>: Drop {
    /// Brings the answer.
    type Answer: Bring;

    /// The connection.
    type Connection: Future<Output = hyper::Result<()>>;

    /// Sends this request over this connection. Returns `None` if out of memory.
    fn deliver(&self, noted: Noted, request: Q) -> Option<(Self::Answer, Self::Connection)>
        ensures { IfSome result (λ ends. Self.Connection.can_poll ends.1) };

    /// Whether the request, whose connection has ended after some of an answer or without any, may be sent once more.
    fn may_repeat(&self, has_answer: bool) -> bool;

    /// The request once more. `None` if it has a content, or if out of memory.
    fn another(&self) -> Option<Q>;
}

/// Receives the answer and passes it on.
pub struct Answering<A> {
    alloc: Global,
    answer: A,
    outlet: SharedOutlet,
    // Whether the content is passed on: once there is a head that somebody wants.
    is_open: bool,
}

impl<A: Drop> Drop for Answering<A> {
    fn drop(self) {
        let Self {
            alloc: _,
            answer,
            outlet,
            is_open: _,
        } = self;
        drop(answer);
        drop(outlet);
    }
}

impl<A: Bring> Answering<A> {
    // Waits for the head of the answer, and passes it on as `begin` does. Errors: it is no answer to the request, or why there is none.
    fn poll_head(&mut self, cx: &mut Context<'_>) -> Poll<Result<(), FetchFault>>
        ensures registered { OnPending result (Covers cx.new (λ _. ⊥)) }
        ensures kept { Keeps cx.old cx.new }
    {
        match self.answer.poll_head(cx) {
            Poll::Ready(Ok(head)) => Poll::Ready(self.begin(head)),
            Poll::Ready(Err(fault)) => Poll::Ready(Err(fault)),
            Poll::Pending => Poll::Pending,
        }
    }

    // Passes on the head of an answer, and begins with its content, unless nobody wants it. Errors: it is no answer to the request.
    fn begin(&mut self, head: Head) -> Result<(), FetchFault> {
        if let Some(fault) = fault_of(&head) {
            drop(head);
            return Err(fault);
        }
        let (status, fields) = head.into_parts();
        if let Some(pieces) = self.outlet.open(self.alloc, status, fields) {
            self.answer.begin(pieces);
            self.is_open = true;
        }
        Ok(())
    }
}

// Why this is no head of an answer to a request.
fn fault_of(head: &Head) -> Option<FetchFault> {
    if head.is_foreign() {
        return Some(FetchFault::NotHttp);
    }
    if head.status < 200 {
        return Some(FetchFault::Cut);
    }
    None
}

impl<A: Bring> Future for Answering<A> {
    type Output = Result<(), FetchFault>;

    fn poll(&mut self, cx: &mut Context<'_>) -> Poll<Result<(), FetchFault>> {
        if !self.is_open {
            match self.poll_head(cx) {
                Poll::Ready(Ok(())) => {}
                Poll::Ready(Err(fault)) => return Poll::Ready(Err(fault)),
                Poll::Pending => return Poll::Pending,
            }
        }
        if !self.is_open {
            return Poll::Ready(Ok(()));
        }
        let polled = self.answer.poll_relay(cx);
        self.outlet.note_full(self.answer.is_full());
        match ready!(polled) {
            Relayed::Whole | Relayed::Broken | Relayed::Unwanted => Poll::Ready(Ok(())),
        }
    }
}

/// Sends one request as it is, which `Y` does.
pub struct Post<Y, Q> {
    alloc: Global,
    http: Y,
    // Until an exchange begins. None also if it cannot be made.
    request: Option<Q>,
    outlet: SharedOutlet,
    moves: Moves,
}

impl<Y: Drop, Q: Drop> Drop for Post<Y, Q> {
    fn drop(self) {
        let Self {
            alloc: _,
            http,
            request,
            outlet,
            moves,
        } = self;
        drop(http);
        drop(request);
        drop(outlet);
        drop(moves);
    }
}

impl<Q: Drop, Y: Deliver<Q>> Post<Y, Q> {
    // The request: made before, or once more. `None` if it cannot be made.
    fn next_request(&mut self) -> Option<Q> {
        match self.request.take() {
            Some(request) => Some(request),
            None => self.http.another(),
        }
    }
}

impl<Q: Drop, Y: Deliver<Q>> Talk for Post<Y, Q> {
    type Page = ();

    type Talking = Aside<Beside<Answering<Y::Answer>, Y::Connection>>;

    fn talk(&mut self, _server: Admitted, socket: Paced) -> Option<Self::Talking> {
        let Some(request) = self.next_request() else {
            drop(socket);
            return None;
        };
        let Some((moves, outlet)) = handles(&self.moves, &self.outlet) else {
            drop(request);
            drop(socket);
            return None;
        };
        let Some((answer, conn)) = self.http.deliver(Noted::new(socket, moves), request) else {
            drop(outlet);
            return None;
        };
        let answering = Answering {
            alloc: self.alloc,
            answer,
            outlet,
            is_open: false,
        };
        Aside::of(self.alloc, Some(Beside::new(answering, conn)))
    }

    // What is passed on has a connection of its own.
    fn resume(&mut self, _server: Admitted) -> Option<Self::Talking> {
        None
    }

    // Its server may have acted on it.
    fn may_retry(&self, _fault: FetchFault) -> bool {
        false
    }

    fn may_go_on(&self, fault: FetchFault) -> bool {
        fault == FetchFault::Cut && self.http.may_repeat(self.moves.has_answer())
    }

    fn keep(&mut self, _server: Admitted, _page: &mut ()) {}
}

// Other handles to both. Returns `None` if there are too many.
fn handles(moves: &Moves, outlet: &SharedOutlet) -> Option<(Moves, SharedOutlet)> {
    let moves = moves.share().ok()?;
    let outlet = outlet.share().ok()?;
    Some((moves, outlet))
}

/// Watches over a request that is passed on.
pub trait Watch: Drop {
    /// Says why there is no head, unless there was one, where the visit has ended without an exchange.
    fn end(&self, visited: &Visited<()>);

    /// Whether nobody wants the answer any more, or nothing has moved for too long.
    fn is_over(&mut self, cx: &mut Context<'_>) -> bool
        ensures kept { Keeps cx.old cx.new };

    /// What the request may have changed, once it has ended, if its client has gone before the head of its answer.
    fn left(&mut self) -> Option<Box<LeftChange>>;
}

/// Watches over a request that is passed on, with patience.
pub struct Watching<R> {
    alloc: Global,
    // None if out of memory.
    outlet: Option<SharedOutlet>,
    patience: Patience<R>,
    // What the request may change.
    change: Option<Change>,
    // Whether all of the request was sent. None if out of memory.
    whole: Option<Whole>,
    // How long the answer is waited for once the client has gone.
    leaving: Patience<R>,
    has_gone: bool,
}

impl<R: Drop> Drop for Watching<R> {
    fn drop(self) {
        let Self {
            alloc: _,
            outlet,
            patience,
            change,
            whole,
            leaving,
            has_gone: _,
        } = self;
        drop(outlet);
        drop(patience);
        drop(change);
        drop(whole);
        drop(leaving);
    }
}

impl<R: Clock + Drop> Watching<R> {
    // Says why there is no head, unless there was one.
    fn fail(&self, fault: PassFault) {
        if let Some(outlet) = &self.outlet {
            outlet.fail(fault);
        }
    }

    // Whether all of the request was sent. Where that is not known, it may have been.
    fn is_whole(&self) -> bool {
        match &self.whole {
            Some(whole) => whole.is_noted(),
            None => true,
        }
    }

    // Whether the answer is waited for no longer, which nobody wants any more: that to a request which may have changed something is, for
    // some time, until its head comes.
    fn is_left(&mut self, cx: &mut Context<'_>, is_before_head: bool) -> bool
        ensures kept { Keeps cx.old cx.new }
    {
        if !is_before_head || self.change.is_none() {
            return true;
        }
        self.has_gone = true;
        self.leaving.is_over(cx)
    }
}

impl<R: Clock + Drop> Watch for Watching<R> {
    fn end(&self, visited: &Visited<()>) {
        match visited {
            Visited::Whole(()) => {}
            Visited::Refused => self.fail(PassFault::Refused),
            Visited::Failed(fault) => self.fail(PassFault::Failed(*fault)),
        }
    }

    // The time does not pass while the answer waits for the client, whose own limits end that.
    fn is_over(&mut self, cx: &mut Context<'_>) -> bool {
        let Some(outlet) = &self.outlet else {
            return true;
        };
        if outlet.is_unwanted(cx) {
            let is_before_head = outlet.is_before_head();
            return self.is_left(cx, is_before_head);
        }
        if outlet.is_full() {
            self.patience.begin_anew();
            return false;
        }
        if self.patience.is_over(cx) {
            outlet.fail(PassFault::Failed(FetchFault::Time));
            return true;
        }
        false
    }

    fn left(&mut self) -> Option<Box<LeftChange>> {
        let outlet = self.outlet.as_ref()?;
        let (head, is_unheard) = (outlet.untaken(), outlet.is_unheard());
        if !self.has_gone && !is_unheard && head.is_none() {
            return None;
        }
        let Some(change) = self.change.take() else {
            drop(head);
            return None;
        };
        let left = LeftChange {
            change,
            is_whole: self.is_whole(),
            head,
        };
        boxed(self.alloc, left)
    }
}

/// How a request is passed on, once its server is known.
#[derive(Drop)]
pub struct Plan<W, T> {
    // None if out of memory.
    talk: Option<T>,
    watch: W,
    ticket: Ticket,
}

/// How this request is passed on. Without timers it fails, as out of memory.
pub fn plan_of<R: Clock + Copy>(
    rt: R,
    alloc: Global,
    http: http1::Builder,
    timers: Option<Handle>,
    passage: Passage,
) -> Plan<Watching<R>, Post<Deliverer, Request<Sent>>> {
    let PassageParts {
        method,
        host,
        target,
        fields,
        content,
        change,
        is_origin: _,
        still,
        head,
        pieces,
        ticket,
    } = passage.into_parts();
    let line = Line {
        method,
        host,
        target,
        fields,
    };
    let outlet = SharedOutlet::of(alloc, head, pieces);
    let moves = Moves::new(alloc).ok();
    let whole = Whole::new(alloc).ok();
    let is_bare = content.is_none();
    let request = request_of(alloc, &line, content, other_of(&whole));
    let http = Deliverer {
        alloc,
        http,
        again: kept_if(is_bare, line),
    };
    let others = match &timers {
        Some(timers) => timers.clone().ok(),
        None => None,
    };
    Plan {
        talk: post_of(alloc, http, request, &outlet, &moves),
        watch: Watching {
            alloc,
            outlet,
            patience: Patience::new(rt, timers, moves, still),
            change,
            whole,
            leaving: Patience::new(rt, others, None, Duration::from_secs(LEFT_SECONDS)),
            has_gone: false,
        },
        ticket,
    }
}

// This head if it is wanted.
fn kept_if(is_wanted: bool, line: Line) -> Option<Line> {
    if is_wanted {
        return Some(line);
    }
    drop(line);
    None
}

// Another handle to the same, if there is one.
fn other_of(whole: &Option<Whole>) -> Option<Whole> {
    match whole {
        Some(whole) => whole.share().ok(),
        None => None,
    }
}

// What sends this request. Returns `None` if out of memory.
fn post_of<Y: Drop, Q: Drop>(
    alloc: Global,
    http: Y,
    request: Option<Q>,
    outlet: &Option<SharedOutlet>,
    moves: &Option<Moves>,
) -> Option<Post<Y, Q>> {
    match handles_of(outlet, moves) {
        Some((moves, outlet)) => Some(Post {
            alloc,
            http,
            request,
            outlet,
            moves,
        }),
        None => {
            drop(request);
            drop(http);
            None
        }
    }
}

// Other handles to both, if both are there.
fn handles_of(
    outlet: &Option<SharedOutlet>,
    moves: &Option<Moves>,
) -> Option<(Moves, SharedOutlet)> {
    match (outlet, moves) {
        (Some(outlet), Some(moves)) => handles(moves, outlet),
        _ => None,
    }
}

/// A request that is being passed on. It has a result for its client alone.
pub struct Pass<W, D: Dial, T: Talk> {
    visit: Option<Box<Visit<D, T>>>,
    watch: W,
    // What it takes of those that may be under way, until it ends.
    ticket: Ticket,
}

impl<W: Drop, D: Dial, T: Talk> Drop for Pass<W, D, T> {
    fn drop(self) {
        let Self {
            visit,
            watch,
            ticket,
        } = self;
        drop(visit);
        drop(watch);
        drop(ticket);
    }
}

impl<W: Drop, D: Dial, T: Talk> Pass<W, D, T> {
    /// Begins to pass on a request to this server. Without a dialer it fails, as out of memory.
    pub fn new(alloc: Global, server: Server, dialer: Option<D>, plan: Plan<W, T>) -> Pass<W, D, T>
        ensures { IfSome result.visit (λ v. ⟦<Visit<D, T> as Future>⟧.can_poll (box_value v)) }
    {
        let Plan {
            talk,
            watch,
            ticket,
        } = plan;
        let visit = match talk {
            Some(talk) => boxed(alloc, Visit::new(alloc, server, dialer, talk)),
            None => {
                drop(dialer);
                drop(server);
                None
            }
        };
        Pass {
            visit,
            watch,
            ticket,
        }
    }
}

impl<W: Watch, D: Dial, T: Talk<Page = ()>> Future for Pass<W, D, T> {
    type Output = Option<Box<LeftChange>>;

    ghost can_poll = { λ p. IfSome p.visit (λ v. ⟦<Visit<D, T> as Future>⟧.can_poll (box_value v)) };

    fn poll(&mut self, cx: &mut Context<'_>) -> Poll<Option<Box<LeftChange>>> {
        let Some(visit) = &mut self.visit else {
            return Poll::Ready(None);
        };
        match visit.poll(cx) {
            Poll::Ready(visited) => {
                self.watch.end(&visited);
                Poll::Ready(self.watch.left())
            }
            Poll::Pending if self.watch.is_over(cx) => Poll::Ready(self.watch.left()),
            Poll::Pending => Poll::Pending,
        }
    }
}
