//! One request to a server, over a new connection or one that was kept.
ghost use Rattle.std.specs.Prelude.{◌≡◌, IfOk, IfSome, box_value};
ghost use Rattle.futures.specs.Poll.{IfReady, OnPending};
ghost use Rattle.futures.specs.Task.{Covers, Keeps};

use crate::dialer::{Connect, Reached};
use crate::fetching::{boxed, put};
use crate::kept::Kept;
use crate::moves::{Moves, Noted, Patience, Speed, Stillness};
use crate::reply::{Answer, Reply};
use futures::Future;
use futures::task::{Context, Poll};
use http_rules::{Admitted, may_retry};
use http_traffic::{FetchFault, Page};
use hyper::client::conn::http1::Parts;
use shared_thread::Paced;
use std::alloc::Global;
use std::net::SocketAddr;
use std::sync::Wait;
use std::time::Clock;

/// A page, and the share of the budget that its body takes.
pub struct Paid<P> {
    pub page: Page,
    pub purse: P,
    // Whether its connection may carry another request.
    lasts: bool,
    // Its connection, if it may.
    socket: Option<Paced>,
}

// Written by hand, as other drops of this file, so that what lets it go is one call for the prover (docs/GATE.md).
impl<P: Drop> Drop for Paid<P> {
    fn drop(self) {
        let Self {
            page,
            purse,
            lasts: _,
            socket,
        } = self;
        drop(page);
        drop(purse);
        drop(socket);
    }
}

impl<P: Drop> Paid<P> {
    /// A page with its share of the budget. `lasts` says whether its connection may carry another request, now that the body has been read.
    pub fn of(page: Page, purse: P, lasts: bool) -> Paid<P> {
        Paid {
            page,
            purse,
            lasts,
            socket: None,
        }
    }

    /// The page, and the share of the budget. A connection that was not kept is closed.
    pub fn into_parts(self) -> (Page, P) {
        let Paid {
            page,
            purse,
            lasts: _lasts,
            socket,
        } = self;
        drop(socket);
        (page, purse)
    }

    // This page, whose connection is kept if it may carry another request.
    fn with(self, socket: Option<Paced>) -> Paid<P> {
        let mut paid = self;
        if paid.lasts {
            put(&mut paid.socket, socket);
        } else {
            drop(socket);
        }
        paid
    }
}

/// Starts an exchange.
pub trait Talk: Drop {
    /// What the exchange brings.
    type Page: Drop;

    /// The future of the page.
    type Talking: Future<Output = Result<Self::Page, FetchFault>>;

    /// Starts the exchange over a new connection to this server. Returns `None` if the request cannot be made.
    fn talk(&mut self, server: Admitted, socket: Paced) -> Option<Self::Talking>
        ensures { IfSome result Self.Talking.can_poll };

    /// Starts the exchange over a connection to this server that was kept. Returns `None` if there is none, or if the request cannot be
    /// made.
    fn resume(&mut self, server: Admitted) -> Option<Self::Talking>
        ensures { IfSome result Self.Talking.can_poll };

    /// Whether the exchange, which has failed, may be started once more over a new connection.
    fn may_retry(&self, fault: FetchFault) -> bool;

    /// Whether the exchange, which has failed over a new connection, may be started once more at another address of the server.
    fn may_go_on(&self, fault: FetchFault) -> bool;

    /// Keeps the connection to this server that brought the page, if it may carry another request.
    fn keep(&mut self, server: Admitted, page: &mut Self::Page);
}

/// A future in a box, so that what has it is small where it is moved and cleared.
pub struct Aside<F> {
    future: Box<F>,
}

impl<F: Drop> Drop for Aside<F> {
    fn drop(self) {
        let Self { future } = self;
        drop(future);
    }
}

impl<F: Future> Aside<F> {
    /// This future. Returns `None` if there is none, or if out of memory.
    pub fn of(alloc: Global, future: Option<F>) -> Option<Aside<F>>
        requires { IfSome future F.can_poll }
        ensures { IfSome result (λ a. F.can_poll (box_value a.future)) }
    {
        let future = boxed(alloc, future?)?;
        Some(Aside { future })
    }
}

impl<F: Future> Future for Aside<F> {
    type Output = F::Output;

    ghost can_poll = { λ a. F.can_poll (box_value a.future) };

    fn poll(&mut self, cx: &mut Context<'_>) -> Poll<F::Output> {
        self.future.poll(cx)
    }
}

// Starts an exchange over a connection to the first of these addresses to which one was kept. `None` if there is none.
fn resumed_at<T: Talk>(servers: &[Admitted], talk: &mut T) -> Option<(Admitted, T::Talking)>
    ensures { IfSome result (λ it. T.Talking.can_poll it.1) }
{
    for server in servers {
        if let Some(talking) = talk.resume(*server) {
            return Some((*server, talking));
        }
    }
    None
}

/// Connects, then runs the exchange.
pub struct Call<C, T: Talk> {
    // The address that is connected, once one is.
    server: Option<Admitted>,
    connecting: Option<C>,
    talk: T,
    talking: Option<T::Talking>,
}

impl<C: Drop, T: Talk> Drop for Call<C, T> {
    fn drop(self) {
        let Self {
            server: _,
            connecting,
            talk,
            talking,
        } = self;
        drop(connecting);
        drop(talk);
        drop(talking);
    }
}

impl<C: Connect, T: Talk> Call<C, T> {
    /// A call over this connection that is being made; `None` fails, as out of memory.
    pub fn new(connecting: Option<C>, talk: T) -> Call<C, T>
        ensures { IfSome result.talking T.Talking.can_poll }
    {
        Call {
            server: None,
            connecting,
            talk,
            talking: None,
        }
    }

    /// A call that has begun, over a connection to the first of these addresses to which one was kept. Errors: the exchange, if there is
    /// none.
    pub fn over_kept(servers: &[Admitted], talk: T) -> Result<Call<C, T>, T>
        ensures { IfOk result (λ c. IfSome c.talking T.Talking.can_poll) }
    {
        let mut talk = talk;
        match resumed_at(servers, &mut talk) {
            Some((server, talking)) => Ok(Call::resumed(server, talk, talking)),
            None => Err(talk),
        }
    }

    // A call to this server that has begun, over a connection that was kept.
    fn resumed(server: Admitted, talk: T, talking: T::Talking) -> Call<C, T>
        requires { T.Talking.can_poll talking }
        ensures { IfSome result.talking T.Talking.can_poll }
    {
        Call {
            server: Some(server),
            connecting: None,
            talk,
            talking: Some(talking),
        }
    }

    // Waits for the connection, and begins the exchange over it. Errors: why there is none.
    fn poll_socket(&mut self, cx: &mut Context<'_>) -> Poll<Result<(), FetchFault>>
        ensures begun { IfReady result (λ begun. IfOk begun (λ _. IfSome self.new.talking T.Talking.can_poll)) }
        ensures same { OnPending result (self.new.talking ≡ self.old.talking) }
        ensures registered { OnPending result (Covers cx.new (λ _. ⊥)) }
        ensures kept { Keeps cx.old cx.new }
    {
        let Some(connecting) = &mut self.connecting else {
            return Poll::Ready(Err(FetchFault::NoMemory));
        };
        match connecting.poll_connected(cx) {
            Poll::Ready(connected) => Poll::Ready(self.begin(connected)),
            Poll::Pending => Poll::Pending,
        }
    }

    // Begins the exchange over this connection. Errors: there is none.
    fn begin(&mut self, connected: Result<Reached, FetchFault>) -> Result<(), FetchFault>
        ensures { IfOk result (λ _. IfSome self.new.talking T.Talking.can_poll) }
    {
        match connected {
            Ok(Reached { socket, server }) => {
                self.server = Some(server);
                let talking = self.talk.talk(server, socket);
                put(&mut self.talking, talking);
                Ok(())
            }
            Err(fault) => Err(fault),
        }
    }

    /// The address that is connected. `None` if none is.
    pub fn server(&self) -> Option<Admitted> {
        self.server
    }

    /// The exchange of this call, which has failed, to be started once more.
    pub fn into_talk(self) -> T {
        let Call {
            server: _server,
            connecting,
            talk,
            talking,
        } = self;
        drop(connecting);
        drop(talking);
        talk
    }

    /// Whether this call, which has failed so, may be made once more.
    pub fn may_retry(&self, fault: FetchFault) -> bool {
        self.talk.may_retry(fault)
    }

    /// Whether this call, which has failed so over a new connection, may be made at another address.
    pub fn may_go_on(&self, fault: FetchFault) -> bool {
        self.talk.may_go_on(fault)
    }

    /// Keeps the connection of this call, which brought this page.
    pub fn keep(&mut self, page: &mut T::Page)
        ensures { self.new.talking ≡ self.old.talking }
    {
        if let Some(server) = self.server {
            self.talk.keep(server, page);
        }
    }
}

impl<C: Connect, T: Talk> Future for Call<C, T> {
    type Output = Result<T::Page, FetchFault>;

    ghost can_poll = { λ c. IfSome c.talking T.Talking.can_poll };

    fn poll(&mut self, cx: &mut Context<'_>) -> Poll<Result<T::Page, FetchFault>> {
        if self.talking.is_none() {
            match self.poll_socket(cx) {
                Poll::Ready(Ok(())) => {}
                Poll::Ready(Err(fault)) => return Poll::Ready(Err(fault)),
                Poll::Pending => return Poll::Pending,
            }
        }
        match &mut self.talking {
            Some(talking) => talking.poll(cx),
            None => Poll::Ready(Err(FetchFault::Request)),
        }
    }
}

/// What a GET request asks for.
pub struct Asked {
    /// The value of its Host field.
    pub host: String,
    pub target: String,
    /// Its other fields.
    pub fields: Vec<(Vec<u8>, Vec<u8>)>,
}

impl Drop for Asked {
    fn drop(self) {
        let Self {
            host: _,
            target: _,
            fields: _,
        } = self;
    }
}

impl Asked {
    // Whether one of its fields is Authorization.
    fn has_credentials(&self) -> bool {
        for (name, _) in self.fields.as_slice() {
            if name.as_slice() == b"authorization".as_slice() {
                return true;
            }
        }
        false
    }

    // Takes the value of its Host field out.
    fn take_host(&mut self, alloc: Global) -> String {
        std::mem::replace(&mut self.host, String::new(alloc))
    }
}

/// Sends the request of a fetch over a connection. What makes fetches is generic over this, since what the library asks of the types of a
/// connection is laid out anew for the prover by each function that names them, and not behind a type parameter (docs/GATE.md).
pub trait Ask: Drop {
    /// What the content of the answer is paid for with.
    type Purse: Drop;

    /// Brings the answer.
    type Answer: Answer<Purse = Self::Purse>;

    /// The connection, which gives what is left of it.
    type Connection: Future<Output = hyper::Result<Parts<Noted>>>;

    /// Sends the request to this server. What pays for the answer's content notes that in `moves`. Returns `None` if a part of the request is
    /// no valid HTTP, or if out of memory.
    fn ask(
        &self,
        server: SocketAddr,
        noted: Noted,
        asked: &Asked,
        moves: &Moves,
    ) -> Option<(Self::Answer, Self::Connection)>
        ensures { IfSome result (λ ends. Self.Connection.can_poll ends.1) };
}

/// A GET request for one page, which `X` sends.
pub struct Get<R, X> {
    pub alloc: Global,
    pub http: X,
    pub asked: Asked,
    /// How long its connection may be without an octet.
    pub stillness: Stillness<R>,
    /// Where its connection is kept. None where none is.
    pub kept: Option<Kept<R>>,
    /// What is noted of the connection that was kept and that the exchange has begun on.
    pub used: Option<Moves>,
    /// What is noted of the new connection that it has begun on.
    pub fresh: Option<Moves>,
}

impl<R: Drop, X: Drop> Drop for Get<R, X> {
    fn drop(self) {
        let Self {
            alloc: _,
            http,
            asked,
            stillness,
            kept,
            used,
            fresh,
        } = self;
        drop(http);
        drop(asked);
        drop(stillness);
        drop(kept);
        drop(used);
        drop(fresh);
    }
}

impl<R: Wait + Clock + Copy, X: Ask> Get<R, X> {
    // Whether its connection may be kept: connections are, and the request has no credentials. There are servers that take those for
    // the credentials of all requests on their connection (RFC 9110, section 3.3), so that another client would be taken for this one.
    fn may_last(&self) -> bool {
        self.kept.is_some() && !self.asked.has_credentials()
    }

    // A connection to this server that was kept.
    fn kept_one(&self, server: Admitted) -> Option<Paced> {
        match &self.kept {
            Some(kept) => kept.take(server, self.asked.host.as_str()),
            None => None,
        }
    }

    // Starts the exchange over this connection to this server. Returns `None` if the request cannot be made.
    fn begin(
        &self,
        server: Admitted,
        noted: Noted,
        moves: &Moves,
    ) -> Option<Borne<R, X::Answer, X::Connection>>
        ensures { IfSome result (λ b. IfSome b.conn X.Connection.can_poll) }
    {
        let (answer, conn) = self.http.ask(server.address(), noted, &self.asked, moves)?;
        let reply = Reply::new(self.alloc, answer, self.may_last());
        let (patience, speed) = (self.stillness.patience(moves), self.stillness.speed(moves));
        Some(Borne::new(reply, conn, patience, speed))
    }
}

impl<R: Wait + Clock + Copy, P: Drop, X: Ask<Purse = P>> Talk for Get<R, X> {
    type Page = Paid<P>;

    type Talking = Aside<Borne<R, X::Answer, X::Connection>>;

    fn talk(&mut self, server: Admitted, socket: Paced) -> Option<Self::Talking> {
        put(&mut self.used, None);
        let Some((moves, other)) = Moves::pair(self.alloc) else {
            drop(socket);
            return None;
        };
        let begun = self.begin(server, Noted::new(socket, other), &moves);
        put(&mut self.fresh, Some(moves));
        Aside::of(self.alloc, begun)
    }

    fn resume(&mut self, server: Admitted) -> Option<Self::Talking> {
        let socket = self.kept_one(server)?;
        let Some((moves, other)) = Moves::pair(self.alloc) else {
            drop(socket);
            return None;
        };
        let begun = self.begin(server, Noted::used(socket, other), &moves);
        put(&mut self.used, Some(moves));
        Aside::of(self.alloc, begun)
    }

    fn may_retry(&self, fault: FetchFault) -> bool {
        match &self.used {
            Some(moves) => fault == FetchFault::Cut && may_retry("GET", true, moves.has_answer()),
            None => false,
        }
    }

    fn may_go_on(&self, fault: FetchFault) -> bool {
        match &self.fresh {
            Some(moves) => fault == FetchFault::Cut && may_retry("GET", true, moves.has_answer()),
            None => false,
        }
    }

    fn keep(&mut self, server: Admitted, page: &mut Paid<P>) {
        if let Some(kept) = &self.kept
            && let Some(socket) = page.socket.take()
        {
            let host = self.asked.take_host(self.alloc);
            kept.keep(server, host, socket);
        }
    }
}

/// A reply beside the connection that brings it, which is given back with the page once nothing of it is left unread. Ends with a fault
/// where nothing has moved on the connection for too long, or the content comes too slowly.
pub struct Borne<R, A, C> {
    reply: Reply<A>,
    conn: Option<C>,
    // What is left of the connection, once it has ended.
    left: Option<Parts<Noted>>,
    // None if it is not limited how long no octet may come.
    patience: Option<Patience<R>>,
    // None if the content may come as slowly as it likes.
    speed: Option<Speed<R>>,
}

impl<R: Drop, A: Drop, C: Drop> Drop for Borne<R, A, C> {
    fn drop(self) {
        let Self {
            reply,
            conn,
            left,
            patience,
            speed,
        } = self;
        drop(reply);
        drop(conn);
        drop(left);
        drop(patience);
        drop(speed);
    }
}

impl<R: Drop, A: Drop, C: Future> Borne<R, A, C> {
    /// Both, of which neither has ended, with this patience and this least speed.
    pub fn new(
        reply: Reply<A>,
        conn: C,
        patience: Option<Patience<R>>,
        speed: Option<Speed<R>>,
    ) -> Borne<R, A, C>
        requires { C.can_poll conn }
        ensures { IfSome result.conn C.can_poll }
    {
        Borne {
            reply,
            conn: Some(conn),
            left: None,
            patience,
            speed,
        }
    }
}

impl<R: Drop, A: Drop, C: Future<Output = hyper::Result<Parts<Noted>>>> Borne<R, A, C> {
    // Polls the connection, and keeps what is left of it once it has ended.
    fn poll_conn(&mut self, cx: &mut Context<'_>)
        requires { IfSome self.old.conn C.can_poll }
        ensures conn { IfSome self.new.conn C.can_poll }
        ensures kept { Keeps cx.old cx.new }
    {
        let Some(conn) = &mut self.conn else {
            return;
        };
        if let Poll::Ready(ended) = conn.poll(cx) {
            put(&mut self.conn, None);
            put(&mut self.left, ended.ok());
        }
    }
}

impl<R: Clock + Drop, A: Drop, C: Drop> Borne<R, A, C> {
    // Whether nothing has moved for too long.
    fn is_over(&mut self, cx: &mut Context<'_>) -> bool
        ensures kept { Keeps cx.old cx.new }
        ensures same { self.new.conn ≡ self.old.conn }
    {
        match &mut self.patience {
            Some(patience) => patience.is_over(cx),
            None => false,
        }
    }

    // Whether the content comes too slowly, once there is a head.
    fn is_slow(&mut self, cx: &mut Context<'_>) -> bool
        ensures kept { Keeps cx.old cx.new }
        ensures same { self.new.conn ≡ self.old.conn }
    {
        if !self.reply.has_head() {
            return false;
        }
        match &mut self.speed {
            Some(speed) => speed.is_over(cx),
            None => false,
        }
    }
}

// The connection itself, if nothing of it is left unread.
fn unspent(left: Option<Parts<Noted>>) -> Option<Paced> {
    let Parts { io, read_buf } = left?;
    let is_empty = read_buf.is_empty();
    drop(read_buf);
    if is_empty {
        Some(io.into_socket())
    } else {
        drop(io);
        None
    }
}

impl<
    R: Clock + Drop,
    P: Drop,
    A: Answer<Purse = P>,
    C: Future<Output = hyper::Result<Parts<Noted>>>,
> Future for Borne<R, A, C> {
    type Output = Result<Paid<P>, FetchFault>;

    ghost can_poll = { λ b. IfSome b.conn C.can_poll };

    fn poll(&mut self, cx: &mut Context<'_>) -> Poll<Result<Paid<P>, FetchFault>> {
        self.poll_conn(cx);
        match self.reply.poll(cx) {
            Poll::Ready(Ok(paid)) => Poll::Ready(Ok(paid.with(unspent(self.left.take())))),
            Poll::Ready(Err(fault)) => Poll::Ready(Err(fault)),
            Poll::Pending if self.is_over(cx) => Poll::Ready(Err(FetchFault::Time)),
            Poll::Pending if self.is_slow(cx) => Poll::Ready(Err(FetchFault::Slow)),
            Poll::Pending => Poll::Pending,
        }
    }
}

/// Polls `other` beside `first`, and returns what `first` returns. `other` is dropped with it, finished or not.
pub struct Beside<A, B> {
    first: A,
    other: Option<B>,
}

impl<A: Drop, B: Drop> Drop for Beside<A, B> {
    fn drop(self) {
        let Self { first, other } = self;
        drop(first);
        drop(other);
    }
}

impl<A: Future, B: Future> Beside<A, B> {
    /// Both, of which neither has ended.
    pub fn new(first: A, other: B) -> Beside<A, B>
        requires first { A.can_poll first }
        requires other { B.can_poll other }
        ensures { A.can_poll result.first × IfSome result.other B.can_poll }
    {
        Beside {
            first,
            other: Some(other),
        }
    }
}

impl<A: Drop, T: Drop, B: Future<Output = T>> Beside<A, B> {
    // Polls the other one until it ends.
    fn poll_other(&mut self, cx: &mut Context<'_>)
        requires { IfSome self.old.other B.can_poll }
        ensures other { IfSome self.new.other B.can_poll }
        ensures same { self.new.first ≡ self.old.first }
        ensures kept { Keeps cx.old cx.new }
    {
        let Some(other) = &mut self.other else {
            return;
        };
        if other.poll(cx).is_ready() {
            put(&mut self.other, None);
        }
    }
}

impl<A: Future, T: Drop, B: Future<Output = T>> Future for Beside<A, B> {
    type Output = A::Output;

    ghost can_poll = { λ b. A.can_poll b.first × IfSome b.other B.can_poll };

    fn poll(&mut self, cx: &mut Context<'_>) -> Poll<A::Output> {
        self.poll_other(cx);
        self.first.poll(cx)
    }
}
