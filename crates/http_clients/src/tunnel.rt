//! Tunnels, which clients open by CONNECT (RFC 9110, section 9.3.6): the way to the server.
ghost use Rattle.std.specs.Prelude.{IfOk, IfSome};
ghost use Rattle.futures.specs.Poll.{OnPending};
ghost use Rattle.futures.specs.Task.{Covers, Keeps};
ghost use Rattle.http_traffic.specs.Judged.{AllJudged};

use crate::requests::Answers;
use bytes::BytesMut;
use client_streams::Patience;
use dialing::{Connected, DialFault, Dialing, Judge, admitted_by, poll_addresses};
use futures::channel::oneshot;
use futures::task::{Context, Poll};
use futures::{Future, ready};
use http_rules::Admitted;
use http_traffic::{Addresses, AdmitFault, AdmittedAddresses, Server, Ticket, TunnelEnd};
use httparse::Status;
use httparse::spans::{EMPTY_HEADER_SPAN, parse_response};
use server_connections::ServerConnections;
use shared_thread::Paced;
use std::alloc::{AllocError, Global};
use std::mem;
use std::net::{Net, SocketAddr};
use std::sync::{Arc, Wait};
use std::time::{Clock, Duration, Instant};
use tokio::io::{poll_read_buf, poll_write_buf};
use tokio::net::TcpStream;
use tokio::runtime::Handle;
use tokio::time::Timeout;
use tokio::time::error::Elapsed;

/// How many octets one read of a tunnel may bring. So many are held for each direction, or what the client has sent behind its request,
/// which is at most what the HTTP connection holds.
pub(crate) const PIECE: usize = 16 * 1024;

// The most octets of a parent's head.
const MOST_HEAD: usize = 8 * 1024;

// The most fields of a parent's head.
const MOST_FIELDS: usize = 128;

/// A tunnel that a request asks for.
#[derive(Drop)]
pub(crate) struct Wanted {
    /// Where it leads.
    pub(crate) end: TunnelEnd,
    /// Takes whether its server is connected, or the status to answer.
    pub(crate) done: oneshot::Sender<Result<(), u16>>,
}

/// A tunnel whose server is connected.
#[derive(Drop)]
pub(crate) struct Opened {
    pub(crate) server: Paced,
    /// What came from the server behind a parent's head.
    pub(crate) early: BytesMut,
    /// For how long it may stand still.
    pub(crate) still: Duration,
    pub(crate) ticket: Ticket,
}

/// Keeps the tunnel that a request asks for. What has it is generic over this, since the prover does not look behind a type parameter
/// (docs/GATE.md).
pub(crate) trait KeepTunnel: Drop {
    /// Keeps none.
    fn empty() -> Self;

    /// Keeps a tunnel that is asked for, until its way is begun.
    fn put_wanted(&mut self, wanted: Box<Wanted>);

    /// Takes the tunnel that is asked for.
    fn take_wanted(&mut self) -> Option<Box<Wanted>>;

    /// Keeps a tunnel from its connection to the server until the HTTP connection has handed over its socket.
    fn put_opened(&mut self, opened: Box<Opened>);

    /// Takes the tunnel whose server is connected.
    fn take_opened(&mut self) -> Option<Box<Opened>>;

    /// Whether it keeps a tunnel whose server is connected.
    fn is_opened(&self) -> bool;
}

/// The tunnel that a request asks for, and the one whose server is connected.
#[derive(Drop)]
pub(crate) struct KeptTunnel {
    wanted: Option<Box<Wanted>>,
    opened: Option<Box<Opened>>,
}

impl KeepTunnel for KeptTunnel {
    fn empty() -> KeptTunnel {
        KeptTunnel {
            wanted: None,
            opened: None,
        }
    }

    fn put_wanted(&mut self, wanted: Box<Wanted>) {
        drop(self.wanted.replace(wanted));
    }

    fn take_wanted(&mut self) -> Option<Box<Wanted>> {
        self.wanted.take()
    }

    fn put_opened(&mut self, opened: Box<Opened>) {
        drop(self.opened.replace(opened));
    }

    fn take_opened(&mut self) -> Option<Box<Opened>> {
        self.opened.take()
    }

    fn is_opened(&self) -> bool {
        self.opened.is_some()
    }
}

/// What connects tunnels.
pub(crate) struct Dialer<R> {
    rt: R,
    alloc: Global,
    handle: Handle,
}

// Written by hand, so that what lets it go is one call for the prover (docs/GATE.md).
impl<R: Drop> Drop for Dialer<R> {
    fn drop(self) {
        let Self {
            rt: _,
            alloc: _,
            handle: _,
        } = self;
    }
}

impl<R: Clock + Copy> Dialer<R> {
    /// Connects on the event loop of this handle. Errors: out of memory.
    pub(crate) fn new(rt: R, alloc: Global, handle: &Handle) -> Result<Dialer<R>, AllocError> {
        Ok(Dialer {
            rt,
            alloc,
            handle: handle.clone()?,
        })
    }

    /// Another one for the same event loop. Errors: out of memory.
    pub(crate) fn share(&self) -> Result<Dialer<R>, AllocError> {
        Dialer::new(self.rt, self.alloc, &self.handle)
    }

    /// The time. `None` if the clock cannot be read.
    pub(crate) fn now(&self) -> Option<Instant> {
        Instant::now(&self.rt).ok()
    }

    // Waits for the addresses of this server, with a timeout. Returns `None` if out of memory.
    fn seek(&self, server: Server, limit: Duration) -> Option<Timeout<Seeking>> {
        let seeking = Seeking {
            alloc: self.alloc,
            server,
        };
        self.handle.time().timeout(&self.rt, limit, seeking).ok()
    }

    // Greets what this connection leads to, with a timeout. Returns `None` if out of memory.
    fn greet(
        &self,
        socket: TcpStream,
        greeting: Option<Vec<u8>>,
        limit: Duration,
    ) -> Option<Timeout<Greeting>> {
        let greeting = Greeting::new(self.alloc, socket, greeting)?;
        self.handle.time().timeout(&self.rt, limit, greeting).ok()
    }

    // A timeout that has not started. Errors: out of memory.
    pub(crate) fn patience(&self) -> Result<Patience<R>, AllocError> {
        Ok(Patience::new(self.rt, self.handle.time().clone()?))
    }
}

// Waits for the addresses of a server. `None` if its name has none, or if out of memory.
#[derive(Drop)]
struct Seeking {
    alloc: Global,
    server: Server,
}

impl Future for Seeking {
    type Output = Option<Addresses>;

    fn poll(&mut self, cx: &mut Context<'_>) -> Poll<Option<Addresses>> {
        Poll::Ready(ready!(poll_addresses(self.alloc, &mut self.server, cx)).ok())
    }
}

// A connection that leads to the server of a tunnel, and what came over it already.
#[derive(Drop)]
struct Reached {
    socket: TcpStream,
    early: BytesMut,
}

// Sends a greeting, if there is one, and reads the head that answers it. `None` if the tunnel is refused, or if the connection ends.
struct Greeting {
    socket: Option<TcpStream>,
    // What is left to be sent.
    unsent: BytesMut,
    // Whether a head has to come.
    is_answered: bool,
    head: BytesMut,
    alloc: Global,
}

// Written by hand, so that what lets it go is one call for the prover (docs/GATE.md).
impl Drop for Greeting {
    fn drop(self) {
        let Self {
            socket: _,
            unsent: _,
            is_answered: _,
            head: _,
            alloc: _,
        } = self;
    }
}

impl Greeting {
    // Returns `None` if out of memory.
    fn new(alloc: Global, socket: TcpStream, greeting: Option<Vec<u8>>) -> Option<Greeting> {
        let _ = socket.set_nodelay(true);
        let Ok(head) = BytesMut::with_capacity(alloc, PIECE) else {
            drop(socket);
            return None;
        };
        let is_answered = greeting.is_some();
        Some(Greeting {
            socket: Some(socket),
            unsent: BytesMut::from_vec(greeting.unwrap_or(Vec::new(alloc))),
            is_answered,
            head,
            alloc,
        })
    }

    // Waits until the greeting is sent. Returns whether it is.
    fn poll_sent(&mut self, cx: &mut Context<'_>) -> Poll<bool>
        ensures registered { OnPending result (Covers cx.new (λ _. ⊥)) }
        ensures kept { Keeps cx.old cx.new }
    {
        if self.unsent.is_empty() {
            return Poll::Ready(true);
        }
        let Some(socket) = &mut self.socket else {
            return Poll::Ready(false);
        };
        match ready!(poll_write_buf(socket, cx, &mut self.unsent)) {
            Ok(count) if 0 < count => cx.yield_now(),
            _ => Poll::Ready(false),
        }
    }

    // Waits for the whole head of a parent that agrees. Returns its length, or `None` if there is none.
    fn poll_head(&mut self, cx: &mut Context<'_>) -> Poll<Option<usize>>
        ensures registered { OnPending result (Covers cx.new (λ _. ⊥)) }
        ensures kept { Keeps cx.old cx.new }
    {
        match answer_in(self.head.as_slice()) {
            Answered::Yes(length) => return Poll::Ready(Some(length)),
            Answered::No => return Poll::Ready(None),
            Answered::NotYet => {}
        }
        let Some(socket) = &mut self.socket else {
            return Poll::Ready(None);
        };
        match ready!(poll_read_buf(socket, cx, &mut self.head)) {
            Ok(count) if 0 < count => cx.yield_now(),
            _ => Poll::Ready(None),
        }
    }

    // The connection, and what came behind so many octets of a head. `None` if it was taken before.
    fn reached(&mut self, length: usize) -> Option<Reached> {
        let length = length.min(self.head.len());
        self.head.advance(length);
        Some(Reached {
            socket: self.socket.take()?,
            early: mem::replace(&mut self.head, BytesMut::new(self.alloc)),
        })
    }
}

impl Future for Greeting {
    type Output = Option<Reached>;

    fn poll(&mut self, cx: &mut Context<'_>) -> Poll<Option<Reached>> {
        if !ready!(self.poll_sent(cx)) {
            return Poll::Ready(None);
        }
        if !self.is_answered {
            return Poll::Ready(self.reached(0));
        }
        match ready!(self.poll_head(cx)) {
            Some(length) => Poll::Ready(self.reached(length)),
            None => Poll::Ready(None),
        }
    }
}

// What a parent answers to CONNECT by what has come of its head.
enum Answered {
    // The tunnel is opened: the status is one from 200 to 299. With the length of the head.
    Yes(usize),
    // It is not, or what comes is no head, or too long a one.
    No,
    // The head is not complete.
    NotYet,
}

// What these octets, which a parent has sent, say.
fn answer_in(octets: &[u8]) -> Answered {
    let mut fields = [EMPTY_HEADER_SPAN; MOST_FIELDS];
    match parse_response(octets, &mut fields) {
        Ok(Status::Complete(head)) if head.code / 100 == 2 && head.len <= MOST_HEAD => {
            Answered::Yes(head.len)
        }
        Ok(Status::Partial) if octets.len() < MOST_HEAD => Answered::NotYet,
        _ => Answered::No,
    }
}

/// The way to the server of a tunnel: its addresses are awaited, admitted if they have to be, and connected side by side; a parent is greeted.
/// Each of these has the time to connect. Errors: the status to answer: 403 if
/// no address is admitted, 504 if time runs out, 503 without memory, 502 if there is no way otherwise.
pub(crate) struct Opening<R, H> {
    dialer: Dialer<R>,
    answers: H,
    is_origin: bool,
    connecting: Duration,
    still: Duration,
    greeting: Option<Vec<u8>>,
    ticket: Option<Ticket>,
    // Until it is connected.
    places: Option<Arc<ServerConnections>>,
    // Each until it is ready.
    seeking: Option<Timeout<Seeking>>,
    reaching: Option<Dialing<R>>,
    greeted: Option<Timeout<Greeting>>,
}

// Written by hand, so that what lets it go is one call for the prover (docs/GATE.md).
impl<R: Drop, H: Drop> Drop for Opening<R, H> {
    fn drop(self) {
        let Self {
            dialer,
            answers,
            is_origin: _,
            connecting: _,
            still: _,
            greeting,
            ticket,
            places,
            seeking,
            reaching,
            greeted,
        } = self;
        drop(dialer);
        drop(answers);
        drop(greeting);
        drop(ticket);
        drop(places);
        drop(seeking);
        drop(reaching);
        drop(greeted);
    }
}

impl<R, H: Answers> Judge for Opening<R, H> {
    ghost judges = { λ opening. opening.is_origin };

    fn admitted(&self, server: SocketAddr) -> Option<Admitted> {
        if self.is_origin {
            Some(Admitted::origin(self.answers.admitted(server)?))
        } else {
            Some(Admitted::neighbour(server))
        }
    }
}

impl<R: Clock + Copy, H: Answers> Opening<R, H> {
    /// The way to this end.
    pub(crate) fn new(dialer: Dialer<R>, answers: H, end: TunnelEnd) -> Opening<R, H> {
        let TunnelEnd {
            server,
            greeting,
            is_origin,
            still,
            connecting,
            ticket,
            places,
        } = end;
        let seeking = dialer.seek(server, connecting);
        Opening {
            dialer,
            answers,
            is_origin,
            connecting,
            still,
            greeting,
            ticket: Some(ticket),
            places: Some(places),
            seeking,
            reaching: None,
            greeted: None,
        }
    }

    // Those of these addresses that a tunnel may lead to. Errors: the status to answer.
    fn servers(&self, found: Addresses) -> Result<AdmittedAddresses, u16>
        ensures judged { IfOk result (λ those. AllJudged self.now.is_origin those.list.items) }
    {
        match admitted_by(self.dialer.alloc, self, found) {
            Ok(servers) => Ok(servers),
            Err(AdmitFault::Refused) => Err(403),
            Err(AdmitFault::NoMemory) => Err(503),
        }
    }

    // Begins to greet what this connection leads to.
    fn greet(&mut self, socket: TcpStream) {
        let greeting = self.greeting.take();
        let greeted = self.dialer.greet(socket, greeting, self.connecting);
        drop(mem::replace(&mut self.greeted, greeted));
    }

    // Waits for the end of the greeting. Errors: the status to answer.
    fn poll_greeted(&mut self, cx: &mut Context<'_>) -> Poll<Result<Box<Opened>, u16>>
        ensures registered { OnPending result (Covers cx.new (λ _. ⊥)) }
        ensures kept { Keeps cx.old cx.new }
    {
        let Some(greeted) = &mut self.greeted else {
            return Poll::Ready(Err(503));
        };
        match ready!(greeted.poll(cx)) {
            Ok(Some(reached)) => Poll::Ready(self.opened(reached)),
            Ok(None) => Poll::Ready(Err(502)),
            Err(_elapsed) => Poll::Ready(Err(504)),
        }
    }

    // The tunnel, whose server is connected by this. Errors: 503 without memory, or without a ticket, which is taken once.
    fn opened(&mut self, reached: Reached) -> Result<Box<Opened>, u16> {
        let Some(ticket) = self.ticket.take() else {
            drop(reached);
            return Err(503);
        };
        let Reached { socket, early } = reached;
        let opened = Opened {
            server: Paced::new(socket, PIECE),
            early,
            still: self.still,
            ticket,
        };
        match Box::new(self.dialer.alloc, opened) {
            Ok(opened) => Ok(opened),
            Err(_) => Err(503),
        }
    }
}

impl<R: Net + Wait + Clock + Copy, H: Answers> Opening<R, H> {
    // Waits for the addresses of the server, and begins to connect them. Errors: the status to answer.
    fn poll_address(&mut self, cx: &mut Context<'_>) -> Poll<Result<(), u16>>
        ensures registered { OnPending result (Covers cx.new (λ _. ⊥)) }
        ensures kept { Keeps cx.old cx.new }
    {
        let Some(seeking) = &mut self.seeking else {
            return Poll::Ready(Ok(()));
        };
        let sought = ready!(seeking.poll(cx));
        drop(self.seeking.take());
        match servers_of(sought) {
            Ok(servers) => Poll::Ready(self.connect(servers)),
            Err(status) => Poll::Ready(Err(status)),
        }
    }

    // Begins to connect those of these addresses that are admitted. Errors: the status to answer.
    fn connect(&mut self, servers: Addresses) -> Result<(), u16>
        ensures judged { IfOk result (λ _. IfSome self.new.reaching (λ dialing. AllJudged self.new.is_origin dialing.servers.list.items)) }
    {
        let servers = self.servers(servers)?;
        let Some(places) = self.places.take() else {
            drop(servers);
            return Err(503);
        };
        let (rt, alloc) = (self.dialer.rt, self.dialer.alloc);
        let handle = &self.dialer.handle;
        let reaching = Dialing::new(rt, alloc, handle, servers, places, self.connecting);
        drop(mem::replace(&mut self.reaching, reaching));
        Ok(())
    }

    // Waits for the connection, and begins to greet what it leads to. Errors: the status to answer.
    fn poll_connection(&mut self, cx: &mut Context<'_>) -> Poll<Result<(), u16>>
        ensures registered { OnPending result (Covers cx.new (λ _. ⊥)) }
        ensures kept { Keeps cx.old cx.new }
    {
        let Some(reaching) = &mut self.reaching else {
            return Poll::Ready(Ok(()));
        };
        let reached = ready!(reaching.poll(cx));
        drop(self.reaching.take());
        match socket_of(reached) {
            Ok(socket) => {
                self.greet(socket);
                Poll::Ready(Ok(()))
            }
            Err(status) => Poll::Ready(Err(status)),
        }
    }
}

// The addresses of a server that were sought for so long as there was. Errors: the status to answer.
fn servers_of(sought: Result<Option<Addresses>, Elapsed>) -> Result<Addresses, u16> {
    match sought {
        Ok(Some(servers)) => Ok(servers),
        Ok(None) => Err(502),
        Err(_elapsed) => Err(504),
    }
}

// The connection that was awaited. Errors: the status to answer.
fn socket_of(reached: Result<Connected, DialFault>) -> Result<TcpStream, u16> {
    match reached {
        Ok(Connected { socket, server: _ }) => Ok(socket),
        Err(DialFault::Failed) => Err(502),
        Err(DialFault::Late) => Err(504),
        Err(DialFault::NoMemory) => Err(503),
    }
}

/// A way to the server of a tunnel. What goes it is generic over it, since the prover does not look behind a type parameter (docs/GATE.md).
pub(crate) trait Reach: Drop {
    /// Goes on. Ready with the tunnel once its server is connected. Errors: the status to answer.
    fn poll_reached(&mut self, cx: &mut Context<'_>) -> Poll<Result<Box<Opened>, u16>>
        ensures registered { OnPending result (Covers cx.new (λ _. ⊥)) }
        ensures kept { Keeps cx.old cx.new };
}

impl<R: Net + Wait + Clock + Copy, H: Answers> Reach for Opening<R, H> {
    fn poll_reached(&mut self, cx: &mut Context<'_>) -> Poll<Result<Box<Opened>, u16>> {
        if let Err(status) = ready!(self.poll_address(cx)) {
            return Poll::Ready(Err(status));
        }
        if let Err(status) = ready!(self.poll_connection(cx)) {
            return Poll::Ready(Err(status));
        }
        self.poll_greeted(cx)
    }
}
