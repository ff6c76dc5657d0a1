//! An HTTP server that runs on the calling thread.

use crate::account::{SharedFacts, Telling, tell_refused};
use crate::connection::{Connections, OfClient};
use crate::copying::{Copying, HandOver};
use crate::door::Door;
use crate::requests::{Answers, Serves};
use crate::texts::{FORBIDDEN, forbidden};
use crate::tunnel::{Dialer, KeepTunnel, KeptTunnel, Opening};
use crate::watched::{Counted, OfWatching, Tunnels, Watch, Watched, Watching};
use client_streams::{
    Accept, AcceptedClients, ClientLimits, Listeners, Patient, Refusal, SeatShare, SharedStage,
    Stops, StreamTimeouts, seat_shares,
};
use crossbeam_channel::Sender;
use futures::Future;
use futures::future::Either;
use futures::task::{Context, Poll};
use hyper::rt::{Timer, TokioTimer};
use hyper::server::conn::http1;
use std::alloc::{AllocError, AllocGlobal, Global};
use std::hash::RandomState;
use std::marker::PhantomData;
use std::net::{IpAddr, Ipv6Addr, Net, SocketAddr, SocketAddrV6};
use std::random::RandomSource;
use std::sync::atomic::AtomicUsize;
use std::sync::{Arc, Wait};
use std::time::{Clock, Duration};
use std::{io, net};
use tokio::net::{TcpListener, TcpStream};
use tokio::runtime::{Handle, LocalRuntime};

/// Limits of a server.
#[derive(Clone, Copy)]
pub struct ServeLimits {
    /// How long a client may stay silent.
    pub still: StreamTimeouts,
    /// The concurrent connections of clients, on all threads that serve them. A client that is not admitted is none of these: it is closed
    /// once its 403 is sent.
    pub connections: ClientLimits,
    /// How long open connections may continue after the server is told to stop.
    pub grace: Duration,
    /// The most octets of a request's content.
    pub content: usize,
}

/// A thread's handle to a listening socket, or to two, and its part in the seats of the clients that come there.
#[derive(Drop)]
pub struct ClientSocket {
    /// The socket.
    pub listener: net::TcpListener,
    /// The socket at an address of IPv6, if there is one.
    pub six: Option<net::TcpListener>,
    /// The seats.
    pub seats: SeatShare,
}

impl ClientSocket {
    /// Listens at this address, for one thread. Errors: the socket cannot be bound, or out of memory.
    pub fn bind<R: Net + AllocGlobal>(
        rt: &R,
        address: SocketAddr,
        limits: ClientLimits,
    ) -> io::Result<ClientSocket> {
        Ok(ClientSocket {
            listener: listen(rt, address)?,
            six: None,
            seats: SeatShare::alone(rt.alloc(), limits)?,
        })
    }
}

/// Listens at this address, once for so many threads, which have these limits together. Returns the handle of each. Errors: the socket
/// cannot be bound, there are no more descriptors, or out of memory.
pub fn client_sockets<R: Net + AllocGlobal>(
    rt: &R,
    address: SocketAddr,
    limits: ClientLimits,
    threads: usize,
) -> io::Result<Vec<ClientSocket>> {
    let bound = listen(rt, address)?;
    let mut sockets = Vec::with_capacity(rt.alloc(), threads)?;
    for seats in seat_shares(rt.alloc(), limits, threads)? {
        let listener = bound.try_clone()?;
        sockets.push(ClientSocket {
            listener,
            six: None,
            seats,
        })?;
    }
    Ok(sockets)
}

/// Has the threads with these sockets also listen at this address of IPv6, once for all of them, at the port that they listen at. Errors: the
/// socket cannot be bound, or there are no more descriptors.
pub fn listen_at_six<R: Net>(
    rt: &R,
    sockets: &mut [ClientSocket],
    address: Ipv6Addr,
) -> io::Result<()> {
    let Some(first) = sockets.first() else {
        return Ok(());
    };
    let port = first.listener.local_addr()?.port();
    let bound = listen(rt, SocketAddr::V6(SocketAddrV6::new(address, port, 0, 0)))?;
    for socket in sockets.iter_mut() {
        socket.six = Some(bound.try_clone()?);
    }
    Ok(())
}

// A listening socket with the longest queue that the system allows, whose accept does not block.
fn listen<R: Net>(rt: &R, address: SocketAddr) -> io::Result<net::TcpListener> {
    Ok(net::TcpListener::from(mio::net::TcpListener::bind(rt, address)?))
}

// Makes the HTTP connection of each client.
#[derive(Drop)]
struct Http<R, H, B, K, I, W> {
    rt: R,
    alloc: Global,
    handle: Handle,
    limits: ServeLimits,
    builder: B,
    answers: H,
    // How many connections are open, where that is counted.
    open: Option<Arc<AtomicUsize>>,
    // Until the server is open.
    bound: Option<Bound>,
    // Of these there is one for each client: what keeps its tunnel, its socket, and what goes on beside its connection.
    kept: PhantomData<K>,
    socket: PhantomData<I>,
    watch: PhantomData<W>,
}

// Where a server listens, and who is told so once it is open.
#[derive(Drop)]
struct Bound {
    address: SocketAddr,
    to: Sender<SocketAddr, Global>,
}

// A client that is served, as `K` does it, or refused. A type of its own, since its parts have large ones that are elaborated anew wherever
// they are named; for the same reason it is generic over `K` (docs/GATE.md).
struct Client<K, R> {
    serving: Either<K, Refusal<R>>,
}

// Written by hand, so that what lets it go is one call for the prover (docs/GATE.md).
impl<K: Drop, R: Drop> Drop for Client<K, R> {
    fn drop(self) {
        let Self { serving } = self;
        drop(serving);
    }
}

impl<K: Future<Output = ()>, R: Clock + Copy> Future for Client<K, R> {
    type Output = ();

    ghost can_poll = { λ c. ⟦<Either<K, Refusal<R>> as Future>⟧.can_poll c.serving };

    fn poll(&mut self, cx: &mut Context<'_>) -> Poll<()> {
        self.serving.poll(cx)
    }
}

// What goes on beside a connection `C`, and after it.
type Beside<C, R, H, K> = Tunnels<
    Watching<R, H, K>,
    Opening<R, H>,
    Copying<<C as HandOver>::Socket, R, Telling<H, K>>,
>;

impl<R, H, B, K, I, W> Accept for Http<R, H, B, K, I, W>
where
    R: Wait + Net + Clock + Copy,
    H: Answers,
    B: Connections<I, H, K>,
    K: KeepTunnel,
    I: OfClient<R>,
    W: Watch<B::Connection> + OfWatching<Watching<R, H, K>>,
{
    type Serving = Client<Watched<B::Connection, W>, R>;

    fn opened(&mut self) {
        if let Some(bound) = self.bound.take() {
            let _ = bound.to.send(&self.rt, bound.address);
        }
    }

    fn has_seat(&self, address: SocketAddr) -> bool {
        self.answers.allows(address.ip())
    }

    fn accept(
        &self,
        socket: TcpStream,
        address: SocketAddr,
        stage: SharedStage,
    ) -> Option<Self::Serving> {
        let _ = socket.set_nodelay(true);
        let from = address.ip();
        if !self.answers.allows(from) {
            let refusal = self.refuse(socket, from, stage)?;
            return Some(Client {
                serving: Either::Right(refusal),
            });
        }
        let (door, watching, client) = self.parts(socket, from, stage)?;
        let inner = self.builder.serve(client, door);
        let watched = Watched::new(self.alloc, inner, W::of(watching));
        Some(Client {
            serving: Either::Left(watched),
        })
    }
}

impl<R: Clock + Copy, H: Answers, B, K: KeepTunnel, I: OfClient<R>, W> Http<R, H, B, K, I, W> {
    // Refuses the client at this address, which is told so. Returns `None` if out of memory.
    fn refuse(&self, socket: TcpStream, from: IpAddr, stage: SharedStage) -> Option<Refusal<R>> {
        let Ok(text) = forbidden(self.alloc) else {
            drop(stage);
            drop(socket);
            return None;
        };
        let Some(patient) = <Patient<R>>::over(
            self.rt,
            &self.handle,
            socket,
            self.limits.still,
            stage,
        ) else {
            drop(text);
            return None;
        };
        self.answers.note_answer();
        tell_refused(&self.answers, from, FORBIDDEN.len() as u64);
        Some(Refusal::new(patient, text))
    }

    // What serves the client at this address. Returns `None` if out of memory.
    fn parts(
        &self,
        socket: TcpStream,
        from: IpAddr,
        stage: SharedStage,
    ) -> Option<(Door<H, K>, Watching<R, H, K>, I)> {
        let Ok(shared) = stage.share() else {
            drop(stage);
            drop(socket);
            return None;
        };
        let Some((door, watching)) = self.watched_door(from, stage) else {
            drop(shared);
            drop(socket);
            return None;
        };
        match I::over(self.rt, &self.handle, socket, self.limits.still, shared) {
            Some(client) => Some((door, watching, client)),
            None => {
                drop(watching);
                drop(door);
                None
            }
        }
    }

    // The service of a connection from this address, and what watches over it. Returns `None` if out of memory.
    fn watched_door(
        &self,
        from: IpAddr,
        stage: SharedStage,
    ) -> Option<(Door<H, K>, Watching<R, H, K>)> {
        let door = self.door(from, stage)?;
        match self.watching(&door.facts) {
            Some(watching) => Some((door, watching)),
            None => {
                drop(door);
                None
            }
        }
    }

    // What watches over the connection of these facts. Returns `None` if out of memory.
    fn watching(&self, facts: &SharedFacts<K>) -> Option<Watching<R, H, K>> {
        let facts = facts.share().ok()?;
        let Some((dialer, answers)) = self.means() else {
            drop(facts);
            return None;
        };
        Some(Watching {
            alloc: self.alloc,
            dialer,
            answers,
            facts,
            counted: self.counted(),
        })
    }

    // What connects the tunnels of a client, and what answers it. Returns `None` if out of memory.
    fn means(&self) -> Option<(Dialer<R>, H)> {
        let answers = self.answers.share().ok()?;
        match Dialer::new(self.rt, self.alloc, &self.handle) {
            Ok(dialer) => Some((dialer, answers)),
            Err(_) => {
                drop(answers);
                None
            }
        }
    }

    // The service of a connection from this address. Returns `None` if out of memory.
    fn door(&self, from: IpAddr, stage: SharedStage) -> Option<Door<H, K>> {
        let shared = stage.share().ok()?;
        Some(Door {
            alloc: self.alloc,
            answers: self.answers.share().ok()?,
            from,
            facts: SharedFacts::new(self.alloc, &self.answers, from, shared).ok()?,
            stage,
            limit: self.limits.content,
        })
    }

    // Counts one more open connection, where these are counted.
    fn counted(&self) -> Option<Counted> {
        match &self.open {
            Some(open) => Counted::new(open),
            None => None,
        }
    }
}

// What HTTP connections are made with, and a handle to their event loop. Errors: there are no random numbers, or out of memory.
fn means_of<R>(rt: R, handle: &Handle) -> io::Result<(http1::Builder<TokioTimer<R>>, Handle)>
where
    R: Net + Clock + RandomSource + AllocGlobal + Copy,
{
    let builder = builder_of(rt, handle)?;
    match handle.clone() {
        Ok(handle) => Ok((builder, handle)),
        Err(fault) => {
            drop(builder);
            Err(io::Error::from(fault))
        }
    }
}

// What HTTP connections are made with. Errors: there are no random numbers, or out of memory.
fn builder_of<R>(rt: R, handle: &Handle) -> io::Result<http1::Builder<TokioTimer<R>>>
where
    R: Net + Clock + RandomSource + AllocGlobal + Copy,
{
    let timers = handle.time().clone()?;
    let state = RandomState::new(&rt)?;
    Ok(builder_with(rt.alloc(), state, TokioTimer::new(rt, timers)))
}

// What HTTP connections are made with that have this timer.
fn builder_with<T: Timer>(alloc: Global, state: RandomState, timer: T) -> http1::Builder<T> {
    let mut builder = http1::Builder::new(alloc, state).timer(timer);
    builder.header_read_timeout(None);
    builder.max_buf_size(64 * 1024);
    builder
}

// Where a server listens, and the event loop that it runs on.
#[derive(Drop)]
struct Place {
    listeners: Listeners,
    seats: SeatShare,
    address: SocketAddr,
    runtime: LocalRuntime,
}

// Opens an event loop, and listens there. Errors: the socket or the event loop failed.
fn place_of<R>(rt: &R, socket: ClientSocket) -> io::Result<Place>
where
    R: Clock + Net + RandomSource + AllocGlobal,
{
    match LocalRuntime::new(rt) {
        Ok(mut runtime) => {
            // The stream of clients ends with the grace.
            runtime.set_shutdown_timeout(Some(Duration::ZERO));
            place_on(runtime, socket)
        }
        Err(fault) => {
            drop(socket);
            Err(fault)
        }
    }
}

// Listens on this event loop. Errors: the socket or the event loop failed.
fn place_on(runtime: LocalRuntime, socket: ClientSocket) -> io::Result<Place> {
    let ClientSocket {
        listener,
        six,
        seats,
    } = socket;
    match listeners_on(runtime.handle(), listener, six) {
        Ok((listeners, address)) => Ok(Place {
            listeners,
            seats,
            address,
            runtime,
        }),
        Err(fault) => {
            drop(seats);
            drop(runtime);
            Err(fault)
        }
    }
}

// These sockets on this event loop, and the address of the first. Errors: a socket or the event loop failed.
fn listeners_on(
    handle: &Handle,
    listener: net::TcpListener,
    six: Option<net::TcpListener>,
) -> io::Result<(Listeners, SocketAddr)> {
    match TcpListener::from_std(listener, handle.reactor()) {
        Ok(first) => listeners_with(handle, first, six),
        Err(fault) => {
            drop(six);
            Err(fault)
        }
    }
}

// As `listeners_on`, where the first socket is on the event loop already.
fn listeners_with(
    handle: &Handle,
    first: TcpListener,
    six: Option<net::TcpListener>,
) -> io::Result<(Listeners, SocketAddr)> {
    match second_on(handle, six) {
        Ok(second) => listeners_of(first, second),
        Err(fault) => {
            drop(first);
            Err(fault)
        }
    }
}

// The second socket on this event loop, if there is one. Errors: the socket or the event loop failed.
fn second_on(handle: &Handle, six: Option<net::TcpListener>) -> io::Result<Option<TcpListener>> {
    let Some(six) = six else {
        return Ok(None);
    };
    let second = TcpListener::from_std(six, handle.reactor())?;
    Ok(Some(second))
}

// These sockets, and the address of the first. Errors: it has none.
fn listeners_of(
    first: TcpListener,
    second: Option<TcpListener>,
) -> io::Result<(Listeners, SocketAddr)> {
    match first.local_addr() {
        Ok(address) => Ok((Listeners::new(first, second), address)),
        Err(fault) => {
            drop(second);
            drop(first);
            Err(fault)
        }
    }
}

// A place to serve at, and what HTTP connections are made with there. Errors: as `place_of` and `means_of`.
fn opened<R>(
    rt: R,
    socket: ClientSocket,
) -> io::Result<(Place, http1::Builder<TokioTimer<R>>, Handle)>
where
    R: Net + Clock + RandomSource + AllocGlobal + Copy,
{
    let place = place_of(&rt, socket)?;
    match means_of(rt, place.runtime.handle()) {
        Ok((builder, handle)) => Ok((place, builder, handle)),
        Err(fault) => {
            drop(place);
            Err(fault)
        }
    }
}

/// Serves until `stops.stop` is ready or its sender is dropped. Open connections then have `limits.grace` to end, unless `stops.hurry`
/// is cancelled before. Sends the address to `bound` once clients are accepted. Errors: the socket or the event loop failed.
pub(crate) fn serve<R, H>(
    rt: R,
    socket: ClientSocket,
    answers: H,
    bound: Sender<SocketAddr, Global>,
    stops: Stops,
    open: Option<Arc<AtomicUsize>>,
    limits: ServeLimits,
) -> io::Result<()>
where
    R: Wait + Clock + RandomSource + AllocGlobal + Net + Copy,
    H: Serves<KeptTunnel>,
{
    serve_with::<R, H, KeptTunnel, Patient<R>>(rt, socket, answers, bound, stops, open, limits)
}

// Serves as `serve` does, with what keeps tunnels as `K` does, and clients at sockets `I`.
fn serve_with<R, H, K, I>(
    rt: R,
    socket: ClientSocket,
    answers: H,
    bound: Sender<SocketAddr, Global>,
    stops: Stops,
    open: Option<Arc<AtomicUsize>>,
    limits: ServeLimits,
) -> io::Result<()>
where
    R: Wait + Clock + RandomSource + AllocGlobal + Net + Copy,
    H: Serves<K>,
    K: KeepTunnel,
    I: OfClient<R>,
{
    match opened(rt, socket) {
        Ok((place, builder, handle)) => {
            serve_timed::<R, H, K, I, TokioTimer<R>, Place>(
                rt, place, builder, handle, answers, bound, stops, open, limits,
            )
        }
        Err(fault) => {
            drop(open);
            drop(stops);
            drop(bound);
            drop(answers);
            Err(fault)
        }
    }
}

// Serves at this place by the connections that `builder` makes, of whose timer nothing more is known here.
fn serve_timed<R, H, K, I, T, G>(
    rt: R,
    place: G,
    builder: http1::Builder<T>,
    handle: Handle,
    answers: H,
    bound: Sender<SocketAddr, Global>,
    stops: Stops,
    open: Option<Arc<AtomicUsize>>,
    limits: ServeLimits,
) -> io::Result<()>
where
    R: Wait + Clock + RandomSource + AllocGlobal + Net + Copy,
    H: Serves<K>,
    K: KeepTunnel,
    I: OfClient<R>,
    T: Timer,
    G: Ground,
{
    serve_at::<R, H, K, I, http1::Builder<T>, G>(
        rt, place, builder, handle, answers, bound, stops, open, limits,
    )
}

// Serves at this place by the connections that `builder` makes, of whose type nothing more is known here.
fn serve_at<R, H, K, I, B, G>(
    rt: R,
    place: G,
    builder: B,
    handle: Handle,
    answers: H,
    bound: Sender<SocketAddr, Global>,
    stops: Stops,
    open: Option<Arc<AtomicUsize>>,
    limits: ServeLimits,
) -> io::Result<()>
where
    R: Wait + Clock + RandomSource + AllocGlobal + Net + Copy,
    H: Answers,
    K: KeepTunnel,
    I: OfClient<R>,
    B: Connections<I, H, K>,
    G: Ground,
{
    serve_beside::<R, H, K, I, B, Beside<B::Connection, R, H, K>, G>(
        rt, place, builder, handle, answers, bound, stops, open, limits,
    )
}

// Serves as `serve_at` does, where `W` goes on beside the connections, of which nothing more is known here.
fn serve_beside<R, H, K, I, B, W, G>(
    rt: R,
    place: G,
    builder: B,
    handle: Handle,
    answers: H,
    bound: Sender<SocketAddr, Global>,
    stops: Stops,
    open: Option<Arc<AtomicUsize>>,
    limits: ServeLimits,
) -> io::Result<()>
where
    R: Wait + Clock + RandomSource + AllocGlobal + Net + Copy,
    H: Answers,
    K: KeepTunnel,
    I: OfClient<R>,
    B: Connections<I, H, K>,
    W: Watch<B::Connection> + OfWatching<Watching<R, H, K>>,
    G: Ground,
{
    let bound = Bound {
        address: place.address(),
        to: bound,
    };
    let http: Http<R, H, B, K, I, W> = Http {
        rt,
        alloc: rt.alloc(),
        handle,
        limits,
        builder,
        answers,
        open,
        bound: Some(bound),
        kept: PhantomData,
        socket: PhantomData,
        watch: PhantomData,
    };
    place.run_accepted(rt, stops, http, limits)
}

// Where a server listens and runs. What hands it on is generic over it, since the prover does not look behind a type parameter (docs/GATE.md).
trait Ground: Drop {
    // The address that it listens on.
    fn address(&self) -> SocketAddr;

    // Runs a server that accepts by `accept`. A function of its own, since of a type that is named little is known here, and much has to be
    // elaborated anew of one that is.
    fn run_accepted<R, A>(
        self,
        rt: R,
        stops: Stops,
        accept: A,
        limits: ServeLimits,
    ) -> io::Result<()>
    where
        R: Wait + Clock + RandomSource + AllocGlobal + Net + Copy,
        A: Accept;
}

impl Ground for Place {
    fn address(&self) -> SocketAddr {
        self.address
    }

    fn run_accepted<R, A>(
        self,
        rt: R,
        stops: Stops,
        accept: A,
        limits: ServeLimits,
    ) -> io::Result<()>
    where
        R: Wait + Clock + RandomSource + AllocGlobal + Net + Copy,
        A: Accept,
    {
        let Place {
            listeners,
            seats,
            address: _,
            runtime,
        } = self;
        let alloc = rt.alloc();
        let handle = runtime.handle();
        let clients = clients_of(rt, alloc, handle, listeners, seats, stops, accept, limits);
        run_clients(rt, runtime, clients)
    }
}

// The clients that are accepted by `accept`. Errors: out of memory.
fn clients_of<R, A>(
    rt: R,
    alloc: Global,
    handle: &Handle,
    listeners: Listeners,
    seats: SeatShare,
    stops: Stops,
    accept: A,
    limits: ServeLimits,
) -> Result<AcceptedClients<A, R>, AllocError>
where
    R: Wait + Clock + Copy,
    A: Accept,
{
    let (most, grace) = (limits.connections, limits.grace);
    match handle.time().clone() {
        Ok(timers) => AcceptedClients::new(
            rt, alloc, timers, listeners, stops, grace, accept, most, seats,
        ),
        Err(fault) => {
            drop(accept);
            drop(stops);
            drop(seats);
            drop(listeners);
            Err(fault)
        }
    }
}

// Serves these clients. Errors: there are none, or the event loop failed.
fn run_clients<R, A>(
    rt: R,
    runtime: LocalRuntime,
    clients: Result<AcceptedClients<A, R>, AllocError>,
) -> io::Result<()>
where
    R: Wait + Clock + RandomSource + AllocGlobal + Copy,
    A: Accept,
{
    let mut runtime = runtime;
    let ran = match clients {
        Ok(clients) => runtime.run_all(&rt, clients),
        Err(fault) => Err(io::Error::from(fault)),
    };
    drop(runtime);
    ran
}
