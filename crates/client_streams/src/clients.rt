//! The clients of a listener.
ghost use Rattle.std.specs.Prelude.{IfSome, IsSomeAnd, box_value};
ghost use Rattle.futures.specs.Poll.{OnPending};
ghost use Rattle.futures.specs.Task.{Covers, IsArmed, Keeps};

use crate::listeners::{Listeners, canonical, counted_at};
use crate::patient::SharedStage;
use crate::pool::{NoSeat, SeatShare};
use crate::seats::{SharedSeats, TakenSeat};
use futures::channel::oneshot;
use futures::task::{Context, Poll};
use futures::{Future, Stream, ready};
use std::alloc::{AllocError, Global};
use std::net::SocketAddr;
use std::sync::Wait;
use std::time::{Clock, Duration};
use tokio::net::TcpStream;
use tokio::time::{Handle, Sleep};
use tokio_util::sync::{CancellationToken, WaitForCancellationFuture};

/// Makes the future that serves a client.
pub trait Accept: Drop {
    /// Serves one client until its connection ends.
    type Serving: Future<Output = ()>;

    /// Called once the server is open: from then on it accepts clients.
    fn opened(&mut self);

    /// Whether a client at `address` takes one of the seats for clients. Others are refused, and take none of these.
    fn has_seat(&self, address: SocketAddr) -> bool;

    /// Serves or refuses the client that connected from `address`. The service keeps `stage` up to date. Returning `None` closes
    /// the connection.
    fn accept(
        &self,
        socket: TcpStream,
        address: SocketAddr,
        stage: SharedStage,
    ) -> Option<Self::Serving>
        ensures { IfSome result Self.Serving.can_poll };
}

/// A client that is being served or refused, and its seat, which is free again when this is dropped. It ends early where its
/// connection has been idle for longer than all others and a client waits for a seat.
#[derive(Drop)]
pub struct Seated<F, R: Wait + Clock + Copy> {
    // None for a seat that is only taken until the server is open.
    serving: Option<Box<F>>,
    // None for such a seat as well.
    stage: Option<SharedStage>,
    seat: TakenSeat<R>,
}

impl<F: Future<Output = ()>, R: Wait + Clock + Copy> Future for Seated<F, R> {
    type Output = ();

    ghost can_poll = { λ s. IfSome s.serving (λ f. F.can_poll (box_value f)) };

    ghost needs = { λ s source. IsSomeAnd s.serving (λ f. F.needs (box_value f) source) };

    fn poll(&mut self, cx: &mut Context<'_>) -> Poll<()> {
        let Some(mut serving) = self.serving.take() else {
            return self.seat.wait_for_opening(cx);
        };
        if let Poll::Ready(()) = serving.poll(cx) {
            return Poll::Ready(());
        }
        self.serving = Some(serving);
        match &self.stage {
            Some(stage) if self.seat.must_close(stage, cx) => Poll::Ready(()),
            _ => Poll::Pending,
        }
    }
}

// How long a thread that serves more clients than another leaves the next one to that at most, in milliseconds.
const MOMENT_MILLIS: u64 = 1;

// How often all threads look again for a connection that can give way to a client that waits, in milliseconds: those that were new when it
// came are not for long.
const LOOK_MILLIS: u64 = 100;

// A client that was accepted.
#[derive(Drop)]
struct Arrival {
    socket: TcpStream,
    address: SocketAddr,
}

/// How many clients of a listener are served concurrently, by all threads that serve them, and what follows an accept that fails.
#[derive(Clone, Copy)]
pub struct ClientLimits {
    /// The most clients.
    pub most: usize,
    /// The most clients of one address; of IPv6 those of a network of 64 bits, all of whose addresses one host may have.
    pub an_address: usize,
    /// The pause after a failed accept.
    pub rest: Duration,
}

// How far a server is that opens.
#[derive(Clone, Copy, PartialEq, Eq)]
enum Opening {
    // It takes each seat once.
    Taking,
    // It waits until all seats are free again.
    Freeing,
    // It accepts clients.
    Done,
}

/// What ends a server.
#[derive(Drop)]
pub struct Stops {
    /// Ends the acceptance of clients, and begins the grace for those that are connected. So does a dropped sender.
    pub stop: oneshot::Receiver<()>,
    /// Ends the grace at once, where something may.
    pub hurry: Option<CancellationToken>,
}

/// The clients that one thread serves, as a stream of futures. It accepts no more of them, and closes its listeners, when `stop` is ready or its
/// sender is dropped, and ends when all clients are gone, when the grace has passed, or when `hurry` is cancelled, whichever comes first;
/// whoever runs the futures then drops those that are left. Each future holds a seat. A client of an address that has as many seats as
/// it may is closed; of IPv6 a network of 64 bits counts as one address. While all seats are taken, the connection that has been idle for longest is closed in favour of the next client,
/// or one that has been so for longest among another thread's, unless it came less than 250 ms ago and few of its address are served; while
/// none is idle, that client waits, and further ones wait in the listener's queue. A client that takes no seat holds one of 64 others of its
/// thread, and is closed where none of these is free. Where an accept fails, as for want of descriptors, a connection that is idle is closed
/// too. A thread that serves more clients than another lets that accept the next one, for a millisecond at most, and no longer than it does
/// so.
///
/// The first futures serve nobody, and end together: one for each seat, so that whoever runs the futures has room for as many as
/// there may be, and no client is refused for want of memory for that room. `Accept::opened` is called after that.
#[derive(Drop)]
pub struct AcceptedClients<A, R: Wait + Clock + Copy> {
    rt: R,
    alloc: Global,
    timers: Handle,
    // None once the server is told to stop.
    listeners: Option<Listeners>,
    stop: Option<oneshot::Receiver<()>>,
    hurry: Option<WaitForCancellationFuture>,
    grace: Duration,
    // The end of the grace, once it has begun.
    ending: Option<Sleep>,
    accept: A,
    seats: SharedSeats<R>,
    opening: Opening,
    // A client that waits for a seat.
    arrival: Option<Arrival>,
    rest: Duration,
    resting: Option<Sleep>,
    // Whether the next client was left to other threads for a moment.
    has_waited: bool,
    // The time until the threads look again for a connection that can give way.
    looking: Option<Sleep>,
}

impl<A: Accept, R: Wait + Clock + Copy> AcceptedClients<A, R> {
    /// The clients of `listeners`, with these limits and this part in the seats of all its threads, and so much time for them to end once
    /// the server is told to stop.
    pub fn new(
        rt: R,
        alloc: Global,
        timers: Handle,
        listeners: Listeners,
        stops: Stops,
        grace: Duration,
        accept: A,
        limits: ClientLimits,
        share: SeatShare,
    ) -> Result<AcceptedClients<A, R>, AllocError> {
        let seats = SharedSeats::new(rt, alloc, share, limits.most)?;
        let Stops { stop, hurry } = stops;
        let hurry = match hurry {
            Some(token) => Some(token.cancelled()?),
            None => None,
        };
        Ok(AcceptedClients {
            rt,
            alloc,
            timers,
            listeners: Some(listeners),
            stop: Some(stop),
            hurry,
            grace,
            ending: None,
            accept,
            seats,
            opening: Opening::Taking,
            arrival: None,
            rest: limits.rest,
            resting: None,
            has_waited: false,
            looking: None,
        })
    }

    // The next seat that is taken while the server opens. `None` once all were taken.
    fn next_room(&mut self) -> Option<Seated<A::Serving, R>>
        ensures { IfSome result (λ s. IfSome s.serving (λ f. A.Serving.can_poll (box_value f))) }
    {
        if self.opening != Opening::Taking {
            return None;
        }
        if let Some(seat) = self.seats.take_any() {
            return Some(Seated {
                serving: None,
                stage: None,
                seat,
            });
        }
        self.opening = Opening::Freeing;
        self.seats.open();
        None
    }

    // Waits for the next client that is to be served or refused. `None` if the accept failed.
    fn poll_arrival(&mut self, cx: &mut Context<'_>) -> Poll<Option<Arrival>>
        ensures registered { OnPending result (Covers cx.new (λ _. ⊥)) }
        ensures kept { Keeps cx.old cx.new }
    {
        if let Some(arrival) = self.arrival.take() {
            return Poll::Ready(Some(arrival));
        }
        self.has_waited = false;
        let Some(listeners) = &mut self.listeners else {
            return Poll::Ready(None);
        };
        let Ok((socket, address)) = ready!(listeners.poll_accept(cx)) else {
            self.rest();
            self.seats.note_failure();
            return Poll::Ready(None);
        };
        let address = canonical(address);
        Poll::Ready(Some(Arrival { socket, address }))
    }

    // The seat for a client at this address. `None` if it has to wait for one. Errors: it is to be closed.
    fn seat(&mut self, address: SocketAddr) -> Result<Option<TakenSeat<R>>, NoSeat> {
        if self.accept.has_seat(address) {
            return self.seats.take(counted_at(address.ip()));
        }
        match self.seats.take_refusal() {
            Some(seat) => Ok(Some(seat)),
            None => Err(NoSeat),
        }
    }

    // Serves or refuses a client. `None` if its connection is closed.
    fn serve(&mut self, arrival: Arrival, seat: TakenSeat<R>) -> Option<Seated<A::Serving, R>>
        ensures { IfSome result (λ s. IfSome s.serving (λ f. A.Serving.can_poll (box_value f))) }
    {
        let Arrival { socket, address } = arrival;
        let stage = SharedStage::new(self.alloc).ok()?;
        let shared = stage.share().ok()?;
        let serving = self.accept.accept(socket, address, shared)?;
        let serving = Box::new(self.alloc, serving).ok()?;
        Some(Seated {
            serving: Some(serving),
            stage: Some(stage),
            seat,
        })
    }

    // Whether the server was told to stop. The first time it closes its listeners, and begins the grace.
    fn is_stopped(&mut self, cx: &mut Context<'_>) -> bool
        ensures { Keeps cx.old cx.new }
    {
        let Some(stop) = &mut self.stop else {
            return true;
        };
        if let Poll::Pending = stop.poll(cx) {
            return false;
        }
        self.stop = None;
        self.listeners = None;
        self.arrival = None;
        self.seats.give_up();
        self.seats.open();
        self.ending = self.timers.sleep(&self.rt, self.grace).ok();
        true
    }

    // Waits for the end of a server that was told to stop. Without memory to wait for it it is at once.
    fn poll_end(&mut self, cx: &mut Context<'_>) -> Poll<()>
        ensures registered { OnPending result (IsArmed cx.new) }
        ensures kept { Keeps cx.old cx.new }
    {
        if let Some(hurry) = &mut self.hurry
            && let Poll::Ready(_) = hurry.poll(cx)
        {
            return Poll::Ready(());
        }
        let Some(ending) = &mut self.ending else {
            return Poll::Ready(());
        };
        if let Poll::Ready(_) = ending.poll(cx) {
            return Poll::Ready(());
        }
        self.seats.wait_for_all(cx)
    }

    // Delays the next accept.
    fn rest(&mut self) {
        self.resting = self.timers.sleep(&self.rt, self.rest).ok();
    }

    // Whether the threads are to look again for a connection that can give way. Without memory for a timer they don't.
    fn must_look(&mut self, cx: &mut Context<'_>) -> bool
        ensures { Keeps cx.old cx.new }
    {
        if self.looking.is_none() {
            let pause = Duration::from_millis(LOOK_MILLIS);
            self.looking = self.timers.sleep(&self.rt, pause).ok();
        }
        let Some(looking) = &mut self.looking else {
            return false;
        };
        if let Poll::Pending = looking.poll(cx) {
            return false;
        }
        self.looking = None;
        true
    }

    // Leaves the next client to other threads, for a moment. It ends early once this thread does not serve more than another any longer.
    fn let_others_accept(&mut self) {
        let is_next = self.opening == Opening::Done && self.arrival.is_none();
        if is_next && self.resting.is_none() && !self.has_waited {
            let moment = Duration::from_millis(MOMENT_MILLIS);
            self.has_waited = true;
            self.resting = self.timers.sleep(&self.rt, moment).ok();
        }
    }
}

impl<A: Accept, R: Wait + Clock + Copy> Stream for AcceptedClients<A, R> {
    type Item = Seated<A::Serving, R>;

    ghost yields = { λ _ _ last. IfSome last (λ s. IfSome s.serving (λ f. A.Serving.can_poll (box_value f))) };

    fn poll_next(&mut self, cx: &mut Context<'_>) -> Poll<Option<Seated<A::Serving, R>>> {
        if self.is_stopped(cx) {
            ready!(self.poll_end(cx));
            return Poll::Ready(None);
        }
        if self.seats.heed(cx) {
            self.let_others_accept();
        } else if self.has_waited {
            self.resting = None;
        }
        if let Some(resting) = &mut self.resting {
            let _ = ready!(resting.poll(cx));
            self.resting = None;
        }
        if let Some(room) = self.next_room() {
            return Poll::Ready(Some(room));
        }
        if self.opening == Opening::Freeing {
            ready!(self.seats.wait_for_all(cx));
            self.opening = Opening::Done;
            self.accept.opened();
        }
        let Some(arrival) = ready!(self.poll_arrival(cx)) else {
            return cx.yield_now();
        };
        match self.seat(arrival.address) {
            Ok(Some(seat)) => match self.serve(arrival, seat) {
                Some(seated) => Poll::Ready(Some(seated)),
                None => cx.yield_now(),
            },
            Ok(None) => {
                self.arrival = Some(arrival);
                if self.must_look(cx) {
                    self.seats.look_again();
                    return cx.yield_now();
                }
                let _ = ready!(self.seats.wait(cx));
                cx.yield_now()
            }
            Err(_) => cx.yield_now(),
        }
    }
}
