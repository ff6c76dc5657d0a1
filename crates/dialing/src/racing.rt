//! The race of the attempts to connect to a server.
ghost use Rattle.std.specs.Prelude.{◌≡◌, IfSome};
ghost use Rattle.futures.specs.Poll.{OnPending};
ghost use Rattle.futures.specs.Task.{Covers, Keeps};

use fair_use::{Move, Race};
use futures::Future;
use futures::task::{Context, Poll};
use http_traffic::{AdmittedAddresses, Ticket};
use origin_rules::Admitted;
use server_connections::ServerConnections;
use std::alloc::Global;
use std::io;
use std::net::Net;
use std::sync::{Arc, Wait};
use std::time::{Clock, Duration, Instant};
use tokio::net::{ConnectFuture, TcpStream};
use tokio::runtime::Handle;
use tokio::time::Sleep;

// How long after an attempt that found no open file it is made again, in milliseconds: idle connections that give way to it leave theirs within
// that.
const FILE_PAUSE: u64 = 20;

// How long after its beginning such an attempt is made again, in milliseconds. Then one of those under way is given up for it.
const FILE_PATIENCE: u64 = 1_000;

/// A connection to a server, and the address at which it was reached.
#[derive(Drop)]
pub struct Connected {
    pub socket: TcpStream,
    pub server: Admitted,
}

/// Why a server was not connected to.
#[derive(Clone, Copy)]
pub enum DialFault {
    /// The attempt at each address has failed.
    Failed,
    /// None has connected in time, or the clock cannot be read.
    Late,
    /// Out of memory.
    NoMemory,
}

// An attempt.
struct Attempt {
    server: Admitted,
    // When in the race it began.
    began: u64,
    // While it is under way.
    connecting: Option<ConnectFuture>,
    // Whether it found no open file, and is made again.
    lacks_file: bool,
    // What it holds meanwhile where it goes beside another one.
    ticket: Option<Ticket>,
}

// Written by hand, so that what lets it go is one call for the prover (docs/GATE.md).
impl Drop for Attempt {
    fn drop(self) {
        let Self {
            server: _,
            began: _,
            connecting: _,
            lacks_file: _,
            ticket: _,
        } = self;
    }
}

/// Connects to a server at its addresses, side by side.
pub struct Dialing<R> {
    rt: R,
    handle: Handle,
    servers: AdmittedAddresses,
    // Where each attempt that goes beside another one has a place.
    places: Arc<ServerConnections>,
    race: Race,
    began: Option<Instant>,
    attempts: Vec<Attempt>,
    // Whether an attempt was refused that would have gone beside another one.
    is_held: bool,
    // When attempts that found no open file are made again.
    again: Option<u64>,
    // Runs while there is nothing to be done.
    sleep: Option<Sleep>,
}

// Written by hand, so that what lets it go is one call for the prover (docs/GATE.md).
impl<R: Drop> Drop for Dialing<R> {
    fn drop(self) {
        let Self {
            rt,
            handle,
            servers,
            places,
            race: _,
            began: _,
            attempts,
            is_held: _,
            again: _,
            sleep,
        } = self;
        drop(rt);
        drop(handle);
        drop(servers);
        drop(places);
        drop(attempts);
        drop(sleep);
    }
}

impl<R: Net + Wait + Clock + Copy> Dialing<R> {
    /// Connects to one of these addresses within this time, on the event loop of this handle. The first attempt begins at once; one that goes
    /// beside another one has a place among these connections. `None` if out of memory.
    pub fn new(
        rt: R,
        alloc: Global,
        handle: &Handle,
        servers: AdmittedAddresses,
        places: Arc<ServerConnections>,
        limit: Duration,
    ) -> Option<Dialing<R>>
        ensures servers { IfSome result (λ dialing. dialing.servers ≡ servers) }
    {
        let Ok(handle) = handle.clone() else {
            drop(servers);
            return None;
        };
        let race = Race::new(servers.as_slice().len(), millis(limit));
        let mut dialing = Dialing {
            rt,
            handle,
            servers,
            places,
            race,
            began: Instant::now(&rt).ok(),
            attempts: Vec::new(alloc),
            is_held: false,
            again: None,
            sleep: None,
        };
        let _ = dialing.begin(0, None);
        Some(dialing)
    }

    // Begins the next attempt. Errors: there is none, or out of memory.
    fn begin(&mut self, now: u64, ticket: Option<Ticket>) -> Result<(), DialFault>
        ensures servers { self.new.servers ≡ self.old.servers }
    {
        let Some(server) = self.servers.as_slice().get(self.race.begun) else {
            drop(ticket);
            return Err(DialFault::Failed);
        };
        let server = *server;
        let attempt = Attempt {
            server,
            began: now,
            connecting: Some(TcpStream::connect(&self.rt, server.address(), self.handle.reactor())),
            lacks_file: false,
            ticket,
        };
        match self.attempts.push(attempt) {
            Ok(()) => {
                self.race.note_begun(now);
                Ok(())
            }
            Err(_) => Err(DialFault::NoMemory),
        }
    }

    // Makes those attempts again that found no open file, if it is time for that. Returns whether it is.
    fn makes_again(&mut self, now: u64) -> bool {
        let Some(again) = self.again else {
            return false;
        };
        if now < again {
            return false;
        }
        self.again = None;
        for attempt in &mut self.attempts {
            if attempt.lacks_file {
                attempt.lacks_file = false;
                let connecting = TcpStream::connect(
                    &self.rt,
                    attempt.server.address(),
                    self.handle.reactor(),
                );
                put(&mut attempt.connecting, Some(connecting));
            }
        }
        true
    }

    // Takes the next step of the race. Returns until when there is nothing to be done, or `None` if an attempt has begun. Errors: it is over.
    fn step(&mut self) -> Result<Option<u64>, DialFault> {
        let now = self.now();
        if self.makes_again(now) {
            return Ok(None);
        }
        let ticket = self.asked(now);
        match self.race.next(now, !self.is_held) {
            Move::Begin => {
                self.begin(now, ticket)?;
                Ok(None)
            }
            Move::Replace => {
                drop(ticket);
                self.give_up(now);
                self.begin(now, None)?;
                Ok(None)
            }
            Move::Wait(until) => Ok(Some(self.again.unwrap_or(until).min(until))),
            Move::Late => Err(DialFault::Late),
            Move::Failed => Err(DialFault::Failed),
        }
    }
}

impl<R: Wait + Clock> Dialing<R> {
    // The milliseconds since the race has begun; the most that there are if the clock cannot be read.
    fn now(&self) -> u64 {
        let Some(began) = self.began else {
            return u64::MAX;
        };
        match Instant::now(&self.rt) {
            Ok(now) => u64::try_from(now.saturating_duration_since(began).as_millis()).unwrap_or(
                u64::MAX,
            ),
            Err(_) => u64::MAX,
        }
    }

    // What the next attempt holds that would begin now beside another one. `None` if it may not, and where there is none.
    // Where one was refused, no other is asked for: the addresses that are left are tried one after the other.
    fn asked(&mut self, now: u64) -> Option<Ticket> {
        if self.is_held || !self.race.is_asked(now) {
            return None;
        }
        let ticket = self.servers.take_beside(&self.rt, &self.places);
        self.is_held = ticket.is_none();
        ticket
    }

    // Gives up all attempts under way.
    fn give_up(&mut self, now: u64) {
        for _ in 0..self.attempts.len() {
            self.race.note_ended(now);
        }
        self.attempts.clear();
        self.again = None;
    }

    // The address of the attempt at this place, which has ended.
    fn server_at(&mut self, place: usize) -> Option<Admitted> {
        let attempt = self.attempts.get_mut(place)?;
        put(&mut attempt.connecting, None);
        put(&mut attempt.ticket, None);
        Some(attempt.server)
    }

    // Notes that the attempt at this place has ended so. Returns the connection, if it has connected; then the others are closed.
    fn ended(&mut self, place: usize, connected: io::Result<TcpStream>) -> Option<Connected> {
        let now = self.now();
        self.race.note_ended(now);
        let server = self.server_at(place)?;
        let socket = connected.ok()?;
        self.give_up(now);
        put(&mut self.sleep, None);
        self.servers.note_connected(server.address());
        Some(Connected { socket, server })
    }

    // Polls the attempts under way. Returns the connection, if one has connected.
    fn poll_attempts(&mut self, cx: &mut Context<'_>) -> Option<Connected>
        ensures { Keeps cx.old cx.new }
    {
        for place in 0..self.attempts.len() {
            if let Some(connected) = self.poll_attempt(place, cx) {
                return Some(connected);
            }
        }
        None
    }

    // Polls the attempt at this place. Returns the connection, if it has connected.
    fn poll_attempt(&mut self, place: usize, cx: &mut Context<'_>) -> Option<Connected>
        ensures { Keeps cx.old cx.new }
    {
        let attempt = self.attempts.get_mut(place)?;
        let Some(connecting) = &mut attempt.connecting else {
            return None;
        };
        match connecting.poll(cx) {
            Poll::Ready(connected) => self.came(place, connected),
            Poll::Pending => None,
        }
    }

    // Notes how the attempt at this place came out. Returns the connection, if it has connected; then the others are closed.
    fn came(&mut self, place: usize, connected: io::Result<TcpStream>) -> Option<Connected> {
        match connected {
            Err(fault) if finds_no_file(&fault) && self.postpones(place) => {
                drop(fault);
                None
            }
            connected => self.ended(place, connected),
        }
    }

    // Has the attempt at this place, which found no open file, be made again a little later. Returns whether it is: after its patience only where
    // another one is given up for it.
    fn postpones(&mut self, place: usize) -> bool {
        let now = self.now();
        let Some(attempt) = self.attempts.get_mut(place) else {
            return false;
        };
        put(&mut attempt.connecting, None);
        if attempt.began.saturating_add(FILE_PATIENCE) <= now && !self.gives_one_up(now) {
            return false;
        }
        let Some(attempt) = self.attempts.get_mut(place) else {
            return false;
        };
        attempt.lacks_file = true;
        self.again = Some(now.saturating_add(FILE_PAUSE));
        true
    }

    // Gives up the attempt that has been under way for longest. Returns whether there is one.
    fn gives_one_up(&mut self, now: u64) -> bool {
        for place in 0..self.attempts.len() {
            if self.is_under_way(place) {
                let _ = self.server_at(place);
                self.race.note_ended(now);
                return true;
            }
        }
        false
    }

    // Whether the attempt at this place is under way, and has its file.
    fn is_under_way(&self, place: usize) -> bool {
        match self.attempts.get(place) {
            Some(attempt) => attempt.connecting.is_some(),
            None => false,
        }
    }

    // Sets the timer to this time of the race.
    fn set(&mut self, until: u64) {
        let began = self.began;
        let Some(deadline) = began.and_then(|it| it.checked_add(Duration::from_millis(until)))
        else {
            put(&mut self.sleep, None);
            return;
        };
        if let Some(sleep) = &mut self.sleep {
            if sleep.deadline() != deadline {
                sleep.reset(deadline);
            }
            return;
        }
        let sleep = self.handle.time().sleep_until(deadline).ok();
        put(&mut self.sleep, sleep);
    }

    // Waits until this time of the race. Ready only with why the race cannot go on.
    fn poll_time(&mut self, until: u64, cx: &mut Context<'_>) -> Poll<DialFault>
        ensures registered { OnPending result (Covers cx.new (λ _. ⊥)) }
        ensures kept { Keeps cx.old cx.new }
    {
        self.set(until);
        let Some(sleep) = &mut self.sleep else {
            return Poll::Ready(DialFault::NoMemory);
        };
        match sleep.poll(cx) {
            Poll::Ready(Ok(())) => cx.yield_now(),
            Poll::Ready(Err(_)) => Poll::Ready(DialFault::Late),
            Poll::Pending => Poll::Pending,
        }
    }
}

// Whether no open file was left for the program.
fn finds_no_file(fault: &io::Error) -> bool {
    matches!(fault.raw_os_error(), Some(libc::EMFILE))
}

// Puts a value in the place of another, which is let go of by a call: an assignment would lay out its parts for the prover.
fn put<T: Drop>(place: &mut T, value: T) {
    *place = value;
}

// This time in milliseconds, at most as many as the number holds.
fn millis(time: Duration) -> u32 {
    u32::try_from(time.as_millis()).unwrap_or(u32::MAX)
}

impl<R: Net + Wait + Clock + Copy> Future for Dialing<R> {
    type Output = Result<Connected, DialFault>;

    fn poll(&mut self, cx: &mut Context<'_>) -> Poll<Result<Connected, DialFault>> {
        if let Some(connected) = self.poll_attempts(cx) {
            return Poll::Ready(Ok(connected));
        }
        match self.step() {
            Ok(Some(until)) => match self.poll_time(until, cx) {
                Poll::Ready(fault) => Poll::Ready(Err(fault)),
                Poll::Pending => Poll::Pending,
            },
            Ok(None) => cx.yield_now(),
            Err(fault) => Poll::Ready(Err(fault)),
        }
    }
}
