//! Whether anything moves between a client and a server.
ghost use Rattle.std.specs.Prelude.{◌≡◌, ⊤};
ghost use Rattle.futures.specs.Task.{Keeps};
ghost use Rattle.tokio.specs.Net.{stream_readable, stream_writable};

use crate::fetching::put;
use fair_use::{WINDOW_SECONDS, is_too_slow};
use futures::Future;
use futures::task::{Context, Poll};
use shared_thread::Paced;
use std::alloc::{AllocError, Global};
use std::cell::Cell;
use std::io;
use std::io::ErrorKind;
use std::rc::Rc;
use std::time::{Clock, Duration, Instant};
use tokio::io::{AsyncRead, AsyncWrite};
use tokio::time::{Handle, Sleep};

// What was noted of a connection.
#[derive(Drop)]
struct Marks {
    // Whether something moved since that was last asked.
    has_moved: Cell<bool>,
    // Whether octets of an answer have come.
    has_answer: Cell<bool>,
    // How many octets have come.
    octets: Cell<u64>,
    // Whether nothing is read, since what came last waits for room.
    is_waiting: Cell<bool>,
}

/// Notes what moves on a connection. Reference-counted within one thread.
#[derive(Drop)]
pub struct Moves(Rc<Marks>);

impl Moves {
    /// Nothing has moved. Errors: out of memory.
    pub fn new(alloc: Global) -> Result<Moves, AllocError> {
        let marks = Marks {
            has_moved: Cell::new(false),
            has_answer: Cell::new(false),
            octets: Cell::new(0),
            is_waiting: Cell::new(false),
        };
        Ok(Moves(Rc::new(alloc, marks)?))
    }

    /// Two handles to the same, of which nothing has moved. Returns `None` if out of memory.
    pub fn pair(alloc: Global) -> Option<(Moves, Moves)> {
        let moves = Moves::new(alloc).ok()?;
        let other = moves.share().ok()?;
        Some((moves, other))
    }

    /// Another handle to the same. Errors: there are too many.
    pub fn share(&self) -> Result<Moves, AllocError> {
        Ok(Moves(self.0.clone()?))
    }

    /// Notes that something moved.
    pub fn note(&self) {
        self.0.has_moved.set(true);
    }

    // Notes that so many octets of an answer came.
    fn note_answer(&self, octets: usize) {
        self.0.has_answer.set(true);
        let before = self.0.octets.get();
        self.0.octets.set(before.saturating_add(octets as u64));
    }

    // How many octets have come.
    fn octets(&self) -> u64 {
        self.0.octets.get()
    }

    /// Sets whether nothing is read, since what came last waits for room.
    pub fn set_waiting(&self, is_waiting: bool) {
        self.0.is_waiting.set(is_waiting);
    }

    // Whether nothing is read, since what came last waits for room.
    fn is_waiting(&self) -> bool {
        self.0.is_waiting.get()
    }

    /// Whether octets of an answer have come.
    pub fn has_answer(&self) -> bool {
        self.0.has_answer.get()
    }

    // Whether something moved since this was last asked.
    fn take(&self) -> bool {
        self.0.has_moved.replace(false)
    }
}

/// A connection whose octets are noted as they move. One that carried a request before gives nothing that came before the next one was
/// begun to be written: it fails then, as one that its server has reset.
pub struct Noted {
    socket: Paced,
    moves: Moves,
    // Whether nothing may come as yet: it carried a request before, and nothing of the next one has been written.
    is_quiet: bool,
}

// Written by hand, as other drops of this file, so that what lets it go is one call for the prover (docs/GATE.md).
impl Drop for Noted {
    fn drop(self) {
        let Self {
            socket: _,
            moves: _,
            is_quiet: _,
        } = self;
    }
}

impl Noted {
    /// This new connection, whose octets are noted in `moves`.
    pub fn new(socket: Paced, moves: Moves) -> Noted {
        Noted {
            socket,
            moves,
            is_quiet: false,
        }
    }

    /// This connection, which carried a request before.
    pub fn used(socket: Paced, moves: Moves) -> Noted {
        Noted {
            socket,
            moves,
            is_quiet: true,
        }
    }

    /// The connection itself.
    pub fn into_socket(self) -> Paced {
        let Self {
            socket,
            moves: _moves,
            is_quiet: _is_quiet,
        } = self;
        socket
    }

    // Notes what a read gave.
    fn note_read(&self, polled: &Poll<io::Result<usize>>) {
        let Poll::Ready(read) = polled else {
            return;
        };
        self.moves.note();
        if let Ok(count) = read
            && *count > 0
        {
            self.moves.note_answer(*count);
        }
    }
}

// Something came before the request.
fn unasked() -> io::Error {
    io::Error::from(ErrorKind::ConnectionReset)
}

impl AsyncRead for Noted {
    ghost needs = { λ n source. source ≡ stream_readable n.socket.socket };

    ghost reads = { λ _ _ _. ⊤ };

    ghost is_at_end = { λ _. ⊤ };

    ghost reads_nothing = { λ _. tt };

    ghost reads_in_order = { λ _ _ _ _ _ _ _. tt };

    fn poll_read(&mut self, cx: &mut Context<'_>, buf: &mut [u8]) -> Poll<io::Result<usize>> {
        let polled = AsyncRead::poll_read(&mut self.socket, cx, buf);
        if self.is_quiet && polled.is_ready() {
            return Poll::Ready(Err(unasked()));
        }
        self.note_read(&polled);
        polled
    }
}

impl AsyncWrite for Noted {
    ghost needs = { λ n source. source ≡ stream_writable n.socket.socket };

    ghost writes = { λ _ _ _. ⊤ };

    ghost writes_nothing = { λ _. tt };

    ghost writes_in_order = { λ _ _ _ _ _ _ _. tt };

    fn poll_write(&mut self, cx: &mut Context<'_>, buf: &[u8]) -> Poll<io::Result<usize>> {
        if self.is_quiet && !self.socket.is_silent() {
            return Poll::Ready(Err(unasked()));
        }
        let polled = AsyncWrite::poll_write(&mut self.socket, cx, buf);
        if polled.is_ready() {
            self.is_quiet = false;
            self.moves.note();
        }
        polled
    }

    fn poll_flush(&mut self, cx: &mut Context<'_>) -> Poll<io::Result<()>> {
        self.socket.poll_flush(cx)
    }

    fn poll_shutdown(&mut self, cx: &mut Context<'_>) -> Poll<io::Result<()>> {
        self.socket.poll_shutdown(cx)
    }
}

/// Whether a fetch waits for room. Reference-counted within one thread.
#[derive(Drop)]
pub struct Delay(Rc<Cell<bool>>);

impl Delay {
    /// It does not wait. Errors: out of memory.
    pub fn new(alloc: Global) -> Result<Delay, AllocError> {
        Ok(Delay(Rc::new(alloc, Cell::new(false))?))
    }

    /// Another handle to the same. Errors: there are too many.
    pub fn share(&self) -> Result<Delay, AllocError> {
        Ok(Delay(self.0.clone()?))
    }

    /// Sets whether it waits.
    pub fn set(&self, waits: bool) {
        self.0.set(waits);
    }

    /// Whether it waits.
    pub fn waits(&self) -> bool {
        self.0.get()
    }
}

/// How long nothing may move. The time begins with the first look at it after something moved.
pub struct Patience<R> {
    rt: R,
    // None if out of memory: then the time is over at once.
    timers: Option<Handle>,
    moves: Option<Moves>,
    still: Duration,
    deadline: Option<Instant>,
    // The timer. It is reset only when it fires too early.
    sleep: Option<Sleep>,
}

impl<R: Drop> Drop for Patience<R> {
    fn drop(self) {
        let Self {
            rt,
            timers,
            moves,
            still: _,
            deadline: _,
            sleep,
        } = self;
        drop(rt);
        drop(timers);
        drop(moves);
        drop(sleep);
    }
}

impl<R: Clock + Drop> Patience<R> {
    /// Patience of this length with what `moves` notes.
    pub fn new(
        rt: R,
        timers: Option<Handle>,
        moves: Option<Moves>,
        still: Duration,
    ) -> Patience<R> {
        Patience {
            rt,
            timers,
            moves,
            still,
            deadline: None,
            sleep: None,
        }
    }

    /// Begins anew, as where something moved.
    pub fn begin_anew(&mut self) {
        self.deadline = None;
    }

    // When the time is over. `None` if the clock cannot be read.
    fn deadline(&mut self) -> Option<Instant> {
        if let Some(moves) = &self.moves
            && moves.take()
        {
            self.deadline = None;
        }
        if self.deadline.is_none() {
            self.deadline = Instant::now(&self.rt).ok()?.checked_add(self.still);
        }
        self.deadline
    }

    /// Whether nothing has moved for so long. Also true if the clock cannot be read, or if out of memory.
    pub fn is_over(&mut self, cx: &mut Context<'_>) -> bool
        ensures { Keeps cx.old cx.new }
    {
        let Some(deadline) = self.deadline() else {
            return true;
        };
        if self.sleep.is_none() {
            let sleep = self.timer(deadline);
            put(&mut self.sleep, sleep);
        }
        match &mut self.sleep {
            Some(sleep) => has_come(sleep, cx, deadline),
            None => true,
        }
    }

    // The timer until then. `None` if out of memory.
    fn timer(&self, deadline: Instant) -> Option<Sleep> {
        match &self.timers {
            Some(timers) => timers.sleep_until(deadline).ok(),
            None => None,
        }
    }
}

/// How fast the content of an answer has to come: so many octets a second, in each window of time in which it is read. The first one begins
/// with the first look at it; while nothing is read, since what came last waits for room, the time stands still.
pub struct Speed<R> {
    rt: R,
    // None if out of memory: then it is too slow at once.
    timers: Option<Handle>,
    moves: Option<Moves>,
    // Octets a second.
    least: u32,
    window: Option<Window>,
    // The timer. It is reset only when it fires too early.
    sleep: Option<Sleep>,
}

// A window of time.
#[derive(Clone, Copy)]
struct Window {
    // When it ends.
    end: Instant,
    // How many octets had come when it began.
    octets: u64,
    // Since when the time stands still, if it does.
    still: Option<Instant>,
}

impl<R: Drop> Drop for Speed<R> {
    fn drop(self) {
        let Self {
            rt,
            timers,
            moves,
            least: _,
            window: _,
            sleep,
        } = self;
        drop(rt);
        drop(timers);
        drop(moves);
        drop(sleep);
    }
}

impl<R: Clock + Drop> Speed<R> {
    // Whether nothing is read.
    fn is_still(&self) -> bool {
        match &self.moves {
            Some(moves) => moves.is_waiting(),
            None => false,
        }
    }

    // How many octets have come.
    fn octets(&self) -> u64 {
        match &self.moves {
            Some(moves) => moves.octets(),
            None => 0,
        }
    }

    // Begins a window now. Returns its end: `None` if the clock cannot be read.
    fn begin(&mut self) -> Option<Instant> {
        let now = Instant::now(&self.rt).ok()?;
        let end = now.checked_add(Duration::from_secs(u64::from(WINDOW_SECONDS)))?;
        self.window = Some(Window {
            end,
            octets: self.octets(),
            still: None,
        });
        Some(end)
    }

    // Has the time of the window stand still.
    fn stand_still(&mut self) {
        if let Some(window) = &mut self.window
            && window.still.is_none()
        {
            window.still = Instant::now(&self.rt).ok();
        }
    }

    // When the window ends, whose time goes on. `None` if the clock cannot be read.
    fn end(&mut self) -> Option<Instant> {
        let Some(window) = &mut self.window else {
            return self.begin();
        };
        if let Some(still) = window.still {
            let now = Instant::now(&self.rt).ok()?;
            window.end = window
                .end
                .checked_add(now.saturating_duration_since(still))?;
            window.still = None;
        }
        Some(window.end)
    }

    // How many octets have come in the window.
    fn came(&self) -> u64 {
        match &self.window {
            Some(window) => self.octets().saturating_sub(window.octets),
            None => 0,
        }
    }

    // Whether the time has come, or no timer can be made. The task is woken then otherwise.
    fn has_come(&mut self, cx: &mut Context<'_>, end: Instant) -> bool
        ensures { Keeps cx.old cx.new }
    {
        if self.sleep.is_none() {
            let sleep = self.timer(end);
            put(&mut self.sleep, sleep);
        }
        match &mut self.sleep {
            Some(sleep) => has_come(sleep, cx, end),
            None => true,
        }
    }

    // The timer until then. `None` if out of memory.
    fn timer(&self, end: Instant) -> Option<Sleep> {
        match &self.timers {
            Some(timers) => timers.sleep_until(end).ok(),
            None => None,
        }
    }

    /// Whether the content comes too slowly. Also true if the clock cannot be read, or if out of memory.
    pub fn is_over(&mut self, cx: &mut Context<'_>) -> bool
        ensures { Keeps cx.old cx.new }
    {
        if self.is_still() {
            self.stand_still();
            return false;
        }
        let Some(end) = self.end() else {
            return true;
        };
        if !self.has_come(cx, end) {
            return false;
        }
        if is_too_slow(self.least, self.came()) {
            return true;
        }
        match self.begin() {
            Some(end) => self.has_come(cx, end),
            None => true,
        }
    }
}

/// How long the connection of an exchange may be without an octet, if that is limited, and how fast its content has to come, if it has to.
pub struct Stillness<R> {
    pub rt: R,
    pub idle: Option<Duration>,
    /// The least octets a second. None if there is no least speed.
    pub speed: Option<u32>,
    /// None if out of memory, and where nothing is limited.
    pub timers: Option<Handle>,
}

impl<R: Drop> Drop for Stillness<R> {
    fn drop(self) {
        let Self {
            rt,
            idle: _,
            speed: _,
            timers,
        } = self;
        drop(rt);
        drop(timers);
    }
}

impl<R: Clock + Copy> Stillness<R> {
    /// The patience with a connection whose octets are noted here, if it is limited.
    pub fn patience(&self, moves: &Moves) -> Option<Patience<R>> {
        let still = self.idle?;
        let moves = moves.share().ok();
        Some(Patience::new(self.rt, self.timers(), moves, still))
    }

    /// The least speed of a content whose octets are noted here, if there is one.
    pub fn speed(&self, moves: &Moves) -> Option<Speed<R>> {
        Some(Speed {
            rt: self.rt,
            least: self.speed?,
            timers: self.timers(),
            moves: moves.share().ok(),
            window: None,
            sleep: None,
        })
    }

    // The timers of its patience. Returns `None` if out of memory.
    fn timers(&self) -> Option<Handle> {
        match &self.timers {
            Some(timers) => timers.clone().ok(),
            None => None,
        }
    }
}

// Whether it is as late as this. The timer is reset where it has fired too early.
fn has_come(sleep: &mut Sleep, cx: &mut Context<'_>, deadline: Instant) -> bool
    ensures { Keeps cx.old cx.new }
{
    if sleep.poll(cx).is_pending() {
        return false;
    }
    if deadline <= sleep.deadline() {
        return true;
    }
    sleep.reset(deadline);
    sleep.poll(cx).is_ready()
}
