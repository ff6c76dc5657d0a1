//! A socket that fails when its peer is silent for too long.
ghost use Rattle.std.specs.Prelude.{◌≡◌, ⊤};
ghost use Rattle.futures.specs.Task.{Keeps};
ghost use Rattle.tokio.specs.Net.{stream_readable, stream_writable};

use crate::request_line::RequestLine;
use futures::Future;
use futures::task::{Context, Poll};
use shared_thread::{CLIENT_TURN, Paced};
use std::alloc::{AllocError, Global};
use std::cell::Cell;
use std::io;
use std::io::ErrorKind;
use std::rc::Rc;
use std::time::{Clock, Duration, Instant};
use tokio::io::{AsyncRead, AsyncWrite};
use tokio::net::TcpStream;
use tokio::time::{Handle, Sleep};

/// How long a peer may stay silent before its socket fails.
#[derive(Clone, Copy)]
pub struct StreamTimeouts {
    /// Between two requests.
    pub idle: Duration,
    /// From the first octet of a request's head to its end.
    pub head: Duration,
    /// From a request's head to the first piece of its content, and from each piece to the next. What frames the pieces, such as a
    /// chunk's size, is none.
    pub content: Duration,
    /// While a write waits for the peer to read.
    pub taking: Duration,
}

/// What the server waits for.
#[derive(Clone, Copy, PartialEq, Eq)]
pub enum Stage {
    /// The first octet of a request.
    Idle,
    /// The rest of a request's head.
    Head,
    /// The rest of a request's content.
    Content,
    /// Nothing: the peer waits for its response.
    Asked,
    /// Nothing: the connection is the end of a tunnel, whose own time is kept elsewhere.
    Tunnel,
}

// What a connection is doing.
#[derive(Drop)]
struct Doing {
    stage: Cell<Stage>,
    // Whether the stage was set since this was last asked.
    is_set: Cell<bool>,
    // Whether the stage was set or a piece of content came since this was last asked.
    is_anew: Cell<bool>,
    // Whether a write waits for the peer to read.
    is_sending: Cell<bool>,
    // Whether a read failed because the peer was silent for too long.
    has_timed_out: Cell<bool>,
    // How far the line of the next request has come, `None` if nothing of its head has.
    line: Cell<Option<RequestLine>>,
}

/// The stage of a connection, set by its HTTP service and read by its socket. Reference-counted within one thread.
#[derive(Drop)]
pub struct SharedStage(Rc<Doing>);

impl SharedStage {
    /// The stage `Idle`, with one owner.
    pub fn new(alloc: Global) -> Result<SharedStage, AllocError> {
        let doing = Doing {
            stage: Cell::new(Stage::Idle),
            is_set: Cell::new(false),
            is_anew: Cell::new(false),
            is_sending: Cell::new(false),
            has_timed_out: Cell::new(false),
            line: Cell::new(None),
        };
        Ok(SharedStage(Rc::new(alloc, doing)?))
    }

    /// Another handle to the same stage. Errors: there are too many handles.
    pub fn share(&self) -> Result<SharedStage, AllocError> {
        Ok(SharedStage(self.0.clone()?))
    }

    /// The current stage.
    pub fn get(&self) -> Stage {
        self.0.stage.get()
    }

    /// Sets the stage.
    pub fn set(&self, stage: Stage) {
        self.0.stage.set(stage);
        self.0.is_set.set(true);
        self.0.is_anew.set(true);
    }

    /// Notes that a piece of a request's content came, so the peer has the time `content` anew.
    pub fn note_piece(&self) {
        self.0.is_anew.set(true);
    }

    // Whether the stage was set or a piece of content came since this was last asked.
    fn take_anew(&self) -> bool {
        self.0.is_anew.replace(false)
    }

    // Whether the stage was set since this was last asked.
    pub(crate) fn take_set(&self) -> bool {
        self.0.is_set.replace(false)
    }

    /// Whether nothing is under way: the last response was sent, and nothing of the next request has come.
    pub fn is_idle(&self) -> bool {
        self.0.stage.get() == Stage::Idle && !self.0.is_sending.get()
    }

    /// Whether a read has failed because the peer was silent for too long.
    pub fn has_timed_out(&self) -> bool {
        self.0.has_timed_out.get()
    }

    /// Whether the request whose head has come is an OPTIONS for a URL with nothing behind its host and port, which the HTTP library doesn't
    /// tell from one with the path `/`. It is known unless the request line began behind another request in one read. Asked once for each
    /// request.
    pub fn take_no_path(&self) -> bool {
        match self.0.line.replace(None) {
            Some(line) => line.has_no_path(),
            None => false,
        }
    }

    // Notes octets of the next request's head.
    fn note_head(&self, octets: &[u8]) {
        let line = match self.0.line.get() {
            Some(line) => line,
            None => RequestLine::BEGIN,
        };
        self.0.line.set(Some(line.behind(octets)));
    }

    // Notes that a read fails because the peer was silent for too long.
    fn note_silence(&self) {
        self.0.has_timed_out.set(true);
    }

    // Sets whether a write waits for the peer to read.
    fn set_sending(&self, is_sending: bool) {
        self.0.is_sending.set(is_sending);
    }
}

/// A timeout that starts with the first wait after some progress.
#[derive(Drop)]
pub struct Patience<R> {
    rt: R,
    timers: Handle,
    deadline: Option<Instant>,
    // The timer. It is reset only when it fires too early or would fire too late.
    sleep: Option<Sleep>,
}

impl<R: Clock + Drop> Patience<R> {
    /// A timeout that has not started.
    pub fn new(rt: R, timers: Handle) -> Patience<R> {
        Patience {
            rt,
            timers,
            deadline: None,
            sleep: None,
        }
    }

    /// Notes some progress.
    pub fn begin_anew(&mut self) {
        self.deadline = None;
    }

    fn is_waiting(&self) -> bool {
        self.deadline.is_some()
    }

    /// Whether the timeout has passed, also true if the clock cannot be read or if out of memory. If not, the task is polled again
    /// when it has.
    pub fn is_over(&mut self, limit: Duration, cx: &mut Context<'_>) -> bool
        ensures { Keeps cx.old cx.new }
    {
        if self.deadline.is_none() {
            self.deadline = match Instant::now(&self.rt) {
                Ok(now) => now.checked_add(limit),
                Err(_) => None,
            };
        }
        let Some(deadline) = self.deadline else {
            return true;
        };
        if self.sleep.is_none() {
            self.sleep = self.timers.sleep_until(deadline).ok();
        }
        let Some(sleep) = &mut self.sleep else {
            return true;
        };
        if deadline < sleep.deadline() {
            sleep.reset(deadline);
        }
        if let Poll::Pending = sleep.poll(cx) {
            return false;
        }
        if deadline <= sleep.deadline() {
            return true;
        }
        sleep.reset(deadline);
        matches!(sleep.poll(cx), Poll::Ready(_))
    }
}

/// A socket that fails with `TimedOut` when its peer is silent for longer than its limits allow. A read has the limit of the
/// current stage, unless a write is waiting too, and a write has the limit `taking`. The time of `head` starts with the first
/// octet of a head, that of `content` with the last piece of the content that the service noted, and each other time with the last
/// octet received or sent. So octets without end that are no content are an end of the connection as well: a read gives up its turn
/// after some of them, and the time is looked at then. The end of a tunnel has none of these limits.
#[derive(Drop)]
pub struct Patient<R> {
    socket: Paced,
    limits: StreamTimeouts,
    stage: SharedStage,
    coming: Patience<R>,
    going: Patience<R>,
}

impl<R: Clock + Copy> Patient<R> {
    /// The socket with these limits, at the stage that `stage` holds. Errors: out of memory.
    pub fn new(
        rt: R,
        timers: &Handle,
        socket: TcpStream,
        limits: StreamTimeouts,
        stage: SharedStage,
    ) -> Result<Patient<R>, AllocError> {
        Ok(Patient {
            socket: Paced::new(socket, CLIENT_TURN),
            limits,
            stage,
            coming: Patience::new(rt, timers.clone()?),
            going: Patience::new(rt, timers.clone()?),
        })
    }
}

impl<R: Clock + Drop> Patient<R> {
    // Called after each read that brought octets.
    fn note_read(&mut self, octets: &[u8])
        ensures { self.new.socket ≡ self.old.socket }
    {
        match self.stage.get() {
            Stage::Head => self.stage.note_head(octets),
            Stage::Content | Stage::Tunnel => {}
            Stage::Idle => {
                self.stage.set(Stage::Head);
                self.stage.note_head(octets);
            }
            Stage::Asked => {
                // The request has come whole, so this begins the next one.
                self.stage.note_head(octets);
                self.coming.begin_anew();
            }
        }
    }

    // Whether the peer has been silent for longer than the current stage allows.
    fn has_kept_silent(&mut self, cx: &mut Context<'_>) -> bool
        ensures socket { self.new.socket ≡ self.old.socket }
        ensures kept { Keeps cx.old cx.new }
    {
        if self.stage.take_anew() {
            self.coming.begin_anew();
        }
        if self.going.is_waiting() {
            return false;
        }
        let limit = match self.stage.get() {
            Stage::Idle => self.limits.idle,
            Stage::Head => self.limits.head,
            Stage::Content => self.limits.content,
            Stage::Asked | Stage::Tunnel => {
                self.coming.begin_anew();
                return false;
            }
        };
        self.coming.is_over(limit, cx)
    }

    // Whether the peer has not read for longer than it may.
    fn is_too_slow(&mut self, cx: &mut Context<'_>) -> bool
        ensures socket { self.new.socket ≡ self.old.socket }
        ensures kept { Keeps cx.old cx.new }
    {
        if self.stage.get() == Stage::Tunnel {
            return false;
        }
        self.going.is_over(self.limits.taking, cx)
    }
}

impl<R: Clock + Drop> AsyncRead for Patient<R> {
    ghost needs = { λ p source. source ≡ stream_readable p.socket.socket };

    ghost reads = { λ _ _ _. ⊤ };

    ghost is_at_end = { λ _. ⊤ };

    ghost reads_nothing = { λ _. tt };

    ghost reads_in_order = { λ _ _ _ _ _ _ _. tt };

    fn poll_read(&mut self, cx: &mut Context<'_>, buf: &mut [u8]) -> Poll<io::Result<usize>> {
        match AsyncRead::poll_read(&mut self.socket, cx, buf) {
            Poll::Ready(got) => {
                if let Ok(count) = &got
                    && 0 < *count
                    && let Some(octets) = buf.get(..*count)
                {
                    self.note_read(octets);
                }
                Poll::Ready(got)
            }
            Poll::Pending => {
                if self.has_kept_silent(cx) {
                    self.stage.note_silence();
                    return Poll::Ready(Err(io::Error::from(ErrorKind::TimedOut)));
                }
                Poll::Pending
            }
        }
    }
}

impl<R: Clock + Drop> AsyncWrite for Patient<R> {
    ghost needs = { λ p source. source ≡ stream_writable p.socket.socket };

    ghost writes = { λ _ _ _. ⊤ };

    ghost writes_nothing = { λ _. tt };

    ghost writes_in_order = { λ _ _ _ _ _ _ _. tt };

    fn poll_write(&mut self, cx: &mut Context<'_>, buf: &[u8]) -> Poll<io::Result<usize>> {
        match AsyncWrite::poll_write(&mut self.socket, cx, buf) {
            Poll::Ready(put) => {
                self.stage.set_sending(false);
                self.going.begin_anew();
                // What is sent is no piece of the peer's content.
                if self.stage.get() != Stage::Content {
                    self.coming.begin_anew();
                }
                Poll::Ready(put)
            }
            Poll::Pending => {
                self.stage.set_sending(true);
                if self.is_too_slow(cx) {
                    return Poll::Ready(Err(io::Error::from(ErrorKind::TimedOut)));
                }
                Poll::Pending
            }
        }
    }

    fn poll_flush(&mut self, cx: &mut Context<'_>) -> Poll<io::Result<()>> {
        self.socket.poll_flush(cx)
    }

    fn poll_shutdown(&mut self, cx: &mut Context<'_>) -> Poll<io::Result<()>> {
        self.socket.poll_shutdown(cx)
    }
}
