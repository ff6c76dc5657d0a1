//! The connection of a client, and the tunnel that may come after it.
ghost use Rattle.std.specs.Prelude.{◌≡◌, IfSome, None};
ghost use Rattle.futures.specs.Poll.{OnPending};
ghost use Rattle.futures.specs.Task.{Covers, Keeps};

use crate::account::{End, SharedFacts, Telling};
use crate::copying::{Carry, Copying, HandOver};
use crate::requests::Answers;
use crate::tunnel::{Dialer, KeepTunnel, Opened, Opening, Reach, Wanted};
use futures::channel::oneshot;
use futures::task::{Context, Poll};
use futures::{Future, ready};
use http_traffic::TunnelEnd;
use std::alloc::Global;
use std::mem;
use std::sync::Arc;
use std::sync::atomic::{AtomicUsize, Ordering};
use std::time::Clock;

/// One of the open connections that are counted, until this is dropped.
pub(crate) struct Counted {
    count: Arc<AtomicUsize>,
}

impl Counted {
    /// Counts one more. Returns `None` if there are too many handles.
    pub(crate) fn new(count: &Arc<AtomicUsize>) -> Option<Counted> {
        let count = Arc::try_clone(count).ok()?;
        count.fetch_add(1, Ordering::SeqCst);
        Some(Counted { count })
    }
}

impl Drop for Counted {
    fn drop(self) {
        let Counted { count } = self;
        count.fetch_sub(1, Ordering::SeqCst);
    }
}

/// What watches over a connection.
pub(crate) struct Watching<R, H, K> {
    pub(crate) alloc: Global,
    pub(crate) dialer: Dialer<R>,
    pub(crate) answers: H,
    pub(crate) facts: SharedFacts<K>,
    /// None where connections aren't counted.
    pub(crate) counted: Option<Counted>,
}

// Written by hand, so that what lets it go is one call for the prover (docs/GATE.md).
impl<R: Drop, H: Drop, K: Drop> Drop for Watching<R, H, K> {
    fn drop(self) {
        let Self {
            alloc: _,
            dialer,
            answers,
            facts,
            counted,
        } = self;
        drop(dialer);
        drop(answers);
        drop(facts);
        drop(counted);
    }
}

/// What a connection asks of the one that watches over it.
pub(crate) trait Oversee: Drop {
    /// Takes the tunnel that is asked for, and notes that its way begins.
    fn take_wanted(&self) -> Option<Box<Wanted>>;

    /// Notes how the way to a tunnel ended: with the tunnel, which is kept, or with this status, which is returned as it is.
    fn note_end(&self, found: Result<Box<Opened>, u16>) -> Result<(), u16>;

    /// Tells the end of the connection, as `Facts::tell_end` has it.
    fn tell_end(&self, end: End);

    /// Tells what became of the request whose tunnel has not taken over the socket, if there is one.
    fn tell_untaken(&self);
}

/// Finds the way `W` to a tunnel.
pub(crate) trait FindWay<W>: Oversee {
    /// The way to this end. Returns `None` if out of memory.
    fn way(&self, end: TunnelEnd) -> Option<Box<W>>;
}

/// Has a tunnel `T` take over the socket of a connection `C`.
pub(crate) trait TakeOver<C, T>: Drop {
    /// Takes the connection apart, once it has ended, and its socket over for a tunnel if the last response has opened one.
    fn tunnel_after(&self, inner: C) -> Option<Box<T>>;
}

impl<R: Clock + Copy, H: Answers, K: KeepTunnel> Oversee for Watching<R, H, K> {
    fn take_wanted(&self) -> Option<Box<Wanted>> {
        let wanted = self.facts.take_wanted()?;
        self.facts.note_way(self.dialer.now());
        Some(wanted)
    }

    fn note_end(&self, found: Result<Box<Opened>, u16>) -> Result<(), u16> {
        match found {
            Ok(opened) => {
                self.facts.put_opened(opened);
                Ok(())
            }
            Err(status) => {
                self.facts.note_no_way(status);
                Err(status)
            }
        }
    }

    fn tell_end(&self, end: End) {
        self.facts.tell_end(&self.answers, end);
    }

    fn tell_untaken(&self) {
        if self.facts.take_opened().is_some() {
            drop(Telling::resumed(&self.answers, &self.facts));
        }
    }
}

impl<R: Clock + Copy, H: Answers, K: KeepTunnel> FindWay<Opening<R, H>> for Watching<R, H, K> {
    fn way(&self, end: TunnelEnd) -> Option<Box<Opening<R, H>>> {
        let Some((dialer, answers)) = self.means() else {
            drop(end);
            return None;
        };
        let opening = Opening::new(dialer, answers, end);
        Box::new(self.alloc, opening).ok()
    }
}

impl<R: Clock + Copy, H: Answers, K> Watching<R, H, K> {
    // What a way is gone with. Returns `None` if out of memory.
    fn means(&self) -> Option<(Dialer<R>, H)> {
        let dialer = self.dialer.share().ok()?;
        match self.answers.share() {
            Ok(answers) => Some((dialer, answers)),
            Err(_) => {
                drop(dialer);
                None
            }
        }
    }
}

impl<C, R, H, K> TakeOver<C, Copying<C::Socket, R, Telling<H, K>>> for Watching<R, H, K>
where
    C: HandOver,
    R: Clock + Copy,
    H: Answers,
    K: KeepTunnel,
{
    fn tunnel_after(&self, inner: C) -> Option<Box<Copying<C::Socket, R, Telling<H, K>>>> {
        let Some(opened) = self.facts.take_opened() else {
            drop(inner);
            return None;
        };
        let telling = Telling::resumed(&self.answers, &self.facts);
        let (client, sent) = inner.hand_over();
        self.facts.begin_tunnel();
        match Copying::new(&self.dialer, client, sent, opened, telling) {
            Ok(copying) => Box::new(self.alloc, copying).ok(),
            Err(_) => None,
        }
    }
}

/// What goes on beside a connection `C`, and after it. What has the connection is generic over it, since the prover does not look behind a
/// type parameter (docs/GATE.md).
pub(crate) trait Watch<C>: Drop {
    /// Begins the way to a tunnel if one is asked for, and goes on the way that has begun. The service of the connection receives its end.
    fn poll_way(&mut self, cx: &mut Context<'_>)
        ensures { Keeps cx.old cx.new };

    /// Takes the connection apart, once it has ended, and its socket over for a tunnel if the last response has opened one.
    fn take_over(&mut self, inner: C);

    /// Whether a tunnel has taken over the socket.
    fn has_tunnel(&self) -> bool;

    /// Goes on with the tunnel. Ready once it has ended, or where there is none.
    fn poll_tunnel(&mut self, cx: &mut Context<'_>) -> Poll<()>
        ensures registered { OnPending result (Covers cx.new (λ _. ⊥)) }
        ensures kept { Keeps cx.old cx.new };

    /// Tells the end of the connection, as `Facts::tell_end` has it.
    fn tell_end(&self, end: End);

    /// Tells what became of the request whose tunnel has not taken over the socket, if there is one.
    fn tell_untaken(&self);
}

/// What watches over a connection, the way `W` to the server of a tunnel, and the tunnel `T`.
pub(crate) struct Tunnels<M, W, T> {
    watching: M,
    opening: Option<Box<W>>,
    // Receives whether the way has been found.
    done: Option<oneshot::Sender<Result<(), u16>>>,
    copying: Option<Box<T>>,
}

// Written by hand, so that what lets it go is one call for the prover (docs/GATE.md).
impl<M: Drop, W: Drop, T: Drop> Drop for Tunnels<M, W, T> {
    fn drop(self) {
        let Self {
            watching,
            opening,
            done,
            copying,
        } = self;
        drop(copying);
        drop(done);
        drop(opening);
        drop(watching);
    }
}

/// What goes on beside a connection over which `M` watches.
pub(crate) trait OfWatching<M>: Drop {
    /// No tunnel as yet.
    fn of(watching: M) -> Self;
}

impl<M: Drop, W: Drop, T: Drop> OfWatching<M> for Tunnels<M, W, T> {
    fn of(watching: M) -> Tunnels<M, W, T> {
        Tunnels {
            watching,
            opening: None,
            done: None,
            copying: None,
        }
    }
}

impl<M: FindWay<W>, W: Reach, T: Drop> Tunnels<M, W, T> {
    // Begins the way to a tunnel, if one is asked for.
    fn begin_opening(&mut self) {
        let Some(wanted) = self.watching.take_wanted() else {
            return;
        };
        let Wanted { end, done } = Box::into_inner(wanted);
        match self.watching.way(end) {
            Some(opening) => {
                drop(self.opening.replace(opening));
                drop(self.done.replace(done));
            }
            None => {
                let ended = self.watching.note_end(Err(503));
                drop(done.send(ended));
            }
        }
    }

    // Goes on the way to a tunnel. The service of the connection receives its end.
    fn poll_opening(&mut self, cx: &mut Context<'_>)
        ensures kept { Keeps cx.old cx.new }
    {
        let Some(opening) = &mut self.opening else {
            return;
        };
        let Poll::Ready(found) = opening.poll_reached(cx) else {
            return;
        };
        drop(self.opening.take());
        let found = self.watching.note_end(found);
        if let Some(done) = self.done.take() {
            drop(done.send(found));
        }
        let _: Poll<()> = cx.yield_now();
    }
}

impl<C, M, W, T> Watch<C> for Tunnels<M, W, T>
where
    M: FindWay<W> + TakeOver<C, T>,
    W: Reach,
    T: Carry,
{
    fn poll_way(&mut self, cx: &mut Context<'_>) {
        self.begin_opening();
        self.poll_opening(cx);
    }

    fn take_over(&mut self, inner: C) {
        let copying = self.watching.tunnel_after(inner);
        drop(mem::replace(&mut self.copying, copying));
    }

    fn has_tunnel(&self) -> bool {
        self.copying.is_some()
    }

    fn poll_tunnel(&mut self, cx: &mut Context<'_>) -> Poll<()> {
        match &mut self.copying {
            Some(copying) => copying.poll_carried(cx),
            None => Poll::Ready(()),
        }
    }

    fn tell_end(&self, end: End) {
        self.watching.tell_end(end);
    }

    fn tell_untaken(&self) {
        self.watching.tell_untaken();
    }
}

/// The connection of a client, and after it the tunnel that it has opened. Its end is told where it comes before the head of a request
/// is complete.
pub(crate) struct Watched<C, W: Watch<C>> {
    alloc: Global,
    // None once there is a tunnel.
    inner: Option<C>,
    watch: W,
    // How the connection ended, once it has.
    end: End,
}

impl<C: Future<Output = hyper::Result<()>>, W: Watch<C>> Watched<C, W> {
    /// A connection that has not ended, and has no tunnel.
    pub(crate) fn new(alloc: Global, inner: C, watch: W) -> Watched<C, W>
        requires { C.can_poll inner }
        ensures { IfSome result.inner C.can_poll }
    {
        Watched {
            alloc,
            inner: Some(inner),
            watch,
            end: End::Broken,
        }
    }

    // Takes the connection apart, once it has ended, and its socket over for a tunnel if the last response has opened one.
    fn take_over(&mut self)
        ensures { self.new.inner ≡ None }
    {
        let Some(inner) = self.inner.take() else {
            return;
        };
        self.watch.take_over(inner);
    }

    // Serves the connection until it ends or is taken over by a tunnel.
    fn poll_inner(&mut self, cx: &mut Context<'_>) -> Poll<End>
        requires { IfSome self.old.inner C.can_poll }
        ensures again { OnPending result (IfSome self.new.inner C.can_poll) }
        ensures registered { OnPending result (Covers cx.new (λ _. ⊥)) }
        ensures kept { Keeps cx.old cx.new }
    {
        let Some(inner) = &mut self.inner else {
            return Poll::Ready(End::Regular);
        };
        match ready!(inner.poll(cx)) {
            Ok(()) => Poll::Ready(End::Regular),
            Err(error) => {
                let end = end_of(self.alloc, &error);
                drop(error);
                Poll::Ready(end)
            }
        }
    }
}

impl<C: Future<Output = hyper::Result<()>>, W: Watch<C>> Future for Watched<C, W> {
    type Output = ();

    ghost can_poll = { λ w. IfSome w.inner C.can_poll };

    fn poll(&mut self, cx: &mut Context<'_>) -> Poll<()> {
        if self.watch.has_tunnel() {
            return self.watch.poll_tunnel(cx);
        }
        let Poll::Ready(end) = self.poll_inner(cx) else {
            self.watch.poll_way(cx);
            return Poll::Pending;
        };
        self.end = end;
        if !matches!(end, End::Regular) {
            return Poll::Ready(());
        }
        self.take_over();
        if self.watch.has_tunnel() {
            return cx.yield_now();
        }
        Poll::Ready(())
    }
}

impl<C: Drop, W: Watch<C>> Drop for Watched<C, W> {
    fn drop(self) {
        let Watched {
            alloc: _,
            inner,
            watch,
            end,
        } = self;
        watch.tell_end(end);
        drop(inner);
        // Where the connection has failed before its socket was taken over, this tells what became of the request.
        watch.tell_untaken();
        drop(watch);
    }
}

// The end of a connection with this error.
fn end_of(alloc: Global, error: &hyper::Error) -> End {
    if !error.is_parse() {
        return End::Broken;
    }
    if !error.is_parse_too_large() {
        return End::Refused(400);
    }
    // 414 and 431 are told apart by their text alone.
    match format!(in alloc; "{}", error) {
        Ok(text) if text.as_str() == "request line is too long" => End::Refused(414),
        _ => End::Refused(431),
    }
}
