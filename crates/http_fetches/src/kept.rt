//! Connections that are kept after an answer for further requests, in one thread.
ghost use Rattle.futures.specs.Task.{Keeps};

use crate::fetching::put;
use futures::Future;
use futures::task::{Context, Poll};
use http_rules::Admitted;
use server_connections::{IdlePlace, KeptShare};
use shared_thread::{Paced, Tend};
use std::alloc::{AllocError, Global};
use std::cell::RefCell;
use std::rc::Rc;
use std::sync::Wait;
use std::time::{Clock, Duration, Instant};
use tokio::time::{Handle, Sleep};

/// After how many seconds they are looked at again.
const LOOK: u64 = 1;

// A connection that carries no request.
struct Idle {
    socket: Paced,
    // When it is closed.
    until: Instant,
    // Where it leads, and its place among those of all threads. The last to be dropped.
    place: IdlePlace,
}

// Written by hand, as other drops of this file, so that what lets it go is one call for the prover (docs/GATE.md).
impl Drop for Idle {
    fn drop(self) {
        let Self {
            socket,
            until: _,
            place,
        } = self;
        drop(socket);
        drop(place);
    }
}

impl Idle {
    // Whether it may still carry a request: its time is not over, and nothing has come on it since its last answer.
    fn is_good(&self, now: Instant) -> bool {
        now < self.until && self.socket.is_silent()
    }

    // The connection itself, if it may still carry a request. It is closed otherwise.
    fn into_good(self, now: Instant) -> Option<Paced> {
        if !self.is_good(now) {
            drop(self);
            return None;
        }
        let Self {
            socket,
            until: _until,
            place,
        } = self;
        drop(place);
        Some(socket)
    }
}

// The idle connections of a thread, those that were kept first before others.
#[derive(Drop)]
struct Bench {
    idle: Vec<Idle>,
    // The thread's part in those of all threads.
    share: KeptShare,
}

impl Bench {
    // Takes the connection to this server under this name that was kept last and may still carry a request. Those that may not are
    // closed on the way.
    fn take(&mut self, server: Admitted, host: &str, now: Instant) -> Option<Paced> {
        for place in (0..self.idle.len()).rev() {
            if place < self.idle.len() && self.idle[place].place.is_for(server.address(), host) {
                let found = self.idle.remove(place).into_good(now);
                if found.is_some() {
                    return found;
                }
                drop(found);
            }
        }
        None
    }

    // Closes those that give way to others.
    fn close_asked(&mut self) {
        self.idle.retain(|it| !it.place.gives_way());
    }
}

/// The idle connections of a thread. Reference-counted within it.
pub struct Kept<R> {
    rt: R,
    alloc: Global,
    // How long one may be idle.
    keep: Duration,
    bench: Rc<RefCell<Bench>>,
}

impl<R: Drop> Drop for Kept<R> {
    fn drop(self) {
        let Self {
            rt: _,
            alloc: _,
            keep: _,
            bench: _,
        } = self;
    }
}

impl<R: Copy> Kept<R> {
    /// None as yet, each to be closed after so long; the thread has this part in those of all threads. Errors: out of memory.
    pub fn new(
        rt: R,
        alloc: Global,
        keep: Duration,
        share: &KeptShare,
    ) -> Result<Kept<R>, AllocError> {
        let bench = Bench {
            idle: Vec::new(alloc),
            share: share.share()?,
        };
        Ok(Kept {
            rt,
            alloc,
            keep,
            bench: Rc::new(alloc, RefCell::new(bench))?,
        })
    }

    /// Another handle to the same. Errors: there are too many.
    pub fn share(&self) -> Result<Kept<R>, AllocError> {
        Ok(Kept {
            rt: self.rt,
            alloc: self.alloc,
            keep: self.keep,
            bench: self.bench.clone()?,
        })
    }
}

impl<R: Wait + Clock + Copy> Kept<R> {
    /// Takes a connection to this server under this name on which nothing has come since its last answer. `None` if there is none, or if
    /// the clock cannot be read.
    pub fn take(&self, server: Admitted, host: &str) -> Option<Paced> {
        if self.is_empty() {
            return None;
        }
        let now = Instant::now(&self.rt).ok()?;
        let mut bench = self.bench.try_borrow_mut().ok()?;
        bench.take(server, host, now)
    }

    /// Keeps a connection to this server under this name whose last answer has been read whole. It is closed for lack of memory.
    pub fn keep(&self, server: Admitted, host: String, socket: Paced) {
        let Some(until) = self.until() else {
            drop(socket);
            return;
        };
        match self.bench.try_borrow_mut() {
            Ok(mut bench) => {
                let entered = bench
                    .share
                    .enter(&self.rt, self.alloc, server.address(), host);
                let Some(place) = entered else {
                    drop(socket);
                    return;
                };
                let _ = bench.idle.push(Idle {
                    socket,
                    until,
                    place,
                });
            }
            Err(_) => drop(socket),
        }
    }

    // When a connection is closed that is kept now. `None` if the clock cannot be read.
    fn until(&self) -> Option<Instant> {
        Instant::now(&self.rt).ok()?.checked_add(self.keep)
    }

    // Whether there is none.
    fn is_empty(&self) -> bool {
        match self.bench.try_borrow_mut() {
            Ok(bench) => bench.idle.is_empty(),
            Err(_) => true,
        }
    }

    // Closes those that may carry no request any more, and all of them if the clock cannot be read.
    fn look(&self) {
        let Ok(mut bench) = self.bench.try_borrow_mut() else {
            return;
        };
        match Instant::now(&self.rt) {
            Ok(now) => bench.idle.retain(|it| it.is_good(now)),
            Err(_) => bench.idle.clear(),
        }
    }

    // Closes those that give way to connections of any thread, and has this task woken when further ones are to. Nothing is done where
    // the task `listens` already and none is to.
    fn heed(&self, listens: bool, cx: &mut Context<'_>)
        ensures { Keeps cx.old cx.new }
    {
        let Ok(mut bench) = self.bench.try_borrow_mut() else {
            return;
        };
        if listens && !bench.share.is_asked() {
            return;
        }
        bench.share.listen(&self.rt, cx);
        bench.close_asked();
    }
}

/// Closes the idle connections of a thread once their time is over, or their server has ended them.
pub struct Keeper<R> {
    rt: R,
    // None where no connection is kept.
    kept: Option<Kept<R>>,
    // None if out of memory.
    timers: Option<Handle>,
    // Runs while there are some.
    sleep: Option<Sleep>,
    // Whether the task is woken when one is to give way.
    listens: bool,
}

impl<R: Drop> Drop for Keeper<R> {
    fn drop(self) {
        let Self {
            rt,
            kept,
            timers,
            sleep,
            listens: _,
        } = self;
        drop(rt);
        drop(kept);
        drop(timers);
        drop(sleep);
    }
}

impl<R: Wait + Clock + Copy> Keeper<R> {
    /// Looks after these.
    pub fn new(rt: R, kept: Option<Kept<R>>, timers: Option<Handle>) -> Keeper<R> {
        Keeper {
            rt,
            kept,
            timers,
            sleep: None,
            listens: false,
        }
    }

    // The timer until the next look. `None` if out of memory, or if the clock cannot be read.
    fn timer(&self) -> Option<Sleep> {
        match &self.timers {
            Some(timers) => timers.sleep(&self.rt, Duration::from_secs(LOOK)).ok(),
            None => None,
        }
    }

    // Whether it is time to look at them.
    fn is_due(&mut self, cx: &mut Context<'_>) -> bool
        ensures { Keeps cx.old cx.new }
    {
        if self.sleep.is_none() {
            let sleep = self.timer();
            put(&mut self.sleep, sleep);
        }
        match &mut self.sleep {
            Some(sleep) => sleep.poll(cx).is_ready(),
            None => true,
        }
    }

    // Whether there are some.
    fn has_some(&self) -> bool {
        match &self.kept {
            Some(kept) => !kept.is_empty(),
            None => false,
        }
    }

    // Looks at them.
    fn look(&self) {
        if let Some(kept) = &self.kept {
            kept.look();
        }
    }

    // Closes those that give way to others.
    fn heed(&mut self, cx: &mut Context<'_>)
        ensures { Keeps cx.old cx.new }
    {
        if let Some(kept) = &self.kept {
            kept.heed(self.listens, cx);
        }
        self.listens = true;
    }
}

impl<R: Wait + Clock + Copy + Drop> Tend for Keeper<R> {
    fn poll_tend(&mut self, cx: &mut Context<'_>)
        ensures { Keeps cx.old cx.new }
    {
        if !self.has_some() {
            return;
        }
        self.heed(cx);
        if !self.has_some() || !self.is_due(cx) {
            return;
        }
        self.look();
        put(&mut self.sleep, None);
        if self.has_some() {
            let _ = self.is_due(cx);
        }
    }
}
