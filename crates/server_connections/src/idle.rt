//! Connections that are kept while they are idle, each by the thread that made it.
ghost use Rattle.futures.specs.Task.{Keeps};

use crate::table::ServerConnections;
use futures::task::{Context, Poll, Source, Waker};
use std::alloc::{AllocError, Global};
use std::net::SocketAddr;
use std::sync::atomic::{AtomicBool, Ordering};
use std::sync::{Arc, Mutex, Wait};

/// An idle connection, as all threads see it.
pub(crate) struct Listed {
    server: SocketAddr,
    host: String,
    // The number of its thread.
    thread: usize,
    // Whether it carries a request again, or is closed.
    is_gone: AtomicBool,
    // Whether it is to be closed for another.
    gives_way: AtomicBool,
}

// Written by hand, so that what lets it go is one call for the prover (docs/GATE.md).
impl Drop for Listed {
    fn drop(self) {
        let Self {
            server: _,
            host: _,
            thread: _,
            is_gone: _,
            gives_way: _,
        } = self;
    }
}

impl Listed {
    // Whether it leads to this server under this name.
    fn is_for(&self, server: SocketAddr, host: &str) -> bool {
        self.server == server && self.host.as_str() == host
    }

    /// Whether it leads where another one leads.
    pub(crate) fn is_like(&self, other: &Listed) -> bool {
        self.is_for(other.server, other.host.as_str())
    }

    /// Whether it carries a request again, or is closed.
    pub(crate) fn is_gone(&self) -> bool {
        self.is_gone.load(Ordering::SeqCst)
    }

    /// Has it closed by its thread.
    pub(crate) fn give_way(&self) {
        self.gives_way.store(true, Ordering::SeqCst);
    }

    /// The number of its thread.
    pub(crate) fn thread(&self) -> usize {
        self.thread
    }
}

/// What the other threads know of one.
pub(crate) struct Post {
    // Whether one of the thread's connections is to give way that was not looked for yet.
    is_asked: AtomicBool,
    // Wakes the thread.
    bell: Mutex<Option<Waker>>,
}

// Written by hand, so that what lets it go is one call for the prover (docs/GATE.md).
impl Drop for Post {
    fn drop(self) {
        let Self {
            is_asked: _,
            bell: _,
        } = self;
    }
}

impl Post {
    /// That of a thread that is asked for nothing.
    pub(crate) fn new() -> Post {
        Post {
            is_asked: AtomicBool::new(false),
            bell: Mutex::new(None),
        }
    }

    /// Has the thread look for connections that are to give way.
    pub(crate) fn ring<R: Wait>(&self, rt: &R) {
        let mut bell = self.bell.lock(rt);
        // Within the lock, so that a thread that is just beginning to listen does not take it back without having looked.
        self.is_asked.store(true, Ordering::SeqCst);
        // A waker that is dropped wakes its task.
        *bell = None;
    }
}

/// A thread's part in the idle connections of all threads.
pub struct KeptShare {
    all: Arc<ServerConnections>,
    // The number of the thread.
    thread: usize,
}

// Written by hand, so that what lets it go is one call for the prover (docs/GATE.md).
impl Drop for KeptShare {
    fn drop(self) {
        let Self { all: _, thread: _ } = self;
    }
}

impl KeptShare {
    /// The part of the thread with this number, from 0 on. Errors: there are too many handles.
    pub fn new(all: &Arc<ServerConnections>, thread: usize) -> Result<KeptShare, AllocError> {
        let all = Arc::try_clone(all)?;
        Ok(KeptShare { all, thread })
    }

    /// Another handle to the same. Errors: there are too many.
    pub fn share(&self) -> Result<KeptShare, AllocError> {
        KeptShare::new(&self.all, self.thread)
    }

    /// Another handle to the connections of all threads. Errors: there are too many.
    pub fn servers(&self) -> Result<Arc<ServerConnections>, AllocError> {
        Arc::try_clone(&self.all)
    }

    /// The connections of all threads.
    pub fn all(&self) -> &ServerConnections {
        &self.all
    }

    /// A place for one more idle connection of the thread, to this server under this name. Where there are as many as may be, to that server
    /// or in all, the one of these that has been idle for longest, of whichever thread, gives way to it. `None` if out of memory.
    pub fn enter<R: Wait>(
        &self,
        rt: &R,
        alloc: Global,
        server: SocketAddr,
        host: String,
    ) -> Option<IdlePlace> {
        let listed = Listed {
            server,
            host,
            thread: self.thread,
            is_gone: AtomicBool::new(false),
            gives_way: AtomicBool::new(false),
        };
        let listed = Arc::new(alloc, listed).ok()?;
        let own = Arc::try_clone(&listed).ok()?;
        let place = IdlePlace { listed };
        if self.all.add(rt, own) {
            Some(place)
        } else {
            None
        }
    }

    /// Whether one of the thread's connections is to give way that was not looked for yet.
    pub fn is_asked(&self) -> bool {
        match self.all.post(self.thread) {
            Some(post) => post.is_asked.load(Ordering::SeqCst),
            None => false,
        }
    }

    /// Has this task woken when one of the thread's connections is to give way, beside those that are now.
    pub fn listen<R: Wait>(&self, rt: &R, cx: &mut Context<'_>)
        ensures { Keeps cx.old cx.new }
    {
        let Some(post) = self.all.post(self.thread) else {
            return;
        };
        let mut bell = post.bell.lock(rt);
        let _: Poll<()> = cx.register(&Source::new(), &mut *bell);
        post.is_asked.store(false, Ordering::SeqCst);
    }
}

/// The place of an idle connection among those of all threads, until this is dropped.
pub struct IdlePlace {
    listed: Arc<Listed>,
}

impl IdlePlace {
    /// Whether its connection leads to this server under this name.
    pub fn is_for(&self, server: SocketAddr, host: &str) -> bool {
        self.listed.is_for(server, host)
    }

    /// Whether its connection is to be closed for another.
    pub fn gives_way(&self) -> bool {
        self.listed.gives_way.load(Ordering::SeqCst)
    }
}

impl Drop for IdlePlace {
    fn drop(self) {
        let Self { listed } = self;
        listed.is_gone.store(true, Ordering::SeqCst);
    }
}
