//! Connections to servers, over all threads.
use crate::attempts::Attempts;
use crate::idle::{Listed, Post};
use crate::place::ServerPlace;
use fair_use::{FileRoom, GivesWay, gives_way, may_be_one_more, room_for};
use std::alloc::{AllocError, Global};
use std::sync::atomic::{AtomicU64, AtomicUsize, Ordering};
use std::sync::{Arc, Mutex, Wait};

// Which are idle, and for how many there is room.
struct Held {
    // How many there may be, those that carry something and the idle ones together.
    most: usize,
    // The idle ones, in the order in which they became idle. Those that are gone stand there until one more comes.
    listed: Vec<Arc<Listed>>,
}

// Written by hand, so that what lets it go is one call for the prover (docs/GATE.md).
impl Drop for Held {
    fn drop(self) {
        let Self { most: _, listed: _ } = self;
    }
}

impl Held {
    // What becomes of one more connection beside so many that carry something.
    fn room(&self, busy: usize) -> FileRoom {
        room_for(self.most, busy, self.listed.len())
    }

    // Forgets those that carry a request again or are closed.
    fn forget_gone(&mut self) {
        self.listed.retain(|it| !it.is_gone());
    }

    // Takes out the one that is to give way to this one, as `gives_way` says. `None` if none is.
    fn take_for(&mut self, new: &Listed) -> Option<Arc<Listed>> {
        let to_server = count_like(self.listed.as_slice(), new);
        match gives_way(to_server, self.listed.len()) {
            GivesWay::Nobody => None,
            GivesWay::OldestThere => {
                let place = first_like(self.listed.as_slice(), new)?;
                self.take_at(place)
            }
            GivesWay::Oldest => self.take_at(0),
        }
    }

    // Takes out the one at this place. `None` if there is none.
    fn take_at(&mut self, place: usize) -> Option<Arc<Listed>> {
        if place < self.listed.len() {
            Some(self.listed.remove(place))
        } else {
            None
        }
    }
}

// How many of these lead where another one leads.
fn count_like(listed: &[Arc<Listed>], other: &Listed) -> usize {
    let mut count = 0usize;
    for it in listed {
        if it.is_like(other) {
            count = count.saturating_add(1);
        }
    }
    count
}

// The place of the first of these that leads where another one leads. `None` if none does.
fn first_like(listed: &[Arc<Listed>], other: &Listed) -> Option<usize> {
    for (place, it) in listed.iter().enumerate() {
        if it.is_like(other) {
            return Some(place);
        }
    }
    None
}

/// Connections to servers, over all threads: those that carry something, and those that are kept while they are idle.
pub struct ServerConnections {
    // How many carry something.
    busy: Arc<AtomicUsize>,
    // For how many there was no room.
    refused: AtomicU64,
    // Attempts to connect that go beside others.
    attempts: Attempts,
    held: Mutex<Held>,
    // One for each thread that keeps some.
    posts: Vec<Post>,
}

// Written by hand, so that what lets it go is one call for the prover (docs/GATE.md).
impl Drop for ServerConnections {
    fn drop(self) {
        let Self {
            busy: _,
            refused: _,
            attempts: _,
            held: _,
            posts: _,
        } = self;
    }
}

impl ServerConnections {
    /// None as yet, and room for any number; so many threads keep some. Errors: out of memory.
    pub fn new(alloc: Global, threads: usize) -> Result<ServerConnections, AllocError> {
        let mut posts = Vec::with_capacity(alloc, threads)?;
        for _ in 0..threads {
            posts.push(Post::new())?;
        }
        let held = Held {
            most: usize::MAX,
            listed: Vec::new(alloc),
        };
        Ok(ServerConnections {
            busy: Arc::new(alloc, AtomicUsize::new(0))?,
            refused: AtomicU64::new(0),
            attempts: Attempts::new(alloc)?,
            held: Mutex::new(held),
            posts,
        })
    }

    /// Has there be so many at most from now on.
    pub fn limit<R: Wait>(&self, rt: &R, most: usize) {
        let mut held = self.held.lock(rt);
        held.most = most;
    }

    /// A place for one more connection. Where there is no room the one that has been idle for longest, of whichever thread, is closed for it.
    /// `None` if none is idle either, which is counted.
    pub fn take<R: Wait>(&self, rt: &R) -> Option<ServerPlace> {
        let place = self.take_uncounted(rt);
        if place.is_none() {
            self.refused.fetch_add(1, Ordering::SeqCst);
        }
        place
    }

    /// As `take`, for an attempt that can as well be made after another one: nothing is counted.
    pub fn take_uncounted<R: Wait>(&self, rt: &R) -> Option<ServerPlace> {
        let place = ServerPlace::new(&self.busy).ok()?;
        let mut held = self.held.lock(rt);
        held.forget_gone();
        let busy = self.busy.load(Ordering::SeqCst).saturating_sub(1);
        match held.room(busy) {
            FileRoom::Free => Some(place),
            FileRoom::InPlaceOfIdle => {
                self.close_oldest(rt, &mut *held);
                Some(place)
            }
            FileRoom::Nothing => {
                drop(place);
                None
            }
        }
    }

    // Has the one closed that has been idle for longest.
    fn close_oldest<R: Wait>(&self, rt: &R, held: &mut Held) {
        if let Some(oldest) = held.take_at(0) {
            self.ask(rt, &oldest);
            drop(oldest);
        }
    }

    /// The attempts to connect that go beside others of the same server.
    pub fn attempts(&self) -> &Attempts {
        &self.attempts
    }

    /// For how many connections there was no room.
    pub fn refused(&self) -> u64 {
        self.refused.load(Ordering::SeqCst)
    }

    /// How many connections carry something.
    pub fn busy(&self) -> usize {
        self.busy.load(Ordering::SeqCst)
    }

    /// How many connections are idle.
    pub fn idle<R: Wait>(&self, rt: &R) -> usize {
        let mut held = self.held.lock(rt);
        held.forget_gone();
        held.listed.len()
    }

    // Has this connection closed by its thread.
    fn ask<R: Wait>(&self, rt: &R, oldest: &Listed) {
        oldest.give_way();
        if let Some(post) = self.posts.get(oldest.thread()) {
            post.ring(rt);
        }
    }

    // Adds an idle connection, which carried something until now. Where there are as many as may be, to its server or in all, or as many as
    // there are files for, the one of these that has been idle for longest gives way to it. Returns whether it was added: `false` if no other
    // can give way, or if out of memory.
    pub(crate) fn add<R: Wait>(&self, rt: &R, new: Arc<Listed>) -> bool {
        let mut held = self.held.lock(rt);
        held.forget_gone();
        if let Some(oldest) = held.take_for(&new) {
            self.ask(rt, &oldest);
            drop(oldest);
        }
        let busy = self.busy.load(Ordering::SeqCst).saturating_sub(1);
        if !may_be_one_more(held.most, busy, held.listed.len()) {
            if held.listed.is_empty() {
                drop(new);
                return false;
            }
            self.close_oldest(rt, &mut *held);
        }
        held.listed.push(new).is_ok()
    }

    // What the other threads know of this one. `None` if it keeps no connections.
    pub(crate) fn post(&self, thread: usize) -> Option<&Post> {
        self.posts.get(thread)
    }
}
