//! The seats of a listener's clients, over all threads that serve them.
ghost use Rattle.std.specs.Prelude.{◌≡◌, ◌+◌, ◌-◌, true, false, IfOk, OnErr, if◌then◌else◌};
ghost use Rattle.futures.specs.Task.{IsArmed, Keeps};

use crate::clients::ClientLimits;
use futures::task::{Context, Poll, Source, Waker};
use std::alloc::{AllocError, Global};
use std::collections::BTreeMap;
use std::net::IpAddr;
use std::sync::atomic::{AtomicBool, Ordering};
use std::sync::{Arc, Mutex, Wait};

// What the other threads know of one.
#[derive(Drop)]
struct Post {
    // Wakes the task that accepts the thread's clients.
    bell: Option<Waker>,
    // Whether a client of the thread waits for a seat.
    is_waiting: bool,
    // Whether the thread leaves the next client to others, since it serves more than another.
    is_resting: bool,
    // The clients that the thread serves.
    clients: usize,
}

// The most clients of an address that has few, where there are seats for at least four times as many.
const FEW_CLIENTS: usize = 8;

// How many clients the threads serve together.
#[derive(Drop)]
struct Counts {
    // How many more there may be.
    free: usize,
    // The connections that give way to a client and whose seats are not free yet.
    giving_way: usize,
    // Whether an accept failed, and no connection has given way and no client has taken a seat since.
    has_failed: bool,
    // The clients of each address.
    addresses: BTreeMap<IpAddr, usize>,
    an_address: usize,
    // With so many clients, or fewer, an address has few.
    few: usize,
    // One for each thread.
    posts: Vec<Post>,
}

impl Counts {
    // No clients of so many threads.
    fn new(alloc: Global, limits: ClientLimits, threads: usize) -> Result<Counts, AllocError> {
        let mut posts = Vec::with_capacity(alloc, threads)?;
        for _ in 0..threads {
            posts.push(Post {
                bell: None,
                is_waiting: false,
                is_resting: false,
                clients: 0,
            })?;
        }
        Ok(Counts {
            free: limits.most,
            giving_way: 0,
            has_failed: false,
            addresses: BTreeMap::new(alloc),
            an_address: limits.an_address,
            few: FEW_CLIENTS.min(limits.most / 4),
            posts,
        })
    }

    fn has_most(&self, address: IpAddr) -> bool {
        match self.addresses.get(&address) {
            Some(count) => self.an_address <= *count,
            None => self.an_address == 0,
        }
    }

    fn has_few(&self, address: IpAddr) -> bool {
        match self.addresses.get(&address) {
            Some(count) => *count <= self.few,
            None => true,
        }
    }

    // One client more of this address, in this thread. Returns whether there is a seat for it. Errors: the address has as many as it may
    // have, or out of memory.
    fn take(&mut self, thread: usize, address: IpAddr) -> Result<bool, NoSeat>
        ensures taken { IfOk result (λ is_taken. self.old.free ≡ self.new.free + (if is_taken then 1 else 0)) }
        ensures refused { OnErr result (self.new.free ≡ self.old.free) }
        ensures giving_way { self.new.giving_way ≡ self.old.giving_way }
    {
        if self.has_most(address) {
            self.set_waiting(thread, false);
            return Err(NoSeat);
        }
        if self.free == 0 {
            return Ok(false);
        }
        self.set_waiting(thread, false);
        self.count(address)?;
        self.free -= 1;
        self.has_failed = false;
        if let Some(post) = self.posts.get_mut(thread) {
            post.clients = post.clients.saturating_add(1);
        }
        self.wake_rested();
        Ok(true)
    }

    // Sets whether a client of this thread waits for a seat.
    fn set_waiting(&mut self, thread: usize, is_waiting: bool)
        ensures free { self.new.free ≡ self.old.free }
        ensures giving_way { self.new.giving_way ≡ self.old.giving_way }
    {
        if let Some(post) = self.posts.get_mut(thread) {
            post.is_waiting = is_waiting;
        }
    }

    // In how many threads a client waits for a seat.
    fn waiting(&self) -> usize {
        let mut waiting = 0usize;
        for post in self.posts.iter() {
            if post.is_waiting {
                waiting = waiting.saturating_add(1);
            }
        }
        waiting
    }

    // Whether a connection is to give way: more clients wait than seats are free or about to be, or an accept failed.
    fn must_give_way(&self) -> bool {
        self.has_failed || self.free.saturating_add(self.giving_way) < self.waiting()
    }

    // Has a connection give way, if one is to. Returns whether it does.
    fn give_way(&mut self) -> bool
        ensures counted { result ≡ true → self.new.giving_way ≡ self.old.giving_way + 1 }
        ensures refused { result ≡ false → self.new.giving_way ≡ self.old.giving_way }
        ensures free { self.new.free ≡ self.old.free }
    {
        if !self.must_give_way() {
            return false;
        }
        let Some(giving_way) = self.giving_way.checked_add(1) else {
            return false;
        };
        self.giving_way = giving_way;
        self.has_failed = false;
        true
    }

    // Counts one client more of this address. Errors: out of memory.
    fn count(&mut self, address: IpAddr) -> Result<(), NoSeat>
        ensures free { self.new.free ≡ self.old.free }
        ensures giving_way { self.new.giving_way ≡ self.old.giving_way }
    {
        let count = match self.addresses.get(&address) {
            Some(count) => count.saturating_add(1),
            None => 1,
        };
        match self.addresses.insert(address, count) {
            Ok(_) => Ok(()),
            Err(_) => Err(NoSeat),
        }
    }

    // One client less of this address, in this thread, whose connection gave way or did not. Who waits for a seat looks for one again.
    fn leave(&mut self, thread: usize, address: IpAddr, gave_way: bool)
        ensures { self.new.giving_way ≡ self.old.giving_way - (if gave_way then 1 else 0) }
    {
        self.free = self.free.saturating_add(1);
        if gave_way {
            self.giving_way = self.giving_way.saturating_sub(1);
        }
        self.forget(address);
        if let Some(post) = self.posts.get_mut(thread) {
            post.clients = post.clients.saturating_sub(1);
        }
        for post in self.posts.iter_mut() {
            if post.is_waiting {
                // A waker that is dropped wakes its task.
                post.bell = None;
            }
        }
        self.wake_rested();
    }

    // Wakes the tasks that leave the next client to others, where their thread does not serve more clients than another any longer.
    fn wake_rested(&mut self)
        ensures free { self.new.free ≡ self.old.free }
        ensures giving_way { self.new.giving_way ≡ self.old.giving_way }
    {
        let most = self.most_in_balance();
        for post in self.posts.iter_mut() {
            if post.is_resting && post.clients <= most {
                post.is_resting = false;
                post.bell = None;
            }
        }
    }

    fn forget(&mut self, address: IpAddr)
        ensures { self.new.giving_way ≡ self.old.giving_way }
    {
        let Some(count) = self.addresses.get_mut(&address) else {
            return;
        };
        if 1 < *count {
            *count = count.saturating_sub(1);
        } else {
            let _ = self.addresses.remove(&address);
        }
    }

    // The most clients with which a thread does not count as serving more than another: one more than the fewest, and a 32nd part of all.
    fn most_in_balance(&self) -> usize {
        let (mut all, mut fewest) = (0usize, usize::MAX);
        for post in self.posts.iter() {
            all = all.saturating_add(post.clients);
            fewest = fewest.min(post.clients);
        }
        fewest.saturating_add(1).saturating_add(all / 32)
    }

    // Whether this thread serves more clients than another. If so it rests.
    fn note_rest(&mut self, thread: usize) -> bool {
        let most = self.most_in_balance();
        let Some(post) = self.posts.get_mut(thread) else {
            return false;
        };
        post.is_resting = most < post.clients;
        post.is_resting
    }

    // Wakes the tasks that accept the clients of all threads but this one.
    fn wake_others(&mut self, thread: usize) {
        for (number, post) in self.posts.iter_mut().enumerate() {
            if number != thread {
                post.bell = None;
            }
        }
    }
}

// The seats of all threads.
#[derive(Drop)]
struct Pool {
    // Whether a connection is to give way, as `Counts::must_give_way` says. It is set only while `counts` is locked.
    is_wanted: AtomicBool,
    counts: Mutex<Counts>,
}

impl Pool {
    // Has all threads see whether a connection is to give way. Where none was to before, those but this one look for one.
    fn note_want(&self, counts: &mut Counts, thread: usize) {
        let is_wanted = counts.must_give_way();
        let was_wanted = self.is_wanted.swap(is_wanted, Ordering::SeqCst);
        if is_wanted && !was_wanted {
            counts.wake_others(thread);
        }
    }
}

/// Error: a client gets no seat, and none by waiting either.
#[derive(Clone, Copy)]
pub(crate) struct NoSeat;

/// A thread's part in the seats that all threads of a listener have together.
#[derive(Drop)]
pub struct SeatShare {
    pool: Arc<Pool>,
    // The number of the thread.
    thread: usize,
}

/// The parts of so many threads, which serve as many clients together, and as many of one address, as these limits say.
pub fn seat_shares(
    alloc: Global,
    limits: ClientLimits,
    threads: usize,
) -> Result<Vec<SeatShare>, AllocError> {
    let pool = Pool {
        is_wanted: AtomicBool::new(false),
        counts: Mutex::new(Counts::new(alloc, limits, threads)?),
    };
    let pool = Arc::new(alloc, pool)?;
    let mut shares = Vec::with_capacity(alloc, threads)?;
    for thread in 0..threads {
        let pool = Arc::try_clone(&pool)?;
        shares.push(SeatShare { pool, thread })?;
    }
    Ok(shares)
}

impl SeatShare {
    /// The part of a thread that serves the clients of its listener alone.
    pub fn alone(alloc: Global, limits: ClientLimits) -> Result<SeatShare, AllocError> {
        let mut shares = seat_shares(alloc, limits, 1)?;
        match shares.pop() {
            Some(share) => Ok(share),
            None => Err(AllocError),
        }
    }

    /// Takes a seat for a client of this address. Returns whether there was one. Errors: as many clients of the address as may be are
    /// served, or out of memory.
    pub(crate) fn take<R: Wait>(&self, rt: &R, address: IpAddr) -> Result<bool, NoSeat> {
        let mut counts = self.pool.counts.lock(rt);
        let taken = counts.take(self.thread, address);
        self.pool.note_want(&mut *counts, self.thread);
        taken
    }

    /// Gives back the seat of a client of this address, whose connection gave way or did not.
    pub(crate) fn leave<R: Wait>(&self, rt: &R, address: IpAddr, gave_way: bool) {
        let mut counts = self.pool.counts.lock(rt);
        counts.leave(self.thread, address, gave_way);
        self.pool.note_want(&mut *counts, self.thread);
    }

    /// Whether few clients of this address are served: at most 8, or a quarter of all that may be.
    pub(crate) fn has_few<R: Wait>(&self, rt: &R, address: IpAddr) -> bool {
        self.pool.counts.lock(rt).has_few(address)
    }

    /// Notes that an accept failed, so a connection of some thread is to give way. The other threads look for one anew.
    pub(crate) fn note_failure<R: Wait>(&self, rt: &R) {
        let mut counts = self.pool.counts.lock(rt);
        counts.has_failed = true;
        self.pool.is_wanted.store(true, Ordering::SeqCst);
        counts.wake_others(self.thread);
    }

    /// Has the other threads look anew for a connection that can give way.
    pub(crate) fn look_again<R: Wait>(&self, rt: &R) {
        self.pool.counts.lock(rt).wake_others(self.thread);
    }

    /// Notes that no client of the thread waits for a seat any longer.
    pub(crate) fn give_up<R: Wait>(&self, rt: &R) {
        let mut counts = self.pool.counts.lock(rt);
        counts.set_waiting(self.thread, false);
        self.pool.note_want(&mut *counts, self.thread);
    }

    /// Whether a connection of any thread is to give way: more clients wait for a seat than connections do so already, or an accept failed.
    pub(crate) fn is_wanted(&self) -> bool {
        self.pool.is_wanted.load(Ordering::SeqCst)
    }

    /// As `is_wanted`. If so, the caller's connection gives way, and its seat has to be given back as that of one.
    pub(crate) fn gives_way<R: Wait>(&self, rt: &R) -> bool {
        let mut counts = self.pool.counts.lock(rt);
        let gives_way = counts.give_way();
        self.pool.note_want(&mut *counts, self.thread);
        gives_way
    }

    /// Has this task woken when a client of another thread waits for a seat. Returns whether the thread serves more clients than another: if
    /// so it is woken as well when it does not any longer.
    pub(crate) fn listen<R: Wait>(&self, rt: &R, cx: &mut Context<'_>) -> bool
        ensures { Keeps cx.old cx.new }
    {
        let mut counts = self.pool.counts.lock(rt);
        if let Some(post) = counts.posts.get_mut(self.thread) {
            let _: Poll<()> = cx.register(&Source::new(), &mut post.bell);
        }
        counts.note_rest(self.thread)
    }

    /// Waits until a seat is free, and has the other threads look for a connection that can give way.
    pub(crate) fn wait<R: Wait>(&self, rt: &R, cx: &mut Context<'_>) -> Poll<()>
        ensures pending { result ≡ Poll.Pending }
        ensures armed { IsArmed cx.new }
        ensures kept { Keeps cx.old cx.new }
    {
        let mut counts = self.pool.counts.lock(rt);
        if 0 < counts.free {
            return cx.yield_now();
        }
        counts.set_waiting(self.thread, true);
        self.pool.note_want(&mut *counts, self.thread);
        let Some(post) = counts.posts.get_mut(self.thread) else {
            return cx.yield_now();
        };
        cx.register(&Source::new(), &mut post.bell)
    }
}
