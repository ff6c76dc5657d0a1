//! The seats of a listener's clients of one thread.
ghost use Rattle.std.specs.Prelude.{◌≡◌};
ghost use Rattle.futures.specs.Task.{IsArmed, Keeps};
ghost use Rattle.futures.specs.Poll.{OnPending};

use crate::patient::SharedStage;
use crate::pool::{NoSeat, SeatShare};
use futures::task::{Context, Poll, Source, Waker};
use std::alloc::{AllocError, Global};
use std::cell::RefCell;
use std::net::IpAddr;
use std::rc::Rc;
use std::sync::Wait;
use std::time::{Clock, Duration, Instant};

// The most clients that are refused concurrently. Further ones are closed without an answer.
const MOST_REFUSALS: usize = 64;

// For how long a connection of an address with few of them does not give way after it came, in milliseconds: its first request is on its
// way.
const NEW_MILLIS: u64 = 250;

// The seat that nobody takes. Its neighbours are the ends of the order of idle seats.
const NO_SEAT: usize = 0;

// One seat. The seats whose connections are idle are linked to a ring, in the order in which they became idle.
#[derive(Drop)]
struct Seat {
    // The neighbours in the ring, or the seat's own number while it is not idle.
    before: usize,
    after: usize,
    // Wakes the task that serves the client.
    waker: Option<Waker>,
    // Whether the connection gives way to a client that waits.
    gives_way: bool,
}

/// The seats of a thread's clients, and which connections are idle. There is one for each client that all threads may serve together.
#[derive(Drop)]
pub(crate) struct Seats<R> {
    rt: R,
    // The thread's part in the seats of all threads.
    share: SeatShare,
    seats: Vec<Seat>,
    // The free seats of clients that are served, and of those that are refused.
    free: Vec<usize>,
    free_refusals: Vec<usize>,
    // The last seat of a client that is served.
    last: usize,
    is_open: bool,
    // Wakes the task that waits until no seat is taken.
    taker: Option<Waker>,
}

impl<R: Wait + Clock + Copy> Seats<R> {
    // Seats for so many clients that are served, and for those that are refused.
    fn new(rt: R, alloc: Global, share: SeatShare, most: usize) -> Result<Seats<R>, AllocError> {
        let all = most.saturating_add(MOST_REFUSALS);
        let mut seats = Vec::with_capacity(alloc, all.saturating_add(1))?;
        for number in 0..=all {
            seats.push(Seat {
                before: number,
                after: number,
                waker: None,
                gives_way: false,
            })?;
        }
        Ok(Seats {
            rt,
            share,
            seats,
            free: numbers(alloc, 1, most)?,
            free_refusals: numbers(alloc, most.saturating_add(1), all)?,
            last: most,
            is_open: false,
            taker: None,
        })
    }

    // A free seat for a client at this address. `None` if there is no free one. Errors: the address has as many as it may have, or out of
    // memory.
    fn take(&mut self, address: IpAddr) -> Result<Option<usize>, NoSeat> {
        if !self.share.take(&self.rt, address)? {
            return Ok(None);
        }
        let seat = self.free.pop();
        if seat.is_none() {
            self.share.leave(&self.rt, address, false);
        }
        Ok(seat)
    }

    fn leave(&mut self, number: usize, address: Option<IpAddr>) {
        self.take_out(number);
        let gave_way = self.set_giving_way(number, false);
        if let Some(address) = address {
            self.share.leave(&self.rt, address, gave_way);
        }
        // Both have the capacity for all of their seats.
        let _ = if number <= self.last {
            self.free.push(number)
        } else {
            self.free_refusals.push(number)
        };
        // A waker that is dropped wakes its task.
        self.taker = None;
        self.wake_wanted();
    }

    // Sets whether the connection of a seat gives way. Returns whether it did.
    fn set_giving_way(&mut self, number: usize, gives_way: bool) -> bool {
        match self.seats.get_mut(number) {
            Some(seat) => std::mem::replace(&mut seat.gives_way, gives_way),
            None => false,
        }
    }

    // The seat that follows in the ring.
    fn after(&self, number: usize) -> usize {
        match self.seats.get(number) {
            Some(seat) => seat.after,
            None => number,
        }
    }

    // Makes two seats neighbours in the ring.
    fn join(&mut self, before: usize, after: usize) {
        if let Some(seat) = self.seats.get_mut(before) {
            seat.after = after;
        }
        if let Some(seat) = self.seats.get_mut(after) {
            seat.before = before;
        }
    }

    // Takes a seat out of the ring, if it is in it.
    fn take_out(&mut self, number: usize) {
        let Some(seat) = self.seats.get(number) else {
            return;
        };
        let (before, after) = (seat.before, seat.after);
        self.join(before, after);
        self.join(number, number);
    }

    // Puts a seat at the end of the ring, unless it is in it.
    fn put_last(&mut self, number: usize) {
        if self.after(number) != number {
            return;
        }
        let Some(ends) = self.seats.get(NO_SEAT) else {
            return;
        };
        let latest = ends.before;
        self.join(latest, number);
        self.join(number, NO_SEAT);
    }

    fn wake_longest_idle(&mut self) {
        let first = self.after(NO_SEAT);
        if let Some(seat) = self.seats.get_mut(first) {
            seat.waker = None;
        }
    }

    // Has the connection that has been idle for longest closed if one of any thread is to give way.
    fn wake_wanted(&mut self) {
        if self.share.is_wanted() {
            self.wake_longest_idle();
        }
    }

    // Waits until a seat is free, and has the connection closed that has been idle for longest, or one of another thread.
    fn wait(&mut self, cx: &mut Context<'_>) -> Poll<()>
        ensures pending { result ≡ Poll.Pending }
        ensures armed { IsArmed cx.new }
        ensures kept { Keeps cx.old cx.new }
    {
        self.wake_longest_idle();
        self.share.wait(&self.rt, cx)
    }

    // Has the connection that has been idle for longest closed if a client of any thread waits for a seat, now or later. Returns whether
    // this thread serves more clients than another.
    fn heed(&mut self, cx: &mut Context<'_>) -> bool
        ensures { Keeps cx.old cx.new }
    {
        let is_ahead = self.share.listen(&self.rt, cx);
        self.wake_wanted();
        is_ahead
    }

    // Has the connection that has been idle for longest closed, or one of another thread, since an accept failed.
    fn note_failure(&mut self) {
        self.share.note_failure(&self.rt);
        self.wake_longest_idle();
    }

    // Has all threads look anew for a connection that can give way to a client that waits.
    fn look_again(&mut self) {
        self.share.look_again(&self.rt);
        self.wake_wanted();
    }

    // Whether a connection came a moment ago, and few others of its address are served: a request may be on its way.
    fn is_new(&self, arrival: Arrived) -> bool {
        let Ok(now) = Instant::now(&self.rt) else {
            return false;
        };
        let Some(came) = arrival.at else {
            return false;
        };
        now.saturating_duration_since(came) < Duration::from_millis(NEW_MILLIS)
            && self.share.has_few(&self.rt, arrival.address)
    }

    // Notes that the connection of a seat is idle, which has arrived so. Returns whether it has to close. One that is new does not: what has
    // been idle for less long was not idle before it came either.
    fn rest(&mut self, number: usize, arrival: Arrived, cx: &mut Context<'_>) -> bool
        ensures { Keeps cx.old cx.new }
    {
        self.put_last(number);
        let is_longest = self.after(NO_SEAT) == number;
        let is_next = is_longest && self.share.is_wanted();
        if is_next && !self.is_new(arrival) && self.share.gives_way(&self.rt) {
            self.set_giving_way(number, true);
            return true;
        }
        if let Some(seat) = self.seats.get_mut(number) {
            let _: Poll<()> = cx.register(&Source::new(), &mut seat.waker);
        }
        false
    }

    // Notes that the connection of a seat is not idle. One that has been idle for long may have to close in its place.
    fn work(&mut self, number: usize) {
        self.take_out(number);
        self.wake_wanted();
    }

    // Waits until the server is open.
    fn wait_for_opening(&mut self, number: usize, cx: &mut Context<'_>) -> Poll<()>
        ensures armed { OnPending result (IsArmed cx.new) }
        ensures kept { Keeps cx.old cx.new }
    {
        if self.is_open {
            return Poll::Ready(());
        }
        match self.seats.get_mut(number) {
            Some(seat) => cx.register(&Source::new(), &mut seat.waker),
            None => Poll::Ready(()),
        }
    }

    // Waits until no seat is taken.
    fn wait_for_all(&mut self, cx: &mut Context<'_>) -> Poll<()>
        ensures armed { OnPending result (IsArmed cx.new) }
        ensures kept { Keeps cx.old cx.new }
    {
        let free = self.free.len().saturating_add(self.free_refusals.len());
        if self.last.saturating_add(MOST_REFUSALS) <= free {
            return Poll::Ready(());
        }
        cx.register(&Source::new(), &mut self.taker)
    }

    fn open(&mut self) {
        self.is_open = true;
        for seat in self.seats.iter_mut() {
            seat.waker = None;
        }
    }
}

// The numbers from `first` to `last`, in a list that has room for exactly these.
fn numbers(alloc: Global, first: usize, last: usize) -> Result<Vec<usize>, AllocError> {
    let count = last.saturating_add(1).saturating_sub(first);
    let mut numbers = Vec::with_capacity(alloc, count)?;
    for number in first..=last {
        numbers.push(number)?;
    }
    Ok(numbers)
}

/// The seats, shared by the tasks of one thread.
#[derive(Drop)]
pub(crate) struct SharedSeats<R: Drop>(Rc<RefCell<Seats<R>>>);

impl<R: Wait + Clock + Copy> SharedSeats<R> {
    /// Seats for `most` clients, which is what all threads have together, and for 64 that are refused.
    pub fn new(
        rt: R,
        alloc: Global,
        share: SeatShare,
        most: usize,
    ) -> Result<SharedSeats<R>, AllocError> {
        let seats = Seats::new(rt, alloc, share, most)?;
        Ok(SharedSeats(Rc::new(alloc, RefCell::new(seats))?))
    }

    /// Has the connection that has been idle for longest closed if a client of any thread waits for a seat, now or later: this task is
    /// woken for that. Returns whether this thread serves more clients than another.
    pub fn heed(&self, cx: &mut Context<'_>) -> bool
        ensures { Keeps cx.old cx.new }
    {
        match self.0.try_borrow_mut() {
            Ok(mut seats) => seats.heed(cx),
            Err(_) => false,
        }
    }

    /// A seat for a client that is served. `None` if there is no free one. Errors: as many clients of its address as may be are served, or
    /// out of memory.
    pub fn take(&self, address: IpAddr) -> Result<Option<TakenSeat<R>>, NoSeat> {
        let Ok(shared) = self.0.clone() else {
            return Err(NoSeat);
        };
        let Ok(mut seats) = self.0.try_borrow_mut() else {
            return Err(NoSeat);
        };
        let Some(number) = seats.take(address)? else {
            return Ok(None);
        };
        Ok(Some(TakenSeat {
            seats: shared,
            number,
            arrival: Some(Arrived {
                address,
                at: Instant::now(&seats.rt).ok(),
            }),
        }))
    }

    /// A seat for a client that is refused. `None` if there is no free one, or if out of memory.
    pub fn take_refusal(&self) -> Option<TakenSeat<R>> {
        let shared = self.0.clone().ok()?;
        let Ok(mut seats) = self.0.try_borrow_mut() else {
            return None;
        };
        let number = seats.free_refusals.pop()?;
        Some(TakenSeat {
            seats: shared,
            number,
            arrival: None,
        })
    }

    /// Has the connection that has been idle for longest closed, or one of another thread, since an accept failed.
    pub fn note_failure(&self) {
        if let Ok(mut seats) = self.0.try_borrow_mut() {
            seats.note_failure();
        }
    }

    /// Has all threads look anew for a connection that can give way to a client that waits.
    pub fn look_again(&self) {
        if let Ok(mut seats) = self.0.try_borrow_mut() {
            seats.look_again();
        }
    }

    /// Notes that no client of this thread waits for a seat any longer.
    pub fn give_up(&self) {
        if let Ok(seats) = self.0.try_borrow_mut() {
            seats.share.give_up(&seats.rt);
        }
    }

    /// Any seat, for nobody. `None` if there is no free one, or if out of memory.
    pub fn take_any(&self) -> Option<TakenSeat<R>> {
        let shared = self.0.clone().ok()?;
        let Ok(mut seats) = self.0.try_borrow_mut() else {
            return None;
        };
        let number = match seats.free.pop() {
            Some(number) => number,
            None => seats.free_refusals.pop()?,
        };
        Some(TakenSeat {
            seats: shared,
            number,
            arrival: None,
        })
    }

    /// Ends the wait of all tasks in `TakenSeat::wait_for_opening`.
    pub fn open(&self) {
        if let Ok(mut seats) = self.0.try_borrow_mut() {
            seats.open();
        }
    }

    /// Waits until no seat is taken.
    pub fn wait_for_all(&self, cx: &mut Context<'_>) -> Poll<()>
        ensures armed { OnPending result (IsArmed cx.new) }
        ensures kept { Keeps cx.old cx.new }
    {
        match self.0.try_borrow_mut() {
            Ok(mut seats) => seats.wait_for_all(cx),
            Err(_) => cx.yield_now(),
        }
    }

    /// Waits until a seat is free, and has the connection closed that has been idle for longest, or one of another thread.
    pub fn wait(&self, cx: &mut Context<'_>) -> Poll<()>
        ensures pending { result ≡ Poll.Pending }
        ensures armed { IsArmed cx.new }
        ensures kept { Keeps cx.old cx.new }
    {
        match self.0.try_borrow_mut() {
            Ok(mut seats) => seats.wait(cx),
            Err(_) => cx.yield_now(),
        }
    }
}

/// A seat that is taken, until this is dropped.
pub(crate) struct TakenSeat<R: Wait + Clock + Copy> {
    seats: Rc<RefCell<Seats<R>>>,
    number: usize,
    // None for a client that is refused.
    arrival: Option<Arrived>,
}

// How a client has arrived that is served.
#[derive(Clone, Copy)]
struct Arrived {
    address: IpAddr,
    // `None` if the clock could not be read.
    at: Option<Instant>,
}

impl<R: Wait + Clock + Copy> TakenSeat<R> {
    /// Waits until the server is open.
    pub fn wait_for_opening(&self, cx: &mut Context<'_>) -> Poll<()>
        ensures armed { OnPending result (IsArmed cx.new) }
        ensures kept { Keeps cx.old cx.new }
    {
        match self.seats.try_borrow_mut() {
            Ok(mut seats) => seats.wait_for_opening(self.number, cx),
            Err(_) => cx.yield_now(),
        }
    }

    /// Notes whether the connection is idle, and whether it has been used since the last call. Returns whether it has to close: it
    /// has been idle for longer than all others, came 250 ms ago or earlier unless few of its address are served, and a client waits for a
    /// seat. The seat of a client that is refused never has to.
    pub fn must_close(&self, stage: &SharedStage, cx: &mut Context<'_>) -> bool
        ensures { Keeps cx.old cx.new }
    {
        let Some(arrival) = self.arrival else {
            return false;
        };
        let Ok(mut seats) = self.seats.try_borrow_mut() else {
            return false;
        };
        let is_idle = stage.is_idle();
        if stage.take_set() || !is_idle {
            seats.work(self.number);
        }
        is_idle && seats.rest(self.number, arrival, cx)
    }
}

impl<R: Wait + Clock + Copy> Drop for TakenSeat<R> {
    fn drop(self) {
        let TakenSeat {
            seats,
            number,
            arrival,
        } = self;
        let address = match arrival {
            Some(arrival) => Some(arrival.address),
            None => None,
        };
        if let Ok(mut seats) = seats.try_borrow_mut() {
            seats.leave(number, address);
        }
    }
}
