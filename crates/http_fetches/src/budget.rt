//! Octets of bodies under way, over all threads that fetch.
ghost use Rattle.futures.specs.Poll.{OnPending};
ghost use Rattle.futures.specs.Task.{Covers, Keeps};

use crate::fetching::put;
use crate::moves::{Delay, Moves};
use fair_use::{Room, Taken};
use futures::Future;
use futures::channel::oneshot;
use futures::task::{Context, Poll};
use http_content::{Purse, ReadFault};
use std::alloc::{AllocError, Global};
use std::net::{IpAddr, SocketAddr};
use std::sync::atomic::{AtomicU64, Ordering};
use std::sync::{Arc, Mutex, Wait};

/// Room for the octets of bodies under way, shared by all threads that fetch: who takes some, and who waits for some to be given back.
#[derive(Drop)]
pub struct Budget {
    size: usize,
    // How many octets are waited for, for who shows it.
    wanted: Arc<AtomicU64>,
    shared: Mutex<Sharing>,
}

// A room, and what wakes those that wait there.
#[derive(Drop)]
struct Sharing {
    room: Room,
    // By its number, of each that waits and was not woken since.
    bells: Vec<Bell>,
}

// Wakes the one with this number.
#[derive(Drop)]
struct Bell {
    number: u64,
    sender: oneshot::Sender<()>,
}

/// Who takes octets: the address of the client that began a fetch, if one did, and that of its server.
#[derive(Clone, Copy)]
pub struct Party {
    pub asker: Option<IpAddr>,
    pub server: SocketAddr,
}

impl Budget {
    /// A budget of so many octets. How many are waited for is kept in `wanted`.
    pub fn new(alloc: Global, size: usize, wanted: Arc<AtomicU64>) -> Budget {
        Budget {
            size,
            wanted,
            shared: Mutex::new(Sharing {
                room: Room::new(alloc, size),
                bells: Vec::new(alloc),
            }),
        }
    }

    // Keeps how many octets are waited for.
    fn show(&self, room: &Room) {
        let wanted = room.wanted();
        self.wanted.store(wanted as u64, Ordering::SeqCst);
    }

    // Gives back what the one with this number holds, and wakes who has waited longest of those that may go on.
    fn leave<R: Wait>(&self, rt: &R, number: u64, waited: bool) {
        let mut sharing = self.shared.lock(rt);
        sharing.room.leave(number);
        drop(sharing.bell_of(number));
        let next = sharing.next();
        if waited {
            self.show(&sharing.room);
        }
        drop(sharing);
        ring(next);
    }
}

// Wakes the one with this bell, if there is one.
fn ring(bell: Option<Bell>) {
    if let Some(Bell { number: _, sender }) = bell {
        let _ = sender.send(());
    }
}

impl Sharing {
    // The bell of the one with this number, which is taken out.
    fn bell_of(&mut self, number: u64) -> Option<Bell> {
        let place = self.bells.iter().position(|bell| bell.number == number)?;
        Some(self.bells.swap_remove(place))
    }

    // The bell of the one that has waited longest of those that may go on, unless it was woken already.
    fn next(&mut self) -> Option<Bell> {
        let place = self.room.next()?;
        let number = self.room.holders().get(place)?.number;
        self.bell_of(number)
    }

    // What is ready once the one with this number may go on. Returns `None` if out of memory.
    fn wait(&mut self, alloc: Global, number: u64) -> Option<oneshot::Receiver<()>> {
        drop(self.bell_of(number));
        let (sender, turn) = oneshot::channel(alloc).ok()?;
        self.bells.push(Bell { number, sender }).ok()?;
        Some(turn)
    }
}

// The number of this address.
fn number_of(address: IpAddr) -> u128 {
    match address {
        IpAddr::V4(address) => address.to_ipv6_mapped().to_bits(),
        IpAddr::V6(address) => address.to_bits(),
    }
}

// The number by which clients of this address are counted: one of IPv6 by its network of 64 bits, of which a host may have each address
// (RFC 7934).
fn asker_number(address: IpAddr) -> u128 {
    match address {
        IpAddr::V4(_) => number_of(address),
        IpAddr::V6(address) => address.to_bits() >> 64 << 64,
    }
}

/// What one fetch holds of a budget. It is given back when it is dropped.
pub struct Share<R: Wait + Copy> {
    rt: R,
    alloc: Global,
    budget: Arc<Budget>,
    party: Party,
    // The most octets that it ever takes.
    most: usize,
    // Its number in the room, once it has asked for some.
    number: Option<u64>,
    // Whether it waits.
    waits: bool,
    // Told of each payment, since a fetch that waits for one is not one whose server is silent.
    moves: Option<Moves>,
    // Told whether it waits.
    delay: Option<Delay>,
    // Ready once it may go on.
    turn: Option<oneshot::Receiver<()>>,
}

impl<R: Wait + Copy> Share<R> {
    /// A share of nothing as yet.
    pub fn new(
        rt: R,
        alloc: Global,
        budget: &Arc<Budget>,
        party: Party,
    ) -> Result<Share<R>, AllocError> {
        Ok(Share {
            rt,
            alloc,
            budget: Arc::try_clone(budget)?,
            party,
            most: 0,
            number: None,
            waits: false,
            moves: None,
            delay: None,
            turn: None,
        })
    }

    /// This share, whose payments are told.
    pub fn told(self, moves: Moves, delay: Option<Delay>) -> Share<R> {
        let mut share = self;
        put(&mut share.moves, Some(moves));
        put(&mut share.delay, delay);
        share
    }

    // Takes so many octets, or waits for them: `None` if it waits. Errors: that is more than the whole budget, or out of memory.
    fn take(&mut self, octets: usize) -> Option<Result<(), ReadFault>> {
        let mut sharing = self.budget.shared.lock(&self.rt);
        if self.number.is_none() {
            self.number = enter(&mut sharing.room, self.party, self.most);
        }
        let Some(number) = self.number else {
            return Some(Err(ReadFault::NoMemory));
        };
        let taken = sharing.room.take(number, octets);
        if !self.waits && matches!(taken, Taken::Given) {
            return Some(Ok(()));
        }
        let turn = match taken {
            Taken::Waits => sharing.wait(self.alloc, number),
            Taken::Given | Taken::Beyond => None,
        };
        let next = sharing.next();
        self.budget.show(&sharing.room);
        drop(sharing);
        ring(next);
        self.waits = turn.is_some();
        put(&mut self.turn, turn);
        self.taken(taken)
    }

    // What has become of octets that were asked for: `None` if they are waited for.
    fn taken(&self, taken: Taken) -> Option<Result<(), ReadFault>> {
        match taken {
            Taken::Given => Some(Ok(())),
            Taken::Beyond => Some(Err(ReadFault::TooLong)),
            Taken::Waits if self.turn.is_some() => None,
            Taken::Waits => Some(Err(ReadFault::NoMemory)),
        }
    }

    // Waits until it may go on, if it waits for that.
    fn poll_turn(&mut self, cx: &mut Context<'_>) -> Poll<()>
        ensures registered { OnPending result (Covers cx.new (λ _. ⊥)) }
        ensures kept { Keeps cx.old cx.new }
    {
        let Some(turn) = &mut self.turn else {
            return Poll::Ready(());
        };
        if turn.poll(cx).is_pending() {
            return Poll::Pending;
        }
        put(&mut self.turn, None);
        Poll::Ready(())
    }

    // As `poll_take`, of which nobody is told.
    fn poll_taken(&mut self, cx: &mut Context<'_>, octets: usize) -> Poll<Result<(), ReadFault>>
        ensures registered { OnPending result (Covers cx.new (λ _. ⊥)) }
        ensures kept { Keeps cx.old cx.new }
    {
        if self.poll_turn(cx).is_pending() {
            return Poll::Pending;
        }
        if let Some(taken) = self.take(octets) {
            return Poll::Ready(taken);
        }
        if self.poll_turn(cx).is_pending() {
            return Poll::Pending;
        }
        // It may go on since: once more.
        cx.yield_now()
    }

    // Tells that it waits, or does not.
    fn tell(&self, waits: bool) {
        if let Some(moves) = &self.moves {
            moves.note();
            moves.set_waiting(waits);
        }
        if let Some(delay) = &self.delay {
            delay.set(waits);
        }
    }
}

// One more shares the room, and never takes more than there is: its number. Returns `None` if out of memory.
fn enter(room: &mut Room, party: Party, most: usize) -> Option<u64> {
    let server = number_of(party.server.ip());
    match party.asker {
        Some(asker) => room.enter(Some(asker_number(asker)), server, most).ok(),
        None => room.enter(None, server, most).ok(),
    }
}

impl<R: Wait + Copy> Purse for Share<R> {
    fn expect(&mut self, octets: usize, is_announced: bool) -> Result<(), ReadFault> {
        if is_announced && self.budget.size < octets {
            return Err(ReadFault::TooLong);
        }
        self.most = octets.min(self.budget.size);
        Ok(())
    }

    fn poll_take(&mut self, cx: &mut Context<'_>, octets: usize) -> Poll<Result<(), ReadFault>> {
        let taken = self.poll_taken(cx, octets);
        self.tell(taken.is_pending());
        taken
    }
}

impl<R: Wait + Copy> Drop for Share<R> {
    fn drop(self) {
        let Share {
            rt,
            alloc: _,
            budget,
            party: _,
            most: _,
            number,
            waits,
            moves: _,
            delay: _,
            turn: _,
        } = self;
        if let Some(number) = number {
            budget.leave(&rt, number, waits);
        }
    }
}
