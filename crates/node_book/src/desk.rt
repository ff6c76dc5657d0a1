//! A node and its book behind a mutex, for many threads.
ghost use Rattle.std.specs.Prelude.{◌≡◌, ◌<◌, ◌≤◌, [], IfOk, OnOk, OnErr, IsErrOf, ◌↔◌, sum_by, take};
ghost use Rattle.std.specs.Arc.{arc_value};
ghost use Rattle.node_core.specs.Happening.{arrives, happening};
ghost use Rattle.neighbours.specs.Faults.{IsTable};
ghost use Rattle.plain_node.specs.Tally.{tally_of};
ghost use Rattle.node_book.specs.Book.{IsLegal, count_of};
ghost use Rattle.node_book.specs.Audited.{Audits, IsAudited};
ghost use Rattle.node_book.specs.NeighbourView.{AreViews};
ghost use Rattle.object_store.specs.Store.{fresh_at};
ghost use Rattle.node_book.specs.Sizes.{AreSizes};
ghost use Rattle.node_book.specs.Seats.{claim, receipted, opened_seats, opened_with_room};
ghost use Rattle.node_book.specs.Settled.{Settles};
ghost use Rattle.node_book.specs.Swaps.{is_swap};

use crate::NoMemory;
use crate::booked::Booked;
use crate::ledgered::{Ledgered, Spent, SubmitFault};
use crate::neighbour_view::views_of;
use crate::seat::{RECEIPT_OCTETS, Seat, seats_of};
use crate::settle::{Report, SettleFault};
use crate::store_view::{sizes_of, stored_at};
use filter_slots::{Judged, Moment, Slots};
use node_core::{Event, Out, Stats};
use node_words::{NeighbourView, Sizes};
use object_store::{CacheKey, Entry};
use std::alloc::Global;
use std::marker::Model;
use std::sync::atomic::{AtomicU64, Ordering};
use std::sync::ledger::{Blank, Ledger};
use std::sync::{Arc, Mutex, Wait};
use thiserror::Error;

/// Errors of `Desk::open`.
#[derive(Clone, Copy, Debug, PartialEq, Eq, Error)]
pub enum OpenFault {
    /// The number of seats is not 1 to 64.
    #[error("the seats are not 1 to 64")]
    Seats,
    /// Allocation failure.
    #[error("no memory")]
    NoMemory,
}

/// A book behind a mutex. Whenever the mutex is free the book is legal and the seats' shares add up to its count. Contracts see
/// the number of seats that were opened.
#[derive(Drop)]
pub struct Desk<L: Ledger> {
    ledgered: Mutex<Ledgered<L>>,
    // Number of swap events submitted, modulo 2^64.
    swaps: AtomicU64,
    seats: u64,
}

impl<L: Ledger> Model for Desk<L> {
    ghost use Rattle.std.specs.Prelude.{◌≡◌, ◌<◌, ◌≤◌, ℕ};

    ghost Value = { ℕ };

    ghost view = { λ d. d.seats };

    ghost invariant = { λ d. (d.seats ≡ L.parts) × (0 < d.seats) × (d.seats ≤ 64) };
}

impl<L: Ledger> Desk<L> {
    /// Puts a new book behind a mutex and opens this many seats, each with one part of the new ledger. The receipts of a seat
    /// keep at most 4 MiB of contents.
    pub fn open(
        alloc: Global,
        blank: Blank,
        booked: Booked,
        seats: u64,
    ) -> Result<(Desk<L>, Vec<Seat<L>>), OpenFault>
        requires new { count_of booked ≡ 0 }
        requires name { blank.name ≡ L.name }
        requires parts { blank.parts ≡ L.parts }
        requires one_each { (0 < seats) × (seats ≤ 64) → blank.parts ≡ seats }
        ensures refused { IsErrOf result OpenFault.Seats ↔ ((0 < seats) × (seats ≤ 64) → ⊥) }
        ensures desk { IfOk result (λ r. r.0 ≡ seats) }
        ensures seats { IfOk result (λ r. r.1.items ≡ opened_seats seats) }
    {
        Desk::open_with(alloc, blank, booked, seats, RECEIPT_OCTETS)
    }

    /// As `open`; the receipts of a seat keep at most `room` octets of contents.
    pub fn open_with(
        alloc: Global,
        blank: Blank,
        booked: Booked,
        seats: u64,
        room: u32,
    ) -> Result<(Desk<L>, Vec<Seat<L>>), OpenFault>
        requires new { count_of booked ≡ 0 }
        requires name { blank.name ≡ L.name }
        requires parts { blank.parts ≡ L.parts }
        requires one_each { (0 < seats) × (seats ≤ 64) → blank.parts ≡ seats }
        ensures refused { IsErrOf result OpenFault.Seats ↔ ((0 < seats) × (seats ≤ 64) → ⊥) }
        ensures desk { IfOk result (λ r. r.0 ≡ seats) }
        ensures seats { IfOk result (λ r. r.1.items ≡ opened_with_room room seats) }
    {
        if seats == 0 || seats > 64 {
            drop(booked);
            return Err(OpenFault::Seats);
        }
        let (total, mut spare) = blank.open::<L>();
        let Ok(all) = seats_of(alloc, &mut spare, seats, room) else {
            drop(booked);
            return Err(OpenFault::NoMemory);
        };
        let desk = Desk {
            ledgered: Mutex::new(Ledgered::new(booked, total, spare, seats)),
            swaps: AtomicU64::new(0),
            seats,
        };
        Ok((desk, all))
    }

    /// Submits an event for the holder of a seat, writes its actions to `out`, which must be empty, and returns the event's
    /// number: the number of events taken before it. Waits for the mutex. On error the seat is unchanged and `out` is empty.
    pub fn submit<R: Wait>(
        &self,
        rt: &R,
        alloc: Global,
        seat: &mut Seat<L>,
        event: Arc<Event>,
        out: &mut Out,
    ) -> Result<u64, SubmitFault>
        requires { out.old ≡ [] }
        ensures seat { IfOk result (λ n. seat.new ≡ receipted seat.old (claim n (happening (arc_value event)) (tally_of out.new))) }
        ensures number { IfOk result (λ n. seat.old.share ≤ n) }
        ensures refused { OnErr result ((seat.new ≡ seat.old) × (out.new ≡ [])) }
    {
        let mut spent = Spent::new();
        let is_swap = is_swap(&event);
        let submitted = self
            .ledgered
            .lock(rt)
            .submit(alloc, seat, event, out, &mut spent);
        if is_swap {
            self.swaps.fetch_add(1, Ordering::SeqCst);
        }
        if submitted.is_ok() {
            seat.lighten();
        }
        submitted
    }

    /// As `submit`, for the arrival at `now` of a datagram that was judged before. The verdict it carries is used if both of its
    /// programs equal those in force (two absent programs are equal); otherwise it is judged again while the mutex is held.
    pub fn submit_judged<R: Wait>(
        &self,
        rt: &R,
        alloc: Global,
        seat: &mut Seat<L>,
        judged: &Judged,
        now: Moment,
        out: &mut Out,
    ) -> Result<u64, SubmitFault>
        requires { out.old ≡ [] }
        ensures seat { IfOk result (λ n. seat.new ≡ receipted seat.old (claim n (arrives judged.now.datagram now) (tally_of out.new))) }
        ensures number { IfOk result (λ n. seat.old.share ≤ n) }
        ensures refused { OnErr result ((seat.new ≡ seat.old) × (out.new ≡ [])) }
    {
        let mut spent = Spent::new();
        let submitted = self
            .ledgered
            .lock(rt)
            .submit_judged(alloc, seat, judged, now, out, &mut spent);
        if submitted.is_ok() {
            seat.lighten();
        }
        submitted
    }

    /// Compares the oldest 16 receipts of a seat with the book. If all of them agree with it, or are for events before the present
    /// volume, the seat lets go of them; otherwise returns the lowest number of one that doesn't agree. Waits for the mutex.
    pub fn audit<R: Wait>(&self, rt: &R, seat: &mut Seat<L>) -> Option<u64>
        ensures book { (b : _) × IsLegal b × Audits seat.old seat.new b result }
        ensures seat { IsAudited seat.old seat.new }
        ensures share { (seat.new.share ≡ seat.old.share) × (seat.new.place ≡ seat.old.place) }
    {
        let found = {
            let ledgered = self.ledgered.lock(rt);
            ledgered.agrees();
            ledgered.audit(seat)
        };
        if found.is_none() {
            seat.drop_audited();
        }
        found
    }

    /// Number of swap events submitted, modulo 2^64. Programs read after seeing swap count n stay current until the next swap. A
    /// swap is counted after its mutex guard is dropped, so the count may lag behind one that is just being taken. Doesn't block.
    pub fn swaps(&self) -> u64 {
        self.swaps.load(Ordering::SeqCst)
    }

    /// The programs in force, shared. Waits for the mutex. Errors: a reference count at its maximum.
    pub fn programs<R: Wait>(&self, rt: &R) -> Result<Slots, NoMemory> {
        self.ledgered.lock(rt).booked().node().programs().copy()
    }

    /// The node's datagram counters. Waits for the mutex.
    pub fn stats<R: Wait>(&self, rt: &R) -> Stats
        ensures { (b : _) × IsLegal b × (result ≡ b.present.stats) }
    {
        let ledgered = self.ledgered.lock(rt);
        ledgered.agrees();
        ledgered.booked().node().stats()
    }

    /// The state of each neighbour, in configuration order, all as of one moment. Waits for the mutex. Errors: allocation failure.
    pub fn neighbours<R: Wait>(&self, rt: &R, alloc: Global) -> Result<Vec<NeighbourView>, NoMemory>
        ensures { IfOk result (λ views. (b : _) × IsLegal b × IsTable b.present.plain.rows × AreViews b.present views.items) }
    {
        let ledgered = self.ledgered.lock(rt);
        ledgered.agrees();
        let node = ledgered.booked().node();
        node.facts();
        views_of(alloc, node)
    }

    /// How large the book and the store of its node are, all as of one moment. Waits for the mutex.
    pub fn sizes<R: Wait>(&self, rt: &R) -> Sizes
        ensures { (b : _) × IsLegal b × AreSizes b result }
    {
        let ledgered = self.ledgered.lock(rt);
        ledgered.agrees();
        sizes_of(ledgered.booked())
    }

    /// The stored objects that were used last, at most so many, with their keys, the most recently used first. Waits for the
    /// mutex, for as long as it takes to share so many objects. Errors: allocation failure, or a reference count at its maximum.
    pub fn newest<R: Wait>(
        &self,
        rt: &R,
        alloc: Global,
        most: usize,
    ) -> Result<Vec<(CacheKey, Entry)>, NoMemory>
        ensures { IfOk result (λ newest. (b : _) × IsLegal b × (newest.items ≡ take most b.present.plain.store.pairs)) }
    {
        let ledgered = self.ledgered.lock(rt);
        ledgered.agrees();
        ledgered.booked().node().store().newest(alloc, most)
    }

    /// What is stored under a key, shared, or `None` if nothing there is fresh at `now`. Waits for the mutex. Errors: a reference
    /// count at its maximum.
    pub fn stored<R: Wait>(
        &self,
        rt: &R,
        key: &[u8],
        now: Moment,
    ) -> Result<Option<Entry>, NoMemory>
        ensures { IfOk result (λ found. (b : _) × IsLegal b × (found ≡ fresh_at key.now now b.present.plain.store)) }
    {
        let ledgered = self.ledgered.lock(rt);
        ledgered.agrees();
        stored_at(ledgered.booked().node(), key, now)
    }

    /// The key of a pending fetch, shared, or `None` if no fetch of this number is pending. Waits for the mutex. Errors: a
    /// reference count at its maximum.
    pub fn key_of<R: Wait>(&self, rt: &R, fetch: u32) -> Result<Option<CacheKey>, NoMemory> {
        self.ledgered.lock(rt).booked().key_of(fetch)
    }

    /// Consumes the desk and returns what was behind the mutex.
    pub fn close(self) -> Ledgered<L>
        ensures legal { IsLegal result.book }
        ensures counted { count_of result.book ≡ result.total }
        ensures seats { result.seats ≡ self }
    {
        let Desk { ledgered, .. } = self;
        let ledgered = ledgered.into_inner();
        ledgered.agrees();
        ledgered
    }

    /// Closes the desk, checks the receipts of the seats against the book, and joins their shares. Errors: these are not the
    /// seats that were opened; else the lowest number, from the base on, of a receipt that is not good.
    pub fn settle(self, seats: Vec<Seat<L>>) -> Result<Report, SettleFault>
        ensures shares { IfOk result (λ r. r.count ≡ sum_by (λ s. s.share) seats.items) }
        ensures book { (b : _) × IsLegal b × Settles self seats.items b result }
    {
        self.close().settle(seats)
    }
}

/// Whether an event swaps a filter.
fn is_swap(event: &Event) -> bool
    ensures { result ≡ is_swap (happening event.now) }
{
    match event {
        Event::Swap { .. } => true,
        _ => false,
    }
}
