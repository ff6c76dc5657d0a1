//! What is behind the mutex of a desk: a book whose count is the total of a ledger of shares.
ghost use Rattle.std.specs.Prelude.{◌≡◌, ◌≤◌, [], ◌∷◌, IfOk, OnOk, OnErr, IsErrOf, ◌↔◌, ℕ, Some, sum_by};
ghost use Rattle.std.specs.Arc.{arc_value};
ghost use Rattle.node_core.specs.Happening.{arrives, happening};
ghost use Rattle.node_core.specs.State.{HasTaken};
ghost use Rattle.plain_node.specs.Tally.{tally_of};
ghost use Rattle.node_book.specs.Book.{IsLegal, count_of, ready, written};
ghost use Rattle.node_book.specs.Seats.{AreAllOpened, claim, credited};
ghost use Rattle.node_book.specs.Audited.{IsAstray};
ghost use Rattle.node_book.specs.Good.{AreAllGood, IsLeastOf, IsMisfit, kept_from};

use crate::NoMemory;
use crate::booked::{Booked, Receipt, TakeFault, Volume};
use crate::seat::Seat;
use crate::settle::{Report, SettleFault, all_opened, astray, gather, how_many_from, least_misfit};
use filter_slots::{Judged, Moment};
use node_core::{Event, Out};
use std::alloc::Global;
use std::marker::Model;
use std::sync::Arc;
use std::sync::ledger::{Book, Ledger, Share};
use thiserror::Error;

/// Errors of submitting an event.
#[derive(Clone, Copy, Debug, Error)]
pub enum SubmitFault {
    /// 18,446,744,073,709,551,615 events were taken: there are no more event numbers.
    #[error("no event has a number any more")]
    Ended,
    /// Allocation failure, or a reference count at its maximum.
    #[error("no memory")]
    NoMemory,
}

impl From<NoMemory> for SubmitFault {
    ghost use Rattle.std.specs.Prelude.{◌≡◌};
    ghost use Rattle.node_book.specs.declared.ledgered.SubmitFault.TheVariants as fault;

    ghost from_gives = { λ _ e. e ≡ fault.NoMemory };

    fn from(_: NoMemory) -> SubmitFault {
        SubmitFault::NoMemory
    }
}

/// What a submission leaves over: the entries of a finished volume, and a receipt that its seat no longer keeps. It is to be
/// dropped after the mutex is released.
#[derive(Drop)]
pub struct Spent {
    volume: Option<Volume>,
    receipt: Option<Receipt>,
}

impl Spent {
    /// Empty.
    pub fn new() -> Spent {
        Spent {
            volume: None,
            receipt: None,
        }
    }
}

/// A book whose count is the total of a ledger of shares, one share for each seat. Contracts see the book, the total and the
/// number of seats.
pub struct Ledgered<L: Ledger> {
    booked: Booked,
    total: Book<L>,
    spare: Share<L>,
    seats: u64,
}

// Written by hand, so that what lets it go is one call for the prover (docs/GATE.md).
impl<L: Ledger> Drop for Ledgered<L> {
    fn drop(self) {
        let Self {
            booked: _,
            total: _,
            spare: _,
            seats: _,
        } = self;
    }
}

impl<L: Ledger> Model for Ledgered<L> {
    ghost use Rattle.std.specs.Prelude.{◌≡◌, ◌≤◌};
    ghost use Rattle.node_book.specs.Book.{count_of};
    ghost use Rattle.node_book.specs.Seats.{Counted};

    ghost Value = { Counted };

    ghost view = { λ l. record { book = l.booked; total = l.total.total; seats = l.seats } };

    ghost invariant = { λ l. (count_of l.booked ≡ l.total.total) × (l.spare.parts ≡ 0) × (l.seats ≡ L.parts) × (l.seats ≤ 64) };
}

impl<L: Ledger> Ledgered<L> {
    /// Pairs a new book with a new ledger, all of whose parts went to the seats.
    pub(crate) fn new(booked: Booked, total: Book<L>, spare: Share<L>, seats: u64) -> Ledgered<L>
        requires new { count_of booked ≡ 0 }
        requires none { total.total ≡ 0 }
        requires split { spare.parts ≡ 0 }
        requires parts { seats ≡ L.parts }
        requires few { seats ≤ 64 }
        ensures book { result.book ≡ booked }
        ensures seats { result.seats ≡ seats }
    {
        Ledgered {
            booked,
            total,
            spare,
            seats,
        }
    }

    /// The invariants: the book is legal, and its count is the total of all shares. Changes nothing.
    pub fn agrees(&self)
        ensures legal { IsLegal self.now.book }
        ensures counted { count_of self.now.book ≡ self.now.total }
        ensures seats { self.now.seats ≡ L.parts }
    {
        self.booked.is_legal();
        let _total = &self.total;
    }

    /// The book.
    pub fn booked(&self) -> &Booked
        ensures { result.now ≡ self.now.book }
    {
        &self.booked
    }

    /// Has the node take one event for the holder of a seat and appends it to the book, after turning a full volume. Returns the
    /// event's number: the number of events taken before it. What is no longer needed goes to `spent`. On error the seat is
    /// unchanged and `out` is empty; on allocation failure the volume may have been turned.
    pub fn submit(
        &mut self,
        alloc: Global,
        seat: &mut Seat<L>,
        event: Arc<Event>,
        out: &mut Out,
        spent: &mut Spent,
    ) -> Result<u64, SubmitFault>
        requires { out.old ≡ [] }
        ensures taken { OnOk result (HasTaken self.old.book.present self.new.book.present (happening (arc_value event) ∷ []) (out.new ∷ [])) }
        ensures book { OnOk result (self.new.book ≡ written (ready self.old.book) (happening (arc_value event)) (tally_of out.new) self.new.book.present) }
        ensures number { IfOk result (λ n. n ≡ count_of self.old.book) }
        ensures seat { OnOk result (seat.new ≡ credited seat.old (claim (count_of self.old.book) (happening (arc_value event)) (tally_of out.new))) }
        ensures seen { OnOk result (seat.old.share ≤ count_of self.old.book) }
        ensures ended { IsErrOf result SubmitFault.Ended ↔ (count_of self.old.book ≡ 18446744073709551615) }
        ensures same { IsErrOf result SubmitFault.Ended → self.new ≡ self.old }
        ensures unmoved { IsErrOf result SubmitFault.NoMemory → self.new.book ≡ ready self.old.book }
        ensures refused { OnErr result ((seat.new ≡ seat.old) × (out.new ≡ [])) }
        ensures seats { self.new.seats ≡ self.old.seats }
    {
        if self.booked.count() == u64::MAX {
            return Err(SubmitFault::Ended);
        }
        seat.audit(&mut self.total);
        if self.booked.is_full() {
            spent.volume = Some(self.booked.turn(alloc));
        }
        let Ok(receipt) = self.booked.take(alloc, event, out) else {
            return Err(SubmitFault::NoMemory);
        };
        let number = receipt.number;
        spent.receipt = seat.credit(&mut self.total, receipt);
        Ok(number)
    }

    /// As `submit`, for the arrival at `now` of a datagram that was judged before. The verdict it carries is used if both of its
    /// programs equal those in force (two absent programs are equal); otherwise the datagram is judged again.
    pub fn submit_judged(
        &mut self,
        alloc: Global,
        seat: &mut Seat<L>,
        judged: &Judged,
        now: Moment,
        out: &mut Out,
        spent: &mut Spent,
    ) -> Result<u64, SubmitFault>
        requires { out.old ≡ [] }
        ensures taken { OnOk result (HasTaken self.old.book.present self.new.book.present (arrives judged.now.datagram now ∷ []) (out.new ∷ [])) }
        ensures book { OnOk result (self.new.book ≡ written (ready self.old.book) (arrives judged.now.datagram now) (tally_of out.new) self.new.book.present) }
        ensures number { IfOk result (λ n. n ≡ count_of self.old.book) }
        ensures seat { OnOk result (seat.new ≡ credited seat.old (claim (count_of self.old.book) (arrives judged.now.datagram now) (tally_of out.new))) }
        ensures seen { OnOk result (seat.old.share ≤ count_of self.old.book) }
        ensures ended { IsErrOf result SubmitFault.Ended ↔ (count_of self.old.book ≡ 18446744073709551615) }
        ensures same { IsErrOf result SubmitFault.Ended → self.new ≡ self.old }
        ensures unmoved { IsErrOf result SubmitFault.NoMemory → self.new.book ≡ ready self.old.book }
        ensures refused { OnErr result ((seat.new ≡ seat.old) × (out.new ≡ [])) }
        ensures seats { self.new.seats ≡ self.old.seats }
    {
        if self.booked.count() == u64::MAX {
            return Err(SubmitFault::Ended);
        }
        seat.audit(&mut self.total);
        if self.booked.is_full() {
            spent.volume = Some(self.booked.turn(alloc));
        }
        let Ok(receipt) = self.booked.take_judged(alloc, judged, now, out) else {
            return Err(SubmitFault::NoMemory);
        };
        let number = receipt.number;
        spent.receipt = seat.credit(&mut self.total, receipt);
        Ok(number)
    }

    /// Compares the oldest 16 receipts of a seat with the book. Returns the lowest number, from the base on, of one that doesn't
    /// agree, or `None`.
    pub fn audit(&self, seat: &Seat<L>) -> Option<u64>
        ensures { IsLeastOf (IsAstray self.now.book seat.now.receipts) result }
    {
        astray(&self.booked, seat)
    }

    /// Checks the receipts of the seats against the book, and joins their shares. Errors: these are not the seats that were
    /// opened; else the lowest number, from the base on, of a receipt that is not good.
    pub fn settle(self, seats: Vec<Seat<L>>) -> Result<Report, SettleFault>
        ensures seats { IsErrOf result SettleFault.Seats ↔ (AreAllOpened self.seats seats.items → ⊥) }
        ensures misfit { (n : ℕ) → IsErrOf result (SettleFault.Misfit n) ↔ (AreAllOpened self.seats seats.items × IsLeastOf (IsMisfit self.book seats.items) (Some n)) }
        ensures good { OnOk result (AreAllGood self.book seats.items) }
        ensures shares { IfOk result (λ r. r.count ≡ sum_by (λ s. s.share) seats.items) }
        ensures told { IfOk result (λ r. (r.count ≡ count_of self.book) × (r.base ≡ self.book.base) × (r.matched ≡ kept_from self.book.base seats.items)) }
    {
        let Ledgered {
            booked,
            mut total,
            mut spare,
            seats: opened,
        } = self;
        if !all_opened(opened, seats.as_slice()) {
            drop(booked);
            return Err(SettleFault::Seats);
        }
        match least_misfit(&booked, seats.as_slice()) {
            Some(number) => {
                drop(booked);
                return Err(SettleFault::Misfit(number));
            }
            None => {}
        }
        let base = booked.base();
        let matched = how_many_from(base, seats.as_slice());
        total.audit(&mut spare);
        gather(&mut spare, seats);
        total.audit(&mut spare);
        let count = booked.count();
        drop(booked);
        Ok(Report {
            count,
            base,
            matched,
        })
    }
}
