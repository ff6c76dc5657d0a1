//! A clerk at a seat of a desk.
ghost use Rattle.std.specs.Prelude.{◌≡◌, [], None};

use crate::NoMemory;
use crate::clerk::{Clerk, copy_action};
use crate::desk::Desk;
use crate::ledgered::SubmitFault;
use crate::programs::Programs;
use crate::seat::Seat;
use filter_slots::{Datagram, Judged, Moment};
use node_core::{Action, Event, Out};
use object_store::CacheKey;
use std::alloc::Global;
use std::marker::Model;
use std::sync::ledger::Ledger;
use std::sync::{Arc, Wait};

/// A clerk at a seat of a desk. All its calls except `pass` may wait for the desk's mutex. Contracts see the seat, the actions
/// passed on, and the programs that it has read.
#[derive(Drop)]
pub struct Seated<'a, L: Ledger, R: Wait> {
    rt: &'a R,
    desk: &'a Desk<L>,
    seat: Seat<L>,
    passed: Vec<Action>,
    programs: Programs,
}

impl<'a, L: Ledger, R: Wait> Model for Seated<'a, L, R> {
    ghost use Rattle.node_book.specs.Sitting.{Sitting};

    ghost Value = { Sitting };

    ghost view = { λ s. record { seat = s.seat; passed = s.passed.items; programs = s.programs } };
}

impl<'a, L: Ledger, R: Wait> Seated<'a, L, R> {
    /// A clerk at a seat.
    pub fn new(alloc: Global, rt: &'a R, desk: &'a Desk<L>, seat: Seat<L>) -> Seated<'a, L, R>
        ensures { result ≡ record { seat = seat; passed = []; programs = None } }
    {
        Seated {
            rt,
            desk,
            seat,
            passed: Vec::new(alloc),
            programs: Programs::new(),
        }
    }

    /// The actions passed on, in order.
    pub fn passed(&self) -> &[Action]
        ensures { result.now ≡ self.now.passed }
    {
        self.passed.as_slice()
    }

    /// Consumes the clerk and returns its seat, with which the desk is settled.
    pub fn into_seat(self) -> Seat<L>
        ensures { result ≡ self.entry.seat }
    {
        let Seated { seat, .. } = self;
        seat
    }
}

impl<'a, L: Ledger, R: Wait> Clerk for Seated<'a, L, R> {
    ghost use Rattle.node_book.specs.Sitting.{told_seated};

    ghost told = { told_seated };

    ghost taken = { λ s. s.seat.share };

    ghost programs = { λ s. s.programs };

    fn submit(
        &mut self,
        alloc: Global,
        event: Arc<Event>,
        out: &mut Out,
    ) -> Result<u64, SubmitFault> {
        self.desk.submit(self.rt, alloc, &mut self.seat, event, out)
    }

    fn submit_judged(
        &mut self,
        alloc: Global,
        judged: &Judged,
        now: Moment,
        out: &mut Out,
    ) -> Result<u64, SubmitFault> {
        self.desk
            .submit_judged(self.rt, alloc, &mut self.seat, judged, now, out)
    }

    fn judge(&mut self, datagram: Arc<Datagram>) -> Result<Judged, NoMemory> {
        self.programs.judge(self.rt, self.desk, datagram)
    }

    fn pass(&mut self, alloc: Global, action: &Action) -> Result<(), NoMemory> {
        let action = copy_action(alloc, action)?;
        self.passed.push(action)?;
        Ok(())
    }

    fn key_of(&mut self, _alloc: Global, fetch: u32) -> Result<Option<CacheKey>, NoMemory> {
        self.desk.key_of(self.rt, fetch)
    }
}
