//! A cache of a desk's programs, for judging datagrams without the desk's mutex.
ghost use Rattle.std.specs.Prelude.{◌≡◌, IfOk, IsSome, None, Some};
ghost use Rattle.std.specs.Arc.{arc_value};
ghost use Rattle.filter_slots.specs.Filters.{Filters};
ghost use Rattle.filter_slots.specs.Judged.{judged_under};

use crate::NoMemory;
use crate::desk::Desk;
use filter_slots::{Datagram, Judged, Slots};
use std::marker::Model;
use std::sync::ledger::Ledger;
use std::sync::{Arc, Wait};

/// A cached copy of a desk's programs, refreshed only after a filter was swapped. It may lag behind a swap that is just being
/// taken. Contracts see the copy, if there is one.
pub struct Programs {
    // `None` before the first read.
    slots: Option<Slots>,
    // The desk's swap count before the copy was made.
    swaps: u64,
}

// Written by hand, so that what lets it go is one call for the prover (docs/GATE.md).
impl Drop for Programs {
    fn drop(self) {
        let Self { slots: _, swaps: _ } = self;
    }
}

impl Model for Programs {
    ghost use Rattle.std.specs.Prelude.{Option};
    ghost use Rattle.filter_slots.specs.Filters.{Filters};

    ghost Value = { Option Filters };

    ghost view = { λ p. p.slots };
}

impl Programs {
    /// An empty cache.
    pub fn new() -> Programs
        ensures { result ≡ None }
    {
        Programs {
            slots: None,
            swaps: 0,
        }
    }

    /// Judges a datagram by the programs and shares those that judge it. Waits for the desk's mutex at the first call and after a
    /// filter was swapped. Errors: a reference count at its maximum.
    pub fn judge<L: Ledger, R: Wait>(
        &mut self,
        rt: &R,
        desk: &Desk<L>,
        datagram: Arc<Datagram>,
    ) -> Result<Judged, NoMemory>
        ensures datagram { IfOk result (λ judged. judged.datagram ≡ arc_value datagram) }
        ensures programs { IfOk result (λ judged. (p : Filters) × (self.new ≡ Some p) × (judged ≡ judged_under p (arc_value datagram))) }
    {
        self.look(rt, desk)?;
        match &self.slots {
            Some(slots) => slots.judge(datagram),
            None => unreachable!(),
        }
    }

    // Refreshes the copy if there is none, or if a filter was swapped since.
    fn look<L: Ledger, R: Wait>(&mut self, rt: &R, desk: &Desk<L>) -> Result<(), NoMemory>
        ensures { IfOk result (λ _. IsSome self.new) }
    {
        let swaps = desk.swaps();
        if self.slots.is_none() || self.swaps != swaps {
            return self.refresh(rt, desk, swaps);
        }
        Ok(())
    }

    // Copies the programs, which were swapped this often before. A function of its own: inlined into `judge` it has the room for a
    // copy cleared at every datagram, also where nothing was swapped.
    #[inline(never)]
    fn refresh<L: Ledger, R: Wait>(
        &mut self,
        rt: &R,
        desk: &Desk<L>,
        swaps: u64,
    ) -> Result<(), NoMemory>
        ensures { IfOk result (λ _. IsSome self.new) }
    {
        self.slots = Some(desk.programs(rt)?);
        self.swaps = swaps;
        Ok(())
    }
}
