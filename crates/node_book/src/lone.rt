//! A clerk with a node of its own.
ghost use Rattle.std.specs.Prelude.{◌≡◌, []};

use crate::NoMemory;
use crate::clerk::{Clerk, copy_action};
use crate::ledgered::SubmitFault;
use filter_slots::{Datagram, Judged, Moment};
use node_core::{Action, Event, Node, Out};
use object_store::CacheKey;
use std::alloc::Global;
use std::marker::Model;
use std::sync::Arc;

/// A clerk that owns its node, with the number of the next event and all actions passed on. Contracts see a record of these.
pub struct Lone {
    node: Node,
    next: u64,
    passed: Vec<Action>,
}

// Written by hand, so that what lets it go is one call for the prover (docs/GATE.md).
impl Drop for Lone {
    fn drop(self) {
        let Self {
            node: _,
            next: _,
            passed: _,
        } = self;
    }
}

impl Model for Lone {
    ghost use Rattle.node_book.specs.Sitting.{Alone};

    ghost Value = { Alone };

    ghost view = { λ l. record { state = l.node; passed = l.passed.items; next = l.next } };
}

impl Lone {
    /// A clerk that owns this node. Its first event gets number 0.
    pub fn new(alloc: Global, node: Node) -> Lone
        ensures { result ≡ record { state = node; passed = []; next = 0 } }
    {
        Lone {
            node,
            next: 0,
            passed: Vec::new(alloc),
        }
    }

    /// The node.
    pub fn node(&self) -> &Node
        ensures { result.now ≡ self.now.state }
    {
        &self.node
    }

    /// The actions passed on, in order.
    pub fn passed(&self) -> &[Action]
        ensures { result.now ≡ self.now.passed }
    {
        self.passed.as_slice()
    }
}

impl Clerk for Lone {
    ghost use Rattle.std.specs.Prelude.{Some};
    ghost use Rattle.node_book.specs.Sitting.{told_alone};

    ghost told = { told_alone };

    ghost taken = { λ l. l.next };

    ghost programs = { λ l. Some l.state.filters };

    fn submit(
        &mut self,
        alloc: Global,
        event: Arc<Event>,
        out: &mut Out,
    ) -> Result<u64, SubmitFault> {
        let number = self.next;
        if number == u64::MAX {
            return Err(SubmitFault::Ended);
        }
        self.node.step(alloc, &event, out)?;
        self.next = number + 1;
        Ok(number)
    }

    fn submit_judged(
        &mut self,
        alloc: Global,
        judged: &Judged,
        now: Moment,
        out: &mut Out,
    ) -> Result<u64, SubmitFault> {
        let number = self.next;
        if number == u64::MAX {
            return Err(SubmitFault::Ended);
        }
        self.node.step_judged(alloc, judged, now, out)?;
        self.next = number + 1;
        Ok(number)
    }

    fn judge(&mut self, datagram: Arc<Datagram>) -> Result<Judged, NoMemory> {
        self.node.programs().judge(datagram)
    }

    fn pass(&mut self, alloc: Global, action: &Action) -> Result<(), NoMemory> {
        let action = copy_action(alloc, action)?;
        self.passed.push(action)?;
        Ok(())
    }

    fn key_of(&mut self, _alloc: Global, fetch: u32) -> Result<Option<CacheKey>, NoMemory> {
        match self.node.key_of(fetch) {
            Some(key) => Ok(Some(key.share()?)),
            None => Ok(None),
        }
    }
}
