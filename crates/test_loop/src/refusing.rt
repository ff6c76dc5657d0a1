//! A clerk that refuses, as when memory runs out.
ghost use Rattle.std.specs.Prelude.{◌≡◌, ◌≤◌, ◌+◌, ◌∷◌, [], IfOk, IfSome, OnOk, OnErr, IsErrOf};
ghost use Rattle.std.specs.Option.{option_map};
ghost use Rattle.std.specs.Arc.{arc_value};
ghost use Rattle.pending_fetch.specs.Fetches.{fetch_of};
ghost use Rattle.node_core.specs.Happening.{arrives, happening};
ghost use Rattle.node_book.specs.Told.{Told, Submits, passing};

use filter_slots::{Datagram, Judged, Moment};
use node_book::{Clerk, SubmitFault};
use node_core::{Action, Event, NoMemory, Out, Outcome};
use object_store::CacheKey;
use std::alloc::{AllocError, Global};
use std::sync::Arc;

/// What a clerk refuses.
#[derive(Clone, Copy)]
pub(crate) struct Left {
    /// The numbers of objects, failures, keys and actions that are still to be refused.
    pub(crate) objects: u32,
    pub(crate) failures: u32,
    pub(crate) keys: u32,
    pub(crate) passes: u32,
    /// The numbers of events without a result that are still taken, and of actions that are still passed on; more are refused.
    pub(crate) events: u32,
    pub(crate) room: u32,
    /// The error for an event that is refused.
    pub(crate) fault: SubmitFault,
}

/// Nothing is refused.
pub(crate) const NOTHING: Left = Left {
    objects: 0,
    failures: 0,
    keys: 0,
    passes: 0,
    events: u32::MAX,
    room: u32::MAX,
    fault: SubmitFault::NoMemory,
};

/// A result that was submitted.
#[derive(Clone, Copy)]
pub(crate) struct Handed {
    pub(crate) fetch: u32,
    pub(crate) attempt: u16,
    pub(crate) is_object: bool,
}

/// Wraps a clerk, refuses what `left` says, and records the submitted results.
#[derive(Drop)]
pub(crate) struct Refusing<C> {
    pub(crate) clerk: C,
    pub(crate) left: Left,
    pub(crate) results: Vec<Handed>,
}

/// The result that an event carries, or `None`.
fn handed_by(event: &Event) -> Option<Handed> {
    match event {
        Event::Fetched {
            fetch,
            attempt,
            result,
            ..
        } => Some(Handed {
            fetch: *fetch,
            attempt: *attempt,
            is_object: matches!(result, Outcome::Object(_)),
        }),
        _ => None,
    }
}

/// Decrements a counter. Returns `false` if it is 0 already.
fn takes_one(left: &mut u32) -> bool {
    match left.checked_sub(1) {
        Some(fewer) => {
            *left = fewer;
            true
        }
        None => false,
    }
}

impl Left {
    /// Whether a result is to be refused.
    fn takes(&mut self, handed: Handed) -> bool {
        if handed.is_object {
            takes_one(&mut self.objects)
        } else {
            takes_one(&mut self.failures)
        }
    }

    /// Whether an action is to be refused.
    fn takes_action(&mut self) -> bool {
        takes_one(&mut self.passes) || !takes_one(&mut self.room)
    }
}

impl<C: Clerk> Refusing<C> {
    pub(crate) fn new(alloc: Global, clerk: C, left: Left) -> Refusing<C> {
        Refusing {
            clerk,
            left,
            results: Vec::new(alloc),
        }
    }

    /// Whether an event is to be refused. Its result is recorded.
    fn refuses(&mut self, event: &Event) -> bool
        ensures { self.new.clerk ≡ self.old.clerk }
    {
        let Some(handed) = handed_by(event) else {
            return !takes_one(&mut self.left.events);
        };
        let _ = self.results.push(handed);
        self.left.takes(handed)
    }
}

impl<C: Clerk> Clerk for Refusing<C> {
    ghost use Rattle.std.specs.Prelude.{None};

    // Nothing of a node, as this clerk may refuse whatever the number of the next event is.
    ghost told = { λ r. record (C.told r.clerk) { node = None } };

    ghost taken = { λ r. C.taken r.clerk };

    ghost programs = { λ r. C.programs r.clerk };

    fn submit(
        &mut self,
        alloc: Global,
        event: Arc<Event>,
        out: &mut Out,
    ) -> Result<u64, SubmitFault> {
        if self.refuses(&*event) {
            return Err(self.left.fault);
        }
        self.clerk.submit(alloc, event, out)
    }

    fn submit_judged(
        &mut self,
        alloc: Global,
        judged: &Judged,
        now: Moment,
        out: &mut Out,
    ) -> Result<u64, SubmitFault> {
        if !takes_one(&mut self.left.events) {
            return Err(self.left.fault);
        }
        self.clerk.submit_judged(alloc, judged, now, out)
    }

    fn judge(&mut self, datagram: Arc<Datagram>) -> Result<Judged, NoMemory> {
        self.clerk.judge(datagram)
    }

    fn pass(&mut self, alloc: Global, action: &Action) -> Result<(), NoMemory> {
        if self.left.takes_action() {
            return Err(AllocError);
        }
        self.clerk.pass(alloc, action)
    }

    fn key_of(&mut self, alloc: Global, fetch: u32) -> Result<Option<CacheKey>, NoMemory> {
        if takes_one(&mut self.left.keys) {
            return Err(AllocError);
        }
        self.clerk.key_of(alloc, fetch)
    }
}
