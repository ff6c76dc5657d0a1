//! The actions of one event, in a buffer large enough for any event.
ghost use Rattle.std.specs.Prelude.{◌≡◌, ◌<◌, ◌≤◌, ◌++◌, ◌∷◌, [], length, IfOk};
ghost use Rattle.plain_node.specs.Bounds.{most_actions};

use crate::NoMemory;
use node_words::Action;
use pending_fetch::{MAX_PENDING_FETCHES, MAX_WAITERS};
use std::alloc::Global;
use std::marker::Model;

/// The maximum number of actions of one event, 1,344: one for each pending fetch and each waiter, and a query to each of 64
/// neighbours. Contracts state it as `most_actions` of specs/Bounds.antt, made of the same parts: change both.
pub const MAX_ACTIONS: usize = MAX_PENDING_FETCHES + MAX_WAITERS + 64;

/// The actions of one event, in order, in a buffer large enough for any event.
pub struct Out {
    actions: Vec<Action>,
}

// Written by hand, so that what lets it go is one call for the prover (docs/GATE.md).
impl Drop for Out {
    fn drop(self) {
        let Self { actions: _ } = self;
    }
}

impl Model for Out {
    ghost use Rattle.std.specs.Prelude.{List, ◌≤◌, length, vec_capacity};
    ghost use Rattle.plain_node.specs.Bounds.{most_actions};
    ghost use Rattle.node_words.specs.declared.action.Action.{Action};

    ghost Value = { List Action };

    ghost view = { λ o. o.actions.items };

    ghost invariant = { λ o. (most_actions ≤ vec_capacity o.actions) × (length o.actions.items ≤ most_actions) };
}

impl Out {
    /// An empty list. Reserves memory for 1,344 actions; errors when out of memory.
    pub fn new(alloc: Global) -> Result<Out, NoMemory>
        ensures { IfOk result (λ out. out ≡ []) }
    {
        Ok(Out {
            actions: Vec::with_capacity(alloc, MAX_ACTIONS)?,
        })
    }

    /// States for callers that there are at most 1,344 actions; does nothing at run time.
    pub fn facts(&self)
        ensures { length self.now ≤ most_actions }
    {
        let _ = &self.actions;
    }

    /// The actions, in order.
    pub fn actions(&self) -> &[Action]
        ensures { result.now ≡ self.now }
    {
        self.actions.as_slice()
    }

    /// Drops all actions. The memory stays reserved.
    pub fn clear(&mut self)
        ensures { self.new ≡ [] }
    {
        self.actions.clear();
    }

    /// Appends an action. Does not allocate.
    pub fn push(&mut self, action: Action)
        requires { length self.old < most_actions }
        ensures { self.new ≡ self.old ++ action ∷ [] }
    {
        self.actions.push(action).unwrap();
    }
}
