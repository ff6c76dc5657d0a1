//! Timers: polling rounds expire after 2,000 ms.
ghost use Rattle.std.specs.Prelude.{◌≡◌, ◌≤◌, ◌<◌, ◌+◌, ◌++◌, [], length, slice_set, Some, None, if◌then◌else◌};
ghost use Rattle.neighbours.specs.Rows.{mark_at, missed};
ghost use Rattle.peer_select.specs.Poll.{has_reply};
ghost use Rattle.pending_fetch.specs.Fetches.{PendingFetch, fetch_of, waiters_of, all_due, changed, with_end};
ghost use Rattle.pending_fetch.specs.Legal.{IsLegal};
ghost use Rattle.pending_fetch.specs.Places.{IsFirstDue};
ghost use Rattle.plain_node.specs.PlainNode.{at_clock, with_fetches};
ghost use Rattle.plain_node.specs.Rounds.{missed_from, with_misses, timer_step, expired_step};
ghost use Rattle.pending_fetch.specs.Bounds.{most_waiters};
ghost use Rattle.plain_node.specs.Bounds.{most_actions};

use crate::action::Out;
use crate::core_node::Core;
use filter_slots::Moment;
use neighbours::Table;
use peer_select::{Round, unchanged_law};
use pending_fetch::{due_law, waits_law};

impl Core {
    /// Handles a tick: advances the clock, and expires each undecided round that started at least 2,000 ms ago, in the order
    /// of opening.
    pub fn timer(&mut self, now: Moment, out: &mut Out)
        requires { out.old ≡ [] }
        ensures plain { self.new ≡ (timer_step (at_clock self.old now)).0 }
        ensures actions { out.new ≡ (timer_step (at_clock self.old now)).1 }
    {
        unchanged_law();
        waits_law();
        self.tick(now);
        self.legal();
        while let Some(number) = self.first_due() {
            self.legal();
            self.expire(number, out);
        }
    }

    /// States the invariant of the pending fetches for callers; does nothing at run time.
    pub(crate) fn legal(&self)
        ensures { IsLegal self.now.fetches.list }
    {
        self.pending.facts();
    }

    /// States for callers that at most 1,024 clients wait for a fetch; does nothing at run time.
    pub(crate) fn few_waiters(&self, number: u32)
        ensures { length (waiters_of number self.now.fetches.list) ≤ most_waiters }
    {
        let _ = number;
        waits_law();
        self.pending.facts();
    }

    /// The number of the first fetch, in the order of opening, whose round is due.
    fn first_due(&self) -> Option<u32>
        ensures first { (number : _) → result ≡ Some number → IsFirstDue self.now.clock number self.now.fetches.list }
        ensures none { result ≡ None → all_due self.now.clock self.now.fetches.list ≡ [] }
    {
        due_law();
        self.pending.facts();
        self.pending.due(self.clock)
    }

    /// Expires the round of a fetch, which decides it, and adds a miss to each neighbour that didn't reply.
    fn expire(&mut self, number: u32, out: &mut Out)
        requires room { length out.old + 1 + length (waiters_of number self.old.fetches.list) ≤ most_actions }
        ensures plain { (fetch : PendingFetch) → fetch_of number self.old.fetches.list ≡ Some fetch → self.new ≡ (expired_step self.old (Some fetch)).0 }
        ensures actions { (fetch : PendingFetch) → fetch_of number self.old.fetches.list ≡ Some fetch → out.new ≡ out.old ++ (expired_step self.old (Some fetch)).1 }
    {
        self.count_misses(number);
        self.end_round(number);
        self.decide(number, out);
    }

    /// Adds a miss to each neighbour that didn't reply in the round of this fetch.
    fn count_misses(&mut self, number: u32)
        ensures missed { (fetch : PendingFetch) → fetch_of number self.old.fetches.list ≡ Some fetch → self.new ≡ with_misses self.old fetch.round.replies }
        ensures fetches { self.new.fetches ≡ self.old.fetches }
    {
        let Some(fetch) = self.pending.fetch(number) else {
            return;
        };
        miss_silent(&mut self.table, fetch.round);
    }

    /// Ends the round of this fetch.
    fn end_round(&mut self, number: u32)
        ensures { self.new ≡ with_fetches self.old (changed with_end number self.old.fetches.list) }
    {
        self.pending.expire(number);
    }
}

/// Adds a miss to each neighbour that didn't reply in the round.
fn miss_silent(table: &mut Table, round: &Round)
    ensures { table.new ≡ record table.old { marks = missed_from round.now.replies 0 table.old.marks } }
{
    table.facts();
    for n in 0..table.len() {
        miss_one(table, round, n);
    }
}

/// Adds a miss to the neighbour with index `n`, unless it replied.
fn miss_one(table: &mut Table, round: &Round, n: usize)
    requires { n < length table.old.neighbours }
    ensures { table.new ≡ record table.old { marks = if has_reply round.now.replies n then table.old.marks else slice_set table.old.marks n (missed (mark_at table.old.marks n)) } }
{
    if round.has_reply(n) {
        return;
    }
    table.missed(n);
}
