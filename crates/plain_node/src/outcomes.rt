//! Outcomes of fetches.
ghost use Rattle.std.specs.Prelude.{◌≡◌, ◌≤◌, ◌==◌, [], length, max, true, false, Some, None, IsOk, IfSome, OnOk, OnErr};
ghost use Rattle.peer_select.specs.declared.reply.Source.{Source};
ghost use Rattle.pending_fetch.specs.Fetches.{PendingFetch, fetch_of, is_shared, waiters_of};
ghost use Rattle.pending_fetch.specs.Legal.{IsLegal};
ghost use Rattle.node_words.specs.declared.action.Answer.TheVariants.{Got};
ghost use Rattle.plain_node.specs.PlainNode.{at_clock, serves};
ghost use Rattle.plain_node.specs.Plain.{Ended, plain_step};
ghost use Rattle.plain_node.specs.Sources.{source_of};
ghost use Rattle.plain_node.specs.Outcomes.{outcome_step, next_step, got_step, counts, is_failure, is_from_sibling, may_store, put_in, stored};
ghost use Rattle.plain_node.specs.Memory.{ends_none, is_no_object, is_unused, is_nobody};
ghost use Rattle.plain_node.specs.Bounds.{most_actions};

use crate::NoMemory;
use crate::action::Out;
use crate::core_node::Core;
use crate::serving::serve_object;
use filter_slots::Moment;
use node_words::Outcome;
use object_store::{CacheKey, Entry, PutFault, SharedObject};
use peer_select::Source;

impl Core {
    /// Handles the end of an attempt of a fetch. Ignored unless the fetch is pending, its round is decided, and this is its
    /// current attempt. Errors, which leave the node unchanged: out of memory, or too many owners of an object.
    pub fn fetched(
        &mut self,
        number: u32,
        attempt: u16,
        outcome: &Outcome,
        now: Moment,
        out: &mut Out,
    ) -> Result<(), NoMemory>
        requires { out.old ≡ [] }
        ensures plain { OnOk result (self.new ≡ (plain_step self.old (Ended number attempt outcome.now now)).0) }
        ensures actions { OnOk result (out.new ≡ (plain_step self.old (Ended number attempt outcome.now now)).1) }
        ensures refused { OnErr result ((self.new ≡ self.old) × (out.new ≡ [])) }
        ensures silent { ends_none self.old attempt outcome.now (fetch_of number self.old.fetches.list) ≡ true → IsOk result }
    {
        if !self.counts(number, attempt) {
            self.tick(now);
            return Ok(());
        }
        self.counted(number, outcome, now, out)
    }

    /// Handles the end of a fetch's current attempt.
    #[tactic(auto, unfolding(crate::specs::Outcomes::outcome_step))]
    fn counted(
        &mut self,
        number: u32,
        outcome: &Outcome,
        now: Moment,
        out: &mut Out,
    ) -> Result<(), NoMemory>
        requires { out.old ≡ [] }
        ensures plain { (f : PendingFetch) → fetch_of number self.old.fetches.list ≡ Some f → OnOk result (self.new ≡ (outcome_step (at_clock self.old now) f outcome.now).0) }
        ensures actions { (f : PendingFetch) → fetch_of number self.old.fetches.list ≡ Some f → OnOk result (out.new ≡ (outcome_step (at_clock self.old now) f outcome.now).1) }
        ensures refused { OnErr result ((self.new ≡ self.old) × (out.new ≡ [])) }
        ensures silent { (f : PendingFetch) → fetch_of number self.old.fetches.list ≡ Some f → is_no_object self.old f outcome.now ≡ true → IsOk result }
    {
        match outcome {
            Outcome::Failed => {
                self.go_on(number, now, out);
                Ok(())
            }
            Outcome::Object(object) => self.object(number, object, now, out),
        }
    }

    /// Handles an object that the current attempt returned. A sibling's 504 means that it doesn't have the object, and counts
    /// as a failure.
    #[tactic(auto, unfolding(crate::specs::Outcomes::outcome_step))]
    fn object(
        &mut self,
        number: u32,
        object: &SharedObject,
        now: Moment,
        out: &mut Out,
    ) -> Result<(), NoMemory>
        requires { out.old ≡ [] }
        ensures plain { (f : PendingFetch) → fetch_of number self.old.fetches.list ≡ Some f → OnOk result (self.new ≡ (outcome_step (at_clock self.old now) f (Outcome.Object object.now)).0) }
        ensures actions { (f : PendingFetch) → fetch_of number self.old.fetches.list ≡ Some f → OnOk result (out.new ≡ (outcome_step (at_clock self.old now) f (Outcome.Object object.now)).1) }
        ensures refused { OnErr result ((self.new ≡ self.old) × (out.new ≡ [])) }
        ensures silent { (f : PendingFetch) → fetch_of number self.old.fetches.list ≡ Some f → is_unused self.old f object.now ≡ true → IsOk result }
    {
        if self.is_failure(number, object) {
            self.go_on(number, now, out);
            return Ok(());
        }
        self.got(number, object, now, out)
    }

    /// Tries the next source of a fetch; if there is none, answers its waiters with 502 and closes it.
    #[tactic(auto, unfolding(crate::specs::Outcomes::next_step))]
    fn go_on(&mut self, number: u32, now: Moment, out: &mut Out)
        requires { out.old ≡ [] }
        ensures plain { (f : PendingFetch) → fetch_of number self.old.fetches.list ≡ Some f → self.new ≡ (next_step (at_clock self.old now) f).0 }
        ensures actions { (f : PendingFetch) → fetch_of number self.old.fetches.list ≡ Some f → out.new ≡ (next_step (at_clock self.old now) f).1 }
    {
        self.tick(now);
        self.advance(number);
        self.facts();
        self.try_source(number, 502, out);
    }

    /// Sends the object to all waiters, stores it if it may be stored, and closes the fetch. An error leaves the node unchanged.
    #[tactic(auto, unfolding(crate::specs::Outcomes::got_step))]
    fn got(
        &mut self,
        number: u32,
        object: &SharedObject,
        now: Moment,
        out: &mut Out,
    ) -> Result<(), NoMemory>
        requires { out.old ≡ [] }
        ensures plain { (f : PendingFetch) → fetch_of number self.old.fetches.list ≡ Some f → OnOk result (self.new ≡ (got_step (at_clock self.old now) f object.now).0) }
        ensures actions { (f : PendingFetch) → fetch_of number self.old.fetches.list ≡ Some f → OnOk result (out.new ≡ (got_step (at_clock self.old now) f object.now).1) }
        ensures refused { OnErr result ((self.new ≡ self.old) × (out.new ≡ [])) }
        ensures silent { (f : PendingFetch) → fetch_of number self.old.fetches.list ≡ Some f → is_nobody f.waiters ≡ true → may_store f object.now ≡ false → IsOk result }
    {
        self.facts();
        self.serve(number, object, out)?;
        if let Err(e) = self.keep(number, object, now) {
            out.clear();
            return Err(e);
        }
        self.close(number);
        Ok(())
    }

    /// Sends the object to all waiters; on an error to none.
    fn serve(&self, number: u32, object: &SharedObject, out: &mut Out) -> Result<(), NoMemory>
        requires empty { out.old ≡ [] }
        requires room { length (waiters_of number self.now.fetches.list) ≤ most_actions }
        ensures ok { OnOk result (out.new ≡ serves (Got object.now) (waiters_of number self.now.fetches.list)) }
        ensures err { OnErr result (out.new ≡ []) }
        ensures silent { is_nobody (waiters_of number self.now.fetches.list) ≡ true → IsOk result }
    {
        serve_object(self.pending.waiters(number), object, out)
    }

    /// Advances the clock, and stores the object of a fetch if it may be stored.
    fn keep(&mut self, number: u32, object: &SharedObject, now: Moment) -> Result<(), NoMemory>
        ensures ok { OnOk result ((f : PendingFetch) → fetch_of number self.old.fetches.list ≡ Some f → self.new ≡ stored (at_clock self.old now) f object.now) }
        ensures err { OnErr result (self.new ≡ self.old) }
        ensures silent { (f : PendingFetch) → fetch_of number self.old.fetches.list ≡ Some f → may_store f object.now ≡ false → IsOk result }
    {
        if !self.may_store(number, object) {
            self.tick(now);
            return Ok(());
        }
        let Some(key) = self.key_of(number) else {
            self.tick(now);
            return Ok(());
        };
        let key = key.share()?;
        let object = object.share()?;
        let at = self.clock.later(now);
        self.put(key, Entry { object, at })?;
        self.tick(now);
        Ok(())
    }

    /// Puts an entry into the store, unless it exceeds the store's limits.
    fn put(&mut self, key: CacheKey, entry: Entry) -> Result<(), NoMemory>
        ensures ok { OnOk result (self.new ≡ record self.old { store = put_in key entry self.old.store }) }
        ensures err { OnErr result (self.new ≡ self.old) }
    {
        match self.store.put(key, entry) {
            Ok(()) => Ok(()),
            Err((PutFault::TooLarge, _, _)) => Ok(()),
            Err((PutFault::NoMemory, _, _)) => Err(NoMemory),
        }
    }

    /// Whether a result counts for the fetch with this number: its round is decided and this is its current attempt.
    fn counts(&self, number: u32, attempt: u16) -> bool
        ensures pending { (f : PendingFetch) → fetch_of number self.now.fetches.list ≡ Some f → result ≡ counts f attempt }
        ensures absent { fetch_of number self.now.fetches.list ≡ None → result ≡ false }
    {
        match self.held(number) {
            Some(fetch) => fetch.round.decided() && fetch.attempt == attempt,
            None => false,
        }
    }

    /// Whether an object is a sibling's 504, which means that it doesn't have the object.
    fn is_failure(&self, number: u32, object: &SharedObject) -> bool
        ensures { (f : PendingFetch) → fetch_of number self.now.fetches.list ≡ Some f → result ≡ is_failure self.now f object.now }
    {
        object.get().status() == 504 && self.is_from_sibling(number)
    }

    /// Whether the source of a fetch's current attempt is a sibling.
    fn is_from_sibling(&self, number: u32) -> bool
        ensures { (f : PendingFetch) → fetch_of number self.now.fetches.list ≡ Some f → result ≡ is_from_sibling self.now.rows.neighbours (source_of self.now f) }
    {
        match self.source_at(number) {
            Some(source) => self.is_sibling(source),
            None => false,
        }
    }

    /// The source of a fetch's current attempt.
    fn source_at(&self, number: u32) -> Option<Source>
        ensures { (f : PendingFetch) → fetch_of number self.now.fetches.list ≡ Some f → result ≡ source_of self.now f }
    {
        let fetch = self.held(number)?;
        self.source(fetch)
    }

    /// Whether a fetch is shared.
    fn is_shared(&self, number: u32) -> bool
        ensures { (f : PendingFetch) → fetch_of number self.now.fetches.list ≡ Some f → result ≡ is_shared f }
    {
        match self.held(number) {
            Some(fetch) => fetch.shared,
            None => false,
        }
    }

    /// Whether the object of a fetch may be stored: the fetch is shared, the status is 200 and the lifetime is above 0.
    fn may_store(&self, number: u32, object: &SharedObject) -> bool
        ensures { (f : PendingFetch) → fetch_of number self.now.fetches.list ≡ Some f → result ≡ may_store f object.now }
    {
        let object = object.get();
        self.is_shared(number) && object.status() == 200 && object.life() > 0
    }
}
