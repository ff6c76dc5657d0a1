//! Client requests.
ghost use Rattle.std.specs.Prelude.{◌≡◌, ◌∷◌, [], max, true, false, None, is_some, option_map, IfOk, IsOk, OnOk, OnErr};
ghost use Rattle.object_store.specs.declared.entry.Entry.{Entry as Stored};
ghost use Rattle.object_store.specs.Store.{fresh_at};
ghost use Rattle.peer_select.specs.Poll.{begun, matches};
ghost use Rattle.pending_fetch.specs.Fetches.{waits, shared_number, opened};
ghost use Rattle.pending_fetch.specs.Calls.{is_full, join_answer, join_fault, join_list};
ghost use Rattle.node_words.specs.declared.action.Action.TheVariants.{Serve};
ghost use Rattle.node_words.specs.declared.action.Answer.TheVariants.{Hit};
ghost use Rattle.plain_node.specs.PlainNode.{at_clock, with_fetches};
ghost use Rattle.plain_node.specs.Plain.{Requested, plain_step};
ghost use Rattle.plain_node.specs.Requests.{request_step, mode_step, found_step, wait_step, open_step, looked_up, age_of};
ghost use Rattle.plain_node.specs.Fitting.{asked, joining};
ghost use Rattle.plain_node.specs.Memory.{asks_none, finds, opens};

use crate::NoMemory;
use crate::action::Out;
use crate::core_node::Core;
use filter_slots::Moment;
use node_terms::Mode;
use node_words::{Action, Answer};
use object_store::{CacheKey, Entry};
use peer_select::Round;
use pending_fetch::{JoinFault, next_law};
use std::alloc::Global;

impl Core {
    /// Handles a client's request for a key. A client that already waits keeps waiting. Errors, which leave the node
    /// unchanged: out of memory, or too many owners of an object or key.
    #[tactic(auto, unfolding(crate::specs::Requests::request_step))]
    pub fn request(
        &mut self,
        alloc: Global,
        client: u64,
        key: &CacheKey,
        mode: Mode,
        now: Moment,
        out: &mut Out,
    ) -> Result<(), NoMemory>
        requires { out.old ≡ [] }
        ensures plain { OnOk result (self.new ≡ (plain_step self.old (Requested client key.now mode now)).0) }
        ensures actions { OnOk result (out.new ≡ (plain_step self.old (Requested client key.now mode now)).1) }
        ensures refused { OnErr result ((self.new ≡ self.old) × (out.new ≡ [])) }
        ensures silent { asks_none (at_clock self.old now) client key.now mode ≡ true → IsOk result }
    {
        if self.waits(client) {
            self.tick(now);
            return Ok(());
        }
        match mode {
            Mode::Private => self.private(alloc, client, key, now, out),
            Mode::Shared => self.shared(alloc, client, key, now, out),
            Mode::Cached => self.cached(client, key, now, out),
        }
    }

    /// Whether a client waits for a fetch.
    fn waits(&self, client: u64) -> bool
        ensures { result ≡ waits client self.now.fetches.list }
    {
        self.pending.waits(client)
    }

    /// Opens a private fetch for the client.
    #[tactic(auto, unfolding(crate::specs::Requests::found_step))]
    fn private(
        &mut self,
        alloc: Global,
        client: u64,
        key: &CacheKey,
        now: Moment,
        out: &mut Out,
    ) -> Result<(), NoMemory>
        requires empty { out.old ≡ [] }
        requires absent { waits client self.old.fetches.list ≡ false }
        ensures plain { OnOk result (self.new ≡ (mode_step (at_clock self.old now) client key.now Mode.Private).0) }
        ensures actions { OnOk result (out.new ≡ (mode_step (at_clock self.old now) client key.now Mode.Private).1) }
        ensures refused { OnErr result ((self.new ≡ self.old) × (out.new ≡ [])) }
        ensures silent { opens (at_clock self.old now) key.now Mode.Private ≡ false → IsOk result }
    {
        self.open(alloc, client, key, false, now, out)
    }

    /// Answers from the store, or else lets the client wait for a shared fetch.
    #[tactic(auto, unfolding(crate::specs::Requests::found_step))]
    fn shared(
        &mut self,
        alloc: Global,
        client: u64,
        key: &CacheKey,
        now: Moment,
        out: &mut Out,
    ) -> Result<(), NoMemory>
        requires empty { out.old ≡ [] }
        requires absent { waits client self.old.fetches.list ≡ false }
        ensures plain { OnOk result (self.new ≡ (mode_step (at_clock self.old now) client key.now Mode.Shared).0) }
        ensures actions { OnOk result (out.new ≡ (mode_step (at_clock self.old now) client key.now Mode.Shared).1) }
        ensures refused { OnErr result ((self.new ≡ self.old) × (out.new ≡ [])) }
        ensures silent { finds (at_clock self.old now) key.now Mode.Shared ≡ false → opens (at_clock self.old now) key.now Mode.Shared ≡ false → IsOk result }
    {
        match self.stored(key, now)? {
            Some(answer) => {
                self.give(client, key, answer, now, out);
                Ok(())
            }
            None => self.wait(alloc, client, key, now, out),
        }
    }

    /// Answers from the store, or else with 504.
    #[tactic(auto, unfolding(crate::specs::Requests::found_step))]
    fn cached(
        &mut self,
        client: u64,
        key: &CacheKey,
        now: Moment,
        out: &mut Out,
    ) -> Result<(), NoMemory>
        requires empty { out.old ≡ [] }
        ensures plain { OnOk result (self.new ≡ (mode_step (at_clock self.old now) client key.now Mode.Cached).0) }
        ensures actions { OnOk result (out.new ≡ (mode_step (at_clock self.old now) client key.now Mode.Cached).1) }
        ensures refused { OnErr result ((self.new ≡ self.old) × (out.new ≡ [])) }
        ensures silent { finds (at_clock self.old now) key.now Mode.Cached ≡ false → IsOk result }
    {
        match self.stored(key, now)? {
            Some(answer) => self.give(client, key, answer, now, out),
            None => self.give(client, key, Answer::Fail(504), now, out),
        }
        Ok(())
    }

    /// Joins the shared fetch for the key, or opens one.
    fn wait(
        &mut self,
        alloc: Global,
        client: u64,
        key: &CacheKey,
        now: Moment,
        out: &mut Out,
    ) -> Result<(), NoMemory>
        requires empty { out.old ≡ [] }
        requires absent { waits client self.old.fetches.list ≡ false }
        ensures plain { OnOk result (self.new ≡ (wait_step (looked_up (at_clock self.old now) key.now) client key.now (shared_number key.now self.old.fetches.list)).0) }
        ensures actions { OnOk result (out.new ≡ (wait_step (looked_up (at_clock self.old now) key.now) client key.now (shared_number key.now self.old.fetches.list)).1) }
        ensures refused { OnErr result ((self.new ≡ self.old) × (out.new ≡ [])) }
        ensures silent { opens (at_clock self.old now) key.now Mode.Shared ≡ false → IsOk result }
    {
        if !self.join(client, key, out) {
            return self.open(alloc, client, key, true, now, out);
        }
        self.tick(now);
        self.look_up(key);
        Ok(())
    }

    /// Joins the shared fetch for the key, or answers 503 if 1,024 clients wait. Returns whether there is such a fetch.
    fn join(&mut self, client: u64, key: &CacheKey, out: &mut Out) -> bool
        requires empty { out.old ≡ [] }
        requires absent { waits client self.old.fetches.list ≡ false }
        ensures found { result ≡ is_some (shared_number key.now self.old.fetches.list) }
        ensures node { self.new ≡ (joining self.old client (shared_number key.now self.old.fetches.list)).0 }
        ensures actions { out.new ≡ (joining self.old client (shared_number key.now self.old.fetches.list)).1 }
    {
        match self.enlist(client, key) {
            None => false,
            Some(Ok(())) => true,
            Some(Err(_)) => {
                out.push(Action::Serve {
                    client,
                    answer: Answer::Fail(503),
                });
                true
            }
        }
    }

    /// Joins the shared fetch for the key. Returns `None` if there is none, else as `Pending::join`.
    fn enlist(&mut self, client: u64, key: &CacheKey) -> Option<Result<(), JoinFault>>
        ensures answer { result ≡ join_answer (shared_number key.now self.old.fetches.list) (join_fault client self.old.fetches.list) }
        ensures node { self.new ≡ with_fetches self.old (join_list client self.old.fetches.list (shared_number key.now self.old.fetches.list) (join_fault client self.old.fetches.list)) }
    {
        self.pending.join(key, client)
    }

    /// Opens a fetch, or answers 503 if the table of pending fetches is full.
    #[tactic(auto, unfolding(crate::specs::Requests::open_step))]
    fn open(
        &mut self,
        alloc: Global,
        client: u64,
        key: &CacheKey,
        shared: bool,
        now: Moment,
        out: &mut Out,
    ) -> Result<(), NoMemory>
        requires empty { out.old ≡ [] }
        requires absent { waits client self.old.fetches.list ≡ false }
        requires alone { shared ≡ true → shared_number key.now self.old.fetches.list ≡ None }
        ensures plain { OnOk result (self.new ≡ (open_step (asked (at_clock self.old now) key.now shared) client key.now shared).0) }
        ensures actions { OnOk result (out.new ≡ (open_step (asked (at_clock self.old now) key.now shared) client key.now shared).1) }
        ensures refused { OnErr result ((self.new ≡ self.old) × (out.new ≡ [])) }
        ensures silent { is_full self.old.fetches.list ≡ true → IsOk result }
    {
        self.facts();
        self.few();
        next_law();
        if self.is_full() {
            self.turn_away(client, key, shared, now, out);
            return Ok(());
        }
        let number = self.ask(alloc, key, shared, now, out)?;
        if let Err(e) = self.enter(alloc, client, key, shared, now) {
            out.clear();
            return Err(e);
        }
        self.ask_store(key, shared);
        self.facts();
        self.decide(number, out);
        Ok(())
    }

    /// Whether no fetch can be opened.
    fn is_full(&self) -> bool
        ensures { result ≡ is_full self.now.fetches.list }
    {
        self.pending.is_full()
    }

    /// Answers the client with 503.
    fn turn_away(&mut self, client: u64, key: &CacheKey, shared: bool, now: Moment, out: &mut Out)
        requires { out.old ≡ [] }
        ensures node { self.new ≡ asked (at_clock self.old now) key.now shared }
        ensures actions { out.new ≡ Serve client (Answer.Fail 503) ∷ [] }
    {
        out.push(Action::Serve {
            client,
            answer: Answer::Fail(503),
        });
        self.tick(now);
        self.ask_store(key, shared);
    }

    /// Advances the clock and opens a fetch.
    fn enter(
        &mut self,
        alloc: Global,
        client: u64,
        key: &CacheKey,
        shared: bool,
        now: Moment,
    ) -> Result<(), NoMemory>
        requires absent { waits client self.old.fetches.list ≡ false }
        requires alone { shared ≡ true → shared_number key.now self.old.fetches.list ≡ None }
        ensures ok { OnOk result (self.new ≡ record (at_clock self.old now) { fetches = opened key.now client shared (begun self.old.rows shared (max self.old.clock now)) self.old.fetches }) }
        ensures err { OnErr result (self.new ≡ self.old) }
    {
        let key = key.share()?;
        let start = self.clock.later(now);
        let round = self.round(shared, start);
        match self.pending.open(alloc, key, client, shared, round) {
            Ok(_) => {
                self.clock = start;
                Ok(())
            }
            Err(_) => Err(NoMemory),
        }
    }

    /// A new polling round: a shared fetch polls the neighbours, a private one nobody.
    fn round(&self, shared: bool, start: Moment) -> Round
        ensures value { result ≡ begun self.now.rows shared start }
        ensures matching { matches self.now.rows.neighbours result.peers ≡ true }
    {
        if shared {
            Round::start(&self.table, start)
        } else {
            Round::unasked(&self.table, start)
        }
    }

    /// The answer from the store if it has a fresh object, else `None`.
    fn stored(&self, key: &CacheKey, now: Moment) -> Result<Option<Answer>, NoMemory>
        ensures value { IfOk result (λ answer. answer ≡ option_map (λ (entry : Stored). Hit entry.object (age_of entry (max self.now.clock now))) (fresh_at key.now (max self.now.clock now) self.now.store)) }
        ensures silent { fresh_at key.now (max self.now.clock now) self.now.store ≡ None → IsOk result }
    {
        let now = self.clock.later(now);
        let Some(entry) = self.store.peek(key, now) else {
            return Ok(None);
        };
        let object = entry.object.share()?;
        let age = age(entry, now);
        Ok(Some(Answer::Hit { object, age }))
    }

    /// Answers the client, and records the lookup of the key in the store.
    fn give(&mut self, client: u64, key: &CacheKey, answer: Answer, now: Moment, out: &mut Out)
        requires { out.old ≡ [] }
        ensures node { self.new ≡ looked_up (at_clock self.old now) key.now }
        ensures actions { out.new ≡ Serve client answer ∷ [] }
    {
        out.push(Action::Serve { client, answer });
        self.tick(now);
        self.look_up(key);
    }

    /// Looks the key up in the store if the fetch is shared.
    fn ask_store(&mut self, key: &CacheKey, shared: bool)
        ensures { self.new ≡ asked self.old key.now shared }
    {
        if shared {
            self.look_up(key);
        }
    }

    /// Looks a key up in the store, which makes a fresh entry the most recently used one and removes a stale one.
    fn look_up(&mut self, key: &CacheKey)
        ensures { self.new ≡ looked_up self.old key.now }
    {
        let _ = self.store.get(key, self.clock);
    }
}

/// An object's age in seconds: its age on arrival plus the whole seconds since (RFC 9111), at most 2,147,483,648.
fn age(entry: &Entry, now: Moment) -> u32
    ensures { result ≡ age_of entry.now now }
{
    let received = u64::from(entry.object.get().age());
    let since = now.millis().saturating_sub(entry.at.millis()) / 1000;
    (received + since).min(2_147_483_648) as u32
}
