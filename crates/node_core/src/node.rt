//! The node: filters and counters in front of the plain node.
ghost use Rattle.std.specs.Prelude.{◌≡◌, ◌≤◌, ◌∷◌, [], length, map, true, false, IfOk, IfErr, OnOk, OnErr, IsOk, None, unwrap_or, option_copied};
ghost use Rattle.std.specs.Option.{option_map};
ghost use Rattle.std.specs.Arc.{arc_value};
ghost use Rattle.filter_slots.specs.Filters.{AreAccepted, AreNeighbours, has_slot, no_filters, with_slot};
ghost use Rattle.filter_slots.specs.Verdict.{verdict_in_force};
ghost use Rattle.neighbours.specs.Faults.{IsTable};
ghost use Rattle.object_store.specs.Store.{IsStore};
ghost use Rattle.pending_fetch.specs.Legal.{IsLegal};
ghost use Rattle.node_words.specs.Installs.{PutsInAccepted};
ghost use Rattle.pending_fetch.specs.Fetches.{PendingFetch, fetch_of};
ghost use Rattle.plain_node.specs.PlainNode.{at_clock};
ghost use Rattle.plain_node.specs.Settings.{setup_of, setup_fault};
ghost use Rattle.plain_node.specs.Plain.{Requested, Ticked, Ended, Left, plain_step};
ghost use Rattle.node_words.specs.Happening.{happening, arrives};
ghost use Rattle.node_core.specs.Kept.{kept_datagram};
ghost use Rattle.node_core.specs.Run.{plain_after, actions_of};
ghost use Rattle.node_core.specs.Raised.{counted_datagram};
ghost use Rattle.node_core.specs.State.{sender_of};
ghost use Rattle.plain_node.specs.Bounds.{most_actions};

use crate::NoMemory;
use crate::stats::{ZERO, raised_at};
use bpf_check::Checked;
use filter_slots::{Datagram, End, Judged, Moment, Slot, Slots, Socket, cut};
use neighbours::{Neighbour, Table};
use node_words::{Config, Event, Mode, Outcome, Stats};
use object_store::{CacheKey, KeyHashes, Store};
use plain_node::{Core, NodeFault, Out};
use std::alloc::Global;
use std::marker::Model;
use std::sync::Arc;

/// A node with its filters and counters. Contracts see a record of the plain node, the programs and the counters.
pub struct Node {
    core: Core,
    slots: Slots,
    stats: Stats,
}

// Written by hand, so that what lets it go is one call for the prover (docs/GATE.md).
impl Drop for Node {
    fn drop(self) {
        let Self {
            core: _,
            slots: _,
            stats: _,
        } = self;
    }
}

impl Model for Node {
    ghost use Rattle.node_core.specs.State.{State};

    ghost Value = { State };

    ghost view = { λ n. record { plain = n.core; filters = n.slots; stats = n.stats } };
}

impl Node {
    ghost use Rattle.node_core.specs.State.{HasTaken, TakesNone, opening, keeps_key};
    ghost use Rattle.plain_node.specs.Memory.{sends_none, asks_none, ends_none};

    /// Creates the node of a configuration, with a slot for each neighbour, no filters, an empty store, no pending fetches and
    /// all counters at 0. Errors: a fault of the neighbours or keys, else a prefix or limit out of range, else allocation
    /// failure.
    pub fn new(alloc: Global, config: Config) -> Result<Node, NodeFault>
        ensures opens { IfOk result (λ node. node ≡ opening (setup_of config)) }
        ensures faultless { OnOk result (setup_fault (setup_of config) ≡ None) }
        ensures fault { IfErr result (λ fault. fault ≡ unwrap_or (setup_fault (setup_of config)) NodeFault.NoMemory) }
    {
        let senders = senders_of(alloc, &config.neighbours);
        let core = Core::new(alloc, config)?;
        let Ok(senders) = senders else {
            return Err(NodeFault::NoMemory);
        };
        Ok(Node {
            core,
            slots: slots_for(&senders),
            stats: Stats {
                icp: ZERO,
                htcp: ZERO,
            },
        })
    }

    /// Hashes keys so from now on, in the store and among the pending fetches; until it is told, a node hashes without a secret. Nothing
    /// else changes. Errors: allocation failure, or a reference count at its maximum; the node goes on then.
    pub fn hash_by(&mut self, alloc: Global, hashes: KeyHashes) -> Result<(), NoMemory>
        ensures { self.new ≡ self.old }
    {
        self.core.hash_by(alloc, hashes)
    }

    /// An equal node with its own memory; programs and objects are shared. Errors: allocation failure, or a reference count at
    /// its maximum.
    pub fn copy(&self, alloc: Global) -> Result<Node, NoMemory>
        ensures { IfOk result (λ copy. copy ≡ self.now) }
    {
        let core = self.core.copy(alloc)?;
        let slots = self.slots.copy()?;
        Ok(Node {
            core,
            slots,
            stats: self.stats,
        })
    }

    /// The datagram counters of both sockets.
    pub fn stats(&self) -> Stats
        ensures { result ≡ self.now.stats }
    {
        self.stats
    }

    /// The programs in force, each of which the checker accepts.
    pub fn programs(&self) -> &Slots
        ensures same { result.now ≡ self.now.filters }
        ensures accepted { AreAccepted self.now.filters }
    {
        self.slots.facts();
        &self.slots
    }

    /// The neighbour table: the neighbours and what is known of each from its replies.
    pub fn neighbours(&self) -> &Table
        ensures { result.now ≡ self.now.plain.rows }
    {
        self.core.neighbours()
    }

    /// The store: its limits, and the stored objects by key.
    pub fn store(&self) -> &Store
        ensures { result.now ≡ self.now.plain.store }
    {
        self.core.store()
    }

    /// The key of a pending fetch, or `None` if no fetch of this number is pending.
    pub fn key_of(&self, fetch: u32) -> Option<&CacheKey>
        ensures { option_copied result ≡ option_map (λ (f : PendingFetch). f.key) (fetch_of fetch self.now.plain.fetches.list) }
    {
        self.core.key_of(fetch)
    }

    /// The invariants: the pending fetches, the store and the neighbours are within their limits, and the checker accepts every
    /// program in force. Changes nothing.
    pub fn facts(&self)
        ensures legal { IsLegal self.now.plain.fetches.list }
        ensures store { IsStore self.now.plain.store }
        ensures rows { IsTable self.now.plain.rows }
        ensures accepted { AreAccepted self.now.filters }
    {
        self.core.facts();
        self.slots.facts();
    }

    /// Takes one event and writes its actions, at most 1,344, to `out`, which must be empty. Errors: allocation failure, or a
    /// reference count at its maximum; the node is then unchanged and `out` is empty.
    pub fn step(&mut self, alloc: Global, event: &Event, out: &mut Out) -> Result<(), NoMemory>
        requires { out.old ≡ [] }
        ensures taken { OnOk result (HasTaken self.old self.new (happening event.now ∷ []) (out.new ∷ [])) }
        ensures refused { OnErr result ((self.new ≡ self.old) × (out.new ≡ [])) }
        ensures without_memory { TakesNone self.old (happening event.now) → IsOk result }
        ensures room { length out.new ≤ most_actions }
        ensures accepted { PutsInAccepted (happening event.now ∷ []) }
    {
        event.facts();
        let result = self.take(alloc, event, out);
        out.facts();
        result
    }

    /// Takes a datagram that was judged before. The verdict it carries is used if both of its programs equal those in force (two
    /// absent programs are equal); otherwise the datagram is judged again. The effect and the errors are those of `step`.
    pub fn step_judged(
        &mut self,
        alloc: Global,
        judged: &Judged,
        now: Moment,
        out: &mut Out,
    ) -> Result<(), NoMemory>
        requires { out.old ≡ [] }
        ensures taken { OnOk result (HasTaken self.old self.new (arrives judged.now.datagram now ∷ []) (out.new ∷ [])) }
        ensures refused { OnErr result ((self.new ≡ self.old) × (out.new ≡ [])) }
        ensures without_memory { TakesNone self.old (arrives judged.now.datagram now) → IsOk result }
        ensures room { length out.new ≤ most_actions }
    {
        let verdict = self.slots.force_judged(judged).value;
        let result = self.judged(alloc, judged.datagram(), verdict, now, out);
        out.facts();
        result
    }

    /// Dispatches an event by its kind.
    fn take(&mut self, alloc: Global, event: &Event, out: &mut Out) -> Result<(), NoMemory>
        requires { out.old ≡ [] }
        ensures taken { OnOk result (HasTaken self.old self.new (happening event.now ∷ []) (out.new ∷ [])) }
        ensures refused { OnErr result ((self.new ≡ self.old) × (out.new ≡ [])) }
        ensures without_memory { TakesNone self.old (happening event.now) → IsOk result }
    {
        match event {
            Event::Datagram { datagram, now } => self.datagram(alloc, datagram, *now, out),
            Event::Request {
                client,
                key,
                mode,
                now,
            } => self.request(alloc, *client, key, *mode, *now, out),
            Event::Timer { now } => {
                self.timer(*now, out);
                Ok(())
            }
            Event::Fetched {
                fetch,
                attempt,
                result,
                now,
            } => self.fetched(*fetch, *attempt, result, *now, out),
            Event::Gone { client } => {
                self.gone(*client);
                Ok(())
            }
            Event::Swap { slot, program } => self.swap(*slot, program),
        }
    }

    /// Judges a datagram and handles what its verdict lets through.
    fn datagram(
        &mut self,
        alloc: Global,
        datagram: &Datagram,
        now: Moment,
        out: &mut Out,
    ) -> Result<(), NoMemory>
        requires { out.old ≡ [] }
        ensures taken { OnOk result (HasTaken self.old self.new (arrives datagram.now now ∷ []) (out.new ∷ [])) }
        ensures refused { OnErr result ((self.new ≡ self.old) × (out.new ≡ [])) }
        ensures silent { sends_none (actions_of self.old.plain (kept_datagram self.old.filters datagram.now now)) ≡ true → keeps_key self.old.plain (kept_datagram self.old.filters datagram.now now) ≡ false → IsOk result }
    {
        let verdict = self.slots.force(datagram).value;
        self.judged(alloc, datagram, verdict, now, out)
    }

    /// Handles a datagram with its verdict in force: drops it at 0, else truncates it to the verdict for the plain node.
    fn judged(
        &mut self,
        alloc: Global,
        datagram: &Datagram,
        verdict: u32,
        now: Moment,
        out: &mut Out,
    ) -> Result<(), NoMemory>
        requires empty { out.old ≡ [] }
        requires in_force { verdict ≡ verdict_in_force self.old.filters datagram.now }
        ensures plain { OnOk result (self.new.plain ≡ plain_after self.old.plain (kept_datagram self.old.filters datagram.now now)) }
        ensures actions { OnOk result (out.new ≡ actions_of self.old.plain (kept_datagram self.old.filters datagram.now now)) }
        ensures filters { OnOk result (self.new.filters ≡ self.old.filters) }
        ensures stats { OnOk result (self.new.stats ≡ counted_datagram self.old.stats self.old.filters datagram.now) }
        ensures refused { OnErr result ((self.new ≡ self.old) × (out.new ≡ [])) }
        ensures silent { sends_none (actions_of self.old.plain (kept_datagram self.old.filters datagram.now now)) ≡ true → keeps_key self.old.plain (kept_datagram self.old.filters datagram.now now) ≡ false → IsOk result }
    {
        let socket = datagram.socket();
        if verdict == 0 {
            self.stats = raised_at(socket, self.stats, true, false, false);
            return Ok(());
        }
        let octets = cut(datagram, verdict);
        let malformed = self.core.datagram(alloc, datagram, octets, now, out)?;
        let shorter = octets.len() < datagram.payload().len();
        self.stats = raised_at(socket, self.stats, false, shorter, malformed);
        Ok(())
    }

    /// Handles a client's request for a key.
    fn request(
        &mut self,
        alloc: Global,
        client: u64,
        key: &CacheKey,
        mode: Mode,
        now: Moment,
        out: &mut Out,
    ) -> Result<(), NoMemory>
        requires { out.old ≡ [] }
        ensures plain { OnOk result (self.new.plain ≡ (plain_step self.old.plain (Requested client key.now mode now)).0) }
        ensures actions { OnOk result (out.new ≡ (plain_step self.old.plain (Requested client key.now mode now)).1) }
        ensures filters { OnOk result (self.new.filters ≡ self.old.filters) }
        ensures stats { OnOk result (self.new.stats ≡ self.old.stats) }
        ensures refused { OnErr result ((self.new ≡ self.old) × (out.new ≡ [])) }
        ensures silent { asks_none (at_clock self.old.plain now) client key.now mode ≡ true → IsOk result }
    {
        self.core.request(alloc, client, key, mode, now, out)
    }

    /// Handles a timer event.
    fn timer(&mut self, now: Moment, out: &mut Out)
        requires { out.old ≡ [] }
        ensures plain { self.new.plain ≡ (plain_step self.old.plain (Ticked now)).0 }
        ensures actions { out.new ≡ (plain_step self.old.plain (Ticked now)).1 }
        ensures filters { self.new.filters ≡ self.old.filters }
        ensures stats { self.new.stats ≡ self.old.stats }
    {
        self.core.timer(now, out);
    }

    /// Handles the end of a fetch attempt.
    fn fetched(
        &mut self,
        fetch: u32,
        attempt: u16,
        outcome: &Outcome,
        now: Moment,
        out: &mut Out,
    ) -> Result<(), NoMemory>
        requires { out.old ≡ [] }
        ensures plain { OnOk result (self.new.plain ≡ (plain_step self.old.plain (Ended fetch attempt outcome.now now)).0) }
        ensures actions { OnOk result (out.new ≡ (plain_step self.old.plain (Ended fetch attempt outcome.now now)).1) }
        ensures filters { OnOk result (self.new.filters ≡ self.old.filters) }
        ensures stats { OnOk result (self.new.stats ≡ self.old.stats) }
        ensures refused { OnErr result ((self.new ≡ self.old) × (out.new ≡ [])) }
        ensures silent { ends_none self.old.plain attempt outcome.now (fetch_of fetch self.old.plain.fetches.list) ≡ true → IsOk result }
    {
        self.core.fetched(fetch, attempt, outcome, now, out)
    }

    /// Handles a client's disconnect.
    fn gone(&mut self, client: u64)
        ensures plain { self.new.plain ≡ (plain_step self.old.plain (Left client)).0 }
        ensures filters { self.new.filters ≡ self.old.filters }
        ensures stats { self.new.stats ≡ self.old.stats }
    {
        self.core.leave(client);
    }

    /// Replaces or removes the program of a slot. An unknown slot is ignored.
    #[tactic(auto, using(crate::proofs::Swaps::with_nowhere))]
    fn swap(&mut self, slot: Slot, program: &Option<Arc<Checked>>) -> Result<(), NoMemory>
        ensures plain { OnOk result (self.new.plain ≡ self.old.plain) }
        ensures filters { OnOk result (self.new.filters ≡ with_slot self.old.filters slot (option_map (λ arc. arc_value arc) program.now)) }
        ensures stats { OnOk result (self.new.stats ≡ self.old.stats) }
        ensures refused { OnErr result (self.new ≡ self.old) }
        ensures emptied { program.now ≡ None → IsOk result }
        ensures nowhere { has_slot self.old.filters slot ≡ false → IsOk result }
    {
        if !self.slots.has(slot) {
            return Ok(());
        }
        match program {
            None => {
                let _ = self.slots.clear(slot);
            }
            Some(program) => {
                let program = Arc::try_clone(program)?;
                let _ = self.slots.install(slot, program);
            }
        }
        Ok(())
    }
}

/// The socket of each neighbour, with the neighbour's address and port.
fn senders_of(alloc: Global, neighbours: &[Neighbour]) -> Result<Vec<(Socket, End)>, NoMemory>
    ensures { IfOk result (λ senders. senders.items ≡ map sender_of neighbours.now) }
{
    let mut senders = Vec::with_capacity(alloc, neighbours.len())?;
    for neighbour in neighbours {
        senders.push((neighbour.protocol, neighbour.end))?;
    }
    Ok(senders)
}

/// Slots for both sockets and for each of these neighbours, without programs.
fn slots_for(senders: &[(Socket, End)]) -> Slots
    requires { AreNeighbours senders.now }
    ensures { result ≡ no_filters senders.now }
{
    match Slots::new(senders) {
        Some(slots) => slots,
        None => unreachable!(),
    }
}
