//! The node without filters and counters.
ghost use Rattle.std.specs.Prelude.{◌≡◌, ◌≤◌, ℕ, [], length, true, false, None, IfOk, IfErr, IsOk, OnOk, OnErr, option_copied, option_map, unwrap_or, if◌then◌else◌};
ghost use Rattle.pending_fetch.specs.Fetches.{PendingFetch, fetch_of, changed, with_next, left, waiters_of};
ghost use Rattle.neighbours.specs.Faults.{IsTable};
ghost use Rattle.object_store.specs.Store.{IsStore};
ghost use Rattle.pending_fetch.specs.Legal.{IsLegal};
ghost use Rattle.plain_node.specs.Settings.{setup_of, setup_fault};
ghost use Rattle.plain_node.specs.Plain.{Arrived, plain_step, is_no_message};
ghost use Rattle.plain_node.specs.Opening.{opening_node};
ghost use Rattle.plain_node.specs.Memory.{sends_none, writes_key_at};
ghost use Rattle.plain_node.specs.Fitting.{fault_after};
ghost use Rattle.plain_node.specs.PlainNode.{at_clock, closed, with_fetches};
ghost use Rattle.pending_fetch.specs.Bounds.{most_waiters};

use crate::NoMemory;
use crate::action::Out;
use crate::config::{NodeFault, Rules, is_fit};
use filter_slots::{Datagram, Moment, Socket};
use neighbours::{ConfigFault, Table};
use node_words::Config;
use object_store::{CacheKey, KeyHashes, Store};
use pending_fetch::Pending;
use std::alloc::Global;
use std::marker::Model;

/// The node without filters and counters.
pub struct Core {
    pub(crate) rules: Rules,
    pub(crate) table: Table,
    pub(crate) store: Store,
    pub(crate) pending: Pending,
    pub(crate) clock: Moment,
}

// Written by hand, so that what lets it go is one call for the prover (docs/GATE.md).
impl Drop for Core {
    fn drop(self) {
        let Self {
            rules: _,
            table: _,
            store: _,
            pending: _,
            clock: _,
        } = self;
    }
}

impl Model for Core {
    ghost use Rattle.plain_node.specs.PlainNode.{PlainNode};
    ghost use Rattle.plain_node.specs.Fitting.{IsFitting};

    ghost Value = { PlainNode };

    ghost view = { λ c. record { settings = c.rules; rows = c.table; store = c.store; fetches = c.pending; clock = c.clock } };

    ghost invariant = { λ c. IsFitting (record { settings = c.rules; rows = c.table; store = c.store; fetches = c.pending; clock = c.clock }) };
}

impl Core {
    /// A node with this configuration, an empty store, no pending fetches and the clock at 0. Errors, the first that applies:
    /// invalid neighbours or keys, a prefix or limit out of range, out of memory.
    pub fn new(alloc: Global, config: Config) -> Result<Core, NodeFault>
        ensures opens { IfOk result (λ core. core ≡ opening_node (setup_of config)) }
        ensures faultless { OnOk result (setup_fault (setup_of config) ≡ None) }
        ensures fault { IfErr result (λ fault. fault ≡ unwrap_or (setup_fault (setup_of config)) NodeFault.NoMemory) }
    {
        let fit = is_fit(&config);
        let (entries, octets) = (config.entries, config.octets);
        let rules = Rules {
            icp: config.icp,
            htcp: config.htcp,
            allowed: config.allowed,
            miss_nofetch: config.miss_nofetch,
            origin: config.origin,
        };
        match Table::new(alloc, config.neighbours, config.keys) {
            Ok(table) => Core::over(alloc, rules, table, entries, octets, fit),
            Err(fault) => Err(fault_for(fault, fit)),
        }
    }

    /// A node with this table of neighbours. `fit` tells whether the configuration's limits are in range.
    fn over(
        alloc: Global,
        rules: Rules,
        table: Table,
        entries: u32,
        octets: u32,
        fit: bool,
    ) -> Result<Core, NodeFault>
        ensures opens { IfOk result (λ core. core ≡ record { settings = rules; rows = table; store = record { most_entries = entries; most_octets = octets; pairs = [] }; fetches = record { last = 0; list = [] }; clock = 0 }) }
        ensures fit { IsOk result → fit ≡ true }
        ensures fault { IfErr result (λ fault. fault ≡ (if fit then NodeFault.NoMemory else NodeFault.Limits)) }
    {
        if !fit {
            return Err(NodeFault::Limits);
        }
        let Ok(store) = Store::new(alloc, entries, octets) else {
            return Err(NodeFault::NoMemory);
        };
        let Ok(pending) = Pending::new(alloc) else {
            return Err(NodeFault::NoMemory);
        };
        Ok(Core {
            rules,
            table,
            store,
            pending,
            clock: start(),
        })
    }

    /// Hashes keys so from now on; until it is told, a node hashes without a secret. Nothing else changes. Errors: out of memory, or
    /// too many owners of an object or key; the node goes on then.
    pub fn hash_by(&mut self, alloc: Global, hashes: KeyHashes) -> Result<(), NoMemory>
        ensures { self.new ≡ self.old }
    {
        self.store.hash_by(alloc, hashes)?;
        self.pending.hash_by(alloc, hashes)
    }

    /// An owned copy; objects and keys are reference-counted and shared. Errors: out of memory, or too many owners of an
    /// object or key.
    pub fn copy(&self, alloc: Global) -> Result<Core, NoMemory>
        ensures { IfOk result (λ copy. copy ≡ self.now) }
    {
        let rules = self.rules.copy(alloc)?;
        let table = self.table.copy(alloc)?;
        let store = self.store.copy(alloc)?;
        let pending = self.pending.copy(alloc)?;
        Ok(Core {
            rules,
            table,
            store,
            pending,
            clock: self.clock,
        })
    }

    /// Handles a datagram; `octets` is the part of its payload that the filter let through. Returns whether they fail to
    /// decode. Errors, which leave the node unchanged: out of memory.
    #[tactic(auto, unfolding(crate::specs::Plain::socket_step))]
    pub fn datagram(
        &mut self,
        alloc: Global,
        datagram: &Datagram,
        octets: &[u8],
        now: Moment,
        out: &mut Out,
    ) -> Result<bool, NoMemory>
        requires { out.old ≡ [] }
        ensures plain { OnOk result (self.new ≡ (plain_step self.old (Arrived (record datagram.now { payload = octets.now }) now)).0) }
        ensures actions { OnOk result (out.new ≡ (plain_step self.old (Arrived (record datagram.now { payload = octets.now }) now)).1) }
        ensures malformed { IfOk result (λ malformed. malformed ≡ is_no_message datagram.now.socket octets.now) }
        ensures refused { OnErr result ((self.new ≡ self.old) × (out.new ≡ [])) }
        ensures silent { sends_none (plain_step self.old (Arrived (record datagram.now { payload = octets.now }) now)).1 ≡ true → writes_key_at (at_clock self.old now) (record datagram.now { payload = octets.now }) datagram.now.socket ≡ false → IsOk result }
    {
        match datagram.socket() {
            Socket::Icp => self.icp(alloc, datagram.from(), octets, now, out),
            Socket::Htcp => self.htcp(alloc, datagram, octets, now, out),
        }
    }

    /// Advances the clock to `now`; an earlier moment leaves it as it is.
    pub(crate) fn tick(&mut self, now: Moment)
        ensures { self.new ≡ at_clock self.old now }
    {
        self.clock = self.clock.later(now);
    }

    /// Removes the fetch with this number.
    pub(crate) fn close(&mut self, number: u32)
        ensures { self.new ≡ closed self.old number }
    {
        self.pending.close(number);
    }

    /// Moves the fetch with this number on to its next attempt.
    pub(crate) fn advance(&mut self, number: u32)
        ensures { self.new ≡ with_fetches self.old (changed with_next number self.old.fetches.list) }
    {
        self.pending.next_attempt(number);
    }

    /// Removes a client from the fetch that it waits for, if any.
    pub fn leave(&mut self, client: u64)
        ensures { self.new ≡ with_fetches self.old (left client self.old.fetches.list) }
    {
        self.pending.leave(client);
    }

    /// States the invariants of the pending fetches, the store and the neighbours for callers; does nothing at run time.
    pub fn facts(&self)
        ensures legal { IsLegal self.now.fetches.list }
        ensures few { (number : ℕ) → length (waiters_of number self.now.fetches.list) ≤ most_waiters }
        ensures store { IsStore self.now.store }
        ensures rows { IsTable self.now.rows }
    {
        self.pending.facts();
        self.store.facts();
        self.table.facts();
    }

    /// The neighbours, with their round-trip times and misses.
    pub fn neighbours(&self) -> &Table
        ensures { result.now ≡ self.now.rows }
    {
        &self.table
    }

    /// The store.
    pub fn store(&self) -> &Store
        ensures { result.now ≡ self.now.store }
    {
        &self.store
    }

    /// The key of a pending fetch, or `None` if the fetch isn't pending.
    pub fn key_of(&self, fetch: u32) -> Option<&CacheKey>
        ensures { option_copied result ≡ option_map (λ (f : PendingFetch). f.key) (fetch_of fetch self.now.fetches.list) }
    {
        Some(self.pending.fetch(fetch)?.key)
    }
}

/// The error of creating a node whose table failed with `fault`: running out of memory ranks below limits out of range.
fn fault_for(fault: ConfigFault, fit: bool) -> NodeFault
    ensures { result ≡ fault_after fault fit }
{
    match fault {
        ConfigFault::NoMemory => {
            if fit {
                return NodeFault::NoMemory;
            }
            NodeFault::Limits
        }
        fault => NodeFault::Table(fault),
    }
}

/// The moment 0.
fn start() -> Moment
    ensures { result ≡ 0 }
{
    match Moment::new(0) {
        Some(moment) => moment,
        None => unreachable!(),
    }
}
