//! The table of pending fetches.

ghost use Rattle.std.specs.Prelude.{◌≡◌, ◌<◌, ◌≤◌, ◌↔◌, ◌&&◌, [], ◌∷◌, length, Some, None, IfOk, IfErr, OnOk, OnErr, IsTrue, true, false, nat_le, option_map, if◌then◌else◌};
ghost use Rattle.std.specs.List.{list_all, list_any};
ghost use Rattle.pending_fetch.specs.Numbers.{IsNext};
ghost use Rattle.peer_select.specs.Poll.{decided};
ghost use Rattle.pending_fetch.specs.Fetches.{PendingFetch, changed, with_reply, with_end, with_next, numbers, starts, fetch_of, has_number, shared_number, all_waiters, waits, waiters_of, left, without, first_due, next_number, opened, opened_fetch, owner_of};
ghost use Rattle.pending_fetch.specs.Calls.{is_crowded, is_full, join_fault, join_answer, join_list, may_advance, fits, told, shown};
ghost use Rattle.pending_fetch.specs.Legal.{IsLegal};
ghost use Rattle.pending_fetch.specs.FetchIndex.{fetch_index};
ghost use Rattle.pending_fetch.specs.declared.fetch.Located.{Located as LocatedFetch};
ghost use Rattle.pending_fetch.specs.Bounds.{most_fetches};

use crate::bounds::MAX_PENDING_FETCHES;
use crate::clients::WaitingClients;
use crate::fault::{JoinFault, OpenFault};
use crate::fetch::{Fetch, Located};
use crate::fetch_slab::FetchSlab;
use crate::kept::KeptFetch;
use crate::keys::Keys;
use crate::order::Order;
use crate::queue::{close_entry, copy_of_queue, due_in, enqueue, entry_for, settle};
use crate::slots::{
    advance_in, are_many, expire_in, fetch_index, join_in, keys_of, leave_in, reply_in, take_out,
    waiters_in,
};
use crate::undecided::Undecided;
use neighbours::{Moment, Table};
use object_store::{CacheKey, KeyHashes};
use peer_select::{Kind, Round, matching_law, unchanged_law};
use std::alloc::{AllocError, Global};
use std::collections::VecDeque;
use std::marker::Model;

/// The pending fetches in the order of opening: at most 256, with at most 1,024 waiting clients in all. Private indexes hold
/// the numbers by position, by key and by client, and a queue holds the undecided rounds.
pub struct Pending {
    last: u32,
    order: Order,
    slots: FetchSlab,
    keys: Keys,
    // How `keys` hashes them.
    hashes: KeyHashes,
    clients: WaitingClients,
    undecided: VecDeque<Undecided>,
}

// Written by hand, so that what lets it go is one call for the prover (docs/GATE.md).
impl Drop for Pending {
    fn drop(self) {
        let Self {
            last: _,
            order: _,
            slots: _,
            keys: _,
            hashes: _,
            clients: _,
            undecided: _,
        } = self;
    }
}

impl Model for Pending {
    ghost use Rattle.std.specs.Prelude.{◌≡◌};
    ghost use Rattle.std.specs.VecDeque.{deque_capacity};
    ghost use Rattle.pending_fetch.specs.Fetches.{Fetches, numbers};
    ghost use Rattle.pending_fetch.specs.Indexes.{IsIndexed};
    ghost use Rattle.pending_fetch.specs.Queue.{IsQueue};

    ghost Value = { Fetches };

    ghost view = { λ p. record { last = p.last; list = p.slots } };

    ghost invariant = { λ p. IsIndexed p.slots p.keys p.clients
        × IsQueue (deque_capacity p.undecided) p.undecided.items p.slots
        × (p.order ≡ numbers p.slots) };
}

impl Pending {
    /// An empty table. Reserves memory for 1,024 waiting clients and 256 queue entries; errors when out of memory.
    pub fn new(alloc: Global) -> Result<Pending, AllocError>
        ensures { IfOk result (λ pending. pending ≡ record { last = 0; list = [] }) }
    {
        let clients = WaitingClients::new(alloc)?;
        let undecided = VecDeque::with_capacity(alloc, MAX_PENDING_FETCHES)?;
        let order = Order::new(alloc)?;
        let hashes = KeyHashes::seeded(0);
        Ok(Pending {
            last: 0,
            order,
            slots: FetchSlab::new(alloc),
            keys: Keys::new(alloc, hashes),
            hashes,
            clients,
            undecided,
        })
    }

    /// An owned copy with the same reserved memory. Keys are reference-counted and shared. Errors: out of memory, or too many
    /// owners of a key.
    pub fn copy(&self, alloc: Global) -> Result<Pending, AllocError>
        ensures { IfOk result (λ pending. pending ≡ self.now) }
    {
        let clients = self.clients.copy(alloc)?;
        let keys = keys_of(&self.slots, alloc, self.hashes)?;
        let slots = self.slots.copy(alloc)?;
        let undecided = copy_of_queue(&self.undecided, alloc)?;
        let order = self.order.copy(alloc)?;
        Ok(Pending {
            last: self.last,
            order,
            slots,
            keys,
            hashes: self.hashes,
            clients,
            undecided,
        })
    }

    /// Hashes keys so from now on; until it is told, a table hashes without a secret. What is pending stays. Errors: out of memory, or
    /// too many owners of a key; then it goes on as before.
    pub fn hash_by(&mut self, alloc: Global, hashes: KeyHashes) -> Result<(), AllocError>
        ensures { self.new ≡ self.old }
    {
        self.keys = keys_of(&self.slots, alloc, hashes)?;
        self.hashes = hashes;
        Ok(())
    }

    /// States for callers that the list is legal (specs/Legal.antt); does nothing at run time.
    pub fn facts(&self)
        ensures { IsLegal self.now.list }
    {
        let _ = &self.slots;
    }

    /// The number that the next fetch gets: the first after the last one given that no pending fetch has. 4,294,967,295 wraps
    /// around to 1.
    pub fn next_number(&self) -> u32
        ensures { result ≡ next_number self.now }
    {
        self.order.free_number(self.last)
    }

    /// Whether the client waits for any fetch.
    pub fn waits(&self, client: u64) -> bool
        ensures { result ≡ waits client self.now.list }
    {
        self.clients.number_of(client).is_some()
    }

    fn is_crowded(&self) -> bool
        ensures { result ≡ is_crowded self.now.list }
    {
        self.clients.facts();
        self.clients.are_crowded()
    }

    fn is_many(&self) -> bool
        ensures { result ≡ nat_le most_fetches (length self.now.list) }
    {
        are_many(&self.slots)
    }

    /// Whether no fetch can be opened: 256 are pending, or 1,024 clients wait.
    pub fn is_full(&self) -> bool
        ensures { result ≡ is_full self.now.list }
    {
        self.is_many() || self.is_crowded()
    }

    fn join_fault(&self, client: u64) -> Option<JoinFault>
        ensures { result ≡ join_fault client self.now.list }
    {
        if self.is_crowded() {
            return Some(JoinFault::Full);
        }
        if self.waits(client) {
            return Some(JoinFault::Double);
        }
        None
    }

    /// Opens a fetch and returns its number. The client is the first waiter, and the owner unless the fetch is shared. The
    /// caller ensures that the client waits for no fetch, that no pending round starts after this one, and that no shared
    /// fetch has the key if this one is shared. Errors, which leave the table as it was: 256 fetches or 1,024 waiters, or out
    /// of memory.
    pub fn open(
        &mut self,
        alloc: Global,
        key: CacheKey,
        client: u64,
        shared: bool,
        round: Round,
    ) -> Result<u32, OpenFault>
        requires absent { waits client self.old.list ≡ false }
        requires later { list_all (λ start. nat_le start round.start) (starts self.old.list) ≡ true }
        requires unshared { shared ≡ true → shared_number key self.old.list ≡ None }
        ensures number { IfOk result (λ number. number ≡ next_number self.old) }
        ensures ok { OnOk result (self.new ≡ opened key client shared round self.old) }
        ensures room { OnOk result (is_full self.old.list ≡ false) }
        ensures fault { IfErr result (λ fault. fault ≡ (if is_full self.old.list then OpenFault.Full else OpenFault.NoMemory)) }
        ensures unchanged { OnErr result (self.new ≡ self.old) }
    {
        if self.is_full() {
            return Err(OpenFault::Full);
        }
        self.clients.facts();
        let number = self.next_number();
        let entry = entry_for(number, &round);
        let Ok(fetch) = KeptFetch::new(alloc, number, key, client, shared, round) else {
            return Err(OpenFault::NoMemory);
        };
        if self.slots.open(&mut self.keys, fetch).is_err() {
            return Err(OpenFault::NoMemory);
        }
        self.clients.join(client, number);
        enqueue(&mut self.undecided, entry);
        self.order.push(number);
        self.last = number;
        Ok(number)
    }

    /// Adds the client to the waiters of the shared fetch for this key. Returns `None` if there is no such fetch. Errors:
    /// 1,024 clients wait, or else this client already waits. Does not allocate.
    pub fn join(&mut self, key: &CacheKey, client: u64) -> Option<Result<(), JoinFault>>
        ensures answer { result ≡ join_answer (shared_number key.now self.old.list) (join_fault client self.old.list) }
        ensures last { self.new.last ≡ self.old.last }
        ensures list { self.new.list ≡ join_list client self.old.list (shared_number key.now self.old.list) (join_fault client self.old.list) }
    {
        let Some(number) = self.keys.number_of(key.as_slice()) else {
            return None;
        };
        if let Some(fault) = self.join_fault(client) {
            return Some(Err(fault));
        }
        self.clients.facts();
        join_in(&mut self.slots, &self.order, number, client);
        self.clients.join(client, number);
        Some(Ok(()))
    }

    /// Removes the client from the fetch that it waits for, if any. The fetch itself stays.
    pub fn leave(&mut self, client: u64)
        ensures { self.new ≡ record self.old { list = left client self.old.list } }
    {
        let Some(number) = self.clients.leave(client) else {
            return;
        };
        leave_in(&mut self.slots, &self.order, number, client);
    }

    /// The waiters of the fetch with this number, in the order of joining; empty if there is no such fetch.
    pub fn waiters(&self, number: u32) -> &[u64]
        ensures { result.now ≡ waiters_of number self.now.list }
    {
        waiters_in(&self.slots, &self.order, number)
    }

    /// Removes the fetch with this number and its waiters; does nothing if there is none.
    pub fn close(&mut self, number: u32)
        ensures { self.new ≡ record self.old { list = without number self.old.list } }
    {
        let Some(fetch) = take_out(&mut self.slots, &mut self.order, number) else {
            return;
        };
        self.keys.close(&fetch);
        self.clients.close(number, fetch.waiters());
        close_entry(&mut self.undecided, number, fetch.is_decided());
    }

    /// The number of the first fetch, in the order of opening, whose round is undecided and started at least 2,000 ms before
    /// `now`.
    pub fn due(&self, now: Moment) -> Option<u32>
        ensures { result ≡ first_due now self.now.list }
    {
        due_in(&self.undecided, now)
    }

    /// The fetch with this number, or `None` if it isn't pending.
    pub fn fetch(&self, number: u32) -> Option<Fetch<'_>>
        ensures { option_map shown result ≡ option_map told (fetch_of number self.now.list) }
    {
        let Some(place) = self.place(number) else {
            return None;
        };
        Some(self.fetch_at(number, place))
    }

    /// The fetch with this number, with its index for `fetch_at` and `reply_at`. The index is valid until a fetch is closed.
    pub fn locate(&self, number: u32) -> Option<Located<'_>>
        ensures fetch { option_map (λ (it : LocatedFetch). shown it.fetch) result ≡ option_map told (fetch_of number self.now.list) }
        ensures place { option_map (λ (it : LocatedFetch). it.place) result ≡ fetch_index number self.now.list }
    {
        let Some(place) = self.place(number) else {
            return None;
        };
        let fetch = self.fetch_at(number, place);
        Some(Located { place, fetch })
    }

    /// The fetch with this number, whose index is `place`.
    pub fn fetch_at(&self, number: u32, place: usize) -> Fetch<'_>
        requires { fetch_index number self.now.list ≡ Some place }
        ensures { Some (shown result) ≡ option_map told (fetch_of number self.now.list) }
    {
        let _ = number;
        self.slots.get(place).lent()
    }

    // The index of the fetch with this number, or `None` if there is none.
    fn place(&self, number: u32) -> Option<usize>
        ensures { result ≡ fetch_index number self.now.list }
    {
        fetch_index(&self.slots, &self.order, number)
    }

    /// Adds a reply to the round of the fetch with this number: `n` is the peer's index in the table, `s` its smoothed
    /// round-trip time after this reply's sample. The table has the kinds and weights of the one that the round was started
    /// with. Returns whether the fetch is pending.
    pub fn reply(&mut self, number: u32, table: &Table, n: usize, kind: Kind, s: u32) -> bool
        requires place { n < length table.now.neighbours }
        requires table { fits table.now.neighbours (fetch_of number self.old.list) ≡ true }
        ensures list { self.new ≡ record self.old { list = changed (with_reply (record { s = s; n = n; kind = kind })) number self.old.list } }
        ensures found { result ≡ has_number number self.old.list }
    {
        let Some(place) = self.place(number) else {
            return false;
        };
        self.reply_at(number, place, table, n, kind, s);
        true
    }

    /// As `reply`, for a fetch whose index is known to be `place`, and stays so. Returns whether the round is decided afterwards.
    pub fn reply_at(
        &mut self,
        number: u32,
        place: usize,
        table: &Table,
        n: usize,
        kind: Kind,
        s: u32,
    ) -> bool
        requires here { fetch_index number self.old.list ≡ Some place }
        requires place { n < length table.now.neighbours }
        requires table { fits table.now.neighbours (fetch_of number self.old.list) ≡ true }
        ensures list { self.new ≡ record self.old { list = changed (with_reply (record { s = s; n = n; kind = kind })) number self.old.list } }
        ensures here { fetch_index number self.new.list ≡ Some place }
        ensures decided { Some result ≡ option_map (λ (fetch : PendingFetch). decided fetch.round) (fetch_of number self.new.list) }
    {
        matching_law();
        unchanged_law();
        let decided = reply_in(&mut self.slots, number, place, table, n, kind, s);
        settle(&mut self.undecided, number, Some(decided));
        decided
    }

    /// Ends the round of this fetch, which decides it. Returns whether the fetch is pending.
    pub fn expire(&mut self, number: u32) -> bool
        ensures list { self.new ≡ record self.old { list = changed with_end number self.old.list } }
        ensures found { result ≡ has_number number self.old.list }
    {
        matching_law();
        unchanged_law();
        let found = expire_in(&mut self.slots, &self.order, number);
        settle(&mut self.undecided, number, decided_where(found));
        found
    }

    /// Moves this fetch on to its next attempt. Returns `false`, and changes nothing, if it isn't pending or its attempt is
    /// 65,535.
    pub fn next_attempt(&mut self, number: u32) -> bool
        ensures list { self.new ≡ record self.old { list = changed with_next number self.old.list } }
        ensures found { result ≡ may_advance (fetch_of number self.old.list) }
    {
        advance_in(&mut self.slots, &self.order, number)
    }
}

// `Some(true)` if the fetch was found, for `settle`: its round is decided now.
fn decided_where(found: bool) -> Option<bool>
    ensures { result ≡ (if found then Some true else None) }
{
    if found { Some(true) } else { None }
}

#[cfg(test)]
mod tests;
