//! A boxed pending fetch with memory reserved for all waiters, so that the slab of fetches is one of pointers and cheap to grow.

ghost use Rattle.std.specs.Prelude.{◌≡◌, ◌<◌, ◌≤◌, ◌==◌, ◌++◌, ◌∷◌, [], length, filter, not, nat_lt, nat_eq, true, IfOk, vec_capacity, is_none, if◌then◌else◌};
ghost use Rattle.peer_select.specs.Poll.{decided, matches};
ghost use Rattle.pending_fetch.specs.Fetches.{is_shared, opened_fetch, owner_of, without_client, with_waiter, with_reply, with_end, with_next};
ghost use Rattle.pending_fetch.specs.Calls.{told, shown};
ghost use Rattle.pending_fetch.specs.Kept.{as_fetch};
ghost use Rattle.pending_fetch.specs.Bounds.{most_waiters};

use crate::bounds::MAX_WAITERS;
use crate::fetch::Fetch;
use neighbours::Table;
use object_store::CacheKey;
use peer_select::{Kind, Round};
use std::alloc::{AllocError, Global};
use std::marker::Model;

/// The fields of a pending fetch, with its waiters in the order of joining.
#[derive(Drop)]
pub struct Slot {
    pub number: u32,
    pub key: CacheKey,
    pub owner: Option<u64>,
    pub attempt: u16,
    pub round: Round,
    pub waiters: Vec<u64>,
}

/// A boxed slot whose memory for 1,024 waiters is reserved. Contracts see the fetch that it holds.
#[derive(Drop)]
pub struct KeptFetch {
    slot: Box<Slot>,
}

impl Model for KeptFetch {
    ghost use Rattle.std.specs.Prelude.{◌≤◌, vec_capacity};
    ghost use Rattle.std.specs.Box.{box_value};
    ghost use Rattle.pending_fetch.specs.Fetches.{PendingFetch};
    ghost use Rattle.pending_fetch.specs.Kept.{as_fetch};
    ghost use Rattle.pending_fetch.specs.Bounds.{most_waiters};

    ghost Value = { PendingFetch };

    ghost view = { λ kept. as_fetch (box_value kept.slot) };

    ghost invariant = { λ kept. most_waiters ≤ vec_capacity (box_value kept.slot).waiters };
}

impl KeptFetch {
    /// A new fetch at attempt 0. The client is its first waiter, and its owner unless the fetch is shared. Errors: out of memory.
    pub fn new(
        alloc: Global,
        number: u32,
        key: CacheKey,
        client: u64,
        shared: bool,
        round: Round,
    ) -> Result<KeptFetch, AllocError>
        ensures { IfOk result (λ kept. kept ≡ opened_fetch number key client shared round) }
    {
        let waiters = only(alloc, client)?;
        let slot = Slot {
            number,
            key,
            owner: owner_for(client, shared),
            attempt: 0,
            round,
            waiters,
        };
        match Box::new(alloc, slot) {
            Ok(slot) => Ok(KeptFetch { slot }),
            Err(_) => Err(AllocError),
        }
    }

    /// An owned copy. The key is reference-counted and shared with the original. Errors: out of memory, or too many owners of
    /// the key.
    pub fn copy(&self, alloc: Global) -> Result<KeptFetch, AllocError>
        ensures { IfOk result (λ kept. kept ≡ self.now) }
    {
        let slot = copy_of_slot(&self.slot, alloc)?;
        match Box::new(alloc, slot) {
            Ok(slot) => Ok(KeptFetch { slot }),
            Err(_) => Err(AllocError),
        }
    }

    /// The number of the fetch.
    pub fn number(&self) -> u32
        ensures { result ≡ self.now.number }
    {
        self.slot.number
    }

    /// The cache key.
    pub fn key(&self) -> &CacheKey
        ensures { result.now ≡ self.now.key }
    {
        &self.slot.key
    }

    /// Whether the fetch is shared, that is, has no owner.
    pub fn is_shared(&self) -> bool
        ensures { result ≡ is_shared self.now }
    {
        self.slot.owner.is_none()
    }

    /// The waiters in the order of joining.
    pub fn waiters(&self) -> &[u64]
        ensures { result.now ≡ self.now.waiters }
    {
        &self.slot.waiters
    }

    /// Whether the round is decided.
    pub fn is_decided(&self) -> bool
        ensures { result ≡ decided self.now.round }
    {
        self.slot.round.decided()
    }

    /// A borrowed view of the fetch.
    pub fn lent(&self) -> Fetch<'_>
        ensures { shown result ≡ told self.now }
    {
        Fetch {
            key: &self.slot.key,
            shared: self.slot.owner.is_none(),
            owner: self.slot.owner,
            attempt: self.slot.attempt,
            round: &self.slot.round,
        }
    }

    /// Appends a waiter. Does not allocate.
    pub fn join(&mut self, client: u64)
        requires { length self.old.waiters < most_waiters }
        ensures { self.new ≡ with_waiter client self.old }
    {
        push_into(&mut self.slot.waiters, client);
    }

    /// Removes a waiter; does nothing if the client isn't one.
    pub fn leave(&mut self, client: u64)
        ensures { self.new ≡ record self.old { waiters = without_client client self.old.waiters } }
    {
        remove_from(&mut self.slot.waiters, client);
    }

    /// Adds a reply to the round: `n` is the peer's index in the table, `s` its smoothed round-trip time after this reply's
    /// sample. Returns whether the round is decided afterwards.
    pub fn reply(&mut self, table: &Table, n: usize, kind: Kind, s: u32) -> bool
        requires place { n < length table.now.neighbours }
        requires table { matches table.now.neighbours self.old.round.peers ≡ true }
        ensures fetch { self.new ≡ with_reply (record { s = s; n = n; kind = kind }) self.old }
        ensures decided { result ≡ decided self.new.round }
    {
        self.slot.round.reply(table, n, kind, s);
        self.slot.round.decided()
    }

    /// Ends the round for lack of replies, which decides it.
    pub fn expire(&mut self)
        ensures { self.new ≡ with_end self.old }
    {
        self.slot.round.expire();
    }

    /// Moves on to the next attempt. Returns `false`, and changes nothing, if the attempt is 65,535, the last.
    pub fn advance(&mut self) -> bool
        ensures fetch { self.new ≡ with_next self.old }
        ensures may { result ≡ nat_lt self.old.attempt 65535 }
    {
        if self.slot.attempt == 65_535 {
            return false;
        }
        self.slot.attempt += 1;
        true
    }
}

fn copy_of_slot(slot: &Slot, alloc: Global) -> Result<Slot, AllocError>
    ensures fetch { IfOk result (λ copy. as_fetch copy ≡ as_fetch slot.now) }
    ensures room { IfOk result (λ copy. most_waiters ≤ vec_capacity copy.waiters) }
{
    let key = slot.key.share()?;
    let waiters = copy_of(&slot.waiters, alloc)?;
    Ok(Slot {
        number: slot.number,
        key,
        owner: slot.owner,
        attempt: slot.attempt,
        round: slot.round.copy(),
        waiters,
    })
}

fn owner_for(client: u64, shared: bool) -> Option<u64>
    ensures { result ≡ owner_of client shared }
{
    if shared {
        return None;
    }
    Some(client)
}

fn only(alloc: Global, client: u64) -> Result<Vec<u64>, AllocError>
    ensures items { IfOk result (λ waiters. waiters.items ≡ client ∷ []) }
    ensures room { IfOk result (λ waiters. most_waiters ≤ vec_capacity waiters) }
{
    let mut waiters = Vec::with_capacity(alloc, MAX_WAITERS)?;
    push_into(&mut waiters, client);
    Ok(waiters)
}

fn copy_of(waiters: &[u64], alloc: Global) -> Result<Vec<u64>, AllocError>
    ensures items { IfOk result (λ copy. copy.items ≡ waiters.now) }
    ensures room { IfOk result (λ copy. most_waiters ≤ vec_capacity copy) }
{
    let mut copy = Vec::with_capacity(alloc, MAX_WAITERS)?;
    copy.extend_from_slice(waiters)?;
    Ok(copy)
}

fn push_into(waiters: &mut Vec<u64>, client: u64)
    requires few { length waiters.old.items < most_waiters }
    requires room { most_waiters ≤ vec_capacity waiters.old }
    ensures items { waiters.new.items ≡ waiters.old.items ++ client ∷ [] }
    ensures room { most_waiters ≤ vec_capacity waiters.new }
{
    waiters.push(client).unwrap();
}

fn remove_from(waiters: &mut Vec<u64>, client: u64)
    ensures items { waiters.new.items ≡ filter (λ waiter. not (waiter == client)) waiters.old.items }
    ensures room { vec_capacity waiters.new ≡ vec_capacity waiters.old }
{
    waiters.retain(|waiter| *waiter != client);
}
