//! The pending fetches in a slab, with the slab's keys in the order of opening.

ghost use Rattle.std.specs.Prelude.{◌≡◌, ◌+◌, ◌<◌, ◌++◌, ◌∷◌, [], ℕ, List, length, take, drop, nat_lt, slice_set, slice_index_or, IfOk, OnOk, OnErr, Some, None, true, vec_capacity, if◌then◌else◌};
ghost use Rattle.slab.specs.Slab.{Updates, HasRoomFor, slab_len, get};
ghost use Rattle.peer_select.specs.Poll.{decided, matches};
ghost use Rattle.pending_fetch.specs.Fetches.{PendingFetch, shares, without_client, with_waiter, with_reply, with_end, with_next};
ghost use Rattle.pending_fetch.specs.Indexes.{number_under};
ghost use Rattle.pending_fetch.specs.Cells.{nothing};
ghost use Rattle.pending_fetch.specs.Bounds.{most_waiters};

use crate::kept::KeptFetch;
use crate::keys::Keys;
use neighbours::Table;
use peer_select::Kind;
use slab::Slab;
use std::alloc::{AllocError, Global};
use std::marker::Model;

/// The pending fetches in the order of opening. Each keeps its key in the slab, its cell, until it is closed, and closing one
/// moves no other fetch, only the 4 octets of each later cell. Contracts see the list of fetches.
#[derive(Drop)]
pub struct FetchSlab {
    slab: Slab<KeptFetch>,
    cells: Vec<u32>,
}

impl Model for FetchSlab {
    ghost use Rattle.std.specs.Prelude.{List};
    ghost use Rattle.pending_fetch.specs.Fetches.{PendingFetch};
    ghost use Rattle.pending_fetch.specs.Cells.{fetches_at, IsInCells};

    ghost Value = { List PendingFetch };

    ghost view = { λ s. fetches_at s.slab s.cells.items };

    ghost invariant = { λ s. IsInCells s.slab s.cells.items };
}

impl FetchSlab {
    /// No fetches. Does not allocate.
    pub fn new(alloc: Global) -> FetchSlab
        ensures { result ≡ [] }
    {
        FetchSlab {
            slab: Slab::new(alloc),
            cells: Vec::new(alloc),
        }
    }

    /// An owned copy. The keys are reference-counted and shared. Errors: out of memory, or too many owners of a key.
    pub fn copy(&self, alloc: Global) -> Result<FetchSlab, AllocError>
        ensures { IfOk result (λ copy. copy ≡ self.now) }
    {
        let mut copy = FetchSlab::new(alloc);
        for place in 0..self.len() {
            let fetch = self.get(place).copy(alloc)?;
            copy.push(fetch)?;
        }
        Ok(copy)
    }

    /// The number of fetches.
    pub fn len(&self) -> usize
        ensures { result ≡ length self.now }
    {
        self.cells.len()
    }

    /// The fetch at an index in the order of opening.
    pub fn get(&self, place: usize) -> &KeptFetch
        requires { place < length self.now }
        ensures { result.now ≡ slice_index_or self.now place nothing }
    {
        &self.slab[self.cells[place] as usize]
    }

    /// Appends a fetch. Errors, which leave the list as it was: out of memory.
    pub fn push(&mut self, fetch: KeptFetch) -> Result<(), AllocError>
        ensures ok { OnOk result (self.new ≡ self.old ++ fetch ∷ []) }
        ensures err { OnErr result (self.new ≡ self.old) }
    {
        let cell = free_cell(&mut self.slab, &mut self.cells)?;
        fill(&mut self.slab, &mut self.cells, cell, fetch);
        Ok(())
    }

    /// Appends a fetch, and adds it to the index by key. On an error (out of memory, or too many owners of the key) the list
    /// is as before, and the index has the same entries.
    pub fn open(&mut self, keys: &mut Keys, fetch: KeptFetch) -> Result<(), AllocError>
        ensures ok { OnOk result (self.new ≡ self.old ++ fetch ∷ []) }
        ensures err { OnErr result (self.new ≡ self.old) }
        ensures keyed { OnOk result ((key : List ℕ) → number_under key keys.new ≡ (if shares key fetch then Some fetch.number else number_under key keys.old)) }
        ensures unkeyed { OnErr result ((key : List ℕ) → number_under key keys.new ≡ number_under key keys.old) }
    {
        let cell = free_cell(&mut self.slab, &mut self.cells)?;
        keys.open(&fetch)?;
        fill(&mut self.slab, &mut self.cells, cell, fetch);
        Ok(())
    }

    /// Removes and returns the fetch at an index.
    pub fn remove(&mut self, place: usize) -> KeptFetch
        requires { place < length self.old }
        ensures list { self.new ≡ take place self.old ++ drop (place + 1) self.old }
        ensures fetch { result ≡ slice_index_or self.old place nothing }
    {
        let cell = self.cells.remove(place);
        self.slab.remove(cell as usize)
    }

    /// Adds a waiter to the fetch at an index. Does not allocate.
    pub fn join(&mut self, place: usize, client: u64)
        requires place { place < length self.old }
        requires few { length (slice_index_or self.old place nothing).waiters < most_waiters }
        ensures { self.new ≡ slice_set self.old place (with_waiter client (slice_index_or self.old place nothing)) }
    {
        let cell = self.cells[place] as usize;
        self.slab[cell].join(client);
    }

    /// Removes a waiter from the fetch at an index; does nothing if the client isn't one.
    pub fn leave(&mut self, place: usize, client: u64)
        requires { place < length self.old }
        ensures { self.new ≡ slice_set self.old place (let fetch : PendingFetch = slice_index_or self.old place nothing in record fetch { waiters = without_client client fetch.waiters }) }
    {
        let cell = self.cells[place] as usize;
        self.slab[cell].leave(client);
    }

    /// Adds a reply of the peer with index `n` to the round of the fetch at an index. Returns whether the round is decided
    /// afterwards.
    pub fn reply(&mut self, place: usize, table: &Table, n: usize, kind: Kind, s: u32) -> bool
        requires place { place < length self.old }
        requires peer { n < length table.now.neighbours }
        requires table { matches table.now.neighbours (slice_index_or self.old place nothing).round.peers ≡ true }
        ensures list { self.new ≡ slice_set self.old place (with_reply (record { s = s; n = n; kind = kind }) (slice_index_or self.old place nothing)) }
        ensures decided { result ≡ decided (with_reply (record { s = s; n = n; kind = kind }) (slice_index_or self.old place nothing)).round }
    {
        let cell = self.cells[place] as usize;
        self.slab[cell].reply(table, n, kind, s)
    }

    /// Ends the round of the fetch at an index.
    pub fn expire(&mut self, place: usize)
        requires { place < length self.old }
        ensures { self.new ≡ slice_set self.old place (with_end (slice_index_or self.old place nothing)) }
    {
        let cell = self.cells[place] as usize;
        self.slab[cell].expire();
    }

    /// Moves the fetch at an index on to its next attempt. Returns `false`, and changes nothing, if its attempt is 65,535.
    pub fn advance(&mut self, place: usize) -> bool
        requires { place < length self.old }
        ensures list { self.new ≡ slice_set self.old place (with_next (slice_index_or self.old place nothing)) }
        ensures may { result ≡ nat_lt (slice_index_or self.old place nothing).attempt 65535 }
    {
        let cell = self.cells[place] as usize;
        self.slab[cell].advance()
    }
}

// Reserves memory for one more fetch, and returns the cell that it will have.
fn free_cell(slab: &mut Slab<KeptFetch>, cells: &mut Vec<u32>) -> Result<u32, AllocError>
    ensures slab { slab.new ≡ record slab.old { capacity = slab.new.capacity } }
    ensures cells { cells.new.items ≡ cells.old.items }
    ensures cell { IfOk result (λ cell. cell ≡ slab.old.vacant_key) }
    ensures room { OnOk result (HasRoomFor slab.new 1) }
    ensures place { OnOk result (length cells.new.items < vec_capacity cells.new) }
{
    let Ok(cell) = u32::try_from(slab.vacant_key()) else {
        return Err(AllocError);
    };
    slab.reserve(1)?;
    cells.reserve(1)?;
    Ok(cell)
}

// Appends a fetch in the slab's next cell. Does not allocate.
fn fill(slab: &mut Slab<KeptFetch>, cells: &mut Vec<u32>, cell: u32, fetch: KeptFetch)
    requires cell { cell ≡ slab.old.vacant_key }
    requires room { HasRoomFor slab.old 1 }
    requires place { length cells.old.items < vec_capacity cells.old }
    ensures vacant { get slab.old cell ≡ None }
    ensures slab { Updates slab.old slab.new cell (Some fetch) }
    ensures len { slab_len slab.new ≡ slab_len slab.old + 1 }
    ensures cells { cells.new.items ≡ cells.old.items ++ cell ∷ [] }
{
    slab.insert_reserved(fetch);
    cells.push(cell).unwrap();
}
