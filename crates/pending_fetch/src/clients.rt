//! The waiting clients in ascending order, each with the number of its fetch.

ghost use Rattle.std.specs.Prelude.{◌≡◌, ℕ, ◌+◌, ◌<◌, ◌≤◌, ◌==◌, ◌++◌, List, [], length, filter, take, drop, not, nat_le, slice_index_or, Some, None, IfOk, IfErr, true, false, if◌then◌else◌};
ghost use Rattle.std.specs.List.{list_any, insert};
ghost use Rattle.std.specs.VecDeque.{deque_capacity};
ghost use Rattle.pending_fetch.specs.Indexes.{Waiting, number_beside, is_number, is_sorted, client_at, IsAt, IsGapFor};
ghost use Rattle.pending_fetch.specs.Bounds.{most_waiters};

use crate::bounds::MAX_WAITERS;
use std::alloc::{AllocError, Global};
use std::collections::VecDeque;
use std::marker::Model;

/// Up to this many waiters of a closed fetch are removed one by one; more are removed in one pass over all clients.
const FEW: usize = 16;

/// Up to 1,024 clients, sorted, each with the number of the fetch that it waits for. Lookups are binary searches. A client that is
/// greater than all others is put at the end, and a removal moves the shorter side. The memory for all of them is reserved in `new`.
#[derive(Drop)]
pub struct WaitingClients {
    list: VecDeque<(u64, u32)>,
}

impl Model for WaitingClients {
    ghost use Rattle.std.specs.Prelude.{◌≡◌, ◌≤◌, true};
    ghost use Rattle.std.specs.VecDeque.{deque_capacity};
    ghost use Rattle.pending_fetch.specs.Indexes.{Waiting, is_sorted};
    ghost use Rattle.pending_fetch.specs.Bounds.{most_waiters};

    ghost Value = { Waiting };

    ghost view = { λ c. c.list.items };

    ghost invariant = { λ c. (most_waiters ≤ deque_capacity c.list) × (is_sorted c.list.items ≡ true) };
}

impl WaitingClients {
    /// No clients. Reserves memory for 1,024; errors when out of memory.
    pub fn new(alloc: Global) -> Result<WaitingClients, AllocError>
        ensures { IfOk result (λ clients. clients ≡ []) }
    {
        let list = VecDeque::with_capacity(alloc, MAX_WAITERS)?;
        Ok(WaitingClients { list })
    }

    /// An owned copy, which also reserves memory for 1,024 clients.
    pub fn copy(&self, alloc: Global) -> Result<WaitingClients, AllocError>
        ensures { IfOk result (λ clients. clients ≡ self.now) }
    {
        let list = copy_of(&self.list, alloc)?;
        Ok(WaitingClients { list })
    }

    /// States the invariant for callers; does nothing at run time.
    pub fn facts(&self)
        ensures { is_sorted self.now ≡ true }
    {
        let _ = &self.list;
    }

    /// The number of the fetch that a client waits for, or `None` if it waits for none.
    pub fn number_of(&self, client: u64) -> Option<u32>
        ensures { result ≡ number_beside self.now client }
    {
        match self.search(client) {
            Ok(at) => Some(self.list[at].1),
            Err(_) => None,
        }
    }

    /// Whether 1,024 clients wait, the most there may be.
    pub fn are_crowded(&self) -> bool
        ensures { result ≡ nat_le most_waiters (length self.now) }
    {
        MAX_WAITERS <= self.list.len()
    }

    /// Adds a client that waits for the fetch with this number. Does not allocate.
    pub fn join(&mut self, client: u64, number: u32)
        requires few { length self.old < most_waiters }
        requires absent { number_beside self.old client ≡ None }
        ensures { (other : ℕ) → number_beside self.new other ≡ (if client == other then Some number else number_beside self.old other) }
    {
        match self.search(client) {
            Ok(_) => {}
            Err(at) => insert_into(&mut self.list, at, client, number),
        }
    }

    /// Removes the client and returns the number of the fetch that it waited for; does nothing if it isn't waiting.
    pub fn leave(&mut self, client: u64) -> Option<u32>
        ensures number { result ≡ number_beside self.old client }
        ensures others { (other : ℕ) → number_beside self.new other ≡ (if client == other then None else number_beside self.old other) }
    {
        match self.search(client) {
            Ok(at) => Some(remove_from(&mut self.list, at)),
            Err(_) => None,
        }
    }

    /// Removes all waiters of the fetch with this number.
    pub fn close(&mut self, number: u32, waiters: &[u64])
        requires { (other : ℕ) → is_number number (number_beside self.old other) ≡ list_any (λ waiter. waiter == other) waiters.now }
        ensures { (other : ℕ) → number_beside self.new other ≡ (if list_any (λ waiter. waiter == other) waiters.now then None else number_beside self.old other) }
    {
        if waiters.len() <= FEW {
            self.leave_all(waiters);
        } else {
            self.forget(number);
        }
    }

    // Removes each of these clients.
    fn leave_all(&mut self, waiters: &[u64])
        ensures { (other : ℕ) → number_beside self.new other ≡ (if list_any (λ waiter. waiter == other) waiters.now then None else number_beside self.old other) }
    {
        for client in waiters {
            self.leave(*client);
        }
    }

    // Removes every client that waits for the fetch with this number, in one pass.
    fn forget(&mut self, number: u32)
        ensures { (other : ℕ) → number_beside self.new other ≡ (if is_number number (number_beside self.old other) then None else number_beside self.old other) }
    {
        retain_others(&mut self.list, number);
    }

    // `Ok` with the client's index, or `Err` with the index to insert it at.
    fn search(&self, client: u64) -> Result<usize, usize>
        ensures found { IfOk result (IsAt self.now client) }
        ensures absent { IfErr result (IsGapFor self.now client) }
    {
        if self.is_past(client) {
            return Err(self.list.len());
        }
        let (front, back) = self.list.as_slices();
        search_both(front, back, client)
    }

    // Whether the client is greater than all that wait, as the number of each new one of the proxy is.
    fn is_past(&self, client: u64) -> bool
        ensures { result ≡ true → IsGapFor self.now client (length self.now) }
    {
        let len = self.list.len();
        if len == 0 {
            return true;
        }
        self.list[len - 1].0 < client
    }
}

// As `search`, in two slices, of which the second goes on where the first ends.
fn search_both(front: &[(u64, u32)], back: &[(u64, u32)], client: u64) -> Result<usize, usize>
    requires { is_sorted (front.now ++ back.now) ≡ true }
    ensures found { IfOk result (IsAt (front.now ++ back.now) client) }
    ensures absent { IfErr result (IsGapFor (front.now ++ back.now) client) }
{
    if !reaches(back, client) {
        return search_in(front, client);
    }
    match search_in(back, client) {
        Ok(at) => Ok(front.len() + at),
        Err(at) => Err(front.len() + at),
    }
}

// Whether the first client of a slice is this one or a smaller one.
fn reaches(list: &[(u64, u32)], client: u64) -> bool
    ensures yes { result ≡ true → (0 < length list.now) × (client_at list.now 0 ≤ client) }
    ensures no { result ≡ false → 0 < length list.now → client < client_at list.now 0 }
{
    if list.is_empty() {
        return false;
    }
    list[0].0 <= client
}

fn search_in(list: &[(u64, u32)], client: u64) -> Result<usize, usize>
    requires { is_sorted list.now ≡ true }
    ensures found { IfOk result (IsAt list.now client) }
    ensures absent { IfErr result (IsGapFor list.now client) }
{
    list.binary_search_by_key(&client, |&(k, _)| k)
}

fn copy_of(list: &VecDeque<(u64, u32)>, alloc: Global) -> Result<VecDeque<(u64, u32)>, AllocError>
    ensures items { IfOk result (λ copy. copy.items ≡ list.now.items) }
    ensures room { IfOk result (λ copy. most_waiters ≤ deque_capacity copy) }
{
    let (front, back) = list.as_slices();
    let mut copy = Vec::with_capacity(alloc, MAX_WAITERS)?;
    copy.extend_from_slice(front)?;
    copy.extend_from_slice(back)?;
    Ok(VecDeque::from_vec(copy))
}

fn insert_into(list: &mut VecDeque<(u64, u32)>, at: usize, client: u64, number: u32)
    requires place { at ≤ length list.old.items }
    requires few { length list.old.items < most_waiters }
    requires room { most_waiters ≤ deque_capacity list.old }
    ensures items { list.new.items ≡ insert list.old.items at (client, number) }
    ensures room { most_waiters ≤ deque_capacity list.new }
{
    if at == list.len() {
        list.push_back((client, number)).unwrap();
        return;
    }
    list.insert(at, (client, number)).unwrap();
}

// Removes the client at an index, and returns the number of its fetch.
fn remove_from(list: &mut VecDeque<(u64, u32)>, at: usize) -> u32
    requires { at < length list.old.items }
    ensures number { let pair : ℕ × ℕ = slice_index_or list.old.items at (0, 0) in result ≡ pair.1 }
    ensures items { list.new.items ≡ take at list.old.items ++ drop (at + 1) list.old.items }
    ensures room { deque_capacity list.new ≡ deque_capacity list.old }
{
    list.remove(at).unwrap().1
}

fn retain_others(list: &mut VecDeque<(u64, u32)>, number: u32)
    ensures items { list.new.items ≡ filter (λ (pair : ℕ × ℕ). not (pair.1 == number)) list.old.items }
    ensures room { deque_capacity list.new ≡ deque_capacity list.old }
{
    list.retain(|&(_, n)| n != number);
}
