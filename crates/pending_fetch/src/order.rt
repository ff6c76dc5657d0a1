//! The fetch numbers in the order of opening, with binary search while they are ascending.

ghost use Rattle.std.specs.Prelude.{◌≡◌, ◌<◌, ◌≤◌, ◌+◌, ◌%◌, ◌==◌, ◌++◌, ◌∷◌, [], ℕ, List, length, take, drop, position, slice_index_or, true, IfOk, IfSome, vec_capacity};
ghost use Rattle.pending_fetch.specs.Numbers.{is_taken, next_of, nth_after, rises_to};
ghost use Rattle.pending_fetch.specs.Bounds.{most_fetches};

use crate::bounds::MAX_PENDING_FETCHES;
use std::alloc::{AllocError, Global};
use std::marker::Model;

/// Up to 256 fetch numbers in the order of opening. They are ascending until the counter wraps around to 1. From then on
/// `top` is `None` and lookups are linear instead of binary, until a removal leaves the list ascending.
#[derive(Drop)]
pub struct Order {
    list: Vec<u32>,
    top: Option<u32>,
}

impl Model for Order {
    ghost use Rattle.std.specs.Prelude.{◌≡◌, ◌≤◌, ℕ, List, true, vec_capacity};
    ghost use Rattle.pending_fetch.specs.Numbers.{rises_to};
    ghost use Rattle.pending_fetch.specs.Bounds.{most_fetches};

    ghost Value = { List ℕ };

    ghost view = { λ n. n.list.items };

    ghost invariant = { λ n. (most_fetches ≤ vec_capacity n.list) × (rises_to n.top n.list.items ≡ true) };
}

impl Order {
    /// No numbers. Reserves memory for 256; errors when out of memory.
    pub fn new(alloc: Global) -> Result<Order, AllocError>
        ensures { IfOk result (λ order. order ≡ []) }
    {
        let list = Vec::with_capacity(alloc, MAX_PENDING_FETCHES)?;
        Ok(Order { list, top: Some(0) })
    }

    /// An owned copy, which also reserves memory for 256 numbers.
    pub fn copy(&self, alloc: Global) -> Result<Order, AllocError>
        ensures { IfOk result (λ order. order ≡ self.now) }
    {
        let list = copy_of(&self.list, alloc)?;
        Ok(Order {
            list,
            top: self.top,
        })
    }

    /// The index of a number, or `None` if it isn't in the list.
    pub fn fetch_index(&self, number: u32) -> Option<usize>
        ensures { result ≡ position (λ n. n == number) self.now }
    {
        place_in(&self.list, self.top, number)
    }

    /// Whether a number is in the list.
    pub fn has(&self, number: u32) -> bool
        ensures { result ≡ is_taken self.now number }
    {
        self.fetch_index(number).is_some()
    }

    /// The first number after `last` that is not in the list; 4,294,967,295 wraps around to 1.
    pub fn free_number(&self, last: u32) -> u32
        ensures { result ≡ next_of self.now last }
    {
        let mut n = after(last);
        for tried in 0..self.len() {
            if !self.has(n) {
                return n;
            }
            n = after(n);
        }
        n
    }

    fn len(&self) -> usize
        ensures { result ≡ length self.now }
    {
        self.list.len()
    }

    /// Appends a number. Does not allocate.
    pub fn push(&mut self, number: u32)
        requires { length self.old < most_fetches }
        ensures { self.new ≡ self.old ++ number ∷ [] }
    {
        self.top = top_with(self.top, number);
        push_into(&mut self.list, number);
    }

    /// Removes the number at an index, and checks whether a list that was not ascending is so now.
    pub fn remove(&mut self, place: usize)
        requires { place < length self.old }
        ensures { self.new ≡ take place self.old ++ drop (place + 1) self.old }
    {
        remove_from(&mut self.list, place);
        if self.top.is_none() {
            self.top = top_of(&self.list);
        }
    }
}

fn after(n: u32) -> u32
    ensures { result ≡ n % 4294967295 + 1 }
{
    if n == 4_294_967_295 { 1 } else { n + 1 }
}

fn copy_of(list: &[u32], alloc: Global) -> Result<Vec<u32>, AllocError>
    ensures items { IfOk result (λ copy. copy.items ≡ list.now) }
    ensures room { IfOk result (λ copy. most_fetches ≤ vec_capacity copy) }
{
    let mut copy = Vec::with_capacity(alloc, MAX_PENDING_FETCHES)?;
    copy.extend_from_slice(list)?;
    Ok(copy)
}

// The index of a number: in a run from the first on or by binary search if the list is ascending, else by linear search.
fn place_in(list: &[u32], top: Option<u32>, number: u32) -> Option<usize>
    requires { rises_to top list.now ≡ true }
    ensures { result ≡ position (λ n. n == number) list.now }
{
    match top {
        Some(top) => place_in_rising(list, top, number),
        None => list.iter().position(|n| *n == number),
    }
}

fn place_in_rising(list: &[u32], top: u32, number: u32) -> Option<usize>
    requires { rises_to (Some top) list.now ≡ true }
    ensures { result ≡ position (λ n. n == number) list.now }
{
    let _ = top;
    if let Some(place) = place_in_run(list, number) {
        return Some(place);
    }
    list.binary_search(&number).ok()
}

// The index of a number if no number between it and the first is missing, as while no fetch between them was closed.
fn place_in_run(list: &[u32], number: u32) -> Option<usize>
    ensures { IfSome result (λ place. (place < length list.now) × (slice_index_or list.now place 0 ≡ number)) }
{
    let first = *list.first()?;
    let place = number.checked_sub(first)? as usize;
    if place < list.len() && list[place] == number {
        return Some(place);
    }
    None
}

// The `top` after `number` is appended: `number` if the list stays ascending, else `None`.
fn top_with(top: Option<u32>, number: u32) -> Option<u32>
    ensures { (list : List ℕ) → rises_to top list ≡ true → rises_to result (list ++ number ∷ []) ≡ true }
{
    match top {
        Some(top) => { if top < number { Some(number) } else { None } }
        None => None,
    }
}

fn push_into(list: &mut Vec<u32>, number: u32)
    requires few { length list.old.items < most_fetches }
    requires room { most_fetches ≤ vec_capacity list.old }
    ensures items { list.new.items ≡ list.old.items ++ number ∷ [] }
    ensures room { most_fetches ≤ vec_capacity list.new }
{
    list.push(number).unwrap();
}

fn remove_from(list: &mut Vec<u32>, place: usize)
    requires { place < length list.old.items }
    ensures items { list.new.items ≡ take place list.old.items ++ drop (place + 1) list.old.items }
    ensures room { vec_capacity list.new ≡ vec_capacity list.old }
{
    list.remove(place);
}

// The greatest number if the list is ascending (0 if it is empty), else `None`.
fn top_of(list: &[u32]) -> Option<u32>
    ensures { rises_to result list.now ≡ true }
{
    let mut top = 0;
    for number in list {
        if *number <= top {
            return None;
        }
        top = *number;
    }
    Some(top)
}
