//! The queue of undecided rounds in the order of opening. The clock never goes back, so this is also the order in which they
//! time out.

ghost use Rattle.std.specs.Prelude.{◌≡◌, ℕ, ◌+◌, ◌<◌, ◌≤◌, ◌++◌, ◌∷◌, [], length, take, drop, nat_eq, Some, None, IfOk, IfSome, slice_index_or, true, if◌then◌else◌};
ghost use Rattle.std.specs.List.{IsDistinct};
ghost use Rattle.std.specs.VecDeque.{deque_capacity};
ghost use Rattle.peer_select.specs.Poll.{decided};
ghost use Rattle.pending_fetch.specs.declared.undecided.Undecided.{Undecided};
ghost use Rattle.pending_fetch.specs.Queue.{numbers_queued, entry_at, listed, dequeued, settled, first_of_queue};
ghost use Rattle.pending_fetch.specs.Bounds.{most_fetches};

use crate::bounds::MAX_PENDING_FETCHES;
use crate::undecided::Undecided;
use neighbours::Moment;
use peer_select::Round;
use std::alloc::{AllocError, Global};
use std::collections::VecDeque;

/// An owned copy of a queue, with memory reserved for 256 entries.
pub fn copy_of_queue(
    queue: &VecDeque<Undecided>,
    alloc: Global,
) -> Result<VecDeque<Undecided>, AllocError>
    ensures items { IfOk result (λ copy. copy.items ≡ queue.now.items) }
    ensures room { IfOk result (λ copy. most_fetches ≤ deque_capacity copy) }
{
    let (front, back) = queue.as_slices();
    let mut copy = Vec::with_capacity(alloc, MAX_PENDING_FETCHES)?;
    copy.extend_from_slice(front)?;
    copy.extend_from_slice(back)?;
    Ok(VecDeque::from_vec(copy))
}

/// The queue entry for a newly opened fetch, or `None` if its round is already decided.
pub fn entry_for(number: u32, round: &Round) -> Option<Undecided>
    ensures { result ≡ entry_at number round.now }
{
    if round.decided() {
        return None;
    }
    Some(Undecided {
        number,
        start: round.began(),
    })
}

/// Appends the entry, if there is one. Does not allocate.
pub fn enqueue(queue: &mut VecDeque<Undecided>, entry: Option<Undecided>)
    requires few { length queue.old.items < most_fetches }
    requires room { most_fetches ≤ deque_capacity queue.old }
    ensures items { queue.new.items ≡ queue.old.items ++ listed entry }
    ensures room { most_fetches ≤ deque_capacity queue.new }
{
    match entry {
        None => {}
        Some(entry) => queue.push_back(entry).unwrap(),
    }
}

/// Removes the entry with this number, if there is one.
pub fn dequeue(queue: &mut VecDeque<Undecided>, number: u32)
    requires { IsDistinct nat_eq (numbers_queued queue.old.items) }
    ensures items { queue.new.items ≡ dequeued number queue.old.items }
    ensures room { deque_capacity queue.new ≡ deque_capacity queue.old }
{
    match queue_index(queue, number) {
        Some(place) => remove_at(queue, place),
        None => remove_all(queue, number),
    }
}

// An index of the number: the first, as that of a round that is due, or by binary search. While the numbers are ascending the
// search finds it; after a wraparound it may miss it.
fn queue_index(queue: &VecDeque<Undecided>, number: u32) -> Option<usize>
    ensures { IfSome result (λ place. (place < length queue.now.items) × ((d : Undecided) → (slice_index_or queue.now.items place d).number ≡ number)) }
{
    if is_first(queue, number) {
        return Some(0);
    }
    let (front, back) = queue.as_slices();
    match index_in(front, number) {
        Some(place) => Some(place),
        None => index_behind(front, back, number),
    }
}

// As `queue_index`, in the second of two slices.
fn index_behind(front: &[Undecided], back: &[Undecided], number: u32) -> Option<usize>
    ensures { IfSome result (λ place. (place < length (front.now ++ back.now)) × ((d : Undecided) → (slice_index_or (front.now ++ back.now) place d).number ≡ number)) }
{
    let place = index_in(back, number)?;
    Some(front.len() + place)
}

// As `queue_index`, in a slice.
fn index_in(list: &[Undecided], number: u32) -> Option<usize>
    ensures { IfSome result (λ place. (place < length list.now) × ((d : Undecided) → (slice_index_or list.now place d).number ≡ number)) }
{
    list.binary_search_by_key(&number, |entry| entry.number)
        .ok()
}

// Whether the first entry has this number.
fn is_first(queue: &VecDeque<Undecided>, number: u32) -> bool
    ensures { result ≡ true → (0 < length queue.now.items) × ((d : Undecided) → (slice_index_or queue.now.items 0 d).number ≡ number) }
{
    if queue.is_empty() {
        return false;
    }
    queue[0].number == number
}

fn remove_at(queue: &mut VecDeque<Undecided>, place: usize)
    requires { place < length queue.old.items }
    ensures items { queue.new.items ≡ take place queue.old.items ++ drop (place + 1) queue.old.items }
    ensures room { deque_capacity queue.new ≡ deque_capacity queue.old }
{
    queue.remove(place);
}

fn remove_all(queue: &mut VecDeque<Undecided>, number: u32)
    ensures items { queue.new.items ≡ dequeued number queue.old.items }
    ensures room { deque_capacity queue.new ≡ deque_capacity queue.old }
{
    queue.retain(|entry| entry.number != number);
}

/// Updates the queue after a change of the fetch with this number: `decided` tells whether its round is decided now, and is
/// `None` if there is no such fetch.
pub fn settle(queue: &mut VecDeque<Undecided>, number: u32, decided: Option<bool>)
    requires { IsDistinct nat_eq (numbers_queued queue.old.items) }
    ensures items { queue.new.items ≡ settled decided number queue.old.items }
    ensures room { deque_capacity queue.new ≡ deque_capacity queue.old }
{
    match decided {
        Some(true) => dequeue(queue, number),
        Some(false) => {}
        None => {}
    }
}

/// Updates the queue after the fetch with this number was closed. If its round was decided, the queue has no entry of it.
pub fn close_entry(queue: &mut VecDeque<Undecided>, number: u32, decided: bool)
    requires { IsDistinct nat_eq (numbers_queued queue.old.items) }
    ensures items { queue.new.items ≡ (if decided then queue.old.items else dequeued number queue.old.items) }
    ensures room { deque_capacity queue.new ≡ deque_capacity queue.old }
{
    if !decided {
        dequeue(queue, number);
    }
}

/// The number of the first entry, if its round started at least 2,000 ms before `now`.
pub fn due_in(queue: &VecDeque<Undecided>, now: Moment) -> Option<u32>
    ensures { result ≡ first_of_queue now queue.now.items }
{
    let first = queue.front()?;
    if first.start.millis() + 2000 <= now.millis() {
        Some(first.number)
    } else {
        None
    }
}
