//! Queries and updates of the list of fetches in the order of opening.

ghost use Rattle.std.specs.Prelude.{◌≡◌, ◌+◌, ◌<◌, ◌≤◌, ◌==◌, ◌++◌, ◌∷◌, [], ℕ, List, nat_eq, nat_le, length, position, option_map, Some, None, OnOk, OnErr, IfOk, true, vec_capacity, if◌then◌else◌};
ghost use Rattle.std.specs.List.{IsDistinct};
ghost use Rattle.peer_select.specs.Poll.{decided};
ghost use Rattle.pending_fetch.specs.Fetches.{PendingFetch, shares, shared_number, without_client, numbers, has_number, waiters_of, fetch_of, changed, with_waiter, with_reply, with_end, with_next, without};
ghost use Rattle.pending_fetch.specs.Calls.{may_advance, fits};
ghost use Rattle.pending_fetch.specs.Indexes.{is_alone, number_under};
ghost use Rattle.pending_fetch.specs.FetchIndex.{fetch_index};
ghost use Rattle.pending_fetch.specs.Bounds.{most_fetches, most_waiters};

use crate::bounds::MAX_PENDING_FETCHES;
use crate::fetch_slab::FetchSlab;
use crate::kept::KeptFetch;
use crate::keys::Keys;
use crate::order::Order;
use neighbours::Table;
use object_store::KeyHashes;
use peer_select::Kind;
use std::alloc::{AllocError, Global};

/// The index of the shared fetches by key, which hashes keys so.
pub fn keys_of(slots: &FetchSlab, alloc: Global, hashes: KeyHashes) -> Result<Keys, AllocError>
    requires { is_alone slots.now ≡ true }
    ensures { IfOk result (λ keys. (key : List ℕ) → number_under key keys ≡ shared_number key slots.now) }
{
    let mut keys = Keys::new(alloc, hashes);
    for place in 0..slots.len() {
        keys.open(slots.get(place))?;
    }
    Ok(keys)
}

/// Whether there are 256 fetches, the most there may be.
pub fn are_many(slots: &FetchSlab) -> bool
    ensures { result ≡ nat_le most_fetches (length slots.now) }
{
    MAX_PENDING_FETCHES <= slots.len()
}

/// The index of the fetch with this number, or `None` if there is none.
pub fn fetch_index(slots: &FetchSlab, order: &Order, number: u32) -> Option<usize>
    requires { order.now ≡ numbers slots.now }
    ensures { result ≡ position (λ (fetch : PendingFetch). fetch.number == number) slots.now }
{
    let _ = slots;
    order.fetch_index(number)
}

/// The waiters of the fetch with this number; empty if there is none.
pub fn waiters_in<'a>(slots: &'a FetchSlab, order: &Order, number: u32) -> &'a [u64]
    requires { order.now ≡ numbers slots.now }
    ensures { result.now ≡ waiters_of number slots.now }
{
    let Some(place) = fetch_index(slots, order, number) else {
        return &[];
    };
    slots.get(place).waiters()
}

/// Adds a waiter to the fetch with this number. Does not allocate.
pub fn join_in(slots: &mut FetchSlab, order: &Order, number: u32, client: u64)
    requires order { order.now ≡ numbers slots.old }
    requires few { length (waiters_of number slots.old) < most_waiters }
    ensures { slots.new ≡ changed (with_waiter client) number slots.old }
{
    let Some(place) = fetch_index(slots, order, number) else {
        return;
    };
    slots.join(place, client);
}

/// Removes a waiter from the fetch with this number.
pub fn leave_in(slots: &mut FetchSlab, order: &Order, number: u32, client: u64)
    requires { order.now ≡ numbers slots.old }
    ensures { slots.new ≡ changed (λ (fetch : PendingFetch). record fetch { waiters = without_client client fetch.waiters }) number slots.old }
{
    let Some(place) = fetch_index(slots, order, number) else {
        return;
    };
    slots.leave(place, client);
}

/// Removes and returns the fetch with this number, or returns `None` if there is none. The numbers are distinct.
pub fn take_out(slots: &mut FetchSlab, order: &mut Order, number: u32) -> Option<KeptFetch>
    requires order { order.old ≡ numbers slots.old }
    requires apart { IsDistinct nat_eq (numbers slots.old) }
    ensures list { slots.new ≡ without number slots.old }
    ensures order { order.new ≡ numbers slots.new }
    ensures taken { result ≡ fetch_of number slots.old }
{
    let Some(place) = fetch_index(slots, order, number) else {
        return None;
    };
    order.remove(place);
    Some(slots.remove(place))
}

/// Adds a reply of the peer with index `n` to the round of the fetch with this number, whose index is `place`. Returns
/// whether the round is decided afterwards.
pub fn reply_in(
    slots: &mut FetchSlab,
    number: u32,
    place: usize,
    table: &Table,
    n: usize,
    kind: Kind,
    s: u32,
) -> bool
    requires here { fetch_index number slots.old ≡ Some place }
    requires place { n < length table.now.neighbours }
    requires table { fits table.now.neighbours (fetch_of number slots.old) ≡ true }
    ensures list { slots.new ≡ changed (with_reply (record { s = s; n = n; kind = kind })) number slots.old }
    ensures decided { Some result ≡ option_map (λ (fetch : PendingFetch). decided (with_reply (record { s = s; n = n; kind = kind }) fetch).round) (fetch_of number slots.old) }
{
    let _ = number;
    slots.reply(place, table, n, kind, s)
}

/// Ends the round of the fetch with this number. Returns whether there is such a fetch.
pub fn expire_in(slots: &mut FetchSlab, order: &Order, number: u32) -> bool
    requires { order.now ≡ numbers slots.old }
    ensures list { slots.new ≡ changed with_end number slots.old }
    ensures found { result ≡ has_number number slots.old }
{
    let Some(place) = fetch_index(slots, order, number) else {
        return false;
    };
    slots.expire(place);
    true
}

/// Moves the fetch with this number on to its next attempt. Returns `false` if there is no such fetch, or its attempt is 65,535.
pub fn advance_in(slots: &mut FetchSlab, order: &Order, number: u32) -> bool
    requires { order.now ≡ numbers slots.old }
    ensures list { slots.new ≡ changed with_next number slots.old }
    ensures found { result ≡ may_advance (fetch_of number slots.old) }
{
    let Some(place) = fetch_index(slots, order, number) else {
        return false;
    };
    slots.advance(place)
}
