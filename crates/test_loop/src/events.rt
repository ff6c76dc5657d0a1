//! Events, and the calls that submit them, in functions without contracts, so that the tests around them stay cheap to prove.
use crate::messages::query;
use crate::sites::{Site, lone_of};
use bpf_check::{Checked, Insn, check};
use filter_slots::{Datagram, Judged, Moment, Slot};
use node_book::{Clerk, Lone};
use node_core::{Event, Mode, Out};
use object_store::CacheKey;
use std::alloc::Global;
use std::sync::Arc;

/// A time in seconds, in milliseconds.
pub(crate) fn at(second: u64) -> u64 {
    second.saturating_mul(1_000)
}

fn key_of(alloc: Global, address: &[u8]) -> Option<CacheKey> {
    CacheKey::new(alloc, address.to_vec(alloc).ok()?).ok()
}

/// A client's request for a key.
pub(crate) fn request(
    alloc: Global,
    client: u64,
    key: &[u8],
    mode: Mode,
    now: u64,
) -> Option<Arc<Event>> {
    let now = Moment::new(now)?;
    let key = key_of(alloc, key)?;
    let event = Event::Request {
        client,
        key,
        mode,
        now,
    };
    Arc::new(alloc, event).ok()
}

/// A tick.
pub(crate) fn tick(alloc: Global, now: u64) -> Option<Arc<Event>> {
    let now = Moment::new(now)?;
    Arc::new(alloc, Event::Timer { now }).ok()
}

/// The arrival of the first query.
pub(crate) fn arrival(alloc: Global, now: u64) -> Option<Arc<Event>> {
    let now = Moment::new(now)?;
    let datagram = query(alloc, 0)?;
    Arc::new(alloc, Event::Datagram { datagram, now }).ok()
}

/// An instruction that isn't a conditional jump.
pub(crate) fn insn(code: u16, k: u32) -> Insn {
    Insn {
        code,
        jt: 0,
        jf: 0,
        k,
    }
}

/// A filter of these instructions.
pub(crate) fn filter_of(alloc: Global, insns: Vec<Insn>) -> Option<Arc<Checked>> {
    Arc::new(alloc, check(insns).ok()?).ok()
}

/// A filter that returns k for every packet.
pub(crate) fn filter(alloc: Global, k: u32) -> Option<Arc<Checked>> {
    filter_of(alloc, [insn(6, k)].to_vec(alloc).ok()?)
}

/// A filter that returns k for every packet, or no filter if `k` is `None`.
pub(crate) fn filter_if(alloc: Global, k: Option<u32>) -> Option<Option<Arc<Checked>>> {
    match k {
        Some(k) => Some(Some(filter(alloc, k)?)),
        None => Some(None),
    }
}

/// A swap: the slot's filter is replaced by one that returns k for every packet, or removed if `k` is `None`.
pub(crate) fn swap(alloc: Global, slot: Slot, k: Option<u32>) -> Option<Arc<Event>> {
    let program = filter_if(alloc, k)?;
    Arc::new(alloc, Event::Swap { slot, program }).ok()
}

/// A swap: the slot's filter is replaced by this one.
pub(crate) fn swap_for(alloc: Global, slot: Slot, filter: &Arc<Checked>) -> Option<Arc<Event>> {
    let program = Some(Arc::try_clone(filter).ok()?);
    Arc::new(alloc, Event::Swap { slot, program }).ok()
}

/// The first query, judged with this filter, or none, in a slot. The other slot is empty.
pub(crate) fn judged_under(
    alloc: Global,
    slot: Slot,
    filter: Option<Arc<Checked>>,
) -> Option<Judged> {
    let datagram = query(alloc, 0)?;
    match slot {
        Slot::Socket(_) => Some(Judged::new(datagram, filter, None)),
        Slot::Neighbour(_) => Some(Judged::new(datagram, None, filter)),
    }
}

/// Judges a datagram by a clerk's programs.
pub(crate) fn judged_for<C: Clerk>(clerk: &mut C, datagram: Arc<Datagram>) -> Option<Judged> {
    clerk.judge(datagram).ok()
}

/// Submits an event. Returns whether the clerk takes it; `out` then has its actions alone.
pub(crate) fn takes<C: Clerk>(
    alloc: Global,
    clerk: &mut C,
    event: Arc<Event>,
    out: &mut Out,
) -> bool {
    out.clear();
    clerk.submit(alloc, event, out).is_ok()
}

/// Submits a judged datagram. Returns whether the clerk takes it; `out` then has its actions alone.
pub(crate) fn takes_judged<C: Clerk>(
    alloc: Global,
    clerk: &mut C,
    judged: &Judged,
    now: Moment,
    out: &mut Out,
) -> bool {
    out.clear();
    clerk.submit_judged(alloc, judged, now, out).is_ok()
}

/// Submits an event. Returns its actions, or `None` if the clerk refuses it.
pub(crate) fn actions_of<C: Clerk>(alloc: Global, clerk: &mut C, event: Arc<Event>) -> Option<Out> {
    let mut out = Out::new(alloc).ok()?;
    match takes(alloc, clerk, event, &mut out) {
        true => Some(out),
        false => None,
    }
}

/// Submits a swap, as `swap` makes it.
pub(crate) fn swap_in<C: Clerk>(
    alloc: Global,
    clerk: &mut C,
    slot: Slot,
    k: Option<u32>,
) -> Option<()> {
    actions_of(alloc, clerk, swap(alloc, slot, k)?)?;
    Some(())
}

/// Submits a client's request for a key. Returns its actions.
pub(crate) fn asked<C: Clerk>(
    alloc: Global,
    clerk: &mut C,
    client: u64,
    key: &[u8],
    mode: Mode,
    now: u64,
) -> Option<Out> {
    actions_of(alloc, clerk, request(alloc, client, key, mode, now)?)
}

/// Submits the requests of clients 1 and 2 at 1000, for these keys.
fn both_ask<C: Clerk>(alloc: Global, clerk: &mut C, one: &[u8], other: &[u8]) -> Option<()> {
    asked(alloc, clerk, 1, one, Mode::Shared, 1_000)?;
    asked(alloc, clerk, 2, other, Mode::Shared, 1_000)?;
    Some(())
}

/// The clerk of a new node at which clients 1 and 2 have asked at 1000, for these keys.
pub(crate) fn asked_by_two(alloc: Global, site: &Site, one: &[u8], other: &[u8]) -> Option<Lone> {
    let mut clerk = lone_of(alloc, site)?;
    match both_ask(alloc, &mut clerk, one, other) {
        Some(()) => Some(clerk),
        None => {
            drop(clerk);
            None
        }
    }
}
