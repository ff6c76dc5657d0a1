//! Calls of a store that has a number of entries: look-ups that find theirs, and puts that evict the least recently used one. `nothing` does
//! only what surrounds each call (it makes a key and shares an object), so that its cost can be subtracted.

use bpf_run::Moment;
use object_store::{CacheKey, Entry, Object, SharedObject, Store};
use std::alloc::Global;

/// The largest total size of a store's objects, in octets.
const OCTETS: u32 = 1_073_741_824;

/// What is measured.
#[derive(Clone, Copy)]
pub(crate) enum Call {
    /// Only what surrounds each call.
    Nothing,
    /// A look-up that finds its entry.
    Get,
    /// A put of a new key into a full store.
    Put,
}

/// A measurement: the call, the number of entries in the store, and how often the call is made.
#[derive(Clone, Copy)]
pub(crate) struct Work {
    pub(crate) call: Call,
    pub(crate) entries: u32,
    pub(crate) count: u32,
}

/// The number of calls that succeeded, or `None` if memory runs out or the store is refused.
pub(crate) fn measured(alloc: Global, work: &Work) -> Option<u32> {
    let entry = make_entry(alloc)?;
    let succeeded = run(alloc, work, &entry);
    drop(entry);
    succeeded
}

/// The call of this name.
pub(crate) fn parse_call(name: &str) -> Option<Call> {
    match name {
        "nothing" => Some(Call::Nothing),
        "get" => Some(Call::Get),
        "put" => Some(Call::Put),
        _ => None,
    }
}

/// The key with this number: an address that ends in ten decimal digits.
fn make_key(alloc: Global, number: u32) -> Option<CacheKey> {
    let mut octets = *b"http://origin.example/0000000000";
    let mut rest = number;
    for place in 0..10usize {
        octets[31 - place] = b'0' + (rest % 10) as u8;
        rest /= 10;
    }
    CacheKey::new(alloc, octets.to_vec(alloc).ok()?).ok()
}

/// The key that a turn looks up, spread over all entries by multiplicative hashing.
fn spread(turn: u32, entries: u32) -> Option<u32> {
    let hash = u64::from(turn) * 2_654_435_761;
    u32::try_from(hash.checked_rem(u64::from(entries))?).ok()
}

/// The number of the key that a turn uses: a stored one, or for a put a new one.
fn number_of(work: &Work, turn: u32) -> Option<u32> {
    match work.call {
        Call::Put => Some(work.entries.saturating_add(turn)),
        Call::Nothing | Call::Get => spread(turn, work.entries),
    }
}

/// An entry whose object has a body of two octets.
fn make_entry(alloc: Global) -> Option<Entry> {
    let at = Moment::new(1_000)?;
    let body = b"hi".to_vec(alloc).ok()?;
    let object = SharedObject::new(alloc, Object::new(200, Vec::new(alloc), body, 0, 60)).ok()?;
    Some(Entry { object, at })
}

/// An entry that shares the object of another.
fn share(entry: &Entry) -> Option<Entry> {
    Some(Entry {
        object: entry.object.share().ok()?,
        at: entry.at,
    })
}

/// Stores the entry under the first `entries` keys.
fn fill(alloc: Global, store: &mut Store, entries: u32, entry: &Entry) -> Option<()> {
    for number in 0..entries {
        if !make_put(store, make_key(alloc, number)?, share(entry)?) {
            return None;
        }
    }
    Some(())
}

fn make_put(store: &mut Store, key: CacheKey, entry: Entry) -> bool {
    store.put(key, entry).is_ok()
}

fn make_get(store: &mut Store, key: &CacheKey, now: Moment) -> bool {
    store.get(key, now).is_some()
}

/// One call. Returns whether it succeeded, or `None` if memory runs out.
fn make_call(
    alloc: Global,
    store: &mut Store,
    work: &Work,
    turn: u32,
    entry: &Entry,
) -> Option<bool> {
    let key = make_key(alloc, number_of(work, turn)?)?;
    let entry = share(entry)?;
    Some(match work.call {
        Call::Nothing => true,
        Call::Get => make_get(store, &key, entry.at),
        Call::Put => make_put(store, key, entry),
    })
}

/// Makes all calls. Returns how many succeeded, or `None` if memory runs out.
fn make_calls(alloc: Global, store: &mut Store, work: &Work, entry: &Entry) -> Option<u32> {
    let mut succeeded = 0u32;
    for turn in 0..work.count {
        if make_call(alloc, store, work, turn, entry)? {
            succeeded = succeeded.saturating_add(1);
        }
    }
    Some(succeeded)
}

/// Fills the store and makes all calls.
fn fill_and_call(alloc: Global, store: &mut Store, work: &Work, entry: &Entry) -> Option<u32> {
    fill(alloc, store, work.entries, entry)?;
    make_calls(alloc, store, work, entry)
}

/// Measures with a new store.
fn run(alloc: Global, work: &Work, entry: &Entry) -> Option<u32> {
    let mut store = Store::new(alloc, work.entries, OCTETS).ok()?;
    let succeeded = fill_and_call(alloc, &mut store, work, entry);
    drop(store);
    succeeded
}
