//! A store that is filled with 100,000 pairs.

use crate::made::{NO_MEMORY, octets};
use bpf_run::Moment;
use object_store::{CacheKey, Entry, Object, SharedObject, Store};
use std::alloc::Global;
use std::process::Abort;

/// The number of pairs that the store has room for.
const COUNT: u32 = 100_000;

/// The key with this number: a URL that ends in ten decimal digits.
fn key_of<R: Abort>(rt: &R, alloc: Global, number: u32) -> CacheKey {
    let mut url = *b"http://origin.example/0000000000";
    let mut rest = number;
    for place in 0..10usize {
        url[31 - place] = b'0' + (rest % 10) as u8;
        rest /= 10;
    }
    let url = octets(rt, alloc, &url);
    CacheKey::new(alloc, url).ok().expect(rt, "a key")
}

/// An object that stays fresh for years.
fn object_of<R: Abort>(rt: &R, alloc: Global) -> SharedObject {
    let body = octets(rt, alloc, b"hi");
    let object = Object::new(200, Vec::new(alloc), body, 0, 1_000_000_000);
    SharedObject::new(alloc, object).expect(rt, NO_MEMORY)
}

/// The moment that tells the entry with this number from all others.
fn moment_of<R: Abort>(rt: &R, number: u32) -> Moment {
    Moment::new(u64::from(number)).expect(rt, "a moment")
}

/// Puts the pair with this number.
fn put<R: Abort>(rt: &R, alloc: Global, store: &mut Store, object: &SharedObject, number: u32) {
    let entry = Entry {
        object: object.share().expect(rt, NO_MEMORY),
        at: moment_of(rt, number),
    };
    let put = store.put(key_of(rt, alloc, number), entry);
    put.ok().expect(rt, "put");
}

/// Puts the pairs with the numbers below this one, in order.
fn put_all<R: Abort>(rt: &R, alloc: Global, store: &mut Store, object: &SharedObject, count: u32) {
    for number in 0..count {
        put(rt, alloc, store, object, number);
    }
}

/// Whether the store has the entry with this number under its key.
fn holds<R: Abort>(rt: &R, alloc: Global, store: &Store, number: u32) -> bool {
    let at = moment_of(rt, number);
    let key = key_of(rt, alloc, number);
    let is_held = match store.peek(&key, at) {
        Some(entry) => entry.at == at,
        None => false,
    };
    drop(key);
    is_held
}

/// How many of the numbers below this one the store holds.
fn count_held<R: Abort>(rt: &R, alloc: Global, store: &Store, count: u32) -> u32 {
    let mut held = 0u32;
    for number in 0..count {
        if holds(rt, alloc, store, number) {
            held = held.wrapping_add(1);
        }
    }
    held
}

/// Puts the numbers below this one into a new store. Returns how many of them are held then, and whether the first one is.
fn held_of<R: Abort>(rt: &R, alloc: Global, count: u32) -> (u32, bool) {
    let object = object_of(rt, alloc);
    let store = Store::new(alloc, COUNT, 1_000_000_000);
    let mut store = store.ok().expect(rt, "a store");
    put_all(rt, alloc, &mut store, &object, count);
    let held = count_held(rt, alloc, &store, count);
    let is_first_held = holds(rt, alloc, &store, 0);
    drop(store);
    drop(object);
    (held, is_first_held)
}

// A store that gave up above a few thousand pairs would be found here alone.
#[test]
fn a_store_is_filled(rt: HostRuntime) {
    assert!(rt; held_of(&rt, rt.alloc(), COUNT) == (COUNT, true));
}

// The least recently used pair alone gives way to one more.
#[test]
fn a_full_store_takes_one_more(rt: HostRuntime) {
    assert!(rt; held_of(&rt, rt.alloc(), COUNT + 1) == (COUNT, false));
}
