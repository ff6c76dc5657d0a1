//! Insertions into a store.
use crate::trouble::{Trouble, made};
use filter_slots::Moment;
use object_store::{CacheKey, Entry, Object, PutFault, SharedObject, Store, same_object};
use std::alloc::Global;
use std::mem::replace;

/// Keys and body lengths of three pages; with their keys these are 60, 30 and 50 octets.
const PAGES: [(&[u8], usize); 3] = [(b"http://a/", 51), (b"http://b/", 21), (b"http://c/", 41)];

/// The key and the entry of a page, or `None` when out of memory.
fn page_of(alloc: Global, key: &[u8], octets: usize) -> Option<(CacheKey, Entry)> {
    let mut body = Vec::with_capacity(alloc, octets).ok()?;
    for _ in 0..octets {
        body.push(b'.').ok()?;
    }
    let object = Object::new(200, Vec::new(alloc), body, 0, 60);
    let entry = Entry {
        object: SharedObject::new(alloc, object).ok()?,
        at: Moment::new(5)?,
    };
    Some((CacheKey::new(alloc, key.to_vec(alloc).ok()?).ok()?, entry))
}

/// Whether a store holds exactly these pages.
fn holds(store: &Store, wanted: [bool; 3]) -> bool {
    PAGES
        .iter()
        .zip(wanted)
        .all(|(page, is_there)| store.holds_octets(page.0) == is_there)
}

/// Puts a page into a store. If that fails, checks that the store is unchanged and the page was returned, and tries again.
fn put_at_last(
    alloc: Global,
    store: &mut Store,
    page: (&[u8], usize),
    before: [bool; 3],
) -> Result<(), Trouble> {
    let (key, entry) = made(|| page_of(alloc, page.0, page.1))?;
    let object = made(|| entry.object.share().ok())?;
    match put(store, key, entry) {
        Ok(()) => Ok(()),
        Err((PutFault::NoMemory, key, entry)) => {
            are_back(&key, &entry, page.0, &object)?;
            put_again(store, key, entry, before)
        }
        Err(_) => Err(Trouble::Store),
    }
}

/// Whether a page was returned unchanged.
fn are_back(
    key: &CacheKey,
    entry: &Entry,
    name: &[u8],
    object: &SharedObject,
) -> Result<(), Trouble> {
    if key.as_slice() == name && same_object(entry.object.get(), object.get()) {
        return Ok(());
    }
    Err(Trouble::Changed)
}

/// Checks that a store that refused a page is unchanged, and puts the page in again.
fn put_again(
    store: &mut Store,
    key: CacheKey,
    entry: Entry,
    before: [bool; 3],
) -> Result<(), Trouble> {
    if !holds(store, before) {
        return Err(Trouble::Changed);
    }
    put(store, key, entry).map_err(|_| Trouble::Twice)
}

/// Puts a page into a store.
fn put(store: &mut Store, key: CacheKey, entry: Entry) -> Result<(), (PutFault, CacheKey, Entry)> {
    store.put(key, entry)
}

/// Checks that a page larger than the store is refused and changes nothing.
fn refuses_large(alloc: Global, store: &mut Store) -> Result<(), Trouble> {
    let (key, entry) = made(|| page_of(alloc, b"http://d/", 92))?;
    match put(store, key, entry) {
        Err((PutFault::TooLarge, ..)) => Ok(()),
        _ => Err(Trouble::Store),
    }
}

/// Puts a page into a copy of a store that holds these pages, and checks which pages both hold then.
fn put_beside(
    alloc: Global,
    store: &Store,
    copy: &mut Store,
    page: (&[u8], usize),
    held: [bool; 3],
    after: [bool; 3],
) -> Result<(), Trouble> {
    put_at_last(alloc, copy, page, held)?;
    if holds(store, held) && holds(copy, after) {
        return Ok(());
    }
    Err(Trouble::Store)
}

/// The same with a new copy, which replaces the store.
fn put_in_copy(
    alloc: Global,
    store: &mut Store,
    page: (&[u8], usize),
    held: [bool; 3],
    after: [bool; 3],
) -> Result<(), Trouble> {
    let mut copy = made(|| store.copy(alloc).ok())?;
    let ended = put_beside(alloc, store, &mut copy, page, held, after);
    drop(replace(store, copy));
    ended
}

/// Which pages a store of 100 octets holds after each of them: the last two.
const AFTERS: [[bool; 3]; 3] = [
    [true, false, false],
    [true, true, false],
    [false, true, true],
];

/// Puts the pages into an empty store, and one that is too large.
fn put_pages(alloc: Global, store: &mut Store) -> Result<(), Trouble> {
    let mut held = [false; 3];
    for (page, after) in PAGES.iter().zip(&AFTERS) {
        put_in_copy(alloc, store, *page, held, *after)?;
        held = *after;
    }
    refuses_large(alloc, store)?;
    if holds(store, held) {
        return Ok(());
    }
    Err(Trouble::Store)
}

/// Puts three pages into a store of 100 octets, which keeps the last two. Each page is put into a copy of the store first.
pub fn by_put(alloc: Global) -> Result<(), Trouble> {
    let mut store = made(|| Store::new(alloc, 10, 100).ok())?;
    let ended = put_pages(alloc, &mut store);
    drop(store);
    ended
}
