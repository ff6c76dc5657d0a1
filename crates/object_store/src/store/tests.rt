//! Tests of keys, digests and limits, and of the store against a reference implementation. What a test owns it makes, lends to
//! functions that say whether all holds, and drops by a call. Where no value can be made the test ends there, so no function has a
//! way out that drops what it holds.

ghost use Rattle.std.specs.Prelude.{◌≡◌, is_some};
ghost use Rattle.object_store.specs.Store.{after_get, fresh_at};

use crate::plain::PlainStore;
use crate::{CacheKey, Entry, KeyFault, Object, PutFault, SharedObject, Store, StoreFault};
use node_terms::Moment;
use std::alloc::Global;
use std::mem;
use std::process::Abort;

const NO_MEMORY: &str = "no memory";

fn key<R: Abort>(rt: &R, alloc: Global, text: &str) -> CacheKey {
    let octets = text.as_bytes().to_vec(alloc).expect(rt, NO_MEMORY);
    CacheKey::new(alloc, octets).ok().expect(rt, "no key")
}

// An entry with a body of `body` octets and no head.
fn entry<R: Abort>(rt: &R, alloc: Global, body: usize, life: u32, at: u64) -> Entry {
    let at = Moment::new(at).expect(rt, "no moment");
    let body = vec![in alloc; 7u8; body].expect(rt, NO_MEMORY);
    let object = Object::new(200, Vec::new(alloc), body, 0, life);
    let object = SharedObject::new(alloc, object).expect(rt, NO_MEMORY);
    Entry { object, at }
}

fn empty_store<R: Abort>(rt: &R, alloc: Global, entries: u32, octets: u32) -> Store {
    Store::new(alloc, entries, octets)
        .ok()
        .expect(rt, "no store")
}

// The place of the first that does not hold.
fn first_false(found: &[bool]) -> Option<usize> {
    for (place, holds) in found.iter().enumerate() {
        if !*holds {
            return Some(place);
        }
    }
    None
}

// Asserts that there is no place, of a row or of what was asked, at which something does not hold.
fn assert_none<R: Abort>(rt: &R, wrong: Option<usize>) {
    if let Some(place) = wrong {
        panic!(rt; "what stands at place {place} does not hold");
    }
}

// Proves what a caller of `get` knows after the loan has ended.
fn touches(store: &mut Store, key: &CacheKey, now: Moment) -> bool
    ensures found { result ≡ is_some (fresh_at key.now now store.old) }
    ensures changed { store.new ≡ after_get key.now now store.old }
{
    store.get(key, now).is_some()
}

// Whether the octets are rejected as a key, and returned.
fn is_given_back<R: Abort>(rt: &R, alloc: Global, text: &str) -> bool {
    let octets = text.as_bytes().to_vec(alloc).expect(rt, NO_MEMORY);
    let made = CacheKey::new(alloc, octets);
    let is_given_back = match &made {
        Ok(_) => false,
        Err((fault, octets)) => {
            *fault == KeyFault::NotKey && octets.as_slice() == text.as_bytes()
        }
    };
    drop(made);
    is_given_back
}

const NO_KEYS: [&str; 6] = [
    "",
    "http:/",
    "ftp://a/",
    "HTTP://a/",
    "http://a b",
    "http://a\x7f",
];

#[test]
fn what_is_no_key(rt: HostRuntime) {
    for text in &NO_KEYS {
        assert!(rt; is_given_back(&rt, rt.alloc(), *text), "{}", *text);
    }
}

// Whether a key of this length is accepted.
fn is_key<R: Abort>(rt: &R, alloc: Global, length: usize) -> bool {
    let mut octets = b"http://!~".to_vec(alloc).expect(rt, NO_MEMORY);
    octets.resize(length, 0x61).expect(rt, NO_MEMORY);
    let made = CacheKey::new(alloc, octets);
    let is_made = made.is_ok();
    drop(made);
    is_made
}

// Whether a key is equal to the one of this text, and whether it differs from it.
fn compared<R: Abort>(rt: &R, alloc: Global, one: &CacheKey, text: &str) -> (bool, bool) {
    let other = key(rt, alloc, text);
    let found = (*one == other, *one != other);
    drop(other);
    found
}

#[test]
fn keys(rt: HostRuntime) {
    let alloc = rt.alloc();
    let first = key(&rt, alloc, "http://a/");
    let second = first.share().expect(&rt, NO_MEMORY);
    let found = [
        is_key(&rt, alloc, 8192),
        !is_key(&rt, alloc, 8193),
        compared(&rt, alloc, &second, "http://a/").0,
        compared(&rt, alloc, &first, "http://b/").1,
    ];
    drop(second);
    drop(first);
    assert_none(&rt, first_false(&found));
}

// A status of 200 with the head `a: b` and the body `hi`.
fn greeting<R: Abort>(rt: &R, alloc: Global) -> Object {
    let name = b"a".to_vec(alloc).expect(rt, NO_MEMORY);
    let value = b"b".to_vec(alloc).expect(rt, NO_MEMORY);
    let mut head = Vec::new(alloc);
    head.push((name, value)).ok().expect(rt, NO_MEMORY);
    let body = b"hi".to_vec(alloc).expect(rt, NO_MEMORY);
    Object::new(200, head, body, 1, 60)
}

const DIGEST: [u8; 16] = [
    0xd7, 0xda, 0xfd, 0xeb, 0x90, 0x7b, 0xbf, 0x1f, 0xc4, 0xb1, 0xc3, 0xe4, 0xc9, 0xbf, 0x8c, 0x09,
];

#[test]
fn digests(rt: HostRuntime) {
    let object = greeting(&rt, rt.alloc());
    let digest = object.digest();
    drop(object);
    assert!(rt; digest == DIGEST);
}

// Whether it is the object of `greeting`.
fn is_greeting(object: &Object) -> bool {
    (object.status(), object.age(), object.life()) == (200, 1, 60)
        && object.head().len() == 1
        && object.body() == b"hi".as_slice()
}

// A second reference shows the same object.
#[test]
fn sharing(rt: HostRuntime) {
    let object = greeting(&rt, rt.alloc());
    let shared = SharedObject::new(rt.alloc(), object).expect(&rt, NO_MEMORY);
    let second = shared.share().expect(&rt, NO_MEMORY);
    let is_greeting = is_greeting(second.get());
    drop(second);
    drop(shared);
    assert!(rt; is_greeting);
}

// Limits of entries and octets, and whether a store is made with them.
const LIMITS: [(u32, u32, bool); 6] = [
    (0, 1, false),
    (1, 0, false),
    (1_000_001, 1, false),
    (1, 1_073_741_825, false),
    (1, 1, true),
    (1_000_000, 1_073_741_824, true),
];

// Why no store is made with these limits.
fn fault_of(alloc: Global, entries: u32, octets: u32) -> Option<StoreFault> {
    let made = Store::new(alloc, entries, octets);
    let fault = match &made {
        Ok(_) => None,
        Err(fault) => Some(*fault),
    };
    drop(made);
    fault
}

#[test]
fn limits(rt: HostRuntime) {
    for (entries, octets, accepted) in &LIMITS {
        let wanted = if *accepted {
            None
        } else {
            Some(StoreFault::Limits)
        };
        assert!(rt; fault_of(rt.alloc(), *entries, *octets) == wanted);
    }
}

// A call on a store.
#[derive(Clone, Copy)]
enum Call {
    Put,
    Get,
    Peek,
    Holds,
    Remove,
}

// The result of a call: the length of a body, a fault, or nothing.
type Answer = Result<Option<usize>, PutFault>;

// A call, its key, for `Put` the length of the body and the life, the time, the expected result, and the expected keys
// afterwards, the most recently used first.
type Row = (Call, &'static str, usize, u32, u64, Answer, &'static str);

fn is_same(one: &Answer, other: &Answer) -> bool {
    one == other
}

fn body_of(entry: Option<&Entry>) -> Option<usize> {
    match entry {
        Some(entry) => Some(entry.object.get().body().len()),
        None => None,
    }
}

fn found(yes: bool) -> Answer {
    Ok(if yes { Some(0) } else { None })
}

// The result of a `put`, which is dropped.
fn put_answer(put: Result<(), (PutFault, CacheKey, Entry)>) -> Answer {
    let answer = match &put {
        Ok(()) => Ok(None),
        Err(refused) => Err(refused.0),
    };
    drop(put);
    answer
}

// The length of the body of an entry that was removed, which is dropped.
fn removed_body(removed: Option<Entry>) -> Option<usize> {
    let length = body_of(removed.as_ref());
    drop(removed);
    length
}

// What a row puts into a store.
fn pair_of<R: Abort>(rt: &R, alloc: Global, key: &CacheKey, row: &Row) -> (CacheKey, Entry) {
    let key = key.share().expect(rt, NO_MEMORY);
    (key, entry(rt, alloc, row.2, row.3, row.4))
}

fn on_store<R: Abort>(
    rt: &R,
    alloc: Global,
    store: &mut Store,
    key: &CacheKey,
    row: &Row,
) -> Answer {
    let now = Moment::new(row.4).expect(rt, "no moment");
    match row.0 {
        Call::Put => {
            let (key, entry) = pair_of(rt, alloc, key, row);
            put_answer(store.put(key, entry))
        }
        Call::Get => Ok(body_of(store.get(key, now))),
        Call::Peek => Ok(body_of(store.peek(key, now))),
        Call::Holds => found(store.holds(key)),
        Call::Remove => Ok(removed_body(store.remove(key))),
    }
}

fn on_plain<R: Abort>(
    rt: &R,
    alloc: Global,
    store: &mut PlainStore,
    key: &CacheKey,
    row: &Row,
) -> Answer {
    let now = Moment::new(row.4).expect(rt, "no moment");
    match row.0 {
        Call::Put => {
            let (key, entry) = pair_of(rt, alloc, key, row);
            put_answer(store.put(key, entry))
        }
        Call::Get => Ok(body_of(store.get(key, now))),
        Call::Peek => Ok(body_of(store.peek(key, now))),
        Call::Holds => found(store.holds(key)),
        Call::Remove => Ok(removed_body(store.remove(key))),
    }
}

// Asserts that the pair of the plain twin is one of this key.
fn assert_key<R: Abort>(rt: &R, key: &CacheKey, pair: Option<&(CacheKey, Entry)>) {
    match pair {
        Some((plain_key, _)) => assert!(*rt; key == plain_key, "the twins hold different keys"),
        None => panic!(*rt; "the plain twin holds less"),
    }
}

// Whether these are the eighth octets of all keys.
fn are_named(pairs: &[(CacheKey, Entry)], names: &[u8]) -> bool {
    for (place, (key, _)) in pairs.iter().enumerate() {
        let Some(name) = names.get(place) else {
            return false;
        };
        if *name != key.as_slice().get(7).copied().unwrap_or(0) {
            return false;
        }
    }
    pairs.len() == names.len()
}

// A store and the reference implementation. Both must return the same and hold the same pairs.
#[derive(Drop)]
struct Twins {
    store: Store,
    plain: PlainStore,
    // Whether a copy takes the place of the store after each row.
    is_copied: bool,
}

impl Twins {
    fn new<R: Abort>(rt: &R, alloc: Global, entries: u32, octets: u32, is_copied: bool) -> Twins {
        let plain = PlainStore::new(alloc, entries, octets);
        Twins {
            store: empty_store(rt, alloc, entries, octets),
            plain: plain.ok().expect(rt, "no plain twin"),
            is_copied,
        }
    }

    // Makes the call on both, and returns their common result. They must not differ.
    fn call<R: Abort>(&mut self, rt: &R, alloc: Global, row: &Row) -> Answer {
        let key = key(rt, alloc, row.1);
        let answer = on_store(rt, alloc, &mut self.store, &key, row);
        let plain = on_plain(rt, alloc, &mut self.plain, &key, row);
        drop(key);
        assert!(*rt; is_same(&answer, &plain), "the twins answer differently");
        answer
    }

    // Whether these are the eighth octets of all keys, the most recently used first. The stores must not hold different keys.
    fn has_keys<R: Abort>(&self, rt: &R, names: &str) -> bool {
        let mut plain = self.plain.pairs().iter();
        for (key, _) in self.store.pairs.iter() {
            assert_key(rt, key, plain.next());
        }
        assert!(*rt; plain.next().is_none(), "the plain twin holds more");
        are_named(self.plain.pairs(), names.as_bytes())
    }

    // Whether both return the expected result and then hold the expected keys, and where the store is copied, whether the copy
    // keeps them when the store has lost its own.
    fn follow<R: Abort>(&mut self, rt: &R, alloc: Global, row: &Row) -> bool {
        let answer = self.call(rt, alloc, row);
        let is_followed = is_same(&answer, &row.5) && self.has_keys(rt, row.6);
        if !self.is_copied {
            return is_followed;
        }
        replace_by_copy(rt, alloc, &mut self.store);
        is_followed && self.has_keys(rt, row.6)
    }
}

const A: &str = "http://a/";

const B: &str = "http://b/";

const C: &str = "http://c/";

const D: &str = "http://d/";

fn remove<R: Abort>(rt: &R, alloc: Global, store: &mut Store, name: &str) {
    let key = key(rt, alloc, name);
    drop(store.remove(&key));
    drop(key);
}

// Puts a copy of a store in its place, after the store has lost its pairs.
fn replace_by_copy<R: Abort>(rt: &R, alloc: Global, store: &mut Store) {
    let copy = store.copy(alloc).expect(rt, NO_MEMORY);
    for name in &[A, B, C, D] {
        remove(rt, alloc, store, *name);
    }
    drop(mem::replace(store, copy));
}

// Entries of 60, 30 and 50 octets, with limits of 10 entries and 100 octets.
const BY_OCTETS: [Row; 16] = [
    (Call::Put, A, 51, 60, 1010, Ok(None), "a"),
    (Call::Put, B, 21, 60, 1010, Ok(None), "ba"),
    (Call::Put, C, 41, 60, 1010, Ok(None), "cb"),
    (Call::Put, A, 92, 60, 1010, Err(PutFault::TooLarge), "cb"),
    (Call::Put, B, 92, 60, 1010, Err(PutFault::TooLarge), "cb"),
    (Call::Holds, A, 0, 0, 0, Ok(None), "cb"),
    (Call::Holds, B, 0, 0, 0, Ok(Some(0)), "cb"),
    (Call::Peek, B, 0, 0, 1020, Ok(Some(21)), "cb"),
    (Call::Get, B, 0, 0, 1020, Ok(Some(21)), "bc"),
    // stored at 1,010 ms with a life of 60 s
    (Call::Get, C, 0, 0, 61009, Ok(Some(41)), "cb"),
    (Call::Peek, B, 0, 0, 61010, Ok(None), "cb"),
    (Call::Holds, B, 0, 0, 0, Ok(Some(0)), "cb"),
    (Call::Get, B, 0, 0, 61010, Ok(None), "c"),
    (Call::Remove, A, 0, 0, 0, Ok(None), "c"),
    (Call::Put, A, 91, 60, 1010, Ok(None), "a"),
    (Call::Remove, A, 0, 0, 0, Ok(Some(91)), ""),
];

// Limits of 3 entries and 1,000 octets.
const BY_ENTRIES: [Row; 9] = [
    (Call::Put, A, 1, 60, 1010, Ok(None), "a"),
    (Call::Put, B, 1, 60, 1010, Ok(None), "ba"),
    (Call::Put, C, 1, 60, 1010, Ok(None), "cba"),
    (Call::Get, A, 0, 0, 1020, Ok(Some(1)), "acb"),
    (Call::Put, D, 1, 60, 1010, Ok(None), "dac"),
    (Call::Get, B, 0, 0, 1020, Ok(None), "dac"),
    // replaces the old entry; a life of 0 s
    (Call::Put, C, 971, 0, 1010, Ok(None), "cda"),
    (Call::Put, C, 972, 0, 1010, Ok(None), "cd"),
    (Call::Get, C, 0, 0, 1010, Ok(None), "d"),
];

// Index of the first row whose result or keys differ from the expected ones.
fn first_wrong<R: Abort>(rt: &R, alloc: Global, twins: &mut Twins, rows: &[Row]) -> Option<usize> {
    for (place, row) in rows.iter().enumerate() {
        if !twins.follow(rt, alloc, row) {
            return Some(place);
        }
    }
    None
}

#[test]
fn calls_within_octets(rt: HostRuntime) {
    let mut twins = Twins::new(&rt, rt.alloc(), 10, 100, false);
    let wrong = first_wrong(&rt, rt.alloc(), &mut twins, &BY_OCTETS);
    drop(twins);
    assert_none(&rt, wrong);
}

// Whether there is a fresh entry of this name.
fn is_touched<R: Abort>(rt: &R, alloc: Global, store: &mut Store, name: &str, at: u64) -> bool {
    let now = Moment::new(at).expect(rt, "no moment");
    let key = key(rt, alloc, name);
    let is_touched = touches(store, &key, now);
    drop(key);
    store.facts();
    is_touched
}

#[test]
fn calls_within_entries(rt: HostRuntime) {
    let mut twins = Twins::new(&rt, rt.alloc(), 3, 1000, false);
    let wrong = first_wrong(&rt, rt.alloc(), &mut twins, &BY_ENTRIES);
    let is_touched = is_touched(&rt, rt.alloc(), &mut twins.store, D, 1020);
    drop(twins);
    assert_none(&rt, wrong);
    assert!(rt; is_touched);
}

// A copy holds the same pairs in the same order, and is independent of the original.
#[test]
fn copied(rt: HostRuntime) {
    let mut twins = Twins::new(&rt, rt.alloc(), 3, 1000, true);
    let wrong = first_wrong(&rt, rt.alloc(), &mut twins, &BY_ENTRIES);
    drop(twins);
    assert_none(&rt, wrong);
}

// Whether an entry with a body of this length, stored at 1,010 ms with a life of 60 s, is accepted.
fn is_put<R: Abort>(rt: &R, alloc: Global, store: &mut Store, name: &str, body: usize) -> bool {
    let key = key(rt, alloc, name);
    let entry = entry(rt, alloc, body, 60, 1010);
    put_answer(store.put(key, entry)).is_ok()
}

// Removes an entry, and returns the length of its body.
fn removed(store: &mut Store, name: &str) -> Option<usize> {
    removed_body(store.remove_octets(name.as_bytes()))
}

// A name, and whether the store holds a key of it.
const HELD: [(&str, bool); 4] = [(A, true), (B, false), ("http://a", false), ("", false)];

fn first_wrongly_held(store: &Store) -> Option<usize> {
    for (place, (name, held)) in HELD.iter().enumerate() {
        if store.holds_octets(name.as_bytes()) != *held {
            return Some(place);
        }
    }
    None
}

// A stale entry stays in the store until it is removed by the octets of its key.
#[test]
fn stale_entries_are_held(rt: HostRuntime) {
    let stale = Moment::new(61010).expect(&rt, "no moment");
    let mut store = empty_store(&rt, rt.alloc(), 10, 100);
    let is_put = is_put(&rt, rt.alloc(), &mut store, A, 21);
    let is_none = store.peek_octets(A.as_bytes(), stale).is_none();
    let wrong = first_wrongly_held(&store);
    drop(store);
    assert!(rt; is_put);
    assert!(rt; is_none);
    assert_none(&rt, wrong);
}

#[test]
fn stale_entries_are_removed(rt: HostRuntime) {
    let alloc = rt.alloc();
    let mut store = empty_store(&rt, alloc, 10, 100);
    let found = [
        is_put(&rt, alloc, &mut store, A, 21),
        removed(&mut store, B).is_none(),
        removed(&mut store, A) == Some(21),
        !store.holds_octets(A.as_bytes()),
        removed(&mut store, A).is_none(),
        // its octets are free again
        is_put(&rt, alloc, &mut store, B, 91),
    ];
    drop(store);
    assert_none(&rt, first_false(&found));
}

// The number of a key, and the size of its pair.
type Plain = (u32, u64);

// Length of the longest prefix within 2,000 pairs and this many octets.
fn front_of(list: &[Plain], octets: u64) -> usize {
    let mut room = octets;
    for (count, pair) in list.iter().enumerate() {
        if count >= 2000 || pair.1 > room {
            return count;
        }
        room -= pair.1;
    }
    list.len()
}

// Inserts a pair at the front of the list, and evicts from the end.
fn put_plain<R: Abort>(rt: &R, list: &mut Vec<Plain>, pair: Plain, octets: u64) {
    list.retain(|other| other.0 != pair.0);
    list.insert(0, pair).ok().expect(rt, NO_MEMORY);
    let count = front_of(list, octets);
    list.truncate(count);
}

fn numbered<R: Abort>(rt: &R, alloc: Global, number: u32) -> String {
    format!(in alloc; "http://{number:06}/").expect(rt, NO_MEMORY)
}

// Inserts a pair into both the store and the list.
fn put_both<R: Abort>(
    rt: &R,
    alloc: Global,
    store: &mut Store,
    list: &mut Vec<Plain>,
    pair: Plain,
    octets: u64,
) {
    let body = pair.1.saturating_sub(14) as usize;
    let name = numbered(rt, alloc, pair.0);
    let is_put = is_put(rt, alloc, store, name.as_str(), body);
    drop(name);
    assert!(*rt; is_put, "not put");
    put_plain(rt, list, pair, octets);
}

// Whether a key and an entry are those of a pair of the list.
fn is_pair<R: Abort>(rt: &R, alloc: Global, found: &CacheKey, held: &Entry, pair: &Plain) -> bool {
    let name = numbered(rt, alloc, pair.0);
    let compared = compared(rt, alloc, found, name.as_str());
    drop(name);
    let body = held.object.get().body().len() as u64;
    !compared.1 && body == pair.1.saturating_sub(14)
}

// Whether the store holds the pairs of the list in the same order.
fn is_list<R: Abort>(rt: &R, alloc: Global, store: &Store, list: &[Plain]) -> bool {
    let mut pairs = store.pairs.iter();
    for pair in list {
        let Some((found, held)) = pairs.next() else {
            return false;
        };
        if !is_pair(rt, alloc, found, held, pair) {
            return false;
        }
    }
    pairs.next().is_none()
}

// 4,000 insertions with 3,000 keys.
fn put_thousands<R: Abort>(
    rt: &R,
    alloc: Global,
    store: &mut Store,
    list: &mut Vec<Plain>,
    octets: u64,
) {
    for step in 0..4000u32 {
        let number = if step % 4 == 0 { step / 4 } else { step % 3000 };
        let pair = (number, 14 + u64::from(step % 37));
        put_both(rt, alloc, store, list, pair, octets);
    }
}

// Whether a store with a limit of 2,000 entries has the pairs of the list then, and at least so many.
fn holds_thousands<R: Abort>(rt: &R, alloc: Global, octets: u32, least: usize) -> bool {
    let mut store = empty_store(rt, alloc, 2000, octets);
    let mut list = Vec::new(alloc);
    put_thousands(rt, alloc, &mut store, &mut list, u64::from(octets));
    let found = list.len() >= least && is_list(rt, alloc, &store, &list);
    drop(list);
    drop(store);
    found
}

// 4,000 insertions with 3,000 keys and a limit of 2,000 entries, compared to a list. Both limits evict.
#[test]
fn thousands(rt: HostRuntime) {
    for (octets, least) in &[(1_000_000, 2000), (40_000, 1000)] {
        assert!(rt; holds_thousands(&rt, rt.alloc(), *octets, *least));
    }
}

// An object with a body of so many octets, the place of each modulo 251.
fn long_object<R: Abort>(rt: &R, alloc: Global, count: usize) -> Object {
    let mut body = Vec::with_capacity(alloc, count).expect(rt, NO_MEMORY);
    for place in 0..count {
        body.push((place % 251) as u8).ok().expect(rt, NO_MEMORY);
    }
    Object::new(203, Vec::new(alloc), body, 4, 5)
}

// Whether a part of the body is shared, and has these octets.
fn shares(object: &Object, first: usize, end: usize) -> bool {
    let part = object.share_body(first, end);
    let is_so = match (&part, object.body().get(first..end)) {
        (Some(part), Some(octets)) => part.as_slice() == octets,
        _ => false,
    };
    drop(part);
    is_so
}

// Whether a part of the body is not shared.
fn shares_none(object: &Object, first: usize, end: usize) -> bool {
    let part = object.share_body(first, end);
    let is_none = part.is_none();
    drop(part);
    is_none
}

#[test]
fn bodies_of_128_kib_are_shared(rt: HostRuntime) {
    let object = long_object(&rt, rt.alloc(), 131_072);
    let found = [
        shares(&object, 0, 131_072),
        shares(&object, 131_071, 131_072),
        shares(&object, 1_000, 1_000),
        shares_none(&object, 1, 0),
        shares_none(&object, 0, 131_073),
    ];
    drop(object);
    assert_none(&rt, first_false(&found));
}

#[test]
fn shorter_bodies_are_not_shared(rt: HostRuntime) {
    let object = long_object(&rt, rt.alloc(), 131_071);
    let is_none = shares_none(&object, 0, 131_071);
    drop(object);
    assert!(rt; is_none);
}

// The digest of a new object with this body, no head, and another age and life.
fn new_digest<R: Abort>(rt: &R, alloc: Global, body: &[u8]) -> [u8; 16] {
    let body = body.to_vec(alloc).expect(rt, NO_MEMORY);
    let new = Object::new(203, Vec::new(alloc), body, 6, 7);
    let digest = new.digest();
    drop(new);
    digest
}

// Whether an object with another head has the same status and body, and the digest that a new one has.
fn keeps_body<R: Abort>(rt: &R, alloc: Global, count: usize) -> bool {
    let object = long_object(rt, alloc, count);
    let other = object
        .with_head(alloc, Vec::new(alloc), 6, 7)
        .expect(rt, NO_MEMORY);
    let found = [
        other.body() == object.body(),
        other.digest() == new_digest(rt, alloc, object.body()),
        other.life() == 7,
    ];
    drop(other);
    drop(object);
    first_false(&found).is_none()
}

#[test]
fn another_head_leaves_the_body(rt: HostRuntime) {
    assert!(rt; keeps_body(&rt, rt.alloc(), 131_072));
    assert!(rt; keeps_body(&rt, rt.alloc(), 3));
}
