//! Shelves: what is found there, what makes room, and what is too large (object_shelf).

use crate::made::{NO_MEMORY, octets, repeated};
use crate::rows::{Question, all_hold};
use bpf_run::Moment;
use object_shelf::Shelf;
use object_store::{CacheKey, Object, SharedObject};
use std::alloc::Global;
use std::process::Abort;

fn key_of<R: Abort>(rt: &R, alloc: Global, text: &str) -> CacheKey {
    let octets = octets(rt, alloc, text.as_bytes());
    CacheKey::new(alloc, octets).ok().expect(rt, "a key")
}

/// An object with a body of `body` octets and no head, that may not be stored.
fn object_of<R: Abort>(rt: &R, alloc: Global, status: u16, body: usize) -> SharedObject {
    let body = repeated(rt, alloc, 7, body);
    let object = Object::new(status, Vec::new(alloc), body, 0, 0);
    SharedObject::new(alloc, object).expect(rt, NO_MEMORY)
}

/// Puts an object with this status and a body of `body` octets under a key, at the millisecond that is its status. Returns whether it
/// fits.
fn put<R: Abort>(
    rt: &R,
    alloc: Global,
    shelf: &mut Shelf,
    text: &str,
    status: u16,
    body: usize,
) -> bool {
    let object = object_of(rt, alloc, status, body);
    let at = Moment::new(u64::from(status)).expect(rt, "a moment");
    shelf.put(key_of(rt, alloc, text), object, at).is_ok()
}

/// The status of the object of a key, which is also when it was put there.
fn status(shelf: &Shelf, text: &str) -> Option<u16> {
    let entry = shelf.get(text.as_bytes())?;
    let status = entry.object.get().status();
    if entry.at.millis() == u64::from(status) {
        Some(status)
    } else {
        None
    }
}

/// What is done to a shelf, or asked of it.
enum Step {
    /// An object of this status with a body of so many octets is put there under a key, and whether it fits.
    Put(&'static str, u16, usize, bool),
    Remove(&'static str),
    /// The status of what is there under a key.
    Finds(&'static str, Option<u16>),
    /// How many objects and octets there are.
    Has(usize, u64),
}

/// Takes one step. Returns whether the shelf answers as it says.
fn takes<R: Abort>(rt: &R, alloc: Global, shelf: &mut Shelf, step: &Step) -> bool {
    match step {
        Step::Put(text, code, body, fits) => put(rt, alloc, shelf, *text, *code, *body) == *fits,
        Step::Remove(text) => {
            shelf.remove(text.as_bytes());
            true
        }
        Step::Finds(text, found) => status(shelf, *text) == *found,
        Step::Has(count, octets) => shelf.len() == *count && shelf.octets() == *octets,
    }
}

/// The place of the first step at which the shelf answers otherwise.
fn first_wrong<R: Abort>(
    rt: &R,
    alloc: Global,
    shelf: &mut Shelf,
    steps: &[Step],
) -> Option<usize> {
    for (place, step) in steps.iter().enumerate() {
        if !takes(rt, alloc, shelf, step) {
            return Some(place);
        }
    }
    None
}

/// The same for a new shelf of three entries and 100 octets.
fn first_wrong_of_new<R: Abort>(rt: &R, alloc: Global, steps: &[Step]) -> Option<usize> {
    let mut shelf = Shelf::new(alloc, 3, 100).ok().expect(rt, "a shelf");
    let wrong = first_wrong(rt, alloc, &mut shelf, steps);
    drop(shelf);
    wrong
}

const NEWEST_STAY: [Step; 19] = [
    Step::Put("http://a/1", 201, 5, true),
    Step::Put("http://a/2", 202, 5, true),
    Step::Put("http://a/3", 203, 5, true),
    Step::Put("http://a/1", 211, 5, true),
    Step::Has(3, 45),
    // The fourth makes the one go that was put there first.
    Step::Put("http://a/4", 204, 5, true),
    Step::Finds("http://a/1", Some(211)),
    Step::Finds("http://a/2", None),
    Step::Finds("http://a/3", Some(203)),
    // 80 octets and the newest other one fit into 100, but no two others.
    Step::Put("http://a/5", 205, 70, true),
    Step::Has(2, 95),
    Step::Finds("http://a/4", Some(204)),
    // What is too large changes nothing.
    Step::Put("http://a/6", 206, 91, false),
    Step::Has(2, 95),
    Step::Remove("http://a/4"),
    Step::Remove("http://a/9"),
    Step::Finds("http://a/4", None),
    Step::Finds("http://a/5", Some(205)),
    Step::Has(1, 80),
];

#[test]
fn newest_stay(rt: HostRuntime) {
    assert!(rt; first_wrong_of_new(&rt, rt.alloc(), &NEWEST_STAY) == None);
}

/// When something is said to have been put on the shelf in millisecond 0.
fn put_at_first<R: Abort>(rt: &R, alloc: Global, shelf: &mut Shelf) -> Option<u64> {
    let object = object_of(rt, alloc, 200, 5);
    let at = Moment::new(0).expect(rt, "a moment");
    if shelf
        .put(key_of(rt, alloc, "http://a/1"), object, at)
        .is_err()
    {
        return None;
    }
    let entry = shelf.get(b"http://a/1")?;
    Some(entry.at.millis())
}

#[test]
fn first_millisecond(rt: HostRuntime) {
    let mut shelf = Shelf::new(rt.alloc(), 3, 100).ok().expect(&rt, "a shelf");
    let at = put_at_first(&rt, rt.alloc(), &mut shelf);
    drop(shelf);
    assert!(rt; at == Some(1));
}

/// A number of entries and of octets, and whether a shelf can have them.
const LIMITS: [(u32, u32, bool); 5] = [
    (0, 1, false),
    (1, 0, false),
    (1_000_001, 1, false),
    (1, 1_073_741_825, false),
    (1, 1, true),
];

struct CanBe;

impl Question<(u32, u32, bool)> for CanBe {
    fn holds<R: Abort>(&self, _rt: &R, alloc: Global, row: &(u32, u32, bool)) -> bool {
        Shelf::new(alloc, row.0, row.1).is_ok() == row.2
    }
}

#[test]
fn limits_of_a_shelf(rt: HostRuntime) {
    all_hold(&rt, rt.alloc(), &LIMITS, &CanBe);
}
