//! The object store of the cache: an LRU map from URL to object, limited in entries and in octets.
//!
//! `Store` is seen by contracts as its limits and its list of pairs, the most recently used first (`specs/Store.antt`).
//! Contracts state the result and the next state of each call, when an entry is fresh, and which pairs an insertion evicts
//! (`specs/Pairs.antt`). An object carries an MD5 digest of its fields (`specs/Object.antt`).
//! Tested by: src/store/tests.rt, must-fail edits.
#![tactic(auto)]

mod comparing;
mod digest;
mod entry;
mod faults;
mod hashing;
mod key;
mod laws;
mod object;
mod pairs;
#[cfg(test)]
mod plain;
mod store;

pub use comparing::same_object;
pub use entry::Entry;
pub use faults::{PutFault, StoreFault};
pub use hashing::KeyHashes;
pub use key::{CacheKey, KeyFault, KeyOctets, MOST_KEY_OCTETS};
pub use laws::cut_is_the_longest_front;
pub use object::{Object, SharedObject};
pub use std::alloc::AllocError as NoMemory;
pub use store::{MOST_ENTRIES, MOST_OCTETS, Store};
