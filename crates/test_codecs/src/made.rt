//! What tests are made from. Where a value cannot be made the test ends there, so that neither these functions nor those that call
//! them have a way out that drops what they hold (docs/GATE.md).

use std::alloc::Global;
use std::process::Abort;
use std::sync::Arc;

/// What a test says that gets no memory.
pub(crate) const NO_MEMORY: &str = "no memory";

/// These octets.
pub(crate) fn octets<R: Abort>(rt: &R, alloc: Global, octets: &[u8]) -> Vec<u8> {
    octets.to_vec(alloc).expect(rt, NO_MEMORY)
}

/// So many times this octet.
pub(crate) fn repeated<R: Abort>(rt: &R, alloc: Global, octet: u8, count: usize) -> Vec<u8> {
    vec![in alloc; octet; count].expect(rt, NO_MEMORY)
}

/// Adds to a list.
pub(crate) fn add<R: Abort, T: Drop>(rt: &R, list: &mut Vec<T>, one: T) {
    list.push(one).ok().expect(rt, NO_MEMORY);
}

/// A first reference to a value.
pub(crate) fn shared<R: Abort, T: Drop>(rt: &R, alloc: Global, value: T) -> Arc<T> {
    Arc::new(alloc, value).ok().expect(rt, NO_MEMORY)
}
