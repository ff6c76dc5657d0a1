//! Store entries.

ghost use Rattle.std.specs.Prelude.{◌≡◌, ◌+◌, ◌-◌, ◌^◌, IfOk, length, min, sum_by};
ghost use Rattle.object_store.specs.Object.{head_of};
ghost use Rattle.object_store.specs.Pairs.{is_fresh, octets_in};

use crate::object::SharedObject;
use node_terms::Moment;
use std::alloc::AllocError;

/// An object and the time at which it was stored.
#[derive(Drop)]
pub struct Entry {
    pub object: SharedObject,
    pub at: Moment,
}

impl Entry {
    /// Another reference to the entry's object. Allocates nothing. Errors: the reference count would overflow.
    pub fn share(&self) -> Result<Entry, AllocError>
        ensures { IfOk result (λ entry. entry ≡ self.now) }
    {
        let object = self.object.share()?;
        Ok(Entry {
            object,
            at: self.at,
        })
    }

    /// Whether the entry is fresh: `now` is earlier than `at` plus the life of the object, which is in seconds.
    pub fn is_fresh(&self, now: Moment) -> bool
        ensures { result ≡ is_fresh now self.now }
    {
        now.millis() < self.at.millis() + 1000 * u64::from(self.object.get().life())
    }
}

// Size of an entry in octets: key, names and values of the head, and body. Saturates at the maximum of `u64`.
pub(crate) fn size(key_octets: usize, entry: &Entry) -> u64
    ensures { result ≡ min (key_octets + octets_in entry.now) (2 ^ 64 - 1) }
{
    let object = entry.object.get();
    let head = head_octets(object.head());
    (key_octets as u64)
        .saturating_add(head)
        .saturating_add(object.body().len() as u64)
}

// Octets in the names and values of a head. Saturates at the maximum of `u64`.
fn head_octets(head: &[(Vec<u8>, Vec<u8>)]) -> u64
    ensures { result ≡ min (sum_by (λ field. length field.0 + length field.1) (head_of head.now)) (2 ^ 64 - 1) }
{
    let mut octets = 0u64;
    for field in head {
        octets = octets
            .saturating_add(field.0.len() as u64)
            .saturating_add(field.1.len() as u64);
    }
    octets
}
