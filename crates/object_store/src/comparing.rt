//! Equality of objects.

ghost use Rattle.std.specs.Prelude.{◌≡◌, ◌↔◌, IsTrue};
ghost use Rattle.object_store.specs.Object.{head_of};

use crate::Object;

/// Whether two objects are equal in status, head, body, age and life.
pub fn same_object(a: &Object, b: &Object) -> bool
    ensures { IsTrue result ↔ (a.now ≡ b.now) }
{
    a.digest() == b.digest()
        && a.status() == b.status()
        && a.age() == b.age()
        && a.life() == b.life()
        && a.body() == b.body()
        && same_head(a.head(), b.head())
}

// Whether two heads have equal fields in the same order.
fn same_head(a: &[(Vec<u8>, Vec<u8>)], b: &[(Vec<u8>, Vec<u8>)]) -> bool
    ensures { IsTrue result ↔ (head_of a.now ≡ head_of b.now) }
{
    a == b
}
