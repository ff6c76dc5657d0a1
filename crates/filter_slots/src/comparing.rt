//! Equality of datagrams.

ghost use Rattle.std.specs.Prelude.{◌≡◌, ◌↔◌, IsTrue};

use crate::Datagram;

/// Whether two datagrams are equal in socket, both ends and payload.
pub fn same_datagram(a: &Datagram, b: &Datagram) -> bool
    ensures { IsTrue result ↔ (a.now ≡ b.now) }
{
    a.socket() == b.socket()
        && a.from() == b.from()
        && a.to() == b.to()
        && a.payload() == b.payload()
}
