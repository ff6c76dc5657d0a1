//! Reads big-endian numbers from the front of slices.

ghost use Rattle.std.specs.Prelude.{◌≡◌, ◌<◌, ◌≤◌, ◌++◌, length, drop, MatchOption, IfSome};
ghost use Rattle.byteorder.specs.Endian.{big_bytes, big_number};
ghost use Rattle.wire_octets.specs.Octets.{IsInFront};

use byteorder::{BigEndian, ByteOrder};

/// The number in the first two octets, and the octets after them, or `None` if there are fewer than two.
#[inline]
pub fn split_u16(octets: &[u8]) -> Option<(u16, &[u8])>
    ensures { MatchOption result (length octets.now < 2) (λ x. IsInFront 2 octets.now x.0 x.1.now) }
{
    if octets.len() < 2 {
        return None;
    }
    let (front, rest) = octets.split_at(2);
    Some((BigEndian::read_u16(front), rest))
}

/// The number in the first four octets, and the octets after them, or `None` if there are fewer than four.
#[inline]
pub fn split_u32(octets: &[u8]) -> Option<(u32, &[u8])>
    ensures { MatchOption result (length octets.now < 4) (λ x. IsInFront 4 octets.now x.0 x.1.now) }
{
    if octets.len() < 4 {
        return None;
    }
    let (front, rest) = octets.split_at(4);
    Some((BigEndian::read_u32(front), rest))
}
