//! Byte orders, and the numbers of a file.

ghost use Rattle.std.specs.Prelude.{◌≡◌, ◌+◌, ◌≤◌, length};
ghost use Rattle.capture.specs.Fields.{half, pair, word};

use byteorder::{BigEndian, ByteOrder, LittleEndian};

/// The byte order of the machine that wrote a capture file.
#[derive(Clone, Copy, PartialEq, Eq)]
pub enum Order {
    /// The highest octet first.
    Big,
    /// The lowest octet first.
    Little,
}

/// The two octets from place `at`, in network order.
pub(crate) fn pair(octets: &[u8], at: usize) -> u16
    requires { at + 2 ≤ length octets.now }
    ensures { result ≡ pair octets.now at }
{
    BigEndian::read_u16(&octets[at..])
}

/// The four octets from place `at`, in the byte order of the file.
pub(crate) fn word(order: Order, octets: &[u8], at: usize) -> u32
    requires { at + 4 ≤ length octets.now }
    ensures { result ≡ word order octets.now at }
{
    match order {
        Order::Big => BigEndian::read_u32(&octets[at..]),
        Order::Little => LittleEndian::read_u32(&octets[at..]),
    }
}

/// The two octets from place `at`, in the byte order of the file.
pub(crate) fn half(order: Order, octets: &[u8], at: usize) -> u16
    requires { at + 2 ≤ length octets.now }
    ensures { result ≡ half order octets.now at }
{
    match order {
        Order::Big => BigEndian::read_u16(&octets[at..]),
        Order::Little => LittleEndian::read_u16(&octets[at..]),
    }
}
