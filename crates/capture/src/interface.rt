//! The interfaces of a section of a pcapng file.

ghost use Rattle.std.specs.Prelude.{◌≡◌, ◌+◌, ◌≤◌, length, drop, IsTrue};
ghost use Rattle.capture.specs.Interface.{behind_option, has_option, interface_of, long, options_in, value_of, with_option, with_options, without_options};

use crate::link::Link;
use crate::order::{Order, half, word};
use byteorder::{BigEndian, ByteOrder, LittleEndian};

/// What a pcapng file says of an interface: of the packets that were captured at it.
#[derive(Clone, Copy)]
pub struct Interface {
    /// The link type of its packets, or `None` if it is not one that is read.
    pub link: Option<Link>,
    /// The most octets that were captured of a packet; 0 if there is no such limit.
    pub snap: u32,
    /// The parts of a second that its moments count: 10 to this power, or with the highest bit 2 to the power of the rest.
    pub resolution: u8,
    /// Seconds that are added to its moments, in two's complement.
    pub offset: u64,
}

/// What an interface description block says.
pub(crate) fn interface_of(order: Order, block: &[u8]) -> Interface
    requires { 20 ≤ length block.now }
    ensures { result ≡ interface_of order block.now }
{
    with_options(order, without_options(order, block), options_in(block))
}

// What the block's fields say.
fn without_options(order: Order, block: &[u8]) -> Interface
    requires { 20 ≤ length block.now }
    ensures { result ≡ without_options order block.now }
{
    Interface {
        link: Link::of(u32::from(half(order, block, 8))),
        snap: word(order, block, 12),
        resolution: 6,
        offset: 0,
    }
}

// The octets of the block's options.
fn options_in(block: &[u8]) -> &[u8]
    requires { 20 ≤ length block.now }
    ensures { result.now ≡ options_in block.now }
{
    let before_end = &block[..block.len() - 4];
    behind(before_end, 16)
}

// What an interface's options say, one after the other.
fn with_options(order: Order, said: Interface, options: &[u8]) -> Interface
    ensures { result ≡ with_options order (length options.now) said options.now }
{
    let mut interface = said;
    let mut rest = options;
    'options: for _ in 0..options.len() {
        if !has_option(order, rest) {
            return interface;
        }
        let code = half(order, rest, 0);
        interface = interface.with_option(order, code, value_of(order, rest));
        rest = behind_option(order, rest);
    }
    interface
}

impl Interface {
    // What an option says; one that is not known says nothing.
    fn with_option(self, order: Order, code: u16, value: &[u8]) -> Interface
        ensures { result ≡ with_option order code value.now self }
    {
        if code == 9 && value.len() == 1 {
            return Interface {
                resolution: value[0],
                ..self
            };
        }
        if code == 14 && value.len() == 8 {
            return Interface {
                offset: long(order, value),
                ..self
            };
        }
        self
    }
}

// Whether the octets begin with a whole option that is not the end of the options.
fn has_option(order: Order, octets: &[u8]) -> bool
    ensures value { result ≡ has_option order octets.now }
    ensures long { IsTrue result → 4 ≤ length octets.now }
{
    octets.len() >= 4
        && half(order, octets, 0) != 0
        && 4 + half(order, octets, 2) as usize <= octets.len()
}

// The value of the option in front.
fn value_of(order: Order, octets: &[u8]) -> &[u8]
    requires { IsTrue (has_option order octets.now) }
    ensures { result.now ≡ value_of order octets.now }
{
    let behind_front = &octets[4..];
    &behind_front[..half(order, octets, 2) as usize]
}

// What follows the option in front.
fn behind_option(order: Order, octets: &[u8]) -> &[u8]
    requires { IsTrue (has_option order octets.now) }
    ensures { result.now ≡ behind_option order octets.now }
{
    let value = half(order, octets, 2) as usize;
    behind(octets, 4 + value + (4 - value % 4) % 4)
}

// What is left behind so many octets.
fn behind(octets: &[u8], count: usize) -> &[u8]
    ensures { result.now ≡ drop count octets.now }
{
    if count < octets.len() {
        &octets[count..]
    } else {
        &octets[octets.len()..]
    }
}

// The number that eight octets are.
fn long(order: Order, octets: &[u8]) -> u64
    requires { 8 ≤ length octets.now }
    ensures { result ≡ long order octets.now }
{
    match order {
        Order::Big => BigEndian::read_u64(octets),
        Order::Little => LittleEndian::read_u64(octets),
    }
}
