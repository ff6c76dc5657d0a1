//! Link types: which octets of a frame are a packet of the Internet Protocol.

ghost use Rattle.std.specs.Prelude.{◌≡◌, ◌+◌, ◌≤◌, length, Some, None, MatchOption};
ghost use Rattle.capture.specs.Link.{link_of, untagged, is_tag, tagged_once, by_type, behind_type, is_family, behind_family, packet_in};

use crate::order::pair;
use byteorder::{BigEndian, ByteOrder, LittleEndian};

/// The link types that are read, as tcpdump.org numbers them.
#[derive(Clone, Copy, PartialEq, Eq)]
pub enum Link {
    /// IP packets with no header before them (12, 14, 101), or IPv4 packets (228).
    Raw,
    /// Ethernet frames (1), with up to two VLAN tags.
    Ethernet,
    /// Linux "cooked" frames (113).
    Cooked,
    /// Linux "cooked" frames of the second version (276).
    CookedTwo,
    /// BSD loopback frames in the byte order of the machine (0).
    Null,
    /// OpenBSD loopback frames (108).
    Loop,
}

impl Link {
    /// The link type with this number, or `None` if it is not one that is read.
    pub fn of(number: u32) -> Option<Link>
        ensures { result ≡ link_of number }
    {
        match number {
            0 => Some(Link::Null),
            1 => Some(Link::Ethernet),
            12 | 14 | 101 | 228 => Some(Link::Raw),
            108 => Some(Link::Loop),
            113 => Some(Link::Cooked),
            276 => Some(Link::CookedTwo),
            _ => None,
        }
    }
}

/// The packet in a frame, or `None` if the frame is too short for its header or carries something else than IPv4.
pub fn packet_in(link: Link, frame: &[u8]) -> Option<&[u8]>
    ensures { MatchOption result (packet_in link frame.now ≡ None) (λ packet. packet_in link frame.now ≡ Some packet.now) }
{
    match link {
        Link::Raw => Some(frame),
        Link::Ethernet => behind_type(14, 12, frame),
        Link::Cooked => behind_type(16, 14, frame),
        Link::CookedTwo => behind_type(20, 0, frame),
        Link::Null => behind_family(Link::Null, frame),
        Link::Loop => behind_family(Link::Loop, frame),
    }
}

// The packet behind a header of `header` octets with a type of Ethernet's list at the place `at`.
fn behind_type(header: usize, at: usize, frame: &[u8]) -> Option<&[u8]>
    requires { at + 2 ≤ header }
    ensures { MatchOption result (behind_type header at frame.now ≡ None) (λ packet. behind_type header at frame.now ≡ Some packet.now) }
{
    if frame.len() < header {
        return None;
    }
    by_type(pair(frame, at), &frame[header..])
}

// The packet behind a type and two tags at most.
fn by_type(kind: u16, rest: &[u8]) -> Option<&[u8]>
    ensures { MatchOption result (by_type kind rest.now ≡ None) (λ packet. by_type kind rest.now ≡ Some packet.now) }
{
    if is_tag(kind) && rest.len() >= 4 {
        return tagged_once(pair(rest, 2), &rest[4..]);
    }
    tagged_once(kind, rest)
}

// The packet behind a type and one tag at most.
fn tagged_once(kind: u16, rest: &[u8]) -> Option<&[u8]>
    ensures { MatchOption result (tagged_once kind rest.now ≡ None) (λ packet. tagged_once kind rest.now ≡ Some packet.now) }
{
    if is_tag(kind) && rest.len() >= 4 {
        return untagged(pair(rest, 2), &rest[4..]);
    }
    untagged(kind, rest)
}

// The packet behind a type.
fn untagged(kind: u16, rest: &[u8]) -> Option<&[u8]>
    ensures { MatchOption result (untagged kind rest.now ≡ None) (λ packet. untagged kind rest.now ≡ Some packet.now) }
{
    if kind == 0x0800 { Some(rest) } else { None }
}

// Whether a tag and a further type follow this type.
fn is_tag(kind: u16) -> bool
    ensures { result ≡ is_tag kind }
{
    kind == 0x8100 || kind == 0x88a8 || kind == 0x9100
}

// The packet behind an address family.
fn behind_family(link: Link, frame: &[u8]) -> Option<&[u8]>
    ensures { MatchOption result (behind_family link frame.now ≡ None) (λ packet. behind_family link frame.now ≡ Some packet.now) }
{
    if frame.len() < 4 || !is_family(link, frame) {
        return None;
    }
    Some(&frame[4..])
}

// Whether the frame begins with the address family of IPv4.
fn is_family(link: Link, frame: &[u8]) -> bool
    requires { 4 ≤ length frame.now }
    ensures { result ≡ is_family link frame.now }
{
    match link {
        Link::Null => BigEndian::read_u32(frame) == 2 || LittleEndian::read_u32(frame) == 2,
        _ => BigEndian::read_u32(frame) == 2,
    }
}
