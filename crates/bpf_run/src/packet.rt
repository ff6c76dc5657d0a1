//! The packet that a filter sees of a datagram.

ghost use Rattle.std.specs.Prelude.{◌≡◌, ◌<◌, ◌≤◌, ◌+◌, ◌↔◌, ◌^◌, length, Some, IsSome, IfSome, slice_get};
ghost use Rattle.bpf_run.specs.Machine.{loaded};
ghost use Rattle.bpf_run.specs.Packet.{filter_packet, header_of, header_octets, most_payload};

use crate::ends::End;
use bpf_check::operation::Width;
use std::marker::Model;

/// Maximum payload in octets: what a UDP datagram over IPv4 can carry.
pub const MOST_PAYLOAD: usize = 65_507;

/// Number of octets of the header before the payload.
pub const HEADER: usize = 28;

/// A packet for filters: 28 header octets, made from the endpoints and the length, followed by the borrowed payload.
/// Contracts see the list of its octets.
#[derive(Drop)]
pub struct Packet<'a> {
    header: [u8; HEADER],
    payload: &'a [u8],
    // The number of payload offsets at which two octets can be read, and four.
    halves: u64,
    words: u64,
}

impl<'a> Model for Packet<'a> {
    ghost use Rattle.std.specs.Prelude.{List, ℕ, ◌≡◌, ◌≤◌, ◌-◌, ◌++◌, length};
    ghost use Rattle.bpf_run.specs.Packet.{most_payload};

    ghost Value = { List ℕ };

    ghost view = { λ p. p.header ++ p.payload.now };

    ghost invariant = { λ p. (length p.payload.now ≤ most_payload) × (p.halves ≡ length p.payload.now - 1) × (p.words ≡ length p.payload.now - 3) };
}

impl<'a> Packet<'a> {
    /// The packet of a datagram, or `None` if its payload has more than 65,507 octets.
    #[inline(always)]
    pub fn new(from: End, to: End, payload: &'a [u8]) -> Option<Packet<'a>>
        ensures exists { IsSome result ↔ (length payload.now ≤ most_payload) }
        ensures value { IfSome result (λ packet. packet ≡ filter_packet from to payload.now) }
    {
        if payload.len() > MOST_PAYLOAD {
            return None;
        }
        Some(Packet {
            header: header(from, to, payload.len() as u16),
            payload,
            halves: payload.len().saturating_sub(1) as u64,
            words: payload.len().saturating_sub(3) as u64,
        })
    }

    /// The number of octets, including the header.
    #[inline(always)]
    pub(crate) fn len(&self) -> u32
        ensures { result ≡ length self.now }
    {
        (HEADER + self.payload.len()) as u32
    }

    /// The octet at an offset, or `None` if it is outside the packet.
    #[inline(always)]
    pub(crate) fn octet(&self, place: u64) -> Option<u8>
        ensures { result ≡ slice_get self.now place }
    {
        let at = in_payload(place);
        if at < self.payload.len() as u64 {
            return Some(self.payload[at as usize]);
        }
        if place < HEADER as u64 {
            return Some(self.header[place as usize]);
        }
        None
    }

    /// The value of two octets in network order, or `None` if one of them is outside the packet.
    #[inline(always)]
    pub(crate) fn half(&self, place: u64) -> Option<u32>
        requires { place < 2 ^ 34 }
        ensures { result ≡ loaded Width.Half self.now place }
    {
        let at = in_payload(place);
        if at < self.halves {
            return Some(half_at(self.payload, at as usize));
        }
        if place < HEADER as u64 - 1 {
            return Some(half_at(&self.header, place as usize));
        }
        self.split_half(place)
    }

    /// The value of four octets in network order, or `None` if one of them is outside the packet.
    #[inline(always)]
    pub(crate) fn word(&self, place: u64) -> Option<u32>
        requires { place < 2 ^ 34 }
        ensures { result ≡ loaded Width.Word self.now place }
    {
        let at = in_payload(place);
        if at < self.words {
            return Some(word_at(self.payload, at as usize));
        }
        if place < HEADER as u64 - 3 {
            return Some(word_at(&self.header, place as usize));
        }
        self.split_word(place)
    }

    // The slow path of `half`: the octets may straddle the end of the header, or be outside the packet.
    #[inline(always)]
    fn split_half(&self, place: u64) -> Option<u32>
        requires { place < 2 ^ 35 }
        ensures value { result ≡ loaded Width.Half self.now place }
        ensures small { IfSome result (λ value. value < 65536) }
    {
        let low = self.octet(place + 1)?;
        let high = self.octet(place)?;
        Some(high as u32 * 256 + low as u32)
    }

    // The slow path of `word`: the octets may straddle the end of the header, or be outside the packet.
    #[inline(always)]
    fn split_word(&self, place: u64) -> Option<u32>
        requires { place < 2 ^ 34 }
        ensures { result ≡ loaded Width.Word self.now place }
    {
        let low = self.split_half(place + 2)?;
        let high = self.split_half(place)?;
        Some(high * 65_536 + low)
    }
}

// The payload offset of a packet offset. For an offset in the header it is larger than any payload.
#[inline(always)]
fn in_payload(place: u64) -> u64
    ensures header { place < header_octets → 2 ^ 40 < result }
    ensures payload { header_octets ≤ place → place ≡ header_octets + result }
{
    place.wrapping_sub(HEADER as u64)
}

// The value of two octets in network order.
#[inline(always)]
fn half_at(octets: &[u8], at: usize) -> u32
    requires { at + 1 < length octets.now }
    ensures { loaded Width.Half octets.now at ≡ Some result }
{
    octets[at] as u32 * 256 + octets[at + 1] as u32
}

// The value of four octets in network order.
#[inline(always)]
fn word_at(octets: &[u8], at: usize) -> u32
    requires { at + 3 < length octets.now }
    ensures { loaded Width.Word octets.now at ≡ Some result }
{
    u32::from_be_bytes([octets[at], octets[at + 1], octets[at + 2], octets[at + 3]])
}

// The header of a payload of `payload` octets.
#[inline(always)]
fn header(from: End, to: End, payload: u16) -> [u8; HEADER]
    requires { payload ≤ most_payload }
    ensures { result ≡ header_of from to payload }
{
    let total = (HEADER as u16 + payload).to_be_bytes();
    let udp = (8 + payload).to_be_bytes();
    let source = from.port.to_be_bytes();
    let target = to.port.to_be_bytes();
    [
        0x45,
        0,
        total[0],
        total[1],
        0,
        0,
        0,
        0,
        64,
        17,
        0,
        0,
        from.addr[0],
        from.addr[1],
        from.addr[2],
        from.addr[3],
        to.addr[0],
        to.addr[1],
        to.addr[2],
        to.addr[3],
        source[0],
        source[1],
        target[0],
        target[1],
        udp[0],
        udp[1],
        0,
        0,
    ]
}
