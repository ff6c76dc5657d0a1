//! The UDP datagram in a frame.

ghost use Rattle.std.specs.Prelude.{◌≡◌, ◌+◌, ◌≤◌, length, take, Some, None, IsTrue, MatchOption};
ghost use Rattle.capture.specs.Udp.{carries_udp, carried, is_udp, datagram_of, udp_of, udp_in, udp_at, header_length};
ghost use Rattle.capture.specs.View.{shown};

use crate::link::{Link, packet_in};
use crate::order::pair;
use bpf_run::End;

/// A UDP datagram in a captured frame; the payload is borrowed from it.
#[derive(Clone, Copy)]
pub struct UdpView<'a> {
    /// Source address and port.
    pub from: End,
    /// Destination address and port.
    pub to: End,
    /// The captured octets of the payload, as far as the frame has them.
    pub payload: &'a [u8],
    /// Whether these are all octets of the payload: the frame was neither cut short nor the first of several fragments.
    pub whole: bool,
}

/// The UDP datagram in a frame, or `None` if there is none: another protocol, a fragment that is not the first, or a header that
/// is not whole or cannot be.
pub fn udp_in(link: Link, frame: &[u8]) -> Option<UdpView<'_>>
    ensures { MatchOption result (udp_in link frame.now ≡ None) (λ udp. udp_in link frame.now ≡ Some (shown udp)) }
{
    let packet = packet_in(link, frame)?;
    udp_of(packet)
}

/// The same of a frame whose link type may be one that is not read; it holds none then.
pub fn udp_at(link: Option<Link>, frame: &[u8]) -> Option<UdpView<'_>>
    ensures { MatchOption result (udp_at link frame.now ≡ None) (λ udp. udp_at link frame.now ≡ Some (shown udp)) }
{
    match link {
        Some(link) => udp_in(link, frame),
        None => None,
    }
}

// The datagram in a packet.
fn udp_of(packet: &[u8]) -> Option<UdpView<'_>>
    ensures { MatchOption result (udp_of packet.now ≡ None) (λ udp. udp_of packet.now ≡ Some (shown udp)) }
{
    if !carries_udp(packet) {
        return None;
    }
    let segment = carried(packet);
    if !is_udp(segment) {
        return None;
    }
    Some(datagram_of(packet, segment))
}

// Whether it is a packet of version 4 with a whole header, of UDP, that is not a later fragment.
fn carries_udp(packet: &[u8]) -> bool
    ensures value { result ≡ carries_udp packet.now }
    ensures long { IsTrue result → 20 ≤ length packet.now }
{
    packet.len() >= 20
        && packet[0] / 16 == 4
        && header_length(packet) >= 20
        && header_length(packet) <= pair(packet, 2) as usize
        && header_length(packet) <= packet.len()
        && packet[9] == 17
        && pair(packet, 6) % 8192 == 0
}

// The length of the header in octets.
fn header_length(packet: &[u8]) -> usize
    requires { 20 ≤ length packet.now }
    ensures { result ≡ header_length packet.now }
{
    4 * (packet[0] % 16) as usize
}

// What a packet of UDP carries.
fn carried(packet: &[u8]) -> &[u8]
    requires { IsTrue (carries_udp packet.now) }
    ensures { result.now ≡ carried packet.now }
{
    let header = header_length(packet);
    front(&packet[header..], pair(packet, 2) as usize - header)
}

// Whether the octets begin with a UDP header whose length can be.
fn is_udp(segment: &[u8]) -> bool
    ensures { result ≡ is_udp segment.now }
{
    segment.len() >= 8 && pair(segment, 4) >= 8
}

// The first `most` octets, or all if there are fewer.
fn front(octets: &[u8], most: usize) -> &[u8]
    ensures { result.now ≡ take most octets.now }
{
    if most < octets.len() {
        &octets[..most]
    } else {
        octets
    }
}

// The datagram of a packet that carries this UDP segment.
fn datagram_of<'a>(packet: &'a [u8], segment: &'a [u8]) -> UdpView<'a>
    requires packet { 20 ≤ length packet.now }
    requires segment { IsTrue (is_udp segment.now) }
    ensures { shown result ≡ datagram_of packet.now segment.now }
{
    let length = pair(segment, 4) as usize;
    UdpView {
        from: End {
            addr: [packet[12], packet[13], packet[14], packet[15]],
            port: pair(segment, 0),
        },
        to: End {
            addr: [packet[16], packet[17], packet[18], packet[19]],
            port: pair(segment, 2),
        },
        payload: front(&segment[8..], length - 8),
        whole: length <= segment.len(),
    }
}
