//! Received datagrams.

ghost use Rattle.std.specs.Prelude.{◌≡◌, ◌≤◌, ◌↔◌, length, IsOk, IfOk, IfErr};
ghost use Rattle.bpf_run.specs.Packet.{filter_packet, most_payload};
ghost use Rattle.filter_slots.specs.Cut.{cut_of};
ghost use Rattle.filter_slots.specs.Datagram.{ends_of};

use crate::cutting::cut;
use bpf_run::packet::MOST_PAYLOAD;
use bpf_run::{End, Packet, Socket};
use std::marker::Model;

/// A received UDP datagram: the socket that received it, source and destination, and a payload of at most 65,507 octets.
/// Contracts see a record of these.
#[derive(Drop)]
pub struct Datagram {
    socket: Socket,
    from: End,
    to: End,
    payload: Vec<u8>,
}

impl Model for Datagram {
    ghost use Rattle.std.specs.Prelude.{◌≤◌, length};
    ghost use Rattle.bpf_run.specs.Packet.{most_payload};
    ghost use Rattle.filter_slots.specs.Datagram.{DatagramFields};

    ghost Value = { DatagramFields };

    ghost view = { λ d. record { socket = d.socket; from = d.from; to = d.to; payload = d.payload.items } };

    ghost invariant = { λ d. length d.payload.items ≤ most_payload };
}

impl Datagram {
    /// Makes a datagram. Errors: returns the payload if it is longer than 65,507 octets.
    pub fn new(socket: Socket, from: End, to: End, payload: Vec<u8>) -> Result<Datagram, Vec<u8>>
        ensures accepts { IsOk result ↔ (length payload.items ≤ most_payload) }
        ensures value { IfOk result (λ datagram. datagram ≡ record { socket = socket; from = from; to = to; payload = payload.items }) }
        ensures back { IfErr result (λ refused. refused ≡ payload) }
    {
        if payload.len() > MOST_PAYLOAD {
            return Err(payload);
        }
        Ok(Datagram {
            socket,
            from,
            to,
            payload,
        })
    }

    /// The socket that received it.
    #[inline(always)]
    pub fn socket(&self) -> Socket
        ensures { result ≡ self.now.socket }
    {
        self.socket
    }

    /// Source address and port.
    #[inline(always)]
    pub fn from(&self) -> End
        ensures { result ≡ self.now.from }
    {
        self.from
    }

    /// Destination address and port.
    #[inline(always)]
    pub fn to(&self) -> End
        ensures { result ≡ self.now.to }
    {
        self.to
    }

    /// The payload, at most 65,507 octets.
    #[inline(always)]
    pub fn payload(&self) -> &[u8]
        ensures same { result.now ≡ self.now.payload }
        ensures within { length self.now.payload ≤ most_payload }
    {
        &self.payload
    }

    /// Source address, source port, destination address and destination port, in network byte order.
    pub fn ends(&self) -> [u8; 12]
        ensures { result ≡ ends_of self.now.from self.now.to }
    {
        both_ends(self.from, self.to)
    }

    /// The packet as a filter sees it.
    #[inline(always)]
    pub fn packet(&self) -> Packet<'_>
        ensures { result ≡ filter_packet self.now.from self.now.to self.now.payload }
    {
        match Packet::new(self.from, self.to, &self.payload) {
            Some(packet) => packet,
            None => unreachable!(),
        }
    }

    /// The packet as a filter sees it, its payload truncated as by `cut`.
    #[inline(always)]
    pub(crate) fn packet_cut(&self, value: u32) -> Packet<'_>
        ensures { result ≡ filter_packet self.now.from self.now.to (cut_of self.now.payload value) }
    {
        match Packet::new(self.from, self.to, cut(self, value)) {
            Some(packet) => packet,
            None => unreachable!(),
        }
    }
}

/// Source address, source port, destination address and destination port, in network byte order.
pub fn both_ends(from: End, to: End) -> [u8; 12]
    ensures { result ≡ ends_of from to }
{
    let source = from.port.to_be_bytes();
    let target = to.port.to_be_bytes();
    [
        from.addr[0],
        from.addr[1],
        from.addr[2],
        from.addr[3],
        source[0],
        source[1],
        to.addr[0],
        to.addr[1],
        to.addr[2],
        to.addr[3],
        target[0],
        target[1],
    ]
}
