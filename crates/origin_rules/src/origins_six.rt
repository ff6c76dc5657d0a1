//! Which servers with an address of IPv6 may be fetched from as origins.
ghost use Rattle.std.specs.Prelude.{◌≡◌, ◌<◌, ◌≤◌, ◌+◌, ◌-◌, ◌*◌, ◌%◌, ◌^◌, ◌||◌, ℕ, IfOk, true};
ghost use Rattle.std.specs.List.{list_any};
ghost use Rattle.origin_rules.specs.declared.origins.OriginRules.{OriginRules};
ghost use Rattle.origin_rules.specs.OriginsSix.{
  admits_at,
  admits_four,
  admits_six,
  alone,
  first_bits,
  is_as,
  is_denied_six,
  is_inside_six,
  is_own_six,
  reached_six,
  refuses,
  stands_for,
  usual_six_denials,
};

use crate::origins::OriginRules;
use node_terms::End;
use std::alloc::{AllocError, Global};
use std::net::{IpAddr, SocketAddr};

/// A network of IPv6: an address as a number, and how many of its first bits all addresses of the network have, at most 128.
#[derive(Clone, Copy)]
pub struct SixNetwork {
    pub address: u128,
    pub prefix: u8,
}

impl SixNetwork {
    // The network of one address alone.
    fn alone(address: u128) -> SixNetwork
        ensures { result ≡ alone address }
    {
        SixNetwork {
            address,
            prefix: 128,
        }
    }

    /// Whether an address is in this network.
    pub fn contains(&self, address: u128) -> bool
        ensures { result ≡ is_inside_six address self.now }
    {
        first_bits(self.prefix, address) == first_bits(self.prefix, self.address)
    }
}

/// A server with an address of IPv6, as a number, and its port.
#[derive(Clone, Copy)]
pub struct SixEnd {
    pub address: u128,
    pub port: u16,
}

// The first `prefix` bits of an address, as a number.
fn first_bits(prefix: u8, address: u128) -> u128
    ensures { result ≡ first_bits prefix address }
{
    match prefix {
        0 => 0,
        _ => address >> 128u8.saturating_sub(prefix),
    }
}

// The first 96 bits of 64:ff9b::/96.
const NAT64: u128 = 0x64_ff9b_0000_0000_0000_0000;

// ::ffff:0.0.0.0, and ::ffff:127.0.0.1, which a connection to it reaches.
const MAPPED_NONE: u128 = 0xffff_0000_0000;

const MAPPED_LOOPBACK: u128 = 0xffff_7f00_0001;

// fd00:ec2::254, fd20:ce::254 and fd00:c1::a9fe:a9fe, at which clouds (AWS, Google, Oracle) tell each of their hosts what that is trusted
// with.
const METADATA_AWS: u128 = 0xfd00_0ec2_0000_0000_0000_0000_0000_0254;

const METADATA_GOOGLE: u128 = 0xfd20_00ce_0000_0000_0000_0000_0000_0254;

const METADATA_ORACLE: u128 = 0xfd00_00c1_0000_0000_0000_0000_a9fe_a9fe;

// The last 32 bits of an address.
fn last_bits(address: u128) -> u32
    ensures { result ≡ address % 2 ^ 32 }
{
    (address % 0x1_0000_0000) as u32
}

// The address of IPv4 that one of IPv6 stands for: 127.0.0.1 for ::1, and for ::, a connection to which reaches ::1; 169.254.0.0 for one of
// a link alone (fe80::/10); the last 32 bits of ::ffff:0:0/96, ::/96 (RFC 4291, section 2.5.5), ::ffff:0:0:0/96 (RFC 2765) and 64:ff9b::/96
// (RFC 6052); the bits behind the first 16 of 2002::/16 (RFC 3056); and the last 32 bits, each turned, of 2001::/32 (RFC 4380).
fn stands_for(address: u128) -> Option<u32>
    ensures { result ≡ stands_for address }
{
    let (front, rest) = (address >> 32, last_bits(address));
    if address <= 1 {
        Some(0x7f00_0001)
    } else if address >> 118 == 0x3fa {
        Some(0xa9fe_0000)
    } else if front == 0 || front == 0xffff || front == 0xffff_0000 || front == NAT64 {
        Some(rest)
    } else if address >> 112 == 0x2002 {
        Some(last_bits(address >> 80))
    } else if address >> 96 == 0x2001_0000 {
        Some(u32::MAX - rest)
    } else {
        None
    }
}

impl OriginRules {
    /// Whether a server with this address of IPv6, as a number, may be fetched from as an origin: servers of IPv6 are at all, it is not this
    /// cache's own socket, its address is in no denied network, its port is one of the ports, where they are given, and if the address stands
    /// for one of IPv4, a server there may be fetched from.
    pub fn admits_six(&self, address: u128, port: u16) -> bool
        ensures { result ≡ admits_six self.now address port }
    {
        !self.is_own_six(address, port)
            && (!self.is_denied_six(address)
                && (self.is_port(port) && self.is_as(stands_for(address), port)))
    }

    // Whether a connection to this server reaches the socket of this cache that has an address of IPv6.
    fn is_own_six(&self, address: u128, port: u16) -> bool
        ensures { result ≡ is_own_six self.now.own_six address port }
    {
        match self.own_six {
            Some(own) => own.address == reached_six(address) && own.port == port,
            None => false,
        }
    }

    // Whether a server at the address of IPv4 that one of IPv6 stands for may be fetched from, if it stands for one.
    fn is_as(&self, address: Option<u32>, port: u16) -> bool
        ensures { result ≡ is_as self.now address port }
    {
        match address {
            Some(address) => {
                let addr = address.to_be_bytes();
                self.admits(End { addr, port })
            }
            None => true,
        }
    }

    // Whether an address, or the one that a connection to it reaches, is in a denied network, or servers of IPv6 are not fetched from at all.
    fn is_denied_six(&self, address: u128) -> bool
        ensures { result ≡ is_denied_six self.now.denied_six address }
    {
        match &self.denied_six {
            Some(denied) => is_in_one(denied.as_slice(), address),
            None => true,
        }
    }

    /// Whether a server may be fetched from as an origin: `admits` or `admits_six`, by the kind of its address.
    pub fn admits_at(&self, server: SocketAddr) -> bool
        ensures { result ≡ admits_at self.now server }
    {
        let port = server.port();
        match server.ip() {
            IpAddr::V4(address) => {
                let addr = address.octets();
                self.admits(End { addr, port })
            }
            IpAddr::V6(address) => self.admits_six(address.to_bits(), port),
        }
    }

    /// Whether a server that a request names by an address in digits is refused. Where servers of IPv6 are not fetched from at all, such an
    /// address is taken for a name, which is not found.
    pub fn refuses(&self, server: SocketAddr) -> bool
        ensures { result ≡ refuses self.now server }
    {
        (server.is_ipv4() || self.denied_six.is_some()) && !self.admits_at(server)
    }
}

// Whether an address, or the one that a connection to it reaches, is in one of these networks.
fn is_in_one(networks: &[SixNetwork], address: u128) -> bool
    ensures { result ≡ list_any (λ network. is_inside_six address network || is_inside_six (reached_six address) network) networks.now }
{
    networks.iter().any(|network| network.contains(address)
        || network.contains(reached_six(address)))
}

// The address that a connection to this address reaches.
fn reached_six(address: u128) -> u128
    ensures { result ≡ reached_six address }
{
    match address {
        0 => 1,
        MAPPED_NONE => MAPPED_LOOPBACK,
        _ => address,
    }
}

/// The networks of IPv6 that are never fetched from where the configuration says nothing: fd00:ec2::254, fd20:ce::254 and
/// fd00:c1::a9fe:a9fe, the metadata of clouds.
pub fn usual_six_denials(alloc: Global) -> Result<Vec<SixNetwork>, AllocError>
    ensures { IfOk result (λ networks. networks.items ≡ usual_six_denials) }
{
    let mut denied = Vec::new(alloc);
    denied.push(SixNetwork::alone(METADATA_AWS))?;
    denied.push(SixNetwork::alone(METADATA_GOOGLE))?;
    denied.push(SixNetwork::alone(METADATA_ORACLE))?;
    Ok(denied)
}

/// What admits a server at an address of IPv6 in which there is one of IPv4 admits a server at that too, in each way in which one is there:
/// behind 96 bits of 0 (RFC 4291, section 2.5.5.1), behind ::ffff:0:0/96 (2.5.5.2), ::ffff:0:0:0/96 (RFC 2765, section 2.1) and 64:ff9b::/96
/// (RFC 6052, section 2.1), in 2002::/16 (RFC 3056, section 2), and turned at the end of 2001::/32 (RFC 4380, section 4). What admits ::1 or
/// :: admits 127.0.0.1, and what admits an address of a link alone (fe80::/10) admits 169.254.0.0.
pub fn embedded_law()
    ensures loopback { (rules : OriginRules) (address port : ℕ) → address ≤ 1 → admits_six rules address port ≡ true → admits_four rules 0x7f000001 port ≡ true }
    ensures link { (rules : OriginRules) (rest port : ℕ) → rest < 2 ^ 118 → admits_six rules (0x3fa * 2 ^ 118 + rest) port ≡ true → admits_four rules 0xa9fe0000 port ≡ true }
    ensures compatible { (rules : OriginRules) (four port : ℕ) → four < 2 ^ 32 → 1 < four → admits_six rules four port ≡ true → admits_four rules four port ≡ true }
    ensures mapped { (rules : OriginRules) (four port : ℕ) → four < 2 ^ 32 → admits_six rules (0xffff * 2 ^ 32 + four) port ≡ true → admits_four rules four port ≡ true }
    ensures translated { (rules : OriginRules) (four port : ℕ) → four < 2 ^ 32 → admits_six rules (0xffff * 2 ^ 48 + four) port ≡ true → admits_four rules four port ≡ true }
    ensures nat64 { (rules : OriginRules) (four port : ℕ) → four < 2 ^ 32 → admits_six rules (0x64 * 2 ^ 112 + 0xff9b * 2 ^ 96 + four) port ≡ true → admits_four rules four port ≡ true }
    ensures six_to_four { (rules : OriginRules) (four rest port : ℕ) → four < 2 ^ 32 → rest < 2 ^ 80 → admits_six rules (0x2002 * 2 ^ 112 + four * 2 ^ 80 + rest) port ≡ true → admits_four rules four port ≡ true }
    ensures teredo { (rules : OriginRules) (four rest port : ℕ) → four < 2 ^ 32 → rest < 2 ^ 64 → admits_six rules (0x20010000 * 2 ^ 96 + rest * 2 ^ 32 + (0xffffffff - four)) port ≡ true → admits_four rules four port ≡ true }
{}
