//! Destinations of fetches: origin servers and neighbours.
ghost use Rattle.std.specs.Prelude.{◌≡◌, IfSome, List, ℕ};
ghost use Rattle.std.specs.Net.Socket.{socket_port};
ghost use Rattle.std.specs.Net.Text.{ipv4_text};
ghost use Rattle.std.specs.String.{string_bytes};
ghost use Rattle.http_rules.specs.Destinations.{IsDestination};

use http_rules::destination_of;
use http_traffic::address_in_digits;
use node_terms::End;
use object_store::CacheKey;
use std::alloc::Global;
use std::net::{Ipv4Addr, SocketAddr};

/// The destination of a fetch: the server's host name or address, one of IPv6 in brackets, its port, the value of Host, and the request target.
#[derive(Drop)]
pub struct Destination {
    pub name: String,
    pub port: u16,
    pub host: String,
    pub target: String,
}

/// A neighbour as fetches see it: its address and query port, and the port of its HTTP server.
#[derive(Clone, Copy)]
pub struct Peer {
    pub end: End,
    pub http_port: u16,
}

/// The address and port of a key's server, if its host is an address in digits.
pub fn server_in_digits(key: &CacheKey) -> Option<SocketAddr>
    ensures port { IfSome result (λ server. (name : List ℕ) × (host : List ℕ) × (target : List ℕ) × IsDestination key.now name (socket_port server) host target) }
{
    let end = destination_of(key)?;
    let name = str::from_utf8(end.name).ok()?;
    Some(SocketAddr::new(address_in_digits(name)?, end.port))
}

/// The origin server of a key. Returns `None` if its port is invalid, or if out of memory.
pub fn origin_of(alloc: Global, key: &CacheKey) -> Option<Destination>
    ensures origin { IfSome result (λ d. IsDestination key.now (string_bytes d.name) d.port (string_bytes d.host) (string_bytes d.target)) }
{
    let end = destination_of(key)?;
    let name = text_of(alloc, end.name)?;
    let host = text_of(alloc, end.host)?;
    let target = text_of(alloc, end.target)?;
    Some(Destination {
        name,
        port: end.port,
        host,
        target,
    })
}

/// A neighbour as the destination of a fetch; the request target is the whole key. Returns `None` if the port of the key is invalid, or if
/// out of memory.
pub fn peer_of(alloc: Global, key: &CacheKey, peer: Peer) -> Option<Destination>
    ensures name { IfSome result (λ d. string_bytes d.name ≡ ipv4_text peer.end.addr) }
    ensures port { IfSome result (λ d. d.port ≡ peer.http_port) }
    ensures target { IfSome result (λ d. string_bytes d.target ≡ key.now) }
{
    let end = destination_of(key)?;
    let host = text_of(alloc, end.host)?;
    let target = text_of(alloc, key.as_slice())?;
    Some(Destination {
        name: dotted(alloc, peer.end.addr)?,
        port: peer.http_port,
        host,
        target,
    })
}

// An address of IPv4 as text. `None` if out of memory.
fn dotted(alloc: Global, address: [u8; 4]) -> Option<String>
    ensures { IfSome result (λ text. string_bytes text ≡ ipv4_text address) }
{
    Ipv4Addr::from(address).to_string(alloc).ok()
}

// These octets as text. `None` if they are none, or if out of memory.
fn text_of(alloc: Global, octets: &[u8]) -> Option<String>
    ensures { IfSome result (λ text. string_bytes text ≡ octets.now) }
{
    let text = str::from_utf8(octets).ok()?;
    String::from_str(alloc, text).ok()
}
