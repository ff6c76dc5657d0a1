//! Clients with addresses of IPv6.
ghost use Rattle.std.specs.Prelude.{◌≡◌, IfOk, codes, is_some, not};
ghost use Rattle.serde_json.specs.View.{view};
ghost use Rattle.serve_config.specs.Origins.{IsSixNetwork};
ghost use Rattle.serve_config.specs.Said.{Lists, Says};
ghost use Rattle.serve_config.specs.SixClients.{AreSixClients, IsHostSix, is_host_six};

use crate::fault::Fault;
use crate::origins::{SixNetwork, six_network};
use crate::place::Place;
use crate::value::{list, text};
use serde_json::Value;
use std::alloc::{AllocError, Global};
use std::net::Ipv6Addr;

/// Where clients with addresses of IPv6 are served, and which of them.
#[derive(Drop)]
pub struct SixClients {
    /// The address of the socket for them, as a number.
    pub address: u128,
    /// The networks whose clients may come in.
    pub allowed: Vec<SixNetwork>,
}

/// Parses what a configuration says about clients with addresses of IPv6. Errors: a malformed address or network, or one of the two keys
/// without the other.
pub(crate) fn six_clients(alloc: Global, value: &Value) -> Result<Option<SixClients>, Fault>
    ensures { IfOk result (λ given. AreSixClients (view value.now) given) }
{
    let has_address = value.get("http_address6").is_some();
    let has_networks = value.get("allowed6").is_some();
    if has_address && !has_networks {
        let place = Place::whole().key("http_address6");
        return Err(Fault::value(alloc, place, "given without allowed6"));
    }
    if has_networks && !has_address {
        let place = Place::whole().key("allowed6");
        return Err(Fault::value(alloc, place, "given without http_address6"));
    }
    if !has_address {
        return Ok(None);
    }
    Ok(Some(SixClients {
        address: socket_address(alloc, value)?,
        allowed: allowed(alloc, value)?,
    }))
}

// Parses the address of the socket for clients of IPv6.
fn socket_address(alloc: Global, value: &Value) -> Result<u128, Fault>
    ensures said { IfOk result (Says IsHostSix (codes "http_address6") (view value.now)) }
{
    let place = Place::whole().key("http_address6");
    let text = text(alloc, value, place)?;
    let Ok(address) = text.parse::<Ipv6Addr>() else {
        return Err(Fault::text(alloc, place, text, "is no address of IPv6"));
    };
    let address = address.to_bits();
    match refusal(address) {
        Some(why) => Err(Fault::text(alloc, place, text, why)),
        None => Ok(address),
    }
}

// Why there can't be a socket for clients of IPv6 at an address, if there can't. One at :: would take clients of IPv4 too, and would be in
// the way of the socket for these.
fn refusal(address: u128) -> Option<&'static str>
    ensures { is_some result ≡ not (is_host_six address) }
{
    if address == 0 {
        Some("is every address of this host, also those of IPv4: name one of IPv6")
    } else if address >> 32 == 0xffff {
        Some("stands for an address of IPv4, which belongs into address")
    } else if address >> 118 == 0x3fa {
        Some("is an address of a link alone")
    } else if address >> 120 == 0xff {
        Some("is the address of no host")
    } else {
        None
    }
}

// Parses the networks whose clients may come in.
fn allowed(alloc: Global, value: &Value) -> Result<Vec<SixNetwork>, Fault>
    ensures { IfOk result (λ networks. Lists IsSixNetwork (codes "allowed6") (view value.now) networks.items) }
{
    let items = list(alloc, value, "allowed6")?;
    let mut networks = Vec::new(alloc);
    for i in 0..items.len() {
        let network = network(alloc, &items[i], Place::item("allowed6", i))?;
        networks.push(network).map_err(AllocError::from)?;
    }
    Ok(networks)
}

// Parses a network such as `2001:db8::/32`.
fn network(alloc: Global, value: &Value, place: Place<'_>) -> Result<SixNetwork, Fault>
    ensures { IfOk result (IsSixNetwork (view value.now)) }
{
    let Some(text) = value.as_str() else {
        return Err(Fault::shape(alloc, place, "not a text"));
    };
    match six_network(value) {
        Some(network) => Ok(network),
        None => Err(Fault::text(alloc, place, text, "is no network of IPv6")),
    }
}
