//! Which origins are fetched from.
ghost use Rattle.std.specs.Prelude.{◌≡◌, [], IfOk, IfSome, IsSomeAnd, codes, false, is_some, option_map};
ghost use Rattle.serde_json.specs.Find.{get};
ghost use Rattle.serde_json.specs.View.{view};
ghost use Rattle.serve_config.specs.Origins.{AreDenied, ArePorts, IsSixNetwork};
ghost use Rattle.serve_config.specs.Parts.{AddsNetwork, AreOriginKeys};
ghost use Rattle.serve_config.specs.Said.{MaySay, listed};

use crate::fault::Fault;
use crate::place::Place;
use crate::value::{list, network, ports_in, prefix_of, truth_or_false};
use node_words::Network;
use serde_json::Value;
use std::alloc::{AllocError, Global};
use std::net::Ipv6Addr;

/// A network of IPv6: an address as a number, and how many of its first bits all addresses of the network have, at most 128.
#[derive(Clone, Copy)]
pub struct SixNetwork {
    pub address: u128,
    pub prefix: u8,
}

/// What a configuration says about origins.
#[derive(Drop)]
pub(crate) struct OriginKeys {
    pub(crate) deny_origins: Option<Vec<Network>>,
    pub(crate) origin_ports: Option<Vec<u16>>,
    pub(crate) origins6: Option<Vec<SixNetwork>>,
}

// Networks of both kinds.
#[derive(Drop)]
struct Networks {
    four: Vec<Network>,
    six: Vec<SixNetwork>,
}

/// Parses what a configuration says about origins.
pub(crate) fn origin_keys(alloc: Global, value: &Value) -> Result<OriginKeys, Fault>
    ensures { IfOk result (AreOriginKeys (view value.now)) }
{
    let has_six = truth_or_false(alloc, value, Place::whole().key("origins6"))?;
    let Networks { four, six } = denied(alloc, value, has_six)?;
    Ok(OriginKeys {
        deny_origins: given(value, four),
        origin_ports: origin_ports(alloc, value)?,
        origins6: six_given(has_six, six),
    })
}

// The networks of `deny_origins`, if there is such a key.
fn given(value: &Value, networks: Vec<Network>) -> Option<Vec<Network>>
    ensures there { is_some result ≡ is_some (get (codes "deny_origins") (view value.now)) }
    ensures all { IfSome result (λ given. given.items ≡ networks.items) }
{
    if value.get("deny_origins").is_some() {
        Some(networks)
    } else {
        None
    }
}

// Those of IPv6, if such origins are fetched from.
fn six_given(has_six: bool, networks: Vec<SixNetwork>) -> Option<Vec<SixNetwork>>
    ensures there { is_some result ≡ has_six }
    ensures all { IfSome result (λ given. given.items ≡ networks.items) }
{
    if has_six { Some(networks) } else { None }
}

// Parses the networks that are never fetched from as origins, those of IPv6 where such origins are fetched from.
fn denied(alloc: Global, value: &Value, has_six: bool) -> Result<Networks, Fault>
    ensures said { IfOk result (λ networks. IsSomeAnd (listed (codes "deny_origins") (view value.now)) (λ values. AreDenied values networks.four.items networks.six.items)) }
    ensures six { IfOk result (λ networks. has_six ≡ false → networks.six.items ≡ []) }
{
    let items = list(alloc, value, "deny_origins")?;
    let mut networks = Networks {
        four: Vec::new(alloc),
        six: Vec::new(alloc),
    };
    for i in 0..items.len() {
        let place = Place::item("deny_origins", i);
        networks = with_network(alloc, networks, &items[i], place, has_six)?;
    }
    Ok(networks)
}

// These networks and this one.
fn with_network(
    alloc: Global,
    networks: Networks,
    item: &Value,
    place: Place<'_>,
    has_six: bool,
) -> Result<Networks, Fault>
    ensures said { IfOk result (λ after. AddsNetwork (view item.now) networks.four.items networks.six.items after.four.items after.six.items) }
    ensures six { IfOk result (λ after. has_six ≡ false → after.six.items ≡ networks.six.items) }
{
    let mut networks = networks;
    if has_six && let Some(network) = six_network(item) {
        networks.six.push(network).map_err(AllocError::from)?;
        return Ok(networks);
    }
    let network = network(alloc, item, place)?;
    networks.four.push(network).map_err(AllocError::from)?;
    Ok(networks)
}

/// Parses the text of a network of IPv6, such as `2001:db8::/32`; `None` if it is none.
pub(crate) fn six_network(value: &Value) -> Option<SixNetwork>
    ensures { IfSome result (IsSixNetwork (view value.now)) }
{
    let (address, bits) = value.as_str()?.split_once('/')?;
    let address = address.parse::<Ipv6Addr>().ok()?.to_bits();
    let prefix = prefix_of(bits)?;
    if prefix <= 128 {
        Some(SixNetwork { address, prefix })
    } else {
        None
    }
}

// Parses the only ports that origins are fetched from, if they are given.
fn origin_ports(alloc: Global, value: &Value) -> Result<Option<Vec<u16>>, Fault>
    ensures said { IfOk result (λ ports. MaySay ArePorts (codes "origin_ports") (view value.now) (option_map (λ v. v.items) ports)) }
{
    let Some(given) = value.get("origin_ports") else {
        return Ok(None);
    };
    let ports = ports_in(alloc, given, "origin_ports")?;
    if ports.is_empty() {
        return Err(Fault::value(alloc, Place::whole().key("origin_ports"), "empty"));
    }
    Ok(Some(ports))
}
