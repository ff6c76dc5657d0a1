//! Parsing single values of a configuration.
ghost use Rattle.std.specs.Prelude.{◌≡◌, IfOk, IfSome, Some, false, map, true};
ghost use Rattle.std.specs.Char.{is_ascii_digit};
ghost use Rattle.std.specs.List.{list_all};
ghost use Rattle.std.specs.Net.Grammar.{IsNumber};
ghost use Rattle.serde_json.specs.Find.{get};
ghost use Rattle.serde_json.specs.View.{view};
ghost use Rattle.serve_config.specs.Addresses.{IsHost, is_host};
ghost use Rattle.serve_config.specs.Fronts.{IsName};
ghost use Rattle.serve_config.specs.Origins.{IsNetwork, IsNetworkText};
ghost use Rattle.serve_config.specs.Refresh.{is_visible};
ghost use Rattle.serve_config.specs.Said.{IsListOf, IsText, IsTruth, IsWhole, Lists, MaySay, Says, SaysOr, listed, values_in};
ghost use Rattle.serve_config.specs.Words.{word_or};

use crate::fault::Fault;
use crate::place::Place;
use node_words::Network;
use serde_json::Value;
use std::alloc::{AllocError, Global};
use std::net::Ipv4Addr;

/// The string at this key of an object.
pub(crate) fn text<'a>(alloc: Global, object: &'a Value, place: Place<'_>) -> Result<&'a str, Fault>
    ensures { IfOk result (λ text. Says IsText place.entry.key.now (view object.now) text.now) }
{
    match object.get(place.name()).and_then(Value::as_str) {
        Some(text) => Ok(text),
        None => Err(Fault::shape(alloc, place, "not a text")),
    }
}

/// The word at this key of the configuration, or `usual` if there is no such key.
pub(crate) fn word<'a>(
    alloc: Global,
    object: &'a Value,
    key: &str,
    usual: &'a str,
) -> Result<&'a str, Fault>
    ensures { IfOk result (λ word. word_or usual.now (get key.now (view object.now)) ≡ Some word.now) }
{
    let Some(value) = object.get(key) else {
        return Ok(usual);
    };
    match value.as_str() {
        Some(word) => Ok(word),
        None => Err(Fault::shape(alloc, Place::whole().key(key), "not a text")),
    }
}

/// The Boolean at this key of an object.
pub(crate) fn truth(alloc: Global, object: &Value, place: Place<'_>) -> Result<bool, Fault>
    ensures { IfOk result (Says IsTruth place.entry.key.now (view object.now)) }
{
    match object.get(place.name()).and_then(Value::as_bool) {
        Some(truth) => Ok(truth),
        None => Err(Fault::shape(alloc, place, "neither true nor false")),
    }
}

/// The Boolean at this key of an object; false where there is none.
pub(crate) fn truth_or_false(alloc: Global, object: &Value, place: Place<'_>) -> Result<bool, Fault>
    ensures said { IfOk result (SaysOr false IsTruth place.entry.key.now (view object.now)) }
{
    if object.get(place.name()).is_none() {
        return Ok(false);
    }
    truth(alloc, object, place)
}

/// The integer at this key of an object, from `least` to `most`. Errors: missing or out of range.
pub(crate) fn number(
    alloc: Global,
    object: &Value,
    place: Place<'_>,
    least: u64,
    most: u64,
) -> Result<u64, Fault>
    ensures { IfOk result (Says (IsWhole least most) place.entry.key.now (view object.now)) }
{
    match object.get(place.name()) {
        Some(value) => number_of(alloc, value, place, least, most),
        None => Err(Fault::shape(alloc, place, "missing")),
    }
}

/// A value as an integer from `least` to `most`. Errors: out of range.
pub(crate) fn number_of(
    alloc: Global,
    value: &Value,
    place: Place<'_>,
    least: u64,
    most: u64,
) -> Result<u64, Fault>
    ensures said { IfOk result (IsWhole least most (view value.now)) }
{
    match value.as_u64() {
        Some(n) if least <= n && n <= most => Ok(n),
        _ => Err(out_of_range(alloc, value, place, least, most)),
    }
}

/// The number at a key of the configuration that may be left out, from `least` to `most`.
pub(crate) fn optional(
    alloc: Global,
    value: &Value,
    key: &str,
    least: u32,
    most: u32,
) -> Result<Option<u32>, Fault>
    ensures said { IfOk result (MaySay (IsWhole least most) key.now (view value.now)) }
{
    match value.get(key) {
        Some(given) => {
            let place = Place::whole().key(key);
            let n = number_of(alloc, given, place, u64::from(least), u64::from(most))?;
            Ok(Some(n as u32))
        }
        None => Ok(None),
    }
}

/// The number at a key of the configuration, from `least` to `most`; `usual` if there is no such key.
pub(crate) fn number_or(
    alloc: Global,
    value: &Value,
    key: &str,
    least: u32,
    most: u32,
    usual: u32,
) -> Result<u32, Fault>
    ensures said { IfOk result (SaysOr usual (IsWhole least most) key.now (view value.now)) }
{
    match optional(alloc, value, key, least, most)? {
        Some(n) => Ok(n),
        None => Ok(usual),
    }
}

// The fault for a number outside its range.
fn out_of_range(alloc: Global, value: &Value, place: Place<'_>, least: u64, most: u64) -> Fault {
    let Ok(text) = shown(alloc, value) else {
        return Fault::Memory;
    };
    let is_below = match value.as_u64() {
        Some(n) => n < least,
        None => matches!(value.as_f64(), Some(x) if x < 0.0),
    };
    if is_below {
        Fault::bound(alloc, place, text.as_str(), "below", least)
    } else {
        Fault::bound(alloc, place, text.as_str(), "above", most)
    }
}

// The text of a number. Beyond 64 bits the JSON parser does not keep all digits, so a description stands for the number.
fn shown(alloc: Global, value: &Value) -> Result<String, AllocError> {
    if value.is_f64() {
        String::from_str(alloc, "a number of over 64 bits")
    } else {
        value.to_string(alloc)
    }
}

/// The port number at this key of an object, 0 to 65,535.
pub(crate) fn port(alloc: Global, object: &Value, place: Place<'_>) -> Result<u16, Fault>
    ensures { IfOk result (Says (IsWhole 0 65535) place.entry.key.now (view object.now)) }
{
    Ok(number(alloc, object, place, 0, 65_535)? as u16)
}

/// The port number of a neighbour at this key of an object, 1 to 65,535.
pub(crate) fn peer_port(alloc: Global, object: &Value, place: Place<'_>) -> Result<u16, Fault>
    ensures { IfOk result (Says (IsWhole 1 65535) place.entry.key.now (view object.now)) }
{
    Ok(number(alloc, object, place, 1, 65_535)? as u16)
}

/// The IPv4 address of a host at this key of an object, such as `10.0.0.1`. Errors: malformed, or 0.0.0.0.
pub(crate) fn address(alloc: Global, object: &Value, place: Place<'_>) -> Result<[u8; 4], Fault>
    ensures { IfOk result (Says IsHost place.entry.key.now (view object.now)) }
{
    let text = text(alloc, object, place)?;
    let Ok(address) = text.parse::<Ipv4Addr>() else {
        return Err(Fault::text(alloc, place, text, "is no address"));
    };
    let octets = address.octets();
    if !is_host(octets) {
        return Err(Fault::text(alloc, place, text, "is the address of no host"));
    }
    Ok(octets)
}

// Whether an address is that of a host: any but 0.0.0.0.
fn is_host(address: [u8; 4]) -> bool
    ensures { result ≡ is_host address }
{
    address != [0, 0, 0, 0]
}

/// The items of the list at this key of the configuration; none if there is no such key. Errors: it is no list.
pub(crate) fn list<'a>(alloc: Global, value: &'a Value, key: &str) -> Result<&'a [Value], Fault>
    ensures { IfOk result (λ items. listed key.now (view value.now) ≡ Some (map view items.now)) }
{
    match value.get(key) {
        Some(given) => items_in(alloc, given, key),
        None => Ok(&[]),
    }
}

/// The items of the list that the value at this key is. Errors: it is none.
#[tactic(auto, using(crate::proofs::Listed::values_of_items))]
pub(crate) fn items_in<'a>(alloc: Global, given: &'a Value, key: &str) -> Result<&'a [Value], Fault>
    ensures { IfOk result (λ items. values_in (view given.now) ≡ Some (map view items.now)) }
{
    match given.as_array() {
        Some(items) => Ok(items.as_slice()),
        None => Err(Fault::shape(alloc, Place::whole().key(key), "not a list")),
    }
}

/// Parses the ports of the list that the value at this key is. Errors: it is no list, or one of them is not 1 to 65,535.
pub(crate) fn ports_in(alloc: Global, given: &Value, key: &str) -> Result<Vec<u16>, Fault>
    ensures { IfOk result (λ ports. IsListOf (IsWhole 1 65535) (view given.now) ports.items) }
{
    let items = items_in(alloc, given, key)?;
    let mut ports = Vec::new(alloc);
    for i in 0..items.len() {
        let port = port_of(alloc, &items[i], Place::item(key, i))?;
        ports.push(port).map_err(AllocError::from)?;
    }
    Ok(ports)
}

// Parses a port, 1 to 65,535.
fn port_of(alloc: Global, value: &Value, place: Place<'_>) -> Result<u16, Fault>
    ensures { IfOk result (IsWhole 1 65535 (view value.now)) }
{
    Ok(number_of(alloc, value, place, 1, 65_535)? as u16)
}

/// Parses a network such as `10.0.0.0/8`.
pub(crate) fn network(alloc: Global, value: &Value, place: Place<'_>) -> Result<Network, Fault>
    ensures { IfOk result (IsNetwork (view value.now)) }
{
    let Some(text) = value.as_str() else {
        return Err(Fault::shape(alloc, place, "not a text"));
    };
    match network_of(text) {
        Some(network) => Ok(network),
        None => Err(Fault::text(alloc, place, text, "is no network")),
    }
}

/// Parses the networks of the list at this key.
pub(crate) fn networks(alloc: Global, value: &Value, key: &str) -> Result<Vec<Network>, Fault>
    ensures { IfOk result (λ networks. Lists IsNetwork key.now (view value.now) networks.items) }
{
    let items = list(alloc, value, key)?;
    let mut networks = Vec::new(alloc);
    for i in 0..items.len() {
        let network = network(alloc, &items[i], Place::item(key, i))?;
        networks.push(network).map_err(AllocError::from)?;
    }
    Ok(networks)
}

/// Parses the text of a network, such as `10.0.0.0/8`; `None` if it is malformed.
pub fn network_of(text: &str) -> Option<Network>
    ensures said { IfSome result (IsNetworkText text.now) }
{
    let (address, bits) = text.split_once('/')?;
    let addr = address.parse::<Ipv4Addr>().ok()?.octets();
    let prefix = prefix_of(bits)?;
    if prefix <= 32 {
        Some(Network { addr, prefix })
    } else {
        None
    }
}

/// Parses how many bits all addresses of a network have, in decimal digits; `None` if it is no such number, or over 255.
pub(crate) fn prefix_of(text: &str) -> Option<u8>
    ensures { IfSome result (IsNumber 10 text.now) }
{
    if !are_digits(text.as_bytes()) {
        return None;
    }
    text.parse::<u8>().ok()
}

// Whether all octets are decimal digits.
fn are_digits(text: &[u8]) -> bool
    ensures { result ≡ list_all is_ascii_digit text.now }
{
    text.iter().all(|&octet| octet.is_ascii_digit())
}

/// The non-empty string of visible ASCII at this key of an object.
pub(crate) fn visible<'a>(
    alloc: Global,
    object: &'a Value,
    place: Place<'_>,
) -> Result<&'a str, Fault>
    ensures { IfOk result (λ text. Says IsName place.entry.key.now (view object.now) text.now) }
{
    let text = text(alloc, object, place)?;
    if text.is_empty() {
        return Err(Fault::value(alloc, place, "empty"));
    }
    if !is_visible(text.as_bytes()) {
        return Err(Fault::text(alloc, place, text, "has an octet outside 0x21 to 0x7e"));
    }
    Ok(text)
}

/// Whether all octets are visible ASCII.
pub(crate) fn is_visible(text: &[u8]) -> bool
    ensures { result ≡ list_all is_visible text.now }
{
    text.iter().all(|&octet| 0x21 <= octet && octet <= 0x7e)
}
