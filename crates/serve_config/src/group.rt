//! The neighbours and the signing keys.
ghost use Rattle.std.specs.Prelude.{◌≡◌, [], ◌∷◌, ◌++◌, IfOk, IfSome, codes, map};
ghost use Rattle.std.specs.List.{AllZip};
ghost use Rattle.serde_json.specs.View.{view};
ghost use Rattle.serve_config.specs.Group.{IsKey, IsKeyName, IsNeighbour, IsProtocol, IsRole, IsSecret};
ghost use Rattle.serve_config.specs.Said.{Lists, Says};

use crate::fault::Fault;
use crate::place::Place;
use crate::value::{address, list, number, peer_port, text};
use hex::FromHexError;
use neighbours::{End, Key, Neighbour, Octets, Role, Socket};
use serde_json::Value;
use std::alloc::{AllocError, Global};

/// The signing keys. Errors: a malformed key, an empty secret, or a name that occurs twice.
pub(crate) fn keys(alloc: Global, value: &Value) -> Result<Vec<Key>, Fault>
    ensures { IfOk result (λ keys. Lists IsKey (codes "keys") (view value.now) keys.items) }
{
    let items = list(alloc, value, "keys")?;
    let mut keys = Vec::new(alloc);
    for i in 0..items.len() {
        let place = Place::item("keys", i);
        let key = key(alloc, &items[i], place)?;
        if is_key(keys.as_slice(), key.name.as_slice()) {
            return Err(Fault::value(alloc, place.key("name"), "the name of an earlier key"));
        }
        keys.push(key).map_err(AllocError::from)?;
    }
    Ok(keys)
}

// Parses one signing key.
fn key(alloc: Global, item: &Value, place: Place<'_>) -> Result<Key, Fault>
    ensures { IfOk result (IsKey (view item.now)) }
{
    let name = text(alloc, item, place.key("name"))?;
    if name.is_empty() || name.len() > 255 {
        return Err(Fault::text(
            alloc,
            place.key("name"),
            name,
            "is empty or over 255 octets",
        ));
    }
    let secret = secret(alloc, item, place.key("secret"))?;
    let name = Octets::new(name.as_bytes().to_vec(alloc)?);
    Ok(Key { name, secret })
}

// Decodes a secret of at least one octet from hexadecimal. An error message does not contain its text.
fn secret(alloc: Global, item: &Value, place: Place<'_>) -> Result<Octets, Fault>
    ensures said { IfOk result (Says IsSecret place.entry.key.now (view item.now)) }
{
    let text = text(alloc, item, place)?;
    match hex::decode(alloc, text.as_bytes()) {
        Ok(octets) if octets.is_empty() => Err(Fault::value(alloc, place, "empty")),
        Ok(octets) => Ok(Octets::new(octets)),
        Err(FromHexError::OutOfMemory) => Err(Fault::Memory),
        Err(_) => Err(Fault::value(alloc, place, "not hexadecimal")),
    }
}

// Whether there is a key with this name.
fn is_key(keys: &[Key], name: &[u8]) -> bool {
    for key in keys {
        if key.name.as_slice() == name {
            return true;
        }
    }
    false
}

/// The neighbours. Errors: a malformed neighbour, address 0.0.0.0 or a port 0, the same address and query port twice, the name of
/// an unknown key, or more than 64 neighbours.
pub(crate) fn neighbours(
    alloc: Global,
    value: &Value,
    keys: &[Key],
) -> Result<Vec<Neighbour>, Fault>
    ensures { IfOk result (λ neighbours. Lists IsNeighbour (codes "neighbours") (view value.now) neighbours.items) }
{
    let items = list(alloc, value, "neighbours")?;
    let neighbours = each_neighbour(alloc, items, keys)?;
    if items.len() > 64 {
        drop(neighbours);
        return Err(Fault::value(alloc, Place::whole().key("neighbours"), "over 64 of them"));
    }
    Ok(neighbours)
}

// Parses each neighbour.
fn each_neighbour(alloc: Global, items: &[Value], keys: &[Key]) -> Result<Vec<Neighbour>, Fault>
    ensures { IfOk result (λ neighbours. AllZip IsNeighbour (map view items.now) neighbours.items) }
{
    let mut neighbours = Vec::new(alloc);
    for i in 0..items.len() {
        let place = Place::item("neighbours", i);
        let neighbour = neighbour(alloc, &items[i], place, keys)?;
        neighbours = with_neighbour(alloc, neighbours, neighbour, place)?;
    }
    Ok(neighbours)
}

// These neighbours and this one. Errors: one of them has its address and query port, or out of memory.
fn with_neighbour(
    alloc: Global,
    neighbours: Vec<Neighbour>,
    neighbour: Neighbour,
    place: Place<'_>,
) -> Result<Vec<Neighbour>, Fault>
    ensures { IfOk result (λ after. after.items ≡ neighbours.items ++ neighbour ∷ []) }
{
    let mut neighbours = neighbours;
    if has_end(neighbours.as_slice(), neighbour.end) {
        return Err(Fault::value(
            alloc,
            place.key("address"),
            "an earlier neighbour has this address and query_port",
        ));
    }
    neighbours.push(neighbour).map_err(AllocError::from)?;
    Ok(neighbours)
}

// Whether some neighbour has this address and query port.
fn has_end(neighbours: &[Neighbour], end: End) -> bool {
    for neighbour in neighbours {
        if neighbour.end == end {
            return true;
        }
    }
    false
}

// Parses one neighbour.
fn neighbour(
    alloc: Global,
    item: &Value,
    place: Place<'_>,
    keys: &[Key],
) -> Result<Neighbour, Fault>
    ensures said { IfOk result (IsNeighbour (view item.now)) }
{
    Ok(Neighbour {
        kind: role(alloc, item, place.key("kind"))?,
        protocol: protocol(alloc, item, place.key("protocol"))?,
        end: End {
            addr: address(alloc, item, place.key("address"))?,
            port: peer_port(alloc, item, place.key("query_port"))?,
        },
        http_port: peer_port(alloc, item, place.key("http_port"))?,
        weight: number(alloc, item, place.key("weight"), 1, 100)? as u32,
        key: key_name(alloc, item, place.key("key"), keys)?,
    })
}

// Parses the kind of a neighbour: `sibling` or `parent`.
fn role(alloc: Global, item: &Value, place: Place<'_>) -> Result<Role, Fault>
    ensures said { IfOk result (Says IsRole place.entry.key.now (view item.now)) }
{
    match text(alloc, item, place)? {
        "sibling" => Ok(Role::Sibling),
        "parent" => Ok(Role::Parent),
        other => Err(Fault::text(alloc, place, other, "is neither sibling nor parent")),
    }
}

// Parses the query protocol of a neighbour: `icp` or `htcp`.
fn protocol(alloc: Global, item: &Value, place: Place<'_>) -> Result<Socket, Fault>
    ensures { IfOk result (Says IsProtocol place.entry.key.now (view item.now)) }
{
    match text(alloc, item, place)? {
        "icp" => Ok(Socket::Icp),
        "htcp" => Ok(Socket::Htcp),
        other => Err(Fault::text(alloc, place, other, "is neither icp nor htcp")),
    }
}

// The name of a neighbour's key, which must be one of `keys`; `None` if it is empty.
fn key_name(
    alloc: Global,
    item: &Value,
    place: Place<'_>,
    keys: &[Key],
) -> Result<Option<Octets>, Fault>
    ensures said { IfOk result (Says IsKeyName place.entry.key.now (view item.now)) }
{
    let name = text(alloc, item, place)?;
    if name.is_empty() {
        return Ok(None);
    }
    if !is_key(keys, name.as_bytes()) {
        return Err(Fault::text(alloc, place, name, "is the name of no key"));
    }
    Ok(Some(Octets::new(name.as_bytes().to_vec(alloc)?)))
}
