//! Lines that change a setting.
ghost use Rattle.std.specs.Prelude.{◌≡◌, IfOk};
ghost use Rattle.script_lines.specs.Words.{number, address, end_at, network, octets, switch, socket, role, name};
ghost use Rattle.script_lines.specs.Item.{script_line_of, IsShort};
ghost use Rattle.script_lines.specs.ScriptLine.{own_line, allow_line, nofetch_line, origin_line, limits_line, key_line, neighbour_line};

use super::address::{read_address, read_end, read_network};
use super::choice::{role, socket, switch};
use super::item::Item;
use super::number::{half, word};
use super::octets::{name, octets, owned};
use neighbours::{Key, Neighbour, Octets};
use std::alloc::{AllocError, Global};

/// `own <address>`.
pub(crate) fn own_item(alloc: Global, a: &[u8]) -> Result<Item, AllocError>
    ensures line { IfOk result (λ item. script_line_of item ≡ own_line (address a.now)) }
    ensures short { IfOk result (λ item. IsShort item) }
{
    match read_address(alloc, a)? {
        Some(addr) => Ok(Item::Own(addr)),
        None => Ok(Item::Wrong),
    }
}

/// `allow <address>/<prefix>`.
pub(crate) fn allow_item(alloc: Global, a: &[u8]) -> Result<Item, AllocError>
    ensures line { IfOk result (λ item. script_line_of item ≡ allow_line (network a.now)) }
    ensures short { IfOk result (λ item. IsShort item) }
{
    match read_network(alloc, a)? {
        Some(network) => Ok(Item::Allow(network)),
        None => Ok(Item::Wrong),
    }
}

/// `nofetch on|off`.
pub(crate) fn nofetch_item(a: &[u8]) -> Item
    ensures line { script_line_of result ≡ nofetch_line (switch a.now) }
    ensures short { IsShort result }
{
    match switch(a) {
        Some(on) => Item::NoFetch(on),
        None => Item::Wrong,
    }
}

/// `origin on|off`.
pub(crate) fn origin_item(a: &[u8]) -> Item
    ensures line { script_line_of result ≡ origin_line (switch a.now) }
    ensures short { IsShort result }
{
    match switch(a) {
        Some(on) => Item::Origin(on),
        None => Item::Wrong,
    }
}

/// `limits <entries> <octets>`.
pub(crate) fn limits_item(a: &[u8], b: &[u8]) -> Item
    ensures line { script_line_of result ≡ limits_line (number 4294967295 a.now) (number 4294967295 b.now) }
    ensures short { IsShort result }
{
    match (word(a), word(b)) {
        (Some(entries), Some(octets)) => Item::Limits { entries, octets },
        _ => Item::Wrong,
    }
}

/// `key <name> <octets>`.
pub(crate) fn key_item(alloc: Global, a: &[u8], b: &[u8]) -> Result<Item, AllocError>
    ensures line { IfOk result (λ item. script_line_of item ≡ key_line a.now (octets b.now)) }
    ensures short { IfOk result (λ item. IsShort item) }
{
    let Some(secret) = octets(alloc, b)? else {
        return Ok(Item::Wrong);
    };
    let name = Octets::new(owned(alloc, a)?);
    let secret = Octets::new(secret);
    Ok(Item::AddKey(Key { name, secret }))
}

/// `peer sibling|parent icp|htcp <end> <http port> <weight> <key name or ->`.
pub(crate) fn neighbour_item(
    alloc: Global,
    a: &[u8],
    b: &[u8],
    c: &[u8],
    d: &[u8],
    e: &[u8],
    f: &[u8],
) -> Result<Item, AllocError>
    ensures line { IfOk result (λ item. script_line_of item
        ≡ neighbour_line (role a.now) (socket b.now) (end_at c.now) (number 65535 d.now) (number 4294967295 e.now) (name f.now)) }
    ensures short { IfOk result (λ item. IsShort item) }
{
    let (Some(kind), Some(protocol), Some(end), Some(http_port), Some(weight)) = (
        role(a),
        socket(b),
        read_end(alloc, c)?,
        half(d),
        word(e),
    ) else {
        return Ok(Item::Wrong);
    };
    let key = name(alloc, f)?;
    Ok(Item::AddNeighbour(Neighbour {
        kind,
        protocol,
        end,
        http_port,
        weight,
        key,
    }))
}
