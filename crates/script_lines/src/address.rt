//! Words that are addresses, endpoints (an address and a port) and networks.
ghost use Rattle.std.specs.Prelude.{◌≡◌, ◌≤◌, IfOk, IfSome, map};
ghost use Rattle.script_lines.specs.Words.{address, address_of, address_and, end_at, network};

use super::number::{number, octet};
use super::parts::parts_of;
use filter_slots::End;
use node_words::Network;
use std::alloc::{AllocError, Global};

// Parses an address from exactly four parts.
fn address_of(parts: &[&[u8]]) -> Option<[u8; 4]>
    ensures { result ≡ address_of (map (λ x. x.now) parts.now) }
{
    match parts {
        [a, b, c, d] => match (octet(*a), octet(*b), octet(*c), octet(*d)) {
            (Some(a), Some(b), Some(c), Some(d)) => Some([a, b, c, d]),
            _ => None,
        },
        _ => None,
    }
}

/// Parses an IPv4 address such as `10.0.0.1`; `None` if it is malformed. Errors: out of memory.
pub(crate) fn read_address(alloc: Global, text: &[u8]) -> Result<Option<[u8; 4]>, AllocError>
    ensures { IfOk result (λ o. o ≡ address text.now) }
{
    let parts = parts_of(alloc, text, b'.')?;
    Ok(address_of(parts.as_slice()))
}

// Parses an address and a number of at most `most` from exactly two parts.
fn address_and(
    alloc: Global,
    parts: &[&[u8]],
    most: u64,
) -> Result<Option<([u8; 4], u64)>, AllocError>
    ensures value { IfOk result (λ o. o ≡ address_and most (map (λ x. x.now) parts.now)) }
    ensures bound { IfOk result (λ o. IfSome o (λ p. p.1 ≤ most)) }
{
    let [addr, n] = parts else {
        return Ok(None);
    };
    match (read_address(alloc, *addr)?, number(*n, most)) {
        (Some(addr), Some(n)) => Ok(Some((addr, n))),
        _ => Ok(None),
    }
}

/// Parses an endpoint such as `10.0.0.1:3130`; `None` if it is malformed. Errors: out of memory.
pub(crate) fn read_end(alloc: Global, text: &[u8]) -> Result<Option<End>, AllocError>
    ensures { IfOk result (λ o. o ≡ end_at text.now) }
{
    let parts = parts_of(alloc, text, b':')?;
    let Some(pair) = address_and(alloc, parts.as_slice(), 65_535)? else {
        return Ok(None);
    };
    let addr = pair.0;
    let port = pair.1 as u16;
    Ok(Some(End { addr, port }))
}

/// Parses a network such as `10.0.0.0/8`; `None` if it is malformed. Errors: out of memory.
pub(crate) fn read_network(alloc: Global, text: &[u8]) -> Result<Option<Network>, AllocError>
    ensures { IfOk result (λ o. o ≡ network text.now) }
{
    let parts = parts_of(alloc, text, b'/')?;
    let Some(pair) = address_and(alloc, parts.as_slice(), 32)? else {
        return Ok(None);
    };
    let addr = pair.0;
    let prefix = pair.1 as u8;
    Ok(Some(Network { addr, prefix }))
}
