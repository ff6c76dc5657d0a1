//! The order in which the addresses of a name are connected to.
ghost use Rattle.std.specs.Prelude.{◌≡◌, ◌≤◌, ◌++◌, [], IfOk, drop, length, take};
ghost use Rattle.std.specs.List.{list_any};
ghost use Rattle.fair_use.specs.Turns.{by_turns, first_ones, forward, in_turn, is_of, is_same};

use std::alloc::{AllocError, Global};
use std::net::IpAddr;

/// The most addresses of a name that are connected to.
const MOST: usize = 8;

/// The addresses of a name in the order in which they are connected to: the families by turns (RFC 8305, section 4), IPv4 first, each family
/// in the order in which the resolver gave its addresses, each address once, and at most 8 in all. Those of IPv6 only where `has_six`.
/// Errors: out of memory.
pub fn in_turn(
    alloc: Global,
    addresses: &[IpAddr],
    has_six: bool,
) -> Result<Vec<IpAddr>, AllocError>
    ensures { IfOk result (λ list. list.items ≡ in_turn addresses.now has_six) }
{
    let four = first_ones(alloc, addresses, true)?;
    if !has_six {
        return Ok(cut(four));
    }
    let six = first_ones(alloc, addresses, false)?;
    Ok(cut(by_turns(alloc, four.as_slice(), six.as_slice())?))
}

// The first of these addresses, as many as are connected to.
fn cut(addresses: Vec<IpAddr>) -> Vec<IpAddr>
    ensures { result.items ≡ take 8 addresses.items }
{
    let mut addresses = addresses;
    addresses.truncate(MOST);
    addresses
}

// The addresses of IPv4, or those of IPv6, each where it stands first. Errors: out of memory.
fn first_ones(alloc: Global, addresses: &[IpAddr], is_four: bool) -> Result<Vec<IpAddr>, AllocError>
    ensures { IfOk result (λ list. list.items ≡ first_ones is_four [] addresses.now) }
{
    let mut found = Vec::new(alloc);
    for place in 0..addresses.len() {
        let address = addresses[place];
        if is_of(is_four, address) && !is_among(found.as_slice(), address) {
            found.push(address)?;
        }
    }
    Ok(found)
}

// Whether this address is one of IPv4, or where `is_four` is false, one of IPv6.
fn is_of(is_four: bool, address: IpAddr) -> bool
    ensures { result ≡ is_of is_four address }
{
    match address {
        IpAddr::V4(_) => is_four,
        IpAddr::V6(_) => !is_four,
    }
}

// Whether this address is one of these.
fn is_among(addresses: &[IpAddr], address: IpAddr) -> bool
    ensures { result ≡ list_any (is_same address) addresses.now }
{
    for place in 0..addresses.len() {
        if is_same(address, addresses[place]) {
            return true;
        }
    }
    false
}

// Whether both are the same address.
fn is_same(one: IpAddr, other: IpAddr) -> bool
    ensures { result ≡ is_same one other }
{
    match (one, other) {
        (IpAddr::V4(one), IpAddr::V4(other)) => one.to_bits() == other.to_bits(),
        (IpAddr::V6(one), IpAddr::V6(other)) => one.to_bits() == other.to_bits(),
        _ => false,
    }
}

// Two lists by turns, beginning with the first one; what one has more than the other stands at the end. Errors: out of memory.
fn by_turns(alloc: Global, first: &[IpAddr], second: &[IpAddr]) -> Result<Vec<IpAddr>, AllocError>
    ensures { IfOk result (λ list. list.items ≡ by_turns first.now second.now) }
{
    let pairs = first.len().min(second.len());
    let turns = pairs_of(alloc, first, second, pairs)?;
    let list = joined(turns, first, second, pairs)?;
    Ok(list)
}

// So many addresses of each of two lists by turns. Errors: out of memory.
fn pairs_of(
    alloc: Global,
    first: &[IpAddr],
    second: &[IpAddr],
    pairs: usize,
) -> Result<Vec<IpAddr>, AllocError>
    requires first { pairs ≤ length first.now }
    requires second { pairs ≤ length second.now }
    ensures { IfOk result (λ list. list.items ++ by_turns (drop pairs first.now) (drop pairs second.now) ≡ by_turns first.now second.now) }
{
    let mut turns = Vec::new(alloc);
    for place in 0..pairs {
        turns.push(first[place])?;
        turns.push(second[place])?;
    }
    Ok(turns)
}

// A list, and behind it what two others have from this place on. Errors: out of memory.
fn joined(
    turns: Vec<IpAddr>,
    first: &[IpAddr],
    second: &[IpAddr],
    place: usize,
) -> Result<Vec<IpAddr>, AllocError>
    requires first { place ≤ length first.now }
    requires second { place ≤ length second.now }
    ensures { IfOk result (λ list. list.items ≡ turns.items ++ drop place first.now ++ drop place second.now) }
{
    let mut joined = turns;
    joined.extend_from_slice(&first[place..])?;
    joined.extend_from_slice(&second[place..])?;
    Ok(joined)
}

/// These addresses with the one at this place before the others, if there is one. Errors: out of memory.
pub fn forward(alloc: Global, addresses: &[IpAddr], place: usize) -> Result<Vec<IpAddr>, AllocError>
    ensures { IfOk result (λ list. list.items ≡ forward place addresses.now) }
{
    let mut list = Vec::new(alloc);
    if place < addresses.len() {
        list.push(addresses[place])?;
        list.extend_from_slice(&addresses[..place])?;
        list.extend_from_slice(&addresses[place + 1..])?;
    } else {
        list.extend_from_slice(addresses)?;
    }
    Ok(list)
}
