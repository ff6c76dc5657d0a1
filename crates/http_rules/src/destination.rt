//! Where a key leads to.
ghost use Rattle.std.specs.Prelude.{◌≡◌, ◌≤◌, ◌+◌, ◌∷◌, codes, length, take, true, MatchOption};
ghost use Rattle.http_rules.specs.Destinations.{IsBare, IsDestination, authority_len, bracketed_len, ends_authority, is_rooted, leads_nowhere, name_len, port_behind, target_of};
ghost use Rattle.http_rules.specs.HostFields.{place_of};

use crate::host_field::{SCHEME_OCTETS, place_of};
use crate::seconds::seconds;
use object_store::CacheKey;

/// The port of `http` where none is written.
const USUAL_PORT: u16 = 80;

/// Where a key leads to.
#[derive(Clone, Copy)]
pub struct Destination<'a> {
    /// The name of the server or its address, one of IPv6 in brackets.
    pub name: &'a [u8],
    /// Its port.
    pub port: u16,
    /// The authority, which is the value of Host: the name, and the port if one is written.
    pub host: &'a [u8],
    /// What the server is asked for: the path and the query.
    pub target: &'a [u8],
}

/// Where this key leads to. `None` if the port is no number of 16 bits, or a query or a fragment is right behind the authority.
pub fn destination_of(key: &CacheKey) -> Option<Destination<'_>>
    ensures leads { MatchOption result (leads_nowhere key.now ≡ true) (λ d. IsDestination key.now d.name.now d.port d.host.now d.target.now) }
{
    destination_in(key.as_slice())
}

// Where the key of these octets leads to.
#[tactic(auto, using(crate::proofs::Destinations::unrooted, crate::proofs::Destinations::unnumbered))]
fn destination_in(key: &[u8]) -> Option<Destination<'_>>
    requires long { 7 ≤ length key.now }
    requires begins { take 7 key.now ≡ codes "http://" }
    ensures leads { MatchOption result (leads_nowhere key.now ≡ true) (λ d. IsDestination key.now d.name.now d.port d.host.now d.target.now) }
{
    let (_, behind) = key.split_at(SCHEME_OCTETS);
    let (host, rest) = behind.split_at(authority_len(behind));
    if !is_rooted(rest) {
        return None;
    }
    let (name, written) = host.split_at(name_len(host));
    match port_behind(written) {
        Some(port) => Some(Destination {
            name,
            port,
            host,
            target: target_of(rest),
        }),
        None => None,
    }
}

// How many octets the authority has that a text begins with.
fn authority_len(text: &[u8]) -> usize
    ensures value { result ≡ authority_len text.now }
    ensures bound { result ≤ length text.now }
{
    for i in 0..text.len() {
        if ends_authority(text[i]) {
            return i;
        }
    }
    text.len()
}

// Whether an octet ends an authority.
fn ends_authority(octet: u8) -> bool
    ensures { result ≡ ends_authority octet }
{
    octet == b'/' || (octet == b'?' || octet == b'#')
}

// Whether what is behind the authority is nothing, or begins with a slash.
fn is_rooted(rest: &[u8]) -> bool
    ensures { result ≡ is_rooted rest.now }
{
    match rest {
        [] => true,
        [first, ..] => *first == b'/',
    }
}

// How many octets the name in an authority has.
#[tactic(auto, using(crate::proofs::Destinations::bare))]
fn name_len(host: &[u8]) -> usize
    ensures value { result ≡ name_len host.now }
    ensures bare { IsBare (take result host.now) }
    ensures bound { result ≤ length host.now }
{
    match host {
        [b'[', rest @ ..] => bracketed_len(rest),
        _ => place_of(b':', host),
    }
}

// How many octets the name has that begins with a bracket, which this is behind.
#[tactic(auto, using(crate::proofs::Destinations::closes, crate::proofs::Destinations::unclosed))]
fn bracketed_len(rest: &[u8]) -> usize
    ensures value { result ≡ bracketed_len rest.now }
    ensures bare { IsBare (take result (91 ∷ rest.now)) }
    ensures bound { result ≤ length rest.now + 1 }
{
    let end = place_of(b']', rest);
    if end < rest.len() {
        return end + 2;
    }
    place_of(b':', rest) + 1
}

// The port that is behind a name: 80 where there is nothing, or the number of 16 bits behind a colon.
fn port_behind(written: &[u8]) -> Option<u16>
    ensures { result ≡ port_behind written.now }
{
    match written {
        [] => Some(USUAL_PORT),
        [b':', digits @ ..] => number_of(digits),
        _ => None,
    }
}

// The number of 16 bits that digits say.
fn number_of(digits: &[u8]) -> Option<u16>
    ensures { result ≡ port_behind (58 ∷ digits.now) }
{
    match seconds(digits) {
        Some(n) if n <= 65_535 => Some(n as u16),
        _ => None,
    }
}

// What is asked of the server: what is behind the authority, or a slash.
fn target_of(rest: &[u8]) -> &[u8]
    ensures { result.now ≡ target_of rest.now }
{
    if rest.is_empty() { b"/" } else { rest }
}
