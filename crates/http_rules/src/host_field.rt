//! The value of a Host field, and how long a name may be.
ghost use Rattle.std.specs.Prelude.{◌≡◌, ◌≤◌, ◌==◌, ◌||◌, IsTrue, length, drop};
ghost use Rattle.std.specs.List.{list_all, position_or_len};
ghost use Rattle.std.specs.Char.{is_ascii_digit};
ghost use Rattle.std.specs.declared.net.ipv6_addr.Ipv6Addr.{Ipv6Addr};
ghost use Rattle.std.specs.Net.Grammar.{IsIpv6Text};
ghost use Rattle.http_rules.specs.HostFields.{IsBracketedHost, IsHost, begins_with_octet, has_long_name, is_named_host, is_port_part, is_reg_name, place_of};

use crate::authority::is_name_octet;
use object_store::CacheKey;
use std::net::Ipv6Addr;

/// The most octets of a name (RFC 1035, section 2.3.4).
pub(crate) const MOST_NAME_OCTETS: usize = 253;

/// The octets of `http://`.
pub(crate) const SCHEME_OCTETS: usize = 7;

/// Whether a text is the value of a Host field (RFC 9112, section 3.2): a name of at most 253 octets or an address, one of IPv6 in
/// brackets, and, behind a colon, the digits of a port, if there are any. An empty one is, too: that of a target without a host.
pub fn is_host(value: &[u8]) -> bool
    ensures sound { IsTrue result → IsHost value.now }
    ensures whole { IsHost value.now → IsTrue result }
{
    match value {
        [] => true,
        [b'[', rest @ ..] => is_bracketed_host(rest),
        _ => is_named_host(value),
    }
}

// Whether a text is an address of IPv6, the bracket behind it, and a port, if there is one.
fn is_bracketed_host(rest: &[u8]) -> bool
    ensures sound { IsTrue result → IsBracketedHost rest.now }
    ensures whole { IsBracketedHost rest.now → IsTrue result }
{
    let end = place_of(b']', rest);
    if rest.len() <= end {
        return false;
    }
    let (_, behind) = rest.split_at(end + 1);
    is_six_text(&rest[..end]) && is_port_part(behind)
}

// Whether a text is an address of IPv6.
fn is_six_text(text: &[u8]) -> bool
    ensures sound { IsTrue result → (address : Ipv6Addr) × IsIpv6Text text.now address }
    ensures whole { (address : Ipv6Addr) → IsIpv6Text text.now address → IsTrue result }
{
    match Ipv6Addr::parse_ascii(text) {
        Ok(_) => true,
        Err(_) => false,
    }
}

// Whether a text is a name of at most 253 octets, and a port, if there is one.
fn is_named_host(value: &[u8]) -> bool
    ensures { result ≡ is_named_host value.now }
{
    let end = place_of(b':', value);
    is_reg_name(&value[..end]) && end <= MOST_NAME_OCTETS && is_port_part(&value[end..])
}

/// The place of the first octet that is this one, or the length.
pub(crate) fn place_of(octet: u8, text: &[u8]) -> usize
    ensures value { result ≡ place_of octet text.now }
    ensures bound { result ≤ length text.now }
{
    for i in 0..text.len() {
        if text[i] == octet {
            return i;
        }
    }
    text.len()
}

// Whether a text is nothing, or a colon and digits.
fn is_port_part(text: &[u8]) -> bool
    ensures { result ≡ is_port_part text.now }
{
    match text {
        [] => true,
        [first, digits @ ..] => *first == b':' && has_digits(digits),
    }
}

// Whether each octet is a digit.
fn has_digits(text: &[u8]) -> bool
    ensures { result ≡ list_all is_ascii_digit text.now }
{
    text.iter().all(|octet| octet.is_ascii_digit())
}

// Whether a text is a registered name (RFC 3986, section 3.2.2), which may be empty.
fn is_reg_name(text: &[u8]) -> bool
    ensures { result ≡ is_reg_name text.now }
{
    for i in 0..text.len() {
        if !(is_name_octet(text[i]) || (text[i] == b'%' && begins_with_octet(&text[i + 1..]))) {
            return false;
        }
    }
    true
}

// Whether a text begins with two hexadecimal digits.
fn begins_with_octet(text: &[u8]) -> bool
    ensures { result ≡ begins_with_octet text.now }
{
    match text {
        [first, second, ..] => first.is_ascii_hexdigit() && second.is_ascii_hexdigit(),
        _ => false,
    }
}

/// Whether the name in a key is longer than 253 octets, so that no server can have it (RFC 1035, section 2.3.4).
pub fn has_long_name(key: &CacheKey) -> bool
    ensures { result ≡ has_long_name key.now }
{
    MOST_NAME_OCTETS < name_len(&key.as_slice()[SCHEME_OCTETS..])
}

// How many octets there are before the first colon or slash.
fn name_len(text: &[u8]) -> usize
    ensures value { result ≡ position_or_len (λ c. c == 58 || c == 47) text.now }
    ensures bound { result ≤ length text.now }
{
    for i in 0..text.len() {
        if text[i] == b':' || text[i] == b'/' {
            return i;
        }
    }
    text.len()
}
