//! The target of a request that opens a tunnel.
ghost use Rattle.std.specs.Prelude.{◌≡◌, List, MatchOption, ℕ};
ghost use Rattle.std.specs.List.{list_all};
ghost use Rattle.http_rules.specs.Authorities.{IsAuthority, is_name_octet, is_registered_name, port_of};

use crate::host_field::MOST_NAME_OCTETS;
use crate::seconds::seconds;

/// The end of a tunnel, as a request names it.
#[derive(Clone, Copy)]
pub struct Authority<'a> {
    /// The host: a registered name without percent-encoding, or an IPv4 address.
    pub host: &'a str,
    /// The port, not 0.
    pub port: u16,
}

/// The end that a CONNECT target names in authority-form (RFC 9112, section 3.2.3): a host that is a registered name without
/// percent-encoding or an IPv4 address, of at most 253 octets, a colon, and a port in digits from 1 to 65,535. `None` for any other
/// text.
pub fn authority_of(target: &str) -> Option<Authority<'_>>
    ensures { MatchOption result ((host : List ℕ) (port : ℕ) → IsAuthority target.now host port → ⊥) (λ end. IsAuthority target.now end.host.now end.port) }
{
    let Some((host, digits)) = target.split_once(':') else {
        return None;
    };
    if !is_registered_name(host) {
        return None;
    }
    match port_of(digits) {
        Some(port) => Some(Authority { host, port }),
        None => None,
    }
}

// Whether a text is a registered name (RFC 3986, section 3.2.2) without percent-encoding, of 1 to 253 octets.
fn is_registered_name(text: &str) -> bool
    ensures { result ≡ is_registered_name text.now }
{
    (!text.is_empty() && text.len() <= MOST_NAME_OCTETS) && has_name_octets(text.as_bytes())
}

// Whether each octet may stand in a registered name.
fn has_name_octets(text: &[u8]) -> bool
    ensures { result ≡ list_all is_name_octet text.now }
{
    text.iter().all(|&octet| is_name_octet(octet))
}

/// Whether an octet may stand in a registered name: an unreserved character or a sub-delimiter (RFC 3986, sections 2.2 and 2.3).
pub(crate) fn is_name_octet(octet: u8) -> bool
    ensures { result ≡ is_name_octet octet }
{
    octet.is_ascii_alphanumeric()
        || matches!(octet, b'-' | b'.' | b'_' | b'~')
        || matches!(
            octet,
            b'!' | b'$' | b'&' | b'\'' | b'(' | b')' | b'*' | b'+' | b',' | b';' | b'='
        )
}

// The port that digits say, from 1 to 65,535; `None` for any other text.
fn port_of(digits: &str) -> Option<u16>
    ensures { result ≡ port_of digits.now }
{
    match seconds(digits.as_bytes()) {
        Some(n) if 1 <= n && n <= 65_535 => Some(n as u16),
        _ => None,
    }
}
