//! Which requests to the administration are the administrator's.
ghost use Rattle.std.specs.Prelude.{◌≡◌, codes, take, drop};
ghost use Rattle.std.specs.List.{list_all};
ghost use Rattle.http_rules.specs.Fields.{fields_of, values_of};
ghost use Rattle.http_rules.specs.Administrator.{is_loopback_name, is_port_part, is_own_host, is_own_origin, is_path, begins_with_host, is_of_host, names_own_host, is_administrator};

use crate::fields::{has_field, values_of};
use crate::text::is_name;
use http_header::HeaderMap;

/// Whether a request with these fields and this target is the administrator's, where the administration is served on `port`.
///
/// It has exactly one Host, which is `127.0.0.1` or `localhost` (in any case) with the port, or without one if the port is 80; a
/// target in absolute form names the same host; it has no Via (RFC 9110, section 7.6.3), which every proxy adds; and each Origin
/// (RFC 6454) is `http://` and such a host.
pub fn is_administrator(head: &HeaderMap, target: &[u8], port: u16) -> bool
    ensures { result ≡ is_administrator port target.now (fields_of head.now) }
{
    names_own_host(head, target, port) && (!has_field(head, "via") && has_own_origins(head, port))
}

// Whether there is exactly one Host, which is the administration's, and the target names no other one.
fn names_own_host(head: &HeaderMap, target: &[u8], port: u16) -> bool
    ensures { result ≡ names_own_host port target.now (values_of (codes "host") (fields_of head.now)) }
{
    let mut hosts = values_of(head, "host").into_iter();
    let Some(host) = hosts.next() else {
        return false;
    };
    if hosts.next().is_some() {
        return false;
    }
    let host = host.as_bytes();
    is_own_host(host, port) && is_of_host(target, host)
}

// Whether each Origin is that of the administration.
fn has_own_origins(head: &HeaderMap, port: u16) -> bool
    ensures { result ≡ list_all (is_own_origin port) (values_of (codes "origin") (fields_of head.now)) }
{
    for value in values_of(head, "origin") {
        if !is_own_origin(value.as_bytes(), port) {
            return false;
        }
    }
    true
}

// Whether a text is the origin of a page that the administration itself would have served.
fn is_own_origin(text: &[u8], port: u16) -> bool
    ensures { result ≡ is_own_origin port text.now }
{
    match text.strip_prefix(b"http://".as_slice()) {
        Some(host) => is_own_host(host, port),
        None => false,
    }
}

// Whether a text is the host and port of the administration.
fn is_own_host(text: &[u8], port: u16) -> bool
    ensures { result ≡ is_own_host port text.now }
{
    let (name, rest) = text.split_at(text.len().min(9));
    is_loopback_name(name) && is_port_part(rest, port)
}

// Whether a text is `127.0.0.1`, or `localhost` in any case.
fn is_loopback_name(name: &[u8]) -> bool
    ensures { result ≡ is_loopback_name name.now }
{
    is_name(name, b"127.0.0.1") || is_name(name, b"localhost")
}

// Whether a text is a colon and the port in decimal, or empty while the port is 80.
fn is_port_part(text: &[u8], port: u16) -> bool
    ensures { result ≡ is_port_part port text.now }
{
    let Some((colon, digits)) = text.split_first() else {
        return port == 80;
    };
    let mut buffer = itoa::Buffer::new();
    *colon == b':' && digits == buffer.format(port).as_bytes()
}

// Whether a target is no URL, or is one of this host.
fn is_of_host(target: &[u8], host: &[u8]) -> bool
    ensures { result ≡ is_of_host host.now target.now }
{
    match target.strip_prefix(b"http://".as_slice()) {
        Some(rest) => begins_with_host(rest, host),
        None => true,
    }
}

// Whether a text is a host, then nothing or a path.
fn begins_with_host(text: &[u8], host: &[u8]) -> bool
    ensures { result ≡ begins_with_host host.now text.now }
{
    match text.strip_prefix(host) {
        Some(rest) => is_path(rest),
        None => false,
    }
}

// Whether a text is empty or a path.
fn is_path(text: &[u8]) -> bool
    ensures { result ≡ is_path text.now }
{
    match text.split_first() {
        Some((first, _)) => *first == b'/',
        None => true,
    }
}
