//! Which fields a request that is passed on takes along (RFC 9110, section 7.6), and which methods are safe.
ghost use Rattle.std.specs.List.{list_any};
ghost use Rattle.std.specs.Prelude.{◌≡◌, ◌==◌, ◌||◌, ◌<◌, IfOk, IsErrOf, length, map};
ghost use Rattle.http_rules.specs.Fields.{fields_of};
ghost use Rattle.http_rules.specs.Forwarding.{options};
ghost use Rattle.http_rules.specs.Passing.{GoesOnward, has_no_hops, has_no_path, hops, is_counted, is_for_server, is_made_anew, is_unsafe, is_zero, onward_fields, onward_value};

use crate::fields::values_of;
use crate::forwarding::{Onward, PassFault, end_to_end};
use crate::host_field::SCHEME_OCTETS;
use crate::seconds::seconds;
use crate::text::is_name;
use http_header::HeaderMap;
use std::alloc::{AllocError, Global};

/// Whether a method is none of those that are known to be safe (RFC 9110, section 9.2.1).
pub fn is_unsafe(method: &str) -> bool
    ensures { result ≡ is_unsafe method.now }
{
    !matches!(method, "GET" | "HEAD" | "OPTIONS" | "TRACE")
}

/// What becomes of a request with this method and head: whether it is passed on, and the fields that are forwarded, as
/// [`end_to_end`] has them, without Host and Content-Length, which are made anew, and Expect, which is answered here.
///
/// Max-Forwards counts in requests with OPTIONS (RFC 9110, section 7.6.2; TRACE is not passed on): with 0 this proxy is the last recipient, another
/// number is forwarded less one, at most 2,147,483,647, and what is no number as it is.
///
/// Errors: the Connection fields have more than 64 elements in all, or out of memory.
pub fn onward(alloc: Global, method: &str, head: &HeaderMap) -> Result<Onward, PassFault>
    ensures goes { IfOk result (λ onward. GoesOnward method.now (fields_of head.now) onward) }
    ensures many { IsErrOf result PassFault.TooManyNames → 64 < length (options (fields_of head.now)) }
{
    let is_counted = is_counted(method);
    if is_counted && has_no_hops(head) {
        return Ok(Onward::Last);
    }
    let fields = end_to_end(alloc, head)?;
    Ok(Onward::Pass(onward_fields(alloc, is_counted, fields)?))
}

/// Whether a request is about its server as a whole: OPTIONS for an `http` URL with an empty path and no query. The last proxy on its way
/// sends it with the target `*` (RFC 9112, section 3.2.4).
pub fn is_for_server(method: &str, target: &str) -> bool
    ensures { result ≡ is_for_server method.now target.now }
{
    is_counted(method) && has_no_path(target.as_bytes())
}

// Whether a target is an `http` URL with nothing behind its host and port.
fn has_no_path(target: &[u8]) -> bool
    ensures { result ≡ has_no_path target.now }
{
    SCHEME_OCTETS <= target.len()
        && (is_name(&target[..SCHEME_OCTETS], b"http://") && !has_path(&target[SCHEME_OCTETS..]))
}

// Whether a path or a query begins in a text.
fn has_path(text: &[u8]) -> bool
    ensures { result ≡ list_any (λ c. c == 47 || c == 63) text.now }
{
    text.iter().any(|&octet| octet == b'/' || octet == b'?')
}

// Whether Max-Forwards counts in requests with this method.
fn is_counted(method: &str) -> bool
    ensures { result ≡ is_counted method.now }
{
    method == "OPTIONS"
}

// Whether a Max-Forwards field of a head is 0.
fn has_no_hops(head: &HeaderMap) -> bool
    ensures { result ≡ has_no_hops (fields_of head.now) }
{
    for value in values_of(head, "max-forwards") {
        if is_zero(value.as_bytes()) {
            return true;
        }
    }
    false
}

// Whether a Max-Forwards value is 0.
fn is_zero(value: &[u8]) -> bool
    ensures { result ≡ is_zero (hops value.now) }
{
    match seconds(value) {
        Some(hops) => hops == 0,
        None => false,
    }
}

// Those of these fields that are forwarded, with the values that they are forwarded with.
fn onward_fields(
    alloc: Global,
    is_counted: bool,
    fields: Vec<(Vec<u8>, Vec<u8>)>,
) -> Result<Vec<(Vec<u8>, Vec<u8>)>, AllocError>
    ensures { IfOk result (λ kept. map (λ f. (f.0.items, f.1.items)) kept.items ≡ onward_fields is_counted (map (λ f. (f.0.items, f.1.items)) fields.items)) }
{
    let mut kept = Vec::new(alloc);
    for (name, value) in fields {
        if !is_made_anew(name.as_slice()) {
            let value = onward_value(alloc, is_counted, name.as_slice(), value)?;
            kept.push((name, value))?;
        }
    }
    Ok(kept)
}

// Whether fields with this name do not go on as they came: they are made anew, or end here.
fn is_made_anew(name: &[u8]) -> bool
    ensures { result ≡ is_made_anew name.now }
{
    name == b"host".as_slice()
        || name == b"expect".as_slice()
        || name == b"content-length".as_slice()
}

// The value that a field is forwarded with.
fn onward_value(
    alloc: Global,
    is_counted: bool,
    name: &[u8],
    value: Vec<u8>,
) -> Result<Vec<u8>, AllocError>
    ensures { IfOk result (λ after. after.items ≡ onward_value is_counted name.now value.items) }
{
    if !is_counted || name != b"max-forwards".as_slice() {
        return Ok(value);
    }
    match seconds(value.as_slice()) {
        Some(hops) => Ok(hops.saturating_sub(1).to_string(alloc)?.into_bytes()),
        None => Ok(value),
    }
}
