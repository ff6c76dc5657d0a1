//! Validators and dates in the fields of requests and of stored objects (RFC 9110, section 8.8).
ghost use Rattle.std.specs.Prelude.{◌≡◌};
ghost use Rattle.std.specs.Option.{option_copied};
ghost use Rattle.http_header.specs.Token.{lowercase};
ghost use Rattle.httpdate.specs.Date.{parse_secs};
ghost use Rattle.http_rules.specs.Fields.{fields_of, has_field};
ghost use Rattle.http_rules.specs.Validators.{stored_fields, only_value, only_date, entity_tag_of, modified_at};

use crate::entity_tag::is_entity_tag;
use crate::fields::values_of;
use http_header::HeaderMap;
use httpdate::HttpDate;

/// The value of the only field of a head with this name. `None` if there is none, or more than one. `name` is in lower case.
pub(crate) fn only_value<'a>(head: &'a HeaderMap, name: &str) -> Option<&'a [u8]>
    requires { lowercase name.now ≡ name.now }
    ensures { option_copied result ≡ only_value name.now (fields_of head.now) }
{
    let mut values = values_of(head, name).into_iter();
    let Some(value) = values.next() else {
        return None;
    };
    if values.next().is_some() {
        return None;
    }
    Some(value.as_bytes())
}

/// The date in the only field of a head with this name, in seconds since 1970. `name` is in lower case.
pub(crate) fn only_date(head: &HeaderMap, name: &str) -> Option<u64>
    requires { lowercase name.now ≡ name.now }
    ensures { result ≡ only_date name.now (fields_of head.now) }
{
    match only_value(head, name) {
        Some(value) => seconds_of(value),
        None => None,
    }
}

/// The date that a text shows, in seconds since 1970.
pub(crate) fn seconds_of(text: &[u8]) -> Option<u64>
    ensures { result ≡ parse_secs text.now }
{
    match HttpDate::parse_ascii(text) {
        Ok(date) => Some(date.unix_secs()),
        Err(_) => None,
    }
}

/// The value of the only stored field with this name. `None` if there is none, or more than one. `name` is in lower case.
pub(crate) fn stored_value<'a>(object: &'a [(Vec<u8>, Vec<u8>)], name: &[u8]) -> Option<&'a [u8]>
    ensures { option_copied result ≡ only_value name.now (stored_fields object.now) }
{
    let mut found: Option<&[u8]> = None;
    for i in 0..object.len() {
        if object[i].0.as_slice() == name {
            if found.is_some() {
                return None;
            }
            found = Some(object[i].1.as_slice());
        }
    }
    found
}

/// Whether there is a stored field with this name. `name` is in lower case.
pub(crate) fn has_stored(object: &[(Vec<u8>, Vec<u8>)], name: &[u8]) -> bool
    ensures { result ≡ has_field name.now (stored_fields object.now) }
{
    for i in 0..object.len() {
        if object[i].0.as_slice() == name {
            return true;
        }
    }
    false
}

/// The date in the only stored field with this name, in seconds since 1970. `name` is in lower case.
pub(crate) fn stored_date(object: &[(Vec<u8>, Vec<u8>)], name: &[u8]) -> Option<u64>
    ensures { result ≡ only_date name.now (stored_fields object.now) }
{
    match stored_value(object, name) {
        Some(value) => seconds_of(value),
        None => None,
    }
}

/// The entity tag of a stored object: its only ETag field, if that is an entity tag.
pub(crate) fn entity_tag_of(object: &[(Vec<u8>, Vec<u8>)]) -> Option<&[u8]>
    ensures { option_copied result ≡ entity_tag_of (stored_fields object.now) }
{
    match stored_value(object, b"etag") {
        Some(tag) if is_entity_tag(tag) => Some(tag),
        _ => None,
    }
}

/// When a stored object was modified, in seconds since 1970, as If-Modified-Since is compared with it: its Last-Modified, or its Date
/// if it has no Last-Modified (RFC 9111, section 4.3.2).
pub(crate) fn modified_at(object: &[(Vec<u8>, Vec<u8>)]) -> Option<u64>
    ensures { result ≡ modified_at (stored_fields object.now) }
{
    if has_stored(object, b"last-modified") {
        stored_date(object, b"last-modified")
    } else {
        stored_date(object, b"date")
    }
}
