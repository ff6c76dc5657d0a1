//! The answer that a stored object gives to a request with conditions or a range (RFC 9110, sections 13 and 14; RFC 9111, section
//! 4.3.2).
ghost use Rattle.std.specs.Prelude.{◌≡◌, bytes_eq, codes};
ghost use Rattle.std.specs.List.{list_any};
ghost use Rattle.http_rules.specs.Fields.{fields_of, values_of};
ghost use Rattle.http_rules.specs.EntityTags.{lists_weak_match};
ghost use Rattle.http_rules.specs.Validators.{stored_fields};
ghost use Rattle.http_rules.specs.Conditions.{answer_to, is_for_origin, not_modified_names, is_unchanged, matches_any, names_object, is_unmodified, part_asked_for, range_still_holds, is_validator_of, has_date};

use crate::entity_tag::{is_entity_tag, lists_weak_match, match_strongly};
use crate::fields::{has_field, values_of};
use crate::ranges::{range_of, selected};
use crate::validators::{
    entity_tag_of, modified_at, only_date, only_value, seconds_of, stored_date,
};
use http_header::HeaderMap;

/// The answer that a stored object with status 200 gives to a request for it.
#[derive(Clone, Copy, PartialEq, Eq)]
pub enum StoredAnswer {
    /// The whole object, with status 200.
    Whole,
    /// The client's copy is as the object is: status 304, without content.
    NotModified,
    /// The octets from the first place to the last one, with status 206. Both are places of octets of the body, counted from 0.
    Part { first: usize, last: usize },
    /// No octet is in the range: status 416.
    Unsatisfiable,
}

/// The answer to a request with this method and head from a stored object with these fields (names in lower case) and a body of
/// `length` octets. Conditions are evaluated first and the range after them (RFC 9110, section 13.2.2); a method other than GET and
/// HEAD gets the whole object, and so do HEAD with a range and a request with conditions for the origin server (`is_for_origin`).
pub fn answer_to(
    method: &str,
    head: &HeaderMap,
    object: &[(Vec<u8>, Vec<u8>)],
    length: usize,
) -> StoredAnswer
    ensures { result ≡ answer_to method.now (fields_of head.now) (stored_fields object.now) length }
{
    let is_get = method == "GET";
    if (!is_get && method != "HEAD") || is_for_origin(head) {
        return StoredAnswer::Whole;
    }
    if is_unchanged(head, object) {
        return StoredAnswer::NotModified;
    }
    if is_get {
        part_asked_for(head, object, length)
    } else {
        StoredAnswer::Whole
    }
}

/// Whether a request has conditions that only an origin server evaluates (RFC 9110, sections 13.1.1 and 13.1.4).
pub fn is_for_origin(head: &HeaderMap) -> bool
    ensures { result ≡ is_for_origin (fields_of head.now) }
{
    has_field(head, "if-match") || has_field(head, "if-unmodified-since")
}

/// Whether a response with status 304 carries the stored fields with this name (RFC 9110, section 15.4.5). `name` is in lower case.
pub fn is_in_not_modified(name: &[u8]) -> bool
    ensures { result ≡ list_any (bytes_eq name.now) not_modified_names }
{
    name == b"cache-control".as_slice()
        || name == b"content-location".as_slice()
        || name == b"date".as_slice()
        || name == b"etag".as_slice()
        || name == b"expires".as_slice()
        || name == b"last-modified".as_slice()
        || name == b"vary".as_slice()
}

// Whether the conditions of a request say that the client's copy is as the object is.
fn is_unchanged(head: &HeaderMap, object: &[(Vec<u8>, Vec<u8>)]) -> bool
    ensures { result ≡ is_unchanged (fields_of head.now) (stored_fields object.now) }
{
    if has_field(head, "if-none-match") {
        names_object(head, object)
    } else {
        is_unmodified(head, object)
    }
}

// Whether If-None-Match names the object: by `*`, or by its entity tag.
fn names_object(head: &HeaderMap, object: &[(Vec<u8>, Vec<u8>)]) -> bool
    ensures { result ≡ names_object (fields_of head.now) (stored_fields object.now) }
{
    if matches_any(head) {
        return true;
    }
    match entity_tag_of(object) {
        Some(tag) => lists_tag(head, tag),
        None => false,
    }
}

// Whether If-None-Match is `*`.
fn matches_any(head: &HeaderMap) -> bool
    ensures { result ≡ matches_any (fields_of head.now) }
{
    match only_value(head, "if-none-match") {
        Some(value) => value == b"*".as_slice(),
        None => false,
    }
}

// Whether an If-None-Match field lists this tag.
fn lists_tag(head: &HeaderMap, tag: &[u8]) -> bool
    ensures { result ≡ list_any (lists_weak_match tag.now) (values_of (codes "if-none-match") (fields_of head.now)) }
{
    for value in values_of(head, "if-none-match") {
        if lists_weak_match(tag, value.as_bytes()) {
            return true;
        }
    }
    false
}

// Whether the object was not modified since the date of If-Modified-Since.
fn is_unmodified(head: &HeaderMap, object: &[(Vec<u8>, Vec<u8>)]) -> bool
    ensures { result ≡ is_unmodified (fields_of head.now) (stored_fields object.now) }
{
    let Some(since) = only_date(head, "if-modified-since") else {
        return false;
    };
    match modified_at(object) {
        Some(modified) => modified <= since,
        None => false,
    }
}

// The answer to a request whose conditions do not stop it: the part of the object that its Range asks for, or the whole.
fn part_asked_for(head: &HeaderMap, object: &[(Vec<u8>, Vec<u8>)], length: usize) -> StoredAnswer
    ensures { result ≡ part_asked_for (fields_of head.now) (stored_fields object.now) length }
{
    let Some(value) = only_value(head, "range") else {
        return StoredAnswer::Whole;
    };
    let Some(range) = range_of(value) else {
        return StoredAnswer::Whole;
    };
    if range_still_holds(head, object) {
        selected(range, length)
    } else {
        StoredAnswer::Whole
    }
}

// Whether the range of a request holds for the object: where there is If-Range, its validator has to be the object's.
fn range_still_holds(head: &HeaderMap, object: &[(Vec<u8>, Vec<u8>)]) -> bool
    ensures { result ≡ range_still_holds (fields_of head.now) (stored_fields object.now) }
{
    if !has_field(head, "if-range") {
        return true;
    }
    match only_value(head, "if-range") {
        Some(value) => is_validator_of(value, object),
        None => false,
    }
}

// Whether a validator is the object's, and a strong one.
fn is_validator_of(value: &[u8], object: &[(Vec<u8>, Vec<u8>)]) -> bool
    ensures { result ≡ is_validator_of value.now (stored_fields object.now) }
{
    if !is_entity_tag(value) {
        return has_date(value, object);
    }
    match entity_tag_of(object) {
        Some(tag) => match_strongly(value, tag),
        None => false,
    }
}

// Whether a date is exactly the object's Last-Modified, and the object's Date is at least 60 seconds later.
fn has_date(value: &[u8], object: &[(Vec<u8>, Vec<u8>)]) -> bool
    ensures { result ≡ has_date value.now (stored_fields object.now) }
{
    let Some(given) = seconds_of(value) else {
        return false;
    };
    let Some(modified) = stored_date(object, b"last-modified") else {
        return false;
    };
    match stored_date(object, b"date") {
        Some(sent) => given == modified && 60 <= sent.saturating_sub(modified),
        None => false,
    }
}
