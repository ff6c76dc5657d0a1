//! Validation of a stored object by its origin server (RFC 9111, section 4.3).
ghost use Rattle.std.specs.Prelude.{◌≡◌, IfOk};
ghost use Rattle.std.specs.Option.{option_copied};
ghost use Rattle.http_rules.specs.Fields.{fields_of};
ghost use Rattle.http_rules.specs.Elements.{Finds};
ghost use Rattle.http_rules.specs.Validators.{stored_fields};
ghost use Rattle.http_rules.specs.Validation.{modified_text, conditions_for, has_validator, has_conditions, may_validate, is_as_old, is_same_tag, is_about};

use crate::conditions::is_for_origin;
use crate::directives::Directives;
use crate::entity_tag::{is_weak, match_strongly, match_weakly};
use crate::fields::has_field;
use crate::validators::{
    entity_tag_of, only_date, only_value, seconds_of, stored_date, stored_value,
};
use http_header::HeaderMap;
use std::alloc::{AllocError, Global};

/// The fields by which a request asks whether a stored object is still as it is on its server (RFC 9111, section 4.3.1):
/// If-None-Match with its entity tag, and If-Modified-Since with its Last-Modified. None where it has neither.
pub fn conditions_for(
    alloc: Global,
    object: &[(Vec<u8>, Vec<u8>)],
) -> Result<Vec<(Vec<u8>, Vec<u8>)>, AllocError>
    ensures { IfOk result (λ fields. stored_fields fields.items ≡ conditions_for (stored_fields object.now)) }
{
    let mut fields = Vec::new(alloc);
    if let Some(tag) = entity_tag_of(object) {
        fields.push((b"if-none-match".to_vec(alloc)?, tag.to_vec(alloc)?))?;
    }
    if let Some(modified) = modified_text(object) {
        fields.push((b"if-modified-since".to_vec(alloc)?, modified.to_vec(alloc)?))?;
    }
    Ok(fields)
}

/// Whether a stored object has a validator to be asked about by: whether `conditions_for` has any field.
pub fn has_validator(object: &[(Vec<u8>, Vec<u8>)]) -> bool
    ensures { result ≡ has_validator (stored_fields object.now) }
{
    entity_tag_of(object).is_some() || modified_text(object).is_some()
}

// The Last-Modified of a stored object as it was received, if it is a date.
fn modified_text(object: &[(Vec<u8>, Vec<u8>)]) -> Option<&[u8]>
    ensures { option_copied result ≡ modified_text (stored_fields object.now) }
{
    match stored_value(object, b"last-modified") {
        Some(text) if seconds_of(text).is_some() => Some(text),
        _ => None,
    }
}

/// Whether the fetch for one GET alone may carry the conditions of a stored object, so that a 304 gives that object to the client:
/// the request has no Authorization, Cookie, Range or conditions, and no `no-store`, not even before a semicolon or behind an unclosed
/// quote.
pub fn may_validate(head: &HeaderMap) -> bool
    ensures { result ≡ may_validate (fields_of head.now) }
{
    let directives = Directives::of(head);
    !(has_field(head, "authorization")
        || has_field(head, "cookie")
        || directives.loose_no_store
        || directives.unclosed
        || has_field(head, "range")
        || has_conditions(head))
}

// Whether a request has conditions of its own.
fn has_conditions(head: &HeaderMap) -> bool
    ensures { result ≡ has_conditions (fields_of head.now) }
{
    is_for_origin(head)
        || has_field(head, "if-none-match")
        || has_field(head, "if-modified-since")
        || has_field(head, "if-range")
}

/// Whether a response with status 304 and this head is about the stored object whose conditions its request carried (RFC 9111,
/// section 4.3.4). Its entity tag decides if it has one: a strong one has to be the object's by strong comparison, a weak one by
/// weak comparison, and then its Last-Modified too. Without an entity tag its Last-Modified decides, if it has one. One without
/// either is about the object.
pub fn is_about(head: &HeaderMap, object: &[(Vec<u8>, Vec<u8>)]) -> bool
    ensures { result ≡ is_about (fields_of head.now) (stored_fields object.now) }
{
    let is_as_old = is_as_old(head, object);
    if !has_field(head, "etag") {
        return is_as_old;
    }
    let Some(given) = only_value(head, "etag") else {
        return false;
    };
    match stored_value(object, b"etag") {
        Some(stored) => is_same_tag(given, stored, is_as_old),
        None => false,
    }
}

// Whether the Last-Modified of a response with status 304, if it has one, is that of the object.
fn is_as_old(head: &HeaderMap, object: &[(Vec<u8>, Vec<u8>)]) -> bool
    ensures { result ≡ is_as_old (fields_of head.now) (stored_fields object.now) }
{
    if !has_field(head, "last-modified") {
        return true;
    }
    let Some(given) = only_date(head, "last-modified") else {
        return false;
    };
    match stored_date(object, b"last-modified") {
        Some(stored) => given == stored,
        None => false,
    }
}

// Whether the entity tag of a response with status 304 is that of the object.
fn is_same_tag(given: &[u8], stored: &[u8], is_as_old: bool) -> bool
    ensures { result ≡ is_same_tag (Some given.now) (Some stored.now) is_as_old }
{
    if is_weak(given) {
        match_weakly(given, stored) && is_as_old
    } else {
        match_strongly(given, stored)
    }
}
