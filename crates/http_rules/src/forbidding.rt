//! Directives that forbid storing or reuse (RFC 9111, section 5.2), as the profile `rfc9111` reads them.
ghost use Rattle.std.specs.Prelude.{◌≡◌, ◌∷◌, []};
ghost use Rattle.http_header.specs.Token.{lowercase};
ghost use Rattle.http_rules.specs.Fields.{fields_of};
ghost use Rattle.http_rules.specs.Forbidding.{forbids, forbids_in, is_forbidding};
ghost use Rattle.http_rules.specs.Validators.{stored_fields};

use crate::directives::{before_semicolon, split_directive, split_element};
use crate::fields::values_of;
use crate::text::is_name;
use http_header::HeaderMap;

/// Whether a head has a Cache-Control directive with this name, also before a semicolon. `name` is in lower case.
pub(crate) fn forbids(head: &HeaderMap, name: &[u8]) -> bool
    requires { lowercase name.now ≡ name.now }
    ensures { result ≡ forbids name.now (fields_of head.now) }
{
    for value in values_of(head, "cache-control") {
        if forbids_in(value.as_bytes(), name) {
            return true;
        }
    }
    false
}

/// As `forbids`, for the fields of a stored object. `name` is in lower case.
pub(crate) fn stored_forbids(object: &[(Vec<u8>, Vec<u8>)], name: &[u8]) -> bool
    requires { lowercase name.now ≡ name.now }
    ensures { result ≡ forbids name.now (stored_fields object.now) }
{
    for i in 0..object.len() {
        if forbids_at(&object[i], name) {
            return true;
        }
    }
    false
}

// Whether a stored field is a Cache-Control field with this directive. `name` is in lower case.
fn forbids_at(field: &(Vec<u8>, Vec<u8>), name: &[u8]) -> bool
    requires { lowercase name.now ≡ name.now }
    ensures { result ≡ forbids name.now ((field.now.0.items, field.now.1.items) ∷ []) }
{
    field.0.as_slice() == b"cache-control".as_slice() && forbids_in(field.1.as_slice(), name)
}

/// Whether one value has a directive with this name, also before a semicolon. `name` is in lower case.
pub(crate) fn forbids_in(value: &[u8], name: &[u8]) -> bool
    requires { lowercase name.now ≡ name.now }
    ensures { result ≡ forbids_in name.now value.now }
{
    let mut rest = Some(value);
    while let Some(text) = rest {
        let (element, others) = split_element(text);
        if is_forbidding(element, name) {
            return true;
        }
        rest = others;
    }
    false
}

// Whether a list element is the directive with this name, or one whose name begins with it and a semicolon. `name` is in lower case.
fn is_forbidding(element: &[u8], name: &[u8]) -> bool
    requires { lowercase name.now ≡ name.now }
    ensures { result ≡ is_forbidding name.now element.now }
{
    let (found, _) = split_directive(element);
    is_name(before_semicolon(found), name)
}
