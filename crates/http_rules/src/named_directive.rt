//! Looking up directives by name (RFC 9111, section 5.2).
ghost use Rattle.std.specs.Prelude.{◌≡◌, ◌∷◌, []};
ghost use Rattle.std.specs.Option.{option_copied};
ghost use Rattle.http_header.specs.Token.{lowercase};
ghost use Rattle.http_rules.specs.Fields.{fields_of};
ghost use Rattle.http_rules.specs.Validators.{stored_fields};
ghost use Rattle.http_rules.specs.Directives.{argument, directives_in, first_argument, has_unclosed};

use crate::directives::{is_unclosed, split_directive, split_element};
use crate::fields::values_of;
use crate::text::is_name;
use http_header::HeaderMap;

/// The argument of the first Cache-Control directive of a head with this name: everything after the name, `None` if there is no
/// such directive. `name` is in lower case.
pub(crate) fn argument_of<'a>(head: &'a HeaderMap, name: &[u8]) -> Option<&'a [u8]>
    requires { lowercase name.now ≡ name.now }
    ensures { option_copied result ≡ argument name.now (fields_of head.now) }
{
    for value in values_of(head, "cache-control") {
        if let Some(argument) = argument_in(value.as_bytes(), name) {
            return Some(argument);
        }
    }
    None
}

// The argument of the first directive of one value with this name. `name` is in lower case.
fn argument_in<'a>(value: &'a [u8], name: &[u8]) -> Option<&'a [u8]>
    requires { lowercase name.now ≡ name.now }
    ensures { option_copied result ≡ first_argument name.now (directives_in value.now) }
{
    let mut rest = Some(value);
    while let Some(text) = rest {
        let (element, others) = split_element(text);
        let (found, argument) = split_directive(element);
        if is_name(found, name) {
            return Some(argument);
        }
        rest = others;
    }
    None
}

/// As `argument_of`, for the fields of a stored object. `name` is in lower case.
pub(crate) fn stored_argument<'a>(object: &'a [(Vec<u8>, Vec<u8>)], name: &[u8]) -> Option<&'a [u8]>
    requires { lowercase name.now ≡ name.now }
    ensures { option_copied result ≡ argument name.now (stored_fields object.now) }
{
    for i in 0..object.len() {
        if let Some(argument) = argument_at(&object[i], name) {
            return Some(argument);
        }
    }
    None
}

// The argument of the first directive of one stored field with this name. `name` is in lower case.
fn argument_at<'a>(field: &'a (Vec<u8>, Vec<u8>), name: &[u8]) -> Option<&'a [u8]>
    requires { lowercase name.now ≡ name.now }
    ensures { option_copied result ≡ argument name.now ((field.now.0.items, field.now.1.items) ∷ []) }
{
    if field.0.as_slice() == b"cache-control".as_slice() {
        argument_in(field.1.as_slice(), name)
    } else {
        None
    }
}

/// Whether some Cache-Control value of a stored object has an unclosed double quote.
pub(crate) fn has_stored_unclosed(object: &[(Vec<u8>, Vec<u8>)]) -> bool
    ensures { result ≡ has_unclosed (stored_fields object.now) }
{
    for i in 0..object.len() {
        if is_unclosed_at(&object[i]) {
            return true;
        }
    }
    false
}

// Whether a stored field is a Cache-Control field whose value has an unclosed double quote.
fn is_unclosed_at(field: &(Vec<u8>, Vec<u8>)) -> bool
    ensures { result ≡ has_unclosed ((field.now.0.items, field.now.1.items) ∷ []) }
{
    field.0.as_slice() == b"cache-control".as_slice() && is_unclosed(field.1.as_slice())
}
