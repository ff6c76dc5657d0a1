//! The age of a response when it was received.
ghost use Rattle.std.specs.Prelude.{◌≡◌, ◌≤◌};
ghost use Rattle.http_rules.specs.Fields.{fields_of};
ghost use Rattle.http_rules.specs.Responses.{age_of};
ghost use Rattle.http_rules.specs.Freshness.{first_member, age_value};

use crate::fields::first_value;
use crate::ranges::place_of;
use crate::seconds::seconds;
use crate::text::trimmed;
use http_header::HeaderMap;

/// The age of a response in seconds when it was received, from its first Age field, as the published rules read it: 0 if the
/// field is missing or not a number, and at most 2,147,483,648.
pub fn age_of(head: &HeaderMap) -> u32
    ensures value { result ≡ age_of (fields_of head.now) }
    ensures bound { result ≤ 2147483648 }
{
    match first_value(head, "age") {
        Some(text) => seconds(text).unwrap_or(0),
        None => 0,
    }
}

/// The seconds of the first Age field of a response, of whose list the first member counts (RFC 9111, section 5.1): 0 if the field is
/// missing or that member is not a number, and at most 2,147,483,648.
pub(crate) fn age_value(head: &HeaderMap) -> u32
    ensures value { result ≡ age_value (fields_of head.now) }
    ensures bound { result ≤ 2147483648 }
{
    match first_value(head, "age") {
        Some(value) => seconds(first_member(value)).unwrap_or(0),
        None => 0,
    }
}

// The first member of a list.
fn first_member(value: &[u8]) -> &[u8]
    ensures { result.now ≡ first_member value.now }
{
    trimmed(&value[..place_of(value, b',')])
}
