//! Who a request is authorized by (RFC 9110, section 11.6.2; RFC 6750).
ghost use Rattle.std.specs.Prelude.{◌≡◌, ◌≤◌, ◌==◌, length, bytes_eq};
ghost use Rattle.std.specs.List.{prefix_len};
ghost use Rattle.http_rules.specs.Fields.{fields_of};
ghost use Rattle.http_rules.specs.Authorization.{is_authorized, is_bearer, is_token_after};

use crate::fields::values_of;
use crate::text::is_name;
use hmac_md5::same;
use http_header::HeaderMap;

/// Whether a request is authorized by this token: it has exactly one Authorization field, which is the scheme `Bearer` in any case,
/// one or more spaces, and the token. Every octet of the token is compared, wherever the two differ.
pub fn is_authorized(head: &HeaderMap, token: &[u8]) -> bool
    ensures { result ≡ is_authorized token.now (fields_of head.now) }
{
    let mut values = values_of(head, "authorization").into_iter();
    let Some(value) = values.next() else {
        return false;
    };
    values.next().is_none() && is_bearer(value.as_bytes(), token)
}

// Whether a value is the scheme `Bearer`, one or more spaces, and this token.
fn is_bearer(value: &[u8], token: &[u8]) -> bool
    ensures { result ≡ is_bearer token.now value.now }
{
    let (scheme, rest) = value.split_at(value.len().min(6));
    is_name(scheme, b"bearer") && is_token_after(rest, token)
}

// Whether a text is one or more spaces and this token.
fn is_token_after(text: &[u8], token: &[u8]) -> bool
    ensures { result ≡ is_token_after token.now text.now }
{
    let spaces = space_len(text);
    1 <= spaces && is_same(&text[spaces..], token)
}

// Whether two texts are equal; all their octets are compared if their lengths are equal.
fn is_same(a: &[u8], b: &[u8]) -> bool
    ensures { result ≡ bytes_eq a.now b.now }
{
    same(a, b)
}

// The number of spaces at the beginning of a text.
fn space_len(text: &[u8]) -> usize
    ensures value { result ≡ prefix_len (λ octet. octet == 32) text.now }
    ensures bound { result ≤ length text.now }
{
    for i in 0..text.len() {
        if text[i] != b' ' {
            return i;
        }
    }
    text.len()
}
