//! Requests that have come through this cache before (CDN-Loop, RFC 8586).
ghost use Rattle.std.specs.Prelude.{◌≡◌, ◌≤◌, IfOk, length, codes, map, bytes_eq};
ghost use Rattle.std.specs.List.{list_any, list_all};
ghost use Rattle.http_header.specs.Token.{is_token_byte};
ghost use Rattle.http_rules.specs.Fields.{fields_of, values_of};
ghost use Rattle.http_rules.specs.Loops.{loop_mark, marker_name, has_come_back, has_mark, is_token, without_blanks};

use crate::directives::{Place, split_element};
use crate::fields::values_of;
use http_header::{HeaderMap, is_token_char};
use std::alloc::{AllocError, Global};

/// How this cache marks the requests that it sends, as an element of CDN-Loop (RFC 8586, section 2): its name if that is a token
/// (RFC 9110, section 5.6.2), otherwise `wabretos`, and a parameter `id` with this number as 16 hexadecimal digits.
pub fn loop_mark(alloc: Global, name: &[u8], number: u64) -> Result<Vec<u8>, AllocError>
    ensures { IfOk result (λ mark. mark.items ≡ loop_mark name.now number) }
{
    let mut mark = marker_name(name).to_vec(alloc)?;
    mark.extend_from_slice(b";id=")?;
    mark.extend_from_slice(hex::encode(alloc, number.to_be_bytes())?.as_bytes())?;
    Ok(mark)
}

// The name that stands in a mark.
fn marker_name(name: &[u8]) -> &[u8]
    ensures { result.now ≡ marker_name name.now }
{
    if is_token(name) { name } else { b"wabretos" }
}

/// Whether a text is a token.
pub(crate) fn is_token(text: &[u8]) -> bool
    ensures { result ≡ is_token text.now }
{
    !text.is_empty() && has_token_octets(text)
}

// Whether all octets may stand in a token.
fn has_token_octets(text: &[u8]) -> bool
    ensures { result ≡ list_all is_token_byte text.now }
{
    text.iter().all(|&octet| is_token_char(octet))
}

/// Whether a request has come through the cache with this mark: whether the mark is an element of a CDN-Loop field (RFC 8586,
/// section 2). Spaces and tabs outside double quotes do not count.
pub fn has_come_back(head: &HeaderMap, mark: &[u8]) -> bool
    ensures { result ≡ has_come_back mark.now (fields_of head.now) }
{
    for value in values_of(head, "cdn-loop") {
        if has_mark(value.as_bytes(), mark) {
            return true;
        }
    }
    false
}

// Whether the mark is an element of a value.
fn has_mark(value: &[u8], mark: &[u8]) -> bool
    ensures { result ≡ has_mark mark.now value.now }
{
    let mut rest = Some(value);
    while let Some(text) = rest {
        let (element, others) = split_element(text);
        if is_mark(element, mark) {
            return true;
        }
        rest = others;
    }
    false
}

// Whether an element is the mark, without its spaces and tabs outside double quotes.
fn is_mark(element: &[u8], mark: &[u8]) -> bool
    ensures { result ≡ bytes_eq (without_blanks Place.Plain element.now) mark.now }
{
    let mut place = Place::Plain;
    let mut matched = 0;
    for i in 0..element.len() {
        let octet = element[i];
        if !place.is_blank(octet) {
            if matched == mark.len() || mark[matched] != octet {
                return false;
            }
            matched += 1;
        }
        place = place.after(octet);
    }
    matched == mark.len()
}
