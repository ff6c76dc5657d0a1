//! Ranges of octets that a request asks for (RFC 9110, section 14).
ghost use Rattle.std.specs.Prelude.{◌≡◌, ◌==◌, ◌≤◌, IfOk, length};
ghost use Rattle.std.specs.List.{position_or_len};
ghost use Rattle.http_rules.specs.Fields.{fields_of};
ghost use Rattle.http_rules.specs.Ranges.{number_of, spec_between, spec_of, range_of, selected, content_range, unsatisfied_range, complete_in, complete_length};

use crate::conditions::StoredAnswer;
use crate::seconds::{is_numeral, seconds};
use crate::text::{is_name, trimmed};
use crate::validators::only_value;
use http_header::HeaderMap;
use itoa::Buffer;
use std::alloc::{AllocError, Global};

/// One range of octets, as a request asks for it (RFC 9110, section 14.1.2). Octets are counted from 0.
#[derive(Clone, Copy)]
pub(crate) enum ByteRange {
    /// `first-last`: from the octet at the first place to the octet at the last one, which is not before it.
    Span(usize, usize),
    /// `first-`: from the octet at this place to the end.
    Rest(usize),
    /// `-length`: as many octets at the end.
    Suffix(usize),
}

/// The one range that a Range value asks for, in the unit `bytes` in any case. `None` if the value is not one, asks for several
/// ranges, or for one whose last place is before its first.
pub(crate) fn range_of(value: &[u8]) -> Option<ByteRange>
    ensures { result ≡ range_of value.now }
{
    let end = place_of(value, b'=');
    if end == value.len() || !is_name(&value[..end], b"bytes") {
        return None;
    }
    spec_of(trimmed(&value[end + 1..]))
}

// The range of a text with a dash.
fn spec_of(text: &[u8]) -> Option<ByteRange>
    ensures { result ≡ spec_of text.now }
{
    let dash = place_of(text, b'-');
    if dash == text.len() {
        return None;
    }
    spec_between(&text[..dash], &text[dash + 1..])
}

/// The first place of an octet in a text, or the length of the text.
pub(crate) fn place_of(text: &[u8], octet: u8) -> usize
    ensures value { result ≡ position_or_len (λ c. c == octet) text.now }
    ensures bound { result ≤ length text.now }
{
    for i in 0..text.len() {
        if text[i] == octet {
            return i;
        }
    }
    text.len()
}

// The range with these texts before and after its dash.
fn spec_between(first: &[u8], last: &[u8]) -> Option<ByteRange>
    ensures { result ≡ spec_between first.now last.now }
{
    if is_numeral(first) && is_numeral(last) {
        let (first, last) = (number_of(first), number_of(last));
        if last < first {
            None
        } else {
            Some(ByteRange::Span(first, last))
        }
    } else if is_numeral(first) && last.is_empty() {
        Some(ByteRange::Rest(number_of(first)))
    } else if first.is_empty() && is_numeral(last) {
        Some(ByteRange::Suffix(number_of(last)))
    } else {
        None
    }
}

// The value of digits, capped at 2^64 - 1.
fn number_of(digits: &[u8]) -> usize
    ensures { result ≡ number_of digits.now }
{
    let mut n: usize = 0;
    for c in digits {
        n = n
            .saturating_mul(10)
            .saturating_add(usize::from(c.saturating_sub(b'0')));
    }
    n
}

/// The part of a representation of `length` octets that a range selects. A range that begins behind the end, or an empty suffix, is
/// not satisfiable. A suffix of a representation without octets is the whole of it.
pub(crate) fn selected(range: ByteRange, length: usize) -> StoredAnswer
    ensures { result ≡ selected range length }
{
    match range {
        ByteRange::Span(first, last) => {
            if first < length {
                StoredAnswer::Part {
                    first,
                    last: last.min(length - 1),
                }
            } else {
                StoredAnswer::Unsatisfiable
            }
        }
        ByteRange::Rest(first) => {
            if first < length {
                StoredAnswer::Part {
                    first,
                    last: length - 1,
                }
            } else {
                StoredAnswer::Unsatisfiable
            }
        }
        ByteRange::Suffix(count) => suffix(count, length),
    }
}

// The part that consists of as many octets at the end.
fn suffix(count: usize, length: usize) -> StoredAnswer
    ensures { result ≡ selected (ByteRange.Suffix count) length }
{
    if count == 0 {
        StoredAnswer::Unsatisfiable
    } else if length == 0 {
        StoredAnswer::Whole
    } else {
        StoredAnswer::Part {
            first: length.saturating_sub(count),
            last: length - 1,
        }
    }
}

/// The value of Content-Range with a part (RFC 9110, section 14.4): `bytes first-last/length`. Errors: out of memory.
pub fn content_range(
    alloc: Global,
    first: usize,
    last: usize,
    length: usize,
) -> Result<Vec<u8>, AllocError>
    ensures { IfOk result (λ value. value.items ≡ content_range first last length) }
{
    let mut buffer = Buffer::new();
    let mut value = Vec::from_slice(alloc, b"bytes ")?;
    value.extend_from_slice(buffer.format(first).as_bytes())?;
    value.extend_from_slice(b"-")?;
    value.extend_from_slice(buffer.format(last).as_bytes())?;
    value.extend_from_slice(b"/")?;
    value.extend_from_slice(buffer.format(length).as_bytes())?;
    Ok(value)
}

/// The value of Content-Range where a range is not satisfiable (RFC 9110, section 14.4): `bytes */length`. Errors: out of memory.
pub fn unsatisfied_range(alloc: Global, length: usize) -> Result<Vec<u8>, AllocError>
    ensures { IfOk result (λ value. value.items ≡ unsatisfied_range length) }
{
    let mut buffer = Buffer::new();
    let mut value = Vec::from_slice(alloc, b"bytes */")?;
    value.extend_from_slice(buffer.format(length).as_bytes())?;
    Ok(value)
}

/// The length in octets of the whole of which a response with status 206 is a part, as its Content-Range says it (RFC 9110, section
/// 14.4), at most 2,147,483,648. `None` if it says none, or in another unit.
pub fn complete_length(head: &HeaderMap) -> Option<u32>
    ensures { result ≡ complete_length (fields_of head.now) }
{
    complete_in(only_value(head, "content-range")?)
}

// The length of the whole in a value of Content-Range.
fn complete_in(value: &[u8]) -> Option<u32>
    ensures { result ≡ complete_in value.now }
{
    let place = place_of(value, b'/');
    if place == value.len() || !value.starts_with(b"bytes ") {
        return None;
    }
    seconds(&value[place + 1..])
}
