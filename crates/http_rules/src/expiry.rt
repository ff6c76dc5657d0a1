//! Freshness lifetimes that follow from the dates of a response, in seconds since 1970.
//!
//! A date of RFC 850 has a year of two digits: 00 to 69 are read as 20xx and 70 to 99 as 19xx.
ghost use Rattle.std.specs.Prelude.{◌≡◌, bytes_eq};
ghost use Rattle.std.specs.List.{list_all};
ghost use Rattle.http_header.specs.Token.{lowercase};
ghost use Rattle.httpdate.specs.Date.{parse_secs};
ghost use Rattle.http_rules.specs.Fields.{fields_of, values_of};
ghost use Rattle.http_rules.specs.Expiry.{date_in, date_of, expires_at, expires_lifetime, tenth_between, heuristic_lifetime};

use crate::fields::{first_value, values_of};
use http_header::HeaderMap;
use httpdate::HttpDate;

/// The longest heuristic lifetime: a day.
const MOST_HEURISTIC: u64 = 86_400;

// The second that a text shows as a date, in one of the three formats (RFC 9110, section 5.6.7).
fn second_of(text: &[u8]) -> Option<u64>
    ensures { result ≡ parse_secs text.now }
{
    match HttpDate::parse_ascii(text) {
        Ok(date) => Some(date.unix_secs()),
        Err(_) => None,
    }
}

// The date in the first field with this name. `name` is in lower case.
fn date_in(head: &HeaderMap, name: &str) -> Option<u64>
    requires { lowercase name.now ≡ name.now }
    ensures { result ≡ date_in name.now (fields_of head.now) }
{
    second_of(first_value(head, name)?)
}

/// When a response was made: its Date field, or the time of its receipt if it has none (RFC 9110, section 6.6.1).
pub(crate) fn date_of(head: &HeaderMap, received: u64) -> u64
    ensures { result ≡ date_of (fields_of head.now) received }
{
    date_in(head, "date").unwrap_or(received)
}

// Whether all fields with this name have this value. `name` is in lower case.
fn are_all(head: &HeaderMap, name: &str, wanted: &[u8]) -> bool
    requires { lowercase name.now ≡ name.now }
    ensures { result ≡ list_all (bytes_eq wanted.now) (values_of name.now (fields_of head.now)) }
{
    for value in values_of(head, name) {
        if wanted != value.as_bytes() {
            return false;
        }
    }
    true
}

// When a response expires, if it has an Expires field. A value that is no date, such as `0`, and fields that differ are a time in
// the past (RFC 9111, sections 5.3 and 4.2.1).
fn expires_at(head: &HeaderMap) -> Option<u64>
    ensures { result ≡ expires_at (fields_of head.now) }
{
    let first = first_value(head, "expires")?;
    if are_all(head, "expires", first) {
        Some(second_of(first).unwrap_or(0))
    } else {
        Some(0)
    }
}

/// The lifetime of a response with an Expires field: Expires less Date, 0 if it expired before (RFC 9111, section 4.2.1).
pub(crate) fn expires_lifetime(head: &HeaderMap, received: u64) -> Option<u64>
    ensures { result ≡ expires_lifetime (fields_of head.now) received }
{
    let at = expires_at(head)?;
    Some(at.saturating_sub(date_of(head, received)))
}

/// The heuristic lifetime of a response (RFC 9111, section 4.2.2): a tenth of the time between Last-Modified and Date, at most a
/// day; `None` if there is no Last-Modified before Date.
pub(crate) fn heuristic_lifetime(head: &HeaderMap, received: u64) -> Option<u64>
    ensures { result ≡ heuristic_lifetime (fields_of head.now) received }
{
    tenth_between(date_in(head, "last-modified")?, date_of(head, received))
}

// A tenth of the time from one second to a later one, at most a day.
fn tenth_between(modified: u64, date: u64) -> Option<u64>
    ensures { result ≡ tenth_between modified date }
{
    if modified < date {
        Some(((date - modified) / 10).min(MOST_HEURISTIC))
    } else {
        None
    }
}
