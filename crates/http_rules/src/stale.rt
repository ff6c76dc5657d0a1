//! When an object may be served that is stale (RFC 9111, sections 4.2.4 and 5.2.1.2; RFC 5861).
ghost use Rattle.std.specs.Prelude.{◌≡◌, codes};
ghost use Rattle.http_header.specs.Token.{lowercase};
ghost use Rattle.http_rules.specs.Fields.{fields_of};
ghost use Rattle.http_rules.specs.Validators.{stored_fields};
ghost use Rattle.http_rules.specs.Stale.{is_down, is_error, takes_the_place, supersedes, prohibits_stale, window, operators_window, is_within, permits, may_serve_stale, has_stale_use, takes_stale, accepted_by, stale_use};

use crate::directives::{Directives, argument_seconds};
use crate::forbidding::stored_forbids;
use crate::named_directive::{argument_of, has_stored_unclosed, stored_argument};
use http_header::HeaderMap;
use node_terms::Mode;

/// Why an object would be served although it is stale.
#[derive(Clone, Copy)]
pub enum StaleUse {
    /// Its origin server has answered with an error, or not at all (RFC 5861, section 4).
    InPlaceOfError,
    /// Its origin server is asked about it meanwhile (RFC 5861, section 3).
    WhileValidated,
    /// The client accepts what has been stale for at most so many seconds, `None` for any time (RFC 9111, section 5.2.1.2).
    Accepted(Option<u32>),
}

/// Whether a status is an error in whose place a stale object may be served: 500, 502, 503 or 504 (RFC 5861, section 4).
pub fn is_error(status: u16) -> bool
    ensures { result ≡ is_error status }
{
    status == 500 || status == 502 || status == 503 || status == 504
}

/// How a fetch has ended, as far as something stale may be served in place of what came of it.
#[derive(Clone, Copy)]
pub enum SourceEnd {
    /// With a whole response of this status.
    Answered(u16),
    /// Its server was not found, or not connected to.
    Unreached,
    /// What came of its response was cut, could not be read, or took too long.
    Unread,
    /// Its response is longer than what is stored may be.
    TooLong,
    /// Its server was not asked, or nobody waits for it any more, or memory was short.
    Unasked,
}

/// Whether a stale object may be served in place of what came of a fetch in this mode, if it may be at all: a fetch for all clients from
/// an origin brought an error, or no response that could be read (RFC 5861, section 4). A response that is too long is no error: it is
/// passed on.
pub fn takes_the_place(is_origin: bool, mode: Mode, end: SourceEnd) -> bool
    ensures { result ≡ takes_the_place is_origin mode end }
{
    if !is_origin || mode != Mode::Shared {
        return false;
    }
    is_down(end)
}

// Whether a server with which a fetch has ended so is down.
fn is_down(end: SourceEnd) -> bool
    ensures { result ≡ is_down end }
{
    match end {
        SourceEnd::Answered(status) => is_error(status),
        SourceEnd::Unreached | SourceEnd::Unread => true,
        SourceEnd::TooLong | SourceEnd::Unasked => false,
    }
}

/// Whether a response with this status that is not kept says that what was kept before is no longer so: 200 to 399 but for 304, 404
/// and 410.
pub fn supersedes(status: u16) -> bool
    ensures { result ≡ supersedes status }
{
    (200 <= status && (status < 400 && status != 304)) || status == 404 || status == 410
}

/// Whether a stored object is stale and may be used for this. It came `stay` seconds ago, and was fresh for `life` seconds from then
/// on.
///
/// In place of an error it may if it has been stale for at most as many seconds as its `stale-if-error` says, or as the operator
/// allows, whose 0 allows nothing; while it is validated, if for at most as many as its `stale-while-revalidate` says; where the client
/// accepts it, if for at most as many as the client says. A directive whose argument is no number allows nothing. With `no-cache`, `must-revalidate`, `proxy-revalidate` or `s-maxage`, or a Cache-Control
/// value with an unclosed quote, it never may (RFC 9111, section 4.2.4); these four count before a semicolon, too.
pub fn may_serve_stale(
    object: &[(Vec<u8>, Vec<u8>)],
    occasion: StaleUse,
    stay: u32,
    life: u32,
    operators: u32,
) -> bool
    ensures { result ≡ may_serve_stale occasion stay life operators (stored_fields object.now) }
{
    if stay < life || prohibits_stale(object) {
        return false;
    }
    permits(object, occasion, stay - life, operators)
}

/// Whether there may be a use for a stored object once it is stale: whether it or the operator allows any.
pub fn has_stale_use(object: &[(Vec<u8>, Vec<u8>)], operators: u32) -> bool
    ensures { result ≡ has_stale_use operators (stored_fields object.now) }
{
    !prohibits_stale(object)
        && (window(object, b"stale-if-error").is_some()
            || operators_window(operators).is_some()
            || window(object, b"stale-while-revalidate").is_some())
}

/// Whether a request takes what is stale: it has neither `max-age` nor `min-fresh` (RFC 9111, sections 5.2.1.1 and 5.2.1.3).
pub fn takes_stale(head: &HeaderMap) -> bool
    ensures { result ≡ takes_stale (fields_of head.now) }
{
    let directives = Directives::of(head);
    !(directives.max_age.is_some() || directives.min_fresh.is_some())
}

/// How a request takes what is stale, without waiting for a response that is not: not at all with `max-age` or `min-fresh`; as its
/// `max-stale` says, which accepts nothing if its argument is no number (RFC 9111, section 5.2.1.2); otherwise what is validated
/// meanwhile.
pub fn stale_use(head: &HeaderMap) -> Option<StaleUse>
    ensures { result ≡ stale_use (fields_of head.now) }
{
    if !takes_stale(head) {
        return None;
    }
    match argument_of(head, b"max-stale") {
        Some(argument) => accepted_by(argument),
        None => Some(StaleUse::WhileValidated),
    }
}

// What is accepted by an argument of max-stale.
fn accepted_by(argument: &[u8]) -> Option<StaleUse>
    ensures { result ≡ accepted_by argument.now }
{
    if argument.is_empty() {
        return Some(StaleUse::Accepted(None));
    }
    let most = argument_seconds(argument)?;
    Some(StaleUse::Accepted(Some(most)))
}

// Whether an object must not be served while it is stale.
fn prohibits_stale(object: &[(Vec<u8>, Vec<u8>)]) -> bool
    ensures { result ≡ prohibits_stale (stored_fields object.now) }
{
    stored_forbids(object, b"no-cache")
        || stored_forbids(object, b"must-revalidate")
        || stored_forbids(object, b"proxy-revalidate")
        || stored_forbids(object, b"s-maxage")
        || has_stored_unclosed(object)
}

// Whether an object that has been stale for so many seconds may be used for this.
fn permits(
    object: &[(Vec<u8>, Vec<u8>)],
    occasion: StaleUse,
    staleness: u32,
    operators: u32,
) -> bool
    ensures { result ≡ permits occasion staleness operators (stored_fields object.now) }
{
    match occasion {
        StaleUse::InPlaceOfError => {
            is_within(staleness, window(object, b"stale-if-error"))
                || is_within(staleness, operators_window(operators))
        }
        StaleUse::WhileValidated => is_within(staleness, window(object, b"stale-while-revalidate")),
        StaleUse::Accepted(Some(most)) => staleness <= most,
        StaleUse::Accepted(None) => true,
    }
}

// The seconds of a directive of an object. `name` is in lower case.
fn window(object: &[(Vec<u8>, Vec<u8>)], name: &[u8]) -> Option<u32>
    requires { lowercase name.now ≡ name.now }
    ensures { result ≡ window name.now (stored_fields object.now) }
{
    argument_seconds(stored_argument(object, name)?)
}

// The operator's seconds, if they allow anything.
fn operators_window(seconds: u32) -> Option<u32>
    ensures { result ≡ operators_window seconds }
{
    if 0 < seconds { Some(seconds) } else { None }
}

// Whether an object that has been stale for so many seconds is within a window.
fn is_within(staleness: u32, window: Option<u32>) -> bool
    ensures { result ≡ is_within staleness window }
{
    match window {
        Some(most) => staleness <= most,
        None => false,
    }
}
