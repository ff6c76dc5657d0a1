//! What a shared cache keeps of a response, and for how long (RFC 9111).
ghost use Rattle.std.specs.Prelude.{◌≡◌, min, unwrap_or};
ghost use Rattle.http_rules.specs.Fields.{fields_of};
ghost use Rattle.http_rules.specs.Elements.{Finds};
ghost use Rattle.http_rules.specs.Freshness.{forbids_store, varies, is_barred, stated_lifetime, freshness_lifetime, corrected_initial_age, kept_of};

use crate::age::age_value;
use crate::directives::Directives;
use crate::expiry::{date_of, expires_lifetime, heuristic_lifetime};
use crate::fields::{has_field, values_of};
use crate::forbidding::forbids;
use crate::named_directive::argument_of;
use crate::refresh::{RefreshRule, first_rule};
use crate::seconds::MOST_SECONDS;
use crate::text::is_name;
use http_header::HeaderMap;
use node_terms::Mode;

/// How a response is kept.
#[derive(Clone, Copy, PartialEq, Eq)]
pub struct Kept {
    /// Its age in seconds when it was received, below 2,147,483,648.
    pub age: u32,
    /// For how many seconds from then on it is fresh, 1 to 2,147,483,648.
    pub life: u32,
}

/// How a shared cache keeps a response (RFC 9111), `None` if it must not be stored or is not fresh. This is the profile `rfc9111`;
/// `may_store` is that of the published rules.
///
/// `url` is the cache key, `head` has the fields as received, and `requested` and `received` are the times of the request and of
/// its response in seconds since 1970. A clock that went back between them counts as one that stood still. Of the refresh rules the
/// first that fits the URL gives the lifetime if the response states none (before the heuristic of section 4.2.2), or in any case
/// if it overrides; no rule has a response stored that must not be.
///
/// Only responses with status 200 to shared requests are kept: other statuses are not, although RFC 9111 would allow some of them.
/// Neither are responses with `no-cache`, which would have to be validated before each use. `no-store`, `private` and `no-cache` count
/// before a semicolon, too.
pub fn may_keep(
    mode: Mode,
    url: &[u8],
    status: u16,
    head: &HeaderMap,
    requested: u64,
    received: u64,
    rules: &[RefreshRule],
) -> Option<Kept>
    ensures { result ≡ kept_of mode url.now status (fields_of head.now) requested received rules.now }
{
    if mode != Mode::Shared || status != 200 {
        return None;
    }
    let directives = Directives::of(head);
    if is_barred(head, &directives) {
        return None;
    }
    let lifetime = freshness_lifetime(url, head, &directives, received, rules)?;
    let age = corrected_initial_age(head, requested, received);
    if age < lifetime {
        Some(Kept {
            age,
            life: lifetime - age,
        })
    } else {
        None
    }
}

// Whether a response with these directives must not be stored, or cannot be used again without validation.
fn is_barred(head: &HeaderMap, directives: &Directives) -> bool
    requires { Finds directives.now (fields_of head.now) }
    ensures { result ≡ is_barred (fields_of head.now) }
{
    forbids_store(head)
        || forbids(head, b"private")
        || forbids(head, b"no-cache")
        || varies(head)
        || has_field(head, "set-cookie")
        || directives.unclosed
}

// Whether there is a `no-store` that counts: beside `must-understand` it does not, as status 200 is understood (RFC 9111, section
// 5.2.2.3).
fn forbids_store(head: &HeaderMap) -> bool
    ensures { result ≡ forbids_store (fields_of head.now) }
{
    forbids(head, b"no-store") && argument_of(head, b"must-understand").is_none()
}

// Whether a response depends on fields of the request (RFC 9111, section 4.1). `Vary: Accept-Encoding` alone does not count where
// there is no content coding, as shared requests are sent without that field.
fn varies(head: &HeaderMap) -> bool
    ensures { result ≡ varies (fields_of head.now) }
{
    let mut values = values_of(head, "vary").into_iter();
    let Some(names) = values.next() else {
        return false;
    };
    if values.next().is_some() {
        return true;
    }
    !is_name(names.as_bytes(), b"accept-encoding") || has_field(head, "content-encoding")
}

// The freshness lifetime in seconds of a response with these directives, at most 2,147,483,648.
fn freshness_lifetime(
    url: &[u8],
    head: &HeaderMap,
    directives: &Directives,
    received: u64,
    rules: &[RefreshRule],
) -> Option<u32>
    requires { Finds directives.now (fields_of head.now) }
    ensures { result ≡ freshness_lifetime url.now (fields_of head.now) received rules.now }
{
    let stated = stated_lifetime(head, directives, received);
    if let Some(rule) = first_rule(rules, url) {
        return Some(capped(rule.lifetime(stated)));
    }
    if let Some(seconds) = stated {
        return Some(capped(seconds));
    }
    Some(capped(heuristic_lifetime(head, received)?))
}

// A number of seconds, at most 2,147,483,648.
fn capped(seconds: u64) -> u32
    ensures { result ≡ min seconds 2147483648 }
{
    seconds.min(MOST_SECONDS) as u32
}

// The lifetime in seconds that a response with these directives states (RFC 9111, section 4.2.1): `s-maxage`, otherwise `max-age`,
// otherwise Expires.
fn stated_lifetime(head: &HeaderMap, directives: &Directives, received: u64) -> Option<u64>
    requires { Finds directives.now (fields_of head.now) }
    ensures { result ≡ stated_lifetime (fields_of head.now) received }
{
    if let Some(seconds) = directives.s_maxage {
        return Some(or_stale(seconds));
    }
    if let Some(seconds) = directives.max_age {
        return Some(or_stale(seconds));
    }
    expires_lifetime(head, received)
}

// The lifetime of a directive with these seconds, 0 if its argument is no number.
fn or_stale(seconds: Option<u32>) -> u64
    ensures { result ≡ unwrap_or seconds 0 }
{
    u64::from(seconds.unwrap_or(0))
}

// The age of a response in seconds when it was received (RFC 9111, section 4.2.3), at most 2,147,483,648.
fn corrected_initial_age(head: &HeaderMap, requested: u64, received: u64) -> u32
    ensures { result ≡ corrected_initial_age (fields_of head.now) requested received }
{
    let apparent_age = received.saturating_sub(date_of(head, received));
    let response_delay = received.saturating_sub(requested);
    let corrected_age_value = u64::from(age_value(head)).saturating_add(response_delay);
    capped(apparent_age.max(corrected_age_value))
}
