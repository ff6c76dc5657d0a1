//! How a request is answered in the profile `rfc9111`.
ghost use Rattle.std.specs.Prelude.{◌≡◌, List};
ghost use Rattle.http_rules.specs.Fields.{Field, fields_of};
ghost use Rattle.http_rules.specs.Elements.{Finds};
ghost use Rattle.http_rules.specs.Choice.{is_own, has_accepted, alone, shared, chosen, is_for_a_part, has_single_range};

use crate::conditions::is_for_origin;
use crate::directives::Directives;
use crate::fields::has_field;
use crate::ranges::range_of;
use crate::reuse::{asks_by_pragma, is_accepted};
use crate::validators::only_value;
use http_header::HeaderMap;
use node_terms::Mode;

/// What is stored under a URL and fresh, in seconds.
#[derive(Clone, Copy)]
pub struct Stored {
    /// Its age.
    pub age: u32,
    /// For how much longer it stays fresh.
    pub life: u32,
}

/// How a request may be answered in the profile `rfc9111`, where this is stored under its URL.
///
/// What is stored and accepted (`accepts`) answers GET and HEAD, also with a range or with conditions; the answer is what
/// `answer_to` says of it. A GET for which nothing is stored shares a fetch, unless it has a range; a HEAD is not fetched. Requests
/// with Authorization, Cookie, `no-store`, `no-cache` (RFC 9111, section 5.2.1), `Pragma: no-cache` without Cache-Control (RFC 7234,
/// section 5.4), a directive behind an unclosed quote, If-Match or If-Unmodified-Since are never answered from the store. `stored` makes no
/// difference to a GET without Range and Cache-Control. `no-store` and `no-cache` count before a semicolon, too.
///
/// Errors: the status code of the refusal. 501 for a method other than GET and HEAD, and for a HEAD that is not answered from the
/// store; 504 for a request with `only-if-cached` that is not.
pub fn choose(method: &str, head: &HeaderMap, stored: Option<Stored>) -> Result<Mode, u16>
    ensures { result ≡ chosen method.now (fields_of head.now) stored }
{
    let is_get = method == "GET";
    if !is_get && method != "HEAD" {
        return Err(501);
    }
    let directives = Directives::of(head);
    let is_own = is_own(head, &directives);
    if directives.only_if_cached {
        return if is_own || !has_accepted(&directives, stored) {
            Err(504)
        } else {
            Ok(Mode::Cached)
        };
    }
    if is_own {
        alone(is_get)
    } else {
        shared(is_get, head, &directives, stored)
    }
}

/// Whether nothing but a single range keeps a GET for which nothing is stored from sharing a fetch (RFC 9110, section 14.2). One with
/// If-Range is fetched alone in any case.
pub fn is_for_a_part(head: &HeaderMap) -> bool
    ensures { result ≡ is_for_a_part (fields_of head.now) }
{
    let directives = Directives::of(head);
    !directives.only_if_cached
        && !is_own(head, &directives)
        && !has_field(head, "if-range")
        && has_single_range(head)
}

// Whether a request asks for a single range.
fn has_single_range(head: &HeaderMap) -> bool
    ensures { result ≡ has_single_range (fields_of head.now) }
{
    match only_value(head, "range") {
        Some(value) => range_of(value).is_some(),
        None => false,
    }
}

// Whether nothing stored answers a request with these directives.
fn is_own(head: &HeaderMap, directives: &Directives) -> bool
    requires { Finds directives.now (fields_of head.now) }
    ensures { result ≡ is_own (fields_of head.now) }
{
    has_field(head, "authorization")
        || has_field(head, "cookie")
        || directives.loose_no_store
        || (directives.loose_no_cache || directives.unclosed)
        || asks_by_pragma(head)
        || is_for_origin(head)
}

// Whether what is stored is accepted by a request with these directives.
fn has_accepted(directives: &Directives, stored: Option<Stored>) -> bool
    ensures { (fields : List Field) → Finds directives.now fields → result ≡ has_accepted fields stored }
{
    match stored {
        Some(stored) => is_accepted(directives, stored.age, stored.life),
        None => false,
    }
}

// How a request is answered that is fetched for alone.
fn alone(is_get: bool) -> Result<Mode, u16>
    ensures { result ≡ alone is_get }
{
    if is_get { Ok(Mode::Private) } else { Err(501) }
}

// How a request with these directives is answered that others may share.
fn shared(
    is_get: bool,
    head: &HeaderMap,
    directives: &Directives,
    stored: Option<Stored>,
) -> Result<Mode, u16>
    requires { Finds directives.now (fields_of head.now) }
    ensures { result ≡ shared is_get (fields_of head.now) stored }
{
    let is_shared = match stored {
        Some(stored) => is_accepted(directives, stored.age, stored.life),
        None => is_get && !has_field(head, "range"),
    };
    if is_shared {
        Ok(Mode::Shared)
    } else {
        alone(is_get)
    }
}
