//! Whether and for how long a response may be stored.
ghost use Rattle.std.specs.Prelude.{◌≡◌, List};
ghost use Rattle.http_rules.specs.Fields.{Field, fields_of};
ghost use Rattle.http_rules.specs.Elements.{Finds};
ghost use Rattle.http_rules.specs.Responses.{life_of, lifetime, is_forbidden};

use crate::age_of;
use crate::directives::Directives;
use crate::fields::has_field;
use http_header::HeaderMap;
use node_terms::Mode;

/// The remaining freshness lifetime, in seconds, with which a response may be stored; `None` if it must not be stored. Only
/// responses with status 200 to shared requests may be, and none that is already stale. `head` holds the fields as received.
pub fn may_store(mode: Mode, status: u16, head: &HeaderMap) -> Option<u32>
    ensures { result ≡ life_of mode status (fields_of head.now) }
{
    if mode != Mode::Shared || status != 200 {
        return None;
    }
    let directives = Directives::of(head);
    if is_forbidden(head, &directives) {
        return None;
    }
    let seconds = lifetime(&directives)?;
    let age = age_of(head);
    if age < seconds {
        Some(seconds - age)
    } else {
        None
    }
}

// The freshness lifetime of a response with these directives in seconds: `s-maxage`, or else `max-age`.
fn lifetime(directives: &Directives) -> Option<u32>
    ensures { (fields : List Field) → Finds directives.now fields → result ≡ lifetime fields }
{
    match directives.s_maxage {
        Some(shared) => shared,
        None => directives.max_age?,
    }
}

// Whether a shared cache must not store a response with these directives, or one that forbids it might be hidden by an unclosed
// quote.
fn is_forbidden(head: &HeaderMap, directives: &Directives) -> bool
    requires { Finds directives.now (fields_of head.now) }
    ensures { result ≡ is_forbidden (fields_of head.now) }
{
    directives.no_store
        || directives.no_cache
        || directives.private
        || has_field(head, "vary")
        || has_field(head, "set-cookie")
        || directives.unclosed
}
