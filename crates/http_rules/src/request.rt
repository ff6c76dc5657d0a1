//! Classification of requests.
ghost use Rattle.std.specs.Prelude.{◌≡◌, ◌||◌};
ghost use Rattle.http_rules.specs.Fields.{fields_of};
ghost use Rattle.http_rules.specs.Elements.{Finds};
ghost use Rattle.http_rules.specs.Requests.{mode_of, is_private};

use crate::directives::Directives;
use crate::fields::has_field;
use http_header::HeaderMap;
use node_terms::Mode;

/// How a request may be answered, from its method and header fields.
///
/// A directive that stands behind an unclosed quote cannot be recognized, so a request with such a quote counts as one that may
/// have `no-cache`: it is private, or with `only-if-cached` refused.
///
/// Errors: the status code of the refusal. 501 for a method other than GET; 504 for a request with `only-if-cached` and either
/// `no-cache` or an unclosed quote.
pub fn classify(method: &str, head: &HeaderMap) -> Result<Mode, u16>
    ensures { result ≡ mode_of method.now (fields_of head.now) }
{
    if method != "GET" {
        return Err(501);
    }
    let directives = Directives::of(head);
    if directives.only_if_cached {
        return if may_ask_no_cache(&directives) {
            Err(504)
        } else {
            Ok(Mode::Cached)
        };
    }
    Ok(if is_private(head, &directives) {
        Mode::Private
    } else {
        Mode::Shared
    })
}

// Whether a request with these directives has `no-cache`, or may have it behind an unclosed quote.
fn may_ask_no_cache(directives: &Directives) -> bool
    ensures { result ≡ (directives.now.no_cache || directives.now.unclosed) }
{
    directives.no_cache || directives.unclosed
}

// Whether a request with these directives must be neither answered from the shared store nor stored there.
fn is_private(head: &HeaderMap, directives: &Directives) -> bool
    requires { Finds directives.now (fields_of head.now) }
    ensures { result ≡ is_private (fields_of head.now) }
{
    has_field(head, "authorization")
        || has_field(head, "cookie")
        || has_field(head, "range")
        || directives.no_store
        || may_ask_no_cache(directives)
}
