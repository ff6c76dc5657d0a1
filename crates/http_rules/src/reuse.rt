//! What a request says about the use of stored responses.
ghost use Rattle.std.specs.Prelude.{◌≡◌, List, codes, option_map};
ghost use Rattle.http_rules.specs.Fields.{Field, fields_of};
ghost use Rattle.http_rules.specs.Directives.{argument, argument_seconds};
ghost use Rattle.http_rules.specs.Elements.{Finds};
ghost use Rattle.http_rules.specs.Reuse.{may_have_no_cache, asks_by_pragma, is_young_enough, is_fresh_enough, accepts};

use crate::directives::{Directives, is_unclosed};
use crate::fields::{has_field, values_of};
use crate::forbidding::forbids_in;
use http_header::HeaderMap;

/// Whether a Pragma field counts and has `no-cache`, or may have it behind an unclosed quote.
pub(crate) fn asks_by_pragma(head: &HeaderMap) -> bool
    ensures { result ≡ asks_by_pragma (fields_of head.now) }
{
    if has_field(head, "cache-control") {
        return false;
    }
    for value in values_of(head, "pragma") {
        if may_have_no_cache(value.as_bytes()) {
            return true;
        }
    }
    false
}

// Whether a value has `no-cache`, or may have it behind an unclosed quote.
fn may_have_no_cache(value: &[u8]) -> bool
    ensures { result ≡ may_have_no_cache value.now }
{
    forbids_in(value, b"no-cache") || is_unclosed(value)
}

/// Whether a request with these fields accepts a stored response that has this age and stays fresh for `life` seconds: its
/// `max-age` is no less than the age (RFC 9111, section 5.2.1.1), and its `min-fresh` is no more than the life (section 5.2.1.3). A
/// directive whose argument is no number accepts nothing. Nor is a response accepted whose life is 0: what `max-stale` accepts (section
/// 5.2.1.2) is judged by `stale_use`.
pub fn accepts(head: &HeaderMap, age: u32, life: u32) -> bool
    ensures { result ≡ accepts age life (fields_of head.now) }
{
    is_accepted(&Directives::of(head), age, life)
}

/// Whether a request with these directives accepts a stored response, as `accepts` says.
pub(crate) fn is_accepted(directives: &Directives, age: u32, life: u32) -> bool
    ensures { (fields : List Field) → Finds directives.now fields → result ≡ accepts age life fields }
{
    0 < life
        && (is_young_enough(directives.max_age, age) && is_fresh_enough(directives.min_fresh, life))
}

// Whether an age is at most the `max-age` of a request, if it has one.
fn is_young_enough(max_age: Option<Option<u32>>, age: u32) -> bool
    ensures { (fields : List Field) → max_age ≡ option_map argument_seconds (argument (codes "max-age") fields) → result ≡ is_young_enough age fields }
{
    match max_age {
        None => true,
        Some(None) => false,
        Some(Some(most)) => age <= most,
    }
}

// Whether a remaining life is at least the `min-fresh` of a request, if it has one.
fn is_fresh_enough(min_fresh: Option<Option<u32>>, life: u32) -> bool
    ensures { (fields : List Field) → min_fresh ≡ option_map argument_seconds (argument (codes "min-fresh") fields) → result ≡ is_fresh_enough life fields }
{
    match min_fresh {
        None => true,
        Some(None) => false,
        Some(Some(least)) => least <= life,
    }
}
