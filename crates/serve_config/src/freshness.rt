//! How it is judged whether a stored answer is fresh, and the operator's rules about it.
ghost use Rattle.std.specs.Prelude.{◌≡◌, [], ◌∷◌, ◌++◌, IfOk, Some, codes};
ghost use Rattle.std.specs.String.{string_bytes};
ghost use Rattle.serde_json.specs.View.{view};
ghost use Rattle.serve_config.specs.Parts.{AreFreshnessKeys};
ghost use Rattle.serve_config.specs.Refresh.{AreRules, AreStaleSeconds, ComparesPart, IsRule, IsUrlPart};
ghost use Rattle.serve_config.specs.Said.{Lists, Says};
ghost use Rattle.serve_config.specs.Words.{freshness_said};

use crate::fault::Fault;
use crate::place::Place;
use crate::value::{list, number, number_or, truth_or_false, visible, word};
use serde_json::Value;
use std::alloc::{AllocError, Global};

// The most rules of a configuration.
const MOST_RULES: usize = 64;

// The most octets of a rule's suffix or prefix.
const MOST_OCTETS: usize = 8192;

/// By which rules a stored answer is fresh.
#[derive(Clone, Copy, PartialEq, Eq)]
pub enum Freshness {
    /// The rules of this program's first versions. They are the usual ones.
    Published,
    /// Those of RFC 9111, section 4.2.
    Rfc9111,
}

/// The part of a URL that a rule compares: 1 to 8,192 octets of visible ASCII.
#[derive(Drop)]
pub enum UrlPart {
    /// The URL ends with this.
    Suffix(String),
    /// The URL begins with this.
    Prefix(String),
}

/// A rule of the operator's about the freshness of the answers for some URLs.
#[derive(Drop)]
pub struct RefreshRule {
    /// Which URLs.
    pub place: UrlPart,
    /// For how long their answers are fresh, in seconds: at most 31,536,000, a year of 365 days.
    pub seconds: u32,
    /// Whether the rule also holds for an answer that says itself for how long it is fresh.
    pub overrides: bool,
}

/// What a configuration says about it.
#[derive(Drop)]
pub(crate) struct FreshnessKeys {
    pub(crate) freshness: Freshness,
    pub(crate) refresh: Vec<RefreshRule>,
    pub(crate) serve_stale: u32,
}

/// Parses what a configuration says about it.
pub(crate) fn freshness_keys(alloc: Global, value: &Value) -> Result<FreshnessKeys, Fault>
    ensures { IfOk result (AreFreshnessKeys (view value.now)) }
{
    let freshness = freshness_of(alloc, value)?;
    let serve_stale = serve_stale(alloc, value, freshness)?;
    Ok(FreshnessKeys {
        freshness,
        refresh: refresh_rules(alloc, value, freshness)?,
        serve_stale,
    })
}

// Parses by which rules a stored answer is fresh.
fn freshness_of(alloc: Global, value: &Value) -> Result<Freshness, Fault>
    ensures { IfOk result (λ rules. freshness_said (view value.now) ≡ Some rules) }
{
    match word(alloc, value, "freshness", "published")? {
        "published" => Ok(Freshness::Published),
        "rfc9111" => Ok(Freshness::Rfc9111),
        given => {
            let place = Place::whole().key("freshness");
            Err(Fault::text(alloc, place, given, "is neither published nor rfc9111"))
        }
    }
}

// Parses the operator's rules, in their order. Errors: a malformed rule, over 64 of them, or rules where freshness is judged as
// published.
fn refresh_rules(
    alloc: Global,
    value: &Value,
    freshness: Freshness,
) -> Result<Vec<RefreshRule>, Fault>
    ensures said { IfOk result (λ rules. AreRules (view value.now) freshness rules.items) }
{
    let place = Place::whole().key("refresh");
    let rules = rules(alloc, value)?;
    if rules.len() > MOST_RULES {
        return Err(Fault::value(alloc, place, "over 64 of them"));
    }
    match freshness {
        Freshness::Published if !rules.is_empty() => {
            Err(Fault::value(
                alloc,
                place,
                "there are rules, but freshness is not rfc9111",
            ))
        }
        _ => Ok(rules),
    }
}

// Parses for how many seconds after it went stale an answer may be used whose origin is down; 0 without the key. Errors: not 0 to
// 31,536,000, or above 0 where freshness is judged as published.
fn serve_stale(alloc: Global, value: &Value, freshness: Freshness) -> Result<u32, Fault>
    ensures said { IfOk result (AreStaleSeconds (view value.now) freshness) }
{
    let seconds = number_or(alloc, value, "serve_stale", 0, 31_536_000, 0)?;
    match freshness {
        Freshness::Published if seconds > 0 => {
            let place = Place::whole().key("serve_stale");
            Err(Fault::value(alloc, place, "above 0, but freshness is not rfc9111"))
        }
        _ => Ok(seconds),
    }
}

// Parses each rule.
fn rules(alloc: Global, value: &Value) -> Result<Vec<RefreshRule>, Fault>
    ensures { IfOk result (λ rules. Lists IsRule (codes "refresh") (view value.now) rules.items) }
{
    let items = list(alloc, value, "refresh")?;
    let mut rules = Vec::new(alloc);
    for i in 0..items.len() {
        let rule = rule(alloc, &items[i], Place::item("refresh", i))?;
        rules = with_rule(rules, rule)?;
    }
    Ok(rules)
}

// These rules and this one.
fn with_rule(rules: Vec<RefreshRule>, rule: RefreshRule) -> Result<Vec<RefreshRule>, Fault>
    ensures { IfOk result (λ after. after.items ≡ rules.items ++ rule ∷ []) }
{
    let mut rules = rules;
    rules.push(rule).map_err(AllocError::from)?;
    Ok(rules)
}

// Parses one rule.
fn rule(alloc: Global, item: &Value, place: Place<'_>) -> Result<RefreshRule, Fault>
    ensures said { IfOk result (IsRule (view item.now)) }
{
    Ok(RefreshRule {
        place: url_part(alloc, item, place)?,
        seconds: number(alloc, item, place.key("seconds"), 0, 31_536_000)? as u32,
        overrides: truth_or_false(alloc, item, place.key("override"))?,
    })
}

// Parses the part of the URL that a rule compares. Errors: none or two of them, or a malformed one.
fn url_part(alloc: Global, item: &Value, place: Place<'_>) -> Result<UrlPart, Fault>
    ensures said { IfOk result (ComparesPart (view item.now)) }
{
    match (item.get("suffix").is_some(), item.get("prefix").is_some()) {
        (true, false) => Ok(UrlPart::Suffix(url_text(alloc, item, place.key("suffix"))?)),
        (false, true) => Ok(UrlPart::Prefix(url_text(alloc, item, place.key("prefix"))?)),
        (true, true) => Err(Fault::value(alloc, place, "both suffix and prefix")),
        (false, false) => Err(Fault::value(alloc, place, "neither suffix nor prefix")),
    }
}

// Parses the text that a rule compares.
fn url_text(alloc: Global, item: &Value, place: Place<'_>) -> Result<String, Fault>
    ensures { IfOk result (λ text. Says IsUrlPart place.entry.key.now (view item.now) (string_bytes text)) }
{
    let text = visible(alloc, item, place)?;
    if text.len() > MOST_OCTETS {
        return Err(Fault::value(alloc, place, "over 8192 octets"));
    }
    Ok(String::from_str(alloc, text)?)
}
