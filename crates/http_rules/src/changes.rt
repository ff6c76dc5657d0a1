//! What a response to a request that is not safe makes stale (RFC 9111, section 4.4).
ghost use Rattle.std.specs.Prelude.{◌≡◌, ◌++◌, None, IfOk, IsOk, codes, false, option_copied, option_to_list};
ghost use Rattle.http_header.specs.Token.{lowercase};
ghost use Rattle.http_rules.specs.Changes.{is_change, is_same_origin, key_beside, key_within, named_key, named_keys, other_keys, text_in, url_of};
ghost use Rattle.url.specs.Parser.{Gives, parse_url};
ghost use Rattle.http_rules.specs.Fields.{fields_of, first_value};

use crate::fields::first_value;
use crate::passing::is_unsafe;
use crate::target::{TargetFault, key_of_url};
use http_header::HeaderMap;
use object_store::CacheKey;
use std::alloc::{AllocError, Global};
use url::{ParseError, Url};

/// What a response to a request that is not safe makes stale.
#[derive(Drop)]
pub struct Changed {
    /// Whether what is stored under the request's own key is.
    pub own: bool,
    /// The other keys of which that is so. Errors: out of memory.
    pub others: Result<Vec<CacheKey>, AllocError>,
}

/// The keys whose stored responses a response with this status and head to a request for this key makes stale (RFC 9111, section
/// 4.4). None unless the method is unsafe and the status 2xx or 3xx; otherwise the key itself, and those of Location and
/// Content-Location where they are of the same origin: scheme, host and port. Of several such fields the first counts, and one that
/// is no `http` URL, or is too long for a key, does not count. Whether the key itself is one takes no memory, nor do the others where no such field is there.
pub fn changed_keys(
    alloc: Global,
    key: &CacheKey,
    method: &str,
    status: u16,
    head: &HeaderMap,
) -> Changed
    ensures own { result.own ≡ is_change method.now status }
    ensures unchanged { is_change method.now status ≡ false → IsOk result.others }
    ensures unnamed { first_value (codes "location") (fields_of head.now) ≡ None → first_value (codes "content-location") (fields_of head.now) ≡ None → IsOk result.others }
    ensures others { IfOk result.others (λ keys. keys.items ≡ other_keys key.now method.now status (fields_of head.now)) }
{
    if !is_change(method, status) {
        return Changed {
            own: false,
            others: Ok(Vec::new(alloc)),
        };
    }
    Changed {
        own: true,
        others: named_keys(alloc, key, head),
    }
}

// The keys that Location and Content-Location refer to, where they are of the same origin as this key.
fn named_keys(alloc: Global, key: &CacheKey, head: &HeaderMap) -> Result<Vec<CacheKey>, AllocError>
    ensures named { IfOk result (λ keys. keys.items ≡ named_keys key.now (fields_of head.now)) }
    ensures unnamed { first_value (codes "location") (fields_of head.now) ≡ None → first_value (codes "content-location") (fields_of head.now) ≡ None → IsOk result }
{
    let location = named_key(alloc, key, head, "location")?;
    let content = named_key(alloc, key, head, "content-location")?;
    with_key(with_key(Vec::new(alloc), location)?, content)
}

// Whether a response with this status to a request with this method changes what is stored.
fn is_change(method: &str, status: u16) -> bool
    ensures { result ≡ is_change method.now status }
{
    is_unsafe(method) && 200 <= status && status <= 399
}

// These keys and, if it is there, this one.
fn with_key(keys: Vec<CacheKey>, key: Option<CacheKey>) -> Result<Vec<CacheKey>, AllocError>
    ensures after { IfOk result (λ after. after.items ≡ keys.items ++ option_to_list key) }
    ensures none { key ≡ None → IsOk result }
{
    let mut keys = keys;
    if let Some(key) = key {
        keys.push(key)?;
    }
    Ok(keys)
}

// The key that the first field with this name refers to, if it is of the same origin as this key. `name` is in lower case.
fn named_key(
    alloc: Global,
    key: &CacheKey,
    head: &HeaderMap,
    name: &str,
) -> Result<Option<CacheKey>, AllocError>
    requires { lowercase name.now ≡ name.now }
    ensures found { IfOk result (λ found. found ≡ named_key key.now name.now (fields_of head.now)) }
    ensures unnamed { first_value name.now (fields_of head.now) ≡ None → IsOk result }
{
    let Some(reference) = first_value(head, name) else {
        return Ok(None);
    };
    let Some(base) = url_of(alloc, None, key.as_slice())? else {
        return Ok(None);
    };
    key_beside(alloc, &base, reference)
}

// The key that a reference from this URL has, if it is of the same origin.
fn key_beside(alloc: Global, base: &Url, reference: &[u8]) -> Result<Option<CacheKey>, AllocError>
    ensures { IfOk result (λ found. found ≡ key_beside reference.now base.now) }
{
    match url_of(alloc, Some(base), reference)? {
        Some(url) => key_within(alloc, base, &url),
        None => Ok(None),
    }
}

// The key of a URL that is of the same origin as another one.
fn key_within(alloc: Global, base: &Url, url: &Url) -> Result<Option<CacheKey>, AllocError>
    ensures { IfOk result (λ found. found ≡ key_within base.now url.now) }
{
    if !is_same_origin(base, url) {
        return Ok(None);
    }
    match key_of_url(alloc, url) {
        Ok(key) => Ok(Some(key)),
        Err(TargetFault::NoMemory) => Err(AllocError),
        Err(TargetFault::NotHttp | TargetFault::TooLong) => Ok(None),
    }
}

// The URL that octets are, or that they refer to from a base; `None` if they are none.
fn url_of(alloc: Global, base: Option<&Url>, octets: &[u8]) -> Result<Option<Url>, AllocError>
    ensures { IfOk result (λ url. url ≡ url_of (option_copied base.entry) octets.now) }
{
    let Some(text) = text_in(octets) else {
        return Ok(None);
    };
    match parsed(alloc, base, text) {
        Ok(url) => Ok(Some(url)),
        Err(ParseError::OutOfMemory | ParseError::Overflow) => Err(AllocError),
        Err(_) => Ok(None),
    }
}

// Parses a URL, from a base if there is one.
fn parsed(alloc: Global, base: Option<&Url>, text: &str) -> Result<Url, ParseError>
    ensures { Gives result (parse_url (option_copied base.entry) text.now) }
{
    match base {
        Some(base) => base.join(text),
        None => Url::parse(alloc, text),
    }
}

// The text that octets are, if they are UTF-8.
#[tactic(auto, using(crate::proofs::Texts::is_utf8_text, crate::proofs::Texts::is_no_text))]
fn text_in(octets: &[u8]) -> Option<&str>
    ensures { option_copied result ≡ text_in octets.now }
{
    match str::from_utf8(octets) {
        Ok(text) => Some(text),
        Err(_) => None,
    }
}

// Whether two URLs are of the same origin.
fn is_same_origin(a: &Url, b: &Url) -> bool
    ensures { result ≡ is_same_origin a.now b.now }
{
    a.scheme() == b.scheme()
        && a.host_str() == b.host_str()
        && a.port_or_known_default() == b.port_or_known_default()
}
