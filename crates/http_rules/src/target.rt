//! The cache key of a request target.
ghost use Rattle.std.specs.Prelude.{◌≡◌, ◌⊎◌, ◌<◌, ◌≤◌, length, IfOk, IfErr, IsErrOf, Some, None, true};
ghost use Rattle.std.specs.List.{list_all};
ghost use Rattle.url.specs.Parts.{has_credentials};
ghost use Rattle.http_rules.specs.Targets.{text_of, is_visible, is_plain, url_key, target_key, IsFaultOf, IsTooLong};

use object_store::{CacheKey, KeyFault, MOST_KEY_OCTETS};
use std::alloc::{AllocError, Global};
use thiserror::Error;
use url::{ParseError, Position, Url};

/// Why a request target has no cache key.
#[derive(Clone, Copy, Debug, Error)]
pub enum TargetFault {
    /// Not an `http` URL with a host and without user and password.
    #[error("not an http URL of a host")]
    NotHttp,
    /// The key would be longer than 8,192 octets, or the target is, and too long for the URL parser.
    #[error("too long")]
    TooLong,
    /// Out of memory.
    #[error("no memory")]
    NoMemory,
}

impl From<AllocError> for TargetFault {
    ghost use Rattle.std.specs.Prelude.{◌≡◌};
    ghost use Rattle.http_rules.specs.declared.target.TargetFault.TheVariants as fault;

    ghost from_gives = { λ _ e. e ≡ fault.NoMemory };

    fn from(_: AllocError) -> TargetFault {
        TargetFault::NoMemory
    }
}

/// The cache key of a request target in absolute form: the URL as the URL Standard serializes it, without its fragment.
pub fn key_of(alloc: Global, target: &str) -> Result<CacheKey, TargetFault>
    ensures key { IfOk result (λ key. target_key target.now ≡ Some key) }
    ensures not_http { IsErrOf result TargetFault.NotHttp → target_key target.now ≡ None }
    ensures too_long { IsErrOf result TargetFault.TooLong → IsTooLong target.now }
{
    match Url::parse(alloc, target) {
        Ok(url) => key_of_url(alloc, &url),
        Err(ParseError::OutOfMemory) => Err(TargetFault::NoMemory),
        Err(ParseError::Overflow) => Err(overflowed(target)),
        Err(_) => Err(TargetFault::NotHttp),
    }
}

// Why a target has no key that the parser has no room for.
fn overflowed(target: &str) -> TargetFault
    ensures long { result ≡ TargetFault.TooLong → 8192 < length target.now }
    ensures fault { (result ≡ TargetFault.TooLong) ⊎ (result ≡ TargetFault.NoMemory) }
{
    if target.len() > MOST_KEY_OCTETS {
        TargetFault::TooLong
    } else {
        TargetFault::NoMemory
    }
}

/// The cache key of a parsed URL.
pub fn key_of_url(alloc: Global, url: &Url) -> Result<CacheKey, TargetFault>
    ensures key { IfOk result (λ key. url_key url.now ≡ Some key) }
    ensures short { IfOk result (λ key. length key ≤ 8192) }
    ensures fault { IfErr result (λ fault. IsFaultOf url.now fault) }
{
    if !is_plain(url) {
        return Err(TargetFault::NotHttp);
    }
    if text_of(url).len() > MOST_KEY_OCTETS {
        return Err(TargetFault::TooLong);
    }
    key_of_plain(alloc, url)
}

// The cache key of a URL that is known to be a valid key.
fn key_of_plain(alloc: Global, url: &Url) -> Result<CacheKey, TargetFault>
    requires plain { is_plain url.now ≡ true }
    requires short { length (text_of url.now) ≤ 8192 }
    ensures value { IfOk result (λ key. key ≡ text_of url.now) }
    ensures memory { IfErr result (λ fault. fault ≡ TargetFault.NoMemory) }
{
    let octets = Vec::from_slice(alloc, text_of(url))?;
    match CacheKey::new(alloc, octets) {
        Ok(key) => Ok(key),
        Err((KeyFault::NoMemory, _)) => Err(TargetFault::NoMemory),
        Err((KeyFault::NotKey, _)) => Err(TargetFault::NotHttp),
    }
}

// The serialized URL without its fragment.
fn text_of(url: &Url) -> &[u8]
    ensures { result.now ≡ text_of url.now }
{
    url.slice(Position::BeforeScheme, Position::AfterQuery)
        .as_bytes()
}

// Whether a URL is a valid key, apart from its length.
fn is_plain(url: &Url) -> bool
    ensures { result ≡ is_plain url.now }
{
    url.scheme() == "http"
        && (url.has_host() && (!has_credentials(url) && is_visible(text_of(url))))
}

// Whether a URL has a user or a password.
fn has_credentials(url: &Url) -> bool
    ensures { result ≡ has_credentials url.now }
{
    !url.username().is_empty() || url.password().is_some()
}

// Whether all octets are visible ASCII.
fn is_visible(text: &[u8]) -> bool
    ensures { result ≡ list_all is_visible text.now }
{
    text.iter().all(|&octet| 0x21 <= octet && octet <= 0x7e)
}
