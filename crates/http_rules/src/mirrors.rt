//! The URLs that requests in origin form stand for.
ghost use Rattle.std.specs.Prelude.{◌≡◌, ◌++◌, IfOk, option_map, true};
ghost use Rattle.std.specs.String.{string_bytes};
ghost use Rattle.http_rules.specs.Mirrors.{is_below, mirrored, url_at};

use std::alloc::{AllocError, Global};

/// A mirror: what a request asks for in origin form (RFC 9112, section 3.2.1) below `path` comes from that text with `url` in the place of `path`.
#[derive(Drop)]
pub struct Mirror {
    /// The beginning of a request target, such as `/debian/`.
    pub path: String,
    /// What stands in its place, such as `http://deb.example/debian/`.
    pub url: String,
}

/// The URL that a request target stands for: that of the first mirror with whose path the target begins, and behind it the rest of
/// the target. `None` if there is no such mirror. Errors: out of memory.
pub fn mirrored(
    alloc: Global,
    mirrors: &[Mirror],
    target: &str,
) -> Result<Option<String>, AllocError>
    ensures { IfOk result (λ url. option_map string_bytes url ≡ mirrored mirrors.now target.now) }
{
    match mirrors.iter().find(|mirror| is_below(target, mirror)) {
        Some(mirror) => Ok(Some(url_at(alloc, target, mirror)?)),
        None => Ok(None),
    }
}

// Whether a target begins with a mirror's path.
fn is_below(target: &str, mirror: &Mirror) -> bool
    ensures { result ≡ is_below target.now mirror.now }
{
    target.as_bytes().starts_with(mirror.path.as_bytes())
}

// The URL of a target at a mirror with whose path it begins. Errors: out of memory.
fn url_at(alloc: Global, target: &str, mirror: &Mirror) -> Result<String, AllocError>
    requires { is_below target.now mirror.now ≡ true }
    ensures { IfOk result (λ url. string_bytes url ≡ url_at target.now mirror.now) }
{
    match target.strip_prefix(mirror.path.as_str()) {
        Some(rest) => joined(alloc, mirror.url.as_str(), rest),
        None => unreachable!(),
    }
}

// A text, and another one behind it. Errors: out of memory.
fn joined(alloc: Global, first: &str, rest: &str) -> Result<String, AllocError>
    ensures { IfOk result (λ text. string_bytes text ≡ first.now ++ rest.now) }
{
    let mut text = String::from_str(alloc, first)?;
    text.push_str(rest)?;
    Ok(text)
}
