//! What requests in origin form stand for.
ghost use Rattle.std.specs.Prelude.{◌≡◌, [], ◌∷◌, ◌++◌, All, IfOk, map, true};
ghost use Rattle.std.specs.String.{string_bytes};
ghost use Rattle.serde_json.specs.Data.{string};
ghost use Rattle.serde_json.specs.View.{members_of, members_view, view};
ghost use Rattle.serve_config.specs.Mirrors.{AreMirrors, IsMirror, is_folder, is_mirror_path, is_mirror_url, mirror_member};

use crate::fault::Fault;
use crate::place::Place;
use crate::value::is_visible;
use serde_json::{Map, Value};
use std::alloc::{AllocError, Global};

// The most mirrors of a configuration.
const MOST_MIRRORS: usize = 64;

// The most octets of a mirror's path or URL.
const MOST_OCTETS: usize = 8192;

/// A mirror: what is asked for in origin form (RFC 9112, section 3.2.1) below a path is to come from below a URL.
#[derive(Drop)]
pub struct MirrorPath {
    /// The path: visible ASCII that begins and ends with a slash.
    pub path: String,
    /// The URL: visible ASCII that begins with `http://` and ends with a slash.
    pub url: String,
}

/// Parses the mirrors, in the order of their paths. Errors: a malformed one, or over 64 of them.
pub(crate) fn mirrors(alloc: Global, value: &Value) -> Result<Vec<MirrorPath>, Fault>
    ensures said { IfOk result (λ mirrors. AreMirrors (view value.now) mirrors.items) }
{
    let Some(given) = value.get("mirrors") else {
        return Ok(Vec::new(alloc));
    };
    let place = Place::whole().key("mirrors");
    let Some(members) = given.as_object() else {
        return Err(Fault::shape(alloc, place, "not an object"));
    };
    let mirrors = each_mirror(alloc, members)?;
    if mirrors.len() > MOST_MIRRORS {
        return Err(Fault::value(alloc, place, "over 64 of them"));
    }
    Ok(mirrors)
}

// Parses each mirror.
fn each_mirror(alloc: Global, members: &Map<String, Value>) -> Result<Vec<MirrorPath>, Fault>
    ensures said { IfOk result (λ mirrors. members_view members.now.entries ≡ members_of (map mirror_member mirrors.items)) }
    ensures each { IfOk result (λ mirrors. All IsMirror mirrors.items) }
{
    let mut mirrors = Vec::new(alloc);
    for (path, url) in members.iter() {
        let mirror = mirror(alloc, path.as_str(), url)?;
        mirrors = with_mirror(mirrors, mirror)?;
    }
    Ok(mirrors)
}

// These mirrors and this one.
fn with_mirror(mirrors: Vec<MirrorPath>, mirror: MirrorPath) -> Result<Vec<MirrorPath>, Fault>
    requires others { All IsMirror mirrors.items }
    requires this { IsMirror mirror }
    ensures all { IfOk result (λ after. after.items ≡ mirrors.items ++ mirror ∷ []) }
    ensures each { IfOk result (λ after. All IsMirror after.items) }
{
    let mut mirrors = mirrors;
    mirrors.push(mirror).map_err(AllocError::from)?;
    Ok(mirrors)
}

// Parses one mirror.
fn mirror(alloc: Global, path: &str, url: &Value) -> Result<MirrorPath, Fault>
    ensures path { IfOk result (λ mirror. string_bytes mirror.path ≡ path.now) }
    ensures value { IfOk result (λ mirror. view url.now ≡ string (string_bytes mirror.url)) }
    ensures form { IfOk result IsMirror }
{
    if !is_mirror_path(path.as_bytes()) {
        let place = Place::whole().key("mirrors");
        return Err(Fault::text(
            alloc,
            place,
            path,
            "is no path that begins and ends with a slash",
        ));
    }
    let place = Place::object("mirrors").key(path);
    let Some(url) = url.as_str() else {
        return Err(Fault::shape(alloc, place, "not a text"));
    };
    if !is_mirror_url(url.as_bytes()) {
        return Err(Fault::text(alloc, place, url, "is no http URL that ends with a slash"));
    }
    Ok(MirrorPath {
        path: String::from_str(alloc, path)?,
        url: String::from_str(alloc, url)?,
    })
}

// Whether a text is the path of a mirror.
#[tactic(auto, unfolding(crate::specs::Mirrors::is_mirror_path))]
fn is_mirror_path(text: &[u8]) -> bool
    ensures { result ≡ is_mirror_path text.now }
{
    text.starts_with(b"/") && is_folder(text)
}

// Whether a text is the URL of a mirror.
#[tactic(auto, unfolding(crate::specs::Mirrors::is_mirror_url))]
fn is_mirror_url(text: &[u8]) -> bool
    ensures { result ≡ is_mirror_url text.now }
{
    text.starts_with(b"http://") && 8 < text.len() && is_folder(text)
}

// Whether a text of not too many visible octets ends with a slash.
fn is_folder(text: &[u8]) -> bool
    ensures { result ≡ is_folder text.now }
{
    text.ends_with(b"/") && is_visible(text) && text.len() <= MOST_OCTETS
}
