//! Responses that confirm what was fetched before.
ghost use Rattle.std.specs.Prelude.{◌≡◌, IfSome, length};
ghost use Rattle.http_header.specs.FieldValue.{plain_value};
ghost use Rattle.http_header.specs.HeaderMap.{append};
ghost use Rattle.http_header.specs.Token.{lowercase};
ghost use Rattle.http_rules.specs.Updating.{updated};
ghost use Rattle.http_rules.specs.Validators.{stored_fields};
ghost use Rattle.proxy_state.specs.Objects.{framed, head_with};

use http_header::{HeaderMap, HeaderName, HeaderValue};
use http_rules::{Revalidated, end_to_end, tells_end, updated};
use http_traffic::Page;
use object_store::Object;
use std::alloc::Global;

/// The octets of names and values that an object's fields may have after a 304, some more than a head that is received can have.
const MOST_OCTETS: usize = 65_536;

/// The fields that an object may have after a 304, some more than a head that is received can have. Each takes memory and time beside
/// its octets.
const MOST_FIELDS: usize = 128;

/// The whole response that a 304 stands for which confirms an object: the object's status and body, and its fields brought up to date.
/// `None` if there would be more than 128 fields or they would have more than 65,536 octets (each 304 may add some), or if out of memory.
pub fn confirmed(alloc: Global, revalidated: &Revalidated<'_>) -> Option<Page>
    ensures status { IfSome result (λ page. page.status ≡ revalidated.now.object.status) }
    ensures head { IfSome result (λ page. page.head ≡ framed (length revalidated.now.object.body) (head_with (updated revalidated.now.given revalidated.now.object.head))) }
    ensures body { IfSome result (λ page. page.body.items ≡ revalidated.now.object.body) }
{
    let fields = updated(alloc, revalidated).ok()?;
    if fields.len() > MOST_FIELDS || octets_of(fields.as_slice()) > MOST_OCTETS {
        return None;
    }
    let object = revalidated.object();
    let body = object.body().to_vec(alloc).ok()?;
    let head = head_with(alloc, fields.as_slice())?;
    let head = framed(alloc, head, body.len())?;
    Some(Page {
        status: object.status(),
        head,
        body,
    })
}

// The head that has these fields. `None` if one is invalid, if there are too many, or if out of memory.
fn head_with(alloc: Global, fields: &[(Vec<u8>, Vec<u8>)]) -> Option<HeaderMap>
    ensures { IfSome result (λ head. head ≡ head_with (stored_fields fields.now)) }
{
    let mut head = HeaderMap::new(alloc);
    for i in 0..fields.len() {
        let (name, value) = (fields[i].0.as_slice(), fields[i].1.as_slice());
        add(alloc, &mut head, name, value)?;
    }
    Some(head)
}

// A head with the length of its body, where it does not tell where that ends. `None` if there are too many fields, or if out of memory.
fn framed(alloc: Global, mut head: HeaderMap, octets: usize) -> Option<HeaderMap>
    ensures { IfSome result (λ it. it ≡ framed octets head) }
{
    if tells_end(&head) {
        return Some(head);
    }
    let octets = octets.to_string(alloc).ok()?;
    add(alloc, &mut head, b"content-length", octets.as_bytes())?;
    Some(head)
}

/// The fields whose rules say whether and for how long a response is kept.
const RULES: [&str; 3] = ["cache-control", "expires", "vary"];

/// Whether a response with this head names one of its rules in Connection, so that what is stored of it does not have that. The rules hold
/// all the same (RFC 9111, section 5.2, of Cache-Control). `true` also where that cannot be told.
pub fn hides_rules(alloc: Global, head: &HeaderMap) -> bool {
    if !head.contains_key("connection") {
        return false;
    }
    let Ok(fields) = end_to_end(alloc, head) else {
        return true;
    };
    RULES.iter().any(|name| head.contains_key(*name)
        && !has_field(fields.as_slice(), name.as_bytes()))
}

/// Whether a 304 with this head has other values of Cache-Control than the object that it is about.
pub fn has_other_rules(head: &HeaderMap, object: &Object) -> bool {
    let mut stored = object
        .head()
        .iter()
        .filter(|(name, _)| name.as_slice() == b"cache-control".as_slice());
    for value in head.get_all("cache-control").iter() {
        match stored.next() {
            Some((_, own)) if own.as_slice() == value.as_bytes() => {}
            _ => return true,
        }
    }
    head.contains_key("cache-control") && stored.next().is_some()
}

/// Whether one of these fields has this name.
fn has_field(fields: &[(Vec<u8>, Vec<u8>)], name: &[u8]) -> bool {
    fields.iter().any(|(own, _)| own.as_slice() == name)
}

/// The octets of all names and values of these fields.
fn octets_of(fields: &[(Vec<u8>, Vec<u8>)]) -> usize {
    let mut sum = 0usize;
    for (name, value) in fields {
        sum = sum.saturating_add(name.len()).saturating_add(value.len());
    }
    sum
}

/// Appends a field. Returns `None` if it is invalid, if there are too many, or if out of memory.
fn add(alloc: Global, head: &mut HeaderMap, name: &[u8], value: &[u8]) -> Option<()>
    ensures { IfSome result (λ _. head.new ≡ append head.old (lowercase name.now) (plain_value value.now)) }
{
    let name = HeaderName::from_bytes(alloc, name).ok()?;
    let value = HeaderValue::from_bytes(alloc, value).ok()?;
    let _ = head.append(name, value).ok()?;
    Some(())
}
