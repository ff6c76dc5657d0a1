//! Header fields.
use hyper::header::{HeaderName, HeaderValue};
use hyper::{HeaderMap, header};
use std::alloc::Global;

// The name of a field that most answers have, without a search among all that are registered. `None` if it is another one.
fn usual_name(name: &[u8]) -> Option<HeaderName> {
    let usual = match name.len() {
        3 if name == b"via".as_slice() => header::VIA,
        4 if name == b"date".as_slice() => header::DATE,
        4 if name == b"etag".as_slice() => header::ETAG,
        4 if name == b"vary".as_slice() => header::VARY,
        6 if name == b"server".as_slice() => header::SERVER,
        7 if name == b"expires".as_slice() => header::EXPIRES,
        12 if name == b"content-type".as_slice() => header::CONTENT_TYPE,
        13 if name == b"cache-control".as_slice() => header::CACHE_CONTROL,
        13 if name == b"last-modified".as_slice() => header::LAST_MODIFIED,
        13 if name == b"accept-ranges".as_slice() => header::ACCEPT_RANGES,
        16 if name == b"content-encoding".as_slice() => header::CONTENT_ENCODING,
        _ => return None,
    };
    Some(usual)
}

// The name of a field. `None` if it is none, or if out of memory.
fn name_of(alloc: Global, name: &[u8]) -> Option<HeaderName> {
    match usual_name(name) {
        Some(usual) => Some(usual),
        None => HeaderName::from_bytes(alloc, name).ok(),
    }
}

/// Appends a field. Returns `None` if the field is invalid, if there are too many, or if out of memory.
pub fn add_field(alloc: Global, headers: &mut HeaderMap, name: &[u8], value: &[u8]) -> Option<()> {
    let name = name_of(alloc, name)?;
    let value = HeaderValue::from_bytes(alloc, value).ok()?;
    let _ = headers.append(name, value).ok()?;
    Some(())
}

/// Appends fields, in order. Returns `None` as `add_field` does.
pub fn add_fields(
    alloc: Global,
    headers: &mut HeaderMap,
    fields: &[(Vec<u8>, Vec<u8>)],
) -> Option<()> {
    for (name, value) in fields {
        add_field(alloc, headers, name.as_slice(), value.as_slice())?;
    }
    Some(())
}

/// Appends the fields of a stored object, without Content-Length and Transfer-Encoding, which depend on how this response is
/// framed, and without Age if `is_age_apart`. Returns `None` as `add_field` does.
pub fn add_object_fields(
    alloc: Global,
    headers: &mut HeaderMap,
    fields: &[(Vec<u8>, Vec<u8>)],
    is_age_apart: bool,
) -> Option<()> {
    for (name, value) in fields {
        let name = name.as_slice();
        let is_framing = name == b"content-length".as_slice()
            || name == b"transfer-encoding".as_slice();
        if !is_framing && !(is_age_apart && name == b"age".as_slice()) {
            add_field(alloc, headers, name, value.as_slice())?;
        }
    }
    Some(())
}

/// Whether the content of a message has a transfer coding other than chunked.
pub fn has_foreign_coding(headers: &HeaderMap) -> bool {
    let mut codings = headers.get_all(header::TRANSFER_ENCODING).iter();
    match codings.next() {
        Some(first) => {
            !first.as_bytes().eq_ignore_ascii_case(b"chunked") || codings.next().is_some()
        }
        None => false,
    }
}
