//! The responses to clients and administrators.
ghost use Rattle.std.specs.Prelude.{None};

use crate::page_policy::POLICY;
use crate::requests::{Given, OwnAnswer, PassedAnswer};
use futures::channel::{mpsc, oneshot};
use http_content::{Portions, add_field, add_object_fields};
use http_rules::end_to_end;
use http_traffic::{Early, PassedHead, Piece, Shape};
use hyper::header::{HeaderName, HeaderValue};
use hyper::{HeaderMap, Response, StatusCode, header};
use object_store::SharedObject;
use std::alloc::Global;

/// A body that responses are made with. What makes them is generic over it, since the prover does not look behind a type parameter
/// (docs/GATE.md).
pub(crate) trait ResponseBody: Drop {
    /// A body of which all octets are known.
    fn of(known: Portions) -> Self;

    /// A body of the pieces that come, to the end of their channel.
    fn of_pieces(alloc: Global, pieces: mpsc::Receiver<Vec<u8>>) -> Self;

    /// A body of the pieces of an answer that is passed on; it fails if they end without `Piece::End`. The passage ends when this is
    /// dropped, with `wanted`. Returns `None` if out of memory.
    fn of_passed(
        alloc: Global,
        pieces: mpsc::Receiver<Piece>,
        length: Option<u64>,
        wanted: Option<oneshot::Sender<()>>,
    ) -> Option<Self>;
}

// A response with an empty body.
pub(crate) fn bare<B: ResponseBody>(alloc: Global, status: u16) -> Response<B> {
    let mut response = Response::new(alloc, B::of(Portions::of_text(alloc, Vec::new(alloc))));
    *response.status_mut() = status_of(status);
    response
}

fn status_of(status: u16) -> StatusCode {
    StatusCode::from_u16(status).unwrap_or(StatusCode::BAD_GATEWAY)
}

// Has the connection close after a response with these fields, as far as there is memory for one more.
pub(crate) fn announce_close(headers: &mut HeaderMap) {
    let close = HeaderValue::from_static("close");
    drop(headers.insert(header::CONNECTION, close));
}

// The response with this content. Returns `None` if out of memory, or if there are too many fields.
pub(crate) fn response_of<B: ResponseBody>(alloc: Global, given: Given) -> Option<Response<B>> {
    match given {
        Given::Object {
            object,
            shape,
            age,
            told,
        } => {
            let response = object_response(alloc, &object, &shape, age, told);
            drop(shape);
            drop(object);
            response
        }
        Given::Own(answer) => own_response(alloc, answer),
        Given::Passed(answer) => passed_response(alloc, answer),
        Given::Early { early, told } => early_response(alloc, early, told),
    }
}

// The response with this answer of the proxy itself. Returns `None` as `response_of` does.
fn own_response<B: ResponseBody>(alloc: Global, answer: OwnAnswer) -> Option<Response<B>> {
    match answer {
        OwnAnswer::Text { status, text, kind } => {
            text_response(alloc, status, text, kind.media_type())
        }
        OwnAnswer::Page(text) => page_response(alloc, text),
        OwnAnswer::Capture(pieces) => capture_response(alloc, pieces),
        OwnAnswer::Challenge(text) => {
            let response = text_response(alloc, 401, text, b"text/plain");
            with_field(alloc, response, b"www-authenticate", b"Bearer")
        }
    }
}

// The response, if what was done to it has been done.
fn if_done<B: ResponseBody>(response: Response<B>, done: Option<()>) -> Option<Response<B>> {
    match done {
        Some(()) => Some(response),
        None => {
            drop(response);
            None
        }
    }
}

// The response with the pieces of a capture file. Returns `None` as `with_field` does.
fn capture_response<B: ResponseBody>(
    alloc: Global,
    pieces: mpsc::Receiver<Vec<u8>>,
) -> Option<Response<B>> {
    let response = Response::new(alloc, B::of_pieces(alloc, pieces));
    let kind = b"application/x-pcapng";
    with_field(alloc, Some(response), b"content-type", kind)
}

// A response with this field as well. Returns `None` without a response, if out of memory, or if there are too many fields.
fn with_field<B: ResponseBody>(
    alloc: Global,
    response: Option<Response<B>>,
    name: &[u8],
    value: &[u8],
) -> Option<Response<B>> {
    let mut response = response?;
    let done = add_field(alloc, response.headers_mut(), name, value);
    if_done(response, done)
}

// A response with this Age, if one is given, and this Cache-Status. Returns `None` as `with_field` does.
fn with_own_fields<B: ResponseBody>(
    alloc: Global,
    response: Option<Response<B>>,
    age: Option<u32>,
    told: Vec<u8>,
) -> Option<Response<B>> {
    let mut response = response?;
    let done = add_own_fields(alloc, response.headers_mut(), age, told);
    if_done(response, done)
}

// Appends this Age, if one is given, and this Cache-Status. Returns `None` as `add_field` does.
fn add_own_fields(
    alloc: Global,
    headers: &mut HeaderMap,
    age: Option<u32>,
    told: Vec<u8>,
) -> Option<()> {
    if let Some(age) = age {
        let mut buffer = itoa::Buffer::new();
        let age = buffer.format(age).as_bytes().to_vec(alloc).ok()?;
        append_field(headers, header::AGE, age)?;
    }
    append_field(headers, header::CACHE_STATUS, told)
}

// Appends a field whose value is not copied. Returns `None` as `add_field` does.
fn append_field(headers: &mut HeaderMap, name: HeaderName, value: Vec<u8>) -> Option<()> {
    let Ok(value) = HeaderValue::from_vec(value) else {
        drop(name);
        return None;
    };
    match headers.append(name, value) {
        Ok(_) => Some(()),
        Err(_) => None,
    }
}

// The response with an object in this shape, this Age, if one is given, and this Cache-Status. Returns `None` if out of memory, or if there are
// too many fields.
fn object_response<B: ResponseBody>(
    alloc: Global,
    object: &SharedObject,
    shape: &Shape,
    age: Option<u32>,
    told: Vec<u8>,
) -> Option<Response<B>> {
    let Some(body) = body_in(alloc, object, shape) else {
        drop(told);
        return None;
    };
    let mut response = Response::new(alloc, B::of(body));
    *response.status_mut() = status_of(status_in(object, shape));
    let done = add_shaped_fields(alloc, response.headers_mut(), object, shape, age, told);
    if_done(response, done)
}

// The body of an object in this shape. Returns `None` if it has too many owners.
fn body_in(alloc: Global, object: &SharedObject, shape: &Shape) -> Option<Portions> {
    match shape {
        Shape::Whole => {
            let share = object.share().ok()?;
            Some(Portions::of_object(alloc, share))
        }
        Shape::Part { first, last, .. } => {
            let share = object.share().ok()?;
            Some(Portions::of_part(alloc, share, *first, last.saturating_add(1)))
        }
        Shape::NotModified(_) | Shape::Unsatisfiable(_) => {
            Some(Portions::of_text(alloc, Vec::new(alloc)))
        }
    }
}

// The status of an object in this shape.
fn status_in(object: &SharedObject, shape: &Shape) -> u16 {
    match shape {
        Shape::Whole => object.get().status(),
        Shape::NotModified(_) => 304,
        Shape::Part { .. } => 206,
        Shape::Unsatisfiable(_) => 416,
    }
}

// Adds the fields of an object in this shape, this Age, if one is given, and this Cache-Status. Returns `None` as `add_field` does.
fn add_shaped_fields(
    alloc: Global,
    headers: &mut HeaderMap,
    object: &SharedObject,
    shape: &Shape,
    age: Option<u32>,
    told: Vec<u8>,
) -> Option<()> {
    match add_fields_in(alloc, headers, object, shape, age.is_some()) {
        Some(()) => add_own_fields(alloc, headers, age, told),
        None => {
            drop(told);
            None
        }
    }
}

// Adds the fields of an object in this shape, without Age if `is_age_apart`. Returns `None` as `add_field` does.
fn add_fields_in(
    alloc: Global,
    headers: &mut HeaderMap,
    object: &SharedObject,
    shape: &Shape,
    is_age_apart: bool,
) -> Option<()> {
    match shape {
        Shape::Whole => add_kept_fields(alloc, headers, object.get().head(), is_age_apart),
        Shape::NotModified(fields) => {
            add_kept_fields(alloc, headers, fields.as_slice(), is_age_apart)
        }
        Shape::Part { range, .. } => {
            add_kept_fields(alloc, headers, object.get().head(), is_age_apart)?;
            add_field(alloc, headers, b"content-range", range.as_slice())
        }
        Shape::Unsatisfiable(range) => {
            add_field(alloc, headers, b"content-range", range.as_slice())
        }
    }
}

// Adds the fields of an object, with room for Age and Cache-Status as well. Returns `None` as `add_object_fields` does.
fn add_kept_fields(
    alloc: Global,
    headers: &mut HeaderMap,
    fields: &[(Vec<u8>, Vec<u8>)],
    is_age_apart: bool,
) -> Option<()> {
    headers.reserve(fields.len().saturating_add(2)).ok()?;
    add_object_fields(alloc, headers, fields, is_age_apart)
}

// The response with an answer that is passed on. Returns `None` as `relayed_response` does.
fn passed_response<B: ResponseBody>(
    alloc: Global,
    answer: Box<PassedAnswer>,
) -> Option<Response<B>> {
    let PassedAnswer {
        head,
        pieces,
        via,
        told,
    } = Box::into_inner(answer);
    let response = relayed_response(alloc, head, pieces);
    let passed = with_field(alloc, response, b"via", via.as_slice());
    with_field(alloc, passed, b"cache-status", told.as_slice())
}

// The response with an answer that is passed on: its fields that are not only for its connection (RFC 9110, section 7.6.1). Returns `None`
// if out of memory, if there are too many fields, or if Connection names too many.
fn relayed_response<B: ResponseBody>(
    alloc: Global,
    head: PassedHead,
    pieces: mpsc::Receiver<Piece>,
) -> Option<Response<B>> {
    let (status, head, length, wanted) = head.into_parts();
    let fields = end_to_end(alloc, &head);
    drop(head);
    let Ok(fields) = fields else {
        drop(wanted);
        drop(pieces);
        return None;
    };
    let reply = if status == 205 {
        drop(wanted);
        drop(pieces);
        // It has no content, however it is framed (RFC 9110, section 15.3.6).
        Some(B::of(Portions::of_text(alloc, Vec::new(alloc))))
    } else {
        B::of_passed(alloc, pieces, length, Some(wanted))
    };
    response_with(alloc, status, reply, fields.as_slice())
}

// The response with this status, body and fields. Returns `None` without a body, and as `add_object_fields` does.
fn response_with<B: ResponseBody>(
    alloc: Global,
    status: u16,
    reply: Option<B>,
    fields: &[(Vec<u8>, Vec<u8>)],
) -> Option<Response<B>> {
    let mut response = Response::new(alloc, reply?);
    *response.status_mut() = status_of(status);
    let done = add_object_fields(alloc, response.headers_mut(), fields, false);
    if_done(response, done)
}

// The response with an answer that is still collected, and this Cache-Status. Returns `None` if out of memory, or if there are too many
// fields.
fn early_response<B: ResponseBody>(
    alloc: Global,
    early: Box<Early>,
    told: Vec<u8>,
) -> Option<Response<B>> {
    let Early {
        fields,
        length,
        pieces,
        reading,
    } = Box::into_inner(early);
    let reply = B::of_passed(alloc, pieces, Some(length), reading);
    let response = response_with(alloc, 200, reply, fields.as_slice());
    with_own_fields(alloc, response, None, told)
}

// The response with the administration's page. Returns `None` if out of memory.
fn page_response<B: ResponseBody>(alloc: Global, text: Vec<u8>) -> Option<Response<B>> {
    let mut response = text_response(alloc, 200, text, b"text/html; charset=utf-8")?;
    let done = add_page_fields(alloc, response.headers_mut());
    if_done(response, done)
}

// Adds the fields of the administration's page, beside its media type. Returns `None` as `add_field` does.
fn add_page_fields(alloc: Global, headers: &mut HeaderMap) -> Option<()> {
    let fields: [(&[u8], &[u8]); 4] = [
        (b"content-security-policy", POLICY.as_bytes()),
        (b"x-content-type-options", b"nosniff"),
        (b"cache-control", b"no-store"),
        (b"referrer-policy", b"no-referrer"),
    ];
    for (name, value) in fields {
        add_field(alloc, headers, name, value)?;
    }
    Some(())
}

// The response with this text of this media type. Returns `None` if out of memory.
fn text_response<B: ResponseBody>(
    alloc: Global,
    status: u16,
    text: Vec<u8>,
    kind: &[u8],
) -> Option<Response<B>> {
    let is_empty = text.is_empty();
    let mut response = Response::new(alloc, B::of(Portions::of_text(alloc, text)));
    *response.status_mut() = status_of(status);
    if is_empty {
        return Some(response);
    }
    with_field(alloc, Some(response), b"content-type", kind)
}
