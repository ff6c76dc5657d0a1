//! Header maps and the fields of stored objects from text. What is no field, or has no room, ends the test.

use crate::rows::NO_MEMORY;
use http_header::{HeaderMap, HeaderName, HeaderValue};
use std::alloc::Global;
use std::process::Abort;

fn add_line<R: Abort>(rt: &R, alloc: Global, head: &mut HeaderMap, line: &str) {
    let (name, value) = line.split_once(": ").expect(rt, "no field");
    let name = HeaderName::from_bytes(alloc, name.as_bytes()).expect(rt, "no name");
    let value = HeaderValue::from_str(alloc, value).expect(rt, "no value");
    head.append(name, value).expect(rt, "no room");
}

/// A header map from lines of the form `name: value`.
pub(crate) fn head_of<R: Abort>(rt: &R, alloc: Global, lines: &str) -> HeaderMap {
    let mut head = HeaderMap::new(alloc);
    for line in lines.lines() {
        add_line(rt, alloc, &mut head, line);
    }
    head
}

/// The name and the value of a field.
pub(crate) type Field = (Vec<u8>, Vec<u8>);

fn field_of<R: Abort>(rt: &R, alloc: Global, line: &str) -> Field {
    let (name, value) = line.split_once(": ").expect(rt, "no field");
    let name = name
        .as_bytes()
        .to_ascii_lowercase(alloc)
        .expect(rt, NO_MEMORY);
    let value = value.as_bytes().to_vec(alloc).expect(rt, NO_MEMORY);
    (name, value)
}

/// The fields of a stored object, from lines of the form `name: value`.
pub(crate) fn fields_of<R: Abort>(rt: &R, alloc: Global, lines: &str) -> Vec<Field> {
    let mut fields = Vec::new(alloc);
    for line in lines.lines() {
        let field = field_of(rt, alloc, line);
        fields.push(field).ok().expect(rt, NO_MEMORY);
    }
    fields
}
