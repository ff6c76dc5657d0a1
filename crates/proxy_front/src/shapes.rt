//! What of a stored object a request is answered with.
use http_rules::{
    StoredAnswer, answer_to, content_range, is_in_not_modified, is_plain_request, unsatisfied_range,
};
use http_traffic::{Asked, Shape};
use object_store::Object;
use proxy_state::{Field, add_field};
use std::alloc::{AllocError, Global};

/// What of an object its request is answered with by RFC 9110: all of one that is not stored (RFC 9111, section 4.3.2), and all where
/// the request is plain. Errors: out of memory.
pub(crate) fn shape_of(alloc: Global, asked: &Asked, object: &Object) -> Result<Shape, AllocError> {
    if object.status() != 200 || object.life() == 0 || is_plain_request(&asked.head) {
        return Ok(Shape::Whole);
    }
    if is_part(object.head()) {
        return Ok(Shape::Whole);
    }
    let (fields, length) = (object.head(), object.body().len());
    let answer = answer_to(asked.method.as_str(), &asked.head, fields, length);
    Ok(match answer {
        StoredAnswer::Whole => Shape::Whole,
        StoredAnswer::NotModified => Shape::NotModified(validators_of(alloc, fields)?),
        StoredAnswer::Part { first, last } => Shape::Part {
            first,
            last,
            range: content_range(alloc, first, last, length)?,
        },
        StoredAnswer::Unsatisfiable => Shape::Unsatisfiable(unsatisfied_range(alloc, length)?),
    })
}

/// Whether an object with status 200 says that it is a part or parts of another one (RFC 9110, sections 14.4 and 14.6), as it should not.
fn is_part(fields: &[Field]) -> bool {
    for (name, value) in fields {
        if says_part(name.as_slice(), value.as_slice()) {
            return true;
        }
    }
    false
}

/// Whether a field says so.
fn says_part(name: &[u8], value: &[u8]) -> bool {
    name == b"content-range".as_slice()
        || (name == b"content-type".as_slice() && value.starts_with(b"multipart/byteranges"))
}

/// The fields of an object that a 304 has (RFC 9110, section 15.4.5). Errors: out of memory.
fn validators_of(alloc: Global, fields: &[(Vec<u8>, Vec<u8>)]) -> Result<Vec<Field>, AllocError> {
    let mut kept = Vec::new(alloc);
    match add_validators(alloc, &mut kept, fields) {
        Ok(()) => Ok(kept),
        Err(fault) => {
            drop(kept);
            Err(fault)
        }
    }
}

/// Adds the fields that a 304 has.
fn add_validators(
    alloc: Global,
    kept: &mut Vec<Field>,
    fields: &[Field],
) -> Result<(), AllocError> {
    for (name, value) in fields {
        if is_in_not_modified(name.as_slice()) {
            add_field(alloc, kept, name.as_slice(), value.as_slice())?;
        }
    }
    Ok(())
}
