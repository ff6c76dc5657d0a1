//! The fields of a stored object after a response with status 304 has confirmed it (RFC 9111, section 3.2).
ghost use Rattle.std.specs.Prelude.{◌≡◌, ◌++◌, ◌<◌, IfOk, IsErrOf, filter, length, not};
ghost use Rattle.http_rules.specs.Fields.{fields_of};
ghost use Rattle.http_rules.specs.Forwarding.{options};
ghost use Rattle.http_rules.specs.Validators.{stored_fields};
ghost use Rattle.http_rules.specs.Updating.{is_of_body, is_of_message, stays_beside, staying, updated};

use crate::confirming::Revalidated;
use crate::forwarding::{PassFault, end_to_end};
use crate::validators::has_stored;
use http_header::HeaderMap;
use std::alloc::{AllocError, Global};

/// The fields of a stored object after a response with status 304 has confirmed it (RFC 9111, section 3.2), as pairs of a name in
/// lower case and a value. Each field of the response takes the place of all stored ones of its name, but for the
/// hop-by-hop fields, those that Connection names, Content-Length, Content-Encoding and Content-Range. Stored fields Age, Date and
/// Via go in any case: they tell of the response that brought the object.
///
/// Errors: the Connection fields have more than 64 elements in all, or out of memory.
pub fn updated(
    alloc: Global,
    confirmed: &Revalidated<'_>,
) -> Result<Vec<(Vec<u8>, Vec<u8>)>, PassFault>
    ensures fields { IfOk result (λ after. stored_fields after.items ≡ updated confirmed.now.given confirmed.now.object.head) }
    ensures many { IsErrOf result PassFault.TooManyNames → 64 < length (options confirmed.now.given) }
{
    updated_by(alloc, confirmed.head(), confirmed.object().head())
}

// The fields of an object with these after a response with this head has confirmed it.
fn updated_by(
    alloc: Global,
    head: &HeaderMap,
    object: &[(Vec<u8>, Vec<u8>)],
) -> Result<Vec<(Vec<u8>, Vec<u8>)>, PassFault>
    ensures fields { IfOk result (λ after. stored_fields after.items ≡ updated (fields_of head.now) (stored_fields object.now)) }
    ensures many { IsErrOf result PassFault.TooManyNames → 64 < length (options (fields_of head.now)) }
{
    let fields = end_to_end(alloc, head)?;
    let provided = provided(alloc, fields)?;
    let staying = staying(alloc, provided.as_slice(), object)?;
    Ok(joined(staying, provided)?)
}

// What these end-to-end fields of a response provide: all but those of the body.
fn provided(
    alloc: Global,
    fields: Vec<(Vec<u8>, Vec<u8>)>,
) -> Result<Vec<(Vec<u8>, Vec<u8>)>, AllocError>
    ensures { IfOk result (λ kept. stored_fields kept.items ≡ filter (λ f. not (is_of_body f.0)) (stored_fields fields.items)) }
{
    let mut kept = Vec::new(alloc);
    for (name, value) in fields {
        if !is_of_body(name.as_slice()) {
            kept.push((name, value))?;
        }
    }
    Ok(kept)
}

// The stored fields that stay beside these.
fn staying(
    alloc: Global,
    fields: &[(Vec<u8>, Vec<u8>)],
    object: &[(Vec<u8>, Vec<u8>)],
) -> Result<Vec<(Vec<u8>, Vec<u8>)>, AllocError>
    ensures { IfOk result (λ kept. stored_fields kept.items ≡ staying (stored_fields fields.now) (stored_fields object.now)) }
{
    let mut kept = Vec::new(alloc);
    for i in 0..object.len() {
        if stays_beside(fields, object[i].0.as_slice()) {
            let name = object[i].0.as_slice().to_vec(alloc)?;
            kept.push((name, object[i].1.as_slice().to_vec(alloc)?))?;
        }
    }
    Ok(kept)
}

// Two lists of fields, one behind the other.
fn joined(
    first: Vec<(Vec<u8>, Vec<u8>)>,
    second: Vec<(Vec<u8>, Vec<u8>)>,
) -> Result<Vec<(Vec<u8>, Vec<u8>)>, AllocError>
    ensures { IfOk result (λ both. stored_fields both.items ≡ stored_fields first.items ++ stored_fields second.items) }
{
    let mut both = first;
    for field in second {
        both.push(field)?;
    }
    Ok(both)
}

// Whether stored fields with this name stay beside these.
fn stays_beside(fields: &[(Vec<u8>, Vec<u8>)], name: &[u8]) -> bool
    ensures { result ≡ stays_beside (stored_fields fields.now) name.now }
{
    !(is_of_message(name) || has_stored(fields, name))
}

// Whether fields with this name are of the stored body.
fn is_of_body(name: &[u8]) -> bool
    ensures { result ≡ is_of_body name.now }
{
    name == b"content-length".as_slice()
        || name == b"content-encoding".as_slice()
        || name == b"content-range".as_slice()
}

// Whether fields with this name tell of the message that brought the object.
fn is_of_message(name: &[u8]) -> bool
    ensures { result ≡ is_of_message name.now }
{
    name == b"age".as_slice() || name == b"date".as_slice() || name == b"via".as_slice()
}
