//! Turns a fetched response into an object.
ghost use Rattle.std.specs.Prelude.{◌≡◌, IfOk};
ghost use Rattle.http_rules.specs.Fields.{fields_of};
ghost use Rattle.http_rules.specs.Validators.{stored_fields};
ghost use Rattle.object_store.specs.Object.{object_of};
ghost use Rattle.proxy_state.specs.Objects.{has_date, object_fields, unstored_body, via, with_date, with_ours};

use crate::fields::add_field;
use crate::mailbox::{Field, copy_of};
use http_header::HeaderMap;
use http_rules::{PassFault, Storable, end_to_end};
use object_store::{Object, SharedObject};
use std::alloc::{AllocError, Global};

/// The object of a received response that may be stored, with the life that the evidence says: its end-to-end fields with our Via added,
/// and a Date if it had none (RFC 9110, 6.6.1). Errors: its Connection fields name too many others, or out of memory.
pub fn stored_object(
    alloc: Global,
    name: &[u8],
    storable: &Storable<'_>,
    body: Vec<u8>,
    date: &[u8],
) -> Result<SharedObject, PassFault>
    ensures status { IfOk result (λ object. object.status ≡ storable.now.status) }
    ensures head { IfOk result (λ object. object.head ≡ object_fields name.now date.now storable.now.fields) }
    ensures body { IfOk result (λ object. object.body ≡ body.items) }
    ensures age { IfOk result (λ object. object.age ≡ storable.now.age) }
    ensures life { IfOk result (λ object. object.life ≡ storable.now.life) }
{
    let fields = object_fields(alloc, name, storable.head(), date)?;
    let (status, age, life) = (storable.status(), storable.age(), storable.life());
    let object = Object::new(status, fields, body, age, life);
    Ok(SharedObject::new(alloc, object)?)
}

/// A received response without its body, of which an object is made that is not stored.
#[derive(Clone, Copy)]
pub struct Received<'a> {
    pub status: u16,
    pub head: &'a HeaderMap,
    /// Its age in seconds when it came.
    pub age: u32,
}

/// The object of a received response that is not stored, with the same fields. A 205 has no content, however it is framed (15.3.6). Errors:
/// its Connection fields name too many others, or out of memory.
pub fn unstored_object(
    alloc: Global,
    name: &[u8],
    received: Received<'_>,
    body: Vec<u8>,
    date: &[u8],
) -> Result<SharedObject, PassFault>
    ensures status { IfOk result (λ object. object.status ≡ received.entry.status) }
    ensures head { IfOk result (λ object. object.head ≡ object_fields name.now date.now (fields_of received.entry.head.now)) }
    ensures body { IfOk result (λ object. object.body ≡ unstored_body received.entry.status body.items) }
    ensures age { IfOk result (λ object. object.age ≡ received.entry.age) }
    ensures life { IfOk result (λ object. object.life ≡ 0) }
{
    let Received { status, head, age } = received;
    let fields = object_fields(alloc, name, head, date)?;
    let body = unstored_body(alloc, status, body);
    let object = Object::new(status, fields, body, age, 0);
    Ok(SharedObject::new(alloc, object)?)
}

// The body of an object that is not stored: none where the status is 205.
fn unstored_body(alloc: Global, status: u16, body: Vec<u8>) -> Vec<u8>
    ensures { result.items ≡ unstored_body status body.items }
{
    if status == 205 { Vec::new(alloc) } else { body }
}

// The fields of the object of a response that is received with this head: those that are end-to-end, our Via, and this Date if it had none.
fn object_fields(
    alloc: Global,
    name: &[u8],
    head: &HeaderMap,
    date: &[u8],
) -> Result<Vec<Field>, PassFault>
    ensures { IfOk result (λ fields. stored_fields fields.items ≡ object_fields name.now date.now (fields_of head.now)) }
{
    let mut fields = end_to_end(alloc, head)?;
    add_ours(alloc, &mut fields, name, date)?;
    Ok(fields)
}

/// Adds to the end-to-end fields of a received response what its object has beside them: Via, and this Date if there is none. Errors: out
/// of memory.
pub fn add_ours(
    alloc: Global,
    fields: &mut Vec<Field>,
    name: &[u8],
    date: &[u8],
) -> Result<(), AllocError>
    ensures { IfOk result (λ _. stored_fields fields.new.items ≡ with_ours name.now date.now (stored_fields fields.old.items)) }
{
    add_date(alloc, fields, date)?;
    fields.push(via(alloc, name)?)?;
    Ok(())
}

// Adds this Date to fields that have none.
fn add_date(alloc: Global, fields: &mut Vec<Field>, date: &[u8]) -> Result<(), AllocError>
    ensures { IfOk result (λ _. stored_fields fields.new.items ≡ with_date date.now (stored_fields fields.old.items)) }
{
    if has_date(fields.as_slice()) {
        return Ok(());
    }
    fields.push((b"date".to_vec(alloc)?, date.to_vec(alloc)?))?;
    Ok(())
}

// Whether one of these fields is a Date.
fn has_date(fields: &[Field]) -> bool
    ensures { result ≡ has_date (stored_fields fields.now) }
{
    for i in 0..fields.len() {
        if fields[i].0.as_slice() == b"date".as_slice() {
            return true;
        }
    }
    false
}

/// An object as it is served while it is stale: with this age in seconds, and without a life, so that it is not stored. Errors: out of
/// memory.
pub fn stale_object(alloc: Global, object: &Object, age: u32) -> Result<SharedObject, AllocError>
    ensures same { IfOk result (λ it. it ≡ object_of object.now.status object.now.head object.now.body age 0) }
{
    let fields = copy_of(alloc, object.head())?;
    SharedObject::new(alloc, object.with_head(alloc, fields, age, 0)?)
}

/// An object that is not to be stored after all: the same without a life. Errors: out of memory.
pub fn unkept_object(alloc: Global, object: &Object) -> Result<SharedObject, AllocError>
    ensures same { IfOk result (λ it. it ≡ object_of object.now.status object.now.head object.now.body object.now.age 0) }
{
    stale_object(alloc, object, object.age())
}

/// What a client gets whose URL is one of a server that may not be fetched from.
const REFUSAL: &[u8] = b"403 Forbidden: this proxy may not fetch from this address or port\n";

/// The answer in place of a page of a server that may not be fetched from; it is not stored. Errors: out of memory.
pub fn refusal(alloc: Global, date: &[u8]) -> Result<SharedObject, AllocError>
    ensures status { IfOk result (λ object. object.status ≡ 403) }
    ensures age { IfOk result (λ object. object.age ≡ 0) }
    ensures life { IfOk result (λ object. object.life ≡ 0) }
{
    let mut fields = Vec::new(alloc);
    add_field(alloc, &mut fields, b"content-type", b"text/plain")?;
    add_field(alloc, &mut fields, b"date", date)?;
    let body = REFUSAL.to_vec(alloc)?;
    SharedObject::new(alloc, Object::new(403, fields, body, 0, 0))
}

/// The Via field (RFC 9110, 7.6.3) of a cache of this name.
pub fn via(alloc: Global, name: &[u8]) -> Result<Field, AllocError>
    ensures { IfOk result (λ field. (field.0.items, field.1.items) ≡ via name.now) }
{
    let mut value = b"1.1 ".to_vec(alloc)?;
    value.extend_from_slice(name)?;
    Ok((b"via".to_vec(alloc)?, value))
}
