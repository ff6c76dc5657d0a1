//! Fields of requests as the fetches for them have them.
use crate::mailbox::Field;
use http_rules::{PassFault, end_to_end};
use http_traffic::Asked;
use std::alloc::{AllocError, Global};

/// The names of fields that a private fetch does not forward: of the host, of what the client expects, and of content.
const LEFT_OUT: [&str; 5] = [
    "host",
    "content-length",
    "content-type",
    "content-encoding",
    "expect",
];

/// The status for a request whose fields are not passed on.
pub fn status_of(fault: PassFault) -> u16 {
    match fault {
        PassFault::TooManyNames => 400,
        PassFault::NoMemory => 503,
    }
}

/// Whether a request has CDN-Loop fields.
pub fn has_marks(asked: &Asked) -> bool {
    asked.head.contains_key("cdn-loop")
}

/// The CDN-Loop fields of a request (RFC 8586), which a shared fetch for it forwards as well.
pub fn loop_fields(alloc: Global, asked: &Asked) -> Result<Vec<Field>, AllocError> {
    let mut fields = Vec::new(alloc);
    match add_values(alloc, &mut fields, asked, "cdn-loop") {
        Ok(()) => Ok(fields),
        Err(fault) => {
            drop(fields);
            Err(fault)
        }
    }
}

/// Adds the fields of this name that a request has.
pub fn add_values(
    alloc: Global,
    fields: &mut Vec<Field>,
    asked: &Asked,
    name: &'static str,
) -> Result<(), AllocError> {
    for value in asked.head.get_all(name).iter() {
        add_field(alloc, fields, name.as_bytes(), value.as_bytes())?;
    }
    Ok(())
}

/// Adds a field of this name and value. Errors: out of memory.
pub fn add_field(
    alloc: Global,
    fields: &mut Vec<Field>,
    name: &[u8],
    value: &[u8],
) -> Result<(), AllocError> {
    let name = name.to_vec(alloc)?;
    match value.to_vec(alloc) {
        Ok(value) => Ok(fields.push((name, value))?),
        Err(fault) => {
            drop(name);
            Err(fault)
        }
    }
}

/// The fields of a request that a private fetch forwards: the end-to-end fields without Host, Expect and those that describe the
/// content, which is not forwarded.
pub fn passed_on(alloc: Global, asked: &Asked) -> Result<Vec<Field>, PassFault> {
    let mut fields = Vec::new(alloc);
    for (name, value) in end_to_end(alloc, &asked.head)? {
        if !is_left_out(name.as_slice()) {
            fields.push((name, value)).map_err(AllocError::from)?;
        }
    }
    Ok(fields)
}

/// Whether a private fetch does not forward fields of this name.
fn is_left_out(name: &[u8]) -> bool {
    for left_out in &LEFT_OUT {
        if left_out.as_bytes() == name {
            return true;
        }
    }
    false
}
