//! What a client is told of how its answer came about: Cache-Status (RFC 9211), with the name of the cache, and Via.
use http_traffic::{Forward, Supplier};
use object_store::SharedObject;
use std::alloc::{AllocError, Global};

// The most octets that Cache-Status has behind the name of the cache for a hit.
const HIT_OCTETS: usize = 31;

// The Cache-Status member of an object that is none of a hit.
pub(crate) fn told_got(
    alloc: Global,
    label: &[u8],
    forward: Forward,
    supplier: Option<Supplier>,
    is_stored: bool,
) -> Result<Vec<u8>, AllocError> {
    match supplier {
        Some(Supplier::Stale(_)) => told_stale(alloc, label),
        Some(Supplier::Confirmed) => told_confirmed(alloc, label, forward, is_stored),
        _ => told_forward(alloc, label, forward, is_stored),
    }
}

// The age of an object that was there before and is stale.
pub(crate) fn stale_age(supplier: Option<Supplier>) -> Option<u32> {
    match supplier {
        Some(Supplier::Stale(age)) => Some(age),
        _ => None,
    }
}

// The remaining time to live of a stored object, in seconds.
pub(crate) fn ttl_of(object: &SharedObject, age: u32) -> u64 {
    let object = object.get();
    let end = u64::from(object.life()).saturating_add(u64::from(object.age()));
    end.saturating_sub(u64::from(age))
}

// The Cache-Status member (RFC 9211) of a hit.
pub(crate) fn told_hit(alloc: Global, label: &[u8], ttl: u64) -> Result<Vec<u8>, AllocError> {
    let mut told = Vec::with_capacity(alloc, label.len().saturating_add(HIT_OCTETS))?;
    told.extend_from_slice(label)?;
    told.extend_from_slice(b"; hit; ttl=")?;
    let mut buffer = itoa::Buffer::new();
    told.extend_from_slice(buffer.format(ttl).as_bytes())?;
    Ok(told)
}

// The Cache-Status member of a request that is given what is stale.
fn told_stale(alloc: Global, label: &[u8]) -> Result<Vec<u8>, AllocError> {
    let mut told = label.to_vec(alloc)?;
    told.extend_from_slice(b"; hit; detail=stale")?;
    Ok(told)
}

// The Cache-Status member of a forwarded request.
pub(crate) fn told_forward(
    alloc: Global,
    label: &[u8],
    forward: Forward,
    is_stored: bool,
) -> Result<Vec<u8>, AllocError> {
    let mut told = label.to_vec(alloc)?;
    let how: &[u8] = match forward {
        Forward::Miss => b"; fwd=miss",
        Forward::Collapsed => b"; fwd=miss; collapsed",
        Forward::Bypass => b"; fwd=bypass",
    };
    told.extend_from_slice(how)?;
    tell_stored(&mut told, forward, is_stored)?;
    Ok(told)
}

// Tells that a fetched object was stored, unless it was fetched for its client alone.
fn tell_stored(told: &mut Vec<u8>, forward: Forward, is_stored: bool) -> Result<(), AllocError> {
    if is_stored && forward != Forward::Bypass {
        told.extend_from_slice(b"; stored")?;
    }
    Ok(())
}

// The Cache-Status member of a forwarded request whose answer was there and is confirmed by a 304.
fn told_confirmed(
    alloc: Global,
    label: &[u8],
    forward: Forward,
    is_stored: bool,
) -> Result<Vec<u8>, AllocError> {
    let mut told = label.to_vec(alloc)?;
    let how: &[u8] = match forward {
        Forward::Miss => b"; fwd=stale; fwd-status=304",
        Forward::Collapsed => b"; fwd=stale; fwd-status=304; collapsed",
        Forward::Bypass => b"; fwd=bypass; fwd-status=304",
    };
    told.extend_from_slice(how)?;
    tell_stored(&mut told, forward, is_stored)?;
    Ok(told)
}

// The Cache-Status member of a request that was passed on: because of its method, or because its answer is too long to be stored.
pub(crate) fn told_passed(
    alloc: Global,
    label: &[u8],
    is_get: bool,
) -> Result<Vec<u8>, AllocError> {
    let mut told = label.to_vec(alloc)?;
    let how: &[u8] = if is_get {
        b"; fwd=bypass; detail=large"
    } else {
        b"; fwd=method"
    };
    told.extend_from_slice(how)?;
    Ok(told)
}

// The value of Via (RFC 9110, section 7.6.3) of a cache of this name.
pub(crate) fn via_of(alloc: Global, name: &str) -> Result<Vec<u8>, AllocError> {
    let mut via = b"1.1 ".to_vec(alloc)?;
    via.extend_from_slice(name.as_bytes())?;
    Ok(via)
}

// The name as an item of a structured field (RFC 8941): a token if it is one, otherwise a quoted string.
pub(crate) fn label_of(alloc: Global, name: &str) -> Result<Vec<u8>, AllocError> {
    let octets = name.as_bytes();
    if is_token(octets) {
        return octets.to_vec(alloc);
    }
    let mut label = vec![in alloc; b'"'; 1]?;
    for &octet in octets {
        if octet == b'"' || octet == b'\\' {
            label.push(b'\\')?;
        }
        label.push(octet)?;
    }
    label.push(b'"')?;
    Ok(label)
}

// Whether the octets are a token of a structured field.
fn is_token(octets: &[u8]) -> bool {
    match octets.first() {
        Some(first) => (first.is_ascii_alphabetic() || *first == b'*') && are_in_token(octets),
        None => false,
    }
}

// Whether each of these octets may stand in a token.
fn are_in_token(octets: &[u8]) -> bool {
    for &octet in octets {
        if !is_token_octet(octet) {
            return false;
        }
    }
    true
}

fn is_token_octet(octet: u8) -> bool {
    octet.is_ascii_alphanumeric() || b"!#$%&'*+-.^_`|~:/".contains(&octet)
}
