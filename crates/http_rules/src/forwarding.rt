//! Which header fields are forwarded (RFC 9110, sections 7.6.1 and 11.7; RFC 8586, section 2).
ghost use Rattle.std.specs.Prelude.{◌≡◌, ◌<◌, ◌≤◌, IfOk, IsErrOf, map, bytes_eq, codes, length};
ghost use Rattle.std.specs.List.{list_any};
ghost use Rattle.http_rules.specs.Fields.{fields_of};
ghost use Rattle.http_rules.specs.Forwarding.{always_removed, options, end_to_end};

use crate::options::Options;
use http_header::HeaderMap;
use std::alloc::{AllocError, Global};
use thiserror::Error;

/// Why the fields of a head are not forwarded.
#[derive(Clone, Copy, Debug, Error)]
pub enum PassFault {
    /// The Connection fields have more than 64 elements.
    #[error("over 64 names in Connection")]
    TooManyNames,
    /// Out of memory.
    #[error("no memory")]
    NoMemory,
}

impl From<AllocError> for PassFault {
    ghost use Rattle.std.specs.Prelude.{◌≡◌};
    ghost use Rattle.http_rules.specs.declared.forwarding.PassFault.TheVariants as fault;

    ghost from_gives = { λ _ e. e ≡ fault.NoMemory };

    fn from(_: AllocError) -> PassFault {
        PassFault::NoMemory
    }
}

/// What becomes of a request that is to be passed on.
#[derive(Drop)]
pub enum Onward {
    /// It is passed on with these fields, as pairs of a name in lower case and a value.
    Pass(Vec<(Vec<u8>, Vec<u8>)>),
    /// This proxy is its last recipient, and answers it itself.
    Last,
}

/// The fields that are forwarded, as pairs of a name in lower case and a value, in the order of the map: all but the known
/// hop-by-hop fields and those that the Connection fields name, of which CDN-Loop stays.
///
/// Errors: the Connection fields have more than 64 elements in all, or out of memory.
pub fn end_to_end(alloc: Global, head: &HeaderMap) -> Result<Vec<(Vec<u8>, Vec<u8>)>, PassFault>
    ensures kept { IfOk result (λ kept. map (λ f. (f.0.items, f.1.items)) kept.items ≡ end_to_end (fields_of head.now)) }
    ensures few { IfOk result (λ kept. length (options (fields_of head.now)) ≤ 64) }
    ensures many { IsErrOf result PassFault.TooManyNames → 64 < length (options (fields_of head.now)) }
{
    let options = Options::of(alloc, head)?;
    let mut kept = Vec::new(alloc);
    for (name, value) in head.iter() {
        let name = name.as_bytes();
        if !is_always_removed(name) && (tells_loops(name) || !options.contains(name)) {
            let field = (name.to_vec(alloc)?, value.as_bytes().to_vec(alloc)?);
            kept.push(field).map_err(AllocError::from)?;
        }
    }
    Ok(kept)
}

// Whether fields with this name have the marks of caches, which no Connection field takes off.
fn tells_loops(name: &[u8]) -> bool
    ensures { result ≡ bytes_eq name.now (codes "cdn-loop") }
{
    name == b"cdn-loop".as_slice()
}

// Whether fields with this name are never forwarded.
fn is_always_removed(name: &[u8]) -> bool
    ensures { result ≡ list_any (bytes_eq name.now) always_removed }
{
    name == b"connection".as_slice()
        || name == b"keep-alive".as_slice()
        || name == b"proxy-authenticate".as_slice()
        || name == b"proxy-authentication-info".as_slice()
        || name == b"proxy-authorization".as_slice()
        || name == b"proxy-connection".as_slice()
        || name == b"te".as_slice()
        || name == b"trailer".as_slice()
        || name == b"transfer-encoding".as_slice()
        || name == b"upgrade".as_slice()
}
