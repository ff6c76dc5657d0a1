//! Words that are octets: hexadecimal text, the name of a signing key, a key of the store.
ghost use Rattle.std.specs.Prelude.{◌≡◌, IfOk};
ghost use Rattle.std.specs.Option.{option_map};
ghost use Rattle.script_lines.specs.Words.{octets, name, key};

use hex::FromHexError;
use neighbours::Octets;
use object_store::{CacheKey, KeyFault};
use std::alloc::{AllocError, Global};

/// Decodes hexadecimal text; `-` is the empty sequence. `None` if the text is empty or not hexadecimal. Errors: out of memory.
pub(crate) fn octets(alloc: Global, text: &[u8]) -> Result<Option<Vec<u8>>, AllocError>
    ensures { IfOk result (λ o. option_map (λ v. v.items) o ≡ octets text.now) }
{
    if text.is_empty() {
        return Ok(None);
    }
    if text == b"-".as_slice() {
        return Ok(Some(Vec::new(alloc)));
    }
    match hex::decode(alloc, text) {
        Ok(bytes) => Ok(Some(bytes)),
        Err(FromHexError::OutOfMemory) => Err(AllocError),
        Err(_) => Ok(None),
    }
}

/// An owned copy of the octets. Errors: out of memory.
pub(crate) fn owned(alloc: Global, text: &[u8]) -> Result<Vec<u8>, AllocError>
    ensures { IfOk result (λ v. v.items ≡ text.now) }
{
    let mut octets = Vec::new(alloc);
    octets.extend_from_slice(text)?;
    Ok(octets)
}

/// An owned copy of a signing key's name; `None` for `-`. Errors: out of memory.
pub(crate) fn name(alloc: Global, text: &[u8]) -> Result<Option<Octets>, AllocError>
    ensures { IfOk result (λ o. o ≡ name text.now) }
{
    if text == b"-".as_slice() {
        return Ok(None);
    }
    Ok(Some(Octets::new(owned(alloc, text)?)))
}

/// Parses a key of the store; `None` if the text is not one. Errors: out of memory.
pub(crate) fn key(alloc: Global, text: &[u8]) -> Result<Option<CacheKey>, AllocError>
    ensures { IfOk result (λ o. o ≡ key text.now) }
{
    match CacheKey::new(alloc, owned(alloc, text)?) {
        Ok(key) => Ok(Some(key)),
        Err((KeyFault::NotKey, _)) => Ok(None),
        Err((KeyFault::NoMemory, _)) => Err(AllocError),
    }
}
