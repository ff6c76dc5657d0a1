//! The name of a cache in header fields.
ghost use Rattle.std.specs.Prelude.{◌≡◌, IfOk, IsTrue, map, take, true};
ghost use Rattle.std.specs.List.{list_all};
ghost use Rattle.http_header.specs.Token.{is_token_byte};
ghost use Rattle.http_rules.specs.Pseudonyms.{is_short_token, written_name, written_octet};

use crate::loops::is_token;
use http_header::is_token_char;
use std::alloc::{AllocError, Global};

// The most octets of a name.
const MOST_OCTETS: usize = 64;

/// Whether a name is a token of at most 64 octets (RFC 9110, section 5.6.2), and so is written as it is.
pub fn is_short_token(name: &[u8]) -> bool
    ensures { result ≡ is_short_token name.now }
{
    name.len() <= MOST_OCTETS && is_token(name)
}

/// A name as Via and other fields have it: its first 64 octets, with a hyphen in the place of each that may not be in a token.
#[tactic(auto, using(crate::proofs::Pseudonyms::written_harmless, crate::proofs::Pseudonyms::written_short))]
pub fn written_name(alloc: Global, name: &[u8]) -> Result<Vec<u8>, AllocError>
    ensures value { IfOk result (λ written. written.items ≡ written_name name.now) }
    ensures harmless { IfOk result (λ written. list_all is_token_byte written.items ≡ true) }
    ensures same { IsTrue (is_short_token name.now) → IfOk result (λ written. written.items ≡ name.now) }
{
    let front = front_of(name);
    let written = hyphened(alloc, front)?;
    Ok(written)
}

// A text with a hyphen in the place of each octet that may not be in a token.
fn hyphened(alloc: Global, text: &[u8]) -> Result<Vec<u8>, AllocError>
    ensures { IfOk result (λ written. written.items ≡ map written_octet text.now) }
{
    let mut written = Vec::new(alloc);
    for i in 0..text.len() {
        written.push(written_octet(text[i]))?;
    }
    Ok(written)
}

// The octets of a name that are written.
fn front_of(name: &[u8]) -> &[u8]
    ensures { result.now ≡ take 64 name.now }
{
    if name.len() <= MOST_OCTETS {
        name
    } else {
        &name[..MOST_OCTETS]
    }
}

// What is written for an octet.
fn written_octet(octet: u8) -> u8
    ensures { result ≡ written_octet octet }
{
    if is_token_char(octet) { octet } else { b'-' }
}
