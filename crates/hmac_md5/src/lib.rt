//! HMAC-MD5 (RFC 2104), the message authentication code of signed HTCP messages, and a comparison of codes that does not exit
//! early. It does not allocate.
//!
//! Contracts see keys, messages and codes as lists of octets; `specs/Hmac.antt` defines the code on top of the crate md5.
//!
//! Tested by: crates/test_codecs (RFC 2202, and signed HTCP messages), must-fail edits.
#![tactic(auto)]

ghost use Rattle.std.specs.Prelude.{◌≡◌, ◌++◌, ◌↔◌, ◌<◌, ◌≤◌, ◌-◌, IsTrue, length, map, replicate, bit_xor};
ghost use Rattle.std.specs.List.{flat_map};
ghost use Rattle.md5.specs.Md5.{Holds, md5};
ghost use Rattle.hmac_md5.specs.Hmac.{block_key, hmac, padded};

use md5::{Digest, Md5};

const BLOCK_LEN: usize = 64;

const INNER_PAD: u8 = 0x36;

const OUTER_PAD: u8 = 0x5c;

// Pads up to 64 octets to a block with zeros.
fn filled(octets: &[u8]) -> [u8; BLOCK_LEN]
    requires { length octets.now ≤ 64 }
    ensures { result ≡ octets.now ++ replicate (64 - length octets.now) 0 }
{
    let mut block = [0u8; BLOCK_LEN];
    block[..octets.len()].copy_from_slice(octets);
    block
}

// The key as one block.
fn block_of(key: &[u8]) -> [u8; BLOCK_LEN]
    ensures { result ≡ block_key key.now }
{
    if key.len() > BLOCK_LEN {
        filled(&Md5::digest(key))
    } else {
        filled(key)
    }
}

// Combines each octet with the pad by exclusive or, in place.
fn change(octets: &mut [u8], pad: u8)
    ensures { octets.new ≡ map (λ octet. bit_xor octet pad) octets.old }
{
    for octet in octets.iter_mut() {
        *octet ^= pad;
    }
}

// The block with each octet combined with the pad by exclusive or.
fn changed(block: [u8; BLOCK_LEN], pad: u8) -> [u8; BLOCK_LEN]
    ensures { result ≡ map (λ octet. bit_xor octet pad) block }
{
    let mut out = block;
    change(&mut out, pad);
    out
}

/// The HMAC-MD5 of the concatenated parts under a key of any length (RFC 2104, section 2).
///
/// A key of more than 64 octets is replaced by its digest.
pub fn mac(key: &[u8], parts: &[&[u8]]) -> [u8; 16]
    ensures { result ≡ hmac key.now (flat_map (λ part. part.now) parts.now) }
{
    let block = block_of(key);
    let mut inner = Md5::new();
    inner.update(&changed(block, INNER_PAD));
    for part in parts {
        inner.update(part);
    }
    let mut outer = Md5::new();
    outer.update(&changed(block, OUTER_PAD));
    outer.update(&inner.finalize());
    outer.finalize()
}

// The bits in which any two octets at the same index differ. The loop has no early exit.
fn difference(a: &[u8], b: &[u8]) -> u8
    requires { length a.now ≡ length b.now }
    ensures { (result ≡ 0) ↔ (a.now ≡ b.now) }
{
    let mut bits = 0;
    for (x, y) in a.iter().zip(b) {
        bits |= x ^ y;
    }
    bits
}

/// Whether two codes are equal. For codes of equal length every octet is compared, wherever they differ; the running time is not
/// part of the contract.
pub fn same(a: &[u8], b: &[u8]) -> bool
    ensures { IsTrue result ↔ (a.now ≡ b.now) }
{
    a.len() == b.len() && difference(a, b) == 0
}
