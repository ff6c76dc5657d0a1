//! Numbers in octets, the highest octet first (wire_octets).

use crate::made::NO_MEMORY;
use std::alloc::Global;
use std::process::Abort;
use wire_octets::{put_u16, put_u32, split_u16, split_u32};

const OCTETS: [u8; 6] = [1, 2, 3, 4, 5, 6];

/// A number of two octets and one of four, as they are written.
fn written<R: Abort>(rt: &R, alloc: Global) -> Vec<u8> {
    let mut out = Vec::new(alloc);
    put_u16(&mut out, 0x0102).ok().expect(rt, NO_MEMORY);
    put_u32(&mut out, 0x0304_0506).ok().expect(rt, NO_MEMORY);
    out
}

/// A number of two octets and one of four in front of these octets, and how many are left behind both.
fn read(octets: &[u8]) -> Option<(u16, u32, usize)> {
    let (first, rest) = split_u16(octets)?;
    let (second, rest) = split_u32(rest)?;
    Some((first, second, rest.len()))
}

#[test]
fn numbers_are_appended_and_read(rt: HostRuntime) {
    let out = written(&rt, rt.alloc());
    let is_written = out.as_slice() == OCTETS.as_slice();
    let read = read(out.as_slice());
    drop(out);
    assert!(rt; is_written);
    assert!(rt; read == Some((0x0102, 0x0304_0506, 0)));
    assert!(rt; split_u16(&OCTETS[5..]).is_none());
    assert!(rt; split_u32(&OCTETS[3..]).is_none());
}
