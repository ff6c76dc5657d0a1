//! Appends big-endian numbers to buffers.

ghost use Rattle.std.specs.Prelude.{◌≡◌, ◌+◌, ◌<◌, ◌≤◌, ◌++◌, OnOk, OnErr, vec_len, vec_capacity};
ghost use Rattle.byteorder.specs.Endian.{big_bytes};

use byteorder::{BigEndian, ByteOrder};
use std::alloc::AllocError;

/// Appends `n` as two octets in network order. Errors: out of memory, with the contents of `out` unchanged.
#[inline]
pub fn put_u16(out: &mut Vec<u8>, n: u16) -> Result<(), AllocError>
    ensures appended { OnOk result (out.new.items ≡ out.old.items ++ big_bytes 2 n) }
    ensures unchanged { OnErr result (out.new.items ≡ out.old.items) }
    ensures full { OnErr result (vec_capacity out.old < vec_len out.old + 2) }
    ensures room { vec_capacity out.old ≤ vec_capacity out.new }
{
    let mut octets = [0u8; 2];
    BigEndian::write_u16(&mut octets, n);
    out.extend_from_slice(&octets)
}

/// Appends `n` as four octets in network order. Errors: out of memory, with the contents of `out` unchanged.
#[inline]
pub fn put_u32(out: &mut Vec<u8>, n: u32) -> Result<(), AllocError>
    ensures appended { OnOk result (out.new.items ≡ out.old.items ++ big_bytes 4 n) }
    ensures unchanged { OnErr result (out.new.items ≡ out.old.items) }
    ensures full { OnErr result (vec_capacity out.old < vec_len out.old + 4) }
    ensures room { vec_capacity out.old ≤ vec_capacity out.new }
{
    let mut octets = [0u8; 4];
    BigEndian::write_u32(&mut octets, n);
    out.extend_from_slice(&octets)
}
