//! The blocks of a file that is written.
ghost use Rattle.std.specs.Prelude.{◌≡◌, ◌+◌, ◌++◌, ◌<◌, ◌≤◌, length, replicate, IfOk, OnOk};
ghost use Rattle.byteorder.specs.Endian.{big_bytes};
ghost use Rattle.capture.specs.Written.{counts_block, datagram_block, front, head, padding};
ghost use Rattle.capture.specs.Headers.{headers};

use crate::fate::Fate;
use crate::headers::{checksum, header_front, udp_header};
use bpf_run::End;
use byteorder::{BigEndian, ByteOrder};
use std::alloc::{AllocError, Global};

/// The length of what a file begins with.
pub const HEAD_OCTETS: usize = 132;

/// The length of the block with the counts of one fate.
pub const COUNTS_OCTETS: usize = 52;

/// What a file begins with: the section header, and the descriptions of the three interfaces.
pub fn file_head() -> [u8; 132]
    ensures { result ≡ head }
{
    [
        10, 13, 13, 10, 0, 0, 0, 28, 26, 43, 60, 77, 0, 1, 0, 0, 255, 255, 255, 255, 255, 255, 255,
        255, 0, 0, 0, 28, 0, 0, 0, 1, 0, 0, 0, 36, 0, 228, 0, 0, 0, 0, 0, 0, 0, 2, 0, 8, 97, 99,
        99, 101, 112, 116, 101, 100, 0, 0, 0, 0, 0, 0, 0, 36, 0, 0, 0, 1, 0, 0, 0, 32, 0, 228, 0,
        0, 0, 0, 0, 0, 0, 2, 0, 3, 99, 117, 116, 0, 0, 0, 0, 0, 0, 0, 0, 32, 0, 0, 0, 1, 0, 0, 0,
        36, 0, 228, 0, 0, 0, 0, 0, 0, 0, 2, 0, 8, 114, 101, 106, 101, 99, 116, 101, 100, 0, 0, 0,
        0, 0, 0, 0, 36,
    ]
}

// The zeros up to a multiple of four octets.
fn padding(octets: usize) -> usize
    ensures value { result ≡ padding octets }
    ensures small { result < 4 }
{
    (4 - octets % 4) % 4
}

// What stands before the packet in the block of a datagram: `block` is the length of the block, `packet` that of the packet.
fn front(fate: Fate, micros: u64, block: u32, packet: u32) -> [u8; 28]
    ensures { result ≡ front fate micros block packet }
{
    let mut octets = [0; 28];
    octets[3] = 6;
    BigEndian::write_u32(&mut octets[4..], block);
    BigEndian::write_u32(&mut octets[8..], fate.interface());
    BigEndian::write_u64(&mut octets[12..], micros);
    BigEndian::write_u32(&mut octets[20..], packet);
    BigEndian::write_u32(&mut octets[24..], packet);
    octets
}

// Appends four parts.
fn put_four(
    block: &mut Vec<u8>,
    first: &[u8],
    second: &[u8],
    third: &[u8],
    fourth: &[u8],
) -> Result<(), AllocError>
    ensures { OnOk result (block.new.items ≡ block.old.items ++ (first.now ++ second.now ++ third.now ++ fourth.now)) }
{
    block.extend_from_slice(first)?;
    block.extend_from_slice(second)?;
    block.extend_from_slice(third)?;
    block.extend_from_slice(fourth)?;
    Ok(())
}

// Appends the headers of a packet with a payload of `octets` octets.
fn put_headers(block: &mut Vec<u8>, octets: u16, from: End, to: End) -> Result<(), AllocError>
    requires { octets ≤ 65507 }
    ensures { OnOk result (block.new.items ≡ block.old.items ++ headers octets from to) }
{
    let total = 28 + octets;
    let front = header_front(total, checksum(total, from, to));
    let back = udp_header(octets, from, to);
    put_four(block, &front, &from.addr, &to.addr, &back)?;
    Ok(())
}

// Appends zeros up to a multiple of four octets, and the length of the block.
fn put_end(block: &mut Vec<u8>, zeros: usize, octets: u32) -> Result<(), AllocError>
    requires { zeros < 4 }
    ensures { OnOk result (block.new.items ≡ block.old.items ++ replicate zeros 0 ++ big_bytes 4 octets) }
{
    let len = block.len();
    block.resize(len + zeros, 0)?;
    let mut end = [0; 4];
    BigEndian::write_u32(&mut end, octets);
    block.extend_from_slice(&end)
}

/// The block of a datagram that came at this moment, in microseconds since 1970. Allocates once, exactly the block's length.
/// Errors: out of memory.
pub fn datagram_block(
    alloc: Global,
    fate: Fate,
    micros: u64,
    from: End,
    to: End,
    payload: &[u8],
) -> Result<Vec<u8>, AllocError>
    requires { length payload.now ≤ 65507 }
    ensures { IfOk result (λ block. block.items ≡ datagram_block fate micros from to payload.now) }
{
    let packet = 28 + payload.len();
    let zeros = padding(packet);
    let octets = 32 + (packet + zeros);
    let mut block = Vec::with_capacity(alloc, octets)?;
    block.extend_from_slice(&front(fate, micros, octets as u32, packet as u32))?;
    put_headers(&mut block, payload.len() as u16, from, to)?;
    block.extend_from_slice(payload)?;
    put_end(&mut block, zeros, octets as u32)?;
    Ok(block)
}

/// The block with the counts of one fate at this moment, in microseconds since 1970: how many datagrams came, and how many of them
/// the file lacks.
pub fn counts_block(fate: Fate, micros: u64, received: u64, dropped: u64) -> [u8; 52]
    ensures { result ≡ counts_block fate micros received dropped }
{
    let mut block = [0; 52];
    block[3] = 5;
    block[7] = 52;
    BigEndian::write_u32(&mut block[8..], fate.interface());
    BigEndian::write_u64(&mut block[12..], micros);
    block[21] = 4;
    block[23] = 8;
    BigEndian::write_u64(&mut block[24..], received);
    block[33] = 5;
    block[35] = 8;
    BigEndian::write_u64(&mut block[36..], dropped);
    block[51] = 52;
    block
}
