//! The blocks of files that are written.
use bpf_run::End;
use capture::{COUNTS_OCTETS, Fate, HEAD_OCTETS, counts_block, datagram_block, file_head};
use std::test::Fail;

// The header of RFC 791's form whose checksum was worked by hand: 0x4500 + 0x001f + 0x4011 + 0x7f00 + 0x0001 + 0x7f00 + 0x0002 is
// 0x18333 and so 0x8334, whose complement is 0x7ccb.
#[test]
fn a_datagram_is_a_block(rt: HostRuntime) -> Result<(), Fail> {
    let from = End {
        addr: [127, 0, 0, 1],
        port: 0x1234,
    };
    let to = End {
        addr: [127, 0, 0, 2],
        port: 3130,
    };
    let block = datagram_block(
        rt.alloc(),
        Fate::Cut,
        0x0001_0203_0405_0607,
        from,
        to,
        b"abc",
    )?;
    let wanted: [u8; 64] = [
        0, 0, 0, 6, 0, 0, 0, 64, 0, 0, 0, 1, 0, 1, 2, 3, 4, 5, 6, 7, 0, 0, 0, 31, 0, 0, 0, 31,
        0x45, 0, 0, 31, 0, 0, 0, 0, 64, 17, 0x7c, 0xcb, 127, 0, 0, 1, 127, 0, 0, 2, 0x12, 0x34,
        0x0c, 0x3a, 0, 11, 0, 0, b'a', b'b', b'c', 0, 0, 0, 0, 64,
    ];
    assert_eq!(rt; block.as_slice(), wanted.as_slice());
    Ok(())
}

#[test]
fn a_file_begins_and_ends(rt: HostRuntime) -> Result<(), Fail> {
    assert_eq!(rt; file_head().len(), HEAD_OCTETS);
    let counts = counts_block(Fate::Rejected, 1, 7, 2);
    let wanted: [u8; 52] = [
        0, 0, 0, 5, 0, 0, 0, 52, 0, 0, 0, 2, 0, 0, 0, 0, 0, 0, 0, 1, 0, 4, 0, 8, 0, 0, 0, 0, 0, 0,
        0, 7, 0, 5, 0, 8, 0, 0, 0, 0, 0, 0, 0, 2, 0, 0, 0, 0, 0, 0, 0, 52,
    ];
    assert_eq!(rt; counts.as_slice(), wanted.as_slice());
    assert_eq!(rt; counts.len(), COUNTS_OCTETS);
    Ok(())
}
