//! Pcapng files, whole and broken. What is wanted of each was made from the standard's figures, not by reading it.

use capture::{CaptureFault, Link, PacketHead, take_start};
use std::alloc::{AllocError, Global};
use std::mem::swap;
use std::test::Fail;

/// A file in hexadecimal, the number of its packets, and the last of them.
struct Row {
    name: &'static str,
    file: &'static str,
    packets: usize,
    last: PacketHead,
    frame: &'static [u8],
}

const ROWS: [Row; 15] = [
    Row {
        name: "enhanced, highest octet first",
        file: "0a0d0d0a0000001c1a2b3c4d00010000ffffffffffffffff0000001c0000000100000014000100000000000000000014000000060000002400000000000000000098968b000000030000003c6162630000000024",
        packets: 1,
        last: PacketHead {
            link: Some(Link::Ethernet),
            seconds: 10,
            nanoseconds: 11000,
            original: 60,
        },
        frame: b"abc",
    },
    Row {
        name: "enhanced, lowest octet first",
        file: "0a0d0d0a1c0000004d3c2b1a01000000ffffffffffffffff1c0000000100000014000000010000000000000014000000060000002400000000000000000000008b969800030000003c0000006162630024000000",
        packets: 1,
        last: PacketHead {
            link: Some(Link::Ethernet),
            seconds: 10,
            nanoseconds: 11000,
            original: 60,
        },
        frame: b"abc",
    },
    Row {
        name: "packet block",
        file: "0a0d0d0a1c0000004d3c2b1a01000000ffffffffffffffff1c00000001000000140000000100000000000000140000000100000014000000710000000000000014000000020000002400000001000700000000008b96980004000000040000006162636424000000",
        packets: 1,
        last: PacketHead {
            link: Some(Link::Cooked),
            seconds: 10,
            nanoseconds: 11000,
            original: 4,
        },
        frame: b"abcd",
    },
    Row {
        name: "simple, cut at the snap length",
        file: "0a0d0d0a1c0000004d3c2b1a01000000ffffffffffffffff1c0000000100000014000000650000000500000014000000010000001400000001000000000000001400000003000000180000003c000000616263646500000018000000",
        packets: 1,
        last: PacketHead {
            link: Some(Link::Raw),
            seconds: 0,
            nanoseconds: 0,
            original: 60,
        },
        frame: b"abcde",
    },
    Row {
        name: "simple, no snap length",
        file: "0a0d0d0a0000001c1a2b3c4d00010000ffffffffffffffff0000001c00000001000000140065000000000000000000140000000300000014000000036162630000000014",
        packets: 1,
        last: PacketHead {
            link: Some(Link::Raw),
            seconds: 0,
            nanoseconds: 0,
            original: 3,
        },
        frame: b"abc",
    },
    Row {
        name: "nanoseconds",
        file: "0a0d0d0a1c0000004d3c2b1a01000000ffffffffffffffff1c00000001000000280000000100000000000000020004006574683009000100090000000000000028000000060000002400000000000000020000000be40b5403000000030000006162630024000000",
        packets: 1,
        last: PacketHead {
            link: Some(Link::Ethernet),
            seconds: 10,
            nanoseconds: 11,
            original: 3,
        },
        frame: b"abc",
    },
    Row {
        name: "parts of 2^-20",
        file: "0a0d0d0a0000001c1a2b3c4d00010000ffffffffffffffff0000001c00000001000000200001000000000000000900019400000000000000000000200000000600000024000000000000000000a8000000000003000000036162630000000024",
        packets: 1,
        last: PacketHead {
            link: Some(Link::Ethernet),
            seconds: 10,
            nanoseconds: 500000000,
            original: 3,
        },
        frame: b"abc",
    },
    Row {
        name: "whole seconds",
        file: "0a0d0d0a0000001c1a2b3c4d00010000ffffffffffffffff0000001c0000000100000020000100000000000000090001000000000000000000000020000000060000002400000000000000000000000700000003000000036162630000000024",
        packets: 1,
        last: PacketHead {
            link: Some(Link::Ethernet),
            seconds: 7,
            nanoseconds: 0,
            original: 3,
        },
        frame: b"abc",
    },
    Row {
        name: "an offset",
        file: "0a0d0d0a1c0000004d3c2b1a01000000ffffffffffffffff1c000000010000002400000001000000000000000e000800e8030000000000000000000024000000060000002400000000000000000000008b96980003000000030000006162630024000000",
        packets: 1,
        last: PacketHead {
            link: Some(Link::Ethernet),
            seconds: 1010,
            nanoseconds: 11000,
            original: 3,
        },
        frame: b"abc",
    },
    Row {
        name: "an offset below 0",
        file: "0a0d0d0a0000001c1a2b3c4d00010000ffffffffffffffff0000001c00000001000000240001000000000000000e0008fffffffffffffffc0000000000000024000000060000002400000000000000000098968b00000003000000036162630000000024",
        packets: 1,
        last: PacketHead {
            link: Some(Link::Ethernet),
            seconds: 6,
            nanoseconds: 11000,
            original: 3,
        },
        frame: b"abc",
    },
    Row {
        name: "options behind the end of options",
        file: "0a0d0d0a1c0000004d3c2b1a01000000ffffffffffffffff1c0000000100000020000000010000000000000000000000090001000900000020000000060000002400000000000000000000008b96980003000000030000006162630024000000",
        packets: 1,
        last: PacketHead {
            link: Some(Link::Ethernet),
            seconds: 10,
            nanoseconds: 11000,
            original: 3,
        },
        frame: b"abc",
    },
    Row {
        name: "other blocks",
        file: "0a0d0d0a1c0000004d3c2b1a01000000ffffffffffffffff1c000000050000001800000000000000000000000000000018000000010000001400000001000000000000001400000004000000100000000000000010000000010000800c0000000c000000060000003000000000000000000000008b969800030000000300000061626300010004006e6f74650000000030000000050000000c0000000c000000",
        packets: 1,
        last: PacketHead {
            link: Some(Link::Ethernet),
            seconds: 10,
            nanoseconds: 11000,
            original: 3,
        },
        frame: b"abc",
    },
    Row {
        name: "interfaces of several link types",
        file: "0a0d0d0a1c0000004d3c2b1a01000000ffffffffffffffff1c00000001000000140000000100000000000000140000000100000014000000e400000000000000140000000100000014000000140100000000000014000000060000002400000002000000000000008b96980002000000030000006162000024000000060000002400000000000000000000008b96980001000000030000006100000024000000060000002400000001000000000000008b96980003000000030000006162630024000000",
        packets: 3,
        last: PacketHead {
            link: Some(Link::Raw),
            seconds: 10,
            nanoseconds: 11000,
            original: 3,
        },
        frame: b"abc",
    },
    Row {
        name: "a link type that is not read",
        file: "0a0d0d0a1c0000004d3c2b1a01000000ffffffffffffffff1c0000000100000014000000930000000000000014000000060000002400000000000000000000008b96980003000000030000006162630024000000",
        packets: 1,
        last: PacketHead {
            link: None,
            seconds: 10,
            nanoseconds: 11000,
            original: 3,
        },
        frame: b"abc",
    },
    Row {
        name: "two sections of both orders",
        file: "0a0d0d0a1c0000004d3c2b1a01000000ffffffffffffffff1c0000000100000014000000010000000000000014000000060000002400000000000000000000008b969800030000000300000061626300240000000a0d0d0a0000001c1a2b3c4d00010000ffffffffffffffff0000001c0000000100000014006500000000000000000014000000060000002400000000000000000098968b00000002000000036465000000000024",
        packets: 2,
        last: PacketHead {
            link: Some(Link::Raw),
            seconds: 10,
            nanoseconds: 11000,
            original: 3,
        },
        frame: b"de",
    },
];

/// A broken file, its fault, and the place of it.
const BROKEN: [(&str, &str, CaptureFault, u64); 13] = [
    (
        "no interface",
        "0a0d0d0a1c0000004d3c2b1a01000000ffffffffffffffff1c000000060000002400000000000000000000008b96980003000000030000006162630024000000",
        CaptureFault::Interface,
        28,
    ),
    (
        "an interface of the section before",
        "0a0d0d0a1c0000004d3c2b1a01000000ffffffffffffffff1c00000001000000140000000100000000000000140000000a0d0d0a1c0000004d3c2b1a01000000ffffffffffffffff1c000000060000002400000000000000000000008b96980003000000030000006162630024000000",
        CaptureFault::Interface,
        76,
    ),
    (
        "parts too fine",
        "0a0d0d0a1c0000004d3c2b1a01000000ffffffffffffffff1c0000000100000020000000010000000000000009000100140000000000000020000000060000002400000000000000000000008b96980003000000030000006162630024000000",
        CaptureFault::Interface,
        60,
    ),
    (
        "length is no multiple of four",
        "0a0d0d0a1c0000004d3c2b1a01000000ffffffffffffffff1c000000050000000d0000000d00000000",
        CaptureFault::Block,
        28,
    ),
    (
        "length under twelve",
        "0a0d0d0a1c0000004d3c2b1a01000000ffffffffffffffff1c000000050000000800000008000000",
        CaptureFault::Block,
        28,
    ),
    (
        "another length at the end",
        "0a0d0d0a1c0000004d3c2b1a01000000ffffffffffffffff1c00000005000000100000000000000014000000",
        CaptureFault::Block,
        28,
    ),
    (
        "too long a block",
        "0a0d0d0a1c0000004d3c2b1a01000000ffffffffffffffff1c00000005000000040010000000000000000000",
        CaptureFault::TooLong,
        28,
    ),
    (
        "captured octets beyond the block",
        "0a0d0d0a1c0000004d3c2b1a01000000ffffffffffffffff1c0000000100000014000000010000000000000014000000060000002400000000000000000000008b96980008000000080000006162636424000000",
        CaptureFault::Block,
        48,
    ),
    (
        "no room for the fields",
        "0a0d0d0a1c0000004d3c2b1a01000000ffffffffffffffff1c0000000100000014000000010000000000000014000000060000001c000000000000000000000000000000000000001c000000",
        CaptureFault::Block,
        48,
    ),
    (
        "no room for an interface",
        "0a0d0d0a1c0000004d3c2b1a01000000ffffffffffffffff1c00000001000000100000000000000010000000",
        CaptureFault::Block,
        28,
    ),
    (
        "a simple block shorter than the packet",
        "0a0d0d0a1c0000004d3c2b1a01000000ffffffffffffffff1c00000001000000140000000100000000000000140000000300000014000000090000006162636414000000",
        CaptureFault::Block,
        48,
    ),
    (
        "another version",
        "0a0d0d0a1c0000004d3c2b1a01000000ffffffffffffffff1c0000000a0d0d0a1c0000004d3c2b1a02000000ffffffffffffffff1c000000",
        CaptureFault::NotCapture,
        28,
    ),
    (
        "another magic number",
        "0a0d0d0a1c0000004d3c2b1a01000000ffffffffffffffff1c0000000a0d0d0a1c000000010101010101010101010101010101011c000000",
        CaptureFault::NotCapture,
        28,
    ),
];

/// A file of a section, an interface and two packets, which end at these octets.
const WHOLE: &str =
    "0a0d0d0a1c0000004d3c2b1a01000000ffffffffffffffff1c0000000100000020000000010000000000000009000100090000000000000020000000060000002800000000000000000000008b969800050000003c0000006162636465000000280000000300000014000000030000006162630014000000";

const ENDS: [usize; 4] = [28, 60, 100, 120];

/// What a file holds.
#[derive(Drop)]
struct Found {
    packets: usize,
    last: Option<PacketHead>,
    frame: Vec<u8>,
    fault: Option<CaptureFault>,
    place: u64,
}

// Reads a file to its end or its fault.
fn read(alloc: Global, octets: &[u8]) -> Found {
    let mut left = octets;
    let mut found = Found {
        packets: 0,
        last: None,
        frame: Vec::new(alloc),
        fault: None,
        place: 0,
    };
    let mut capture = match take_start(alloc, &mut left) {
        Ok(capture) => capture,
        Err(fault) => {
            found.fault = Some(fault);
            return found;
        }
    };
    let mut frame = Vec::new(alloc);
    for _ in 0..octets.len() {
        match capture.take_packet(&mut left, &mut frame) {
            Ok(Some(head)) => {
                swap(&mut found.frame, &mut frame);
                found.last = Some(head);
                found.packets = found.packets.saturating_add(1);
            }
            Ok(None) => return found,
            Err(fault) => {
                found.fault = Some(fault);
                found.place = capture.place();
                return found;
            }
        }
    }
    found
}

#[test]
fn whole_files(rt: HostRuntime) -> Result<(), Fail> {
    for row in &ROWS {
        let octets = hex::decode(rt.alloc(), row.file)?;
        let found = read(rt.alloc(), &octets);
        assert!(rt; found.fault.is_none(), "{}", row.name);
        assert!(rt; found.packets == row.packets, "{}", row.name);
        assert!(rt; found.last == Some(row.last), "{}", row.name);
        assert!(rt; found.frame.as_slice() == row.frame, "{}", row.name);
    }
    Ok(())
}

#[test]
fn broken_files(rt: HostRuntime) -> Result<(), Fail> {
    for row in &BROKEN {
        let octets = hex::decode(rt.alloc(), row.1)?;
        let found = read(rt.alloc(), &octets);
        assert!(rt; found.fault == Some(row.2), "{}", row.0);
        assert!(rt; found.place == row.3, "{}", row.0);
    }
    Ok(())
}

// A file that is cut between blocks ends there, one that is cut within a block has a fault.
#[test]
fn each_front(rt: HostRuntime) -> Result<(), Fail> {
    let octets = hex::decode(rt.alloc(), WHOLE)?;
    for end in 0..octets.len() {
        let found = read(rt.alloc(), &octets[..end]);
        let wanted = if ENDS.contains(&end) {
            None
        } else {
            Some(CaptureFault::Ends)
        };
        assert!(rt; found.fault == wanted);
    }
    Ok(())
}

// A copy of a file with up to four octets changed, by numbers of a simple generator.
fn mutilated(alloc: Global, octets: &[u8], state: &mut u64) -> Result<Vec<u8>, AllocError> {
    let mut file = octets.to_vec(alloc)?;
    for _ in 0..4 {
        *state = state
            .wrapping_mul(6_364_136_223_846_793_005)
            .wrapping_add(1_442_695_040_888_963_407);
        if let Some(place) = ((*state >> 33) as usize).checked_rem(octets.len())
            && let Some(octet) = file.get_mut(place)
        {
            *octet = (*state >> 56) as u8;
        }
    }
    Ok(file)
}

// Files with up to four octets changed are read to a fault or to their end.
#[test]
fn mutilated_files(rt: HostRuntime) -> Result<(), Fail> {
    let octets = hex::decode(rt.alloc(), WHOLE)?;
    let mut state = 1u64;
    let mut ended = 0usize;
    for _ in 0..10_000 {
        let file = mutilated(rt.alloc(), &octets, &mut state)?;
        let found = read(rt.alloc(), &file);
        if found.packets <= 2 {
            ended = ended.saturating_add(1);
        }
    }
    assert!(rt; ended == 10_000);
    Ok(())
}
