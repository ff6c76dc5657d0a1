//! Classic pcap files, whole and broken.

use capture::{CaptureFault, Link, Order, PacketHead, take_head, take_record, take_start};
use std::alloc::Global;
use std::test::Fail;

/// A file with one record of three octets, with its numbers' highest octet first, and moments in microseconds.
const BIG: &str =
    "a1b2c3d40002000400000000000000000000ffff000000010000000a0000000b000000030000003c616263";

/// The same with the lowest octet first, moments in nanoseconds and raw packets.
const LITTLE: &str =
    "4d3cb2a1020004000000000000000000ffff0000650000000a0000000b000000030000003c000000616263";

/// What a file holds: the number of its records and of their octets, or its fault.
fn read(alloc: Global, octets: &[u8]) -> Result<(usize, usize), CaptureFault> {
    let mut left = octets;
    let head = take_head(&mut left)?;
    let mut record = Vec::new(alloc);
    let mut records = 0usize;
    let mut total = 0usize;
    for _ in 0..octets.len() {
        if take_record(&mut left, head.order, &mut record)?.is_none() {
            break;
        }
        records = records.saturating_add(1);
        total = total.saturating_add(record.len());
    }
    Ok((records, total))
}

/// The same of a file in hexadecimal.
fn read_hex(alloc: Global, text: &str) -> Result<Result<(usize, usize), CaptureFault>, Fail> {
    let octets = hex::decode(alloc, text)?;
    Ok(read(alloc, &octets))
}

#[test]
fn whole_files(rt: HostRuntime) -> Result<(), Fail> {
    assert!(rt; read_hex(rt.alloc(), BIG)? == Ok((1, 3)));
    assert!(rt; read_hex(rt.alloc(), LITTLE)? == Ok((1, 3)));
    Ok(())
}

#[test]
fn heads(rt: HostRuntime) -> Result<(), Fail> {
    let octets = hex::decode(rt.alloc(), LITTLE)?;
    let mut left = octets.as_slice();
    let head = take_head(&mut left).ok().ok_or("a head")?;
    assert!(rt; head.order == Order::Little && head.nanoseconds && head.link == Link::Raw);
    let mut record = Vec::new(rt.alloc());
    let taken = take_record(&mut left, head.order, &mut record)
        .ok()
        .ok_or("no fault")?;
    let taken = taken.ok_or("a record")?;
    assert!(rt; taken.seconds == 10 && taken.fraction == 11 && taken.original == 60);
    assert!(rt; record.as_slice() == b"abc".as_slice());
    Ok(())
}

#[test]
fn broken_files(rt: HostRuntime) -> Result<(), Fail> {
    let table: [(&str, CaptureFault); 6] = [
        ("", CaptureFault::Ends),
        (
            "0a0d0d0a0002000400000000000000000000ffff00000001",
            CaptureFault::NotCapture,
        ),
        (
            "a1b2c3d40001000400000000000000000000ffff00000001",
            CaptureFault::NotCapture,
        ),
        (
            "a1b2c3d40002000400000000000000000000ffff00000002",
            CaptureFault::LinkType,
        ),
        (
            "a1b2c3d40002000400000000000000000000ffff000000010000000a0000000b000000030000003c6162",
            CaptureFault::Ends,
        ),
        (
            "a1b2c3d40002000400000000000000000000ffff000000010000000a0000000b000400010000003c61",
            CaptureFault::TooLong,
        ),
    ];
    for row in &table {
        assert!(rt; read_hex(rt.alloc(), row.0)? == Err(row.1));
    }
    Ok(())
}

/// The packet of either file above, with its link type and its moment's nanoseconds.
const PACKETS: [(&str, Link, u32); 2] = [(BIG, Link::Ethernet, 11_000), (LITTLE, Link::Raw, 11)];

#[test]
fn packets(rt: HostRuntime) -> Result<(), Fail> {
    for row in &PACKETS {
        let octets = hex::decode(rt.alloc(), row.0)?;
        let mut left = octets.as_slice();
        let mut capture = take_start(rt.alloc(), &mut left).ok().ok_or("a start")?;
        assert!(rt; capture.place() == 24);
        let mut frame = Vec::new(rt.alloc());
        let wanted = PacketHead {
            link: Some(row.1),
            seconds: 10,
            nanoseconds: row.2,
            original: 60,
        };
        assert!(rt; capture.take_packet(&mut left, &mut frame) == Ok(Some(wanted)));
        assert!(rt; frame.as_slice() == b"abc".as_slice());
        assert!(rt; capture.place() == 43);
        assert!(rt; capture.take_packet(&mut left, &mut frame) == Ok(None));
    }
    Ok(())
}

// The place of a fault is where the broken record begins.
#[test]
fn places_of_faults(rt: HostRuntime) -> Result<(), Fail> {
    let octets = hex::decode(rt.alloc(), BIG)?;
    let mut left = octets.split_last().ok_or("an octet")?.1;
    let mut capture = take_start(rt.alloc(), &mut left).ok().ok_or("a start")?;
    let mut frame = Vec::new(rt.alloc());
    assert!(rt; capture.take_packet(&mut left, &mut frame) == Err(CaptureFault::Ends));
    assert!(rt; capture.place() == 24);
    Ok(())
}

// Each front of a file is read to a fault or to its end.
#[test]
fn each_front(rt: HostRuntime) -> Result<(), Fail> {
    let octets = hex::decode(rt.alloc(), BIG)?;
    for end in 0..octets.len() {
        let found = read(rt.alloc(), &octets[..end]);
        let wanted = if end == 24 {
            Ok((0, 0))
        } else {
            Err(CaptureFault::Ends)
        };
        assert!(rt; found == wanted);
    }
    Ok(())
}
