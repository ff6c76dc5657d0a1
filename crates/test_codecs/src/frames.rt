//! The datagram in a frame, by link type and headers.

use bpf_run::End;
use capture::{Link, udp_in};
use std::test::Fail;

/// A frame, and what is wanted of it: the payload's length and whether the payload is whole.
struct Row {
    name: &'static str,
    link: Link,
    frame: &'static str,
    wanted: Option<(usize, bool)>,
}

const ROWS: [Row; 25] = [
    Row {
        name: "raw",
        link: Link::Raw,
        frame: "4500001f00070000401100000a0000090a0000019c400c3a000b0000616263",
        wanted: Some((3, true)),
    },
    Row {
        name: "ethernet with padding",
        link: Link::Ethernet,
        frame: "00000000000000000000000008004500001f00070000401100000a0000090a0000019c400c3a000b0000616263000000",
        wanted: Some((3, true)),
    },
    Row {
        name: "one tag",
        link: Link::Ethernet,
        frame: "0000000000000000000000008100000508004500001f00070000401100000a0000090a0000019c400c3a000b0000616263",
        wanted: Some((3, true)),
    },
    Row {
        name: "two tags",
        link: Link::Ethernet,
        frame: "00000000000000000000000088a800058100000608004500001f00070000401100000a0000090a0000019c400c3a000b0000616263",
        wanted: Some((3, true)),
    },
    Row {
        name: "three tags",
        link: Link::Ethernet,
        frame: "00000000000000000000000088a80005810000068100000708004500001f00070000401100000a0000090a0000019c400c3a000b0000616263",
        wanted: None,
    },
    Row {
        name: "ARP",
        link: Link::Ethernet,
        frame: "00000000000000000000000008064500001f00070000401100000a0000090a0000019c400c3a000b0000616263",
        wanted: None,
    },
    Row {
        name: "cooked",
        link: Link::Cooked,
        frame: "000000000000000000000000000008004500001f00070000401100000a0000090a0000019c400c3a000b0000616263",
        wanted: Some((3, true)),
    },
    Row {
        name: "cooked, second version",
        link: Link::CookedTwo,
        frame: "08000000000000000000000000000000000000004500001f00070000401100000a0000090a0000019c400c3a000b0000616263",
        wanted: Some((3, true)),
    },
    Row {
        name: "null, low octet first",
        link: Link::Null,
        frame: "020000004500001f00070000401100000a0000090a0000019c400c3a000b0000616263",
        wanted: Some((3, true)),
    },
    Row {
        name: "null, high octet first",
        link: Link::Null,
        frame: "000000024500001f00070000401100000a0000090a0000019c400c3a000b0000616263",
        wanted: Some((3, true)),
    },
    Row {
        name: "null, version 6",
        link: Link::Null,
        frame: "1e0000004500001f00070000401100000a0000090a0000019c400c3a000b0000616263",
        wanted: None,
    },
    Row {
        name: "loop",
        link: Link::Loop,
        frame: "000000024500001f00070000401100000a0000090a0000019c400c3a000b0000616263",
        wanted: Some((3, true)),
    },
    Row {
        name: "loop, low octet first",
        link: Link::Loop,
        frame: "020000004500001f00070000401100000a0000090a0000019c400c3a000b0000616263",
        wanted: None,
    },
    Row {
        name: "options",
        link: Link::Raw,
        frame: "4600002300070000401100000a0000090a000001010101009c400c3a000b0000616263",
        wanted: Some((3, true)),
    },
    Row {
        name: "first fragment",
        link: Link::Raw,
        frame: "4500001f00072000401100000a0000090a0000019c400c3a03f30000616263",
        wanted: Some((3, false)),
    },
    Row {
        name: "later fragment",
        link: Link::Raw,
        frame: "4500001f00072001401100000a0000090a0000019c400c3a000b0000616263",
        wanted: None,
    },
    Row {
        name: "cut by the snap length",
        link: Link::Raw,
        frame: "4500001f00070000401100000a0000090a0000019c400c3a000b000061",
        wanted: Some((1, false)),
    },
    Row {
        name: "cut within the UDP header",
        link: Link::Raw,
        frame: "4500001f00070000401100000a0000090a0000019c400c3a000b00",
        wanted: None,
    },
    Row {
        name: "cut within the IPv4 header",
        link: Link::Raw,
        frame: "4500001f00070000401100000a0000090a0000",
        wanted: None,
    },
    Row {
        name: "TCP",
        link: Link::Raw,
        frame: "4500001f00070000400600000a0000090a0000019c400c3a000b0000616263",
        wanted: None,
    },
    Row {
        name: "version 6",
        link: Link::Raw,
        frame: "6500001f00070000401100000a0000090a0000019c400c3a000b0000616263",
        wanted: None,
    },
    Row {
        name: "UDP length under 8",
        link: Link::Raw,
        frame: "4500001f00070000401100000a0000090a0000019c400c3a00070000616263",
        wanted: None,
    },
    Row {
        name: "total length under the header's",
        link: Link::Raw,
        frame: "4500001300070000401100000a0000090a0000019c400c3a000b0000616263",
        wanted: None,
    },
    Row {
        name: "no payload",
        link: Link::Raw,
        frame: "4500001c00070000401100000a0000090a0000019c400c3a00080000",
        wanted: Some((0, true)),
    },
    Row {
        name: "empty frame",
        link: Link::Ethernet,
        frame: "",
        wanted: None,
    },
];

#[test]
fn datagrams_of_frames(rt: HostRuntime) -> Result<(), Fail> {
    for row in &ROWS {
        let frame = hex::decode(rt.alloc(), row.frame)?;
        let found = udp_in(row.link, &frame).map(|udp| (udp.payload.len(), udp.whole));
        assert!(rt; found == row.wanted, "{}", row.name);
    }
    Ok(())
}

#[test]
fn ends_and_payload(rt: HostRuntime) -> Result<(), Fail> {
    let frame = hex::decode(rt.alloc(), ROWS[0].frame)?;
    let udp = udp_in(Link::Raw, &frame).ok_or("a datagram")?;
    let from = End {
        addr: [10, 0, 0, 9],
        port: 40_000,
    };
    let to = End {
        addr: [10, 0, 0, 1],
        port: 3130,
    };
    assert!(rt; udp.from == from);
    assert!(rt; udp.to == to);
    assert!(rt; udp.payload == b"abc".as_slice());
    Ok(())
}
