//! Lines of the access log, in both forms (`access_log`).
use crate::rows::{Question, all_hold};
use access_log::{Course, Entry, Form, Supplier, line_of};
use std::alloc::{AllocError, Global};
use std::net::{IpAddr, Ipv4Addr, Ipv6Addr};
use std::test::Fail;

// An entry with usual values.
fn usual() -> Entry<'static> {
    Entry {
        millis: 1_795_587_252_345,
        client: IpAddr::V4(Ipv4Addr::new(192, 168, 0, 250)),
        method: b"GET",
        url: b"http://a.example/x?y=1",
        referer: b"",
        agent: b"curl/8.5.0",
        status: Some(200),
        octets: 1234,
        taken: 12,
        course: Course::Miss,
        supplier: Some(Supplier::Origin),
        is_whole: true,
    }
}

// An entry of which nothing is known.
fn absent() -> Entry<'static> {
    Entry {
        millis: 0,
        client: IpAddr::V4(Ipv4Addr::new(0, 0, 0, 0)),
        method: b"",
        url: b"",
        agent: b"",
        status: None,
        octets: 0,
        taken: u64::MAX,
        course: Course::Own,
        supplier: None,
        is_whole: false,
        ..usual()
    }
}

// An entry with texts that a line can't have as they are.
fn hostile() -> Entry<'static> {
    Entry {
        millis: 4_294_967_295_007,
        url: b"/\r\n\"\\\x00\xff\x7f~ ",
        referer: b"\" 200 0",
        agent: b"\xc3\xa9\t",
        course: Course::Collapsed,
        supplier: Some(Supplier::Neighbour(3)),
        ..usual()
    }
}

// An entry of the leap day of 2000.
fn leap() -> Entry<'static> {
    Entry {
        millis: 951_782_400_999,
        course: Course::Hit,
        supplier: None,
        ..usual()
    }
}

// A form, an entry, and its line.
type Line = (Form, Entry<'static>, &'static [u8]);

// 2026-11-25 is 20,782 days after 1970-01-01: 56 years of 365 days with 14 leap days, and 328 days of 2026. 20,782 * 86,400 is
// 1,795,564,800, and 06:14:12 is 22,452 s.
fn lines() -> [Line; 7] {
    [
        (
            Form::Common,
            usual(),
            b"192.168.0.250 - - [25/Nov/2026:06:14:12 +0000] \"GET http://a.example/x?y=1 HTTP/1.1\" 200 1234 \"-\" \"curl/8.5.0\" \"miss origin\" 12\n",
        ),
        (
            Form::Json,
            usual(),
            b"{\"time\":\"2026-11-25T06:14:12.345Z\",\"client\":\"192.168.0.250\",\"method\":\"GET\",\"url\":\"http://a.example/x?y=1\",\"status\":200,\"octets\":1234,\"ms\":12,\"how\":\"miss\",\"source\":\"origin\",\"whole\":true,\"agent\":\"curl/8.5.0\"}\n",
        ),
        (
            Form::Common,
            absent(),
            b"0.0.0.0 - - [01/Jan/1970:00:00:00 +0000] \"-\" 499 0 \"-\" \"-\" \"refused -\" 18446744073709551615\n",
        ),
        (
            Form::Json,
            absent(),
            b"{\"time\":\"1970-01-01T00:00:00.000Z\",\"client\":\"0.0.0.0\",\"method\":\"\",\"url\":\"\",\"status\":499,\"octets\":0,\"ms\":18446744073709551615,\"how\":\"refused\",\"source\":\"-\",\"whole\":false}\n",
        ),
        (
            Form::Common,
            hostile(),
            b"192.168.0.250 - - [07/Feb/2106:06:28:15 +0000] \"GET /\\x0D\\x0A\\x22\\x5C\\x00\\xFF\\x7F~  HTTP/1.1\" 200 1234 \"\\x22 200 0\" \"\\xC3\\xA9\\x09\" \"collapsed neighbour/3\" 12\n",
        ),
        (
            Form::Json,
            hostile(),
            b"{\"time\":\"2106-02-07T06:28:15.007Z\",\"client\":\"192.168.0.250\",\"method\":\"GET\",\"url\":\"/\\u000D\\u000A\\u0022\\u005C\\u0000\\u00FF\\u007F~ \",\"status\":200,\"octets\":1234,\"ms\":12,\"how\":\"collapsed\",\"source\":\"neighbour/3\",\"whole\":true,\"referer\":\"\\u0022 200 0\",\"agent\":\"\\u00C3\\u00A9\\u0009\"}\n",
        ),
        (
            Form::Common,
            leap(),
            b"192.168.0.250 - - [29/Feb/2000:00:00:00 +0000] \"GET http://a.example/x?y=1 HTTP/1.1\" 200 1234 \"-\" \"curl/8.5.0\" \"hit -\" 12\n",
        ),
    ]
}

// An entry has the line of its row.
struct HasLine;

impl Question<Line> for HasLine {
    fn holds(&self, alloc: Global, row: &Line) -> Result<bool, Fail> {
        let line = line_of(alloc, row.0, &row.1)?;
        Ok(line.as_slice() == row.2)
    }
}

#[test]
fn lines_are_as_analysers_read_them(rt: HostRuntime) -> Result<(), Fail> {
    all_hold(rt.alloc(), &lines(), &HasLine)
}

// The front of a line of this form that has the address of IPv6 with these segments.
fn front_of(alloc: Global, form: Form, segments: [u16; 8], front: &[u8]) -> Result<bool, Fail> {
    let entry = Entry {
        client: IpAddr::V6(Ipv6Addr::from_segments(segments)),
        ..usual()
    };
    let line = line_of(alloc, form, &entry)?;
    Ok(line.as_slice().starts_with(front))
}

// RFC 5952, sections 4.1 to 4.3 and 5: no zeros in front of a group, the longest run of groups of zero as ::, of two the first, but never a
// single one, small letters, and an address of IPv4 in its own form.
type Six = ([u16; 8], &'static [u8]);

const SIX: [Six; 7] = [
    ([0x2001, 0xdb8, 0, 0, 0, 0, 0, 1], b"2001:db8::1 - - ["),
    (
        [0x2001, 0xdb8, 0, 1, 1, 1, 1, 1],
        b"2001:db8:0:1:1:1:1:1 - - [",
    ),
    ([0x2001, 0, 0, 1, 0, 0, 0, 1], b"2001:0:0:1::1 - - ["),
    (
        [0x2001, 0xdb8, 0, 0, 1, 0, 0, 1],
        b"2001:db8::1:0:0:1 - - [",
    ),
    (
        [0xfe80, 0xabcd, 0xef, 0xf, 0, 0, 0, 0],
        b"fe80:abcd:ef:f:: - - [",
    ),
    ([0, 0, 0, 0, 0, 0, 0, 1], b"::1 - - ["),
    (
        [0, 0, 0, 0, 0, 0xffff, 0xc000, 0x0201],
        b"::ffff:192.0.2.1 - - [",
    ),
];

// A line has the front of its row.
struct HasFront;

impl Question<Six> for HasFront {
    fn holds(&self, alloc: Global, row: &Six) -> Result<bool, Fail> {
        front_of(alloc, Form::Common, row.0, row.1)
    }
}

#[test]
fn addresses_of_six(rt: HostRuntime) -> Result<(), Fail> {
    all_hold(rt.alloc(), &SIX, &HasFront)?;
    let json =
        b"{\"time\":\"2026-11-25T06:14:12.345Z\",\"client\":\"2001:db8::1\",\"method\":\"GET\",";
    assert!(rt;
        front_of(
            rt.alloc(),
            Form::Json,
            [0x2001, 0xdb8, 0, 0, 0, 0, 0, 1],
            json
        )?
    );
    Ok(())
}

// A line whose URL has 20,000 octets, each of which is escaped.
fn long_line(alloc: Global) -> Result<Vec<u8>, AllocError> {
    let long = vec![in alloc; b'\n'; 20_000]?;
    let entry = Entry {
        millis: u64::MAX,
        url: long.as_slice(),
        ..usual()
    };
    let line = line_of(alloc, Form::Common, &entry);
    drop(long);
    line
}

// Whether such a line has its first 8,192 octets, escaped, and the rest of the entry.
fn is_cut(line: &[u8]) -> bool {
    let front = b"192.168.0.250 - - [31/Dec/9999:23:59:59 +0000] \"GET \\x0A\\x0A";
    let back = b"\\x0A HTTP/1.1\" 200 1234 \"-\" \"curl/8.5.0\" \"miss origin\" 12\n";
    line.starts_with(front)
        && line.ends_with(back)
        && line.len() == front.len() - 8 + 4 * 8_192 + back.len() - 4
}

// The last moment that is shown as it is, and later ones.
const LATE: [u64; 3] = [253_402_300_799_999, 253_402_300_800_000, u64::MAX];

// A moment is shown as the last one.
struct IsLate;

impl Question<u64> for IsLate {
    fn holds(&self, alloc: Global, row: &u64) -> Result<bool, Fail> {
        let late = Entry {
            millis: *row,
            ..usual()
        };
        let line = line_of(alloc, Form::Json, &late)?;
        Ok(
            line.as_slice()
                .starts_with(b"{\"time\":\"9999-12-31T23:59:59.999Z\","),
        )
    }
}

// A text is cut before it is escaped. Moments past the year 9999 are shown as its last millisecond.
#[test]
fn long_texts_and_late_moments_are_cut(rt: HostRuntime) -> Result<(), Fail> {
    let line = long_line(rt.alloc())?;
    let is_cut = is_cut(line.as_slice());
    drop(line);
    assert!(rt; is_cut);
    all_hold(rt.alloc(), &LATE, &IsLate)
}
