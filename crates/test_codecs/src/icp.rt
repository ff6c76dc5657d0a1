//! ICP messages: reading, writing, truncated messages and messages that are too long.

ghost use Rattle.icp_packet.specs.Message.{FitsOpcode};
ghost use Rattle.icp_packet.specs.View.{shown_body};

use crate::made::{NO_MEMORY, octets, repeated};
use crate::rows::{Question, all_hold};
use icp_packet::{EncodeFault, IcpBody, IcpFault, IcpView, Opcode, decode, encode};
use std::alloc::Global;
use std::process::Abort;

/// A QUERY for http://a/ with request number 1.
pub(crate) const QUERY: [u8; 34] = [
    1, 2, 0, 34, 0, 0, 0, 1, 0, 0, 0, 0, 0, 0, 0, 0, 0, 0, 0, 0, 0, 0, 0, 0, 104, 116, 116, 112,
    58, 47, 47, 97, 47, 0,
];

// The MISS from 10.0.0.1 for http://a/.
const MISS: [u8; 30] = [
    3, 2, 0, 30, 0, 0, 0, 1, 0, 0, 0, 0, 0, 0, 0, 0, 10, 0, 0, 1, 104, 116, 116, 112, 58, 47, 47,
    97, 47, 0,
];

// The ERR from 10.0.0.1 for ftp://a/.
const ERROR: [u8; 29] = [
    4, 2, 0, 29, 0, 0, 0, 1, 0, 0, 0, 0, 0, 0, 0, 0, 10, 0, 0, 1, 102, 116, 112, 58, 47, 47, 97,
    47, 0,
];

// A HIT_OBJ with an object of two octets, from 10.0.0.9.
const HIT_OBJECT: [u8; 34] = [
    23, 2, 0, 34, 0, 0, 0, 1, 0, 0, 0, 0, 0, 0, 0, 0, 10, 0, 0, 9, 104, 116, 116, 112, 58, 47, 47,
    97, 47, 0, 0, 2, 104, 105,
];

// Octets, with the opcode, sender and body that they decode to.
type Row = (&'static [u8], Opcode, [u8; 4], IcpBody<'static>);

const ASKED: IcpBody<'static> = IcpBody::Query {
    requester: [0; 4],
    url: b"http://a/",
};

const FOUND: IcpBody<'static> = IcpBody::Object {
    url: b"http://a/",
    object: b"hi",
};

const ROWS: [Row; 4] = [
    (&QUERY, Opcode::Query, [0; 4], ASKED),
    (
        &MISS,
        Opcode::Miss,
        [10, 0, 0, 1],
        IcpBody::Url(b"http://a/"),
    ),
    (
        &ERROR,
        Opcode::Error,
        [10, 0, 0, 1],
        IcpBody::Url(b"ftp://a/"),
    ),
    (&HIT_OBJECT, Opcode::HitObject, [10, 0, 0, 9], FOUND),
];

// Whether a message is encoded as these octets.
fn is_written<R: Abort>(rt: &R, alloc: Global, view: &IcpView<'_>, octets: &[u8]) -> bool
    requires { FitsOpcode view.now.op (shown_body view.now.body) }
{
    let again = encode(alloc, view).ok().expect(rt, "octets");
    let is_same = again.as_slice() == octets;
    drop(again);
    is_same
}

// The message of these octets.
fn read<'a, R: Abort>(rt: &R, octets: &'a [u8]) -> IcpView<'a>
    ensures { FitsOpcode result.op (shown_body result.body) }
{
    decode(octets).ok().expect(rt, "a message")
}

// Octets decode to what the row says, without options, and are encoded as the same octets.
struct IsRead;

impl Question<Row> for IsRead {
    fn holds<R: Abort>(&self, rt: &R, alloc: Global, row: &Row) -> bool {
        let (octets, op, sender, body) = *row;
        let wanted = IcpView {
            op,
            number: 1,
            options: 0,
            option_data: 0,
            sender,
            body,
        };
        let view = read(rt, octets);
        view == wanted && is_written(rt, alloc, &view, octets)
    }
}

#[test]
fn messages_are_read_and_written_again(rt: HostRuntime) {
    all_hold(&rt, rt.alloc(), &ROWS, &IsRead);
}

// Each opcode with its number, and a payload that may follow its header.
type Coded = (u8, Opcode, &'static [u8]);

const EACH_OPCODE: [Coded; 11] = [
    (1, Opcode::Query, b"\x0a\0\0\x07http://a/\0"),
    (2, Opcode::Hit, b"http://a/\0"),
    (3, Opcode::Miss, b"http://a/\0"),
    (4, Opcode::Error, b"\0"),
    (10, Opcode::Secho, b"http://a/\0"),
    (11, Opcode::Decho, b"http://a/\0"),
    (21, Opcode::MissNoFetch, b"http://a/\0"),
    (22, Opcode::Denied, b"http://a/\0"),
    (23, Opcode::HitObject, b"http://a/\0\0\0"),
    (23, Opcode::HitObject, b"http://a/\0\0\x05hello"),
    (23, Opcode::HitObject, b"\0\0\x03a\0b"),
];

// A message with this opcode and payload, request number 258, options and option data, from 10.0.0.9.
fn message<R: Abort>(rt: &R, alloc: Global, code: u8, payload: &[u8]) -> Vec<u8> {
    let length = payload.len().saturating_add(20);
    let length = u8::try_from(length).ok().expect(rt, "a long payload");
    let header = [
        code, 2, 0, length, 0, 0, 1, 2, 0x80, 0, 0, 3, 0, 4, 0, 5, 10, 0, 0, 9,
    ];
    let mut message = octets(rt, alloc, &header);
    message.extend_from_slice(payload).expect(rt, NO_MEMORY);
    message
}

// Whether octets decode to a message with this opcode and the other fields of that header, and are encoded as the same octets.
fn has_header<R: Abort>(rt: &R, alloc: Global, octets: &[u8], op: Opcode) -> bool {
    let view = read(rt, octets);
    let wanted = IcpView {
        op,
        number: 258,
        options: 0x8000_0003,
        option_data: 0x0004_0005,
        sender: [10, 0, 0, 9],
        body: view.body,
    };
    view == wanted && is_written(rt, alloc, &view, octets)
}

// Such a message decodes with each field of its header, and is encoded as the same octets.
struct HasItsHeader;

impl Question<Coded> for HasItsHeader {
    fn holds<R: Abort>(&self, rt: &R, alloc: Global, row: &Coded) -> bool {
        let octets = message(rt, alloc, row.0, row.2);
        let has_header = has_header(rt, alloc, &octets, row.1);
        drop(octets);
        has_header
    }
}

#[test]
fn each_opcode_is_read_and_written(rt: HostRuntime) {
    all_hold(&rt, rt.alloc(), &EACH_OPCODE, &HasItsHeader);
}

// A message, the index and the new value of one of its octets, and the fault of the result.
type Faulty = (&'static [u8; 34], usize, u8, IcpFault);

const FAULTS: [Faulty; 9] = [
    (&QUERY, 0, 0, IcpFault::Opcode),
    (&QUERY, 0, 24, IcpFault::Opcode),
    (&QUERY, 1, 3, IcpFault::Version),
    (&QUERY, 3, 33, IcpFault::Length),
    (&QUERY, 28, 0, IcpFault::Url),
    (&QUERY, 33, 47, IcpFault::Url),
    // sizes of the object that are not its own
    (&HIT_OBJECT, 31, 0, IcpFault::Object),
    (&HIT_OBJECT, 31, 1, IcpFault::Object),
    (&HIT_OBJECT, 31, 3, IcpFault::Object),
];

// The fault of octets that are no message.
fn fault_of(octets: &[u8]) -> Option<IcpFault> {
    decode(octets).err()
}

// The fault of a message with another octet at index `place`.
fn fault_with(message: [u8; 34], place: usize, octet: u8) -> Option<IcpFault> {
    let mut octets = message;
    if let Some(one) = octets.get_mut(place) {
        *one = octet;
    }
    fault_of(&octets)
}

// The message of a row has its fault with the row's octet.
struct IsFaulty;

impl Question<Faulty> for IsFaulty {
    fn holds<R: Abort>(&self, _rt: &R, _alloc: Global, row: &Faulty) -> bool {
        fault_with(*row.0, row.1, row.2) == Some(row.3)
    }
}

#[test]
fn faults(rt: HostRuntime) {
    all_hold(&rt, rt.alloc(), &FAULTS, &IsFaulty);
}

// Whether a QUERY truncated to each length has the fault of that length, with its length in the header as it was, and set to it.
fn are_faulty() -> bool {
    let mut octets = QUERY;
    for len in 0..34 {
        octets[3] = len as u8;
        let short = (len < 20).then_some(IcpFault::Short);
        if fault_of(&QUERY[..len]) != short.or(Some(IcpFault::Length))
            || fault_of(&octets[..len]) != short.or(Some(IcpFault::Url))
        {
            return false;
        }
    }
    true
}

#[test]
fn cut_short(rt: HostRuntime) {
    assert!(rt; are_faulty());
}

#[test]
fn one_octet_too_many(rt: HostRuntime) {
    let mut longer = [0; 35];
    longer[..34].copy_from_slice(&QUERY);
    assert!(rt; fault_of(&longer) == Some(IcpFault::Length));
}

// The length of an encoded QUERY for a URL of this many octets.
fn length_for<R: Abort>(rt: &R, alloc: Global, octets: usize) -> Result<usize, EncodeFault> {
    let url = repeated(rt, alloc, 97, octets);
    let encoded = encode(alloc, &query_for(rt, &url));
    let length = match &encoded {
        Ok(message) => Ok(message.len()),
        Err(fault) => Err(*fault),
    };
    drop(encoded);
    drop(url);
    length
}

#[test]
fn longest_message(rt: HostRuntime) {
    assert!(rt; length_for(&rt, rt.alloc(), 16_359) == Ok(16_384));
    assert!(rt; length_for(&rt, rt.alloc(), 16_360) == Err(EncodeFault::TooLong));
}

// A QUERY for a URL.
fn query_for<'a, R: Abort>(rt: &R, url: &'a [u8]) -> IcpView<'a>
    ensures { FitsOpcode result.op (shown_body result.body) }
{
    assert!(*rt; !url.contains(&0), "a text");
    IcpView {
        op: Opcode::Query,
        number: 1,
        options: 0,
        option_data: 0,
        sender: [0; 4],
        body: IcpBody::Query {
            requester: [0; 4],
            url,
        },
    }
}
