//! HTCP messages: reading, writing, signing, verifying, truncated messages.

use crate::made::repeated;
use crate::rows::{Question, all_hold};
use htcp_packet::{
    Detail, EncodeFault, Form, HtcpAuth, HtcpBody, HtcpFault, HtcpView, Sign, Specifier, decode,
    encode, sign, verify,
};
use std::alloc::Global;
use std::process::Abort;

// A TST request for `http://a/` with TRANS-ID 9.
const TEST: &str =
    "002a0000002410020000000900034745540009687474703a2f2f612f0008485454502f312e3100000002";

// The same, signed at second 100 with the key named `key`, whose secret is `Jefe`. The code was computed by Python's hmac.
const SIGNED: &str =
    "00490000002410020000000900034745540009687474703a2f2f612f0008485454502f312e310000002100000064000000a000036b657900109a14fe3686e714ca37928e95b06a119d";

// From 10.0.0.9:4827 to 10.0.0.1:4827.
const ENDS: [u8; 12] = [10, 0, 0, 9, 0x12, 0xdb, 10, 0, 0, 1, 0x12, 0xdb];

/// The octets of a text in hexadecimal.
fn octets_of<R: Abort>(rt: &R, alloc: Global, text: &str) -> Vec<u8> {
    hex::decode(alloc, text).ok().expect(rt, "hexadecimal")
}

/// The message of these octets.
fn message<'a, R: Abort>(rt: &R, octets: &'a [u8]) -> HtcpView<'a> {
    decode(octets).ok().expect(rt, "a message")
}

/// The fault of octets that are no message.
fn fault_of(octets: &[u8]) -> Option<HtcpFault> {
    decode(octets).err()
}

fn shape_of(view: &HtcpView<'_>) -> Shape {
    let form = Form::of(view.opcode, view.response, view.f1, view.rr);
    (
        view.opcode,
        view.response,
        view.f1,
        view.rr,
        view.trans,
        form,
    )
}

/// A message's opcode, RESPONSE, F1, RR and TRANS-ID, and the form of its OP-DATA.
type Shape = (u8, u8, bool, bool, u32, Form);

const MESSAGES: &[(&str, Shape)] = &[
    (
        "000e000000080002000000070002",
        (0, 0, true, false, 7, Form::Empty),
    ),
    (
        "000e000000080001000000070002",
        (0, 0, false, true, 7, Form::Empty),
    ),
    (
        "000e000000082002000000090002",
        (2, 0, true, false, 9, Form::Opaque),
    ),
    (
        "000e000000082203000000090002",
        (2, 2, true, true, 9, Form::Opaque),
    ),
    (
        "002c0000002640020000000a000000034745540009687474703a2f2f612f0008485454502f312e3100000002",
        (4, 0, true, false, 10, Form::Clear),
    ),
    (
        "000e0000000840030000000a0002",
        (4, 0, true, true, 10, Form::Opaque),
    ),
    (TEST, (1, 0, true, false, 9, Form::Specifier)),
    (
        "00100000000a11010000000900000002",
        (1, 1, false, true, 9, Form::CacheHeaders),
    ),
    (
        "00140000000e1001000000090000000000000002",
        (1, 0, false, true, 9, Form::Detail),
    ),
    (
        "000e000000081103000000090002",
        (1, 1, true, true, 9, Form::Opaque),
    ),
];

/// Whether a message is encoded as these octets.
fn is_written<R: Abort>(rt: &R, alloc: Global, view: &HtcpView<'_>, octets: &[u8]) -> bool {
    if !view.is_writable() {
        return false;
    }
    let written = encode(alloc, view).ok().expect(rt, "octets");
    let is_same = written.as_slice() == octets;
    drop(written);
    is_same
}

/// The octets of a row decode to a message of its shape, which is encoded as the same octets.
struct ReadAndWritten;

impl Question<(&'static str, Shape)> for ReadAndWritten {
    fn holds<R: Abort>(&self, rt: &R, alloc: Global, row: &(&'static str, Shape)) -> bool {
        let octets = octets_of(rt, alloc, row.0);
        let view = message(rt, &octets);
        let is_so = is_written(rt, alloc, &view, &octets) && shape_of(&view) == row.1;
        drop(octets);
        is_so
    }
}

#[test]
fn messages_are_read_and_written(rt: HostRuntime) {
    all_hold(&rt, rt.alloc(), MESSAGES, &ReadAndWritten);
}

/// A TST request with the method GET, for `http://a:80/` with HTTP/1.1.
const TEXTS: &str =
    "002d000000271002000000090003474554000c687474703a2f2f613a38302f0008485454502f312e3100000002";

/// Its OP-DATA.
const NAMED: HtcpBody<'static> = HtcpBody::Specifier(Specifier {
    method: b"GET",
    uri: b"http://a:80/",
    version: b"HTTP/1.1",
    headers: b"",
});

/// The strings of a SPECIFIER.
#[test]
fn texts(rt: HostRuntime) {
    let octets = octets_of(&rt, rt.alloc(), TEXTS);
    let has_texts = message(&rt, &octets).body == NAMED;
    drop(octets);
    assert!(rt; has_texts);
}

/// A NOP request.
const PLAIN: &str = "000e000000080002000000070002";

/// The same with reserved bits set, three octets of padding in DATA, and two octets after AUTH.
const PADDED: &str = "00130000000b00fe00000007aabbcc0002ffff";

/// The octets of its DATA.
const DATA: &str = "000b00fe00000007aabbcc";

/// Whether both decode to the same message.
fn are_same<R: Abort>(rt: &R, first: &[u8], second: &[u8]) -> bool {
    message(rt, first) == message(rt, second)
}

/// Whether octets decode to a message with this DATA, which is encoded as the plain ones.
fn has_data<R: Abort>(rt: &R, alloc: Global, octets: &[u8], data: &[u8], plain: &[u8]) -> bool {
    let view = message(rt, octets);
    view.raw == data && is_written(rt, alloc, &view, plain)
}

/// What doesn't belong to a message: padding, reserved bits and the octets of DATA.
#[test]
fn padding(rt: HostRuntime) {
    let plain = octets_of(&rt, rt.alloc(), PLAIN);
    let padded = octets_of(&rt, rt.alloc(), PADDED);
    let data = octets_of(&rt, rt.alloc(), DATA);
    let are_same = are_same(&rt, &plain, &padded);
    let has_data = has_data(&rt, rt.alloc(), &padded, &data, &plain);
    drop(data);
    drop(padded);
    drop(plain);
    assert!(rt; are_same && has_data);
}

#[test]
fn other_messages_are_others(rt: HostRuntime) {
    let plain = octets_of(&rt, rt.alloc(), PLAIN);
    let other = octets_of(&rt, rt.alloc(), TEXTS);
    let found = (are_same(&rt, &plain, &plain), are_same(&rt, &plain, &other));
    drop(other);
    drop(plain);
    assert!(rt; found == (true, false));
}

#[test]
fn no_opcode_above_15_is_written(rt: HostRuntime) {
    let plain = octets_of(&rt, rt.alloc(), PLAIN);
    let mut odd = message(&rt, &plain);
    odd.opcode = 16;
    let is_writable = odd.is_writable();
    drop(plain);
    assert!(rt; !is_writable);
}

/// Whether a message that is truncated, with its length in the header as it was, has the fault of each length.
fn are_faulty(octets: &[u8; 42]) -> bool {
    for n in 0..42 {
        let short = (n < 4).then_some(HtcpFault::Short);
        if fault_of(&octets[..n]) != short.or(Some(HtcpFault::Length)) {
            return false;
        }
    }
    true
}

/// Whether a message is read as it should be when it is truncated to n octets, the length in its header: without a signature where
/// its DATA alone is left.
fn is_read<R: Abort>(rt: &R, octets: &[u8], n: usize) -> bool {
    match n {
        40 => message(rt, octets).auth == HtcpAuth::Unsigned,
        41 => fault_of(octets) == Some(HtcpFault::Auth),
        _ => fault_of(octets) == Some(HtcpFault::Data),
    }
}

/// Whether a message that is truncated, with its length in the header set to what is left, is read as it should be.
fn are_read<R: Abort>(rt: &R, octets: &mut [u8; 42]) -> bool {
    for n in 4..42 {
        octets[1] = n as u8;
        if !is_read(rt, &octets[..n], n) {
            return false;
        }
    }
    true
}

/// A datagram truncated to n octets, with its length in the header as it was, and set to n.
#[test]
fn cut_short(rt: HostRuntime) {
    let mut octets = [0u8; 42];
    hex::decode_to_slice(TEST, &mut octets).expect(&rt, "hexadecimal");
    assert!(rt; are_faulty(&octets));
    assert!(rt; are_read(&rt, &mut octets));
}

const FAULTS: &[(&str, HtcpFault)] = &[
    ("000e0000000800020000000700", HtcpFault::Length),
    ("000e010000080002000000070002", HtcpFault::Major),
    ("000e000000070002000000070002", HtcpFault::Data),
    ("000e000000081002000000070002", HtcpFault::Text),
    ("000e000000084002000000070002", HtcpFault::Text),
    ("000e000000081001000000070002", HtcpFault::Text),
    ("000f000000080002000000070003ff", HtcpFault::Auth),
    ("000e000000080002000000070001", HtcpFault::Auth),
];

/// The octets of a row have its fault.
struct IsFaulty;

impl Question<(&'static str, HtcpFault)> for IsFaulty {
    fn holds<R: Abort>(&self, rt: &R, alloc: Global, row: &(&'static str, HtcpFault)) -> bool {
        let octets = octets_of(rt, alloc, row.0);
        let fault = fault_of(&octets);
        drop(octets);
        fault == Some(row.1)
    }
}

#[test]
fn faults(rt: HostRuntime) {
    all_hold(&rt, rt.alloc(), FAULTS, &IsFaulty);
}

/// A message without a signature, and signed as above.
type Signed = (&'static str, &'static str);

/// Each body. The codes were computed by Python's hmac.
const BODIES: &[Signed] = &[
    // a NOP request
    (
        "000e000000080002000000090002",
        "002d00000008000200000009002100000064000000a000036b65790010c5d7f42ee97b7c3720bb2567abade204",
    ),
    // a response to CLR
    (
        "000e000000084201000000090002",
        "002d00000008420100000009002100000064000000a000036b6579001022b488b6feb2985e71404a4d6d4b1b24",
    ),
    // a TST request
    (
        "002a0000002410020000000900034745540009687474703a2f2f612f0008485454502f312e3100000002",
        "00490000002410020000000900034745540009687474703a2f2f612f0008485454502f312e310000002100000064000000a000036b657900109a14fe3686e714ca37928e95b06a119d",
    ),
    // a CLR request, reason 5
    (
        "002c00000026400200000009000500034745540009687474703a2f2f612f0008485454502f312e3100000002",
        "004b00000026400200000009000500034745540009687474703a2f2f612f0008485454502f312e310000002100000064000000a000036b65790010679e296b09cec5edc925e65c29e71025",
    ),
    // a DETAIL
    (
        "002b0000002510010000000900084167653a20330d0a0000000f43616368652d566172793a20610d0a0002",
        "004a0000002510010000000900084167653a20330d0a0000000f43616368652d566172793a20610d0a002100000064000000a000036b65790010f28d0feb11240a6bf7e790f942301ef0",
    ),
    // cache headers
    (
        "00230000001d110100000009001343616368652d4c6f636174696f6e3a20620d0a0002",
        "00420000001d110100000009001343616368652d4c6f636174696f6e3a20620d0a002100000064000000a000036b6579001063720ab58dadd0d0909fd61a325b3833",
    ),
    // a MON request
    (
        "000f000000092002000000091e0002",
        "002e000000092002000000091e002100000064000000a000036b657900101c1847dc830e48a358d2571145e126fb",
    ),
    // a response with one of the protocol's own codes
    (
        "00110000000b3203000000097768790002",
        "00300000000b320300000009776879002100000064000000a000036b657900106de93a95da404b4094c3e5cd1b0dd2c4",
    ),
];

/// Whether a message is signed as these octets, at second 100 with the key named `key`, and its signature verifies.
fn is_signed<R: Abort>(rt: &R, alloc: Global, view: &HtcpView<'_>, signed: &[u8]) -> bool {
    if !view.is_writable() {
        return false;
    }
    let made = sign(alloc, view, &ENDS, b"key", b"Jefe", 100);
    let made = made.ok().expect(rt, "octets");
    let is_good = verify(&message(rt, &made), &ENDS, b"Jefe", 100) == Sign::Good;
    let is_same = made.as_slice() == signed;
    drop(made);
    is_good && is_same
}

/// Whether a message has no signature, is encoded as it was decoded, and is signed as these octets.
fn is_plain<R: Abort>(rt: &R, alloc: Global, octets: &[u8], signed: &[u8]) -> bool {
    let view = message(rt, octets);
    verify(&view, &ENDS, b"Jefe", 100) == Sign::Absent
        && is_written(rt, alloc, &view, octets)
        && is_signed(rt, alloc, &view, signed)
}

/// All of this holds of a row.
struct IsSigned;

impl Question<Signed> for IsSigned {
    fn holds<R: Abort>(&self, rt: &R, alloc: Global, row: &Signed) -> bool {
        let octets = octets_of(rt, alloc, row.0);
        let signed = octets_of(rt, alloc, row.1);
        let is_plain = is_plain(rt, alloc, &octets, &signed);
        drop(signed);
        drop(octets);
        is_plain
    }
}

#[test]
fn each_body_is_written(rt: HostRuntime) {
    all_hold(&rt, rt.alloc(), BODIES, &IsSigned);
}

#[test]
fn no_signature_is_absent(rt: HostRuntime) {
    all_hold(&rt, rt.alloc(), &[(TEST, SIGNED)], &IsSigned);
}

/// The endpoints and the second with which a message is verified, and the result.
type Verified = ([u8; 12], u32, Sign);

/// From 10.0.0.9:4827 to 10.0.0.1:4828.
const ELSEWHERE: [u8; 12] = [10, 0, 0, 9, 0x12, 0xdb, 10, 0, 0, 1, 0x12, 0xdc];

const VERIFIED: &[Verified] = &[
    (ENDS, 39, Sign::Bad),
    (ENDS, 40, Sign::Good),
    (ENDS, 159, Sign::Good),
    (ENDS, 160, Sign::Bad),
    (ELSEWHERE, 159, Sign::Bad),
];

/// The signed message is verified with its secret as in a row, and never with another.
struct IsVerified;

impl Question<Verified> for IsVerified {
    fn holds<R: Abort>(&self, rt: &R, alloc: Global, row: &Verified) -> bool {
        let octets = octets_of(rt, alloc, SIGNED);
        let view = message(rt, &octets);
        let with_secret = verify(&view, &row.0, b"Jefe", row.1);
        let with_other = verify(&view, &row.0, b"jefe", row.1);
        drop(octets);
        with_secret == row.2 && with_other == Sign::Bad
    }
}

#[test]
fn signatures(rt: HostRuntime) {
    all_hold(&rt, rt.alloc(), VERIFIED, &IsVerified);
}

/// The length of the first string of a DETAIL, whether the message can be encoded, and whether it can be signed.
type Length = (usize, bool, bool);

const LENGTHS: &[Length] = &[
    (65_458, true, true),
    (65_459, true, false),
    (65_487, true, false),
    (65_488, false, false),
    (65_535, false, false),
];

/// Why a message can't be encoded, and why it can't be signed.
type Refusals = (Option<EncodeFault>, Option<EncodeFault>);

/// The refusals of the message of these octets, with a DETAIL that has this string.
fn refusals<R: Abort>(rt: &R, alloc: Global, octets: &[u8], text: &[u8]) -> Refusals {
    let detail = Detail {
        response_headers: text,
        entity_headers: b"",
        cache_headers: b"",
    };
    let view = message(rt, octets);
    let long = HtcpView {
        body: HtcpBody::Detail(detail),
        ..view
    };
    assert!(*rt; long.is_writable(), "not writable");
    let written = encode(alloc, &long).err();
    (written, sign(alloc, &long, &ENDS, b"k", b"", 0).err())
}

/// A message with a string of a row's length can be encoded and signed as the row says.
struct FitsAs;

impl Question<Length> for FitsAs {
    fn holds<R: Abort>(&self, rt: &R, alloc: Global, row: &Length) -> bool {
        let octets = octets_of(rt, alloc, "00140000000e1001000000090000000000000002");
        let text = repeated(rt, alloc, 0, row.0);
        let refusals = refusals(rt, alloc, &octets, &text);
        drop(text);
        drop(octets);
        let too_long = EncodeFault::TooLong;
        refusals == ((!row.1).then_some(too_long), (!row.2).then_some(too_long))
    }
}

#[test]
fn too_long(rt: HostRuntime) {
    all_hold(&rt, rt.alloc(), LENGTHS, &FitsAs);
}
