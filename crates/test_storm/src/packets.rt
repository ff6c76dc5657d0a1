//! Random datagrams: messages of both protocols, intact and corrupted.
use crate::draws::Draws;
use filter_slots::{Datagram, End, Socket, both_ends};
use htcp_packet::{Detail, Form, HtcpAuth, HtcpBody, HtcpView, Specifier, encode, sign};
use std::alloc::{AllocError, Global};

/// The node's own addresses.
pub const ICP: End = End {
    addr: [10, 0, 0, 1],
    port: 3130,
};

pub const HTCP: End = End {
    addr: [10, 0, 0, 1],
    port: 4827,
};

/// Name and secret of the signing key.
pub const KEY: &[u8] = b"group";

pub const SECRET: &[u8] = b"a secret";

/// Maximum payload of a datagram in octets.
const MOST: usize = 65_507;

/// The sender of a datagram: a neighbour, or a stranger from an allowed or a forbidden network.
fn sender(draws: &mut Draws, socket: Socket) -> End {
    let port = match socket {
        Socket::Icp => 3130,
        Socket::Htcp => 4827,
    };
    let addr = match draws.below(8) {
        0 => [10, 0, 0, 2],
        1 => [10, 0, 0, 3],
        2 => [10, 0, 0, 4],
        3 => [10, 0, 0, 5],
        4 => [10, 0, 0, 2],
        5 => [10, 0, 0, 4],
        6 => [10, 0, 0, 9],
        _ => [192, 0, 2, 7],
    };
    End { addr, port }
}

/// A query: its number, and the last octet of its key.
#[derive(Clone, Copy)]
pub struct Query {
    pub number: u32,
    pub letter: u8,
}

/// Reads the query in a datagram, or returns `None` if it is not one.
pub fn query_of(socket: Socket, octets: &[u8]) -> Option<Query> {
    match (socket, octets) {
        (Socket::Icp, [1, _, _, _, a, b, c, d, .., letter, 0]) => Some(Query {
            number: u32::from_be_bytes([*a, *b, *c, *d]),
            letter: *letter,
        }),
        (Socket::Htcp, [_, _, _, _, _, _, 0x10, 2, a, b, c, d, ..]) => Some(Query {
            number: u32::from_be_bytes([*a, *b, *c, *d]),
            letter: b'!',
        }),
        _ => None,
    }
}

/// The octets of a key with this last octet, occasionally with an invalid scheme.
pub fn key(alloc: Global, draws: &mut Draws, letter: u8) -> Result<Vec<u8>, AllocError> {
    let front: &[u8] = match draws.below(40) {
        0 => b"http:/",
        1 => b"ftp://a/",
        _ => b"http://a/",
    };
    let mut octets = front.to_vec(alloc)?;
    octets.push(letter)?;
    Ok(octets)
}

const ICP_CODES: [u8; 14] = [1, 1, 1, 1, 1, 2, 3, 3, 4, 10, 11, 21, 22, 23];

/// Parts of a message, one behind the other.
fn joined(alloc: Global, parts: &[&[u8]]) -> Result<Vec<u8>, AllocError> {
    let mut octets = Vec::new(alloc);
    for part in parts {
        octets.extend_from_slice(*part)?;
    }
    Ok(octets)
}

/// What stands behind the header of an ICP message with this code.
fn behind_header(alloc: Global, code: u8, key: &[u8]) -> Result<Vec<u8>, AllocError> {
    let front: &[u8] = if code == 1 { &[0; 4] } else { &[] };
    let back: &[u8] = if code == 23 { &[0, 2, b'h', b'i'] } else { &[] };
    joined(alloc, &[front, key, &[0], back])
}

/// An ICP message with this behind its header.
fn icp_with(
    alloc: Global,
    start: [u8; 2],
    number: u32,
    behind: &[u8],
) -> Result<Vec<u8>, AllocError> {
    let length = u16::try_from(behind.len()).unwrap_or(0).saturating_add(20);
    let length = length.to_be_bytes();
    let number = number.to_be_bytes();
    joined(alloc, &[&start, &length, &number, &[0; 12], behind])
}

/// An ICP message.
fn icp(alloc: Global, draws: &mut Draws, query: Query) -> Result<Vec<u8>, AllocError> {
    let code = draws.of(&ICP_CODES, 1);
    let key = key(alloc, draws, query.letter)?;
    let behind = behind_header(alloc, code, key.as_slice());
    drop(key);
    let behind = behind?;
    let version = if draws.one_in(60) { 3 } else { 2 };
    let octets = icp_with(alloc, [code, version], query.number, behind.as_slice());
    drop(behind);
    octets
}

/// A body of this layout, with a key.
fn body_of(form: Form, key: &[u8]) -> HtcpBody<'_> {
    let specifier = Specifier {
        method: b"GET",
        uri: key,
        version: b"HTTP/1.1",
        headers: b"",
    };
    match form {
        Form::Empty => HtcpBody::Empty,
        Form::Specifier => HtcpBody::Specifier(specifier),
        Form::Clear => HtcpBody::Clear {
            reason: 0,
            specifier,
        },
        Form::Detail => HtcpBody::Detail(Detail {
            response_headers: b"",
            entity_headers: b"",
            cache_headers: b"",
        }),
        Form::CacheHeaders => HtcpBody::CacheHeaders(b""),
        Form::Opaque => HtcpBody::Opaque(b"xyz"),
    }
}

const OPCODES: [u8; 8] = [0, 1, 1, 1, 1, 2, 3, 4];

/// A random HTCP message for this key, without a signature.
fn view_of<'a>(draws: &mut Draws, number: u32, key: &'a [u8]) -> HtcpView<'a> {
    let opcode = draws.of(&OPCODES, 0);
    let rr = draws.one_in(2);
    let f1 = if rr {
        draws.one_in(6)
    } else {
        !draws.one_in(6)
    };
    let response = if rr { draws.octet_below(3) } else { 0 };
    HtcpView {
        minor: 0,
        opcode,
        response,
        f1,
        rr,
        trans: number,
        body: body_of(Form::of(opcode, response, f1, rr), key),
        raw: b"",
        auth: HtcpAuth::Unsigned,
    }
}

/// The name and the secret of a signature: those of the key, or others.
fn signature(draws: &mut Draws) -> (&'static [u8], &'static [u8]) {
    let name = if draws.one_in(12) {
        b"other".as_slice()
    } else {
        KEY
    };
    let secret = if draws.one_in(6) {
        b"wrong".as_slice()
    } else {
        SECRET
    };
    (name, secret)
}

/// The octets of a message, unsigned or signed, now or earlier. `None` if it cannot be written.
fn written(
    alloc: Global,
    draws: &mut Draws,
    view: &HtcpView<'_>,
    from: End,
    seconds: u32,
) -> Option<Vec<u8>> {
    if !view.is_writable() {
        return None;
    }
    if draws.one_in(2) {
        return encode(alloc, view).ok();
    }
    let (name, secret) = signature(draws);
    let then = seconds.saturating_sub(draws.of(&[0, 0, 0, 0, 5, 59, 60, 1_000], 0));
    sign(alloc, view, &both_ends(from, HTCP), name, secret, then).ok()
}

/// An HTCP message: unsigned, or signed with the right or a wrong key, now or earlier.
fn htcp(
    alloc: Global,
    draws: &mut Draws,
    query: Query,
    from: End,
    seconds: u32,
) -> Result<Option<Vec<u8>>, AllocError> {
    let key = key(alloc, draws, query.letter)?;
    let view = view_of(draws, query.number, key.as_slice());
    let octets = written(alloc, draws, &view, from, seconds);
    drop(key);
    Ok(octets)
}

const BITS: [u8; 8] = [1, 2, 4, 8, 16, 32, 64, 128];

/// Corrupts a message at random: leaves it intact, truncates it, flips a bit, appends an octet or replaces it.
fn spoilt(alloc: Global, draws: &mut Draws, mut octets: Vec<u8>) -> Result<Vec<u8>, AllocError> {
    let place = draws.place(octets.len());
    match draws.below(24) {
        0 => octets.truncate(place),
        1 | 2 => {
            if let Some(octet) = octets.get_mut(place) {
                *octet = *octet ^ draws.of(&BITS, 1);
            }
        }
        3 => octets.push(draws.octet())?,
        4 => return some_octets(alloc, draws),
        _ => {}
    }
    Ok(octets)
}

/// Random octets, rarely as many as fit a datagram.
fn some_octets(alloc: Global, draws: &mut Draws) -> Result<Vec<u8>, AllocError> {
    if draws.one_in(4_000) {
        return vec![in alloc; draws.octet(); MOST];
    }
    let mut octets = Vec::new(alloc);
    for _ in 0..draws.below(70) {
        octets.push(draws.octet())?;
    }
    Ok(octets)
}

/// A datagram that uses the number and key of this query, received at this second.
pub fn datagram(
    alloc: Global,
    draws: &mut Draws,
    query: Query,
    seconds: u32,
) -> Result<Option<Datagram>, AllocError> {
    let (socket, to) = if draws.one_in(2) {
        (Socket::Icp, ICP)
    } else {
        (Socket::Htcp, HTCP)
    };
    let from = sender(draws, socket);
    let octets = match socket {
        Socket::Icp => Some(icp(alloc, draws, query)?),
        Socket::Htcp => htcp(alloc, draws, query, from, seconds)?,
    };
    let Some(octets) = octets else {
        return Ok(None);
    };
    let octets = spoilt(alloc, draws, octets)?;
    Ok(Datagram::new(socket, from, to, octets).ok())
}
