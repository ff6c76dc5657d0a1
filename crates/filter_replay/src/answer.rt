//! Answers, and how two of them differ.

ghost use Rattle.std.specs.Prelude.{◌≡◌, ◌≤◌, drop, length};
ghost use Rattle.std.specs.List.{position};
ghost use Rattle.filter_replay.specs.Answer.{answer_of, before_zero, htcp_code, is_question, is_zero, kind_of, same_answer, url_of};

use bpf_run::Socket;
use byteorder::{BigEndian, ByteOrder};

/// What stands in the fixed places of an answer.
#[derive(Clone, Copy)]
pub struct Answer {
    /// What it says: the opcode of an ICP message; of an HTCP message the octet with opcode and response, and 256 more if the
    /// response is about the whole message (MO).
    pub code: u16,
    /// The number of the request: ICP's request number, HTCP's TRANS-ID.
    pub number: u32,
}

/// How two answers to one request differ, or which side alone has one.
#[derive(Clone, Copy, PartialEq, Eq)]
pub enum Kind {
    /// The same octets.
    Equal,
    /// The same opcode, response and URL, but other octets.
    Alike,
    /// Another opcode, response or URL.
    Other,
    /// The capture alone has it.
    CaptureAlone,
    /// The node alone sent it.
    NodeAlone,
}

/// The fewest octets that hold the fixed places of a message.
const ICP_FRONT: usize = 20;

const HTCP_FRONT: usize = 12;

/// What stands in the fixed places of a message, or `None` if it is too short to have them.
pub fn answer_of(socket: Socket, octets: &[u8]) -> Option<Answer>
    ensures { result ≡ answer_of socket octets.now }
{
    match socket {
        Socket::Icp => {
            if octets.len() < ICP_FRONT {
                return None;
            }
            Some(Answer {
                code: u16::from(octets[0]),
                number: BigEndian::read_u32(&octets[4..]),
            })
        }
        Socket::Htcp => {
            if octets.len() < HTCP_FRONT {
                return None;
            }
            Some(Answer {
                code: htcp_code(octets),
                number: BigEndian::read_u32(&octets[8..]),
            })
        }
    }
}

// The opcode and the response of an HTCP message, and whether the response is about the whole message.
fn htcp_code(octets: &[u8]) -> u16
    requires { 12 ≤ length octets.now }
    ensures { result ≡ htcp_code octets.now }
{
    let whole = u16::from(octets[7] / 2 % 2);
    u16::from(octets[6]) + 256 * whole
}

/// Whether a message of the cache asks another one, and does not answer.
pub fn is_question(socket: Socket, octets: &[u8]) -> bool
    ensures { result ≡ is_question socket octets.now }
{
    match socket {
        Socket::Icp => !octets.is_empty() && matches!(octets[0], 1 | 10 | 11),
        Socket::Htcp => octets.len() >= 8 && octets[7] % 2 == 0,
    }
}

/// How the captured answer to a request differs from the node's.
pub fn kind_of(socket: Socket, node: &[u8], captured: &[u8]) -> Kind
    ensures { result ≡ kind_of socket node.now captured.now }
{
    if node == captured {
        return Kind::Equal;
    }
    if !same_answer(answer_of(socket, node), answer_of(socket, captured)) {
        return Kind::Other;
    }
    if url_of(socket, node) == url_of(socket, captured) {
        Kind::Alike
    } else {
        Kind::Other
    }
}

// Whether two answers say the same to the same request.
fn same_answer(first: Option<Answer>, other: Option<Answer>) -> bool
    ensures { result ≡ same_answer first other }
{
    match (first, other) {
        (Some(first), Some(other)) => first.code == other.code && first.number == other.number,
        (None, None) => true,
        _ => false,
    }
}

// The URL in an answer, or nothing where it has none.
fn url_of(socket: Socket, octets: &[u8]) -> &[u8]
    ensures { result.now ≡ url_of socket octets.now }
{
    match socket {
        Socket::Icp => before_zero(behind_front(octets)),
        Socket::Htcp => &octets[..0],
    }
}

// What follows the fixed places of an ICP message.
fn behind_front(octets: &[u8]) -> &[u8]
    ensures { result.now ≡ drop 20 octets.now }
{
    if octets.len() < ICP_FRONT {
        &octets[..0]
    } else {
        &octets[ICP_FRONT..]
    }
}

// The octets in front of the first zero, or all.
fn before_zero(octets: &[u8]) -> &[u8]
    ensures { result.now ≡ before_zero octets.now }
{
    match zero_in(octets) {
        Some(at) => &octets[..at],
        None => octets,
    }
}

// The place of the first zero.
fn zero_in(octets: &[u8]) -> Option<usize>
    ensures { result ≡ position is_zero octets.now }
{
    octets.iter().position(|octet| *octet == 0)
}
