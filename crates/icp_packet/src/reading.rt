//! Decoder.

ghost use Rattle.std.specs.Prelude.{◌≡◌, [], ◌<◌, ◌≤◌, ◌∷◌, ◌++◌, length, drop, take, slice_index, MatchOption, MatchResult, IfOk, IfErr, IsOkAnd};
ghost use Rattle.byteorder.specs.Endian.{big_bytes};
ghost use Rattle.icp_packet.specs.Message.{FitsOpcode, HasNoZero, Message, Spells, payload};
ghost use Rattle.icp_packet.specs.Fault.{IsFaultOf, IsNotEnded, IsWrongSize};
ghost use Rattle.icp_packet.specs.Parts.{HasBodyFault, IsHeader};
ghost use Rattle.icp_packet.specs.Reading.{message_of};
ghost use Rattle.icp_packet.specs.View.{shown, shown_body};

use crate::fault::IcpFault;
use crate::message::{IcpBody, IcpView, Opcode};
use byteorder::{BigEndian, ByteOrder};
use memchr::memchr;
use wire_octets::split_u16;

/// Header length in octets.
pub(crate) const HEADER_LEN: usize = 20;

/// Maximum message length in octets.
pub(crate) const MAX_LEN: usize = 16_384;

/// Protocol version, the second octet of a message.
pub(crate) const VERSION: u8 = 2;

// Splits at the first zero octet, which belongs to neither part. Errors: `Url` if there is none.
#[inline]
fn split_url(text: &[u8]) -> Result<(&[u8], &[u8]), IcpFault>
    ensures { MatchResult result (λ x. HasNoZero x.0.now × (text.now ≡ x.0.now ++ 0 ∷ x.1.now)) (λ fault. (fault ≡ IcpFault.Url) × HasNoZero text.now) }
{
    let end = memchr(0, text).ok_or(IcpFault::Url)?;
    Ok((&text[..end], &text[end + 1..]))
}

// The URL in a payload part whose only zero octet is the last. Errors: `Url` otherwise.
#[inline]
fn url_of(text: &[u8]) -> Result<&[u8], IcpFault>
    ensures { MatchResult result (λ url. HasNoZero url.now × (text.now ≡ url.now ++ 0 ∷ [])) (λ fault. (fault ≡ IcpFault.Url) × IsNotEnded text.now) }
{
    let (url, rest) = split_url(text)?;
    if !rest.is_empty() {
        return Err(IcpFault::Url);
    }
    Ok(url)
}

// The object after its two-octet size, which must be the number of remaining octets. Errors: `Object` otherwise.
#[inline]
fn object_of(rest: &[u8]) -> Result<&[u8], IcpFault>
    ensures { MatchResult result (λ object. rest.now ≡ big_bytes 2 (length object.now) ++ object.now) (λ fault. (fault ≡ IcpFault.Object) × IsWrongSize rest.now) }
{
    let Some((size, object)) = split_u16(rest) else {
        return Err(IcpFault::Object);
    };
    if size as usize != object.len() {
        return Err(IcpFault::Object);
    }
    Ok(object)
}

// Decodes the payload of a message with this opcode.
fn body_of(op: Opcode, octets: &[u8]) -> Result<IcpBody<'_>, IcpFault>
    ensures { MatchResult result (λ body. FitsOpcode op (shown_body body) × (octets.now ≡ payload (shown_body body))) (λ fault. HasBodyFault fault op octets.now) }
{
    match op {
        Opcode::Query => {
            if octets.len() < 4 {
                return Err(IcpFault::Url);
            }
            let requester = [octets[0], octets[1], octets[2], octets[3]];
            let url = url_of(&octets[4..])?;
            Ok(IcpBody::Query { requester, url })
        }
        Opcode::HitObject => {
            let (url, rest) = split_url(octets)?;
            let object = object_of(rest)?;
            Ok(IcpBody::Object { url, object })
        }
        _ => Ok(IcpBody::Url(url_of(octets)?)),
    }
}

// Checks the header fields that can be at fault, and returns the opcode.
#[inline]
fn opcode_of(datagram: &[u8]) -> Result<Opcode, IcpFault>
    ensures { MatchResult result (λ op. IsHeader datagram.now op) (λ fault. IsFaultOf datagram.now fault) }
{
    if datagram.len() < HEADER_LEN {
        return Err(IcpFault::Short);
    }
    if datagram[1] != VERSION {
        return Err(IcpFault::Version);
    }
    let op = Opcode::from_code(datagram[0]).ok_or(IcpFault::Opcode)?;
    if BigEndian::read_u16(&datagram[2..]) as usize != datagram.len() || datagram.len() > MAX_LEN {
        return Err(IcpFault::Length);
    }
    Ok(op)
}

// Decodes the message, or returns the first fault.
#[inline]
fn read(datagram: &[u8]) -> Result<IcpView<'_>, IcpFault>
    ensures { MatchResult result (λ view. Spells datagram.now (shown view)) (λ fault. IsFaultOf datagram.now fault) }
{
    let op = opcode_of(datagram)?;
    let body = body_of(op, &datagram[HEADER_LEN..])?;
    Ok(IcpView {
        op,
        number: BigEndian::read_u32(&datagram[4..]),
        options: BigEndian::read_u32(&datagram[8..]),
        option_data: BigEndian::read_u32(&datagram[12..]),
        sender: [datagram[16], datagram[17], datagram[18], datagram[19]],
        body,
    })
}

/// Decodes a datagram. The view borrows from it; nothing is allocated.
///
/// # Errors
/// The first fault that applies, in the order of `IcpFault`, if the datagram is not a message.
pub fn decode(datagram: &[u8]) -> Result<IcpView<'_>, IcpFault>
    // Sound: the datagram encodes the returned message.
    ensures found { IfOk result (λ view. Spells datagram.now (shown view)) }
    // Complete: an encoded message is returned.
    ensures only { (m : Message) → Spells datagram.now m → IsOkAnd result (λ view. shown view ≡ m) }
    // The returned fault is the first that applies.
    ensures fault { IfErr result (λ fault. IsFaultOf datagram.now fault) }
    // The same, in terms of the decoding function of the specification.
    ensures reading { MatchResult result (λ view. message_of datagram.now ≡ Some (shown view)) (λ _. message_of datagram.now ≡ None) }
{
    read(datagram)
}
