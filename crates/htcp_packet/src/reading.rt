//! Decoder.

ghost use Rattle.std.specs.Prelude.{◌≡◌, ℕ, List, Some, None, MatchResult, IfOk, IfErr, IsOkAnd};
ghost use Rattle.std.specs.Option.{option_map};
ghost use Rattle.htcp_packet.specs.Message.{Message, Spells};
ghost use Rattle.htcp_packet.specs.Fault.{IsFaultOf};
ghost use Rattle.htcp_packet.specs.Fields.{IsHeader, ReadsAs};
ghost use Rattle.htcp_packet.specs.Reading.{countstr_at, spec_at, detail_at, body_at, seal_at, auth_at, data_octets, auth_octets, message_of};
ghost use Rattle.htcp_packet.specs.View.{shown, shown_specifier, shown_detail, shown_body, shown_auth, received};

use crate::fault::HtcpFault;
use crate::message::{Detail, Form, HtcpAuth, HtcpBody, HtcpView, Specifier};
use byteorder::{BigEndian, ByteOrder};
use wire_octets::{split_u16, split_u32};

// Decodes a COUNTSTR. Returns it and the rest.
#[tactic(auto, unfolding(crate::specs::Reading::countstr_at))]
fn countstr(octets: &[u8]) -> Option<(&[u8], &[u8])>
    ensures { option_map (λ x. (x.0.now, x.1.now)) result ≡ countstr_at octets.now }
{
    let (len, rest) = split_u16(octets)?;
    let len = usize::from(len);
    if rest.len() < len {
        return None;
    }
    Some(rest.split_at(len))
}

// Decodes a SPECIFIER. Returns it and the rest.
#[tactic(auto, unfolding(crate::specs::Reading::spec_at))]
fn specifier(octets: &[u8]) -> Option<(Specifier<'_>, &[u8])>
    ensures { option_map (λ x. (shown_specifier x.0, x.1.now)) result ≡ spec_at octets.now }
{
    let (method, rest) = countstr(octets)?;
    let (uri, rest) = countstr(rest)?;
    let (version, rest) = countstr(rest)?;
    let (headers, rest) = countstr(rest)?;
    Some((
        Specifier {
            method,
            uri,
            version,
            headers,
        },
        rest,
    ))
}

// Decodes a DETAIL. Returns it and the rest.
#[tactic(auto, unfolding(crate::specs::Reading::detail_at))]
fn detail(octets: &[u8]) -> Option<(Detail<'_>, &[u8])>
    ensures { option_map (λ x. (shown_detail x.0, x.1.now)) result ≡ detail_at octets.now }
{
    let (response_headers, rest) = countstr(octets)?;
    let (entity_headers, rest) = countstr(rest)?;
    let (cache_headers, rest) = countstr(rest)?;
    Some((
        Detail {
            response_headers,
            entity_headers,
            cache_headers,
        },
        rest,
    ))
}

// Decodes OP-DATA of a given layout.
#[tactic(auto, unfolding(crate::specs::Reading::body_at))]
fn body_of(form: Form, octets: &[u8]) -> Option<HtcpBody<'_>>
    ensures { option_map shown_body result ≡ body_at form octets.now }
{
    match form {
        Form::Empty => Some(HtcpBody::Empty),
        Form::Specifier => {
            let (specifier, _) = specifier(octets)?;
            Some(HtcpBody::Specifier(specifier))
        }
        Form::Clear => {
            if octets.len() < 2 {
                return None;
            }
            let (flags, rest) = octets.split_at(2);
            let (specifier, _) = specifier(rest)?;
            Some(HtcpBody::Clear {
                reason: flags[1] % 16,
                specifier,
            })
        }
        Form::Detail => {
            let (detail, _) = detail(octets)?;
            Some(HtcpBody::Detail(detail))
        }
        Form::CacheHeaders => {
            if octets.is_empty() {
                return Some(HtcpBody::CacheHeaders(octets));
            }
            let (headers, _) = countstr(octets)?;
            Some(HtcpBody::CacheHeaders(headers))
        }
        Form::Opaque => Some(HtcpBody::Opaque(octets)),
    }
}

// Decodes the part of a signed AUTH after its length.
#[tactic(auto, unfolding(crate::specs::Reading::seal_at))]
fn seal_of(octets: &[u8]) -> Option<HtcpAuth<'_>>
    ensures { option_map shown_auth result ≡ seal_at octets.now }
{
    if octets.len() < 8 {
        return None;
    }
    let (_, rest) = octets.split_at(8);
    let (key_name, rest) = countstr(rest)?;
    let (signature, _) = countstr(rest)?;
    Some(HtcpAuth::Signed {
        time: BigEndian::read_u32(octets),
        expire: BigEndian::read_u32(&octets[4..]),
        key_name,
        signature,
    })
}

// Decodes AUTH from the octets after DATA.
#[tactic(auto, unfolding(crate::specs::Reading::auth_at))]
fn auth_of(octets: &[u8]) -> Option<HtcpAuth<'_>>
    ensures { option_map shown_auth result ≡ auth_at octets.now }
{
    if octets.is_empty() {
        return Some(HtcpAuth::Unsigned);
    }
    if octets.len() < 2 {
        return None;
    }
    let len = usize::from(BigEndian::read_u16(octets));
    if len == 2 {
        return Some(HtcpAuth::Unsigned);
    }
    if len < 2 || octets.len() < len {
        return None;
    }
    seal_of(&octets[2..len])
}

// Checks the header, and splits off DATA from the octets after it. Errors: the first fault of the header.
fn data_of(datagram: &[u8]) -> Result<(&[u8], &[u8]), HtcpFault>
    ensures { MatchResult result (λ x. IsHeader datagram.now × (x.0.now ≡ data_octets datagram.now) × (x.1.now ≡ auth_octets datagram.now)) (λ fault. IsFaultOf datagram.now fault) }
{
    if datagram.len() < 4 {
        return Err(HtcpFault::Short);
    }
    if usize::from(BigEndian::read_u16(datagram)) != datagram.len() {
        return Err(HtcpFault::Length);
    }
    if datagram[2] != 0 {
        return Err(HtcpFault::Major);
    }
    let (_, rest) = datagram.split_at(4);
    if rest.len() < 2 {
        return Err(HtcpFault::Data);
    }
    let len = usize::from(BigEndian::read_u16(rest));
    if len < 8 || rest.len() < len {
        return Err(HtcpFault::Data);
    }
    Ok(rest.split_at(len))
}

// Decodes the message field by field, or returns the first fault.
fn read(datagram: &[u8]) -> Result<HtcpView<'_>, HtcpFault>
    ensures { MatchResult result (λ view. ReadsAs datagram.now (shown view) × (view.raw.now ≡ data_octets datagram.now)) (λ fault. IsFaultOf datagram.now fault) }
{
    let (raw, authentication) = data_of(datagram)?;
    let opcode = raw[2] / 16;
    let response = raw[2] % 16;
    let f1 = raw[3] / 2 % 2 == 1;
    let rr = raw[3] % 2 == 1;
    let trans = BigEndian::read_u32(&raw[4..]);
    let (_, op_data) = raw.split_at(8);
    let Some(body) = body_of(Form::of(opcode, response, f1, rr), op_data) else {
        return Err(HtcpFault::Text);
    };
    let Some(auth) = auth_of(authentication) else {
        return Err(HtcpFault::Auth);
    };
    let minor = datagram[3];
    Ok(HtcpView {
        minor,
        opcode,
        response,
        f1,
        rr,
        trans,
        body,
        raw,
        auth,
    })
}

/// Decodes a datagram. The view borrows from it and includes DATA as received; nothing is allocated.
///
/// # Errors
/// The first fault that applies, in the order of `HtcpFault`, if the datagram is not a message.
pub fn decode(datagram: &[u8]) -> Result<HtcpView<'_>, HtcpFault>
    // Sound: the datagram encodes the returned message, with this DATA.
    ensures found { IfOk result (λ view. Spells datagram.now view.raw.now (shown view)) }
    // Complete: an encoded message is returned.
    ensures only { (raw : List ℕ) (m : Message) → Spells datagram.now raw m → IsOkAnd result (λ view. (shown view ≡ m) × (view.raw.now ≡ raw)) }
    // The returned fault is the first that applies.
    ensures fault { IfErr result (λ fault. IsFaultOf datagram.now fault) }
    // The same, in terms of the decoding function of the specification.
    ensures value { MatchResult result (λ view. message_of datagram.now ≡ Some (received view)) (λ fault. message_of datagram.now ≡ None) }
{
    read(datagram)
}
