//! Encoder.

ghost use Rattle.std.specs.Prelude.{◌≡◌, ◌+◌, ◌-◌, ◌^◌, ◌<◌, ◌≤◌, ◌∷◌, ◌++◌, ◌↔◌, [], length, min, OnOk, IfOk};
ghost use Rattle.byteorder.specs.Endian.{big_bytes};
ghost use Rattle.htcp_packet.specs.Message.{countstr, spec_text, detail_text, Spells};
ghost use Rattle.htcp_packet.specs.Writing.{body_text, data_text, message_text, most_octets, without_auth, IsWritable};
ghost use Rattle.htcp_packet.specs.View.{shown, shown_body, shown_detail, shown_specifier};

use crate::message::{Detail, HtcpBody, HtcpView, Specifier};
use std::alloc::{AllocError, Global};
use wire_octets::{EncodeFault, put_u16, put_u32};

// Maximum payload of a UDP datagram over IPv4, in octets.
pub(crate) const MAX_LEN: usize = 65_507;

// Octets before OP-DATA: LENGTH, MAJOR, MINOR, the LENGTH of DATA, opcode and response, flags, TRANS-ID.
pub(crate) const FRONT_LEN: usize = 12;

// Length of the AUTH of an unsigned message, which is its LENGTH field alone.
const UNSIGNED_LEN: usize = 2;

// Appends a COUNTSTR: a two-octet length, then the text.
pub(crate) fn put_countstr(out: &mut Vec<u8>, text: &[u8]) -> Result<(), AllocError>
    requires { length text.now < 65536 }
    ensures { OnOk result (out.new.items ≡ out.old.items ++ countstr text.now) }
{
    put_u16(out, text.len() as u16)?;
    out.extend_from_slice(text)?;
    Ok(())
}

fn put_specifier(out: &mut Vec<u8>, s: &Specifier<'_>) -> Result<(), AllocError>
    requires { length (spec_text (shown_specifier s.now)) < 65536 }
    ensures { OnOk result (out.new.items ≡ out.old.items ++ spec_text (shown_specifier s.now)) }
{
    put_countstr(out, s.method)?;
    put_countstr(out, s.uri)?;
    put_countstr(out, s.version)?;
    put_countstr(out, s.headers)?;
    Ok(())
}

fn put_detail(out: &mut Vec<u8>, d: &Detail<'_>) -> Result<(), AllocError>
    requires { length (detail_text (shown_detail d.now)) < 65536 }
    ensures { OnOk result (out.new.items ≡ out.old.items ++ detail_text (shown_detail d.now)) }
{
    put_countstr(out, d.response_headers)?;
    put_countstr(out, d.entity_headers)?;
    put_countstr(out, d.cache_headers)?;
    Ok(())
}

// Appends OP-DATA.
fn put_body(out: &mut Vec<u8>, body: &HtcpBody<'_>) -> Result<(), AllocError>
    requires { length (body_text (shown_body body.now)) < 65536 }
    ensures { OnOk result (out.new.items ≡ out.old.items ++ body_text (shown_body body.now)) }
{
    match body {
        HtcpBody::Empty => Ok(()),
        HtcpBody::Specifier(specifier) => put_specifier(out, specifier),
        HtcpBody::Clear { reason, specifier } => {
            put_u16(out, u16::from(*reason))?;
            put_specifier(out, specifier)?;
            Ok(())
        }
        HtcpBody::Detail(detail) => put_detail(out, detail),
        HtcpBody::CacheHeaders(headers) => put_countstr(out, headers),
        HtcpBody::Opaque(octets) => out.extend_from_slice(octets),
    }
}

fn specifier_len(s: &Specifier<'_>) -> usize
    ensures { result ≡ min (length (spec_text (shown_specifier s.now))) (2 ^ 64 - 1) }
{
    (s.method.len() + 8)
        .saturating_add(s.uri.len())
        .saturating_add(s.version.len())
        .saturating_add(s.headers.len())
}

fn detail_len(d: &Detail<'_>) -> usize
    ensures { result ≡ min (length (detail_text (shown_detail d.now))) (2 ^ 64 - 1) }
{
    (d.response_headers.len() + 6)
        .saturating_add(d.entity_headers.len())
        .saturating_add(d.cache_headers.len())
}

// Length of OP-DATA, saturating at the maximum of `usize`.
pub(crate) fn body_len(body: &HtcpBody<'_>) -> usize
    ensures { result ≡ min (length (body_text (shown_body body.now))) (2 ^ 64 - 1) }
{
    match body {
        HtcpBody::Empty => 0,
        HtcpBody::Specifier(specifier) => specifier_len(specifier),
        HtcpBody::Clear {
            reason: _,
            specifier,
        } => specifier_len(specifier).saturating_add(2),
        HtcpBody::Detail(detail) => detail_len(detail),
        HtcpBody::CacheHeaders(headers) => headers.len() + 2,
        HtcpBody::Opaque(octets) => octets.len(),
    }
}

// Appends DATA.
fn put_data(out: &mut Vec<u8>, view: &HtcpView<'_>, body_len: usize) -> Result<(), AllocError>
    requires len { body_len ≡ length (body_text (shown_body view.now.body)) }
    requires within { body_len ≤ 65493 }
    requires opcode { view.now.opcode < 16 }
    requires response { view.now.response < 16 }
    ensures { OnOk result (out.new.items ≡ out.old.items ++ data_text (shown view.now)) }
{
    put_u16(out, (body_len + 8) as u16)?;
    out.push(16 * view.opcode + view.response)?;
    out.push(2 * u8::from(view.f1) + u8::from(view.rr))?;
    put_u32(out, view.trans)?;
    put_body(out, &view.body)?;
    Ok(())
}

// Encodes the message up to AUTH, with capacity for an AUTH of `auth_len` octets.
pub(crate) fn front(
    alloc: Global,
    view: &HtcpView<'_>,
    body_len: usize,
    auth_len: usize,
) -> Result<Vec<u8>, AllocError>
    requires len { body_len ≡ length (body_text (shown_body view.now.body)) }
    requires within { body_len + auth_len ≤ 65495 }
    requires auth_in { 2 ≤ auth_len }
    requires opcode { view.now.opcode < 16 }
    requires response { view.now.response < 16 }
    ensures { IfOk result (λ out. out.items ≡ big_bytes 2 (body_len + 12 + auth_len) ++ (0 ∷ view.now.minor ∷ data_text (shown view.now))) }
{
    let len = FRONT_LEN + body_len + auth_len;
    let mut out = Vec::with_capacity(alloc, len)?;
    put_u16(&mut out, len as u16)?;
    out.push(0)?;
    out.push(view.minor)?;
    put_data(&mut out, view, body_len)?;
    Ok(out)
}

fn unsigned(alloc: Global, view: &HtcpView<'_>, body_len: usize) -> Result<Vec<u8>, AllocError>
    requires len { body_len ≡ length (body_text (shown_body view.now.body)) }
    requires within { body_len ≤ 65493 }
    requires opcode { view.now.opcode < 16 }
    requires response { view.now.response < 16 }
    ensures { IfOk result (λ out. out.items ≡ message_text (without_auth (shown view.now))) }
{
    let mut out = front(alloc, view, body_len, UNSIGNED_LEN)?;
    put_u16(&mut out, 2)?;
    Ok(out)
}

/// Encodes a message without a signature. Ignores `view.raw` and `view.auth`. Requires what `HtcpView::is_writable` tests.
///
/// # Errors
/// `TooLong` exactly if the message would exceed 65,507 octets; `NoMemory` if an allocation fails.
pub fn encode(alloc: Global, view: &HtcpView<'_>) -> Result<Vec<u8>, EncodeFault>
    requires { IsWritable (shown view.now) }
    ensures written { IfOk result (λ out. out.items ≡ message_text (without_auth (shown view.now))) }
    ensures spelled { IfOk result (λ out. Spells out.items (data_text (shown view.now)) (without_auth (shown view.now))) }
    ensures too_long { (result ≡ Err EncodeFault.TooLong) ↔ (most_octets < length (message_text (without_auth (shown view.now)))) }
{
    view.is_in_range();
    let body_len = body_len(&view.body);
    if body_len > MAX_LEN - FRONT_LEN - UNSIGNED_LEN {
        return Err(EncodeFault::TooLong);
    }
    Ok(unsigned(alloc, view, body_len)?)
}
