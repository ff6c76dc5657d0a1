//! Encoder.

ghost use Rattle.std.specs.Prelude.{◌≡◌, ◌+◌, ◌-◌, ◌^◌, ◌<◌, ◌≤◌, ◌++◌, ◌↔◌, length, min, OnOk, IfOk};
ghost use Rattle.icp_packet.specs.Message.{FitsOpcode, Spells, header, payload, query, spelling};
ghost use Rattle.icp_packet.specs.View.{shown, shown_body};

use crate::message::{IcpBody, IcpView};
use crate::reading::{HEADER_LEN, MAX_LEN, VERSION};
use byteorder::{BigEndian, ByteOrder};
use std::alloc::{AllocError, Global};
use wire_octets::{EncodeFault, put_u16};

// The header of a message of `len` octets.
#[inline]
fn header_of(view: &IcpView<'_>, len: u16) -> [u8; HEADER_LEN]
    ensures { result ≡ header (shown view.now) len }
{
    let mut octets = [0; HEADER_LEN];
    octets[0] = view.op.code();
    octets[1] = VERSION;
    BigEndian::write_u16(&mut octets[2..], len);
    BigEndian::write_u32(&mut octets[4..], view.number);
    BigEndian::write_u32(&mut octets[8..], view.options);
    BigEndian::write_u32(&mut octets[12..], view.option_data);
    octets[16..].copy_from_slice(&view.sender);
    octets
}

// Appends the payload.
#[inline]
fn put_payload(out: &mut Vec<u8>, body: &IcpBody<'_>) -> Result<(), AllocError>
    requires { length (payload (shown_body body.now)) < 65536 }
    ensures { OnOk result (out.new.items ≡ out.old.items ++ payload (shown_body body.now)) }
{
    match body {
        IcpBody::Query { requester, url } => {
            out.extend_from_slice(requester)?;
            out.extend_from_slice(url)?;
            out.push(0)?;
        }
        IcpBody::Url(url) => {
            out.extend_from_slice(url)?;
            out.push(0)?;
        }
        IcpBody::Object { url, object } => {
            out.extend_from_slice(url)?;
            out.push(0)?;
            put_u16(out, object.len() as u16)?;
            out.extend_from_slice(object)?;
        }
    }
    Ok(())
}

// Length of the payload of a query.
fn query_len(requester: [u8; 4], url: &[u8]) -> usize
    ensures { result ≡ length (payload (query requester url.now)) }
{
    requester.len() + url.len() + 1
}

// Length of the payload, saturating at the maximum of `usize`.
#[inline]
fn payload_len(body: &IcpBody<'_>) -> usize
    ensures { result ≡ min (length (payload (shown_body body.now))) (2 ^ 64 - 1) }
{
    match body {
        IcpBody::Query { requester, url } => query_len(*requester, url),
        IcpBody::Url(url) => url.len() + 1,
        IcpBody::Object { url, object } => (url.len() + 3).saturating_add(object.len()),
    }
}

// Encodes a message that fits the maximum length, into a buffer of exactly its length.
fn written(alloc: Global, view: &IcpView<'_>, payload_len: usize) -> Result<Vec<u8>, AllocError>
    requires len { payload_len ≡ length (payload (shown_body view.now.body)) }
    requires within { 20 + payload_len ≤ 16384 }
    ensures { IfOk result (λ out. out.items ≡ spelling (shown view.now)) }
{
    let len = HEADER_LEN + payload_len;
    let mut out = Vec::with_capacity(alloc, len)?;
    out.extend_from_slice(&header_of(view, len as u16))?;
    put_payload(&mut out, &view.body)?;
    Ok(out)
}

// Publishes the ranges of the fields, which follow from their types, for use in proofs.
#[inline]
fn is_in_range(view: &IcpView<'_>)
    ensures number { view.now.number < 2 ^ 32 }
    ensures options { view.now.options < 2 ^ 32 }
    ensures option_data { view.now.option_data < 2 ^ 32 }
    ensures sender { length view.now.sender ≡ 4 }
{
    let _number = view.number;
    let _options = view.options;
    let _option_data = view.option_data;
    let _sender = view.sender;
}

/// Encodes a message. Requires that the body matches the opcode and that its URL contains no zero octet. Allocates once,
/// exactly the length of the message.
///
/// # Errors
/// `TooLong` exactly if the encoding would exceed 16,384 octets; `NoMemory` if the allocation fails.
pub fn encode(alloc: Global, view: &IcpView<'_>) -> Result<Vec<u8>, EncodeFault>
    requires { FitsOpcode view.now.op (shown_body view.now.body) }
    // The result is the encoding of the message.
    ensures spelled { IfOk result (λ out. Spells out.items (shown view.now)) }
    ensures octets { IfOk result (λ out. out.items ≡ spelling (shown view.now)) }
    ensures too_long { (result ≡ Err EncodeFault.TooLong) ↔ (16384 < length (spelling (shown view.now))) }
{
    is_in_range(view);
    let len = payload_len(&view.body);
    if len > MAX_LEN - HEADER_LEN {
        return Err(EncodeFault::TooLong);
    }
    Ok(written(alloc, view, len)?)
}
