//! Signing.

ghost use Rattle.std.specs.Prelude.{◌≡◌, ◌↔◌, ◌+◌, ◌<◌, ◌≤◌, ◌++◌, length, ℕ, List, OnOk, IfOk};
ghost use Rattle.htcp_packet.specs.Message.{Message, signed, Spells};
ghost use Rattle.htcp_packet.specs.View.{shown, shown_body};
ghost use Rattle.htcp_packet.specs.Writing.{auth_text, body_text, data_text, message_text, most_octets, IsWritable};
ghost use Rattle.htcp_packet.specs.Signing.{sealed, IsGood};

use crate::message::HtcpView;
use crate::verifying::signature_of;
use crate::writing::{FRONT_LEN, MAX_LEN, body_len, front, put_countstr};
use std::alloc::{AllocError, Global};
use wire_octets::{EncodeFault, put_u16, put_u32};

// Lifetime of a signature in seconds.
const LIFE: u32 = 60;

// Length of a signed AUTH without the key name: three lengths, two times and a signature of 16 octets.
const SEAL_LEN: usize = 30;

// Appends a signed AUTH.
fn put_seal(
    out: &mut Vec<u8>,
    times: (u32, u32),
    name: &[u8],
    code: [u8; 16],
) -> Result<(), AllocError>
    requires { length name.now ≤ 65505 }
    ensures { OnOk result (out.new.items ≡ out.old.items ++ auth_text (signed (record { time = times.0; expire = times.1; key_name = name.now; signature = code }))) }
{
    put_u16(out, (SEAL_LEN + name.len()) as u16)?;
    put_u32(out, times.0)?;
    put_u32(out, times.1)?;
    put_countstr(out, name)?;
    put_countstr(out, &code)?;
    Ok(())
}

// Encodes and signs a message that fits a datagram.
fn signed_message(
    alloc: Global,
    view: &HtcpView<'_>,
    body_len: usize,
    ends: &[u8; 12],
    name: &[u8],
    secret: &[u8],
    seconds: u32,
) -> Result<Vec<u8>, AllocError>
    requires len { body_len ≡ length (body_text (shown_body view.now.body)) }
    requires within { body_len + length name.now ≤ 65465 }
    requires opcode { view.now.opcode < 16 }
    requires response { view.now.response < 16 }
    ensures { IfOk result (λ out. out.items ≡ message_text (sealed (shown view.now) ends.now name.now secret.now seconds)) }
{
    let expire = seconds.saturating_add(LIFE);
    let mut out = front(alloc, view, body_len, SEAL_LEN + name.len())?;
    let (_, raw) = out.split_at(4);
    let code = signature_of(view.minor, raw, (seconds, expire), name, ends, secret);
    put_seal(&mut out, (seconds, expire), name, code)?;
    Ok(out)
}

/// Encodes a message and signs it with the key of this name and secret. Ignores `view.raw` and `view.auth`.
///
/// The signature's time is `seconds`; it expires 60 seconds later, or at 4,294,967,295 if that is earlier. `ends` and
/// `seconds` are as in `verify`. Requires what `HtcpView::is_writable` tests.
///
/// # Errors
/// `TooLong` exactly if the message would exceed 65,507 octets; `NoMemory` if an allocation fails.
pub fn sign(
    alloc: Global,
    view: &HtcpView<'_>,
    ends: &[u8; 12],
    name: &[u8],
    secret: &[u8],
    seconds: u32,
) -> Result<Vec<u8>, EncodeFault>
    requires { IsWritable (shown view.now) }
    ensures written { IfOk result (λ out. out.items ≡ message_text (sealed (shown view.now) ends.now name.now secret.now seconds)) }
    ensures spelled { IfOk result (λ out. Spells out.items (data_text (shown view.now)) (sealed (shown view.now) ends.now name.now secret.now seconds)) }
    ensures too_long { (result ≡ Err EncodeFault.TooLong) ↔ (most_octets < length (message_text (sealed (shown view.now) ends.now name.now secret.now seconds))) }
    // The signature verifies as good at the second of signing, except at the last second.
    ensures good { IfOk result (λ out. (raw : List ℕ) (m : Message) → Spells out.items raw m → (IsGood (record { message = m; raw = raw }) ends.now secret.now seconds ↔ (seconds < 4294967295))) }
{
    view.is_in_range();
    let body_len = body_len(&view.body);
    if body_len.saturating_add(name.len()) > MAX_LEN - FRONT_LEN - SEAL_LEN {
        return Err(EncodeFault::TooLong);
    }
    Ok(signed_message(alloc, view, body_len, ends, name, secret, seconds)?)
}
