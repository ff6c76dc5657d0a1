//! Signature verification.

ghost use Rattle.std.specs.Prelude.{◌≡◌, ◌↔◌, ◌∷◌, ◌++◌};
ghost use Rattle.byteorder.specs.Endian.{big_bytes};
ghost use Rattle.hmac_md5.specs.Hmac.{hmac};
ghost use Rattle.htcp_packet.specs.Message.{unsigned};
ghost use Rattle.htcp_packet.specs.View.{shown_auth, received};
ghost use Rattle.htcp_packet.specs.Signing.{covered, sign_of, IsGood};

use crate::message::{HtcpAuth, HtcpView};
use byteorder::{BigEndian, ByteOrder};
use hmac_md5::{mac, same};

/// Result of verifying a signature.
#[derive(Clone, Copy, PartialEq, Eq)]
pub enum Sign {
    /// The message is not signed.
    Absent,
    /// The signature matches the message, is not from the future and has not expired.
    Good,
    /// The message is signed, but not so.
    Bad,
}

// Seconds by which the time of a signature may be ahead of the clock.
const EARLY: u32 = 60;

// MAJOR (0), MINOR and both times, as signed.
fn versions_and_times(minor: u8, times: (u32, u32)) -> [u8; 10]
    ensures { result ≡ 0 ∷ minor ∷ big_bytes 4 times.0 ++ big_bytes 4 times.1 }
{
    let mut octets = [0u8; 10];
    octets[1] = minor;
    BigEndian::write_u32(&mut octets[2..6], times.0);
    BigEndian::write_u32(&mut octets[6..], times.1);
    octets
}

// The signature (HMAC-MD5) of a message with these parts.
pub(crate) fn signature_of(
    minor: u8,
    raw: &[u8],
    times: (u32, u32),
    key_name: &[u8],
    ends: &[u8; 12],
    secret: &[u8],
) -> [u8; 16]
    ensures { result ≡ hmac secret.now (covered ends.now minor times.0 times.1 raw.now key_name.now) }
{
    let between = versions_and_times(minor, times);
    let mut len = [0u8; 2];
    BigEndian::write_u16(&mut len, (key_name.len() % 65_536) as u16);
    mac_of(secret, (ends, &between), raw, (&len, key_name))
}

// HMAC of the parts. A function of its own, so that all parts have one lifetime.
fn mac_of<'a>(
    secret: &[u8],
    front: (&'a [u8], &'a [u8]),
    raw: &'a [u8],
    key_name: (&'a [u8], &'a [u8]),
) -> [u8; 16]
    ensures { result ≡ hmac secret.now (front.entry.0.now ++ (front.entry.1.now ++ (raw.now ++ (key_name.entry.0.now ++ key_name.entry.1.now)))) }
{
    let parts: [&'a [u8]; 5] = [front.0, front.1, raw, key_name.0, key_name.1];
    mac(secret, &parts)
}

/// Verifies the signature of a message with the key's secret. Allocates nothing.
///
/// `ends` are the addresses of the datagram: IPv4 address and port of the sender, then of the receiver, in network byte
/// order. `seconds` is the current time in seconds since 1970-01-01 UTC. The signature's time may be up to 60 seconds
/// ahead. The length of a key name is taken modulo 65,536; no datagram holds a longer name.
pub fn verify(view: &HtcpView<'_>, ends: &[u8; 12], secret: &[u8], seconds: u32) -> Sign
    ensures absent { (result ≡ Sign.Absent) ↔ (shown_auth view.now.auth ≡ unsigned) }
    ensures good { (result ≡ Sign.Good) ↔ IsGood (received view.now) ends.now secret.now seconds }
    // The same, in terms of the verification function of the specification.
    ensures value { result ≡ sign_of (received view.now) ends.now secret.now seconds }
{
    match view.auth {
        HtcpAuth::Unsigned => Sign::Absent,
        HtcpAuth::Signed {
            time,
            expire,
            key_name,
            signature,
        } => {
            let code = signature_of(view.minor, view.raw, (time, expire), key_name, ends, secret);
            if same(signature, &code)
                && u64::from(time) <= u64::from(seconds) + u64::from(EARLY)
                && seconds < expire
            {
                Sign::Good
            } else {
                Sign::Bad
            }
        }
    }
}
