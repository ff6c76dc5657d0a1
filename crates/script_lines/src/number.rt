//! Words that are decimal numbers, each with an upper bound.
ghost use Rattle.std.specs.Prelude.{◌≡◌, ◌≤◌, IfSome};
ghost use Rattle.script_lines.specs.Words.{number, moment, client_number, status};

use bpf_run::moment::LAST_MOMENT;
use filter_slots::Moment;

/// Parses a decimal number (digits only); `None` if the text is anything else or the number exceeds `most`.
pub(crate) fn number(text: &[u8], most: u64) -> Option<u64>
    ensures value { result ≡ number most text.now }
    ensures bound { IfSome result (λ n. n ≤ most) }
{
    if text.is_empty() {
        return None;
    }
    let mut n: u64 = 0;
    for c in text {
        if !c.is_ascii_digit() {
            return None;
        }
        n = n.checked_mul(10)?.checked_add(u64::from(*c - b'0'))?;
    }
    if n <= most { Some(n) } else { None }
}

/// Parses an 8-bit number.
pub(crate) fn octet(text: &[u8]) -> Option<u8>
    ensures { result ≡ number 255 text.now }
{
    Some(number(text, 255)? as u8)
}

/// Parses a 16-bit number.
pub(crate) fn half(text: &[u8]) -> Option<u16>
    ensures { result ≡ number 65535 text.now }
{
    Some(number(text, 65_535)? as u16)
}

/// Parses a 32-bit number.
pub(crate) fn word(text: &[u8]) -> Option<u32>
    ensures { result ≡ number 4294967295 text.now }
{
    Some(number(text, 4_294_967_295)? as u32)
}

/// Parses a moment in milliseconds, at most [`LAST_MOMENT`].
pub(crate) fn moment(text: &[u8]) -> Option<Moment>
    ensures { result ≡ moment text.now }
{
    Moment::new(number(text, LAST_MOMENT)?)
}

/// Parses a client number (64 bits).
pub(crate) fn client(text: &[u8]) -> Option<u64>
    ensures { result ≡ client_number text.now }
{
    number(text, u64::MAX)
}

/// Parses a status code, 100 to 999.
pub(crate) fn status(text: &[u8]) -> Option<u16>
    ensures { result ≡ status text.now }
{
    let code = number(text, 999)?;
    if code < 100 {
        return None;
    }
    Some(code as u16)
}
