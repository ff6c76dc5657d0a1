//! Parsing delta-seconds (RFC 9111, section 1.2.2).
ghost use Rattle.std.specs.Prelude.{◌≡◌, ◌≤◌, min, IfSome};
ghost use Rattle.std.specs.Char.{is_ascii_digit};
ghost use Rattle.std.specs.List.{list_all};
ghost use Rattle.http_rules.specs.Text.{seconds, unquoted};
ghost use Rattle.wire_octets.specs.Decimal.{is_numeral, value_after};

/// Upper bound for delta-seconds; larger values are capped.
pub(crate) const MOST_SECONDS: u64 = 2_147_483_648;

/// Parses a decimal number of seconds, capped at 2,147,483,648; `None` for any other text.
pub(crate) fn seconds(text: &[u8]) -> Option<u32>
    ensures value { result ≡ seconds text.now }
    ensures bound { IfSome result (λ n. n ≤ 2147483648) }
{
    if is_numeral(text) {
        Some(capped_value(text))
    } else {
        None
    }
}

/// Whether a text is one or more digits.
pub(crate) fn is_numeral(text: &[u8]) -> bool
    ensures { result ≡ is_numeral text.now }
{
    !text.is_empty() && are_digits(text)
}

// Whether all octets are digits.
fn are_digits(text: &[u8]) -> bool
    ensures { result ≡ list_all is_ascii_digit text.now }
{
    text.iter().all(|c| c.is_ascii_digit())
}

// The value of the digits, capped at `MOST_SECONDS`.
fn capped_value(digits: &[u8]) -> u32
    ensures value { result ≡ min (value_after 0 digits.now) 2147483648 }
    ensures bound { result ≤ 2147483648 }
{
    let mut n: u64 = 0;
    for c in digits {
        n = (n * 10 + u64::from(c.saturating_sub(b'0'))).min(MOST_SECONDS);
    }
    n as u32
}

/// Strips a pair of enclosing double quotes; any other text is returned as it is.
pub(crate) fn unquoted(text: &[u8]) -> &[u8]
    ensures { result.now ≡ unquoted text.now }
{
    let len = text.len();
    if 2 <= len && text[0] == b'"' && text[len - 1] == b'"' {
        &text[1..len - 1]
    } else {
        text
    }
}
