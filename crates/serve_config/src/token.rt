//! Tokens for the scheme Bearer.
ghost use Rattle.std.specs.Prelude.{◌≡◌, ◌≤◌, ◌==◌, length};
ghost use Rattle.std.specs.List.{list_all, prefix_len};
ghost use Rattle.serve_config.specs.Tokens.{is_token68, is_token68_octet};

/// Whether a text is a token68 (RFC 9110, section 11.2): one or more letters, digits or `-._~+/`, then any number of `=`.
pub(crate) fn is_token68(text: &[u8]) -> bool
    ensures { result ≡ is_token68 text.now }
{
    let end = front_len(text);
    let (_, rest) = text.split_at(end);
    1 <= end && is_padding(rest)
}

// The length of the front of letters, digits and `-._~+/`.
fn front_len(text: &[u8]) -> usize
    ensures value { result ≡ prefix_len is_token68_octet text.now }
    ensures bound { result ≤ length text.now }
{
    for i in 0..text.len() {
        if !is_token68_octet(text[i]) {
            return i;
        }
    }
    text.len()
}

// Whether all octets are `=`.
fn is_padding(text: &[u8]) -> bool
    ensures { result ≡ list_all (λ octet. octet == 61) text.now }
{
    text.iter().all(|&octet| octet == b'=')
}

// Whether an octet may stand in the front of a token68.
fn is_token68_octet(octet: u8) -> bool
    ensures { result ≡ is_token68_octet octet }
{
    octet.is_ascii_alphanumeric() || matches!(octet, b'-' | b'.' | b'_' | b'~' | b'+' | b'/')
}
