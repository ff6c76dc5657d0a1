//! Helpers for text.
ghost use Rattle.std.specs.Prelude.{◌≡◌, bytes_eq};
ghost use Rattle.http_header.specs.Token.{lowercase};
ghost use Rattle.http_rules.specs.Text.{trimmed};

/// Strips ASCII white space from both ends.
pub(crate) fn trimmed(text: &[u8]) -> &[u8]
    ensures { result.now ≡ trimmed text.now }
{
    text.trim_ascii()
}

/// Whether a text equals this name, ignoring ASCII case. `name` is in lower case.
pub(crate) fn is_name(text: &[u8], name: &[u8]) -> bool
    requires { lowercase name.now ≡ name.now }
    ensures { result ≡ bytes_eq (lowercase text.now) name.now }
{
    text.eq_ignore_ascii_case(name)
}
