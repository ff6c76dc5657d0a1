//! The label of a line, and the rest of the line.

ghost use Rattle.std.specs.Prelude.{◌≡◌};
ghost use Rattle.std.specs.Option.{option_map};
ghost use Rattle.bpf_asm.specs.Token.{tokens};
ghost use Rattle.bpf_asm.specs.Assembly.{label_of, body_of, has_body};

use crate::token::{is_label_of, next_token};

/// The label at the start of a line, if there is one.
pub(crate) fn label_in(line: &[u8]) -> Option<&[u8]>
    ensures { option_map (λ x. x.now) result ≡ label_of (tokens line.now) }
{
    let (first, rest) = next_token(line)?;
    let (second, _) = next_token(rest)?;
    if is_label_of(first) && second == b":".as_slice() {
        Some(first)
    } else {
        None
    }
}

/// The line after its label.
pub(crate) fn body_in(line: &[u8]) -> &[u8]
    ensures { tokens result.now ≡ body_of (tokens line.now) }
{
    let Some((first, rest)) = next_token(line) else {
        return line;
    };
    let Some((second, body)) = next_token(rest) else {
        return line;
    };
    if !is_label_of(first) {
        return line;
    }
    if second != b":".as_slice() {
        return line;
    }
    body
}

/// Whether the line has an instruction.
pub(crate) fn has_body_in(line: &[u8]) -> bool
    ensures { result ≡ has_body (tokens line.now) }
{
    next_token(body_in(line)).is_some()
}
