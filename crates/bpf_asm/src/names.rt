//! The instruction indices that labels name.

ghost use Rattle.std.specs.Prelude.{◌≤◌};
ghost use Rattle.bpf_asm.specs.Assembly.{token_lines, instruction_index};

use std::collections::BTreeMap;

/// A map from labels to instruction indices.
pub(crate) type Labels<'a> = BTreeMap<&'a [u8], u32>;

/// The labels on the first `lines` lines of a text. `kept` is `None` after an allocation failure; labels are then found by
/// scanning the text.
#[derive(Drop)]
pub(crate) struct Names<'a> {
    pub text: &'a [u8],
    pub lines: usize,
    pub kept: Option<Labels<'a>>,
    pub ghost short: { instruction_index (token_lines text.now) lines ≤ 65536 },
}
