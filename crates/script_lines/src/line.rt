//! Reading a line.
ghost use Rattle.std.specs.Prelude.{◌≡◌, IfOk};
ghost use Rattle.script_lines.specs.Item.{script_line_of, IsShort};
ghost use Rattle.script_lines.specs.ScriptLine.{script_line};

use super::command::line_of;
use super::item::Item;
use super::parts::parts_of;
use std::alloc::{AllocError, Global};

/// Maximum length of a line in octets, without its line break.
pub const LINE_LIMIT: usize = 262_144;

/// Parses a line, given without its line break. An empty line or one that begins with `#` is [`Item::Blank`]; a line longer
/// than [`LINE_LIMIT`] or not of the format is [`Item::Wrong`]. Errors: out of memory.
pub fn read_line(alloc: Global, text: &[u8]) -> Result<Item, AllocError>
    ensures line { IfOk result (λ item. script_line_of item ≡ script_line text.now) }
    ensures short { IfOk result (λ item. IsShort item) }
{
    if text.len() > LINE_LIMIT {
        return Ok(Item::Wrong);
    }
    if text.is_empty() || text[0] == b'#' {
        return Ok(Item::Blank);
    }
    let fields = parts_of(alloc, text, b' ')?;
    line_of(alloc, fields.as_slice())
}
