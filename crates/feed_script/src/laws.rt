//! Executing a script line by line yields the text of the whole script.
ghost use Rattle.std.specs.Prelude.{◌≡◌, ℕ, List, Some, None};
ghost use Rattle.script_lines.specs.ScriptLine.{script_of};
ghost use Rattle.feed_script.specs.Script.{text, usual};
ghost use Rattle.feed_script.specs.Ahead.{preparing, text_ahead};

use node_core::{append_law, step_law};

/// At the beginning of a script, the output of its remaining lines is the text of the script.
pub(crate) fn text_law()
    ensures { (b : List ℕ) → text_ahead (preparing usual) (script_of b) ≡ text b }
{
    append_law();
    step_law();
}
