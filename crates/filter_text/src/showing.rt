//! Writes accepted programs as text.
ghost use Rattle.std.specs.Prelude.{◌≡◌, ◌++◌, IfOk, IfSome, OnOk, codes, decimal, string_bytes};
ghost use Rattle.filter_text.specs.Shown.{accepted_text, fields_text, swap_text};

use bpf_asm::to_text;
use bpf_check::{Checked, Insn};
use std::alloc::{AllocError, Global};

/// Appends the instruction as it appears in a script: `code,jt,jf,k`.
fn push_fields(out: &mut String, insn: &Insn) -> Result<(), AllocError>
    ensures { OnOk result (string_bytes out.new ≡ string_bytes out.old ++ fields_text insn.now) }
{
    let Insn { code, jt, jf, k } = *insn;
    write!(out, "{code},{jt},{jf},{k}")
}

/// The instructions, separated by semicolons.
fn joined(alloc: Global, insns: &[Insn]) -> Result<String, AllocError>
    ensures { IfOk result (λ text. string_bytes text ≡ swap_text insns.now) }
{
    let mut text = String::new(alloc);
    for (place, insn) in insns.iter().enumerate() {
        if place > 0 {
            text.push_str(";")?;
        }
        push_fields(&mut text, insn)?;
    }
    Ok(text)
}

/// The count of instructions, then the program as assembler text.
fn counted(alloc: Global, program: &Checked) -> Result<String, AllocError>
    ensures { IfOk result (λ text. string_bytes text ≡ accepted_text program.now) }
{
    let lines = to_text(alloc, program)?;
    let count = program.len();
    let mut text = String::new(alloc);
    write!(text, "accepted {count}\n")?;
    text.push_str(lines.as_str())?;
    Ok(text)
}

/// The output of the command `check`: `accepted`, the number of instructions, and the program as assembler text.
/// `None` if memory runs out.
pub fn accepted_text(alloc: Global, program: &Checked) -> Option<String>
    ensures { IfSome result (λ text. string_bytes text ≡ accepted_text program.now) }
{
    counted(alloc, program).ok()
}

/// The program as it appears in the swap line of a script: `code,jt,jf,k` for each instruction, separated by semicolons.
/// `None` if memory runs out.
pub fn script_text(alloc: Global, program: &Checked) -> Option<String>
    ensures { IfSome result (λ text. string_bytes text ≡ swap_text program.now) }
{
    joined(alloc, program.insns()).ok()
}
