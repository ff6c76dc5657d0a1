//! Writes programs as assembler text.

ghost use Rattle.std.specs.Prelude.{◌≡◌, ◌+◌, ◌++◌, ◌<◌, ◌≤◌, IfOk, OnOk, string_bytes, length, decimal, codes, List, ◌∷◌, ℕ, false, ◌||◌, ◌==◌, slice_index_or, map};
ghost use Rattle.bpf_check.specs.Operation.{operation_of};
ghost use Rattle.bpf_asm.specs.Form.{mnemonic, pieces};
ghost use Rattle.bpf_asm.specs.declared.form.Piece.{Piece};
ghost use Rattle.bpf_asm.specs.Assembly.{token_lines, Assembles};
ghost use Rattle.bpf_asm.specs.Cleared.{cleared};
ghost use Rattle.bpf_asm.specs.Marks.{AreMarks};
ghost use Rattle.bpf_asm.specs.Text.{label_text, targets, targets_by, has_number, pieces_text, operands_text, insn_text, mark_text, program_text};

use crate::form::{Piece, fixed_of, mnemonic_of, pieces_of};
use bpf_check::operation::{Operation, decode};
use bpf_check::{Checked, Insn};
pub use std::alloc::AllocError as NoMemory;
use std::alloc::{AllocError, Global};

// Appends a number in decimal.
fn push_number(out: &mut String, n: u64) -> Result<(), AllocError>
    ensures { OnOk result (string_bytes out.new ≡ string_bytes out.old ++ decimal n) }
{
    let mut buffer = itoa::Buffer::new();
    out.push_str(buffer.format(n))?;
    Ok(())
}

// Appends the label of the instruction at index `place`.
fn push_label(out: &mut String, place: u64) -> Result<(), AllocError>
    ensures { OnOk result (string_bytes out.new ≡ string_bytes out.old ++ label_text place) }
{
    out.push_str("L")?;
    push_number(out, place)?;
    Ok(())
}

// Appends one piece, and returns the labels that are left.
fn push_piece<'a>(
    out: &mut String,
    k: u32,
    labels: &'a [u64],
    piece: Piece,
) -> Result<&'a [u64], AllocError>
    ensures { IfOk result (λ left. (ps : List Piece) → string_bytes out.new ++ pieces_text k left.now ps
        ≡ string_bytes out.old ++ pieces_text k labels.now (piece ∷ ps)) }
{
    match piece {
        Piece::Number => {
            push_number(out, u64::from(k))?;
            Ok(labels)
        }
        Piece::Label => {
            let Some((place, left)) = labels.split_first() else {
                return Ok(labels);
            };
            push_label(out, *place)?;
            Ok(left)
        }
        Piece::Comma => {
            out.push_str(", ")?;
            Ok(labels)
        }
        piece => {
            out.push_str(fixed_of(piece))?;
            Ok(labels)
        }
    }
}

fn push_pieces(out: &mut String, k: u32, labels: &[u64], pieces: &[Piece]) -> Result<(), AllocError>
    ensures { OnOk result (string_bytes out.new
        ≡ string_bytes out.old ++ pieces_text k labels.now pieces.now) }
{
    let mut left = labels;
    for piece in pieces {
        left = push_piece(out, k, left, *piece)?;
    }
    Ok(())
}

fn push_operands(
    out: &mut String,
    k: u32,
    labels: &[u64],
    pieces: &[Piece],
) -> Result<(), AllocError>
    ensures { OnOk result (string_bytes out.new
        ≡ string_bytes out.old ++ operands_text k labels.now pieces.now) }
{
    if pieces.is_empty() {
        return Ok(());
    }
    out.push_str(" ")?;
    push_pieces(out, k, labels, pieces)?;
    Ok(())
}

fn push_operation(
    out: &mut String,
    place: u64,
    insn: &Insn,
    operation: Operation,
) -> Result<(), AllocError>
    requires { place ≤ 65536 }
    ensures { OnOk result (string_bytes out.new
        ≡ string_bytes out.old ++ (mnemonic operation ++ operands_text insn.now.k (targets_by place insn.now operation) (pieces operation))) }
{
    let after = place + 1;
    let pieces = pieces_of(operation);
    out.push_str(mnemonic_of(operation))?;
    match operation {
        Operation::Jump => push_operands(out, insn.k, &[after + u64::from(insn.k)], pieces)?,
        Operation::Branch(_, _) => {
            let labels = [after + u64::from(insn.jt), after + u64::from(insn.jf)];
            push_operands(out, insn.k, &labels, pieces)?
        }
        _ => push_operands(out, insn.k, &[], pieces)?,
    }
    Ok(())
}

#[tactic(auto, unfolding(crate::specs::Text::insn_text))]
fn push_insn(out: &mut String, place: u64, insn: &Insn) -> Result<(), AllocError>
    requires { place ≤ 65536 }
    ensures { OnOk result (string_bytes out.new
        ≡ string_bytes out.old ++ insn_text place insn.now (operation_of insn.now.code)) }
{
    match decode(insn.code) {
        Some(operation) => push_operation(out, place, insn, operation),
        None => Ok(()),
    }
}

// Marks an index as a jump target, if it lies inside the program.
fn mark(marks: &mut [bool], target: usize)
    ensures { (place : ℕ) → place < length marks.old
        → slice_index_or marks.new place false ≡ (slice_index_or marks.old place false || (target == place)) }
{
    if target < marks.len() {
        marks[target] = true;
    }
}

// Marks the indices that the instruction at index `at` may jump to.
#[tactic(auto, unfolding(crate::specs::Text::targets))]
fn mark_targets(marks: &mut [bool], at: usize, insn: &Insn)
    requires { at ≤ 65536 }
    ensures { (place : ℕ) → place < length marks.old
        → slice_index_or marks.new place false ≡ (slice_index_or marks.old place false || has_number place (targets at insn.now (operation_of insn.now.code))) }
{
    let after = at + 1;
    match decode(insn.code) {
        Some(Operation::Jump) => mark(marks, after + insn.k as usize),
        Some(Operation::Branch(_, _)) => {
            mark(marks, after + insn.jt as usize);
            mark(marks, after + insn.jf as usize);
        }
        _ => {}
    }
}

// For each instruction, whether it is a jump target.
fn marks_of(alloc: Global, insns: &[Insn]) -> Result<Vec<bool>, AllocError>
    requires { length insns.now ≤ 65536 }
    ensures { IfOk result (λ marks. AreMarks insns.now marks.items) }
{
    let mut marks = vec![in alloc; false; insns.len()]?;
    for (at, insn) in insns.iter().enumerate() {
        mark_targets(&mut marks, at, insn);
    }
    Ok(marks)
}

// Appends a line: the label if the instruction is a jump target, then the instruction.
fn push_line(out: &mut String, is_marked: bool, place: u64, insn: &Insn) -> Result<(), AllocError>
    requires { place ≤ 65536 }
    ensures { OnOk result (string_bytes out.new
        ≡ string_bytes out.old ++ (mark_text is_marked place ++ (insn_text place insn.now (operation_of insn.now.code) ++ codes "\n"))) }
{
    if is_marked {
        push_label(out, place)?;
        out.push_str(": ")?;
    }
    push_insn(out, place, insn)?;
    out.push_str("\n")?;
    Ok(())
}

// The lines of all instructions.
fn text_of(alloc: Global, insns: &[Insn]) -> Result<String, AllocError>
    requires { length insns.now ≤ 65536 }
    ensures { IfOk result (λ text. string_bytes text ≡ program_text insns.now) }
{
    let marks = marks_of(alloc, insns)?;
    let mut out = String::new(alloc);
    for (place, insn) in insns.iter().enumerate() {
        push_line(&mut out, marks[place], place as u64, insn)?;
    }
    Ok(out)
}

/// The text of a program, with one line per instruction and numbers in decimal.
///
/// A jump target begins with its label: `L` and its 0-based index. [`crate::assemble`] reads the text back as the same
/// instructions, with 0 in the fields that they don't use; so as the program itself if these fields are 0.
///
/// Errors: out of memory.
pub fn to_text(alloc: Global, program: &Checked) -> Result<String, NoMemory>
    ensures text { IfOk result (λ text. string_bytes text ≡ program_text program.now) }
    ensures cleared { IfOk result (λ text. Assembles (token_lines (string_bytes text)) (map cleared program.now)) }
    ensures same { map cleared program.now ≡ program.now
        → IfOk result (λ text. Assembles (token_lines (string_bytes text)) program.now) }
{
    text_of(alloc, program.insns())
}
