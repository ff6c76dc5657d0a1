//! The table of instruction codes, searched by the tokens of a line.

ghost use Rattle.std.specs.Prelude.{◌≡◌};
ghost use Rattle.std.specs.Option.{option_map};
ghost use Rattle.bpf_check.specs.Operation.{table};
ghost use Rattle.bpf_asm.specs.Shown.{shown_row, shown_words};
ghost use Rattle.bpf_asm.specs.Token.{tokens};
ghost use Rattle.bpf_asm.specs.Reading.{row_words, find_row, has_mnemonic};

use crate::form::{mnemonic_of, pieces_of};
use crate::spelling::{Words, words_in};
use bpf_check::operation::{Arithmetic, Comparison, Operand, Operation, Width};

/// A row of the table that matches a line, with the words for its placeholders.
#[derive(Clone, Copy)]
pub(crate) struct Row<'a> {
    pub code: u16,
    pub operation: Operation,
    pub words: Words<'a>,
}

// Each code with its operation.
fn rows() -> &'static [(u16, Operation)]
    ensures { result.now ≡ table }
{
    &[
        (0x20, Operation::LoadAbsolute(Width::Word)),
        (0x28, Operation::LoadAbsolute(Width::Half)),
        (0x30, Operation::LoadAbsolute(Width::Byte)),
        (0x40, Operation::LoadIndirect(Width::Word)),
        (0x48, Operation::LoadIndirect(Width::Half)),
        (0x50, Operation::LoadIndirect(Width::Byte)),
        (0x00, Operation::LoadConstant),
        (0x60, Operation::LoadScratch),
        (0x80, Operation::LoadLength),
        (0x01, Operation::IndexConstant),
        (0x61, Operation::IndexScratch),
        (0x81, Operation::IndexLength),
        (0xb1, Operation::IndexHeader),
        (0x02, Operation::StoreAccumulator),
        (0x03, Operation::StoreIndex),
        (0x04, Operation::Compute(Arithmetic::Add, Operand::Constant)),
        (
            0x14,
            Operation::Compute(Arithmetic::Subtract, Operand::Constant),
        ),
        (
            0x24,
            Operation::Compute(Arithmetic::Multiply, Operand::Constant),
        ),
        (
            0x34,
            Operation::Compute(Arithmetic::Divide, Operand::Constant),
        ),
        (0x44, Operation::Compute(Arithmetic::Or, Operand::Constant)),
        (0x54, Operation::Compute(Arithmetic::And, Operand::Constant)),
        (
            0x64,
            Operation::Compute(Arithmetic::ShiftLeft, Operand::Constant),
        ),
        (
            0x74,
            Operation::Compute(Arithmetic::ShiftRight, Operand::Constant),
        ),
        (0x0c, Operation::Compute(Arithmetic::Add, Operand::Index)),
        (
            0x1c,
            Operation::Compute(Arithmetic::Subtract, Operand::Index),
        ),
        (
            0x2c,
            Operation::Compute(Arithmetic::Multiply, Operand::Index),
        ),
        (0x3c, Operation::Compute(Arithmetic::Divide, Operand::Index)),
        (0x4c, Operation::Compute(Arithmetic::Or, Operand::Index)),
        (0x5c, Operation::Compute(Arithmetic::And, Operand::Index)),
        (
            0x6c,
            Operation::Compute(Arithmetic::ShiftLeft, Operand::Index),
        ),
        (
            0x7c,
            Operation::Compute(Arithmetic::ShiftRight, Operand::Index),
        ),
        (0x84, Operation::Negate),
        (0x05, Operation::Jump),
        (
            0x15,
            Operation::Branch(Comparison::Equal, Operand::Constant),
        ),
        (
            0x35,
            Operation::Branch(Comparison::AtLeast, Operand::Constant),
        ),
        (
            0x25,
            Operation::Branch(Comparison::Above, Operand::Constant),
        ),
        (
            0x45,
            Operation::Branch(Comparison::SharesBit, Operand::Constant),
        ),
        (0x1d, Operation::Branch(Comparison::Equal, Operand::Index)),
        (0x3d, Operation::Branch(Comparison::AtLeast, Operand::Index)),
        (0x2d, Operation::Branch(Comparison::Above, Operand::Index)),
        (
            0x4d,
            Operation::Branch(Comparison::SharesBit, Operand::Index),
        ),
        (0x06, Operation::ReturnConstant),
        (0x16, Operation::ReturnAccumulator),
        (0x07, Operation::ToIndex),
        (0x87, Operation::ToAccumulator),
        (
            0x94,
            Operation::Compute(Arithmetic::Modulo, Operand::Constant),
        ),
        (0x9c, Operation::Compute(Arithmetic::Modulo, Operand::Index)),
        (
            0xa4,
            Operation::Compute(Arithmetic::ExclusiveOr, Operand::Constant),
        ),
        (
            0xac,
            Operation::Compute(Arithmetic::ExclusiveOr, Operand::Index),
        ),
    ]
}

// The words for an operation's placeholders, or `None` if the line doesn't match the operation.
fn words_of_row<'a>(operation: Operation, word: &[u8], operands: &'a [u8]) -> Option<Words<'a>>
    ensures { option_map shown_words result ≡ row_words operation word.now (tokens operands.now) }
{
    if word != mnemonic_of(operation).as_bytes() {
        return None;
    }
    words_in(pieces_of(operation), operands)
}

// The first of the rows that matches a line, if there is one.
fn find_in<'a>(rows: &[(u16, Operation)], word: &[u8], operands: &'a [u8]) -> Option<Row<'a>>
    ensures { option_map shown_row result ≡ find_row rows.now word.now (tokens operands.now) }
{
    for row in rows {
        if let Some(words) = words_of_row(row.1, word, operands) {
            return Some(Row {
                code: row.0,
                operation: row.1,
                words,
            });
        }
    }
    None
}

/// The first row of the table that matches a line, if there is one.
pub(crate) fn row_of<'a>(word: &[u8], operands: &'a [u8]) -> Option<Row<'a>>
    ensures { option_map shown_row result ≡ find_row table word.now (tokens operands.now) }
{
    find_in(rows(), word, operands)
}

// Whether one of the rows has the mnemonic.
fn is_mnemonic_in(rows: &[(u16, Operation)], word: &[u8]) -> bool
    ensures { result ≡ has_mnemonic rows.now word.now }
{
    for row in rows {
        if word == mnemonic_of(row.1).as_bytes() {
            return true;
        }
    }
    false
}

/// Whether a word is a mnemonic.
pub(crate) fn is_mnemonic(word: &[u8]) -> bool
    ensures { result ≡ has_mnemonic table word.now }
{
    is_mnemonic_in(rows(), word)
}
