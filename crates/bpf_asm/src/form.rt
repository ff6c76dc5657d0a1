//! The syntax of each operation: a mnemonic and the tokens after it.

ghost use Rattle.std.specs.Prelude.{◌≡◌};
ghost use Rattle.bpf_asm.specs.Form.{mnemonic, pieces, fixed, load_mnemonic, arithmetic_mnemonic, branch_mnemonic};

use Piece::*;
use bpf_check::operation::{Arithmetic, Comparison, Operand, Operation, Width};

/// A token after the mnemonic: a fixed one, or a placeholder for a number or a label.
#[derive(Clone, Copy)]
pub(crate) enum Piece {
    Hash,
    Open,
    Close,
    X,
    Plus,
    M,
    Len,
    Four,
    Star,
    LeftParen,
    Ampersand,
    LowFour,
    RightParen,
    A,
    Comma,
    Number,
    Label,
}

fn load_mnemonic_of(width: Width) -> &'static str
    ensures { result.now ≡ load_mnemonic width }
{
    match width {
        Width::Word => "ld",
        Width::Half => "ldh",
        Width::Byte => "ldb",
    }
}

fn arithmetic_mnemonic_of(arithmetic: Arithmetic) -> &'static str
    ensures { result.now ≡ arithmetic_mnemonic arithmetic }
{
    match arithmetic {
        Arithmetic::Add => "add",
        Arithmetic::Subtract => "sub",
        Arithmetic::Multiply => "mul",
        Arithmetic::Divide => "div",
        Arithmetic::Or => "or",
        Arithmetic::And => "and",
        Arithmetic::ShiftLeft => "lsh",
        Arithmetic::ShiftRight => "rsh",
        Arithmetic::Modulo => "mod",
        Arithmetic::ExclusiveOr => "xor",
    }
}

fn branch_mnemonic_of(comparison: Comparison) -> &'static str
    ensures { result.now ≡ branch_mnemonic comparison }
{
    match comparison {
        Comparison::Equal => "jeq",
        Comparison::AtLeast => "jge",
        Comparison::Above => "jgt",
        Comparison::SharesBit => "jset",
    }
}

/// The mnemonic of an operation.
pub(crate) fn mnemonic_of(operation: Operation) -> &'static str
    ensures { result.now ≡ mnemonic operation }
{
    match operation {
        Operation::LoadAbsolute(width) => load_mnemonic_of(width),
        Operation::LoadIndirect(width) => load_mnemonic_of(width),
        Operation::LoadConstant => "ld",
        Operation::LoadScratch => "ld",
        Operation::LoadLength => "ld",
        Operation::IndexConstant => "ldx",
        Operation::IndexScratch => "ldx",
        Operation::IndexLength => "ldx",
        Operation::IndexHeader => "ldxb",
        Operation::StoreAccumulator => "st",
        Operation::StoreIndex => "stx",
        Operation::Compute(arithmetic, _) => arithmetic_mnemonic_of(arithmetic),
        Operation::Negate => "neg",
        Operation::Jump => "ja",
        Operation::Branch(comparison, _) => branch_mnemonic_of(comparison),
        Operation::ReturnConstant => "ret",
        Operation::ReturnAccumulator => "ret",
        Operation::ToIndex => "tax",
        Operation::ToAccumulator => "txa",
    }
}

/// The tokens after the mnemonic of an operation. A table with one arm per form.
pub(crate) fn pieces_of(operation: Operation) -> &'static [Piece]
    ensures { result.now ≡ pieces operation }
{
    match operation {
        Operation::LoadAbsolute(_) => &[Open, Number, Close],
        Operation::LoadIndirect(_) => &[Open, X, Plus, Number, Close],
        Operation::LoadConstant
        | Operation::IndexConstant
        | Operation::Compute(_, Operand::Constant)
        | Operation::ReturnConstant => &[Hash, Number],
        Operation::LoadScratch
        | Operation::IndexScratch
        | Operation::StoreAccumulator
        | Operation::StoreIndex => &[M, Open, Number, Close],
        Operation::LoadLength | Operation::IndexLength => &[Len],
        Operation::IndexHeader => &[
            Four, Star, LeftParen, Open, Number, Close, Ampersand, LowFour, RightParen,
        ],
        Operation::Compute(_, Operand::Index) => &[X],
        Operation::Negate | Operation::ToIndex | Operation::ToAccumulator => &[],
        Operation::Jump => &[Label],
        Operation::Branch(_, Operand::Constant) => &[Hash, Number, Comma, Label, Comma, Label],
        Operation::Branch(_, Operand::Index) => &[X, Comma, Label, Comma, Label],
        Operation::ReturnAccumulator => &[A],
    }
}

/// The text of a fixed token; it is empty for placeholders.
pub(crate) fn fixed_of(piece: Piece) -> &'static str
    ensures { result.now ≡ fixed piece }
{
    match piece {
        Hash => "#",
        Open => "[",
        Close => "]",
        X => "x",
        Plus => "+",
        M => "M",
        Len => "len",
        Four => "4",
        Star => "*",
        LeftParen => "(",
        Ampersand => "&",
        LowFour => "0xf",
        RightParen => ")",
        A => "a",
        Comma => ",",
        Number | Label => "",
    }
}
