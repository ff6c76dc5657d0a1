//! Operations, and decoding of instruction codes. The codes are numbered as in the BSD header `bpf.h`.

ghost use Rattle.std.specs.Prelude.{◌≡◌};
ghost use Rattle.bpf_check.specs.Operation.{operation_of};

/// How many octets a load reads from the packet.
#[derive(Clone, Copy)]
pub enum Width {
    /// Four octets.
    Word,
    /// Two octets.
    Half,
    /// One octet.
    Byte,
}

/// The right-hand operand of an operation.
#[derive(Clone, Copy)]
pub enum Operand {
    /// The field `k` of the instruction.
    Constant,
    /// The index register.
    Index,
}

/// An arithmetic or bitwise operation.
#[derive(Clone, Copy)]
pub enum Arithmetic {
    Add,
    Subtract,
    Multiply,
    Divide,
    Or,
    And,
    ShiftLeft,
    ShiftRight,
    /// The remainder of a division.
    Modulo,
    ExclusiveOr,
}

/// The test of a conditional jump.
#[derive(Clone, Copy)]
pub enum Comparison {
    Equal,
    AtLeast,
    Above,
    /// The words have a 1 bit in common.
    SharesBit,
}

/// What an instruction does. A is the accumulator, X the index register, M the scratch memory.
#[derive(Clone, Copy)]
pub enum Operation {
    /// A = the packet's octets at offset k, in network order.
    LoadAbsolute(Width),
    /// A = the packet's octets at offset X + k, in network order.
    LoadIndirect(Width),
    /// A = k.
    LoadConstant,
    /// A = M[k].
    LoadScratch,
    /// A = the packet's length in octets.
    LoadLength,
    /// X = k.
    IndexConstant,
    /// X = M[k].
    IndexScratch,
    /// X = the packet's length in octets.
    IndexLength,
    /// X = four times the low four bits of the packet's octet at offset k.
    IndexHeader,
    /// M[k] = A.
    StoreAccumulator,
    /// M[k] = X.
    StoreIndex,
    /// A = the result of the operation on A and the operand.
    Compute(Arithmetic, Operand),
    /// A = 0 - A.
    Negate,
    /// Skips k instructions.
    Jump,
    /// Skips jt instructions if the comparison of A and the operand holds, otherwise jf.
    Branch(Comparison, Operand),
    /// Ends the run with the value k.
    ReturnConstant,
    /// Ends the run with the value A.
    ReturnAccumulator,
    /// X = A.
    ToIndex,
    /// A = X.
    ToAccumulator,
}

/// Decodes an instruction code, or returns `None` if the code is unknown. A table with one row per code.
#[inline(always)]
#[tactic(auto, unfolding(crate::specs::Operation::operation_of))]
pub fn decode(code: u16) -> Option<Operation>
    ensures { result ≡ operation_of code }
{
    match code {
        0x20 => Some(Operation::LoadAbsolute(Width::Word)),
        0x28 => Some(Operation::LoadAbsolute(Width::Half)),
        0x30 => Some(Operation::LoadAbsolute(Width::Byte)),
        0x40 => Some(Operation::LoadIndirect(Width::Word)),
        0x48 => Some(Operation::LoadIndirect(Width::Half)),
        0x50 => Some(Operation::LoadIndirect(Width::Byte)),
        0x00 => Some(Operation::LoadConstant),
        0x60 => Some(Operation::LoadScratch),
        0x80 => Some(Operation::LoadLength),
        0x01 => Some(Operation::IndexConstant),
        0x61 => Some(Operation::IndexScratch),
        0x81 => Some(Operation::IndexLength),
        0xb1 => Some(Operation::IndexHeader),
        0x02 => Some(Operation::StoreAccumulator),
        0x03 => Some(Operation::StoreIndex),
        0x04 => Some(Operation::Compute(Arithmetic::Add, Operand::Constant)),
        0x14 => Some(Operation::Compute(Arithmetic::Subtract, Operand::Constant)),
        0x24 => Some(Operation::Compute(Arithmetic::Multiply, Operand::Constant)),
        0x34 => Some(Operation::Compute(Arithmetic::Divide, Operand::Constant)),
        0x44 => Some(Operation::Compute(Arithmetic::Or, Operand::Constant)),
        0x54 => Some(Operation::Compute(Arithmetic::And, Operand::Constant)),
        0x64 => Some(Operation::Compute(Arithmetic::ShiftLeft, Operand::Constant)),
        0x74 => Some(Operation::Compute(Arithmetic::ShiftRight, Operand::Constant)),
        0x0c => Some(Operation::Compute(Arithmetic::Add, Operand::Index)),
        0x1c => Some(Operation::Compute(Arithmetic::Subtract, Operand::Index)),
        0x2c => Some(Operation::Compute(Arithmetic::Multiply, Operand::Index)),
        0x3c => Some(Operation::Compute(Arithmetic::Divide, Operand::Index)),
        0x4c => Some(Operation::Compute(Arithmetic::Or, Operand::Index)),
        0x5c => Some(Operation::Compute(Arithmetic::And, Operand::Index)),
        0x6c => Some(Operation::Compute(Arithmetic::ShiftLeft, Operand::Index)),
        0x7c => Some(Operation::Compute(Arithmetic::ShiftRight, Operand::Index)),
        0x84 => Some(Operation::Negate),
        0x05 => Some(Operation::Jump),
        0x15 => Some(Operation::Branch(Comparison::Equal, Operand::Constant)),
        0x35 => Some(Operation::Branch(Comparison::AtLeast, Operand::Constant)),
        0x25 => Some(Operation::Branch(Comparison::Above, Operand::Constant)),
        0x45 => Some(Operation::Branch(Comparison::SharesBit, Operand::Constant)),
        0x1d => Some(Operation::Branch(Comparison::Equal, Operand::Index)),
        0x3d => Some(Operation::Branch(Comparison::AtLeast, Operand::Index)),
        0x2d => Some(Operation::Branch(Comparison::Above, Operand::Index)),
        0x4d => Some(Operation::Branch(Comparison::SharesBit, Operand::Index)),
        0x06 => Some(Operation::ReturnConstant),
        0x16 => Some(Operation::ReturnAccumulator),
        0x07 => Some(Operation::ToIndex),
        0x87 => Some(Operation::ToAccumulator),
        0x94 => Some(Operation::Compute(Arithmetic::Modulo, Operand::Constant)),
        0x9c => Some(Operation::Compute(Arithmetic::Modulo, Operand::Index)),
        0xa4 => Some(Operation::Compute(Arithmetic::ExclusiveOr, Operand::Constant)),
        0xac => Some(Operation::Compute(Arithmetic::ExclusiveOr, Operand::Index)),
        _ => None,
    }
}
