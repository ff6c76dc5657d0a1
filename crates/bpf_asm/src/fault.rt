//! Faults of assembler texts.

ghost use Rattle.std.specs.Prelude.{◌≡◌};
ghost use Rattle.bpf_asm.specs.Assembly.{fault_number, fault_line};

use thiserror::Error;

/// Why an assembler text is refused. The number in a variant is the line number, counted from 1.
#[derive(Clone, Copy, Debug, Error)]
pub enum AsmFault {
    /// The first word of an instruction is not a mnemonic.
    #[error("line {0}: the first word is no mnemonic")]
    Mnemonic(usize),
    /// The tokens after the mnemonic have none of its forms.
    #[error("line {0}: not a form of this mnemonic")]
    Operand(usize),
    /// A number has no digit or does not fit 32 bits.
    #[error("line {0}: a number has no digit or is too large")]
    Number(usize),
    /// An earlier line has the same label.
    #[error("line {0}: an earlier line has this label")]
    DoubleLabel(usize),
    /// No line has the label that a jump names.
    #[error("line {0}: no line has the label of the jump")]
    NoLabel(usize),
    /// A jump targets itself or an earlier instruction.
    #[error("line {0}: the jump names its own place or an earlier one")]
    Backward(usize),
    /// A conditional jump skips more than 255 instructions.
    #[error("line {0}: the conditional jump goes too far")]
    Far(usize),
    /// The instruction exceeds the limit of 4,096.
    #[error("line {0}: more than 4,096 instructions")]
    TooLong(usize),
    /// Out of memory.
    #[error("no memory was left")]
    NoMemory,
}

impl AsmFault {
    /// The fault's number in printed messages, 1 to 9.
    pub fn number(&self) -> u8
        ensures { result ≡ fault_number self.now }
    {
        match self {
            AsmFault::Mnemonic(_) => 1,
            AsmFault::Operand(_) => 2,
            AsmFault::Number(_) => 3,
            AsmFault::DoubleLabel(_) => 4,
            AsmFault::NoLabel(_) => 5,
            AsmFault::Backward(_) => 6,
            AsmFault::Far(_) => 7,
            AsmFault::TooLong(_) => 8,
            AsmFault::NoMemory => 9,
        }
    }

    /// The line number, counted from 1, or `None` if the variant carries none.
    pub fn line(&self) -> Option<usize>
        ensures { result ≡ fault_line self.now }
    {
        match self {
            AsmFault::Mnemonic(line)
            | AsmFault::Operand(line)
            | AsmFault::Number(line)
            | AsmFault::DoubleLabel(line)
            | AsmFault::NoLabel(line)
            | AsmFault::Backward(line)
            | AsmFault::Far(line)
            | AsmFault::TooLong(line) => Some(*line),
            AsmFault::NoMemory => None,
        }
    }
}
