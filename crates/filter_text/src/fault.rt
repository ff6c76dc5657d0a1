//! Why a text is not a valid filter program.
ghost use Rattle.std.specs.Prelude.{◌≡◌};
ghost use Rattle.filter_text.specs.Shown.{is_want_of_memory};

use bpf_asm::AsmFault;
use bpf_check::{CheckFault, ListingFault};
use std::fmt;

/// Why a text is not a valid filter program. It prints as one line, without the line's end: `listing fault`, `assembler fault` or
/// `check fault`, the fault's number, and ` line <n>` or ` place <i>` if it has one.
#[derive(Drop)]
pub enum ProgramFault {
    /// The listing has a fault, or memory ran out.
    Listing(ListingFault),
    /// The assembler text has a fault, or memory ran out.
    Assembler(AsmFault),
    /// The checker refuses the program.
    Check(CheckFault),
}

impl ProgramFault {
    /// Whether memory ran out, so that the text itself may be valid.
    pub fn is_want_of_memory(&self) -> bool
        ensures { result ≡ is_want_of_memory self.now }
    {
        match self {
            ProgramFault::Listing(fault) => matches!(fault, ListingFault::NoMemory),
            ProgramFault::Assembler(fault) => matches!(fault, AsmFault::NoMemory),
            ProgramFault::Check(_) => false,
        }
    }
}

impl fmt::Display for ProgramFault {
    ghost use Rattle.std.specs.Prelude.{Some};
    ghost use Rattle.filter_text.specs.Shown.{fault_text};

    ghost output = { λ f. Some (fault_text f) };

    fn fmt<W: fmt::Write>(&self, f: &mut fmt::Formatter<W>) -> fmt::Result {
        match self {
            ProgramFault::Listing(fault) => {
                write!(f, "listing fault {}", fault.number())?;
                match fault.line() {
                    Some(line) => write!(f, " line {line}"),
                    None => Ok(()),
                }
            }
            ProgramFault::Assembler(fault) => {
                write!(f, "assembler fault {}", fault.number())?;
                match fault.line() {
                    Some(line) => write!(f, " line {line}"),
                    None => Ok(()),
                }
            }
            ProgramFault::Check(fault) => {
                write!(f, "check fault {}", fault.number())?;
                match fault.place() {
                    Some(place) => write!(f, " place {place}"),
                    None => Ok(()),
                }
            }
        }
    }
}
