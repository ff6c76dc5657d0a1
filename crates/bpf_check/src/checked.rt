//! The checker, and the type of accepted programs.

ghost use Rattle.std.specs.Prelude.{◌≡◌, ◌==◌, ◌<◌, ◌≤◌, ◌↔◌, length, IsOk, IfOk, IfErr, IfSome, IfNone, IsTrue, IsSomeAnd, MatchResult, Some, None, false};
ghost use Rattle.bpf_check.specs.Accepted.{most_insns, IsFine, IsAccepted, IsFaultAt, IsFirstFault, IsReturn, fault_number, fault_place};
ghost use Rattle.bpf_check.specs.Insn.{InRange, AreInRange};
ghost use Rattle.bpf_check.specs.Operation.{operation_of};
ghost use Rattle.bpf_check.specs.Refusal.{program_fault};

use crate::insn::Insn;
use crate::operation::{Arithmetic, Operand, Operation, decode};
use std::marker::Model;
use thiserror::Error;

/// Maximum number of instructions in a program.
pub const MOST_INSNS: usize = 4_096;

/// Number of words of scratch memory.
pub const SCRATCH_WORDS: u32 = 16;

/// Why a program is refused. The number in a variant is the 0-based index of the instruction.
#[derive(Clone, Copy, Debug, PartialEq, Eq, Error)]
pub enum CheckFault {
    /// The program has no instructions.
    #[error("the program is empty")]
    Empty,
    /// The program has more than 4,096 instructions.
    #[error("the program has more than 4,096 instructions")]
    TooLong,
    /// The code is not that of any operation.
    #[error("place {0}: the code is unknown")]
    UnknownCode(usize),
    /// A division by the constant 0, for the quotient or the remainder.
    #[error("place {0}: division by 0")]
    ZeroDivisor(usize),
    /// The index of a scratch word is 16 or more.
    #[error("place {0}: there is no such scratch word")]
    BadScratch(usize),
    /// A jump has a target outside the program.
    #[error("place {0}: a target of the jump is outside the program")]
    BadJump(usize),
    /// The last instruction is not a return.
    #[error("the last instruction is not a return")]
    NoReturn,
}

impl CheckFault {
    /// The fault's number in printed messages, 1 to 7.
    pub fn number(&self) -> u8
        ensures { result ≡ fault_number self.now }
    {
        match self {
            CheckFault::Empty => 1,
            CheckFault::TooLong => 2,
            CheckFault::UnknownCode(_) => 3,
            CheckFault::ZeroDivisor(_) => 4,
            CheckFault::BadScratch(_) => 5,
            CheckFault::BadJump(_) => 6,
            CheckFault::NoReturn => 7,
        }
    }

    /// The 0-based index of the faulty instruction, or `None` if the variant carries none.
    pub fn place(&self) -> Option<usize>
        ensures { result ≡ fault_place self.now }
    {
        match self {
            CheckFault::UnknownCode(place)
            | CheckFault::ZeroDivisor(place)
            | CheckFault::BadScratch(place)
            | CheckFault::BadJump(place) => Some(*place),
            _ => None,
        }
    }
}

/// An accepted program. Contracts see the list of its instructions.
#[derive(Drop)]
pub struct Checked {
    insns: Vec<Insn>,
}

impl Model for Checked {
    ghost use Rattle.std.specs.Prelude.{List};
    ghost use Rattle.bpf_check.specs.declared.insn.Insn.{Insn};
    ghost use Rattle.bpf_check.specs.Accepted.{IsAccepted};
    ghost use Rattle.bpf_check.specs.Insn.{AreInRange};

    ghost Value = { List Insn };

    ghost view = { λ c. c.insns.items };

    ghost invariant = { λ c. IsAccepted c.insns.items × AreInRange c.insns.items };
}

impl PartialEq for Checked {
    ghost use Rattle.std.specs.Cmp.Lexicographic.{lists_per};
    ghost use Rattle.std.specs.Cmp.Rules.{comparing};
    ghost use Rattle.std.specs.Prelude.{◌≡◌, ◌↔◌, IsTrue};
    ghost use Rattle.std.proofs.Common.{rules};
    ghost use lib.Pointwise.{pointwise};
    ghost use Rattle.bpf_check.specs.Insn.{same_insn};

    ghost eq = { pointwise same_insn };

    ghost laws = { Prim.search (comparing, rules) depth 9 };

    fn eq(&self, other: &Checked) -> bool
        ensures value { result ≡ pointwise same_insn self.now other.now }
        ensures same { IsTrue result ↔ (self.now ≡ other.now) }
    {
        is_same_program(&self.insns, &other.insns)
    }
}

impl Eq for Checked {
    ghost use Rattle.std.specs.Cmp.Rules.{comparing};
    ghost use Rattle.std.proofs.Common.{rules};

    ghost laws = { Prim.search (comparing, rules) depth 9 };
}

/// Checks a program. Errors: the first fault, together with the instructions.
///
/// A program is accepted if it has 1 to 4,096 instructions with known codes, none of them divides by the constant 0 or uses a
/// scratch word above 15, every jump target is inside the program, and the last instruction is a return.
/// The order of faults is `Empty`, `TooLong`, then by index (at one index in the order of the variants), then `NoReturn`.
pub fn check(insns: Vec<Insn>) -> Result<Checked, (CheckFault, Vec<Insn>)>
    ensures accepts { IsOk result ↔ IsAccepted insns.items }
    ensures same { IfOk result (λ checked. checked ≡ insns.items) }
    ensures first { IfErr result (λ refused. IsFirstFault insns.items refused.0) }
    ensures back { IfErr result (λ refused. refused.1 ≡ insns) }
    // The same result, stated by the function that computes the first fault of a list of instructions.
    ensures program_fault { MatchResult result (λ _. program_fault insns.items ≡ None) (λ refused. program_fault insns.items ≡ Some refused.0) }
{
    match first_fault(&insns) {
        None => Ok(Checked { insns }),
        Some(fault) => Err((fault, insns)),
    }
}

impl Checked {
    /// The instructions, in order.
    #[inline(always)]
    pub fn insns(&self) -> &[Insn]
        ensures same { result.now ≡ self.now }
        ensures accepted { IsAccepted self.now }
        ensures range { AreInRange self.now }
    {
        &self.insns
    }

    /// The number of instructions, 1 to 4,096.
    pub fn len(&self) -> usize
        ensures value { result ≡ length self.now }
        ensures within { (0 < result) × (result ≤ most_insns) }
    {
        self.insns.len()
    }

    /// Always `false`: an accepted program has at least one instruction.
    pub fn is_empty(&self) -> bool
        ensures { result ≡ false }
    {
        self.insns.is_empty()
    }
}

// Whether two programs have the same instructions. The loop has no early exit, so that the compiler can vectorize it.
fn is_same_program(one: &[Insn], other: &[Insn]) -> bool
    ensures { IsTrue result ↔ (one.now ≡ other.now) }
{
    if one.len() != other.len() {
        return false;
    }
    let mut differences = 0;
    for (place, insn) in one.iter().enumerate() {
        differences |= insn.word() ^ other[place].word();
    }
    differences == 0
}

// The first fault of a program, or `None` if it has no fault.
fn first_fault(insns: &[Insn]) -> Option<CheckFault>
    ensures none { IfNone result (IsAccepted insns.now) }
    ensures range { IfNone result (AreInRange insns.now) }
    ensures some { IfSome result (λ fault. IsFirstFault insns.now fault) }
{
    if insns.is_empty() {
        return Some(CheckFault::Empty);
    }
    if insns.len() > MOST_INSNS {
        return Some(CheckFault::TooLong);
    }
    for (place, insn) in insns.iter().enumerate() {
        if let Some(fault) = fault_in(insn, place, insns.len()) {
            return Some(fault);
        }
    }
    if is_return(insns[insns.len() - 1].code) {
        None
    } else {
        Some(CheckFault::NoReturn)
    }
}

// Whether a code is that of a return.
fn is_return(code: u16) -> bool
    ensures yes { IsTrue result → IsSomeAnd (operation_of code) IsReturn }
    ensures no { IsSomeAnd (operation_of code) IsReturn → IsTrue result }
{
    matches!(
        decode(code),
        Some(Operation::ReturnConstant | Operation::ReturnAccumulator)
    )
}

// The fault of the instruction at index `place` of a program of `count` instructions, or `None`.
fn fault_in(insn: &Insn, place: usize, count: usize) -> Option<CheckFault>
    requires inside { place < count }
    requires short { count ≤ most_insns }
    ensures none { IfNone result (IsFine count place insn.now) }
    ensures range { InRange insn.now }
    ensures some { IfSome result (λ fault. IsFaultAt count place insn.now fault) }
{
    insn.is_in_range();
    let Some(operation) = decode(insn.code) else {
        return Some(CheckFault::UnknownCode(place));
    };
    let after = place as u64 + 1;
    let count = count as u64;
    match operation {
        Operation::Compute(Arithmetic::Divide | Arithmetic::Modulo, Operand::Constant)
            if insn.k == 0 => { Some(CheckFault::ZeroDivisor(place)) }
        Operation::LoadScratch
        | Operation::IndexScratch
        | Operation::StoreAccumulator
        | Operation::StoreIndex
            if insn.k >= SCRATCH_WORDS => { Some(CheckFault::BadScratch(place)) }
        Operation::Jump if after + insn.k as u64 >= count => Some(CheckFault::BadJump(place)),
        Operation::Branch(_, _)
            if after + insn.jt as u64 >= count || after + insn.jf as u64 >= count => {
            Some(CheckFault::BadJump(place))
        }
        _ => None,
    }
}
