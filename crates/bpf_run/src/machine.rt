//! The state of the machine, and the execution of one instruction.

ghost use Rattle.std.specs.Prelude.{◌≡◌, ◌<◌, ◌≤◌, ◌+◌, ◌^◌, ◌↔◌, length, Some, IsSome, IfSome, IfNone, slice_get, if◌then◌else◌};
ghost use Rattle.bpf_run.specs.Machine.{loaded, computed, compare, row, effect};
ghost use Rattle.bpf_run.specs.Outcome.{Leads};
ghost use Rattle.bpf_run.specs.Start.{start};

use crate::packet::Packet;
use bpf_check::insn::Insn;
use bpf_check::operation::{Arithmetic, Comparison, Operand, Operation, Width, decode};

/// The registers and the scratch memory.
#[derive(Clone, Copy)]
pub struct Machine {
    /// The accumulator.
    pub a: u32,
    /// The index register.
    pub x: u32,
    /// The scratch memory.
    pub scratch: [u32; 16],
}

/// The effect of an instruction, as the definitions state it. The interpreter updates a machine in place and returns an
/// [`Outcome`] instead.
#[derive(Clone, Copy)]
pub enum Step {
    /// Continues with the next instruction and this machine.
    Next(Machine),
    /// Skips this many instructions; the machine stays as it is.
    Skip(u32),
    /// Ends the run with this value.
    End(u32),
}

impl Machine {
    /// The machine before the first instruction.
    pub(crate) fn new() -> Machine
        ensures { result ≡ start }
    {
        Machine {
            a: 0,
            x: 0,
            scratch: [0; 16],
        }
    }
}

/// How a run continues after an instruction that has updated the machine.
#[derive(Clone, Copy)]
pub enum Outcome {
    /// Continues with the next instruction.
    Next,
    /// Skips this many instructions.
    Skip(usize),
    /// Ends the run with this value.
    End(u32),
}

/// Executes one instruction. Its code has to be known, its constant divisor must not be 0, and its scratch word has to exist.
#[inline(always)]
pub(crate) fn execute(insn: &Insn, machine: &mut Machine, packet: &Packet<'_>) -> Outcome
    requires { IsSome (effect insn.now packet.now machine.old) }
    ensures { Leads (effect insn.now packet.now machine.old) result machine.old machine.new }
{
    match decode(insn.code) {
        Some(operation) => perform(operation, insn, machine, packet),
        None => unreachable!(),
    }
}

// Executes one operation. A table with one arm per operation.
#[inline(always)]
fn perform(operation: Operation, insn: &Insn, machine: &mut Machine, packet: &Packet<'_>) -> Outcome
    requires { IsSome (row operation insn.now packet.now machine.old) }
    ensures { Leads (row operation insn.now packet.now machine.old) result machine.old machine.new }
{
    match operation {
        Operation::LoadAbsolute(width) => {
            let Some(word) = load(packet, insn.k as u64, width) else {
                return Outcome::End(0);
            };
            machine.a = word;
        }
        Operation::LoadIndirect(width) => {
            let Some(word) = load(packet, machine.x as u64 + insn.k as u64, width) else {
                return Outcome::End(0);
            };
            machine.a = word;
        }
        Operation::LoadConstant => machine.a = insn.k,
        Operation::LoadScratch => machine.a = machine.scratch[insn.k as usize],
        Operation::LoadLength => machine.a = packet.len(),
        Operation::IndexConstant => machine.x = insn.k,
        Operation::IndexScratch => machine.x = machine.scratch[insn.k as usize],
        Operation::IndexLength => machine.x = packet.len(),
        Operation::IndexHeader => {
            let Some(octet) = packet.octet(insn.k as u64) else {
                return Outcome::End(0);
            };
            machine.x = 4 * (octet as u32 & 0xf);
        }
        Operation::StoreAccumulator => machine.scratch[insn.k as usize] = machine.a,
        Operation::StoreIndex => machine.scratch[insn.k as usize] = machine.x,
        Operation::Compute(arithmetic, Operand::Constant) => {
            machine.a = compute(arithmetic, machine.a, insn.k);
        }
        Operation::Compute(Arithmetic::Divide | Arithmetic::Modulo, Operand::Index)
            if machine.x == 0 => {
            return Outcome::End(0);
        }
        Operation::Compute(arithmetic, Operand::Index) => {
            machine.a = compute(arithmetic, machine.a, machine.x);
        }
        Operation::Negate => machine.a = 0u32.wrapping_sub(machine.a),
        Operation::Jump => return Outcome::Skip(insn.k as usize),
        Operation::Branch(comparison, Operand::Constant) => {
            return branch(insn, holds(comparison, machine.a, insn.k));
        }
        Operation::Branch(comparison, Operand::Index) => {
            return branch(insn, holds_of_registers(comparison, machine.a, machine.x));
        }
        Operation::ReturnConstant => return Outcome::End(insn.k),
        Operation::ReturnAccumulator => return Outcome::End(machine.a),
        Operation::ToIndex => machine.x = machine.a,
        Operation::ToAccumulator => machine.a = machine.x,
    }
    Outcome::Next
}

// The distance of a conditional jump, by whether its test holds.
#[inline(always)]
fn branch(insn: &Insn, holds: bool) -> Outcome
    ensures { result ≡ Outcome.Skip (if holds then insn.now.jt else insn.now.jf) }
{
    Outcome::Skip(if holds {
        insn.jt as usize
    } else {
        insn.jf as usize
    })
}

// The value of the octets at a packet offset, in network order, or `None` if one of them is outside the packet.
#[inline(always)]
fn load(packet: &Packet<'_>, place: u64, width: Width) -> Option<u32>
    requires { place < 2 ^ 33 }
    ensures { result ≡ loaded width packet.now place }
{
    match width {
        Width::Byte => Some(packet.octet(place)? as u32),
        Width::Half => packet.half(place),
        Width::Word => packet.word(place),
    }
}

// The result of an operation on two words. A divisor must not be 0.
#[inline(always)]
fn compute(arithmetic: Arithmetic, a: u32, b: u32) -> u32
    requires divide { arithmetic ≡ Arithmetic.Divide → 0 < b }
    requires modulo { arithmetic ≡ Arithmetic.Modulo → 0 < b }
    ensures { result ≡ computed arithmetic a b }
{
    match arithmetic {
        Arithmetic::Add => a.wrapping_add(b),
        Arithmetic::Subtract => a.wrapping_sub(b),
        Arithmetic::Multiply => a.wrapping_mul(b),
        Arithmetic::Divide => a / b,
        Arithmetic::Modulo => a % b,
        Arithmetic::Or => a | b,
        Arithmetic::And => a & b,
        Arithmetic::ExclusiveOr => a ^ b,
        Arithmetic::ShiftLeft => a.checked_shl(b).unwrap_or(0),
        Arithmetic::ShiftRight => a.checked_shr(b).unwrap_or(0),
    }
}

// Whether a comparison of two words holds.
#[inline(always)]
fn holds(comparison: Comparison, a: u32, b: u32) -> bool
    ensures { result ≡ compare comparison a b }
{
    match comparison {
        Comparison::Equal => a == b,
        Comparison::AtLeast => a >= b,
        Comparison::Above => a > b,
        Comparison::SharesBit => a & b != 0,
    }
}

// The same for A and X. Not inlined: otherwise LLVM compares the two registers before every instruction.
#[inline(never)]
fn holds_of_registers(comparison: Comparison, a: u32, x: u32) -> bool
    ensures { result ≡ compare comparison a x }
{
    holds(comparison, a, x)
}
