//! The interpreter of accepted programs.

ghost use Rattle.std.specs.Prelude.{◌≡◌, ℕ, ◌≤◌, length};
ghost use Rattle.bpf_run.specs.Chain.{Gives};
ghost use Rattle.bpf_run.specs.Run.{EndsAt};
ghost use Rattle.bpf_run.specs.Verdict.{verdict_of, steps_of};

use crate::machine::{Machine, Outcome, execute};
use crate::packet::Packet;
use bpf_check::Checked;

/// The result of running a filter.
#[derive(Clone, Copy, PartialEq, Eq)]
pub struct Verdict {
    /// The value that the filter returned.
    pub value: u32,
    /// The number of executed instructions, including the one that ended the run.
    pub steps: u16,
}

/// The value of a run, and where it ended.
#[derive(Clone, Copy)]
pub struct Ending {
    /// The value that the filter returned.
    pub value: u32,
    /// The 0-based index of the instruction that ended the run.
    pub place: usize,
}

/// Runs an accepted program on a packet. It executes at most as many instructions as the program has.
///
/// A load with an octet outside the packet, and a division or remainder by an index register of 0, end the run with the value 0.
// Not inlined: registers shared with the caller would make each instruction slower.
#[inline(never)]
pub fn judge(program: &Checked, packet: &Packet<'_>) -> Verdict
    ensures gives { Gives program.now packet.now result.value result.steps }
    ensures within { result.steps ≤ length program.now }
    ensures value { result.value ≡ verdict_of program.now packet.now }
    ensures steps { result.steps ≡ steps_of program.now packet.now }
    ensures only { (v n : ℕ) → Gives program.now packet.now v n → (v ≡ result.value) × (n ≡ result.steps) }
{
    let insns = program.insns();
    let mut machine = Machine::new();
    let mut place = 0;
    // How many of the instructions before this one were jumped over. All others were executed, so that only jumps have to count.
    let mut skipped = 0;
    'run: loop {
        match execute(&insns[place], &mut machine, packet) {
            Outcome::Next => place += 1,
            Outcome::Skip(distance) => {
                place += 1 + distance;
                skipped += distance;
            }
            Outcome::End(value) => {
                return Verdict {
                    value,
                    steps: (place + 1 - skipped) as u16,
                };
            }
        }
    }
}

/// Runs an accepted program on a packet, as `judge` does, and says which instruction ended the run.
// Not inlined, as `judge`.
#[inline(never)]
pub fn judge_with_end(program: &Checked, packet: &Packet<'_>) -> Ending
    ensures value { result.value ≡ verdict_of program.now packet.now }
    ensures place { EndsAt program.now packet.now result.place }
{
    let insns = program.insns();
    let mut machine = Machine::new();
    let mut place = 0;
    'run: loop {
        match execute(&insns[place], &mut machine, packet) {
            Outcome::Next => place += 1,
            Outcome::Skip(distance) => place += 1 + distance,
            Outcome::End(value) => return Ending { value, place },
        }
    }
}
