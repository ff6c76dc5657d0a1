//! Runs of accepted programs, with the machine before each instruction.

ghost use Rattle.std.specs.Prelude.{◌≡◌, length, IfOk};
ghost use Rattle.bpf_run.specs.Run.{IsRun};
ghost use Rattle.bpf_run.specs.Verdict.{verdict_of, steps_of};

use crate::machine::{Machine, Outcome, execute};
use crate::packet::Packet;
use bpf_check::Checked;
use std::alloc::{AllocError, Global};
use std::marker::Model;

/// A state of a run: the index of the instruction that is executed next, and the machine before it.
#[derive(Clone, Copy)]
pub struct State {
    place: usize,
    machine: Machine,
}

impl Model for State {
    ghost use Rattle.bpf_run.specs.Chain.{Point};

    ghost Value = { Point };

    ghost view = { λ s. record { place = s.place; machine = s.machine } };

    ghost inverse = { λ p. record { place = p.place; machine = p.machine } };
}

impl State {
    /// The 0-based index of the instruction that is executed next.
    pub fn place(&self) -> usize
        ensures { result ≡ self.now.place }
    {
        self.place
    }

    /// The machine before that instruction.
    pub fn machine(&self) -> Machine
        ensures { result ≡ self.now.machine }
    {
        self.machine
    }
}

/// A whole run: its states in order, and the value that it ended with.
#[derive(Drop)]
pub struct Run {
    /// The states, from the first instruction to the one that ended the run.
    pub states: Vec<State>,
    /// The value that the filter returned.
    pub value: u32,
}

/// Runs an accepted program on a packet, as `judge` does, and keeps the state before each instruction that it executes: at most
/// as many as the program has instructions.
pub fn run_states(alloc: Global, program: &Checked, packet: &Packet<'_>) -> Result<Run, AllocError>
    ensures run { IfOk result (λ run. IsRun program.now packet.now run.states.items run.value) }
    ensures value { IfOk result (λ run. run.value ≡ verdict_of program.now packet.now) }
    ensures steps { IfOk result (λ run. length run.states.items ≡ steps_of program.now packet.now) }
{
    let insns = program.insns();
    let mut states = Vec::new(alloc);
    let mut machine = Machine::new();
    let mut place = 0;
    'run: loop {
        states.push(State { place, machine })?;
        match execute(&insns[place], &mut machine, packet) {
            Outcome::Next => place += 1,
            Outcome::Skip(distance) => place += 1 + distance,
            Outcome::End(value) => return Ok(Run { states, value }),
        }
    }
}
