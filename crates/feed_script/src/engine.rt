//! The engine: takes the script in chunks, and executes each line as soon as it is complete.
ghost use Rattle.std.specs.Prelude.{◌≡◌, ◌≢◌, ◌+◌, ◌^◌, ◌<◌, ◌≤◌, [], ◌∷◌, length, true, Err, OnOk, OnErr, IfErr};
ghost use Rattle.std.specs.Str.Lines.{strip_carriage_return};
ghost use Rattle.script_lines.specs.ScriptLine.{script_line};
ghost use Rattle.feed_script.specs.Script.{usual, is_misplaced};
ghost use Rattle.feed_script.specs.Written.{NoBreak};
ghost use Rattle.feed_script.specs.Ahead.{script_phase_of, stage_of, preparing, Obeys, Takes, StopsBy, Ends, EndsBy, PrintsFront};

use super::phase::{Phase, Unobeyed};
use script_lines::{LINE_LIMIT, read_line};
use std::alloc::Global;

/// Why an engine stops.
#[derive(Drop)]
pub(crate) enum Stop {
    Line(u64),
    NoMemory,
}

/// The phase of the script, the incomplete current line, and the number of lines before it.
pub(crate) struct Engine {
    phase: Phase,
    line: Vec<u8>,
    number: u64,
}

// Written by hand, so that what lets it go is one call for the prover (docs/GATE.md).
impl Drop for Engine {
    fn drop(self) {
        let Self {
            phase: _,
            line: _,
            number: _,
        } = self;
    }
}

// The line without a carriage return at its end; only one is removed.
fn without_return(line: &[u8]) -> &[u8]
    ensures { result.now ≡ strip_carriage_return line.now }
{
    match line {
        [front @ .., b'\r'] => front,
        _ => line,
    }
}

// Parses and executes a line. On an error nothing is appended to `out`.
fn obey_line(
    phase: &mut Phase,
    alloc: Global,
    text: &[u8],
    out: &mut Vec<u8>,
) -> Result<(), Unobeyed>
    ensures ok { OnOk result (Obeys phase.old (script_line text.now) out.old.items phase.new out.new.items) }
    ensures wrong { result ≡ Err Unobeyed.Wrong → is_misplaced (stage_of (script_phase_of phase.old)) (script_line text.now) ≡ true }
    ensures err { OnErr result (out.new.items ≡ out.old.items) }
{
    match read_line(alloc, text) {
        Ok(item) => phase.obey(alloc, item, out),
        Err(_) => Err(Unobeyed::Memory),
    }
}

impl Engine {
    pub(crate) fn new(alloc: Global) -> Engine
        ensures phase { script_phase_of result.phase ≡ preparing usual }
        ensures line { result.line.items ≡ [] }
        ensures number { result.number ≡ 0 }
    {
        Engine {
            phase: Phase::new(alloc),
            line: Vec::new(alloc),
            number: 0,
        }
    }

    // Handles a line break: executes the current line.
    fn break_line(&mut self, alloc: Global, out: &mut Vec<u8>) -> Result<(), Stop>
        requires few { self.old.number < 2 ^ 63 }
        requires partial { NoBreak self.old.line.items }
        ensures ok { OnOk result (Takes self.old (10 ∷ []) out.old.items self.new out.new.items) }
        ensures number { OnOk result (self.new.number ≡ self.old.number + 1) }
        ensures stop { IfErr result (StopsBy self.old (10 ∷ []) out.old.items out.new.items) }
    {
        let text = without_return(self.line.as_slice());
        match obey_line(&mut self.phase, alloc, text, out) {
            Ok(()) => {
                self.line.clear();
                self.number += 1;
                Ok(())
            }
            Err(Unobeyed::Wrong) => Err(Stop::Line(self.number + 1)),
            Err(Unobeyed::Memory) => Err(Stop::NoMemory),
        }
    }

    // Appends an octet other than a line break to the current line.
    fn extend_line(&mut self, c: u8, out: &Vec<u8>) -> Result<(), Stop>
        requires few { self.old.number < 2 ^ 63 }
        requires partial { NoBreak self.old.line.items }
        requires inside { c ≢ 10 }
        ensures ok { OnOk result (Takes self.old (c ∷ []) out.now.items self.new out.now.items) }
        ensures number { OnOk result (self.new.number ≡ self.old.number) }
        ensures stop { IfErr result (StopsBy self.old (c ∷ []) out.now.items out.now.items) }
    {
        if self.line.len() > LINE_LIMIT {
            return Err(Stop::Line(self.number + 1));
        }
        match self.line.push(c) {
            Ok(()) => Ok(()),
            Err(_) => Err(Stop::NoMemory),
        }
    }

    /// Takes the next chunk of the script, executes each line that it completes, and appends the output to `out`.
    /// Errors: the number of the first wrong line, or out of memory; `out` then holds the output of the lines executed before.
    pub(crate) fn take(
        &mut self,
        alloc: Global,
        piece: &[u8],
        out: &mut Vec<u8>,
    ) -> Result<(), Stop>
        requires few { self.old.number + length piece.now < 2 ^ 63 }
        requires partial { NoBreak self.old.line.items }
        ensures ok { OnOk result (Takes self.old piece.now out.old.items self.new out.new.items) }
        ensures number { OnOk result (self.new.number ≤ self.old.number + length piece.now) }
        ensures stop { IfErr result (StopsBy self.old piece.now out.old.items out.new.items) }
        ensures front { PrintsFront self.old piece.now out.old.items out.new.items }
    {
        for c in piece {
            if *c == b'\n' {
                self.break_line(alloc, out)?;
            } else {
                self.extend_line(*c, out)?;
            }
        }
        Ok(())
    }

    /// Ends the script: executes a last line that has no line break. Errors as for [`Engine::take`].
    pub(crate) fn finish(&mut self, alloc: Global, out: &mut Vec<u8>) -> Result<(), Stop>
        requires few { self.old.number < 2 ^ 63 }
        requires partial { NoBreak self.old.line.items }
        ensures ok { OnOk result (Ends self.old out.old.items out.new.items) }
        ensures stop { IfErr result (EndsBy self.old out.old.items out.new.items) }
        ensures front { PrintsFront self.old [] out.old.items out.new.items }
    {
        if self.line.is_empty() {
            return Ok(());
        }
        match obey_line(&mut self.phase, alloc, self.line.as_slice(), out) {
            Ok(()) => Ok(()),
            Err(Unobeyed::Wrong) => Err(Stop::Line(self.number + 1)),
            Err(Unobeyed::Memory) => Err(Stop::NoMemory),
        }
    }
}
