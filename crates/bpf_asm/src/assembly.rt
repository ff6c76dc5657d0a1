//! The assembler, in two passes over the lines of a text. Finding a fault never depends on an allocation.

ghost use Rattle.std.specs.Prelude.{◌≡◌, ◌+◌, ◌*◌, ◌<◌, ◌≤◌, ℕ, List, [], length, IfOk, IfErr, MatchOption, MatchResult};
ghost use Rattle.bpf_check.specs.declared.insn.Insn.{Insn};
ghost use Rattle.bpf_check.specs.Accepted.{most_insns};
ghost use Rattle.bpf_asm.specs.Token.{tokens};
ghost use Rattle.bpf_asm.specs.Labels.{named};
ghost use Rattle.bpf_asm.specs.Assembly.{body_of, instruction_index, token_lines, Assembles, IsFirstFault, IsAssemblyFault};
ghost use Rattle.bpf_asm.specs.Drafts.{Counted, CountRefused, IsTable, NoneBefore, HasInsn, InsnRefused};

use crate::draft::draft_in;
use crate::fault::AsmFault;
use crate::labels::{name_line, no_names};
use crate::line::body_in;
use crate::names::Names;
use crate::resolve::resolve;
use bpf_check::Insn;
use bpf_check::checked::MOST_INSNS;
use bpf_check::listing::{keep, next_line};
use std::alloc::Global;

// The instruction index after a line with this body.
fn place_behind(place: u32, line: usize, body: &[u8]) -> Result<u32, AsmFault>
    requires { place ≤ most_insns }
    ensures { MatchResult result
        (λ next. Counted place next (tokens body.now))
        (λ fault. CountRefused place line (tokens body.now) fault) }
{
    let Some(_) = draft_in(line, body)? else {
        return Ok(place);
    };
    if place >= MOST_INSNS as u32 {
        return Err(AsmFault::TooLong(line));
    }
    Ok(place + 1)
}

// The first pass: collects the labels.
fn names_of(alloc: Global, text: &[u8]) -> Result<Names<'_>, AsmFault>
    ensures { let ls = token_lines text.now in MatchResult result
        (λ names. IsTable ls (length ls) (named names)
        × (instruction_index ls (length ls) ≤ most_insns) × NoneBefore ls (3 * length ls))
        (λ fault. IsFirstFault ls fault) }
{
    let mut names = no_names(alloc, text);
    let mut rest = text;
    let mut place = 0;
    while let Some((line, after)) = next_line(rest) {
        names = name_line(names, place, line)?;
        place = place_behind(place, names.lines, body_in(line))?;
        rest = after;
    }
    Ok(names)
}

// The instruction on a line, or `None` if the line has none.
fn insn_in(names: &Names<'_>, place: u32, at: usize, line: &[u8]) -> Result<Option<Insn>, AsmFault>
    requires { place ≤ 65536 }
    ensures { MatchResult result
        (λ found. MatchOption found (body_of (tokens line.now) ≡ [])
        (λ i. HasInsn (named names.now) place (body_of (tokens line.now)) i))
        (λ fault. InsnRefused (named names.now) place at (body_of (tokens line.now)) fault) }
{
    let Some(draft) = draft_in(at, body_in(line))? else {
        return Ok(None);
    };
    Ok(Some(resolve(names, place, &draft)?))
}

// The second pass: collects the instructions. It reads on after a failed allocation, since a fault of the text takes precedence.
fn insns_of(alloc: Global, text: &[u8], names: &Names<'_>) -> Result<Vec<Insn>, AsmFault>
    requires table { let ls = token_lines text.now in IsTable ls (length ls) (named names.now) }
    requires short { let ls = token_lines text.now in instruction_index ls (length ls) ≤ most_insns }
    requires none { let ls = token_lines text.now in NoneBefore ls (3 * length ls) }
    ensures { let ls = token_lines text.now in MatchResult result
        (λ v. Assembles ls v.items) (λ fault. IsAssemblyFault ls fault) }
{
    let mut kept = Some(Vec::new(alloc));
    let mut rest = text;
    let mut place = 0;
    let mut at = 0;
    while let Some((line, after)) = next_line(rest) {
        at += 1;
        rest = after;
        let Some(insn) = insn_in(names, place, at, line)? else {
            continue;
        };
        kept = keep(kept, insn);
        place += 1;
    }
    match kept {
        Some(insns) => Ok(insns),
        None => Err(AsmFault::NoMemory),
    }
}

// Assembles a text.
fn read(alloc: Global, text: &[u8]) -> Result<Vec<Insn>, AsmFault>
    ensures { let ls = token_lines text.now in MatchResult result
        (λ v. Assembles ls v.items) (λ fault. IsAssemblyFault ls fault) }
{
    let names = names_of(alloc, text)?;
    insns_of(alloc, text, &names)
}

/// Assembles a text into instructions.
///
/// Errors: the first fault of the text. Lines come in order, and of a line first its label, then its mnemonic, the form of its
/// operands and its number, then the limit of 4,096 instructions. Faults of jumps' labels come after those of all lines, in the
/// order of the jumps. `NoMemory` is returned only if the text has no fault.
///
/// A label after the last instruction names the index one past it.
pub fn assemble(alloc: Global, text: &[u8]) -> Result<Vec<Insn>, AsmFault>
    ensures program { IfOk result (λ v. Assembles (token_lines text.now) v.items) }
    ensures only { (p : List Insn) → Assembles (token_lines text.now) p
        → MatchResult result (λ v. v.items ≡ p) (λ fault. fault ≡ AsmFault.NoMemory) }
    ensures fault { IfErr result (λ fault. IsAssemblyFault (token_lines text.now) fault) }
{
    read(alloc, text)
}
