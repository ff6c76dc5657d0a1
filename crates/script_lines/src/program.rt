//! Filter programs on a line, and their verdict by the checker.
ghost use Rattle.std.specs.Prelude.{◌≡◌, IfOk, IfErr, Some, None, map};
ghost use Rattle.std.specs.Option.{option_map};
ghost use Rattle.script_lines.specs.Words.{insn, insn_of, insns_of, program};
ghost use Rattle.bpf_check.specs.Refusal.{program_fault};

use super::number::{half, octet, word};
use super::parts::parts_of;
use bpf_check::{CheckFault, Checked, Insn, check};
use std::alloc::{AllocError, Global};

// Parses an instruction from exactly four parts.
fn insn_of(parts: &[&[u8]]) -> Option<Insn>
    ensures { result ≡ insn_of (map (λ x. x.now) parts.now) }
{
    match parts {
        [code, jt, jf, k] => match (half(*code), octet(*jt), octet(*jf), word(*k)) {
            (Some(code), Some(jt), Some(jf), Some(k)) => Some(Insn { code, jt, jf, k }),
            _ => None,
        },
        _ => None,
    }
}

// Parses an instruction such as `21,0,1,1` (code, jt, jf, k).
fn read_insn(alloc: Global, text: &[u8]) -> Result<Option<Insn>, AllocError>
    ensures { IfOk result (λ o. o ≡ insn text.now) }
{
    let parts = parts_of(alloc, text, b',')?;
    Ok(insn_of(parts.as_slice()))
}

// Parses each part as an instruction; `None` if one of them is malformed.
fn insns_of(alloc: Global, parts: &[&[u8]]) -> Result<Option<Vec<Insn>>, AllocError>
    ensures { IfOk result (λ o. option_map (λ v. v.items) o ≡ insns_of (map (λ x. x.now) parts.now)) }
{
    let mut insns = Vec::new(alloc);
    for part in parts {
        let Some(insn) = read_insn(alloc, *part)? else {
            return Ok(None);
        };
        insns.push(insn)?;
    }
    Ok(Some(insns))
}

/// Parses a program, its instructions separated by semicolons; `None` if one is malformed. Errors: out of memory.
pub(crate) fn read_program(alloc: Global, text: &[u8]) -> Result<Option<Vec<Insn>>, AllocError>
    ensures { IfOk result (λ o. option_map (λ v. v.items) o ≡ program text.now) }
{
    let parts = parts_of(alloc, text, b';')?;
    insns_of(alloc, parts.as_slice())
}

/// Runs the checker on the program. Errors: the first fault of the program.
pub(crate) fn judged(insns: Vec<Insn>) -> Result<Checked, CheckFault>
    ensures accepted { IfOk result (λ checked. (checked ≡ insns.items) × (program_fault insns.items ≡ None)) }
    ensures refused { IfErr result (λ fault. program_fault insns.items ≡ Some fault) }
{
    match check(insns) {
        Ok(checked) => Ok(checked),
        Err((fault, _)) => Err(fault),
    }
}
