//! Reads filter programs from text.
ghost use Rattle.std.specs.Prelude.{◌≡◌, ◌<◌, length, IfOk, IfErr, IfSome};
ghost use Rattle.std.specs.List.{position};
ghost use Rattle.filter_text.specs.FilterText.{is_text, is_listing, StandsFor, IsFaultOf};

use crate::fault::ProgramFault;
use bpf_asm::assemble;
use bpf_check::{Checked, Insn, check, read_listing};
use std::alloc::Global;

/// Reads a filter program: a listing, as `tcpdump -ddd` prints it, if the first octet except spaces, tabs, CR and LF is a digit,
/// otherwise assembler text.
///
/// Errors: the first fault of the listing or the assembler text, otherwise the first fault that the checker finds.
pub fn read_program(alloc: Global, text: &[u8]) -> Result<Checked, ProgramFault>
    ensures program { IfOk result (λ program. StandsFor text.now program) }
    ensures fault { IfErr result (λ fault. IsFaultOf text.now fault) }
{
    match check(instructions(alloc, text)?) {
        Ok(program) => Ok(program),
        Err((fault, _)) => Err(ProgramFault::Check(fault)),
    }
}

/// The instructions of a text, not checked yet.
fn instructions(alloc: Global, text: &[u8]) -> Result<Vec<Insn>, ProgramFault>
    ensures program { IfOk result (λ v. StandsFor text.now v.items) }
    ensures fault { IfErr result (λ fault. IsFaultOf text.now fault) }
{
    if is_listing(text) {
        return read_listing(alloc, text).map_err(ProgramFault::Listing);
    }
    assemble(alloc, text).map_err(ProgramFault::Assembler)
}

/// Whether the first octet except spaces, tabs, CR and LF is a digit.
fn is_listing(text: &[u8]) -> bool
    ensures { result ≡ is_listing text.now }
{
    match first_text(text) {
        Some(place) => text[place].is_ascii_digit(),
        None => false,
    }
}

/// The index of the first octet except spaces, tabs, CR and LF.
fn first_text(text: &[u8]) -> Option<usize>
    ensures first { result ≡ position is_text text.now }
    ensures within { IfSome result (λ place. place < length text.now) }
{
    text.iter().position(|octet| *octet != b' '
        && *octet != b'\t'
        && *octet != b'\r'
        && *octet != b'\n')
}
