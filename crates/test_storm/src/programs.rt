//! Random filter programs.
use crate::draws::Draws;
use bpf_check::{Checked, Insn, check};
use std::alloc::{AllocError, Global};

/// Opcodes of all instructions but the last.
const CODES: [u16; 47] = [
    0x20, 0x28, 0x30, 0x40, 0x48, 0x50, 0x00, 0x60, 0x80, 0x01, 0x61, 0x81, 0xb1, 0x02, 0x03, 0x04,
    0x14, 0x24, 0x34, 0x44, 0x54, 0x64, 0x74, 0x0c, 0x1c, 0x3c, 0x4c, 0x5c, 0x6c, 0x7c, 0x84, 0x05,
    0x15, 0x35, 0x25, 0x45, 0x1d, 0x3d, 0x2d, 0x4d, 0x07, 0x87, 0x30, 0x94, 0x9c, 0xa4, 0xac,
];

/// Returned constants: 0, the header alone, some octets of payload, everything.
const RESULTS: [u32; 10] = [0, 0, 28, 40, 48, 60, 62, 100, 65_535, 4_294_967_295];

/// Constants, including offsets in the header and in messages.
const CONSTANTS: [u32; 16] = [
    0,
    1,
    2,
    4,
    9,
    12,
    20,
    22,
    28,
    29,
    30,
    36,
    48,
    62,
    255,
    4_294_967_295,
];

/// A random instruction that is followed by `behind` others.
fn insn(draws: &mut Draws, behind: u32) -> Insn {
    let code = draws.of(&CODES, 0);
    let mut k = draws.of(&CONSTANTS, 0);
    if code == 0x05 {
        k = draws.small(behind);
    }
    if matches!(code, 0x60 | 0x61 | 0x02 | 0x03) {
        k = draws.small(16);
    }
    if matches!(code, 0x34 | 0x94) && k == 0 {
        k = 3;
    }
    Insn {
        code,
        jt: draws.octet_below(behind.min(256)),
        jf: draws.octet_below(behind.min(256)),
        k,
    }
}

/// The last instruction, a return.
fn last(draws: &mut Draws) -> Insn {
    Insn {
        code: if draws.one_in(4) { 0x16 } else { 0x06 },
        jt: 0,
        jf: 0,
        k: draws.of(&RESULTS, 0),
    }
}

/// A random program, or `None` if the checker rejects it.
pub fn program(alloc: Global, draws: &mut Draws) -> Result<Option<Checked>, AllocError> {
    let most = draws.of(&[4, 4, 4, 4, 4, 4, 40, 40, 40, 600], 4);
    let count = draws.small(most);
    let mut insns = Vec::new(alloc);
    for place in 0..count {
        insns.push(insn(draws, count.saturating_sub(place)))?;
    }
    insns.push(last(draws))?;
    Ok(check(insns).ok())
}
