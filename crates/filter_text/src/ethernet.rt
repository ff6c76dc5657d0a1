//! Tells programs that are made for Ethernet frames.
ghost use Rattle.std.specs.Prelude.{◌≡◌};
ghost use Rattle.filter_text.specs.Ethernet.{asks_for_frame_type, is_for_ethernet, loads_frame_type};

use bpf_check::{Checked, Insn};

// Whether an instruction is `ldh [12]`.
fn loads_frame_type(insn: &Insn) -> bool
    ensures { result ≡ loads_frame_type insn.now }
{
    insn.code == 0x28 && insn.k == 12
}

// Whether an instruction is `jeq` with the type of a frame.
fn asks_for_frame_type(insn: &Insn) -> bool
    ensures { result ≡ asks_for_frame_type insn.now }
{
    insn.code == 0x15 && matches!(insn.k, 0x800 | 0x806 | 0x8035 | 0x8100 | 0x86dd)
}

/// Whether a program begins as one for Ethernet frames does, with `ldh [12]` and `jeq` with the type of a frame. It judges datagrams,
/// which have no such type, so it is hardly what its writer meant.
pub fn is_for_ethernet(program: &Checked) -> bool
    ensures { result ≡ is_for_ethernet program.now }
{
    match program.insns() {
        [first, second, ..] => loads_frame_type(first) && asks_for_frame_type(second),
        _ => false,
    }
}
