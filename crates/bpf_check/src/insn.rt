//! A single instruction.

ghost use Rattle.std.specs.Prelude.{◌≡◌, ◌+◌, ◌*◌};
ghost use Rattle.bpf_check.specs.Insn.{InRange};

/// A classic BPF instruction: the four fields of its encoding.
#[derive(Clone, Copy, PartialEq, Eq)]
pub struct Insn {
    /// The operation code.
    pub code: u16,
    /// How many instructions a conditional jump skips if its test holds.
    pub jt: u8,
    /// How many instructions a conditional jump skips if its test fails.
    pub jf: u8,
    /// The constant, the packet offset, the index of a scratch word, or the distance of an unconditional jump.
    pub k: u32,
}

impl Insn {
    // Each field is within its range. The function does nothing; callers need its contract in proofs.
    pub(crate) fn is_in_range(&self)
        ensures { InRange self.now }
    {
        let _code = self.code;
        let _jt = self.jt;
        let _jf = self.jf;
        let _k = self.k;
    }

    // The fields packed into one 64-bit word, in the order of the struct, so that programs are compared a word at a time.
    #[inline(always)]
    pub(crate) fn word(&self) -> u64
        ensures value { result ≡ self.now.code + self.now.jt * 65536 + self.now.jf * 16777216 + self.now.k * 4294967296 }
        ensures range { InRange self.now }
    {
        self.code as u64
            + self.jt as u64 * 65_536
            + self.jf as u64 * 16_777_216
            + self.k as u64 * 4_294_967_296
    }
}
