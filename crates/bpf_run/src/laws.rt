//! Lemmas about the definitions of runs.

ghost use Rattle.std.specs.Prelude.{List, ℕ, ◌↔◌};
ghost use Rattle.bpf_check.specs.declared.insn.Insn.{Insn};
ghost use Rattle.bpf_check.specs.Accepted.{IsAccepted};
ghost use Rattle.bpf_run.specs.Chain.{Point, IsChain, Gives, EndsOnce};
ghost use Rattle.bpf_run.specs.Earlier.{WasAccepted, WasChain, Gave};
ghost use Rattle.bpf_run.specs.Verdict.{verdict_of, steps_of};

/// The run of an accepted program on any list of octets ends, with exactly one value and one number of steps, which is at most
/// the number of instructions.
pub fn each_run_ends()
    ensures { (p : List Insn) (packet : List ℕ) → IsAccepted p → EndsOnce p packet }
{}

/// The functions `verdict_of` and `steps_of` give the value and the number of steps of an accepted program's run.
pub fn verdict_is_given()
    ensures { (p : List Insn) (packet : List ℕ) → IsAccepted p → Gives p packet (verdict_of p packet) (steps_of p packet) }
{}

/// Programs accepted by the earlier checker, which allowed at most 512 instructions and neither `mod` nor `xor`, are still
/// accepted, with the same chains and so the same results.
pub fn what_was_accepted_runs_the_same()
    ensures accepted { (p : List Insn) → WasAccepted p → IsAccepted p }
    ensures chains { (p : List Insn) (packet : List ℕ) (chain : List Point) → WasAccepted p
        → WasChain p packet chain ↔ IsChain p packet chain }
    ensures gives { (p : List Insn) (packet : List ℕ) (value steps : ℕ) → WasAccepted p
        → Gave p packet value steps ↔ Gives p packet value steps }
{}
