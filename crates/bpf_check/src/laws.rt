//! Lemmas about the checker's definitions, for proofs in other crates.

ghost use Rattle.bpf_check.specs.Refusal.{RefusesFirstFault, RefusesUnaccepted};

/// The function that computes the fault of a program returns a fault exactly if that is the program's first fault, and `None`
/// exactly if the program is accepted.
pub fn refusal_is_the_first_fault()
    ensures first { RefusesFirstFault }
    ensures none { RefusesUnaccepted }
{}
