//! Laws of the verdict. The functions do nothing; their contracts are the laws.

ghost use Rattle.std.specs.Prelude.{◌≡◌, ℕ, List, Some};
ghost use Rattle.bpf_check.specs.declared.insn.Insn.{Insn};
ghost use Rattle.bpf_run.specs.Packet.{filter_packet};
ghost use Rattle.bpf_run.specs.Chain.{Gives};
ghost use Rattle.filter_slots.specs.Cut.{cut_of};
ghost use Rattle.filter_slots.specs.Datagram.{DatagramFields};
ghost use Rattle.filter_slots.specs.Filters.{Filters, AreAccepted};
ghost use Rattle.filter_slots.specs.Verdict.{verdict_by, steps_by, cut_to, sockets_program, neighbours_program};

use bpf_run::laws::verdict_is_given;

/// The verdict and steps of each slot's program are those of its run: the program of the socket runs on the whole packet,
/// that of the sender on the packet with the payload that the first lets through.
pub fn verdict_in_force_is_given()
    ensures first { (filters : Filters) (d : DatagramFields) (p : List Insn) → AreAccepted filters → sockets_program filters d ≡ Some p → Gives p (filter_packet d.from d.to d.payload) (verdict_by d (Some p)) (steps_by d (Some p)) }
    ensures second { (filters : Filters) (d : DatagramFields) (value : ℕ) (p : List Insn) → AreAccepted filters → neighbours_program filters d ≡ Some p → Gives p (filter_packet d.from d.to (cut_of d.payload value)) (verdict_by (cut_to d value) (Some p)) (steps_by (cut_to d value) (Some p)) }
{
    verdict_is_given()
}
