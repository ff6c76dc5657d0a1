//! The verdict of two programs on a datagram.

ghost use Rattle.std.specs.Prelude.{◌≡◌, ◌≤◌, Some};
ghost use Rattle.std.specs.Option.{option_map, option_copied};
ghost use Rattle.std.specs.Arc.{arc_value};
ghost use Rattle.bpf_run.specs.Verdict.{verdict_of, steps_of};
ghost use Rattle.filter_slots.specs.Verdict.{verdict_by, steps_by, verdict_by_both, steps_by_both, cut_to};

use crate::datagram::Datagram;
use bpf_check::Checked;
use bpf_run::{Packet, Verdict, judge};
use std::sync::Arc;

/// The verdict of two programs on a datagram. The second program sees the payload truncated to what the first lets
/// through. The value is the smaller of both, hence 0 if either is 0; the steps are the sum. A missing program lets the
/// whole packet through in 0 steps.
#[inline(always)]
pub(crate) fn judge_by(
    datagram: &Datagram,
    first: Option<&Arc<Checked>>,
    second: Option<&Arc<Checked>>,
) -> Verdict
    ensures value { result.value ≡ verdict_by_both datagram.now (option_map (λ arc. arc_value arc) (option_copied first.entry)) (option_map (λ arc. arc_value arc) (option_copied second.entry)) }
    ensures steps { result.steps ≡ steps_by_both datagram.now (option_map (λ arc. arc_value arc) (option_copied first.entry)) (option_map (λ arc. arc_value arc) (option_copied second.entry)) }
{
    let outer = judge_first(datagram, first);
    let Some(second) = second else {
        return outer;
    };
    let inner = judge_rest(datagram, outer.value, second);
    Verdict {
        value: outer.value.min(inner.value),
        steps: outer.steps + inner.steps,
    }
}

// The verdict of an optional program on the whole datagram.
#[inline(always)]
fn judge_first(datagram: &Datagram, program: Option<&Arc<Checked>>) -> Verdict
    ensures value { result.value ≡ verdict_by datagram.now (option_map (λ arc. arc_value arc) (option_copied program.entry)) }
    ensures steps { result.steps ≡ steps_by datagram.now (option_map (λ arc. arc_value arc) (option_copied program.entry)) }
    ensures few { result.steps ≤ 4096 }
{
    match program {
        None => Verdict {
            value: u32::MAX,
            steps: 0,
        },
        Some(program) => judge_packet(program, &datagram.packet()),
    }
}

// The verdict of a program on a datagram truncated by an earlier verdict.
fn judge_rest(datagram: &Datagram, value: u32, program: &Checked) -> Verdict
    ensures value { result.value ≡ verdict_by (cut_to datagram.now value) (Some program.now) }
    ensures steps { result.steps ≡ steps_by (cut_to datagram.now value) (Some program.now) }
    ensures few { result.steps ≤ 4096 }
{
    judge_packet(program, &datagram.packet_cut(value))
}

// The verdict of a program on a packet. A run takes at most one step per instruction.
#[inline(always)]
fn judge_packet(program: &Checked, packet: &Packet<'_>) -> Verdict
    ensures value { result.value ≡ verdict_of program.now packet.now }
    ensures steps { result.steps ≡ steps_of program.now packet.now }
    ensures few { result.steps ≤ 4096 }
{
    let _ = program.len();
    judge(program, packet)
}
