//! Resolves labels to jump distances, in the second pass.

ghost use Rattle.std.specs.Prelude.{◌≡◌, ◌+◌, ◌≤◌, Some, MatchResult};
ghost use Rattle.bpf_check.specs.declared.operation.Operation.{Operation};
ghost use Rattle.bpf_asm.specs.Labels.{named};
ghost use Rattle.bpf_asm.specs.Assembly.{IsBranch};
ghost use Rattle.bpf_asm.specs.Drafts.{WrongLabel, IsResolved, Unresolved, shown_draft};

use crate::draft::Draft;
use crate::fault::AsmFault;
use crate::labels::label_index;
use crate::names::Names;
use bpf_check::Insn;
use bpf_check::operation::Operation;

// The distance of a jump at index `place` to a label. Errors: `NoLabel`, `Backward`.
fn distance_to(names: &Names<'_>, place: u32, label: &[u8], line: usize) -> Result<u32, AsmFault>
    requires { place ≤ 65536 }
    ensures { (operation : Operation) → MatchResult result
        (λ distance. named names.now label.now ≡ Some (place + 1 + distance))
        (λ fault. WrongLabel (named names.now) place operation label.now line fault) }
{
    let Some(target) = label_index(names, label) else {
        return Err(AsmFault::NoLabel(line));
    };
    if target <= place {
        return Err(AsmFault::Backward(line));
    }
    Ok(target - (place + 1))
}

// The distance of a conditional jump, which has to fit 8 bits. Errors: those of `distance_to`, and `Far`.
fn short_distance_to(
    names: &Names<'_>,
    place: u32,
    label: &[u8],
    line: usize,
) -> Result<u8, AsmFault>
    requires { place ≤ 65536 }
    ensures { (operation : Operation) → IsBranch operation → MatchResult result
        (λ distance. named names.now label.now ≡ Some (place + 1 + distance))
        (λ fault. WrongLabel (named names.now) place operation label.now line fault) }
{
    let distance = distance_to(names, place, label, line)?;
    match u8::try_from(distance) {
        Ok(distance) => Ok(distance),
        Err(_) => Err(AsmFault::Far(line)),
    }
}

// The instruction of an unconditional jump.
fn resolve_jump(names: &Names<'_>, place: u32, draft: &Draft<'_>) -> Result<Insn, AsmFault>
    requires place { place ≤ 65536 }
    requires jump { draft.now.operation ≡ Operation.Jump }
    ensures { MatchResult result
        (λ i. IsResolved (named names.now) place (shown_draft draft.now) i)
        (λ fault. Unresolved (named names.now) place (shown_draft draft.now) fault) }
{
    let k = distance_to(names, place, draft.first, draft.line)?;
    Ok(Insn {
        code: draft.code,
        jt: 0,
        jf: 0,
        k,
    })
}

// The instruction of a conditional jump.
fn resolve_branch(names: &Names<'_>, place: u32, draft: &Draft<'_>) -> Result<Insn, AsmFault>
    requires place { place ≤ 65536 }
    requires branch { IsBranch draft.now.operation }
    ensures { MatchResult result
        (λ i. IsResolved (named names.now) place (shown_draft draft.now) i)
        (λ fault. Unresolved (named names.now) place (shown_draft draft.now) fault) }
{
    let jt = short_distance_to(names, place, draft.first, draft.line)?;
    let jf = short_distance_to(names, place, draft.second, draft.line)?;
    Ok(Insn {
        code: draft.code,
        jt,
        jf,
        k: draft.k,
    })
}

/// The instruction of a draft at index `place`. Errors: the fault of the first wrong label.
pub(crate) fn resolve(names: &Names<'_>, place: u32, draft: &Draft<'_>) -> Result<Insn, AsmFault>
    requires { place ≤ 65536 }
    ensures { MatchResult result
        (λ i. IsResolved (named names.now) place (shown_draft draft.now) i)
        (λ fault. Unresolved (named names.now) place (shown_draft draft.now) fault) }
{
    match draft.operation {
        Operation::Jump => resolve_jump(names, place, draft),
        Operation::Branch(_, _) => resolve_branch(names, place, draft),
        _ => Ok(Insn {
            code: draft.code,
            jt: 0,
            jf: 0,
            k: draft.k,
        }),
    }
}
