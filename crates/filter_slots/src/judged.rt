//! Datagrams judged in advance, before it is known which programs will be in force.

ghost use Rattle.std.specs.Prelude.{◌≡◌, IsTrue, IfOk};
ghost use Rattle.std.specs.Option.{option_map, option_copied};
ghost use Rattle.std.specs.Arc.{arc_value};
ghost use Rattle.filter_slots.specs.Judged.{judged_under};
ghost use Rattle.filter_slots.specs.Verdict.{verdict_by_both, steps_by_both, verdict_in_force, steps_in_force};

use crate::datagram::Datagram;
use crate::judging::judge_by;
use crate::slots::Slots;
use bpf_check::Checked;
use bpf_run::Verdict;
use std::alloc::AllocError;
use std::marker::Model;
use std::sync::Arc;

/// A datagram with the verdict of two optional programs: `first` stands for the program of its socket's slot, `second`
/// for that of its sender's slot. Contracts see the datagram and the programs; the verdict follows from them.
#[derive(Drop)]
pub struct Judged {
    datagram: Arc<Datagram>,
    first: Option<Arc<Checked>>,
    second: Option<Arc<Checked>>,
    verdict: Verdict,
}

impl Model for Judged {
    ghost use Rattle.std.specs.Prelude.{◌≡◌};
    ghost use Rattle.std.specs.Option.{option_map};
    ghost use Rattle.std.specs.Arc.{arc_value};
    ghost use Rattle.filter_slots.specs.Judged.{JudgedFields};
    ghost use Rattle.filter_slots.specs.Verdict.{verdict_by_both, steps_by_both};

    ghost Value = { JudgedFields };

    ghost view = { λ j. record { datagram = arc_value j.datagram; first = option_map (λ arc. arc_value arc) j.first; second = option_map (λ arc. arc_value arc) j.second } };

    ghost invariant = { λ j. (j.verdict.value ≡ verdict_by_both (arc_value j.datagram) (option_map (λ arc. arc_value arc) j.first) (option_map (λ arc. arc_value arc) j.second)) × (j.verdict.steps ≡ steps_by_both (arc_value j.datagram) (option_map (λ arc. arc_value arc) j.first) (option_map (λ arc. arc_value arc) j.second)) };
}

impl Judged {
    /// Judges a datagram by the program of its socket's slot and that of its sender's slot, each if given. Allocates
    /// nothing.
    pub fn new(
        datagram: Arc<Datagram>,
        first: Option<Arc<Checked>>,
        second: Option<Arc<Checked>>,
    ) -> Judged
        ensures { result ≡ record { datagram = arc_value datagram; first = option_map (λ arc. arc_value arc) first; second = option_map (λ arc. arc_value arc) second } }
    {
        let verdict = judge_by(&datagram, first.as_ref(), second.as_ref());
        Judged {
            datagram,
            first,
            second,
            verdict,
        }
    }

    /// The verdict of its programs on its datagram.
    pub fn verdict(&self) -> Verdict
        ensures value { result.value ≡ verdict_by_both self.now.datagram self.now.first self.now.second }
        ensures steps { result.steps ≡ steps_by_both self.now.datagram self.now.first self.now.second }
    {
        self.verdict
    }

    /// The datagram.
    pub fn datagram(&self) -> &Arc<Datagram>
        ensures { arc_value result.now ≡ self.now.datagram }
    {
        &self.datagram
    }

    /// The program that it was judged by for its socket's slot, if any.
    pub fn first(&self) -> &Option<Arc<Checked>>
        ensures { option_map (λ arc. arc_value arc) result.now ≡ self.now.first }
    {
        &self.first
    }

    /// The program that it was judged by for its sender's slot, if any.
    pub fn second(&self) -> &Option<Arc<Checked>>
        ensures { option_map (λ arc. arc_value arc) result.now ≡ self.now.second }
    {
        &self.second
    }
}

impl Slots {
    /// Judges a datagram by the programs in force, and keeps a reference to each. Errors: a reference count would overflow.
    pub fn judge(&self, datagram: Arc<Datagram>) -> Result<Judged, AllocError>
        ensures { IfOk result (λ judged. judged ≡ judged_under self.now (arc_value datagram)) }
    {
        let (first, second) = self.pair(&datagram);
        let first = owned(first)?;
        let second = owned(second)?;
        Ok(Judged::new(datagram, first, second))
    }

    /// The verdict in force on a datagram that was judged in advance. Reuses its verdict if the programs of its socket's and
    /// its sender's slots equal those that it was judged by; judges the datagram otherwise.
    pub fn force_judged(&self, judged: &Judged) -> Verdict
        ensures value { result.value ≡ verdict_in_force self.now judged.now.datagram }
        ensures steps { result.steps ≡ steps_in_force self.now judged.now.datagram }
    {
        let datagram = judged.datagram();
        let (first, second) = self.pair(datagram);
        if is_same(first, judged.first()) && is_same(second, judged.second()) {
            return judged.verdict();
        }
        judge_by(datagram, first, second)
    }
}

// Another reference to the program, if any. Errors: the reference count would overflow.
fn owned(program: Option<&Arc<Checked>>) -> Result<Option<Arc<Checked>>, AllocError>
    ensures { IfOk result (λ copy. option_map (λ arc. arc_value arc) copy ≡ option_map (λ arc. arc_value arc) (option_copied program.entry)) }
{
    match program {
        None => Ok(None),
        Some(program) => Ok(Some(Arc::try_clone(program)?)),
    }
}

// Whether both programs are equal, or both absent.
fn is_same(installed: Option<&Arc<Checked>>, held: &Option<Arc<Checked>>) -> bool
    ensures { IsTrue result → option_map (λ arc. arc_value arc) (option_copied installed.entry) ≡ option_map (λ arc. arc_value arc) held.now }
{
    match (installed, held) {
        (None, None) => true,
        (Some(installed), Some(held)) => is_equal(installed, held),
        _ => false,
    }
}

fn is_equal(one: &Checked, other: &Checked) -> bool
    ensures { IsTrue result → one.now ≡ other.now }
{
    one.eq(other)
}
