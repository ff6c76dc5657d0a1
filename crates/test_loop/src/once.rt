//! A datagram whose programs equal those in force is not judged again when it is submitted. Only time tells: a filter of 4,096
//! instructions takes longer to run than to compare, so a query that it judged before is submitted in less time than one that was
//! judged by no filter and is judged again. The shortest of many submissions are compared, which take turns, so that other load
//! on the machine meets both.
use crate::desks::{Story, at_desk};
use crate::events::{
    actions_of, at, filter_of, insn, judged_for, judged_under, swap_for, takes_judged,
};
use crate::messages::{SLOTS, query};
use crate::rows::{Question, all_hold};
use crate::sites::FILTERED;
use bpf_check::Checked;
use filter_slots::{Judged, Moment, Slot};
use node_book::Clerk;
use node_core::Out;
use std::alloc::Global;
use std::sync::{Arc, Wait};
use std::test::Fail;
use std::time::{Clock, Duration, Instant};

/// How often each query is submitted.
const SUBMISSIONS: u32 = 400;

/// The longest filter that there is: 4,095 divisions, and a return that lets the whole datagram through.
fn longest(alloc: Global) -> Option<Arc<Checked>> {
    let mut insns = Vec::new(alloc);
    for _ in 0..4_095u32 {
        insns.push(insn(0x34, 3)).ok()?;
    }
    insns.push(insn(6, 65_535)).ok()?;
    filter_of(alloc, insns)
}

/// How long the clerk takes to take a query that was judged before.
fn time_of<C: Clerk, R: Clock>(
    rt: &R,
    alloc: Global,
    clerk: &mut C,
    judged: &Judged,
    now: Moment,
    out: &mut Out,
) -> Option<Duration> {
    let start = Instant::now(rt).ok()?;
    let is_taken = takes_judged(alloc, clerk, judged, now, out);
    let time = start.elapsed(rt).ok()?;
    match is_taken {
        true => Some(time),
        false => None,
    }
}

/// The shortest times that the clerk takes for two queries that were judged before, which it is handed in turns.
fn shortest<C: Clerk, R: Clock>(
    rt: &R,
    alloc: Global,
    clerk: &mut C,
    one: &Judged,
    other: &Judged,
) -> Option<(Duration, Duration)> {
    let now = Moment::new(at(5))?;
    let mut out = Out::new(alloc).ok()?;
    let mut shortest = (Duration::MAX, Duration::MAX);
    for _ in 0..SUBMISSIONS {
        let of_one = time_of(rt, alloc, clerk, one, now, &mut out)?;
        let of_other = time_of(rt, alloc, clerk, other, now, &mut out)?;
        shortest = (shortest.0.min(of_one), shortest.1.min(of_other));
    }
    Some(shortest)
}

/// The shortest times for this query, and for one that was judged by no filter.
fn both_times<C: Clerk, R: Clock>(
    rt: &R,
    alloc: Global,
    clerk: &mut C,
    judged: &Judged,
) -> Option<(Duration, Duration)> {
    let unjudged = Judged::new(query(alloc, 0)?, None, None);
    let times = shortest(rt, alloc, clerk, judged, &unjudged);
    drop(unjudged);
    times
}

/// Whether a query takes less than 0.7 of the time of one that was judged by no filter.
fn is_shorter<C: Clerk, R: Clock>(
    rt: &R,
    alloc: Global,
    clerk: &mut C,
    judged: Judged,
) -> Option<bool> {
    let times = both_times(rt, alloc, clerk, &judged);
    drop(judged);
    let (once, again) = times?;
    Some(once.saturating_mul(10) < again.saturating_mul(7))
}

/// With the longest filter in a slot that holds for a query that the clerk judges by it, and for one that was judged by an equal
/// filter.
#[derive(Drop)]
struct JudgedOnce<'a, R> {
    rt: &'a R,
    slot: Slot,
}

impl<R: Clock> Story for JudgedOnce<'_, R> {
    fn tell<C: Clerk>(&self, alloc: Global, clerk: &mut C) -> Option<bool> {
        actions_of(alloc, clerk, swap_for(alloc, self.slot, &longest(alloc)?)?)?;
        let judged = judged_for(clerk, query(alloc, 0)?)?;
        let by_clerk = is_shorter(self.rt, alloc, clerk, judged)?;
        let equal = judged_under(alloc, self.slot, Some(longest(alloc)?))?;
        Some(is_shorter(self.rt, alloc, clerk, equal)? && by_clerk)
    }
}

/// The same at a new desk, for a slot.
#[derive(Drop)]
struct OnceAtDesk<'a, R> {
    rt: &'a R,
}

impl<R: Wait + Clock> Question<Slot> for OnceAtDesk<'_, R> {
    fn holds(&self, alloc: Global, slot: &Slot) -> Option<bool> {
        let story = JudgedOnce {
            rt: self.rt,
            slot: *slot,
        };
        let (holds, _, _) = at_desk(self.rt, alloc, &FILTERED, 64, &story)?;
        Some(holds)
    }
}

#[test]
fn a_datagram_is_judged_once(rt: HostRuntime) -> Result<(), Fail> {
    all_hold(rt.alloc(), &SLOTS, &OnceAtDesk { rt: &rt })
}
