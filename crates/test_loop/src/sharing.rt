//! What a judged datagram holds: references to the filters that are installed, by their count.
use crate::desks::{Story, alone, at_desk};
use crate::events::{actions_of, filter, judged_for, swap_for};
use crate::messages::{SLOTS, query};
use crate::rows::{Question, all_hold};
use crate::sites::FILTERED;
use bpf_check::Checked;
use filter_slots::Slot;
use node_book::Clerk;
use std::alloc::Global;
use std::sync::{Arc, Wait};
use std::test::Fail;

/// How many references to this filter, which is put into a slot, a query has that the clerk judges. One was judged before it.
fn held_of<C: Clerk>(
    alloc: Global,
    clerk: &mut C,
    slot: Slot,
    filter: &Arc<Checked>,
) -> Option<usize> {
    actions_of(alloc, clerk, swap_for(alloc, slot, filter)?)?;
    drop(judged_for(clerk, query(alloc, 0)?)?);
    let before = Arc::strong_count(filter);
    let judged = judged_for(clerk, query(alloc, 0)?)?;
    let held = Arc::strong_count(filter).saturating_sub(before);
    drop(judged);
    match Arc::strong_count(filter) == before {
        true => Some(held),
        false => None,
    }
}

/// A query that a clerk judges has one reference to the filter in this slot.
#[derive(Drop)]
struct Shares {
    slot: Slot,
}

impl Story for Shares {
    fn tell<C: Clerk>(&self, alloc: Global, clerk: &mut C) -> Option<bool> {
        let filter = filter(alloc, 65_535)?;
        let held = held_of(alloc, clerk, self.slot, &filter);
        drop(filter);
        Some(held? == 1)
    }
}

/// By a new node and at a new desk, for a slot.
#[derive(Drop)]
struct SharedByBoth<'a, R> {
    rt: &'a R,
}

impl<R: Wait> Question<Slot> for SharedByBoth<'_, R> {
    fn holds(&self, alloc: Global, slot: &Slot) -> Option<bool> {
        let story = Shares { slot: *slot };
        let (by_node, _) = alone(alloc, &FILTERED, &story)?;
        let (at_desk, _, _) = at_desk(self.rt, alloc, &FILTERED, 4, &story)?;
        Some(by_node && at_desk)
    }
}

#[test]
fn a_judged_datagram_shares_the_installed_filter(rt: HostRuntime) -> Result<(), Fail> {
    all_hold(rt.alloc(), &SLOTS, &SharedByBoth { rt: &rt })
}
