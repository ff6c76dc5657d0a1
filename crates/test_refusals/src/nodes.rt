//! Scenarios that a node takes by itself.
use crate::making::{event_of, node_of};
use crate::stories::{Line, Story};
use crate::trouble::{Trouble, made};
use bpf_check::Checked;
use filter_slots::{Slot, Slots, Socket};
use neighbours::Table;
use node_core::{Event, Node, Out, RunFault, Tally, run_events};
use object_store::CacheKey;
use std::alloc::Global;
use std::mem::replace;
use std::sync::Arc;

/// A copy of a node, tried once more when out of memory.
pub fn copy_of(alloc: Global, node: &Node) -> Result<Node, Trouble> {
    made(|| node.copy(alloc).ok())
}

/// A buffer for the actions of an event, tried once more when out of memory.
pub fn room(alloc: Global) -> Result<Out, Trouble> {
    made(|| Out::new(alloc).ok())
}

fn is_same_key(one: Option<&CacheKey>, other: Option<&CacheKey>) -> bool {
    match (one, other) {
        (Some(one), Some(other)) => one == other,
        (None, None) => true,
        _ => false,
    }
}

fn is_same_program(one: Option<&Arc<Checked>>, other: Option<&Arc<Checked>>) -> bool {
    match (one, other) {
        (Some(one), Some(other)) => **one == **other,
        (None, None) => true,
        _ => false,
    }
}

/// Whether both have the same program in force in this slot, or none.
fn are_same_in(one: &Slots, other: &Slots, slot: Slot) -> bool {
    is_same_program(one.installed(slot), other.installed(slot))
}

/// Whether both have the same programs in force.
fn are_same_programs(one: &Slots, other: &Slots, neighbours: usize) -> bool {
    for n in 0..neighbours {
        if !are_same_in(one, other, Slot::Neighbour(n)) {
            return false;
        }
    }
    are_same_in(one, other, Slot::Socket(Socket::Icp))
        && are_same_in(one, other, Slot::Socket(Socket::Htcp))
}

/// Whether both tables have equally many neighbours, with the same times, misses and states.
fn are_same_neighbours(one: &Table, other: &Table) -> bool {
    if one.len() != other.len() {
        return false;
    }
    for n in 0..one.len() {
        let is_same_time = one.time(n) == other.time(n) && one.misses(n) == other.misses(n);
        if !is_same_time || one.is_up(n) != other.is_up(n) {
            return false;
        }
    }
    true
}

/// Whether fetches 0 to 3 are pending in both or in neither, for the same keys.
fn are_same_fetches(one: &Node, other: &Node) -> bool {
    for fetch in 0..4u32 {
        if !is_same_key(one.key_of(fetch), other.key_of(fetch)) {
            return false;
        }
    }
    true
}

/// Whether two nodes agree in everything that can be read of them.
pub fn look_alike(one: &Node, other: &Node) -> bool {
    let (table, others) = (one.neighbours(), other.neighbours());
    one.stats() == other.stats()
        && are_same_neighbours(table, others)
        && are_same_programs(one.programs(), other.programs(), table.len())
        && are_same_fetches(one, other)
}

/// Hands an event to a node. Returns whether it was taken.
fn is_taken(alloc: Global, node: &mut Node, event: &Event, out: &mut Out) -> bool {
    out.clear();
    node.step(alloc, event, out).is_ok()
}

/// Checks that a node that refused an event agrees with `before`, and hands the event in again.
fn step_again(
    alloc: Global,
    node: &mut Node,
    before: &Node,
    event: &Event,
    out: &mut Out,
) -> Result<(), Trouble> {
    if !out.actions().is_empty() || !look_alike(node, before) {
        return Err(Trouble::Changed);
    }
    if is_taken(alloc, node, event, out) {
        return Ok(());
    }
    Err(Trouble::Twice)
}

/// Hands an event to a node that agrees with `before`. If that fails, checks that the node is unchanged, and tries again.
/// Returns the tally of the actions.
fn step_or_again(
    alloc: Global,
    node: &mut Node,
    before: &Node,
    line: &Line,
    event: &Event,
    out: &mut Out,
) -> Result<Tally, Trouble> {
    if is_taken(alloc, node, event, out) {
        return Ok(out.tally());
    }
    if line.takes_none() {
        return Err(Trouble::NeedsNone);
    }
    step_again(alloc, node, before, event, out)?;
    Ok(out.tally())
}

/// The same, with a copy of the node made before.
fn step_at_last(
    alloc: Global,
    node: &mut Node,
    line: &Line,
    event: &Event,
    out: &mut Out,
) -> Result<Tally, Trouble> {
    let before = copy_of(alloc, node)?;
    let tally = step_or_again(alloc, node, &before, line, event, out);
    drop(before);
    tally
}

/// Checks that all three tallies are equal and are what the line expects.
fn agree(line: &Line, tallies: [Tally; 3]) -> Result<(), Trouble> {
    if !line.2.fits(&tallies[0]) {
        return Err(Trouble::Actions);
    }
    if tallies[1] != tallies[0] || tallies[2] != tallies[0] {
        return Err(Trouble::Copy);
    }
    Ok(())
}

/// Hands an event to a node, its twin and its copy, and checks that they agree afterwards.
fn step_all(
    alloc: Global,
    node: &mut Node,
    twin: &mut Node,
    copy: &mut Node,
    line: &Line,
    event: &Event,
    out: &mut Out,
) -> Result<Tally, Trouble> {
    let tally = step_at_last(alloc, node, line, event, out)?;
    let twins = step_at_last(alloc, twin, line, event, out)?;
    let copys = step_at_last(alloc, copy, line, event, out)?;
    agree(line, [tally, twins, copys])?;
    if look_alike(node, twin) && look_alike(node, copy) {
        return Ok(tally);
    }
    Err(Trouble::Copy)
}

/// Hands an event to a node, its twin, and a copy of the node made before, which replaces the node. Returns the tally of the
/// actions.
fn step_beside(
    alloc: Global,
    node: &mut Node,
    twin: &mut Node,
    line: &Line,
    event: &Event,
    out: &mut Out,
) -> Result<Tally, Trouble> {
    let mut copy = copy_of(alloc, node)?;
    let tally = step_all(alloc, node, twin, &mut copy, line, event, out);
    drop(replace(node, copy));
    tally
}

/// Hands a line's event to a node, its twin and a copy, which replaces the node.
fn step_line(
    alloc: Global,
    node: &mut Node,
    twin: &mut Node,
    line: &Line,
    out: &mut Out,
) -> Result<Tally, Trouble> {
    let event = made(|| event_of(alloc, line))?;
    let tally = step_beside(alloc, node, twin, line, &event, out);
    drop(event);
    tally
}

/// Hands the lines of a scenario to a node and its twin. After each event a copy replaces the node. Appends the tallies of
/// the actions to the list.
fn step_through(
    alloc: Global,
    node: &mut Node,
    twin: &mut Node,
    story: &Story,
    tallies: &mut Vec<Tally>,
    out: &mut Out,
) -> Result<(), Trouble> {
    for line in story.lines {
        let tally = step_line(alloc, node, twin, line, out)?;
        if tallies.push(tally).is_err() {
            return Err(Trouble::Twice);
        }
    }
    Ok(())
}

// What has a node, a book, a seat or a buffer in hand makes it, lends it to the next function, and drops it: each way out of a
// function drops all that it has, and the prover reads the code for that anew at each.

/// The node of a scenario, tried once more when out of memory.
fn node_at_last(alloc: Global, story: &Story) -> Result<Node, Trouble> {
    made(|| node_of(alloc, story))
}

/// `step_through` with a buffer.
fn step_with_room(
    alloc: Global,
    node: &mut Node,
    twin: &mut Node,
    story: &Story,
    tallies: &mut Vec<Tally>,
) -> Result<(), Trouble> {
    let mut out = room(alloc)?;
    let ended = step_through(alloc, node, twin, story, tallies, &mut out);
    drop(out);
    ended
}

/// `step_through` with a new node.
fn step_node(
    alloc: Global,
    twin: &mut Node,
    story: &Story,
    tallies: &mut Vec<Tally>,
) -> Result<(), Trouble> {
    let mut node = node_at_last(alloc, story)?;
    let ended = step_with_room(alloc, &mut node, twin, story, tallies);
    drop(node);
    ended
}

/// `step_through` with a new node and its twin.
fn step_twins(alloc: Global, story: &Story, tallies: &mut Vec<Tally>) -> Result<(), Trouble> {
    let mut twin = node_at_last(alloc, story)?;
    let ended = step_node(alloc, &mut twin, story, tallies);
    drop(twin);
    ended
}

/// Runs a scenario step by step by a node and its twin. Returns the tallies of the actions.
pub fn by_step(alloc: Global, story: &Story) -> Result<Vec<Tally>, Trouble> {
    let mut tallies = made(|| Vec::with_capacity(alloc, story.lines.len()).ok())?;
    step_twins(alloc, story, &mut tallies)?;
    Ok(tallies)
}

/// The events of a scenario, or `None` when out of memory.
fn events_of(alloc: Global, story: &Story) -> Option<Vec<Event>> {
    let mut events = Vec::new(alloc);
    for line in story.lines {
        events.push(event_of(alloc, line)?).ok()?;
    }
    Some(events)
}

/// Whether these are the tallies of the actions, in order.
fn fit(outs: &[Out], tallies: &[Tally]) -> bool {
    outs.len() == tallies.len()
        && outs
            .iter()
            .zip(tallies)
            .all(|(out, tally)| out.tally() == *tally)
}

/// Hands these events to a node.
fn take_all(
    alloc: Global,
    node: &mut Node,
    events: &[Event],
    out: &mut Out,
) -> Result<(), Trouble> {
    for event in events {
        if !is_taken(alloc, node, event, out) {
            return Err(Trouble::Twice);
        }
    }
    Ok(())
}

/// The same, with a buffer.
fn catch_up(alloc: Global, node: &mut Node, events: &[Event]) -> Result<(), Trouble> {
    let mut out = room(alloc)?;
    let ended = take_all(alloc, node, events, &mut out);
    drop(out);
    ended
}

/// Runs a list of events by a node.
fn ran(alloc: Global, node: &mut Node, events: &[Event]) -> Result<Vec<Out>, RunFault> {
    run_events(alloc, node, events)
}

/// Checks that a node agrees with one that takes these events now.
fn agrees_after(
    alloc: Global,
    node: &Node,
    after: &mut Node,
    events: &[Event],
) -> Result<(), Trouble> {
    catch_up(alloc, after, events)?;
    if look_alike(node, after) {
        return Ok(());
    }
    Err(Trouble::Changed)
}

/// Checks that a node that refused the event after these agrees with one that took exactly these.
fn has_taken(alloc: Global, story: &Story, node: &Node, events: &[Event]) -> Result<(), Trouble> {
    let mut after = node_at_last(alloc, story)?;
    let ended = agrees_after(alloc, node, &mut after, events);
    drop(after);
    ended
}

/// Runs a list, and compares its actions with these tallies.
fn run_rest(
    alloc: Global,
    node: &mut Node,
    rest: &[Event],
    tallies: &[Tally],
) -> Result<(), Trouble> {
    match ran(alloc, node, rest) {
        Ok(outs) => are_told(&outs, tallies),
        Err(_) => Err(Trouble::Twice),
    }
}

/// Checks that a node has taken exactly the events before the one that was refused, and runs the rest of the list.
fn run_on(
    alloc: Global,
    story: &Story,
    node: &mut Node,
    refused: &RunFault,
    events: &[Event],
    tallies: &[Tally],
) -> Result<(), Trouble> {
    let done = refused.done;
    if events.len() < done || tallies.len() < done {
        return Err(Trouble::Changed);
    }
    are_told(&refused.outs, &tallies[..done])?;
    has_taken(alloc, story, node, &events[..done])?;
    run_rest(alloc, node, &events[done..], &tallies[done..])
}

/// Runs these events as one list. If that fails after some of them, checks that the node has taken exactly those, and runs the
/// rest.
fn run_at_last(
    alloc: Global,
    story: &Story,
    node: &mut Node,
    events: &[Event],
    tallies: &[Tally],
) -> Result<(), Trouble> {
    match ran(alloc, node, events) {
        Ok(outs) => are_told(&outs, tallies),
        Err(refused) => run_on(alloc, story, node, &refused, events, tallies),
    }
}

/// Runs a scenario as one list by this node.
fn run_story(
    alloc: Global,
    story: &Story,
    node: &mut Node,
    tallies: &[Tally],
) -> Result<(), Trouble> {
    let events = made(|| events_of(alloc, story))?;
    let ended = run_at_last(alloc, story, node, &events, tallies);
    drop(events);
    ended
}

/// Runs a scenario as one list, and compares its actions with these tallies.
pub fn by_list(alloc: Global, story: &Story, tallies: &[Tally]) -> Result<(), Trouble> {
    let mut node = node_at_last(alloc, story)?;
    let ended = run_story(alloc, story, &mut node, tallies);
    drop(node);
    ended
}

fn are_told(outs: &[Out], tallies: &[Tally]) -> Result<(), Trouble> {
    if fit(outs, tallies) {
        return Ok(());
    }
    Err(Trouble::Actions)
}
