//! The program `test_refusals`: tests how the node, its book and desk, the store and the assembler behave when memory runs out.
//! It runs short scenarios by nodes, lists, books and desks, and repeats each call that fails for lack of memory.
//! It is meant to be run with each of its allocations failing in turn, which `make sweep` does (tests/sweep). It prints
//! nothing and succeeds only if the failed call changed nothing and the repeated call then did what the scenario says. A run
//! without failures shows little.
//! Tested by: nothing; this crate is itself a test, run by `make sweep` and in part by `make test`.
#![tactic(auto)]

mod books;
mod desks;
mod given;
mod making;
mod nodes;
mod programs;
mod stores;
mod stories;
mod trouble;

use books::by_take;
use desks::by_submit;
use given::Way;
use node_core::Tally;
use nodes::{by_list, by_step};
use programs::by_text;
use std::alloc::{AllocGlobal, Global};
use std::marker::Brand;
use std::process::ExitCode;
use std::sync::Wait;
use std::sync::ledger::Blank;
use stores::by_put;
use stories::{STORIES, Story, story_of};
use trouble::Trouble;

/// Runs a scenario at a desk and compares its actions with these tallies. If opening the desk runs out of memory, it is tried
/// once more.
fn tell<R: Wait + AllocGlobal>(
    rt: &R,
    story: &Story,
    tallies: &[Tally],
    way: Way,
) -> Result<(), Trouble> {
    for _ in 0..2 {
        if by_submit::<Brand, _>(rt, rt.alloc(), Blank::new(1), story, tallies, way)? {
            return Ok(());
        }
    }
    Err(Trouble::Twice)
}

/// Runs a scenario in each way.
fn tell_all<R: Wait + AllocGlobal>(rt: &R, story: &Story) -> Result<(), Trouble> {
    let alloc = rt.alloc();
    let tallies = by_step(alloc, story)?;
    by_list(alloc, story, &tallies)?;
    for way in &[Way::Events, Way::Judged, Way::Blind] {
        by_take(alloc, story, &tallies, *way)?;
        tell(rt, story, &tallies, *way)?;
    }
    Ok(())
}

/// Runs all scenarios in each way. Errors: the name of the first that fails, and what is wrong.
fn tell_stories<R: Wait + AllocGlobal>(rt: &R) -> Result<(), (&'static str, Trouble)> {
    for number in 0..STORIES {
        let Some(story) = story_of(number) else {
            return Ok(());
        };
        tell_all(rt, &story).map_err(|trouble| (story.name, trouble))?;
    }
    Ok(())
}

/// Runs the tests of the store and of program texts.
fn try_others(alloc: Global) -> Result<(), Trouble> {
    by_put(alloc)?;
    by_text(alloc)
}

fn main(rt: HostRuntime) -> ExitCode {
    if let Err((name, trouble)) = tell_stories(&rt) {
        let _ = eprintln!(rt; "{name}: {trouble}");
        return ExitCode::FAILURE;
    }
    if let Err(trouble) = try_others(rt.alloc()) {
        let _ = eprintln!(rt; "{trouble}");
        return ExitCode::FAILURE;
    }
    ExitCode::SUCCESS
}
