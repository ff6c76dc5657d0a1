//! Events that are taken on one thread, without a lock.
ghost use Rattle.std.specs.Prelude.{◌≡◌, IfSome};
ghost use Rattle.node_book.specs.Book.{count_of};

use crate::events::{Kind, is_taken, make_event, make_node};
use node_book::Booked;
use node_core::{Event, Node, Out};
use std::alloc::Global;
use std::sync::Arc;

/// The volume of a book that isn't turned while it is measured.
pub const LARGE: usize = 1_048_576;

/// The book of a new node with `entries` objects in its store.
pub fn make_book(alloc: Global, kind: Kind, entries: u32, volume: usize) -> Option<Booked>
    ensures { IfSome result (λ b. count_of b ≡ 0) }
{
    Booked::new(alloc, make_node(alloc, kind, entries)?, volume).ok()
}

/// Steps the node `count` times. Returns whether each step succeeded.
fn step_often(alloc: Global, node: &mut Node, event: &Event, out: &mut Out, count: u32) -> bool {
    for _ in 0..count {
        if !is_taken(alloc, node, event, out) {
            return false;
        }
    }
    true
}

/// Steps the node `count` times. Returns the number of actions of the last step.
fn step_all(alloc: Global, node: &mut Node, kind: Kind, count: u32) -> Option<u64> {
    let event = make_event(alloc, kind)?;
    let mut out = Out::new(alloc).ok()?;
    let succeeded = step_often(alloc, node, &*event, &mut out, count);
    let actions = out.actions().len() as u64;
    drop(out);
    succeeded.then_some(actions)
}

/// A node takes one event over and over. Returns the number of actions of the last step.
pub fn step(alloc: Global, kind: Kind, count: u32) -> Option<u64> {
    let mut node = make_node(alloc, kind, 10)?;
    let actions = step_all(alloc, &mut node, kind, count);
    drop(node);
    actions
}

/// A book takes an event. Returns whether it does.
fn is_booked(alloc: Global, book: &mut Booked, event: Arc<Event>, out: &mut Out) -> bool {
    out.clear();
    book.take(alloc, event, out).is_ok()
}

/// A book takes one more owner of an event. Returns whether it does.
fn is_shared(alloc: Global, book: &mut Booked, event: &Arc<Event>, out: &mut Out) -> bool {
    match Arc::try_clone(event) {
        Ok(event) => is_booked(alloc, book, event, out),
        Err(_) => false,
    }
}

fn take_often(
    alloc: Global,
    book: &mut Booked,
    event: &Arc<Event>,
    out: &mut Out,
    count: u32,
) -> bool {
    for _ in 0..count {
        if !is_shared(alloc, book, event, out) {
            return false;
        }
    }
    true
}

/// A book takes one event `count` times. Returns whether it takes each.
fn take_all(alloc: Global, book: &mut Booked, kind: Kind, count: u32) -> Option<bool> {
    let event = make_event(alloc, kind)?;
    let mut out = Out::new(alloc).ok()?;
    let succeeded = take_often(alloc, book, &event, &mut out, count);
    drop(out);
    Some(succeeded)
}

/// A new book takes one event over and over. Returns the number of events in it.
pub fn take(alloc: Global, kind: Kind, count: u32) -> Option<u64> {
    let mut book = make_book(alloc, kind, 10, LARGE)?;
    let succeeded = take_all(alloc, &mut book, kind, count);
    let taken = book.count();
    drop(book);
    succeeded?.then_some(taken)
}

/// A book takes `count` new events.
fn keep_all(
    alloc: Global,
    book: &mut Booked,
    kind: Kind,
    out: &mut Out,
    count: u32,
) -> Option<bool> {
    for _ in 0..count {
        if !is_booked(alloc, book, make_event(alloc, kind)?, out) {
            return Some(false);
        }
    }
    Some(true)
}

/// A new book takes new events, and keeps them all. Returns the number of events in it.
pub fn keep(alloc: Global, kind: Kind, count: u32) -> Option<u64> {
    let mut out = Out::new(alloc).ok()?;
    let mut book = make_book(alloc, kind, 10, LARGE)?;
    let succeeded = keep_all(alloc, &mut book, kind, &mut out, count);
    let taken = book.count();
    drop(book);
    drop(out);
    succeeded?.then_some(taken)
}

/// Turns a book `count` times.
fn turn_often(alloc: Global, book: &mut Booked, count: u32) {
    for _ in 0..count {
        drop(book.turn(alloc));
    }
}

/// A new book of a node with `entries` objects in its store is turned over and over. Returns the number of events in it.
pub fn turn(alloc: Global, entries: u32, count: u32) -> Option<u64> {
    let mut book = make_book(alloc, Kind::Miss, entries, 4_096)?;
    let succeeded = take_all(alloc, &mut book, Kind::Miss, 1);
    turn_often(alloc, &mut book, count);
    let taken = book.count();
    drop(book);
    succeeded?.then_some(taken)
}
