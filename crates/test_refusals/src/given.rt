//! Inputs for the lines of a scenario.
use crate::making::{datagram_of, event_of};
use crate::stories::{Line, What};
use filter_slots::{Judged, Moment, Slots};
use node_core::Event;
use std::alloc::Global;
use std::sync::Arc;

/// How inputs are handed in.
#[derive(Clone, Copy)]
pub enum Way {
    /// All as events.
    Events,
    /// Datagrams judged beforehand by the programs in force.
    Judged,
    /// Datagrams judged beforehand by no program.
    Blind,
}

/// An input: an event, or a judged datagram.
#[derive(Drop)]
pub enum Given {
    Event(Arc<Event>),
    Judged(Judged, Moment),
}

/// The event of a line.
fn event_for(alloc: Global, line: &Line) -> Option<Given> {
    let event = event_of(alloc, line)?;
    Some(Given::Event(Arc::new(alloc, event).ok()?))
}

/// A line's datagram judged by these programs, or another event.
fn judged_for(alloc: Global, line: &Line, programs: &Slots) -> Option<Given> {
    let What::Comes(socket, last, octets) = line.1 else {
        return event_for(alloc, line);
    };
    let now = Moment::new(line.0)?;
    let datagram = datagram_of(alloc, socket, last, octets)?;
    Some(Given::Judged(programs.judge(datagram).ok()?, now))
}

/// The same by no program.
fn judged_by_none(alloc: Global, line: &Line) -> Option<Given> {
    let none = Slots::new(&[])?;
    let given = judged_for(alloc, line, &none);
    drop(none);
    given
}

/// The input for a line in this way, given the programs in force; `None` when out of memory.
pub fn given_for(alloc: Global, line: &Line, programs: &Slots, way: Way) -> Option<Given> {
    match way {
        Way::Events => event_for(alloc, line),
        Way::Judged => judged_for(alloc, line, programs),
        Way::Blind => judged_by_none(alloc, line),
    }
}
