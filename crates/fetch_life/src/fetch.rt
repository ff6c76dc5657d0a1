//! The machine.
ghost use Rattle.std.specs.Prelude.{◌≡◌};
ghost use Rattle.fetch_life.specs.Runs.{unordered};
ghost use Rattle.fetch_life.specs.Table.{asks, flight_of, ordered, ordered_so, renewed_so, shown, turn, unbegun};

use crate::commands::{Brought, Command, Count, Step, go, go_by_two, stay};
use crate::events::Event;
use crate::facts::{Order, Source};
use crate::leaving::unwanted;
use crate::reaching::{addressed, began, connected, failed, whole};
use crate::results::{is_origin, locked};
use crate::stages::{Fetch, Flight, Stage};

impl Fetch {
    /// A fetch that is not ordered.
    pub fn new() -> Fetch
        ensures { result ≡ unordered }
    {
        Fetch {
            flight: Flight {
                source: Source::Origin,
                is_shared: false,
                is_asking: false,
                has_shelf: false,
                is_streamed: false,
            },
            stage: Stage::Ordering,
        }
    }

    /// What comes of a fetch when this happens, and what is to be done. What isn't awaited changes nothing.
    pub fn step(self, event: Event) -> Step
        ensures { shown result ≡ turn self.flight self.stage event }
    {
        let Fetch { flight, stage } = self;
        match event {
            Event::Ordered(order) => ordered(order, flight, stage),
            Event::Addressed(addresses) => addressed(flight, addresses, stage),
            Event::Connected => connected(flight, stage),
            Event::Began(head) => began(flight, head, stage),
            Event::Whole(page) => whole(flight, page, stage),
            Event::Failed(failure) => failed(flight, failure, stage),
            Event::Unwanted(is_awaited) => unwanted(flight, is_awaited, stage),
            Event::Locked(is_overtaken) => locked(flight, is_overtaken, stage),
        }
    }
}

// Whether a fetch asks its origin about what is there.
fn asks(order: Order) -> bool
    ensures { result ≡ asks order }
{
    is_origin(order.source)
        && order.has_shelf
        && order.has_shelved
        && (order.is_shared || order.lets_validate)
}

fn flight_of(order: Order) -> Flight
    ensures { result ≡ flight_of order }
{
    Flight {
        source: order.source,
        is_shared: order.is_shared,
        is_asking: asks(order),
        has_shelf: order.has_shelf,
        is_streamed: order.is_streamed,
    }
}

// Does not begin a fetch that nobody waits for, which is counted once.
fn unbegun(flight: Flight, is_counted: bool) -> Step
    ensures { shown result ≡ unbegun flight is_counted }
{
    let given = Command::HandIn(Brought::Unwanted);
    if is_counted {
        go(flight, Stage::Over, given)
    } else {
        go_by_two(flight, Stage::Over, Command::Count(Count::Unwanted), given)
    }
}

fn ordered_so(order: Order) -> Step
    ensures { shown result ≡ ordered_so order }
{
    let flight = flight_of(order);
    if order.is_shared && order.is_unwanted {
        return unbegun(flight, order.was_unwanted);
    }
    if order.is_possible {
        go(flight, Stage::Seeking, Command::Seek)
    } else {
        go(flight, Stage::Over, Command::HandIn(Brought::Nothing))
    }
}

// Begins a fetch anew that was ended for want of clients.
fn renewed_so(order: Order) -> Step
    ensures { shown result ≡ renewed_so order }
{
    let flight = flight_of(order);
    if order.is_shared && order.is_unwanted {
        return unbegun(flight, false);
    }
    if order.is_possible {
        return go(flight, Stage::Seeking, Command::Seek);
    }
    if order.is_shared {
        go(flight, Stage::Over, Command::HandIn(Brought::Unwanted))
    } else {
        go(flight, Stage::Over, Command::HandIn(Brought::Nothing))
    }
}

fn ordered(order: Order, flight: Flight, stage: Stage) -> Step
    ensures { shown result ≡ ordered order flight stage }
{
    match stage {
        Stage::Ordering => ordered_so(order),
        Stage::Renewing => renewed_so(order),
        _ => stay(flight, stage),
    }
}
