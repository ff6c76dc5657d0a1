//! How long what a desk does under its lock takes.
ghost use Rattle.std.specs.Prelude.{◌≡◌};

use crate::events::{Kind, make_event};
use crate::seats::time_since;
use crate::under::{is_taken, open_ledgered};
use node_book::{Ledgered, Seat, Spent};
use node_core::{Event, Out};
use std::alloc::Global;
use std::sync::Arc;
use std::sync::ledger::{Blank, Ledger};
use std::time::{Clock, Duration, Instant};

/// How often something was timed, and what came out.
#[derive(Clone, Copy)]
pub struct Times {
    pub count: u64,
    /// The sum of all times.
    pub total: Duration,
    pub longest: Duration,
    /// How many times were 10 microseconds or more.
    pub over_ten: u64,
    /// How many times were 100 microseconds or more.
    pub over_hundred: u64,
}

/// One more if a condition holds.
fn counted(count: u64, holds: bool) -> u64 {
    match holds {
        true => count.saturating_add(1),
        false => count,
    }
}

impl Times {
    const NONE: Times = Times {
        count: 0,
        total: Duration::ZERO,
        longest: Duration::ZERO,
        over_ten: 0,
        over_hundred: 0,
    };

    fn add(&mut self, time: Duration) {
        self.count = self.count.saturating_add(1);
        self.total = self.total.saturating_add(time);
        self.longest = self.longest.max(time);
        self.over_ten = counted(self.over_ten, time >= Duration::from_micros(10));
        self.over_hundred = counted(self.over_hundred, time >= Duration::from_micros(100));
    }
}

/// The times of submits.
#[derive(Clone, Copy)]
pub struct Holds {
    /// Submits that only took an event.
    pub plain: Times,
    /// Submits that turned a full volume before.
    pub turns: Times,
    /// Nothing at all: what reading the clock takes.
    pub nothing: Times,
}

/// What is submitted: how many new events, to a book of this volume, whose node has this many objects in its store.
#[derive(Clone, Copy)]
pub struct Load {
    pub volume: u32,
    pub entries: u32,
    pub count: u32,
}

/// Submits an event, and times that.
fn time_submit<L: Ledger, R: Clock>(
    rt: &R,
    alloc: Global,
    ledgered: &mut Ledgered<L>,
    seat: &mut Seat<L>,
    event: Arc<Event>,
    out: &mut Out,
) -> Option<Duration> {
    let mut spent = Spent::new();
    let start = Instant::now(rt).ok();
    let succeeded = is_taken(alloc, ledgered, seat, event, out, &mut spent);
    let time = time_since(rt, start);
    drop(spent);
    match succeeded {
        true => time,
        false => None,
    }
}

/// Submits a new event, whose actions have new room, and times that.
fn time_new<L: Ledger, R: Clock>(
    rt: &R,
    alloc: Global,
    ledgered: &mut Ledgered<L>,
    seat: &mut Seat<L>,
) -> Option<Duration> {
    let event = make_event(alloc, Kind::Miss)?;
    let mut out = Out::new(alloc).ok()?;
    let time = time_submit(rt, alloc, ledgered, seat, event, &mut out);
    drop(out);
    time
}

/// Times nothing.
fn time_nothing<R: Clock>(rt: &R) -> Option<Duration> {
    time_since(rt, Instant::now(rt).ok())
}

/// Submits all events of a load, and times each.
fn time_each<L: Ledger, R: Clock>(
    rt: &R,
    alloc: Global,
    ledgered: &mut Ledgered<L>,
    seats: &mut Vec<Seat<L>>,
    load: Load,
) -> Option<Holds> {
    let seat = seats.get_mut(0)?;
    let mut holds = Holds {
        plain: Times::NONE,
        turns: Times::NONE,
        nothing: Times::NONE,
    };
    for number in 0..load.count {
        let time = time_new(rt, alloc, ledgered, seat)?;
        if number > 0 && number.checked_rem(load.volume)? == 0 {
            holds.turns.add(time);
        } else {
            holds.plain.add(time);
        }
        holds.nothing.add(time_nothing(rt)?);
    }
    Some(holds)
}

/// Times what is done under the lock of a new desk.
pub fn time_holds<L: Ledger, R: Clock>(
    rt: &R,
    alloc: Global,
    blank: Blank,
    load: Load,
) -> Option<Holds>
    requires name { blank.name ≡ L.name }
    requires parts { blank.parts ≡ L.parts }
    requires one { blank.parts ≡ 1 }
{
    let volume = load.volume as usize;
    let (mut ledgered, mut seats) = open_ledgered::<L>(
        alloc,
        blank,
        Kind::Miss,
        load.entries,
        volume,
    )?;
    let holds = time_each(rt, alloc, &mut ledgered, &mut seats, load);
    drop(ledgered);
    drop(seats);
    holds
}
