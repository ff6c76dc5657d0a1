//! Equality of events and their parts, by value.
ghost use Rattle.std.specs.Prelude.{◌≡◌, ◌↔◌, IsTrue};
ghost use Rattle.std.specs.Arc.{arc_value};
ghost use Rattle.std.specs.Option.{option_map};
ghost use Rattle.node_words.specs.Happening.{arrives, asks, ends, happening, leaves, swaps, ticks};

use bpf_check::Checked;
use filter_slots::{Datagram, Moment, Slot, same_datagram};
use node_words::{Event, Mode, Outcome};
use object_store::{CacheKey, same_object};
use plain_node::Tally;
use std::sync::Arc;

/// Whether two tallies are equal.
pub fn same_tally(a: &Tally, b: &Tally) -> bool
    ensures { IsTrue result ↔ (a.now ≡ b.now) }
{
    a == b
}

/// Whether two outcomes are equal: equal objects, or both failed.
pub fn same_outcome(a: &Outcome, b: &Outcome) -> bool
    ensures { IsTrue result ↔ (a.now ≡ b.now) }
{
    match (a, b) {
        (Outcome::Object(x), Outcome::Object(y)) => same_object(x.get(), y.get()),
        (Outcome::Failed, Outcome::Failed) => true,
        _ => false,
    }
}

/// Whether two events are equal by value, wherever they are stored.
pub fn same_event(a: &Event, b: &Event) -> bool
    ensures { IsTrue result ↔ (happening a.now ≡ happening b.now) }
{
    match a {
        Event::Datagram { datagram, now } => is_arrival(b, datagram, *now),
        Event::Request {
            client,
            key,
            mode,
            now,
        } => is_request(b, *client, key, *mode, *now),
        Event::Timer { now } => is_timer(b, *now),
        Event::Fetched {
            fetch,
            attempt,
            result,
            now,
        } => is_end(b, *fetch, *attempt, result, *now),
        Event::Gone { client } => is_parting(b, *client),
        Event::Swap { slot, program } => is_swap(b, *slot, program),
    }
}

// Whether the event is the arrival of this datagram at `now`.
fn is_arrival(event: &Event, datagram: &Datagram, now: Moment) -> bool
    ensures { IsTrue result ↔ (arrives datagram.now now ≡ happening event.now) }
{
    match event {
        Event::Datagram {
            datagram: other,
            now: moment,
        } => now == *moment && same_datagram(datagram, other),
        _ => false,
    }
}

// Whether the event is this client's request for this key in this mode at `now`.
fn is_request(event: &Event, client: u64, key: &CacheKey, mode: Mode, now: Moment) -> bool
    ensures { IsTrue result ↔ (asks client key.now mode now ≡ happening event.now) }
{
    match event {
        Event::Request {
            client: asker,
            key: other,
            mode: manner,
            now: moment,
        } => client == *asker && mode == *manner && now == *moment && key == other,
        _ => false,
    }
}

// Whether the event is a timer event at `now`.
fn is_timer(event: &Event, now: Moment) -> bool
    ensures { IsTrue result ↔ (ticks now ≡ happening event.now) }
{
    match event {
        Event::Timer { now: moment } => now == *moment,
        _ => false,
    }
}

// Whether the event is the end of this fetch attempt with this outcome at `now`.
fn is_end(event: &Event, fetch: u32, attempt: u16, outcome: &Outcome, now: Moment) -> bool
    ensures { IsTrue result ↔ (ends fetch attempt outcome.now now ≡ happening event.now) }
{
    match event {
        Event::Fetched {
            fetch: number,
            attempt: place,
            result: other,
            now: moment,
        } => {
            fetch == *number && attempt == *place && now == *moment && same_outcome(outcome, other)
        }
        _ => false,
    }
}

// Whether the event is the disconnect of this client.
fn is_parting(event: &Event, client: u64) -> bool
    ensures { IsTrue result ↔ (leaves client ≡ happening event.now) }
{
    match event {
        Event::Gone { client: other } => client == *other,
        _ => false,
    }
}

// Whether the event installs this program in this slot, or clears the slot if `program` is `None`.
fn is_swap(event: &Event, slot: Slot, program: &Option<Arc<Checked>>) -> bool
    ensures { IsTrue result ↔ (swaps slot (option_map (λ arc. arc_value arc) program.now) ≡ happening event.now) }
{
    match event {
        Event::Swap {
            slot: place,
            program: other,
        } => slot == *place && same_program(program, other),
        _ => false,
    }
}

// Whether two programs are equal, or both are absent.
fn same_program(a: &Option<Arc<Checked>>, b: &Option<Arc<Checked>>) -> bool
    ensures { IsTrue result ↔ (option_map (λ arc. arc_value arc) a.now ≡ option_map (λ arc. arc_value arc) b.now) }
{
    match (a, b) {
        (Some(x), Some(y)) => **x == **y,
        (None, None) => true,
        _ => false,
    }
}
