//! Tests of a fixed list of events (clients' requests, a fetch, a neighbour's query), submitted to a node alone, through two
//! clerks, and to a book that is turned.
ghost use Rattle.std.specs.Prelude.{◌≡◌};

use crate::desks::{book_of, desk_of, settled_with};
use crate::events::{QUERY, arrival, fetched, node_of, request};
use filter_slots::{Moment, Socket};
use node_book::{BookFault, Booked, Clerk, Desk, Lone, Report, Seat, Seated, TakeFault};
use node_core::{Action, Answer, Event, Mode, Out};
use object_store::SharedObject;
use std::alloc::Global;
use std::marker::Brand;
use std::sync::ledger::{Blank, Ledger};
use std::sync::{Arc, Wait};
use std::test::Fail;

/// The HIT reply of the node at 10.0.0.1 to the query.
const HIT: &[u8] =
    b"\x02\x02\x00\x1e\x00\x00\x00\x01\x00\x00\x00\x00\x00\x00\x00\x00\x0a\x00\x00\x01http://a/\x00";

/// The actions of an event, in short.
#[derive(Clone, Copy, PartialEq)]
enum Said {
    Nothing,
    FetchesFrom { fetch: u32 },
    Got { client: u64 },
    Hit { client: u64, age: u32 },
    Sends,
    Else,
}

/// Whether an object has the body that was fetched.
fn is_greeting(object: &SharedObject) -> bool {
    object.get().body() == b"hi".as_slice()
}

/// An answer to a client, in short.
fn answer_in_short(client: u64, answer: &Answer) -> Said {
    match answer {
        Answer::Got(object) if is_greeting(object) => Said::Got { client },
        Answer::Hit { object, age } if is_greeting(object) => Said::Hit { client, age: *age },
        _ => Said::Else,
    }
}

/// Shortens the actions of an event, of which there is at most one.
fn in_short(out: &Out) -> Said {
    match out.actions() {
        [] => Said::Nothing,
        [Action::Fetch { fetch, .. }] => Said::FetchesFrom { fetch: *fetch },
        [Action::Serve { client, answer }] => answer_in_short(*client, answer),
        [Action::Send { payload, .. }] if payload.as_slice() == HIT => Said::Sends,
        _ => Said::Else,
    }
}

/// The expected actions of each event of the list.
const SAID: [Said; 6] = [
    Said::FetchesFrom { fetch: 1 },
    Said::Got { client: 1 },
    Said::Hit { client: 2, age: 0 },
    Said::Sends,
    Said::Hit { client: 3, age: 59 },
    Said::FetchesFrom { fetch: 2 },
];

/// The event at index `i` of the list.
fn story(alloc: Global, i: usize) -> Option<Event> {
    match i {
        0 => request(alloc, 1, Mode::Shared, Moment::new(1_000)?),
        1 => fetched(alloc, 1, Moment::new(1_010)?),
        2 => request(alloc, 2, Mode::Shared, Moment::new(1_020)?),
        3 => arrival(alloc, Socket::Icp, QUERY, Moment::new(1_030)?),
        4 => request(alloc, 3, Mode::Shared, Moment::new(61_009)?),
        _ => request(alloc, 4, Mode::Shared, Moment::new(61_010)?),
    }
}

/// Passes the actions that are not sends to a clerk.
fn pass_on<C: Clerk>(alloc: Global, clerk: &mut C, out: &Out) -> Option<()> {
    for action in out.actions() {
        if !matches!(action, Action::Send { .. }) {
            clerk.pass(alloc, action).ok()?;
        }
    }
    Some(())
}

/// Submits the event at index `i` to a clerk and passes it the actions that are not sends. Returns the event's number and its
/// actions in short.
fn tell<C: Clerk>(alloc: Global, clerk: &mut C, i: usize) -> Option<(u64, Said)> {
    let event = Arc::new(alloc, story(alloc, i)?).ok()?;
    let mut out = Out::new(alloc).ok()?;
    let number = clerk.submit(alloc, event, &mut out).ok()?;
    let said = in_short(&out);
    pass_on(alloc, clerk, &out)?;
    Some((number, said))
}

/// Whether a clerk gives the event at index `i` the number `i` and the expected actions.
fn is_told<C: Clerk>(alloc: Global, clerk: &mut C, i: usize) -> bool {
    i < 6 && tell(alloc, clerk, i) == Some((i as u64, SAID[i]))
}

/// Whether a clerk does so for the whole list.
fn tells_all<C: Clerk>(alloc: Global, clerk: &mut C) -> bool {
    for i in 0..6 {
        if !is_told(alloc, clerk, i) {
            return false;
        }
    }
    true
}

/// Whether a node alone acts as expected, how many actions it was passed, and whether it knows the key of the second fetch.
fn told_alone(alloc: Global) -> Option<(bool, usize, bool)> {
    let mut clerk = Lone::new(alloc, node_of(alloc)?);
    let tells = tells_all(alloc, &mut clerk);
    let passed = clerk.passed().len();
    let key = clerk.key_of(alloc, 2);
    drop(clerk);
    Some((tells, passed, key.ok()?.is_some()))
}

#[test]
fn a_node_by_itself_tells_the_story(rt: HostRuntime) {
    assert!(rt; told_alone(rt.alloc()) == Some((true, 5, true)));
}

/// Whether two clerks that alternate over the list act as expected.
fn turns_told<C: Clerk>(alloc: Global, first: &mut C, second: &mut C) -> bool {
    let mut well = true;
    for i in 0..3 {
        well = well && is_told(alloc, first, 2 * i) && is_told(alloc, second, 2 * i + 1);
    }
    well
}

/// Whether a clerk knows this key of a fetch, or none.
fn knows<C: Clerk>(
    alloc: Global,
    clerk: &mut C,
    fetch: u32,
    wanted: Option<&[u8]>,
) -> Option<bool> {
    let key = clerk.key_of(alloc, fetch).ok()?;
    let is_known = match &key {
        Some(key) => wanted == Some(key.as_slice()),
        None => wanted == None,
    };
    drop(key);
    Some(is_known)
}

/// Whether a clerk knows the key of the second fetch, and none of the first, which has ended.
fn knows_second<C: Clerk>(alloc: Global, clerk: &mut C) -> Option<bool> {
    Some(knows(alloc, clerk, 2, Some(b"http://a/"))? && knows(alloc, clerk, 1, None)?)
}

/// Both seats in a list.
fn pair_of<L: Ledger>(alloc: Global, one: Seat<L>, other: Seat<L>) -> Option<Vec<Seat<L>>> {
    let mut seats = Vec::new(alloc);
    seats.push(one).ok()?;
    seats.push(other).ok()?;
    Some(seats)
}

/// Lets two clerks at seats of a desk submit the events of the list alternately, and returns the seats. `None` if anything was
/// not as expected.
fn clerks<L: Ledger, R: Wait>(
    rt: &R,
    alloc: Global,
    desk: &Desk<L>,
    one: Seat<L>,
    other: Seat<L>,
) -> Option<Vec<Seat<L>>> {
    let mut first = Seated::new(alloc, rt, desk, one);
    let mut second = Seated::new(alloc, rt, desk, other);
    let told = turns_told(alloc, &mut first, &mut second);
    let passed = first.passed().len() == 3 && second.passed().len() == 2;
    let knows = (
        knows_second(alloc, &mut first),
        knows_second(alloc, &mut second),
    );
    let seats = pair_of(alloc, second.into_seat(), first.into_seat())?;
    let is_well = told && passed && knows == (Some(true), Some(true));
    if is_well && desk.stats(rt).icp.judged == 1 {
        Some(seats)
    } else {
        None
    }
}

/// The report of a desk that is settled after two clerks alternated.
fn told<L: Ledger, R: Wait>(rt: &R, alloc: Global, blank: Blank) -> Option<Report>
    requires name { blank.name ≡ L.name }
    requires parts { blank.parts ≡ L.parts }
    requires two { blank.parts ≡ 2 }
{
    let (desk, seats) = desk_of::<L>(alloc, blank, 4, 2)?;
    let seats = both_at_work(rt, alloc, &desk, seats);
    settled_with(desk, seats)
}

/// Lets clerks at both seats of a desk submit the events of the list, and returns the seats.
fn both_at_work<L: Ledger, R: Wait>(
    rt: &R,
    alloc: Global,
    desk: &Desk<L>,
    mut seats: Vec<Seat<L>>,
) -> Option<Vec<Seat<L>>> {
    let other = seats.pop()?;
    let one = seats.pop()?;
    clerks(rt, alloc, desk, one, other)
}

#[test]
fn two_seats_tell_one_story(rt: HostRuntime) {
    let wanted = Report {
        count: 6,
        base: 4,
        matched: 2,
    };
    let report = told::<Brand, _>(&rt, rt.alloc(), Blank::new(2));
    assert!(rt; report == Some(wanted));
}

/// The result of a book's taking the event at index `i`: its number and its actions in short.
fn taken(alloc: Global, booked: &mut Booked, i: usize) -> Option<Result<(u64, Said), TakeFault>> {
    let event = Arc::new(alloc, story(alloc, i)?).ok()?;
    let mut out = Out::new(alloc).ok()?;
    Some(match booked.take(alloc, event, &mut out) {
        Ok(receipt) => {
            let number = receipt.number;
            drop(receipt);
            Ok((number, in_short(&out)))
        }
        Err(fault) => Err(fault),
    })
}

/// Whether a book gives the event at index `i` the number `i` and the expected actions.
fn is_taken(alloc: Global, booked: &mut Booked, i: usize) -> bool {
    i < 6 && taken(alloc, booked, i) == Some(Ok((i as u64, SAID[i])))
}

/// Whether a book takes two events but not the third, and takes that one after it was turned.
fn is_turned(alloc: Global, booked: &mut Booked) -> bool {
    let takes_two = is_taken(alloc, booked, 0) && is_taken(alloc, booked, 1);
    let is_full = taken(alloc, booked, 2) == Some(Err(TakeFault::VolumeFull));
    drop(booked.turn(alloc));
    takes_two && is_full && is_taken(alloc, booked, 2)
}

#[test]
fn a_full_volume_is_turned(rt: HostRuntime) -> Result<(), Fail> {
    let mut booked = book_of(rt.alloc(), 2).ok_or("a book")?;
    let is_turned = is_turned(rt.alloc(), &mut booked);
    drop(booked);
    assert!(rt; is_turned);
    Ok(())
}

/// The error of a book with this volume capacity.
fn refused(alloc: Global, volume: usize) -> Option<BookFault> {
    Booked::new(alloc, node_of(alloc)?, volume).err()
}

#[test]
fn volumes_beyond_the_limits_are_refused(rt: HostRuntime) {
    for volume in [0, 1_048_577] {
        assert!(rt; refused(rt.alloc(), volume) == Some(BookFault::Limits));
    }
}
