//! Events that are submitted at the seats of a desk, by one thread and by many.
ghost use Rattle.std.specs.Prelude.{◌≡◌};

use crate::alone::{LARGE, make_book};
use crate::events::{Kind, make_event, make_judged, moment};
use filter_slots::{Judged, Moment, Slots};
use node_book::{Desk, Seat};
use node_core::{Event, Out};
use std::alloc::Global;
use std::sync::ledger::{Blank, Ledger};
use std::sync::{Arc, Wait};
use std::thread;
use std::thread::Threads;
use std::time::{Clock, Duration, Instant};

/// The desk of a new book, and its seats.
pub fn open_desk<L: Ledger>(
    alloc: Global,
    blank: Blank,
    kind: Kind,
    entries: u32,
    volume: usize,
    seats: u64,
) -> Option<(Desk<L>, Vec<Seat<L>>)>
    requires name { blank.name ≡ L.name }
    requires parts { blank.parts ≡ L.parts }
    requires one_each { blank.parts ≡ seats }
{
    let book = make_book(alloc, kind, entries, volume)?;
    Desk::<L>::open(alloc, blank, book, seats).ok()
}

/// Submits an event. Returns whether the desk takes it.
fn is_taken<L: Ledger, R: Wait>(
    rt: &R,
    alloc: Global,
    desk: &Desk<L>,
    seat: &mut Seat<L>,
    event: Arc<Event>,
    out: &mut Out,
) -> bool {
    out.clear();
    desk.submit(rt, alloc, seat, event, out).is_ok()
}

/// Submits one more owner of an event. Returns whether the desk takes it.
fn is_shared<L: Ledger, R: Wait>(
    rt: &R,
    alloc: Global,
    desk: &Desk<L>,
    seat: &mut Seat<L>,
    event: &Arc<Event>,
    out: &mut Out,
) -> bool {
    match Arc::try_clone(event) {
        Ok(event) => is_taken(rt, alloc, desk, seat, event, out),
        Err(_) => false,
    }
}

fn submit_often<L: Ledger, R: Wait>(
    rt: &R,
    alloc: Global,
    desk: &Desk<L>,
    seat: &mut Seat<L>,
    event: &Arc<Event>,
    out: &mut Out,
    count: u32,
) -> bool {
    for _ in 0..count {
        if !is_shared(rt, alloc, desk, seat, event, out) {
            return false;
        }
    }
    true
}

/// Submits one event `count` times at the first of some seats. Returns whether the desk takes each.
fn submit_all<L: Ledger, R: Wait>(
    rt: &R,
    alloc: Global,
    desk: &Desk<L>,
    seats: &mut Vec<Seat<L>>,
    kind: Kind,
    count: u32,
) -> Option<bool> {
    let event = make_event(alloc, kind)?;
    let seat = seats.get_mut(0)?;
    let mut out = Out::new(alloc).ok()?;
    let succeeded = submit_often(rt, alloc, desk, seat, &event, &mut out, count);
    drop(out);
    Some(succeeded)
}

/// Settles a desk. Returns the number of events in its book.
fn settled<L: Ledger>(desk: Desk<L>, seats: Vec<Seat<L>>) -> Option<u64> {
    match desk.settle(seats) {
        Ok(report) => Some(report.count),
        Err(_) => None,
    }
}

/// One event is submitted over and over at a new desk, which is settled then. Returns the number of events in its book.
pub fn submit<L: Ledger, R: Wait>(
    rt: &R,
    alloc: Global,
    blank: Blank,
    kind: Kind,
    count: u32,
) -> Option<u64>
    requires name { blank.name ≡ L.name }
    requires parts { blank.parts ≡ L.parts }
    requires one { blank.parts ≡ 1 }
{
    let (desk, mut seats) = open_desk::<L>(alloc, blank, kind, 10, LARGE, 1)?;
    let succeeded = submit_all(rt, alloc, &desk, &mut seats, kind, count);
    let taken = settled(desk, seats);
    match succeeded {
        Some(true) => taken,
        _ => None,
    }
}

/// Where the datagrams that threads submit are judged.
#[derive(Clone, Copy)]
pub enum Judging {
    /// By the desk, which holds its lock.
    UnderLock,
    /// By the thread, before it asks for the lock.
    Beforehand,
}

/// Some threads that submit events of a kind.
#[derive(Clone, Copy)]
pub struct Crowd {
    pub judging: Judging,
    pub kind: Kind,
    /// The number of events that all threads together submit.
    pub count: u64,
    /// The number of threads.
    pub threads: u64,
}

/// Submits `count` new events.
fn submit_new<L: Ledger, R: Wait>(
    rt: &R,
    alloc: Global,
    desk: &Desk<L>,
    seat: &mut Seat<L>,
    kind: Kind,
    count: u64,
) -> Option<bool> {
    let mut out = Out::new(alloc).ok()?;
    for _ in 0..count {
        if !is_taken(rt, alloc, desk, seat, make_event(alloc, kind)?, &mut out) {
            return Some(false);
        }
    }
    Some(true)
}

/// Submits a datagram that is judged already. Returns whether the desk takes it.
fn is_judged_taken<L: Ledger, R: Wait>(
    rt: &R,
    alloc: Global,
    desk: &Desk<L>,
    seat: &mut Seat<L>,
    judged: &Judged,
    now: Moment,
    out: &mut Out,
) -> bool {
    out.clear();
    desk.submit_judged(rt, alloc, seat, judged, now, out)
        .is_ok()
}

/// The programs of a desk.
fn programs<L: Ledger, R: Wait>(rt: &R, desk: &Desk<L>) -> Option<Slots> {
    desk.programs(rt).ok()
}

/// Judges `count` new datagrams by these programs and submits them.
fn submit_by<L: Ledger, R: Wait>(
    rt: &R,
    alloc: Global,
    desk: &Desk<L>,
    seat: &mut Seat<L>,
    programs: &Slots,
    kind: Kind,
    count: u64,
) -> Option<bool> {
    let now = moment()?;
    let mut out = Out::new(alloc).ok()?;
    for _ in 0..count {
        let judged = make_judged(alloc, kind, programs)?;
        if !is_judged_taken(rt, alloc, desk, seat, &judged, now, &mut out) {
            return Some(false);
        }
    }
    Some(true)
}

/// Judges `count` new datagrams by the desk's programs and submits them.
fn submit_judged<L: Ledger, R: Wait>(
    rt: &R,
    alloc: Global,
    desk: &Desk<L>,
    seat: &mut Seat<L>,
    kind: Kind,
    count: u64,
) -> Option<bool> {
    let programs = programs(rt, desk)?;
    let succeeded = submit_by(rt, alloc, desk, seat, &programs, kind, count);
    drop(programs);
    succeeded
}

/// What a thread of the crowd does at its seat.
fn serve<L: Ledger, R: Wait>(
    rt: &R,
    alloc: Global,
    desk: &Desk<L>,
    seat: &mut Seat<L>,
    crowd: Crowd,
) -> Option<bool> {
    let count = crowd.count.checked_div(crowd.threads)?;
    match crowd.judging {
        Judging::UnderLock => submit_new(rt, alloc, desk, seat, crowd.kind, count),
        Judging::Beforehand => submit_judged(rt, alloc, desk, seat, crowd.kind, count),
    }
}

/// The same with the thread's own seat. Returns whether the desk takes each event.
fn serve_at<L: Ledger, R: Wait>(
    rt: &R,
    alloc: Global,
    desk: &Desk<L>,
    mut seat: Seat<L>,
    crowd: Crowd,
) -> bool {
    let succeeded = serve(rt, alloc, desk, &mut seat, crowd);
    drop(seat);
    succeeded == Some(true)
}

/// Has each thread do its part. Returns whether all succeed.
fn serve_all<L: Ledger + Send + Sync, R: Threads + Wait + Sync>(
    rt: &R,
    alloc: Global,
    desk: &Desk<L>,
    seats: Vec<Seat<L>>,
    crowd: Crowd,
) -> bool {
    match thread::map_vec(rt, seats, &|seat| serve_at(rt, alloc, desk, seat, crowd)) {
        Ok(each) => each.iter().all(|succeeded| *succeeded),
        Err(_) => false,
    }
}

/// How long a crowd of threads takes at a new desk.
pub fn time_crowd<L: Ledger + Send + Sync, R: Threads + Wait + Sync + Clock>(
    rt: &R,
    alloc: Global,
    blank: Blank,
    crowd: Crowd,
) -> Option<Duration>
    requires name { blank.name ≡ L.name }
    requires parts { blank.parts ≡ L.parts }
    requires one_each { blank.parts ≡ crowd.threads }
{
    let (desk, seats) = open_desk::<L>(alloc, blank, crowd.kind, 10, 65_536, crowd.threads)?;
    let start = Instant::now(rt).ok();
    let succeeded = serve_all(rt, alloc, &desk, seats, crowd);
    let time = time_since(rt, start);
    drop(desk);
    match succeeded {
        true => time,
        false => None,
    }
}

/// How long it is since a moment.
pub fn time_since<R: Clock>(rt: &R, start: Option<Instant>) -> Option<Duration> {
    start?.elapsed(rt).ok()
}
