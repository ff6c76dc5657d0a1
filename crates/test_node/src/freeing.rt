//! A test of when a desk lets go of a finished volume: once its lock is free. No time is measured. A second thread counts the
//! references to the first and the last event of the volume: while the volume is let go of, the book has let go of one of them
//! and still holds the other. A question that is asked after the one and answered before the other found the lock free, which
//! can't be where the volume is let go of under the lock.
ghost use Rattle.std.specs.Prelude.{◌≡◌};

use crate::desks::{desk_with_room, submit};
use crate::events::{PEER, QUERY, datagram_of, field, timer};
use filter_slots::{Judged, Moment, Socket};
use node_book::{Desk, Seat};
use node_core::{Event, Out, Outcome};
use object_store::{Object, SharedObject};
use std::alloc::Global;
use std::marker::Brand;
use std::sync::atomic::{AtomicBool, Ordering};
use std::sync::ledger::{Blank, Ledger};
use std::sync::{Arc, Wait};
use std::thread;
use std::thread::Threads;
use std::time::{Clock, Duration};

/// The fields of an object that takes long to let go of: two allocations each, and some ten milliseconds for all.
const FIELDS: u32 = 200_000;

/// How many volumes are turned until a question is answered in time. On a busy machine the second thread may miss some; that it
/// misses all is a failure, so that the test can't pass without having seen the lock free.
const ROUNDS: u32 = 20;

/// The events of a volume. The first of them has turned the volume before.
const VOLUME: usize = 4;

/// The octets of contents that the seat keeps receipts of.
const ROOM: u32 = 1_000;

/// The call that turns a full volume.
#[derive(Clone, Copy)]
enum Call {
    Submit,
    SubmitJudged,
}

/// What two threads tell each other.
#[derive(Drop)]
struct Signs {
    /// The second thread has begun to count.
    is_watched: AtomicBool,
    /// The call has returned.
    is_over: AtomicBool,
}

impl Signs {
    fn new() -> Signs {
        Signs {
            is_watched: AtomicBool::new(false),
            is_over: AtomicBool::new(false),
        }
    }
}

/// The head of an object that takes long to let go of.
fn fields(alloc: Global) -> Option<Vec<(Vec<u8>, Vec<u8>)>> {
    let mut fields = Vec::new(alloc);
    for _ in 0..FIELDS {
        fields.push(field(alloc, b"n", b"v")?).ok()?;
    }
    Some(fields)
}

/// An event that takes long to let go of: an object for a fetch that nobody waits for.
fn large(alloc: Global) -> Option<Arc<Event>> {
    let now = Moment::new(1)?;
    let object = Object::new(200, fields(alloc)?, Vec::new(alloc), 0, 60);
    let fetched = Event::Fetched {
        fetch: 1,
        attempt: 0,
        result: Outcome::Object(SharedObject::new(alloc, object).ok()?),
        now,
    };
    Arc::new(alloc, fetched).ok()
}

/// Submits an event, whatever its actions are.
fn submit_one<L: Ledger, R: Wait>(
    rt: &R,
    alloc: Global,
    desk: &Desk<L>,
    seat: &mut Seat<L>,
    event: Arc<Event>,
) -> Option<()> {
    let mut out = Out::new(alloc).ok()?;
    let is_taken = submit(rt, alloc, desk, seat, event, &mut out);
    drop(out);
    is_taken
}

/// Submits a query that was judged before.
fn submit_judged<L: Ledger, R: Wait>(
    rt: &R,
    alloc: Global,
    desk: &Desk<L>,
    seat: &mut Seat<L>,
) -> Option<()> {
    let judged = Judged::new(datagram_of(alloc, Socket::Icp, PEER, QUERY)?, None, None);
    let is_taken = submit_as(rt, alloc, desk, seat, &judged);
    drop(judged);
    is_taken
}

/// Submits a judged query.
fn submit_as<L: Ledger, R: Wait>(
    rt: &R,
    alloc: Global,
    desk: &Desk<L>,
    seat: &mut Seat<L>,
    judged: &Judged,
) -> Option<()> {
    let now = Moment::new(1)?;
    let mut out = Out::new(alloc).ok()?;
    desk.submit_judged(rt, alloc, seat, judged, now, &mut out)
        .ok()?;
    Some(())
}

/// The first and the last event of a volume.
fn ends_of(alloc: Global) -> Option<[Arc<Event>; 2]> {
    Some([timer(alloc, 1)?, timer(alloc, 1)?])
}

/// Fills a volume that has one event: with the first event, one that takes long to let go of, and the last one.
fn fill<L: Ledger, R: Wait>(
    rt: &R,
    alloc: Global,
    desk: &Desk<L>,
    seat: &mut Seat<L>,
    ends: &[Arc<Event>; 2],
) -> Option<()> {
    submit_one(rt, alloc, desk, seat, Arc::try_clone(&ends[0]).ok()?)?;
    submit_one(rt, alloc, desk, seat, large(alloc)?)?;
    submit_one(rt, alloc, desk, seat, Arc::try_clone(&ends[1]).ok()?)
}

/// The references to both events.
fn references(ends: &[Arc<Event>; 2]) -> usize {
    Arc::strong_count(&ends[0]).wrapping_add(Arc::strong_count(&ends[1]))
}

/// Waits up to a second for the second thread, and turns the volume.
fn turn<L: Ledger, R: Wait + Clock>(
    rt: &R,
    alloc: Global,
    desk: &Desk<L>,
    seat: &mut Seat<L>,
    call: Call,
    signs: &Signs,
) -> Option<()> {
    for _ in 0..1_000u32 {
        if signs.is_watched.load(Ordering::SeqCst) {
            break;
        }
        thread::sleep(rt, Duration::from_millis(1));
    }
    let turned = match call {
        Call::Submit => submit_one(rt, alloc, desk, seat, timer(alloc, 1)?),
        Call::SubmitJudged => submit_judged(rt, alloc, desk, seat),
    };
    signs.is_over.store(true, Ordering::SeqCst);
    turned
}

/// Whether the book lets go of one of the events before a question is asked, and of the other after it is answered.
fn is_answered_between<L: Ledger, R: Wait>(
    rt: &R,
    desk: &Desk<L>,
    ends: &[Arc<Event>; 2],
    held: usize,
) -> bool {
    if references(ends) == held {
        return false;
    }
    let _stats = desk.stats(rt);
    references(ends).checked_add(1) == Some(held)
}

/// Asks until a question is answered in time, or the volume is turned. Returns whether one was.
fn watch<L: Ledger, R: Wait>(
    rt: &R,
    desk: &Desk<L>,
    ends: &[Arc<Event>; 2],
    held: usize,
    signs: &Signs,
) -> bool {
    signs.is_watched.store(true, Ordering::SeqCst);
    for _ in 0..u64::MAX {
        if is_answered_between(rt, desk, ends, held) {
            return true;
        }
        if signs.is_over.load(Ordering::SeqCst) {
            return false;
        }
    }
    false
}

/// Fills a volume and turns it while a second thread asks. Returns whether a question was answered in time.
fn is_free_between<L: Ledger + Send + Sync, R: Threads + Wait + Clock + Sync>(
    rt: &R,
    alloc: Global,
    desk: &Desk<L>,
    seat: &mut Seat<L>,
    call: Call,
    ends: &[Arc<Event>; 2],
) -> Option<bool> {
    fill(rt, alloc, desk, seat, ends)?;
    let held = references(ends);
    let signs = Signs::new();
    let (is_free, turned) = thread::join(
        rt,
        || watch(rt, desk, ends, held, &signs),
        || turn(rt, alloc, desk, seat, call, &signs),
    );
    drop(signs);
    turned?;
    match references(ends).checked_add(2) == Some(held) {
        true => Some(is_free),
        false => None,
    }
}

/// The same with new events.
fn is_free_once<L: Ledger + Send + Sync, R: Threads + Wait + Clock + Sync>(
    rt: &R,
    alloc: Global,
    desk: &Desk<L>,
    seat: &mut Seat<L>,
    call: Call,
) -> Option<bool> {
    let ends = ends_of(alloc)?;
    let is_free = is_free_between(rt, alloc, desk, seat, call, &ends);
    drop(ends);
    is_free
}

/// The same for as many volumes as it takes, at the first seat.
fn is_free<L: Ledger + Send + Sync, R: Threads + Wait + Clock + Sync>(
    rt: &R,
    alloc: Global,
    desk: &Desk<L>,
    seats: &mut Vec<Seat<L>>,
    call: Call,
) -> Option<bool> {
    let seat = seats.first_mut()?;
    submit_one(rt, alloc, desk, seat, timer(alloc, 1)?)?;
    for _ in 0..ROUNDS {
        if is_free_once(rt, alloc, desk, seat, call)? {
            return Some(true);
        }
    }
    Some(false)
}

/// The same at a new desk, whose seat keeps the receipts of queries and timers, and none of an event that is large.
fn told<L: Ledger + Send + Sync, R: Threads + Wait + Clock + Sync>(
    rt: &R,
    alloc: Global,
    blank: Blank,
    call: Call,
) -> Option<bool>
    requires name { blank.name ≡ L.name }
    requires parts { blank.parts ≡ L.parts }
    requires one { blank.parts ≡ 1 }
{
    let (desk, mut seats) = desk_with_room::<L>(alloc, blank, VOLUME, ROOM)?;
    let is_free = is_free(rt, alloc, &desk, &mut seats, call);
    drop(seats);
    drop(desk);
    is_free
}

/// Both calls that turn a volume.
const CALLS: [Call; 2] = [Call::Submit, Call::SubmitJudged];

#[test]
fn a_volume_is_let_go_of_once_the_lock_is_free(rt: HostRuntime) {
    for call in &CALLS {
        let told = told::<Brand, _>(&rt, rt.alloc(), Blank::new(1), *call);
        assert!(rt; told == Some(true));
    }
}
