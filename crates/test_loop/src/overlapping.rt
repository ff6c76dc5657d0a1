//! Four workers at one desk, of which one is held up.
ghost use Rattle.std.specs.Prelude.{◌≡◌, ◌<◌, ◌≤◌};

use crate::desks::{Ending, Sums, desk_of, settled_with};
use crate::messages::OWN_HTCP;
use crate::sites::Site;
use crate::worker_threads::{Signs, parts_of, play};
use node_book::{Desk, Report, Seat};
use std::alloc::Global;
use std::marker::Brand;
use std::sync::Wait;
use std::sync::ledger::{Blank, Ledger};
use std::test::Fail;
use std::thread;
use std::thread::Threads;
use std::time::Clock;

/// A node without neighbours that may fetch from origins.
const SITE: Site = Site {
    htcp: OWN_HTCP,
    allowed: &[],
    origin: true,
    entries: 100,
    octets: 10_000,
    peers: &[],
};

/// Runs two clients and four workers, each in a thread and at a seat of its own.
fn played<L: Ledger + Send + Sync, R: Threads + Wait + Clock + Sync>(
    rt: &R,
    alloc: Global,
    desk: &Desk<L>,
    signs: &Signs,
    seats: Vec<Seat<L>>,
) -> Option<Vec<Option<Ending<L>>>> {
    let parts = parts_of(alloc, seats)?;
    thread::map_vec(rt, parts, &|part| play(rt, alloc, desk, signs, part)).ok()
}

/// Runs the threads at a new desk and settles it. Returns how many events they submitted and how many clients their actions answered,
/// whether the gate gave up, and the report.
fn settled<L: Ledger + Send + Sync, R: Threads + Wait + Clock + Sync>(
    rt: &R,
    alloc: Global,
    blank: Blank,
) -> Option<(Sums, bool, Report)>
    requires name { blank.name ≡ L.name }
    requires parts { blank.parts ≡ L.parts }
    requires five { blank.parts ≡ 5 }
{
    let (desk, seats) = desk_of::<L>(alloc, blank, &SITE, 10_000, 5)?;
    let signs = Signs::new();
    let endings = played(rt, alloc, &desk, &signs, seats);
    let (sums, report) = settled_with(alloc, desk, endings)?;
    Some((sums, signs.has_given_up(), report))
}

/// The first request of each client is answered by a worker, and all others at once.
#[test]
fn four_workers_hold_nobody_up(rt: HostRuntime) -> Result<(), Fail> {
    let told = settled::<Brand, _>(&rt, rt.alloc(), Blank::new(5));
    let (sums, has_given_up, report) = told.ok_or("each thread ends well")?;
    assert!(rt; !has_given_up);
    assert!(rt; Some(sums.answered) == sums.counted.checked_sub(2));
    assert!(rt; report.count == sums.counted);
    Ok(())
}
