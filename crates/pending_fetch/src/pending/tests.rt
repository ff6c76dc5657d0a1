ghost use Rattle.std.specs.Prelude.{◌≡◌, nat_le};
ghost use Rattle.std.specs.List.{list_all};
ghost use Rattle.pending_fetch.specs.Fetches.{PendingFetch, starts};

use super::Pending;
use crate::JoinFault;
use crate::fetch_slab::FetchSlab;
use crate::kept::KeptFetch;
use neighbours::{End, Moment, Neighbour, Role, Socket, Table};
use object_store::CacheKey;
use peer_select::Round;
use std::alloc::{AllocError, Global};
use std::ops::Range;
use std::process::Abort;

const NO_MEMORY: &str = "no memory";

// A table of one parent, which is up.
fn table(alloc: Global) -> Result<Table, AllocError> {
    let mut list = Vec::new(alloc);
    list.push(Neighbour {
        kind: Role::Parent,
        protocol: Socket::Icp,
        end: End {
            addr: [10, 0, 0, 9],
            port: 3130,
        },
        http_port: 8080,
        weight: 1,
        key: None,
    })?;
    Table::new(alloc, list, Vec::new(alloc)).map_err(|_| AllocError)
}

fn key(alloc: Global) -> Result<CacheKey, AllocError> {
    CacheKey::new(alloc, Vec::from_slice(alloc, b"http://a/")?).map_err(|_| AllocError)
}

// A round that starts then.
fn round(alloc: Global, start: Moment) -> Result<Round, AllocError> {
    let table = table(alloc)?;
    let round = Round::start(&table, start);
    drop(table);
    Ok(round)
}

// One shared fetch, number 1, with client 1 waiting; its round starts at 1000 ms.
fn first<R: Abort>(rt: &R, alloc: Global) -> Pending {
    let start = Moment::new(1000).expect(rt, "no moment");
    let round = round(alloc, start).expect(rt, NO_MEMORY);
    let key = key(alloc).expect(rt, NO_MEMORY);
    let mut pending = Pending::new(alloc).expect(rt, NO_MEMORY);
    let opened = pending.open(alloc, key, 1, true, round);
    assert!(*rt; matches!(opened, Ok(1)));
    pending
}

// Whether every round started at `start` or earlier.
fn starts_by(pending: &Pending, start: Moment) -> bool
    ensures { result ≡ list_all (λ one. nat_le one start) (starts pending.now.list) }
{
    start_by(&pending.slots, start)
}

fn start_by(slots: &FetchSlab, start: Moment) -> bool
    ensures { result ≡ list_all (λ (fetch : PendingFetch). nat_le fetch.round.start start) slots.now }
{
    for place in 0..slots.len() {
        if !starts(slots.get(place), start) {
            return false;
        }
    }
    true
}

fn starts(slot: &KeptFetch, start: Moment) -> bool
    ensures { result ≡ nat_le slot.now.round.start start }
{
    slot.lent().round.began().millis() <= start.millis()
}

// Opens a private fetch; `None` if the client already waits, or a pending round starts later than this one.
fn open_at(alloc: Global, pending: &mut Pending, client: u64, round: Round) -> Option<u32> {
    let Ok(key) = key(alloc) else {
        return None;
    };
    if pending.waits(client) || !starts_by(pending, round.began()) {
        return None;
    }
    pending.open(alloc, key, client, false, round).ok()
}

// Each test makes what it asks, lends it to functions that say whether all holds, and drops it by a call. Where a value cannot be made
// the test ends there. So no way out has to drop anything.

// Whether these clients join one after the other.
fn join_all(pending: &mut Pending, key: &CacheKey, clients: Range<u64>) -> bool {
    for client in clients {
        if !matches!(pending.join(key, client), Some(Ok(()))) {
            return false;
        }
    }
    true
}

// Whether none of these clients finds room among the waiters.
fn are_all_refused(pending: &mut Pending, key: &CacheKey, clients: &[u64]) -> bool {
    for client in clients {
        if !matches!(pending.join(key, *client), Some(Err(JoinFault::Full))) {
            return false;
        }
    }
    true
}

// Whether these clients wait for the fetch at these places.
fn wait_at(pending: &Pending, waiters: &[(usize, Option<u64>)]) -> bool {
    for (place, client) in waiters {
        if pending.waiters(1).get(*place).copied() != *client {
            return false;
        }
    }
    true
}

const WAITERS: [(usize, Option<u64>); 4] = [
    (0, Some(1)),
    (1, Some(2)),
    (1023, Some(1024)),
    (1024, None),
];

// Whether clients join a fetch until 1,024 wait.
fn fills(pending: &mut Pending, key: &CacheKey) -> bool {
    matches!(pending.join(key, 1), Some(Err(JoinFault::Double)))
        && join_all(pending, key, 2..1025)
        && are_all_refused(pending, key, &[1, 1024, 1025])
        && wait_at(pending, &WAITERS)
}

// Whether client 2 leaves the others where they are, and the fetch all when it is closed.
fn empties(pending: &mut Pending, key: &CacheKey) -> bool {
    pending.leave(2);
    let leaves = !pending.waits(2) && pending.waiters(1).get(1) == Some(&3);
    pending.close(1);
    leaves && !pending.waits(1) && pending.join(key, 7).is_none() && pending.next_number() == 2
}

#[test]
fn joining(rt: HostRuntime) {
    let key = key(rt.alloc()).expect(&rt, NO_MEMORY);
    let mut pending = first(&rt, rt.alloc());
    let found = (fills(&mut pending, &key), empties(&mut pending, &key));
    drop(pending);
    drop(key);
    assert!(rt; found.0);
    assert!(rt; found.1);
}

// Whether the fetch is due 2,000 ms after its start, and not once its round has ended.
fn expires(pending: &mut Pending) -> bool {
    let (Some(before), Some(after)) = (Moment::new(2_999), Moment::new(3_000)) else {
        return false;
    };
    let is_due = pending.due(before).is_none() && pending.due(after) == Some(1);
    let has_ended = pending.expire(1) && !pending.expire(2);
    is_due && has_ended && pending.due(after).is_none()
}

// Whether the fetch takes its second attempt, and there is no other.
fn attempts(pending: &mut Pending) -> bool {
    let goes_on = pending.next_attempt(1) && !pending.next_attempt(2);
    let is_so = match pending.fetch(1) {
        Some(fetch) => {
            fetch.shared && fetch.attempt == 1 && fetch.key.as_slice() == b"http://a/".as_slice()
        }
        None => false,
    };
    goes_on && is_so && pending.fetch(2).is_none()
}

#[test]
fn expiring(rt: HostRuntime) {
    let mut pending = first(&rt, rt.alloc());
    let found = (expires(&mut pending), attempts(&mut pending));
    drop(pending);
    assert!(rt; found.0);
    assert!(rt; found.1);
}

// Whether a copy has the fetch with its waiters, and changes independently of the original, whose fetch is closed.
fn is_independent(pending: &mut Pending, copy: &mut Pending, key: &CacheKey) -> bool {
    pending.close(1);
    pending.fetch(1).is_none()
        && copy.waiters(1).get(1) == Some(&2)
        && matches!(copy.join(key, 3), Some(Ok(())))
        && !pending.waits(3)
        && copy.next_number() == 2
        && copy.expire(1)
}

// Whether a second client joins, and what is copied then is independent.
fn is_copied<R: Abort>(rt: &R, alloc: Global, pending: &mut Pending) -> bool {
    let key = key(alloc).expect(rt, NO_MEMORY);
    let joins = matches!(pending.join(&key, 2), Some(Ok(())));
    let mut copy = pending.copy(alloc).expect(rt, NO_MEMORY);
    let found = is_independent(pending, &mut copy, &key);
    drop(copy);
    drop(key);
    joins && found
}

#[test]
fn copied(rt: HostRuntime) {
    let mut pending = first(&rt, rt.alloc());
    let found = is_copied(&rt, rt.alloc(), &mut pending);
    drop(pending);
    assert!(rt; found);
}

// Whether fetches of these numbers are opened for clients of the same.
fn open_all(alloc: Global, pending: &mut Pending, table: &Table, numbers: Range<u32>) -> bool {
    let Some(start) = Moment::new(1000) else {
        return false;
    };
    for number in numbers {
        let round = Round::start(table, start);
        if open_at(alloc, pending, u64::from(number), round) != Some(number) {
            return false;
        }
    }
    true
}

// Whether no further fetch is opened.
fn is_full(alloc: Global, pending: &mut Pending, table: &Table) -> bool {
    match Moment::new(1000) {
        Some(start) => {
            let round = Round::start(table, start);
            pending.is_full() && open_at(alloc, pending, 999, round).is_none()
        }
        None => false,
    }
}

fn close_all(pending: &mut Pending, numbers: Range<u32>) {
    for number in numbers {
        pending.close(number);
    }
}

// Whether these fetches, and no others, are due one after the other.
fn are_due(pending: &mut Pending, numbers: &[u32]) -> bool {
    let Some(now) = Moment::new(3000) else {
        return false;
    };
    for number in numbers {
        if pending.due(now) != Some(*number) || !pending.expire(*number) {
            return false;
        }
    }
    pending.due(now).is_none()
}

// Opens fetches 1 to 256, closes 2 to 255 and opens two more, numbered 257 and 258. The remaining four are due in the order
// of opening.
#[test]
fn numbers_and_the_order_of_opening(rt: HostRuntime) {
    let table = table(rt.alloc()).expect(&rt, NO_MEMORY);
    let mut pending = Pending::new(rt.alloc()).expect(&rt, NO_MEMORY);
    let fills = open_all(rt.alloc(), &mut pending, &table, 1..257)
        && is_full(rt.alloc(), &mut pending, &table);
    close_all(&mut pending, 2..256);
    let goes_on = open_all(rt.alloc(), &mut pending, &table, 257..259);
    let is_in_order = are_due(&mut pending, &[1, 256, 257, 258]);
    drop(pending);
    drop(table);
    assert!(rt; fills);
    assert!(rt; goes_on);
    assert!(rt; is_in_order);
}
