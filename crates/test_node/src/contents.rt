//! Tests of how many octets of contents a book and a seat keep, and of comparing receipts while a desk is open. A query has 34.
ghost use Rattle.std.specs.Prelude.{◌≡◌};

use crate::desks::{desk_of, desk_with_room, submit_all};
use crate::events::{node_of, query};
use crate::loads::Load;
use node_book::{BookFault, Booked, Desk, Report, Seat};
use node_core::Out;
use std::alloc::Global;
use std::marker::Brand;
use std::sync::Wait;
use std::sync::ledger::{Blank, Ledger};

/// The numbers of queries after which a volume of this capacity in octets is full, of the first four.
fn full_after(alloc: Global, octets: u32) -> Option<Vec<u64>> {
    let mut booked = Booked::within(alloc, node_of(alloc)?, 100, octets).ok()?;
    let full = full_in(alloc, &mut booked);
    drop(booked);
    full
}

/// The same of a new book.
fn full_in(alloc: Global, booked: &mut Booked) -> Option<Vec<u64>> {
    let mut full = Vec::new(alloc);
    for count in 1..5u64 {
        if booked.is_full() {
            drop(booked.turn(alloc));
        }
        is_taken(alloc, booked, count)?;
        if booked.is_full() {
            full.push(count).ok()?;
        }
    }
    Some(full)
}

fn is_taken(alloc: Global, booked: &mut Booked, millis: u64) -> Option<()> {
    let mut out = Out::new(alloc).ok()?;
    drop(booked.take(alloc, query(alloc, millis)?, &mut out).ok()?);
    Some(())
}

/// A capacity in octets, and the numbers of queries after which a volume is full.
type Filled = (u32, &'static [u64]);

const FILLED: [Filled; 4] = [
    (1, &[1, 2, 3, 4]),
    (34, &[1, 2, 3, 4]),
    (68, &[2, 4]),
    (69, &[3]),
];

/// Whether a volume is full after these queries.
fn is_full_after(alloc: Global, row: &Filled) -> bool {
    match full_after(alloc, row.0) {
        Some(full) => full.as_slice() == row.1,
        None => false,
    }
}

#[test]
fn a_volume_ends_by_its_octets(rt: HostRuntime) {
    for row in &FILLED {
        assert!(rt; is_full_after(rt.alloc(), row));
    }
}

/// The error of a book without any octets.
fn refused(alloc: Global) -> Option<BookFault> {
    Booked::within(alloc, node_of(alloc)?, 100, 0).err()
}

#[test]
fn a_book_without_octets_is_refused(rt: HostRuntime) {
    assert!(rt; refused(rt.alloc()) == Some(BookFault::Limits));
}

/// The number of receipts that the first seat keeps of three queries.
fn kept_of_three<L: Ledger, R: Wait>(
    rt: &R,
    alloc: Global,
    desk: &Desk<L>,
    seats: &mut Vec<Seat<L>>,
) -> Option<usize> {
    let seat = seats.first_mut()?;
    submit_all(rt, alloc, desk, seat, Load::Queries, 3)?;
    Some(seat.len())
}

/// The number of receipts that a seat with this room keeps of three queries.
fn kept<L: Ledger, R: Wait>(rt: &R, alloc: Global, blank: Blank, room: u32) -> Option<usize>
    requires name { blank.name ≡ L.name }
    requires parts { blank.parts ≡ L.parts }
    requires one { blank.parts ≡ 1 }
{
    let (desk, mut seats) = desk_with_room::<L>(alloc, blank, 100, room)?;
    let kept = kept_of_three(rt, alloc, &desk, &mut seats);
    drop(seats);
    drop(desk);
    kept
}

/// How many octets of contents a seat keeps receipts of, and how many receipts these are of three queries.
const ROOMS: [(u32, usize); 6] = [(0, 0), (33, 0), (34, 1), (101, 2), (102, 3), (1_000, 3)];

#[test]
fn receipts_give_way_by_their_octets(rt: HostRuntime) {
    for (room, count) in &ROOMS {
        assert!(rt; kept::<Brand, _>(&rt, rt.alloc(), Blank::new(1), *room) == Some(*count));
    }
}

/// What two audits at the first seat leave of the receipts of 20 queries.
fn left_by_audits<L: Ledger, R: Wait>(
    rt: &R,
    alloc: Global,
    desk: &Desk<L>,
    seats: &mut Vec<Seat<L>>,
) -> Option<[usize; 2]> {
    let seat = seats.first_mut()?;
    submit_all(rt, alloc, desk, seat, Load::Queries, 20)?;
    let first = desk.audit(rt, seat);
    let left = seat.len();
    let second = desk.audit(rt, seat);
    if first.is_some() || second.is_some() {
        return None;
    }
    Some([left, seat.len()])
}

/// What two audits leave of the receipts of 20 queries, and the report of the desk.
fn audited<L: Ledger, R: Wait>(rt: &R, alloc: Global, blank: Blank) -> Option<([usize; 2], Report)>
    requires name { blank.name ≡ L.name }
    requires parts { blank.parts ≡ L.parts }
    requires one { blank.parts ≡ 1 }
{
    let (desk, mut seats) = desk_of::<L>(alloc, blank, 100, 1)?;
    let left = left_by_audits(rt, alloc, &desk, &mut seats);
    let report = desk.settle(seats).ok();
    Some((left?, report?))
}

#[test]
fn audited_receipts_are_let_go(rt: HostRuntime) {
    let wanted = Report {
        count: 20,
        base: 0,
        matched: 0,
    };
    let told = audited::<Brand, _>(&rt, rt.alloc(), Blank::new(1));
    assert!(rt; told == Some(([4, 0], wanted)));
}
