//! Seats: the handles through which events are submitted to a desk, with their latest receipts.
ghost use Rattle.std.specs.Prelude.{◌≡◌, ◌<◌, ◌≤◌, ◌+◌, ◌==◌, length, take, drop, Some, slice_get, count_by, nat_le, nat_lt, OnOk, IfOk};
ghost use Rattle.std.specs.List.{list_all};
ghost use Rattle.node_book.specs.Seats.{credited, lightened, opened_with_room};
ghost use Rattle.node_book.specs.Claims.{claim_of};

use crate::NoMemory;
use crate::booked::Receipt;
use crate::receipts::{MOST_RECEIPTS, Receipts};
use std::alloc::Global;
use std::marker::Model;
use std::sync::ledger::{Book, Ledger, Share};

/// Octets of contents that the receipts of a seat keep at most, unless set otherwise.
pub const RECEIPT_OCTETS: u32 = 4_194_304;

/// Number of receipts that one audit compares.
pub(crate) const AUDITED: usize = 16;

/// A caller's seat at a desk: its index, its share of the count of events, its latest receipts, and how many octets of contents
/// it keeps. There are at most 1,024 receipts. Contracts see these four.
#[derive(Drop)]
pub struct Seat<L: Ledger> {
    place: u64,
    share: Share<L>,
    receipts: Receipts,
    room: u32,
}

impl<L: Ledger> Model for Seat<L> {
    ghost use Rattle.std.specs.Prelude.{◌≡◌};
    ghost use Rattle.node_book.specs.Seats.{Held};

    ghost Value = { Held };

    ghost view = { λ s. record { place = s.place; share = s.share.amount; receipts = s.receipts; room = s.room } };

    ghost invariant = { λ s. s.share.parts ≡ 1 };
}

impl<L: Ledger> Seat<L> {
    /// Its index among the seats of its desk, from 0.
    pub fn place(&self) -> u64
        ensures { result ≡ self.now.place }
    {
        self.place
    }

    /// Number of receipts that it keeps.
    pub fn len(&self) -> usize
        ensures len { result ≡ length self.now.receipts }
        ensures few { result ≤ 1024 }
    {
        self.receipts.len()
    }

    /// The kept receipt at index `j`, the earliest at 0.
    pub fn receipt(&self, j: usize) -> &Receipt
        requires { j < length self.now.receipts }
        ensures { slice_get self.now.receipts j ≡ Some (claim_of result.now) }
    {
        self.receipts.get(j)
    }

    /// The number of the receipt at index `j`.
    fn number(&self, j: usize) -> u64
        requires { j < length self.now.receipts }
        ensures { (r : _) → slice_get self.now.receipts j ≡ Some r → result ≡ r.number }
    {
        self.receipts.get(j).number
    }

    /// Number of kept receipts with this number.
    pub(crate) fn numbered(&self, number: u64) -> u64
        ensures count { result ≡ count_by (λ receipt. receipt.number == number) self.now.receipts }
        ensures few { result ≤ 1024 }
    {
        self.receipts.numbered(number)
    }

    /// Number of kept receipts whose number is at least `base`.
    pub(crate) fn kept_from(&self, base: u64) -> u64
        ensures count { result ≡ count_by (λ receipt. nat_le base receipt.number) self.now.receipts }
        ensures few { result ≤ 1024 }
    {
        self.receipts.kept_from(base)
    }

    /// Whether the receipts before index `j` all have lower numbers than `number`.
    pub(crate) fn rises_to(&self, j: usize, number: u64) -> bool
        requires { j ≤ length self.now.receipts }
        ensures { result ≡ list_all (λ before. nat_lt before.number number) (take j self.now.receipts) }
    {
        let mut rising = true;
        for i in 0..j {
            if self.number(i) >= number {
                rising = false;
            }
        }
        rising
    }

    /// A fact: its share is at most the total. Changes nothing.
    pub(crate) fn audit(&mut self, total: &mut Book<L>)
        ensures same { self.new ≡ self.old }
        ensures total { total.new.total ≡ total.old.total }
        ensures bound { self.old.share ≤ total.old.total }
    {
        total.audit(&mut self.share);
    }

    /// Counts one more event and keeps its receipt. Returns the receipt that is dropped for it, if any.
    pub(crate) fn credit(&mut self, total: &mut Book<L>, receipt: Receipt) -> Option<Receipt>
        ensures seat { self.new ≡ credited self.old (claim_of receipt) }
        ensures total { total.new.total ≡ total.old.total + 1 }
    {
        total.add(&mut self.share, 1);
        let spent = if self.receipts.len() == MOST_RECEIPTS {
            self.receipts.pop()
        } else {
            None
        };
        self.receipts.push(receipt);
        spent
    }

    /// Drops the oldest receipts until the contents of the others have no more octets than the seat keeps.
    pub(crate) fn lighten(&mut self)
        ensures { self.new ≡ lightened self.old }
    {
        self.receipts.lighten(u64::from(self.room));
    }

    /// Drops the receipts that an audit has compared, the oldest 16.
    pub(crate) fn drop_audited(&mut self)
        ensures same { self.new ≡ record self.old { receipts = drop 16 self.old.receipts } }
    {
        self.receipts.drop_oldest(AUDITED);
    }

    /// Consumes the seat and returns its share.
    pub(crate) fn into_share(self) -> Share<L>
        ensures parts { result.parts ≡ 1 }
        ensures amount { result.amount ≡ self.share }
    {
        let Seat {
            place: _,
            share,
            ..
        } = self;
        share
    }
}

/// Splits all parts of a share into seats of one part each, with memory for their receipts and room for this many octets of
/// contents. Errors: allocation failure.
pub(crate) fn seats_of<L: Ledger>(
    alloc: Global,
    spare: &mut Share<L>,
    count: u64,
    room: u32,
) -> Result<Vec<Seat<L>>, NoMemory>
    requires { (spare.old.parts ≡ count) × (spare.old.amount ≡ 0) }
    ensures none { OnOk result (spare.new.parts ≡ 0) }
    ensures seats { IfOk result (λ seats. seats.items ≡ opened_with_room room count) }
{
    let mut seats = Vec::new(alloc);
    for place in 0..count {
        let share = spare.split_off(1, 0);
        seats.push(Seat {
            place,
            share,
            receipts: Receipts::new(alloc)?,
            room,
        })?;
    }
    Ok(seats)
}
