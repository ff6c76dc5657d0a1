//! Checking receipts against the book.
ghost use Rattle.std.specs.Prelude.{◌≡◌, ◌<◌, ◌≤◌, ◌+◌, ◌==◌, ℕ, IsTrue, ◌↔◌, length, take, sum_by, count_by, slice_get, Some};
ghost use Rattle.node_book.specs.Seats.{AreAllOpened};
ghost use Rattle.node_book.specs.Audited.{Agrees, IsAstray, IsAstrayAt};
ghost use Rattle.node_book.specs.Good.{AreAllGood, IsGoodReceipt, IsGoodAt, IsMisfitAt, IsMisfit, IsLeastOf, lesser_of, numbered, kept_from};

use crate::booked::Booked;
use crate::seat::{AUDITED, Seat};
use std::sync::ledger::{Ledger, Share};
use thiserror::Error;

/// Errors of settling a desk.
#[derive(Clone, Copy, Debug, PartialEq, Eq, Error)]
pub enum SettleFault {
    /// These are not the seats that were opened.
    #[error("not the seats that were opened")]
    Seats,
    /// The lowest number, from the base on, of a receipt that is not good.
    #[error("the receipt of event {0} is not good")]
    Misfit(u64),
}

/// The result of settling a desk.
#[derive(Clone, Copy, PartialEq, Eq)]
pub struct Report {
    /// Number of events taken.
    pub count: u64,
    /// Number of events taken before the last volume.
    pub base: u64,
    /// Number of kept receipts for events of the last volume.
    pub matched: u64,
}

/// Whether these are the seats with indices 0 to `count` - 1, each once.
pub(crate) fn all_opened<L: Ledger>(count: u64, seats: &[Seat<L>]) -> bool
    ensures { IsTrue result ↔ AreAllOpened count seats.now }
{
    if seats.len() as u64 != count {
        return false;
    }
    for place in 0..count {
        if at_place(place, seats) != 1 {
            return false;
        }
    }
    true
}

/// Number of seats with this index.
fn at_place<L: Ledger>(place: u64, seats: &[Seat<L>]) -> usize
    ensures { result ≡ count_by (λ seat. seat.place == place) seats.now }
{
    seats.iter().filter(|seat| seat.place() == place).count()
}

/// Number of kept receipts with this number, over all seats.
fn how_many<L: Ledger>(number: u64, seats: &[Seat<L>]) -> u64
    requires { length seats.now ≤ 64 }
    ensures { result ≡ numbered number seats.now }
{
    let mut all = 0;
    for seat in seats {
        all += seat.numbered(number);
    }
    all
}

/// Number of kept receipts whose number is at least `base`, over all seats.
pub(crate) fn how_many_from<L: Ledger>(base: u64, seats: &[Seat<L>]) -> u64
    requires { length seats.now ≤ 64 }
    ensures { result ≡ kept_from base seats.now }
{
    let mut all = 0;
    for seat in seats {
        all += seat.kept_from(base);
    }
    all
}

/// The lowest number, from the base on, of a receipt of one seat that is not good.
fn seat_misfit<L: Ledger>(booked: &Booked, seats: &[Seat<L>], seat: &Seat<L>) -> Option<u64>
    requires { length seats.now ≤ 64 }
    ensures least { IsLeastOf (λ n. (j : ℕ) × IsMisfitAt booked.now seats.now seat.now.receipts j n) result }
    ensures good { result ≡ None → (j : ℕ) → IsGoodAt booked.now seats.now seat.now.receipts j }
{
    let mut least = None;
    for j in 0..seat.len() {
        least = lesser(least, misfit_at(booked, seats, seat, j));
    }
    least
}

/// The number of the receipt at index `j` of a seat, if it is at least the base and the receipt is not good.
fn misfit_at<L: Ledger>(booked: &Booked, seats: &[Seat<L>], seat: &Seat<L>, j: usize) -> Option<u64>
    requires few { length seats.now ≤ 64 }
    requires at { j < length seat.now.receipts }
    ensures least { IsLeastOf (IsMisfitAt booked.now seats.now seat.now.receipts j) result }
    ensures good { result ≡ None → IsGoodAt booked.now seats.now seat.now.receipts j }
{
    let receipt = seat.receipt(j);
    if receipt.number < booked.base() {
        return None;
    }
    if is_good(booked, seats, seat, j) {
        return None;
    }
    Some(receipt.number)
}

/// Whether the receipt at index `j` of a seat is good: the book has it, no other kept receipt has its number, and the seat's
/// earlier receipts have lower numbers.
fn is_good<L: Ledger>(booked: &Booked, seats: &[Seat<L>], seat: &Seat<L>, j: usize) -> bool
    requires few { length seats.now ≤ 64 }
    requires at { j < length seat.now.receipts }
    ensures { (r : _) → slice_get seat.now.receipts j ≡ Some r → (IsTrue result ↔ IsGoodReceipt booked.now seats.now (take j seat.now.receipts) r) }
{
    let receipt = seat.receipt(j);
    booked.has(receipt) && how_many(receipt.number, seats) == 1 && seat.rises_to(j, receipt.number)
}

/// The lowest number, from the base on, of a kept receipt that is not good.
pub(crate) fn least_misfit<L: Ledger>(booked: &Booked, seats: &[Seat<L>]) -> Option<u64>
    requires { length seats.now ≤ 64 }
    ensures least { IsLeastOf (IsMisfit booked.now seats.now) result }
    ensures good { result ≡ None → AreAllGood booked.now seats.now }
{
    let mut least = None;
    for seat in seats {
        least = lesser(least, seat_misfit(booked, seats, seat));
    }
    least
}

/// The lowest number, from the base on, of a receipt among the oldest 16 of a seat that doesn't agree with the book.
pub(crate) fn astray<L: Ledger>(booked: &Booked, seat: &Seat<L>) -> Option<u64>
    ensures { IsLeastOf (IsAstray booked.now seat.now.receipts) result }
{
    let mut least = None;
    for j in 0..seat.len().min(AUDITED) {
        least = lesser(least, astray_at(booked, seat, j));
    }
    least
}

/// The number of the receipt at index `j` of a seat, if it is at least the base and the receipt doesn't agree with the book.
fn astray_at<L: Ledger>(booked: &Booked, seat: &Seat<L>, j: usize) -> Option<u64>
    requires { j < length seat.now.receipts }
    ensures { IsLeastOf (IsAstrayAt booked.now seat.now.receipts j) result }
{
    let receipt = seat.receipt(j);
    if receipt.number < booked.base() {
        return None;
    }
    if agrees(booked, seat, j) {
        return None;
    }
    Some(receipt.number)
}

/// Whether the book has the receipt at index `j` of a seat, and the seat's earlier receipts have lower numbers.
fn agrees<L: Ledger>(booked: &Booked, seat: &Seat<L>, j: usize) -> bool
    requires { j < length seat.now.receipts }
    ensures { (r : _) → slice_get seat.now.receipts j ≡ Some r → (IsTrue result ↔ Agrees booked.now (take j seat.now.receipts) r) }
{
    let receipt = seat.receipt(j);
    booked.has(receipt) && seat.rises_to(j, receipt.number)
}

/// The lesser of two optional numbers; an absent one is ignored.
fn lesser(a: Option<u64>, b: Option<u64>) -> Option<u64>
    ensures { result ≡ lesser_of a b }
{
    match (a, b) {
        (Some(x), Some(y)) => Some(x.min(y)),
        (Some(x), None) => Some(x),
        (None, y) => y,
    }
}

/// Merges the shares of all seats into `all`.
pub(crate) fn gather<L: Ledger>(all: &mut Share<L>, seats: Vec<Seat<L>>)
    ensures parts { all.new.parts ≡ all.old.parts + length seats.items }
    ensures amount { all.new.amount ≡ all.old.amount + sum_by (λ s. s.share) seats.items }
{
    for seat in seats {
        all.merge(seat.into_share());
    }
}
