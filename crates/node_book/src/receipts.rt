//! The receipts that a seat keeps.
ghost use Rattle.std.specs.Prelude.{◌≡◌, ◌<◌, ◌≤◌, ◌+◌, ◌++◌, ◌==◌, [], ◌∷◌, length, drop, Some, slice_get, count_by, nat_le, IfOk};
ghost use Rattle.node_book.specs.Claims.{claim_of};
ghost use Rattle.node_book.specs.Seats.{light, receipt_octets};

use crate::NoMemory;
use crate::booked::Receipt;
use crate::contents::contents_of;
use std::alloc::Global;
use std::collections::VecDeque;
use std::marker::Model;

/// Number of receipts that a seat keeps at most, the latest ones.
pub const MOST_RECEIPTS: usize = 1_024;

/// Up to 1,024 receipts, oldest first, with the octets of their contents. Contracts see the receipts.
#[derive(Drop)]
pub(crate) struct Receipts {
    queue: VecDeque<Receipt>,
    octets: u64,
}

impl Model for Receipts {
    ghost use Rattle.std.specs.Prelude.{◌≡◌, ◌≤◌, List, map};
    ghost use Rattle.std.specs.VecDeque.{deque_len, deque_capacity};
    ghost use Rattle.node_book.specs.Seats.{Claim, receipt_octets};
    ghost use Rattle.node_book.specs.Claims.{claim_of};

    ghost Value = { List Claim };

    ghost view = { λ r. map claim_of r.queue.items };

    ghost invariant = { λ r. (r.octets ≡ receipt_octets (map claim_of r.queue.items)) × (deque_len r.queue ≤ 1024) × (1024 ≤ deque_capacity r.queue) };
}

impl Receipts {
    /// No receipts, with memory for 1,024. Errors: allocation failure.
    pub(crate) fn new(alloc: Global) -> Result<Receipts, NoMemory>
        ensures { IfOk result (λ receipts. receipts ≡ []) }
    {
        Ok(Receipts {
            queue: VecDeque::with_capacity(alloc, MOST_RECEIPTS)?,
            octets: 0,
        })
    }

    /// Number of receipts.
    pub(crate) fn len(&self) -> usize
        ensures len { result ≡ length self.now }
        ensures few { result ≤ 1024 }
    {
        self.queue.len()
    }

    /// The receipt at index `j`, the oldest at 0.
    pub(crate) fn get(&self, j: usize) -> &Receipt
        requires { j < length self.now }
        ensures { slice_get self.now j ≡ Some (claim_of result.now) }
    {
        &self.queue[j]
    }

    /// Number of receipts with this number.
    pub(crate) fn numbered(&self, number: u64) -> u64
        ensures count { result ≡ count_by (λ receipt. receipt.number == number) self.now }
        ensures few { result ≤ 1024 }
    {
        self.queue.iter().filter(|r| r.number == number).count() as u64
    }

    /// Number of receipts whose number is at least `base`.
    pub(crate) fn kept_from(&self, base: u64) -> u64
        ensures count { result ≡ count_by (λ receipt. nat_le base receipt.number) self.now }
        ensures few { result ≤ 1024 }
    {
        self.queue.iter().filter(|r| base <= r.number).count() as u64
    }

    /// Octets of the contents of the receipts' events.
    fn octets(&self) -> u64
        ensures { result ≡ receipt_octets self.now }
    {
        self.octets
    }

    /// Appends a receipt.
    pub(crate) fn push(&mut self, receipt: Receipt)
        requires { length self.old < 1024 }
        ensures { self.new ≡ self.old ++ claim_of receipt ∷ [] }
    {
        self.octets += contents_of(&*receipt.event);
        self.queue.push_back_reserved(receipt);
    }

    /// Removes the oldest receipt, if there is one.
    pub(crate) fn pop(&mut self) -> Option<Receipt>
        ensures { self.new ≡ drop 1 self.old }
    {
        let oldest = self.queue.pop_front();
        if let Some(receipt) = &oldest {
            self.octets -= contents_of(&*receipt.event);
        }
        oldest
    }

    /// Removes the oldest receipts until the contents of the others have at most `room` octets.
    pub(crate) fn lighten(&mut self, room: u64)
        ensures { self.new ≡ light room self.old }
    {
        'heavy: while self.octets() > room {
            let _ = self.pop();
        }
    }

    /// Removes the oldest receipts, `count` or all.
    pub(crate) fn drop_oldest(&mut self, count: usize)
        ensures { self.new ≡ drop count self.old }
    {
        for _ in 0..count {
            let _ = self.pop();
        }
    }
}
