//! Senders, and the numbers of their datagrams.

use crate::details::{Sender, Share};
use std::alloc::{AllocError, Global};
use std::collections::BTreeMap;

/// The most senders that are counted one by one.
pub const MOST_SENDERS: usize = 65_536;

/// The number of senders that `most_rejected` answers at most.
pub const TOP: usize = 20;

/// The number of slots: 17 bits of a hash. At most every second one is taken.
const SLOTS: usize = 131_072;

/// The number of slots in which a sender can stand.
const TRIES: usize = 16;

/// The number of datagrams that are counted together.
const TOGETHER: usize = 64;

/// A slot that no sender has taken; one that is taken has a datagram at least.
const FREE: Sender = Sender {
    address: [0; 4],
    share: Share::NONE,
};

/// A datagram that still has to be counted.
#[derive(Clone, Copy)]
struct Waiting {
    address: [u8; 4],
    rejected: bool,
}

/// Datagrams by sender, as they stood at the last `settle` or later. A sender takes the first free slot of sixteen, which its address
/// decides. Where others have taken all of these, it stands in a tree, so that no choice of addresses makes counting slow.
// Datagrams are counted 64 at a time: with many senders their slots are far apart, and the processor fetches several at once.
#[derive(Drop)]
pub(crate) struct Senders {
    slots: Vec<Sender>,
    crowded: BTreeMap<u32, Share>,
    // Datagrams that still have to be counted, in the order in which they came.
    waiting: Vec<Waiting>,
    // The number of senders that are counted one by one, and the datagrams of all others.
    count: usize,
    rest: Share,
}

impl Senders {
    /// None so far. Errors: out of memory.
    pub(crate) fn new(alloc: Global) -> Result<Senders, AllocError> {
        let mut slots = Vec::new(alloc);
        slots.resize(SLOTS, FREE)?;
        let waiting = Vec::with_capacity(alloc, TOGETHER)?;
        Ok(Senders {
            slots,
            crowded: BTreeMap::new(alloc),
            waiting,
            count: 0,
            rest: Share::NONE,
        })
    }

    /// Takes one more datagram of a sender. Errors: out of memory.
    pub(crate) fn count(&mut self, address: [u8; 4], rejected: bool) -> Result<(), AllocError> {
        self.waiting.push(Waiting { address, rejected })?;
        if self.waiting.len() < TOGETHER {
            return Ok(());
        }
        self.settle()
    }

    /// Counts the datagrams that wait. Errors: out of memory.
    pub(crate) fn settle(&mut self) -> Result<(), AllocError> {
        for place in 0..self.waiting.len() {
            if let Some(one) = self.waiting.get(place) {
                let Waiting { address, rejected } = *one;
                self.count_one(address, rejected)?;
            }
        }
        self.waiting.clear();
        Ok(())
    }

    // Counts a datagram of a sender.
    fn count_one(&mut self, address: [u8; 4], rejected: bool) -> Result<(), AllocError> {
        match self.slot_of(address) {
            Some(place) => {
                self.count_at(place, address, rejected);
                Ok(())
            }
            None => self.count_crowded(u32::from_be_bytes(address), rejected),
        }
    }

    // The place of the slot that the sender has, or else of the first free one; `None` if others have taken all sixteen.
    fn slot_of(&self, address: [u8; 4]) -> Option<usize> {
        let first = first_slot(address);
        for step in 0..TRIES {
            let place = first.wrapping_add(step) % SLOTS;
            let sender = self.slots.get(place)?;
            if sender.address == address || sender.share.datagrams == 0 {
                return Some(place);
            }
        }
        None
    }

    // Counts a datagram in this slot, which the sender takes if it is free.
    fn count_at(&mut self, place: usize, address: [u8; 4], rejected: bool) {
        let Some(slot) = self.slots.get_mut(place) else {
            return;
        };
        if slot.share.datagrams == 0 {
            if self.count >= MOST_SENDERS {
                self.rest = self.rest.counted(rejected);
                return;
            }
            self.count += 1;
            slot.address = address;
        }
        slot.share = slot.share.counted(rejected);
    }

    // Counts a datagram of a sender that has no slot.
    fn count_crowded(&mut self, address: u32, rejected: bool) -> Result<(), AllocError> {
        if let Some(share) = self.crowded.get_mut(&address) {
            *share = share.counted(rejected);
            return Ok(());
        }
        if self.count >= MOST_SENDERS {
            self.rest = self.rest.counted(rejected);
            return Ok(());
        }
        self.crowded.insert(address, Share::NONE.counted(rejected))?;
        self.count += 1;
        Ok(())
    }

    /// The datagrams of the senders that are not counted one by one.
    pub(crate) fn rest(&self) -> Share {
        self.rest
    }

    /// The at most twenty senders with most rejected datagrams, of those that have any: the most first, and of two with as many
    /// the one with the lower address. Errors: out of memory.
    pub(crate) fn most_rejected(&self, alloc: Global) -> Result<Vec<Sender>, AllocError> {
        let mut top = self.most_in_slots(alloc)?;
        for (address, share) in self.crowded.iter() {
            enter(
                &mut top,
                Sender {
                    address: address.to_be_bytes(),
                    share: *share,
                },
            )?;
        }
        Ok(top)
    }

    // The same of those that have a slot.
    fn most_in_slots(&self, alloc: Global) -> Result<Vec<Sender>, AllocError> {
        let mut top = Vec::new(alloc);
        for sender in self.slots.iter() {
            enter(&mut top, *sender)?;
        }
        Ok(top)
    }
}

// The first slot in which a sender can stand: the upper bits of a product, which depend on all bits of the address.
fn first_slot(address: [u8; 4]) -> usize {
    (u32::from_be_bytes(address).wrapping_mul(0x9e37_79b1) >> 15) as usize
}

// Enters a sender into the list of those with most rejected datagrams, if it belongs there.
fn enter(top: &mut Vec<Sender>, sender: Sender) -> Result<(), AllocError> {
    if sender.share.rejected == 0 {
        return Ok(());
    }
    let place = top
        .iter()
        .position(|other| stands_before(&sender, other))
        .unwrap_or(top.len());
    if place < TOP {
        top.insert(place, sender)?;
        top.truncate(TOP);
    }
    Ok(())
}

// Whether a sender has more rejected datagrams than the other, or as many and a lower address.
fn stands_before(sender: &Sender, other: &Sender) -> bool {
    if sender.share.rejected != other.share.rejected {
        return sender.share.rejected > other.share.rejected;
    }
    u32::from_be_bytes(sender.address) < u32::from_be_bytes(other.address)
}
