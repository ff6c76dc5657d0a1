//! A node with its book: the log of the events that it has taken, each with a tally of its actions.
ghost use Rattle.std.specs.Prelude.{true, false, ◌≡◌, ◌<◌, ◌≤◌, [], ◌∷◌, ◌+◌, ◌++◌, length, vec_capacity, IfOk, OnOk, OnErr, IsErrOf, IsTrue, ◌≢◌, ◌↔◌, map};
ghost use Rattle.std.specs.Option.{option_map};
ghost use Rattle.pending_fetch.specs.Fetches.{PendingFetch, fetch_of};
ghost use Rattle.std.specs.Bool.{OnFalse};
ghost use Rattle.std.specs.Arc.{arc_value};
ghost use Rattle.node_core.specs.Happening.{arrives, happening};
ghost use Rattle.node_core.specs.State.{HasTaken};
ghost use Rattle.plain_node.specs.Tally.{tally_of};
ghost use Rattle.node_book.specs.Claims.{claim_of, said_of};
ghost use Rattle.node_book.specs.Contents.{contents_of};
ghost use Rattle.node_book.specs.Entries.{entry_of};
ghost use Rattle.node_book.specs.Good.{Stands};
ghost use Rattle.node_book.specs.Book.{IsLegal, begun, begun_within, count_of, is_full, turned, written};

use crate::NoMemory;
use crate::contents::contents_of;
use crate::image::Image;
use filter_slots::{Judged, Moment};
use node_core::{Event, Node, Out, Tally, append_law, same_event, same_tally};
use object_store::CacheKey;
use std::alloc::Global;
use std::marker::Model;
use std::mem;
use std::sync::Arc;
use thiserror::Error;

/// The greatest capacity of a volume, in events.
pub const MOST_VOLUME: usize = 1_048_576;

/// The capacity of a volume in octets of contents, unless set otherwise: 64 MiB.
pub const BOOK_OCTETS: u32 = 67_108_864;

/// Errors of `Booked::new` and `Booked::within`.
#[derive(Clone, Copy, Debug, PartialEq, Eq, Error)]
pub enum BookFault {
    /// The capacity of a volume is not 1 to 1,048,576, or its capacity in octets is 0.
    #[error("the volume is not 1 to 1048576")]
    Limits,
    /// Allocation failure.
    #[error("no memory")]
    NoMemory,
}

/// Errors of taking an event.
#[derive(Clone, Copy, Debug, PartialEq, Eq, Error)]
pub enum TakeFault {
    /// 18,446,744,073,709,551,615 events were taken: there are no more event numbers.
    #[error("no event has a number any more")]
    Ended,
    /// The present volume is full.
    #[error("the volume is full")]
    VolumeFull,
    /// Allocation failure, or a reference count at its maximum.
    #[error("no memory")]
    NoMemory,
}

/// The receipt for an event that was taken: its number, from 0 on, the event, and the tally of its actions.
#[derive(Drop)]
pub struct Receipt {
    /// Number of events taken before it.
    pub number: u64,
    /// The event.
    pub event: Arc<Event>,
    /// The tally of its actions.
    pub tally: Tally,
}

/// An entry of the book: an event and the tally of its actions.
#[derive(Drop)]
pub struct Entry {
    /// The event.
    pub event: Arc<Event>,
    /// The tally of its actions.
    pub tally: Tally,
}

/// The entries of a finished volume. Dropping them may take long, so drop this where no lock is held.
pub struct Volume {
    _kept: Vec<Entry>,
}

// Written by hand, so that what lets it go is one call for the prover (docs/GATE.md).
impl Drop for Volume {
    fn drop(self) {
        let Self { _kept: _ } = self;
    }
}

/// A node and its book. Contracts see the book, which is always legal: replaying its entries from the opening state of the volume
/// gives the node's present state and every tally.
pub struct Booked {
    first: Image,
    opening: Image,
    present: Node,
    kept: Vec<Entry>,
    // The octets of the contents of `kept`.
    octets: u64,
    base: u64,
    volume: usize,
    most_octets: u32,
}

// Written by hand, so that what lets it go is one call for the prover (docs/GATE.md).
impl Drop for Booked {
    fn drop(self) {
        let Self {
            first: _,
            opening: _,
            present: _,
            kept: _,
            octets: _,
            base: _,
            volume: _,
            most_octets: _,
        } = self;
    }
}

impl Model for Booked {
    ghost use Rattle.std.specs.Prelude.{◌≡◌, ◌≤◌, map, vec_capacity};
    ghost use Rattle.node_book.specs.Book.{Book, IsLegal, entry_octets};
    ghost use Rattle.node_book.specs.Entries.{entry_of};

    ghost Value = { Book };

    ghost use Rattle.node_book.specs.Kept.{book_of};

    ghost view = { book_of };

    ghost invariant = { λ b. IsLegal (book_of b) × (b.volume ≤ vec_capacity b.kept) × (b.octets ≡ entry_octets (map entry_of b.kept.items)) };
}

impl Booked {
    /// Starts the book of a node. `volume` is the capacity of a volume in events, which is allocated at once. A volume also ends
    /// when the contents of its events have 64 MiB.
    pub fn new(alloc: Global, node: Node, volume: usize) -> Result<Booked, BookFault>
        ensures begins { IfOk result (λ b. b ≡ begun node volume) }
        ensures limits { IsErrOf result BookFault.Limits ↔ ((0 < volume) × (volume ≤ 1048576) → ⊥) }
    {
        Booked::within(alloc, node, volume, BOOK_OCTETS)
    }

    /// As `new`; a volume also ends when the contents of its events have `most_octets` octets.
    pub fn within(
        alloc: Global,
        node: Node,
        volume: usize,
        most_octets: u32,
    ) -> Result<Booked, BookFault>
        ensures begins { IfOk result (λ b. b ≡ begun_within node volume most_octets) }
        ensures limits { IsErrOf result BookFault.Limits ↔ ((0 < volume) × (volume ≤ 1048576) × (0 < most_octets) → ⊥) }
    {
        if volume == 0 || volume > MOST_VOLUME || most_octets == 0 {
            drop(node);
            return Err(BookFault::Limits);
        }
        let Ok(kept) = Vec::with_capacity(alloc, volume) else {
            drop(node);
            return Err(BookFault::NoMemory);
        };
        Ok(Booked {
            first: Image::of(&node),
            opening: Image::of(&node),
            present: node,
            kept,
            octets: 0,
            base: 0,
            volume,
            most_octets,
        })
    }

    /// The node.
    pub fn node(&self) -> &Node
        ensures { result.now ≡ self.now.present }
    {
        &self.present
    }

    /// The key of a pending fetch, shared, or `None` if no fetch of this number is pending. Errors: a reference count at its
    /// maximum.
    pub fn key_of(&self, fetch: u32) -> Result<Option<CacheKey>, NoMemory>
        ensures { IfOk result (λ key. key ≡ option_map (λ (f : PendingFetch). f.key) (fetch_of fetch self.now.present.plain.fetches.list)) }
    {
        match self.present.key_of(fetch) {
            None => Ok(None),
            Some(key) => Ok(Some(key.share()?)),
        }
    }

    /// The entries of the present volume, in order.
    pub fn entries(&self) -> &[Entry]
        ensures { map entry_of result.now ≡ self.now.entries }
    {
        self.kept.as_slice()
    }

    /// Number of events taken, in all volumes.
    pub fn count(&self) -> u64
        ensures { result ≡ count_of self.now }
    {
        self.base + self.kept.len() as u64
    }

    /// Number of events taken before the present volume.
    pub fn base(&self) -> u64
        ensures { result ≡ self.now.base }
    {
        self.base
    }

    /// Whether the present volume is at one of its capacities.
    pub fn is_full(&self) -> bool
        ensures full { result ≡ is_full self.now }
        ensures room { OnFalse result (length self.now.entries < self.now.volume) }
    {
        self.kept.len() == self.volume || u64::from(self.most_octets) <= self.octets
    }

    /// The invariant: the book is legal. Changes nothing.
    pub fn is_legal(&self)
        ensures { IsLegal self.now }
    {
        let _base = &self.base;
    }

    /// Has the node take one event, writes its actions to `out`, which must be empty, and appends the event with their tally to
    /// the book. On error book and node are unchanged and `out` is empty.
    pub fn take(
        &mut self,
        alloc: Global,
        event: Arc<Event>,
        out: &mut Out,
    ) -> Result<Receipt, TakeFault>
        requires { out.old ≡ [] }
        ensures taken { OnOk result (HasTaken self.old.present self.new.present (happening (arc_value event) ∷ []) (out.new ∷ [])) }
        ensures book { OnOk result (self.new ≡ written self.old (happening (arc_value event)) (tally_of out.new) self.new.present) }
        ensures receipt { IfOk result (λ r. (r.number ≡ count_of self.old) × (arc_value r.event ≡ arc_value event) × (r.tally ≡ tally_of out.new)) }
        ensures count { OnOk result (count_of self.new ≡ count_of self.old + 1) }
        ensures ended { IsErrOf result TakeFault.Ended ↔ (count_of self.old ≡ 18446744073709551615) }
        ensures full { IsErrOf result TakeFault.VolumeFull ↔ ((count_of self.old ≢ 18446744073709551615) × (is_full self.old ≡ true)) }
        ensures refused { OnErr result ((self.new ≡ self.old) × (out.new ≡ [])) }
    {
        let number = self.count();
        if number == u64::MAX {
            return Err(TakeFault::Ended);
        }
        if self.is_full() {
            return Err(TakeFault::VolumeFull);
        }
        let Ok(tally) = self.enter(alloc, &event, out) else {
            return Err(TakeFault::NoMemory);
        };
        Ok(Receipt {
            number,
            event,
            tally,
        })
    }

    /// As `take`, for the arrival at `now` of a datagram that was judged before. The verdict it carries is used if both of its
    /// programs equal those in force (two absent programs are equal); otherwise the datagram is judged again.
    pub fn take_judged(
        &mut self,
        alloc: Global,
        judged: &Judged,
        now: Moment,
        out: &mut Out,
    ) -> Result<Receipt, TakeFault>
        requires { out.old ≡ [] }
        ensures taken { OnOk result (HasTaken self.old.present self.new.present (arrives judged.now.datagram now ∷ []) (out.new ∷ [])) }
        ensures book { OnOk result (self.new ≡ written self.old (arrives judged.now.datagram now) (tally_of out.new) self.new.present) }
        ensures receipt { IfOk result (λ r. (r.number ≡ count_of self.old) × (happening (arc_value r.event) ≡ arrives judged.now.datagram now) × (r.tally ≡ tally_of out.new)) }
        ensures count { OnOk result (count_of self.new ≡ count_of self.old + 1) }
        ensures ended { IsErrOf result TakeFault.Ended ↔ (count_of self.old ≡ 18446744073709551615) }
        ensures full { IsErrOf result TakeFault.VolumeFull ↔ ((count_of self.old ≢ 18446744073709551615) × (is_full self.old ≡ true)) }
        ensures refused { OnErr result ((self.new ≡ self.old) × (out.new ≡ [])) }
    {
        let number = self.count();
        if number == u64::MAX {
            return Err(TakeFault::Ended);
        }
        if self.is_full() {
            return Err(TakeFault::VolumeFull);
        }
        let Ok(event) = arrival(alloc, judged, now) else {
            return Err(TakeFault::NoMemory);
        };
        let Ok(tally) = self.enter_judged(alloc, &event, judged, now, out) else {
            return Err(TakeFault::NoMemory);
        };
        Ok(Receipt {
            number,
            event,
            tally,
        })
    }

    /// Takes an event, given that the volume has room.
    fn enter(&mut self, alloc: Global, event: &Arc<Event>, out: &mut Out) -> Result<Tally, NoMemory>
        requires out { out.old ≡ [] }
        requires room { (is_full self.old ≡ false) × (count_of self.old < 18446744073709551615) }
        ensures taken { OnOk result (HasTaken self.old.present self.new.present (happening (arc_value event.now) ∷ []) (out.new ∷ [])) }
        ensures book { OnOk result (self.new ≡ written self.old (happening (arc_value event.now)) (tally_of out.new) self.new.present) }
        ensures tally { IfOk result (λ tally. tally ≡ tally_of out.new) }
        ensures refused { OnErr result ((self.new ≡ self.old) × (out.new ≡ [])) }
    {
        append_law();
        let shared = Arc::try_clone(event)?;
        self.present.step(alloc, &**event, out)?;
        let tally = out.tally();
        let entry = Entry {
            event: shared,
            tally,
        };
        append(&mut self.kept, &mut self.octets, entry);
        Ok(tally)
    }

    /// Takes a judged datagram whose arrival `event` is, given that the volume has room.
    fn enter_judged(
        &mut self,
        alloc: Global,
        event: &Arc<Event>,
        judged: &Judged,
        now: Moment,
        out: &mut Out,
    ) -> Result<Tally, NoMemory>
        requires out { out.old ≡ [] }
        requires room { (is_full self.old ≡ false) × (count_of self.old < 18446744073709551615) }
        requires event { happening (arc_value event.now) ≡ arrives judged.now.datagram now }
        ensures taken { OnOk result (HasTaken self.old.present self.new.present (happening (arc_value event.now) ∷ []) (out.new ∷ [])) }
        ensures book { OnOk result (self.new ≡ written self.old (happening (arc_value event.now)) (tally_of out.new) self.new.present) }
        ensures tally { IfOk result (λ tally. tally ≡ tally_of out.new) }
        ensures refused { OnErr result ((self.new ≡ self.old) × (out.new ≡ [])) }
    {
        append_law();
        let shared = Arc::try_clone(event)?;
        self.present.step_judged(alloc, judged, now, out)?;
        let tally = out.tally();
        let entry = Entry {
            event: shared,
            tally,
        };
        append(&mut self.kept, &mut self.octets, entry);
        Ok(tally)
    }

    /// Whether the book has the receipt's event and tally at the receipt's number. False for numbers before the present volume.
    pub fn has(&self, receipt: &Receipt) -> bool
        ensures { IsTrue result ↔ Stands self.now (claim_of receipt.now) }
    {
        if receipt.number < self.base {
            return false;
        }
        let place = receipt.number - self.base;
        if place >= self.kept.len() as u64 {
            return false;
        }
        is_same(&self.kept[place as usize], receipt)
    }

    /// Starts a new volume at the present state and returns the old one. The node is not copied. If the new volume can't be
    /// allocated, the old entries are dropped here and their buffer is reused.
    pub fn turn(&mut self, alloc: Global) -> Volume
        ensures { self.new ≡ turned self.old }
    {
        self.opening = Image::of(&self.present);
        self.base += self.kept.len() as u64;
        self.octets = 0;
        match Vec::with_capacity(alloc, self.volume) {
            Ok(fresh) => Volume {
                _kept: mem::replace(&mut self.kept, fresh),
            },
            Err(_) => {
                self.kept.clear();
                Volume {
                    _kept: Vec::new(alloc),
                }
            }
        }
    }
}

/// Appends an entry to those of a volume, which have room for it, and adds the octets of its contents to theirs.
fn append(kept: &mut Vec<Entry>, octets: &mut u64, entry: Entry)
    requires room { length kept.old.items < vec_capacity kept.old }
    requires few { octets.old < 4294967296 }
    ensures items { kept.new.items ≡ kept.old.items ++ entry ∷ [] }
    ensures capacity { vec_capacity kept.new ≡ vec_capacity kept.old }
    ensures octets { octets.new ≡ octets.old + contents_of (happening (arc_value entry.event)) }
{
    *octets += contents_of(&*entry.event);
    kept.push_reserved(entry);
}

/// Whether a receipt and an entry have equal events and tallies.
fn is_same(entry: &Entry, receipt: &Receipt) -> bool
    ensures { IsTrue result ↔ (entry_of entry.now ≡ said_of receipt.now) }
{
    same_event(&*entry.event, &*receipt.event) && same_tally(&entry.tally, &receipt.tally)
}

/// The event of a judged datagram's arrival at `now`. Errors: allocation failure, or the datagram's reference count at its
/// maximum.
fn arrival(alloc: Global, judged: &Judged, now: Moment) -> Result<Arc<Event>, NoMemory>
    ensures { IfOk result (λ event. happening (arc_value event) ≡ arrives judged.now.datagram now) }
{
    let datagram = Arc::try_clone(judged.datagram())?;
    Ok(Arc::new(alloc, Event::Datagram { datagram, now })?)
}
