//! Index of the configured neighbours by receiving socket and source address and port.

ghost use Rattle.std.specs.Prelude.{◌≡◌, ◌↔◌, ℕ, ◌<◌, [], ◌∷◌, ◌++◌, length, replicate, slice_get, IfSome, IsNone, IsTrue, IsFalse, Some, None};
ghost use Rattle.filter_slots.specs.Filters.{AreNeighbours};
ghost use Rattle.filter_slots.specs.Senders.{bucket_of, pair_of};

use arrayvec::ArrayVec;
use bpf_run::{End, Socket};
use std::default::Default;
use std::marker::Model;

/// Maximum number of neighbours.
pub(crate) const MOST_NEIGHBOURS: usize = 64;

/// Number of hash buckets.
const BUCKETS: usize = 256;

/// Socket and end of a neighbour, and the index of the previous neighbour in the same bucket.
#[derive(Clone, Copy)]
pub(crate) struct Sender {
    pub(crate) socket: Socket,
    pub(crate) end: End,
    pub(crate) before: Option<u8>,
}

impl Sender {
    /// Whether it has this socket and end.
    #[inline(always)]
    fn is(&self, socket: Socket, end: End) -> bool
        ensures { IsTrue result ↔ (pair_of self.now ≡ (socket, end)) }
    {
        self.socket == socket && self.end == end
    }
}

impl Default for Sender {
    fn default() -> Sender {
        Sender {
            socket: Socket::Icp,
            end: End {
                addr: [0, 0, 0, 0],
                port: 0,
            },
            before: None,
        }
    }
}

/// Hash table of at most 64 distinct pairs of socket and end. `last` holds the index of the newest entry of each bucket,
/// and each entry the index of the previous one. Contracts see the list of pairs in order of insertion.
#[derive(Drop)]
pub(crate) struct Senders {
    all: ArrayVec<Sender, 64>,
    last: [Option<u8>; 256],
}

impl Model for Senders {
    ghost use Rattle.std.specs.Prelude.{List, map};
    ghost use Rattle.node_terms.specs.declared.ends.End.{End};
    ghost use Rattle.node_terms.specs.declared.ends.Socket.{Socket};
    ghost use Rattle.filter_slots.specs.Senders.{pair_of, AreChained};

    ghost Value = { List (Socket × End) };

    ghost view = { λ s. map pair_of s.all.items };

    ghost invariant = { λ s. AreChained s.all.items s.last };
}

impl Senders {
    /// An empty table.
    pub(crate) fn new() -> Senders
        ensures { result ≡ [] }
    {
        Senders {
            all: ArrayVec::new(),
            last: no_places(),
        }
    }

    /// Adds a pair, unless the table is full or has an equal one. Returns whether it was added.
    pub(crate) fn add(&mut self, socket: Socket, end: End) -> bool
        ensures added { IsTrue result → self.new ≡ self.old ++ (socket, end) ∷ [] }
        ensures refused { IsFalse result → AreNeighbours (self.old ++ (socket, end) ∷ []) → ⊥ }
    {
        let n = self.all.len();
        if n >= MOST_NEIGHBOURS || self.find(socket, end).is_some() {
            return false;
        }
        self.push(socket, end);
        true
    }

    /// Adds a pair that the table does not have.
    fn push(&mut self, socket: Socket, end: End)
        requires room { length self.old < 64 }
        requires absent { (n : ℕ) → slice_get self.old n ≡ Some (socket, end) → ⊥ }
        ensures { self.new ≡ self.old ++ (socket, end) ∷ [] }
    {
        let n = self.all.len();
        let bucket = bucket(end);
        let before = self.last[bucket];
        self.all.push(Sender {
            socket,
            end,
            before,
        });
        self.last[bucket] = Some(n as u8);
    }

    /// Publishes the invariant. Does nothing at run time.
    pub(crate) fn facts(&self)
        ensures { AreNeighbours self.now }
    {
        let _ = &self.last;
    }

    /// Index of a pair, or `None`. Most unknown ends fall into an empty bucket, so that their lookup ends there.
    #[inline(always)]
    pub(crate) fn find(&self, socket: Socket, end: End) -> Option<usize>
        ensures there { IfSome result (λ n. slice_get self.now n ≡ Some (socket, end)) }
        ensures absent { IsNone result → (n : ℕ) → slice_get self.now n ≡ Some (socket, end) → ⊥ }
    {
        if self.has_none(end) {
            return None;
        }
        self.follow(socket, end)
    }

    /// Whether the bucket of an end is empty.
    #[inline(always)]
    fn has_none(&self, end: End) -> bool
        ensures { IsTrue result → (socket : Socket) (n : ℕ) → slice_get self.now n ≡ Some (socket, end) → ⊥ }
    {
        let link = self.last[bucket(end)];
        match link {
            None => true,
            Some(_) => false,
        }
    }

    /// Looks up a pair in its bucket.
    #[inline(never)]
    fn follow(&self, socket: Socket, end: End) -> Option<usize>
        ensures there { IfSome result (λ n. slice_get self.now n ≡ Some (socket, end)) }
        ensures absent { IsNone result → (n : ℕ) → slice_get self.now n ≡ Some (socket, end) → ⊥ }
    {
        let mut link = self.last[bucket(end)];
        while let Some(place) = link {
            let sender = &self.all.as_slice()[place as usize];
            if sender.is(socket, end) {
                return Some(place as usize);
            }
            link = sender.before;
        }
        None
    }

    /// A copy.
    pub(crate) fn copy(&self) -> Senders
        ensures { result ≡ self.now }
    {
        let mut all = ArrayVec::new();
        for sender in self.all.as_slice() {
            all.push(*sender);
        }
        Senders {
            all,
            last: self.last,
        }
    }
}

// Empty buckets.
fn no_places() -> [Option<u8>; 256]
    ensures { result ≡ replicate 256 None }
{
    [None; BUCKETS]
}

// The bucket of an end, under 256. With equal ports, the addresses of one /24 network get different buckets.
#[inline(always)]
fn bucket(end: End) -> usize
    ensures bucket { result ≡ bucket_of end }
    ensures within { result < 256 }
{
    let sum = 5 * end.addr[2] as usize + end.addr[3] as usize;
    (sum + end.port as usize) % BUCKETS
}
