//! Sets of peers.

ghost use Rattle.std.specs.Prelude.{◌≡◌, ℕ, ◌<◌, ◌↔◌, ◌||◌, ◌&&◌, ◌==◌, IsTrue, nat_eq, true, false};
ghost use Rattle.std.specs.Int.{bit_at};
ghost use Rattle.peer_select.specs.Kept.{has};

/// A bit set of peer indices below 64.
#[derive(Clone, Copy)]
pub(crate) struct PeerSet {
    bits: u64,
}

impl PeerSet {
    pub(crate) fn empty() -> PeerSet
        ensures { (n : ℕ) → has result n ≡ false }
    {
        PeerSet { bits: 0 }
    }

    pub(crate) fn has(self, n: usize) -> bool
        requires { n < 64 }
        ensures { result ≡ has self n }
    {
        self.bits >> n & 1 == 1
    }

    /// Adds an index.
    pub(crate) fn with(self, n: usize) -> PeerSet
        requires { n < 64 }
        ensures { (k : ℕ) → has result k ≡ (nat_eq n k || has self k) }
    {
        PeerSet {
            bits: self.bits | 1 << n,
        }
    }

    /// Adds an index if the condition holds.
    pub(crate) fn with_if(self, n: usize, holds: bool) -> PeerSet
        requires { n < 64 }
        ensures { (k : ℕ) → has result k ≡ (has self k || (nat_eq n k && holds)) }
    {
        if holds { self.with(n) } else { self }
    }

    /// Whether it is a subset of `others`.
    pub(crate) fn is_within(self, others: PeerSet) -> bool
        ensures { IsTrue result ↔ ((n : ℕ) → n < 64 → has self n ≡ true → has others n ≡ true) }
    {
        are_within(self.bits, others.bits)
    }
}

fn are_within(bits: u64, others: u64) -> bool
    ensures { IsTrue result ↔ ((n : ℕ) → n < 64 → (bit_at bits n == 1) ≡ true → (bit_at others n == 1) ≡ true) }
{
    bits & !others == 0
}
