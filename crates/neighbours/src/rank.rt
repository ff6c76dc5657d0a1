//! Order of peers by response time.

ghost use Rattle.std.specs.Prelude.{◌≡◌};
ghost use Rattle.neighbours.specs.Rank.{before};

/// Index of a neighbour in the configuration, and its smoothed response time in eighths of a millisecond.
#[derive(Clone, Copy)]
pub struct Ranked {
    pub n: usize,
    pub s: u32,
}

/// Whether `a` precedes `b`: by smoothed time divided by weight; ties by index.
pub fn is_before(a: Ranked, a_weight: u32, b: Ranked, b_weight: u32) -> bool
    ensures { result ≡ before a a_weight b b_weight }
{
    let left = a.s as u64 * b_weight as u64;
    let right = b.s as u64 * a_weight as u64;
    left < right || (left == right && a.n < b.n)
}
