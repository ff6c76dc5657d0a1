//! What the definitions promise besides.
ghost use Rattle.std.specs.Prelude.{◌≡◌, ◌+◌, ◌≤◌, List, ℕ, length};
ghost use Rattle.traffic_figures.specs.Buckets.{capped_sum, cumulated};

/// For the counts of 15 buckets: what is shown for the last bucket, which has no bound, is the count of all times; and what is
/// shown for a bucket is at most what is shown for the next one.
pub fn buckets_add_up()
    ensures all { (counts : List ℕ) → length counts ≡ 15 → cumulated counts 14 ≡ capped_sum counts }
    ensures rising { (counts : List ℕ) (bucket : ℕ) → cumulated counts bucket ≤ cumulated counts (bucket + 1) }
{}
