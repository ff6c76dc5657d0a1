//! Laws of the order of peers and of duplicates. The functions do nothing; their contracts are the laws.

ghost use Rattle.std.specs.Prelude.{◌≡◌, ℕ, ◌<◌, ◌≢◌, ◌↔◌, ◌⊎◌, IsTrue, List, map, true, false};
ghost use Rattle.std.specs.List.{IsDistinct};
ghost use Rattle.std.specs.Str.{bytes_eq};
ghost use Rattle.neighbours.specs.Rows.{Rows, same_end};
ghost use Rattle.neighbours.specs.Faults.{IsTable, has_double, has_double_name};
ghost use Rattle.neighbours.specs.declared.key.Key.{Key};
ghost use Rattle.neighbours.specs.declared.neighbour.Neighbour.{Neighbour};
ghost use Rattle.neighbours.specs.Rank.{before, Before, IsBefore, IsOrder};
ghost use Rattle.neighbours.specs.declared.rank.Ranked.{Ranked};

/// The boolean `before` decides the relation `Before`.
pub fn test_law()
    ensures { (a : Ranked) (u : ℕ) (b : Ranked) (v : ℕ) → IsTrue (before a u b v) ↔ Before a u b v }
{}

/// Irreflexivity: no peer precedes itself.
pub fn irreflexive_law()
    ensures { (a : Ranked) (u : ℕ) → ¬ Before a u a u }
{}

/// Transitivity, for weights above 0.
pub fn transitive_law()
    ensures { (a b c : Ranked) (u v w : ℕ) → 0 < u → 0 < v → 0 < w → Before a u b v → Before b v c w → Before a u c w }
{}

/// Totality: of two different peers one precedes the other.
pub fn total_law()
    ensures { (a b : Ranked) (u v : ℕ) → a.n ≢ b.n → Before a u b v ⊎ Before b v a u }
{}

/// Asymmetry: if a precedes b, b does not precede a.
pub fn one_way_law()
    ensures { (a b : Ranked) (u v : ℕ) → before a u b v ≡ true → before b v a u ≡ false }
{}

/// If a precedes b and c does not, a precedes c, for weights above 0.
pub fn through_law()
    ensures { (a b c : Ranked) (u v w : ℕ) → 0 < u → 0 < v → 0 < w → before a u b v ≡ true → before c w b v ≡ false → before a u c w ≡ true }
{}

/// With the weights of a table, the order is a strict total order on different peers.
pub fn order_law()
    ensures { (rows : Rows) → IsTable rows → IsOrder (IsBefore rows) }
{
    irreflexive_law();
    transitive_law();
    total_law();
}

/// The tests for duplicates report none exactly if the ends of the neighbours, or the names of the keys, are distinct.
pub fn distinct_law()
    ensures ends { (neighbours : List Neighbour) →
        (has_double neighbours ≡ false) ↔ IsDistinct same_end (map (λ (neighbour : Neighbour). neighbour.end) neighbours) }
    ensures names { (keys : List Key) →
        (has_double_name keys ≡ false) ↔ IsDistinct bytes_eq (map (λ (key : Key). key.name) keys) }
{}
