//! Laws of the definitions that the contracts of the store use. The functions do nothing; their contracts are the laws.

ghost use Rattle.std.specs.Prelude.{ℕ, List};
ghost use Rattle.object_store.specs.Pairs.{Pair, IsLongestFront, cut};

/// `cut` returns the longest prefix of the pairs within both limits. Insertion keeps this prefix of the new pair and the others.
pub fn cut_is_the_longest_front()
    ensures { (entries octets : ℕ) (pairs : List Pair) → IsLongestFront entries octets pairs (cut entries octets pairs) }
{}
