//! Laws of turns. The functions do nothing; their contracts are the laws.
ghost use Rattle.std.specs.Prelude.{◌≡◌, ℕ, ◌+◌, ◌≤◌, ◌<◌, List, None, Some, false, length, slice_get, true};
ghost use Rattle.std.specs.List.{list_any};
ghost use Rattle.fair_use.specs.declared.waiting_line.Standing.{Standing};
ghost use Rattle.fair_use.specs.WaitingLine.{begun, behind, is_ready, next_turn};

/// Whose turn it is has a thread free for what it begins, so never more is under way than there are threads.
pub fn free_law()
    ensures { (free : ℕ) (line : List Standing) (place : ℕ) → next_turn free line ≡ Some place → 1 ≤ free }
{}

/// Somebody is served wherever somebody is ready: where it is nobody's turn, nobody is.
pub fn none_law()
    ensures { (free : ℕ) (line : List Standing) → next_turn free line ≡ None → list_any (is_ready free) line ≡ false }
{}

/// Of all who are ready, the one whose turn it is stands before the others.
pub fn first_law()
    ensures { (free : ℕ) (line : List Standing) (place i : ℕ) (it : Standing) → next_turn free line ≡ Some place → slice_get line i ≡ Some it → is_ready free it ≡ true → place ≤ i }
{}

/// Who is passed by stands one place further in front afterwards, and who had the turn stands behind all: so nobody is served twice while
/// one who stood behind it is ready.
pub fn passing_law()
    ensures passed { (line : List Standing) (who it : Standing) (place i : ℕ) → place ≤ i → slice_get line (i + 1) ≡ Some it → slice_get (behind place who line) i ≡ Some it }
    ensures last { (line : List Standing) (who : Standing) (place i : ℕ) → place < length line → i + 1 ≡ length line → slice_get (behind place who line) i ≡ Some (begun who) }
{}
