//! Consequences of the contract of a settled desk.
ghost use Rattle.std.specs.Prelude.{◌≡◌, ◌<◌, ℕ, List, Some, slice_get, sum_by};
ghost use Rattle.node_book.specs.Book.{Book, IsLegal, count_of};
ghost use Rattle.node_book.specs.Seats.{Held};
ghost use Rattle.node_book.specs.Good.{AreAllGood, AreAllKept, AreAllOfRun, AreRising, numbered};

/// If a desk is settled whose book was never turned and whose seats kept every receipt, the book is what was submitted, each
/// event once: every number below the count is that of exactly one receipt, and the numbers of a seat rise in the order of its
/// receipts. When one thread replays the book, it meets the event of each receipt at the receipt's number, and the tally of that
/// event's actions is the receipt's tally.
pub fn settled_law()
    ensures once { (b : Book) (seats : List Held) → b.base ≡ 0 → sum_by (λ seat. seat.share) seats ≡ count_of b → AreAllKept seats → AreAllGood b seats →
        (n : ℕ) → n < count_of b → numbered n seats ≡ 1 }
    ensures order { (b : Book) (seats : List Held) → b.base ≡ 0 → AreAllGood b seats →
        (i : ℕ) (seat : Held) → slice_get seats i ≡ Some seat → AreRising seat.receipts }
    ensures run { (b : Book) (seats : List Held) → IsLegal b → b.base ≡ 0 → AreAllGood b seats → AreAllOfRun b seats }
{}
