//! Lemmas on the list of pending fetches, for proofs in other crates. The functions have contracts only and do nothing at run
//! time.

ghost use Rattle.std.specs.Prelude.{◌≡◌, ℕ, ◌≤◌, ◌+◌, ◌==◌, ◌||◌, ◌&&◌, not, Bool, true, List, [], ◌∷◌, ◌++◌, length, Some, None};
ghost use Rattle.std.specs.List.{list_any};
ghost use Rattle.neighbours.specs.declared.neighbour.Neighbour.{Neighbour};
ghost use Rattle.peer_select.specs.declared.reply.Reply.{Reply};
ghost use Rattle.peer_select.specs.Poll.{matches};
ghost use Rattle.pending_fetch.specs.Numbers.{IsNext, next_of};
ghost use Rattle.pending_fetch.specs.Fetches.{PendingFetch, fetch_of, has_number, waiters_of, all_waiters, waits, first_due, all_due, without, left, changed, with_waiter, with_reply, with_end, with_next};
ghost use Rattle.pending_fetch.specs.Calls.{fits, all_fit};
ghost use Rattle.pending_fetch.specs.Legal.{IsLegal};
ghost use Rattle.pending_fetch.specs.Places.{IsFirstDue};
ghost use Rattle.pending_fetch.specs.Bounds.{most_fetches};

use peer_select::unchanged_law;

/// The next number is the first after the last one given that no fetch has.
pub fn next_law()
    ensures { (taken : List ℕ) (last : ℕ) → length taken ≤ most_fetches → IsNext taken last (next_of taken last) }
{}

/// Closing or expiring the first due fetch leaves exactly the other due fetches; if there is no first, none is due.
pub fn due_law()
    ensures some { (list : List PendingFetch) (now number : ℕ) → IsLegal list → first_due now list ≡ Some number → IsFirstDue now number list }
    ensures none { (list : List PendingFetch) (now : ℕ) → first_due now list ≡ None → all_due now list ≡ [] }
{
    unchanged_law();
}

/// The waiters after each operation: opening, joining, leaving and closing change them, and replies, expiry and attempts do not.
pub fn waits_law()
    ensures opened { (list : List PendingFetch) (f : PendingFetch) (client other : ℕ) → f.waiters ≡ client ∷ [] → waits other (list ++ f ∷ []) ≡ (waits other list || (client == other)) }
    ensures joined { (list : List PendingFetch) (number client other : ℕ) → has_number number list ≡ true →
        waits other (changed (with_waiter client) number list) ≡ (waits other list || (client == other)) }
    ensures left { (list : List PendingFetch) (client other : ℕ) → waits other (left client list) ≡ (waits other list && not (other == client)) }
    ensures closed { (list : List PendingFetch) (number other : ℕ) (f : PendingFetch) → IsLegal list → fetch_of number list ≡ Some f →
        waits other (without number list) ≡ (waits other list && not (list_any (λ waiter. waiter == other) f.waiters)) }
    ensures kept { (list : List PendingFetch) (number : ℕ) (reply : Reply) →
        (all_waiters (changed (with_reply reply) number list) ≡ all_waiters list) × (all_waiters (changed with_end number list) ≡ all_waiters list)
        × (all_waiters (changed with_next number list) ≡ all_waiters list) }
    ensures count { (list : List PendingFetch) (number : ℕ) → IsLegal list → length (waiters_of number list) + length (all_waiters (without number list)) ≡ length (all_waiters list) }
{}

/// If every round matches a table of neighbours, so does each single one, and every operation preserves this.
pub fn fitting_law()
    ensures each { (neighbours : List Neighbour) (list : List PendingFetch) (number : ℕ) →
        all_fit neighbours list ≡ true → fits neighbours (fetch_of number list) ≡ true }
    ensures opened { (neighbours : List Neighbour) (list : List PendingFetch) (f : PendingFetch) →
        all_fit neighbours list ≡ true → matches neighbours f.round.peers ≡ true →
        all_fit neighbours (list ++ f ∷ []) ≡ true }
    ensures left { (neighbours : List Neighbour) (list : List PendingFetch) (client : ℕ) →
        all_fit neighbours list ≡ true →
        all_fit neighbours (left client list) ≡ true }
    ensures closed { (neighbours : List Neighbour) (list : List PendingFetch) (number : ℕ) →
        all_fit neighbours list ≡ true →
        all_fit neighbours (without number list) ≡ true }
    ensures changed { (neighbours : List Neighbour) (list : List PendingFetch) (number : ℕ) (change : PendingFetch → PendingFetch) →
        ((f : PendingFetch) → (change f).round.peers ≡ f.round.peers) → all_fit neighbours list ≡ true →
        all_fit neighbours (changed change number list) ≡ true }
{}
