//! Laws of rounds. The functions do nothing; their contracts are the laws.

ghost use Rattle.std.specs.Prelude.{◌≡◌, ℕ, ◌↔◌, Bool, Some, None, [], filter, true};
ghost use Rattle.neighbours.specs.Rows.{Rows};
ghost use Rattle.peer_select.specs.declared.reply.Reply.{Reply};
ghost use Rattle.peer_select.specs.Poll.{Poll, IsPoll, begun, decided, has_reply, reply_added, ended, matches};
ghost use Rattle.peer_select.specs.Choice.{parent_of, is_parent_miss, IsFirstParent};

use neighbours::{one_way_law, through_law};

/// The chosen parent is the parent with a Miss that no other such parent precedes. There is one unless no parent replied Miss.
pub fn parent_law()
    ensures some { (poll : Poll) (p : Reply) → IsPoll poll → (parent_of poll.peers poll.replies ≡ Some p) ↔ IsFirstParent poll p }
    ensures none { (poll : Poll) → IsPoll poll → parent_of poll.peers poll.replies ≡ None → filter (is_parent_miss poll.peers) poll.replies ≡ [] }
{
    one_way_law();
    through_law();
}

/// A decided round does not change, a second reply of a peer changes nothing, and an expired round is decided.
pub fn unchanged_law()
    ensures reply { (poll : Poll) (reply : Reply) → decided poll ≡ true → reply_added poll reply ≡ poll }
    ensures second { (poll : Poll) (reply : Reply) → has_reply poll.replies reply.n ≡ true → reply_added poll reply ≡ poll }
    ensures expire { (poll : Poll) → decided poll ≡ true → ended poll ≡ poll }
    ensures expired { (poll : Poll) → decided (ended poll) ≡ true }
{}

/// A new round has the peers of its table. Neither its peers nor its start change.
pub fn matching_law()
    ensures begun { (rows : Rows) (asked : Bool) (start : ℕ) → matches rows.neighbours (begun rows asked start).peers ≡ true }
    ensures replied { (poll : Poll) (reply : Reply) → (reply_added poll reply).peers ≡ poll.peers }
    ensures ended { (poll : Poll) → (ended poll).peers ≡ poll.peers }
    ensures start_replied { (poll : Poll) (reply : Reply) → (reply_added poll reply).start ≡ poll.start }
    ensures start_ended { (poll : Poll) → (ended poll).start ≡ poll.start }
{}
