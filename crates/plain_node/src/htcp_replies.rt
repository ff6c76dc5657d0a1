//! HTCP responses.
ghost use Rattle.std.specs.Prelude.{◌≡◌, ◌<◌, [], length, true, Some, IfSome};
ghost use Rattle.std.specs.Option.{option_map};
ghost use Rattle.node_terms.specs.declared.ends.Socket.TheVariants.{Htcp};
ghost use Rattle.htcp_packet.specs.View.{shown, received};
ghost use Rattle.pending_fetch.specs.Fetches.{PendingFetch, fetch_of};
ghost use Rattle.pending_fetch.specs.FetchIndex.{fetch_index};
ghost use Rattle.plain_node.specs.declared.messages.Awaited.{Awaited as AwaitedFetch};
ghost use Rattle.plain_node.specs.PlainNode.{at_clock};
ghost use Rattle.plain_node.specs.Messages.{awaiting};
ghost use Rattle.plain_node.specs.HtcpReplies.{response_step, tested_step, is_trusted, key_name_at, response_kind, answer_kind};
ghost use Rattle.plain_node.specs.Signatures.{standing};

use crate::action::Out;
use crate::core_node::Core;
use crate::messages::{Awaited, is_awaited};
use filter_slots::{End, Moment, Socket};
use htcp_packet::HtcpView;
use htcp_packet::codes::{FOUND, NOT_FOUND, TST};
use peer_select::Kind;
use pending_fetch::Located;

impl Core {
    /// Handles a response. If it is from a neighbour and trusted, it counts for the polling round that asked for it.
    #[tactic(auto, unfolding(crate::specs::HtcpReplies::response_step))]
    pub(crate) fn take_response(
        &mut self,
        from: End,
        to: End,
        view: &HtcpView<'_>,
        now: Moment,
        out: &mut Out,
    )
        requires { out.old ≡ [] }
        ensures plain { self.new ≡ (response_step (at_clock self.old now) from to (received view.now)).0 }
        ensures actions { out.new ≡ (response_step (at_clock self.old now) from to (received view.now)).1 }
    {
        self.tick(now);
        let Some(n) = self.table.find(Socket::Htcp, from) else {
            return;
        };
        if !self.is_trusted(n, from, to, view) {
            return;
        }
        self.forgive(n);
        self.take_tested(n, view, out);
    }

    /// Whether a response from the neighbour with index `n` is trusted: a neighbour with a key must have signed with it, one
    /// without a key is always trusted.
    fn is_trusted(&self, n: usize, from: End, to: End, view: &HtcpView<'_>) -> bool
        requires { n < length self.now.rows.neighbours }
        ensures { result ≡ is_trusted (standing self.now from to (received view.now)) (key_name_at self.now.rows.neighbours n) }
    {
        let Some(neighbour) = self.table.get(n) else {
            return true;
        };
        let Some(name) = &neighbour.key else {
            return true;
        };
        let judgement = self.judgement(view, from, to, self.clock);
        judgement.is_good_by(name.as_slice())
    }

    /// Counts the response to a TST for the fetch with its transaction number.
    fn take_tested(&mut self, n: usize, view: &HtcpView<'_>, out: &mut Out)
        requires place { n < length self.old.rows.neighbours }
        requires empty { out.old ≡ [] }
        ensures plain { self.new ≡ (tested_step self.old view.now.trans n (response_kind (shown view.now))).0 }
        ensures actions { out.new ≡ (tested_step self.old view.now.trans n (response_kind (shown view.now))).1 }
    {
        let Some(kind) = kind_of(view) else {
            return;
        };
        self.hear_number(n, view.trans, kind, out);
    }

    /// Counts a reply from the neighbour with index `n` for the fetch with this number; HTCP responses name no URL to compare.
    #[tactic(auto, unfolding(crate::specs::Messages::counted_step))]
    fn hear_number(&mut self, n: usize, number: u32, kind: Kind, out: &mut Out)
        requires place { n < length self.old.rows.neighbours }
        requires empty { out.old ≡ [] }
        ensures plain { self.new ≡ (tested_step self.old number n (Some kind)).0 }
        ensures actions { out.new ≡ (tested_step self.old number n (Some kind)).1 }
    {
        let Some(awaited) = self.awaited_by(number, n) else {
            return;
        };
        self.count(number, n, kind, awaited, out);
    }

    /// The fetch with this number, if it awaits a reply from the neighbour with index `n`.
    fn awaited_by(&self, number: u32, n: usize) -> Option<Awaited>
        ensures start { option_map (λ (it : AwaitedFetch). it.start) result ≡ option_map (λ (fetch : PendingFetch). fetch.round.start) (awaiting n (λ fetch. true) (fetch_of number self.now.fetches.list)) }
        ensures place { IfSome result (λ it. fetch_index number self.now.fetches.list ≡ Some it.place) }
    {
        let Some(Located { place, fetch }) = self.located(number) else {
            return None;
        };
        if !is_awaited(&fetch, n) {
            return None;
        }
        Some(Awaited {
            place,
            start: fetch.round.began(),
        })
    }
}

/// What a response counts as, or `None` if it isn't a response to a TST.
fn kind_of(view: &HtcpView<'_>) -> Option<Kind>
    ensures { result ≡ response_kind (shown view.now) }
{
    if view.opcode != TST {
        return None;
    }
    Some(answer_kind(view.response, view.f1))
}

/// What the response to a TST counts as, by its code and MO flag.
fn answer_kind(code: u8, mo: bool) -> Kind
    ensures { result ≡ answer_kind code mo }
{
    match (mo, code) {
        (false, FOUND) => Kind::Hit,
        (false, NOT_FOUND) => Kind::Miss,
        _ => Kind::Refused,
    }
}
