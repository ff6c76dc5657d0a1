//! The sources of a fetch once its round is decided.
ghost use Rattle.std.specs.Prelude.{◌≡◌, ◌≤◌, ◌+◌, ◌++◌, length, true, Some, None, option_map, IfSome};
ghost use Rattle.peer_select.specs.declared.reply.Source.{Source};
ghost use Rattle.peer_select.specs.Poll.{decided, matches};
ghost use Rattle.pending_fetch.specs.Fetches.{PendingFetch, fetch_of, waiters_of};
ghost use Rattle.pending_fetch.specs.Calls.{told, shown};
ghost use Rattle.pending_fetch.specs.FetchIndex.{fetch_index};
ghost use Rattle.node_words.specs.declared.action.Action.TheVariants.{Fetch};
ghost use Rattle.node_words.specs.declared.action.Answer.TheVariants.{Fail};
ghost use Rattle.plain_node.specs.PlainNode.{closed, serves};
ghost use Rattle.plain_node.specs.Sources.{decision_step, attempt_step, source_of, is_sibling, is_sibling_at, is_sibling_source};
ghost use Rattle.plain_node.specs.Bounds.{most_actions};

use crate::action::Out;
use crate::core_node::Core;
use crate::serving::serve_fail;
use neighbours::Role;
use node_words::Action;
use peer_select::Source;
use pending_fetch::Fetch as Pended;

impl Core {
    /// If the round of this fetch is decided, starts its first attempt; without any source answers its waiters with 503.
    #[tactic(auto, unfolding(crate::specs::Sources::decision_step))]
    pub(crate) fn decide(&mut self, number: u32, out: &mut Out)
        requires room { length out.old + 1 + length (waiters_of number self.old.fetches.list) ≤ most_actions }
        ensures node { (f : PendingFetch) → fetch_of number self.old.fetches.list ≡ Some f → self.new ≡ (decision_step self.old f).0 }
        ensures actions { (f : PendingFetch) → fetch_of number self.old.fetches.list ≡ Some f → out.new ≡ out.old ++ (decision_step self.old f).1 }
    {
        if self.is_decided(number) {
            self.try_source(number, 503, out);
        }
    }

    /// As `decide`, for a fetch whose index is known to be `place`, if the caller knows whether its round is decided.
    #[tactic(auto, unfolding(crate::specs::Sources::decision_step))]
    pub(crate) fn decide_at(&mut self, number: u32, place: usize, is_decided: bool, out: &mut Out)
        requires room { length out.old + 1 + length (waiters_of number self.old.fetches.list) ≤ most_actions }
        requires here { fetch_index number self.old.fetches.list ≡ Some place }
        requires decided { (f : PendingFetch) → fetch_of number self.old.fetches.list ≡ Some f → is_decided ≡ decided f.round }
        ensures node { (f : PendingFetch) → fetch_of number self.old.fetches.list ≡ Some f → self.new ≡ (decision_step self.old f).0 }
        ensures actions { (f : PendingFetch) → fetch_of number self.old.fetches.list ≡ Some f → out.new ≡ out.old ++ (decision_step self.old f).1 }
    {
        if is_decided {
            let action = self.attempt_at(number, place);
            self.follow(number, action, 503, out);
        }
    }

    /// Starts the current attempt of a fetch at its source. If it has none, answers each waiter with this status and closes
    /// the fetch.
    #[tactic(auto, unfolding(crate::specs::Sources::attempt_step))]
    pub(crate) fn try_source(&mut self, number: u32, status: u16, out: &mut Out)
        requires room { length out.old + 1 + length (waiters_of number self.old.fetches.list) ≤ most_actions }
        ensures node { (f : PendingFetch) → fetch_of number self.old.fetches.list ≡ Some f → self.new ≡ (attempt_step self.old status f (source_of self.old f)).0 }
        ensures actions { (f : PendingFetch) → fetch_of number self.old.fetches.list ≡ Some f → out.new ≡ out.old ++ (attempt_step self.old status f (source_of self.old f)).1 }
    {
        let action = self.attempt(number);
        self.follow(number, action, status, out);
    }

    /// As `try_source`, given the action of the current attempt, or `None` if it has no source.
    #[tactic(auto, unfolding(crate::specs::Sources::attempt_step))]
    fn follow(&mut self, number: u32, action: Option<Action>, status: u16, out: &mut Out)
        requires room { length out.old + 1 + length (waiters_of number self.old.fetches.list) ≤ most_actions }
        requires attempt { (f : PendingFetch) → fetch_of number self.old.fetches.list ≡ Some f →
            action ≡ option_map (λ (source : Source). Fetch number f.attempt source (is_sibling_source self.old.rows.neighbours source) f.owner) (source_of self.old f) }
        ensures node { (f : PendingFetch) → fetch_of number self.old.fetches.list ≡ Some f → self.new ≡ (attempt_step self.old status f (source_of self.old f)).0 }
        ensures actions { (f : PendingFetch) → fetch_of number self.old.fetches.list ≡ Some f → out.new ≡ out.old ++ (attempt_step self.old status f (source_of self.old f)).1 }
    {
        match action {
            Some(action) => out.push(action),
            None => self.give_up(number, status, out),
        }
    }

    /// Answers each waiter with this status, and closes the fetch.
    fn give_up(&mut self, number: u32, status: u16, out: &mut Out)
        requires { length out.old + length (waiters_of number self.old.fetches.list) ≤ most_actions }
        ensures node { self.new ≡ closed self.old number }
        ensures actions { out.new ≡ out.old ++ serves (Fail status) (waiters_of number self.old.fetches.list) }
    {
        self.tell(number, status, out);
        self.close(number);
    }

    /// Answers each waiter with this status.
    fn tell(&self, number: u32, status: u16, out: &mut Out)
        requires { length out.old + length (waiters_of number self.now.fetches.list) ≤ most_actions }
        ensures { out.new ≡ out.old ++ serves (Fail status) (waiters_of number self.now.fetches.list) }
    {
        serve_fail(self.pending.waiters(number), status, out);
    }

    /// Whether the round of the fetch with this number is decided.
    pub(crate) fn is_decided(&self, number: u32) -> bool
        ensures { (f : PendingFetch) → fetch_of number self.now.fetches.list ≡ Some f → result ≡ decided f.round }
    {
        match self.held(number) {
            Some(fetch) => fetch.round.decided(),
            None => false,
        }
    }

    /// The action of the current attempt of a fetch, or `None` if it has no source.
    fn attempt(&self, number: u32) -> Option<Action>
        ensures { (f : PendingFetch) → fetch_of number self.now.fetches.list ≡ Some f →
            result ≡ option_map (λ (source : Source). Fetch number f.attempt source (is_sibling_source self.now.rows.neighbours source) f.owner) (source_of self.now f) }
    {
        let fetch = self.held(number)?;
        self.attempt_of(number, fetch)
    }

    /// As `attempt`, for a fetch whose index is known to be `place`.
    fn attempt_at(&self, number: u32, place: usize) -> Option<Action>
        requires { fetch_index number self.now.fetches.list ≡ Some place }
        ensures { (f : PendingFetch) → fetch_of number self.now.fetches.list ≡ Some f →
            result ≡ option_map (λ (source : Source). Fetch number f.attempt source (is_sibling_source self.now.rows.neighbours source) f.owner) (source_of self.now f) }
    {
        let fetch = self.held_at(number, place);
        self.attempt_of(number, fetch)
    }

    /// The action of the current attempt of this fetch, or `None` if it has no source.
    fn attempt_of(&self, number: u32, fetch: Pended<'_>) -> Option<Action>
        requires { matches self.now.rows.neighbours fetch.round.now.peers ≡ true }
        ensures { (f : PendingFetch) → shown fetch.entry ≡ told f →
            result ≡ option_map (λ (source : Source). Fetch number f.attempt source (is_sibling_source self.now.rows.neighbours source) f.owner) (source_of self.now f) }
    {
        let source = self.source(fetch)?;
        Some(Action::Fetch {
            fetch: number,
            attempt: fetch.attempt,
            source,
            only_if_cached: self.is_sibling(source),
            owner: fetch.owner,
        })
    }

    /// The source of a fetch's current attempt.
    pub(crate) fn source(&self, fetch: Pended<'_>) -> Option<Source>
        requires { matches self.now.rows.neighbours fetch.round.now.peers ≡ true }
        ensures { (f : PendingFetch) → shown fetch.entry ≡ told f → result ≡ source_of self.now f }
    {
        fetch
            .round
            .source(&self.table, fetch.attempt, self.rules.origin())
    }

    /// Whether a source is a sibling.
    pub(crate) fn is_sibling(&self, source: Source) -> bool
        ensures { result ≡ is_sibling_source self.now.rows.neighbours source }
    {
        match source {
            Source::Peer(n) => self.is_sibling_at(n),
            Source::Origin => false,
        }
    }

    /// Whether the neighbour with index `n` is a sibling.
    fn is_sibling_at(&self, n: usize) -> bool
        ensures { result ≡ is_sibling_at self.now.rows.neighbours n }
    {
        match self.table.get(n) {
            Some(neighbour) => is_sibling(neighbour.kind),
            None => false,
        }
    }

    /// The pending fetch with this number.
    pub(crate) fn held(&self, number: u32) -> Option<Pended<'_>>
        ensures held { (f : PendingFetch) → fetch_of number self.now.fetches.list ≡ Some f → option_map shown result ≡ Some (told f) }
        ensures absent { fetch_of number self.now.fetches.list ≡ None → result ≡ None }
        ensures matching { IfSome result (λ fetch. matches self.now.rows.neighbours fetch.round.now.peers ≡ true) }
    {
        self.pending.fetch(number)
    }

    /// The pending fetch with this number, whose index is `place`.
    fn held_at(&self, number: u32, place: usize) -> Pended<'_>
        requires { fetch_index number self.now.fetches.list ≡ Some place }
        ensures held { Some (shown result) ≡ option_map told (fetch_of number self.now.fetches.list) }
        ensures matching { matches self.now.rows.neighbours result.round.now.peers ≡ true }
    {
        self.pending.fetch_at(number, place)
    }
}

fn is_sibling(role: Role) -> bool
    ensures { result ≡ is_sibling role }
{
    match role {
        Role::Sibling => true,
        Role::Parent => false,
    }
}
