//! Laws of the definitions in specs/, as empty functions that other crates can call.
ghost use Rattle.std.specs.Prelude.{◌≡◌, ℕ, true, List, ◌∷◌, [], ◌++◌, length, map, unwrap_or};
ghost use Rattle.filter_slots.specs.Datagram.{DatagramFields};
ghost use Rattle.filter_slots.specs.declared.slot.Slot.{Slot};
ghost use Rattle.filter_slots.specs.Filters.{Filters, has_slot, slot, AreAccepted};
ghost use Rattle.filter_slots.specs.Verdict.{verdict_in_force};
ghost use Rattle.node_words.specs.declared.action.Action.{Action};
ghost use Rattle.node_words.specs.Happening.{Happening, arrives};
ghost use Rattle.plain_node.specs.PlainNode.{PlainNode};
ghost use Rattle.plain_node.specs.Settings.{Setup};
ghost use Rattle.node_core.specs.Kept.{kept, kept_event, kept_places, filters_after};
ghost use Rattle.node_core.specs.Swaps.{last_swap};
ghost use Rattle.node_words.specs.Installs.{PutsInAccepted};
ghost use Rattle.node_core.specs.Run.{run_node, answers};
ghost use Rattle.node_core.specs.Counters.{counted};
ghost use Rattle.node_core.specs.State.{State, HasTaken, opening, sender_of, slot_senders, state_after, actions_at};

/// Runs compose. No event changes nothing; a run followed by one event, or by a run over a list of events, is a run over the
/// concatenated events, and its actions are concatenated too. Every event has exactly one list of actions.
pub fn append_law()
    ensures none { (state : State) → HasTaken state state [] [] }
    ensures one { (old mid new : State) (events : List Happening) (event : Happening) (outs : List (List Action)) (actions : List Action) →
        HasTaken old mid events outs → HasTaken mid new (event ∷ []) (actions ∷ []) → HasTaken old new (events ++ event ∷ []) (outs ++ actions ∷ []) }
    ensures list { (old mid new : State) (events more : List Happening) (outs lists : List (List Action)) →
        HasTaken old mid events outs → HasTaken mid new more lists → HasTaken old new (events ++ more) (outs ++ lists) }
    ensures answers { (node : PlainNode) (filters : Filters) (before after : List Happening) →
        answers node filters (before ++ after)
        ≡ answers node filters before ++ answers (run_node node (kept filters before)) (filters_after filters before) after }
    ensures count { (node : PlainNode) (filters : Filters) (events : List Happening) → length (answers node filters events) ≡ length events }
{}

/// One event leads to exactly one state and one list of actions; a run over a list is its first event, then a run over the rest
/// from that state.
pub fn step_law()
    ensures taken { (old : State) (event : Happening) → HasTaken old (state_after old event) (event ∷ []) (actions_at old event ∷ []) }
    ensures state { (old new : State) (event : Happening) (actions : List Action) →
        HasTaken old new (event ∷ []) (actions ∷ []) → new ≡ state_after old event }
    ensures actions { (old new : State) (event : Happening) (actions : List Action) →
        HasTaken old new (event ∷ []) (actions ∷ []) → actions ≡ actions_at old event }
    ensures plain { (old : State) (event : Happening) (events : List Happening) →
        let mid = state_after old event in
        run_node old.plain (kept old.filters (event ∷ events)) ≡ run_node mid.plain (kept mid.filters events) }
    ensures filters { (old : State) (event : Happening) (events : List Happening) →
        filters_after old.filters (event ∷ events) ≡ filters_after (state_after old event).filters events }
    ensures stats { (old : State) (event : Happening) (events : List Happening) →
        let mid = state_after old event in
        counted old.stats old.filters (event ∷ events) ≡ counted mid.stats mid.filters events }
    ensures sent { (old : State) (event : Happening) (events : List Happening) →
        let mid = state_after old event in
        answers old.plain old.filters (event ∷ events) ≡ actions_at old event ∷ answers mid.plain mid.filters events }
{}

/// A datagram with verdict 0 can be removed from any list of events: the events kept are the same, the filters are the same, its
/// own list of actions is empty, and all other events have the actions they have without it. Only counters differ.
pub fn rejected_law()
    ensures kept { (filters : Filters) (before after : List Happening) (datagram : DatagramFields) (now : ℕ) →
        verdict_in_force (filters_after filters before) datagram ≡ 0 →
        kept filters (before ++ arrives datagram now ∷ after) ≡ kept filters (before ++ after) }
    ensures filters { (filters : Filters) (before after : List Happening) (datagram : DatagramFields) (now : ℕ) →
        filters_after filters (before ++ arrives datagram now ∷ after) ≡ filters_after filters (before ++ after) }
    ensures answers { (node : PlainNode) (filters : Filters) (before after : List Happening) (datagram : DatagramFields) (now : ℕ) →
        verdict_in_force (filters_after filters before) datagram ≡ 0 →
        answers node filters (before ++ arrives datagram now ∷ after)
        ≡ answers node filters before ++ [] ∷ answers (run_node node (kept filters before)) (filters_after filters before) after }
{}

/// What is kept of an event in a list depends only on the event and the filters in force after the events before it.
pub fn kept_law()
    ensures { (filters : Filters) (before after : List Happening) (event : Happening) →
        kept_places filters (before ++ event ∷ after)
        ≡ kept_places filters before ++ kept_event (filters_after filters before) event ∷ kept_places (filters_after filters (before ++ event ∷ [])) after }
{}

/// The program in force in a slot is the one that its last swap installed, or the initial one if it was never swapped. No event
/// adds or removes a slot.
pub fn filters_law()
    ensures programs { (place : Slot) (filters : Filters) (events : List Happening) → has_slot filters place ≡ true →
        slot (filters_after filters events) place ≡ unwrap_or (last_swap place events) (slot filters place) }
    ensures slots { (place : Slot) (filters : Filters) (events : List Happening) →
        has_slot (filters_after filters events) place ≡ has_slot filters place }
{}

/// The slots of a node's neighbours are those of the configured neighbours, whatever events it has taken: one for each, in
/// configuration order, for the datagrams that arrive at its protocol's socket from its address and port.
pub fn slots_law()
    ensures unmoved { (filters : Filters) (events : List Happening) → slot_senders (filters_after filters events) ≡ slot_senders filters }
    ensures configured { (setup : Setup) (state : State) (events : List Happening) (outs : List (List Action)) →
        HasTaken (opening setup) state events outs → slot_senders state.filters ≡ map sender_of setup.neighbours }
{}

/// If the checker accepts every installed program, it accepts every program in force, so the verdicts in force are the results of
/// running those programs. The condition holds of concatenated lists if it holds of both.
pub fn accepted_law()
    ensures after { (filters : Filters) (events : List Happening) →
        AreAccepted filters → PutsInAccepted events → AreAccepted (filters_after filters events) }
    ensures joined { (before after : List Happening) → PutsInAccepted before → PutsInAccepted after → PutsInAccepted (before ++ after) }
{}
