//! What holds of each run of the machine, whatever happens and in whatever order. The functions do nothing; their contracts are the laws.
//! Most say: where no event of a run is of this kind, this is never done.
ghost use Rattle.std.specs.Prelude.{◌≡◌, ◌≤◌, ◌<◌, ◌+◌, ◌*◌, Bool, List, [], ◌∷◌, ◌++◌, Some, None, count_by, true, false, if◌then◌else◌};
ghost use Rattle.std.specs.List.{AllByRecursion};
ghost use Rattle.fetch_life.specs.declared.facts.Addresses.{Addresses as FoundAddresses};
ghost use Rattle.fetch_life.specs.declared.facts.Failure.{Failure as FailedAttempt};
ghost use Rattle.fetch_life.specs.declared.facts.Order.{Order};
ghost use Rattle.fetch_life.specs.declared.facts.Page.{Page as WholePage};
ghost use Rattle.fetch_life.specs.declared.commands.Brought.TheVariants.{Unwanted};
ghost use Rattle.fetch_life.specs.declared.commands.Count.TheVariants as counts;
ghost use Rattle.fetch_life.specs.declared.commands.Command.TheVariants as does;
ghost use Rattle.fetch_life.specs.declared.events.Event.{Event};
ghost use Rattle.fetch_life.specs.declared.events.Event.TheVariants as events;
ghost use Rattle.fetch_life.specs.declared.events.Head.{Head as AnswerHead};
ghost use Rattle.fetch_life.specs.declared.stages.Exchange.{Exchange as ServerExchange};
ghost use Rattle.fetch_life.specs.declared.stages.Flight.{Flight};
ghost use Rattle.fetch_life.specs.declared.stages.Reach.{Reach as ServerReach};
ghost use Rattle.fetch_life.specs.declared.stages.Stage.{Stage};
ghost use Rattle.fetch_life.specs.declared.stages.Stage.TheVariants as stages;
ghost use Rattle.fetch_life.specs.Rows.{Row};
ghost use Rattle.fetch_life.specs.Runs.{after, fetch_at, orders, times, turn_of, unordered, IsOnlyBy};
ghost use Rattle.fetch_life.specs.Table.{turn};
ghost use Rattle.fetch_life.specs.Laws.{is_in_order, Unmade, Apart, keeps_in_touch, lets_keep_nothing, may_ask, is_send, lets_send_again, sends_others, sends_both, leaves_out_codings, sends_unasked, says_new, finds_other, is_bad_answer, is_too_long, is_server_error, is_on_shelf, is_ask_no_more, is_note_changed, is_question, is_asked, told, made, FitsMade, counts_as, is_success, is_refusal, is_failure, is_want, is_answer, is_fault, is_denial, is_desertion, is_object_one, is_kept_object, is_misnamed, is_from_origin, is_outage, is_unshelve, is_not_telling, is_either, is_beside, is_unreached, is_unconnected, is_cut_short, is_connecting, is_in_flight, is_under_way, is_unordered, has_way, sends_unlike, tries, one, steps, is_landing, is_exchanging, is_renewing, keeps_or_confirms, is_any, is_count, is_hand_in, is_unwanted_one, renews, may_be_left, is_confirmed_one, is_stale_one, comes_from, hands, is_shelve, keeps, is_first, is_other, goes_to, is_offer, sends_clients, sends_conditions, is_not_for_all, is_not_private, is_not_of_origin, is_not_asking, confirms_nothing, is_not_down, is_not_unchanged, bars_first, bars_other, is_over};

/// Each turn of the table is one of its rows.
pub fn each_turn_is_a_row()
    ensures { (f : Flight) (stage : Stage) (event : Event) → Row f stage event (turn f stage event) }
{}

/// A fetch hands in exactly one result once it is over, and none before, and its end is counted at most once. It does at most 21 things, and
/// at most as many more each time that it is begun anew; it is over after at most twelve events that it waits for, and twelve more each time
/// that it is begun anew.
pub fn one_result()
    ensures once { (events : List Event) → times is_hand_in events ≡ one (is_over (after unordered events).stage) }
    ensures counted { (events : List Event) → times is_count events ≤ 1 }
    ensures ends { (events : List Event) → times is_any events ≤ 21 + 21 * count_by renews events }
    ensures over { (events : List Event) → steps unordered events ≤ 12 + 12 * count_by renews events }
{}

/// A fetch stays what was ordered: whom it asks, whether it is for all, whether it asks about what is there, and whether its answer may be
/// given while it is collected, is as its last order says.
pub fn one_fetch()
    ensures source { (f : Flight) (stage : Stage) (o : Order) → is_unordered stage ≡ true → (turn f stage (events.Ordered o)).fetch.flight.source ≡ o.source }
    ensures shared { (f : Flight) (stage : Stage) (o : Order) → is_unordered stage ≡ true → (turn f stage (events.Ordered o)).fetch.flight.is_shared ≡ o.is_shared }
    ensures asking { (f : Flight) (stage : Stage) (o : Order) → is_unordered stage ≡ true → (turn f stage (events.Ordered o)).fetch.flight.is_asking ≡ may_ask o }
    ensures streamed { (f : Flight) (stage : Stage) (o : Order) → is_unordered stage ≡ true → (turn f stage (events.Ordered o)).fetch.flight.is_streamed ≡ o.is_streamed }
    ensures shelf { (f : Flight) (stage : Stage) (o : Order) → is_unordered stage ≡ true → (turn f stage (events.Ordered o)).fetch.flight.has_shelf ≡ o.has_shelf }
    ensures stays { (f : Flight) (stage : Stage) (event : Event) → is_unordered stage ≡ false → (turn f stage event).fetch.flight ≡ f }
{}

/// What is awaited was asked, once, and what is asked is awaited: each question has been answered, or its answer is awaited now.
pub fn questions()
    ensures { (events : List Event) → times is_question events ≡ told unordered events + one (is_asked (after unordered events).stage) }
{}

/// Each attempt that was under way is counted as it ends, as what it has ended with: a complete answer, no admitted address, a failure, or the
/// want of clients.
pub fn ends_are_counted()
    ensures each { (f : Flight) (stage : Stage) (event : Event) → is_in_flight stage ≡ true → count_by is_count (turn f stage event).commands + one (is_under_way (turn f stage event).fetch.stage) ≡ 1 }
    ensures success { IsOnlyBy (counts_as is_success) is_answer }
    ensures refusal { IsOnlyBy (counts_as is_refusal) is_denial }
    ensures failure { IsOnlyBy (counts_as is_failure) is_fault }
    ensures want { IsOnlyBy (counts_as is_want) is_desertion }
{}

/// What is handed in is what was made last, so nothing is made while the lock of changes is held. Where no change has come between, an answer of
/// status 200 that is an object is handed in, and is kept where it is for all and may be; a 304 about what was asked about confirms that; and
/// what is stale is given where the origin is down for all and that is allowed. No neighbour's object is said to come from an origin, and no
/// origin's from a neighbour.
pub fn what_is_handed_in()
    ensures made { (before : List Event) (is_overtaken : Bool) → is_landing (after unordered before).stage ≡ true → AllByRecursion (FitsMade (made None (orders unordered before))) (turn_of (after unordered before) (events.Locked is_overtaken)).commands }
    ensures given { (f : Flight) (e : ServerExchange) (p : WholePage) (later : List Event) → p.status ≡ 200 → p.is_object ≡ true → count_by (hands is_object_one) (orders (fetch_at f (stages.Exchanging e)) (events.Whole p ∷ events.Locked false ∷ later)) ≡ 1 }
    ensures kept { (f : Flight) (e : ServerExchange) (p : WholePage) (later : List Event) → p.status ≡ 200 → p.is_object ≡ true → f.is_shared ≡ true → p.may_keep ≡ true → p.hides_rules ≡ false → count_by (hands is_kept_object) (orders (fetch_at f (stages.Exchanging e)) (events.Whole p ∷ events.Locked false ∷ later)) ≡ 1 }
    ensures confirmed { (f : Flight) (e : ServerExchange) (p : WholePage) (later : List Event) → f.is_asking ≡ true → p.status ≡ 304 → p.is_about ≡ true → p.is_object ≡ true → count_by (hands (comes_from is_confirmed_one)) (orders (fetch_at f (stages.Exchanging e)) (events.Whole p ∷ events.Locked false ∷ later)) ≡ 1 }
    ensures stale { (f : Flight) (x : FailedAttempt) (later : List Event) → is_from_origin f.source ≡ true → f.is_shared ≡ true → is_outage x.fault ≡ true → x.has_stale ≡ true → count_by (hands (comes_from is_stale_one)) (orders (fetch_at f stages.Seeking) (events.Failed x ∷ events.Locked false ∷ later)) ≡ 1 }
    ensures named { (f : Flight) (stage : Stage) (event : Event) → count_by (hands (comes_from (is_misnamed f.source))) (turn f stage event).commands ≡ 0 }
{}

/// A fetch for all that ends for want of clients, or isn't begun for that, is counted as such, once, and hands in that: nothing else is done
/// from then on. So nothing stale is given in its place, what is there is asked about again and stays as it is, and no failure is counted.
/// What is fetched for one client alone never ends so. One that was begun anew, since somebody waited for it again, ends so as well where
/// nobody does any more, and where it can't be begun, who waits for it is told so.
pub fn want_of_clients()
    ensures ended { (before later : List Event) → may_be_left (after unordered before) ≡ true → orders (after unordered before) (events.Unwanted false ∷ later) ≡ does.Count counts.Unwanted ∷ does.HandIn Unwanted ∷ [] }
    ensures unbegun { (o : Order) (later : List Event) → o.is_shared ≡ true → o.is_unwanted ≡ true → orders unordered (events.Ordered o ∷ later) ≡ (if o.was_unwanted then [] else does.Count counts.Unwanted ∷ []) ++ does.HandIn Unwanted ∷ [] }
    ensures shared { (events : List Event) → AllByRecursion (λ event. is_not_for_all event ≡ true) events → times (hands is_unwanted_one) events ≡ 0 }
    ensures renewed { (before later : List Event) (o : Order) → is_renewing (after unordered before).stage ≡ true → o.is_shared ≡ true → o.is_unwanted ≡ true → orders (after unordered before) (events.Ordered o ∷ later) ≡ does.Count counts.Unwanted ∷ does.HandIn Unwanted ∷ [] }
    ensures vain { (before later : List Event) (o : Order) → is_renewing (after unordered before).stage ≡ true → o.is_shared ≡ true → o.is_unwanted ≡ false → o.is_possible ≡ false → orders (after unordered before) (events.Ordered o ∷ later) ≡ does.HandIn Unwanted ∷ [] }
{}

/// What a change has overtaken is never kept, nor what was fetched for one client alone: neither stored nor put on the shelf, where
/// origins are asked about it. That holds whenever a change was found once, whatever is found when the result was made anew. A neighbour's
/// object never reaches the shelf. What is there stays where no answer has come, and none that is too long. And nothing is kept but what may be
/// stored for all (RFC 9111, section 3): where no answer of a run is of status 200, or a 304 about what was asked about, whose rules are seen
/// and allow it, nothing is.
pub fn what_is_kept()
    ensures allowed { (events : List Event) → AllByRecursion (λ event. lets_keep_nothing event ≡ true) events → times keeps events ≡ 0 }
    ensures overtaken { (events : List Event) → AllByRecursion (λ event. is_not_unchanged event ≡ true) events → times keeps events ≡ 0 }
    ensures changed { (before later : List Event) → is_landing (after unordered before).stage ≡ true → count_by keeps (orders (after unordered before) (events.Locked true ∷ later)) ≡ 0 }
    ensures private { (events : List Event) → AllByRecursion (λ event. is_not_for_all event ≡ true) events → times keeps events ≡ 0 }
    ensures shelf { (events : List Event) → AllByRecursion (λ event. is_not_of_origin event ≡ true) events → times is_shelve events ≡ 0 }
    ensures stays { (events : List Event) → AllByRecursion (λ event. is_not_telling event ≡ true) events → times is_unshelve events ≡ 0 }
{}

/// A 304 counts only where the conditions of what is there were sent, and only if it is about that (RFC 9111, section 4.3.4): one about
/// something else is neither kept nor handed in as confirmed. They are sent only where the order lets an origin be asked, and never to a
/// neighbour, whose 304 would confirm what it has made of that. Nothing is given up to be asked about that was not asked about, and only for
/// one client alone is it noted that something has changed.
pub fn confirmation()
    ensures asked { (events : List Event) → AllByRecursion (λ event. is_not_asking event ≡ true) events → times (hands (comes_from is_confirmed_one)) events ≡ 0 }
    ensures about { (events : List Event) → AllByRecursion (λ event. confirms_nothing event ≡ true) events → times (hands (comes_from is_confirmed_one)) events ≡ 0 }
    ensures others { (before later : List Event) (p : WholePage) → is_exchanging (after unordered before).stage ≡ true → p.status ≡ 304 → p.is_about ≡ false → count_by keeps_or_confirms (orders (after unordered before) (events.Whole p ∷ later)) ≡ 0 }
    ensures conditions { (events : List Event) → AllByRecursion (λ event. is_not_asking event ≡ true) events → times sends_conditions events ≡ 0 }
    ensures asked_no_more { (events : List Event) → AllByRecursion (λ event. is_not_asking event ≡ true) events → times is_ask_no_more events ≡ 0 }
    ensures noted { (events : List Event) → AllByRecursion (λ event. is_not_private event ≡ true) events → times is_note_changed events ≡ 0 }
    ensures neighbours { (events : List Event) → AllByRecursion (λ event. is_not_of_origin event ≡ true) events → times sends_conditions events ≡ 0 }
{}

/// Something stale is given in place of a result only where the origin is down and that is allowed (RFC 9111, section 4.2.4; RFC 5861,
/// section 4): never for one client alone, for a neighbour, or after a change, also where the result was made anew since. And it is given there:
/// of a failure wherever that comes, unless a server is tried once more for it, and of an answer that says that the server fails.
pub fn what_is_stale()
    ensures failed { (f : Flight) (stage : Stage) (x : FailedAttempt) (later : List Event) → is_in_flight stage ≡ true → is_from_origin f.source ≡ true → f.is_shared ≡ true → is_outage x.fault ≡ true → x.has_stale ≡ true → count_by tries (turn f stage (events.Failed x)).commands ≡ 0 → count_by (hands (comes_from is_stale_one)) (orders (fetch_at f stage) (events.Failed x ∷ events.Locked false ∷ later)) ≡ 1 }
    ensures answered { (f : Flight) (e : ServerExchange) (p : WholePage) (later : List Event) → is_from_origin f.source ≡ true → f.is_shared ≡ true → is_server_error p.status ≡ true → p.has_stale ≡ true → count_by (hands (comes_from is_stale_one)) (orders (fetch_at f (stages.Exchanging e)) (events.Whole p ∷ events.Locked false ∷ later)) ≡ 1 }
    ensures down { (events : List Event) → AllByRecursion (λ event. is_not_down event ≡ true) events → times (hands (comes_from is_stale_one)) events ≡ 0 }
    ensures shared { (events : List Event) → AllByRecursion (λ event. is_not_for_all event ≡ true) events → times (hands (comes_from is_stale_one)) events ≡ 0 }
    ensures origin { (events : List Event) → AllByRecursion (λ event. is_not_of_origin event ≡ true) events → times (hands (comes_from is_stale_one)) events ≡ 0 }
    ensures unchanged { (events : List Event) → AllByRecursion (λ event. is_not_unchanged event ≡ true) events → times (hands (comes_from is_stale_one)) events ≡ 0 }
    ensures changed { (before later : List Event) → is_landing (after unordered before).stage ≡ true → count_by (hands (comes_from is_stale_one)) (orders (after unordered before) (events.Locked true ∷ later)) ≡ 0 }
{}

/// An origin server's address that is not admitted is never connected to, over a new connection or over one that was kept. One that may be
/// is tried, and where the one was not connected to, the other has its turn, if it has not had it.
pub fn servers()
    ensures first { (events : List Event) → AllByRecursion (λ event. bars_first event ≡ true) events → times (goes_to is_first) events ≡ 0 }
    ensures other { (events : List Event) → AllByRecursion (λ event. bars_other event ≡ true) events → times (goes_to is_other) events ≡ 0 }
    ensures tried { (f : Flight) (a : FoundAddresses) → has_way f a ≡ true → count_by (goes_to is_either) (turn f stages.Seeking (events.Addressed a)).commands ≡ 1 }
    ensures turns { (f : Flight) (x : FailedAttempt) (r : ServerReach) → is_unreached x.fault ≡ true → r.has_other ≡ true → count_by (goes_to (is_beside r.at)) (turn f (stages.Connecting r) (events.Failed x)).commands ≡ 1 }
    ensures unconnected { (f : Flight) (stage : Stage) (event : Event) → is_connecting stage ≡ true → 0 < count_by (goes_to is_either) (turn f stage event).commands → is_unconnected event ≡ true }
{}

/// The request of a fetch for all has no field of any client but the marks of loops, which it always has (RFC 8586). A sibling, and nobody else,
/// is asked for what it has stored alone. A request is sent once more only where its connection ended before an octet of an answer came. The
/// answer to a private one is offered to nobody else. A private fetch has its client's own fields, and one for all those of all such fetches. The
/// conditions of what is there are sent where it is to be asked about, and nowhere else; a client's Accept-Encoding never beside them (RFC 9110,
/// section 8.8.3.3), and always where its fetch has none.
pub fn requests()
    ensures own { (f : Flight) (stage : Stage) (event : Event) → count_by (sends_others f) (turn f stage event).commands ≡ 0 }
    ensures either { (f : Flight) (stage : Stage) (event : Event) → count_by sends_both (turn f stage event).commands ≡ 0 }
    ensures codings { (f : Flight) (stage : Stage) (event : Event) → count_by (leaves_out_codings f) (turn f stage event).commands ≡ 0 }
    ensures asked { (f : Flight) (stage : Stage) (event : Event) → count_by (sends_unasked f) (turn f stage event).commands ≡ 0 }
    ensures fields { (events : List Event) → AllByRecursion (λ event. is_not_private event ≡ true) events → times sends_clients events ≡ 0 }
    ensures like { (f : Flight) (stage : Stage) (event : Event) → count_by (sends_unlike f) (turn f stage event).commands ≡ 0 }
    ensures again { (f : Flight) (stage : Stage) (event : Event) → is_exchanging stage ≡ true → 0 < count_by tries (turn f stage event).commands → is_cut_short event ≡ true }
    ensures offered { (events : List Event) → AllByRecursion (λ event. is_not_for_all event ≡ true) events → times is_offer events ≡ 0 }
{}

/// Things are done in this order: how an attempt has ended is counted before its result is made, and it is made before the lock of changes is
/// taken, right behind which nothing else stands. What is on the shelf is changed, what is asked about no more or was found to have changed is
/// noted, and an object is handed in, under that lock alone; and handing in is the last that is done.
pub fn in_order()
    ensures { (events : List Event) → is_in_order Unmade (orders unordered events) ≡ true }
{}

/// A request is sent once a server is connected to, or a connection to it was taken that was kept, and once over each connection; none is connected
/// to while there is one that has not failed; and an answer is offered only to a request that was sent.
pub fn in_touch()
    ensures { (events : List Event) → keeps_in_touch Apart unordered events ≡ true }
{}

/// A request is sent once more only where its connection ended before an octet of an answer came, or where its fetch is begun anew, and at most
/// twice more, since it is not sent for ever (RFC 9112, section 9.3.1). Where it went over a connection that was kept, it goes over a new one to the
/// same address, and where that was new, to the other one, if that has not had its turn.
pub fn sent_again()
    ensures caused { (events : List Event) → times is_send events ≤ 1 + count_by lets_send_again events }
    ensures most { (events : List Event) → times is_send events ≤ 3 + 3 * count_by renews events }
    ensures kept { (f : Flight) (x : FailedAttempt) (e : ServerExchange) → e.is_reused ≡ true → is_cut_short (events.Failed x) ≡ true → (turn f (stages.Exchanging e) (events.Failed x)).commands ≡ does.Connect e.reach.at ∷ [] }
    ensures fresh { (f : Flight) (x : FailedAttempt) (e : ServerExchange) → e.is_reused ≡ false → e.reach.has_other ≡ true → is_cut_short (events.Failed x) ≡ true → count_by (goes_to (is_beside e.reach.at)) (turn f (stages.Exchanging e) (events.Failed x)).commands ≡ 1 }
{}

/// A long answer of status 200 is offered to who began its fetch for all, once for each time that the request was sent.
pub fn what_is_offered()
    ensures offered { (f : Flight) (h : AnswerHead) (e : ServerExchange) → f.is_shared ≡ true → f.is_streamed ≡ true → e.is_offered ≡ false → h.status ≡ 200 → h.is_long ≡ true → (turn f (stages.Exchanging e) (events.Began h)).commands ≡ does.Offer ∷ [] }
    ensures once { (events : List Event) → times is_offer events ≤ times is_send events }
{}

/// What is on the shelf never outlives what tells of something else. An answer for all that says so (2xx, 3xx, 404, 410) takes its place or
/// takes it away, and so does a 304 that confirms it; a 304 about something else, and an answer of the origin's that is too long, take it away:
/// exactly once, whatever changes come between, by the time that the fetch is over. What is kept of the origin's is put there.
pub fn what_is_on_the_shelf()
    ensures replaced { (f : Flight) (e : ServerExchange) (p : WholePage) (later : List Event) → f.is_shared ≡ true → p.is_object ≡ true → says_new p.status ≡ true → is_over (after (fetch_at f (stages.Exchanging e)) (events.Whole p ∷ later)).stage ≡ true → count_by is_on_shelf (orders (fetch_at f (stages.Exchanging e)) (events.Whole p ∷ later)) ≡ 1 }
    ensures confirmed { (f : Flight) (e : ServerExchange) (p : WholePage) (later : List Event) → f.is_shared ≡ true → f.is_asking ≡ true → p.status ≡ 304 → p.is_about ≡ true → p.is_object ≡ true → is_over (after (fetch_at f (stages.Exchanging e)) (events.Whole p ∷ later)).stage ≡ true → count_by is_on_shelf (orders (fetch_at f (stages.Exchanging e)) (events.Whole p ∷ later)) ≡ 1 }
    ensures other { (f : Flight) (e : ServerExchange) (p : WholePage) (later : List Event) → f.is_asking ≡ true → p.status ≡ 304 → p.is_about ≡ false → is_over (after (fetch_at f (stages.Exchanging e)) (events.Whole p ∷ later)).stage ≡ true → count_by is_unshelve (orders (fetch_at f (stages.Exchanging e)) (events.Whole p ∷ later)) ≡ 1 }
    ensures long { (f : Flight) (e : ServerExchange) (x : FailedAttempt) (later : List Event) → is_from_origin f.source ≡ true → f.is_shared ≡ true → is_too_long x.fault ≡ true → is_over (after (fetch_at f (stages.Exchanging e)) (events.Failed x ∷ later)).stage ≡ true → count_by is_unshelve (orders (fetch_at f (stages.Exchanging e)) (events.Failed x ∷ later)) ≡ 1 }
    ensures put { (f : Flight) (e : ServerExchange) (p : WholePage) (later : List Event) → is_from_origin f.source ≡ true → f.is_shared ≡ true → p.status ≡ 200 → p.is_object ≡ true → p.may_keep ≡ true → p.hides_rules ≡ false → count_by is_shelve (orders (fetch_at f (stages.Exchanging e)) (events.Whole p ∷ events.Locked false ∷ later)) ≡ 1 }
    ensures put_back { (f : Flight) (e : ServerExchange) (p : WholePage) (later : List Event) → is_from_origin f.source ≡ true → f.is_shared ≡ true → f.is_asking ≡ true → p.status ≡ 304 → p.is_about ≡ true → p.is_object ≡ true → p.may_keep ≡ true → p.hides_rules ≡ false → count_by is_shelve (orders (fetch_at f (stages.Exchanging e)) (events.Whole p ∷ events.Locked false ∷ later)) ≡ 1 }
{}

/// What was asked about is given up to be asked about once its origin answers with 412, or has not answered it as HTTP and is not tried once more;
/// and a client's own reload that has found something else is noted: exactly once, whatever changes come between, by the time that it is over.
pub fn what_is_noted()
    ensures unmet { (f : Flight) (e : ServerExchange) (p : WholePage) (later : List Event) → f.is_asking ≡ true → p.status ≡ 412 → is_over (after (fetch_at f (stages.Exchanging e)) (events.Whole p ∷ later)).stage ≡ true → count_by is_ask_no_more (orders (fetch_at f (stages.Exchanging e)) (events.Whole p ∷ later)) ≡ 1 }
    ensures unanswered { (f : Flight) (e : ServerExchange) (x : FailedAttempt) (later : List Event) → f.is_asking ≡ true → is_bad_answer x.fault ≡ true → count_by tries (turn f (stages.Exchanging e) (events.Failed x)).commands ≡ 0 → is_over (after (fetch_at f (stages.Exchanging e)) (events.Failed x ∷ later)).stage ≡ true → count_by is_ask_no_more (orders (fetch_at f (stages.Exchanging e)) (events.Failed x ∷ later)) ≡ 1 }
    ensures changed { (f : Flight) (e : ServerExchange) (p : WholePage) (later : List Event) → f.is_asking ≡ true → f.is_shared ≡ false → finds_other p ≡ true → is_over (after (fetch_at f (stages.Exchanging e)) (events.Whole p ∷ later)).stage ≡ true → count_by is_note_changed (orders (fetch_at f (stages.Exchanging e)) (events.Whole p ∷ later)) ≡ 1 }
{}

/// What answers nobody's request is handed in to nobody, whatever comes after it: a 412 and a 304 about something else to conditions of this cache,
/// a 304 that it did not ask for, where such are kept to be asked about, and a neighbour's 508, which would have asked this cache again.
pub fn what_is_nothing()
    ensures unmet { (f : Flight) (e : ServerExchange) (p : WholePage) (later : List Event) → f.is_asking ≡ true → p.status ≡ 412 → count_by (hands is_object_one) (orders (fetch_at f (stages.Exchanging e)) (events.Whole p ∷ later)) ≡ 0 }
    ensures other { (f : Flight) (e : ServerExchange) (p : WholePage) (later : List Event) → f.is_asking ≡ true → p.status ≡ 304 → p.is_about ≡ false → count_by (hands is_object_one) (orders (fetch_at f (stages.Exchanging e)) (events.Whole p ∷ later)) ≡ 0 }
    ensures unasked { (f : Flight) (e : ServerExchange) (p : WholePage) (later : List Event) → f.is_asking ≡ false → f.is_shared ≡ true → f.has_shelf ≡ true → p.status ≡ 304 → count_by (hands is_object_one) (orders (fetch_at f (stages.Exchanging e)) (events.Whole p ∷ later)) ≡ 0 }
    ensures returned { (f : Flight) (e : ServerExchange) (p : WholePage) (later : List Event) → is_from_origin f.source ≡ false → p.status ≡ 508 → count_by (hands is_object_one) (orders (fetch_at f (stages.Exchanging e)) (events.Whole p ∷ later)) ≡ 0 }
{}
