//! What holds of each run of the machine, whatever happens and in whatever order. The functions do nothing; their contracts are the laws.
ghost use Rattle.std.specs.Prelude.{◌≡◌, [], ℕ, ◌+◌, ◌≤◌, ◌<◌, ◌&&◌, ◌||◌, not, List, ◌∷◌, count_by, nat_lt, ◌==◌, if◌then◌else◌, Some, None, true, false};
ghost use Rattle.std.specs.List.{AllByRecursion};
ghost use Rattle.node_terms.specs.declared.mode.Mode.{Mode};
ghost use Rattle.node_terms.specs.declared.mode.Mode.TheVariants.{Private};
ghost use Rattle.request_life.specs.declared.facts.Choice.TheVariants.{Ask};
ghost use Rattle.request_life.specs.declared.facts.Lookup.{Lookup as FoundLookup};
ghost use Rattle.request_life.specs.declared.facts.Passage.{Passage as FoundPassage};
ghost use Rattle.request_life.specs.declared.facts.RequestHead.{RequestHead};
ghost use Rattle.request_life.specs.declared.facts.TunnelTarget.{TunnelTarget as FoundTarget};
ghost use Rattle.request_life.specs.declared.commands.Answer.TheVariants as answers;
ghost use Rattle.request_life.specs.declared.commands.Command.TheVariants as does;
ghost use Rattle.request_life.specs.declared.events.Event.{Event};
ghost use Rattle.request_life.specs.declared.events.Event.TheVariants as events;
ghost use Rattle.request_life.specs.declared.events.Fetched.{Fetched as FetchedObject};
ghost use Rattle.request_life.specs.declared.events.Acceptance.{Acceptance as TakenRequest};
ghost use Rattle.request_life.specs.declared.events.Failure.{Failure as NodeFailure};
ghost use Rattle.request_life.specs.declared.events.Hit.{Hit as StoredHit};
ghost use Rattle.request_life.specs.declared.events.Outcome.TheVariants as outcomes;
ghost use Rattle.request_life.specs.declared.events.PassedEnd.TheVariants as passages;
ghost use Rattle.request_life.specs.declared.events.PassedHead.{PassedHead as AnswerHead};
ghost use Rattle.request_life.specs.declared.events.TunnelEnd.TheVariants as tunnels;
ghost use Rattle.request_life.specs.declared.stages.Round.{Round as Turn};
ghost use Rattle.request_life.specs.declared.stages.Share.TheVariants as shares;
ghost use Rattle.request_life.specs.declared.stages.Submission.{Submission as SubmittedRequest};
ghost use Rattle.request_life.specs.declared.stages.Wait.{Wait as Waiter};
ghost use Rattle.request_life.specs.declared.stages.Content.{Content};
ghost use Rattle.request_life.specs.declared.stages.Content.TheVariants as contents;
ghost use Rattle.request_life.specs.declared.stages.Stage.{Stage};
ghost use Rattle.request_life.specs.declared.stages.Stage.TheVariants as stages;
ghost use Rattle.request_life.specs.Table.{turn};
ghost use Rattle.request_life.specs.Rows.{Row};
ghost use Rattle.request_life.specs.Runs.{unborn, life_at, turn_of, after, orders, times, moves_where, IsOnlyBy};
ghost use Rattle.request_life.specs.Laws.{Absent, is_in_turn, behind, breaks_nothing, comes_for_nobody, goes_past, is_due_as, is_for_nobody, is_for_server, is_kept_apart, is_look_up, is_route, is_sendable, is_uncollected, is_unread, is_uploading, may_tunnel, turns_down, is_late, is_unserved, may_have_stale, is_passed_one, is_own, is_own_success, gives_one, wants_shared, wants_stored, is_submit_so, is_fetch_for_all, is_stream, is_cancel, is_begin, takes_by_answer, lets_join, lets_use_stored, is_for_part, may_stream, tells_so, came_back, is_forbidden, is_long_one, is_large, has_answered, says_done, may_have, shape_due, may_be_asked, may_be_answered, may_be_passed, may_be_tunnelled, is_receiving, is_submitted, is_asked, asked_in, told_in, is_open, opened_in, ended_in, one, is_submit_alone, has_unsendable, ends_connection_by, is_for_store_alone, is_to_send, answers_so, is_give, is_hit, is_fetched, is_stale, is_tunnel, is_early_one, is_submit, is_fetch, is_withdraw, is_pass_on, is_open_tunnel, is_sent, is_take_out, is_record, is_more_than_record, goes_further, is_again, ends_passage, says_nothing, says_nothing_unsent, says_nothing_in_time, has_broken, is_over, is_recorded, is_waiting, is_left, is_met_hit, has_stale, is_opened, aims_well, routes_well, bars, is_for_store, must_close, goes_on, said, sent_unsafe, pending_unsafe, unchanged_unsafe, taken_in, settled_in, awaited_in};

/// Each turn of the table is one of its rows.
pub fn each_turn_is_a_row()
    ensures { (head : RequestHead) (stage : Stage) (event : Event) → Row head stage event (turn head stage event) }
{}

/// A request stays what was received.
pub fn one_request()
    ensures received { (old head : RequestHead) → (turn old stages.Receiving (events.Received head)).life.head ≡ head }
    ensures stays { (head : RequestHead) (stage : Stage) (event : Event) → is_receiving stage ≡ false → (turn head stage event).life.head ≡ head }
{}

/// What is awaited was asked, once, and what is asked is awaited: each question has been answered, or its client has left, or its answer is
/// awaited now.
pub fn questions()
    ensures { (events : List Event) → moves_where asked_in unborn events ≡ moves_where told_in unborn events + one (is_asked (after unborn events).stage) }
{}

/// What may be done is done: a request that the node may answer is looked up, one that it may be asked is submitted, one that may be passed on
/// is, and a tunnel that may be opened is. Who has joined a fetch whose answer is for another is fetched for alone.
pub fn what_may_be_is_done()
    ensures begun { (old head : RequestHead) → may_be_answered head head.method ≡ true → head.is_too_long ≡ false → count_by is_begin (turn old stages.Receiving (events.Received head)).commands ≡ 1 }
    ensures asked { (head : RequestHead) (lookup : FoundLookup) (round : Turn) (mode : Mode) → lookup.choice ≡ Ask mode → may_be_asked head lookup ≡ true → count_by is_submit (turn head (stages.LookingUp round) (events.Found lookup)).commands ≡ 1 }
    ensures passed { (head : RequestHead) (p : FoundPassage) → may_be_passed p ≡ true → (turn head stages.Routing (events.Routed p)).commands ≡ does.PassOn ∷ [] }
    ensures opened { (head : RequestHead) (t : FoundTarget) → may_be_tunnelled t ≡ true → (turn head stages.Aiming (events.Aimed t)).commands ≡ does.OpenTunnel ∷ [] }
    ensures apart { (head : RequestHead) (w : Waiter) (f : FetchedObject) → may_have w.share f ≡ false → w.is_second ≡ false → wants_stored w.mode ≡ false → head.has_many_options ≡ false → count_by is_submit_alone (turn head (stages.Waiting w) (events.Answered (outcomes.Fetched f))).commands ≡ 1 }
{}

/// What has come is given: what is stored where the request accepts it, what was fetched where it isn't for another alone, what is being
/// collected to who began that, what is stale where that may be, a failure as it is, the answer of the server that it was passed on to, and a tunnel that is open.
pub fn what_has_come_is_given()
    ensures hit { (head : RequestHead) (w : Waiter) (hit : StoredHit) → hit.is_accepted ≡ true → (turn head (stages.Waiting w) (events.Answered (outcomes.Hit hit))).commands ≡ gives_one head (answers.Hit hit.shape) }
    ensures fetched { (head : RequestHead) (w : Waiter) (f : FetchedObject) → may_have w.share f ≡ true → (turn head (stages.Waiting w) (events.Answered (outcomes.Fetched f))).commands ≡ gives_one head (answers.Fetched (shape_due w.share f.shape)) }
    ensures early { (head : RequestHead) (w : Waiter) → w.share ≡ shares.Began → (turn head (stages.Waiting w) (events.Answered outcomes.Early)).commands ≡ does.Withdraw ∷ gives_one head answers.Early }
    ensures stale { (head : RequestHead) (a : TakenRequest) (s : SubmittedRequest) → may_have_stale head s.mode ≡ true → a.has_stale ≡ true → (turn head (stages.Submitting s) (events.Accepted a)).commands ≡ does.Withdraw ∷ gives_one head answers.Stale }
    ensures declined { (head : RequestHead) (s : SubmittedRequest) → may_have_stale head s.mode ≡ true → (turn head (stages.Submitting s) (events.Declined true)).commands ≡ gives_one head answers.Stale }
    ensures failed { (head : RequestHead) (w : Waiter) (f : NodeFailure) → f.is_long ≡ false → (turn head (stages.Waiting w) (events.Answered (outcomes.Failed f))).commands ≡ gives_one head (answers.Own f.status) }
    ensures passed { (head : RequestHead) (content : Content) (p : AnswerHead) → p.has_many_options ≡ false → count_by (answers_so is_passed_one) (turn head (stages.Passing content) (events.Passed (passages.Head p))).commands ≡ 1 }
    ensures tunnel { (head : RequestHead) → (turn head stages.Opening (events.Tunnelled tunnels.Opened)).commands ≡ gives_one head answers.Tunnel }
{}

/// A request joins a fetch only where it was found to, and nothing has changed what is being fetched; it is answered from the store alone only
/// where it wants that; the whole is fetched for all only for the third that wants a part; and an answer is given while it is collected only to
/// who began to fetch it.
pub fn what_is_asked_for()
    ensures shared { IsOnlyBy (is_submit_so wants_shared) lets_join }
    ensures stored { IsOnlyBy (is_submit_so wants_stored) lets_use_stored }
    ensures whole { IsOnlyBy is_fetch_for_all is_for_part }
    ensures streamed { (head : RequestHead) (stage : Stage) (event : Event) → 0 < count_by is_stream (turn head stage event).commands → may_stream head event ≡ true }
{}

/// A status of the proxy's own says what has happened: 508 that the request has come back, 403 that its server or port is not allowed, 414 that
/// its target is too long, 413 that its content is, 504 that no answer has come in time or none may be fetched, 501 that what it asks for is not
/// done here; or it was told to the proxy. None is a success, unless it was told.
pub fn statuses()
    ensures back { IsOnlyBy (answers_so (is_own 508)) (λ event. tells_so (λ status. status == 508) event || came_back event) }
    ensures forbidden { IsOnlyBy (answers_so (is_own 403)) (λ event. tells_so (λ status. status == 403) event || is_forbidden event) }
    ensures long { IsOnlyBy (answers_so (is_own 414)) (λ event. tells_so (λ status. status == 414) event || is_long_one event) }
    ensures large { IsOnlyBy (answers_so (is_own 413)) (λ event. tells_so (λ status. status == 413) event || is_large event) }
    ensures late { IsOnlyBy (answers_so (is_own 504)) (λ event. tells_so (λ status. status == 504) event || is_late event) }
    ensures unserved { IsOnlyBy (answers_so (is_own 501)) (λ event. tells_so (λ status. status == 501) event || is_unserved event) }
    ensures errors { IsOnlyBy (answers_so is_own_success) (tells_so (λ status. nat_lt status 400)) }
{}

/// What was passed on, and a tunnel that is opened, ends by itself while its client is there, or is ended, or goes on now: none is left open.
pub fn nothing_stays_open()
    ensures { (events : List Event) → moves_where opened_in unborn events ≡ times is_cancel events + moves_where ended_in unborn events + one (is_open (after unborn events).stage) }
{}

/// A request has at most one answer, and exactly one once it is over and its client has stayed. Once it has one, nothing more is done for it
/// but its line in the log, unless its client has broken its content: then what was passed on is ended, and what that has changed taken out.
pub fn one_answer()
    ensures at_most { (events : List Event) → times is_give events ≤ 1 }
    ensures exactly { (events : List Event) → is_over (after unborn events).stage ≡ true → count_by is_left events ≡ 0 → times is_give events ≡ 1 }
    ensures last { (events later : List Event) → 0 < times is_give events → count_by goes_further (orders (after unborn events) later) ≡ 0 }
    ensures quiet { (events later : List Event) → 0 < times is_give events → has_broken (after unborn events).stage ≡ false → count_by is_more_than_record (orders (after unborn events) later) ≡ 0 }
{}

/// A request has exactly one line in the log once it is over, and none before.
pub fn one_line()
    ensures { (events : List Event) → times is_record events ≡ one (is_recorded (after unborn events).stage) }
{}

/// A life has at most fifteen steps: nothing that it waits for is ignored, and it does not go on for ever.
pub fn each_life_ends()
    ensures { (events : List Event) → moves_where awaited_in unborn events ≤ 15 }
{}

/// An answer that may not be stored and was fetched for another request is never given (RFC 9111, section 3): whatever happened, where the node
/// has said that the request joined another's fetch, the one that comes of it is not given. What is being collected is given to nobody but the
/// one who began to fetch it.
pub fn privacy()
    ensures kept { (before : List Event) (f : FetchedObject) → said None unborn before ≡ Some true → f.is_kept ≡ false → f.is_stale ≡ false → count_by (answers_so is_fetched) (turn_of (after unborn before) (events.Answered (outcomes.Fetched f))).commands ≡ 0 }
    ensures early { (events : List Event) (event : Event) → 0 < count_by (answers_so is_early_one) (turn_of (after unborn events) event).commands → said None unborn events ≡ Some false }
{}

/// The node is asked at most twice, and once more for each time that it says that its fetch was ended for want of clients, but never more than
/// three times. Each time that it has taken the request, either it has answered it, or the request was withdrawn, or it has
/// it waiting now: so it is withdrawn exactly where its client does not wait any more for what has not come.
pub fn node_is_asked()
    ensures twice { (events : List Event) → times is_submit events ≤ 2 + count_by is_again events }
    ensures most { (events : List Event) → times is_submit events ≤ 3 }
    ensures withdrawn { (events : List Event) → moves_where taken_in unborn events ≡ times is_withdraw events + moves_where settled_in unborn events + one (is_waiting (after unborn events).stage) }
{}

/// A request is passed on at most once, and only where it may be.
pub fn passed_on()
    ensures once { (events : List Event) → times is_pass_on events ≤ 1 }
    ensures only { IsOnlyBy is_pass_on routes_well }
{}

/// Each unsafe request that was passed on has taken out what it may have changed once, or has changed nothing, or is at its server still (RFC
/// 9111, section 4.4). It has changed nothing where its server, while its client is there, says neither 2xx or 3xx nor 502 or 504, or was not
/// connected to. Once its client has gone or has broken its content, it has changed nothing where the server says neither 2xx or 3xx, or says
/// nothing and has not got all of it: what a client has broken, or left before all of it was sent, takes nothing out without an answer 2xx or
/// 3xx; what was sent whole does so without one only where none came within five seconds, or the server was lost. Nothing is taken out but by
/// the word of a server, or for want of it; what an answer 2xx or 3xx says is taken out by that, and nothing else is.
pub fn changes_are_taken_out()
    ensures balanced { (events : List Event) → moves_where sent_unsafe unborn events ≡ times is_take_out events + moves_where unchanged_unsafe unborn events + pending_unsafe (after unborn events) }
    ensures caused { IsOnlyBy is_take_out ends_passage }
    ensures answered { IsOnlyBy takes_by_answer has_answered }
    ensures known { (head : RequestHead) (content : Content) (p : AnswerHead) → head.is_unsafe ≡ true → says_done p.status ≡ true → count_by takes_by_answer (turn head (stages.Passing content) (events.Passed (passages.Head p))).commands ≡ 1 }
    ensures broken { (head : RequestHead) (later : List Event) → AllByRecursion (λ event. says_nothing event ≡ true) later → count_by is_take_out (orders (life_at head (stages.Passing contents.Coming)) (events.UploadBroken ∷ later)) ≡ 0 }
    ensures unsent { (head : RequestHead) (content : Content) (later : List Event) → is_to_send content ≡ true → AllByRecursion (λ event. says_nothing_unsent event ≡ true) later → count_by is_take_out (orders (life_at head (stages.Passing content)) (events.Left ∷ later)) ≡ 0 }
    ensures whole { (head : RequestHead) (later : List Event) → AllByRecursion (λ event. says_nothing_in_time event ≡ true) later → count_by is_take_out (orders (life_at head (stages.Passing contents.Sent)) (events.Left ∷ later)) ≡ 0 }
{}

/// A server is connected to for a tunnel at most once, and only where the tunnel may lead there; the client is told that it is open only
/// where it is. After an answer in place of it, and after one before all of a content has come, the connection ends, and where its client
/// has asked for that; after no other does it.
pub fn tunnels()
    ensures once { (events : List Event) → times is_open_tunnel events ≤ 1 }
    ensures aimed { IsOnlyBy is_open_tunnel aims_well }
    ensures opened { IsOnlyBy (answers_so is_tunnel) is_opened }
    ensures closed { (head : RequestHead) (stage : Stage) (event : Event) → count_by (λ c. must_close head stage event && goes_on c) (turn head stage event).commands ≡ 0 }
    ensures asked { (head : RequestHead) (stage : Stage) (event : Event) → count_by (λ c. goes_on c && head.is_last) (turn head stage event).commands ≡ 0 }
    ensures others { (head : RequestHead) (stage : Stage) (event : Event) → count_by (λ c. ends_connection_by c && not (must_close head stage event || head.is_last)) (turn head stage event).commands ≡ 0 }
{}

/// A stored object is given only where the request accepts it at its age and life, as it is given (RFC 9111, section 5.2.1), and a stale one
/// only where that was found to be allowed, and in place of a fetch never to who counts on an answer that has come by its origin.
pub fn stored_answers()
    ensures hits { IsOnlyBy (answers_so is_hit) is_met_hit }
    ensures stale { IsOnlyBy (answers_so is_stale) has_stale }
    ensures marked { (head : RequestHead) (stage : Stage) (event : Event) → is_submitted stage ≡ true → head.has_loop_marks ≡ true → count_by (answers_so is_stale) (turn head stage event).commands ≡ 0 }
{}

/// A request that has come back, or whose host may not be fetched from, goes nowhere (RFC 8586). One that wants what is stored alone has
/// nothing fetched (RFC 9111, section 5.2.1.7), and where the node may answer it, it is not passed on either. One
/// whose own fields can't be sent on is not submitted alone.
pub fn refusals()
    ensures barred { (events : List Event) → AllByRecursion (λ event. bars event ≡ true) events → times is_sent events ≡ 0 }
    ensures options { (events : List Event) → AllByRecursion (λ event. has_unsendable event ≡ true) events → times is_submit_alone events ≡ 0 }
    ensures passed { (events : List Event) → AllByRecursion (λ event. is_for_store_alone event ≡ true) events → times is_pass_on events ≡ 0 }
    ensures stored { (events : List Event) → AllByRecursion (λ event. is_for_store event ≡ true) events → times is_fetch events ≡ 0 }
{}

/// A request with content that the node may answer begins with that: it is collected first, and nothing is looked up before all of it has come,
/// whatever else happens; one without is looked up at once. Content that is passed on comes as it is passed on, and until all of it has come, no
/// answer leaves its connection open, since the rest of it is no request (RFC 9112, section 9.3); where there is none, none is waited for.
pub fn its_content()
    ensures begun { (old head : RequestHead) → may_be_answered head head.method ≡ true → head.is_too_long ≡ false → (turn old stages.Receiving (events.Received head)).commands ≡ (if head.has_content then does.Collect else does.LookUp) ∷ [] }
    ensures collected { (events : List Event) → AllByRecursion (λ event. is_uncollected event ≡ true) events → times is_look_up events ≡ 0 }
    ensures coming { (head : RequestHead) (p : FoundPassage) → may_be_passed p ≡ true → is_uploading (turn head stages.Routing (events.Routed p)).life.stage ≡ head.has_upload }
    ensures amid { (head : RequestHead) (p : FoundPassage) (later : List Event) → head.has_upload ≡ true → AllByRecursion (λ event. is_unread event ≡ true) later → count_by goes_on (orders (life_at head stages.Routing) (events.Routed p ∷ later)) ≡ 0 }
{}

/// A request that the node may not answer, which wants no tunnel, and whose method is not passed on, or whose content has a coding that is not
/// known here (RFC 9112, section 6.1), goes nowhere, whatever happens: it is told 501, and its connection ends. One that may be passed on is, and
/// one for a tunnel is aimed there. Of what the node may answer, a GET is passed on only where its answer is known to be too long, and a HEAD
/// only where a HEAD is passed on.
pub fn where_it_goes()
    ensures nowhere { (events : List Event) → AllByRecursion (λ event. comes_for_nobody event ≡ true) events → times is_sent events ≡ 0 }
    ensures told { (old head : RequestHead) → is_for_nobody head ≡ true → (turn old stages.Receiving (events.Received head)).commands ≡ turns_down 501 }
    ensures server { (old head : RequestHead) → is_for_server head ≡ true → (turn old stages.Receiving (events.Received head)).commands ≡ does.Route ∷ [] }
    ensures tunnel { (old head : RequestHead) → may_tunnel head head.method ≡ true → head.is_too_long ≡ false → (turn old stages.Receiving (events.Received head)).commands ≡ does.Aim ∷ [] }
    ensures past { (head : RequestHead) (round : Turn) (event : Event) → 0 < count_by is_route (turn head (stages.LookingUp round) event).commands → goes_past head event ≡ true }
{}

/// The node is told things in their order: a request is submitted, passed on, answered, or has the whole fetched for all, only where the node
/// has nothing of it; from then on nothing but its line in the log is written until the node has said whether it takes it; and what it has taken,
/// and not answered, is withdrawn before anything else is done, unless its answer is to be given while that is collected. So what is withdrawn
/// was submitted before, and is not what is submitted next.
pub fn in_turn()
    ensures { (events : List Event) → is_in_turn Absent unborn events ≡ true }
{}

/// Behind its answer nothing is done for a request but to end what its client has broken: that is ended, what it has changed is taken out, and
/// its line is written. Where its client breaks nothing, nothing but that line stands behind its answer: so what it has changed is taken out
/// before its client is told so. What was passed on is never ended behind what it has changed was taken out.
pub fn order_of_answers()
    ensures further { (events : List Event) → behind is_give goes_further (orders unborn events) ≡ 0 }
    ensures last { (events : List Event) → AllByRecursion (λ event. breaks_nothing event ≡ true) events → behind is_give is_more_than_record (orders unborn events) ≡ 0 }
    ensures ended { (events : List Event) → behind is_take_out is_cancel (orders unborn events) ≡ 0 }
{}

/// A request is submitted the way that it was found to be: it joins a fetch for all unless that was overtaken by a change, is answered from the
/// store alone, or is fetched for alone; the third for a part has the whole fetched for all before. Who has begun a fetch for all, and counts on no
/// answer that has come by its origin, is given the answer while that is collected.
pub fn what_is_submitted()
    ensures due { (head : RequestHead) (lookup : FoundLookup) (round : Turn) (mode : Mode) → lookup.choice ≡ Ask mode → may_be_asked head lookup ≡ true → count_by (is_submit_so (is_due_as lookup mode)) (turn head (stages.LookingUp round) (events.Found lookup)).commands ≡ 1 }
    ensures whole { (head : RequestHead) (lookup : FoundLookup) (round : Turn) → lookup.choice ≡ Ask Private → may_be_asked head lookup ≡ true → lookup.is_stored ≡ false → lookup.is_third_part ≡ true → (turn head (stages.LookingUp round) (events.Found lookup)).commands ≡ does.FetchForAll ∷ does.Submit Private ∷ [] }
    ensures streamed { (head : RequestHead) (a : TakenRequest) (s : SubmittedRequest) → wants_shared s.mode ≡ true → may_stream head (events.Accepted a) ≡ true → a.has_stale ≡ false → (turn head (stages.Submitting s) (events.Accepted a)).commands ≡ does.Stream ∷ [] }
{}

/// Who has joined a fetch for all stays with it, unless its answer can't be stored, as the last one of its URL was not: only then it is withdrawn
/// and fetched for alone, once, where its fields can be sent on and nothing stale may be given in place of that.
pub fn who_stands_apart()
    ensures only { (head : RequestHead) (stage : Stage) (event : Event) → is_submitted stage ≡ true → 0 < count_by is_submit (turn head stage event).commands → is_kept_apart event ≡ true }
    ensures fetched { (head : RequestHead) (a : TakenRequest) (s : SubmittedRequest) → wants_shared s.mode ≡ true → s.is_second ≡ false → a.has_joined ≡ true → a.is_kept_out ≡ true → head.has_many_options ≡ false → (may_have_stale head s.mode && a.has_stale) ≡ false → (turn head (stages.Submitting s) (events.Accepted a)).commands ≡ does.Withdraw ∷ does.Submit Private ∷ [] }
{}

/// An answer whose Connection fields have too many options, so that what they name can't be left out (RFC 9110, section 7.6.1), is not given on:
/// its client is told 502.
pub fn what_is_given_on()
    ensures only { IsOnlyBy (answers_so is_passed_one) is_sendable }
    ensures told { (head : RequestHead) (content : Content) (p : AnswerHead) → p.has_many_options ≡ true → count_by (answers_so (is_own 502)) (turn head (stages.Passing content) (events.Passed (passages.Head p))).commands ≡ 1 }
{}
