//! What the node answers.
ghost use Rattle.std.specs.Prelude.{◌≡◌, ◌∷◌, [], if◌then◌else◌};
ghost use Rattle.request_life.specs.Table.{accepted, again, anew, answered, answered_so, declined, declined_so, failed, give, gives, goes, has_begun, is_first, is_for_another, own, shape_for, share_of, shown, stands_apart, submits_alone, taken, takes_stale, turn_down, waits};

use crate::commands::{Answer, Command, Given, Shape, Step, go, go_by_two, stay};
use crate::events::{Acceptance, Failure, Fetched, Outcome};
use crate::facts::RequestHead;
use crate::lookup::{is_cached, is_private, is_shared, submit};
use crate::stages::{Round, Share, Stage, Submission, Wait};
use node_terms::Mode;

/// Gives an answer.
pub(crate) fn give(head: RequestHead, answer: Answer) -> Step
    ensures { shown result ≡ gives head answer }
{
    let given = Given {
        answer,
        is_last: head.is_last,
    };
    go(head, Stage::Giving, Command::Give(given))
}

/// Gives a status of the proxy's own.
pub(crate) fn own(head: RequestHead, status: u16) -> Step
    ensures { shown result ≡ own head status }
{
    give(head, Answer::Own(status))
}

/// Gives a status of the proxy's own, and ends the connection.
pub(crate) fn turn_down(head: RequestHead, status: u16) -> Step
    ensures { shown result ≡ turn_down head status }
{
    let given = Given {
        answer: Answer::Own(status),
        is_last: true,
    };
    go(head, Stage::Giving, Command::Give(given))
}

// Gives an answer to a request that the node has waiting still.
fn withdraw(head: RequestHead, answer: Answer) -> Step
    ensures { shown result ≡ goes head Stage.Giving (Command.Withdraw ∷ give head.is_last answer ∷ []) }
{
    let given = Given {
        answer,
        is_last: head.is_last,
    };
    go_by_two(head, Stage::Giving, Command::Withdraw, Command::Give(given))
}

// Whose fetch a request waits for.
fn share_of(has_joined: bool, mode: Mode) -> Share
    ensures { result ≡ share_of has_joined mode }
{
    if has_joined {
        Share::Joined
    } else if is_private(mode) {
        Share::Alone
    } else {
        Share::Began
    }
}

// Whether a request may be given what is stale, by its mode and its marks.
fn takes_stale(head: RequestHead, mode: Mode) -> bool
    ensures { result ≡ takes_stale head mode }
{
    is_shared(mode) && !head.has_loop_marks
}

fn wait(submission: Submission, has_joined: bool) -> Stage
    ensures { result ≡ waits submission has_joined }
{
    Stage::Waiting(Wait {
        mode: submission.mode,
        share: share_of(has_joined, submission.mode),
        round: submission.round,
        is_second: submission.is_second,
    })
}

// Whether a request that has joined a fetch is better fetched for alone.
fn stands_apart(acceptance: Acceptance, submission: Submission) -> bool
    ensures { result ≡ stands_apart acceptance submission }
{
    is_shared(submission.mode)
        && !submission.is_second
        && acceptance.has_joined
        && acceptance.is_kept_out
}

// Submits a request alone that the node has waiting.
fn submit_alone(head: RequestHead, round: Round) -> Step
    ensures { shown result ≡ submits_alone head round }
{
    let stage = Stage::Submitting(Submission {
        mode: Mode::Private,
        round,
        is_second: true,
    });
    go_by_two(
        head,
        stage,
        Command::Withdraw,
        Command::Submit(Mode::Private),
    )
}

// Submits a request alone that the node has waiting, if its fields can be sent on.
fn stand_apart(head: RequestHead, round: Round) -> Step
    ensures { shown result ≡ (if head.has_many_options then goes head Stage.Giving (Command.Withdraw ∷ give head.is_last (Answer.Own 400) ∷ []) else submits_alone head round) }
{
    if head.has_many_options {
        withdraw(head, Answer::Own(400))
    } else {
        submit_alone(head, round)
    }
}

fn taken(head: RequestHead, acceptance: Acceptance, submission: Submission) -> Step
    ensures { shown result ≡ taken head acceptance submission }
{
    let takes_stale = takes_stale(head, submission.mode);
    if takes_stale && acceptance.has_stale {
        return withdraw(head, Answer::Stale);
    }
    if stands_apart(acceptance, submission) {
        return stand_apart(head, submission.round);
    }
    let stage = wait(submission, acceptance.has_joined);
    if takes_stale && !acceptance.has_joined && head.is_streamed {
        go(head, stage, Command::Stream)
    } else {
        stay(head, stage)
    }
}

/// The node has taken a request.
pub(crate) fn accepted(head: RequestHead, acceptance: Acceptance, stage: Stage) -> Step
    ensures { shown result ≡ accepted head acceptance stage }
{
    match stage {
        Stage::Submitting(submission) => taken(head, acceptance, submission),
        Stage::Leaving => go(head, Stage::Left, Command::Withdraw),
        _ => stay(head, stage),
    }
}

// Gives what is stale in place of a refusal, or the refusal.
fn decline(head: RequestHead, has_stale: bool, submission: Submission) -> Step
    ensures { shown result ≡ declined_so head has_stale submission }
{
    if takes_stale(head, submission.mode) && has_stale {
        give(head, Answer::Stale)
    } else {
        own(head, 503)
    }
}

/// The node has not taken a request.
pub(crate) fn declined(head: RequestHead, has_stale: bool, stage: Stage) -> Step
    ensures { shown result ≡ declined head has_stale stage }
{
    match stage {
        Stage::Submitting(submission) => decline(head, has_stale, submission),
        Stage::Leaving => stay(head, Stage::Left),
        _ => stay(head, stage),
    }
}

// Asks the node once again, for this request alone.
fn again(head: RequestHead, wait: Wait) -> Step
    ensures { shown result ≡ again head wait }
{
    if wait.is_second {
        own(head, 503)
    } else if is_cached(wait.mode) {
        own(head, 504)
    } else if head.has_many_options {
        own(head, 400)
    } else {
        submit(head, wait.round, true, Mode::Private)
    }
}

pub(crate) fn is_first(round: Round) -> bool
    ensures { result ≡ is_first round }
{
    matches!(round, Round::First)
}

// Hands a request in anew, once.
fn hand_in_anew(head: RequestHead, wait: Wait) -> Step
    ensures { shown result ≡ anew head wait }
{
    if is_first(wait.round) && !wait.is_second {
        go(head, Stage::LookingUp(Round::Anew), Command::LookUp)
    } else {
        own(head, 502)
    }
}

// Whether an answer is for the one alone that began its fetch.
fn is_for_another(share: Share, fetched: Fetched) -> bool
    ensures { result ≡ is_for_another share fetched }
{
    matches!(share, Share::Joined) && !fetched.is_kept && !fetched.is_stale
}

fn shape_for(share: Share, shape: Shape) -> Shape
    ensures { result ≡ shape_for share shape }
{
    match share {
        Share::Alone => Shape::Whole,
        Share::Began | Share::Joined => shape,
    }
}

fn failed(head: RequestHead, wait: Wait, failure: Failure) -> Step
    ensures { shown result ≡ failed head wait failure }
{
    if failure.status == 502 && failure.is_long && !is_cached(wait.mode) {
        return go(head, Stage::Routing, Command::Route);
    }
    own(head, failure.status)
}

// Answers a request whose answer never comes.
fn lost(head: RequestHead, round: Round) -> Step
    ensures { shown result ≡ (if is_first round then own head 503 else own head 502) }
{
    if is_first(round) {
        own(head, 503)
    } else {
        own(head, 502)
    }
}

fn early(head: RequestHead, share: Share) -> Step
    ensures { shown result ≡ (if has_begun share then goes head Stage.Giving (Command.Withdraw ∷ give head.is_last Answer.Early ∷ []) else goes head Stage.Giving (Command.Withdraw ∷ give head.is_last (Answer.Own 503) ∷ [])) }
{
    match share {
        Share::Began => withdraw(head, Answer::Early),
        Share::Joined | Share::Alone => withdraw(head, Answer::Own(503)),
    }
}

fn answered_so(head: RequestHead, wait: Wait, outcome: Outcome) -> Step
    ensures { shown result ≡ answered_so head wait outcome }
{
    match outcome {
        Outcome::Hit(hit) => {
            if hit.is_accepted {
                give(head, Answer::Hit(hit.shape))
            } else {
                again(head, wait)
            }
        }
        Outcome::Fetched(fetched) => {
            if is_for_another(wait.share, fetched) {
                again(head, wait)
            } else {
                give(head, Answer::Fetched(shape_for(wait.share, fetched.shape)))
            }
        }
        Outcome::Early => early(head, wait.share),
        Outcome::Failed(failure) => failed(head, wait, failure),
        Outcome::Again => hand_in_anew(head, wait),
        Outcome::Lost => lost(head, wait.round),
    }
}

/// The node answers.
pub(crate) fn answered(head: RequestHead, outcome: Outcome, stage: Stage) -> Step
    ensures { shown result ≡ answered head outcome stage }
{
    match stage {
        Stage::Waiting(wait) => answered_so(head, wait, outcome),
        _ => stay(head, stage),
    }
}
