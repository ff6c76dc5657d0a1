//! Requests that are passed on.
ghost use Rattle.std.specs.Prelude.{◌≡◌, ◌∷◌, []};
ghost use Rattle.fair_use.specs.Unanswered.{is_carried_out};
ghost use Rattle.request_life.specs.Table.{answer_of, content_of, ends_connection, first_of, give, gives_passed, goes, is_unclear, leaves_open, passage_fault, passed, passed_head, passed_so, routed, routed_by, shown, unanswered};

use crate::commands::{Answer, Changed, Command, Given, Step, go, go_by_two, stay};
use crate::events::{PassedEnd, PassedHead};
use crate::facts::{Passage, RequestHead};
use crate::lookup::{bar_of, fault_of};
use crate::parting::part;
use crate::stages::{Content, Stage};
use fair_use::Upload;

/// The first of two statuses that there is.
pub(crate) fn first_of(first: Option<u16>, rest: Option<u16>) -> Option<u16>
    ensures { result ≡ first_of first rest }
{
    match first {
        Some(status) => Some(status),
        None => rest,
    }
}

// The status that a request is refused with in place of being passed on.
fn passage_fault(passage: Passage) -> Option<u16>
    ensures { result ≡ passage_fault passage }
{
    let own = if passage.is_last_recipient {
        Some(501)
    } else if passage.has_many_options {
        Some(400)
    } else if passage.has_room {
        None
    } else {
        Some(503)
    };
    let barred = first_of(bar_of(passage.has_come_back, passage.is_barred), own);
    first_of(fault_of(passage.target), barred)
}

/// Where a request is passed on to has been found.
pub(crate) fn routed(head: RequestHead, passage: Passage, stage: Stage) -> Step
    ensures { shown result ≡ routed head passage stage }
{
    match stage {
        Stage::Routing => routed_by(head, passage_fault(passage)),
        _ => stay(head, stage),
    }
}

// How far the content of a request has come once it is passed on.
fn content_of(head: RequestHead) -> Content
    ensures { result ≡ content_of head }
{
    if head.has_upload {
        Content::Coming
    } else {
        Content::Read
    }
}

fn routed_by(head: RequestHead, fault: Option<u16>) -> Step
    ensures { shown result ≡ routed_by head fault }
{
    match fault {
        Some(status) => {
            let given = Given {
                answer: Answer::Own(status),
                is_last: head.is_last || head.has_upload,
            };
            go(head, Stage::Giving, Command::Give(given))
        }
        None => go(head, Stage::Passing(content_of(head)), Command::PassOn),
    }
}

// Whether a status says that a request was carried out.
fn is_carried_out(status: u16) -> bool
    ensures { result ≡ is_carried_out status }
{
    200 <= status && status < 400
}

// Whether nobody knows after this status.
fn leaves_open(status: u16) -> bool
    ensures { result ≡ leaves_open status }
{
    status == 502 || status == 504
}

// Whether nobody knows after this head what its request has changed.
fn is_unclear(passed: PassedHead) -> bool
    ensures { result ≡ is_unclear passed }
{
    passed.has_many_options || leaves_open(passed.status)
}

fn answer_of(passed: PassedHead) -> Answer
    ensures { result ≡ answer_of passed }
{
    if passed.has_many_options {
        Answer::Own(502)
    } else {
        Answer::Passed
    }
}

// Whether the connection ends with an answer.
fn ends_connection(head: RequestHead, content: Content) -> bool
    ensures { result ≡ ends_connection head content }
{
    match content {
        Content::Coming => true,
        Content::Read | Content::Sent => head.is_last,
    }
}

// Gives an answer to a request of which so much was sent.
fn give_passed(head: RequestHead, content: Content, answer: Answer) -> Step
    ensures { shown result ≡ gives_passed head content answer }
{
    let given = Given {
        answer,
        is_last: ends_connection(head, content),
    };
    go(head, Stage::Giving, Command::Give(given))
}

// Takes out what was changed, and gives an answer.
fn take_out(head: RequestHead, content: Content, changed: Changed, answer: Answer) -> Step
    ensures { shown result ≡ goes head Stage.Giving (Command.TakeOut changed ∷ give (ends_connection head content) answer ∷ []) }
{
    let given = Given {
        answer,
        is_last: ends_connection(head, content),
    };
    go_by_two(
        head,
        Stage::Giving,
        Command::TakeOut(changed),
        Command::Give(given),
    )
}

fn passed_head(head: RequestHead, content: Content, passed: PassedHead) -> Step
    ensures { shown result ≡ passed_head head content passed }
{
    let answer = answer_of(passed);
    if head.is_unsafe && is_carried_out(passed.status) {
        return take_out(head, content, Changed::ByAnswer, answer);
    }
    if head.is_unsafe && is_unclear(passed) {
        return take_out(head, content, Changed::Target, answer);
    }
    give_passed(head, content, answer)
}

// Gives a status where the server may have carried the request out.
fn unanswered(head: RequestHead, content: Content, status: u16) -> Step
    ensures { shown result ≡ unanswered head content status }
{
    if head.is_unsafe {
        take_out(head, content, Changed::Target, Answer::Own(status))
    } else {
        give_passed(head, content, Answer::Own(status))
    }
}

fn passed_so(head: RequestHead, content: Content, how: PassedEnd) -> Step
    ensures { shown result ≡ passed_so head content how }
{
    match how {
        PassedEnd::Head(passed) => passed_head(head, content, passed),
        PassedEnd::Refused => give_passed(head, content, Answer::Own(403)),
        PassedEnd::TimedOut => unanswered(head, content, 504),
        PassedEnd::Failed => unanswered(head, content, 502),
    }
}

/// The server answers that a request was passed on to, or does not.
pub(crate) fn passed(head: RequestHead, how: PassedEnd, stage: Stage) -> Step
    ensures { shown result ≡ passed head how stage }
{
    match stage {
        Stage::Passing(content) => passed_so(head, content, how),
        Stage::Parting(upload) => part(head, Stage::Left, upload, how),
        Stage::Breaking => part(head, Stage::Giving, Upload::Broken, how),
        Stage::BrokenOff => part(head, Stage::Ended, Upload::Broken, how),
        _ => stay(head, stage),
    }
}
