//! Requests that are passed on and whose clients leave, or break their content.
ghost use Rattle.std.specs.Prelude.{◌≡◌, None};
ghost use Rattle.fair_use.specs.Unanswered.{may_have_changed};
ghost use Rattle.request_life.specs.Table.{breaks_off, expired, leaves_passing, parted, read, sent, settles, shown, upload_broken, upload_of};

use crate::commands::{Answer, Changed, Command, Given, Step, go, go_by_two, stay};
use crate::events::PassedEnd;
use crate::facts::RequestHead;
use crate::stages::{Content, Stage};
use fair_use::{Upload, may_have_changed};

// Ends what was passed on, and takes out what it may have changed.
fn settle(head: RequestHead, stage: Stage, has_changed: bool, changed: Changed) -> Step
    ensures { shown result ≡ settles head stage has_changed changed }
{
    if has_changed {
        go_by_two(head, stage, Command::Cancel, Command::TakeOut(changed))
    } else {
        go(head, stage, Command::Cancel)
    }
}

/// The server of a request answers whose client has gone, or does not; what comes next is `stage`.
pub(crate) fn part(head: RequestHead, stage: Stage, upload: Upload, how: PassedEnd) -> Step
    ensures { shown result ≡ parted head stage upload how }
{
    match how {
        PassedEnd::Head(passed) => {
            let has_changed = may_have_changed(upload, Some(passed.status));
            settle(head, stage, has_changed, Changed::ByAnswer)
        }
        PassedEnd::Refused => settle(head, stage, false, Changed::Target),
        PassedEnd::TimedOut | PassedEnd::Failed => {
            let has_changed = may_have_changed(upload, None);
            settle(head, stage, has_changed, Changed::Target)
        }
    }
}

// What the server says was waited for for long enough.
fn give_up(head: RequestHead, stage: Stage, upload: Upload) -> Step
    ensures { shown result ≡ settles head stage (may_have_changed upload None) Changed.Target }
{
    let has_changed = may_have_changed(upload, None);
    settle(head, stage, has_changed, Changed::Target)
}

/// What the server of a request says whose client has gone was waited for for five seconds.
pub(crate) fn expired(head: RequestHead, stage: Stage) -> Step
    ensures { shown result ≡ expired head stage }
{
    match stage {
        Stage::Parting(upload) => give_up(head, Stage::Left, upload),
        Stage::Breaking => give_up(head, Stage::Giving, Upload::Broken),
        Stage::BrokenOff => give_up(head, Stage::Ended, Upload::Broken),
        _ => stay(head, stage),
    }
}

/// All of the content of a request has come that is passed on.
pub(crate) fn read(head: RequestHead, stage: Stage) -> Step
    ensures { shown result ≡ read head stage }
{
    match stage {
        Stage::Passing(Content::Coming) => stay(head, Stage::Passing(Content::Read)),
        _ => stay(head, stage),
    }
}

/// All of a request was sent that is passed on.
pub(crate) fn sent(head: RequestHead, stage: Stage) -> Step
    ensures { shown result ≡ sent head stage }
{
    match stage {
        Stage::Passing(_) => stay(head, Stage::Passing(Content::Sent)),
        Stage::Parting(_) => stay(head, Stage::Parting(Upload::Whole)),
        _ => stay(head, stage),
    }
}

fn break_off(head: RequestHead) -> Step
    ensures { shown result ≡ breaks_off head }
{
    let given = Command::Give(Given {
        answer: Answer::Own(400),
        is_last: true,
    });
    if head.is_unsafe {
        go(head, Stage::Breaking, given)
    } else {
        go_by_two(head, Stage::Giving, Command::Cancel, given)
    }
}

/// The content of a request broke that is passed on.
pub(crate) fn upload_broken(head: RequestHead, stage: Stage) -> Step
    ensures { shown result ≡ upload_broken head stage }
{
    match stage {
        Stage::Passing(Content::Coming) => break_off(head),
        _ => stay(head, stage),
    }
}

// How much of a request was sent to its server.
fn upload_of(content: Content) -> Upload
    ensures { result ≡ upload_of content }
{
    match content {
        Content::Coming | Content::Read => Upload::Broken,
        Content::Sent => Upload::Whole,
    }
}

/// The client of a request has left of which so much was passed on.
pub(crate) fn leave_passing(head: RequestHead, content: Content) -> Step
    ensures { shown result ≡ leaves_passing head content }
{
    if head.is_unsafe {
        go(head, Stage::Parting(upload_of(content)), Command::Record)
    } else {
        go_by_two(head, Stage::Left, Command::Cancel, Command::Record)
    }
}
