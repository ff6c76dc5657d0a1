//! The machine.
ghost use Rattle.std.specs.Prelude.{◌≡◌};
ghost use Rattle.request_life.specs.Runs.{unborn};
ghost use Rattle.request_life.specs.Table.{begins, collected, collected_so, finished, is_for_node, left, opens_tunnel, received, shown, turn};

use crate::answers::{accepted, answered, declined, turn_down};
use crate::commands::{Command, Step, go, go_by_two, stay};
use crate::events::{ContentEnd, Event};
use crate::facts::{Method, RequestHead};
use crate::lookup::found;
use crate::parting::{expired, leave_passing, read, sent, upload_broken};
use crate::passage::{passed, routed};
use crate::stages::{Life, Round, Stage};
use crate::tunnels::{aimed, tunnelled};

impl Life {
    /// A request whose head has not come.
    pub fn new() -> Life
        ensures { result ≡ unborn }
    {
        Life {
            head: RequestHead {
                method: Method::Other,
                is_unsafe: false,
                has_passage: false,
                has_tunnels: false,
                answers_heads: false,
                has_foreign_coding: false,
                is_too_long: false,
                has_content: false,
                has_upload: false,
                has_many_options: false,
                has_loop_marks: false,
                is_streamed: false,
                is_last: false,
            },
            stage: Stage::Receiving,
        }
    }

    /// What comes of a request when this happens, and what is to be done. What isn't awaited changes nothing.
    pub fn step(self, event: Event) -> Step
        ensures { shown result ≡ turn self.head self.stage event }
    {
        let Life { head, stage } = self;
        match event {
            Event::Received(new) => received(new, head, stage),
            Event::Collected(how) => collected(head, how, stage),
            Event::Found(lookup) => found(head, lookup, stage),
            Event::Accepted(acceptance) => accepted(head, acceptance, stage),
            Event::Declined(has_stale) => declined(head, has_stale, stage),
            Event::Answered(outcome) => answered(head, outcome, stage),
            Event::Routed(passage) => routed(head, passage, stage),
            Event::Passed(how) => passed(head, how, stage),
            Event::Read => read(head, stage),
            Event::Sent => sent(head, stage),
            Event::UploadBroken => upload_broken(head, stage),
            Event::Expired => expired(head, stage),
            Event::Aimed(target) => aimed(head, target, stage),
            Event::Tunnelled(how) => tunnelled(head, how, stage),
            Event::Left => left(head, stage),
            Event::Finished => finished(head, stage),
        }
    }
}

// Whether the node may answer a request.
fn is_for_node(head: RequestHead) -> bool
    ensures { result ≡ is_for_node head }
{
    match head.method {
        Method::Get => true,
        Method::Head => head.answers_heads,
        Method::Connect | Method::Other => false,
    }
}

fn opens_tunnel(head: RequestHead) -> bool
    ensures { result ≡ opens_tunnel head }
{
    matches!(head.method, Method::Connect) && head.has_tunnels
}

// Begins with a request.
fn begin(head: RequestHead) -> Step
    ensures { shown result ≡ begins head }
{
    if is_for_node(head) {
        return if head.is_too_long {
            turn_down(head, 413)
        } else if head.has_content {
            go(head, Stage::Collecting, Command::Collect)
        } else {
            go(head, Stage::LookingUp(Round::First), Command::LookUp)
        };
    }
    if opens_tunnel(head) {
        return if head.is_too_long {
            turn_down(head, 413)
        } else {
            go(head, Stage::Aiming, Command::Aim)
        };
    }
    if !head.has_passage || head.has_foreign_coding {
        return turn_down(head, 501);
    }
    go(head, Stage::Routing, Command::Route)
}

fn received(new: RequestHead, head: RequestHead, stage: Stage) -> Step
    ensures { shown result ≡ received new head stage }
{
    match stage {
        Stage::Receiving => begin(new),
        _ => stay(head, stage),
    }
}

fn collected_so(head: RequestHead, how: ContentEnd) -> Step
    ensures { shown result ≡ collected_so head how }
{
    match how {
        ContentEnd::Whole => go(head, Stage::LookingUp(Round::First), Command::LookUp),
        ContentEnd::TooLong => turn_down(head, 413),
        ContentEnd::Broken => turn_down(head, 400),
    }
}

fn collected(head: RequestHead, how: ContentEnd, stage: Stage) -> Step
    ensures { shown result ≡ collected head how stage }
{
    match stage {
        Stage::Collecting => collected_so(head, how),
        _ => stay(head, stage),
    }
}

fn left(head: RequestHead, stage: Stage) -> Step
    ensures { shown result ≡ left head stage }
{
    match stage {
        Stage::Submitting(_) => go(head, Stage::Leaving, Command::Record),
        Stage::Waiting(_) => { go_by_two(head, Stage::Left, Command::Withdraw, Command::Record) }
        Stage::Passing(content) => leave_passing(head, content),
        Stage::Breaking => go(head, Stage::BrokenOff, Command::Record),
        Stage::Opening => go_by_two(head, Stage::Left, Command::Cancel, Command::Record),
        Stage::Giving => go(head, Stage::Ended, Command::Record),
        Stage::Leaving | Stage::Parting(_) | Stage::BrokenOff | Stage::Ended | Stage::Left => stay(
            head, stage,
        ),
        Stage::Receiving
        | Stage::Collecting
        | Stage::LookingUp(_)
        | Stage::Routing
        | Stage::Aiming => go(head, Stage::Left, Command::Record),
    }
}

fn finished(head: RequestHead, stage: Stage) -> Step
    ensures { shown result ≡ finished head stage }
{
    match stage {
        Stage::Giving => go(head, Stage::Ended, Command::Record),
        Stage::Breaking => go(head, Stage::BrokenOff, Command::Record),
        _ => stay(head, stage),
    }
}
