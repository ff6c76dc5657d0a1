//! What the node is asked.
ghost use Rattle.std.specs.Prelude.{◌≡◌};
ghost use Rattle.request_life.specs.declared.facts.Choice.TheVariants.{Ask};
ghost use Rattle.request_life.specs.Table.{found, found_under, fault_of, chosen, unless_barred, asks, beside, goes_beside, gives, bar_of, submits, shown, is_private, is_shared, is_cached};

use crate::answers::{give, is_first, own};
use crate::commands::{Answer, Command, Step, go, go_by_two, stay};
use crate::facts::{Choice, Lookup, Method, RequestHead, Target};
use crate::stages::{Round, Stage, Submission};
use node_terms::Mode;

/// The status that a target is refused with that is no URL.
pub(crate) fn fault_of(target: Target) -> Option<u16>
    ensures { result ≡ fault_of target }
{
    match target {
        Target::Url => None,
        Target::NotHttp => Some(400),
        Target::TooLong => Some(414),
        Target::NoMemory => Some(503),
    }
}

/// The status of a request for which nothing is sent on.
pub(crate) fn bar_of(has_come_back: bool, is_barred: bool) -> Option<u16>
    ensures { result ≡ bar_of has_come_back is_barred }
{
    if has_come_back {
        Some(508)
    } else if is_barred {
        Some(403)
    } else {
        None
    }
}

/// Whether a request may be answered by a fetch that others may join.
pub(crate) fn is_shared(mode: Mode) -> bool
    ensures { result ≡ is_shared mode }
{
    matches!(mode, Mode::Shared)
}

/// Whether a request is answered from the store alone.
pub(crate) fn is_cached(mode: Mode) -> bool
    ensures { result ≡ is_cached mode }
{
    matches!(mode, Mode::Cached)
}

pub(crate) fn is_private(mode: Mode) -> bool
    ensures { result ≡ is_private mode }
{
    matches!(mode, Mode::Private)
}

/// Submits a request, for the second time in this round or not.
pub(crate) fn submit(head: RequestHead, round: Round, is_second: bool, mode: Mode) -> Step
    ensures { shown result ≡ submits head round is_second mode }
{
    let submission = Submission {
        mode,
        round,
        is_second,
    };
    go(head, Stage::Submitting(submission), Command::Submit(mode))
}

// Whether a request is passed on though its method is for the node.
fn goes_beside(head: RequestHead, found: Lookup) -> bool
    ensures { result ≡ goes_beside head found found.choice }
{
    match found.choice {
        Choice::Ask(mode) => {
            matches!(head.method, Method::Get)
                && found.is_long
                && (is_private(mode) || (is_shared(mode) && !found.is_stored))
        }
        Choice::Refuse(status) => {
            matches!(head.method, Method::Head) && head.has_passage && status == 501
        }
    }
}

// The mode in which a request is submitted.
fn beside(is_overtaken: bool, mode: Mode) -> Mode
    ensures { result ≡ beside is_overtaken mode }
{
    match mode {
        Mode::Shared => {
            if is_overtaken {
                Mode::Private
            } else {
                Mode::Shared
            }
        }
        Mode::Cached | Mode::Private => mode,
    }
}

fn ask(head: RequestHead, found: Lookup, round: Round, mode: Mode) -> Step
    ensures { shown result ≡ asks head found round mode }
{
    if is_private(mode) && !found.is_stored && found.is_third_part {
        let submission = Submission {
            mode: Mode::Private,
            round,
            is_second: false,
        };
        let stage = Stage::Submitting(submission);
        return go_by_two(
            head,
            stage,
            Command::FetchForAll,
            Command::Submit(Mode::Private),
        );
    }
    submit(head, round, false, beside(found.is_overtaken, mode))
}

fn ask_unless_barred(head: RequestHead, found: Lookup, round: Round, mode: Mode) -> Step
    ensures { shown result ≡ unless_barred head (bar_of found.has_come_back found.is_barred) (asks head found round mode) }
{
    match bar_of(found.has_come_back, found.is_barred) {
        Some(status) => own(head, status),
        None => ask(head, found, round, mode),
    }
}

// Asks for a request, unless its own fields would be sent on and can't be.
fn ask_with_fields(head: RequestHead, found: Lookup, round: Round, mode: Mode) -> Step
    ensures { shown result ≡ chosen head found round (Ask mode) }
{
    if is_private(beside(found.is_overtaken, mode)) && head.has_many_options {
        own(head, 400)
    } else {
        ask_unless_barred(head, found, round, mode)
    }
}

fn stale_unless_barred(head: RequestHead, found: Lookup) -> Step
    ensures { shown result ≡ unless_barred head (bar_of found.has_come_back found.is_barred) (gives head Answer.Stale) }
{
    match bar_of(found.has_come_back, found.is_barred) {
        Some(status) => own(head, status),
        None => give(head, Answer::Stale),
    }
}

fn choose(head: RequestHead, found: Lookup, round: Round) -> Step
    ensures { shown result ≡ chosen head found round found.choice }
{
    match found.choice {
        Choice::Ask(mode) => ask_with_fields(head, found, round, mode),
        Choice::Refuse(status) => {
            if found.has_accepted_stale {
                stale_unless_barred(head, found)
            } else {
                own(head, status)
            }
        }
    }
}

fn found_under(head: RequestHead, lookup: Lookup, round: Round) -> Step
    ensures { shown result ≡ found_under head lookup round (fault_of lookup.target) }
{
    if let Some(status) = fault_of(lookup.target) {
        return own(head, status);
    }
    if is_first(round) && goes_beside(head, lookup) {
        go(head, Stage::Routing, Command::Route)
    } else {
        choose(head, lookup, round)
    }
}

/// What the node is asked has been found.
pub(crate) fn found(head: RequestHead, lookup: Lookup, stage: Stage) -> Step
    ensures { shown result ≡ found head lookup stage }
{
    match stage {
        Stage::LookingUp(round) => found_under(head, lookup, round),
        _ => stay(head, stage),
    }
}
