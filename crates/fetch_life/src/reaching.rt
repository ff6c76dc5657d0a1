//! The server of a fetch.
ghost use Rattle.std.specs.Prelude.{◌≡◌};
ghost use Rattle.fetch_life.specs.Table.{addressed, addressed_so, began, began_so, broken_off, connected, connects, failed, is_admitted, is_connect, is_cut, is_sibling, may_first, may_other, not_connected, opposite, request_of, reuses, shown, whole};

use crate::commands::{Command, Request, Step, Which, go, go_by_two, stay};
use crate::events::Head;
use crate::facts::{Addresses, End, Failure, Fault, Page, Source};
use crate::results::{is_origin, land};
use crate::stages::{Exchange, Flight, Reach, Stage};

// The fields of a fetch's request.
fn request_of(flight: Flight) -> Request
    ensures { result ≡ request_of flight }
{
    Request {
        has_clients: !flight.is_shared,
        has_codings: !flight.is_shared && !flight.is_asking,
        has_loop_marks: flight.is_shared,
        has_shared: flight.is_shared,
        has_conditions: flight.is_asking,
        has_only_if_cached: is_sibling(flight.source),
    }
}

fn is_sibling(source: Source) -> bool
    ensures { result ≡ is_sibling source }
{
    matches!(source, Source::Sibling)
}

// Whether an address may be connected to, as the rules for origin servers say.
fn is_admitted(flight: Flight, by_rules: bool) -> bool
    ensures { result ≡ is_admitted flight by_rules }
{
    !is_origin(flight.source) || by_rules
}

fn may_first(flight: Flight, addresses: Addresses) -> bool
    ensures { result ≡ may_first flight addresses }
{
    is_admitted(flight, addresses.is_first_admitted)
}

fn may_other(flight: Flight, addresses: Addresses) -> bool
    ensures { result ≡ may_other flight addresses }
{
    addresses.has_other && is_admitted(flight, addresses.is_other_admitted)
}

// Takes a connection that was kept.
fn reuse(flight: Flight, at: Which, has_other: bool) -> Step
    ensures { shown result ≡ reuses flight at has_other }
{
    let stage = Stage::Exchanging(Exchange {
        reach: Reach { at, has_other },
        is_reused: true,
        is_offered: false,
    });
    go_by_two(
        flight,
        stage,
        Command::Reuse(at),
        Command::Send(request_of(flight)),
    )
}

fn connect(flight: Flight, at: Which, has_other: bool) -> Step
    ensures { shown result ≡ connects flight at has_other }
{
    let stage = Stage::Connecting(Reach { at, has_other });
    go(flight, stage, Command::Connect(at))
}

fn addressed_so(flight: Flight, addresses: Addresses) -> Step
    ensures { shown result ≡ addressed_so flight addresses }
{
    let is_first = may_first(flight, addresses);
    let is_other = may_other(flight, addresses);
    if is_first && addresses.is_first_kept {
        return reuse(flight, Which::First, is_other);
    }
    if is_other && addresses.is_other_kept {
        return reuse(flight, Which::Other, is_first);
    }
    if is_first {
        return connect(flight, Which::First, is_other);
    }
    if is_other {
        connect(flight, Which::Other, false)
    } else {
        land(flight, End::Refused)
    }
}

/// The addresses of the server are known.
pub(crate) fn addressed(flight: Flight, addresses: Addresses, stage: Stage) -> Step
    ensures { shown result ≡ addressed flight addresses stage }
{
    match stage {
        Stage::Seeking => addressed_so(flight, addresses),
        _ => stay(flight, stage),
    }
}

/// A new connection is there.
pub(crate) fn connected(flight: Flight, stage: Stage) -> Step
    ensures { shown result ≡ connected flight stage }
{
    let Stage::Connecting(reach) = stage else {
        return stay(flight, stage);
    };
    let stage = Stage::Exchanging(Exchange {
        reach,
        is_reused: false,
        is_offered: false,
    });
    go(flight, stage, Command::Send(request_of(flight)))
}

fn opposite(which: Which) -> Which
    ensures { result ≡ opposite which }
{
    match which {
        Which::First => Which::Other,
        Which::Other => Which::First,
    }
}

fn is_connect(fault: Fault) -> bool
    ensures { result ≡ is_connect fault }
{
    matches!(fault, Fault::Connect)
}

fn is_cut(fault: Fault) -> bool
    ensures { result ≡ is_cut fault }
{
    matches!(fault, Fault::Cut)
}

fn not_connected(flight: Flight, failure: Failure, reach: Reach) -> Step
    ensures { shown result ≡ not_connected flight failure reach }
{
    if is_connect(failure.fault) && reach.has_other {
        connect(flight, opposite(reach.at), false)
    } else {
        land(flight, End::Failed(failure))
    }
}

fn broken_off(flight: Flight, failure: Failure, exchange: Exchange) -> Step
    ensures { shown result ≡ broken_off flight failure exchange }
{
    let reach = exchange.reach;
    if is_cut(failure.fault) && !failure.has_answer {
        if exchange.is_reused {
            return connect(flight, reach.at, reach.has_other);
        }
        if reach.has_other {
            return connect(flight, opposite(reach.at), false);
        }
    }
    land(flight, End::Failed(failure))
}

/// What was about to be done has failed.
pub(crate) fn failed(flight: Flight, failure: Failure, stage: Stage) -> Step
    ensures { shown result ≡ failed flight failure stage }
{
    match stage {
        Stage::Seeking => land(flight, End::Failed(failure)),
        Stage::Connecting(reach) => not_connected(flight, failure, reach),
        Stage::Exchanging(exchange) => broken_off(flight, failure, exchange),
        _ => stay(flight, stage),
    }
}

fn began_so(flight: Flight, head: Head, exchange: Exchange) -> Step
    ensures { shown result ≡ began_so flight head exchange }
{
    if flight.is_shared
        && flight.is_streamed
        && !exchange.is_offered
        && head.status == 200
        && head.is_long
    {
        let offered = Exchange {
            is_offered: true,
            ..exchange
        };
        go(flight, Stage::Exchanging(offered), Command::Offer)
    } else {
        stay(flight, Stage::Exchanging(exchange))
    }
}

/// The head of an answer has come.
pub(crate) fn began(flight: Flight, head: Head, stage: Stage) -> Step
    ensures { shown result ≡ began flight head stage }
{
    match stage {
        Stage::Exchanging(exchange) => began_so(flight, head, exchange),
        _ => stay(flight, stage),
    }
}

/// A complete answer has come.
pub(crate) fn whole(flight: Flight, page: Page, stage: Stage) -> Step
    ensures { shown result ≡ whole flight page stage }
{
    match stage {
        Stage::Exchanging(_) => land(flight, End::Whole(page)),
        _ => stay(flight, stage),
    }
}
