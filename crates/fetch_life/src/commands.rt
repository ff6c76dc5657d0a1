//! What is done for a fetch.
ghost use Rattle.std.specs.Prelude.{◌≡◌, ◌∷◌, []};
ghost use Rattle.fetch_life.specs.Table.{goes, shown, stay};

use crate::stages::{Fetch, Flight, Stage};

/// One of a server's addresses.
#[derive(Clone, Copy, PartialEq, Eq)]
pub enum Which {
    First,
    Other,
}

/// Which fields a request has, beside Host and the marks of this cache.
#[derive(Clone, Copy, PartialEq, Eq)]
pub struct Request {
    /// Those of the client that owns the fetch, but for the ones below.
    pub has_clients: bool,
    /// That client's Accept-Encoding.
    pub has_codings: bool,
    /// CDN-Loop of a client that waits for it (RFC 8586).
    pub has_loop_marks: bool,
    /// Those of all shared fetches.
    pub has_shared: bool,
    /// The conditions of the object that is there (RFC 9111, section 4.3.1).
    pub has_conditions: bool,
    /// `Cache-Control: only-if-cached`.
    pub has_only_if_cached: bool,
}

/// Whom an object comes from.
#[derive(Clone, Copy, PartialEq, Eq)]
pub enum Supplier {
    Origin,
    /// An origin server, which has confirmed what was there.
    Confirmed,
    Neighbour,
    /// Nobody now: it was there before, and is stale.
    Stale,
    /// This cache, which has refused to fetch.
    Nobody,
}

/// An object that a fetch brings.
#[derive(Clone, Copy, PartialEq, Eq)]
pub struct BroughtObject {
    /// Whether it has a life, so that the node stores it.
    pub is_kept: bool,
    pub supplier: Supplier,
}

/// What a fetch brings.
#[derive(Clone, Copy, PartialEq, Eq)]
pub enum Brought {
    Object(BroughtObject),
    /// Nothing: the node has the next source asked.
    Nothing,
    /// Nothing, since nobody waited for it: who waits by then has it begun anew.
    Unwanted,
}

/// How an attempt ended, as it is counted.
#[derive(Clone, Copy, PartialEq, Eq)]
pub enum Count {
    /// With a complete answer.
    Whole,
    /// Without having been connected, as its server is not admitted.
    Refused,
    /// Without a complete answer. Why is told to the operator, too.
    Failed,
    /// For want of clients, or it was not begun.
    Unwanted,
}

/// What is to be done.
#[derive(Clone, Copy, PartialEq, Eq)]
pub enum Command {
    /// Take its order anew (`Event::Ordered`).
    Renew,
    /// Find the addresses of its server.
    Seek,
    /// Connect to an address.
    Connect(Which),
    /// Take the connection to an address that was kept.
    Reuse(Which),
    Send(Request),
    /// Offer the answer to who began the fetch, while it is collected.
    Offer,
    /// Count how it ended.
    Count(Count),
    /// Make what it brings, while no lock is held.
    Make(Brought),
    /// Hold the lock of changes, and look whether it was changed (`Event::Locked`).
    Lock,
    /// Put what it brings on the shelf.
    Shelve,
    /// Take what is under its key off the shelf.
    Unshelve,
    /// Do not ask about what is on the shelf any more.
    AskNoMore,
    /// Note that a client's reload has found something else than was there, which is to be fetched for all.
    NoteChanged,
    /// Hand in what it brings, and let the lock of changes go.
    HandIn(Brought),
}

/// At most four commands, in this order.
#[derive(Clone, Copy, PartialEq, Eq)]
pub struct Commands {
    pub first: Option<Command>,
    pub second: Option<Command>,
    pub third: Option<Command>,
    pub last: Option<Command>,
}

/// A step of a fetch: what comes then, and what is to be done.
#[derive(Clone, Copy)]
pub struct Step {
    pub fetch: Fetch,
    pub commands: Commands,
}

/// Nothing is done.
pub(crate) fn stay(flight: Flight, stage: Stage) -> Step
    ensures { shown result ≡ stay flight stage }
{
    Step {
        fetch: Fetch { flight, stage },
        commands: Commands {
            first: None,
            second: None,
            third: None,
            last: None,
        },
    }
}

/// One thing is done.
pub(crate) fn go(flight: Flight, stage: Stage, first: Command) -> Step
    ensures { shown result ≡ goes flight stage (first ∷ []) }
{
    Step {
        fetch: Fetch { flight, stage },
        commands: Commands {
            first: Some(first),
            second: None,
            third: None,
            last: None,
        },
    }
}

/// Two things are done.
pub(crate) fn go_by_two(flight: Flight, stage: Stage, first: Command, second: Command) -> Step
    ensures { shown result ≡ goes flight stage (first ∷ second ∷ []) }
{
    Step {
        fetch: Fetch { flight, stage },
        commands: Commands {
            first: Some(first),
            second: Some(second),
            third: None,
            last: None,
        },
    }
}

/// Three things are done.
pub(crate) fn go_by_three(
    flight: Flight,
    stage: Stage,
    first: Command,
    second: Command,
    third: Command,
) -> Step
    ensures { shown result ≡ goes flight stage (first ∷ second ∷ third ∷ []) }
{
    Step {
        fetch: Fetch { flight, stage },
        commands: Commands {
            first: Some(first),
            second: Some(second),
            third: Some(third),
            last: None,
        },
    }
}
