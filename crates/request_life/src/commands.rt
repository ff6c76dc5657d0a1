//! What is done for a request.
ghost use Rattle.std.specs.Prelude.{◌≡◌, ◌∷◌, [], List};
ghost use Rattle.request_life.specs.Table.{goes, stay, shown};

use crate::facts::RequestHead;
use crate::stages::{Life, Stage};
use node_terms::Mode;

/// What of an object answers a request (RFC 9110, sections 13 and 14).
#[derive(Clone, Copy, PartialEq, Eq)]
pub enum Shape {
    Whole,
    NotModified,
    Part,
    Unsatisfiable,
}

/// An answer.
#[derive(Clone, Copy, PartialEq, Eq)]
pub enum Answer {
    /// A stored object.
    Hit(Shape),
    /// A fetched object.
    Fetched(Shape),
    /// What is stale.
    Stale,
    /// What is being collected.
    Early,
    /// The answer of the server that the request was passed on to.
    Passed,
    /// The tunnel is open.
    Tunnel,
    /// A status of the proxy's own.
    Own(u16),
}

/// An answer, and whether it is its connection's last.
#[derive(Clone, Copy, PartialEq, Eq)]
pub struct Given {
    pub answer: Answer,
    pub is_last: bool,
}

/// What is taken out of the store (RFC 9111, section 4.4).
#[derive(Clone, Copy, PartialEq, Eq)]
pub enum Changed {
    /// What the head of the answer says that the request has changed (`http_rules::changed_keys`).
    ByAnswer,
    /// What is under the request's own target: it may have been changed, and nobody knows.
    Target,
}

/// What is to be done.
#[derive(Clone, Copy, PartialEq, Eq)]
pub enum Command {
    /// Collect its content.
    Collect,
    /// Find out what the node is asked (`Event::Found`).
    LookUp,
    /// Submit it to the node, once again with `Private`.
    Submit(Mode),
    /// Submit to the node that its client does not wait any more.
    Withdraw,
    /// Fetch what is under its key for all.
    FetchForAll,
    /// Give its client the answer while that is collected.
    Stream,
    /// Find out where it is passed on to (`Event::Routed`).
    Route,
    PassOn,
    /// End what was passed on, if it has not ended, or the opening of a tunnel.
    Cancel,
    /// Find out where its tunnel leads (`Event::Aimed`).
    Aim,
    OpenTunnel,
    Give(Given),
    TakeOut(Changed),
    /// Write its line into the access log.
    Record,
}

/// At most two commands, in this order.
#[derive(Clone, Copy, PartialEq, Eq)]
pub struct Commands {
    pub first: Option<Command>,
    pub second: Option<Command>,
}

/// A step of a life: what comes then, and what is to be done.
#[derive(Clone, Copy)]
pub struct Step {
    pub life: Life,
    pub commands: Commands,
}

/// Nothing is done.
pub(crate) fn stay(head: RequestHead, stage: Stage) -> Step
    ensures { shown result ≡ stay head stage }
{
    Step {
        life: Life { head, stage },
        commands: Commands {
            first: None,
            second: None,
        },
    }
}

/// One thing is done.
pub(crate) fn go(head: RequestHead, stage: Stage, first: Command) -> Step
    ensures { shown result ≡ goes head stage (first ∷ []) }
{
    Step {
        life: Life { head, stage },
        commands: Commands {
            first: Some(first),
            second: None,
        },
    }
}

/// Two things are done.
pub(crate) fn go_by_two(head: RequestHead, stage: Stage, first: Command, second: Command) -> Step
    ensures { shown result ≡ goes head stage (first ∷ second ∷ []) }
{
    Step {
        life: Life { head, stage },
        commands: Commands {
            first: Some(first),
            second: Some(second),
        },
    }
}
