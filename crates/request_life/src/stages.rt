//! The stages of a request's life.
use crate::facts::RequestHead;
use fair_use::Upload;
use node_terms::Mode;

/// Which time a request is handed in.
#[derive(Clone, Copy)]
pub enum Round {
    First,
    /// Once more, since the fetch that it waited for was ended for want of clients.
    Anew,
}

/// A request that is being submitted to the node.
#[derive(Clone, Copy)]
pub struct Submission {
    pub mode: Mode,
    pub round: Round,
    /// Whether it was submitted before in this round.
    pub is_second: bool,
}

/// Whose fetch a request waits for.
#[derive(Clone, Copy)]
pub enum Share {
    /// One for all that it has begun.
    Began,
    /// One that another request has begun.
    Joined,
    /// One of its own.
    Alone,
}

/// A request that the node has waiting.
#[derive(Clone, Copy)]
pub struct Wait {
    pub mode: Mode,
    pub share: Share,
    pub round: Round,
    /// Whether it was submitted twice in this round.
    pub is_second: bool,
}

/// How far the content of a request has come that is passed on.
#[derive(Clone, Copy)]
pub enum Content {
    /// Its client has not sent all of it.
    Coming,
    /// Its client has sent all of it, or it has none, but not all of the request was sent to its server.
    Read,
    /// All of the request was sent to its server.
    Sent,
}

/// How far a request has come.
#[derive(Clone, Copy)]
pub enum Stage {
    /// Its head has not come.
    Receiving,
    /// Its content is collected.
    Collecting,
    /// What the node is asked is found out.
    LookingUp(Round),
    /// It is submitted to the node, which has not said whether it takes it.
    Submitting(Submission),
    /// As `Submitting`, but its client has left.
    Leaving,
    /// The node has it waiting.
    Waiting(Wait),
    /// Where it is passed on to is found out.
    Routing,
    /// It was passed on, and nothing of an answer has come.
    Passing(Content),
    /// As `Passing`, but its client has left before there was an answer. What its server says is awaited still, since it may have changed
    /// something. `Broken` until all of it was sent.
    Parting(Upload),
    /// As `Passing`, but its client has broken its content, and is given a status of the proxy's own. What its server says is awaited still.
    Breaking,
    /// As `Breaking`, but its answer is over.
    BrokenOff,
    /// Where its tunnel leads is found out.
    Aiming,
    /// Its tunnel is opened.
    Opening,
    /// An answer is being given.
    Giving,
    /// It was answered, and is over.
    Ended,
    /// Its client has left before there was an answer.
    Left,
}

/// A request, and how far it has come.
#[derive(Clone, Copy)]
pub struct Life {
    pub head: RequestHead,
    pub stage: Stage,
}
