//! What happens to a request.
use crate::commands::Shape;
use crate::facts::{Lookup, Passage, RequestHead, TunnelTarget};

/// How the content of a request ended that is collected.
#[derive(Clone, Copy)]
pub enum ContentEnd {
    Whole,
    TooLong,
    Broken,
}

/// The node has taken a request.
#[derive(Clone, Copy)]
pub struct Acceptance {
    /// Whether it has joined a fetch that another request began.
    pub has_joined: bool,
    /// Whether something stale is there that may be given while its origin is asked (RFC 5861, section 3), or that the client accepts.
    pub has_stale: bool,
    /// Whether answers of its URL can't be stored, as the last one was not, so that who joins a fetch of it is better fetched for alone.
    pub is_kept_out: bool,
}

/// The node has a stored object.
#[derive(Clone, Copy)]
pub struct Hit {
    /// Whether the request accepts an object of this age and life (`http_rules::accepts`), as it is given.
    pub is_accepted: bool,
    /// What of it answers the request (`http_rules::answer_to`).
    pub shape: Shape,
}

/// A fetch has brought an object.
#[derive(Clone, Copy)]
pub struct Fetched {
    /// Whether it may be stored.
    pub is_kept: bool,
    /// Whether it was there before and is given in place of an error.
    pub is_stale: bool,
    pub shape: Shape,
}

/// The node has no answer.
#[derive(Clone, Copy)]
pub struct Failure {
    pub status: u16,
    /// Whether the answer is too long to be stored, and such answers are passed on.
    pub is_long: bool,
}

/// What the node answers.
#[derive(Clone, Copy)]
pub enum Outcome {
    Hit(Hit),
    Fetched(Fetched),
    /// The answer is being collected. The node has the client waiting still.
    Early,
    Failed(Failure),
    /// There is none, since its fetch was ended for want of clients.
    Again,
    /// Its answer never comes.
    Lost,
}

/// The head of the answer to a request that was passed on.
#[derive(Clone, Copy)]
pub struct PassedHead {
    pub status: u16,
    /// Whether its Connection fields have too many options.
    pub has_many_options: bool,
}

/// What came of a request that was passed on.
#[derive(Clone, Copy)]
pub enum PassedEnd {
    Head(PassedHead),
    /// The server is not admitted, and was not connected to.
    Refused,
    /// No answer came in time.
    TimedOut,
    /// No answer came.
    Failed,
}

/// What came of opening a tunnel.
#[derive(Clone, Copy)]
pub enum TunnelEnd {
    Opened,
    /// It is not open; the status to answer.
    Refused(u16),
}

/// What happens to a request.
#[derive(Clone, Copy)]
pub enum Event {
    /// Its head has come.
    Received(RequestHead),
    /// Its content has ended that is collected.
    Collected(ContentEnd),
    /// What `Command::LookUp` asks for.
    Found(Lookup),
    /// The node has taken it.
    Accepted(Acceptance),
    /// The node has not taken it. Whether something stale is there that may be given in place of that answer (RFC 5861, section 4).
    Declined(bool),
    /// The node answers.
    Answered(Outcome),
    /// What `Command::Route` asks for.
    Routed(Passage),
    /// The server answers that it was passed on to.
    Passed(PassedEnd),
    /// All of its content has come of its client that is passed on.
    Read,
    /// All of it was sent to the server that it is passed on to.
    Sent,
    /// Its client has broken its content that is passed on.
    UploadBroken,
    /// Its client has gone, and what its server says was waited for for five seconds.
    Expired,
    /// What `Command::Aim` asks for.
    Aimed(TunnelTarget),
    /// Its tunnel is open, or not.
    Tunnelled(TunnelEnd),
    /// The client has closed its connection.
    Left,
    /// The answer was handed to the connection, or was cut.
    Finished,
}
