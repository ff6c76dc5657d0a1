//! What is known of a fetch: of its order, of its server, and of what came. The rules of `http_rules` compute it.

/// Whom a fetch asks.
#[derive(Clone, Copy)]
pub enum Source {
    /// An origin server.
    Origin,
    /// A neighbour, which may fetch for it.
    Parent,
    /// A neighbour, which is asked for what it has stored alone.
    Sibling,
}

/// What the node orders, and what is known of it.
#[derive(Clone, Copy)]
pub struct Order {
    pub source: Source,
    /// Whether it is for all clients. A private one is for the client that owns it.
    pub is_shared: bool,
    /// Whether it can be made at all: its key leads to a server, and there are a clock and memory.
    pub is_possible: bool,
    /// Whether nobody waits for it any more, so that it is not to begin.
    pub is_unwanted: bool,
    /// Whether the attempt before it ended for want of clients, or was not begun.
    pub was_unwanted: bool,
    /// Whether objects are kept beside the store, to ask origins about.
    pub has_shelf: bool,
    /// Whether one is there under its key that has a validator and may be asked about.
    pub has_shelved: bool,
    /// Whether the client that owns it lets that be asked about.
    pub lets_validate: bool,
    /// Whether long answers are given to who began their fetch while they are collected.
    pub is_streamed: bool,
}

/// The addresses of a server, of which the rules for origin servers admit some (`http_rules::OriginRules`).
#[derive(Clone, Copy)]
pub struct Addresses {
    pub is_first_admitted: bool,
    pub has_other: bool,
    pub is_other_admitted: bool,
    /// Whether a connection to the first was kept.
    pub is_first_kept: bool,
    /// Whether a connection to the other was kept.
    pub is_other_kept: bool,
}

/// Why an attempt failed.
#[derive(Clone, Copy)]
pub enum Fault {
    /// Its server's name has no address.
    Lookup,
    /// Its server was not connected to.
    Connect,
    /// Its request could not be made.
    Request,
    /// Its connection ended too early.
    Cut,
    /// What came is no answer in HTTP.
    NotHttp,
    /// The head of its answer is too long.
    LargeHead,
    /// The body of its answer is too long.
    TooLarge,
    /// Its time is over.
    Time,
    /// Its time is over, and it waited for room among the octets under way then.
    Room,
    /// Its answer came more slowly than it has to.
    Slow,
    /// The client that owns it has gone.
    Cancelled,
    /// Memory is short.
    NoMemory,
    /// No more files may be opened.
    NoFile,
}

/// An attempt has failed.
#[derive(Clone, Copy)]
pub struct Failure {
    pub fault: Fault,
    /// Whether an octet of an answer has come.
    pub has_answer: bool,
    /// Whether something stale is there that may be given in place of an error (`http_rules::may_serve_stale`).
    pub has_stale: bool,
}

/// A complete answer.
#[derive(Clone, Copy)]
pub struct Page {
    pub status: u16,
    /// Whether a 304 is about the object that was asked about, and can be brought up to date (`http_rules::is_about`, `updated`).
    pub is_about: bool,
    /// Whether what it stands for may be stored, if it is for all (`http_rules::may_keep`, `tells_end`).
    pub may_keep: bool,
    /// Whether its Connection fields hide the rules by which it is kept.
    pub hides_rules: bool,
    /// Whether it is an object: its Connection fields have few names, and there is memory.
    pub is_object: bool,
    /// Whether it could be stored if it was for all.
    pub could_be_kept: bool,
    /// Whether a 304 has other rules than what it is about.
    pub has_other_rules: bool,
    /// Whether something stale is there that may be given in place of an error.
    pub has_stale: bool,
}

/// How an attempt ended.
#[derive(Clone, Copy)]
pub enum End {
    Whole(Page),
    /// No address of the server is admitted; it was not connected to.
    Refused,
    Failed(Failure),
}
