//! The stages of a fetch.
use crate::commands::Which;
use crate::facts::{End, Source};

/// What stays of an order.
#[derive(Clone, Copy)]
pub struct Flight {
    pub source: Source,
    pub is_shared: bool,
    /// Whether its request has the conditions of an object that is there.
    pub is_asking: bool,
    pub has_shelf: bool,
    pub is_streamed: bool,
}

/// Which address has its turn.
#[derive(Clone, Copy)]
pub struct Reach {
    pub at: Which,
    /// Whether the other one has its turn yet.
    pub has_other: bool,
}

/// An exchange with a server.
#[derive(Clone, Copy)]
pub struct Exchange {
    pub reach: Reach,
    /// Whether its connection was used before.
    pub is_reused: bool,
    /// Whether its answer was offered to who began the fetch.
    pub is_offered: bool,
}

/// A result that is handed in.
#[derive(Clone, Copy)]
pub struct Landing {
    pub end: End,
    /// Whether it was made anew, after a change.
    pub is_remade: bool,
}

/// How far a fetch has come.
#[derive(Clone, Copy)]
pub enum Stage {
    /// It is not ordered.
    Ordering,
    /// It was ended for want of clients, and is ordered anew, since one waits for it again.
    Renewing,
    /// The addresses of its server are looked up.
    Seeking,
    /// A server is connected to.
    Connecting(Reach),
    /// Its request was sent.
    Exchanging(Exchange),
    /// Its result is made, and waits for the lock of changes.
    Landing(Landing),
    /// It was handed in.
    Over,
}

/// A fetch, and how far it has come.
#[derive(Clone, Copy)]
pub struct Fetch {
    pub flight: Flight,
    pub stage: Stage,
}
