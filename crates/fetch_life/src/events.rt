//! What happens to a fetch.
use crate::facts::{Addresses, Failure, Order, Page};

/// The head of an answer.
#[derive(Clone, Copy)]
pub struct Head {
    pub status: u16,
    /// Whether its content is announced to be so long that it is given while it is collected.
    pub is_long: bool,
}

/// What happens to a fetch.
#[derive(Clone, Copy)]
pub enum Event {
    /// The node orders it.
    Ordered(Order),
    /// The addresses of its server are known.
    Addressed(Addresses),
    /// A new connection is there.
    Connected,
    /// The head of an answer has come.
    Began(Head),
    /// A complete answer has come.
    Whole(Page),
    /// It has failed at what it was about to do, or its time is over.
    Failed(Failure),
    /// It is for all, its last client has gone, and it is to end (`fair_use::ends_unwanted`, `is_alone_too_long`). Whether one waits for it again
    /// by now.
    Unwanted(bool),
    /// The lock of changes is held, and what is being fetched was changed meanwhile or not.
    Locked(bool),
}
