//! The node's answers that wait for those of the capture, and the answers that differ.

use crate::answer::Kind;
use bpf_run::{End, Socket};
use std::alloc::{AllocError, Global};
use std::collections::VecDeque;

/// The most answers of the node that wait at a time; with 65,507 octets each, 64 MiB.
pub(crate) const MOST_WAITING: usize = 1_024;

/// The most answers of a kind that are shown.
pub const MOST_SHOWN: usize = 10;

/// An answer of the node, or of the capture, or one of each to the same request.
#[derive(Drop)]
pub struct Shown {
    /// The number of a record in the file, from 1: of the captured answer, or of the request that the node alone answers.
    pub record: u64,
    /// The moment of that record, in milliseconds.
    pub moment: u64,
    pub socket: Socket,
    /// Where it goes.
    pub peer: End,
    /// The node's octets, if it answers.
    pub node: Option<Vec<u8>>,
    /// The captured octets, if there are any.
    pub captured: Option<Vec<u8>>,
}

/// The first answers of each kind that differ.
#[derive(Drop)]
pub struct Samples {
    pub alike: Vec<Shown>,
    pub other: Vec<Shown>,
    pub capture_alone: Vec<Shown>,
    pub node_alone: Vec<Shown>,
}

/// An answer of the node that waits for that of the capture.
#[derive(Drop)]
pub(crate) struct Waiting {
    pub(crate) socket: Socket,
    pub(crate) to: End,
    /// The number of the request.
    pub(crate) number: u32,
    /// The number of the request's record, and its moment.
    pub(crate) record: u64,
    pub(crate) moment: u64,
    pub(crate) octets: Vec<u8>,
}

/// The answers of the node that wait, the oldest first.
#[derive(Drop)]
pub(crate) struct Queue {
    waiting: VecDeque<Waiting>,
}

impl Samples {
    /// None so far.
    pub(crate) fn new(alloc: Global) -> Samples {
        Samples {
            alike: Vec::new(alloc),
            other: Vec::new(alloc),
            capture_alone: Vec::new(alloc),
            node_alone: Vec::new(alloc),
        }
    }

    /// Keeps one of this kind, unless there are ten already, or the kind is that of equal answers. Errors: out of memory.
    pub(crate) fn keep(&mut self, kind: Kind, shown: Shown) -> Result<(), AllocError> {
        let kept = match kind {
            Kind::Equal => return Ok(()),
            Kind::Alike => &mut self.alike,
            Kind::Other => &mut self.other,
            Kind::CaptureAlone => &mut self.capture_alone,
            Kind::NodeAlone => &mut self.node_alone,
        };
        if kept.len() < MOST_SHOWN {
            kept.push(shown)?;
        }
        Ok(())
    }
}

impl Queue {
    /// None waits.
    pub(crate) fn new(alloc: Global) -> Queue {
        Queue {
            waiting: VecDeque::new(alloc),
        }
    }

    /// Whether there is no room for one more.
    pub(crate) fn is_full(&self) -> bool {
        self.waiting.len() >= MOST_WAITING
    }

    /// Adds one. Errors: out of memory.
    pub(crate) fn push(&mut self, waiting: Waiting) -> Result<(), AllocError> {
        self.waiting.push_back(waiting)?;
        Ok(())
    }

    /// Takes the oldest.
    pub(crate) fn oldest(&mut self) -> Option<Waiting> {
        self.waiting.pop_front()
    }

    /// Takes the oldest that goes from this socket to this end with this number.
    pub(crate) fn take(&mut self, socket: Socket, to: End, number: u32) -> Option<Waiting> {
        let place = self.waiting.iter().position(|one| one.socket == socket
            && one.to == to
            && one.number == number)?;
        self.waiting.remove(place)
    }
}
