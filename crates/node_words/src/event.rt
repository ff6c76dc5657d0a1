//! The events that a node takes.
ghost use Rattle.std.specs.Prelude.{◌∷◌, []};
ghost use Rattle.node_words.specs.Happening.{happening};
ghost use Rattle.node_words.specs.Installs.{PutsInAccepted};

use bpf_check::Checked;
use filter_slots::{Datagram, Moment, Slot};
use node_terms::Mode;
use object_store::{CacheKey, SharedObject};
use std::sync::Arc;

/// How an attempt of a fetch ended.
#[derive(Drop)]
pub enum Outcome {
    /// With this object.
    Object(SharedObject),
    /// Without an object.
    Failed,
}

/// An input of the node's state machine. `now` is the event's time in milliseconds, from an origin of the
/// caller's choice.
pub enum Event {
    /// A datagram arrived at a socket.
    Datagram {
        datagram: Arc<Datagram>,
        now: Moment,
    },
    /// A client requests the object of a key.
    Request {
        client: u64,
        key: CacheKey,
        mode: Mode,
        now: Moment,
    },
    /// The clock reached `now`.
    Timer {
        now: Moment,
    },
    /// A fetch attempt ended with this outcome.
    Fetched {
        fetch: u32,
        attempt: u16,
        result: Outcome,
        now: Moment,
    },
    /// A client disconnected.
    Gone {
        client: u64,
    },
    /// The filter of a slot, a socket's or a neighbour's, is replaced, or removed if `program` is `None`. An unknown slot is
    /// ignored.
    Swap {
        slot: Slot,
        program: Option<Arc<Checked>>,
    },
}

// Written by hand, so that what lets an event go is one call for the prover (docs/GATE.md).
impl Drop for Event {
    fn drop(self) {
        match self {
            Event::Datagram {
                datagram: _datagram,
                now: _,
            } => {}
            Event::Request {
                client: _,
                key: _key,
                mode: _,
                now: _,
            } => {}
            Event::Timer { now: _ } => {}
            Event::Fetched {
                fetch: _,
                attempt: _,
                result: _result,
                now: _,
            } => {}
            Event::Gone { client: _ } => {}
            Event::Swap {
                slot: _,
                program: _program,
            } => {}
        }
    }
}

impl Event {
    /// A fact about every event: a program that a swap installs is one that the checker accepts. Changes nothing.
    pub fn facts(&self)
        ensures { PutsInAccepted (happening self.now ∷ []) }
    {
        if let Event::Swap { program, .. } = self {
            if let Some(program) = program {
                let _ = program.insns();
            }
        }
    }
}
