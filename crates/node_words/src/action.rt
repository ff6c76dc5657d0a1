//! Actions: what the node asks its caller to do.
ghost use Rattle.std.specs.Prelude.{◌≡◌, IfOk};

use crate::NoMemory;
use filter_slots::{End, Socket};
use object_store::SharedObject;
use peer_select::Source;
use std::alloc::Global;
use std::marker::Model;
use std::sync::Arc;

/// Reference-counted octets. Contracts see the octets.
#[derive(Drop)]
pub struct SharedOctets {
    octets: Arc<Vec<u8>>,
}

impl Model for SharedOctets {
    ghost use Rattle.std.specs.Prelude.{List, ℕ};
    ghost use Rattle.std.specs.Arc.{arc_value};

    ghost Value = { List ℕ };

    ghost view = { λ s. (arc_value s.octets).items };
}

impl SharedOctets {
    /// Wraps the octets, with one owner. Errors: out of memory.
    pub fn new(alloc: Global, octets: Vec<u8>) -> Result<SharedOctets, NoMemory>
        ensures { IfOk result (λ shared. shared ≡ octets.items) }
    {
        Ok(SharedOctets {
            octets: Arc::new(alloc, octets)?,
        })
    }

    /// Adds an owner. Does not allocate. Errors: too many owners.
    pub fn share(&self) -> Result<SharedOctets, NoMemory>
        ensures { IfOk result (λ shared. shared ≡ self.now) }
    {
        Ok(SharedOctets {
            octets: Arc::try_clone(&self.octets)?,
        })
    }

    /// The octets.
    pub fn as_slice(&self) -> &[u8]
        ensures { result.now ≡ self.now }
    {
        self.octets.as_slice()
    }
}

/// The octets of a payload: its own, or reference-counted ones that several payloads share.
#[derive(Drop)]
pub enum Owned {
    Alone(Vec<u8>),
    InCommon(SharedOctets),
}

/// The octets of a datagram to send.
#[derive(Drop)]
pub struct Payload {
    octets: Owned,
}

impl Model for Payload {
    ghost use Rattle.std.specs.Prelude.{List, ℕ};
    ghost use Rattle.node_words.specs.Payloads.{payload_octets};

    ghost Value = { List ℕ };

    ghost view = { λ p. payload_octets p.octets };
}

impl Payload {
    /// A payload that owns these octets.
    pub fn new(octets: Vec<u8>) -> Payload
        ensures { result ≡ octets.items }
    {
        Payload {
            octets: Owned::Alone(octets),
        }
    }

    /// A payload that shares these octets with others. Does not allocate. Errors: too many owners.
    pub fn of(octets: &SharedOctets) -> Result<Payload, NoMemory>
        ensures { IfOk result (λ payload. payload ≡ octets.now) }
    {
        let octets = octets.share()?;
        Ok(Payload {
            octets: Owned::InCommon(octets),
        })
    }

    /// The octets.
    pub fn as_slice(&self) -> &[u8]
        ensures { result.now ≡ self.now }
    {
        match &self.octets {
            Owned::Alone(octets) => octets.as_slice(),
            Owned::InCommon(octets) => octets.as_slice(),
        }
    }
}

/// The answer to a client.
#[derive(Drop)]
pub enum Answer {
    /// A stored object, with its age in seconds.
    Hit { object: SharedObject, age: u32 },
    /// An object that was fetched.
    Got(SharedObject),
    /// No object: the HTTP status to answer.
    Fail(u16),
}

/// Actions: what the node asks its caller to do.
#[derive(Drop)]
pub enum Action {
    /// Send a datagram from the node's own address and port of this socket.
    Send {
        socket: Socket,
        to: End,
        payload: Payload,
    },
    /// Fetch the key of a pending fetch from a source, and report the outcome with this attempt number. `owner` is the client
    /// of a private fetch, and `None` for a shared one.
    Fetch {
        fetch: u32,
        attempt: u16,
        source: Source,
        only_if_cached: bool,
        owner: Option<u64>,
    },
    /// Answer a client.
    Serve {
        client: u64,
        answer: Answer,
    },
}
