//! Configured neighbours.

ghost use Rattle.std.specs.Prelude.{◌≡◌, IfOk};

use crate::octets::Octets;
use node_terms::{End, Socket};
use std::alloc::{AllocError, Global};

/// Relation of a neighbour to this cache.
#[derive(Clone, Copy, Debug, PartialEq, Eq)]
pub enum Role {
    /// Serves only objects that it has stored.
    Sibling,
    /// Also fetches objects that it has not stored.
    Parent,
}

/// A configured neighbour: the address and port to query and the protocol to use, its HTTP port, its weight (1 to 100 in a
/// table), and the name of the key that signs messages to and from it, if any.
#[derive(Debug, Drop)]
pub struct Neighbour {
    pub kind: Role,
    pub protocol: Socket,
    pub end: End,
    pub http_port: u16,
    pub weight: u32,
    pub key: Option<Octets>,
}

impl Neighbour {
    /// An owned copy.
    pub fn copy(&self, alloc: Global) -> Result<Neighbour, AllocError>
        ensures { IfOk result (λ neighbour. neighbour ≡ self.now) }
    {
        let key = copy_of(&self.key, alloc)?;
        Ok(Neighbour {
            kind: self.kind,
            protocol: self.protocol,
            end: self.end,
            http_port: self.http_port,
            weight: self.weight,
            key,
        })
    }
}

fn copy_of(key: &Option<Octets>, alloc: Global) -> Result<Option<Octets>, AllocError>
    ensures { IfOk result (λ copy. copy ≡ key.now) }
{
    match key {
        None => Ok(None),
        Some(name) => Ok(Some(name.copy(alloc)?)),
    }
}
