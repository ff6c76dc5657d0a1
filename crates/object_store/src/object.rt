//! Fetched objects, and references to them.

ghost use Rattle.std.specs.Prelude.{◌≡◌, IfOk, IfSome, slice_range};
ghost use Rattle.object_store.specs.Object.{HasDigest, head_of, object_of};
ghost use Rattle.object_store.specs.Body.{body_octets};

use crate::digest::object_digest;
use bytes::Bytes;
use std::alloc::{AllocError, Global};
use std::marker::Model;
use std::sync::Arc;

// Bodies shorter than this are not shared: a server over HTTP/1.1 copies shorter pieces into its buffer in any case.
const SHORTEST_SHARED: usize = 128 * 1024;

// The octets of a body.
#[derive(Drop)]
enum Body {
    Own(Vec<u8>),
    // Other owners may have parts of them.
    Shared(Bytes),
}

impl Body {
    // A body of these octets. Where a long one cannot be shared for want of memory, it is not.
    fn new(octets: Vec<u8>) -> Body
        ensures { body_octets result ≡ octets.items }
    {
        if octets.len() < SHORTEST_SHARED {
            return Body::Own(octets);
        }
        match Bytes::from_vec(octets) {
            Ok(octets) => Body::Shared(octets),
            Err(refused) => Body::Own(refused.value),
        }
    }

    #[inline(always)]
    fn as_slice(&self) -> &[u8]
        ensures { result.now ≡ body_octets self.now }
    {
        match self {
            Body::Own(octets) => octets.as_slice(),
            Body::Shared(octets) => octets.as_slice(),
        }
    }

    // The same octets once more, shared if they can be. Errors: out of memory.
    fn copy(&self, alloc: Global) -> Result<Body, AllocError>
        ensures { IfOk result (λ body. body_octets body ≡ body_octets self.now) }
    {
        match self {
            Body::Own(octets) => Ok(Body::Own(octets.as_slice().to_vec(alloc)?)),
            Body::Shared(octets) => Ok(Body::Shared(octets.slice(..)?)),
        }
    }

    // The octets from the place `first` to the one before `end`, without a copy, if that can be.
    fn part(&self, first: usize, end: usize) -> Option<Bytes>
        ensures { IfSome result (λ part. part ≡ slice_range (body_octets self.now) first end) }
    {
        match self {
            Body::Own(_) => None,
            Body::Shared(octets) => part_of(octets, first, end),
        }
    }
}

fn part_of(octets: &Bytes, first: usize, end: usize) -> Option<Bytes>
    ensures { IfSome result (λ part. part ≡ slice_range octets.now first end) }
{
    if first > end || end > octets.len() {
        return None;
    }
    octets.slice(first..end).ok()
}

/// A fetched object: status code, head, body, the received Age in seconds, and the time to live in seconds (`life`; 0 means
/// not to be stored), with a digest of all these.
pub struct Object {
    status: u16,
    head: Vec<(Vec<u8>, Vec<u8>)>,
    body: Body,
    age: u32,
    life: u32,
    digest: [u8; 16],
}

// Written by hand, so that what lets it go is one call for the prover (docs/GATE.md).
impl Drop for Object {
    fn drop(self) {
        let Self {
            status: _,
            head: _,
            body: _,
            age: _,
            life: _,
            digest: _,
        } = self;
    }
}

impl Model for Object {
    ghost use Rattle.object_store.specs.Object.{ObjectFields, HasDigest, head_of};
    ghost use Rattle.object_store.specs.Body.{body_octets};

    ghost Value = { ObjectFields };

    ghost view = { λ o. record { status = o.status; head = head_of o.head.items; body = body_octets o.body; age = o.age; life = o.life; digest = o.digest } };

    ghost invariant = { λ o. HasDigest (record { status = o.status; head = head_of o.head.items; body = body_octets o.body; age = o.age; life = o.life; digest = o.digest }) };
}

impl Object {
    /// Makes an object and computes its digest: the MD5 of status, head, body, age and life in this order. Numbers, and the
    /// length before each list, are 8 octets, big-endian.
    pub fn new(
        status: u16,
        head: Vec<(Vec<u8>, Vec<u8>)>,
        body: Vec<u8>,
        age: u32,
        life: u32,
    ) -> Object
        ensures { result ≡ object_of status (head_of head.items) body.items age life }
    {
        let digest = object_digest(status, &head, &body, age, life);
        Object {
            status,
            head,
            body: Body::new(body),
            age,
            life,
            digest,
        }
    }

    /// The status code.
    #[inline(always)]
    pub fn status(&self) -> u16
        ensures { result ≡ self.now.status }
    {
        self.status
    }

    /// The header fields in order, each a name and a value.
    #[inline(always)]
    pub fn head(&self) -> &[(Vec<u8>, Vec<u8>)]
        ensures { head_of result.now ≡ self.now.head }
    {
        &self.head
    }

    /// The body.
    #[inline(always)]
    pub fn body(&self) -> &[u8]
        ensures { result.now ≡ self.now.body }
    {
        self.body.as_slice()
    }

    /// An object with the same status and body and another head, age and life. The octets of a body of 128 KiB or more are shared. Errors:
    /// out of memory.
    pub fn with_head(
        &self,
        alloc: Global,
        head: Vec<(Vec<u8>, Vec<u8>)>,
        age: u32,
        life: u32,
    ) -> Result<Object, AllocError>
        ensures { IfOk result (λ object. object ≡ object_of self.now.status (head_of head.items) self.now.body age life) }
    {
        let body = self.body.copy(alloc)?;
        let digest = object_digest(self.status, &head, body.as_slice(), age, life);
        Ok(Object {
            status: self.status,
            head,
            body,
            age,
            life,
            digest,
        })
    }

    /// The octets of the body from the place `first` to the one before `end`, counted from 0, without a copy. `None` if the body is
    /// shorter than 128 KiB or has no such places, or if it cannot get one more owner. Allocates nothing.
    pub fn share_body(&self, first: usize, end: usize) -> Option<Bytes>
        ensures { IfSome result (λ part. part ≡ slice_range self.now.body first end) }
    {
        self.body.part(first, end)
    }

    /// The received Age, in seconds.
    #[inline(always)]
    pub fn age(&self) -> u32
        ensures { result ≡ self.now.age }
    {
        self.age
    }

    /// The time to live in the store, in seconds.
    #[inline(always)]
    pub fn life(&self) -> u32
        ensures { result ≡ self.now.life }
    {
        self.life
    }

    /// The MD5 digest of status, head, body, age and life.
    #[inline(always)]
    pub fn digest(&self) -> [u8; 16]
        ensures value { result ≡ self.now.digest }
        ensures of_the_fields { HasDigest self.now }
    {
        self.digest
    }
}

/// A reference-counted object. Contracts see the object.
pub struct SharedObject {
    object: Arc<Object>,
}

// Written by hand, so that what lets it go is one call for the prover (docs/GATE.md).
impl Drop for SharedObject {
    fn drop(self) {
        let Self { object: _ } = self;
    }
}

impl Model for SharedObject {
    ghost use Rattle.std.specs.Arc.{arc_value};
    ghost use Rattle.object_store.specs.Object.{ObjectFields};

    ghost Value = { ObjectFields };

    ghost view = { λ s. arc_value s.object };
}

impl SharedObject {
    /// The first reference. Errors: the allocation failed; the object is dropped.
    pub fn new(alloc: Global, object: Object) -> Result<SharedObject, AllocError>
        ensures { IfOk result (λ shared. shared ≡ object) }
    {
        Ok(SharedObject {
            object: Arc::new(alloc, object)?,
        })
    }

    /// Another reference. Allocates nothing. Errors: the reference count would overflow.
    pub fn share(&self) -> Result<SharedObject, AllocError>
        ensures { IfOk result (λ shared. shared ≡ self.now) }
    {
        Ok(SharedObject {
            object: Arc::try_clone(&self.object)?,
        })
    }

    /// The object.
    #[inline(always)]
    pub fn get(&self) -> &Object
        ensures { result.now ≡ self.now }
    {
        &self.object
    }
}
