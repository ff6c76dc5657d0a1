//! What is asked of other servers, and of which.
ghost use Rattle.std.specs.Prelude.{◌≡◌, IfSome};

use crate::addressing::{Destination, Peer, origin_of, peer_of};
use crate::clock::date_seconds;
use crate::fields::add_field;
use crate::mailbox::Field;
use crate::objects::{add_ours, via};
use filter_slots::End;
use http_rules::{AdmittedOrigin, OriginRules, SixEnd, conditions_for};
use http_traffic::Early;
use httpdate::HttpDate;
use object_store::{CacheKey, SharedObject};
use peer_select::Source;
use std::alloc::{AllocError, Global};
use std::net::SocketAddr;
use std::sync::{Mutex, Wait};
use std::time::{Clock, Duration, Instant};

/// What is asked of other servers, and of which.
pub struct Outward {
    /// The name of this cache.
    pub name: String,
    /// The element of CDN-Loop that marks what this cache has sent (RFC 8586).
    pub loop_mark: Vec<u8>,
    /// Which servers may be fetched from as origins. Locked while one server is judged.
    pub origins: Mutex<OriginRules>,
    /// The neighbours, in the order of the configuration.
    pub peers: Vec<Peer>,
    /// Time limit of a fetch.
    pub fetching: Duration,
    /// The fields of each shared fetch.
    pub shared_fields: Vec<Field>,
}

// Written by hand, so that what lets it go is one call for the prover (docs/GATE.md).
impl Drop for Outward {
    fn drop(self) {
        let Self {
            name: _,
            loop_mark: _,
            origins: _,
            peers: _,
            fetching: _,
            shared_fields: _,
        } = self;
    }
}

impl Outward {
    /// When the time of a fetch ends that began then. `None` if the clock could not be read.
    pub fn deadline(&self, began: Option<Instant>) -> Option<Instant> {
        began?.checked_add(self.fetching)
    }

    /// The destination of a fetch of `key` from `source`.
    pub fn destination(
        &self,
        alloc: Global,
        source: Source,
        key: &CacheKey,
    ) -> Option<Destination> {
        match source {
            Source::Origin => origin_of(alloc, key),
            Source::Peer(place) => peer_of(alloc, key, *self.peers.get(place)?),
        }
    }

    /// Adds the conditions of the object that is asked about, `only-if-cached` for a sibling, and CDN-Loop and Via of this cache.
    pub fn add_further(
        &self,
        alloc: Global,
        only_if_cached: bool,
        asked: Option<&SharedObject>,
        fields: &mut Vec<Field>,
    ) -> Result<(), AllocError> {
        if let Some(object) = asked {
            for field in conditions_for(alloc, object.get().head())? {
                fields.push(field)?;
            }
        }
        if only_if_cached {
            add_field(alloc, fields, b"cache-control", b"only-if-cached")?;
        }
        self.add_marks(alloc, fields)
    }

    /// Adds the fields of all shared fetches.
    pub fn add_shared(&self, alloc: Global, fields: &mut Vec<Field>) -> Result<(), AllocError> {
        for (name, value) in &self.shared_fields {
            add_field(alloc, fields, name.as_slice(), value.as_slice())?;
        }
        Ok(())
    }

    /// Adds CDN-Loop and Via of this cache. Errors: out of memory.
    pub fn add_marks(&self, alloc: Global, fields: &mut Vec<Field>) -> Result<(), AllocError> {
        add_field(alloc, fields, b"cdn-loop", self.loop_mark.as_slice())?;
        Ok(fields.push(via(alloc, self.name.as_bytes())?)?)
    }

    /// An answer with the fields that its object has. `None` if the date is out of range, or if out of memory.
    pub fn whole_head<R: Clock>(&self, rt: &R, alloc: Global, early: Early) -> Option<Box<Early>> {
        let mut early = early;
        match self.add_date(rt, alloc, &mut early.fields) {
            Some(()) => Box::new(alloc, early).ok(),
            None => {
                drop(early);
                None
            }
        }
    }

    // Adds the fields that an object has of this cache. `None` if the date is out of range, or if out of memory.
    fn add_date<R: Clock>(&self, rt: &R, alloc: Global, fields: &mut Vec<Field>) -> Option<()> {
        let date = HttpDate::from_unix_secs(date_seconds(rt)).ok()?.to_bytes();
        add_ours(alloc, fields, self.name.as_bytes(), date.as_slice()).ok()
    }

    /// This server, if it may be fetched from as an origin.
    pub fn admitted<R: Wait>(&self, rt: &R, server: SocketAddr) -> Option<AdmittedOrigin>
        ensures same { IfSome result (λ it. it.server ≡ server) }
    {
        self.origins.lock(rt).admitted(server)
    }

    /// Whether a server that a request names by its address is not fetched from as an origin.
    pub fn refuses<R: Wait>(&self, rt: &R, server: SocketAddr) -> bool {
        self.origins.lock(rt).refuses(server)
    }

    /// Adds a bound socket of this cache, which is never fetched from. Errors: out of memory.
    pub fn add_own<R: Wait>(&self, rt: &R, end: End) -> Result<(), AllocError> {
        self.origins.lock(rt).add_own(end)
    }

    /// Notes the bound socket of this cache at an address of IPv6, which is never fetched from.
    pub fn note_own_six<R: Wait>(&self, rt: &R, end: SixEnd) {
        self.origins.lock(rt).note_own_six(end);
    }
}
