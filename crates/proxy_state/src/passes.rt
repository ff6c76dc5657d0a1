//! What passes the proxy without the node: requests that are passed on as they are, answers that are too long to be stored, and
//! tunnels. The rules of this, and how many are under way.
ghost use Rattle.std.specs.Prelude.{◌≡◌, IfSome, false, true};
ghost use Rattle.std.specs.String.{string_bytes};
ghost use Rattle.http_rules.specs.Destinations.{IsDestination};

use crate::addressing::{Destination, Peer, origin_of, peer_of};
use crate::storage::Purger;
use filter_slots::End;
use http_rules::{AdmittedOrigin, OriginRules, SixEnd};
use http_traffic::{PassedMethod, Ticket};
use lru::LruCache;
use object_store::{CacheKey, KeyHashes};
use server_connections::ServerConnections;
use std::alloc::{AllocError, Global};
use std::net::SocketAddr;
use std::sync::atomic::{AtomicUsize, Ordering};
use std::sync::{Arc, Mutex, Wait};
use std::time::{Clock, Duration, Instant};

/// The most URLs of which it is known that their answers are too long to be stored.
const LARGE_KEYS: usize = 1_024;

/// For how many seconds that is known.
const LARGE_SECONDS: u64 = 60;

/// URLs whose answers were too long to be stored a short time ago.
pub struct LargeKeys {
    // Until when this is known of each, the ones that were noted last before the others.
    until: LruCache<CacheKey, Instant, KeyHashes>,
}

// Written by hand, so that what lets it go is one call for the prover (docs/GATE.md).
impl Drop for LargeKeys {
    fn drop(self) {
        let Self { until: _until } = self;
    }
}

impl LargeKeys {
    /// None yet; keys are hashed so. Errors: out of memory.
    pub fn new(alloc: Global, hashes: KeyHashes) -> Result<LargeKeys, AllocError> {
        Ok(LargeKeys {
            until: LruCache::unbounded_with_hasher(alloc, hashes)?,
        })
    }

    /// Notes that the answer of this URL is too long. Of 1,024 others the one that was noted first is forgotten. Where memory is
    /// short, nothing is noted.
    fn note(&mut self, now: Instant, key: CacheKey) {
        let Some(end) = now.checked_add(Duration::from_secs(LARGE_SECONDS)) else {
            drop(key);
            return;
        };
        drop(self.until.put(key, end));
        if self.until.len() > LARGE_KEYS {
            drop(self.until.pop_lru());
        }
    }

    // Whether the answer of this URL is known to be too long.
    fn has(&self, now: Instant, key: &CacheKey) -> bool {
        match self.until.peek(key) {
            Some(end) => now < *end,
            None => false,
        }
    }
}

/// So many at a time, and how many there are.
pub struct Places {
    most: usize,
    taken: Arc<AtomicUsize>,
}

// Written by hand, so that what lets it go is one call for the prover (docs/GATE.md).
impl Drop for Places {
    fn drop(self) {
        let Self { most: _, taken: _ } = self;
    }
}

impl Places {
    /// All of them free. Errors: out of memory.
    pub fn new(alloc: Global, most: u32) -> Result<Places, AllocError> {
        Ok(Places {
            most: most as usize,
            taken: Arc::new(alloc, AtomicUsize::new(0))?,
        })
    }

    /// Takes one, until the ticket is dropped. `None` if all are taken.
    pub fn take(&self) -> Option<Ticket> {
        Ticket::take(&self.taken, self.most)
    }

    /// How many are taken.
    pub fn taken(&self) -> u64 {
        self.taken.load(Ordering::SeqCst) as u64
    }
}

/// Where a request that is passed on goes, and whether that is an origin server.
#[derive(Drop)]
pub struct Onwards {
    pub destination: Destination,
    pub is_origin: bool,
}

impl Onwards {
    /// The same for a request about the server as a whole (RFC 9112, section 3.2.4): an origin is asked with the target `*`. A parent is asked
    /// with the path `/`, since the HTTP library writes no URL without a path. `None` if out of memory.
    pub fn for_server(mut self, alloc: Global) -> Option<Onwards> {
        if self.is_origin {
            self.destination.target = String::from_str(alloc, "*").ok()?;
        }
        Some(self)
    }
}

/// What passes the proxy without the node.
pub struct Passes {
    /// The methods whose requests are passed on.
    pub methods: Vec<PassedMethod>,
    /// The ports that tunnels may lead to.
    pub connect_ports: Vec<u16>,
    /// Whether servers are connected to at addresses of IPv6.
    pub has_six: bool,
    /// Where tunnels may lead to. Locked while one server is judged.
    pub ends: Mutex<OriginRules>,
    /// The URLs whose answers are passed on, as they are too long to be stored; `None` if such answers are refused. Locked to note one
    /// or to look for one.
    pub large: Option<Mutex<LargeKeys>>,
    /// Requests that are passed on.
    pub streams: Places,
    /// Tunnels.
    pub tunnels: Places,
    /// How long neither side of a request that is passed on may be without an octet.
    pub stream_still: Duration,
    /// How long both sides of a tunnel may be without an octet.
    pub tunnel_still: Duration,
    /// Time to connect the end of a tunnel.
    pub connecting: Duration,
    /// Whether origin servers are connected to; otherwise the parent is.
    pub is_direct: bool,
    /// The first parent of the configuration.
    pub parent: Option<Peer>,
    /// Connections to servers: those of fetches, and of what is passed on, too.
    pub servers: Arc<ServerConnections>,
    /// Takes what requests have changed out of the store whose clients have gone.
    pub purger: Purger,
}

// Written by hand, so that what lets it go is one call for the prover (docs/GATE.md).
impl Drop for Passes {
    fn drop(self) {
        let Self {
            methods: _,
            connect_ports: _,
            has_six: _,
            ends: _,
            large: _,
            streams: _,
            tunnels: _,
            stream_still: _,
            tunnel_still: _,
            connecting: _,
            is_direct: _,
            parent: _,
            servers: _,
            purger: _,
        } = self;
    }
}

impl Passes {
    /// Whether requests are passed on or open tunnels at all.
    pub fn has_any(&self) -> bool {
        !self.methods.is_empty() || !self.connect_ports.is_empty()
    }

    /// Whether requests with this method are passed on.
    pub fn has_method(&self, method: &str) -> bool {
        for passed in &self.methods {
            if passed.name() == method {
                return true;
            }
        }
        false
    }

    /// Whether there are tunnels.
    pub fn has_tunnels(&self) -> bool {
        !self.connect_ports.is_empty()
    }

    /// Whether requests or answers are passed on.
    pub fn has_streams(&self) -> bool {
        !self.methods.is_empty() || self.large.is_some()
    }

    /// Whether a tunnel may lead to this port.
    pub fn has_port(&self, port: u16) -> bool {
        for known in &self.connect_ports {
            if *known == port {
                return true;
            }
        }
        false
    }

    /// This server, if a tunnel may lead to it.
    pub fn admitted<R: Wait>(&self, rt: &R, server: SocketAddr) -> Option<AdmittedOrigin>
        ensures same { IfSome result (λ it. it.server ≡ server) }
    {
        self.ends.lock(rt).admitted(server)
    }

    /// Whether no tunnel may lead to this server, which a request names by its address.
    pub fn refuses<R: Wait>(&self, rt: &R, server: SocketAddr) -> bool {
        self.ends.lock(rt).refuses(server)
    }

    /// Adds a bound socket of this cache, which no tunnel leads to. Errors: out of memory.
    pub fn add_own<R: Wait>(&self, rt: &R, end: End) -> Result<(), AllocError> {
        self.ends.lock(rt).add_own(end)
    }

    /// Notes the socket of this cache at an address of IPv6, which no tunnel leads to.
    pub fn note_own_six<R: Wait>(&self, rt: &R, end: SixEnd) {
        self.ends.lock(rt).note_own_six(end);
    }

    /// Notes that the answer of this URL is too long to be stored.
    pub fn note_large<R: Wait + Clock>(&self, rt: &R, key: CacheKey) {
        let Some(large) = &self.large else {
            drop(key);
            return;
        };
        match Instant::now(rt) {
            Ok(now) => large.lock(rt).note(now, key),
            Err(_) => drop(key),
        }
    }

    /// Whether the answer of this URL is known to be too long to be stored.
    pub fn is_large<R: Wait + Clock>(&self, rt: &R, key: &CacheKey) -> bool {
        let Some(large) = &self.large else {
            return false;
        };
        match Instant::now(rt) {
            Ok(now) => large.lock(rt).has(now, key),
            Err(_) => false,
        }
    }

    /// Where a request for this URL goes that is passed on. `None` if there is nobody to pass it on to, or if out of memory.
    pub fn onwards(&self, alloc: Global, key: &CacheKey) -> Option<Onwards>
        ensures kind { IfSome result (λ onwards. onwards.is_origin ≡ self.now.is_direct) }
        ensures origin { self.now.is_direct ≡ true → IfSome result (λ onwards. IsDestination key.now (string_bytes onwards.destination.name) onwards.destination.port (string_bytes onwards.destination.host) (string_bytes onwards.destination.target)) }
        ensures parent { self.now.is_direct ≡ false → IfSome result (λ onwards. string_bytes onwards.destination.target ≡ key.now) }
    {
        if self.is_direct {
            return Some(Onwards {
                destination: origin_of(alloc, key)?,
                is_origin: true,
            });
        }
        Some(Onwards {
            destination: peer_of(alloc, key, self.parent?)?,
            is_origin: false,
        })
    }
}
