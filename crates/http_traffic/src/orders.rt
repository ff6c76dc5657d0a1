//! Fetches and their results.
ghost use Rattle.std.specs.Prelude.{◌≡◌, IfSome};

use crate::addresses::Addresses;
use crate::passing::{Early, LeftChange, Passage};
use futures::channel::oneshot;
use http_header::HeaderMap;
use origin_rules::AdmittedOrigin;
use std::alloc::Global;
use std::net::{IpAddr, Ipv4Addr, Ipv6Addr, SocketAddr};
use std::sync::Arc;
use std::sync::atomic::{AtomicU64, Ordering};
use std::time::Instant;

/// A fetch to be made.
pub struct Order {
    /// The number of the fetch.
    pub fetch: u32,
    /// The number of this attempt of the fetch.
    pub attempt: u16,
    /// The value of the Host field.
    pub host: String,
    /// The request target: path and query for an origin server, the whole URL for a neighbour.
    pub target: String,
    /// The other fields of the request, as names and values.
    pub fields: Vec<(Vec<u8>, Vec<u8>)>,
    /// Whether the server is an origin server, and so has to be admitted; a neighbour is configured.
    pub is_origin: bool,
    /// Whether the client that began the fetch may have the answer while it is collected.
    pub is_early: bool,
    /// The address of the client that began the fetch. `None` if none did.
    pub asker: Option<IpAddr>,
    /// When the fetch times out.
    pub deadline: Instant,
    /// Cancels the fetch when its sender is dropped.
    pub wanted: oneshot::Receiver<()>,
    /// Where is noted how much of the answer has come, if anybody looks at that.
    pub progress: Option<Arc<Progress>>,
}

// Written by hand, so that what lets it go is one call for the prover (docs/GATE.md).
impl Drop for Order {
    fn drop(self) {
        let Self {
            fetch: _,
            attempt: _,
            host: _,
            target: _,
            fields: _,
            is_origin: _,
            is_early: _,
            asker: _,
            deadline: _,
            wanted: _,
            progress: _,
        } = self;
    }
}

/// The parts of an order.
#[derive(Drop)]
pub struct OrderParts {
    pub fetch: u32,
    pub attempt: u16,
    pub host: String,
    pub target: String,
    pub fields: Vec<(Vec<u8>, Vec<u8>)>,
    pub is_origin: bool,
    pub is_early: bool,
    pub asker: Option<IpAddr>,
    pub deadline: Instant,
    pub wanted: oneshot::Receiver<()>,
    pub progress: Option<Arc<Progress>>,
}

impl Order {
    /// Its parts.
    pub fn into_parts(self) -> OrderParts {
        let Self {
            fetch,
            attempt,
            host,
            target,
            fields,
            is_origin,
            is_early,
            asker,
            deadline,
            wanted,
            progress,
        } = self;
        OrderParts {
            fetch,
            attempt,
            host,
            target,
            fields,
            is_origin,
            is_early,
            asker,
            deadline,
            wanted,
            progress,
        }
    }
}

// What stands for a length that is not announced.
const UNANNOUNCED: u64 = u64::MAX;

/// How much of the answer of a fetch has come. Noted by the thread that fetches, and read by others.
pub struct Progress {
    announced: AtomicU64,
    received: AtomicU64,
}

// Written by hand, so that what lets it go is one call for the prover (docs/GATE.md).
impl Drop for Progress {
    fn drop(self) {
        let Self {
            announced: _,
            received: _,
        } = self;
    }
}

impl Progress {
    /// Nothing has come, and no length is announced.
    pub fn new() -> Progress {
        Progress {
            announced: AtomicU64::new(UNANNOUNCED),
            received: AtomicU64::new(0),
        }
    }

    /// Notes that the head of an answer has come, and the length of its content in octets if that is announced.
    pub fn begin(&self, announced: Option<u64>) {
        let length = announced.unwrap_or(UNANNOUNCED);
        self.received.store(0, Ordering::SeqCst);
        self.announced.store(length, Ordering::SeqCst);
    }

    /// Notes that so many octets of the content have come.
    pub fn note(&self, octets: usize) {
        self.received.store(octets as u64, Ordering::SeqCst);
    }

    /// The length of the content in octets, once it is announced.
    pub fn announced(&self) -> Option<u64> {
        let length = self.announced.load(Ordering::SeqCst);
        if length == UNANNOUNCED {
            None
        } else {
            Some(length)
        }
    }

    /// How many octets of the content have come.
    pub fn received(&self) -> u64 {
        self.received.load(Ordering::SeqCst)
    }
}

/// The address that a host has in digits: one of IPv4, or in brackets one of IPv6 (RFC 3986, section 3.2.2).
pub fn address_in_digits(host: &str) -> Option<IpAddr> {
    if let Ok(address) = host.parse::<Ipv4Addr>() {
        return Some(IpAddr::V4(address));
    }
    let address = host.strip_prefix("[")?.strip_suffix("]")?;
    Some(IpAddr::V6(address.parse::<Ipv6Addr>().ok()?))
}

/// The server of an order.
#[derive(Drop)]
pub enum Server {
    /// Its address.
    At(SocketAddr),
    /// Receives its addresses once its name has been looked up. The fetch fails if the sender is dropped.
    Sought(oneshot::Receiver<Addresses>),
}

/// What a fetch thread does.
#[derive(Drop)]
pub enum Work {
    /// It fetches.
    Fetch(Order),
    /// It passes on a request as it is.
    Pass(Passage),
}

/// Something to be done, and the server that it is done with.
pub struct Job {
    pub server: Server,
    pub work: Work,
}

// Written by hand, so that what lets it go is one call for the prover (docs/GATE.md).
impl Drop for Job {
    fn drop(self) {
        let Self { server: _, work: _ } = self;
    }
}

impl Job {
    /// Its server, and what is done.
    pub fn into_parts(self) -> (Server, Work) {
        let Self { server, work } = self;
        (server, work)
    }
}

/// A complete response, as received.
#[derive(Drop)]
pub struct Page {
    pub status: u16,
    pub head: HeaderMap,
    pub body: Vec<u8>,
}

/// Why a fetch failed.
#[derive(Clone, Copy, PartialEq, Eq)]
pub enum FetchFault {
    /// No address was found for the name of the server.
    Lookup,
    /// The server was not connected to: it refuses, or it was not reached within the time to connect.
    Connect,
    /// The request could not be made: a part of it is no valid HTTP, or out of memory.
    Request,
    /// The connection ended or failed before the response was complete, what came is no answer to the request (as a 101), or the
    /// framing of the body is broken.
    Cut,
    /// What came is no head of an HTTP response, or announces a transfer coding other than chunked.
    NotHttp,
    /// The head is longer than it may be, or has too many fields.
    LargeHead,
    /// The body is longer than it may be.
    TooLarge,
    /// It was not complete by its deadline.
    Time,
    /// It was not complete by its deadline, and waited for room among the octets under way then.
    Room,
    /// Its content came slower than it has to.
    Slow,
    /// Nobody wants it any more.
    Cancelled,
    /// Out of memory.
    NoMemory,
    /// The program may open no more files for connections to servers.
    NoFile,
}

/// How a fetch ended.
#[derive(Drop)]
pub enum FetchEnd {
    /// With a complete response.
    Whole(Page),
    /// The server is no origin server that may be fetched from; it was not connected to.
    Refused,
    /// Without a complete response.
    Failed(FetchFault),
}

/// The result of an order.
#[derive(Drop)]
pub struct Fetched {
    /// The number of the fetch.
    pub fetch: u32,
    /// The number of this attempt.
    pub attempt: u16,
    /// How it ended.
    pub end: FetchEnd,
}

/// What a fetch thread hands in.
#[derive(Drop)]
pub enum Ended {
    /// The result of an order.
    Fetched(Fetched),
    /// A request whose client has gone, and which may have changed something.
    Left(Box<LeftChange>),
}

/// Knows which servers may be fetched from as origin servers, and who began a fetch.
pub trait Admit: Drop {
    /// This server, if it may be.
    fn admitted(&self, server: SocketAddr) -> Option<AdmittedOrigin>
        ensures same { IfSome result (λ it. it.server ≡ server) };

    /// Gives the answer of this fetch, which has its end-to-end fields alone as yet, to the client that began it, while it is collected.
    /// Returns whether there is such a client that takes it.
    fn give_early(&self, _alloc: Global, _fetch: u32, _early: Early) -> bool {
        false
    }
}
