//! What is stored, and taking it out, for the administration.
use filter_slots::{Datagram, End, Moment, Socket, both_ends};
use htcp_packet::codes::CLR;
use htcp_packet::{EncodeFault, HtcpAuth, HtcpBody, HtcpView, Specifier, sign};
use http_rules::{TargetFault, key_of};
use http_traffic::StoreFault;
use neighbours::Key;
use node_words::Event;
use object_store::CacheKey;
use percent_encoding::percent_decode_str;
use std::alloc::Global;
use std::sync::Arc;

/// How many objects are listed unless the query says otherwise.
const LISTED: usize = 100;

/// The most objects that are listed.
const MOST_LISTED: usize = 1_000;

/// What a question about the store has to be.
const STORE_LINE: &str =
    "400 Bad Request: /store, /store?limit= and a number from 1 to 1000, or /store/ and a percent-encoded http URL\n";

const NOT_ALLOWED: &str =
    "409 Conflict: an object is taken out by a request from the cache to itself, and its address is not in allowed\n";

const STILL_STORED: &str =
    "409 Conflict: the object is still stored; a filter of the HTCP socket may have dropped the request to take it out\n";

/// Why an object stays where it is.
#[derive(Clone, Copy)]
pub enum Obstacle {
    /// The cache may not ask itself.
    NotAllowed,
    /// The request was dropped, or the object came back.
    StillStored,
}

/// The sender of signed requests of the cache to itself.
pub struct Purger {
    /// The address and port of its HTCP socket.
    pub own: End,
    /// Whether queries from that address are answered.
    pub is_allowed: bool,
    /// The key that the requests are signed with.
    pub key: Key,
}

// Written by hand, so that what lets it go is one call for the prover (docs/GATE.md).
impl Drop for Purger {
    fn drop(self) {
        let Self {
            own: _,
            is_allowed: _,
            key: _,
        } = self;
    }
}

impl Purger {
    /// The event that takes an object out of the store: a CLR (RFC 2756, section 6.5) from the cache to itself, signed, without
    /// RD, so that nothing is sent in answer. Errors: why there is none, or out of memory.
    pub fn event(&self, alloc: Global, key: &CacheKey, now: Moment) -> Result<Event, StoreFault> {
        if !self.is_allowed {
            return Err(stays(alloc, Obstacle::NotAllowed));
        }
        match clearing(alloc, key, self.own, &self.key, now.seconds()) {
            Ok(payload) => self.arrival(alloc, payload, now),
            Err(_) => Err(StoreFault::NoMemory),
        }
    }

    // The arrival of a datagram of the cache at itself.
    fn arrival(&self, alloc: Global, payload: Vec<u8>, now: Moment) -> Result<Event, StoreFault> {
        let Ok(datagram) = Datagram::new(Socket::Htcp, self.own, self.own, payload) else {
            return Err(StoreFault::NoMemory);
        };
        match Arc::new(alloc, datagram) {
            Ok(datagram) => Ok(Event::Datagram { datagram, now }),
            Err(_) => Err(StoreFault::NoMemory),
        }
    }
}

// A signed CLR for the URL of this key. Errors: too long, or out of memory.
fn clearing(
    alloc: Global,
    key: &CacheKey,
    own: End,
    signer: &Key,
    seconds: u32,
) -> Result<Vec<u8>, EncodeFault> {
    let view = HtcpView {
        minor: 0,
        opcode: CLR,
        response: 0,
        f1: false,
        rr: false,
        trans: 0,
        body: HtcpBody::Clear {
            reason: 0,
            specifier: Specifier {
                method: b"GET",
                uri: key.as_slice(),
                version: b"HTTP/1.1",
                headers: b"",
            },
        },
        raw: b"",
        auth: HtcpAuth::Unsigned,
    };
    let (name, secret) = (signer.name.as_slice(), signer.secret.as_slice());
    sign(alloc, &view, &both_ends(own, own), name, secret, seconds)
}

/// Why an object stays, for an administrator.
pub fn stays(alloc: Global, obstacle: Obstacle) -> StoreFault {
    let line = match obstacle {
        Obstacle::NotAllowed => NOT_ALLOWED,
        Obstacle::StillStored => STILL_STORED,
    };
    match line.as_bytes().to_vec(alloc) {
        Ok(line) => StoreFault::Kept(line),
        Err(_) => StoreFault::NoMemory,
    }
}

// What a question about the store has to be.
fn no_question(alloc: Global) -> StoreFault {
    match STORE_LINE.as_bytes().to_vec(alloc) {
        Ok(line) => StoreFault::NoQuestion(line),
        Err(_) => StoreFault::NoMemory,
    }
}

/// How many objects a query asks for; it is empty, or `?limit=` and a number from 1 to 1,000. Errors: another query.
pub fn limit_of(alloc: Global, query: &str) -> Result<usize, StoreFault> {
    if query.is_empty() {
        return Ok(LISTED);
    }
    let Some(number) = query.strip_prefix("?limit=") else {
        return Err(no_question(alloc));
    };
    let is_plain = !number.starts_with('+') && !number.starts_with('0');
    match number.parse::<usize>() {
        Ok(most) if is_plain && 1 <= most && most <= MOST_LISTED => Ok(most),
        _ => Err(no_question(alloc)),
    }
}

/// The key of a percent-encoded URL. Errors: it is no http URL, or is too long, or out of memory.
pub fn key_in(alloc: Global, encoded: &str) -> Result<CacheKey, StoreFault> {
    let Ok(url) = percent_decode_str(encoded).decode_utf8(alloc) else {
        return Err(no_question(alloc));
    };
    match key_of(alloc, url.as_str()) {
        Ok(key) => Ok(key),
        Err(TargetFault::NotHttp | TargetFault::TooLong) => Err(no_question(alloc)),
        Err(TargetFault::NoMemory) => Err(StoreFault::NoMemory),
    }
}
