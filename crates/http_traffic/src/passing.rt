//! Requests that are passed on as they are, without the node, and tunnels.
use crate::orders::{FetchFault, Server};
use futures::channel::{mpsc, oneshot};
use http_header::HeaderMap;
use object_store::CacheKey;
use server_connections::{ServerConnections, ServerPlace};
use std::mem;
use std::sync::Arc;
use std::sync::atomic::{AtomicUsize, Ordering};
use std::time::{Duration, Instant};

/// A part of a content that is passed on as it comes. A content whose pieces end without `End` was cut.
#[derive(Drop)]
pub enum Piece {
    /// The next octets, at least one.
    Octets(Vec<u8>),
    /// The content is complete.
    End,
}

/// The content of a request that is passed on as it comes.
#[derive(Drop)]
pub struct Coming {
    /// Its length, if the head says it; otherwise it is sent in chunks.
    pub length: Option<u64>,
    /// Its pieces.
    pub pieces: mpsc::Receiver<Piece>,
}

/// The head of an answer that is passed on as it comes. Its content follows in pieces.
pub struct PassedHead {
    pub status: u16,
    pub head: HeaderMap,
    /// The length of the content, if the head says it.
    pub length: Option<u64>,
    /// Ends the passage when it is dropped.
    pub wanted: oneshot::Sender<()>,
}

// Written by hand, so that what lets it go is one call for the prover (docs/GATE.md).
impl Drop for PassedHead {
    fn drop(self) {
        let Self {
            status: _,
            head: _,
            length: _,
            wanted: _,
        } = self;
    }
}

impl PassedHead {
    /// Its status, its fields, the length of the content, and what ends the passage when it is dropped.
    pub fn into_parts(self) -> (u16, HeaderMap, Option<u64>, oneshot::Sender<()>) {
        let Self {
            status,
            head,
            length,
            wanted,
        } = self;
        (status, head, length, wanted)
    }
}

/// An answer with status 200 that is collected for all clients, as the one that began its fetch has it meanwhile.
#[derive(Drop)]
pub struct Early {
    /// Its fields, as the object has them that it becomes.
    pub fields: Vec<(Vec<u8>, Vec<u8>)>,
    /// The length of its content.
    pub length: u64,
    /// The pieces of its content. They end without `Piece::End` if the answer does not become whole.
    pub pieces: mpsc::Receiver<Piece>,
    /// Says that the client reads no more when it is dropped, if anybody is to know that.
    pub reading: Option<oneshot::Sender<()>>,
}

/// Why a request that was passed on has no answer.
#[derive(Clone, Copy, PartialEq, Eq)]
pub enum PassFault {
    /// The server is no origin server that may be asked; it was not connected to.
    Refused,
    /// No head of an answer came.
    Failed(FetchFault),
}

/// What a request with an unsafe method may change.
#[derive(Drop)]
pub struct Change {
    /// The key of what it names.
    pub key: CacheKey,
    /// Its method, as sent.
    pub method: String,
}

/// A request with an unsafe method whose client has gone before the head of its answer was given to it.
#[derive(Drop)]
pub struct LeftChange {
    pub change: Change,
    /// Whether all of the request was sent to its server.
    pub is_whole: bool,
    /// The status and the fields of the answer. `None` if no head came.
    pub head: Option<(u16, HeaderMap)>,
}

/// A request to be passed on, without a limit on the length of its content or of the answer's.
pub struct Passage {
    /// The method, as sent.
    pub method: String,
    /// The value of the Host field.
    pub host: String,
    /// The request target: path and query for an origin server, the whole URL for a neighbour.
    pub target: String,
    /// The other fields of the request, as names and values.
    pub fields: Vec<(Vec<u8>, Vec<u8>)>,
    /// The content; `None` if the request has none.
    pub content: Option<Coming>,
    /// What it may change, if its method is unsafe.
    pub change: Option<Change>,
    /// Whether the server is an origin server, and so has to be admitted; a neighbour is configured.
    pub is_origin: bool,
    /// How long neither side may be without an octet.
    pub still: Duration,
    /// Takes the head of the answer, or why there is none. The passage ends when its receiver is dropped, and once there is a head,
    /// when its `wanted` is.
    pub head: oneshot::Sender<Result<PassedHead, PassFault>>,
    /// Takes the content of the answer.
    pub pieces: mpsc::Sender<Piece>,
    /// What it takes of those that may be under way.
    pub ticket: Ticket,
}

// Written by hand, so that what lets it go is one call for the prover (docs/GATE.md).
impl Drop for Passage {
    fn drop(self) {
        let Self {
            method: _,
            host: _,
            target: _,
            fields: _,
            content: _,
            change: _,
            is_origin: _,
            still: _,
            head: _,
            pieces: _,
            ticket: _,
        } = self;
    }
}

/// The parts of a passage.
#[derive(Drop)]
pub struct PassageParts {
    pub method: String,
    pub host: String,
    pub target: String,
    pub fields: Vec<(Vec<u8>, Vec<u8>)>,
    pub content: Option<Coming>,
    pub change: Option<Change>,
    pub is_origin: bool,
    pub still: Duration,
    pub head: oneshot::Sender<Result<PassedHead, PassFault>>,
    pub pieces: mpsc::Sender<Piece>,
    pub ticket: Ticket,
}

impl Passage {
    /// Its parts.
    pub fn into_parts(self) -> PassageParts {
        let Self {
            method,
            host,
            target,
            fields,
            content,
            change,
            is_origin,
            still,
            head,
            pieces,
            ticket,
        } = self;
        PassageParts {
            method,
            host,
            target,
            fields,
            content,
            change,
            is_origin,
            still,
            head,
            pieces,
            ticket,
        }
    }
}

/// What a client waits for whose request is passed on.
#[derive(Drop)]
pub struct Passing {
    /// Receives the head of the answer, or why there is none.
    pub head: oneshot::Receiver<Result<PassedHead, PassFault>>,
    /// Receives the content of the answer.
    pub pieces: mpsc::Receiver<Piece>,
    /// When the request was accepted. `None` if the clock could not be read.
    pub began: Option<Instant>,
}

/// How a request is taken, by its method.
#[derive(Clone, Copy, PartialEq, Eq)]
pub enum Road {
    /// Its content is collected, and it is answered through the node.
    Node,
    /// It is passed on as it is, its content as it comes.
    Passed,
    /// It opens a tunnel.
    Tunnel,
    /// It is refused with 501 before its content is read.
    Refused,
}

/// Where a tunnel leads.
#[derive(Drop)]
pub struct TunnelEnd {
    pub server: Server,
    /// What is sent to a parent, which answers with a head of its own; `None` where the server is the end itself.
    pub greeting: Option<Vec<u8>>,
    /// Whether the server is an origin server, and so has to be admitted.
    pub is_origin: bool,
    /// How long both sides may be without an octet.
    pub still: Duration,
    /// Time to connect.
    pub connecting: Duration,
    /// What it takes of those that may be open.
    pub ticket: Ticket,
    /// Where attempts to connect it that go beside others have a place.
    pub places: Arc<ServerConnections>,
}

/// One of so many that may be under way at a time, until it is dropped.
pub struct Ticket {
    count: Arc<AtomicUsize>,
    // The place of its connection to a server, if it has one.
    place: Option<ServerPlace>,
}

impl Ticket {
    /// Takes one. Returns `None` if `most` are taken, or if there are too many handles.
    pub fn take(count: &Arc<AtomicUsize>, most: usize) -> Option<Ticket> {
        let handle = Arc::try_clone(count).ok()?;
        let ticket = Ticket {
            count: handle,
            place: None,
        };
        let before = ticket.count.fetch_add(1, Ordering::SeqCst);
        if before < most { Some(ticket) } else { None }
    }

    /// This one, with the place of its connection to a server.
    pub fn with_place(self, place: ServerPlace) -> Ticket {
        let mut ticket = self;
        drop(mem::replace(&mut ticket.place, Some(place)));
        ticket
    }
}

impl Drop for Ticket {
    fn drop(self) {
        let Ticket { count, place } = self;
        drop(place);
        count.fetch_sub(1, Ordering::SeqCst);
    }
}
