//! Requests, and what answers them.
ghost use Rattle.std.specs.Prelude.{◌≡◌, IfSome};

use crate::account::SharedFacts;
use futures::Future;
use futures::channel::mpsc;
use http_rules::AdmittedOrigin;
use http_traffic::{Coming, Early, PassedHead, Piece, Road, Shape, Told, TunnelEnd};
use object_store::SharedObject;
use std::alloc::AllocError;
use std::net::{IpAddr, SocketAddr};

/// What a text of the proxy itself is.
#[derive(Clone, Copy)]
pub(crate) enum TextKind {
    /// For people.
    Plain,
    /// JSON.
    Json,
    /// The text format of Prometheus.
    Metrics,
}

impl TextKind {
    /// The media type.
    pub(crate) fn media_type(self) -> &'static [u8] {
        match self {
            TextKind::Plain => b"text/plain",
            TextKind::Json => b"application/json",
            TextKind::Metrics => b"text/plain; version=0.0.4; charset=utf-8",
        }
    }
}

/// The answer to a request that was passed on.
#[derive(Drop)]
pub(crate) struct PassedAnswer {
    /// Its head.
    pub(crate) head: PassedHead,
    /// The pieces of its content.
    pub(crate) pieces: mpsc::Receiver<Piece>,
    /// The Via that is added to it.
    pub(crate) via: Vec<u8>,
    /// Its Cache-Status.
    pub(crate) told: Vec<u8>,
}

/// The content of a response. What is moved for each response is kept small.
#[derive(Drop)]
pub(crate) enum Given {
    /// An object in this shape, with this Cache-Status. If `age` is given, it replaces the Age field of the object.
    Object {
        object: SharedObject,
        shape: Shape,
        age: Option<u32>,
        told: Vec<u8>,
    },
    /// An answer of the proxy itself.
    Own(OwnAnswer),
    /// The answer to a request that was passed on.
    Passed(Box<PassedAnswer>),
    /// An answer that is still collected, with this Cache-Status.
    Early {
        early: Box<Early>,
        told: Vec<u8>,
    },
}

/// An answer that the proxy itself gives. A type of its own, since what makes one has no objects (docs/GATE.md).
#[derive(Drop)]
pub(crate) enum OwnAnswer {
    /// A text.
    Text {
        status: u16,
        text: Vec<u8>,
        kind: TextKind,
    },
    /// The administration's page.
    Page(Vec<u8>),
    /// The pieces of a capture file, which are made while they are sent.
    Capture(mpsc::Receiver<Vec<u8>>),
    /// A text with status 401, for a client that has to show a bearer token (RFC 6750, section 3).
    Challenge(Vec<u8>),
}

/// Answers the requests of a server.
pub(crate) trait Answers: Drop {
    /// Another handle to the same state, for a connection or a request.
    fn share(&self) -> Result<Self, AllocError>;

    /// Whether clients at this address are admitted.
    fn allows(&self, address: IpAddr) -> bool;

    /// Whether other methods than GET are served, as the text of a refused one says.
    fn has_other_methods(&self) -> bool {
        false
    }

    /// This server, if a tunnel may lead to it as to an origin server.
    fn admitted(&self, server: SocketAddr) -> Option<AdmittedOrigin>
        ensures same { IfSome result (λ it. it.server ≡ server) }
    {
        let _ = server;
        None
    }

    /// Called once for each response, including refusals.
    fn note_answer(&self);

    /// Called once for each request, when its response was handed to the connection or the connection has ended, and once for each
    /// connection that ended or was refused before it brought one.
    fn tell(&self, told: &Told<'_>);
}

/// Answers the requests of connections whose facts keep tunnels as `K` does. Apart from `Answers`, since most of what tells what becomes of
/// requests doesn't answer them.
pub(crate) trait Serves<K>: Answers {
    /// An answer in progress.
    type Answering: Future<Output = Given>;

    /// How a request with this method is taken. Errors: the status that refuses it before its content is read.
    fn road(&self, method: &str) -> Result<Road, u16>;

    /// Whether the request of these facts is refused whatever its content, which then is not read: `begin` says how.
    fn refuses(&self, _facts: &SharedFacts<K>) -> bool {
        false
    }

    /// Starts to answer the request of these facts.
    fn begin(&self, facts: SharedFacts<K>) -> Self::Answering
        ensures { Self.Answering.can_poll result };

    /// Passes on the request of these facts with this content, and starts to answer it as it is answered. Called only for requests
    /// whose road is `Road::Passed`. The pieces of the content are dropped where it is refused.
    fn pass(&self, facts: SharedFacts<K>, content: Option<Coming>) -> Self::Answering
        ensures { Self.Answering.can_poll result };

    /// Where the tunnel leads that the request of these facts opens. Errors: the status to answer.
    fn tunnel(&self, _facts: &SharedFacts<K>) -> Result<TunnelEnd, u16> {
        Err(501)
    }
}
