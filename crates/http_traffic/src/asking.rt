//! Requests of clients, their answers, and what accepts them.
ghost use Rattle.std.specs.Prelude.{◌≡◌, IfSome};

use crate::passing::{Coming, Early, Passing, Road, TunnelEnd};
use futures::channel::oneshot;
use http_header::HeaderMap;
use object_store::{Object, SharedObject};
use origin_rules::AdmittedOrigin;
use std::net::{IpAddr, SocketAddr};
use std::time::Instant;

/// A request with its complete content.
pub struct Asked {
    /// The method, as sent.
    pub method: String,
    /// The target, as sent, without a fragment.
    pub target: String,
    /// The fields.
    pub head: HeaderMap,
    /// The content.
    pub content: Vec<u8>,
    /// The address of who sent it.
    pub from: IpAddr,
    /// Whether its version is older than HTTP/1.1.
    pub is_old: bool,
}

// Written by hand, so that what lets it go is one call for the prover (docs/GATE.md).
impl Drop for Asked {
    fn drop(self) {
        let Self {
            method: _,
            target: _,
            head: _,
            content: _,
            from: _,
            is_old: _,
        } = self;
    }
}

/// Whom an object was fetched from.
#[derive(Clone, Copy, PartialEq, Eq)]
pub enum Supplier {
    /// An origin server.
    Origin,
    /// An origin server, which has confirmed with status 304 what was there before.
    Confirmed,
    /// The neighbour at this place of the configuration, which is asked only for what it has stored if it is a sibling.
    Neighbour(usize),
    /// Nobody now: the object was there before, is stale, and has this age in seconds.
    Stale(u32),
}

/// The answer to a client.
#[derive(Drop)]
pub enum Outcome {
    /// A stored object, and its age in seconds.
    Hit {
        object: SharedObject,
        age: u32,
    },
    /// A fetched object, and whom it was fetched from.
    Got {
        object: SharedObject,
        supplier: Option<Supplier>,
        /// Whether the client is told that the object was stored.
        is_stored: bool,
    },
    /// What is being fetched, while it is collected, and whom it comes from. The client is given nothing else, whatever becomes of the
    /// fetch.
    Early {
        early: Box<Early>,
        supplier: Supplier,
    },
    /// No object; answer with this status.
    Fail(u16),
    /// No object, since the fetch that the request joined was ended for want of clients: it is to be handed in once more.
    Again,
}

/// How a request that is not a hit is forwarded, as Cache-Status reports it.
#[derive(Clone, Copy, PartialEq, Eq)]
pub enum Forward {
    /// It starts a fetch that others may join.
    Miss,
    /// It joined a pending fetch.
    Collapsed,
    /// It starts a private fetch, whose result is not stored.
    Bypass,
}

/// An accepted request.
#[derive(Drop)]
pub struct Asking {
    /// A number that is unique among all requests.
    pub client: u64,
    /// How it is forwarded, unless it is a hit.
    pub forward: Forward,
    /// When it was accepted. `None` if the clock could not be read.
    pub began: Option<Instant>,
    /// Receives the answer.
    pub answer: oneshot::Receiver<Outcome>,
}

/// How a request was answered.
#[derive(Clone, Copy, PartialEq, Eq)]
pub enum How {
    /// By a stored object.
    Hit,
    /// By a fetch; the request was forwarded like this.
    Fetch(Forward),
    /// By a server that the request was passed on to as it is, or over a tunnel.
    Passed,
    /// By the proxy itself: nothing was stored, and nothing fetched.
    Own,
}

/// What of an object a request is answered with.
#[derive(Drop)]
pub enum Shape {
    /// All of it, with its status.
    Whole,
    /// None of its octets, and of its fields these, with status 304 (RFC 9110, section 15.4.5).
    NotModified(Vec<(Vec<u8>, Vec<u8>)>),
    /// Its octets from the first place to the last one, counted from 0, with status 206 and this value of Content-Range (RFC 9110,
    /// section 15.3.7).
    Part {
        first: usize,
        last: usize,
        range: Vec<u8>,
    },
    /// None of its octets or fields, with status 416 and this value of Content-Range (RFC 9110, section 15.5.17).
    Unsatisfiable(Vec<u8>),
}

/// What became of a request, or of a connection that brought none.
#[derive(Drop)]
pub struct Told<'a> {
    /// The address of the client.
    pub from: IpAddr,
    /// The request. `None` if none was read.
    pub asked: Option<&'a Asked>,
    /// When it was accepted. `None` if it was not, or if the clock could not be read.
    pub began: Option<Instant>,
    /// The status of its answer. `None` if the connection ended before there was one.
    pub status: Option<u16>,
    /// How it was answered, or would have been.
    pub how: How,
    /// Whom the object of the answer was fetched from.
    pub supplier: Option<Supplier>,
    /// The octets of the answer's content that were handed to the connection.
    pub octets: u64,
    /// Whether that was all of it.
    pub is_whole: bool,
}

/// Accepts requests and has them answered. Called on the thread that serves.
pub trait Front: Drop {
    /// Whether clients at this address are admitted. Not asked for 127.0.0.0/8, which always is, nor for an address of IPv6 that stands for
    /// one of IPv4.
    fn allows(&mut self, address: IpAddr) -> bool;

    /// How a request with this method is taken.
    fn road(&mut self, method: &str) -> Road {
        match method {
            "GET" => Road::Node,
            _ => Road::Refused,
        }
    }

    /// Accepts a request. Errors: the status to answer, as when the target is not a URL or memory runs out. With 501, as for a HEAD that
    /// nothing stored answers any more, the request is passed on by `PassOn::pass_on`, or refused by that.
    fn ask(&mut self, asked: &Asked) -> Result<Asking, u16>;

    /// Accepts a request once more, to be forwarded as `Forward::Bypass`: by a private fetch, which joins no other and which no
    /// other joins. Called where the fetch that the request joined brought an object that may not be stored, and so is only for
    /// the client that started the fetch (RFC 9111, section 4). Errors: the status to answer.
    fn ask_alone(&mut self, asked: &Asked) -> Result<Asking, u16>;
}

/// What comes after a request was accepted: what of an object it is answered with, and what is told of it. Called on the thread that
/// serves. A trait beside `Front`, since the prover takes only so many methods of one at a time.
pub trait FollowUp: Drop {
    /// What of an object its request is answered with. Asked for stored objects, and for fetched ones unless the request was
    /// forwarded as `Forward::Bypass`: then the origin server has answered this request itself.
    fn shape(&mut self, _asked: &Asked, _object: &Object) -> Shape {
        Shape::Whole
    }

    /// The client closed its connection before it was answered.
    fn gone(&mut self, client: u64);

    /// Called once for each response, whatever its status, as it begins.
    fn answered(&mut self);

    /// Called once for each request, when its answer has been handed to the connection or the connection has ended; and once for
    /// each connection that was refused, broken or closed before it brought a request.
    fn tell(&mut self, told: &Told<'_>);
}

/// Passes requests on, and opens tunnels. Called on the thread that serves.
pub trait PassOn: Drop {
    /// Whether requests are passed on or open tunnels at all, as the text of a refused one says.
    fn has_passages(&self) -> bool {
        false
    }

    /// Whether a request that the node would take is passed on all the same, as a GET is whose answer is known to be longer than may
    /// be stored, and a HEAD that nothing stored answers. Asked before `Front::ask`, and again where what `ask` or `ask_alone` accepted
    /// has failed with 502.
    fn is_large(&mut self, _asked: &Asked) -> bool {
        false
    }

    /// Passes on a request as it is, without the node; `asked` is without its content. Errors: the status to answer.
    fn pass_on(&mut self, _asked: &Asked, _content: Option<Coming>) -> Result<Passing, u16> {
        Err(501)
    }

    /// The head of the answer to a request that was passed on has come, with this status: what it has changed is no longer served
    /// from the store.
    fn passed(&mut self, _asked: &Asked, _status: u16, _head: &HeaderMap) {}

    /// Where the tunnel leads that a request opens. Errors: the status to answer.
    fn tunnel(&mut self, _asked: &Asked) -> Result<TunnelEnd, u16> {
        Err(501)
    }

    /// This server, if a tunnel may lead to it as to an origin server.
    fn admitted(&mut self, server: SocketAddr) -> Option<AdmittedOrigin>
        ensures same { IfSome result (λ it. it.server ≡ server) }
    {
        let _ = server;
        None
    }
}
