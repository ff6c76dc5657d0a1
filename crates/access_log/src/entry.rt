//! What a line tells.
use std::net::IpAddr;

/// How a line is written.
#[derive(Clone, Copy)]
pub enum Form {
    /// NCSA's combined format, and two fields more.
    Common,
    /// An object of JSON.
    Json,
}

/// How a request was answered; for one that was given up, how it would have been.
#[derive(Clone, Copy)]
pub enum Course {
    /// By what was stored: `hit`.
    Hit,
    /// By a fetch that was made for it, and that others could join: `miss`.
    Miss,
    /// By a fetch that was under way for another request: `collapsed`.
    Collapsed,
    /// By a fetch of its own, past what is stored: `bypass`.
    Bypass,
    /// By the proxy itself: nothing was fetched for it: `refused`.
    Own,
}

/// Whom an object was fetched from.
#[derive(Clone, Copy)]
pub enum Supplier {
    /// An origin server: `origin`.
    Origin,
    /// The neighbour at this place of the configuration, from 0: `neighbour/0`.
    Neighbour(usize),
}

/// What became of a request, or of a connection that brought none.
#[derive(Clone, Copy)]
pub struct Entry<'a> {
    /// When it ended, in milliseconds since 1970-01-01 UTC; 0 where the clock could not be read.
    pub millis: u64,
    /// The address of the client.
    pub client: IpAddr,
    /// The method; empty if no request was read.
    pub method: &'a [u8],
    /// The target; empty if no request was read.
    pub url: &'a [u8],
    /// The field Referer; empty if there was none.
    pub referer: &'a [u8],
    /// The field User-Agent; empty if there was none.
    pub agent: &'a [u8],
    /// The status of the answer; 408 where the proxy closed the connection since the client was silent for too long (nothing was
    /// sent then). `None` where it ended otherwise before there was an answer.
    pub status: Option<u16>,
    /// Octets of content that were handed to the connection.
    pub octets: u64,
    /// How long it took, in milliseconds; 0 where the clock could not be read.
    pub taken: u64,
    /// How it was answered, or would have been.
    pub course: Course,
    /// Whom the object of the answer was fetched from.
    pub supplier: Option<Supplier>,
    /// Whether all of the answer was handed over.
    pub is_whole: bool,
}
