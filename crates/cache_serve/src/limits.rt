//! Times and numbers of the proxy's threads and servers that the configuration does not set.
use client_streams::{ClientLimits, StreamTimeouts};
use http_clients::ServeLimits;
use std::time::Duration;

/// The most threads that look up names of servers, if the configuration does not say how many.
pub const USUAL_LOOKUP_THREADS: u32 = 64;

/// The most octets of bodies under way, if the configuration does not say it. The first `FREE_OCTETS` of each don't count.
pub const FETCH_OCTETS: u32 = 268_435_456;

/// How many octets of each body take nothing of the octets under way.
pub const FREE_OCTETS: usize = 65_536;

/// The most threads that serve clients, if the configuration does not say how many.
pub const USUAL_CLIENT_THREADS: usize = 4;

/// The most datagrams of other threads that the query thread sends before it receives again.
pub const SENDS_A_TURN: u32 = 64;

/// How often the query thread looks at most for fetches that have no client, in milliseconds.
pub const LOOK_MILLIS: u64 = 100;

/// The most connections of clients of one address, unless the configuration says another number.
pub const ADDRESS_CONNECTIONS: u32 = 256;

/// The most octets of the content of a client's request.
const CLIENT_CONTENT: usize = 65_536;

/// The most octets of the content of an administrator's request.
const ADMINISTRATION_CONTENT: usize = 262_144;

/// Limits on the sockets and fetches of a proxy.
#[derive(Clone, Copy)]
pub struct ProxyLimits {
    /// Of the server for clients.
    pub clients: ServeLimits,
    /// Of the server for administration.
    pub administration: ServeLimits,
    /// Time to connect to a server.
    pub connecting: Duration,
    /// Time for a whole fetch, from the moment that it is ordered.
    pub fetching: Duration,
    /// How long a fetch's connection may be without an octet, if that is limited.
    pub idle: Option<Duration>,
    /// The least octets a second of a fetch's content, if there is a least speed.
    pub speed: Option<u32>,
    /// How long a fetch's connection is kept for further ones. None is if it is left out.
    pub keep: Option<Duration>,
}

impl ProxyLimits {
    /// The limits of the program: 4,096 connections of clients unless it may open too few files for them, 256 of one address, and 64 of administrators, 5 s to connect and
    /// 30 s to fetch.
    pub fn usual() -> ProxyLimits {
        ProxyLimits {
            clients: serve_limits(4_096, ADDRESS_CONNECTIONS, CLIENT_CONTENT),
            administration: administration_limits(),
            connecting: Duration::from_secs(5),
            fetching: Duration::from_secs(30),
            idle: None,
            speed: None,
            keep: None,
        }
    }
}

/// The limits of the server for administration, which is asked over loopback alone: 2 s for a head, so that no user of the host holds its
/// connections by heads that don't end, and 1 s for open connections to end, which are served until then.
fn administration_limits() -> ServeLimits {
    // (no limit of an address, so that where all 64 are taken the longest idle one gives way)
    let limits = serve_limits(64, 65, ADMINISTRATION_CONTENT);
    ServeLimits {
        still: StreamTimeouts {
            head: Duration::from_secs(2),
            ..limits.still
        },
        grace: Duration::from_secs(1),
        ..limits
    }
}

/// What both servers have in common, where `administration_limits` says nothing else: 60 s for an idle connection and for a client that
/// does not read its answer, 30 s for a head and between two pieces of content, 100 ms without an accept after one that failed, and 5 s
/// for open connections to end.
fn serve_limits(connections: usize, an_address: u32, content: usize) -> ServeLimits {
    ServeLimits {
        still: StreamTimeouts {
            idle: Duration::from_secs(60),
            head: Duration::from_secs(30),
            content: Duration::from_secs(30),
            taking: Duration::from_secs(60),
        },
        connections: ClientLimits {
            most: connections,
            an_address: an_address as usize,
            rest: Duration::from_millis(100),
        },
        grace: Duration::from_secs(5),
        content,
    }
}
