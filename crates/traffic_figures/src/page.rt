//! All that both texts show.

use crate::figures::Snapshot;

/// What the filter of a query socket judged since the start.
#[derive(Clone, Copy)]
pub struct SocketFigures {
    /// Datagrams judged.
    pub judged: u64,
    /// Of these, those that were dropped.
    pub rejected: u64,
    /// Of these, those that were cut.
    pub cut: u64,
    /// Datagrams that were no message of the socket's protocol.
    pub malformed: u64,
}

/// What the filters of both query sockets judged.
#[derive(Clone, Copy)]
pub struct Sockets {
    /// The ICP socket.
    pub icp: SocketFigures,
    /// The HTCP socket.
    pub htcp: SocketFigures,
}

/// What is known of a neighbour at one moment.
#[derive(Clone, Copy)]
pub struct NeighbourState {
    /// Whether it is waited for.
    pub is_up: bool,
    /// Its smoothed response time in microseconds. `None` before the first.
    pub micros: Option<u64>,
    /// Rounds of queries that it has missed since it was last heard from.
    pub misses: u64,
    /// Queries to it that are not answered yet. `None` if that isn't known.
    pub outstanding: Option<u64>,
}

/// A neighbour.
#[derive(Clone, Copy)]
pub struct NeighbourFigures {
    /// The address at which it is queried.
    pub address: [u8; 4],
    /// The port at which it is queried.
    pub port: u16,
    /// `None` if that isn't known.
    pub state: Option<NeighbourState>,
}

/// Look-ups of names of servers.
#[derive(Clone, Copy)]
pub struct LookUps {
    /// Names that wait for theirs.
    pub waiting: u64,
    /// Those under way.
    pub under_way: u64,
    /// Names that were not found within their time, since the start.
    pub failed: u64,
    /// Those who were not let wait for one, since the start.
    pub refused: u64,
}

/// The lines of the access log since the start.
#[derive(Clone, Copy)]
pub struct LogLines {
    /// Lines written.
    pub written: u64,
    /// Lines that were not written, since the log was too slow or failed.
    pub lost: u64,
}

/// What is counted of the attempts to connect to servers that go beside another one of the same server.
#[derive(Clone, Copy)]
pub struct AttemptFigures {
    /// Those under way.
    pub under_way: u64,
    /// Those that have begun since the start.
    pub begun: u64,
    /// Those that came after the other one instead, since there were as many as there may be.
    pub held: u64,
}

/// Connections to servers.
#[derive(Clone, Copy)]
pub struct ServerConnectionFigures {
    /// Those that carry something, and those that are being made.
    pub busy: u64,
    /// Those that are kept while they are idle.
    pub idle: u64,
    /// Those that were not made since the start, as no open file was left for them.
    pub refused: u64,
}

/// All that both texts show. What is `None` is left out of the metrics.
pub struct Page {
    /// The counters of answers and fetches.
    pub figures: Snapshot,
    /// The version of the program.
    pub version: &'static str,
    /// Seconds since the start.
    pub uptime: u64,
    /// When the program was started, in seconds since 1970.
    pub started: Option<u64>,
    /// Octets of memory that the program holds.
    pub resident: Option<u64>,
    /// Files and sockets that the program has open.
    pub open_files: Option<u64>,
    /// What the filters of the query sockets judged.
    pub sockets: Option<Sockets>,
    /// Each neighbour, in the order of the configuration.
    pub neighbours: Vec<NeighbourFigures>,
    /// Open connections of clients.
    pub connections: Option<u64>,
    /// Fetches under way.
    pub fetching: Option<u64>,
    /// Octets of bodies that wait for room among those under way.
    pub wanted_octets: Option<u64>,
    /// Clients that wait for an answer.
    pub waiting: Option<u64>,
    /// Requests that are being passed on. `None` if none ever are.
    pub streams: Option<u64>,
    /// Open tunnels. `None` if there never are any.
    pub tunnels: Option<u64>,
    /// The attempts to connect that go beside others. `None` before there are fetches, and once there are none any more.
    pub attempts: Option<AttemptFigures>,
    /// Look-ups of names of servers.
    pub look_ups: Option<LookUps>,
    /// Connections to servers.
    pub servers: Option<ServerConnectionFigures>,
    /// Fetches that were ended for want of clients, since the start. `None` if none ever are.
    pub unwanted: Option<u64>,
    /// Stored objects, those that are no longer fresh among them.
    pub objects: Option<u64>,
    /// Octets of the stored objects and their keys.
    pub stored: Option<u64>,
    /// Objects that had to make room for others in the store, since the start.
    pub evictions: Option<u64>,
    /// Filters installed and removed since the start.
    pub swaps: Option<u64>,
    /// Events taken before the present volume of the log of events began.
    pub book: Option<u64>,
    /// Events taken since the start.
    pub events: Option<u64>,
    /// The lines of the access log. `None` if there is none.
    pub log: Option<LogLines>,
}

// Written by hand, so that what lets it go is one call for the prover (docs/GATE.md).
impl Drop for Page {
    fn drop(self) {
        let Self {
            figures: _,
            version: _,
            uptime: _,
            started: _,
            resident: _,
            open_files: _,
            sockets: _,
            neighbours: _,
            connections: _,
            fetching: _,
            wanted_octets: _,
            waiting: _,
            streams: _,
            tunnels: _,
            attempts: _,
            look_ups: _,
            servers: _,
            unwanted: _,
            objects: _,
            stored: _,
            evictions: _,
            swaps: _,
            book: _,
            events: _,
            log: _,
        } = self;
    }
}
