//! How many threads a proxy has, and how long its end waits.

/// Threads that fetch.
pub const FETCHERS: usize = 4;

/// The most threads that serve clients.
pub const MOST_CLIENT_THREADS: usize = 16;

/// Threads that may have a seat at the node: those that fetch, as many as may serve clients, and one each for queries and
/// administration. A seat that no thread has stays spare.
pub const SEATS: u64 = FETCHERS as u64 + MOST_CLIENT_THREADS as u64 + 2;

/// The most threads that are joined: all but those that look up names.
pub(crate) const THREADS: usize = SEATS as usize;

/// The capacity of the channel that asks the proxy to end. Each thread sends at most two such messages, one audit sends one, and the
/// administration one, so that sending never waits and never allocates.
pub(crate) const ENDS: usize = 2 * THREADS + 2;

/// How many seconds the end waits for what the access log is written to, and then for what the notices are written to.
pub(crate) const LOG_GRACE: u64 = 5;
