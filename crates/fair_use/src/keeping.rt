//! Which connections to servers are kept while they carry no request, over all threads that fetch.
ghost use Rattle.fair_use.specs.IdleConnections.{IsClosedFor};

/// The most idle connections to one server under one name.
pub const MOST_TO_A_SERVER: usize = 32;

/// The most idle connections to all servers.
pub const MOST_IDLE: usize = 256;

/// Which idle connection is closed for one that carries no request any more.
#[derive(Clone, Copy)]
pub enum GivesWay {
    /// None.
    Nobody,
    /// The one to the same server under the same name that has been idle for longest, of whichever thread.
    OldestThere,
    /// The one that has been idle for longest, of whichever thread.
    Oldest,
}

/// Which idle connection is closed for one whose last answer was read whole, where so many to its server under its name are idle, and so
/// many in all.
pub fn gives_way(to_server: usize, in_all: usize) -> GivesWay
    ensures { IsClosedFor to_server in_all result }
{
    if MOST_TO_A_SERVER <= to_server {
        return GivesWay::OldestThere;
    }
    if in_all < MOST_IDLE {
        GivesWay::Nobody
    } else {
        GivesWay::Oldest
    }
}
