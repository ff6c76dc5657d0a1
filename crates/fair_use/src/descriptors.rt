//! How the files that the program may open are divided between clients and servers.
ghost use Rattle.std.specs.Prelude.{◌<◌, ◌≤◌, ◌↔◌, IsTrue};
ghost use Rattle.fair_use.specs.Descriptors.{IsDivided, IsOneMore, IsRoom};

/// Files that the program itself has: its sockets, event loops and logs.
pub const OWN_FILES: usize = 36;

/// Files of each thread that serves clients: its event loop, and a client that waits for a seat.
pub const THREAD_FILES: usize = 6;

/// Files beside those of clients where there are enough: of all fetches, of a few other connections to servers, and of the administration.
pub const SERVER_FILES: usize = 320;

/// Files that are the administration's beside those, where there are enough.
pub const ADMINISTRATION_FILES: usize = 32;

/// With fewer files than this a start tells what there is.
pub const FEW_FILES: usize = 600;

/// How a table of open files is divided. Neither side is lent what the other one doesn't use, so that a client that comes always finds the file
/// of its seat.
#[derive(Clone, Copy)]
pub struct Division {
    /// How many connections of clients there may be.
    pub seats: usize,
    /// How many connections to servers there may be: those of fetches, of what is passed on, of tunnels, attempts to connect, and idle ones.
    pub servers: usize,
}

/// A table of so few open files that a start tells how it is divided.
#[derive(Clone, Copy)]
pub struct FewFiles {
    pub files: usize,
    pub division: Division,
}

/// Whether a start tells how a table of so many files is divided.
pub fn is_told(files: usize) -> bool
    ensures { IsTrue result ↔ files < 600 }
{
    files < FEW_FILES
}

/// How a table of so many files is divided where so many threads serve clients, of which there are at most `most`. Clients have the seats that
/// 320 connections to servers leave, or half of what is left where that is more; connections to servers have what the seats leave, but for 32
/// that are the administration's, or a quarter where that is less.
pub fn division_of(files: usize, threads: usize, most: usize) -> Division
    ensures divided { IsDivided files threads most result }
    ensures bounded { result.seats ≤ most }
{
    let left = files
        .saturating_sub(OWN_FILES)
        .saturating_sub(threads.saturating_mul(THREAD_FILES));
    let seats = left
        .saturating_sub(SERVER_FILES)
        .max(left.saturating_sub(left / 2))
        .min(most);
    let beside = left.saturating_sub(seats);
    let kept = ADMINISTRATION_FILES.min(beside / 4);
    Division {
        seats,
        servers: beside.saturating_sub(kept),
    }
}

/// What becomes of one more connection to a server.
#[derive(Clone, Copy)]
pub enum FileRoom {
    /// There is room for it.
    Free,
    /// It takes the place of an idle one, which is closed for it.
    InPlaceOfIdle,
    /// There is none.
    Nothing,
}

/// Whether there may be one more connection to a server beside so many that carry something, and so many that are idle: of so many in all.
pub fn may_be_one_more(servers: usize, busy: usize, idle: usize) -> bool
    ensures { IsTrue result ↔ IsOneMore servers busy idle }
{
    busy.saturating_add(idle) < servers
}

/// What becomes of one more connection to a server, of which there may be so many, where so many carry something and so many are idle.
pub fn room_for(servers: usize, busy: usize, idle: usize) -> FileRoom
    ensures { IsRoom servers busy idle result }
{
    if may_be_one_more(servers, busy, idle) {
        FileRoom::Free
    } else if 0 < idle {
        FileRoom::InPlaceOfIdle
    } else {
        FileRoom::Nothing
    }
}
