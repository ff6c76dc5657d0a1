//! Notices on standard error: fetches that failed, and datagrams that are no messages. A thread of its own writes them.
use access_log::writer::{LogDesk, Pace};
use http_traffic::{FetchFault, Supplier};
use std::alloc::{AllocError, Global};
use std::net::IpAddr;
use std::sync::{Mutex, Wait};
use std::time::{Clock, Instant};

/// The most notices of a second.
const NOTICES_A_SECOND: u32 = 20;

/// The most octets of a URL in a notice.
const URL_OCTETS: usize = 1_024;

/// Where notices go.
pub struct Notices {
    desk: LogDesk,
    // Locked to count one notice.
    pace: Mutex<Pace>,
}

// Written by hand, so that what lets it go is one call for the prover (docs/GATE.md).
impl Drop for Notices {
    fn drop(self) {
        let Self { desk: _, pace: _ } = self;
    }
}

impl Notices {
    /// Notices that are handed to the thread that writes for this desk.
    pub fn new(desk: LogDesk) -> Notices {
        Notices {
            desk,
            pace: Mutex::new(Pace::new(NOTICES_A_SECOND)),
        }
    }

    // Whether a notice may be made now: how many were left out before it.
    fn admit<R: Wait + Clock>(&self, rt: &R) -> Option<u64> {
        let now = Instant::now(rt).ok()?;
        self.pace.lock(rt).admit(now)
    }

    // Hands over a line, which says how many were left out before it. Where there is no memory for it, it is not written.
    fn offer<R: Wait>(&self, rt: &R, line: Result<String, AllocError>, left_out: u64) {
        let Ok(mut line) = line else {
            return;
        };
        if push_end(&mut line, left_out).is_ok() {
            self.desk.offer(rt, line.into_bytes());
        }
    }

    /// Tells why an attempt of a fetch of this URL from `supplier` failed. Says nothing of one that nobody wants any more.
    pub fn tell_fetch<R: Wait + Clock>(
        &self,
        rt: &R,
        alloc: Global,
        fetch: u32,
        url: &[u8],
        supplier: Supplier,
        fault: FetchFault,
    ) {
        let Some(reason) = reason_of(fault) else {
            return;
        };
        if let Some(left_out) = self.admit(rt) {
            let line = fetch_line(alloc, fetch, url, supplier, reason);
            self.offer(rt, line, left_out);
        }
    }

    /// Tells that a look-up of a server's name was refused that this client asked for.
    pub fn tell_no_look_up<R: Wait + Clock>(&self, rt: &R, alloc: Global, asker: Option<IpAddr>) {
        if let Some(left_out) = self.admit(rt) {
            let line = look_up_line(alloc, asker);
            self.offer(rt, line, left_out);
        }
    }

    /// Tells that a client's request was refused with 503, since no open file is left for a connection to its server.
    pub fn tell_no_file<R: Wait + Clock>(&self, rt: &R, alloc: Global) {
        if let Some(left_out) = self.admit(rt) {
            let text =
                "a request was refused (503): no open file is left for its connection to a server";
            self.offer(rt, String::from_str(alloc, text), left_out);
        }
    }

    /// Tells how many datagrams at a socket were no messages, if any.
    pub fn tell_malformed<R: Wait + Clock>(&self, rt: &R, alloc: Global, socket: &str, count: u64) {
        if count == 0 {
            return;
        }
        if let Some(left_out) = self.admit(rt) {
            let line = malformed_line(alloc, socket, count);
            self.offer(rt, line, left_out);
        }
    }
}

// Why a fetch failed, in words. `None` if nobody wants it any more.
fn reason_of(fault: FetchFault) -> Option<&'static str> {
    match fault {
        FetchFault::Lookup => Some("no address was found for its name"),
        FetchFault::Connect => Some("connection refused or not reached"),
        FetchFault::Request => Some("the request cannot be made"),
        FetchFault::Cut => Some("the connection ended within the response"),
        FetchFault::NotHttp => Some("the response is not HTTP"),
        FetchFault::LargeHead | FetchFault::TooLarge => Some("the response is too large"),
        FetchFault::Time => Some("timed out"),
        FetchFault::Room => Some("timed out, waiting for room under fetch_octets"),
        FetchFault::Slow => Some("slower than fetch_speed"),
        FetchFault::NoMemory => Some("out of memory"),
        FetchFault::NoFile => Some("no open file is left for its connection"),
        FetchFault::Cancelled => None,
    }
}

// The line of a fetch that failed, without its end. The URL, which is visible ASCII, is cut to its first octets.
fn fetch_line(
    alloc: Global,
    fetch: u32,
    url: &[u8],
    supplier: Supplier,
    reason: &str,
) -> Result<String, AllocError> {
    let url = url.get(..URL_OCTETS).unwrap_or(url);
    let url = str::from_utf8(url).unwrap_or("?");
    let line = match supplier {
        Supplier::Origin | Supplier::Confirmed | Supplier::Stale(_) => {
            format!(in alloc; "fetch {fetch} of {url} from origin failed: {reason}")
        }
        Supplier::Neighbour(place) => {
            format!(in alloc; "fetch {fetch} of {url} from neighbour/{place} failed: {reason}")
        }
    };
    line.map_err(|_| AllocError)
}

// The line of a look-up that was refused, without its end.
fn look_up_line(alloc: Global, asker: Option<IpAddr>) -> Result<String, AllocError> {
    let Some(asker) = asker else {
        return String::from_str(
            alloc,
            "a look-up was refused: too many names wait for theirs",
        );
    };
    let line = format!(in alloc;
        "a look-up for {asker} was refused: too many names wait for theirs"
    );
    line.map_err(|_| AllocError)
}

// The line of datagrams that were no messages, without its end.
fn malformed_line(alloc: Global, socket: &str, count: u64) -> Result<String, AllocError> {
    let datagrams = if count == 1 { "datagram" } else { "datagrams" };
    let line = format!(in alloc; "{socket}: {count} malformed {datagrams} within the last second");
    line.map_err(|_| AllocError)
}

// Appends the end of a line: how many notices were left out before it, if any.
fn push_end(line: &mut String, left_out: u64) -> Result<(), AllocError> {
    if left_out == 0 {
        return line.push_str("\n");
    }
    write!(
        line,
        " ({left_out} notices before this one were left out)\n"
    )
}
