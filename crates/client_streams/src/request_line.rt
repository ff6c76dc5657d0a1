//! Whether the line of a request is that of an OPTIONS for a URL without a path, told as its octets come.

// What the line of such a request begins with. The scheme may have capital letters.
const FRONT: &[u8] = b"OPTIONS http://";

// The place of the scheme in it.
const SCHEME: usize = 8;

/// How far the line of a request has come that may be that of an OPTIONS for an `http` URL with nothing behind its host and port (RFC
/// 9112, section 3.2.4).
#[derive(Clone, Copy)]
pub(crate) enum RequestLine {
    /// So many octets of `OPTIONS http://` have come, and none behind them.
    Front(usize),
    /// Its host and port are coming.
    Host,
    /// It is the line of such a request.
    NoPath,
    /// It is another line.
    Other,
}

impl RequestLine {
    /// Nothing of it has come.
    pub(crate) const BEGIN: RequestLine = RequestLine::Front(0);

    /// How far it has come once these octets have, too.
    pub(crate) fn behind(self, octets: &[u8]) -> RequestLine {
        let mut line = self;
        for &octet in octets {
            match line {
                RequestLine::NoPath | RequestLine::Other => return line,
                RequestLine::Front(count) => line = behind_front(count, octet),
                RequestLine::Host => line = behind_host(octet),
            }
        }
        line
    }

    /// Whether it is known to be the line of such a request.
    pub(crate) fn has_no_path(self) -> bool {
        match self {
            RequestLine::NoPath => true,
            RequestLine::Front(_) | RequestLine::Host | RequestLine::Other => false,
        }
    }
}

// How far a line has come with this octet behind so many of what it begins with. Empty lines may stand before it (RFC 9112, section 2.2).
fn behind_front(count: usize, octet: u8) -> RequestLine {
    if count == 0 && (octet == b'\r' || octet == b'\n') {
        return RequestLine::BEGIN;
    }
    let wanted = if count < SCHEME {
        octet
    } else {
        octet.to_ascii_lowercase()
    };
    match FRONT.get(count) {
        Some(&next) if next == wanted && count + 1 == FRONT.len() => RequestLine::Host,
        Some(&next) if next == wanted => RequestLine::Front(count + 1),
        _ => RequestLine::Other,
    }
}

// How far a line has come with this octet behind a part of its host and port, or behind nothing of them.
fn behind_host(octet: u8) -> RequestLine {
    match octet {
        b' ' => RequestLine::NoPath,
        b'/' | b'?' | b'\r' | b'\n' => RequestLine::Other,
        _ => RequestLine::Host,
    }
}
