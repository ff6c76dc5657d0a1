//! Texts of the proxy's own responses.
use std::alloc::{AllocError, Global};

// The most octets of a target that a text quotes.
const MOST_SHOWN: usize = 1024;

/// The reason that a status of the proxy itself stands for.
pub(crate) fn reason(status: u16) -> &'static str {
    match status {
        400 =>
            "Bad Request: the target is not an http URL, the content is broken, or Connection has over 64 names",
        401 => "Unauthorized: a change needs the administrator's token",
        403 => "Forbidden: this proxy may not fetch from this address or port",
        404 => "Not Found",
        409 => "Conflict: a capture is under way, and there is one at a time",
        413 => "Content Too Large",
        414 => "URI Too Long: a URL may have 8192 octets",
        501 => "Not Implemented: only GET is served",
        502 => "Bad Gateway: no server gave a whole answer in time",
        508 => "Loop Detected: this request has come through this proxy before",
        504 => "Gateway Timeout: the cache has it not, and may not ask others",
        _ => "Service Unavailable: too many requests, no server to ask, or no memory",
    }
}

/// The reason of 501 where other methods than GET are served.
pub(crate) const UNSERVED: &'static str = "Not Implemented: this method is not served";

/// The reason of 504 where the request was passed on.
pub(crate) const SILENT: &'static str = "Gateway Timeout: the server gave no answer in time";

/// The reason that a status stands for where a request to open a tunnel gets it.
pub(crate) fn tunnel_reason(status: u16) -> &'static str {
    match status {
        400 => "Bad Request: a tunnel leads to a name or an address, and a port",
        403 => "Forbidden: this proxy may not open a tunnel to this address or port",
        502 => "Bad Gateway: the server of the tunnel refuses, or its name has no address",
        504 => "Gateway Timeout: the server of the tunnel was not reached in time",
        _ => reason(status),
    }
}

/// A line with the status and its reason, then a line with the target, cut to 1,024 octets. No second line for an empty target.
pub(crate) fn text_of(alloc: Global, status: u16, target: &[u8]) -> Result<Vec<u8>, AllocError> {
    text_with(alloc, status, reason(status), target)
}

/// A line with the status and this reason, then a line with the target, cut to 1,024 octets. No second line for an empty target.
pub(crate) fn text_with(
    alloc: Global,
    status: u16,
    reason: &str,
    target: &[u8],
) -> Result<Vec<u8>, AllocError> {
    let line = format!(in alloc; "{} {}\n", status, reason)?;
    let mut text = line.into_bytes();
    if target.is_empty() {
        return Ok(text);
    }
    let shown = target.len().min(MOST_SHOWN);
    text.extend_from_slice(&target[..shown])?;
    text.push(b'\n')?;
    Ok(text)
}

/// Why a log is not opened anew.
pub(crate) fn no_log(alloc: Global) -> Result<Vec<u8>, AllocError> {
    b"404 Not Found: the configuration names no access log\n".to_vec(alloc)
}

/// What follows a request to stop.
pub(crate) fn stopping(alloc: Global) -> Result<Vec<u8>, AllocError> {
    b"202 Accepted: no more clients are accepted, and those connected have the grace to end; a second stop ends it at once\n".to_vec(
        alloc,
    )
}

/// Why a request to the administration is not answered.
pub(crate) fn not_administrator(alloc: Global) -> Result<Vec<u8>, AllocError> {
    b"403 Forbidden: Host has to be 127.0.0.1 or localhost with this port, without Via and without an Origin of elsewhere\n".to_vec(
        alloc,
    )
}

/// What a client is told that is not admitted.
pub(crate) const FORBIDDEN: &str = "403 Forbidden: this address may not use this proxy\n";

/// A complete 403 response, for a client that is not admitted.
pub(crate) fn forbidden(alloc: Global) -> Result<Vec<u8>, AllocError> {
    let body = FORBIDDEN;
    let text = format!(in alloc;
        "HTTP/1.1 403 Forbidden\r\ncontent-type: text/plain\r\ncontent-length: {}\r\nconnection: close\r\n\r\n{}",
        body.len(),
        body
    )?;
    Ok(text.into_bytes())
}
