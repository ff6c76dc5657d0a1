//! Whether a connection to a server lasts beyond an answer, and whether a request that failed on it may be sent once more.
ghost use Rattle.std.specs.Prelude.{◌≡◌, ◌<◌, IfOk, IsErrOf, length};
ghost use Rattle.http_rules.specs.Fields.{fields_of};
ghost use Rattle.http_rules.specs.Forwarding.{options};
ghost use Rattle.http_rules.specs.Retrying.{has_length, has_one_framing, is_without_body, lasts, may_retry};

use crate::fields::has_field;
use crate::forwarding::PassFault;
use crate::options::Options;
use crate::passing::is_unsafe;
use http_header::HeaderMap;
use std::alloc::Global;

/// Whether a connection may carry another request once an answer to GET with this status and head has been read whole (RFC 9112,
/// section 9.3). It may where the answer is one of HTTP/1.1, no option of Connection says close, and the end of its body is known by
/// one framing alone (RFC 9112, section 6.3), or it has none. `is_newest` says whether it is one of HTTP/1.1.
///
/// Errors: the Connection fields have more than 64 elements in all, or out of memory.
pub fn lasts(
    alloc: Global,
    is_newest: bool,
    status: u16,
    head: &HeaderMap,
) -> Result<bool, PassFault>
    ensures value { IfOk result (λ it. it ≡ lasts is_newest status (fields_of head.now)) }
    ensures many { IsErrOf result PassFault.TooManyNames → 64 < length (options (fields_of head.now)) }
{
    let options = Options::of(alloc, head)?;
    let is_open = is_newest && !options.contains(b"close");
    Ok(is_open && has_length(status, head))
}

// Whether where the body of an answer with this status and head ends is told by one framing, or there is none.
fn has_length(status: u16, head: &HeaderMap) -> bool
    ensures { result ≡ has_length status (fields_of head.now) }
{
    is_without_body(status) || has_one_framing(head)
}

// Whether an answer with this status has no body, whatever its fields say.
fn is_without_body(status: u16) -> bool
    ensures { result ≡ is_without_body status }
{
    status == 204 || status == 304
}

// Whether one of both framings is there, and not the other one.
fn has_one_framing(head: &HeaderMap) -> bool
    ensures { result ≡ has_one_framing (fields_of head.now) }
{
    has_field(head, "transfer-encoding") != has_field(head, "content-length")
}

/// Whether a request whose connection ended without an answer may be sent once more over a new one (RFC 9110, section 9.2.2; RFC 9112,
/// section 9.3.1): it was sent over a connection that had been used before, so that its server may have closed it at the same moment;
/// nothing of an answer came, and its method is safe.
pub fn may_retry(method: &str, is_used: bool, has_answer: bool) -> bool
    ensures { result ≡ may_retry method.now is_used has_answer }
{
    is_used && !has_answer && !is_unsafe(method)
}
