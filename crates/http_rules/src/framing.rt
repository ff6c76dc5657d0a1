//! How the end of a body is known.
ghost use Rattle.std.specs.Prelude.{◌≡◌};
ghost use Rattle.http_rules.specs.Fields.{fields_of};
ghost use Rattle.http_rules.specs.Framing.{tells_end};

use crate::fields::has_field;
use http_header::HeaderMap;

/// Whether the head of a response tells where its body ends, by Transfer-Encoding or Content-Length (RFC 9112, section 6.3). The
/// body of one that tells neither ends with its connection, so nobody can know whether all of it came.
pub fn tells_end(head: &HeaderMap) -> bool
    ensures { result ≡ tells_end (fields_of head.now) }
{
    has_field(head, "transfer-encoding") || has_field(head, "content-length")
}
