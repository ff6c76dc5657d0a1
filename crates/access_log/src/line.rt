//! The line of an entry.
ghost use Rattle.std.specs.Prelude.{◌≡◌, ◌++◌, IfOk, OnOk};
ghost use Rattle.access_log.specs.Line.{IsLine, IsOneLine};
ghost use Rattle.access_log.specs.Pieces.{pieces_of};

use crate::common::push_common_line;
use crate::entry::{Entry, Form};
use crate::json::push_json_line;
use crate::printable::address_is_printable;
use crate::stamp::{Stamp, date_of, stamp_of};
use std::alloc::{AllocError, Global};

// Appends the text of a line in this form.
#[tactic(auto, unfolding(crate::specs::Pieces::pieces_of))]
fn push_line_text(
    line: &mut Vec<u8>,
    alloc: Global,
    form: Form,
    stamp: &Stamp,
    entry: &Entry,
) -> Result<(), AllocError>
    ensures { OnOk result (line.new.items ≡ line.old.items ++ pieces_of form stamp.now entry.now) }
{
    match form {
        Form::Common => push_common_line(line, alloc, stamp, entry),
        Form::Json => push_json_line(line, alloc, stamp, entry),
    }
}

/// The line of an entry, with a line feed at its end. What a client wrote (method, target, Referer, User-Agent) is cut to 8,192
/// octets, and each octet of it that is no printable ASCII, or is a quote or a backslash, is written as `\xHH`, in JSON as
/// `\u00HH`. Spaces in method and target stay as they are: HTTP's grammar has none there. The status is 408 where the proxy closed
/// the connection since the client was silent for too long (the caller gives `Some(408)`), and 499, as nginx writes it, where the
/// connection ended otherwise before there was an answer (`None`). The protocol is HTTP/1.1 whatever the client spoke. A moment
/// past the year 9999 is shown as the last millisecond of that year. Errors: out of memory.
pub fn line_of(alloc: Global, form: Form, entry: &Entry) -> Result<Vec<u8>, AllocError>
    ensures exact { IfOk result (λ line. IsLine form entry.now line.items) }
    ensures safe { IfOk result (λ line. IsOneLine line.items) }
{
    let entry = *entry;
    let date = date_of(entry.millis);
    let stamp = stamp_of(&date);
    address_is_printable(entry.client);
    let mut line = Vec::new(alloc);
    push_line_text(&mut line, alloc, form, &stamp, &entry)?;
    line.extend_from_slice(b"\n")?;
    Ok(line)
}
