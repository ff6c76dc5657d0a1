//! Lines in NCSA's combined format.
ghost use Rattle.std.specs.Prelude.{◌≡◌, ◌++◌, codes, OnOk};
ghost use Rattle.access_log.specs.Escaped.{escaped_or_dash};
ghost use Rattle.access_log.specs.Line.{request_text};
ghost use Rattle.access_log.specs.Pieces.{common_answered, common_asked, common_course, common_pieces};

use crate::entry::{Entry, Form};
use crate::parts::{push_address, push_course, push_number, push_status, push_supplier, push_text};
use crate::stamp::{Stamp, push_common_time};
use std::alloc::{AllocError, Global};

// Appends a text that a client wrote, or `-` for none.
#[tactic(auto, unfolding(crate::specs::Escaped::escaped_or_dash))]
fn push_text_or_dash(line: &mut Vec<u8>, text: &[u8]) -> Result<(), AllocError>
    ensures { OnOk result (line.new.items ≡ line.old.items ++ escaped_or_dash text.now) }
{
    if text.is_empty() {
        line.extend_from_slice(b"-")
    } else {
        push_text(line, Form::Common, text)
    }
}

// Appends method, target and protocol.
#[tactic(auto, unfolding(crate::specs::Line::request_text))]
fn push_request(line: &mut Vec<u8>, entry: &Entry) -> Result<(), AllocError>
    ensures { OnOk result (line.new.items ≡ line.old.items ++ request_text entry.now) }
{
    if entry.method.is_empty() {
        return line.extend_from_slice(b"-");
    }
    push_text(line, Form::Common, entry.method)?;
    line.extend_from_slice(b" ")?;
    push_text(line, Form::Common, entry.url)?;
    line.extend_from_slice(b" HTTP/1.1")
}

// Appends who asked for what, and when that ended.
#[tactic(auto, unfolding(crate::specs::Pieces::common_asked))]
fn push_asked(
    line: &mut Vec<u8>,
    alloc: Global,
    stamp: &Stamp,
    entry: &Entry,
) -> Result<(), AllocError>
    ensures { OnOk result (line.new.items ≡ line.old.items ++ common_asked stamp.now entry.now) }
{
    push_address(line, alloc, entry.client)?;
    line.extend_from_slice(b" - - [")?;
    push_common_time(line, stamp)?;
    line.extend_from_slice(b"] \"")?;
    push_request(line, entry)?;
    line.extend_from_slice(b"\" ")
}

// Appends what was answered, and two fields of the request.
#[tactic(auto, unfolding(crate::specs::Pieces::common_answered))]
fn push_answered(line: &mut Vec<u8>, entry: &Entry) -> Result<(), AllocError>
    ensures { OnOk result (line.new.items ≡ line.old.items ++ common_answered entry.now) }
{
    push_status(line, entry.status)?;
    line.extend_from_slice(b" ")?;
    push_number(line, entry.octets)?;
    line.extend_from_slice(b" \"")?;
    push_text_or_dash(line, entry.referer)?;
    line.extend_from_slice(b"\" \"")?;
    push_text_or_dash(line, entry.agent)?;
    line.extend_from_slice(b"\" ")
}

// Appends how it was answered with whose object, and how long that took.
#[tactic(auto, unfolding(crate::specs::Pieces::common_course))]
fn push_ending(line: &mut Vec<u8>, entry: &Entry) -> Result<(), AllocError>
    ensures { OnOk result (line.new.items ≡ line.old.items ++ common_course entry.now) }
{
    line.extend_from_slice(b"\"")?;
    push_course(line, entry.course)?;
    line.extend_from_slice(b" ")?;
    push_supplier(line, entry.supplier)?;
    line.extend_from_slice(b"\" ")?;
    push_number(line, entry.taken)
}

/// Appends the line of an entry, but for its line feed. Errors: out of memory.
#[tactic(auto, unfolding(crate::specs::Pieces::common_pieces))]
pub(crate) fn push_common_line(
    line: &mut Vec<u8>,
    alloc: Global,
    stamp: &Stamp,
    entry: &Entry,
) -> Result<(), AllocError>
    ensures { OnOk result (line.new.items ≡ line.old.items ++ common_pieces stamp.now entry.now) }
{
    push_asked(line, alloc, stamp, entry)?;
    push_answered(line, entry)?;
    push_ending(line, entry)
}
