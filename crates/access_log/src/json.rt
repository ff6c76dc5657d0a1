//! Lines in JSON.
ghost use Rattle.std.specs.Prelude.{◌≡◌, ◌++◌, codes, OnOk};
ghost use Rattle.access_log.specs.Line.{truth_text};
ghost use Rattle.access_log.specs.Pieces.{json_answered, json_asked, json_course, json_pieces, member_text, named_text};

use crate::entry::{Entry, Form};
use crate::parts::{push_address, push_course, push_number, push_status, push_supplier, push_text};
use crate::stamp::{Stamp, push_json_time, shown_moment};
use std::alloc::{AllocError, Global};

// Appends whether something is so.
#[tactic(auto, unfolding(crate::specs::Line::truth_text))]
fn push_truth(line: &mut Vec<u8>, is_so: bool) -> Result<(), AllocError>
    ensures { OnOk result (line.new.items ≡ line.old.items ++ truth_text is_so) }
{
    if is_so {
        line.extend_from_slice(b"true")
    } else {
        line.extend_from_slice(b"false")
    }
}

// Appends a member whose value is what a client wrote.
#[tactic(auto, unfolding(crate::specs::Pieces::named_text))]
fn push_named(line: &mut Vec<u8>, name: &[u8], text: &[u8]) -> Result<(), AllocError>
    ensures { OnOk result (line.new.items ≡ line.old.items ++ named_text name.now text.now) }
{
    line.extend_from_slice(b",\"")?;
    line.extend_from_slice(name)?;
    line.extend_from_slice(b"\":\"")?;
    push_text(line, Form::Json, text)?;
    line.extend_from_slice(b"\"")
}

// The same, unless the text is empty.
#[tactic(auto, unfolding(crate::specs::Pieces::member_text))]
fn push_member(line: &mut Vec<u8>, name: &[u8], text: &[u8]) -> Result<(), AllocError>
    ensures { OnOk result (line.new.items ≡ line.old.items ++ member_text name.now text.now) }
{
    if text.is_empty() {
        Ok(())
    } else {
        push_named(line, name, text)
    }
}

// Appends who asked for what, and when that ended.
#[tactic(auto, unfolding(crate::specs::Pieces::json_asked))]
fn push_asked(
    line: &mut Vec<u8>,
    alloc: Global,
    stamp: &Stamp,
    entry: &Entry,
) -> Result<(), AllocError>
    ensures { OnOk result (line.new.items ≡ line.old.items ++ json_asked stamp.now entry.now) }
{
    line.extend_from_slice(b"\"time\":\"")?;
    push_json_time(line, stamp, shown_moment(entry.millis))?;
    line.extend_from_slice(b"\",\"client\":\"")?;
    push_address(line, alloc, entry.client)?;
    line.extend_from_slice(b"\"")?;
    push_named(line, b"method", entry.method)?;
    push_named(line, b"url", entry.url)
}

// Appends what was answered.
#[tactic(auto, unfolding(crate::specs::Pieces::json_answered))]
fn push_answered(line: &mut Vec<u8>, entry: &Entry) -> Result<(), AllocError>
    ensures { OnOk result (line.new.items ≡ line.old.items ++ json_answered entry.now) }
{
    line.extend_from_slice(b",\"status\":")?;
    push_status(line, entry.status)?;
    line.extend_from_slice(b",\"octets\":")?;
    push_number(line, entry.octets)?;
    line.extend_from_slice(b",\"ms\":")?;
    push_number(line, entry.taken)
}

// Appends how it was answered with whose object.
#[tactic(auto, unfolding(crate::specs::Pieces::json_course))]
fn push_ending(line: &mut Vec<u8>, entry: &Entry) -> Result<(), AllocError>
    ensures { OnOk result (line.new.items ≡ line.old.items ++ json_course entry.now) }
{
    line.extend_from_slice(b",\"how\":\"")?;
    push_course(line, entry.course)?;
    line.extend_from_slice(b"\",\"source\":\"")?;
    push_supplier(line, entry.supplier)?;
    line.extend_from_slice(b"\",\"whole\":")?;
    push_truth(line, entry.is_whole)
}

/// Appends the line of an entry, but for its line feed. Errors: out of memory.
#[tactic(auto, unfolding(crate::specs::Pieces::json_pieces))]
pub(crate) fn push_json_line(
    line: &mut Vec<u8>,
    alloc: Global,
    stamp: &Stamp,
    entry: &Entry,
) -> Result<(), AllocError>
    ensures { OnOk result (line.new.items ≡ line.old.items ++ json_pieces stamp.now entry.now) }
{
    line.extend_from_slice(b"{")?;
    push_asked(line, alloc, stamp, entry)?;
    push_answered(line, entry)?;
    push_ending(line, entry)?;
    push_member(line, b"referer", entry.referer)?;
    push_member(line, b"agent", entry.agent)?;
    line.extend_from_slice(b"}")
}
