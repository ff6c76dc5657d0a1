//! The instruction indices that labels name: lookup and insertion.

ghost use Rattle.std.specs.Prelude.{◌≡◌, ◌+◌, ◌<◌, ◌≤◌, ◌-◌, ◌^◌, ℕ, List, Some, None, IfSome, IsSomeAnd, MatchResult, OnOk, if◌then◌else◌};
ghost use Rattle.std.specs.Str.{bytes_eq};
ghost use Rattle.bpf_check.specs.Accepted.{most_insns};
ghost use Rattle.bpf_asm.specs.Token.{tokens};
ghost use Rattle.bpf_asm.specs.Assembly.{token_lines, label_of, has_body, instruction_index};
ghost use Rattle.bpf_asm.specs.Labels.{place_in, begins_with, behind, found_in, named, LabelKept};
ghost use Rattle.bpf_asm.specs.Drafts.{LabelRefused};

use crate::fault::AsmFault;
use crate::line::{has_body_in, label_in};
use crate::names::{Labels, Names};
use bpf_check::listing::next_line;
use std::alloc::{AllocError, Global};
use std::collections::BTreeMap;

/// The state before the first line of a text.
pub(crate) fn no_names(alloc: Global, text: &[u8]) -> Names<'_>
    ensures text { result.text.now ≡ text.now }
    ensures lines { result.lines ≡ 0 }
    ensures none { (label : List ℕ) → named result label ≡ None }
{
    Names {
        text,
        lines: 0,
        kept: Some(BTreeMap::new(alloc)),
    }
}

// Whether a line begins with this label.
fn begins_with(line: &[u8], label: &[u8]) -> bool
    ensures { result ≡ begins_with (label_of (tokens line.now)) label.now }
{
    match label_in(line) {
        Some(own) => own == label,
        None => false,
    }
}

// The instruction index after a line, where `place` is the index before it.
fn place_after(place: u32, line: &[u8]) -> u32
    requires { place ≤ 65536 }
    ensures { result ≡ behind place (has_body (tokens line.now)) }
{
    if has_body_in(line) { place + 1 } else { place }
}

// The index that a label names on the first `lines` lines of a text, found by scanning them.
fn place_in_text(text: &[u8], lines: usize, label: &[u8]) -> Option<u32>
    requires { instruction_index (token_lines text.now) lines ≤ 65536 }
    ensures { result ≡ found_in (token_lines text.now) lines label.now }
{
    let mut rest = text;
    let mut place = 0;
    for _ in 0..lines {
        let Some((line, after)) = next_line(rest) else {
            return None;
        };
        if begins_with(line, label) {
            return Some(place);
        }
        place = place_after(place, line);
        rest = after;
    }
    None
}

/// The instruction index that a label names, among the lines read so far.
pub(crate) fn label_index(names: &Names<'_>, label: &[u8]) -> Option<u32>
    ensures { result ≡ named names.now label.now }
{
    match &names.kept {
        Some(labels) => labels.get(label).copied(),
        None => place_in_text(names.text, names.lines, label),
    }
}

// Inserts a label with its instruction index.
fn name_place<'a>(labels: &mut Labels<'a>, label: &'a [u8], place: u32) -> Result<(), AllocError>
    ensures { OnOk result ((other : List ℕ) → place_in labels.new other
        ≡ (if bytes_eq label.now other then Some place else place_in labels.old other)) }
{
    labels.insert(label, place)?;
    Ok(())
}

// Inserts a label with its index. Returns `None` if an allocation fails now or failed before.
fn keep_label<'a>(kept: Option<Labels<'a>>, label: &'a [u8], place: u32) -> Option<Labels<'a>>
    ensures { IfSome result (λ new. IsSomeAnd kept.entry (λ old. (other : List ℕ) → place_in new other
        ≡ (if bytes_eq label.now other then Some place else place_in old other))) }
{
    let mut labels = kept?;
    name_place(&mut labels, label, place).ok()?;
    Some(labels)
}

/// Reads the label of the next line, if it has one; `place` is the index that it names. Errors: `DoubleLabel`.
pub(crate) fn name_line<'a>(
    names: Names<'a>,
    place: u32,
    line: &'a [u8],
) -> Result<Names<'a>, AsmFault>
    requires room { names.lines < 2 ^ 64 - 1 }
    requires short { instruction_index (token_lines names.text.now) names.lines ≤ most_insns }
    ensures { MatchResult result
        (λ new. (new.text.now ≡ names.entry.text.now) × (new.lines ≡ names.entry.lines + 1)
        × LabelKept (named names.entry) names.entry.kept new.kept place (label_of (tokens line.now)))
        (λ fault. LabelRefused (named names.entry) (names.entry.lines + 1) (label_of (tokens line.now)) fault) }
{
    let lines = names.lines + 1;
    let Some(label) = label_in(line) else {
        return Ok(Names {
            text: names.text,
            lines,
            kept: names.kept,
        });
    };
    if label_index(&names, label).is_some() {
        return Err(AsmFault::DoubleLabel(lines));
    }
    Ok(Names {
        text: names.text,
        lines,
        kept: keep_label(names.kept, label, place),
    })
}
