//! Reads program listings as `tcpdump -ddd` prints them: a line with the number of instructions, then a line for each instruction
//! with its fields `code jt jf k`. Numbers are decimal, separated by spaces and tabs, which may also begin and end a line.

ghost use Rattle.std.specs.Prelude.{◌≡◌, ℕ, ◌+◌, ◌<◌, ◌≤◌, List, [], ◌∷◌, ◌++◌, length, true, false, IfOk, IfErr, IfSome, IsSomeAnd, MatchResult, MatchOption, IsTrue, ◌↔◌};
ghost use Rattle.std.specs.List.{position};
ghost use Rattle.std.specs.Str.Lines.{lines, strip_carriage_return};
ghost use Rattle.bpf_check.specs.declared.insn.Insn.{Insn};
ghost use Rattle.bpf_check.specs.Accepted.{most_insns};
ghost use Rattle.bpf_check.specs.Insn.{InRange};
ghost use Rattle.bpf_check.specs.LineReading.{is_line_feed, is_text, capped, NoNumber, Begins, NotOne, IsOne, AreFour, LineFault, CountFault, NoText, IsFirstText};
ghost use Rattle.bpf_check.specs.Listing.{is_blank, words, are_digits, Says, fields, NotFour, IsListing, IsListingFault, IsTooLarge, fault_number, fault_line};

use crate::checked::MOST_INSNS;
use crate::insn::Insn;
use std::alloc::Global;
use thiserror::Error;

/// Why a listing is refused. The number in a variant is the line number, counted from 1.
#[derive(Clone, Copy, Debug, Error)]
pub enum ListingFault {
    /// The first line is missing, or is not exactly one number.
    #[error("the first line is no number")]
    BadCount,
    /// The line of an instruction is not exactly four numbers.
    #[error("line {0}: not four numbers")]
    BadLine(usize),
    /// A number is out of range for its field.
    #[error("line {0}: a number is above its field")]
    OutOfRange(usize),
    /// The count on the first line exceeds 4,096.
    #[error("more than 4,096 instructions")]
    TooLong,
    /// There are fewer lines of instructions than the first line says.
    #[error("there are fewer instructions than the first line says")]
    Missing,
    /// A line after the last instruction is not blank.
    #[error("line {0}: behind the last instruction")]
    Extra(usize),
    /// Out of memory.
    #[error("no memory was left")]
    NoMemory,
}

impl ListingFault {
    /// The fault's number in printed messages, 1 to 7.
    pub fn number(&self) -> u8
        ensures { result ≡ fault_number self.now }
    {
        match self {
            ListingFault::BadCount => 1,
            ListingFault::BadLine(_) => 2,
            ListingFault::OutOfRange(_) => 3,
            ListingFault::TooLong => 4,
            ListingFault::Missing => 5,
            ListingFault::Extra(_) => 6,
            ListingFault::NoMemory => 7,
        }
    }

    /// The line number, counted from 1, or `None` if the variant carries none.
    pub fn line(&self) -> Option<usize>
        ensures { result ≡ fault_line self.now }
    {
        match self {
            ListingFault::BadLine(line)
            | ListingFault::OutOfRange(line)
            | ListingFault::Extra(line) => Some(*line),
            _ => None,
        }
    }
}

// The index of the first line feed.
fn line_feed_in(text: &[u8]) -> Option<usize>
    ensures { result ≡ position is_line_feed text.now }
{
    text.iter().position(|c| *c == b'\n')
}

// The line without a carriage return at its end.
fn stripped(line: &[u8]) -> &[u8]
    ensures { result.now ≡ strip_carriage_return line.now }
{
    match line {
        [front @ .., b'\r'] => front,
        _ => line,
    }
}

/// Splits a text after its first line: the line and the rest of the text, or `None` if the text is empty. A line ends with LF,
/// which is optional at the end of the text; a CR directly before the LF is dropped.
pub fn next_line(text: &[u8]) -> Option<(&[u8], &[u8])>
    ensures lines { MatchOption result (lines text.now ≡ [])
        (λ split. lines text.now ≡ split.0.now ∷ lines split.1.now) }
    ensures shorter { IfSome result (λ split. length split.1.now < length text.now) }
{
    if text.is_empty() {
        return None;
    }
    let Some(end) = line_feed_in(text) else {
        return Some((text, &[]));
    };
    Some((stripped(&text[..end]), &text[end + 1..]))
}

// The index of the first octet that is not a blank.
fn text_in(line: &[u8]) -> Option<usize>
    ensures { result ≡ position is_text line.now }
{
    line.iter().position(|c| !(*c == b' ' || *c == b'\t'))
}

// The index of the first blank.
fn blank_in(line: &[u8]) -> Option<usize>
    ensures { result ≡ position is_blank line.now }
{
    line.iter().position(|c| *c == b' ' || *c == b'\t')
}

// The first word of a line and the rest of the line, or `None` if the line is blank.
fn next_word(line: &[u8]) -> Option<(&[u8], &[u8])>
    ensures { MatchOption result (words line.now ≡ [])
        (λ split. words line.now ≡ split.0.now ∷ words split.1.now) }
{
    let Some(start) = text_in(line) else {
        return None;
    };
    let word = &line[start..];
    let Some(end) = blank_in(word) else {
        return Some((word, &[]));
    };
    Some((&word[..end], &word[end + 1..]))
}

// The value of a word of decimal digits, saturated at `u64::MAX`, or `None` if an octet is not a digit.
fn number_of(word: &[u8]) -> Option<u64>
    ensures { MatchOption result (are_digits word.now ≡ false)
        (λ n. (are_digits word.now ≡ true) × (n ≡ capped word.now)) }
{
    let mut n: u64 = 0;
    for c in word {
        if !c.is_ascii_digit() {
            return None;
        }
        n = n.saturating_mul(10).saturating_add(u64::from(*c - b'0'));
    }
    Some(n)
}

// The number at the start of a line and the rest of the line, or `None` if the line does not start with a number.
fn next_number(line: &[u8]) -> Option<(u64, &[u8])>
    ensures { MatchOption result (NoNumber (words line.now))
        (λ split. Begins (words line.now) split.0 (words split.1.now)) }
{
    let (word, rest) = next_word(line)?;
    let n = number_of(word)?;
    Some((n, rest))
}

// Whether a line is blank.
fn is_empty_line(line: &[u8]) -> bool
    ensures { IsTrue result ↔ (words line.now ≡ []) }
{
    next_word(line).is_none()
}

// The number on a line, or `None` if the line is not exactly one number.
fn only_number(line: &[u8]) -> Option<u64>
    ensures { MatchOption result (NotOne line.now) (λ n. IsOne line.now n) }
{
    let (n, rest) = next_number(line)?;
    if is_empty_line(rest) { Some(n) } else { None }
}

// The numbers on a line, or `None` if the line is not exactly four numbers.
fn four_numbers(line: &[u8]) -> Option<(u64, u64, u64, u64)>
    ensures { MatchOption result (NotFour line.now) (λ n. AreFour line.now n.0 n.1 n.2 n.3) }
{
    let (code, rest) = next_number(line)?;
    let (jt, rest) = next_number(rest)?;
    let (jf, rest) = next_number(rest)?;
    let (k, rest) = next_number(rest)?;
    if is_empty_line(rest) {
        Some((code, jt, jf, k))
    } else {
        None
    }
}

// The count on the first line.
fn count_of(line: &[u8]) -> Result<usize, ListingFault>
    ensures { MatchResult result (λ n. Says line.now (n ∷ []) × (n ≤ most_insns)) (λ fault. CountFault line.now fault) }
{
    let Some(count) = only_number(line) else {
        return Err(ListingFault::BadCount);
    };
    if count > MOST_INSNS as u64 {
        return Err(ListingFault::TooLong);
    }
    Ok(count as usize)
}

// The instruction with these fields, or `None` if one is out of range.
fn insn_with(code: u64, jt: u64, jf: u64, k: u64) -> Option<Insn>
    ensures { MatchOption result (IsTooLarge code jt jf k)
        (λ i. InRange i × (i.code ≡ code) × (i.jt ≡ jt) × (i.jf ≡ jf) × (i.k ≡ k)) }
{
    Some(Insn {
        code: u16::try_from(code).ok()?,
        jt: u8::try_from(jt).ok()?,
        jf: u8::try_from(jf).ok()?,
        k: u32::try_from(k).ok()?,
    })
}

// The instruction on a line; `at` is the line number, counted from 1.
fn insn_of(line: &[u8], at: usize) -> Result<Insn, ListingFault>
    ensures { MatchResult result (λ i. Says line.now (fields i) × InRange i) (λ fault. LineFault line.now at fault) }
{
    let Some((code, jt, jf, k)) = four_numbers(line) else {
        return Err(ListingFault::BadLine(at));
    };
    match insn_with(code, jt, jf, k) {
        Some(insn) => Ok(insn),
        None => Err(ListingFault::OutOfRange(at)),
    }
}

/// Appends an instruction. Returns `None` if an allocation fails now or failed before; reading goes on without the
/// instructions, since a fault of the text takes precedence over `NoMemory`.
pub fn keep(kept: Option<Vec<Insn>>, insn: Insn) -> Option<Vec<Insn>>
    ensures { IfSome result (λ new. IsSomeAnd kept (λ old. new.items ≡ old.items ++ insn ∷ [])) }
{
    let mut insns = kept?;
    insns.push(insn).ok()?;
    Some(insns)
}

// How many lines precede the first one that is not blank, or `None` if all are blank.
fn first_text_in(text: &[u8]) -> Option<usize>
    ensures place { MatchOption result (NoText (lines text.now)) (λ at. IsFirstText (lines text.now) at) }
    ensures within { IfSome result (λ at. at < length text.now) }
{
    let mut rest = text;
    let mut at = 0;
    while let Some((line, after)) = next_line(rest) {
        if !is_empty_line(line) {
            return Some(at);
        }
        rest = after;
        at += 1;
    }
    None
}

// The instructions of a listing.
fn read(alloc: Global, text: &[u8]) -> Result<Vec<Insn>, ListingFault>
    ensures { MatchResult result (λ v. IsListing (lines text.now) v.items) (λ fault. IsListingFault (lines text.now) fault) }
{
    let Some((first, behind)) = next_line(text) else {
        return Err(ListingFault::BadCount);
    };
    let count = count_of(first)?;
    let mut rest = behind;
    let mut kept = Some(Vec::new(alloc));
    for place in 0..count {
        let Some((line, after)) = next_line(rest) else {
            return Err(ListingFault::Missing);
        };
        kept = keep(kept, insn_of(line, place + 2)?);
        rest = after;
    }
    if let Some(more) = first_text_in(rest) {
        return Err(ListingFault::Extra(count + 2 + more));
    }
    match kept {
        Some(insns) => Ok(insns),
        None => Err(ListingFault::NoMemory),
    }
}

/// Reads the instructions of a listing.
///
/// Errors: the first fault of the text. `BadCount` and `TooLong` come first, then the faults of the lines in order; `Missing`
/// counts at the first absent line. `NoMemory` is returned only if the text has no fault.
pub fn read_listing(alloc: Global, text: &[u8]) -> Result<Vec<Insn>, ListingFault>
    ensures listing { IfOk result (λ v. IsListing (lines text.now) v.items) }
    ensures only { (p : List Insn) → IsListing (lines text.now) p
        → MatchResult result (λ v. v.items ≡ p) (λ fault. fault ≡ ListingFault.NoMemory) }
    ensures fault { IfErr result (λ fault. IsListingFault (lines text.now) fault) }
{
    read(alloc, text)
}
