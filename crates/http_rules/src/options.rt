//! The options of Connection fields (RFC 9110, section 7.6.1).
ghost use Rattle.std.specs.Prelude.{◌≡◌, ◌<◌, ◌≤◌, ◌==◌, ◌∷◌, ◌++◌, ◌||◌, [], List, ℕ, IfOk, OnOk, IsErrOf, bytes_eq, length};
ghost use Rattle.std.specs.Option.{option_copied};
ghost use Rattle.std.specs.List.{position_or_len, slice_split};
ghost use Rattle.http_header.specs.Token.{lowercase};
ghost use Rattle.http_rules.specs.Fields.{fields_of};
ghost use Rattle.http_rules.specs.Forwarding.{option_of, options_in, options};
ghost use Rattle.http_rules.specs.Elements.{octets_left};
ghost use Rattle.http_rules.specs.Options.{Collects, has_name, parts_left, unless_empty};

use crate::fields::values_of;
use crate::forwarding::PassFault;
use crate::text::trimmed;
use http_header::HeaderMap;
use std::alloc::{AllocError, Global};
use std::collections::BTreeSet;

/// The most options in the Connection fields of a head.
const MOST_OPTIONS: usize = 64;

/// The options of the Connection fields of a head.
#[derive(Drop)]
pub(crate) struct Options {
    // The options in lower case.
    names: BTreeSet<Vec<u8>>,
    // How many there are, counting each occurrence.
    count: usize,
}

impl Options {
    /// The options of the Connection fields of a head. Errors: more than 64, or out of memory.
    pub(crate) fn of(alloc: Global, head: &HeaderMap) -> Result<Options, PassFault>
        ensures ok { IfOk result (λ found. Collects found [] (options (fields_of head.now))) }
        ensures many { IsErrOf result PassFault.TooManyNames → 64 < length (options (fields_of head.now)) }
    {
        let mut found = Options::none(alloc);
        for value in values_of(head, "connection") {
            found.add_value(alloc, value.as_bytes())?;
        }
        Ok(found)
    }

    // No options.
    fn none(alloc: Global) -> Options
        ensures { (whole : List (List ℕ)) → Collects result whole whole }
    {
        Options {
            names: BTreeSet::new(alloc),
            count: 0,
        }
    }

    // Adds the options of one value. Errors: more than 64, or out of memory.
    fn add_value(&mut self, alloc: Global, value: &[u8]) -> Result<(), PassFault>
        ensures ok { (rest whole : List (List ℕ)) → Collects self.old (options_in value.now ++ rest) whole → OnOk result (Collects self.new rest whole) }
        ensures many { (rest whole : List (List ℕ)) → Collects self.old (options_in value.now ++ rest) whole → IsErrOf result PassFault.TooManyNames → 64 < length whole }
    {
        let mut rest = Some(value);
        while let Some(text) = rest {
            let (part, others) = split_part(text);
            self.add_part(alloc, part)?;
            rest = others;
        }
        Ok(())
    }

    // Adds one list element, unless it is empty. Errors: more than 64 options, or out of memory.
    fn add_part(&mut self, alloc: Global, part: &[u8]) -> Result<(), PassFault>
        ensures ok { (rest whole : List (List ℕ)) → Collects self.old (unless_empty (option_of part.now) rest) whole → OnOk result (Collects self.new rest whole) }
        ensures many { (rest whole : List (List ℕ)) → Collects self.old (unless_empty (option_of part.now) rest) whole → IsErrOf result PassFault.TooManyNames → 64 < length whole }
    {
        let name = trimmed(part);
        if name.is_empty() {
            return Ok(());
        }
        self.add(alloc, name)
    }

    // Adds one option. Errors: more than 64, or out of memory.
    fn add(&mut self, alloc: Global, name: &[u8]) -> Result<(), PassFault>
        ensures ok { (rest whole : List (List ℕ)) → Collects self.old (lowercase name.now ∷ rest) whole → OnOk result (Collects self.new rest whole) }
        ensures many { (rest whole : List (List ℕ)) → Collects self.old (lowercase name.now ∷ rest) whole → IsErrOf result PassFault.TooManyNames → 64 < length whole }
    {
        if self.count >= MOST_OPTIONS {
            return Err(PassFault::TooManyNames);
        }
        let name = name.to_ascii_lowercase(alloc)?;
        put(&mut self.names, name)?;
        self.count += 1;
        Ok(())
    }

    /// Whether this name is one of the options. `name` is in lower case.
    pub(crate) fn contains(&self, name: &[u8]) -> bool
        ensures { result ≡ has_name self.now.names name.now }
    {
        self.names.contains(name)
    }
}

// Puts a name into a set. Errors: out of memory.
fn put(names: &mut BTreeSet<Vec<u8>>, name: Vec<u8>) -> Result<(), AllocError>
    ensures { (other : List ℕ) → OnOk result (has_name names.new other ≡ (bytes_eq name.items other || has_name names.old other)) }
{
    match names.insert(name) {
        Ok(_) => Ok(()),
        Err(refused) => Err(AllocError::from(refused)),
    }
}

// Splits off the first list element; the rest, after the comma, is `None` if there is no comma.
fn split_part(text: &[u8]) -> (&[u8], Option<&[u8]>)
    ensures value { slice_split (λ c. c == 44) text.now ≡ result.0.now ∷ parts_left (option_copied result.1) }
    ensures less { octets_left (option_copied result.1) ≤ length text.now }
{
    let end = part_len(text);
    if end < text.len() {
        let (_, others) = text.split_at(end + 1);
        (&text[..end], Some(others))
    } else {
        (text, None)
    }
}

// The length of the first list element of a text.
fn part_len(text: &[u8]) -> usize
    ensures value { result ≡ position_or_len (λ c. c == 44) text.now }
    ensures bound { result ≤ length text.now }
{
    for i in 0..text.len() {
        if text[i] == b',' {
            return i;
        }
    }
    text.len()
}
