//! The directives of Cache-Control fields (RFC 9111, section 5.2).
ghost use Rattle.std.specs.Prelude.{◌≡◌, ◌==◌, ◌≤◌, ◌∷◌, ◌++◌, [], ◌||◌, List, ℕ, false, length, bytes_eq, option_map, IfSome};
ghost use Rattle.std.specs.Option.{option_copied, option_or};
ghost use Rattle.std.specs.List.{position_or_len};
ghost use Rattle.http_header.specs.Token.{lowercase};
ghost use Rattle.http_rules.specs.Fields.{fields_of};
ghost use Rattle.http_rules.specs.Directives.{place_after, is_separator, ends_name, directive_of, directives_in, elements_from, first_argument, argument_seconds, is_quoted, is_unclosed};
ghost use Rattle.http_rules.specs.Elements.{element_len, elements_left, octets_left, Completes, Finds};
ghost use Rattle.http_rules.specs.Forbidding.{before_semicolon};
ghost use Rattle.http_rules.specs.Loops.{is_blank};

use crate::fields::values_of;
use crate::seconds::{seconds, unquoted};
use crate::text::{is_name, trimmed};
use http_header::HeaderMap;

/// The quoting state of a scan through a field value.
#[derive(Clone, Copy)]
pub(crate) enum Place {
    /// Outside double quotes.
    Plain,
    /// Inside double quotes.
    Quoted,
    /// Inside double quotes, after a backslash.
    Escaped,
}

impl Place {
    /// The state after this octet.
    pub(crate) fn after(self, octet: u8) -> Place
        ensures { result ≡ place_after self octet }
    {
        match self {
            Place::Plain => {
                if octet == b'"' {
                    Place::Quoted
                } else {
                    Place::Plain
                }
            }
            Place::Quoted => match octet {
                b'"' => Place::Plain,
                b'\\' => Place::Escaped,
                _ => Place::Quoted,
            },
            Place::Escaped => Place::Quoted,
        }
    }

    /// Whether this octet, read in this state, ends a list element.
    fn is_separator(self, octet: u8) -> bool
        ensures { result ≡ is_separator self octet }
    {
        match self {
            Place::Plain => octet == b',',
            Place::Quoted | Place::Escaped => false,
        }
    }

    /// Whether this octet, read in this state, is a space or a tab outside double quotes.
    pub(crate) fn is_blank(self, octet: u8) -> bool
        ensures { result ≡ is_blank self octet }
    {
        match self {
            Place::Plain => octet == b' ' || octet == b'\t',
            Place::Quoted | Place::Escaped => false,
        }
    }

    /// Whether the state is inside double quotes.
    fn is_quoted(self) -> bool
        ensures { result ≡ is_quoted self }
    {
        match self {
            Place::Plain => false,
            Place::Quoted | Place::Escaped => true,
        }
    }
}

/// Whether a value has an unclosed double quote.
pub(crate) fn is_unclosed(value: &[u8]) -> bool
    ensures { result ≡ is_unclosed value.now }
{
    let mut place = Place::Plain;
    for i in 0..value.len() {
        place = place.after(value[i]);
    }
    place.is_quoted()
}

// The length of the first list element of a text.
fn element_len(text: &[u8]) -> usize
    ensures value { result ≡ element_len Place.Plain text.now }
    ensures bound { result ≤ length text.now }
{
    let mut place = Place::Plain;
    for i in 0..text.len() {
        if place.is_separator(text[i]) {
            return i;
        }
        place = place.after(text[i]);
    }
    text.len()
}

/// Splits off the first list element; the rest, after the comma, is `None` if there is no comma.
pub(crate) fn split_element(text: &[u8]) -> (&[u8], Option<&[u8]>)
    ensures value { elements_from Place.Plain text.now ≡ result.0.now ∷ elements_left (option_copied result.1) }
    ensures less { octets_left (option_copied result.1) ≤ length text.now }
{
    let end = element_len(text);
    if end < text.len() {
        let (_, others) = text.split_at(end + 1);
        (&text[..end], Some(others))
    } else {
        (text, None)
    }
}

// Whether an octet ends the name of a directive: `=`, space or tab.
fn ends_name(octet: u8) -> bool
    ensures { result ≡ ends_name octet }
{
    octet == b'=' || (octet == b' ' || octet == b'\t')
}

// The length of the name at the beginning of a directive.
fn name_len(text: &[u8]) -> usize
    ensures value { result ≡ position_or_len ends_name text.now }
    ensures bound { result ≤ length text.now }
{
    for i in 0..text.len() {
        if ends_name(text[i]) {
            return i;
        }
    }
    text.len()
}

// No directive that the rules ask for has a shorter name.
const SHORTEST_NAME: usize = 7;

/// The directives of the Cache-Control fields of a head that the rules ask for.
#[derive(Clone, Copy)]
pub(crate) struct Directives {
    /// Whether there is `only-if-cached`.
    pub(crate) only_if_cached: bool,
    /// Whether there is `no-cache`.
    pub(crate) no_cache: bool,
    /// Whether there is `no-store`.
    pub(crate) no_store: bool,
    /// Whether there is `private`.
    pub(crate) private: bool,
    /// Whether there is `no-cache`, perhaps before a semicolon.
    pub(crate) loose_no_cache: bool,
    /// Whether there is `no-store`, perhaps before a semicolon.
    pub(crate) loose_no_store: bool,
    /// The seconds of the first `s-maxage`, `Some(None)` if its argument is no number.
    pub(crate) s_maxage: Option<Option<u32>>,
    /// The seconds of the first `max-age`, `Some(None)` if its argument is no number.
    pub(crate) max_age: Option<Option<u32>>,
    /// The seconds of the first `min-fresh`, `Some(None)` if its argument is no number.
    pub(crate) min_fresh: Option<Option<u32>>,
    /// Whether some value has an unclosed double quote, so that directives after the quote cannot be recognized.
    pub(crate) unclosed: bool,
}

impl Directives {
    /// The directives of all Cache-Control fields of a head, each of which is read once.
    pub(crate) fn of(head: &HeaderMap) -> Directives
        ensures { Finds result (fields_of head.now) }
    {
        let mut found = Directives::none();
        for value in values_of(head, "cache-control") {
            found = found.and_value(value.as_bytes());
        }
        found
    }

    // No directives.
    fn none() -> Directives
        ensures open { result.unclosed ≡ false }
        ensures found { (whole : List (List ℕ × List ℕ)) → Completes result whole whole }
    {
        Directives {
            only_if_cached: false,
            no_cache: false,
            no_store: false,
            private: false,
            loose_no_cache: false,
            loose_no_store: false,
            s_maxage: None,
            max_age: None,
            min_fresh: None,
            unclosed: false,
        }
    }

    // These directives and, after them, those of one more value.
    fn and_value(self, value: &[u8]) -> Directives
        ensures open { result.unclosed ≡ (self.unclosed || is_unclosed value.now) }
        ensures found { (rest whole : List (List ℕ × List ℕ)) → Completes self (directives_in value.now ++ rest) whole → Completes result rest whole }
    {
        let read = self.and_directives(value);
        Directives {
            unclosed: self.unclosed || is_unclosed(value),
            ..read
        }
    }

    // These directives and, after them, those of one more value, whose quotes are not looked at.
    fn and_directives(self, value: &[u8]) -> Directives
        ensures { (rest whole : List (List ℕ × List ℕ)) → Completes self (directives_in value.now ++ rest) whole → Completes result rest whole }
    {
        let mut found = self;
        let mut rest = Some(value);
        while let Some(text) = rest {
            let (element, others) = split_element(text);
            found = found.and_element(element);
            rest = others;
        }
        found
    }

    // These directives and, after them, that of one more list element.
    fn and_element(self, element: &[u8]) -> Directives
        ensures { (rest whole : List (List ℕ × List ℕ)) → Completes self (directive_of element.now ∷ rest) whole → Completes result rest whole }
    {
        let (name, argument) = split_directive(element);
        if name.len() < SHORTEST_NAME {
            return self;
        }
        let front = before_semicolon(name);
        let only_if_cached = or_named(self.only_if_cached, name, b"only-if-cached");
        let no_cache = or_named(self.no_cache, name, b"no-cache");
        let no_store = or_named(self.no_store, name, b"no-store");
        let private = or_named(self.private, name, b"private");
        let loose_no_cache = or_named(self.loose_no_cache, front, b"no-cache");
        let loose_no_store = or_named(self.loose_no_store, front, b"no-store");
        let s_maxage = or_seconds(self.s_maxage, name, argument, b"s-maxage");
        let max_age = or_seconds(self.max_age, name, argument, b"max-age");
        let min_fresh = or_seconds(self.min_fresh, name, argument, b"min-fresh");
        Directives {
            only_if_cached,
            no_cache,
            no_store,
            private,
            loose_no_cache,
            loose_no_store,
            s_maxage,
            max_age,
            min_fresh,
            unclosed: self.unclosed,
        }
    }
}

/// The name of a directive up to its first semicolon.
pub(crate) fn before_semicolon(name: &[u8]) -> &[u8]
    ensures value { lowercase result.now ≡ before_semicolon (lowercase name.now) }
    ensures bound { length result.now ≤ length name.now }
{
    &name[..semicolon(name)]
}

// The place of the first semicolon, or the length.
fn semicolon(text: &[u8]) -> usize
    ensures value { result ≡ position_or_len (λ c. c == 59) text.now }
    ensures bound { result ≤ length text.now }
{
    for i in 0..text.len() {
        if text[i] == b';' {
            return i;
        }
    }
    text.len()
}

/// The name of the directive in a list element, and its argument.
pub(crate) fn split_directive(element: &[u8]) -> (&[u8], &[u8])
    ensures { directive_of element.now ≡ (lowercase result.0.now, result.1.now) }
{
    let text = trimmed(element);
    let end = name_len(text);
    (&text[..end], &text[end..])
}

// Whether a directive was found before, or this name is its name `word`. `word` is in lower case.
fn or_named(found: bool, name: &[u8], word: &[u8]) -> bool
    requires { lowercase word.now ≡ word.now }
    ensures { result ≡ (found || bytes_eq (lowercase name.now) word.now) }
{
    found || is_name(name, word)
}

// The seconds that were found before, or else those of this argument if its directive's name is `word`. `word` is in lower case.
fn or_seconds(
    found: Option<Option<u32>>,
    name: &[u8],
    argument: &[u8],
    word: &[u8],
) -> Option<Option<u32>>
    requires { lowercase word.now ≡ word.now }
    ensures { result ≡ option_or found (option_map argument_seconds (first_argument word.now ((lowercase name.now, argument.now) ∷ []))) }
{
    if found.is_none() && is_name(name, word) {
        Some(argument_seconds(argument))
    } else {
        found
    }
}

/// Parses the argument of a directive as seconds: an equals sign and a decimal number, which may be in double quotes.
pub(crate) fn argument_seconds(argument: &[u8]) -> Option<u32>
    ensures value { result ≡ argument_seconds argument.now }
    ensures bound { IfSome result (λ n. n ≤ 2147483648) }
{
    match argument {
        [b'=', text @ ..] => seconds(unquoted(text)),
        _ => None,
    }
}
