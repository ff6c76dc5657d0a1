//! How far a beginning of a JSON text goes.

use super::expected::Expected;

// The most objects and lists in one another that the kit's reader takes.
const MOST_NESTED: u32 = 127;

// Where in a token the beginning ends.
#[derive(Clone, Copy)]
enum Within {
    Nothing,
    Text,
    // After a backslash in a text.
    Escape,
    // A number, `true`, `false` or `null`.
    Word,
}

/// A beginning of a JSON text, as far as what may follow depends on it.
#[derive(Clone, Copy)]
pub(crate) struct Front {
    within: Within,
    // What follows the last whole token.
    wants: Expected,
    // A bit for each object or list that is open, the innermost the lowest: set for an object.
    open: u128,
    depth: u32,
}

impl Front {
    /// An empty beginning.
    pub(crate) fn new() -> Front {
        Front {
            within: Within::Nothing,
            wants: Expected::Value,
            open: 0,
            depth: 0,
        }
    }

    /// Takes the next octet, which the grammar allows there.
    pub(crate) fn take(&mut self, octet: u8) {
        match self.within {
            Within::Text => self.take_in_text(octet),
            Within::Escape => self.within = Within::Text,
            Within::Word if is_in_word(octet) => {}
            Within::Word => {
                self.end_value();
                self.take_between(octet);
            }
            Within::Nothing => self.take_between(octet),
        }
    }

    // An octet of a text in quotes.
    fn take_in_text(&mut self, octet: u8) {
        match octet {
            b'\\' => self.within = Within::Escape,
            b'"' if matches!(self.wants, Expected::Name | Expected::NameOrEnd) => {
                self.within = Within::Nothing;
                self.wants = Expected::Colon;
            }
            b'"' => self.end_value(),
            _ => {}
        }
    }

    // The first octet of a token, or one between two.
    fn take_between(&mut self, octet: u8) {
        match octet {
            b' ' | b'\t' | b'\n' | b'\r' => {}
            b'"' => self.within = Within::Text,
            b'{' => self.begin(true, Expected::NameOrEnd),
            b'[' => self.begin(false, Expected::ValueOrEnd),
            b'}' | b']' => self.end_nested(),
            b':' => self.wants = Expected::Value,
            b',' if self.is_in_object() => self.wants = Expected::Name,
            b',' => self.wants = Expected::Value,
            _ => self.within = Within::Word,
        }
    }

    // Begins an object or a list.
    fn begin(&mut self, is_object: bool, wants: Expected) {
        self.open = (self.open << 1) | u128::from(is_object);
        self.depth = self.depth.saturating_add(1);
        self.wants = wants;
    }

    // Ends an object or a list.
    fn end_nested(&mut self) {
        self.open >>= 1;
        self.depth = self.depth.saturating_sub(1);
        self.end_value();
    }

    // What follows a value.
    fn end_value(&mut self) {
        self.within = Within::Nothing;
        self.wants = if self.depth == 0 {
            Expected::Nothing
        } else if self.is_in_object() {
            Expected::NextMember
        } else {
            Expected::NextItem
        };
    }

    fn is_in_object(&self) -> bool {
        self.open & 1 == 1
    }

    /// What the grammar has behind this beginning, where this octet stands; `None` at the end of the text.
    pub(crate) fn expects(self, octet: Option<u8>) -> Expected {
        match self.within {
            Within::Text | Within::Escape => Expected::RestOfText,
            Within::Word => self.expects_after_word(octet),
            Within::Nothing => self.expects_token(octet),
        }
    }

    // What the grammar has behind a word: more of it, or what follows its value.
    fn expects_after_word(self, octet: Option<u8>) -> Expected {
        if octet.is_some_and(is_in_word) {
            return Expected::Word;
        }
        let mut ended = self;
        ended.end_value();
        ended.wants
    }

    // What the grammar has between two tokens, where this octet begins none that is right.
    fn expects_token(self, octet: Option<u8>) -> Expected {
        let is_name = matches!(self.wants, Expected::Name | Expected::NameOrEnd);
        let is_value = matches!(self.wants, Expected::Value | Expected::ValueOrEnd);
        match octet {
            _ if MOST_NESTED < self.depth => Expected::Shallower,
            Some(b'"') if is_name || is_value => Expected::Text,
            Some(b'{' | b'[') if is_value && MOST_NESTED <= self.depth => Expected::Shallower,
            Some(octet) if is_value && is_in_word(octet) => Expected::Word,
            _ => self.wants,
        }
    }
}

// Whether an octet may stand in a number, `true`, `false` or `null`.
fn is_in_word(octet: u8) -> bool {
    octet.is_ascii_alphanumeric() || matches!(octet, b'+' | b'-' | b'.')
}
