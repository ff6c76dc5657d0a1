//! What would have been right at a place.

use super::front::Front;
use std::fmt;

/// What would have been right at the place where a text stops to be JSON. It prints as what goes on from `expected`.
#[derive(Clone, Copy, Debug, PartialEq, Eq)]
pub enum Expected {
    /// A value: the first one, or that of a member or a list.
    Value,
    /// A value, or the end of a list that is empty so far.
    ValueOrEnd,
    /// The name of a member.
    Name,
    /// The name of a member, or the end of an object that is empty so far.
    NameOrEnd,
    /// What stands between a name and its value.
    Colon,
    /// What follows a member of an object.
    NextMember,
    /// What follows a value of a list.
    NextItem,
    /// Nothing, after the one value of the text.
    Nothing,
    /// More of a text in quotes: an octet that is no UTF-8 stands there, or the file ends.
    RestOfText,
    /// A text in quotes, where one begins that is none.
    Text,
    /// A number, `true`, `false` or `null`, where a word begins that is none of these.
    Word,
    /// No list and no object, where there are as many around this place as the reader takes.
    Shallower,
}

impl Expected {
    /// The phrase that it prints as.
    pub fn phrase(self) -> &'static str {
        match self {
            Expected::Value => "a value",
            Expected::ValueOrEnd => "a value or ]",
            Expected::Name => "the name of a key, in double quotes",
            Expected::NameOrEnd => "the name of a key, in double quotes, or }",
            Expected::Colon => ": and the value of this key",
            Expected::NextMember => ", or }",
            Expected::NextItem => ", or ]",
            Expected::Nothing => "nothing after the end of the value",
            Expected::RestOfText => "more of this text, in UTF-8, and a double quote at its end",
            Expected::Text => {
                "a text that ends with a double quote, without control characters, and with a backslash only in front of \" \\ / b f n r t or uXXXX"
            }
            Expected::Word =>
                "a number that is in range, true, false, null, or a text in double quotes",
            Expected::Shallower => "no more than 127 objects and lists in one another",
        }
    }
}

impl fmt::Display for Expected {
    fn fmt<W: fmt::Write>(&self, f: &mut fmt::Formatter<W>) -> fmt::Result {
        write!(f, "{}", self.phrase())
    }
}

/// The offset of a place in a text, by its line and its column, both counted from 1 and in octets; the end of a text that has no such
/// place.
pub fn offset_of(text: &[u8], line: usize, column: usize) -> usize {
    let (mut here, mut at) = (1usize, 1usize);
    for (offset, octet) in text.iter().enumerate() {
        if (here, at) == (line, column) {
            return offset;
        }
        if *octet == b'\n' {
            here = here.saturating_add(1);
            at = 1;
        } else {
            at = at.saturating_add(1);
        }
    }
    text.len()
}

/// What JSON's grammar has at an offset of a text that is JSON up to there. At the end of the text, what it lacks.
pub fn expected_at(text: &[u8], offset: usize) -> Expected {
    let mut front = Front::new();
    for octet in text.iter().take(offset) {
        front.take(*octet);
    }
    front.expects(text.get(offset).copied())
}
