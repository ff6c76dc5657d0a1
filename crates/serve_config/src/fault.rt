//! Why a configuration is rejected.
use crate::json_fault::Expected;
use crate::place::Place;
use std::alloc::{AllocError, Global};
use std::fmt;

/// Why a configuration is rejected. It prints as the line `config fault <number>` and, except when out of memory, a second line
/// that says what is wrong and where.
#[derive(Debug, Drop)]
pub enum Fault {
    /// 1: not JSON. The line and column, both counted from 1, where the JSON parser stopped, and what would have been right there.
    Syntax {
        line: usize,
        column: usize,
        expected: Expected,
    },
    /// 2: a missing key, an unknown key, or a value of the wrong kind. The message says which and where.
    Shape(String),
    /// 3: a value of the right kind that is not allowed there. The message says which and where.
    Value(String),
    /// 4: a socket cannot be bound. The configuration key of its port.
    Socket {
        key: &'static str,
    },
    /// 5: out of memory.
    Memory,
}

impl Fault {
    /// The fault's number, 1 to 5.
    pub fn number(&self) -> u8 {
        match self {
            Fault::Syntax { .. } => 1,
            Fault::Shape(_) => 2,
            Fault::Value(_) => 3,
            Fault::Socket { .. } => 4,
            Fault::Memory => 5,
        }
    }

    /// A missing or unknown key, or a value of the wrong kind.
    pub(crate) fn shape(alloc: Global, place: Place<'_>, what: &str) -> Fault {
        match format!(in alloc; "{place}: {what}") {
            Ok(text) => Fault::Shape(text),
            Err(_) => Fault::Memory,
        }
    }

    /// An unknown key of the object at this location. The key is quoted.
    pub(crate) fn unknown(alloc: Global, place: Place<'_>, key: &str) -> Fault {
        match format!(in alloc; "{place}: the key {key:?} is unknown") {
            Ok(text) => Fault::Shape(text),
            Err(_) => Fault::Memory,
        }
    }

    /// A value that is not allowed.
    pub(crate) fn value(alloc: Global, place: Place<'_>, what: &str) -> Fault {
        match format!(in alloc; "{place}: {what}") {
            Ok(text) => Fault::Value(text),
            Err(_) => Fault::Memory,
        }
    }

    /// A string that is not allowed. The string is quoted.
    pub(crate) fn text(alloc: Global, place: Place<'_>, text: &str, what: &str) -> Fault {
        match format!(in alloc; "{place}: {text:?} {what}") {
            Ok(text) => Fault::Value(text),
            Err(_) => Fault::Memory,
        }
    }

    /// A number out of range: its text, the side (`above` or `below`), and the bound.
    pub(crate) fn bound(
        alloc: Global,
        place: Place<'_>,
        number: &str,
        side: &str,
        bound: u64,
    ) -> Fault {
        match format!(in alloc; "{place}: {number} is {side} {bound}") {
            Ok(text) => Fault::Value(text),
            Err(_) => Fault::Memory,
        }
    }
}

impl fmt::Display for Fault {
    fn fmt<W: fmt::Write>(&self, f: &mut fmt::Formatter<W>) -> fmt::Result {
        match self {
            Fault::Syntax {
                line,
                column,
                expected,
            } => write!(
                f,
                "config fault 1\nline {line}, column {column}: expected {expected}"
            ),
            Fault::Shape(what) => write!(f, "config fault 2\n{what}"),
            Fault::Value(what) => write!(f, "config fault 3\n{what}"),
            Fault::Socket { key } => write!(
                f,
                "config fault 4\n{key}: no socket can be bound there"
            ),
            Fault::Memory => write!(f, "config fault 5"),
        }
    }
}

impl std::error::Error for Fault {}

impl From<AllocError> for Fault {
    fn from(_: AllocError) -> Fault {
        Fault::Memory
    }
}
