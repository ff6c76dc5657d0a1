//! Why [`feed`](crate::feed) fails.
ghost use Rattle.std.specs.Prelude.{◌≡◌, Some};
ghost use Rattle.std.specs.Fmt.{decimal};

use std::fmt;

/// Why [`feed`](crate::feed) fails.
#[derive(Clone, Copy, PartialEq)]
pub enum FeedFault {
    /// The line with this number, counted from 1, is wrong.
    Line(u64),
    /// The reader failed, or delivered more than 1,000,000,000 octets.
    Read,
    /// The writer failed.
    Write,
    /// Out of memory.
    NoMemory,
}

impl fmt::Display for FeedFault {
    ghost use Rattle.feed_script.specs.Fault.{fault_text};

    ghost output = { λ f. Some (fault_text f) };

    fn fmt<W: fmt::Write>(&self, f: &mut fmt::Formatter<W>) -> fmt::Result {
        match self {
            FeedFault::Line(n) => {
                let n = *n;
                write!(f, "feed fault 1 line {n}")
            }
            FeedFault::Read => f.write_str("feed fault 2"),
            FeedFault::Write => f.write_str("feed fault 3"),
            FeedFault::NoMemory => f.write_str("feed fault 4"),
        }
    }
}
