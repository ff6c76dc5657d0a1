//! Whose answers are of no use to clients that join their fetch, and for how long that is remembered.
ghost use Rattle.std.specs.Prelude.{◌<◌, ◌↔◌, IsTrue};
ghost use Rattle.fair_use.specs.Unjoined.{IsRemembered};

/// The most URLs that are remembered.
pub const MOST_UNJOINED: usize = 1_024;

/// How a fetch for all clients ended, for who asks for the same next.
#[derive(Clone, Copy, PartialEq, Eq)]
pub enum SharedEnd {
    /// By a response that may be stored.
    Storable,
    /// By a response with this status that may not be stored.
    Unstorable(u16),
    /// By a response whose content is too long to be stored.
    TooLarge,
    /// By whichever response, while what it is about was changed.
    Overtaken,
    /// Without a head: the server was not reached, or its answer was none.
    Headless,
}

/// Whether it is remembered that a fetch ended so: only those of who asked first are of use then. An error may be over a moment later.
pub fn is_remembered(end: SharedEnd) -> bool
    ensures { IsTrue result ↔ IsRemembered end }
{
    match end {
        SharedEnd::Unstorable(status) => status < 500,
        SharedEnd::Storable | SharedEnd::TooLarge | SharedEnd::Overtaken | SharedEnd::Headless =>
            false,
    }
}

/// Whether what was noted so many milliseconds ago is remembered still: for a minute.
pub fn is_recent(millis: u64) -> bool
    ensures { IsTrue result ↔ millis < 60000 }
{
    millis < 60_000
}
