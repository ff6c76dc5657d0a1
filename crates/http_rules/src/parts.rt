//! Parts of one object that are asked for again and again.
ghost use Rattle.std.specs.Prelude.{◌≡◌, None};
ghost use Rattle.http_rules.specs.Parts.{is_recent, is_short, is_third, with_request, with_length};

// The time within which three requests have the whole fetched, in milliseconds.
const MINUTE: u64 = 60_000;

/// The last two requests for parts of an object that is not stored, in milliseconds since any moment, and the length of the whole in
/// octets, as far as they are known.
#[derive(Clone, Copy)]
pub struct PartRequests {
    /// When the one before the last came.
    pub before_last: Option<u64>,
    /// When the last one came.
    pub last: Option<u64>,
    /// The length of the whole.
    pub length: Option<u32>,
}

impl PartRequests {
    /// No requests, and no length.
    pub fn none() -> PartRequests
        ensures before_last { result.before_last ≡ None }
        ensures last { result.last ≡ None }
        ensures length { result.length ≡ None }
    {
        PartRequests {
            before_last: None,
            last: None,
            length: None,
        }
    }

    /// Whether one more request at this time is the third within a minute, and the whole is known to be no longer than `limit` octets:
    /// then the whole is fetched.
    pub fn is_third(&self, now: u64, limit: u32) -> bool
        ensures { result ≡ is_third now limit self.now }
    {
        is_recent(now, self.before_last) && is_short(limit, self.length)
    }

    /// These and one more at this time.
    pub fn with_request(self, now: u64) -> PartRequests
        ensures { result ≡ with_request now self }
    {
        PartRequests {
            before_last: self.last,
            last: Some(now),
            length: self.length,
        }
    }

    /// These, where the whole is of this length.
    pub fn with_length(self, length: u32) -> PartRequests
        ensures { result ≡ with_length length self }
    {
        PartRequests {
            length: Some(length),
            ..self
        }
    }
}

// Whether a time is there, and less than a minute ago. One that is still to come counts as now.
fn is_recent(now: u64, at: Option<u64>) -> bool
    ensures { result ≡ is_recent now at }
{
    match at {
        Some(at) => now.saturating_sub(at) < MINUTE,
        None => false,
    }
}

// Whether a length is known, and within a limit.
fn is_short(limit: u32, length: Option<u32>) -> bool
    ensures { result ≡ is_short limit length }
{
    match length {
        Some(length) => length <= limit,
        None => false,
    }
}
