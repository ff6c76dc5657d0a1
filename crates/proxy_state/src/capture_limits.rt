//! How long a capture lasts, and how large its file gets.

// The usual and the most seconds.
const SECONDS: u64 = 60;

const MOST_SECONDS: u64 = 3_600;

// The usual, the fewest and the most octets of the file.
const OCTETS: u64 = 10_000_000;

const FEWEST_OCTETS: u64 = 1_024;

const MOST_OCTETS: u64 = 67_108_864;

/// What the query of a request to capture has to be.
pub const QUERY_LINE: &str =
    "400 Bad Request: the query of /capture is seconds=1..3600 and octets=1024..67108864, each at most once, with & between them\n";

/// Limits of a capture.
#[derive(Clone, Copy)]
pub struct CaptureLimits {
    seconds: Option<u64>,
    octets: Option<u64>,
}

impl CaptureLimits {
    /// The limits that a query names, as in `seconds=60&octets=10000000`: those that it leaves out are 60 seconds and 10,000,000
    /// octets. Returns `None` where it names anything else, one of them twice, or a number that is none or out of range: 1 to
    /// 3,600 seconds, and 1,024 to 67,108,864 octets.
    pub fn of(query: Option<&str>) -> Option<CaptureLimits> {
        let mut limits = CaptureLimits {
            seconds: None,
            octets: None,
        };
        let Some(query) = query else {
            return Some(limits);
        };
        for part in query.split('&') {
            limits = limits.with(part)?;
        }
        Some(limits)
    }

    // The limits with what one part of a query names.
    fn with(self, part: &str) -> Option<CaptureLimits> {
        let (name, value) = part.split_once('=')?;
        let mut limits = self;
        match name {
            "seconds" if limits.seconds.is_none() => {
                limits.seconds = Some(number(value, 1, MOST_SECONDS)?);
            }
            "octets" if limits.octets.is_none() => {
                limits.octets = Some(number(value, FEWEST_OCTETS, MOST_OCTETS)?);
            }
            _ => return None,
        }
        Some(limits)
    }

    /// For how many seconds datagrams are recorded.
    pub fn seconds(&self) -> u64 {
        self.seconds.unwrap_or(SECONDS)
    }

    /// The most octets of the file.
    pub fn octets(&self) -> usize {
        self.octets.unwrap_or(OCTETS) as usize
    }
}

// The number of a decimal numeral, if it is in this range.
fn number(text: &str, least: u64, most: u64) -> Option<u64> {
    if !text.as_bytes().iter().all(|digit| digit.is_ascii_digit()) {
        return None;
    }
    let number = text.parse::<u64>().ok()?;
    if least <= number && number <= most {
        Some(number)
    } else {
        None
    }
}
