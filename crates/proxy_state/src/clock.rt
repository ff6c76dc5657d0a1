//! The times that the threads use.
use std::time::{Clock, Instant, SystemTime};

/// Milliseconds since 1970-01-01 UTC by the system's clock, for a line of the access log. Returns 0 if it cannot be read.
pub fn wall_millis<R: Clock>(rt: &R) -> u64 {
    let Ok(now) = SystemTime::now(rt) else {
        return 0;
    };
    match now.duration_since(SystemTime::UNIX_EPOCH) {
        Ok(since) => u64::try_from(since.as_millis()).unwrap_or(0),
        Err(_) => 0,
    }
}

/// Microseconds since an instant. `None` if the clock cannot be read.
pub fn micros_since<R: Clock>(rt: &R, began: Option<Instant>) -> Option<u64> {
    let taken = Instant::now(rt).ok()?.checked_duration_since(began?)?;
    u64::try_from(taken.as_micros()).ok()
}

/// Seconds since 1970-01-01 UTC by the system's clock, which may be set back, for a Date field. Returns 0 if it cannot be read.
pub fn date_seconds<R: Clock>(rt: &R) -> u64 {
    match read(rt) {
        Some(seconds) => seconds,
        None => 0,
    }
}

fn read<R: Clock>(rt: &R) -> Option<u64> {
    let now = SystemTime::now(rt).ok()?;
    let since = now.duration_since(SystemTime::UNIX_EPOCH).ok()?;
    Some(since.as_secs())
}
