//! The moments of the events of a process.
use crate::NoMemory;
use bpf_run::Moment;
use std::alloc::Global;
use std::io;
use std::io::ErrorKind;
use std::sync::Arc;
use std::sync::atomic::{AtomicU64, Ordering};
use std::time::{Clock, Duration, SystemTime};

/// Moments in milliseconds since 1970, by the monotonic clock: they go on where the system's clock is set back. How far they are
/// ahead of the monotonic clock is taken from the system's clock at the start, and taken again where that clock was set forward.
/// All handles to a timeline have the same moments.
pub struct Timeline {
    // Milliseconds; it never shrinks.
    ahead: Arc<AtomicU64>,
}

// Written by hand, so that what lets it go is one call for the prover (docs/GATE.md).
impl Drop for Timeline {
    fn drop(self) {
        let Self { ahead: _ } = self;
    }
}

impl Timeline {
    /// A new timeline.
    pub fn new(alloc: Global) -> Result<Timeline, NoMemory> {
        Ok(Timeline {
            ahead: Arc::new(alloc, AtomicU64::new(0))?,
        })
    }

    /// Another handle to the same timeline. Doesn't allocate. Errors: the reference count is at its maximum.
    pub fn share(&self) -> Result<Timeline, NoMemory> {
        Ok(Timeline {
            ahead: Arc::try_clone(&self.ahead)?,
        })
    }

    /// The present moment. Errors: a clock can't be read, or is out of the range of a `Moment`.
    ///
    /// The system's clock is read first, so that a pause between both readings doesn't count as a clock that was set forward.
    pub fn now(&self, rt: &impl Clock) -> io::Result<Moment> {
        let Ok(since) = SystemTime::now(rt)?.duration_since(SystemTime::UNIX_EPOCH) else {
            return Err(ErrorKind::Other.into());
        };
        let wall = millis_of(since)?;
        let elapsed = millis_of(rt.monotonic()?)?;
        let seen = wall.saturating_sub(elapsed);
        let before = self.ahead.fetch_max(seen, Ordering::SeqCst);
        let moment = elapsed.saturating_add(before.max(seen));
        Moment::new(moment).ok_or(ErrorKind::Other.into())
    }
}

// A time in milliseconds. Errors: over 64 bits.
fn millis_of(time: Duration) -> io::Result<u64> {
    match u64::try_from(time.as_millis()) {
        Ok(millis) => Ok(millis),
        Err(_) => Err(ErrorKind::Other.into()),
    }
}
