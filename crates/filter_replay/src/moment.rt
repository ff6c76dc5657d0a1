//! When a packet came, and the moment of its event.

ghost use Rattle.std.specs.Prelude.{◌≡◌, ◌+◌, ◌*◌, ◌/◌, min, None, Some, if◌then◌else◌};
ghost use Rattle.filter_replay.specs.Moment.{moment_at, start_after};

use bpf_run::Moment;
use bpf_run::moment::LAST_MOMENT;

/// The milliseconds from 1970 to a packet of these seconds and nanoseconds. Saturating.
pub fn time_of(seconds: u64, nanoseconds: u32) -> u64
    ensures { result ≡ min (seconds * 1000 + nanoseconds / 1000000) 18446744073709551615 }
{
    seconds
        .saturating_mul(1000)
        .saturating_add(u64::from(nanoseconds / 1_000_000))
}

/// Gives packets their moments, in the order of the file.
#[derive(Clone, Copy)]
pub struct Clock {
    /// The time at which moments begin, in milliseconds since 1970; `None` until the first packet tells it.
    pub start: Option<u64>,
    /// The moment of the last event.
    pub last: Moment,
}

impl Clock {
    /// Before the first packet: moments begin with that packet, or in 1970.
    pub(crate) fn new(from_1970: bool) -> Clock
        ensures last { result.last ≡ 0 }
        ensures start { result.start ≡ if from_1970 then Some 0 else None }
    {
        let Some(last) = Moment::new(0) else {
            unreachable!();
        };
        Clock {
            start: if from_1970 { Some(0) } else { None },
            last,
        }
    }

    /// The clock once a packet came at this time.
    pub(crate) fn started(self, time: u64) -> Clock
        ensures { result ≡ record self { start = start_after self.start time } }
    {
        match self.start {
            Some(_) => self,
            None => Clock {
                start: Some(time),
                ..self
            },
        }
    }

    /// The moment of a packet that came at this time.
    pub(crate) fn moment(&self, time: u64) -> Moment
        ensures { result ≡ moment_at self.now.start self.now.last time }
    {
        let since = match self.start {
            Some(start) => time.saturating_sub(start),
            None => 0,
        };
        let Some(moment) = Moment::new(since.min(LAST_MOMENT)) else {
            unreachable!();
        };
        moment.later(self.last)
    }
}
