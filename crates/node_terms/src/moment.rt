//! Points in time.

ghost use Rattle.std.specs.Prelude.{◌≡◌, ◌/◌, ◌≤◌, ◌↔◌, max, IsSome, IfSome};

use std::marker::Model;

/// The last moment, in milliseconds: its seconds just fit 32 bits.
pub const LAST_MOMENT: u64 = 4_294_967_295_999;

/// A point in time, in milliseconds since a start that the caller chooses, at most 4,294,967,295,999. Contracts see the number.
#[derive(Clone, Copy, PartialEq, Eq)]
pub struct Moment {
    millis: u64,
}

impl Model for Moment {
    ghost use Rattle.std.specs.Prelude.{ℕ, ◌≤◌};

    ghost Value = { ℕ };

    ghost view = { λ m. m.millis };

    ghost invariant = { λ m. m.millis ≤ 4294967295999 };

    ghost inverse = { λ n. record { millis = n } };
}

impl Moment {
    /// The moment at `millis` milliseconds, or `None` if that is after the last one.
    pub fn new(millis: u64) -> Option<Moment>
        ensures exists { IsSome result ↔ (millis ≤ 4294967295999) }
        ensures value { IfSome result (λ moment. moment ≡ millis) }
    {
        if millis <= LAST_MOMENT {
            Some(Moment { millis })
        } else {
            None
        }
    }

    /// The milliseconds since the start.
    pub fn millis(self) -> u64
        ensures value { result ≡ self }
        ensures within { result ≤ 4294967295999 }
    {
        self.millis
    }

    /// The whole seconds since the start.
    pub fn seconds(self) -> u32
        ensures { result ≡ self / 1000 }
    {
        (self.millis / 1000) as u32
    }

    /// The later of two moments.
    pub fn later(self, other: Moment) -> Moment
        ensures { result ≡ max self other }
    {
        if self.millis < other.millis {
            other
        } else {
            self
        }
    }
}
