//! The least speed of what comes.
ghost use Rattle.std.specs.Prelude.{◌≡◌};
ghost use Rattle.fair_use.specs.Speed.{is_too_slow};

/// Over how many seconds a speed is measured.
pub const WINDOW_SECONDS: u32 = 30;

/// Whether so many octets are too few for a window of time, where as many as `least` are to come in a second.
pub fn is_too_slow(least: u32, octets: u64) -> bool
    ensures { result ≡ is_too_slow least octets }
{
    octets < u64::from(least) * u64::from(WINDOW_SECONDS)
}
