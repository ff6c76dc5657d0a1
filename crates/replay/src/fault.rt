//! Why a capture is not replayed to its end.

use capture::CaptureFault;
use std::alloc::AllocError;
use std::fmt;

/// Why a capture is not replayed to its end.
#[derive(Clone, Copy)]
pub enum ReplayFault {
    /// The capture is not one that is read, or is broken. It prints as the fault, ` octet ` and the place.
    Capture {
        fault: CaptureFault,
        /// The place in the file, in octets, where the header, record or block begins that could not be read.
        place: u64,
    },
    /// Memory ran out.
    NoMemory,
}

impl fmt::Display for ReplayFault {
    fn fmt<W: fmt::Write>(&self, f: &mut fmt::Formatter<W>) -> fmt::Result {
        match self {
            ReplayFault::Capture { fault, place } => write!(f, "{fault} octet {place}"),
            ReplayFault::NoMemory => write!(f, "no memory"),
        }
    }
}

impl From<AllocError> for ReplayFault {
    ghost use Rattle.std.specs.Prelude.{◌≡◌};
    ghost use Rattle.replay.specs.declared.fault.ReplayFault.TheVariants.{NoMemory};

    ghost from_gives = { λ _ e. e ≡ NoMemory };

    fn from(_e: AllocError) -> ReplayFault {
        ReplayFault::NoMemory
    }
}
