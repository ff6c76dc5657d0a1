//! Why a capture is not taken to its end.

use capture::CaptureFault;
use std::alloc::AllocError;
use std::fmt;

/// Why a capture is not taken to its end.
#[derive(Clone, Copy)]
pub enum ScriptFault {
    /// The capture is not one that is read, or is broken. It prints as the fault, ` octet ` and the place.
    Capture {
        fault: CaptureFault,
        /// The place in the file, in octets, where the header or the record begins that could not be read.
        place: u64,
    },
    /// The script would have more octets than `feed` reads. It prints as `script fault record ` and the number of the record, from 1,
    /// whose line is left out, with all after it.
    TooLong {
        record: u64,
    },
    /// The writer failed.
    Write,
    /// Memory ran out.
    NoMemory,
}

impl fmt::Display for ScriptFault {
    fn fmt<W: fmt::Write>(&self, f: &mut fmt::Formatter<W>) -> fmt::Result {
        match self {
            ScriptFault::Capture { fault, place } => write!(f, "{fault} octet {place}"),
            ScriptFault::TooLong { record } => write!(f, "script fault record {record}"),
            ScriptFault::Write => write!(f, "standard output can't be written"),
            ScriptFault::NoMemory => write!(f, "no memory"),
        }
    }
}

impl From<AllocError> for ScriptFault {
    ghost use Rattle.std.specs.Prelude.{◌≡◌};
    ghost use Rattle.filter_replay.specs.declared.fault.ScriptFault.TheVariants.{NoMemory};

    ghost from_gives = { λ _ e. e ≡ NoMemory };

    fn from(_e: AllocError) -> ScriptFault {
        ScriptFault::NoMemory
    }
}
