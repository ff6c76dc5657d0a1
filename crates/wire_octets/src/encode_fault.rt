//! Why a message is not encoded.

ghost use Rattle.std.specs.Prelude.{◌≡◌};
ghost use Rattle.wire_octets.specs.declared.encode_fault.EncodeFault.TheVariants.{NoMemory};

use std::alloc::{AllocError, AllocFailed};
use thiserror::Error;

/// Why a message is not encoded.
#[derive(Clone, Copy, Debug, PartialEq, Eq, Error)]
pub enum EncodeFault {
    /// The message would be longer than its protocol allows.
    #[error("longer than the protocol allows")]
    TooLong,
    /// An allocation failed.
    #[error("out of memory")]
    NoMemory,
}

impl From<AllocError> for EncodeFault {
    ghost from_gives = { λ _ e. e ≡ NoMemory };

    fn from(_e: AllocError) -> EncodeFault {
        EncodeFault::NoMemory
    }
}

impl<T: Drop> From<AllocFailed<T>> for EncodeFault {
    ghost from_gives = { λ _ e. e ≡ NoMemory };

    fn from(_e: AllocFailed<T>) -> EncodeFault {
        EncodeFault::NoMemory
    }
}
