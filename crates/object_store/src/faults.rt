//! Errors of the store.

use thiserror::Error;

/// Why a store cannot be made.
#[derive(Clone, Copy, Debug, PartialEq, Eq, Error)]
pub enum StoreFault {
    /// The entry limit is not 1 to 1,000,000, or the octet limit not 1 to 1,073,741,824.
    #[error("store limits out of range")]
    Limits,
    /// An allocation failed.
    #[error("out of memory")]
    NoMemory,
}

/// Why an entry cannot be inserted.
#[derive(Clone, Copy, Debug, PartialEq, Eq, Error)]
pub enum PutFault {
    /// The size of the entry exceeds the octet limit of the store.
    #[error("too large for the store")]
    TooLarge,
    /// An allocation failed.
    #[error("out of memory")]
    NoMemory,
}
