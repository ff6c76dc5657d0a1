//! Errors of opening and joining a fetch.

use thiserror::Error;

/// Why no fetch was opened. If both apply, it is `Full`.
#[derive(Clone, Copy, Debug, Error)]
pub enum OpenFault {
    #[error("256 fetches are pending, or 1024 clients wait")]
    Full,
    #[error("out of memory")]
    NoMemory,
}

/// Why a client did not join a fetch. If both apply, it is `Full`.
#[derive(Clone, Copy, Debug, Error)]
pub enum JoinFault {
    #[error("1024 clients wait")]
    Full,
    #[error("the client waits already")]
    Double,
}
