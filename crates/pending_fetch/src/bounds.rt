//! The limits of pending fetches. The error texts of src/fault.rt name both numbers too.
pub use node_terms::MAX_PENDING_FETCHES;

/// The maximum number of waiting clients in all. Contracts state it as `most_waiters` of specs/Bounds.antt: change both.
pub const MAX_WAITERS: usize = 1_024;
