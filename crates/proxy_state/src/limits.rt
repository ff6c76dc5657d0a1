//! Numbers that the threads keep to.

/// Consecutive allocation failures that the query thread tolerates, and retries of a fetch thread whose result was refused.
pub const RETRIES: u32 = 1_000;

/// The pause between two retries, in milliseconds.
pub const RETRY_MILLIS: u64 = 10;
