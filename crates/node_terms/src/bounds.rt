//! The limit of pending fetches.

/// The maximum number of pending fetches. Contracts state it as `most_fetches` of the specs/Bounds.antt of `pending_fetch`, and
/// its error texts name it too: change all.
pub const MAX_PENDING_FETCHES: usize = 256;
