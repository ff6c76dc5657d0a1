//! What a client lets be done for its request.

/// How a client's request may be answered.
#[derive(Clone, Copy, PartialEq, Eq)]
pub enum Mode {
    /// From the store, or by a fetch that other clients may join.
    Shared,
    /// From the store only.
    Cached,
    /// By a fetch of its own, whose result isn't stored.
    Private,
}
