//! Borrowed views of a pending fetch.

use object_store::CacheKey;
use peer_select::Round;

/// A borrowed view of a pending fetch: its key, whether it is shared, its owner if it is private, its attempt (counted from
/// 0) and its round.
#[derive(Clone, Copy)]
pub struct Fetch<'a> {
    pub key: &'a CacheKey,
    pub shared: bool,
    pub owner: Option<u64>,
    pub attempt: u16,
    pub round: &'a Round,
}

/// A borrowed view of a pending fetch, with its index in the order of opening.
#[derive(Clone, Copy)]
pub struct Located<'a> {
    pub place: usize,
    pub fetch: Fetch<'a>,
}
