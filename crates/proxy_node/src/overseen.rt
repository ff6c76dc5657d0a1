//! What an administrator asks about the node.
use filter_slots::Slots;
use node_words::{NeighbourView, NoMemory, Sizes, Stats};
use object_store::{CacheKey, Entry};
use proxy_state::Shared;
use std::alloc::Global;
use std::sync::Wait;

/// The shared state with what an administrator asks about the node.
pub trait Overseen: Shared {
    /// The counters of both query sockets.
    fn stats<R: Wait>(&self, rt: &R) -> Stats;

    /// How much is stored and logged.
    fn sizes<R: Wait>(&self, rt: &R) -> Sizes;

    /// How many filters were swapped.
    fn swaps(&self) -> u64;

    /// The state of each neighbour. Errors: out of memory.
    fn neighbours<R: Wait>(&self, rt: &R, alloc: Global) -> Result<Vec<NeighbourView>, NoMemory>;

    /// The programs that are installed. Errors: one of them cannot get one more owner.
    fn programs<R: Wait>(&self, rt: &R) -> Result<Slots, NoMemory>;

    /// The objects that were used last, at most so many. Errors: out of memory.
    fn newest<R: Wait>(
        &self,
        rt: &R,
        alloc: Global,
        most: usize,
    ) -> Result<Vec<(CacheKey, Entry)>, NoMemory>;
}
