//! What other threads have of the query loop, which they need no socket for: the moments of its events, and the bell that wakes it.
//!
//! Tested by: crates/test_loop, tests/serve.
#![tactic(auto)]

mod bell;
mod timeline;

pub use bell::Bell;
pub use std::alloc::AllocError as NoMemory;
pub use timeline::Timeline;
