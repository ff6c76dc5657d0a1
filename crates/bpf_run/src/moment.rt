//! Points in time.

pub use node_terms::{LAST_MOMENT, Moment};
