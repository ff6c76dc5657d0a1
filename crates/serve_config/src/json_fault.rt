//! What JSON's grammar (RFC 8259) has at the place where a text was found to be no JSON, for whoever wrote the text. The reader of the
//! kit (`serde_json`) tells the place alone.

mod expected;
mod front;

pub use expected::{Expected, expected_at, offset_of};
