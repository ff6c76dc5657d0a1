//! Lines of the access log: one for each request that was answered or given up, and for each connection that brought none. The thread
//! that writes them, or other lines, is a module of its own, [`writer`], of which nothing else here knows.
//!
//! `specs/Line.antt` defines the line of an entry, in two forms, `specs/Escaped.antt` what stands in it for what a client wrote, and
//! `specs/Reading.antt` how a reader understands that. Contracts say that exactly this line is given, that it is one line of printable
//! ASCII whatever the client wrote, and that what the client wrote reads back from it.
//! Tested by: crates/test_operator, must-fail edits.
#![tactic(auto)]

mod common;
mod entry;
mod json;
mod laws;
mod line;
mod parts;
mod printable;
mod stamp;
pub mod writer;

pub use entry::{Course, Entry, Form, Supplier};
pub use laws::{a_text_reads_one_way, escaped_texts_read_back};
pub use line::line_of;
