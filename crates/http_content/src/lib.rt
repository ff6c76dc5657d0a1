//! The content of messages, on hyper: what the server and the client of HTTP have in common (reading a whole content, passing one on as it
//! comes, and header fields), and the content of an answer that is known, in pieces out of a shared object or a part of it.
//!
//! The contracts of such an answer say that its frames are its octets (`specs/Octets.antt`, `specs/Pieces.antt`). Of the rest they see
//! only that every future is polled in a state in which it may be.
//! Tested by: tests/serve, tests/serve_freshness, tests/serve_passages, more-edits.
#![tactic(auto)]

mod content;
mod heads;
mod portions;
mod relay;

pub use content::{
    AtMost, Content, Ending, Excess, Follow, Gathered, Gathering, Hear, Heard, Purse, Read,
    ReadFault,
};
pub use heads::{add_field, add_fields, add_object_fields, has_foreign_coding};
pub use portions::Portions;
pub use relay::{Relay, Relayed};
