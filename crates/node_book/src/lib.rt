//! A node with its book, the log of the events that it has taken with a tally of the actions of each, behind a mutex (the desk).
//! Threads submit events through seats, which keep receipts; a clerk is the interface that the layers above submit through.
//! Contracts see that a book is legal (replaying its entries from the opening state of the volume gives the present state and
//! every tally), and of a settled desk how the receipts compare with the book. While a desk is open they see the seats alone, as
//! other threads may change the node.
//! Tested by: crates/test_node, crates/test_loop, crates/test_storm,
//! crates/test_refusals, more-edits.
#![tactic(auto)]

mod booked;
mod clerk;
mod contents;
mod desk;
mod image;
mod laws;
mod ledgered;
mod lone;
mod neighbour_view;
mod programs;
mod receipts;
mod seat;
mod seated;
mod settle;
mod store_view;

pub use booked::{BOOK_OCTETS, BookFault, Booked, Entry, MOST_VOLUME, Receipt, TakeFault, Volume};
pub use clerk::{Clerk, Gate};
pub use desk::{Desk, OpenFault};
pub use laws::settled_law;
pub use ledgered::{Ledgered, Spent, SubmitFault};
pub use lone::Lone;
pub use node_words::{NeighbourView, Sizes};
pub use programs::Programs;
pub use receipts::MOST_RECEIPTS;
pub use seat::{RECEIPT_OCTETS, Seat};
pub use seated::Seated;
pub use settle::{Report, SettleFault};
pub use std::alloc::AllocError as NoMemory;
