//! What the crates around HTTP hand to one another: requests of clients and their answers, what is administered, and fetches with
//! their results. The decisions are behind the traits `Front`, `FollowUp`, `PassOn` and `Panel`; no type of the HTTP library stands here.
//!
//! Proved is which of a name's addresses are connected to (`Addresses::admitted`) and how a method is written (`PassedMethod`), and of
//! all else that it is free of panics and overflows. Tested by: tests/serve, tests/serve_passages.
#![tactic(auto)]

mod addresses;
mod asking;
mod orders;
mod panel;
mod passed_method;
mod passing;

pub use addresses::{Addresses, AdmitFault, AdmittedAddresses, Found};
pub use asking::{
    Asked, Asking, FollowUp, Forward, Front, How, Outcome, PassOn, Shape, Supplier, Told,
};
pub use orders::{
    Admit, Ended, FetchEnd, FetchFault, Fetched, Job, Order, OrderParts, Page, Progress, Server,
    Work, address_in_digits,
};
pub use panel::{CaptureFault, Figures, Panel, PutFault, StoreFault, StoreOrder};
pub use passed_method::PassedMethod;
pub use passing::{
    Change, Coming, Early, LeftChange, PassFault, Passage, PassageParts, PassedHead, Passing,
    Piece, Road, Ticket, TunnelEnd,
};
