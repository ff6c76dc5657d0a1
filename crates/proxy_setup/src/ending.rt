//! How the threads of a proxy end.
use crate::fault::ServeFault;
use node_book::Seat;
use std::sync::ledger::Ledger;

/// How a thread ended.
#[derive(Drop)]
pub struct Ending<L: Ledger> {
    /// The thread's seat. `None` if it had none or could not take it back.
    pub seat: Option<Seat<L>>,
    /// Why it ended, if that is an error.
    pub fault: Option<ServeFault>,
}
