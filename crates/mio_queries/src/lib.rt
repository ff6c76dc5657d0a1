//! The query loop: datagrams are received from a wire (the two UDP query sockets) and submitted to a node through a clerk, and
//! the datagrams that the node wants sent go out by the wire.
//! Contracts see the traffic of a wire: what was received and sent, in order, if the wire reports it, and the number of its
//! failures. `pump` submits exactly what such a wire received, tries each send once and passes every other action on. `MioWire`,
//! over the system's sockets, reports only its number of failures.
//! Tested by: crates/test_loop, more-edits.
#![tactic(auto)]

mod memory;
mod mio_wire;
mod pumped;
mod sockets;
mod traffic;
mod turns;
mod wire;

pub use memory::MemoryWire;
pub use mio_wire::MioWire;
pub use pumped::{PumpFault, Pumped};
pub use query_handles::{Bell, Timeline};
pub use sockets::BindFault;
pub use std::alloc::AllocError as NoMemory;
pub use traffic::{Received, Sending, WireFault};
pub use turns::{pump, pump_with};
pub use wire::Wire;
