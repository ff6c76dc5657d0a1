//! Errors of starting and of running a proxy.
use node_core::NodeFault;
use std::alloc::AllocError;
use std::io;
use std::io::ErrorKind;

/// A port that the configuration sets.
#[derive(Clone, Copy)]
pub enum Port {
    /// `icp_port`.
    Icp,
    /// `htcp_port`.
    Htcp,
    /// `http_port`.
    Clients,
    /// `http_port`, at `http_address6`.
    SixClients,
    /// `admin_port`.
    Administration,
}

/// Why a proxy did not start, or why it ended.
#[derive(Clone, Copy)]
pub enum ServeFault {
    /// The node refuses the configuration.
    Node(NodeFault),
    /// The size of a volume of the event log is out of range.
    Volume,
    /// A socket cannot be bound, or its server failed.
    Bind(Port, ErrorKind),
    /// Out of memory in some thread.
    NoMemory,
    /// The receipts of the seats do not agree with the event log.
    Settle,
    /// A query socket failed.
    QuerySocket,
}

/// An allocation failure as a fault of the proxy.
pub fn no_memory(_: AllocError) -> ServeFault {
    ServeFault::NoMemory
}

/// A failure of a server or its socket as a fault of the proxy.
pub fn socket_fault(port: Port, error: &io::Error) -> ServeFault {
    match error.kind() {
        ErrorKind::OutOfMemory => ServeFault::NoMemory,
        kind => ServeFault::Bind(port, kind),
    }
}
