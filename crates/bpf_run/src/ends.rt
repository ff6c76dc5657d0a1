//! Endpoints of a datagram, and the query sockets.

pub use node_terms::{End, Socket};
