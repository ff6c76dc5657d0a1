//! The configuration of a node.
use filter_slots::End;
use neighbours::{Key, Neighbour};
use node_terms::Network;

/// The configuration, which stays the same while a node runs.
#[derive(Drop)]
pub struct Config {
    /// The node's own address and port for ICP; the address is the sender in each message.
    pub icp: End,
    /// The node's own address and port for HTCP.
    pub htcp: End,
    /// The networks whose queries are answered.
    pub allowed: Vec<Network>,
    /// Whether misses are answered with MISS_NOFETCH instead of MISS.
    pub miss_nofetch: bool,
    /// Whether objects may be fetched from origin servers.
    pub origin: bool,
    /// The maximum number of store entries, 1 to 1,000,000.
    pub entries: u32,
    /// The maximum size of the store in octets, 1 to 1,073,741,824.
    pub octets: u32,
    /// The neighbours, in order.
    pub neighbours: Vec<Neighbour>,
    /// The keys that HTCP messages are signed with.
    pub keys: Vec<Key>,
}
