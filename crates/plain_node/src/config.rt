//! Which configurations a node takes, and what it keeps of one.
ghost use Rattle.std.specs.Prelude.{◌≡◌, ◌&&◌, IfOk};
ghost use Rattle.plain_node.specs.Settings.{are_limits, are_prefixes, is_allowed};

use crate::NoMemory;
use filter_slots::End;
use neighbours::ConfigFault;
use node_words::{Config, Network};
use std::alloc::Global;
use std::marker::Model;
use thiserror::Error;

/// Whether each prefix is at most 32, and the store's limits are in range.
pub(crate) fn is_fit(config: &Config) -> bool
    ensures { result ≡ (are_prefixes config.now.allowed.items && are_limits config.now.entries config.now.octets) }
{
    if !are_prefixes(&config.allowed) {
        return false;
    }
    1 <= config.entries
        && config.entries <= 1_000_000
        && 1 <= config.octets
        && config.octets <= 1_073_741_824
}

/// Whether each prefix is at most 32.
fn are_prefixes(networks: &[Network]) -> bool
    ensures { result ≡ are_prefixes networks.now }
{
    networks.iter().all(|network| network.prefix <= 32)
}

/// The part of the configuration that the node keeps, apart from neighbours and store.
#[derive(Drop)]
pub struct Rules {
    pub(crate) icp: End,
    pub(crate) htcp: End,
    pub(crate) allowed: Vec<Network>,
    pub(crate) miss_nofetch: bool,
    pub(crate) origin: bool,
}

impl Model for Rules {
    ghost use Rattle.plain_node.specs.Settings.{Settings};

    ghost Value = { Settings };

    ghost view = { λ r. record {
      icp = r.icp;
      htcp = r.htcp;
      allowed = r.allowed.items;
      miss_nofetch = r.miss_nofetch;
      origin = r.origin;
    } };
}

impl Rules {
    /// An owned copy. Errors: out of memory.
    pub fn copy(&self, alloc: Global) -> Result<Rules, NoMemory>
        ensures { IfOk result (λ copy. copy ≡ self.now) }
    {
        let allowed = Vec::from_slice(alloc, &self.allowed)?;
        Ok(Rules {
            icp: self.icp,
            htcp: self.htcp,
            allowed,
            miss_nofetch: self.miss_nofetch,
            origin: self.origin,
        })
    }

    /// The node's own ICP address.
    pub fn sender(&self) -> [u8; 4]
        ensures { result ≡ self.now.icp.addr }
    {
        self.icp.addr
    }

    /// The node's own address and port for HTCP.
    pub fn htcp(&self) -> End
        ensures { result ≡ self.now.htcp }
    {
        self.htcp
    }

    /// Whether misses are answered with MISS_NOFETCH instead of MISS.
    pub fn miss_nofetch(&self) -> bool
        ensures { result ≡ self.now.miss_nofetch }
    {
        self.miss_nofetch
    }

    /// Whether objects may be fetched from origin servers.
    pub fn origin(&self) -> bool
        ensures { result ≡ self.now.origin }
    {
        self.origin
    }

    /// Whether queries from an address are answered.
    pub fn allows(&self, addr: [u8; 4]) -> bool
        ensures { result ≡ is_allowed self.now addr }
    {
        self.allowed.iter().any(|network| network.contains(addr))
    }
}

/// Why a node could not be created.
#[derive(Clone, Copy, Debug, PartialEq, Eq, Error)]
pub enum NodeFault {
    /// The neighbours or keys are invalid.
    #[error("the table of neighbours: {0}")]
    Table(ConfigFault),
    /// A prefix is over 32, or a limit of the store is out of range.
    #[error("a limit is out of its range")]
    Limits,
    /// Out of memory.
    #[error("no memory")]
    NoMemory,
}
