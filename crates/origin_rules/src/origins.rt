//! Which servers may be fetched from as origins.
ghost use Rattle.std.specs.Prelude.{◌≡◌, ◌==◌, ◌∷◌, ◌++◌, [], IfOk, IfSome, None, Some, is_some, true};
ghost use Rattle.std.specs.List.{list_any};
ghost use Rattle.origin_rules.specs.Origins.{admits, six_items, is_own, is_denied, is_port, reached, usual_denials};

use crate::origins_six::{SixEnd, SixNetwork};
use node_terms::{End, Network};
use std::alloc::{AllocError, Global};

/// This host.
const LOOPBACK: Network = Network {
    addr: [127, 0, 0, 0],
    prefix: 8,
};

/// Addresses of a link alone (RFC 3927).
const LINK_LOCAL: Network = Network {
    addr: [169, 254, 0, 0],
    prefix: 16,
};

/// Addresses of no host (RFC 1122, section 3.2.1.3).
const NO_HOST: Network = Network {
    addr: [0, 0, 0, 0],
    prefix: 8,
};

/// Which servers may be fetched from as origins. What is denied is settled when they are made: from then on only sockets of this cache come in.
#[derive(Drop)]
pub struct OriginRules {
    // The sockets of this cache.
    pub(crate) own: Vec<End>,
    // The networks that are never fetched from.
    pub(crate) denied: Vec<Network>,
    // The only ports that are fetched from; `None` for all.
    pub(crate) ports: Option<Vec<u16>>,
    // The networks of IPv6 that are never fetched from, beside those that stand for an address of IPv4; `None` where servers of IPv6 are
    // not fetched from at all.
    pub(crate) denied_six: Option<Vec<SixNetwork>>,
    // The socket of this cache that has an address of IPv6, if there is one.
    pub(crate) own_six: Option<SixEnd>,
}

impl OriginRules {
    /// Rules that deny these networks, and each port but these, where they are given; servers of IPv6 are not fetched from at all where no
    /// networks of IPv6 are given. No socket of this cache is known yet.
    pub fn new(
        alloc: Global,
        denied: Vec<Network>,
        ports: Option<Vec<u16>>,
        denied_six: Option<Vec<SixNetwork>>,
    ) -> OriginRules
        ensures denied { result.denied ≡ denied }
        ensures ports { result.ports ≡ ports }
        ensures six { result.denied_six ≡ denied_six }
        ensures own { result.own.items ≡ [] }
        ensures own_six { result.own_six ≡ None }
    {
        OriginRules {
            own: Vec::new(alloc),
            denied,
            ports,
            denied_six,
            own_six: None,
        }
    }

    /// Rules that deny the same networks, and each port but these. No socket of this cache is known to them yet. Errors: out of memory.
    pub fn for_ports(&self, alloc: Global, ports: &[u16]) -> Result<OriginRules, AllocError>
        ensures denied { IfOk result (λ rules. rules.denied.items ≡ self.now.denied.items) }
        ensures ports { IfOk result (λ rules. IfSome rules.ports (λ its. its.items ≡ ports.now)) }
        ensures limited { IfOk result (λ rules. is_some rules.ports ≡ true) }
        ensures six { IfOk result (λ rules. six_items rules.denied_six ≡ six_items self.now.denied_six) }
    {
        let denied = copy_of(alloc, self.denied.as_slice())?;
        let ports = copy_of(alloc, ports)?;
        let denied_six = copy_of_six(alloc, &self.denied_six)?;
        Ok(OriginRules::new(alloc, denied, Some(ports), denied_six))
    }

    /// Whether servers of IPv6 are fetched from at all.
    pub fn has_six(&self) -> bool
        ensures { result ≡ is_some self.now.denied_six }
    {
        self.denied_six.is_some()
    }

    /// Adds a socket of this cache, which is never fetched from. Errors: out of memory.
    pub fn add_own(&mut self, end: End) -> Result<(), AllocError>
        ensures own { IfOk result (λ _. self.new.own.items ≡ self.old.own.items ++ end ∷ []) }
        ensures own_six { self.new.own_six ≡ self.old.own_six }
        ensures denied { self.new.denied ≡ self.old.denied }
        ensures ports { self.new.ports ≡ self.old.ports }
        ensures six { self.new.denied_six ≡ self.old.denied_six }
    {
        Ok(self.own.push(end)?)
    }

    /// Notes the socket of this cache that has an address of IPv6, which is never fetched from.
    pub fn note_own_six(&mut self, end: SixEnd)
        ensures own { self.new.own ≡ self.old.own }
        ensures own_six { self.new.own_six ≡ Some end }
        ensures denied { self.new.denied ≡ self.old.denied }
        ensures ports { self.new.ports ≡ self.old.ports }
        ensures six { self.new.denied_six ≡ self.old.denied_six }
    {
        self.own_six = Some(end);
    }

    /// Whether a server may be fetched from as an origin: it is none of this cache's sockets, its address is in no denied network,
    /// and its port is one of the ports, where they are given. A connection to 0.0.0.0 reaches 127.0.0.1, so a server at 0.0.0.0
    /// also has to pass as one at 127.0.0.1.
    pub fn admits(&self, server: End) -> bool
        ensures { result ≡ admits self.now server }
    {
        !self.is_own(server) && (!self.is_denied(server.addr) && self.is_port(server.port))
    }

    // Whether a connection to this server reaches one of this cache's sockets.
    fn is_own(&self, server: End) -> bool
        ensures { result ≡ is_own self.now.own.items server }
    {
        let addr = reached(server.addr);
        self.own
            .iter()
            .any(|own| own.addr == addr && own.port == server.port)
    }

    // Whether an address, or the one that a connection to it reaches, is in a denied network.
    fn is_denied(&self, addr: [u8; 4]) -> bool
        ensures { result ≡ is_denied self.now.denied.items addr }
    {
        self.denied.iter().any(|network| network.contains(addr) || network.contains(reached(addr)))
    }

    // Whether a port is one of the ports, where they are given.
    pub(crate) fn is_port(&self, port: u16) -> bool
        ensures { result ≡ is_port self.now.ports port }
    {
        match &self.ports {
            Some(ports) => has_port(ports.as_slice(), port),
            None => true,
        }
    }
}

// The same items once more. Errors: out of memory.
fn copy_of<T: Copy + Drop>(alloc: Global, items: &[T]) -> Result<Vec<T>, AllocError>
    ensures { IfOk result (λ copy. copy.items ≡ items.now) }
{
    let mut copy = Vec::new(alloc);
    for item in items {
        copy.push(*item)?;
    }
    Ok(copy)
}

// The same networks of IPv6 once more, if there are any. Errors: out of memory.
fn copy_of_six(
    alloc: Global,
    networks: &Option<Vec<SixNetwork>>,
) -> Result<Option<Vec<SixNetwork>>, AllocError>
    ensures { IfOk result (λ copy. six_items copy ≡ six_items networks.now) }
{
    match networks {
        Some(networks) => Ok(Some(copy_of(alloc, networks.as_slice())?)),
        None => Ok(None),
    }
}

// Whether a port is one of these.
fn has_port(ports: &[u16], port: u16) -> bool
    ensures { result ≡ list_any (λ known. known == port) ports.now }
{
    ports.iter().any(|known| *known == port)
}

// The address that a connection to this address reaches.
fn reached(addr: [u8; 4]) -> [u8; 4]
    ensures { result ≡ reached addr }
{
    if addr == [0, 0, 0, 0] {
        [127, 0, 0, 1]
    } else {
        addr
    }
}

/// The networks that are never fetched from where the configuration says nothing, for a cache with this address: 127.0.0.0/8,
/// 169.254.0.0/16 and 0.0.0.0/8. For a cache that is itself in 127.0.0.0/8 that network is none of them.
pub fn usual_denials(alloc: Global, address: [u8; 4]) -> Result<Vec<Network>, AllocError>
    ensures { IfOk result (λ networks. networks.items ≡ usual_denials address) }
{
    let mut denied = Vec::new(alloc);
    if !LOOPBACK.contains(address) {
        denied.push(LOOPBACK)?;
    }
    denied.push(LINK_LOCAL)?;
    denied.push(NO_HOST)?;
    Ok(denied)
}
