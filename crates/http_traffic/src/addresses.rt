//! The addresses of a server, and what is known of those of a name.
ghost use Rattle.std.specs.Prelude.{◌≡◌, ◌≢◌, [], Bool, IfOk, IsErrOf};
ghost use Rattle.http_traffic.specs.Judged.{AllJudged};
ghost use Rattle.origin_rules.specs.Chosen.{chosen};

use crate::passing::Ticket;
use fair_use::forward;
use origin_rules::{Admitted, chosen};
use server_connections::ServerConnections;
use std::alloc::{AllocError, Global};
use std::net::{IpAddr, SocketAddr};
use std::sync::atomic::{AtomicUsize, Ordering};
use std::sync::{Arc, Wait};

/// The most attempts to connect that are under way beside another one of the same server, over all servers.
const MOST_BESIDE: usize = 64;

// What one more attempt holds while it is under way beside another one. `None` if there are as many as there may be, or no file for one more
// connection.
fn take_counted<R: Wait>(rt: &R, servers: &ServerConnections) -> Option<Ticket> {
    let ticket = placed(rt, servers);
    servers.attempts().note(ticket.is_some());
    ticket
}

// As `take_counted`, and nothing is counted.
fn placed<R: Wait>(rt: &R, servers: &ServerConnections) -> Option<Ticket> {
    let ticket = Ticket::take(servers.attempts().count(), MOST_BESIDE)?;
    let place = servers.take_uncounted(rt)?;
    Some(ticket.with_place(place))
}

// What is known of a name.
struct Known {
    // In the order in which they are connected to.
    addresses: Vec<IpAddr>,
    // The place of the one that was connected last.
    last: AtomicUsize,
}

// Written by hand, so that what lets it go is one call for the prover (docs/GATE.md).
impl Drop for Known {
    fn drop(self) {
        let Self {
            addresses: _,
            last: _,
        } = self;
    }
}

/// The addresses that were found for a name, and which of them was connected last. All who connect to that name share it.
pub struct Found(Arc<Known>);

// Written by hand, so that what lets it go is one call for the prover (docs/GATE.md).
impl Drop for Found {
    fn drop(self) {
        let Self(_) = self;
    }
}

impl Found {
    /// These addresses, in the order in which they are connected to. `None` if there is none. Errors: out of memory.
    pub fn of(alloc: Global, addresses: Vec<IpAddr>) -> Result<Option<Found>, AllocError> {
        if addresses.is_empty() {
            return Ok(None);
        }
        let known = Known {
            addresses,
            last: AtomicUsize::new(0),
        };
        Ok(Some(Found(Arc::new(alloc, known)?)))
    }

    // Another handle to the same. Errors: there are too many.
    fn share(&self) -> Result<Found, AllocError> {
        Ok(Found(Arc::try_clone(&self.0)?))
    }

    /// These addresses with a port, the one first that was connected last. Errors: out of memory.
    pub fn at(&self, alloc: Global, port: u16) -> Result<Addresses, AllocError> {
        let place = self.0.last.load(Ordering::SeqCst);
        let mut list = Vec::new(alloc);
        for address in forward(alloc, self.0.addresses.as_slice(), place)? {
            list.push(SocketAddr::new(address, port))?;
        }
        let found = Some(self.share()?);
        Ok(Addresses { list, found })
    }

    // Notes that this address was connected.
    fn note(&self, connected: IpAddr) {
        for (place, address) in self.0.addresses.as_slice().iter().enumerate() {
            if *address == connected {
                self.0.last.store(place, Ordering::SeqCst);
            }
        }
    }
}

/// Why no address of a server may be connected to.
#[derive(Clone, Copy)]
pub enum AdmitFault {
    /// None is admitted.
    Refused,
    /// Out of memory.
    NoMemory,
}

/// The addresses of a server, in the order in which they are tried.
pub struct Addresses {
    list: Vec<SocketAddr>,
    // What is known of the name whose addresses they are. `None` for an address in digits.
    found: Option<Found>,
}

// Written by hand, so that what lets it go is one call for the prover (docs/GATE.md).
impl Drop for Addresses {
    fn drop(self) {
        let Self { list: _, found: _ } = self;
    }
}

impl Addresses {
    /// This address alone. Errors: out of memory.
    pub fn one(alloc: Global, address: SocketAddr) -> Result<Addresses, AllocError> {
        let mut list = Vec::new(alloc);
        list.push(address)?;
        Ok(Addresses { list, found: None })
    }

    /// The addresses.
    pub fn as_slice(&self) -> &[SocketAddr]
        ensures { result.now ≡ self.now.list.items }
    {
        self.list.as_slice()
    }

    /// Those that are admitted, in their order. Errors: none is, or out of memory.
    pub fn admitted(
        self,
        alloc: Global,
        judged: Vec<Option<Admitted>>,
    ) -> Result<AdmittedAddresses, AdmitFault>
        ensures those { IfOk result (λ a. a.list.items ≡ chosen judged.items) }
        ensures some { IfOk result (λ a. a.list.items ≢ []) }
        ensures none { IsErrOf result AdmitFault.Refused → chosen judged.items ≡ [] }
    {
        let Addresses { list, found } = self;
        let picked = chosen(alloc, judged);
        drop(list);
        let Ok(those) = picked else {
            return Err(AdmitFault::NoMemory);
        };
        if those.is_empty() {
            return Err(AdmitFault::Refused);
        }
        Ok(AdmittedAddresses { list: those, found })
    }
}

/// Where a server is connected to: those of its addresses that are admitted, in the order in which they are tried.
pub struct AdmittedAddresses {
    list: Vec<Admitted>,
    // What is known of the name whose addresses they are. `None` for an address in digits.
    found: Option<Found>,
}

// Written by hand, so that what lets it go is one call for the prover (docs/GATE.md).
impl Drop for AdmittedAddresses {
    fn drop(self) {
        let Self { list: _, found: _ } = self;
    }
}

impl AdmittedAddresses {
    /// The same addresses, of the same name. Errors: out of memory.
    pub fn share(&self, alloc: Global) -> Result<AdmittedAddresses, AllocError>
        ensures same { IfOk result (λ those. those.list.items ≡ self.now.list.items) }
    {
        let list = self.list.as_slice().to_vec(alloc)?;
        let found = match &self.found {
            Some(found) => Some(found.share()?),
            None => None,
        };
        Ok(AdmittedAddresses { list, found })
    }

    /// The addresses.
    pub fn as_slice(&self) -> &[Admitted]
        ensures { result.now ≡ self.now.list.items }
    {
        self.list.as_slice()
    }

    /// Takes an address out, since it is not to be tried again. Returns whether another one is left.
    pub fn take_out(&mut self, address: SocketAddr) -> bool
        ensures judged { (by_rules : Bool) → AllJudged by_rules self.old.list.items → AllJudged by_rules self.new.list.items }
    {
        self.list.retain(|it| it.address() != address);
        !self.list.is_empty()
    }

    /// Notes that this address was connected, so that it comes first the next time.
    pub fn note_connected(&self, address: SocketAddr) {
        if let Some(found) = &self.found {
            found.note(address.ip());
        }
    }

    /// What an attempt to connect holds that goes beside another one of this server, with a place among these connections. `None` if there are
    /// as many as there may be, or no file for one more connection, and where there is no other address.
    pub fn take_beside<R: Wait>(&self, rt: &R, servers: &ServerConnections) -> Option<Ticket> {
        match &self.found {
            Some(_) => take_counted(rt, servers),
            None => None,
        }
    }
}
