//! Servers that may be connected to.
ghost use Rattle.std.specs.Prelude.{◌≡◌, IfOk, IfSome, MatchOption, true, false};
ghost use Rattle.origin_rules.specs.Chosen.{chosen};
ghost use Rattle.origin_rules.specs.OriginsSix.{admits_at};

use crate::origins::OriginRules;
use std::alloc::{AllocError, Global};
use std::net::SocketAddr;

/// A server that may be fetched from as an origin. `OriginRules::admitted` alone makes it.
#[derive(Clone, Copy)]
pub struct AdmittedOrigin {
    server: SocketAddr,
}

impl OriginRules {
    /// This server, if it may be fetched from as an origin.
    pub fn admitted(&self, server: SocketAddr) -> Option<AdmittedOrigin>
        ensures judged { MatchOption result (admits_at self.now server ≡ false) (λ it. admits_at self.now server ≡ true) }
        ensures same { IfSome result (λ it. it.server ≡ server) }
    {
        if self.admits_at(server) {
            Some(AdmittedOrigin { server })
        } else {
            None
        }
    }
}

/// A server that may be connected to: an origin that is admitted, or a neighbour, which the configuration names. What connects to a server,
/// takes a kept connection to it or opens a tunnel takes this.
#[derive(Clone, Copy)]
pub struct Admitted {
    server: SocketAddr,
    // Whether rules have judged it; nobody judges a neighbour.
    is_judged: bool,
}

impl Admitted {
    /// An origin.
    pub fn origin(origin: AdmittedOrigin) -> Admitted
        ensures same { result.server ≡ origin.server }
        ensures judged { result.is_judged ≡ true }
    {
        Admitted {
            server: origin.server,
            is_judged: true,
        }
    }

    /// A neighbour, at an address that the configuration gives it. For no other server: an origin is judged.
    pub fn neighbour(server: SocketAddr) -> Admitted
        ensures same { result.server ≡ server }
        ensures judged { result.is_judged ≡ false }
    {
        Admitted {
            server,
            is_judged: false,
        }
    }

    /// Its address and port.
    pub fn address(&self) -> SocketAddr
        ensures same { result ≡ self.now.server }
    {
        self.server
    }
}

/// Those that are admitted, in their order. Errors: out of memory.
pub fn chosen(alloc: Global, judged: Vec<Option<Admitted>>) -> Result<Vec<Admitted>, AllocError>
    ensures { IfOk result (λ list. list.items ≡ chosen judged.items) }
{
    let mut list = Vec::new(alloc);
    for one in judged {
        if let Some(server) = one {
            list.push(server)?;
        }
    }
    Ok(list)
}
