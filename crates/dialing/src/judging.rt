//! Servers that may be connected to.
ghost use Rattle.std.specs.Prelude.{Bool, IfOk};
ghost use Rattle.futures.specs.Poll.{OnPending};
ghost use Rattle.futures.specs.Task.{Covers, Keeps};
ghost use Rattle.http_traffic.specs.Judged.{AllJudged, AreJudged, IsJudged};

use futures::task::{Context, Poll};
use futures::{Future, ready};
use http_traffic::{Addresses, AdmitFault, AdmittedAddresses, FetchFault, Server};
use origin_rules::Admitted;
use std::alloc::{AllocError, Global};
use std::net::SocketAddr;

/// Says which servers may be connected to.
pub trait Judge {
    // Whether the servers are origins, which are judged.
    ghost judges: { Self → Bool };

    /// This server as one that may be connected to, if it may be.
    fn admitted(&self, server: SocketAddr) -> Option<Admitted>
        ensures judged { IsJudged (Self.judges self.now) server result };
}

// Each of these servers, if it is admitted. Errors: out of memory.
fn judged<J: Judge>(
    alloc: Global,
    judge: &J,
    servers: &[SocketAddr],
) -> Result<Vec<Option<Admitted>>, AllocError>
    ensures judged { IfOk result (λ list. AreJudged (J.judges judge.now) servers.now list.items) }
{
    let mut judged = Vec::new(alloc);
    for server in servers {
        judged.push(judge.admitted(*server))?;
    }
    Ok(judged)
}

/// Those of these addresses that are admitted. Errors: there is none, or out of memory.
#[tactic(auto, using(crate::proofs::Chosen::chosen_judged))]
pub fn admitted_by<J: Judge>(
    alloc: Global,
    judge: &J,
    servers: Addresses,
) -> Result<AdmittedAddresses, AdmitFault>
    ensures judged { IfOk result (λ those. AllJudged (J.judges judge.now) those.list.items) }
{
    match judged(alloc, judge, servers.as_slice()) {
        Ok(judged) => servers.admitted(alloc, judged),
        Err(_) => {
            drop(servers);
            Err(AdmitFault::NoMemory)
        }
    }
}

/// Waits for the addresses of a server. Errors: its name has none, or out of memory.
pub fn poll_addresses(
    alloc: Global,
    server: &mut Server,
    cx: &mut Context<'_>,
) -> Poll<Result<Addresses, FetchFault>>
    ensures registered { OnPending result (Covers cx.new (λ _. ⊥)) }
    ensures kept { Keeps cx.old cx.new }
{
    match server {
        Server::At(server) => {
            let one = Addresses::one(alloc, *server);
            Poll::Ready(one.map_err(|_| FetchFault::NoMemory))
        }
        Server::Sought(sought) => {
            let found = ready!(sought.poll(cx));
            Poll::Ready(found.map_err(|_| FetchFault::Lookup))
        }
    }
}
