//! Connections to servers, as they are made.
ghost use Rattle.futures.specs.Poll.{OnPending};
ghost use Rattle.futures.specs.Task.{Covers, Keeps};
ghost use Rattle.http_traffic.specs.Judged.{AllJudged};

use crate::fetching::FetchRules;
use dialing::{Connected, DialFault, Dialing, Judge};
use futures::Future;
use futures::task::{Context, Poll};
use http_rules::Admitted;
use http_traffic::{Admit, AdmittedAddresses, FetchFault};
use shared_thread::{FETCH_TURN, Paced};
use std::alloc::Global;
use std::net::{Net, SocketAddr};
use std::rc::Rc;
use std::sync::Wait;
use std::time::{Clock, Duration};
use tokio::runtime::Handle;

/// Connects to servers. What makes calls is generic over this, since the prover does not look behind a type parameter (docs/GATE.md).
pub trait Dial: Judge + Drop {
    /// A connection that is being made.
    type Connecting: Connect;

    /// Connects to one of these addresses, with a timeout. Returns `None` if out of memory.
    fn connect(&self, servers: &AdmittedAddresses) -> Option<Self::Connecting>
        requires judged { AllJudged (Self.judges self.now) servers.now.list.items };
}

/// A connection that was made, and the address that it leads to.
#[derive(Drop)]
pub struct Reached {
    pub socket: Paced,
    pub server: Admitted,
}

/// A connection that is being made.
pub trait Connect: Drop {
    /// Waits for the connection. Errors: there is none.
    fn poll_connected(&mut self, cx: &mut Context<'_>) -> Poll<Result<Reached, FetchFault>>
        ensures registered { OnPending result (Covers cx.new (λ _. ⊥)) }
        ensures kept { Keeps cx.old cx.new };
}

impl<R: Net + Wait + Clock + Copy> Connect for Dialing<R> {
    fn poll_connected(&mut self, cx: &mut Context<'_>) -> Poll<Result<Reached, FetchFault>> {
        match self.poll(cx) {
            Poll::Ready(connected) => Poll::Ready(server_reached(connected)),
            Poll::Pending => Poll::Pending,
        }
    }
}

// A connection that was made, if it was. Errors: why it was not.
fn server_reached(connected: Result<Connected, DialFault>) -> Result<Reached, FetchFault> {
    match connected {
        Ok(Connected { socket, server }) => {
            let _ = socket.set_nodelay(true);
            let socket = Paced::new(socket, FETCH_TURN);
            Ok(Reached { socket, server })
        }
        Err(DialFault::NoMemory) => Err(FetchFault::NoMemory),
        Err(DialFault::Failed | DialFault::Late) => Err(FetchFault::Connect),
    }
}

/// Connects to servers by these rules, on an event loop.
pub struct Dialer<R, A> {
    pub rt: R,
    pub alloc: Global,
    pub handle: Handle,
    pub connecting: Duration,
    pub rules: Rc<FetchRules<A>>,
    pub is_origin: bool,
}

// Written by hand, as other drops of this crate, so that what lets it go is one call for the prover (docs/GATE.md).
impl<R: Drop, A: Drop> Drop for Dialer<R, A> {
    fn drop(self) {
        let Self {
            rt,
            alloc: _,
            handle,
            connecting: _,
            rules,
            is_origin: _,
        } = self;
        drop(rt);
        drop(handle);
        drop(rules);
    }
}

impl<R, A: Admit> Judge for Dialer<R, A> {
    ghost judges = { λ dialer. dialer.is_origin };

    fn admitted(&self, server: SocketAddr) -> Option<Admitted> {
        if self.is_origin {
            Some(Admitted::origin(self.rules.admit.admitted(server)?))
        } else {
            Some(Admitted::neighbour(server))
        }
    }
}

impl<R: Net + Wait + Clock + Copy, A: Admit> Dial for Dialer<R, A> {
    type Connecting = Dialing<R>;

    fn connect(&self, servers: &AdmittedAddresses) -> Option<Dialing<R>> {
        let places = self.rules.kept.servers().ok()?;
        let servers = servers.share(self.alloc).ok()?;
        let handle = &self.handle;
        Dialing::new(
            self.rt,
            self.alloc,
            handle,
            servers,
            places,
            self.connecting,
        )
    }
}
