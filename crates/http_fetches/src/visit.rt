//! A visit of a server: waits for its addresses, then makes the call.
ghost use Rattle.std.specs.Prelude.{◌≡◌, IfOk, IfSome, true};
ghost use Rattle.futures.specs.Poll.{OnPending};
ghost use Rattle.futures.specs.Task.{Covers, Keeps};
ghost use Rattle.http_traffic.specs.Judged.{JudgedBy};

use crate::dialer::Dial;
use crate::exchange::{Call, Talk};
use crate::fetching::put;
use dialing::{admitted_by, poll_addresses};
use futures::task::{Context, Poll};
use futures::{Future, ready};
use http_traffic::{Addresses, AdmitFault, AdmittedAddresses, FetchFault, Server};
use std::alloc::Global;

/// How a visit ended.
#[derive(Drop)]
pub enum Visited<P> {
    /// With what the exchange brought.
    Whole(P),
    /// The server is not admitted.
    Refused,
    /// Without it.
    Failed(FetchFault),
}

/// Waits for the addresses of the server, then makes the call to one of them. Where a connection ends without an octet of an answer to a
/// request that may be sent twice, the call is made once more at those that are left.
pub struct Visit<D: Dial, T: Talk> {
    alloc: Global,
    server: Server,
    dialer: Option<D>,
    talk: Option<T>,
    // The addresses that the call may be made to, once they are known.
    servers: Option<AdmittedAddresses>,
    // The call, once it has begun.
    call: Option<Call<D::Connecting, T>>,
}

// Written by hand, as other drops of this crate, so that what lets it go is one call for the prover (docs/GATE.md).
impl<D: Dial, T: Talk> Drop for Visit<D, T> {
    fn drop(self) {
        let Self {
            alloc: _,
            server,
            dialer,
            talk,
            servers,
            call,
        } = self;
        drop(server);
        drop(dialer);
        drop(talk);
        drop(servers);
        drop(call);
    }
}

impl<D: Dial, T: Talk> Visit<D, T> {
    /// A visit that has not begun; without a dialer it fails, as out of memory.
    pub fn new(alloc: Global, server: Server, dialer: Option<D>, talk: T) -> Visit<D, T>
        ensures ready { IfSome result.call (λ c. IfSome c.talking T.Talking.can_poll) }
        ensures judged { IfSome result.servers (λ servers. JudgedBy D.judges result.dialer servers.list.items) }
    {
        Visit {
            alloc,
            server,
            dialer,
            talk: Some(talk),
            servers: None,
            call: None,
        }
    }

    // Those of these addresses that are admitted. Errors: there is none, or out of memory.
    fn admitted(&self, servers: Addresses) -> Result<AdmittedAddresses, AdmitFault>
        ensures judged { IfOk result (λ those. JudgedBy D.judges self.now.dialer those.list.items) }
    {
        let Some(dialer) = &self.dialer else {
            drop(servers);
            return Err(AdmitFault::NoMemory);
        };
        admitted_by(self.alloc, dialer, servers)
    }

    // Makes the call to one of these addresses, if `call` gives one.
    fn begin(&mut self, servers: AdmittedAddresses)
        requires judged { JudgedBy D.judges self.old.dialer servers.list.items }
        ensures judged { IfSome self.new.servers (λ servers. JudgedBy D.judges self.new.dialer servers.list.items) }
        ensures ready { IfSome self.new.call (λ c. IfSome c.talking T.Talking.can_poll) }
    {
        let call = self.call(&servers);
        put(&mut self.call, call);
        put(&mut self.servers, Some(servers));
    }

    // The call to one of these addresses: over a connection that was kept, or a new one. Returns `None` if it has begun before, or if
    // out of memory.
    fn call(&mut self, servers: &AdmittedAddresses) -> Option<Call<D::Connecting, T>>
        requires judged { JudgedBy D.judges self.old.dialer servers.now.list.items }
        ensures dialer { self.new.dialer ≡ self.old.dialer }
        ensures ready { IfSome result (λ c. IfSome c.talking T.Talking.can_poll) }
    {
        let talk = self.talk.take()?;
        match Call::over_kept(servers.as_slice(), talk) {
            Ok(call) => Some(call),
            Err(talk) => self.new_call(servers, talk),
        }
    }

    // The call to one of these addresses over a new connection. Returns `None` if out of memory.
    fn new_call(&self, servers: &AdmittedAddresses, talk: T) -> Option<Call<D::Connecting, T>>
        requires judged { JudgedBy D.judges self.now.dialer servers.now.list.items }
        ensures ready { IfSome result (λ c. IfSome c.talking T.Talking.can_poll) }
    {
        match &self.dialer {
            Some(dialer) => Some(Call::new(dialer.connect(servers), talk)),
            None => {
                drop(talk);
                None
            }
        }
    }

    // Whether the call, which has failed so, may be made once more over a new connection. Where the one that failed was new, its address is
    // not tried again.
    #[tactic(auto, using(crate::proofs::Judging::still_judged))]
    fn may_again(&mut self, fault: FetchFault) -> bool
        requires judged { IfSome self.old.servers (λ servers. JudgedBy D.judges self.old.dialer servers.list.items) }
        ensures judged { IfSome self.new.servers (λ servers. JudgedBy D.judges self.new.dialer servers.list.items) }
    {
        let Some(call) = &self.call else {
            return false;
        };
        if call.may_retry(fault) {
            return true;
        }
        if !call.may_go_on(fault) {
            return false;
        }
        let server = call.server();
        match (server, &mut self.servers) {
            (Some(server), Some(servers)) => servers.take_out(server.address()),
            _ => false,
        }
    }

    // Makes the call, which has failed, once more. It is gone if out of memory.
    fn make_again(&mut self)
        requires judged { IfSome self.old.servers (λ servers. JudgedBy D.judges self.old.dialer servers.list.items) }
        ensures judged { IfSome self.new.servers (λ servers. JudgedBy D.judges self.new.dialer servers.list.items) }
        ensures ready { IfSome self.new.call (λ c. IfSome c.talking T.Talking.can_poll) }
    {
        let Some(call) = self.call.take() else {
            return;
        };
        let call = self.call_again(call.into_talk());
        put(&mut self.call, call);
    }

    // The call, made once more. Returns `None` if out of memory.
    fn call_again(&self, talk: T) -> Option<Call<D::Connecting, T>>
        requires judged { IfSome self.now.servers (λ servers. JudgedBy D.judges self.now.dialer servers.list.items) }
        ensures ready { IfSome result (λ c. IfSome c.talking T.Talking.can_poll) }
    {
        match &self.servers {
            Some(servers) => self.new_call(servers, talk),
            None => {
                drop(talk);
                None
            }
        }
    }

    // Polls the call, and makes it once more where it has failed and may be.
    fn poll_call(&mut self, cx: &mut Context<'_>) -> Poll<Visited<T::Page>>
        requires ready { IfSome self.old.call (λ c. IfSome c.talking T.Talking.can_poll) }
        requires judged { IfSome self.old.servers (λ servers. JudgedBy D.judges self.old.dialer servers.list.items) }
        ensures judged { IfSome self.new.servers (λ servers. JudgedBy D.judges self.new.dialer servers.list.items) }
        ensures again { OnPending result (IfSome self.new.call (λ c. IfSome c.talking T.Talking.can_poll)) }
        ensures registered { OnPending result (Covers cx.new (λ _. ⊥)) }
        ensures kept { Keeps cx.old cx.new }
    {
        let Some(call) = &mut self.call else {
            return Poll::Ready(Visited::Failed(FetchFault::NoMemory));
        };
        match call.poll(cx) {
            Poll::Ready(Ok(page)) => {
                let mut page = page;
                call.keep(&mut page);
                Poll::Ready(Visited::Whole(page))
            }
            Poll::Ready(Err(fault)) => {
                if self.makes_again(fault) {
                    return cx.yield_now();
                }
                Poll::Ready(Visited::Failed(fault))
            }
            Poll::Pending => Poll::Pending,
        }
    }

    // Makes the call, which has failed so, once more, if it may be. Returns whether it has.
    fn makes_again(&mut self, fault: FetchFault) -> bool
        requires judged { IfSome self.old.servers (λ servers. JudgedBy D.judges self.old.dialer servers.list.items) }
        ensures judged { IfSome self.new.servers (λ servers. JudgedBy D.judges self.new.dialer servers.list.items) }
        ensures ready { result ≡ true → IfSome self.new.call (λ c. IfSome c.talking T.Talking.can_poll) }
    {
        if !self.may_again(fault) {
            return false;
        }
        self.make_again();
        true
    }
}

// How a visit ends whose addresses are not connected to.
fn unadmitted<P: Drop>(fault: AdmitFault) -> Visited<P> {
    match fault {
        AdmitFault::Refused => Visited::Refused,
        AdmitFault::NoMemory => Visited::Failed(FetchFault::NoMemory),
    }
}

impl<D: Dial, T: Talk> Future for Visit<D, T> {
    type Output = Visited<T::Page>;

    ghost can_poll = { λ v. IfSome v.call (λ c. IfSome c.talking T.Talking.can_poll)
        × IfSome v.servers (λ servers. JudgedBy D.judges v.dialer servers.list.items) };

    fn poll(&mut self, cx: &mut Context<'_>) -> Poll<Visited<T::Page>> {
        if self.call.is_none() {
            let servers = match ready!(poll_addresses(self.alloc, &mut self.server, cx)) {
                Ok(servers) => servers,
                Err(fault) => return Poll::Ready(Visited::Failed(fault)),
            };
            let servers = match self.admitted(servers) {
                Ok(servers) => servers,
                Err(fault) => return Poll::Ready(unadmitted(fault)),
            };
            self.begin(servers);
        }
        self.poll_call(cx)
    }
}
