//! Fetches from origin servers and neighbours, many concurrently on one thread.
ghost use Rattle.std.specs.Prelude.{◌≡◌, ◌<◌, IfSome, box_value};
ghost use Rattle.futures.specs.Task.{Keeps};
ghost use Rattle.futures.specs.declared.future.either.Either.TheVariants.{Left, Right};
ghost use Rattle.tokio.specs.Timers.{timeout_future};

use crate::budget::{Budget, Party, Share};
use crate::dialer::{Dial, Dialer};
use crate::early::{Doorman, Early, Offered, gate};
use crate::exchange::{Asked, Get, Paid, Talk};
use crate::kept::{Keeper, Kept};
use crate::moves::{Delay, Moves, Stillness};
use crate::passing::{Pass, Plan, Post, Watch, Watching, plan_of};
use crate::sending::Sent;
use crate::speaking::{Asker, Deliverer, Meter, Metered};
use crate::visit::{Visit, Visited};
use futures::Future;
use futures::channel::mpsc::{UnboundedReceiver, UnboundedSender};
use futures::channel::oneshot;
use futures::future::Either;
use futures::task::{Context, Poll};
use http_traffic::{
    Admit, Ended, FetchEnd, FetchFault, Fetched, Job, LeftChange, Order, OrderParts, Passage,
    Progress, Server, Work,
};
use hyper::Request;
use hyper::client::conn::http1;
use server_connections::{KeptShare, ServerPlace};
use shared_thread::{Begin, Submit, Tend};
use std::alloc::{AllocGlobal, Global};
use std::hash::RandomState;
use std::io;
use std::net::{IpAddr, Net, SocketAddr};
use std::random::RandomSource;
use std::rc::Rc;
use std::sync::{Arc, Wait};
use std::time::{Clock, Duration, Instant};
use tokio::runtime::{Handle, LocalRuntime};
use tokio::time;
use tokio::time::Timeout;
use tokio::time::error::Elapsed;

/// Limits of the fetches of one thread.
#[derive(Clone, Copy)]
pub struct FetchLimits {
    /// The most octets of a body.
    pub octets: usize,
    /// How many octets of each body take nothing of the budget, so that short bodies never wait.
    pub free: usize,
    /// Time to connect.
    pub connecting: Duration,
    /// How long a fetch's connection may be without an octet, if that is limited.
    pub idle: Option<Duration>,
    /// The least octets a second of a content, if there is a least speed.
    pub speed: Option<u32>,
    /// How long a connection is kept for further fetches after an answer. None are if it is left out.
    pub keep: Option<Duration>,
    /// The most jobs at a time: fetches, and requests that are passed on. Further ones wait in the channel.
    pub at_once: usize,
}

/// What the fetches of all threads have in common.
pub struct FetchRules<A> {
    /// How many octets of bodies may be under way.
    pub budget: Arc<Budget>,
    /// The thread's part in the connections that are kept.
    pub kept: KeptShare,
    /// Which servers may be fetched from as origins.
    pub admit: A,
}

// Written by hand, as other drops of this file, so that what lets it go is one call for the prover (docs/GATE.md).
impl<A: Drop> Drop for FetchRules<A> {
    fn drop(self) {
        let Self {
            budget: _,
            kept: _,
            admit: _,
        } = self;
    }
}

/// A value in a box, so that what has it is small where it is moved and cleared. Returns `None` if out of memory.
pub(crate) fn boxed<T: Drop>(alloc: Global, value: T) -> Option<Box<T>>
    ensures { IfSome result (λ b. box_value b ≡ value) }
{
    Box::new(alloc, value).ok()
}

/// Puts a value in the place of another, which is let go of by a call: an assignment would lay out its parts for the prover.
pub(crate) fn put<T: Drop>(place: &mut T, value: T)
    ensures { place.new ≡ value }
{
    *place = value;
}

// A future with the time that it has. Returns `None` if out of memory. Of the future no more is known here than that it can be dropped: the parts of
// a visit are elaborated anew wherever it is named.
fn timed<F: Drop>(
    timers: &time::Handle,
    alloc: Global,
    deadline: Instant,
    future: F,
) -> Option<Box<Timeout<F>>>
    ensures { IfSome result (λ b. timeout_future (box_value b) ≡ future) }
{
    match timers.timeout_at(deadline, future) {
        Ok(timed) => boxed(alloc, timed),
        Err(_) => None,
    }
}

// What is told of a fetch as it begins.
#[derive(Drop)]
struct Begun {
    fetch: u32,
    // Whether the client that began it may have the answer while it is collected.
    is_early: bool,
    // The address of that client, if a client began it.
    asker: Option<IpAddr>,
    // Told whether it waits for room. None if out of memory.
    delay: Option<Delay>,
    // Where is noted how much of its answer has come, if anybody looks at that.
    progress: Option<Arc<Progress>>,
}

// Two handles to whether a fetch waits for room: it doesn't. None if out of memory.
fn delays(alloc: Global) -> (Option<Delay>, Option<Delay>) {
    let Ok(delay) = Delay::new(alloc) else {
        return (None, None);
    };
    let told = delay.share().ok();
    (Some(delay), told)
}

// Makes what jobs are done with. What starts jobs is generic over this, and with it over each of these types: the prover does not look
// behind a type parameter, and lays out what is in a connection anew for each function that names it (docs/GATE.md).
trait Means: Drop {
    // Connects to servers.
    type Dialer: Dial;

    // What the content of a page is paid for with.
    type Purse: Drop;

    // The exchange of a fetch.
    type Get: Talk<Page = Paid<Self::Purse>>;

    // The exchange of a request that is passed on.
    type Post: Talk<Page = ()>;

    // Watches over that.
    type Watch: Watch;

    // What connects one job. Returns `None` if out of memory.
    fn dialer(&self, is_origin: bool) -> Option<Self::Dialer>
        ensures judges { IfSome result (λ dialer. Self.Dialer.judges dialer ≡ is_origin) };

    // The exchange of this fetch.
    fn get(&self, begun: Begun, asked: Asked) -> Self::Get;

    // How this request is passed on.
    fn plan(&self, passage: Passage) -> Plan<Self::Watch, Self::Post>;

    // The place of one more connection to a server. Returns `None` if no file is left for it.
    fn place(&self) -> Option<ServerPlace>;

    // The timers of the thread.
    fn timers(&self) -> &time::Handle;
}

// Starts jobs.
struct Starter<M> {
    alloc: Global,
    means: M,
}

impl<M: Drop> Drop for Starter<M> {
    fn drop(self) {
        let Self { alloc: _, means: _ } = self;
    }
}

impl<M: Means> Begin for Starter<M> {
    type Job = Job;

    type Done = Done<M::Purse>;

    type Running = Doing<M::Watch, M::Dialer, M::Get, M::Post>;

    fn begin(&mut self, job: Job) -> Doing<M::Watch, M::Dialer, M::Get, M::Post> {
        let (server, work) = job.into_parts();
        match work {
            Work::Fetch(order) => Doing {
                doing: Either::Left(self.fetch(server, order)),
            },
            Work::Pass(passage) => Doing {
                doing: Either::Right(self.pass(server, passage)),
            },
        }
    }
}

impl<M: Means> Starter<M> {
    // Begins a fetch from this server.
    fn fetch(&self, server: Server, order: Order) -> Fetch<M::Dialer, M::Get>
        ensures { IfSome result.visit (λ t. ⟦<Visit<M::Dialer, M::Get> as Future>⟧.can_poll (timeout_future (box_value t))) }
    {
        let OrderParts {
            fetch,
            attempt,
            host,
            target,
            fields,
            is_origin,
            is_early,
            asker,
            deadline,
            wanted,
            progress,
        } = order.into_parts();
        let (delay, told) = delays(self.alloc);
        let begun = Begun {
            fetch,
            is_early,
            asker,
            delay: told,
            progress,
        };
        let asked = Asked {
            host,
            target,
            fields,
        };
        let get = self.means.get(begun, asked);
        let visit = Visit::new(self.alloc, server, self.means.dialer(is_origin), get);
        Fetch {
            fetch,
            attempt,
            wanted,
            delay,
            visit: timed(self.means.timers(), self.alloc, deadline, visit),
            place: self.means.place(),
        }
    }

    // Begins to pass on a request to this server.
    fn pass(&self, server: Server, passage: Passage) -> Pass<M::Watch, M::Dialer, M::Post>
        ensures { IfSome result.visit (λ v. ⟦<Visit<M::Dialer, M::Post> as Future>⟧.can_poll (box_value v)) }
    {
        let dialer = self.means.dialer(passage.is_origin);
        let plan = self.means.plan(passage);
        Pass::new(self.alloc, server, dialer, plan)
    }
}

// A job in progress.
struct Doing<W, D: Dial, T: Talk, U: Talk> {
    doing: Either<Fetch<D, T>, Pass<W, D, U>>,
}

impl<W: Drop, D: Dial, T: Talk, U: Talk> Drop for Doing<W, D, T, U> {
    fn drop(self) {
        let Self { doing } = self;
        match doing {
            Either::Left(fetch) => drop(fetch),
            Either::Right(pass) => drop(pass),
        }
    }
}

impl<P: Drop, W: Watch, D: Dial, T: Talk<Page = Paid<P>>, U: Talk<Page = ()>> Future
    for Doing<W, D, T, U> {
    type Output = Done<P>;

    ghost can_poll = { λ d. elim d.doing [
      | Left f ↦ ⟦<Fetch<D, T> as Future>⟧.can_poll f
      | Right p ↦ ⟦<Pass<W, D, U> as Future>⟧.can_poll p
    ] };

    fn poll(&mut self, cx: &mut Context<'_>) -> Poll<Done<P>> {
        match &mut self.doing {
            Either::Left(fetch) => fetch.poll(cx),
            Either::Right(pass) => match pass.poll(cx) {
                Poll::Ready(left) => Poll::Ready(ended(left)),
                Poll::Pending => Poll::Pending,
            },
        }
    }
}

// Has what fetches and passages are made with on one thread.
struct Getter<R, A> {
    rt: R,
    alloc: Global,
    handle: Handle,
    http: http1::Builder,
    limits: FetchLimits,
    rules: Rc<FetchRules<A>>,
    // None where no connection is kept.
    kept: Option<Kept<R>>,
    // Where answers are offered to the clients that began their fetches.
    gate: UnboundedSender<Offered>,
}

impl<R: Drop, A: Drop> Drop for Getter<R, A> {
    fn drop(self) {
        let Self {
            rt,
            alloc: _,
            handle,
            http: _,
            limits: _,
            rules,
            kept,
            gate,
        } = self;
        drop(rt);
        drop(handle);
        drop(rules);
        drop(kept);
        drop(gate);
    }
}

impl<R: Wait + Net + Clock + Copy, A: Admit> Means for Getter<R, A> {
    type Dialer = Dialer<R, A>;

    type Purse = Share<R>;

    type Get = Get<R, Asker<Allowance<R>>>;

    type Post = Post<Deliverer, Request<Sent>>;

    type Watch = Watching<R>;

    fn dialer(&self, is_origin: bool) -> Option<Dialer<R, A>> {
        let rules = self.rules.clone().ok()?;
        match self.handle.clone() {
            Ok(handle) => Some(Dialer {
                rt: self.rt,
                alloc: self.alloc,
                handle,
                connecting: self.limits.connecting,
                rules,
                is_origin,
            }),
            Err(_) => {
                drop(rules);
                None
            }
        }
    }

    fn get(&self, begun: Begun, asked: Asked) -> Get<R, Asker<Allowance<R>>> {
        Get {
            alloc: self.alloc,
            http: Asker {
                alloc: self.alloc,
                http: self.http,
                meter: self.allowance(begun),
            },
            asked,
            stillness: self.stillness(),
            kept: self.kept(),
            used: None,
            fresh: None,
        }
    }

    fn plan(&self, passage: Passage) -> Plan<Watching<R>, Post<Deliverer, Request<Sent>>> {
        let timers = self.handle.time().clone().ok();
        plan_of(self.rt, self.alloc, self.http, timers, passage)
    }

    fn place(&self) -> Option<ServerPlace> {
        self.rules.kept.all().take(&self.rt)
    }

    fn timers(&self) -> &time::Handle {
        self.handle.time()
    }
}

impl<R: Copy, A: Drop> Getter<R, A> {
    // How long the connection of a fetch may be without an octet, and how fast its content has to come. It has no timers where neither is
    // limited, and if there are too many handles.
    fn stillness(&self) -> Stillness<R> {
        let is_limited = self.limits.idle.is_some() || self.limits.speed.is_some();
        let timers = if is_limited {
            self.handle.time().clone().ok()
        } else {
            None
        };
        Stillness {
            rt: self.rt,
            idle: self.limits.idle,
            speed: self.limits.speed,
            timers,
        }
    }

    // The timers of what looks after connections that are kept. `None` also if there are too many handles.
    fn keep_timers(&self) -> Option<time::Handle> {
        match &self.kept {
            Some(_) => self.handle.time().clone().ok(),
            None => None,
        }
    }

    // Where the connection of a fetch is kept. `None` where none is, and if there are too many handles.
    fn kept(&self) -> Option<Kept<R>> {
        match &self.kept {
            Some(kept) => kept.share().ok(),
            None => None,
        }
    }

    // Where the answer of a fetch is offered to the client that began it, if that may have it. `None` also if there are too many handles.
    fn gate(&self, is_early: bool) -> Option<UnboundedSender<Offered>> {
        if is_early {
            self.gate.clone().ok()
        } else {
            None
        }
    }

    // What may be read of the answer of this fetch.
    fn allowance(&self, begun: Begun) -> Allowance<R> {
        let Begun {
            fetch,
            is_early,
            asker,
            delay,
            progress,
        } = begun;
        Allowance {
            rt: self.rt,
            alloc: self.alloc,
            limit: self.limits.octets,
            free: self.limits.free,
            budget: Arc::try_clone(&self.rules.budget).ok(),
            fetch,
            asker,
            delay,
            progress,
            gate: self.gate(is_early),
        }
    }
}

// What may be read of the answer of a fetch, and who has it meanwhile.
struct Allowance<R> {
    rt: R,
    alloc: Global,
    // The most octets of the content.
    limit: usize,
    // How many of them need not be paid for.
    free: usize,
    // What pays for the content. None if out of memory.
    budget: Option<Arc<Budget>>,
    // The number of the fetch.
    fetch: u32,
    // The address of the client that began it, if a client did.
    asker: Option<IpAddr>,
    // Told whether it waits for room. None if out of memory.
    delay: Option<Delay>,
    // Where is noted how much of the answer has come, if anybody looks at that.
    progress: Option<Arc<Progress>>,
    // Where the answer is offered to the client that began the fetch, while it is collected. None where no client may have it.
    gate: Option<UnboundedSender<Offered>>,
}

impl<R: Drop> Drop for Allowance<R> {
    fn drop(self) {
        let Self {
            rt,
            alloc: _,
            limit: _,
            free: _,
            budget,
            fetch: _,
            asker: _,
            delay,
            progress,
            gate,
        } = self;
        drop(rt);
        drop(budget);
        drop(delay);
        drop(progress);
        drop(gate);
    }
}

impl<R: Wait + Copy> Allowance<R> {
    // What pays for the content of an answer of this server. Returns `None` if out of memory.
    fn share(&self, server: SocketAddr, moves: &Moves) -> Option<Share<R>> {
        let Some(budget) = &self.budget else {
            return None;
        };
        let party = Party {
            asker: self.asker,
            server,
        };
        let share = Share::new(self.rt, self.alloc, budget, party).ok()?;
        Some(share.told(moves.share().ok()?, self.told()))
    }

    // Told whether the fetch waits for room. None if there are too many handles.
    fn told(&self) -> Option<Delay> {
        match &self.delay {
            Some(delay) => delay.share().ok(),
            None => None,
        }
    }

    // What gives the answer to the client that began the fetch. Where there are too many handles, no client has it.
    fn early(&self) -> Early {
        let gate = match &self.gate {
            Some(gate) => gate.clone().ok(),
            None => None,
        };
        Early::new(self.alloc, gate, self.fetch, self.progress())
    }

    // Where is noted how much has come. None also if there are too many handles.
    fn progress(&self) -> Option<Arc<Progress>> {
        match &self.progress {
            Some(progress) => Arc::try_clone(progress).ok(),
            None => None,
        }
    }
}

impl<R: Wait + Copy> Meter for Allowance<R> {
    type Purse = Share<R>;

    type Follower = Early;

    fn metered(&self, server: SocketAddr, moves: &Moves) -> Metered<Share<R>, Early> {
        Metered {
            alloc: self.alloc,
            limit: self.limit,
            free: self.free,
            purse: self.share(server, moves),
            follower: self.early(),
        }
    }
}

// A fetch in progress.
struct Fetch<D: Dial, T: Talk> {
    fetch: u32,
    attempt: u16,
    wanted: oneshot::Receiver<()>,
    // Whether it waits for room. None if out of memory.
    delay: Option<Delay>,
    visit: Option<Box<Timeout<Visit<D, T>>>>,
    // The place of its connection. None if no file is left for it. The last to be dropped.
    place: Option<ServerPlace>,
}

impl<D: Dial, T: Talk> Drop for Fetch<D, T> {
    fn drop(self) {
        let Self {
            fetch: _,
            attempt: _,
            wanted,
            delay,
            visit,
            place,
        } = self;
        drop(wanted);
        drop(delay);
        drop(visit);
        drop(place);
    }
}

impl<P: Drop, D: Dial, T: Talk<Page = Paid<P>>> Future for Fetch<D, T> {
    type Output = Done<P>;

    ghost can_poll = { λ f. IfSome f.visit (λ t. ⟦<Visit<D, T> as Future>⟧.can_poll (timeout_future (box_value t))) };

    fn poll(&mut self, cx: &mut Context<'_>) -> Poll<Done<P>> {
        if self.wanted.poll(cx).is_ready() {
            return Poll::Ready(self.failed(FetchFault::Cancelled));
        }
        if self.place.is_none() {
            return Poll::Ready(self.failed(FetchFault::NoFile));
        }
        let Some(visit) = &mut self.visit else {
            return Poll::Ready(self.failed(FetchFault::NoMemory));
        };
        match visit.poll(cx) {
            Poll::Ready(visited) => Poll::Ready(self.ended(visited)),
            Poll::Pending => Poll::Pending,
        }
    }
}

impl<D: Dial, T: Talk> Fetch<D, T> {
    // The result of the fetch, whose visit has ended so, or has had its time.
    fn ended<P: Drop>(&self, visited: Result<Visited<Paid<P>>, Elapsed>) -> Done<P> {
        match visited {
            Ok(visited) => done_of(self.fetch, self.attempt, visited),
            Err(_elapsed) => self.failed(self.late()),
        }
    }

    // Why the fetch is not complete by its deadline.
    fn late(&self) -> FetchFault {
        match &self.delay {
            Some(delay) if delay.waits() => FetchFault::Room,
            _ => FetchFault::Time,
        }
    }

    // The result of the fetch, which has failed so.
    fn failed<P: Drop>(&self, fault: FetchFault) -> Done<P> {
        finished(self.fetch, self.attempt, FetchEnd::Failed(fault), None)
    }
}

/// The result of a job, and what the body of a fetch takes of the budget.
#[derive(Drop)]
pub struct Done<P> {
    /// `None` if there is nothing to be handed in of it.
    pub ended: Option<Ended>,
    pub purse: Option<P>,
}

// The result of a fetch whose visit has ended.
fn done_of<P: Drop>(fetch: u32, attempt: u16, visited: Visited<Paid<P>>) -> Done<P> {
    match visited {
        Visited::Whole(paid) => {
            let (page, purse) = paid.into_parts();
            finished(fetch, attempt, FetchEnd::Whole(page), Some(purse))
        }
        Visited::Refused => finished(fetch, attempt, FetchEnd::Refused, None),
        Visited::Failed(fault) => finished(fetch, attempt, FetchEnd::Failed(fault), None),
    }
}

// The result of a fetch that has ended so, and what its body takes of the budget.
fn finished<P: Drop>(fetch: u32, attempt: u16, end: FetchEnd, purse: Option<P>) -> Done<P> {
    let fetched = Fetched {
        fetch,
        attempt,
        end,
    };
    Done {
        ended: Some(Ended::Fetched(fetched)),
        purse,
    }
}

// The result of a request that was passed on: its client has it, unless it has gone, which matters where the request may change something.
fn ended<P: Drop>(left: Option<Box<LeftChange>>) -> Done<P> {
    Done {
        ended: match left {
            Some(left) => Some(Ended::Left(left)),
            None => None,
        },
        purse: None,
    }
}

// Passes on results. What a body takes of the budget is given back once its result has been taken.
#[derive(Drop)]
struct PassOn<'a, S> {
    seat: &'a mut S,
}

impl<P: Drop, S: Submit<Ended>> Submit<Done<P>> for PassOn<'_, S> {
    fn opened(&mut self) {
        self.seat.opened();
    }

    fn submit(&mut self, done: Done<P>) {
        let Done { ended, purse } = done;
        if let Some(ended) = ended {
            self.seat.submit(ended);
        }
        drop(purse);
    }
}

// Where connections are kept for so long, by a thread with this part in them. `None` where none is. Errors: out of memory.
fn kept_of<R: Copy>(
    rt: R,
    alloc: Global,
    keep: Option<Duration>,
    share: &KeptShare,
) -> io::Result<Option<Kept<R>>> {
    match keep {
        Some(keep) => Ok(Some(Kept::new(rt, alloc, keep, share)?)),
        None => Ok(None),
    }
}

// What the fetches of the runtime of this handle are made with, and what gives their answers to clients while they are collected. Errors: there are no random
// numbers, or out of memory.
fn getter_of<R, A>(
    rt: R,
    handle: &Handle,
    rules: FetchRules<A>,
    limits: FetchLimits,
) -> io::Result<(Getter<R, A>, Doorman<A>)>
where
    R: RandomSource + AllocGlobal + Copy,
    A: Drop,
{
    let alloc = rt.alloc();
    let rules = Rc::new(alloc, rules)?;
    match gate(alloc, &rules) {
        Ok((gate, doorman)) => { getter_beside(rt, alloc, handle, rules, gate, limits, doorman) }
        Err(error) => {
            drop(rules);
            Err(io::Error::from(error))
        }
    }
}

// As `getter_of`, beside what gives the answers that are offered at this gate.
fn getter_beside<R: RandomSource + Copy, A: Drop>(
    rt: R,
    alloc: Global,
    handle: &Handle,
    rules: Rc<FetchRules<A>>,
    gate: UnboundedSender<Offered>,
    limits: FetchLimits,
    doorman: Doorman<A>,
) -> io::Result<(Getter<R, A>, Doorman<A>)> {
    match parts_of(rt, alloc, handle, limits.keep, &rules.kept) {
        Ok((http, handle, kept)) => {
            let getter = Getter {
                rt,
                alloc,
                handle,
                http,
                limits,
                rules,
                kept,
                gate,
            };
            Ok((getter, doorman))
        }
        Err(error) => {
            drop(gate);
            drop(rules);
            drop(doorman);
            Err(error)
        }
    }
}

// What connections are made with, a handle to the runtime, and where connections are kept for so long. Errors: as `getter_of`.
fn parts_of<R: RandomSource + Copy>(
    rt: R,
    alloc: Global,
    handle: &Handle,
    keep: Option<Duration>,
    share: &KeptShare,
) -> io::Result<(http1::Builder, Handle, Option<Kept<R>>)> {
    let http = http1::Builder::new(alloc, RandomState::new(&rt)?);
    let kept = kept_of(rt, alloc, keep, share)?;
    match handle.clone() {
        Ok(handle) => Ok((http, handle, kept)),
        Err(error) => {
            drop(kept);
            Err(io::Error::from(error))
        }
    }
}

// Looks after the connections that are kept, and after answers that are given while they are collected.
struct Tending<R, A> {
    keeper: Keeper<R>,
    doorman: Doorman<A>,
}

impl<R: Drop, A: Drop> Drop for Tending<R, A> {
    fn drop(self) {
        let Self {
            keeper: _,
            doorman: _,
        } = self;
    }
}

impl<R: Wait + Clock + Copy + Drop, A: Admit> Tend for Tending<R, A> {
    fn poll_tend(&mut self, cx: &mut Context<'_>)
        ensures { Keeps cx.old cx.new }
    {
        self.doorman.poll_tend(cx);
        self.keeper.poll_tend(cx);
    }
}

/// Runs the jobs of a channel until all its senders are gone and the last job has ended, after `seat` was told that it can. Each job has
/// a connection to itself, a new one or for a fetch one that is kept, and a fetch passes its result to `seat`. Errors: the event loop
/// failed, or out of memory.
pub fn run_fetches<R, S, A>(
    rt: R,
    jobs: UnboundedReceiver<Job>,
    seat: &mut S,
    rules: FetchRules<A>,
    limits: FetchLimits,
) -> io::Result<()>
where
    R: Wait + Clock + RandomSource + AllocGlobal + Net + Copy,
    S: Submit<Ended>,
    A: Admit,
    requires { 0 < limits.at_once }
{
    match LocalRuntime::new(&rt) {
        Ok(runtime) => {
            let mut runtime = runtime;
            let ran = run_on(rt, &mut runtime, jobs, seat, rules, limits);
            drop(runtime);
            ran
        }
        Err(error) => {
            drop(rules);
            drop(jobs);
            Err(error)
        }
    }
}

// As `run_fetches`, on this runtime.
fn run_on<R, S, A>(
    rt: R,
    runtime: &mut LocalRuntime,
    jobs: UnboundedReceiver<Job>,
    seat: &mut S,
    rules: FetchRules<A>,
    limits: FetchLimits,
) -> io::Result<()>
where
    R: Wait + Clock + RandomSource + AllocGlobal + Net + Copy,
    S: Submit<Ended>,
    A: Admit,
    requires { 0 < limits.at_once }
{
    match getter_of(rt, runtime.handle(), rules, limits) {
        Ok((getter, doorman)) => {
            let keeper = Keeper::new(rt, getter.kept(), getter.keep_timers());
            let tending = Tending { keeper, doorman };
            run_with(rt, runtime, jobs, seat, getter, tending, limits.at_once)
        }
        Err(error) => {
            drop(jobs);
            Err(error)
        }
    }
}

// As `run_on`, with these means, of whose type nothing more is known here.
fn run_with<R, S, M, T>(
    rt: R,
    runtime: &mut LocalRuntime,
    jobs: UnboundedReceiver<Job>,
    seat: &mut S,
    means: M,
    tending: T,
    at_once: usize,
) -> io::Result<()>
where
    R: Wait + Clock + RandomSource + AllocGlobal + Copy,
    S: Submit<Ended>,
    M: Means,
    T: Tend,
    requires { 0 < at_once }
{
    let alloc = rt.alloc();
    let mut seat = PassOn { seat };
    let starter = Starter { alloc, means };
    shared_thread::run_jobs(&rt, runtime, jobs, starter, &mut seat, tending, at_once)
}
