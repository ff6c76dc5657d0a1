//! The server for clients of the proxy.
ghost use Rattle.std.specs.Prelude.{◌≡◌, ◌<◌, IfSome};
ghost use Rattle.futures.specs.Poll.{OnPending};
ghost use Rattle.futures.specs.Task.{Covers, Keeps};
ghost use Rattle.http_clients.specs.Sharing.{is_for_another};

use crate::account::SharedFacts;
use crate::cache_status::{label_of, via_of};
use crate::given::{failure, fields_of_passed, given_of, passed_given, status_after};
use crate::requests::{Answers, Given, PassedAnswer, Serves};
use crate::server::{ClientSocket, ServeLimits, serve};
use crate::sharing::is_for_another;
use crate::tunnel::KeepTunnel;
use client_streams::Stops;
use crossbeam_channel::Sender;
use futures::channel::oneshot;
use futures::task::{Context, Poll};
use futures::{Future, ready};
use http_rules::AdmittedOrigin;
use http_traffic::{
    Asking, Coming, FetchFault, FollowUp, Forward, Front, Outcome, PassFault, PassOn, PassedHead,
    Passing, Road, Shape, Told, TunnelEnd,
};
use object_store::SharedObject;
use std::alloc::{AllocError, AllocGlobal, Global};
use std::cell::RefCell;
use std::io;
use std::net::{IpAddr, Net, SocketAddr};
use std::random::RandomSource;
use std::rc::Rc;
use std::sync::atomic::AtomicUsize;
use std::sync::{Arc, Wait};
use std::time::Clock;

// The status of a request whose answer never comes, until it is handed in anew.
const FIRST_STATUS: u16 = 503;

// What is done with the answer of the node to a request.
#[derive(Clone, Copy)]
enum Step {
    // It is given.
    Give,
    // The request is handed in anew.
    AskAnew,
    // The request is passed on.
    PassOn,
}

// State shared by all connections.
#[derive(Drop)]
struct ClientContext<F> {
    alloc: Global,
    front: RefCell<F>,
    // The name of the cache, as written in Cache-Status.
    label: Vec<u8>,
    // The Via of the cache.
    via: Vec<u8>,
}

// Answers requests from a shared front.
#[derive(Drop)]
struct FrontAnswers<F> {
    context: Rc<ClientContext<F>>,
}

// Passes the request of these facts to the front, with `is_alone` by `Front::ask_alone`. Errors: the status to answer.
fn submit<F: Front + FollowUp + PassOn, K: Drop>(
    context: &Rc<ClientContext<F>>,
    facts: &SharedFacts<K>,
    is_alone: bool,
) -> Result<Waits<F>, u16> {
    let Ok(owner) = context.clone() else {
        return Err(503);
    };
    match accepted(context, facts, is_alone) {
        Ok(asking) => Ok(Waits::new(owner, asking)),
        Err(status) => {
            drop(owner);
            Err(status)
        }
    }
}

// What the front accepts of the request of these facts, as `submit` has it.
fn accepted<F: Front + FollowUp + PassOn, K: Drop>(
    context: &Rc<ClientContext<F>>,
    facts: &SharedFacts<K>,
    is_alone: bool,
) -> Result<Asking, u16> {
    let Ok(mut front) = context.front.try_borrow_mut() else {
        return Err(503);
    };
    let accepted = accepted_by(&mut *front, facts, is_alone);
    drop(front);
    accepted
}

// What this front accepts of the request of these facts, as `submit` has it.
fn accepted_by<F: Front, K: Drop>(
    front: &mut F,
    facts: &SharedFacts<K>,
    is_alone: bool,
) -> Result<Asking, u16> {
    let Ok(mut facts) = facts.0.try_borrow_mut() else {
        return Err(503);
    };
    let Some(asked) = &facts.asked else {
        return Err(503);
    };
    let accepted = if is_alone {
        front.ask_alone(asked)
    } else {
        front.ask(asked)
    };
    if let Ok(asking) = &accepted {
        facts.note_accepted(asking.forward, asking.began);
    }
    accepted
}

// Whether the answer to the request of these facts is known to be too long to be stored.
fn is_large<F: Front + FollowUp + PassOn, K: Drop>(
    context: &Rc<ClientContext<F>>,
    facts: &SharedFacts<K>,
) -> bool {
    let Ok(mut front) = context.front.try_borrow_mut() else {
        return false;
    };
    let is_large = is_large_to(&mut *front, facts);
    drop(front);
    is_large
}

// Whether the answer to the request of these facts is known to this front to be too long to be stored.
fn is_large_to<F: PassOn, K: Drop>(front: &mut F, facts: &SharedFacts<K>) -> bool {
    let Ok(facts) = facts.0.try_borrow_mut() else {
        return false;
    };
    match &facts.asked {
        Some(asked) => front.is_large(asked),
        None => false,
    }
}

// As `passes_of`, in a box.
fn pass_on<F: Front + FollowUp + PassOn, K: Drop>(
    context: &Rc<ClientContext<F>>,
    facts: &SharedFacts<K>,
    content: Option<Coming>,
) -> Result<Box<Passes<F>>, u16> {
    let alloc = context.alloc;
    let passes = passes_of(context, facts, content)?;
    match Box::new(alloc, passes) {
        Ok(passes) => Ok(passes),
        Err(_) => Err(503),
    }
}

// Has the front pass on the request of these facts, with this content. Errors: the status to answer.
fn passes_of<F: Front + FollowUp + PassOn, K: Drop>(
    context: &Rc<ClientContext<F>>,
    facts: &SharedFacts<K>,
    content: Option<Coming>,
) -> Result<Passes<F>, u16> {
    let mut content = content;
    let Ok(owner) = context.clone() else {
        drop(content);
        return Err(503);
    };
    let passing = passing_of(context, facts, &mut content);
    drop(content);
    match passing {
        Ok(passing) => Ok(Passes {
            context: owner,
            passing,
        }),
        Err(status) => {
            drop(owner);
            Err(status)
        }
    }
}

// What the front passes on, which takes the content, as `passes_of` has it.
fn passing_of<F: Front + FollowUp + PassOn, K: Drop>(
    context: &Rc<ClientContext<F>>,
    facts: &SharedFacts<K>,
    content: &mut Option<Coming>,
) -> Result<Passing, u16> {
    let Ok(mut front) = context.front.try_borrow_mut() else {
        return Err(503);
    };
    // Content that was collected is not passed on.
    let _ = facts.put_content(Vec::new(context.alloc));
    let passed = passed_by(&mut *front, facts, content);
    drop(front);
    passed
}

// What this front passes on, which takes the content, as `passes_of` has it.
fn passed_by<F: PassOn, K: Drop>(
    front: &mut F,
    facts: &SharedFacts<K>,
    content: &mut Option<Coming>,
) -> Result<Passing, u16> {
    let Ok(mut facts) = facts.0.try_borrow_mut() else {
        return Err(503);
    };
    let Some(asked) = &facts.asked else {
        return Err(503);
    };
    let passed = front.pass_on(asked, content.take());
    if let Ok(passing) = &passed {
        facts.note_passed(passing.began);
    }
    passed
}

impl<F: Front + FollowUp + PassOn> Answers for FrontAnswers<F> {
    fn share(&self) -> Result<FrontAnswers<F>, AllocError> {
        Ok(FrontAnswers {
            context: self.context.clone()?,
        })
    }

    fn allows(&self, address: IpAddr) -> bool {
        if address.is_ipv4() && address.is_loopback() {
            return true;
        }
        match self.context.front.try_borrow_mut() {
            Ok(mut front) => front.allows(address),
            Err(_) => false,
        }
    }

    fn has_other_methods(&self) -> bool {
        match self.context.front.try_borrow_mut() {
            Ok(front) => front.has_passages(),
            Err(_) => false,
        }
    }

    fn admitted(&self, server: SocketAddr) -> Option<AdmittedOrigin> {
        match self.context.front.try_borrow_mut() {
            Ok(mut front) => front.admitted(server),
            Err(_) => None,
        }
    }

    fn note_answer(&self) {
        if let Ok(mut front) = self.context.front.try_borrow_mut() {
            front.answered();
        }
    }

    fn tell(&self, told: &Told<'_>) {
        if let Ok(mut front) = self.context.front.try_borrow_mut() {
            front.tell(told);
        }
    }
}

impl<F: Front + FollowUp + PassOn, K: KeepTunnel> Serves<K> for FrontAnswers<F> {
    type Answering = Waiting<F, K>;

    fn road(&self, method: &str) -> Result<Road, u16> {
        let road = match self.context.front.try_borrow_mut() {
            Ok(mut front) => front.road(method),
            Err(_) => Road::Refused,
        };
        match road {
            Road::Node | Road::Passed | Road::Tunnel => Ok(road),
            Road::Refused => Err(501),
        }
    }

    fn begin(&self, facts: SharedFacts<K>) -> Waiting<F, K>
        ensures { ⟦<Waiting<F, K> as Future>⟧.can_poll result }
    {
        if is_large(&self.context, &facts) {
            return waiting_for_passage(&self.context, facts, None);
        }
        match submit(&self.context, &facts, false) {
            Ok(waits) => waiting_for_answer(&self.context, facts, FIRST_STATUS, Some(waits)),
            // What was stored when the front was first asked is gone.
            Err(501) => waiting_for_passage(&self.context, facts, None),
            Err(status) => waiting_for_answer(&self.context, facts, status, None),
        }
    }

    fn pass(&self, facts: SharedFacts<K>, content: Option<Coming>) -> Waiting<F, K>
        ensures { ⟦<Waiting<F, K> as Future>⟧.can_poll result }
    {
        waiting_for_passage(&self.context, facts, content)
    }

    fn tunnel(&self, facts: &SharedFacts<K>) -> Result<TunnelEnd, u16> {
        let Ok(mut front) = self.context.front.try_borrow_mut() else {
            return Err(503);
        };
        let end = tunnel_by(&mut *front, facts);
        drop(front);
        end
    }
}

// Where the tunnel leads that the request of these facts opens, as this front says. Errors: the status to answer.
fn tunnel_by<F: PassOn, K: Drop>(front: &mut F, facts: &SharedFacts<K>) -> Result<TunnelEnd, u16> {
    let Ok(facts) = facts.0.try_borrow_mut() else {
        return Err(503);
    };
    match &facts.asked {
        Some(asked) => front.tunnel(asked),
        None => Err(503),
    }
}

// Waits for the answer to the request of these facts, which the front has accepted, or else answers it with this status. The content is not
// forwarded.
fn waiting_for_answer<F: Front + FollowUp + PassOn, K: Drop>(
    context: &Rc<ClientContext<F>>,
    facts: SharedFacts<K>,
    status: u16,
    waits: Option<Waits<F>>,
) -> Waiting<F, K>
    ensures { ⟦<Waiting<F, K> as Future>⟧.can_poll result }
{
    let alloc = context.alloc;
    let _ = facts.put_content(Vec::new(alloc));
    Waiting {
        alloc,
        facts,
        status,
        waits,
        passes: None,
    }
}

// Passes on the request of these facts with this content, and waits for its answer.
fn waiting_for_passage<F: Front + FollowUp + PassOn, K: Drop>(
    context: &Rc<ClientContext<F>>,
    facts: SharedFacts<K>,
    content: Option<Coming>,
) -> Waiting<F, K>
    ensures { ⟦<Waiting<F, K> as Future>⟧.can_poll result }
{
    let (status, passes) = match pass_on(context, &facts, content) {
        Ok(passes) => (502, Some(passes)),
        Err(status) => (status, None),
    };
    Waiting {
        alloc: context.alloc,
        facts,
        status,
        waits: None,
        passes,
    }
}

// Calls `FollowUp::gone` when dropped, unless the client was answered.
struct Guard<F: Front + FollowUp + PassOn> {
    context: Rc<ClientContext<F>>,
    client: u64,
    is_armed: bool,
}

impl<F: Front + FollowUp + PassOn> Drop for Guard<F> {
    fn drop(self) {
        let Guard {
            context,
            client,
            is_armed,
        } = self;
        if is_armed && let Ok(mut front) = context.front.try_borrow_mut() {
            front.gone(client);
        }
    }
}

// An accepted request that waits for its answer.
struct Waits<F: Front + FollowUp + PassOn> {
    forward: Forward,
    answer: oneshot::Receiver<Outcome>,
    guard: Guard<F>,
}

// Written by hand, so that what lets it go is one call for the prover (docs/GATE.md).
impl<F: Front + FollowUp + PassOn> Drop for Waits<F> {
    fn drop(self) {
        let Self {
            forward: _,
            answer: _,
            guard: _,
        } = self;
    }
}

impl<F: Front + FollowUp + PassOn> Waits<F> {
    // A request that the front of this context has accepted.
    fn new(context: Rc<ClientContext<F>>, asking: Asking) -> Waits<F> {
        let Asking {
            client,
            forward,
            began: _,
            answer,
        } = asking;
        Waits {
            forward,
            answer,
            guard: Guard {
                context,
                client,
                is_armed: true,
            },
        }
    }
}

// A request that is passed on and waits for the head of its answer.
#[derive(Drop)]
struct Passes<F: Front + FollowUp + PassOn> {
    context: Rc<ClientContext<F>>,
    passing: Passing,
}

impl<F: Front + FollowUp + PassOn> Waits<F> {
    // Polls for the front's answer. `None` if it never comes.
    fn poll_outcome(&mut self, cx: &mut Context<'_>) -> Poll<Option<Outcome>>
        ensures registered { OnPending result (Covers cx.new (λ _. ⊥)) }
        ensures kept { Keeps cx.old cx.new }
    {
        let Ok(answer) = ready!(self.answer.poll(cx)) else {
            return Poll::Ready(None);
        };
        // Nothing more comes of the node for a client that has the answer while it is collected.
        self.guard.is_armed = matches!(answer, Outcome::Early { .. });
        Poll::Ready(Some(answer))
    }

    // The content of the response with this answer to the request of these facts. Errors: the status of a failure.
    fn content<K: Drop>(
        &self,
        alloc: Global,
        facts: &SharedFacts<K>,
        answer: Outcome,
    ) -> Result<Given, u16> {
        if let Ok(mut facts) = facts.0.try_borrow_mut() {
            facts.note_outcome(&answer);
        }
        let shape = self.shape(facts, &answer);
        let label = self.guard.context.label.as_slice();
        given_of(alloc, label, self.forward, answer, shape)
    }

    // What of its object the request is answered with, as the front says.
    fn shape<K: Drop>(&self, facts: &SharedFacts<K>, answer: &Outcome) -> Shape {
        let object = match answer {
            Outcome::Hit { object, .. } => object,
            Outcome::Got { object, .. } if self.forward != Forward::Bypass => object,
            Outcome::Got { .. } | Outcome::Early { .. } | Outcome::Fail(_) | Outcome::Again => {
                return Shape::Whole;
            }
        };
        let Ok(mut front) = self.guard.context.front.try_borrow_mut() else {
            return Shape::Whole;
        };
        let shape = shape_by(&mut *front, facts, object);
        drop(front);
        shape
    }
}

// What of this object the request of these facts is answered with, as this front says.
fn shape_by<F: FollowUp, K: Drop>(
    front: &mut F,
    facts: &SharedFacts<K>,
    object: &SharedObject,
) -> Shape {
    let Ok(facts) = facts.0.try_borrow_mut() else {
        return Shape::Whole;
    };
    match &facts.asked {
        Some(asked) => front.shape(asked, object.get()),
        None => Shape::Whole,
    }
}

impl<F: Front + FollowUp + PassOn> Passes<F> {
    // Polls for the head of the answer. Errors: there is none, or it never comes.
    fn poll_head(&mut self, cx: &mut Context<'_>) -> Poll<Result<PassedHead, PassFault>>
        ensures registered { OnPending result (Covers cx.new (λ _. ⊥)) }
        ensures kept { Keeps cx.old cx.new }
    {
        match ready!(self.passing.head.poll(cx)) {
            Ok(head) => Poll::Ready(head),
            Err(_) => Poll::Ready(Err(PassFault::Failed(FetchFault::Cut))),
        }
    }
}

// The future of one answer.
struct Waiting<F: Front + FollowUp + PassOn, K> {
    alloc: Global,
    facts: SharedFacts<K>,
    // The status if the request was refused or its answer never comes: 503, and 502 once it was handed in anew.
    status: u16,
    waits: Option<Waits<F>>,
    // Once the request is passed on.
    passes: Option<Box<Passes<F>>>,
}

// Written by hand, so that what lets it go is one call for the prover (docs/GATE.md).
impl<F: Front + FollowUp + PassOn, K: Drop> Drop for Waiting<F, K> {
    fn drop(self) {
        let Self {
            alloc: _,
            facts,
            status: _,
            waits,
            passes,
        } = self;
        drop(waits);
        if let Some(passes) = passes {
            note_unread(&facts, passes);
        }
        drop(facts);
    }
}

// Has what an answer says was changed taken out that has come and that nobody reads any more, since its client has gone.
fn note_unread<F: Front + FollowUp + PassOn, K: Drop>(
    facts: &SharedFacts<K>,
    passes: Box<Passes<F>>,
) {
    let mut passes = passes;
    // (what is sent from now on goes back to its sender)
    passes.passing.head.close();
    let come = passes.passing.head.try_recv();
    if let Ok(Some(Ok(head))) = &come {
        note_passed(facts, &passes.context, head);
    }
    drop(come);
    drop(passes);
}

// Tells the front the head of an answer that was passed on.
fn note_passed<F: Front + FollowUp + PassOn, K: Drop>(
    facts: &SharedFacts<K>,
    context: &Rc<ClientContext<F>>,
    head: &PassedHead,
) {
    if let Ok(facts) = facts.0.try_borrow_mut()
        && let Some(asked) = &facts.asked
        && let Ok(mut front) = context.front.try_borrow_mut()
    {
        front.passed(asked, head.status, &head.head);
    }
}

impl<F: Front + FollowUp + PassOn, K: Drop> Waiting<F, K> {
    // Polls for the front's answer. `None` if the request was refused or its answer never comes.
    fn poll_front(&mut self, cx: &mut Context<'_>) -> Poll<Option<Outcome>>
        ensures registered { OnPending result (Covers cx.new (λ _. ⊥)) }
        ensures kept { Keeps cx.old cx.new }
    {
        let Some(waits) = &mut self.waits else {
            return Poll::Ready(None);
        };
        waits.poll_outcome(cx)
    }

    // Whether the answer is only for another client.
    fn is_for_another(&self, answer: &Option<Outcome>) -> bool
        ensures alone { IfSome self.now.waits (λ w. IfSome answer.now (λ a. result ≡ is_for_another w.forward a)) }
    {
        match (&self.waits, answer) {
            (Some(waits), Some(answer)) => is_for_another(waits.forward, answer),
            _ => false,
        }
    }

    // Replaces the answered request by the same one, with a private fetch if it is to have one alone.
    fn ask_once_more(&mut self, is_alone: bool) {
        let Some(waits) = &self.waits else {
            return;
        };
        let accepted = submit(&waits.guard.context, &self.facts, is_alone);
        match accepted {
            Ok(waits) => drop(self.waits.replace(waits)),
            Err(status) => {
                self.status = status;
                drop(self.waits.take());
            }
        }
    }

    // As `poll_front`, with a private fetch where the answer is only for another client.
    fn poll_answer(&mut self, cx: &mut Context<'_>) -> Poll<Option<Outcome>>
        ensures registered { OnPending result (Covers cx.new (λ _. ⊥)) }
        ensures kept { Keeps cx.old cx.new }
    {
        let answer = ready!(self.poll_front(cx));
        if !self.is_for_another(&answer) {
            return Poll::Ready(answer);
        }
        self.ask_once_more(true);
        let own = self.poll_front(cx);
        drop(answer);
        own
    }

    // What is done with the answer of the node: where there is none since it is too long to be stored, the request is passed on, and where
    // there is none since its fetch was ended for want of clients, it is handed in anew, once.
    fn next_step(&self, answer: &Option<Outcome>) -> Step {
        match (&self.waits, answer) {
            (Some(waits), Some(Outcome::Fail(502)))
                if is_large(&waits.guard.context, &self.facts) => { Step::PassOn }
            (Some(_), Some(Outcome::Again)) if self.status == FIRST_STATUS => Step::AskAnew,
            _ => Step::Give,
        }
    }

    // Hands the answered request in anew.
    fn ask_anew(&mut self) {
        self.status = 502;
        self.ask_once_more(false);
    }

    // Passes on the answered request.
    fn pass_on(&mut self) {
        let Some(waits) = self.waits.take() else {
            return;
        };
        match pass_on(&waits.guard.context, &self.facts, None) {
            Ok(passes) => drop(self.passes.replace(passes)),
            Err(status) => self.status = status,
        }
        drop(waits);
    }

    // Polls for the head of the answer to a request that was passed on. Errors: the status of a failure.
    fn poll_head(&mut self, cx: &mut Context<'_>) -> Poll<Result<PassedHead, u16>>
        ensures registered { OnPending result (Covers cx.new (λ _. ⊥)) }
        ensures kept { Keeps cx.old cx.new }
    {
        let Some(passes) = &mut self.passes else {
            return Poll::Ready(Err(self.status));
        };
        match ready!(passes.poll_head(cx)) {
            Ok(head) => Poll::Ready(Ok(head)),
            Err(fault) => Poll::Ready(Err(status_after(&self.facts, fault))),
        }
    }

    // The content of the response, or of a failure.
    fn given(&self, answer: Option<Outcome>) -> Given {
        let Some(waits) = &self.waits else {
            drop(answer);
            return failure(self.alloc, &self.facts, self.status);
        };
        match answer {
            Some(answer) => given_by(self.alloc, waits, &self.facts, answer),
            None => failure(self.alloc, &self.facts, self.status),
        }
    }

    // As `given`, where the answer is passed on.
    fn given_head(&mut self, head: PassedHead) -> Given {
        match self.passes.take() {
            Some(passes) => given_passed(self.alloc, passes, &self.facts, head),
            None => {
                drop(head);
                failure(self.alloc, &self.facts, 503)
            }
        }
    }
}

impl<F: Front + FollowUp + PassOn, K: Drop> Future for Waiting<F, K> {
    type Output = Given;

    fn poll(&mut self, cx: &mut Context<'_>) -> Poll<Given> {
        if self.passes.is_none() {
            let answer = ready!(self.poll_answer(cx));
            match self.next_step(&answer) {
                Step::Give => return Poll::Ready(self.given(answer)),
                Step::AskAnew => {
                    self.ask_anew();
                    drop(answer);
                    return cx.yield_now();
                }
                Step::PassOn => {
                    self.pass_on();
                    drop(answer);
                }
            }
        }
        match ready!(self.poll_head(cx)) {
            Ok(head) => Poll::Ready(self.given_head(head)),
            Err(status) => Poll::Ready(failure(self.alloc, &self.facts, status)),
        }
    }
}

// The content of the response with this answer to the request of these facts, or of a failure.
fn given_by<F: Front + FollowUp + PassOn, K: Drop>(
    alloc: Global,
    waits: &Waits<F>,
    facts: &SharedFacts<K>,
    answer: Outcome,
) -> Given {
    match waits.content(alloc, facts, answer) {
        Ok(given) => given,
        Err(status) => failure(alloc, facts, status),
    }
}

// As `given_by`, where the answer is passed on and has this head.
fn given_passed<F: Front + FollowUp + PassOn, K: Drop>(
    alloc: Global,
    passes: Box<Passes<F>>,
    facts: &SharedFacts<K>,
    head: PassedHead,
) -> Given {
    match passed(alloc, passes, facts, head) {
        Ok(given) => given,
        Err(status) => failure(alloc, facts, status),
    }
}

// The response to a request that was passed on, whose answer has this head. Errors: the status of a failure.
fn passed<F: Front + FollowUp + PassOn, K: Drop>(
    alloc: Global,
    passes: Box<Passes<F>>,
    facts: &SharedFacts<K>,
    head: PassedHead,
) -> Result<Given, u16> {
    match passed_fields(alloc, facts, &passes.context, &head) {
        Ok((told, via)) => {
            let Passes { context, passing } = Box::into_inner(passes);
            let given = passed_given(
                alloc,
                PassedAnswer {
                    head,
                    pieces: passing.pieces,
                    via,
                    told,
                },
            );
            drop(context);
            given
        }
        Err(status) => {
            drop(passes);
            drop(head);
            Err(status)
        }
    }
}

// The Cache-Status and the Via of an answer with this head, which the front is told of. Errors: the status of a failure.
fn passed_fields<F: Front + FollowUp + PassOn, K: Drop>(
    alloc: Global,
    facts: &SharedFacts<K>,
    context: &Rc<ClientContext<F>>,
    head: &PassedHead,
) -> Result<(Vec<u8>, Vec<u8>), u16> {
    let Ok(facts) = facts.0.try_borrow_mut() else {
        return Err(503);
    };
    let Some(asked) = &facts.asked else {
        return Err(503);
    };
    if let Ok(mut front) = context.front.try_borrow_mut() {
        front.passed(asked, head.status, &head.head);
    }
    let is_get = asked.method.as_str() == "GET";
    let (label, via) = (context.label.as_slice(), context.via.as_slice());
    fields_of_passed(alloc, &head.head, label, via, is_get)
}

/// Serves clients on the calling thread, as many concurrently as `limits.connections` says together with the other threads that have
/// handles to the socket, until `stops.stop` is ready or its sender is dropped; open connections then have `limits.grace` to end, unless
/// `stops.hurry` is cancelled before. Sends the address to `bound` once clients are accepted, and counts in `open` the connections of clients
/// that are open and admitted. Errors: the socket or the event loop failed.
///
/// A request is taken as `Front::road` says by its method: answered through the node, passed on with its content and the answer's
/// as they come, or refused. An answer that `PassOn::is_large` says is too long to be stored is passed on as well. A client that is
/// not admitted gets 403 before its head is read, and a client that stays silent for too long is disconnected. If a client
/// disconnects while it waits, `FollowUp::gone` is called. A client that joined a fetch whose object may not be stored is not given
/// it: its request is passed on once more, by `Front::ask_alone`. Responses with an object carry Cache-Status, and stored ones
/// their Age; errors carry a line with the reason and a line with the URL.
///
/// `FollowUp::tell` is called once for each request, once for each client that is not admitted, and once for each connection that ends
/// within a request's head: with the status of the library's answer where the head could not be read, and otherwise without an answer.
/// The status is then 408 if the client was silent for too long. A connection that ends between two requests, or without an octet, is
/// not told.
pub fn serve_clients<R, F>(
    rt: R,
    socket: ClientSocket,
    name: &str,
    front: F,
    bound: Sender<SocketAddr, Global>,
    stops: Stops,
    open: Arc<AtomicUsize>,
    limits: ServeLimits,
) -> io::Result<()>
where
    R: Wait + Clock + RandomSource + AllocGlobal + Net + Copy,
    F: Front + FollowUp + PassOn,
{
    match answers_of(rt.alloc(), name, front) {
        Ok(answers) => serve(rt, socket, answers, bound, stops, Some(open), limits),
        Err(fault) => {
            drop(open);
            drop(stops);
            drop(bound);
            drop(socket);
            Err(io::Error::from(fault))
        }
    }
}

// What answers requests from this front, as a cache of this name. Errors: out of memory.
fn answers_of<F>(alloc: Global, name: &str, front: F) -> Result<FrontAnswers<F>, AllocError>
where
    F: Front + FollowUp + PassOn,
{
    let label = label_of(alloc, name)?;
    let via = via_of(alloc, name)?;
    let context = ClientContext {
        alloc,
        front: RefCell::new(front),
        label,
        via,
    };
    Ok(FrontAnswers {
        context: Rc::new(alloc, context)?,
    })
}
