//! A thread's handle to the node.
ghost use Rattle.std.specs.Prelude.{◌≡◌};
ghost use Rattle.node_book.specs.Audited.{IsAudited};

use crate::state::AtDesk;
use crossbeam_channel::Sender;
use filter_slots::{Datagram, End, Judged, Moment, Socket};
use node_book::{Clerk, Programs, Seat, SubmitFault};
use node_core::Out;
use node_words::{Action, Answer, Event, NoMemory, Outcome};
use object_store::CacheKey;
use proxy_state::{
    Attempt, Cause, Given, Recorder, Shared, TakeEvents, Unstarted, note_query, note_reply, perform,
};
use query_handles::Bell;
use std::alloc::Global;
use std::mem;
use std::sync::ledger::Ledger;
use std::sync::{Arc, Wait};
use std::time::Clock;

/// A thread compares its receipts with the event log once in so many of its events.
const EVENTS_AN_AUDIT: u32 = 16;

/// A datagram for the query thread to send.
pub struct Outgoing {
    pub socket: Socket,
    pub to: End,
    pub payload: Vec<u8>,
}

// Written by hand, so that what lets it go is one call for the prover (docs/GATE.md).
impl Drop for Outgoing {
    fn drop(self) {
        let Self {
            socket: _,
            to: _,
            payload: _,
        } = self;
    }
}

/// Queues datagrams for the query thread, and wakes it.
pub struct Outbox {
    pub to: Sender<Outgoing, Global>,
    pub bell: Bell,
}

// Written by hand, so that what lets it go is one call for the prover (docs/GATE.md).
impl Drop for Outbox {
    fn drop(self) {
        let Self { to: _, bell: _ } = self;
    }
}

/// A seat on its way to the thread that will own it, with the shared state.
#[derive(Drop)]
pub struct ThreadSeat<S, L: Ledger> {
    /// The state that all threads share.
    pub proxy: Arc<S>,
    /// The thread's seat.
    pub seat: Seat<L>,
}

/// A thread's handle to the node: submits events through the thread's seat, and carries out the actions they cause. The node's
/// lock is held only while an event is submitted, not while its actions are carried out. `S` is the state that all threads share.
#[derive(Drop)]
pub struct NodeHandle<R, S, L: Ledger> {
    rt: R,
    alloc: Global,
    proxy: Arc<S>,
    seat: Seat<L>,
    // A reused action buffer; `None` while its actions are carried out.
    out: Option<Out>,
    // Where datagrams go; `None` in the query thread, which sends them itself, and in threads whose events send none.
    outbox: Option<Outbox>,
    programs: Programs,
    // What the actions follow from of the event that is being submitted.
    cause: Cause,
    // The client whose request was taken last, and what that has given it.
    client: Option<u64>,
    given: Given,
    // Events submitted, modulo 2^32.
    submitted: u32,
    // Records datagrams for the administration. Only in the query thread, whose events come through `Clerk`.
    recorder: Recorder,
}

impl<R: Wait + Clock + Drop, S: AtDesk<L>, L: Ledger> NodeHandle<R, S, L> {
    /// A handle for the calling thread.
    pub fn new(
        rt: R,
        alloc: Global,
        seat: ThreadSeat<S, L>,
        outbox: Option<Outbox>,
    ) -> NodeHandle<R, S, L> {
        let ThreadSeat { proxy, seat } = seat;
        NodeHandle {
            rt,
            alloc,
            proxy,
            seat,
            out: None,
            outbox,
            programs: Programs::new(),
            cause: Cause::request(),
            client: None,
            given: Given::Nothing,
            submitted: 0,
            recorder: Recorder::new(),
        }
    }

    /// State shared by all threads.
    pub fn proxy(&self) -> &S {
        &self.proxy
    }

    /// Returns the seat, with which the event log is settled.
    pub fn into_seat(self) -> Seat<L> {
        let NodeHandle { seat, .. } = self;
        seat
    }

    /// Reports to the node the fetches that no thread could start. If a report is refused, the attempt stays recorded for a later
    /// call by any thread; the query thread calls this in every round of its loop.
    pub fn report_failures(&mut self) {
        for _ in 0..u64::MAX {
            let Some(failed) = self.proxy.mail().next_failure(&self.rt) else {
                return;
            };
            if self.report(failed).is_err() {
                self.proxy.mail().record_failure(&self.rt, failed);
                return;
            }
        }
    }

    // Reports to the node a fetch that no thread has started.
    fn report(&mut self, failed: Attempt) -> Result<usize, SubmitFault> {
        let event = Event::Fetched {
            fetch: failed.fetch,
            attempt: failed.attempt,
            result: Outcome::Failed,
            now: self.proxy.now(&self.rt),
        };
        let cause = if failed.is_unwanted {
            Cause::unwanted()
        } else {
            Cause::result(None)
        };
        self.hand_in_by(event, cause)
    }

    // As `hand_in`, for an event whose actions follow from this.
    fn hand_in_by(&mut self, event: Event, cause: Cause) -> Result<usize, SubmitFault> {
        self.cause = cause;
        let handed = self.hand_in(event);
        self.cause = Cause::request();
        handed
    }

    // Reports the fetches that no thread could start, after an event that was taken. Returns the number of its actions.
    fn reported_after(&mut self, handed: Result<usize, SubmitFault>) -> Option<usize> {
        let count = handed.ok()?;
        self.report_failures();
        Some(count)
    }

    fn hand_in(&mut self, event: Event) -> Result<usize, SubmitFault> {
        let Ok(event) = Arc::new(self.alloc, event) else {
            return Err(SubmitFault::NoMemory);
        };
        let mut out = match self.buffer() {
            Ok(out) => out,
            Err(_) => {
                drop(event);
                return Err(SubmitFault::NoMemory);
            }
        };
        match self.hand_in_with(event, &mut out) {
            Ok(count) => {
                drop(mem::replace(&mut self.out, Some(out)));
                Ok(count)
            }
            Err(fault) => {
                drop(out);
                Err(fault)
            }
        }
    }

    // The buffer for actions; a new one where it is not there.
    fn buffer(&mut self) -> Result<Out, NoMemory> {
        match self.out.take() {
            Some(out) => Ok(out),
            None => Out::new(self.alloc),
        }
    }

    // Submits an event, and carries out its actions, for which this is the buffer.
    fn hand_in_with(&mut self, event: Arc<Event>, out: &mut Out) -> Result<usize, SubmitFault> {
        out.clear();
        let _ = self
            .proxy
            .desk()
            .submit(&self.rt, self.alloc, &mut self.seat, event, out)?;
        self.audit();
        for action in out.actions() {
            self.note_given(action);
            self.carry_out(action);
        }
        Ok(out.actions().len())
    }

    // Counts one event, and compares receipts with the event log once in so many. If one doesn't agree, the proxy is to end.
    fn audit(&mut self)
        ensures seat { IsAudited self.old.seat self.new.seat }
        ensures share { self.new.seat.share ≡ self.old.seat.share }
    {
        self.submitted = self.submitted.wrapping_add(1);
        if self.submitted % EVENTS_AN_AUDIT != 0 {
            return;
        }
        let found = self.proxy.desk().audit(&self.rt, &mut self.seat);
        if found.is_some() {
            self.proxy.stopping().go_astray(&self.rt);
        }
    }

    // Notes that nothing was given yet to the client of this event, if it is a request.
    fn begin_request(&mut self, event: &Event) {
        self.given = Given::Nothing;
        self.client = match event {
            Event::Request { client, .. } => Some(*client),
            _ => None,
        };
    }

    // Notes what an action gives the client whose request was taken last. Actions of other events, which are reported with it, may be for
    // others.
    fn note_given(&mut self, action: &Action) {
        if let Action::Serve { client, answer } = action
            && self.client == Some(*client)
        {
            self.given = match answer {
                Answer::Fail(_) => Given::Refusal,
                _ => Given::Object,
            };
        }
    }

    fn carry_out(&mut self, action: &Action) {
        if let Action::Send {
            socket,
            to,
            payload,
        } = action
        {
            self.queue(*socket, *to, payload.as_slice());
            return;
        }
        self.perform_or_record(action, &self.cause);
    }

    // Carries out an action other than `Send`, which follows from this. A fetch that is not started is recorded.
    fn perform_or_record(&self, action: &Action, cause: &Cause) {
        let passed = perform(&self.rt, self.alloc, &*self.proxy, action, cause);
        if let Err(fault) = passed
            && let Action::Fetch { fetch, attempt, .. } = action
        {
            let failed = Attempt {
                fetch: *fetch,
                attempt: *attempt,
                is_unwanted: fault == Unstarted::Unwanted,
            };
            self.proxy.mail().record_failure(&self.rt, failed);
        }
    }

    // Queues a datagram for the query thread, and counts it if it is a query to a neighbour. On an allocation failure it is dropped, as
    // UDP may drop any. All queries to neighbours come this way: only a client's request opens a round, and it comes through a thread that
    // serves clients; what the query thread sends by itself are answers.
    fn queue(&self, socket: Socket, to: End, payload: &[u8]) {
        let Some(outbox) = &self.outbox else {
            return;
        };
        let Ok(octets) = payload.to_vec(self.alloc) else {
            return;
        };
        let outgoing = Outgoing {
            socket,
            to,
            payload: octets,
        };
        let sent = outbox.to.send(&self.rt, outgoing);
        let is_queued = sent.is_ok();
        drop(sent);
        if is_queued {
            outbox.bell.ring();
            let telling = self.proxy.telling();
            note_query(&telling.figures, &telling.ends, socket, to, payload);
        }
    }
}

impl<R: Wait + Clock + Drop, S: AtDesk<L>, L: Ledger> TakeEvents for NodeHandle<R, S, L> {
    fn take(&mut self, event: Event) -> Option<usize> {
        self.begin_request(&event);
        let handed = self.hand_in(event);
        self.reported_after(handed)
    }

    fn take_marked(&mut self, event: Event, client: u64) -> Option<usize> {
        self.begin_request(&event);
        let handed = self.hand_in_by(event, Cause::marked(client));
        self.reported_after(handed)
    }

    fn given(&self) -> Given {
        self.given
    }

    fn take_fetched(&mut self, event: Event, cause: Cause) -> Option<usize> {
        let handed = self.hand_in_by(event, cause);
        self.reported_after(handed)
    }
}

impl<R: Wait + Clock + Drop, S: AtDesk<L>, L: Ledger> Clerk for NodeHandle<R, S, L> {
    ghost use Rattle.node_book.specs.Told.{seat_told};

    ghost told = { λ h. seat_told h.seat };

    ghost taken = { λ h. h.seat.share };

    ghost programs = { λ h. h.programs };

    fn submit(
        &mut self,
        alloc: Global,
        event: Arc<Event>,
        out: &mut Out,
    ) -> Result<u64, SubmitFault> {
        let submitted = self
            .proxy
            .desk()
            .submit(&self.rt, alloc, &mut self.seat, event, out);
        self.recorder.tick(&self.rt, self.proxy.tap());
        if submitted.is_ok() {
            self.audit();
        }
        submitted
    }

    fn submit_judged(
        &mut self,
        alloc: Global,
        judged: &Judged,
        now: Moment,
        out: &mut Out,
    ) -> Result<u64, SubmitFault> {
        let submitted = self
            .proxy
            .desk()
            .submit_judged(&self.rt, alloc, &mut self.seat, judged, now, out);
        if submitted.is_ok() {
            self.recorder.note(&self.rt, self.proxy.tap(), judged);
            let telling = self.proxy.telling();
            note_reply(&telling.figures, &telling.ends, judged);
            self.audit();
        }
        submitted
    }

    fn judge(&mut self, datagram: Arc<Datagram>) -> Result<Judged, NoMemory> {
        self.programs.judge(&self.rt, self.proxy.desk(), datagram)
    }

    fn pass(&mut self, _alloc: Global, action: &Action) -> Result<(), NoMemory> {
        self.perform_or_record(action, &Cause::round());
        Ok(())
    }

    fn key_of(&mut self, _alloc: Global, fetch: u32) -> Result<Option<CacheKey>, NoMemory> {
        self.proxy.key_of(&self.rt, fetch)
    }
}
