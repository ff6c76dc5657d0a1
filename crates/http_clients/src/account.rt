//! What becomes of the requests of a connection, as the server tells it.
ghost use Rattle.std.specs.Prelude.{IfSome};

use crate::requests::{Answers, Given, Serves};
use crate::texts::{SILENT, UNSERVED, reason, text_with, tunnel_reason};
use crate::tunnel::{KeepTunnel, Opened, Wanted};
use client_streams::{SharedStage, Stage};
use futures::Future;
use futures::channel::oneshot;
use http_traffic::{Asked, Coming, Forward, How, Outcome, Supplier, Told, TunnelEnd};
use std::alloc::{AllocError, Global};
use std::cell::RefCell;
use std::mem;
use std::net::IpAddr;
use std::rc::Rc;
use std::time::Instant;

/// How a connection ended.
#[derive(Clone, Copy)]
pub(crate) enum End {
    /// It has not, or it failed.
    Broken,
    /// After a response, or before a request.
    Regular,
    /// With a head that could not be read, which the library answered with this status.
    Refused(u16),
}

/// What is known of a connection and of the request that is under way on it. It is generic over what keeps the tunnel of the request, since
/// the types of a tunnel would else cost each function that names these facts (docs/GATE.md).
#[derive(Drop)]
pub(crate) struct Facts<K> {
    from: IpAddr,
    stage: SharedStage,
    // Whether other methods than GET are served.
    has_other_methods: bool,
    // Whether the response is the connection's last, after which no head is read.
    is_last: bool,
    /// The request, until it is told. `None` if out of memory.
    pub(crate) asked: Option<Asked>,
    began: Option<Instant>,
    status: Option<u16>,
    how: How,
    supplier: Option<Supplier>,
    // The tunnel of the request.
    tunnel: K,
}

impl<K: Drop> Facts<K> {
    // Begins with the next request.
    fn begin(&mut self, asked: Option<Asked>) {
        drop(mem::replace(&mut self.asked, asked));
        self.began = None;
        self.status = None;
        self.how = How::Own;
        self.supplier = None;
    }

    /// Notes how the request is forwarded unless it is a hit, and when it was accepted.
    pub(crate) fn note_accepted(&mut self, forward: Forward, began: Option<Instant>) {
        self.how = How::Fetch(forward);
        if self.began.is_none() {
            self.began = began;
        }
    }

    /// Notes that the request is passed on or that the way to its tunnel begins, and when it was accepted.
    pub(crate) fn note_passed(&mut self, began: Option<Instant>) {
        self.how = How::Passed;
        if self.began.is_none() {
            self.began = began;
        }
    }

    /// Notes that the request was not passed on after all, and its tunnel not connected.
    pub(crate) fn note_refused(&mut self) {
        self.how = How::Own;
    }

    /// Notes how the request is answered.
    pub(crate) fn note_outcome(&mut self, outcome: &Outcome) {
        match outcome {
            Outcome::Hit { .. }
            | Outcome::Got {
                supplier: Some(Supplier::Stale(_)),
                ..
            } => self.how = How::Hit,
            Outcome::Got { supplier, .. } => self.supplier = *supplier,
            Outcome::Early { supplier, .. } => self.supplier = Some(*supplier),
            Outcome::Fail(_) | Outcome::Again => {}
        }
    }

    // The target of the request, or nothing.
    fn target(&self) -> &[u8] {
        match &self.asked {
            Some(asked) => asked.target.as_bytes(),
            None => b"",
        }
    }

    // The reason that a status of the proxy itself stands for.
    fn reason(&self, status: u16) -> &'static str {
        match &self.asked {
            _ if status == 501 && self.has_other_methods => UNSERVED,
            Some(asked) if asked.method.as_str() == "CONNECT" => tunnel_reason(status),
            _ if status == 504 && self.how == How::Passed => SILENT,
            _ => reason(status),
        }
    }

    /// Whether the method is one whose response has no content.
    pub(crate) fn is_head(&self) -> bool {
        match &self.asked {
            Some(asked) => asked.method.as_str() == "HEAD",
            None => false,
        }
    }

    // Whether a head has begun that is not complete.
    fn is_in_head(&self) -> bool {
        self.stage.get() == Stage::Head && !self.is_last
    }

    // Tells what became of the request.
    fn tell<H: Answers>(&self, answers: &H, octets: u64, is_whole: bool) {
        let status = match self.status {
            Some(status) => Some(status),
            None => self.unsent(),
        };
        answers.tell(&Told {
            from: self.from,
            asked: self.asked.as_ref(),
            began: self.began,
            status,
            how: self.how,
            supplier: self.supplier,
            octets,
            is_whole,
        });
    }

    // Tells the end of the connection, where it came before the head of a request was complete. The library's own answers have no
    // content.
    fn tell_end<H: Answers>(&self, answers: &H, end: End) {
        match end {
            End::Refused(status) => tell_bare(answers, self.from, Some(status), 0, true),
            End::Broken if self.is_in_head() => {
                tell_bare(answers, self.from, self.unsent(), 0, false);
            }
            End::Broken | End::Regular => {}
        }
    }

    // The status where nothing was sent: 408 (RFC 9110, section 15.5.9) if the client was silent for too long.
    fn unsent(&self) -> Option<u16> {
        if self.stage.has_timed_out() {
            Some(408)
        } else {
            None
        }
    }
}

/// The facts of a connection. Reference-counted within one thread.
pub(crate) struct SharedFacts<K>(pub(crate) Rc<RefCell<Facts<K>>>);

// Written by hand, so that what lets it go is one call for the prover (docs/GATE.md).
impl<K: Drop> Drop for SharedFacts<K> {
    fn drop(self) {
        let Self(_) = self;
    }
}

impl<K: KeepTunnel> SharedFacts<K> {
    /// The facts of a connection from this address, on which no request is under way.
    pub(crate) fn new<H: Answers>(
        alloc: Global,
        answers: &H,
        from: IpAddr,
        stage: SharedStage,
    ) -> Result<SharedFacts<K>, AllocError> {
        let facts = Facts {
            from,
            stage,
            has_other_methods: answers.has_other_methods(),
            is_last: false,
            asked: None,
            began: None,
            status: None,
            how: How::Own,
            supplier: None,
            tunnel: K::empty(),
        };
        Ok(SharedFacts(Rc::new(alloc, RefCell::new(facts))?))
    }
}

impl<K: Drop> SharedFacts<K> {
    /// Another handle to the same facts. Errors: there are too many handles.
    pub(crate) fn share(&self) -> Result<SharedFacts<K>, AllocError> {
        Ok(SharedFacts(self.0.clone()?))
    }

    // Begins with the next request.
    fn begin(&self, asked: Option<Asked>) {
        match self.0.try_borrow_mut() {
            Ok(mut facts) => facts.begin(asked),
            Err(_) => drop(asked),
        }
    }

    /// What a request is told that fails with this status: the reason, and its target. Nothing if out of memory.
    pub(crate) fn failure(&self, alloc: Global, status: u16) -> Vec<u8> {
        let text = match self.0.try_borrow_mut() {
            Ok(facts) => text_with(alloc, status, facts.reason(status), facts.target()),
            Err(_) => Err(AllocError),
        };
        text.unwrap_or(Vec::new(alloc))
    }

    /// Gives the request this content. Returns whether there is a request.
    pub(crate) fn put_content(&self, content: Vec<u8>) -> bool {
        if let Ok(mut facts) = self.0.try_borrow_mut()
            && let Some(asked) = &mut facts.asked
        {
            asked.content = content;
            return true;
        }
        false
    }

    /// Notes that the way to a tunnel begins.
    pub(crate) fn note_way(&self, began: Option<Instant>) {
        if let Ok(mut facts) = self.0.try_borrow_mut() {
            facts.note_passed(began);
        }
    }

    /// Notes that the way to a tunnel ended with this status: 403 and 503 are the proxy's own.
    pub(crate) fn note_no_way(&self, status: u16) {
        if matches!(status, 403 | 503)
            && let Ok(mut facts) = self.0.try_borrow_mut()
        {
            facts.note_refused();
        }
    }

    /// Notes that the connection is the end of a tunnel from now on.
    pub(crate) fn begin_tunnel(&self) {
        if let Ok(facts) = self.0.try_borrow_mut() {
            facts.stage.set(Stage::Tunnel);
        }
    }

    /// Tells the end of a connection, as `Facts::tell_end` has it.
    pub(crate) fn tell_end<H: Answers>(&self, answers: &H, end: End) {
        if let Ok(facts) = self.0.try_borrow_mut() {
            facts.tell_end(answers, end);
        }
    }
}

impl<K: KeepTunnel> SharedFacts<K> {
    /// Asks for a tunnel to this end. What is returned receives whether its server is connected, or the status to answer. Returns
    /// `None` if out of memory.
    pub(crate) fn want_tunnel(
        &self,
        alloc: Global,
        end: TunnelEnd,
    ) -> Option<oneshot::Receiver<Result<(), u16>>> {
        let Ok((done, opened)) = oneshot::channel(alloc) else {
            drop(end);
            return None;
        };
        let Ok(wanted) = Box::new(alloc, Wanted { end, done }) else {
            drop(opened);
            return None;
        };
        if self.put_wanted(wanted) {
            return Some(opened);
        }
        drop(opened);
        None
    }

    // Keeps a tunnel that is asked for. Returns whether it is kept.
    fn put_wanted(&self, wanted: Box<Wanted>) -> bool {
        match self.0.try_borrow_mut() {
            Ok(mut facts) => {
                facts.tunnel.put_wanted(wanted);
                true
            }
            Err(_) => {
                drop(wanted);
                false
            }
        }
    }

    /// Takes the tunnel that is asked for.
    pub(crate) fn take_wanted(&self) -> Option<Box<Wanted>> {
        match self.0.try_borrow_mut() {
            Ok(mut facts) => facts.tunnel.take_wanted(),
            Err(_) => None,
        }
    }

    /// Keeps a tunnel whose server is connected.
    pub(crate) fn put_opened(&self, opened: Box<Opened>) {
        match self.0.try_borrow_mut() {
            Ok(mut facts) => facts.tunnel.put_opened(opened),
            Err(_) => drop(opened),
        }
    }

    /// Takes the tunnel whose server is connected.
    pub(crate) fn take_opened(&self) -> Option<Box<Opened>> {
        match self.0.try_borrow_mut() {
            Ok(mut facts) => facts.tunnel.take_opened(),
            Err(_) => None,
        }
    }

    // Tells what became of the request, of whose content so many octets were handed to the connection. One that has opened a tunnel is told
    // with that.
    fn tell_request<H: Answers>(&self, answers: &H, octets: u64, is_whole: bool) {
        let Ok(mut facts) = self.0.try_borrow_mut() else {
            return;
        };
        if !facts.tunnel.is_opened() {
            facts.tell(answers, octets, is_whole);
            drop(facts.asked.take());
        }
    }
}

// Tells of a connection that brought no request.
fn tell_bare<H: Answers>(
    answers: &H,
    from: IpAddr,
    status: Option<u16>,
    octets: u64,
    is_whole: bool,
) {
    answers.tell(&Told {
        from,
        asked: None,
        began: None,
        status,
        how: How::Own,
        supplier: None,
        octets,
        is_whole,
    });
}

/// Tells that a client at this address is refused with 403 and a content of so many octets.
pub(crate) fn tell_refused<H: Answers>(answers: &H, from: IpAddr, octets: u64) {
    tell_bare(answers, from, Some(403), octets, true);
}

/// Counts the octets of a content. Who hands them over is generic over it, since the prover does not look behind a type parameter
/// (docs/GATE.md).
pub(crate) trait Tally: Drop {
    /// Notes that so many octets of the content were handed to the connection, and whether these are the last.
    fn note_octets(&mut self, count: u64, is_last: bool);
}

/// What becomes of a request, for the future of its response.
pub(crate) trait Account: Tally {
    /// An answer in progress.
    type Answering: Future<Output = Given>;

    /// Starts to answer the request, whose content is complete. Returns `None` if out of memory.
    fn begin(&self, content: Vec<u8>) -> Option<Self::Answering>
        ensures { IfSome result Self.Answering.can_poll };

    /// Passes on the request, whose content comes by and by. Returns `None` if out of memory.
    fn pass(&self, content: Option<Coming>) -> Option<Self::Answering>
        ensures { IfSome result Self.Answering.can_poll };

    /// What the request is told if it fails with this status. Nothing if out of memory.
    fn failure(&self, alloc: Global, status: u16) -> Vec<u8>;

    /// Whether it is a HEAD request.
    fn is_for_head(&self) -> bool;

    /// Notes that there is a response.
    fn note_answer(&self);

    /// Notes that a response with this status begins.
    fn note_response(&mut self, status: u16, is_last: bool, is_empty: bool);
}

/// Begins the response to a request, and tells what became of it when this is dropped: with the body of its response, or before there is
/// one. A request that has opened a tunnel is told with that.
pub(crate) struct Telling<H: Answers, K: KeepTunnel> {
    answers: H,
    facts: SharedFacts<K>,
    octets: u64,
    is_whole: bool,
}

impl<H: Answers, K: KeepTunnel> Telling<H, K> {
    /// Begins with the next request of a connection. Returns `None` if there are too many handles.
    pub(crate) fn new(
        answers: &H,
        facts: &SharedFacts<K>,
        asked: Option<Asked>,
    ) -> Option<Telling<H, K>> {
        facts.begin(asked);
        Some(Telling {
            answers: answers.share().ok()?,
            facts: facts.share().ok()?,
            octets: 0,
            is_whole: false,
        })
    }

    /// Goes on with the request whose tunnel was taken. Returns `None` if there are too many handles.
    pub(crate) fn resumed(answers: &H, facts: &SharedFacts<K>) -> Option<Telling<H, K>> {
        Some(Telling {
            answers: answers.share().ok()?,
            facts: facts.share().ok()?,
            octets: 0,
            is_whole: false,
        })
    }
}

impl<H: Answers, K: KeepTunnel> Tally for Telling<H, K> {
    fn note_octets(&mut self, count: u64, is_last: bool) {
        self.octets = self.octets.saturating_add(count);
        self.is_whole = is_last;
    }
}

impl<H: Serves<K>, K: KeepTunnel> Account for Telling<H, K> {
    type Answering = H::Answering;

    fn begin(&self, content: Vec<u8>) -> Option<H::Answering> {
        let facts = self.facts.share().ok()?;
        if !facts.put_content(content) {
            return None;
        }
        Some(self.answers.begin(facts))
    }

    fn pass(&self, content: Option<Coming>) -> Option<H::Answering> {
        let Ok(facts) = self.facts.share() else {
            drop(content);
            return None;
        };
        Some(self.answers.pass(facts, content))
    }

    fn failure(&self, alloc: Global, status: u16) -> Vec<u8> {
        self.facts.failure(alloc, status)
    }

    fn is_for_head(&self) -> bool {
        match self.facts.0.try_borrow_mut() {
            Ok(facts) => facts.is_head(),
            Err(_) => false,
        }
    }

    fn note_answer(&self) {
        self.answers.note_answer();
    }

    fn note_response(&mut self, status: u16, is_last: bool, is_empty: bool) {
        if let Ok(mut facts) = self.facts.0.try_borrow_mut() {
            facts.status = Some(status);
            facts.is_last = is_last;
            self.is_whole = is_empty || facts.is_head();
        }
    }
}

impl<H: Answers, K: KeepTunnel> Drop for Telling<H, K> {
    fn drop(self) {
        let Telling {
            answers,
            facts,
            octets,
            is_whole,
        } = self;
        facts.tell_request(&answers, octets, is_whole);
        drop(facts);
        drop(answers);
    }
}
