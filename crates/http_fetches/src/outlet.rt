//! Where the answer to a request that is passed on goes.
ghost use Rattle.futures.specs.Task.{Keeps};

use crate::fetching::put;
use futures::Future;
use futures::channel::{mpsc, oneshot};
use futures::task::{Context, Poll};
use http_traffic::{PassFault, PassedHead, Piece};
use hyper::{HeaderMap, header};
use std::alloc::{AllocError, Global};
use std::cell::RefCell;
use std::rc::Rc;

// What takes the answer.
struct Outlet {
    // Until there is a head, or a reason why there is none.
    head: Option<oneshot::Sender<Result<PassedHead, PassFault>>>,
    // Until there is a content.
    pieces: Option<mpsc::Sender<Piece>>,
    // Once there is a head: ready where nobody wants the answer any more.
    wanted: Option<oneshot::Receiver<()>>,
    // Whether the content waits for who takes it.
    is_full: bool,
    // The head that nobody has taken.
    untaken: Option<(u16, HeaderMap)>,
    // Whether nobody has heard why there is none.
    is_unheard: bool,
}

impl Drop for Outlet {
    fn drop(self) {
        let Self {
            head,
            pieces,
            wanted,
            is_full: _,
            untaken,
            is_unheard: _,
        } = self;
        drop(head);
        drop(pieces);
        drop(wanted);
        drop(untaken);
    }
}

impl Outlet {
    // Whether nobody wants the answer any more.
    fn is_unwanted(&mut self, cx: &mut Context<'_>) -> bool
        ensures { Keeps cx.old cx.new }
    {
        if let Some(head) = &mut self.head {
            return matches!(head.poll_canceled(cx), Poll::Ready(()));
        }
        match &mut self.wanted {
            Some(wanted) => matches!(wanted.poll(cx), Poll::Ready(_)),
            None => false,
        }
    }

    // Hands over a head, after which its content may be passed on. Returns `None` if nobody wants it, or if out of memory.
    fn open(&mut self, alloc: Global, status: u16, head: HeaderMap) -> Option<mpsc::Sender<Piece>> {
        let Ok((keep, wanted)) = oneshot::channel(alloc) else {
            drop(head);
            return None;
        };
        let length = length_of(&head);
        let passed = PassedHead {
            status,
            head,
            length,
            wanted: keep,
        };
        put(&mut self.wanted, Some(wanted));
        let Some(head) = self.head.take() else {
            drop(passed);
            return None;
        };
        match head.send(Ok(passed)) {
            Ok(()) => self.pieces.take(),
            Err(back) => {
                self.keep(back);
                None
            }
        }
    }

    // Keeps a head that nobody has taken.
    fn keep(&mut self, back: Result<PassedHead, PassFault>) {
        if let Ok(passed) = back {
            let (status, head, _length, wanted) = passed.into_parts();
            put(&mut self.untaken, Some((status, head)));
            drop(wanted);
        }
    }

    // Whether the head of the answer is awaited, which nobody wants any more.
    fn is_before_head(&self) -> bool {
        self.head.is_some()
    }

    // Says why there is no head, unless there was one.
    fn fail(&mut self, fault: PassFault) {
        if let Some(head) = self.head.take() {
            let sent = head.send(Err(fault));
            self.is_unheard = sent.is_err();
            drop(sent);
        }
    }
}

// The length that a head says the content has.
fn length_of(head: &HeaderMap) -> Option<u64> {
    if head.contains_key(header::TRANSFER_ENCODING) {
        return None;
    }
    head.get(header::CONTENT_LENGTH)?
        .to_str()
        .ok()?
        .parse()
        .ok()
}

/// What takes the answer. Reference-counted within one thread.
#[derive(Drop)]
pub(crate) struct SharedOutlet(Rc<RefCell<Outlet>>);

impl SharedOutlet {
    /// What takes an answer at these ends. Returns `None` if out of memory.
    pub(crate) fn of(
        alloc: Global,
        head: oneshot::Sender<Result<PassedHead, PassFault>>,
        pieces: mpsc::Sender<Piece>,
    ) -> Option<SharedOutlet> {
        let outlet = Outlet {
            head: Some(head),
            pieces: Some(pieces),
            wanted: None,
            is_full: false,
            untaken: None,
            is_unheard: false,
        };
        let shared = Rc::new(alloc, RefCell::new(outlet)).ok()?;
        Some(SharedOutlet(shared))
    }

    /// Another handle to the same. Errors: there are too many.
    pub(crate) fn share(&self) -> Result<SharedOutlet, AllocError> {
        Ok(SharedOutlet(self.0.clone()?))
    }

    /// Whether nobody wants the answer any more.
    pub(crate) fn is_unwanted(&self, cx: &mut Context<'_>) -> bool
        ensures { Keeps cx.old cx.new }
    {
        match self.0.try_borrow_mut() {
            Ok(mut outlet) => outlet.is_unwanted(cx),
            Err(_) => true,
        }
    }

    /// Hands over a head, after which its content may be passed on. Returns `None` if nobody wants it, or if out of memory.
    pub(crate) fn open(
        &self,
        alloc: Global,
        status: u16,
        head: HeaderMap,
    ) -> Option<mpsc::Sender<Piece>> {
        match self.0.try_borrow_mut() {
            Ok(mut outlet) => outlet.open(alloc, status, head),
            Err(_) => {
                drop(head);
                None
            }
        }
    }

    /// Says why there is no head, unless there was one.
    pub(crate) fn fail(&self, fault: PassFault) {
        if let Ok(mut outlet) = self.0.try_borrow_mut() {
            outlet.fail(fault);
        }
    }

    /// Whether the head of the answer is awaited, which nobody wants any more.
    pub(crate) fn is_before_head(&self) -> bool {
        match self.0.try_borrow_mut() {
            Ok(outlet) => outlet.is_before_head(),
            Err(_) => false,
        }
    }

    /// Whether nobody has heard why there is no head.
    pub(crate) fn is_unheard(&self) -> bool {
        match self.0.try_borrow_mut() {
            Ok(outlet) => outlet.is_unheard,
            Err(_) => false,
        }
    }

    /// The head that nobody has taken.
    pub(crate) fn untaken(&self) -> Option<(u16, HeaderMap)> {
        match self.0.try_borrow_mut() {
            Ok(mut outlet) => outlet.untaken.take(),
            Err(_) => None,
        }
    }

    /// Notes whether the content waits for who takes it.
    pub(crate) fn note_full(&self, is_full: bool) {
        if let Ok(mut outlet) = self.0.try_borrow_mut() {
            outlet.is_full = is_full;
        }
    }

    /// Whether the content waits for who takes it.
    pub(crate) fn is_full(&self) -> bool {
        match self.0.try_borrow_mut() {
            Ok(outlet) => outlet.is_full,
            Err(_) => false,
        }
    }
}
