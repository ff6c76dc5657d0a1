//! The end of a proxy, as its threads ask for it.
use crossbeam_channel::Sender;
use std::alloc::Global;
use std::sync::Wait;
use std::sync::atomic::{AtomicBool, Ordering};
use tokio_util::sync::CancellationToken;

/// The end of the proxy.
pub struct Stopping {
    /// Whether an administrator has asked the proxy to end.
    pub is_stopping: AtomicBool,
    /// Ends the time that open connections have to end, once the proxy is ending, at each thread that serves clients.
    pub hurry: CancellationToken,
    /// Whether an audit found a receipt that does not agree with the event log.
    pub is_astray: AtomicBool,
    /// Receives a message when that happens, or when an administrator asks for it, so that the proxy ends.
    pub end: Sender<(), Global>,
}

// Written by hand, so that what lets it go is one call for the prover (docs/GATE.md).
impl Drop for Stopping {
    fn drop(self) {
        let Self {
            is_stopping: _,
            hurry: _,
            is_astray: _,
            end: _,
        } = self;
    }
}

impl Stopping {
    /// The end of a proxy that has not been asked to: `hurry` ends the grace of clients early, `end` has the proxy end.
    pub fn new(hurry: CancellationToken, end: Sender<(), Global>) -> Stopping {
        Stopping {
            is_stopping: AtomicBool::new(false),
            hurry,
            is_astray: AtomicBool::new(false),
            end,
        }
    }

    /// Asks the proxy to end; the second time, ends the time that open connections have for that.
    pub fn stop<R: Wait>(&self, rt: &R) {
        if self.is_stopping.swap(true, Ordering::SeqCst) {
            self.hurry.cancel();
        } else {
            let _ = self.end.send(rt, ());
        }
    }

    /// Has the proxy end, since a receipt does not agree with the event log.
    pub fn go_astray<R: Wait>(&self, rt: &R) {
        if !self.is_astray.swap(true, Ordering::SeqCst) {
            let _ = self.end.send(rt, ());
        }
    }
}
