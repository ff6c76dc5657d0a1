//! The threads that write the access log and the notices, and their end.
use crate::limits::LOG_GRACE;
use crossbeam_channel::{Receiver, Sender};
use std::alloc::Global;
use std::sync::Wait;
use std::thread::{JoinHandle, Threads};
use std::time::{Clock, Duration};

/// A thread that writes a log.
#[derive(Drop)]
pub struct Writing {
    /// Its handle.
    pub thread: JoinHandle<()>,
    /// Has it begin, by a message or by being dropped. Lines wait until then.
    pub held: Sender<(), Global>,
    /// Receives a message once all is written.
    pub written: Receiver<(), Global>,
}

impl Writing {
    /// Has the lines written that wait, and those that come.
    fn begin<R: Wait>(&self, rt: &R) {
        let _ = self.held.send(rt, ());
    }

    /// Waits until all lines are written, for a while. Returns whether they are. A thread that still waits for what it writes to ends
    /// with the program.
    fn is_done<R: Threads + Wait + Clock>(self, rt: &R) -> bool {
        let Writing {
            thread,
            held,
            written,
        } = self;
        drop(held);
        if written
            .recv_timeout(rt, Duration::from_secs(LOG_GRACE))
            .is_err()
        {
            return false;
        }
        thread.join(rt);
        true
    }
}

/// The threads that write logs.
#[derive(Drop)]
pub struct Writings {
    /// That of the access log, if there is one.
    pub log: Option<Writing>,
    /// That of the notices, if they are asked for.
    pub notices: Option<Writing>,
}

/// Which logs are written to their end, or not there.
#[derive(Clone, Copy)]
pub struct Written {
    /// Whether the access log is.
    pub is_logged: bool,
    /// Whether the notices are.
    pub is_told: bool,
}

impl Writings {
    /// Has both logs written from now on, with the lines that wait.
    pub(crate) fn begin<R: Wait>(&self, rt: &R) {
        begin(rt, &self.log);
        begin(rt, &self.notices);
    }

    /// Waits until all lines of both logs are written, for a while each.
    pub(crate) fn finish<R: Threads + Wait + Clock>(self, rt: &R) -> Written {
        let Writings { log, notices } = self;
        Written {
            is_logged: is_done(rt, log),
            is_told: is_done(rt, notices),
        }
    }
}

// Has a log written, if there is one.
fn begin<R: Wait>(rt: &R, log: &Option<Writing>) {
    if let Some(log) = log {
        log.begin(rt);
    }
}

// Whether a log, if there is one, is written to its end.
fn is_done<R: Threads + Wait + Clock>(rt: &R, log: Option<Writing>) -> bool {
    match log {
        Some(log) => log.is_done(rt),
        None => true,
    }
}
