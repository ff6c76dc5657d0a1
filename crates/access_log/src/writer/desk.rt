//! Where lines are offered.
use crossbeam_channel::Sender;
use std::alloc::{AllocError, Global};
use std::sync::atomic::{AtomicBool, AtomicU64, Ordering};
use std::sync::{Arc, Wait};

/// The most lines that wait to be written.
pub(crate) const MOST_LINES: usize = 4_096;

/// The most octets of lines that wait to be written.
const MOST_OCTETS: u64 = 16_777_216;

/// What the writing thread is sent.
#[derive(Drop)]
pub(crate) enum Message {
    Line(Vec<u8>),
    /// There is something to look at.
    Wake,
}

/// What the writing thread shares with all who offer lines.
#[derive(Drop)]
pub(crate) struct Shared {
    /// Whether the file is to be opened anew.
    pub(crate) is_stale: AtomicBool,
    /// Octets of the lines that wait.
    pub(crate) waiting: AtomicU64,
    pub(crate) written: AtomicU64,
    pub(crate) lost: AtomicU64,
}

impl Shared {
    pub(crate) fn new() -> Shared {
        Shared {
            is_stale: AtomicBool::new(false),
            waiting: AtomicU64::new(0),
            written: AtomicU64::new(0),
            lost: AtomicU64::new(0),
        }
    }
}

/// Lines since the log was opened.
#[derive(Clone, Copy, PartialEq, Eq)]
pub struct LogCounts {
    /// Lines that are written.
    pub written: u64,
    /// Lines that are lost: more of them waited than there is room for, memory was refused, or the file could not be written.
    pub lost: u64,
}

/// Where lines are offered. Each thread has its own share.
#[derive(Drop)]
pub struct LogDesk {
    queue: Sender<Message, Global>,
    shared: Arc<Shared>,
}

impl LogDesk {
    pub(crate) fn new(queue: Sender<Message, Global>, shared: Arc<Shared>) -> LogDesk {
        LogDesk { queue, shared }
    }

    /// The desk for another thread. The writing thread ends once all shares are gone. Errors: out of memory.
    pub fn share(&self) -> Result<LogDesk, AllocError> {
        Ok(LogDesk {
            queue: self.queue.clone()?,
            shared: Arc::try_clone(&self.shared)?,
        })
    }

    /// Offers a line, which ends with a line feed. Never waits for the disk: where 4,096 lines or 16 MiB of them wait already, the
    /// line is lost, and counted.
    pub fn offer<R: Wait>(&self, rt: &R, line: Vec<u8>) {
        let octets = line.len() as u64;
        let ahead = self.shared.waiting.fetch_add(octets, Ordering::SeqCst);
        let has_room = ahead.saturating_add(octets) <= MOST_OCTETS;
        if !has_room || self.queue.try_send(rt, Message::Line(line)).is_err() {
            self.shared.waiting.fetch_sub(octets, Ordering::SeqCst);
            self.shared.lost.fetch_add(1, Ordering::SeqCst);
        }
    }

    /// Asks for the file to be opened anew, before any line that is offered from then on is written. Never waits, and is not lost
    /// however many lines wait.
    pub fn reopen<R: Wait>(&self, rt: &R) {
        self.shared.is_stale.store(true, Ordering::SeqCst);
        // If the channel is full, the thread looks when it takes the next line.
        let _ = self.queue.try_send(rt, Message::Wake);
    }

    /// How many lines are written, and how many lost.
    pub fn counts(&self) -> LogCounts {
        LogCounts {
            written: self.shared.written.load(Ordering::SeqCst),
            lost: self.shared.lost.load(Ordering::SeqCst),
        }
    }
}
