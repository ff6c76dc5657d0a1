//! The thread that writes.
use super::desk::{LogDesk, MOST_LINES, Message, Shared};
use super::file::{LogPlace, Opened, open_place, write_out};
use crossbeam_channel::{Receiver, bounded};
use std::alloc::Global;
use std::fs::Files;
use std::io;
use std::io::{Eprint, Print, Write};
use std::sync::atomic::Ordering;
use std::sync::{Arc, Wait};

/// The octets that are gathered before they are written.
const GATHERED: usize = 65_536;

/// What the writing thread needs.
#[derive(Drop)]
pub struct LogTask<F> {
    queue: Receiver<Message, Global>,
    log: Log<F>,
}

/// Opens a log: where lines are offered, and what `run_log` needs. Errors: the file can neither be opened nor created, or out of
/// memory.
pub fn open_log<R: Files>(
    rt: &R,
    alloc: Global,
    place: LogPlace,
) -> io::Result<(LogDesk, LogTask<R::File>)> {
    let opened = open_place(rt, &place)?;
    let shared = Arc::new(alloc, Shared::new())?;
    let (to, queue) = bounded(alloc, MOST_LINES)?;
    let log = Log {
        place,
        opened,
        shared: Arc::try_clone(&shared)?,
        gathered: Vec::with_capacity(alloc, GATHERED)?,
        is_failing: false,
        is_torn: false,
    };
    Ok((LogDesk::new(to, shared), LogTask { queue, log }))
}

/// Writes what is offered, until all shares of the desk are gone and the last line is written. What waits is written together,
/// and at once where nothing more waits. Opens the file anew where that is asked for: no line that is offered after that is written
/// to the old file. Where the file cannot be opened it goes on with the old one, and where it cannot be written the lines are lost
/// and counted; either is told on standard error.
pub fn run_log<R: Files + Print + Eprint + Wait>(rt: &R, task: LogTask<R::File>) {
    let LogTask { queue, mut log } = task;
    for message in queue.iter(rt) {
        log.take(rt, message);
        take_waiting(rt, &queue, &mut log);
        log.write_out(rt);
    }
}

// Takes what waits.
fn take_waiting<R: Files + Print + Eprint + Wait>(
    rt: &R,
    queue: &Receiver<Message, Global>,
    log: &mut Log<R::File>,
) {
    for message in queue.try_iter(rt) {
        log.take(rt, message);
    }
}

// The log as its thread has it.
#[derive(Drop)]
struct Log<F> {
    place: LogPlace,
    opened: Opened<F>,
    shared: Arc<Shared>,
    // Lines that are taken and not yet written.
    gathered: Vec<u8>,
    // Whether the last write failed.
    is_failing: bool,
    // Whether what is written ends within a line.
    is_torn: bool,
}

// The number of lines that end in these octets.
fn lines_in(octets: &[u8]) -> u64 {
    octets.iter().filter(|octet| **octet == b'\n').count() as u64
}

impl<F: Write> Log<F> {
    // Takes a line. Before it, opens the file anew where that is asked for.
    fn take<R: Files<File = F> + Print + Eprint>(&mut self, rt: &R, message: Message) {
        if self.shared.is_stale.swap(false, Ordering::SeqCst) {
            self.write_out(rt);
            self.reopen(rt);
        }
        if let Message::Line(line) = message {
            self.gather(rt, line.as_slice());
        }
    }

    // Gathers a line. What there is before it is written if it is much.
    fn gather<R: Print + Eprint>(&mut self, rt: &R, line: &[u8]) {
        if GATHERED < self.gathered.len().saturating_add(line.len()) {
            self.write_out(rt);
        }
        if self.gathered.extend_from_slice(line).is_err() {
            self.lose(lines_in(line));
        }
        let octets = line.len() as u64;
        self.shared.waiting.fetch_sub(octets, Ordering::SeqCst);
    }

    // Counts lines as lost.
    fn lose(&self, lines: u64) {
        self.shared.lost.fetch_add(lines, Ordering::SeqCst);
    }

    // Writes what is gathered. Where a write failed within a line, the next begins on a line of its own.
    fn write_out<R: Print + Eprint>(&mut self, rt: &R) {
        if self.gathered.is_empty() {
            return;
        }
        if self.is_torn && write_out(rt, &mut self.opened, b"\n").0 == 1 {
            self.is_torn = false;
        }
        if self.is_torn {
            self.lose(lines_in(self.gathered.as_slice()));
            self.gathered.clear();
            return;
        }
        let (count, ending) = write_out(rt, &mut self.opened, self.gathered.as_slice());
        self.account(count);
        self.gathered.clear();
        self.tell(rt, ending);
    }

    // Counts what is gathered, of which this many octets are written.
    fn account(&mut self, count: usize) {
        let (front, rest) = self
            .gathered
            .as_slice()
            .split_at(count.min(self.gathered.len()));
        self.is_torn = !front.is_empty() && !front.ends_with(b"\n");
        let written = lines_in(front);
        let lost = lines_in(rest);
        self.shared.written.fetch_add(written, Ordering::SeqCst);
        self.lose(lost);
    }

    // Tells the first of several failures on standard error.
    fn tell<R: Eprint>(&mut self, rt: &R, ending: io::Result<()>) {
        match ending {
            Ok(()) => self.is_failing = false,
            Err(error) => {
                if !self.is_failing {
                    let _ = eprintln!(rt; "access log: lines are lost: {error}");
                }
                self.is_failing = true;
            }
        }
    }

    // Opens the file anew. If it cannot be opened, the old one stays.
    fn reopen<R: Files<File = F> + Eprint>(&mut self, rt: &R) {
        match open_place(rt, &self.place) {
            Ok(opened) => {
                self.opened = opened;
                self.is_torn = false;
            }
            Err(error) => {
                let _ = eprintln!(rt; "access log: the file cannot be opened anew: {error}");
            }
        }
    }
}
