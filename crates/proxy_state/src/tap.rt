//! Captures of the datagrams that come in, for the administration: the query thread writes the file's blocks, and hands them over
//! in pieces through a bounded channel.
use crate::capture_limits::CaptureLimits;
use capture::{COUNTS_OCTETS, Fate, HEAD_OCTETS, counts_block, datagram_block, file_head};
use filter_slots::{Datagram, Judged, cut};
use futures::channel::mpsc;
use std::alloc::{AllocError, Global};
use std::sync::atomic::{AtomicBool, Ordering};
use std::sync::{Mutex, Wait};
use std::time::{Clock, Duration, Instant, SystemTime};

// The octets after which a piece is handed over. One datagram can make a piece longer.
const PIECE: usize = 65_536;

// The most pieces that wait for the client.
const WAITING: usize = 32;

// Microseconds since 1970-01-01 UTC by the system's clock; 0 if it cannot be read.
fn micros<R: Clock>(rt: &R) -> u64 {
    let Ok(now) = SystemTime::now(rt) else {
        return 0;
    };
    match now.duration_since(SystemTime::UNIX_EPOCH) {
        Ok(since) => u64::try_from(since.as_micros()).unwrap_or(0),
        Err(_) => 0,
    }
}

/// Why no recording was begun.
#[derive(Clone, Copy)]
pub enum TapFault {
    /// One is under way.
    Busy,
    /// Out of memory, or the clock cannot be read.
    NoMemory,
}

impl From<AllocError> for TapFault {
    fn from(_: AllocError) -> TapFault {
        TapFault::NoMemory
    }
}

/// Where a recording is handed to the query thread. There is one at a time.
#[derive(Drop)]
pub struct Tap {
    // Whether a recording is under way, or handed over.
    is_taken: AtomicBool,
    // Whether one is handed over and not yet taken up.
    is_waiting: AtomicBool,
    // The one that is handed over. Locked to put it there and to take it up.
    waiting: Mutex<Option<Recording>>,
}

impl Tap {
    /// No recording.
    pub fn new() -> Tap {
        Tap {
            is_taken: AtomicBool::new(false),
            is_waiting: AtomicBool::new(false),
            waiting: Mutex::new(None),
        }
    }

    /// Begins a recording. Returns the receiver of its file's pieces. Errors: one is under way, or out of memory; a recording that
    /// is under way goes on.
    pub fn begin<R: Wait + Clock>(
        &self,
        rt: &R,
        alloc: Global,
        limits: CaptureLimits,
    ) -> Result<mpsc::Receiver<Vec<u8>>, TapFault> {
        if self.is_taken.swap(true, Ordering::SeqCst) {
            return Err(TapFault::Busy);
        }
        match Recording::begin(rt, alloc, limits) {
            Ok((recording, pieces)) => {
                *self.waiting.lock(rt) = Some(recording);
                self.is_waiting.store(true, Ordering::SeqCst);
                Ok(pieces)
            }
            Err(_) => {
                self.is_taken.store(false, Ordering::SeqCst);
                Err(TapFault::NoMemory)
            }
        }
    }

    // Takes up the recording that is handed over, if there is one.
    fn take_up<R: Wait>(&self, rt: &R) -> Option<Recording> {
        if !self.is_waiting.load(Ordering::SeqCst) {
            return None;
        }
        self.is_waiting.store(false, Ordering::SeqCst);
        self.waiting.lock(rt).take()
    }

    // Lets the next recording begin.
    fn free(&self) {
        self.is_taken.store(false, Ordering::SeqCst);
    }
}

/// The query thread's side: what it records, if anything. While nothing is recorded a datagram costs the load of one flag.
#[derive(Drop)]
pub struct Recorder {
    recording: Option<Recording>,
}

impl Recorder {
    /// Records nothing.
    pub fn new() -> Recorder {
        Recorder { recording: None }
    }

    /// Takes a judged datagram into the file that is recorded, if one is. Never waits for the client: a datagram that finds no room
    /// is counted.
    pub fn note<R: Wait + Clock>(&mut self, rt: &R, tap: &Tap, judged: &Judged) {
        if self.recording.is_none() {
            self.recording = tap.take_up(rt);
        }
        if let Some(recording) = &mut self.recording {
            recording.note(micros(rt), judged);
        }
    }

    /// Hands over what is recorded, and ends the recording where it is over. To be called several times a second.
    pub fn tick<R: Wait + Clock>(&mut self, rt: &R, tap: &Tap) {
        if self.recording.is_none() {
            self.recording = tap.take_up(rt);
        }
        let Some(recording) = &mut self.recording else {
            return;
        };
        if recording.is_over(Instant::now(rt).ok(), micros(rt)) {
            self.recording = None;
            tap.free();
        }
    }
}

// Datagrams of one fate.
#[derive(Clone, Copy)]
struct Tally {
    // Those that came.
    received: u64,
    // Those of them that found no room.
    dropped: u64,
}

// How far a recording is.
#[derive(Clone, Copy, PartialEq, Eq)]
enum Stage {
    // Datagrams are recorded.
    Open,
    // The file is complete, and its last piece is to be handed over.
    Complete,
    // Memory was refused, so the file stays as it is.
    Broken,
}

// A capture file that is being written.
#[derive(Drop)]
struct Recording {
    alloc: Global,
    to: mpsc::Sender<Vec<u8>>,
    until: Instant,
    stage: Stage,
    // Octets of the file that are not handed over yet.
    piece: Vec<u8>,
    // Octets of the file left for datagrams.
    left: usize,
    accepted: Tally,
    cut: Tally,
    rejected: Tally,
}

// What became of a datagram under this verdict.
fn fate_of(datagram: &Datagram, verdict: u32) -> Fate {
    if verdict == 0 {
        Fate::Rejected
    } else if cut(datagram, verdict).len() < datagram.payload().len() {
        Fate::Cut
    } else {
        Fate::Accepted
    }
}

impl Recording {
    // A new file within these limits, and the receiver of its pieces. Errors: out of memory, or the clock cannot be read.
    fn begin<R: Clock>(
        rt: &R,
        alloc: Global,
        limits: CaptureLimits,
    ) -> Result<(Recording, mpsc::Receiver<Vec<u8>>), AllocError> {
        let Ok(now) = Instant::now(rt) else {
            return Err(AllocError);
        };
        let time = Duration::from_secs(limits.seconds());
        let until = now.checked_add(time).ok_or(AllocError)?;
        let (to, pieces) = mpsc::channel(alloc, WAITING)?;
        let none = Tally {
            received: 0,
            dropped: 0,
        };
        let begun = HEAD_OCTETS + 3 * COUNTS_OCTETS;
        let recording = Recording {
            alloc,
            to,
            until,
            stage: Stage::Open,
            piece: file_head().to_vec(alloc)?,
            left: limits.octets().saturating_sub(begun),
            accepted: none,
            cut: none,
            rejected: none,
        };
        Ok((recording, pieces))
    }

    // The counts of a fate.
    fn tally(&mut self, fate: Fate) -> &mut Tally {
        match fate {
            Fate::Accepted => &mut self.accepted,
            Fate::Cut => &mut self.cut,
            Fate::Rejected => &mut self.rejected,
        }
    }

    // Takes a datagram into the file. One that the file has no octets left for ends it.
    fn note(&mut self, micros: u64, judged: &Judged) {
        if self.stage != Stage::Open {
            return;
        }
        let datagram = judged.datagram();
        let fate = fate_of(datagram, judged.verdict().value);
        let (from, to) = (datagram.from(), datagram.to());
        let Ok(block) = datagram_block(self.alloc, fate, micros, from, to, datagram.payload())
        else {
            self.stage = Stage::Broken;
            return;
        };
        if self.left < block.len() {
            self.complete(micros);
            return;
        }
        let has_room = self.make_room(block.len());
        let tally = self.tally(fate);
        tally.received = tally.received.saturating_add(1);
        if !has_room {
            tally.dropped = tally.dropped.saturating_add(1);
            return;
        }
        self.left = self.left.saturating_sub(block.len());
        self.append(block.as_slice());
    }

    // Appends octets to the piece.
    fn append(&mut self, octets: &[u8]) {
        if self.piece.extend_from_slice(octets).is_err() {
            self.stage = Stage::Broken;
        }
    }

    // Whether the piece can take so many octets more; it is handed over where it would be too long.
    fn make_room(&mut self, octets: usize) -> bool {
        let len = self.piece.len();
        len == 0 || len.saturating_add(octets) <= PIECE || self.hand_over()
    }

    // Hands the piece over. Returns whether there was room for it.
    fn hand_over(&mut self) -> bool {
        if self.piece.is_empty() {
            return true;
        }
        let piece = std::mem::replace(&mut self.piece, Vec::new(self.alloc));
        match self.to.try_send(piece) {
            Ok(()) => true,
            Err(refused) => {
                self.piece = refused.into_inner();
                false
            }
        }
    }

    // Writes the counts, with which the file ends.
    fn complete(&mut self, micros: u64) {
        self.stage = Stage::Complete;
        for fate in Fate::ALL {
            let tally = *self.tally(fate);
            let block = counts_block(fate, micros, tally.received, tally.dropped);
            self.append(&block);
        }
    }

    // Hands over what there is. Returns whether the recording is over: the file is handed over with its end, the client is gone, or
    // memory was refused.
    fn is_over(&mut self, now: Option<Instant>, micros: u64) -> bool {
        let is_late = match now {
            Some(now) => self.until <= now,
            None => true,
        };
        if is_late && self.stage == Stage::Open {
            self.complete(micros);
        }
        let has_handed_over = self.hand_over();
        match self.stage {
            Stage::Open => self.to.is_closed(),
            Stage::Complete => has_handed_over || self.to.is_closed(),
            Stage::Broken => true,
        }
    }
}
