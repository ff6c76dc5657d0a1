//! The counters that threads raise, and what they held when they were loaded, one after the other.

use crate::kinds::{Course, FetchOutcome, FetchedFrom, StatusClass, class_of};
use crate::replies::ReplyKind;
use crate::times::{Histogram, Times, load_into};
use std::alloc::{AllocError, Global};
use std::array;
use std::sync::atomic::{AtomicU64, Ordering};

/// An answer that has ended.
#[derive(Clone, Copy)]
pub struct AnswerNote {
    /// How it came to be.
    pub course: Course,
    /// Its status; 0 if the connection ended before there was an answer.
    pub status: u16,
    /// The octets of content that were handed to the client.
    pub octets: u64,
    /// Microseconds from the request to the end of the answer. `None` if a clock could not be read: then it isn't timed.
    pub micros: Option<u64>,
}

/// A fetch that has ended.
#[derive(Clone, Copy)]
pub struct FetchNote {
    /// Whom it was made from.
    pub from: FetchedFrom,
    /// How it ended.
    pub outcome: FetchOutcome,
    /// The octets of the body that came.
    pub octets: u64,
    /// Microseconds that it took. `None` if a clock could not be read: then it isn't timed.
    pub micros: Option<u64>,
}

// The counters of a neighbour.
#[derive(Drop)]
struct NeighbourCounters {
    // By outcome.
    fetches: [AtomicU64; 3],
    queries: AtomicU64,
    // By kind.
    replies: [AtomicU64; 8],
}

impl NeighbourCounters {
    fn new() -> NeighbourCounters {
        NeighbourCounters {
            fetches: zeros(),
            queries: AtomicU64::new(0),
            replies: zeros(),
        }
    }

    fn load(&self) -> NeighbourCounts {
        let mut counts = NeighbourCounts {
            fetches: [0; 3],
            queries: self.queries.load(Ordering::SeqCst),
            replies: [0; 8],
        };
        load_into(&self.fetches, &mut counts.fetches);
        load_into(&self.replies, &mut counts.replies);
        counts
    }
}

/// What the counters of a neighbour held.
#[derive(Clone, Copy)]
pub struct NeighbourCounts {
    /// Fetches from it, by outcome (in the order of `FetchOutcome`).
    pub fetches: [u64; 3],
    /// Queries to it.
    pub queries: u64,
    /// Its replies, by kind (in the order of `ReplyKind`).
    pub replies: [u64; 8],
}

/// The counters of a proxy since its start. Any thread raises them, without a lock; the threads share them in an `Arc`. A counter
/// holds a number modulo 2^64.
///
/// An atomic counter has no model. The contracts say at which place the counter of each kind stands (`place`, `kind`, `class_of`,
/// `bucket_of`); that it is raised, and that it is the one shown, is only tested.
pub struct Figures {
    // By course and class of status.
    answers: [[AtomicU64; 6]; 5],
    // Octets handed to clients, by course.
    content: [AtomicU64; 5],
    // By kind of source and outcome.
    fetches: [[AtomicU64; 3]; 2],
    // Octets of bodies, by kind of source.
    bodies: [AtomicU64; 2],
    // Fetches that were ended for want of clients.
    unwanted: AtomicU64,
    hits: Histogram,
    forwarded: Histogram,
    fetched: Histogram,
    // By place of the neighbour.
    neighbours: Vec<NeighbourCounters>,
}

// Written by hand, so that what lets it go is one call for the prover (docs/GATE.md).
impl Drop for Figures {
    fn drop(self) {
        let Self {
            answers: _,
            content: _,
            fetches: _,
            bodies: _,
            unwanted: _,
            hits: _,
            forwarded: _,
            fetched: _,
            neighbours: _,
        } = self;
    }
}

fn zeros<const N: usize>() -> [AtomicU64; N] {
    array::from_fn(|_| AtomicU64::new(0))
}

impl Figures {
    /// All at 0, for so many neighbours.
    pub fn new(alloc: Global, neighbours: usize) -> Result<Figures, AllocError> {
        let mut by_neighbour = Vec::with_capacity(alloc, neighbours)?;
        for _ in 0..neighbours {
            by_neighbour.push(NeighbourCounters::new())?;
        }
        Ok(Figures {
            answers: [zeros(), zeros(), zeros(), zeros(), zeros()],
            content: zeros(),
            fetches: [zeros(), zeros()],
            bodies: zeros(),
            unwanted: AtomicU64::new(0),
            hits: Histogram::new(),
            forwarded: Histogram::new(),
            fetched: Histogram::new(),
            neighbours: by_neighbour,
        })
    }

    /// Counts an answer that has ended. It is timed if it was a hit or forwarded, and had a status.
    pub fn note_answer(&self, answer: AnswerNote) {
        let course = answer.course.place();
        let class = class_of(answer.status).place();
        let by_class = &self.answers[course];
        by_class[class].fetch_add(1, Ordering::SeqCst);
        self.content[course].fetch_add(answer.octets, Ordering::SeqCst);
        if answer.status == 0 {
            return;
        }
        let Some(micros) = answer.micros else {
            return;
        };
        match answer.course {
            Course::Hit => self.hits.add(micros),
            Course::Miss | Course::Collapsed | Course::Bypass => self.forwarded.add(micros),
            Course::Own => {}
        }
    }

    /// Counts a fetch that has ended. It is timed unless it was refused. A neighbour that there is none of is counted among the
    /// neighbours and nowhere else.
    pub fn note_fetch(&self, fetch: FetchNote) {
        let kind = fetch.from.kind();
        let outcome = fetch.outcome.place();
        let by_outcome = &self.fetches[kind];
        by_outcome[outcome].fetch_add(1, Ordering::SeqCst);
        self.bodies[kind].fetch_add(fetch.octets, Ordering::SeqCst);
        if let FetchedFrom::Neighbour(n) = fetch.from
            && let Some(counters) = self.neighbours.get(n)
        {
            counters.fetches[outcome].fetch_add(1, Ordering::SeqCst);
        }
        if fetch.outcome == FetchOutcome::Refused {
            return;
        }
        if let Some(micros) = fetch.micros {
            self.fetched.add(micros);
        }
    }

    /// Counts a fetch that was ended, or not begun, for want of clients.
    pub fn note_unwanted(&self) {
        self.unwanted.fetch_add(1, Ordering::SeqCst);
    }

    /// How many fetches were ended, or not begun, for want of clients.
    pub fn unwanted(&self) -> u64 {
        self.unwanted.load(Ordering::SeqCst)
    }

    /// Counts a query to the neighbour at this place of the configuration, from 0. Where there is none, nothing is counted.
    pub fn note_query(&self, neighbour: usize) {
        if let Some(counters) = self.neighbours.get(neighbour) {
            counters.queries.fetch_add(1, Ordering::SeqCst);
        }
    }

    /// Counts a reply of the neighbour at this place of the configuration, from 0. Where there is none, nothing is counted.
    pub fn note_reply(&self, neighbour: usize, kind: ReplyKind) {
        if let Some(counters) = self.neighbours.get(neighbour) {
            counters.replies[kind.place()].fetch_add(1, Ordering::SeqCst);
        }
    }

    /// What the counters of each neighbour hold, in the order of the configuration. They are loaded one after the other. Errors: out
    /// of memory.
    pub fn by_neighbour(&self, alloc: Global) -> Result<Vec<NeighbourCounts>, AllocError> {
        let mut neighbours = Vec::with_capacity(alloc, self.neighbours.len())?;
        for counters in &self.neighbours {
            neighbours.push(counters.load())?;
        }
        Ok(neighbours)
    }

    /// What the counters hold. They are loaded one after the other: what threads count meanwhile may be in some of them.
    pub fn snapshot(&self, alloc: Global) -> Result<Snapshot, AllocError> {
        let neighbours = self.by_neighbour(alloc)?;
        let mut snapshot = Snapshot {
            answers: [[0; 6]; 5],
            content: [0; 5],
            fetches: [[0; 3]; 2],
            bodies: [0; 2],
            hits: self.hits.load(),
            forwarded: self.forwarded.load(),
            fetched: self.fetched.load(),
            neighbours,
        };
        for (counts, counters) in snapshot.answers.iter_mut().zip(&self.answers) {
            load_into(counters, counts);
        }
        load_into(&self.content, &mut snapshot.content);
        for (counts, counters) in snapshot.fetches.iter_mut().zip(&self.fetches) {
            load_into(counters, counts);
        }
        load_into(&self.bodies, &mut snapshot.bodies);
        Ok(snapshot)
    }
}

/// What the counters held, each when it was loaded: one after the other, so not all at one moment.
pub struct Snapshot {
    /// Answers, by course (in the order of `Course`) and class of status (in the order of `StatusClass`).
    pub answers: [[u64; 6]; 5],
    /// Octets of content handed to clients, by course.
    pub content: [u64; 5],
    /// Fetches, of origin servers and of neighbours, by outcome (in the order of `FetchOutcome`).
    pub fetches: [[u64; 3]; 2],
    /// Octets of bodies that came from origin servers and from neighbours.
    pub bodies: [u64; 2],
    /// To the end of the answers that were hits.
    pub hits: Times,
    /// To the end of the answers that were fetched (misses, collapsed ones, bypasses).
    pub forwarded: Times,
    /// Of fetches.
    pub fetched: Times,
    /// What is counted of each neighbour, in the order of the configuration.
    pub neighbours: Vec<NeighbourCounts>,
}

// Written by hand, so that what lets it go is one call for the prover (docs/GATE.md).
impl Drop for Snapshot {
    fn drop(self) {
        let Self {
            answers: _,
            content: _,
            fetches: _,
            bodies: _,
            hits: _,
            forwarded: _,
            fetched: _,
            neighbours: _,
        } = self;
    }
}

impl Snapshot {
    /// Answers with a status of this class, at most 2^64 - 1.
    pub(crate) fn of_class(&self, class: StatusClass) -> u64 {
        let place = class.place();
        let mut sum: u64 = 0;
        for counts in &self.answers {
            sum = sum.saturating_add(counts[place]);
        }
        sum
    }
}
