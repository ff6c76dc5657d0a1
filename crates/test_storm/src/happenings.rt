//! Random events.
use crate::draws::Draws;
use crate::packets::{Query, datagram, key, query_of};
use crate::programs::program;
use crate::ring::Ring;
use filter_slots::{Moment, Slot, Socket};
use node_core::{Action, Event, Mode, Outcome};
use object_store::{CacheKey, Object, SharedObject};
use std::alloc::{AllocError, Global};
use std::sync::Arc;

/// A requested fetch, and the number of its attempt.
#[derive(Clone, Copy)]
struct Attempt {
    fetch: u32,
    attempt: u16,
}

/// The load during a chapter.
#[derive(Clone, Copy)]
struct Season {
    /// Number of different keys requested.
    keys: u32,
    /// Number of clients.
    clients: u64,
    /// Factor by which fetch results are rarer.
    delay: u64,
}

/// A generator of events.
#[derive(Drop)]
pub struct Weather {
    draws: Draws,
    clock: u64,
    season: Season,
    // The latest requested attempts.
    fetches: Ring<Attempt>,
    // The latest queries sent.
    queries: Ring<Query>,
}

impl Weather {
    /// The generator for a seed.
    pub fn new(alloc: Global, seed: u64) -> Weather {
        Weather {
            draws: Draws::new(seed),
            clock: 1_700_000_000_000,
            season: Season {
                keys: 12,
                clients: 400,
                delay: 1,
            },
            fetches: Ring::new(alloc),
            queries: Ring::new(alloc),
        }
    }

    /// The random numbers, for other choices.
    pub fn draws(&mut self) -> &mut Draws {
        &mut self.draws
    }

    /// Prepares for a new node: forgets all fetches and queries, and picks a new load.
    pub fn turn(&mut self) {
        self.fetches.clear();
        self.queries.clear();
        self.season = Season {
            keys: self.draws.of(&[3, 12, 90], 12),
            clients: self.draws.of(&[8, 400, 4_000], 400),
            delay: self.draws.of(&[1, 1, 1, 30], 1),
        };
    }

    /// Remembers the requested fetches and the queries sent.
    pub fn hear(&mut self, actions: &[Action]) -> Result<(), AllocError> {
        for action in actions {
            self.note(action)?;
        }
        Ok(())
    }

    fn note(&mut self, action: &Action) -> Result<(), AllocError> {
        match action {
            Action::Fetch { fetch, attempt, .. } => self.fetches.keep(Attempt {
                fetch: *fetch,
                attempt: *attempt,
            }),
            Action::Send {
                socket,
                payload,
                ..
            } => match query_of(*socket, payload.as_slice()) {
                Some(query) => self.queries.keep(query),
                None => Ok(()),
            },
            Action::Serve { .. } => Ok(()),
        }
    }

    /// A requested attempt, or occasionally an arbitrary one with low numbers.
    fn attempt(&mut self) -> Attempt {
        match self.fetches.pick(&mut self.draws) {
            Some(attempt) if !self.draws.one_in(16) => attempt,
            _ => Attempt {
                fetch: self.draws.small(300),
                attempt: u16::from(self.draws.octet_below(4)),
            },
        }
    }

    /// A query that was sent, or occasionally an arbitrary one.
    fn query(&mut self) -> Query {
        let letter = self.letter();
        match self.queries.pick(&mut self.draws) {
            Some(query) if !self.draws.one_in(8) => query,
            _ => Query {
                number: self.draws.small(300),
                letter,
            },
        }
    }

    /// The last octet of a key.
    fn letter(&mut self) -> u8 {
        b'!'.saturating_add(self.draws.octet_below(self.season.keys))
    }

    fn client(&mut self) -> u64 {
        self.draws.below(self.season.clients)
    }

    /// Advances the time, and returns the reading of a clock that occasionally goes back.
    fn now(&mut self) -> Option<Moment> {
        let passed = match self.draws.below(500) {
            0 => self.draws.below(100_000),
            1..=9 => 2_500,
            _ => self.draws.below(40),
        };
        self.clock = self.clock.saturating_add(passed);
        let back = if self.draws.one_in(20) {
            self.draws.below(5_000)
        } else {
            0
        };
        Moment::new(self.clock.saturating_sub(back))
    }

    /// The next event, or `None` if this draw gives none.
    pub fn event(&mut self, alloc: Global) -> Result<Option<Event>, AllocError> {
        let Some(now) = self.now() else {
            return Ok(None);
        };
        match self.draws.below(100) {
            0..=52 => self.arrival(alloc, now),
            53..=74 => self.request(alloc, now),
            75..=80 => Ok(Some(Event::Timer { now })),
            81..=93 => self.fetched(alloc, now),
            94..=95 => Ok(Some(Event::Gone {
                client: self.client(),
            })),
            _ => self.swap(alloc),
        }
    }

    fn arrival(&mut self, alloc: Global, now: Moment) -> Result<Option<Event>, AllocError> {
        let query = self.query();
        let Some(datagram) = datagram(alloc, &mut self.draws, query, now.seconds())? else {
            return Ok(None);
        };
        let Ok(datagram) = Arc::new(alloc, datagram) else {
            return Err(AllocError);
        };
        Ok(Some(Event::Datagram { datagram, now }))
    }

    fn request(&mut self, alloc: Global, now: Moment) -> Result<Option<Event>, AllocError> {
        let letter = self.letter();
        let Ok(key) = CacheKey::new(alloc, key(alloc, &mut self.draws, letter)?) else {
            return Ok(None);
        };
        let mode = match self.draws.below(8) {
            0 => Mode::Cached,
            1 => Mode::Private,
            _ => Mode::Shared,
        };
        Ok(Some(Event::Request {
            client: self.client(),
            key,
            mode,
            now,
        }))
    }

    fn fetched(&mut self, alloc: Global, now: Moment) -> Result<Option<Event>, AllocError> {
        if !self.draws.one_in(self.season.delay) {
            return Ok(None);
        }
        let Attempt { fetch, attempt } = self.attempt();
        let result = if self.draws.one_in(4) {
            Outcome::Failed
        } else {
            Outcome::Object(object(alloc, &mut self.draws)?)
        };
        Ok(Some(Event::Fetched {
            fetch,
            attempt,
            result,
            now,
        }))
    }

    /// The slot of a socket or of a neighbour, which may not exist.
    fn slot(&mut self) -> Slot {
        match self.draws.below(4) {
            0 => Slot::Socket(Socket::Icp),
            1 => Slot::Socket(Socket::Htcp),
            _ => Slot::Neighbour(self.draws.place(5)),
        }
    }

    fn swap(&mut self, alloc: Global) -> Result<Option<Event>, AllocError> {
        let slot = self.slot();
        if self.draws.one_in(2) {
            return Ok(Some(Event::Swap {
                slot,
                program: None,
            }));
        }
        let Some(program) = program(alloc, &mut self.draws)? else {
            return Ok(None);
        };
        let Ok(program) = Arc::new(alloc, program) else {
            return Err(AllocError);
        };
        Ok(Some(Event::Swap {
            slot,
            program: Some(program),
        }))
    }
}

/// The head of a random object, mostly an empty one.
fn head(alloc: Global, draws: &mut Draws) -> Result<Vec<(Vec<u8>, Vec<u8>)>, AllocError> {
    if !draws.one_in(4) {
        return Ok(Vec::new(alloc));
    }
    let name = b"x-name".to_vec(alloc)?;
    let value = b"value".to_vec(alloc)?;
    let mut head = Vec::new(alloc);
    match head.push((name, value)) {
        Ok(()) => Ok(head),
        Err(_) => Err(AllocError),
    }
}

/// A random object.
fn object(alloc: Global, draws: &mut Draws) -> Result<SharedObject, AllocError> {
    let status = draws.of(&[200, 200, 200, 200, 404, 504], 200);
    let life = draws.of(&[0, 1, 60, 3_600], 60);
    let head = head(alloc, draws)?;
    let len = if draws.one_in(40) {
        12_000
    } else {
        draws.place(200)
    };
    let Ok(body) = vec![in alloc; draws.octet(); len] else {
        drop(head);
        return Err(AllocError);
    };
    let age = draws.small(30);
    SharedObject::new(alloc, Object::new(status, head, body, age, life))
}
