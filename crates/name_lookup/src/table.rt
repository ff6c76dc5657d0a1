//! Names, what is known of them, and whose name is looked up next.
use crate::asker::counted_at;
use crate::entry::{Course, Entry};
use crate::limits::NameLimits;
use fair_use::{Crew, Standing, may_one_more, next_turn, take_turn};
use futures::channel::oneshot;
use http_traffic::{Addresses, Found};
use std::alloc::{AllocError, Global};
use std::collections::{BTreeMap, VecDeque};
use std::net::IpAddr;
use std::time::{Duration, Instant};

/// Who waits for the address of a name.
pub struct Waiter {
    pub port: u16,
    /// Takes the addresses. Its receiver is dropped once the fetch has ended, for whatever reason.
    pub found: oneshot::Sender<Addresses>,
}

// Written by hand, so that what lets it go is one call for the prover (docs/GATE.md).
impl Drop for Waiter {
    fn drop(self) {
        let Self { port: _, found: _ } = self;
    }
}

impl Waiter {
    // Tells these addresses, or by being dropped that there is none, or that memory has run out.
    pub(crate) fn tell(self, alloc: Global, addresses: &Option<Found>) {
        let Waiter { port, found } = self;
        if let Some(addresses) = addresses
            && let Ok(addresses) = addresses.at(alloc, port)
        {
            let _ = found.send(addresses);
        }
    }
}

/// What becomes of one who seeks a name.
#[derive(Clone, Copy, PartialEq, Eq)]
pub enum Seeking {
    /// It was told what is known.
    Told,
    /// It waits for a look-up that others wait for as well.
    Joined,
    /// It waits for a look-up that a thread is to be woken for.
    Queued,
}

/// What a look-up brought.
#[derive(Drop)]
pub enum Answer {
    /// The name has these addresses.
    Found(Found),
    /// It failed, which says nothing of the name.
    Failed,
    /// There is no such name, or it has no address.
    Gone,
}

/// A name that a thread looks up.
pub struct LookUp {
    /// By which its end is told.
    pub number: u64,
    pub name: String,
}

// Written by hand, so that what lets it go is one call for the prover (docs/GATE.md).
impl Drop for LookUp {
    fn drop(self) {
        let Self { number: _, name: _ } = self;
    }
}

/// How many names wait for their look-up, how many look-ups are under way, those among them that nobody waits for any more, and what has
/// become of others since the table was made.
#[derive(Clone, Copy)]
pub struct NameCounts {
    pub waiting: u64,
    pub under_way: u64,
    /// Names that were not found within their time.
    pub failed: u64,
    /// Those who were not let wait.
    pub refused: u64,
}

// A look-up under way.
struct UnderWay {
    number: u64,
    name: String,
    asker: Option<IpAddr>,
}

// Written by hand, so that what lets it go is one call for the prover (docs/GATE.md).
impl Drop for UnderWay {
    fn drop(self) {
        let Self {
            number: _,
            name: _,
            asker: _,
        } = self;
    }
}

// A name that waits for its look-up, and for whom.
#[derive(Drop)]
struct Queued {
    asker: Option<IpAddr>,
    name: String,
}

/// Names: who waits for which, which are to be looked up, which are being looked up, and what was found. Its threads take the names of
/// those who ask in turns.
pub struct NameTable {
    alloc: Global,
    limits: NameLimits,
    // The first moment that it was told. All others are counted from it, in milliseconds.
    began: Option<Instant>,
    entries: BTreeMap<String, Entry>,
    // Those who ask, in the order of their turns.
    line: Vec<Standing>,
    queue: VecDeque<Queued>,
    under_way: Vec<UnderWay>,
    // The threads that were started and have not ended.
    alive: usize,
    last: u64,
    failed: u64,
    refused: u64,
}

// Written by hand, so that what lets it go is one call for the prover (docs/GATE.md).
impl Drop for NameTable {
    fn drop(self) {
        let Self {
            alloc: _,
            limits: _,
            began: _,
            entries: _,
            line: _,
            queue: _,
            under_way: _,
            alive: _,
            last: _,
            failed: _,
            refused: _,
        } = self;
    }
}

impl NameTable {
    /// A table without names.
    pub fn new(alloc: Global, limits: NameLimits) -> NameTable {
        NameTable {
            alloc,
            limits,
            began: None,
            entries: BTreeMap::new(alloc),
            line: Vec::new(alloc),
            queue: VecDeque::new(alloc),
            under_way: Vec::new(alloc),
            alive: 0,
            last: 0,
            failed: 0,
            refused: 0,
        }
    }

    /// The number of names.
    pub fn len(&self) -> usize {
        self.entries.len()
    }

    /// Whether there are no names.
    pub fn is_empty(&self) -> bool {
        self.entries.is_empty()
    }

    /// The number of threads that were started for it and have not ended.
    pub fn threads(&self) -> usize {
        self.alive
    }

    /// Whether names wait for their turn.
    pub fn has_queued(&self) -> bool {
        !self.queue.is_empty()
    }

    /// How much waits, is under way, and has failed.
    pub fn counts(&self) -> NameCounts {
        NameCounts {
            waiting: self.queue.len() as u64,
            under_way: self.under_way.len() as u64,
            failed: self.failed,
            refused: self.refused,
        }
    }

    // A moment, in milliseconds since the first one.
    fn millis(&mut self, now: Instant) -> u64 {
        let began = *self.began.get_or_insert(now);
        u64::try_from(now.saturating_duration_since(began).as_millis()).unwrap_or(u64::MAX)
    }

    /// Seeks the address of a name for this asker. Errors: out of memory, the asker has too many names sought, or all names of the table
    /// are; the waiter is dropped.
    pub fn seek(
        &mut self,
        now: Instant,
        name: &str,
        asker: Option<IpAddr>,
        waiter: Waiter,
    ) -> Result<Seeking, AllocError> {
        let now = self.millis(now);
        let seeking = self.seek_at(now, name, counted_at(asker), waiter);
        if seeking.is_err() {
            self.refused = self.refused.saturating_add(1);
        }
        seeking
    }

    fn seek_at(
        &mut self,
        now: u64,
        name: &str,
        asker: Option<IpAddr>,
        waiter: Waiter,
    ) -> Result<Seeking, AllocError> {
        let course = match self.entries.get_mut(name) {
            Some(entry) => entry.take(self.limits.spans, now, waiter)?,
            None => Course::Begins(waiter),
        };
        match course {
            Course::Told => Ok(Seeking::Told),
            Course::Joined { is_begun: true } => Ok(Seeking::Joined),
            Course::Joined { is_begun: false } => self.queue_beside(name, asker),
            Course::Begins(waiter) => self.queue_up(now, name, asker, waiter),
        }
    }

    // Has a name that waits for the turn of another wait for the turn of this asker too, so that it waits no longer than that. Where memory
    // is short, or the asker may not have one more, it waits for the other's.
    fn queue_beside(&mut self, name: &str, asker: Option<IpAddr>) -> Result<Seeking, AllocError> {
        let is_queued = self
            .queue
            .iter()
            .any(|it| it.asker == asker && it.name.as_str() == name);
        let is_full = self.limits.names <= self.queue.len();
        if is_queued || is_full || !self.may_wait(asker) || self.enqueue(name, asker).is_err() {
            return Ok(Seeking::Joined);
        }
        Ok(Seeking::Queued)
    }

    // Queues a name that is to be looked up.
    fn queue_up(
        &mut self,
        now: u64,
        name: &str,
        asker: Option<IpAddr>,
        waiter: Waiter,
    ) -> Result<Seeking, AllocError> {
        if !self.may_wait(asker) {
            return self.give_kept(now, name, waiter);
        }
        let mut waiting = Vec::new(self.alloc);
        waiting.push(waiter)?;
        self.set_sought(now, name, waiting)?;
        let queued = self.enqueue(name, asker);
        if queued.is_err()
            && let Some(entry) = self.entries.get_mut(name)
        {
            entry.abandon();
        }
        queued.map(|()| Seeking::Queued)
    }

    // Gives what is kept of a name to one who may not have it looked up. Errors: nothing is; the waiter is dropped.
    fn give_kept(&self, now: u64, name: &str, waiter: Waiter) -> Result<Seeking, AllocError> {
        let Some(entry) = self.entries.get(name) else {
            drop(waiter);
            return Err(AllocError);
        };
        if entry.give_kept(self.limits.spans, now, waiter) {
            Ok(Seeking::Told)
        } else {
            Err(AllocError)
        }
    }

    // Notes that these wait for a name that nobody seeks yet.
    fn set_sought(&mut self, now: u64, name: &str, waiting: Vec<Waiter>) -> Result<(), AllocError> {
        if let Some(entry) = self.entries.get_mut(name) {
            entry.seek(self.limits.spans, now, waiting);
            return Ok(());
        }
        self.make_room()?;
        let name = String::from_str(self.alloc, name)?;
        match self
            .entries
            .insert(name, Entry::sought(self.alloc, now, waiting))
        {
            Ok(_) => Ok(()),
            Err(_) => Err(AllocError),
        }
    }

    // The place of an asker in line.
    fn place_of(&self, asker: Option<IpAddr>) -> Option<usize> {
        self.line.iter().position(|it| it.asker == asker)
    }

    // Whether this asker may have one more name sought: it has fewer than the table has room for.
    fn may_wait(&self, asker: Option<IpAddr>) -> bool {
        let sought = self.sought();
        let held = match self.place_of(asker).and_then(|place| self.line.get(place)) {
            Some(it) => it.waiting.saturating_add(it.under_way),
            None => 0,
        };
        may_one_more(held, self.limits.names.saturating_sub(sought))
    }

    // Queues a name for its asker. Errors: out of memory; nothing is changed.
    fn enqueue(&mut self, name: &str, asker: Option<IpAddr>) -> Result<(), AllocError> {
        let name = String::from_str(self.alloc, name)?;
        self.queue.reserve(1)?;
        self.stand_in_line(asker)?;
        let _ = self.queue.push_back(Queued { asker, name });
        Ok(())
    }

    // Counts one more name that waits for this asker's turn; who has none as yet stands behind all others.
    fn stand_in_line(&mut self, asker: Option<IpAddr>) -> Result<(), AllocError> {
        if let Some(place) = self.place_of(asker) {
            if let Some(it) = self.line.get_mut(place) {
                it.waiting = it.waiting.saturating_add(1);
            }
            return Ok(());
        }
        self.line.push(Standing {
            asker,
            under_way: 0,
            waiting: 1,
        })?;
        Ok(())
    }

    // Makes room for one name more: if the table is full, a name goes that was sought in vain, or else one with addresses, where those that are
    // sought have no more than half of the table. Errors: there is none; nothing is changed.
    fn make_room(&mut self) -> Result<(), AllocError> {
        if self.entries.len() < self.limits.names {
            return Ok(());
        }
        let name = match self.oldest(true)? {
            Some(name) => name,
            None if self.limits.names / 2 < self.sought() => return Err(AllocError),
            None => self.oldest(false)?.ok_or(AllocError)?,
        };
        let _ = self.entries.remove(name.as_str());
        Ok(())
    }

    // The name of which what is known is the oldest, of those without addresses or of those with some. `None` if there is none.
    fn oldest(&self, is_empty: bool) -> Result<Option<String>, AllocError> {
        let mut oldest: Option<(&String, u64)> = None;
        for (name, entry) in self.entries.iter() {
            if entry.is_empty() == is_empty
                && let Some(at) = entry.told_at()
                && oldest.is_none_or(|(_, least)| at < least)
            {
                oldest = Some((name, at));
            }
        }
        match oldest {
            Some((name, _)) => Ok(Some(String::from_str(self.alloc, name.as_str())?)),
            None => Ok(None),
        }
    }

    // How many names are sought.
    fn sought(&self) -> usize {
        self.entries.values().filter(|it| it.is_sought()).count()
    }

    fn crew(&self) -> Crew {
        Crew {
            most: self.limits.threads,
            alive: self.alive,
            busy: self.under_way.len(),
        }
    }

    /// The first name for a thread that is to be started, which counts as one from now on. `None` if none is needed, or if out of memory.
    pub fn hire(&mut self, now: Instant) -> Option<LookUp> {
        if !self.crew().needs_one(self.queue.len()) {
            return None;
        }
        let first = self.next(now)?;
        self.alive = self.alive.saturating_add(1);
        Some(first)
    }

    /// Whether a thread that has been idle for so long ends, which no longer counts then. It goes on where it is anybody's turn.
    pub fn dismiss(&mut self, idle: Duration) -> bool {
        let has_turn = next_turn(self.line.as_slice(), self.crew().free()).is_some();
        let idle = u64::try_from(idle.as_millis()).unwrap_or(u64::MAX);
        let is_over = Crew::may_end(idle, self.limits.idle, has_turn);
        if is_over {
            self.alive = self.alive.saturating_sub(1);
        }
        is_over
    }

    /// Notes that a thread could not be started, whose first look-up has this number: it fails.
    pub fn lose(&mut self, now: Instant, number: u64) {
        self.alive = self.alive.saturating_sub(1);
        self.tell(now, number, Answer::Failed);
    }

    /// The next name for a thread to look up, which has to report its end by `tell`: one of the asker whose turn it is. Names that nobody
    /// waits for any more are left out. `None` if it is nobody's turn, or if out of memory.
    pub fn next(&mut self, now: Instant) -> Option<LookUp> {
        let now = self.millis(now);
        for _ in 0..=self.queue.len() {
            let place = next_turn(self.line.as_slice(), self.crew().free())?;
            let asker = self.line.get(place)?.asker;
            match self.take_wanted(asker) {
                Some(name) => return self.start(now, place, asker, name),
                None => self.set_waiting(asker, 0),
            }
        }
        None
    }

    // Takes names of this asker out of the queue, up to the first that somebody waits for, and returns that.
    fn take_wanted(&mut self, asker: Option<IpAddr>) -> Option<String> {
        for _ in 0..self.queue.len() {
            let at = self.queue.iter().position(|it| it.asker == asker)?;
            let name = self.queue.remove(at)?.name;
            if let Some(entry) = self.entries.get_mut(name.as_str())
                && entry.is_wanted()
            {
                return Some(name);
            }
        }
        None
    }

    // Sets how many names wait for the turn of this asker. One that has nothing more leaves the line.
    fn set_waiting(&mut self, asker: Option<IpAddr>, waiting: usize) {
        let Some(place) = self.place_of(asker) else {
            return;
        };
        if let Some(it) = self.line.get_mut(place) {
            it.waiting = waiting;
        }
        self.leave_line(place);
    }

    // Takes who stands at this place out of the line, if nothing of it waits or is under way.
    fn leave_line(&mut self, place: usize) {
        if let Some(it) = self.line.get(place)
            && it.waiting == 0
            && it.under_way == 0
        {
            let _ = self.line.remove(place);
        }
    }

    // Notes that a look-up of this name begins, as the turn of this asker at this place in line. Returns `None` if out of memory; then all
    // that wait for it are dropped.
    fn start(
        &mut self,
        now: u64,
        place: usize,
        asker: Option<IpAddr>,
        name: String,
    ) -> Option<LookUp> {
        let number = self.last.saturating_add(1);
        let begun = self.note_begun(place, number, asker, name.as_str());
        let left = waiting_for(&self.queue, asker);
        self.set_waiting(asker, left);
        let entry = self.entries.get_mut(name.as_str())?;
        if begun.is_err() {
            entry.abandon();
            return None;
        }
        entry.begin(now, number);
        self.last = number;
        Some(LookUp { number, name })
    }

    // Notes a look-up that begins. Errors: out of memory; nothing is changed.
    fn note_begun(
        &mut self,
        place: usize,
        number: u64,
        asker: Option<IpAddr>,
        name: &str,
    ) -> Result<(), AllocError> {
        let name = String::from_str(self.alloc, name)?;
        self.under_way.reserve(1)?;
        take_turn(&mut self.line, place)?;
        self.under_way.push(UnderWay {
            number,
            name,
            asker,
        })?;
        Ok(())
    }

    // Takes the look-up of this number from those under way.
    fn take_under_way(&mut self, number: u64) -> Option<UnderWay> {
        let at = self.under_way.iter().position(|it| it.number == number)?;
        let ended = self.under_way.remove(at);
        if let Some(place) = self.place_of(ended.asker) {
            if let Some(it) = self.line.get_mut(place) {
                it.under_way = it.under_way.saturating_sub(1);
            }
            self.leave_line(place);
        }
        Some(ended)
    }

    /// Ends the look-up of this number: tells all that wait for its name, and keeps what it brought.
    pub fn tell(&mut self, now: Instant, number: u64, answer: Answer) {
        let now = self.millis(now);
        let Some(ended) = self.take_under_way(number) else {
            return;
        };
        let Some(entry) = self.entries.get_mut(ended.name.as_str()) else {
            return;
        };
        if entry.end(self.limits.spans, now, number, answer) {
            self.failed = self.failed.saturating_add(1);
        }
    }

    /// Gives what is known to those who have waited for long enough, and has those give up who have waited for too long. Returns in how
    /// many milliseconds it is to be called again, if anybody waits.
    pub fn pass_time(&mut self, now: Instant) -> Option<u64> {
        let now = self.millis(now);
        let spans = self.limits.spans;
        let (mut least, mut failed): (Option<u64>, u64) = (None, 0);
        for entry in self.entries.values_mut() {
            if entry.pass_time(spans, now) {
                failed = failed.saturating_add(1);
            }
            if let Some(left) = entry.time_left(spans, now) {
                least = Some(least.unwrap_or(left).min(left));
            }
        }
        if failed != 0 {
            self.failed = self.failed.saturating_add(failed);
            self.sweep();
        }
        least
    }

    // Takes the names out of the queue that do not wait for their turn any more.
    fn sweep(&mut self) {
        sweep_queue(&mut self.queue, &self.entries);
        recount(&mut self.line, &self.queue);
        self.line.retain(|it| it.waiting != 0 || it.under_way != 0);
    }
}

// Takes the names out of a queue that do not wait for their turn any more.
fn sweep_queue(queue: &mut VecDeque<Queued>, entries: &BTreeMap<String, Entry>) {
    queue.retain(|it| match entries.get(it.name.as_str()) {
        Some(entry) => entry.waits_for_turn(),
        None => false,
    });
}

// Counts anew what waits for each of those who ask.
fn recount(line: &mut Vec<Standing>, queue: &VecDeque<Queued>) {
    for it in line.iter_mut() {
        it.waiting = waiting_for(queue, it.asker);
    }
}

// How many names wait for the turn of this asker.
fn waiting_for(queue: &VecDeque<Queued>, asker: Option<IpAddr>) -> usize {
    queue.iter().filter(|it| it.asker == asker).count()
}
