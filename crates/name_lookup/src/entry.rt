//! What is known of one name, and who waits for it.
use crate::table::{Answer, Waiter};
use fair_use::{Known, Spans, Use, Waited, patience};
use http_traffic::Found;
use std::alloc::{AllocError, Global};

// Those who wait for a name.
struct Sought {
    // Since when it is sought.
    asked: u64,
    // Since when it waits for its turn, or is being looked up.
    since: u64,
    // The number of its look-up, once that has begun.
    look_up: Option<u64>,
    waiting: Vec<Waiter>,
}

// Written by hand, so that what lets it go is one call for the prover (docs/GATE.md).
impl Drop for Sought {
    fn drop(self) {
        let Self {
            asked: _,
            since: _,
            look_up: _,
            waiting: _,
        } = self;
    }
}

/// What is known of a name, and who waits for it.
pub(crate) struct Entry {
    alloc: Global,
    // What was found last, of which `known` says how old it is.
    addresses: Option<Found>,
    known: Known,
    sought: Option<Sought>,
}

// Written by hand, so that what lets it go is one call for the prover (docs/GATE.md).
impl Drop for Entry {
    fn drop(self) {
        let Self {
            alloc: _,
            addresses: _,
            known: _,
            sought: _,
        } = self;
    }
}

/// What becomes of one who seeks a name of which there is an entry.
#[derive(Drop)]
pub(crate) enum Course {
    /// It was told what is known.
    Told,
    /// It waits with others.
    Joined {
        /// Whether the name is being looked up already.
        is_begun: bool,
    },
    /// The name is to be looked up for it.
    Begins(Waiter),
}

impl Entry {
    /// A name that these seek since this moment.
    pub(crate) fn sought(alloc: Global, now: u64, waiting: Vec<Waiter>) -> Entry {
        Entry {
            alloc,
            addresses: None,
            known: Known {
                found: None,
                failed: None,
            },
            sought: Some(Sought {
                asked: now,
                since: now,
                look_up: None,
                waiting,
            }),
        }
    }

    /// Whether somebody seeks it.
    pub(crate) fn is_sought(&self) -> bool {
        self.sought.is_some()
    }

    /// Whether somebody seeks it, and its look-up has not begun.
    pub(crate) fn waits_for_turn(&self) -> bool {
        match &self.sought {
            Some(sought) => sought.look_up.is_none(),
            None => false,
        }
    }

    /// When it was last found, or sought in vain. `None` while it is sought.
    pub(crate) fn told_at(&self) -> Option<u64> {
        if self.sought.is_some() {
            return None;
        }
        Some(
            self.known
                .found
                .unwrap_or(0)
                .max(self.known.failed.unwrap_or(0)),
        )
    }

    /// Whether it has no addresses.
    pub(crate) fn is_empty(&self) -> bool {
        self.addresses.is_none()
    }

    // Whether there are addresses that are kept, however old they are.
    fn has_kept(&self, spans: Spans, now: u64) -> bool {
        match self.known.use_at(spans, now) {
            Use::Fresh | Use::Old | Use::AskAnew => self.addresses.is_some(),
            Use::Failed | Use::Ask => false,
        }
    }

    // Forgets addresses that are not kept any more.
    fn forget_unkept(&mut self, spans: Spans, now: u64) {
        if !self.has_kept(spans, now) {
            self.addresses = None;
        }
    }

    /// Takes one who seeks the name. Errors: out of memory; the waiter is dropped.
    pub(crate) fn take(
        &mut self,
        spans: Spans,
        now: u64,
        waiter: Waiter,
    ) -> Result<Course, AllocError> {
        let (alloc, has_kept) = (self.alloc, self.has_kept(spans, now));
        if let Some(sought) = &mut self.sought {
            match patience(sought.waited(now, has_kept), spans, has_kept) {
                Waited::Waits => return sought.join(waiter),
                Waited::HasOld => waiter.tell(alloc, &self.addresses),
                Waited::GivesUp => waiter.tell(alloc, &None),
            }
            return Ok(Course::Told);
        }
        match self.known.use_at(spans, now) {
            Use::Fresh | Use::Old => waiter.tell(alloc, &self.addresses),
            Use::Failed => waiter.tell(alloc, &None),
            Use::AskAnew | Use::Ask => return Ok(Course::Begins(waiter)),
        }
        Ok(Course::Told)
    }

    /// Tells one who may not have the name looked up what is kept. Returns whether there is something; otherwise the waiter is dropped.
    pub(crate) fn give_kept(&self, spans: Spans, now: u64, waiter: Waiter) -> bool {
        if !self.has_kept(spans, now) {
            drop(waiter);
            return false;
        }
        waiter.tell(self.alloc, &self.addresses);
        true
    }

    /// Notes that these seek the name since this moment, which nobody has sought.
    pub(crate) fn seek(&mut self, spans: Spans, now: u64, waiting: Vec<Waiter>) {
        self.forget_unkept(spans, now);
        self.sought = Some(Sought {
            asked: now,
            since: now,
            look_up: None,
            waiting,
        });
    }

    /// Whether somebody still waits for the name, whose look-up has not begun. If nobody does, it is no longer sought.
    pub(crate) fn is_wanted(&mut self) -> bool {
        let Some(sought) = &mut self.sought else {
            return false;
        };
        if sought.look_up.is_some() {
            return false;
        }
        sought.waiting.retain(|waiter| !waiter.found.is_canceled());
        if sought.waiting.is_empty() {
            self.sought = None;
            return false;
        }
        true
    }

    /// Notes that the look-up of this number begins.
    pub(crate) fn begin(&mut self, now: u64, number: u64) {
        if let Some(sought) = &mut self.sought {
            sought.since = now;
            sought.look_up = Some(number);
        }
    }

    /// No longer seeks the name; who waits is told that there is nothing.
    pub(crate) fn abandon(&mut self) {
        self.sought = None;
    }

    // Tells all who wait the addresses, if there are any, and no longer seeks the name.
    fn tell_all(&mut self) {
        let alloc = self.alloc;
        if let Some(sought) = self.sought.take() {
            for waiter in sought.into_waiting() {
                waiter.tell(alloc, &self.addresses);
            }
        }
    }

    /// Ends the look-up of this number, which brought this. Returns whether those who waited for it got nothing.
    pub(crate) fn end(&mut self, spans: Spans, now: u64, number: u64, answer: Answer) -> bool {
        let is_awaited = match &self.sought {
            Some(sought) => sought.look_up == Some(number),
            None => false,
        };
        match answer {
            Answer::Found(found) => {
                self.addresses = Some(found);
                self.known = Known::once_found(now);
                self.tell_all();
                false
            }
            Answer::Failed if is_awaited => self.fail(spans, now, false),
            Answer::Gone if is_awaited => self.fail(spans, now, true),
            // (who waited for it has given up)
            Answer::Failed | Answer::Gone => false,
        }
    }

    // Notes that the name was sought in vain, and tells all who wait what is kept. Returns whether they got nothing.
    fn fail(&mut self, spans: Spans, now: u64, is_gone: bool) -> bool {
        self.known = self.known.once_failed(is_gone, now);
        self.forget_unkept(spans, now);
        let has_failed = self.sought.is_some() && self.addresses.is_none();
        self.tell_all();
        has_failed
    }

    /// Gives those who wait what is kept, or has them give up, if it is time. Returns whether a look-up has failed by that.
    pub(crate) fn pass_time(&mut self, spans: Spans, now: u64) -> bool {
        let has_kept = self.has_kept(spans, now);
        let Some(sought) = &mut self.sought else {
            return false;
        };
        match patience(sought.waited(now, has_kept), spans, has_kept) {
            Waited::Waits => false,
            Waited::HasOld => {
                self.give_old(spans, now);
                false
            }
            Waited::GivesUp => self.give_up(spans, now),
        }
    }

    // Gives those who wait what is kept, which is not asked for again for a while. The look-up may go on until its time is over.
    fn give_old(&mut self, spans: Spans, now: u64) {
        let alloc = self.alloc;
        let Some(sought) = &mut self.sought else {
            return;
        };
        for waiter in sought.waiting.drain(..) {
            waiter.tell(alloc, &self.addresses);
        }
        if spans.gives_up_after <= sought.waited(now, false) {
            self.sought = None;
        }
        if matches!(self.known.use_at(spans, now), Use::AskAnew) {
            self.known = self.known.once_failed(false, now);
        }
    }

    // Has all who wait give up. That a name waited for its turn for too long says nothing of it, so it may be sought anew at once.
    fn give_up(&mut self, spans: Spans, now: u64) -> bool {
        let is_begun = match &self.sought {
            Some(sought) => sought.look_up.is_some(),
            None => false,
        };
        if is_begun {
            return self.fail(spans, now, false);
        }
        self.abandon();
        true
    }

    /// In how many milliseconds it is to be looked again whether those who wait have waited for long enough. `None` if nobody does.
    pub(crate) fn time_left(&self, spans: Spans, now: u64) -> Option<u64> {
        let sought = self.sought.as_ref()?;
        let has_kept = self.has_kept(spans, now);
        let has_old = has_kept && !sought.waiting.is_empty();
        let span = if has_old {
            spans.old_after
        } else {
            spans.gives_up_after
        };
        Some(span.saturating_sub(sought.waited(now, has_old)))
    }
}

impl Sought {
    // Those who wait.
    fn into_waiting(self) -> Vec<Waiter> {
        let Self {
            asked: _,
            since: _,
            look_up: _,
            waiting,
        } = self;
        waiting
    }

    // For how long who seeks it has waited, where something old is kept; otherwise for how long its turn, or its look-up, has taken.
    fn waited(&self, now: u64, has_old: bool) -> u64 {
        if has_old {
            now.saturating_sub(self.asked)
        } else {
            now.saturating_sub(self.since)
        }
    }

    // Takes one more who waits for the name. Errors: out of memory; the waiter is dropped.
    fn join(&mut self, waiter: Waiter) -> Result<Course, AllocError> {
        self.waiting.push(waiter)?;
        Ok(Course::Joined {
            is_begun: self.look_up.is_some(),
        })
    }
}
