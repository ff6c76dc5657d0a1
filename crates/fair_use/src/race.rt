//! The race of the attempts to connect to the addresses of a server (RFC 8305, section 5). Times are milliseconds since the race has begun.
ghost use Rattle.std.specs.Prelude.{◌≡◌, ◌<◌, ◌≤◌, ◌+◌, ◌/◌, true, false};
ghost use Rattle.fair_use.specs.Race.{IsMove, after_begun, after_ended, is_asked, start_of};

/// How long after the beginning of an attempt the next one begins beside it, in milliseconds, as RFC 8305, section 5, recommends.
const DELAY: u64 = 250;

/// The attempts of a race, each to an address of its own, in the order of these.
#[derive(Clone, Copy)]
pub struct Race {
    /// How many there are in all.
    pub count: usize,
    /// How many have begun.
    pub begun: usize,
    /// How many of those have ended: each has failed, or was given up.
    pub ended: usize,
    /// When the next one may begin beside those under way.
    pub due: u64,
    /// When those under way are given up where the next one may not begin beside them.
    pub turn: u64,
    /// When all is over.
    pub limit: u32,
}

/// What is to be done in a race.
#[derive(Clone, Copy)]
pub enum Move {
    /// The next attempt begins, beside those under way if there are some.
    Begin,
    /// Those under way are given up, and the next attempt begins.
    Replace,
    /// Nothing before this time, unless one of those under way ends.
    Wait(u64),
    /// Nothing any more: each attempt has failed.
    Failed,
    /// Nothing any more: the time is over.
    Late,
}

impl Race {
    /// A race of so many attempts, none of which has begun, that is over after so many milliseconds.
    pub fn new(count: usize, limit: u32) -> Race
        ensures { result ≡ start_of count limit }
    {
        Race {
            count,
            begun: 0,
            ended: 0,
            due: 0,
            turn: limit as u64,
            limit,
        }
    }

    /// What is to be done now. `is_free` says whether an attempt may begin beside another one.
    pub fn next(&self, now: u64, is_free: bool) -> Move
        ensures { IsMove self.now now is_free result }
    {
        if self.count <= self.ended {
            return Move::Failed;
        }
        if self.limit as u64 <= now {
            return Move::Late;
        }
        if self.count <= self.begun {
            return Move::Wait(self.limit as u64);
        }
        if self.begun <= self.ended {
            return Move::Begin;
        }
        if is_free {
            self.next_beside(now)
        } else {
            self.next_alone(now)
        }
    }

    // As `next`, where one is left, another one is under way, and it may begin beside that.
    fn next_beside(&self, now: u64) -> Move
        requires left { self.now.begun < self.now.count }
        requires running { self.now.ended < self.now.begun }
        requires early { now < self.now.limit }
        ensures { IsMove self.now now true result }
    {
        if self.due <= now {
            Move::Begin
        } else {
            Move::Wait(self.due.min(self.limit as u64))
        }
    }

    // As `next`, where one is left, another one is under way, and it may not begin beside that.
    fn next_alone(&self, now: u64) -> Move
        requires left { self.now.begun < self.now.count }
        requires running { self.now.ended < self.now.begun }
        requires early { now < self.now.limit }
        ensures { IsMove self.now now false result }
    {
        if self.turn <= now {
            Move::Replace
        } else {
            Move::Wait(self.turn.min(self.limit as u64))
        }
    }

    /// Whether an attempt would begin now if it may do so beside another one.
    pub fn is_asked(&self, now: u64) -> bool
        ensures { result ≡ is_asked self.now now }
    {
        now < self.limit as u64
            && self.begun < self.count
            && self.ended < self.begun
            && self.due <= now
    }

    /// Notes that the next attempt begins now, if there is one.
    pub fn note_begun(&mut self, now: u64)
        ensures { self.new ≡ after_begun self.old now }
    {
        if self.count <= self.begun {
            return;
        }
        let limit = self.limit as u64;
        let now = now.min(limit);
        self.begun += 1;
        self.due = now + DELAY;
        self.turn = now + share(limit - now, (self.count - self.begun) as u64);
    }

    /// Notes that an attempt under way ends now, if there is one: the next one may begin at once.
    pub fn note_ended(&mut self, now: u64)
        ensures { self.new ≡ after_ended self.old now }
    {
        if self.begun <= self.ended {
            return;
        }
        self.ended += 1;
        self.due = self.due.min(now);
    }
}

// The part of this time that one has who shares it evenly with so many others.
fn share(time: u64, others: u64) -> u64
    requires { others < 18446744073709551615 }
    ensures value { result ≡ time / (others + 1) }
    ensures bound { result ≤ time }
{
    time / (others + 1)
}
