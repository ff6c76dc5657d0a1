//! Whose turn it is where many ask for what a few threads do, each for as long as it takes.
ghost use Rattle.std.specs.Prelude.{◌≡◌, ◌<◌, ◌≤◌, OnErr, OnOk, length, vec_capacity, vec_len};
ghost use Rattle.fair_use.specs.WaitingLine.{after_turn, begun, free_of, is_ready, may_end, may_one_more, needs_one, next_turn};

use std::alloc::AllocError;
use std::net::IpAddr;

/// How one of those who ask stands in line.
#[derive(Clone, Copy)]
pub struct Standing {
    /// Who it is: the address of a client. `None` stands for all that no client asked for.
    pub asker: Option<IpAddr>,
    /// What threads do for it.
    pub under_way: usize,
    /// What waits of it.
    pub waiting: usize,
}

/// The threads that do what is asked for.
#[derive(Clone, Copy)]
pub struct Crew {
    /// The most that there may be.
    pub most: usize,
    /// Those that are started and have not ended.
    pub alive: usize,
    /// Those of them that do something.
    pub busy: usize,
}

impl Crew {
    /// How many could begin something now, those among them that would have to be started.
    pub fn free(&self) -> usize
        ensures { result ≡ free_of self.now }
    {
        self.most.saturating_sub(self.busy)
    }

    /// Whether one more thread is to be started where so much waits: there may be one more, and idle ones are too few.
    pub fn needs_one(&self, waiting: usize) -> bool
        ensures { result ≡ needs_one self.now waiting }
    {
        self.alive < self.most && self.alive.saturating_sub(self.busy) < waiting
    }

    /// Whether an idle thread ends, given for how many milliseconds it has been idle, after how many it is to end, and whether it is
    /// anybody's turn.
    pub fn may_end(idle: u64, most_idle: u64, has_turn: bool) -> bool
        ensures { result ≡ may_end idle most_idle has_turn }
    {
        most_idle <= idle && !has_turn
    }
}

/// Whether who holds so many of what all share may have one more, where so many are free: it has fewer than that.
pub fn may_one_more(held: usize, free: usize) -> bool
    ensures { result ≡ may_one_more held free }
{
    held < free
}

/// The place in line of whose turn it is, where so many threads are free: the first of whom something waits, and which has fewer under
/// way than threads are free. `None` if there is none.
pub fn next_turn(line: &[Standing], free: usize) -> Option<usize>
    ensures { result ≡ next_turn free line.now }
{
    line.iter().position(|it| is_ready(it, free))
}

// Whether it may be the turn of who stands in line like this.
fn is_ready(standing: &Standing, free: usize) -> bool
    ensures { result ≡ is_ready free standing.now }
{
    0 < standing.waiting && may_one_more(standing.under_way, free)
}

// How it stands once one of what waits of it is under way.
fn begun(standing: Standing) -> Standing
    ensures { result ≡ begun standing }
{
    Standing {
        asker: standing.asker,
        under_way: standing.under_way.saturating_add(1),
        waiting: standing.waiting.saturating_sub(1),
    }
}

/// Notes that it was the turn of this place in line, and that one of what waits there is under way: it stands behind all others now.
/// Where nobody has that place, nothing changes. Errors: out of memory; nothing changes.
pub fn take_turn(line: &mut Vec<Standing>, place: usize) -> Result<(), AllocError>
    ensures taken { OnOk result (line.new.items ≡ after_turn place line.old.items) }
    ensures refused { OnErr result (line.new.items ≡ line.old.items) }
    ensures there { OnErr result (place < length line.old.items) }
    ensures full { OnErr result (vec_capacity line.old ≤ vec_len line.old) }
{
    let Some(standing) = line.get(place) else {
        return Ok(());
    };
    let standing = begun(*standing);
    line.push(standing)?;
    line.remove(place);
    Ok(())
}
