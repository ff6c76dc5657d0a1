//! The threads that look names up.
use crate::limits::NameLimits;
use crate::table::{Answer, LookUp, NameTable};
use crossbeam_channel::{Receiver, RecvTimeoutError};
use fair_use::in_turn;
use http_traffic::Found;
use std::alloc::{AllocError, Global};
use std::net::{Net, ToSocketAddrs};
use std::sync::{Arc, Mutex, Wait};
use std::thread::Threads;
use std::time::{Clock, Duration, Instant};
use std::{io, thread};

// As long as names are queued it is looked so often, in milliseconds, whether it is the turn of one: the end of one look-up may have it be
// that of several.
const LOOK: u64 = 50;

// What a thread needs that looks up names.
struct NameClerk {
    alloc: Global,
    table: Arc<Mutex<NameTable>>,
    wakes: Receiver<(), Global>,
    has_six: bool,
    // For how long a thread is idle before it ends.
    idle: Duration,
}

// Written by hand, so that what lets it go is one call for the prover (docs/GATE.md).
impl Drop for NameClerk {
    fn drop(self) {
        let Self {
            alloc: _,
            table: _,
            wakes: _,
            has_six: _,
            idle: _,
        } = self;
    }
}

/// Starts the threads that look up names, and minds the time of those who wait.
pub struct NameWatch {
    clerk: NameClerk,
    bell: Receiver<(), Global>,
}

// Written by hand, so that what lets it go is one call for the prover (docs/GATE.md).
impl Drop for NameWatch {
    fn drop(self) {
        let Self { clerk: _, bell: _ } = self;
    }
}

/// What a thread that looks up names is started with.
#[derive(Drop)]
pub struct Hired {
    clerk: NameClerk,
    first: LookUp,
}

impl NameWatch {
    // What starts the threads of this table.
    pub(crate) fn new(
        alloc: Global,
        limits: NameLimits,
        table: Arc<Mutex<NameTable>>,
        wakes: Receiver<(), Global>,
        bell: Receiver<(), Global>,
        has_six: bool,
    ) -> NameWatch {
        NameWatch {
            clerk: NameClerk {
                alloc,
                table,
                wakes,
                has_six,
                idle: Duration::from_millis(limits.idle),
            },
            bell,
        }
    }

    /// What one more thread is started with. `None` if none is needed, or if out of memory.
    pub fn hire<R: Wait + Clock>(&self, rt: &R) -> Option<Hired> {
        let now = Instant::now(rt).ok()?;
        let first = self.clerk.table.lock(rt).hire(now)?;
        match self.clerk.share() {
            Ok(clerk) => Some(Hired { clerk, first }),
            Err(_) => {
                self.lose(rt, first.number);
                None
            }
        }
    }

    // Has the first look-up of a thread fail that could not be started.
    fn lose<R: Wait + Clock>(&self, rt: &R, number: u64) {
        if let Ok(now) = Instant::now(rt) {
            self.clerk.table.lock(rt).lose(now, number);
        }
    }

    // Tells those who have waited for long enough. Returns in how many milliseconds to look again, if anybody waits.
    fn time_left<R: Wait + Clock>(&self, rt: &R) -> Option<u64> {
        let now = Instant::now(rt).ok()?;
        let mut table = self.clerk.table.lock(rt);
        let left = table.pass_time(now)?;
        if table.has_queued() {
            return Some(left.min(LOOK));
        }
        Some(left)
    }

    // Tells those who have waited for long enough, and waits until something is queued or somebody else has. Returns `false` once the desk
    // is gone.
    fn wait<R: Wait + Clock>(&self, rt: &R) -> bool {
        let Some(left) = self.time_left(rt) else {
            return self.bell.recv(rt).is_ok();
        };
        let rung = self.bell.recv_timeout(rt, Duration::from_millis(left));
        !matches!(rung, Err(RecvTimeoutError::Disconnected))
    }
}

impl NameClerk {
    // The same for another thread. Errors: out of memory.
    fn share(&self) -> Result<NameClerk, AllocError> {
        Ok(NameClerk {
            alloc: self.alloc,
            table: Arc::try_clone(&self.table)?,
            wakes: self.wakes.clone()?,
            has_six: self.has_six,
            idle: self.idle,
        })
    }

    // Looks a name up, and tells what came of it.
    fn look_up<R: Wait + Net + Clock>(&self, rt: &R, sought: LookUp) {
        let answer = answer_of(rt, self, sought.name.as_str());
        if let Ok(now) = Instant::now(rt) {
            self.table.lock(rt).tell(now, sought.number, answer);
        }
    }

    // The next name that this thread looks up. `None` if it is nobody's turn.
    fn next<R: Wait + Clock>(&self, rt: &R) -> Option<LookUp> {
        let now = Instant::now(rt).ok()?;
        self.table.lock(rt).next(now)
    }

    // Waits until something is queued, or for a little while where something is whose turn it was not. Returns `false` if the thread is to
    // end: it was idle for long, or the desk is gone.
    fn wait<R: Wait + Clock>(&self, rt: &R) -> bool {
        let has_queued = self.table.lock(rt).has_queued();
        let most = if has_queued {
            Duration::from_millis(LOOK)
        } else {
            self.idle
        };
        match self.wakes.recv_timeout(rt, most) {
            Ok(()) => true,
            Err(RecvTimeoutError::Timeout) if has_queued => true,
            Err(RecvTimeoutError::Timeout) => !self.table.lock(rt).dismiss(self.idle),
            Err(RecvTimeoutError::Disconnected) => false,
        }
    }
}

/// Starts threads that look up names as they are needed, and tells those who have waited for long enough, until the desk is gone. The
/// threads are not joined, since the system's resolver may hold each for as long as it likes: one that is idle ends when the desk is gone,
/// and one that is held ends with the process. None of them has a part of anything but the names.
pub fn watch_names<R>(rt: R, watch: NameWatch)
where
    R: Threads + Wait + Net + Clock + Copy + Send + 'static,
    R::Stream: Send + 'static,
    R::Listener: Send + 'static,
{
    for _ in rt.forever() {
        start_needed(rt, &watch);
        if !watch.wait(&rt) {
            break;
        }
    }
}

// Starts the threads that are needed.
fn start_needed<R>(rt: R, watch: &NameWatch)
where
    R: Threads + Wait + Net + Clock + Copy + Send + 'static,
    R::Stream: Send + 'static,
    R::Listener: Send + 'static,
{
    for _ in 0..u64::MAX {
        let Some(hired) = watch.hire(&rt) else {
            break;
        };
        let number = hired.first.number;
        match thread::spawn(&rt, move || look_up(&rt, hired)) {
            Ok(thread) => drop(thread),
            Err(refused) => {
                drop(refused);
                watch.lose(&rt, number);
                break;
            }
        }
    }
}

/// Looks up names, as one of the threads that do, until it has been idle for long or the desk is gone.
pub fn look_up<R: Wait + Net + Clock>(rt: &R, hired: Hired) {
    let Hired { clerk, first } = hired;
    let mut next = Some(first);
    for _ in rt.forever() {
        match next {
            Some(sought) => clerk.look_up(rt, sought),
            None if !clerk.wait(rt) => break,
            None => {}
        }
        next = clerk.next(rt);
    }
}

// What a look-up of this name brings. Waits for the name servers.
fn answer_of<R: Net>(rt: &R, clerk: &NameClerk, name: &str) -> Answer {
    match addresses_of(rt, clerk, name) {
        Ok(Some(found)) => Answer::Found(found),
        Ok(None) => Answer::Gone,
        Err(fault) if says_gone(clerk.alloc, fault) => Answer::Gone,
        Err(_) => Answer::Failed,
    }
}

// Whether a look-up that failed says that there is no such name, or that it has no address. The standard library tells this from other
// failures by its text alone.
fn says_gone(alloc: Global, fault: io::Error) -> bool {
    match format!(in alloc; "{fault}") {
        Ok(text) => {
            text.as_str().ends_with("Name or service not known")
                || text
                    .as_str()
                    .ends_with("No address associated with hostname")
        }
        Err(_) => false,
    }
}

// The addresses that a name has, of IPv6 where that is used, in the order in which they are connected to. Waits for the name servers.
// `None` if there is none.
fn addresses_of<R: Net>(rt: &R, clerk: &NameClerk, name: &str) -> io::Result<Option<Found>> {
    let mut addresses = Vec::new(clerk.alloc);
    for address in (name, 0u16).to_socket_addrs(rt)? {
        addresses.push(address.ip())?;
    }
    let addresses = in_turn(clerk.alloc, addresses.as_slice(), clerk.has_six)?;
    let found = Found::of(clerk.alloc, addresses)?;
    Ok(found)
}
