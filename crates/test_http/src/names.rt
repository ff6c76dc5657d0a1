//! Tests of names and their look-ups, at times that are given. That a name of the built program is looked up, and digits are not, is tested
//! there.
use futures::channel::oneshot;
use http_traffic::{Addresses, Found};
use name_lookup::{Answer, LookUp, NameLimits, NameTable, Seeking, Waiter};
use std::alloc::{AllocError, Global};
use std::io;
use std::net::{IpAddr, Ipv4Addr, Ipv6Addr};
use std::test::Fail;
use std::time::{Duration, Instant};

// So many names, and five threads. All times are the usual ones.
fn limits(names: usize) -> NameLimits {
    NameLimits {
        names,
        ..NameLimits::usual(5)
    }
}

// The address of a client with this number. 0 stands for no client.
fn client(number: u8) -> Option<IpAddr> {
    if number == 0 {
        return None;
    }
    Some(IpAddr::V4(Ipv4Addr::new(198, 51, 100, number)))
}

fn four() -> Option<IpAddr> {
    Some(IpAddr::V4(Ipv4Addr::new(192, 0, 2, 1)))
}

fn six() -> Option<IpAddr> {
    Some(IpAddr::V6(Ipv6Addr::new(0x2001, 0xdb8, 0, 0, 0, 0, 0, 1)))
}

// What a look-up brings.
#[derive(Clone, Copy)]
enum Brought {
    // An address of IPv4.
    Four,
    // One of IPv6.
    Six,
    Both,
    Neither,
    // The look-up failed.
    Nothing,
    // There is no such name.
    Gone,
}

fn answer_of(alloc: Global, brought: Brought) -> Result<Answer, AllocError> {
    let (four, six) = match brought {
        Brought::Four => (four(), None),
        Brought::Six => (None, six()),
        Brought::Both => (four(), six()),
        Brought::Neither | Brought::Gone => (None, None),
        Brought::Nothing => return Ok(Answer::Failed),
    };
    let mut addresses = Vec::new(alloc);
    for address in [four, six] {
        if let Some(address) = address {
            addresses.push(address)?;
        }
    }
    match Found::of(alloc, addresses)? {
        Some(found) => Ok(Answer::Found(found)),
        None => Ok(Answer::Gone),
    }
}

// A step of a test, and what has to come of it. It happens so many milliseconds after the beginning of the test, where that matters.
#[derive(Clone, Copy)]
enum Step {
    // Somebody seeks the address of a name, with this port.
    Seek(u64, &'static str, u16, Seeking),
    // The client with this number seeks the address of a name.
    SeekBy(u64, u8, &'static str, Seeking),
    // The client with this number seeks a name, and is refused.
    Refuse(u64, u8, &'static str),
    // The last who seeks a name leaves.
    Leave,
    // This is the next name to be looked up; an empty one if there is none.
    Next(u64, &'static str),
    // The look-up of a name ends, of several the first.
    Tell(u64, &'static str, Brought),
    // It is looked who has waited for long enough; in so many milliseconds it is to be looked again, or nobody waits.
    Pass(u64, Option<u64>),
    // Who seeks a name at this place, counted from 0, was told this.
    Told(usize, &'static str),
    // There are so many names.
    Count(usize),
}

// A table, with the moment that its test began, and those who seek names.
struct Trial {
    alloc: Global,
    table: NameTable,
    began: Instant,
    seekers: Vec<oneshot::Receiver<Addresses>>,
    under_way: Vec<LookUp>,
}

impl Drop for Trial {
    fn drop(self) {
        let Self {
            alloc: _,
            table: _,
            began: _,
            seekers: _,
            under_way: _,
        } = self;
    }
}

impl Trial {
    fn new(rt: &HostRuntime, limits: NameLimits) -> io::Result<Trial> {
        let began = Instant::now(rt)?;
        let alloc = rt.alloc();
        Ok(Trial {
            alloc,
            table: NameTable::new(alloc, limits),
            began,
            seekers: Vec::new(alloc),
            under_way: Vec::new(alloc),
        })
    }

    // So many milliseconds after the beginning.
    fn at(&self, millis: u64) -> Instant {
        self.began
            .checked_add(Duration::from_millis(millis))
            .unwrap_or(self.began)
    }

    fn seeks(
        &mut self,
        millis: u64,
        by: u8,
        name: &str,
        port: u16,
        wanted: Seeking,
    ) -> io::Result<bool> {
        let (found, sought) = oneshot::channel(self.alloc)?;
        self.seekers.push(sought)?;
        let now = self.at(millis);
        let waiter = Waiter { port, found };
        let seeking = self.table.seek(now, name, client(by), waiter)?;
        Ok(seeking == wanted)
    }

    fn refuses(&mut self, millis: u64, by: u8, name: &str) -> io::Result<bool> {
        let (found, sought) = oneshot::channel(self.alloc)?;
        let now = self.at(millis);
        let is_refused = self
            .table
            .seek(now, name, client(by), Waiter { port: 80, found })
            .is_err();
        drop(sought);
        Ok(is_refused)
    }

    fn is_next(&mut self, millis: u64, name: &str) -> io::Result<bool> {
        let now = self.at(millis);
        let Some(next) = self.table.next(now) else {
            return Ok(name.is_empty());
        };
        let is_it = next.name.as_str() == name;
        self.under_way.push(next)?;
        Ok(is_it)
    }

    // Whether the look-up of this name is under way, which ends.
    fn tell(&mut self, millis: u64, name: &str, brought: Brought) -> Result<bool, AllocError> {
        let now = self.at(millis);
        let Some(place) = self
            .under_way
            .iter()
            .position(|it| it.name.as_str() == name)
        else {
            return Ok(false);
        };
        let ended = self.under_way.remove(place);
        let answer = answer_of(self.alloc, brought)?;
        self.table.tell(now, ended.number, answer);
        Ok(true)
    }

    fn passes(&mut self, millis: u64, wanted: Option<u64>) -> bool {
        let now = self.at(millis);
        self.table.pass_time(now) == wanted
    }

    fn was_told(&mut self, place: usize, wanted: &str) -> io::Result<bool> {
        let Some(sought) = self.seekers.get_mut(place) else {
            return Ok(false);
        };
        let told = told(self.alloc, sought)?;
        Ok(told.as_str() == wanted)
    }

    // Takes a step. Returns whether what has to comes of it.
    fn takes(&mut self, step: &Step) -> io::Result<bool> {
        match step {
            Step::Seek(millis, name, port, wanted) => {
                self.seeks(*millis, 0, *name, *port, *wanted)
            }
            Step::SeekBy(millis, by, name, wanted) => self.seeks(*millis, *by, *name, 80, *wanted),
            Step::Refuse(millis, by, name) => self.refuses(*millis, *by, *name),
            Step::Leave => {
                drop(self.seekers.pop());
                Ok(true)
            }
            Step::Next(millis, name) => self.is_next(*millis, *name),
            Step::Tell(millis, name, brought) => Ok(self.tell(*millis, *name, *brought)?),
            Step::Pass(millis, wanted) => Ok(self.passes(*millis, *wanted)),
            Step::Told(place, wanted) => self.was_told(*place, *wanted),
            Step::Count(count) => Ok(self.table.len() == *count),
        }
    }

    // Takes steps up to the first of which something else comes, and returns its place.
    fn first_wrong(&mut self, steps: &[Step]) -> io::Result<Option<usize>> {
        for (place, step) in steps.iter().enumerate() {
            if !self.takes(step)? {
                return Ok(Some(place));
            }
        }
        Ok(None)
    }
}

// What a receiver was told: its addresses, that there is none, or nothing yet.
fn told(alloc: Global, sought: &mut oneshot::Receiver<Addresses>) -> Result<String, AllocError> {
    match sought.try_recv() {
        Ok(Some(addresses)) => shown(alloc, addresses),
        Ok(None) => String::from_str(alloc, "nothing"),
        Err(_) => String::from_str(alloc, "none"),
    }
}

// The addresses, with a blank between them.
fn shown(alloc: Global, addresses: Addresses) -> Result<String, AllocError> {
    let mut text = String::new(alloc);
    for (place, address) in addresses.as_slice().iter().enumerate() {
        if 0 < place {
            text.push_str(" ")?;
        }
        text.push_str(address.to_string(alloc)?.as_str())?;
    }
    Ok(text)
}

// Takes steps with a table of so many names. Fails with the place of the first step of which something else comes, counted from 0.
fn take_steps(rt: &HostRuntime, names: usize, steps: &[Step]) -> Result<(), Fail> {
    let mut trial = Trial::new(rt, limits(names))?;
    let wrong = trial.first_wrong(steps);
    drop(trial);
    match wrong? {
        Some(place) => Err(Fail::new(format_args!("step {place} goes otherwise"))),
        None => Ok(()),
    }
}

const BOTH_KINDS: [Step; 12] = [
    Step::Seek(0, "both", 80, Seeking::Queued),
    Step::Next(0, "both"),
    Step::Tell(0, "both", Brought::Both),
    Step::Told(0, "192.0.2.1:80 [2001:db8::1]:80"),
    Step::Seek(0, "six", 80, Seeking::Queued),
    Step::Next(0, "six"),
    Step::Tell(0, "six", Brought::Six),
    Step::Told(1, "[2001:db8::1]:80"),
    Step::Seek(0, "neither", 80, Seeking::Queued),
    Step::Next(0, "neither"),
    Step::Tell(0, "neither", Brought::Neither),
    Step::Told(2, "none"),
];

/// The address of IPv4 is the first, where there is one.
#[test]
fn both_kinds(rt: HostRuntime) -> Result<(), Fail> {
    take_steps(&rt, 3, &BOTH_KINDS)
}

const JOINED_AND_KEPT: [Step; 12] = [
    Step::Seek(0, "a", 80, Seeking::Queued),
    Step::Seek(0, "a", 81, Seeking::Joined),
    Step::Next(0, "a"),
    Step::Next(0, ""),
    Step::Seek(10, "a", 82, Seeking::Joined),
    Step::Tell(20, "a", Brought::Four),
    Step::Told(0, "192.0.2.1:80"),
    Step::Told(1, "192.0.2.1:81"),
    Step::Told(2, "192.0.2.1:82"),
    Step::Seek(60_019, "a", 83, Seeking::Told),
    Step::Told(3, "192.0.2.1:83"),
    Step::Seek(60_020, "a", 83, Seeking::Queued),
];

/// Who seeks a name that is being looked up joins; all are told at once, each with its port; the answer is kept until it is 60 s old.
#[test]
fn joined_and_kept(rt: HostRuntime) -> Result<(), Fail> {
    take_steps(&rt, 3, &JOINED_AND_KEPT)
}

const FAILURES_ARE_KEPT: [Step; 7] = [
    Step::Seek(0, "a", 80, Seeking::Queued),
    Step::Next(0, "a"),
    Step::Tell(0, "a", Brought::Nothing),
    Step::Told(0, "none"),
    Step::Seek(4_999, "a", 80, Seeking::Told),
    Step::Told(1, "none"),
    Step::Seek(5_000, "a", 80, Seeking::Queued),
];

/// That a name has no address is kept until it is 5 s old.
#[test]
fn failures_are_kept(rt: HostRuntime) -> Result<(), Fail> {
    take_steps(&rt, 3, &FAILURES_ARE_KEPT)
}

const NOBODY_WAITS: [Step; 9] = [
    Step::Seek(0, "a", 80, Seeking::Queued),
    Step::Leave,
    Step::Seek(0, "b", 80, Seeking::Queued),
    Step::Seek(0, "b", 81, Seeking::Joined),
    Step::Leave,
    Step::Next(1, "b"),
    Step::Next(1, ""),
    Step::Leave,
    Step::Seek(2, "a", 80, Seeking::Queued),
];

/// A name that nobody waits for any more is not looked up; one that somebody waits for is.
#[test]
fn nobody_waits(rt: HostRuntime) -> Result<(), Fail> {
    take_steps(&rt, 3, &NOBODY_WAITS)
}

const THE_OLDEST_GOES: [Step; 16] = [
    Step::SeekBy(0, 1, "a", Seeking::Queued),
    Step::Next(0, "a"),
    Step::SeekBy(1, 2, "b", Seeking::Queued),
    Step::Next(1, "b"),
    Step::SeekBy(2, 3, "c", Seeking::Queued),
    Step::Next(2, "c"),
    Step::Refuse(3, 4, "d"),
    Step::Tell(4, "b", Brought::Four),
    Step::Tell(5, "a", Brought::Four),
    Step::SeekBy(6, 4, "d", Seeking::Queued),
    Step::Count(3),
    Step::Seek(7, "a", 80, Seeking::Told),
    Step::Leave,
    Step::Seek(7, "c", 80, Seeking::Joined),
    Step::Leave,
    Step::Refuse(7, 5, "b"),
];

/// The names of which the answers are the oldest go first; one that is sought stays, and so does one with addresses where more than half of
/// the table is sought.
#[test]
fn the_oldest_goes(rt: HostRuntime) -> Result<(), Fail> {
    take_steps(&rt, 3, &THE_OLDEST_GOES)
}

const VAIN_ONES_GO_FIRST: [Step; 13] = [
    Step::SeekBy(0, 1, "a", Seeking::Queued),
    Step::Next(0, "a"),
    Step::Tell(0, "a", Brought::Four),
    Step::SeekBy(1, 1, "b", Seeking::Queued),
    Step::Next(1, "b"),
    Step::Tell(1, "b", Brought::Nothing),
    Step::SeekBy(2, 1, "c", Seeking::Queued),
    Step::Next(2, "c"),
    Step::Tell(2, "c", Brought::Four),
    Step::SeekBy(3, 1, "d", Seeking::Queued),
    Step::Count(3),
    Step::SeekBy(3, 1, "a", Seeking::Told),
    Step::SeekBy(3, 2, "c", Seeking::Told),
];

/// A name that was sought in vain goes before those with addresses, however new.
#[test]
fn vain_ones_go_first(rt: HostRuntime) -> Result<(), Fail> {
    take_steps(&rt, 3, &VAIN_ONES_GO_FIRST)
}

const OLD_WHERE_REFUSED: [Step; 8] = [
    Step::SeekBy(0, 1, "a", Seeking::Queued),
    Step::Next(0, "a"),
    Step::Tell(0, "a", Brought::Four),
    Step::SeekBy(60_000, 1, "b", Seeking::Queued),
    Step::SeekBy(60_000, 1, "c", Seeking::Queued),
    Step::SeekBy(60_000, 1, "a", Seeking::Told),
    Step::Told(3, "192.0.2.1:80"),
    Step::Refuse(60_000, 1, "d"),
];

/// Who may have no more names looked up has the old addresses of one at once.
#[test]
fn old_where_refused(rt: HostRuntime) -> Result<(), Fail> {
    take_steps(&rt, 4, &OLD_WHERE_REFUSED)
}

const OLD_BEFORE_AN_ANSWER: [Step; 9] = [
    Step::Seek(0, "a", 80, Seeking::Queued),
    Step::Next(0, "a"),
    Step::Tell(0, "a", Brought::Four),
    Step::Seek(60_000, "a", 80, Seeking::Queued),
    Step::Next(61_700, "a"),
    Step::Pass(61_799, Some(1)),
    Step::Told(1, "nothing"),
    Step::Pass(61_800, Some(4_900)),
    Step::Told(1, "192.0.2.1:80"),
];

/// The 1.8 s after which old addresses are used begin as they are asked for, also where the name waits for its turn.
#[test]
fn old_before_an_answer(rt: HostRuntime) -> Result<(), Fail> {
    take_steps(&rt, 3, &OLD_BEFORE_AN_ANSWER)
}

const LATE_FAILURES: [Step; 10] = [
    Step::Seek(0, "a", 80, Seeking::Queued),
    Step::Next(0, "a"),
    Step::Pass(5_000, None),
    Step::Told(0, "none"),
    Step::Seek(10_000, "a", 80, Seeking::Queued),
    Step::Next(10_000, "a"),
    Step::Tell(10_001, "a", Brought::Gone),
    Step::Told(1, "nothing"),
    Step::Tell(10_002, "a", Brought::Four),
    Step::Told(1, "192.0.2.1:80"),
];

/// That a name is gone, which a look-up brings that was given up, says nothing to who waits for a later one.
#[test]
fn late_failures(rt: HostRuntime) -> Result<(), Fail> {
    take_steps(&rt, 3, &LATE_FAILURES)
}

const SHARES_OF_NAMES: [Step; 6] = [
    Step::SeekBy(0, 1, "a", Seeking::Queued),
    Step::SeekBy(0, 1, "b", Seeking::Queued),
    Step::Refuse(0, 1, "c"),
    Step::SeekBy(0, 2, "c", Seeking::Queued),
    Step::SeekBy(0, 1, "c", Seeking::Joined),
    Step::Refuse(0, 2, "d"),
];

/// Of four names that may be sought at a time nobody has more than are free for others.
#[test]
fn shares_of_names(rt: HostRuntime) -> Result<(), Fail> {
    take_steps(&rt, 4, &SHARES_OF_NAMES)
}

const TURNS: [Step; 25] = [
    Step::SeekBy(0, 1, "a1", Seeking::Queued),
    Step::SeekBy(0, 1, "a2", Seeking::Queued),
    Step::SeekBy(0, 1, "a3", Seeking::Queued),
    Step::SeekBy(0, 1, "a4", Seeking::Queued),
    Step::SeekBy(0, 2, "b1", Seeking::Queued),
    Step::SeekBy(0, 2, "b2", Seeking::Queued),
    Step::SeekBy(0, 2, "a4", Seeking::Queued),
    Step::SeekBy(0, 2, "a4", Seeking::Joined),
    Step::Next(0, "a1"),
    Step::Next(0, "b1"),
    Step::Next(0, "a2"),
    Step::Next(0, "b2"),
    Step::Next(0, ""),
    Step::SeekBy(0, 3, "a1", Seeking::Joined),
    Step::SeekBy(0, 3, "c1", Seeking::Queued),
    Step::Next(0, "c1"),
    Step::Next(0, ""),
    Step::Tell(1, "b1", Brought::Nothing),
    Step::Next(1, ""),
    Step::Tell(1, "b2", Brought::Nothing),
    Step::Next(1, "a4"),
    Step::Tell(2, "a1", Brought::Nothing),
    Step::Next(2, "a3"),
    Step::Next(2, ""),
    Step::Pass(2, Some(4_998)),
];

/// Those who ask take turns, and each has one more name looked up only while it has fewer under way than threads are free, of five. A
/// name that waits for one's turn is looked up at another's who seeks it too.
#[test]
fn turns(rt: HostRuntime) -> Result<(), Fail> {
    take_steps(&rt, 20, &TURNS)
}

const GIVEN_UP: [Step; 18] = [
    Step::Seek(0, "a", 80, Seeking::Queued),
    Step::Pass(0, Some(5_000)),
    Step::Next(1_000, "a"),
    Step::Pass(5_999, Some(1)),
    Step::Told(0, "nothing"),
    Step::Pass(6_000, None),
    Step::Told(0, "none"),
    Step::Seek(10_999, "a", 80, Seeking::Told),
    Step::Told(1, "none"),
    Step::Seek(11_000, "a", 80, Seeking::Queued),
    Step::Tell(11_100, "a", Brought::Four),
    Step::Told(2, "192.0.2.1:80"),
    Step::Seek(12_000, "b", 80, Seeking::Queued),
    Step::Pass(16_999, Some(1)),
    Step::Told(3, "nothing"),
    Step::Pass(17_000, None),
    Step::Told(3, "none"),
    Step::Seek(17_000, "b", 80, Seeking::Queued),
];

/// A look-up has 5 s, and is a failure then for who waits, whatever its thread does; what it brings later is kept. A name that has waited for
/// its turn for 5 s is given up too, and may be sought at once again.
#[test]
fn given_up(rt: HostRuntime) -> Result<(), Fail> {
    take_steps(&rt, 3, &GIVEN_UP)
}

const OLD_ADDRESSES: [Step; 27] = [
    Step::Seek(0, "a", 80, Seeking::Queued),
    Step::Next(0, "a"),
    Step::Tell(0, "a", Brought::Four),
    Step::Seek(60_000, "a", 80, Seeking::Queued),
    Step::Next(60_000, "a"),
    Step::Pass(61_799, Some(1)),
    Step::Told(1, "nothing"),
    Step::Pass(61_800, Some(3_200)),
    Step::Told(1, "192.0.2.1:80"),
    Step::Seek(61_900, "a", 81, Seeking::Told),
    Step::Told(2, "192.0.2.1:81"),
    Step::Pass(65_000, None),
    Step::Seek(91_799, "a", 82, Seeking::Told),
    Step::Told(3, "192.0.2.1:82"),
    Step::Seek(91_800, "a", 83, Seeking::Queued),
    Step::Next(91_800, "a"),
    Step::Tell(91_900, "a", Brought::Nothing),
    Step::Tell(91_900, "a", Brought::Nothing),
    Step::Told(4, "192.0.2.1:83"),
    Step::Seek(121_899, "a", 84, Seeking::Told),
    Step::Told(5, "192.0.2.1:84"),
    Step::Seek(121_900, "a", 85, Seeking::Queued),
    Step::Next(121_900, "a"),
    Step::Tell(121_950, "a", Brought::Gone),
    Step::Told(6, "none"),
    Step::Seek(126_949, "a", 86, Seeking::Told),
    Step::Seek(126_950, "a", 86, Seeking::Queued),
];

/// What is over its 60 s is asked anew, and used where there is no answer within 1.8 s or a failure, and then not asked for 30 s; a failure that
/// says that the name is gone ends it.
#[test]
fn old_addresses(rt: HostRuntime) -> Result<(), Fail> {
    take_steps(&rt, 3, &OLD_ADDRESSES)
}

const FOR_AN_HOUR: [Step; 11] = [
    Step::Seek(0, "a", 80, Seeking::Queued),
    Step::Next(0, "a"),
    Step::Tell(0, "a", Brought::Four),
    Step::Seek(3_659_999, "a", 80, Seeking::Queued),
    Step::Next(3_659_999, "a"),
    Step::Tell(3_659_999, "a", Brought::Nothing),
    Step::Told(1, "192.0.2.1:80"),
    Step::Seek(3_690_000, "a", 80, Seeking::Queued),
    Step::Next(3_690_000, "a"),
    Step::Tell(3_690_000, "a", Brought::Nothing),
    Step::Told(2, "none"),
];

/// Old addresses are used for an hour at most.
#[test]
fn for_an_hour(rt: HostRuntime) -> Result<(), Fail> {
    take_steps(&rt, 3, &FOR_AN_HOUR)
}
