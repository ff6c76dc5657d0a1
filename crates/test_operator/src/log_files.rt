//! The thread that writes a log (`access_log::writer`): appending, rotating, failing, and the pace of notices. What a test owns it makes, lends
//! to functions that say whether all holds, and lets go by a call: so no way out has to drop it.
use access_log::writer::{LogCounts, LogDesk, LogPlace, LogTask, Pace, open_log, run_log};
use std::alloc::{AllocError, AllocGlobal};
use std::fs::Files;
use std::io::{Eprint, Print};
use std::sync::Wait;
use std::test::Fail;
use std::thread::{JoinHandle, Threads};
use std::time::{Clock, Duration, Instant, SystemTime};
use std::{fs, io, thread};

// A path of its own for each test and run.
fn path_of(rt: &HostRuntime, name: &str) -> io::Result<String> {
    let now = SystemTime::now(rt)?;
    let nanos = match now.duration_since(SystemTime::UNIX_EPOCH) {
        Ok(since) => since.as_nanos(),
        Err(_) => 0,
    };
    Ok(format!(in rt.alloc(); "/tmp/wabretos_log_{nanos}_{name}")?)
}

// A log in the file at this path.
fn open_at<R: Files + AllocGlobal>(rt: &R, path: &str) -> io::Result<(LogDesk, LogTask<R::File>)> {
    let place = LogPlace::File(String::from_str(rt.alloc(), path)?);
    open_log(rt, rt.alloc(), place)
}

fn offer<R: Wait + AllocGlobal>(rt: &R, desk: &LogDesk, line: &[u8]) -> io::Result<()> {
    desk.offer(rt, line.to_vec(rt.alloc())?);
    Ok(())
}

// Waits until the counts are these. Returns whether they are.
fn comes_to<R: Clock>(rt: &R, desk: &LogDesk, written: u64, lost: u64) -> bool {
    for _ in 0..2_000u32 {
        if desk.counts() == (LogCounts { written, lost }) {
            return true;
        }
        thread::sleep(rt, Duration::from_millis(5));
    }
    false
}

fn content<R: Files + AllocGlobal>(rt: &R, path: &str) -> io::Result<Vec<u8>> {
    let octets = fs::read(rt, path)?;
    fs::remove_file(rt, path)?;
    Ok(octets)
}

// Whether a file has these octets. Removes it.
fn contains<R: Files + AllocGlobal>(rt: &R, path: &str, wanted: &[u8]) -> io::Result<bool> {
    let found = content(rt, path)?;
    let is_same = found.as_slice() == wanted;
    drop(found);
    Ok(is_same)
}

// A log that a thread writes.
#[derive(Drop)]
struct Writing {
    desk: LogDesk,
    thread: JoinHandle<()>,
}

// Starts the thread that writes what was offered, unless that failed.
fn start<R>(rt: R, offered: io::Result<LogDesk>, task: LogTask<R::File>) -> io::Result<Writing>
where
    R: Threads + Wait + Files + Print + Eprint + Copy + Send + 'static,
    R::File: Send + 'static,
    R::Dir: Send + 'static,
{
    let desk = match offered {
        Ok(desk) => desk,
        Err(fault) => {
            drop(task);
            return Err(fault);
        }
    };
    match thread::spawn(&rt, move || run_log(&rt, task)) {
        Ok(thread) => Ok(Writing { desk, thread }),
        Err(refused) => {
            drop(refused);
            drop(desk);
            Err(AllocError.into())
        }
    }
}

// Waits for the thread to write the rest.
fn end<R: Threads>(rt: &R, writing: Writing) {
    let Writing { desk, thread } = writing;
    drop(desk);
    thread.join(rt);
}

// Fills a log by turns, and offers it one line more.
fn offer_by_turns<R: Wait + AllocGlobal>(
    rt: &R,
    desk: &LogDesk,
    other: &LogDesk,
) -> io::Result<()> {
    for _ in 0..2_048u32 {
        offer(rt, desk, b"one\n")?;
        offer(rt, other, b"two\n")?;
    }
    offer(rt, desk, b"lost\n")
}

// Fills a log, and returns a share of the desk that it drops.
fn filled<R: Wait + AllocGlobal>(rt: &R, desk: LogDesk) -> io::Result<LogDesk> {
    let other = match desk.share() {
        Ok(other) => other,
        Err(fault) => {
            drop(desk);
            return Err(fault.into());
        }
    };
    let offered = offer_by_turns(rt, &desk, &other);
    desk.reopen(rt);
    drop(desk);
    match offered {
        Ok(()) => Ok(other),
        Err(fault) => {
            drop(other);
            Err(fault)
        }
    }
}

// Whether the file has what was in it before, and the lines behind it.
fn has_appended<R: Files + AllocGlobal>(rt: &R, path: &str) -> io::Result<bool> {
    let mut wanted = b"before\n".to_vec(rt.alloc())?;
    for _ in 0..2_048u32 {
        wanted.extend_from_slice(b"one\ntwo\n")?;
    }
    let found = contains(rt, path, wanted.as_slice());
    drop(wanted);
    found
}

fn appends<R>(rt: R, path: &str) -> io::Result<bool>
where
    R: Threads + Wait + Files + Print + Eprint + Clock + AllocGlobal + Copy + Send + 'static,
    R::File: Send + 'static,
    R::Dir: Send + 'static,
{
    fs::write(&rt, path, "before\n")?;
    let (desk, task) = open_at(&rt, path)?;
    let writing = start(rt, filled(&rt, desk), task)?;
    let are_written = comes_to(&rt, &writing.desk, 4_096, 1);
    end(&rt, writing);
    Ok(are_written && has_appended(&rt, path)?)
}

// What was in the file stays, lines come behind it in order, and at the end the rest is written. A line that finds no room is
// lost.
#[test]
fn lines_are_appended_and_the_rest_is_lost(rt: HostRuntime) -> Result<(), Fail> {
    let path = path_of(&rt, "full")?;
    let appends = appends(rt, path.as_str());
    drop(path);
    assert!(rt; appends?);
    Ok(())
}

// Whether a line that is offered is written as the one of this number.
fn is_written<R: Wait + Clock + AllocGlobal>(
    rt: &R,
    desk: &LogDesk,
    line: &[u8],
    number: u64,
) -> io::Result<bool> {
    offer(rt, desk, line)?;
    Ok(comes_to(rt, desk, number, 0))
}

// Moves a file away, and puts a folder in its place.
fn move_away<R: Files>(rt: &R, path: &str, old: &str) -> io::Result<()> {
    fs::rename(rt, path, old)?;
    fs::create_dir(rt, path)
}

// Whether the first line is written, and the second where the file was moved away and cannot be opened anew. Offers a third once it
// can.
fn writes_on<R: Wait + Files + Clock + AllocGlobal>(
    rt: &R,
    desk: &LogDesk,
    path: &str,
    old: &str,
) -> io::Result<bool> {
    let is_first = is_written(rt, desk, b"first\n", 1)?;
    move_away(rt, path, old)?;
    desk.reopen(rt);
    let is_second = is_written(rt, desk, b"second\n", 2)?;
    fs::remove_dir(rt, path)?;
    desk.reopen(rt);
    offer(rt, desk, b"third\n")?;
    Ok(is_first && is_second)
}

// Whether both files have the lines that were offered for them.
fn have_lines<R: Files + AllocGlobal>(rt: &R, path: &str, old: &str) -> io::Result<bool> {
    Ok(contains(rt, old, b"first\nsecond\n")? && contains(rt, path, b"third\n")?)
}

fn rotates<R>(rt: R, path: &str, old: &str) -> io::Result<bool>
where
    R: Threads + Wait + Files + Print + Eprint + Clock + AllocGlobal + Copy + Send + 'static,
    R::File: Send + 'static,
    R::Dir: Send + 'static,
{
    let (desk, task) = open_at(&rt, path)?;
    let writing = start(rt, Ok(desk), task)?;
    let writes_on = writes_on(&rt, &writing.desk, path, old);
    end(&rt, writing);
    Ok(writes_on? && have_lines(&rt, path, old)?)
}

// Lines that are offered after the file is opened anew are in the new one. Where it cannot be, the old one goes on.
#[test]
fn a_file_is_rotated(rt: HostRuntime) -> Result<(), Fail> {
    let path = path_of(&rt, "rotated")?;
    let old = format!(in rt.alloc(); "{path}.1")?;
    let rotates = rotates(rt, path.as_str(), old.as_str());
    drop(old);
    drop(path);
    assert!(rt; rotates?);
    Ok(())
}

// Whether the file at this path cannot be opened.
fn is_refused<R: Files + AllocGlobal>(rt: &R, path: &str) -> bool {
    let opened = open_at(rt, path);
    let is_refused = opened.is_err();
    drop(opened);
    is_refused
}

// Whether one of five long lines is lost.
fn loses_one<R: Wait + AllocGlobal>(rt: &R, desk: &LogDesk) -> io::Result<bool> {
    for _ in 0..5u32 {
        let line = vec![in rt.alloc(); b'x'; 4_194_304]?;
        desk.offer(rt, line);
    }
    Ok(
        desk.counts()
            == LogCounts {
                written: 0,
                lost: 1,
            },
    )
}

// Whether lines that are too many octets are lost before any is written.
fn loses_long_lines<R: Wait + Files + AllocGlobal>(rt: &R) -> io::Result<bool> {
    let (desk, task) = open_at(rt, "/dev/full")?;
    let loses_one = loses_one(rt, &desk);
    drop(task);
    drop(desk);
    loses_one
}

// Offers two lines.
fn with_two_lines<R: Wait + AllocGlobal>(rt: &R, desk: LogDesk) -> io::Result<LogDesk> {
    let offered = (offer(rt, &desk, b"one\n"), offer(rt, &desk, b"two\n"));
    match offered {
        (Ok(()), Ok(())) => Ok(desk),
        (Err(fault), _) | (_, Err(fault)) => {
            drop(desk);
            Err(fault)
        }
    }
}

// Whether the two lines that were offered are lost, and a third one.
fn loses_three<R: Wait + Clock + AllocGlobal>(rt: &R, desk: &LogDesk) -> io::Result<bool> {
    let loses_two = comes_to(rt, desk, 0, 2);
    offer(rt, desk, b"three\n")?;
    Ok(loses_two && comes_to(rt, desk, 0, 3))
}

// Whether lines that cannot be written are lost.
fn loses_unwritten_lines<R>(rt: R) -> io::Result<bool>
where
    R: Threads + Wait + Files + Print + Eprint + Clock + AllocGlobal + Copy + Send + 'static,
    R::File: Send + 'static,
    R::Dir: Send + 'static,
{
    let (desk, task) = open_at(&rt, "/dev/full")?;
    let writing = start(rt, with_two_lines(&rt, desk), task)?;
    let loses_three = loses_three(&rt, &writing.desk);
    end(&rt, writing);
    loses_three
}

// A file that cannot be opened is told at once. Lines that are too many octets, or that cannot be written, are lost and counted.
#[test]
fn lines_are_lost_where_nothing_can_be_written(rt: HostRuntime) -> Result<(), Fail> {
    assert!(rt; is_refused(&rt, "/nowhere/access.log"));
    assert!(rt; loses_long_lines(&rt)?);
    assert!(rt; loses_unwritten_lines(rt)?);
    Ok(())
}

// The moment so many milliseconds after another.
fn after(start: Instant, millis: u64) -> Instant {
    start
        .checked_add(Duration::from_millis(millis))
        .unwrap_or(start)
}

// Milliseconds after the first line, and how many lines were left out before the one that is admitted then, if it is.
const ADMITTED: [(u64, Option<u64>); 5] = [
    (20, None),
    (999, None),
    (1_000, Some(2)),
    (1_001, Some(0)),
    (5_000, Some(0)),
];

// Whether twenty lines are admitted, one each millisecond.
fn admits_twenty(pace: &mut Pace, start: Instant) -> bool {
    for millis in 0..20u64 {
        if pace.admit(after(start, millis)) != Some(0) {
            return false;
        }
    }
    true
}

// Whether the lines behind these are admitted as they should be.
fn admits_rows(pace: &mut Pace, start: Instant) -> bool {
    for (millis, left_out) in &ADMITTED {
        if pace.admit(after(start, *millis)) != *left_out {
            return false;
        }
    }
    true
}

// Twenty lines of a second are admitted. The first of the next second tells how many were left out.
#[test]
fn lines_are_paced(rt: HostRuntime) -> Result<(), Fail> {
    let start = Instant::now(&rt)?;
    let mut pace = Pace::new(20);
    let are_paced = admits_twenty(&mut pace, start) && admits_rows(&mut pace, start);
    drop(pace);
    assert!(rt; are_paced);
    Ok(())
}
