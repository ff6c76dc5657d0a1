//! Lines for standard error where nothing waits for long for what it goes to.
use crossbeam_channel::bounded;
use std::alloc::AllocGlobal;
use std::io::Eprint;
use std::sync::Wait;
use std::thread;
use std::thread::Threads;
use std::time::{Clock, Duration};

/// How many seconds the program waits for standard error.
const GRACE: u64 = 5;

/// Prints lines on standard error, by a thread of its own. Returns once they are written, or after some seconds; a thread that still
/// waits then ends with the program.
pub(crate) fn tell<R>(rt: R, lines: String)
where
    R: Threads + Wait + Clock + AllocGlobal + Eprint + Copy + Send + 'static,
{
    let Ok((end, written)) = bounded(rt.alloc(), 1) else {
        return;
    };
    let write = move || {
        let _ = eprintln!(rt; "{lines}");
        let _ = end.send(&rt, ());
    };
    let Ok(thread) = thread::spawn(&rt, write) else {
        return;
    };
    if written
        .recv_timeout(&rt, Duration::from_secs(GRACE))
        .is_ok()
    {
        thread.join(&rt);
    }
}
