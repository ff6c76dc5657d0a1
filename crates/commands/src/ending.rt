//! What `serve` tells at its end, where nothing waits for long for what standard error goes to.
use crate::patience::tell;
use proxy_setup::Finish;
use std::alloc::{AllocError, AllocGlobal, Global};
use std::io::Eprint;
use std::sync::Wait;
use std::thread::Threads;
use std::time::Clock;

/// Prints whether lines of the access log are lost, and how many events were settled if an administrator ended the proxy; nothing
/// where standard error takes nothing, or where memory runs out.
pub fn tell_finish<R>(rt: R, finish: &Finish)
where
    R: Threads + Wait + Clock + AllocGlobal + Eprint + Copy + Send + 'static,
{
    if !finish.is_told {
        return;
    }
    if let Ok(Some(lines)) = lines_of(rt.alloc(), finish) {
        tell(rt, lines);
    }
}

/// The lines about an end, without the last line break. `None` if there are none. Errors: out of memory.
fn lines_of(alloc: Global, finish: &Finish) -> Result<Option<String>, AllocError> {
    let mut lines = String::new(alloc);
    if !finish.is_logged {
        lines.push_str("access log: the last lines are lost: nothing takes them")?;
    }
    if finish.was_asked {
        let count = finish.report.count;
        let between = if lines.is_empty() { "" } else { "\n" };
        write!(lines, "{between}stopped, {count} events settled")?;
    }
    Ok(if lines.is_empty() { None } else { Some(lines) })
}
