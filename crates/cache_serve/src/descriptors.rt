//! The files that the program may open.
use libc::types::rlimit;

/// The files that the program may open: the soft limit. `None` if there is none, or if it can't be read.
pub fn most_files() -> Option<usize> {
    let mut limit = rlimit {
        rlim_cur: 0,
        rlim_max: 0,
    };
    if libc::getrlimit(libc::RLIMIT_NOFILE, &mut limit) != 0 {
        return None;
    }
    let files = limit.rlim_cur;
    if files == u64::MAX {
        None
    } else {
        Some(files as usize)
    }
}
