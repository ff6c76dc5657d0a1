//! The descriptors of standard input, standard output and standard error.
use std::fs::File;
use std::os::fd::{AsRawFd, IntoRawFd};

/// Standard input, standard output and standard error.
const STANDARD: i32 = 3;

/// Takes each standard descriptor that is closed, for as long as the program runs. The system gives the lowest free number to what is
/// opened next, so a message for standard error would else go to the first socket or file. What takes it is a folder, open to be read:
/// reading and writing fail as they do on a closed one. Where it can't be opened, the descriptors stay as they are.
pub fn take_closed(rt: &HostRuntime) {
    for _ in 0..STANDARD {
        let Ok(folder) = File::open(rt, "/") else {
            return;
        };
        if STANDARD <= folder.as_raw_fd() {
            return;
        }
        let _ = folder.into_raw_fd();
    }
}
