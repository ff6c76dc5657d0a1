//! How much of a large capture is read.

use std::fs::File;
use std::io::{self, IsTerminal, Read};

/// The number of octets in a MiB.
const MEBIOCTET: u64 = 1024 * 1024;

/// Nothing is told of a file with at most so many octets.
const SMALL: u64 = 64 * MEBIOCTET;

/// The number of octets after which more is told.
const STEP: u64 = 16 * MEBIOCTET;

/// A file whose reading is told on standard error, if it has more than 64 MiB and standard error is a terminal.
#[derive(Drop)]
pub(crate) struct ToldFile<'a> {
    rt: &'a HostRuntime,
    file: File,
    // The number of its octets, or `None` if nothing is told.
    size: Option<u64>,
    // The number of octets that were read, and of those when it was told last.
    read: u64,
    told: u64,
}

impl<'a> ToldFile<'a> {
    /// A file of which nothing is read yet.
    pub(crate) fn new(rt: &'a HostRuntime, file: File) -> ToldFile<'a> {
        let size = told_size(rt, &file);
        ToldFile {
            rt,
            file,
            size,
            read: 0,
            told: 0,
        }
    }

    /// Ends the line on which it was told, if there is one.
    pub(crate) fn end_line(&mut self) {
        if self.told > 0 {
            let _ = eprintln!(self.rt; "");
        }
        self.told = 0;
        self.size = None;
    }

    // Tells it where enough more was read. The line is written over each time.
    fn tell(&mut self, more: usize) {
        let Some(size) = self.size else {
            return;
        };
        self.read = self.read.saturating_add(more as u64);
        if self.read.saturating_sub(self.told) >= STEP {
            self.told = self.read;
            let _ = eprint!(self.rt;
                "\rread {} of {} MiB",
                self.read / MEBIOCTET,
                size / MEBIOCTET
            );
        }
    }
}

impl Read for ToldFile<'_> {
    fn read(&mut self, buf: &mut [u8]) -> io::Result<usize> {
        let count = self.file.read(buf)?;
        self.tell(count);
        Ok(count)
    }
}

// The file's size, if its reading is told.
fn told_size(rt: &HostRuntime, file: &File) -> Option<u64> {
    let size = file.metadata().ok()?.len();
    if size > SMALL && rt.stderr().is_terminal() {
        Some(size)
    } else {
        None
    }
}
