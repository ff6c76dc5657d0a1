//! The files of both commands.

use crate::progress::ToldFile;
use bpf_check::Checked;
use filter_text::read_program;
use std::fs::File;
use std::io::{BufReader, Read};

/// Maximum size of a program file in octets.
const MOST_OCTETS: u64 = 16 * 1024 * 1024;

/// The number of octets of a capture that are read at a time.
const AT_A_TIME: usize = 32_768;

/// The status of a fault of the filter or the capture.
pub(crate) const FAULT: u8 = 1;

/// Reads the filter program in a file. On a fault prints its line on standard error and returns `None`.
pub(crate) fn program_in(rt: &HostRuntime, file: &str) -> Option<Checked> {
    let Some(octets) = octets_in(rt, file) else {
        let _ = eprintln!(rt; "file fault");
        return None;
    };
    match read_program(rt.alloc(), octets.as_slice()) {
        Ok(program) => Some(program),
        Err(fault) => {
            let _ = eprintln!(rt; "{fault}");
            None
        }
    }
}

/// A reader of the capture in a file. On a fault prints its line on standard error and returns `None`.
pub(crate) fn reader_of<'a>(rt: &'a HostRuntime, file: &str) -> Option<BufReader<ToldFile<'a>>> {
    let Ok(file) = File::open(rt, file) else {
        let _ = eprintln!(rt; "file fault");
        return None;
    };
    let Ok(reader) = BufReader::with_capacity(rt.alloc(), AT_A_TIME, ToldFile::new(rt, file)) else {
        let _ = eprintln!(rt; "no memory");
        return None;
    };
    Some(reader)
}

// The contents of a file; `None` if it cannot be read or is larger than 16 MiB.
fn octets_in(rt: &HostRuntime, file: &str) -> Option<Vec<u8>> {
    let file = File::open(rt, file).ok()?;
    let mut octets = Vec::new(rt.alloc());
    let mut front = file.take(MOST_OCTETS + 1);
    front.read_to_end(&mut octets).ok()?;
    if octets.len() as u64 > MOST_OCTETS {
        return None;
    }
    Some(octets)
}
