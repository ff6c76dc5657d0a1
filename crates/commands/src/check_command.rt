//! The command `check`: prints the filter program in a file, or the line of its fault.

use crate::NO_OUTPUT;
use filter_text::{accepted_text, is_for_ethernet, read_program, script_text};
use std::fmt::Display;
use std::fs::File;
use std::io::Read;
use std::process::ExitCode;

/// Maximum size of a program file in octets.
const MOST_OCTETS: u64 = 16 * 1024 * 1024;

/// The warning about a program whose offsets are those of Ethernet frames.
const FOR_ETHERNET: &str =
    "warning: this looks made for Ethernet frames, and would misjudge datagrams; use tcpdump -y RAW";

/// Prints the program in a file on standard output, and in the form of a script on standard error, there perhaps after a warning. If the file is not a valid
/// program, prints the line of the fault on standard output and fails.
pub fn run_check(rt: &HostRuntime, file: &str) -> ExitCode {
    let Some(octets) = read_file(rt, file) else {
        return refuse(rt, "file fault");
    };
    let program = match read_program(rt.alloc(), octets.as_slice()) {
        Ok(program) => program,
        Err(fault) => return refuse(rt, fault),
    };
    let Some(text) = accepted_text(rt.alloc(), &program) else {
        return refuse(rt, "assembler fault 9");
    };
    if is_for_ethernet(&program) {
        let _ = eprintln!(rt; "{FOR_ETHERNET}");
    }
    if let Some(script) = script_text(rt.alloc(), &program) {
        let _ = eprintln!(rt; "script: {script}");
    }
    match print!(rt; "{text}") {
        Ok(()) => ExitCode::SUCCESS,
        Err(_) => {
            let _ = eprintln!(rt; "{NO_OUTPUT}");
            ExitCode::FAILURE
        }
    }
}

/// Prints the line of a fault; the exit status is failure.
fn refuse<T: Display + Drop>(rt: &HostRuntime, fault: T) -> ExitCode {
    if println!(rt; "{fault}").is_err() {
        let _ = eprintln!(rt; "{NO_OUTPUT}");
    }
    ExitCode::FAILURE
}

/// The contents of a file; `None` if it cannot be read or is larger than 16 MiB.
fn read_file(rt: &HostRuntime, file: &str) -> Option<Vec<u8>> {
    let file = File::open(rt, file).ok()?;
    let mut octets = Vec::new(rt.alloc());
    let mut front = file.take(MOST_OCTETS + 1);
    front.read_to_end(&mut octets).ok()?;
    if octets.len() as u64 > MOST_OCTETS {
        return None;
    }
    Some(octets)
}
