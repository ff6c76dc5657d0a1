//! Where lines are written to.
use std::fs::{Files, OpenOptions};
use std::io;
use std::io::{Eprint, ErrorKind, Print, Write};
use std::os::unix::fs::OpenOptionsExt;

/// The permissions of a file that is created: its owner writes, and its group reads.
const MODE: u32 = 0o640;

/// Where a log is written.
#[derive(Drop)]
pub enum LogPlace {
    /// Standard output.
    Output,
    /// Standard error. The lines have to be UTF-8; of a write that fails it isn't known how much is written.
    Errors,
    /// The file at this path, which is appended to.
    File(String),
}

/// What is open.
#[derive(Drop)]
pub(crate) enum Opened<F> {
    Output,
    Errors,
    File(F),
}

/// Opens a place. A file that is not there is created. Errors: those of the system.
pub(crate) fn open_place<R: Files>(rt: &R, place: &LogPlace) -> io::Result<Opened<R::File>> {
    match place {
        LogPlace::Output => Ok(Opened::Output),
        LogPlace::Errors => Ok(Opened::Errors),
        LogPlace::File(path) => {
            let mut options = OpenOptions::new();
            options.append(true).create(true).mode(MODE);
            let file = options.open(rt, path.as_str())?;
            Ok(Opened::File(file))
        }
    }
}

// Writes these octets to standard error. Errors: they are not UTF-8, or those of the system.
fn write_errors<R: Eprint>(rt: &R, octets: &[u8]) -> io::Result<usize> {
    let Ok(text) = str::from_utf8(octets) else {
        return Err(io::Error::from(ErrorKind::InvalidData));
    };
    rt.eprint(text)?;
    Ok(octets.len())
}

// Writes some of these octets. Returns how many.
fn write_some<R: Print + Eprint, F: Write>(
    rt: &R,
    opened: &mut Opened<F>,
    octets: &[u8],
) -> io::Result<usize> {
    match opened {
        Opened::Output => rt.write_some(octets),
        Opened::Errors => write_errors(rt, octets),
        Opened::File(file) => file.write(octets),
    }
}

/// Writes these octets. Returns how many of them are written, and the error if that is not all.
pub(crate) fn write_out<R: Print + Eprint, F: Write>(
    rt: &R,
    opened: &mut Opened<F>,
    octets: &[u8],
) -> (usize, io::Result<()>) {
    let mut rest = octets;
    for _ in 0..u64::MAX {
        if rest.is_empty() {
            break;
        }
        match write_some(rt, opened, rest) {
            Ok(0) => {
                let error = io::Error::from(ErrorKind::WriteZero);
                return (octets.len().saturating_sub(rest.len()), Err(error));
            }
            Ok(count) => rest = rest.get(count..).unwrap_or(&[]),
            Err(error) if error.kind() == ErrorKind::Interrupted => {}
            Err(error) => return (octets.len().saturating_sub(rest.len()), Err(error)),
        }
    }
    (octets.len(), Ok(()))
}
