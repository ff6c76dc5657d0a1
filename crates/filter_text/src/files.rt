//! Filter programs in the files that a configuration names. Nothing is proved of files.
use crate::fault::ProgramFault;
use crate::file::FilterFile;
use crate::reading::read_program;
use bpf_check::Checked;
use filter_slots::{Slot, Socket};
use std::alloc::AllocGlobal;
use std::fs::{File, Files};
use std::io::Read;
use std::sync::Arc;
use std::{fmt, fs, io};

/// The most octets of a file, as many as a filter that is put in over the administration may have.
const MOST_OCTETS: u64 = 262_144;

/// A filter program and its slot.
#[derive(Drop)]
pub struct Filter {
    pub slot: Slot,
    pub program: Arc<Checked>,
}

/// Why the files give no filters. Except when out of memory it prints as the key of the configuration, the file and the reason.
#[derive(Drop)]
pub enum FilesFault<'a> {
    /// A file can't be read.
    Unreadable {
        file: &'a FilterFile,
        error: io::Error,
    },
    /// It is no regular file: a folder, or something that reading could wait for.
    NoFile {
        file: &'a FilterFile,
    },
    /// A file has over 262,144 octets.
    TooLong {
        file: &'a FilterFile,
    },
    /// A file holds no valid program.
    NoProgram {
        file: &'a FilterFile,
        fault: ProgramFault,
    },
    /// Out of memory.
    NoMemory,
}

/// Reads the programs of all files. Errors: the first fault, by the order of the files.
pub fn read_filters<'a, R: Files + AllocGlobal>(
    rt: &R,
    files: &'a [FilterFile],
) -> Result<Vec<Filter>, FilesFault<'a>> {
    let mut filters = Vec::new(rt.alloc());
    for file in files {
        let filter = read_filter(rt, file)?;
        if filters.push(filter).is_err() {
            return Err(FilesFault::NoMemory);
        }
    }
    Ok(filters)
}

// Reads the program of a file.
fn read_filter<'a, R: Files + AllocGlobal>(
    rt: &R,
    file: &'a FilterFile,
) -> Result<Filter, FilesFault<'a>> {
    let alloc = rt.alloc();
    let text = match octets_of(rt, file.file.as_str()) {
        Ok(Some(text)) => text,
        Ok(None) => return Err(FilesFault::NoFile { file }),
        Err(error) => return Err(FilesFault::Unreadable { file, error }),
    };
    if text.len() as u64 > MOST_OCTETS {
        return Err(FilesFault::TooLong { file });
    }
    let program = match read_program(alloc, text.as_slice()) {
        Ok(program) => program,
        Err(fault) if fault.is_want_of_memory() => return Err(FilesFault::NoMemory),
        Err(fault) => return Err(FilesFault::NoProgram { file, fault }),
    };
    match Arc::new(alloc, program) {
        Ok(program) => Ok(Filter {
            slot: file.slot,
            program,
        }),
        Err(_) => Err(FilesFault::NoMemory),
    }
}

// The octets of a file, and one more than the most at most. `None` if it is no regular file.
fn octets_of<R: Files + AllocGlobal>(rt: &R, path: &str) -> io::Result<Option<Vec<u8>>> {
    if !fs::metadata(rt, path)?.is_file() {
        return Ok(None);
    }
    let file = File::open(rt, path)?;
    let mut octets = Vec::new(rt.alloc());
    let mut front = file.take(MOST_OCTETS + 1);
    front.read_to_end(&mut octets)?;
    Ok(Some(octets))
}

// Prints the key of the configuration that names a file, and the file.
fn write_place<W: fmt::Write>(f: &mut fmt::Formatter<W>, file: &FilterFile) -> fmt::Result {
    match file.slot {
        Slot::Socket(Socket::Icp) => write!(f, "filters.icp: ")?,
        Slot::Socket(Socket::Htcp) => write!(f, "filters.htcp: ")?,
        Slot::Neighbour(n) => write!(f, "filters.neighbours.{n}: ")?,
    }
    write!(f, "{}: ", file.file)
}

impl fmt::Display for FilesFault<'_> {
    fn fmt<W: fmt::Write>(&self, f: &mut fmt::Formatter<W>) -> fmt::Result {
        match self {
            FilesFault::Unreadable { file, error } => {
                write_place(f, file)?;
                write!(f, "{error}")
            }
            FilesFault::NoFile { file } => {
                write_place(f, file)?;
                write!(f, "not a regular file")
            }
            FilesFault::TooLong { file } => {
                write_place(f, file)?;
                write!(f, "over {MOST_OCTETS} octets")
            }
            FilesFault::NoProgram { file, fault } => {
                write_place(f, file)?;
                write!(f, "{fault}")
            }
            FilesFault::NoMemory => write!(f, "out of memory"),
        }
    }
}
