//! In-memory readers and writers.
ghost use Rattle.std.specs.Prelude.{None};

use std::cell::Cell;
use std::io;
use std::io::{ErrorKind, Read, Write};

/// A reader that returns up to five octets per call, and `fault` at call number `fail_at`, counted from 1.
#[derive(Drop)]
pub(crate) struct Source<'a> {
    pub(crate) rest: &'a [u8],
    pub(crate) calls: u64,
    pub(crate) fail_at: u64,
    pub(crate) fault: ErrorKind,
}

impl Read for Source<'_> {
    ghost remaining = { λ _. None };

    fn read(&mut self, buf: &mut [u8]) -> io::Result<usize> {
        self.calls = self.calls.wrapping_add(1);
        if self.calls == self.fail_at {
            return Err(io::Error::from(self.fault));
        }
        let n = self.rest.len().min(buf.len()).min(5);
        let (front, rest) = self.rest.split_at(n);
        buf[..n].copy_from_slice(front);
        self.rest = rest;
        Ok(n)
    }
}

/// A writer that takes up to three octets per call, and returns `fault` at call number `fail_at`, counted from 1.
#[derive(Drop)]
pub(crate) struct Sink {
    pub(crate) held: Vec<u8>,
    pub(crate) calls: u64,
    pub(crate) fail_at: u64,
    pub(crate) fault: ErrorKind,
}

impl Write for Sink {
    ghost contents = { λ _. None };

    fn write(&mut self, buf: &[u8]) -> io::Result<usize> {
        self.calls = self.calls.wrapping_add(1);
        if self.calls == self.fail_at {
            return Err(io::Error::from(self.fault));
        }
        let n = buf.len().min(3);
        self.held.extend_from_slice(&buf[..n])?;
        Ok(n)
    }

    fn flush(&mut self) -> io::Result<()> {
        Ok(())
    }
}

/// A reader of `left` octets: comment lines of 1,000 octets each.
#[derive(Drop)]
pub(crate) struct Comments {
    pub(crate) left: u64,
    pub(crate) place: u64,
}

impl Read for Comments {
    ghost remaining = { λ _. None };

    fn read(&mut self, buf: &mut [u8]) -> io::Result<usize> {
        let n = self.left.min(buf.len() as u64) as usize;
        let mut place = self.place;
        for octet in buf[..n].iter_mut() {
            place = place.wrapping_add(1);
            *octet = if place % 1_000 == 0 { b'\n' } else { b'#' };
        }
        self.place = place;
        self.left = self.left.wrapping_sub(n as u64);
        Ok(n)
    }
}

/// A line, and the number of octets that must have been written before it is read.
pub(crate) struct Due {
    pub(crate) written: u64,
    pub(crate) line: &'static [u8],
}

/// A reader that returns one line per call and records whether one was read too early.
#[derive(Drop)]
pub(crate) struct Asked<'a> {
    pub(crate) lines: &'a [Due],
    pub(crate) written: &'a Cell<u64>,
    pub(crate) early: bool,
}

impl Read for Asked<'_> {
    ghost remaining = { λ _. None };

    fn read(&mut self, buf: &mut [u8]) -> io::Result<usize> {
        let [due, lines @ ..] = self.lines else {
            return Ok(0);
        };
        self.early = self.early || self.written.get() < due.written;
        self.lines = lines;
        let n = due.line.len().min(buf.len());
        buf[..n].copy_from_slice(&due.line[..n]);
        Ok(n)
    }
}

/// A writer that counts the octets.
#[derive(Drop)]
pub(crate) struct Counted<'a> {
    pub(crate) written: &'a Cell<u64>,
}

impl Write for Counted<'_> {
    ghost contents = { λ _. None };

    fn write(&mut self, buf: &[u8]) -> io::Result<usize> {
        let written = self.written.get().wrapping_add(buf.len() as u64);
        self.written.set(written);
        Ok(buf.len())
    }

    fn flush(&mut self) -> io::Result<()> {
        Ok(())
    }
}

/// A writer that counts its flushes, and fails at each one if `fails`.
#[derive(Drop)]
pub(crate) struct Flushed<'a> {
    pub(crate) flushes: &'a Cell<u64>,
    pub(crate) fails: bool,
}

impl Write for Flushed<'_> {
    ghost contents = { λ _. None };

    fn write(&mut self, buf: &[u8]) -> io::Result<usize> {
        Ok(buf.len())
    }

    fn flush(&mut self) -> io::Result<()> {
        self.flushes.set(self.flushes.get().wrapping_add(1));
        if self.fails {
            return Err(io::Error::from(ErrorKind::Other));
        }
        Ok(())
    }
}
