//! The access log: a line for each request, handed to the thread that writes.
use crate::clock::wall_millis;
use access_log::writer::LogDesk;
use access_log::{Course, Entry, Form, Supplier, line_of};
use http_traffic as traffic;
use http_traffic::{Asked, Forward, How, Told};
use std::alloc::Global;
use std::sync::Wait;
use std::time::Clock;

/// The access log: where lines go, and their form.
pub struct AccessLog {
    pub desk: LogDesk,
    pub form: Form,
}

// Written by hand, so that what lets it go is one call for the prover (docs/GATE.md).
impl Drop for AccessLog {
    fn drop(self) {
        let Self { desk: _, form: _ } = self;
    }
}

impl AccessLog {
    /// Hands the line of what became of a request, which was answered like this and took so many milliseconds, to the thread that
    /// writes. Where there is no memory for it, it is not written.
    pub fn write<R: Wait + Clock>(
        &self,
        rt: &R,
        alloc: Global,
        told: &Told<'_>,
        how: How,
        taken: u64,
    ) {
        let entry = entry_of(told, how, wall_millis(rt), taken);
        if let Ok(line) = line_of(alloc, self.form, &entry) {
            self.desk.offer(rt, line);
        }
    }
}

// What became of a request, as the log takes it.
fn entry_of<'a>(told: &Told<'a>, how: How, millis: u64, taken: u64) -> Entry<'a> {
    Entry {
        millis,
        client: told.from,
        method: match told.asked {
            Some(asked) => asked.method.as_bytes(),
            None => b"",
        },
        url: match told.asked {
            Some(asked) => asked.target.as_bytes(),
            None => b"",
        },
        referer: field_of(told.asked, "referer"),
        agent: field_of(told.asked, "user-agent"),
        status: told.status,
        octets: told.octets,
        taken,
        course: course_of(how),
        supplier: match told.supplier {
            Some(supplier) => Some(supplier_of(supplier)),
            None => None,
        },
        is_whole: told.is_whole,
    }
}

fn course_of(how: How) -> Course {
    match how {
        How::Hit => Course::Hit,
        How::Fetch(Forward::Miss) => Course::Miss,
        How::Fetch(Forward::Collapsed) => Course::Collapsed,
        How::Fetch(Forward::Bypass) | How::Passed => Course::Bypass,
        How::Own => Course::Own,
    }
}

fn supplier_of(supplier: traffic::Supplier) -> Supplier {
    match supplier {
        traffic::Supplier::Origin | traffic::Supplier::Confirmed | traffic::Supplier::Stale(_) =>
            Supplier::Origin,
        traffic::Supplier::Neighbour(place) => Supplier::Neighbour(place),
    }
}

// The value of a request's field; empty where there is none.
fn field_of<'a>(asked: Option<&'a Asked>, name: &str) -> &'a [u8] {
    let Some(asked) = asked else {
        return b"";
    };
    match asked.head.get(name) {
        Some(value) => value.as_bytes(),
        None => b"",
    }
}
