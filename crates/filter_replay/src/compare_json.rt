//! The results of `replay --compare` as JSON.

use crate::report_json::{address_text, print_json};
use crate::report_text::socket_name;
use replay::{Compared, Differences, Differing};
use serde::Serialize;
use std::alloc::{AllocError, Global};
use std::io;

/// The counts of a socket.
#[derive(Drop, Serialize)]
struct JsonDifferences {
    datagrams: u64,
    first_alone: u64,
    other_alone: u64,
    lengths: u64,
}

/// A datagram in which the two filters differ, with both verdicts.
#[derive(Drop, Serialize)]
struct JsonDiffering {
    record: u64,
    socket: &'static str,
    address: String,
    port: u16,
    octets: usize,
    first: u32,
    other: u32,
}

/// The whole comparison.
#[derive(Drop, Serialize)]
struct JsonCompared {
    icp: JsonDifferences,
    htcp: JsonDifferences,
    both: JsonDifferences,
    partial: u64,
    others: u64,
    differs: Vec<JsonDiffering>,
}

/// Prints where two filters differ as one line of JSON.
pub(crate) fn print_compared_json(rt: &HostRuntime, compared: &Compared) -> io::Result<()> {
    let comparison = &compared.comparison;
    let whole = JsonCompared {
        icp: differences_of(comparison.icp),
        htcp: differences_of(comparison.htcp),
        both: differences_of(comparison.both()),
        partial: comparison.partial,
        others: comparison.others,
        differs: samples_of(rt.alloc(), &compared.samples)?,
    };
    print_json(rt, &whole)
}

// The counts of a socket.
fn differences_of(counts: Differences) -> JsonDifferences {
    JsonDifferences {
        datagrams: counts.datagrams,
        first_alone: counts.first_alone,
        other_alone: counts.other_alone,
        lengths: counts.lengths,
    }
}

// The datagrams in which the two differ.
fn samples_of(alloc: Global, samples: &[Differing]) -> Result<Vec<JsonDiffering>, AllocError> {
    let mut all = Vec::new(alloc);
    for sample in samples.iter() {
        all.push(JsonDiffering {
            record: sample.number,
            socket: socket_name(sample.socket),
            address: address_text(alloc, sample.from.addr)?,
            port: sample.from.port,
            octets: sample.octets,
            first: sample.first,
            other: sample.other,
        })?;
    }
    Ok(all)
}
