//! The results of `replay` as JSON.

use crate::report_text::{RETURN, socket_name};
use bpf_asm::to_text;
use bpf_check::Checked;
use replay::{Counts, Report, Sample, Samples, Share};
use serde::Serialize;
use std::alloc::{AllocError, Global};
use std::io;
use std::net::Ipv4Addr;

/// The counts of a socket.
#[derive(Drop, Serialize)]
struct JsonCounts {
    datagrams: u64,
    accepted: u64,
    rejected: u64,
    cut: u64,
    malformed: u64,
    unfiltered: u64,
}

/// The datagrams of one opcode at a socket.
#[derive(Drop, Serialize)]
struct JsonOpcode {
    socket: &'static str,
    opcode: usize,
    datagrams: u64,
    rejected: u64,
}

/// The datagrams of one sender.
#[derive(Drop, Serialize)]
struct JsonSender {
    address: String,
    datagrams: u64,
    rejected: u64,
}

/// The datagrams of the senders that are not counted one by one.
#[derive(Drop, Serialize)]
struct JsonShare {
    datagrams: u64,
    rejected: u64,
}

/// The runs that one instruction ended.
#[derive(Drop, Serialize)]
struct JsonEnd<'a> {
    place: usize,
    datagrams: u64,
    instruction: &'a str,
}

/// A datagram, with the first octets of its payload in hexadecimal.
#[derive(Drop, Serialize)]
struct JsonSample {
    record: u64,
    socket: &'static str,
    address: String,
    port: u16,
    octets: usize,
    front: String,
}

/// The first datagrams of each kind.
#[derive(Drop, Serialize)]
struct JsonSamples {
    accepted: Vec<JsonSample>,
    cut: Vec<JsonSample>,
    rejected: Vec<JsonSample>,
}

/// The whole report.
#[derive(Drop, Serialize)]
struct JsonReport<'a> {
    icp: JsonCounts,
    htcp: JsonCounts,
    partial: u64,
    others: u64,
    opcodes: Vec<JsonOpcode>,
    senders: Vec<JsonSender>,
    other_senders: JsonShare,
    ends: Vec<JsonEnd<'a>>,
    samples: Option<JsonSamples>,
}

/// Prints what `print_report` prints as one line of JSON.
pub(crate) fn print_report_json(
    rt: &HostRuntime,
    program: &Checked,
    report: &Report,
    show: bool,
) -> io::Result<()> {
    let text = to_text(rt.alloc(), program).map_err(|_| io::Error::from(
        io::ErrorKind::OutOfMemory,
    ))?;
    let mut opcodes = Vec::new(rt.alloc());
    add_opcodes(&mut opcodes, "icp", report.details.icp())?;
    add_opcodes(&mut opcodes, "htcp", report.details.htcp())?;
    let rest = report.details.rest();
    let whole = JsonReport {
        icp: counts_of(&report.tally.icp),
        htcp: counts_of(&report.tally.htcp),
        partial: report.tally.partial,
        others: report.tally.others,
        opcodes,
        senders: senders_of(rt.alloc(), report)?,
        other_senders: JsonShare {
            datagrams: rest.datagrams,
            rejected: rest.rejected,
        },
        ends: ends_of(rt.alloc(), program, text.as_str(), report.details.ends())?,
        samples: if show {
            Some(all_samples_of(rt.alloc(), report)?)
        } else {
            None
        },
    };
    print_json(rt, &whole)
}

/// Prints a value as one line of JSON.
pub(crate) fn print_json<T: Serialize>(rt: &HostRuntime, value: &T) -> io::Result<()> {
    let text = serde_json::to_string(rt.alloc(), value).map_err(|_| io::Error::from(
        io::ErrorKind::OutOfMemory,
    ))?;
    println!(rt; "{text}")
}

/// An address as text.
pub(crate) fn address_text(alloc: Global, address: [u8; 4]) -> Result<String, AllocError> {
    format!(in alloc; "{}", Ipv4Addr::from_octets(address))
}

// The counts of a socket.
fn counts_of(counts: &Counts) -> JsonCounts {
    JsonCounts {
        datagrams: counts.datagrams,
        accepted: counts.accepted(),
        rejected: counts.rejected,
        cut: counts.cut,
        malformed: counts.malformed,
        unfiltered: counts.unfiltered,
    }
}

// Adds the opcodes that occur at a socket.
fn add_opcodes(
    all: &mut Vec<JsonOpcode>,
    socket: &'static str,
    opcodes: &[Share],
) -> Result<(), AllocError> {
    for (opcode, share) in opcodes.iter().enumerate() {
        if share.datagrams > 0 {
            all.push(JsonOpcode {
                socket,
                opcode,
                datagrams: share.datagrams,
                rejected: share.rejected,
            })?;
        }
    }
    Ok(())
}

// The senders with most rejected datagrams.
fn senders_of(alloc: Global, report: &Report) -> Result<Vec<JsonSender>, AllocError> {
    let top = report.details.most_rejected(alloc)?;
    let mut senders = Vec::new(alloc);
    for sender in top.iter() {
        senders.push(JsonSender {
            address: address_text(alloc, sender.address)?,
            datagrams: sender.share.datagrams,
            rejected: sender.share.rejected,
        })?;
    }
    Ok(senders)
}

// Where the runs ended: each return, and each other instruction that ended one. `text` is the program's.
fn ends_of<'a>(
    alloc: Global,
    program: &Checked,
    text: &'a str,
    counts: &[u64],
) -> Result<Vec<JsonEnd<'a>>, AllocError> {
    let mut ends = Vec::new(alloc);
    let mut lines = text.lines();
    for (place, insn) in program.insns().iter().enumerate() {
        let instruction = lines.next().unwrap_or("");
        let datagrams = counts.get(place).copied().unwrap_or(0);
        if datagrams > 0 || insn.code & 7 == RETURN {
            ends.push(JsonEnd {
                place,
                datagrams,
                instruction,
            })?;
        }
    }
    Ok(ends)
}

// The first datagrams of each kind.
fn all_samples_of(alloc: Global, report: &Report) -> Result<JsonSamples, AllocError> {
    Ok(JsonSamples {
        accepted: samples_of(alloc, &report.accepted)?,
        cut: samples_of(alloc, &report.cut)?,
        rejected: samples_of(alloc, &report.rejected)?,
    })
}

// The first datagrams of a kind.
fn samples_of(alloc: Global, samples: &Samples) -> Result<Vec<JsonSample>, AllocError> {
    let mut all = Vec::new(alloc);
    for sample in samples.kept().iter() {
        all.push(sample_of(alloc, sample)?)?;
    }
    Ok(all)
}

// A datagram.
fn sample_of(alloc: Global, sample: &Sample) -> Result<JsonSample, AllocError> {
    Ok(JsonSample {
        record: sample.number,
        socket: socket_name(sample.socket),
        address: address_text(alloc, sample.from.addr)?,
        port: sample.from.port,
        octets: sample.octets,
        front: hex::encode(alloc, &sample.front)?,
    })
}
