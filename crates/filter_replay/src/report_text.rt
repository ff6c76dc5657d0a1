//! The lines of `replay`.

use bpf_asm::to_text;
use bpf_check::Checked;
use bpf_run::Socket;
use replay::{Counts, Report, Samples, Share};
use std::io::{self, Write};
use std::net::Ipv4Addr;

/// The lower three bits of a return's code.
pub(crate) const RETURN: u16 = 6;

/// Prints the counts, by socket, opcode, sender and instruction, and the samples if they are asked for.
pub(crate) fn print_report(
    rt: &HostRuntime,
    program: &Checked,
    report: &Report,
    show: bool,
) -> io::Result<()> {
    print_counts(rt, "icp", &report.tally.icp)?;
    print_counts(rt, "htcp", &report.tally.htcp)?;
    println!(rt; "partial {}", report.tally.partial)?;
    println!(rt; "others {}", report.tally.others)?;
    print_opcodes(rt, "icp", report.details.icp())?;
    print_opcodes(rt, "htcp", report.details.htcp())?;
    print_senders(rt, report)?;
    print_ends(rt, program, report.details.ends())?;
    if show {
        print_samples(rt, "accepted", &report.accepted)?;
        print_samples(rt, "cut", &report.cut)?;
        print_samples(rt, "rejected", &report.rejected)?;
    }
    Ok(())
}

// The counts of a socket.
fn print_counts(rt: &HostRuntime, socket: &str, counts: &Counts) -> io::Result<()> {
    println!(rt;
        "{socket} datagrams {} accepted {} rejected {} cut {} malformed {} unfiltered {}",
        counts.datagrams,
        counts.accepted(),
        counts.rejected,
        counts.cut,
        counts.malformed,
        counts.unfiltered
    )
}

// The opcodes that occur at a socket.
fn print_opcodes(rt: &HostRuntime, socket: &str, opcodes: &[Share]) -> io::Result<()> {
    for (opcode, share) in opcodes.iter().enumerate() {
        if share.datagrams > 0 {
            println!(rt;
                "opcode {socket} {opcode} datagrams {} rejected {}",
                share.datagrams, share.rejected
            )?;
        }
    }
    Ok(())
}

// The senders with most rejected datagrams.
fn print_senders(rt: &HostRuntime, report: &Report) -> io::Result<()> {
    let senders = report.details.most_rejected(rt.alloc())?;
    for sender in senders.iter() {
        println!(rt;
            "sender {} datagrams {} rejected {}",
            Ipv4Addr::from_octets(sender.address),
            sender.share.datagrams,
            sender.share.rejected
        )?;
    }
    let rest = report.details.rest();
    if rest.datagrams > 0 {
        println!(rt;
            "senders not counted one by one: datagrams {} rejected {}",
            rest.datagrams, rest.rejected
        )?;
    }
    Ok(())
}

// Where the runs ended: each return, and each other instruction that ended one.
fn print_ends(rt: &HostRuntime, program: &Checked, ends: &[u64]) -> io::Result<()> {
    let text = to_text(rt.alloc(), program).map_err(|_| io::Error::from(
        io::ErrorKind::OutOfMemory,
    ))?;
    let mut lines = text.lines();
    for (place, insn) in program.insns().iter().enumerate() {
        let line = lines.next().unwrap_or("");
        let count = ends.get(place).copied().unwrap_or(0);
        if count > 0 || insn.code & 7 == RETURN {
            println!(rt; "end {place} datagrams {count}: {line}")?;
        }
    }
    Ok(())
}

// The first datagrams of a kind.
fn print_samples(rt: &HostRuntime, kind: &str, samples: &Samples) -> io::Result<()> {
    for sample in samples.kept().iter() {
        let front = hex::encode(rt.alloc(), &sample.front)?;
        println!(rt;
            "{kind} record {} {} from {}:{} octets {}: {front}",
            sample.number,
            socket_name(sample.socket),
            Ipv4Addr::from_octets(sample.from.addr),
            sample.from.port,
            sample.octets
        )?;
    }
    Ok(())
}

/// The name of a socket.
pub(crate) fn socket_name(socket: Socket) -> &'static str {
    match socket {
        Socket::Icp => "icp",
        Socket::Htcp => "htcp",
    }
}
