//! `replay --compare`: where two filters differ.

use crate::compare_json::print_compared_json;
use crate::files::{FAULT, program_in, reader_of};
use crate::options::Options;
use crate::report_text::socket_name;
use bpf_check::Checked;
use replay::{Compared, Differences, Differing, Pair, compare};
use std::io;
use std::net::Ipv4Addr;
use std::process::ExitCode;

/// Runs the program and that in another file over the capture, and prints where the two differ. The status is 1 after a fault, and
/// else 0, whether they differ or not.
pub(crate) fn run_compare(
    rt: &HostRuntime,
    first: &Checked,
    other: &str,
    capture: &str,
    options: &Options<'_>,
) -> ExitCode {
    let Some(other) = program_in(rt, other) else {
        let _ = eprintln!(rt; "in the filter after --compare");
        return ExitCode::from(FAULT);
    };
    let pair = Pair {
        first,
        other: &other,
        aim: options.aim,
    };
    let Some(compared) = compared_of(rt, &pair, capture) else {
        return ExitCode::from(FAULT);
    };
    let printed = if options.json {
        print_compared_json(rt, &compared)
    } else {
        print_compared(rt, &compared)
    };
    if printed.is_err() {
        let _ = eprintln!(rt; "standard output can't be written");
        return ExitCode::from(FAULT);
    }
    ExitCode::SUCCESS
}

// How the two programs differ in the datagrams of a capture. On a fault prints its line and returns `None`.
fn compared_of(rt: &HostRuntime, pair: &Pair<'_>, capture: &str) -> Option<Compared> {
    let mut reader = reader_of(rt, capture)?;
    let result = compare(rt.alloc(), &mut reader, pair);
    reader.get_mut().end_line();
    match result {
        Ok(compared) => Some(compared),
        Err(fault) => {
            let _ = eprintln!(rt; "{fault}");
            None
        }
    }
}

// The counts of both sockets, their sums, and the first datagrams in which the two differ.
fn print_compared(rt: &HostRuntime, compared: &Compared) -> io::Result<()> {
    let comparison = &compared.comparison;
    print_differences(rt, "icp", comparison.icp)?;
    print_differences(rt, "htcp", comparison.htcp)?;
    print_differences(rt, "both", comparison.both())?;
    println!(rt; "partial {}", comparison.partial)?;
    println!(rt; "others {}", comparison.others)?;
    for sample in compared.samples.iter() {
        print_sample(rt, sample)?;
    }
    Ok(())
}

// The counts of a socket.
fn print_differences(rt: &HostRuntime, socket: &str, counts: Differences) -> io::Result<()> {
    println!(rt;
        "{socket} datagrams {} first_alone {} other_alone {} lengths {}",
        counts.datagrams, counts.first_alone, counts.other_alone, counts.lengths
    )
}

// A datagram in which the two differ.
fn print_sample(rt: &HostRuntime, sample: &Differing) -> io::Result<()> {
    println!(rt;
        "differs record {} {} from {}:{} octets {} first {} other {}",
        sample.number,
        socket_name(sample.socket),
        Ipv4Addr::from_octets(sample.from.addr),
        sample.from.port,
        sample.octets,
        sample.first,
        sample.other
    )
}
