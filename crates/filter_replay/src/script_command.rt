//! `replay --script`, which writes the script of a capture, and `replay --expect`, which compares a node's answers with a capture.

use crate::expected::{Expected, expect};
use crate::files::{FAULT, reader_of};
use crate::plan::Plan;
use crate::report_text::socket_name;
use crate::script::write_script;
use crate::tally::Answers;
use crate::waiting::Shown;
use bpf_run::Socket;
use std::io;
use std::net::Ipv4Addr;
use std::process::ExitCode;

/// The status where answers differ and the options ask for it.
const DIFFERENT: u8 = 3;

/// Writes the script of a capture to standard output. The status is 1 after a fault, whose line is printed on standard error.
pub fn run_script(rt: &HostRuntime, capture: &str, plan: &Plan<'_>) -> ExitCode {
    let Some(mut reader) = reader_of(rt, capture) else {
        return ExitCode::from(FAULT);
    };
    let mut output = io::writer(rt);
    let result = write_script(rt.alloc(), &mut reader, &mut output, plan);
    reader.get_mut().end_line();
    match result {
        Ok(_) => ExitCode::SUCCESS,
        Err(fault) => {
            let _ = eprintln!(rt; "{fault}");
            ExitCode::from(FAULT)
        }
    }
}

/// Prints how a node's answers differ from those in a capture, and with `show` the first ones of each kind. The status is 1 after a fault,
/// and 3 if answers differ and `fail` asks for it.
pub fn run_expect(
    rt: &HostRuntime,
    capture: &str,
    plan: &Plan<'_>,
    show: bool,
    fail: bool,
) -> ExitCode {
    let Some(mut reader) = reader_of(rt, capture) else {
        return ExitCode::from(FAULT);
    };
    let result = expect(rt.alloc(), &mut reader, plan);
    reader.get_mut().end_line();
    let expected = match result {
        Ok(expected) => expected,
        Err(fault) => {
            let _ = eprintln!(rt; "{fault}");
            return ExitCode::from(FAULT);
        }
    };
    if print_expected(rt, &expected, show).is_err() {
        let _ = eprintln!(rt; "standard output can't be written");
        return ExitCode::from(FAULT);
    }
    if fail && !expected.are_equal() {
        return ExitCode::from(DIFFERENT);
    }
    ExitCode::SUCCESS
}

// The counts, the codes of answers that differ, and the first ones of each kind.
fn print_expected(rt: &HostRuntime, expected: &Expected, show: bool) -> io::Result<()> {
    print_answers(rt, "icp", expected.icp)?;
    print_answers(rt, "htcp", expected.htcp)?;
    println!(rt; "received {}", expected.counts.received)?;
    println!(rt; "questions {}", expected.questions)?;
    println!(rt; "partial {}", expected.counts.partial)?;
    println!(rt; "others {}", expected.counts.others)?;
    for (pair, count) in expected.codes.iter() {
        print_codes(rt, *pair, *count)?;
    }
    if !show {
        return Ok(());
    }
    print_all_shown(rt, "alike", &expected.samples.alike)?;
    print_all_shown(rt, "other", &expected.samples.other)?;
    print_all_shown(rt, "capture_alone", &expected.samples.capture_alone)?;
    print_all_shown(rt, "node_alone", &expected.samples.node_alone)
}

// The counts of a socket.
fn print_answers(rt: &HostRuntime, socket: &str, counts: Answers) -> io::Result<()> {
    println!(rt;
        "{socket} equal {} alike {} other {} capture_alone {} node_alone {}",
        counts.equal, counts.alike, counts.other, counts.capture_alone, counts.node_alone
    )
}

// How many pairs of answers have these codes.
fn print_codes(rt: &HostRuntime, pair: u64, count: u64) -> io::Result<()> {
    let (node, captured) = (pair / 65_536 % 65_536, pair % 65_536);
    if pair / 65_536 / 65_536 == 0 {
        return println!(rt; "opcodes icp node {node} capture {captured} answers {count}");
    }
    print!(rt; "opcodes htcp node ")?;
    print_code(rt, node)?;
    print!(rt; " capture ")?;
    print_code(rt, captured)?;
    println!(rt; " answers {count}")
}

// An HTCP code: the opcode and the response, with `mo` before a response about the whole message.
fn print_code(rt: &HostRuntime, code: u64) -> io::Result<()> {
    let whole = if code >= 256 { "mo" } else { "" };
    print!(rt; "{}/{whole}{}", code % 256 / 16, code % 16)
}

// The first answers of a kind.
fn print_all_shown(rt: &HostRuntime, kind: &str, all: &[Shown]) -> io::Result<()> {
    for shown in all {
        print_shown(rt, kind, shown)?;
    }
    Ok(())
}

// An answer, or one of each side.
fn print_shown(rt: &HostRuntime, kind: &str, shown: &Shown) -> io::Result<()> {
    print!(rt;
        "{kind} record {} moment {} {} to {}:{} node ",
        shown.record,
        shown.moment,
        socket_name(shown.socket),
        Ipv4Addr::from_octets(shown.peer.addr),
        shown.peer.port
    )?;
    print_octets(rt, shown.node.as_ref())?;
    print!(rt; " capture ")?;
    print_octets(rt, shown.captured.as_ref())?;
    println!(rt; "")
}

// Octets in hexadecimal; `-` where there are none.
fn print_octets(rt: &HostRuntime, octets: Option<&Vec<u8>>) -> io::Result<()> {
    let Some(octets) = octets else {
        return print!(rt; "-");
    };
    for octet in octets.iter() {
        print!(rt; "{:02x}", *octet)?;
    }
    Ok(())
}
