//! The command `replay`.

use crate::compare_command::run_compare;
use crate::files::{FAULT, program_in, reader_of};
use crate::options::Options;
use crate::report_json::print_report_json;
use crate::report_text::print_report;
use bpf_check::Checked;
use node_core::Network;
use replay::{Question, Report, Share, replay};
use std::process::ExitCode;

/// The status where more datagrams are rejected than the limit allows.
const OVER_THE_LIMIT: u8 = 3;

/// All senders.
const ALL: Network = Network {
    addr: [0, 0, 0, 0],
    prefix: 0,
};

/// Runs the filter in a file over a capture. Prints the counts on standard output and the line of a fault on standard error.
///
/// The status is 3 if more datagrams are rejected than the limit allows, and 1 after a fault.
pub fn run_replay(
    rt: &HostRuntime,
    filter: &str,
    capture: &str,
    options: &Options<'_>,
) -> ExitCode {
    let Some(program) = program_in(rt, filter) else {
        return ExitCode::from(FAULT);
    };
    match options.compare {
        Some(other) => run_compare(rt, &program, other, capture, options),
        None => run_single(rt, &program, capture, options),
    }
}

// Runs a single filter over the capture.
fn run_single(
    rt: &HostRuntime,
    program: &Checked,
    capture: &str,
    options: &Options<'_>,
) -> ExitCode {
    let Some(report) = report_of(rt, program, capture, options) else {
        return ExitCode::from(FAULT);
    };
    let printed = if options.json {
        print_report_json(rt, program, &report, options.show)
    } else {
        print_report(rt, program, &report, options.show)
    };
    if printed.is_err() {
        let _ = eprintln!(rt; "standard output can't be written");
        return ExitCode::from(FAULT);
    }
    status_of(report.within, options.limit)
}

// What the program makes of the datagrams of a capture. On a fault prints its line and returns `None`.
fn report_of(
    rt: &HostRuntime,
    program: &Checked,
    capture: &str,
    options: &Options<'_>,
) -> Option<Report> {
    let mut reader = reader_of(rt, capture)?;
    let question = Question {
        program,
        aim: options.aim,
        network: options.network.unwrap_or(ALL),
    };
    let result = replay(rt.alloc(), &mut reader, &question);
    reader.get_mut().end_line();
    match result {
        Ok(report) => Some(report),
        Err(fault) => {
            let _ = eprintln!(rt; "{fault}");
            None
        }
    }
}

// The exit status: 3 if the share of rejected datagrams is over the limit.
fn status_of(within: Share, limit: Option<u64>) -> ExitCode {
    let Some(limit) = limit else {
        return ExitCode::SUCCESS;
    };
    if within.rejected.saturating_mul(100) > within.datagrams.saturating_mul(limit) {
        ExitCode::from(OVER_THE_LIMIT)
    } else {
        ExitCode::SUCCESS
    }
}
