//! The command `explain`.

use crate::fault::ScriptFault;
use crate::files::{FAULT, program_in};
use bpf_asm::to_text;
use bpf_check::Checked;
use bpf_run::machine::Machine;
use bpf_run::{Packet, Run, run_states};
use capture::{Link, UdpView, take_start, udp_at};
use std::fs::File;
use std::io::{self, BufReader};
use std::process::ExitCode;

/// A frame and its link type.
#[derive(Drop)]
struct Frame {
    link: Option<Link>,
    octets: Vec<u8>,
}

/// Runs the command on a filter's file and a datagram, which is given either as the octets of an IPv4 packet in hexadecimal or as a
/// capture's file, `:` and the number of a record in it, from 1.
///
/// Prints each instruction that was executed with the machine after it, and the verdict, on standard output, and the line of a
/// fault on standard error.
pub fn run_explain(rt: &HostRuntime, filter: &str, given: &str) -> ExitCode {
    let Some(program) = program_in(rt, filter) else {
        return ExitCode::from(FAULT);
    };
    let Some(frame) = frame_of(rt, given) else {
        return ExitCode::from(FAULT);
    };
    let Some(datagram) = udp_at(frame.link, &frame.octets) else {
        let _ = eprintln!(rt; "no UDP datagram over IPv4");
        return ExitCode::from(FAULT);
    };
    explain(rt, &program, &datagram)
}

// Runs the program on a datagram and prints its run.
fn explain(rt: &HostRuntime, program: &Checked, datagram: &UdpView<'_>) -> ExitCode {
    if !datagram.whole {
        let _ = eprintln!(rt; "the capture has not all octets of the datagram");
        return ExitCode::from(FAULT);
    }
    let Some(packet) = Packet::new(datagram.from, datagram.to, datagram.payload) else {
        let _ = eprintln!(rt; "the datagram is too long");
        return ExitCode::from(FAULT);
    };
    let Ok(run) = run_states(rt.alloc(), program, &packet) else {
        let _ = eprintln!(rt; "no memory");
        return ExitCode::from(FAULT);
    };
    if print_run(rt, program, &run).is_err() {
        let _ = eprintln!(rt; "standard output can't be written");
        return ExitCode::from(FAULT);
    }
    ExitCode::SUCCESS
}

// The frame that was given. On a fault prints its line and returns `None`.
fn frame_of(rt: &HostRuntime, given: &str) -> Option<Frame> {
    if let Ok(octets) = hex::decode(rt.alloc(), given) {
        return Some(Frame {
            link: Some(Link::Raw),
            octets,
        });
    }
    let Some((file, number)) = given.rsplit_once(':') else {
        let _ = eprintln!(rt; "neither octets in hexadecimal nor a capture and a number");
        return None;
    };
    let Ok(number) = number.parse::<u64>() else {
        let _ = eprintln!(rt; "neither octets in hexadecimal nor a capture and a number");
        return None;
    };
    let Ok(file) = File::open(rt, file) else {
        let _ = eprintln!(rt; "file fault");
        return None;
    };
    match frame_at(rt, file, number) {
        Ok(Some(frame)) => Some(frame),
        Ok(None) => {
            let _ = eprintln!(rt; "the capture has no record {number}");
            None
        }
        Err(fault) => {
            let _ = eprintln!(rt; "{fault}");
            None
        }
    }
}

// The frame of a capture's packet with this number, from 1.
fn frame_at(rt: &HostRuntime, file: File, number: u64) -> Result<Option<Frame>, ScriptFault> {
    let Ok(mut reader) = BufReader::new(rt.alloc(), file) else {
        return Err(ScriptFault::NoMemory);
    };
    let started = take_start(rt.alloc(), &mut reader);
    let mut capture = started.map_err(|fault| ScriptFault::Capture { fault, place: 0 })?;
    let mut octets = Vec::new(rt.alloc());
    let mut link = None;
    for _ in 0..number {
        match capture.take_packet(&mut reader, &mut octets) {
            Ok(Some(head)) => link = head.link,
            Ok(None) => return Ok(None),
            Err(fault) => {
                let place = capture.place();
                return Err(ScriptFault::Capture { fault, place });
            }
        }
    }
    if number == 0 {
        return Ok(None);
    }
    Ok(Some(Frame { link, octets }))
}

// Prints the run: each instruction with the machine after it, then the verdict.
fn print_run(rt: &HostRuntime, program: &Checked, run: &Run) -> io::Result<()> {
    let text = to_text(rt.alloc(), program).map_err(|_| io::Error::from(
        io::ErrorKind::OutOfMemory,
    ))?;
    for (step, state) in run.states.iter().enumerate() {
        let line = text.lines().nth(state.place()).unwrap_or("");
        print!(rt; "{} {line}", state.place())?;
        if let Some(next) = run.states.get(step + 1) {
            print_machine(rt, &next.machine())?;
        }
        println!(rt; "")?;
    }
    println!(rt; "verdict {} steps {}", run.value, run.states.len())
}

// Prints the registers, and the words of the scratch memory that are not 0.
fn print_machine(rt: &HostRuntime, machine: &Machine) -> io::Result<()> {
    print!(rt; " | A={} X={}", machine.a, machine.x)?;
    for (place, word) in machine.scratch.iter().enumerate() {
        if *word != 0 {
            print!(rt; " M[{place}]={word}")?;
        }
    }
    Ok(())
}
