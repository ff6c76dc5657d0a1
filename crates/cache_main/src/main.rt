//! The program `cache_main`, with five commands: `feed` runs a script from standard input, `check` reads a filter program from a
//! file, `replay` runs one over a capture, `explain` over one datagram, `serve` runs the proxy from a configuration file, or checks
//! that file. What is asked about the program itself (`--help`, `help`, `--version`, `serve --check`) is told by `commands`.
//!
//! This crate tells the commands apart and calls the crates below it: `feed_script`, `commands` for `check`, for the commands about captures
//! and for what `serve` reads and tells, and `cache_serve`. It has no functional contract of its own; `run_serve` only requires a
//! ledger for as many threads as may submit events to the node.
//! Tested by: its run by `rt ci` (args, stdin, stdout), cases/, tests/.
#![tactic(auto)]

mod serve_command;
mod standard_files;
mod version;

use commands::{
    NO_OUTPUT, Question, asked, check_configuration, run_check, run_over_capture, settings_of,
};
use feed_script::feed;
use proxy_setup::SEATS;
use serve_command::run_serve;
use standard_files::take_closed;
use std::env::Env;
use std::marker::Brand;
use std::process::ExitCode;
use std::sync::ledger::Blank;
use std::{env, io};
use version::VERSION;

/// A command of the program.
enum Command<'a> {
    /// Run the script on standard input.
    Feed,
    /// Print the filter program in this file.
    Check(&'a str),
    /// Run a filter program or a node over a capture, or print the run of a filter program on one datagram.
    OverCapture,
    /// Run the proxy with this configuration file.
    Serve(&'a str),
}

fn main(rt: HostRuntime) -> ExitCode {
    take_closed(&rt);
    let Ok(words) = words_of(&rt) else {
        return refuse_words(&rt);
    };
    if let Some(status) = answered(&rt, words.as_slice()) {
        return status;
    }
    match command_of(words.as_slice()) {
        Some(Command::Feed) => run_feed(&rt),
        Some(Command::Check(file)) => run_check(&rt, file),
        Some(Command::OverCapture) => run_over_capture(&rt, VERSION, words.as_slice()),
        Some(Command::Serve(file)) => {
            let Some(settings) = settings_of(&rt, file) else {
                return ExitCode::FAILURE;
            };
            if run_serve::<Brand, _>(rt, Blank::new(SEATS), settings) {
                ExitCode::SUCCESS
            } else {
                ExitCode::FAILURE
            }
        }
        None => tell_usage(&rt),
    }
}

/// The status once the arguments were answered that ask for a help text, the version or a check of a configuration; `None` if they
/// ask for none of these.
fn answered(rt: &HostRuntime, words: &[String]) -> Option<ExitCode> {
    match asked(rt.alloc(), VERSION, words) {
        Ok(None) => None,
        Ok(Some(Question::Text(text))) => Some(print_text(rt, text.as_str())),
        Ok(Some(Question::Configuration(file))) => Some(check_configuration(rt, file)),
        Err(_) => Some(tell_usage(rt)),
    }
}

/// Prints a help text or the version on standard output.
fn print_text(rt: &HostRuntime, text: &str) -> ExitCode {
    match print!(rt; "{text}") {
        Ok(()) => ExitCode::SUCCESS,
        Err(_) => {
            let _ = eprintln!(rt; "{NO_OUTPUT}");
            ExitCode::FAILURE
        }
    }
}

fn tell_usage(rt: &HostRuntime) -> ExitCode {
    let _ = eprintln!(rt; "usage: cache_main feed | check <file> | serve <config.json>");
    ExitCode::from(2)
}

/// Handles arguments that are not UTF-8. A file with such a name cannot be opened, so `check` reports a file fault.
fn refuse_words(rt: &HostRuntime) -> ExitCode {
    let mut word = [0; 5];
    if !matches!(rt.arg(1, &mut word), Ok(5)) || word != *b"check" {
        return tell_usage(rt);
    }
    if println!(rt; "file fault").is_err() {
        let _ = eprintln!(rt; "{NO_OUTPUT}");
    }
    ExitCode::FAILURE
}

/// The arguments of the program, starting with its name.
fn words_of(rt: &HostRuntime) -> io::Result<Vec<String>> {
    Ok(env::args(rt)?.collect(rt.alloc())?)
}

/// Parses the arguments; `None` if they are no command. The option `--check` is no configuration file.
fn command_of(words: &[String]) -> Option<Command<'_>> {
    match words {
        [_, word] if word.as_str() == "feed" => Some(Command::Feed),
        [_, word, file] if word.as_str() == "check" => Some(Command::Check(file.as_str())),
        [_, word, file] if word.as_str() == "serve" && file.as_str() != "--check" => {
            Some(Command::Serve(file.as_str()))
        }
        [_, word, ..] if matches!(word.as_str(), "replay" | "explain") => Some(
            Command::OverCapture,
        ),
        _ => None,
    }
}

/// Runs the script on standard input and writes its output to standard output. A fault is one line on standard error.
fn run_feed(rt: &HostRuntime) -> ExitCode {
    let mut input = rt.reader();
    let mut output = io::writer(rt);
    match feed(rt.alloc(), &mut input, &mut output) {
        Ok(()) => ExitCode::SUCCESS,
        Err(fault) => {
            let _ = eprintln!(rt; "{fault}");
            ExitCode::FAILURE
        }
    }
}
