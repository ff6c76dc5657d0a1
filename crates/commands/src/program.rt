//! The program's commands.

use crate::flags::{FILTER, Flag, NODE, SERVE, SHARED, apart};
use clap::{Arg, ArgGroup, Command};
use std::alloc::{AllocError, Global};

/// The usage of `replay`, whose three forms take other words.
const REPLAY_USAGE: &str = "cache_main replay <filter> <capture> [OPTIONS]
       cache_main replay --script <capture> --own <address> [OPTIONS]
       cache_main replay --expect <capture> --own <address> [OPTIONS]";

/// What stands under the help of the program.
const STATUSES: &str = "\
Statuses: 0; 1 after a fault, with its line; 2 for words that are none of these; 3 where replay was told to fail.
The manual is wabretos(1); docs/OPERATING.md and docs/REPLAY.md have all of it.";

// A command on its way, or that there was no memory for it. Its parts are added by calls that take it so, which leaves the functions that
// add several without a way out that would let it go (docs/GATE.md).
type Made<'a> = Result<Command<'a>, AllocError>;

/// The program with all its commands, of this version.
pub(crate) fn program<'a>(alloc: Global, version: &'a str) -> Made<'a> {
    let program = with_command(named(alloc, version), Ok(feed(alloc)));
    let program = with_command(program, check(alloc));
    let program = with_command(program, serve(alloc));
    let program = with_command(program, replay(alloc));
    with_command(program, explain(alloc))
}

// The program without its commands.
fn named<'a>(alloc: Global, version: &'a str) -> Made<'a> {
    let command = Command::new(alloc, "cache_main")
        .version(version)
        .about(
            "Wabretos, a caching HTTP/1.1 proxy that asks its neighbours by ICP and HTCP, through filters",
        )
        .after_help(STATUSES)
        .subcommand_required(true);
    command.bin_name("cache_main")
}

fn feed<'a>(alloc: Global) -> Command<'a> {
    Command::new(alloc, "feed").about(
        "Runs the script on standard input through a node, and prints what the node does",
    )
}

fn check<'a>(alloc: Global) -> Made<'a> {
    Command::new(alloc, "check")
        .about("Prints the filter program in a file, or the line of its fault")
        .arg(word(
            alloc,
            "file",
            "A filter: assembler text, or a listing of tcpdump -y RAW -ddd",
        ))
}

fn serve<'a>(alloc: Global) -> Made<'a> {
    let command = Command::new(alloc, "serve")
        .about("Runs the proxy, or checks its configuration")
        .arg(word(alloc, "config.json", "The configuration, one JSON object"));
    with_made(command, SERVE.arg(alloc))
}

fn replay<'a>(alloc: Global) -> Made<'a> {
    let nodes = node_words(alloc, "node")?;
    let command = Command::new(alloc, "replay")
        .about("Runs a filter, or a whole node, over a capture")
        .override_usage(REPLAY_USAGE)
        .group(nodes);
    let filter = word_of_a_filter(alloc, "filter", "The filter that judges the datagrams");
    let command = with_made(command, filter);
    let capture = word_of_a_filter(alloc, "capture", "A capture, pcap or pcapng");
    let command = with_made(command, capture);
    with_node_flags(
        alloc,
        with_filter_flags(alloc, with_shared_flags(alloc, command)),
    )
}

// The options that have a node run, under this name: one of them stands in place of a filter and its capture.
fn node_words<'a>(alloc: Global, name: &'a str) -> Result<ArgGroup<'a>, AllocError> {
    ArgGroup::new(alloc, name).args(&["script", "expect"])
}

// A word of `replay` that stands in its place where a filter is run.
fn word_of_a_filter<'a>(
    alloc: Global,
    name: &'a str,
    help: &'a str,
) -> Result<Arg<'a>, AllocError> {
    Arg::new(alloc, name)
        .help(help)
        .required_unless_present_any(&["script", "expect"])?
        .conflicts_with_all(apart(name))
}

// The options of `replay` are added in three functions, as each lays out its own table.
fn with_shared_flags<'a>(alloc: Global, command: Made<'a>) -> Made<'a> {
    with_flags(alloc, command, &SHARED, "Options of both")
}

fn with_filter_flags<'a>(alloc: Global, command: Made<'a>) -> Made<'a> {
    with_flags(alloc, command, &FILTER, "Options of a filter")
}

fn with_node_flags<'a>(alloc: Global, command: Made<'a>) -> Made<'a> {
    with_flags(alloc, command, &NODE, "Options of a node")
}

fn explain<'a>(alloc: Global) -> Made<'a> {
    let command = Command::new(alloc, "explain")
        .about("Prints the run of a filter on one datagram, step by step")
        .arg(word(alloc, "filter", "The filter that judges the datagram"));
    let datagram = word(
        alloc,
        "datagram",
        "Its packet in hexadecimal, or a capture and a record's number: FILE:NUMBER",
    );
    with_argument(command, datagram)
}

// Adds a command to the program.
fn with_command<'a>(program: Made<'a>, command: Made<'a>) -> Made<'a> {
    match (program, command) {
        (Ok(program), Ok(command)) => program.subcommand(command),
        (program, command) => {
            drop(program);
            drop(command);
            Err(AllocError)
        }
    }
}

// Adds an argument to a command.
fn with_argument<'a>(command: Made<'a>, argument: Arg<'a>) -> Made<'a> {
    match command {
        Ok(command) => command.arg(argument),
        Err(fault) => {
            drop(argument);
            Err(fault)
        }
    }
}

// The same of one that there may have been no memory for.
fn with_made<'a>(command: Made<'a>, argument: Result<Arg<'a>, AllocError>) -> Made<'a> {
    match argument {
        Ok(argument) => with_argument(command, argument),
        Err(fault) => {
            drop(command);
            Err(fault)
        }
    }
}

// A word that has to stand in its place.
fn word<'a>(alloc: Global, name: &'a str, help: &'a str) -> Arg<'a> {
    Arg::new(alloc, name).required(true).help(help)
}

// Adds options under a heading to a command.
fn with_flags<'a>(alloc: Global, command: Made<'a>, flags: &[Flag], heading: &'a str) -> Made<'a> {
    let mut command = command;
    for flag in flags {
        command = with_made(command, headed(flag.arg(alloc), heading));
    }
    command
}

// An option under this heading.
fn headed<'a>(
    argument: Result<Arg<'a>, AllocError>,
    heading: &'a str,
) -> Result<Arg<'a>, AllocError> {
    Ok(argument?.help_heading(heading))
}
