//! The commands about captures, `replay` and `explain`, as `clap` takes their words apart.

use crate::program::program;
use clap::{ArgMatches, Error};
use filter_replay::{Options, Plan, Sockets, run_expect, run_explain, run_replay, run_script};
use node_terms::Network;
use replay::Aim;
use serve_config::network_of;
use std::alloc::{AllocError, Global};
use std::net::Ipv4Addr;
use std::process::ExitCode;

/// The usual ports of both protocols.
const ICP_PORT: u16 = 3130;

const HTCP_PORT: u16 = 4827;

/// The networks whose queries are answered where none is given: all addresses.
const ALL: Network = Network {
    addr: [0, 0, 0, 0],
    prefix: 0,
};

/// The status where the words are not those of the command.
const REFUSED: u8 = 2;

/// Why words are refused that `clap` takes.
#[derive(Clone, Copy)]
enum Refusal<'a> {
    /// The value of this option is no address or network.
    Value(&'static str, &'a str),
    NoMemory,
}

impl From<AllocError> for Refusal<'_> {
    fn from(_error: AllocError) -> Self {
        Refusal::NoMemory
    }
}

/// Runs `replay` or `explain` as these words of the program ask for it. Where they do not, it prints why on standard error, and the
/// status is 2.
pub fn run_over_capture<'a>(rt: &HostRuntime, version: &'a str, words: &'a [String]) -> ExitCode {
    let matches = match matches_of(rt.alloc(), version, words) {
        Ok(matches) => matches,
        Err(error) => {
            let _ = error.print(rt);
            return ExitCode::from(REFUSED);
        }
    };
    let ran = run_matched(rt, &matches);
    drop(matches);
    match ran {
        Ok(status) => status,
        Err(refusal) => {
            tell(rt, refusal);
            ExitCode::from(REFUSED)
        }
    }
}

// The words as `clap` takes them apart. Errors: they are none of the program's, or out of memory.
fn matches_of<'a>(
    alloc: Global,
    version: &'a str,
    words: &'a [String],
) -> Result<ArgMatches<'a>, Error> {
    let mut command = program(alloc, version)?;
    let matches = command.try_get_matches_from_mut(words);
    drop(command);
    matches
}

// Prints why words are refused.
fn tell(rt: &HostRuntime, refusal: Refusal<'_>) {
    let _ = match refusal {
        Refusal::Value(option, value) => {
            eprintln!(rt;
                "error: invalid value '{value}' for '--{option}'\n\nFor more information, try '--help'."
            )
        }
        Refusal::NoMemory => eprintln!(rt; "no memory"),
    };
}

// Runs the command that was found.
fn run_matched<'a>(rt: &HostRuntime, matches: &ArgMatches<'a>) -> Result<ExitCode, Refusal<'a>> {
    if let Some(words) = matches.subcommand_matches("replay") {
        return replayed(rt, words);
    }
    let Some(words) = matches.subcommand_matches("explain") else {
        return Ok(ExitCode::from(REFUSED));
    };
    Ok(run_explain(rt, word_in(words, "filter"), word_in(words, "datagram")))
}

// A word that stands in its place: `clap` takes no words without it.
fn word_in<'a>(words: &ArgMatches<'a>, name: &str) -> &'a str {
    words.get_str(name).unwrap_or("")
}

// Runs `replay` with these words.
fn replayed<'a>(rt: &HostRuntime, words: &ArgMatches<'a>) -> Result<ExitCode, Refusal<'a>> {
    if let Some(capture) = words.get_str("script") {
        return over_node(rt, words, capture, true);
    }
    if let Some(capture) = words.get_str("expect") {
        return over_node(rt, words, capture, false);
    }
    let options = options_of(words)?;
    Ok(run_replay(
        rt,
        word_in(words, "filter"),
        word_in(words, "capture"),
        &options,
    ))
}

// Runs a node over a capture, or writes its script.
fn over_node<'a>(
    rt: &HostRuntime,
    words: &ArgMatches<'a>,
    capture: &str,
    is_script: bool,
) -> Result<ExitCode, Refusal<'a>> {
    let sockets = sockets_of(words)?;
    let allowed = allowed_of(rt.alloc(), words)?;
    let plan = Plan {
        sockets,
        allowed: allowed.as_slice(),
        miss_nofetch: words.get_flag("nofetch"),
        from_1970: words.get_flag("clock"),
    };
    let status = if is_script {
        run_script(rt, capture, &plan)
    } else {
        let (show, fail) = (words.get_flag("show"), words.get_flag("fail-if-different"));
        run_expect(rt, capture, &plan, show, fail)
    };
    drop(allowed);
    Ok(status)
}

// What a filter is run over a capture with.
fn options_of<'a>(words: &ArgMatches<'a>) -> Result<Options<'a>, Refusal<'a>> {
    let (icp_port, htcp_port) = ports_of(words);
    let network = match words.get_str("from") {
        Some(text) => Some(senders_in(text)?),
        None => None,
    };
    Ok(Options {
        aim: Aim {
            icp_port,
            htcp_port,
            own: own_of(words)?,
        },
        network,
        limit: words.get_one::<u64>("fail-if-rejected"),
        show: words.get_flag("show"),
        json: words.get_flag("json"),
        compare: words.get_str("compare"),
    })
}

// The ports of both protocols.
fn ports_of(words: &ArgMatches<'_>) -> (u16, u16) {
    let icp = words.get_one::<u16>("icp-port").unwrap_or(ICP_PORT);
    let htcp = words.get_one::<u16>("htcp-port").unwrap_or(HTCP_PORT);
    (icp, htcp)
}

// The address of the cache, if it is given.
fn own_of<'a>(words: &ArgMatches<'a>) -> Result<Option<[u8; 4]>, Refusal<'a>> {
    let Some(text) = words.get_str("own") else {
        return Ok(None);
    };
    match text.parse::<Ipv4Addr>() {
        Ok(address) => Ok(Some(address.octets())),
        Err(_) => Err(Refusal::Value("own", text)),
    }
}

// The query sockets of the cache that a node stands for.
fn sockets_of<'a>(words: &ArgMatches<'a>) -> Result<Sockets, Refusal<'a>> {
    let (icp_port, htcp_port) = ports_of(words);
    Ok(Sockets {
        own: own_of(words)?.unwrap_or([0, 0, 0, 0]),
        icp_port,
        htcp_port,
    })
}

// The networks whose queries are answered.
fn allowed_of<'a>(alloc: Global, words: &ArgMatches<'a>) -> Result<Vec<Network>, Refusal<'a>> {
    let mut allowed = Vec::new(alloc);
    if let Some(texts) = words.get_strs("allow") {
        for text in texts {
            let network = network_in("allow", *text)?;
            allowed.push(network).map_err(AllocError::from)?;
        }
    }
    if allowed.is_empty() {
        allowed.push(ALL).map_err(AllocError::from)?;
    }
    Ok(allowed)
}

// The network that is the value of an option, or the address.
fn network_in<'a>(option: &'static str, text: &'a str) -> Result<Network, Refusal<'a>> {
    if let Ok(address) = text.parse::<Ipv4Addr>() {
        return Ok(Network {
            addr: address.octets(),
            prefix: 32,
        });
    }
    network_of(text).ok_or(Refusal::Value(option, text))
}

// The senders that are the value of an option: an address, or a network whose bits behind its prefix are 0.
fn senders_in<'a>(text: &'a str) -> Result<Network, Refusal<'a>> {
    let network = network_in("from", text)?;
    let address = u32::from_be_bytes(network.addr);
    match address.checked_shl(u32::from(network.prefix)) {
        None | Some(0) => Ok(network),
        _ => Err(Refusal::Value("from", text)),
    }
}
