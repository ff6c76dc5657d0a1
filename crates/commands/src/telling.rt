//! What `serve` tells of the start of a proxy, and of a failure.
use crate::patience::tell;
use fair_use::{Division, FewFiles};
use filter_slots::End;
use proxy_setup::{Addresses, Port, ServeFault};
use serve_config::Settings;
use std::alloc::{AllocError, AllocGlobal, Global};
use std::io::{Eprint, ErrorKind};
use std::net::{Ipv4Addr, Ipv6Addr, SocketAddrV4, SocketAddrV6};
use std::sync::Wait;
use std::thread::Threads;
use std::time::Clock;

/// What a start tells beside the addresses that were bound.
#[derive(Clone, Copy)]
pub struct StartFacts {
    version: &'static str,
    asked: AskedPorts,
    six: Option<Ipv6Addr>,
    entries: u32,
    octets: u32,
    few: Option<FewFiles>,
}

/// The ports that a configuration asks for.
#[derive(Clone, Copy)]
struct AskedPorts {
    icp: u16,
    htcp: u16,
    clients: u16,
    administration: u16,
}

impl StartFacts {
    /// Those of these settings, for a program of this version, which may open these few files, if they are few.
    pub fn of(settings: &Settings, version: &'static str, few: Option<FewFiles>) -> StartFacts {
        StartFacts {
            version,
            asked: AskedPorts {
                icp: settings.node.icp.port,
                htcp: settings.node.htcp.port,
                clients: settings.http_port,
                administration: settings.admin_port,
            },
            six: match &settings.six_clients {
                Some(clients) => Some(Ipv6Addr::from_bits(clients.address)),
                None => None,
            },
            entries: settings.node.entries,
            octets: settings.node.octets,
            few,
        }
    }
}

/// Prints a line about a proxy that listens at these addresses and serves clients by so many threads, with the version of the program and
/// the limits of the store, and a line for each port that was asked for as 0; nothing where standard error takes nothing, or where memory
/// runs out.
pub fn tell_listening<R>(
    rt: R,
    facts: &StartFacts,
    addresses: Option<Addresses>,
    client_threads: usize,
)
where
    R: Threads + Wait + Clock + AllocGlobal + Eprint + Copy + Send + 'static,
{
    let Some(addresses) = addresses else {
        return;
    };
    if let Ok(lines) = start_lines(rt.alloc(), facts, addresses, client_threads) {
        tell(rt, lines);
    }
}

/// The lines of a start, without the last line break. Errors: out of memory.
fn start_lines(
    alloc: Global,
    facts: &StartFacts,
    addresses: Addresses,
    client_threads: usize,
) -> Result<String, AllocError> {
    let mut lines = few_line(alloc, facts.few)?;
    let line = start_line(alloc, facts, addresses, client_threads)?;
    lines.push_str(line.as_str())?;
    drop(line);
    let (asked, clients) = (facts.asked, addresses.clients.port());
    add_port(&mut lines, "icp_port", asked.icp, addresses.icp.port)?;
    add_port(&mut lines, "htcp_port", asked.htcp, addresses.htcp.port)?;
    add_port(&mut lines, "http_port", asked.clients, clients)?;
    let administration = addresses.administration.port();
    add_port(
        &mut lines,
        "admin_port",
        asked.administration,
        administration,
    )?;
    Ok(lines)
}

/// The line about the files that the program may open, with its line break; nothing where they are not few. Errors: out of memory.
fn few_line(alloc: Global, few: Option<FewFiles>) -> Result<String, AllocError> {
    let Some(FewFiles { files, division }) = few else {
        return Ok(String::new(alloc));
    };
    let Division { seats, servers } = division;
    format!(in alloc;
        "{files} open files: {seats} clients at most, and {servers} connections to servers (LimitNOFILE)\n"
    )
}

/// Adds the line of a port that was asked for as 0. Errors: out of memory.
fn add_port(lines: &mut String, key: &str, asked: u16, chosen: u16) -> Result<(), AllocError> {
    if asked != 0 {
        return Ok(());
    }
    write!(lines, "\n{key}: {chosen}")
}

/// The line about a proxy that listens. Errors: out of memory.
fn start_line(
    alloc: Global,
    facts: &StartFacts,
    addresses: Addresses,
    client_threads: usize,
) -> Result<String, AllocError> {
    let (icp, htcp) = (socket_at(addresses.icp), socket_at(addresses.htcp));
    let (clients, administration) = (addresses.clients, addresses.administration);
    let (version, entries, octets) = (facts.version, facts.entries, facts.octets);
    let six = six_text(alloc, facts.six, clients.port())?;
    let threads = if client_threads == 1 {
        "thread"
    } else {
        "threads"
    };
    format!(in alloc;
        "cache_main {version}: ICP {icp}, HTCP {htcp}, HTTP {clients}{six}, administration {administration}; {client_threads} client {threads}; store of at most {entries} objects and {octets} octets"
    )
}

/// The address of a query socket.
fn socket_at(end: End) -> SocketAddrV4 {
    SocketAddrV4::new(Ipv4Addr::from_octets(end.addr), end.port)
}

/// What the line tells of the address of IPv6 at which clients are served at this port too; nothing if there is none. Errors: out of memory.
fn six_text(alloc: Global, six: Option<Ipv6Addr>, port: u16) -> Result<String, AllocError> {
    match six {
        Some(address) => {
            let at = SocketAddrV6::new(address, port, 0, 0);
            format!(in alloc; " and {at}")
        }
        None => Ok(String::new(alloc)),
    }
}

/// Prints why the proxy did not start. Returns `false`.
pub fn tell_start<R: Eprint>(rt: &R, fault: ServeFault) -> bool {
    let _ = match fault {
        ServeFault::Node(fault) => eprintln!(rt; "config fault 3\n{fault}"),
        ServeFault::Volume => eprintln!(rt; "config fault 3\nvolume: not 1 to 1048576"),
        ServeFault::Bind(port, kind) => {
            let (key, why) = (key_of(port), reason_of(kind));
            eprintln!(rt; "config fault 4\n{key}: no socket can be bound there{why}")
        }
        ServeFault::NoMemory => eprintln!(rt; "config fault 5"),
        ServeFault::Settle => eprintln!(rt; "serve fault 2"),
        ServeFault::QuerySocket => eprintln!(rt; "serve fault 3"),
    };
    false
}

/// Why a socket was not bound, as the end of a line.
fn reason_of(kind: ErrorKind) -> &'static str {
    match kind {
        ErrorKind::AddrInUse => ": another program has it",
        ErrorKind::AddrNotAvailable => ": the address is none of this host",
        ErrorKind::PermissionDenied => ": not permitted, as ports below 1024 are not to every user",
        ErrorKind::Uncategorized =>
            ": too few open files, or no addresses of that kind on this system",
        _ => "",
    }
}

/// Prints why a running proxy stopped. Returns `false`.
pub fn tell_end<R: Eprint>(rt: &R, fault: ServeFault) -> bool {
    let number = match fault {
        ServeFault::Settle => 2,
        ServeFault::QuerySocket => 3,
        _ => 1,
    };
    let _ = eprintln!(rt; "serve fault {number}");
    false
}

/// The configuration key of a port.
fn key_of(port: Port) -> &'static str {
    match port {
        Port::Icp => "icp_port",
        Port::Htcp => "htcp_port",
        Port::Clients => "http_port",
        Port::SixClients => "http_address6",
        Port::Administration => "admin_port",
    }
}
