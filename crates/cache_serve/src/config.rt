//! What the threads of a proxy need of its settings.
use crate::descriptors::most_files;
use crate::limits::{
    ADDRESS_CONNECTIONS, FETCH_OCTETS, ProxyLimits, USUAL_CLIENT_THREADS, USUAL_LOOKUP_THREADS,
};
use fair_use::{Division, FewFiles, division_of, is_told};
use filter_slots::End;
use proxy_setup::MOST_CLIENT_THREADS;
use serve_config::Settings;
use std::net::{Ipv4Addr, Ipv6Addr, SocketAddr, SocketAddrV4};
use std::thread;
use std::thread::Threads;
use std::time::Duration;

/// What the threads of a proxy need of the configuration.
#[derive(Clone, Copy)]
pub struct ThreadConfig {
    pub icp: End,
    pub htcp: End,
    pub clients: SocketAddr,
    /// The address of IPv6 at which clients are served too, at the same port, if there is one.
    pub six: Option<Ipv6Addr>,
    /// How many threads serve clients: 1 to 16.
    pub client_threads: usize,
    /// How many threads look up names at most: 1 to 256.
    pub lookup_threads: usize,
    pub admin_port: u16,
    pub body_limit: usize,
    pub fetch_octets: usize,
    pub streams: u32,
    pub stop_after: u64,
    pub limits: ProxyLimits,
    /// How the files that the program may open are divided, if that is known.
    pub division: Option<Division>,
}

/// What the threads need of the settings.
pub(crate) fn thread_config<R: Threads>(
    rt: &R,
    settings: &Settings,
    limits: ProxyLimits,
) -> ThreadConfig {
    let address = Ipv4Addr::from_octets(settings.address);
    let mut limits = limits;
    let an_address = settings.address_connections.unwrap_or(ADDRESS_CONNECTIONS);
    limits.clients.connections.an_address = an_address as usize;
    let client_threads = client_threads(rt, settings);
    let division = division_in(settings, client_threads, limits.clients.connections.most);
    if let Some(division) = division {
        limits.clients.connections.most = division.seats;
    }
    limits.fetching = Duration::from_secs(u64::from(settings.fetch_seconds));
    limits.idle = idle_of(settings.fetch_idle);
    limits.speed = speed_of(settings.fetch_speed);
    limits.keep = keep_of(settings.keep_alive);
    ThreadConfig {
        icp: settings.node.icp,
        htcp: settings.node.htcp,
        clients: SocketAddr::V4(SocketAddrV4::new(address, settings.http_port)),
        six: six_address(settings),
        client_threads,
        lookup_threads: settings.lookup_threads.unwrap_or(USUAL_LOOKUP_THREADS) as usize,
        admin_port: settings.admin_port,
        body_limit: settings.body_limit as usize,
        fetch_octets: settings.fetch_octets.unwrap_or(FETCH_OCTETS) as usize,
        streams: settings.streams,
        stop_after: settings.stop_after,
        limits,
        division,
    }
}

/// What a start tells of the files that the program may open: how they are divided, if they are few. `None` also if it isn't known how many
/// there are.
pub fn few_files<R: Threads>(rt: &R, settings: &Settings, limits: ProxyLimits) -> Option<FewFiles> {
    let files = most_files()?;
    if !is_told(files) {
        return None;
    }
    let threads = client_threads(rt, settings);
    let division = division_in(settings, threads, limits.clients.connections.most)?;
    Some(FewFiles { files, division })
}

/// How the files that the program may open are divided, of which so many threads serve at most so many clients. `None` if it isn't known how
/// many there are.
fn division_in(settings: &Settings, threads: usize, most: usize) -> Option<Division> {
    let files = most_files()?.saturating_sub(six_files(settings, threads));
    Some(division_of(files, threads, most))
}

/// How many threads serve clients: as many as the settings say, or one for each processor, at most 4.
fn client_threads<R: Threads>(rt: &R, settings: &Settings) -> usize {
    let threads = match settings.client_threads {
        Some(threads) => threads as usize,
        None => match thread::available_parallelism(rt) {
            Ok(processors) => processors.get().min(USUAL_CLIENT_THREADS),
            Err(_) => 1,
        },
    };
    threads.clamp(1, MOST_CLIENT_THREADS)
}

/// The address of IPv6 at which clients are served too, if there is one.
fn six_address(settings: &Settings) -> Option<Ipv6Addr> {
    let clients = settings.six_clients.as_ref()?;
    Some(Ipv6Addr::from_bits(clients.address))
}

/// The open files of the socket there: the handle of each of so many threads.
fn six_files(settings: &Settings, threads: usize) -> usize {
    match &settings.six_clients {
        Some(_) => threads,
        None => 0,
    }
}

/// How long a fetch's connection may be without an octet, if that is limited.
fn idle_of(seconds: Option<u32>) -> Option<Duration> {
    match seconds {
        Some(seconds) => Some(Duration::from_secs(u64::from(seconds))),
        None => None,
    }
}

/// The least octets a second of a fetch's content, if there is a least speed.
fn speed_of(octets: u32) -> Option<u32> {
    match octets {
        0 => None,
        _ => Some(octets),
    }
}

/// How long connections are kept for further fetches.
fn keep_of(seconds: u32) -> Option<Duration> {
    match seconds {
        0 => None,
        _ => Some(Duration::from_secs(u64::from(seconds))),
    }
}
