//! The state that the threads of a proxy share, as it is at the start.
ghost use Rattle.std.specs.Prelude.{◌≡◌, IfOk};
ghost use Rattle.node_book.specs.Book.{count_of};

use crate::fault::{ServeFault, no_memory};
use crate::limits::SEATS;
use crate::passing::passes_of;
use crate::site::{Site, SiteOf, ends_of};
use crossbeam_channel::Sender;
use http_rules::{
    OriginRules, RefreshRule, SixNetwork, UrlPlace, loop_mark, usual_denials, usual_six_denials,
};
use node_book::{BOOK_OCTETS, BookFault, Booked, Desk, RECEIPT_OCTETS, Seat};
use node_core::Node;
use node_words::Config;
use object_shelf::Shelf;
use object_store::{KeyHashes, MOST_KEY_OCTETS};
use proxy_node::ProxyState;
use proxy_state::{
    AccessLog, Fetchers, Field, Kept, Mail, NeighbourEnds, Notices, Outward, PartKeys, Passes,
    Peer, Profile, Stopping, Tap, Telling, UnaskedKeys,
};
use query_handles::Timeline;
use serve_config::{Freshness, Settings, SharedField, UrlPart};
use std::alloc::{AllocError, Global};
use std::mem;
use std::random::RandomSource;
use std::sync::atomic::{AtomicBool, AtomicU16, AtomicU64, AtomicUsize};
use std::sync::ledger::{Blank, Ledger};
use std::sync::{Arc, Mutex};
use std::time::{Clock, Duration, Instant};
use tokio_util::sync::CancellationToken;
use traffic_figures::Figures;

/// The shared state of a proxy.
pub type Proxy<L> = ProxyState<
    Desk<L>,
    Mail,
    Fetchers,
    Outward,
    Kept,
    Passes,
    Tap,
    Telling,
    Stopping,
>;

/// What the shared state of a proxy is given beside its settings.
#[derive(Drop)]
pub struct Given {
    /// Time to connect to a server.
    pub(crate) connecting: Duration,
    /// Time for a whole fetch.
    pub(crate) fetching: Duration,
    /// Where logs go.
    pub(crate) told: Logs,
    /// Ends the grace of clients early, at each thread that serves them.
    pub(crate) hurry: CancellationToken,
}

/// Where logs go, and the version of the program.
#[derive(Drop)]
pub struct Logs {
    /// Where lines of the access log go, if there is one.
    pub(crate) log: Option<AccessLog>,
    /// Where notices go, if they are asked for.
    pub(crate) notices: Option<Notices>,
    /// The version of the program.
    pub(crate) version: &'static str,
}

/// The parts of the shared state of a proxy that its settings have a say in, beside its node. What only hands them on is generic over them, since
/// the prover does not look behind a type parameter (docs/GATE.md).
#[derive(Drop)]
struct Around<M, O, K, P, T> {
    timeline: Timeline,
    mail: M,
    outward: O,
    kept: K,
    passes: P,
    telling: T,
}

/// What may be fetched and passed on.
#[derive(Drop)]
struct Ways {
    origins: OriginRules,
    passes: Passes,
}

/// How large the event log and the receipts are.
#[derive(Clone, Copy)]
struct BookSizes {
    /// Capacity of a volume, in events.
    volume: usize,
    /// Octets of contents at which a volume ends.
    octets: u32,
    /// Octets of contents that the receipts of one thread keep at most.
    room: u32,
}

/// A proxy that has no thread yet, with a new node. The ledger behind `blank` has one part per seat. Errors: the node or its event log
/// refuses the settings, the system has no random numbers, or out of memory.
pub fn site_of<R: RandomSource + Clock, L: Ledger>(
    rt: &R,
    alloc: Global,
    blank: Blank,
    mut settings: Settings,
    given: Given,
) -> Result<Site<Proxy<L>, L>, ServeFault>
    requires name { blank.name ≡ L.name }
    requires parts { blank.parts ≡ L.parts }
    requires seats { blank.parts ≡ SEATS }
{
    let Ok((sender, ends)) = ends_of(alloc) else {
        drop(settings);
        drop(given);
        return Err(ServeFault::NoMemory);
    };
    let sizes = sizes_of(&settings);
    match parts_in(rt, alloc, &mut settings, given) {
        Ok((hashes, around, hurry)) => {
            let opened = open_desk(alloc, blank, config_in(settings), hashes, sizes);
            let stopping = Stopping::new(hurry, sender);
            let made = state_around(opened, around, Fetchers::none(), Tap::new(), stopping);
            SiteOf::around(alloc, made, ends)
        }
        Err(fault) => {
            drop(settings);
            drop(sender);
            drop(ends);
            Err(fault)
        }
    }
}

// How keys are hashed, the parts of the shared state, and what ends the grace of clients early.
type Parts = (
    KeyHashes,
    Around<Mail, Outward, Kept, Passes, Telling>,
    CancellationToken,
);

/// The parts of the shared state around its node, which are taken out of the settings. Errors: the system has no random numbers, or out
/// of memory.
fn parts_in<R: RandomSource + Clock>(
    rt: &R,
    alloc: Global,
    settings: &mut Settings,
    given: Given,
) -> Result<Parts, ServeFault> {
    match marks_of(rt, alloc, settings) {
        Ok((loop_mark, hashes)) => {
            let Given {
                connecting,
                fetching,
                told,
                hurry,
            } = given;
            let started = Instant::now(rt).ok();
            let ways = ways_in(alloc, settings, hashes, connecting);
            let outward = outward_in(alloc, settings, ways, loop_mark, fetching);
            let around = around_in(alloc, settings, hashes, outward, told, started);
            parts_with(hashes, around, hurry)
        }
        Err(fault) => {
            drop(given);
            Err(fault)
        }
    }
}

/// These parts, if there are all.
fn parts_with<X, H: Drop>(
    hashes: KeyHashes,
    around: Result<X, AllocError>,
    hurry: H,
) -> Result<(KeyHashes, X, H), ServeFault> {
    match around {
        Ok(around) => Ok((hashes, around, hurry)),
        Err(_) => {
            drop(hurry);
            Err(ServeFault::NoMemory)
        }
    }
}

/// The mark of this run, and how keys are hashed in it. Errors: the system has no random numbers, or out of memory.
fn marks_of<R: RandomSource>(
    rt: &R,
    alloc: Global,
    settings: &Settings,
) -> Result<(Vec<u8>, KeyHashes), ServeFault> {
    let hashes = KeyHashes::seeded(random_number(rt)?);
    let loop_mark = random_mark(rt, alloc, settings.name.as_bytes())?;
    Ok((loop_mark, hashes))
}

/// The configuration of the node.
fn config_in(settings: Settings) -> Config {
    let Settings { node, .. } = settings;
    node
}

/// The shared state around the desk that was opened, and the seats that were opened with it.
fn state_around<D, Q, M: Drop, F: Drop, O: Drop, K: Drop, P: Drop, A: Drop, T: Drop, S: Drop>(
    opened: Result<(D, Q), ServeFault>,
    around: Around<M, O, K, P, T>,
    fetchers: F,
    tap: A,
    stopping: S,
) -> Result<(ProxyState<D, M, F, O, K, P, A, T, S>, Q), ServeFault> {
    match opened {
        Ok((desk, seats)) => {
            let state = state_of(desk, around, fetchers, tap, stopping);
            Ok((state, seats))
        }
        Err(fault) => {
            drop(around);
            drop(fetchers);
            drop(tap);
            drop(stopping);
            Err(fault)
        }
    }
}

/// The shared state around this desk.
fn state_of<D, M, F, O, K, P, A, T, S>(
    desk: D,
    around: Around<M, O, K, P, T>,
    fetchers: F,
    tap: A,
    stopping: S,
) -> ProxyState<D, M, F, O, K, P, A, T, S> {
    let Around {
        timeline,
        mail,
        outward,
        kept,
        passes,
        telling,
    } = around;
    ProxyState {
        desk,
        timeline,
        mail,
        fetchers,
        outward,
        kept,
        passes,
        tap,
        telling,
        stopping,
    }
}

/// The parts around what is asked of other servers and what is passed on. `told` has where logs go; `started` is when the proxy began.
fn around_in(
    alloc: Global,
    settings: &mut Settings,
    hashes: KeyHashes,
    outward: Result<(Outward, Passes), AllocError>,
    told: Logs,
    started: Option<Instant>,
) -> Result<Around<Mail, Outward, Kept, Passes, Telling>, AllocError> {
    let quick_abort = match settings.quick_abort_octets {
        Some(octets) => Some(u64::from(octets)),
        None => None,
    };
    let (timeline, mail) = (Timeline::new(alloc), Mail::new(alloc, hashes, quick_abort));
    let kept = kept_in(alloc, settings, hashes);
    let telling = telling_in(alloc, settings, told, started);
    around_of(timeline, mail, outward, kept, telling)
}

/// These parts, if there are all.
fn around_of<M: Drop, O: Drop, K: Drop, P: Drop, T: Drop>(
    timeline: Result<Timeline, AllocError>,
    mail: Result<M, AllocError>,
    outward: Result<(O, P), AllocError>,
    kept: Result<K, AllocError>,
    telling: Result<T, AllocError>,
) -> Result<Around<M, O, K, P, T>, AllocError> {
    let (outward, passes) = outward?;
    Ok(Around {
        outward,
        passes,
        timeline: timeline?,
        mail: mail?,
        kept: kept?,
        telling: telling?,
    })
}

/// What is asked of other servers, and what is passed on. The name of the cache and the fields of shared fetches are taken out of the
/// settings.
fn outward_in(
    alloc: Global,
    settings: &mut Settings,
    ways: Result<Ways, AllocError>,
    loop_mark: Vec<u8>,
    fetching: Duration,
) -> Result<(Outward, Passes), AllocError> {
    let (peers, shared_fields) = (
        peers_of(alloc, &settings.node),
        shared_fields_of(alloc, settings),
    );
    let Ways { origins, passes } = ways?;
    let outward = Outward {
        name: mem::replace(&mut settings.name, String::new(alloc)),
        loop_mark,
        origins: Mutex::new(origins),
        peers: peers?,
        fetching,
        shared_fields: shared_fields?,
    };
    Ok((outward, passes))
}

/// What is kept of answers beside the store of the node, and by which rules; these are taken out of the settings.
fn kept_in(alloc: Global, settings: &mut Settings, hashes: KeyHashes) -> Result<Kept, AllocError> {
    Ok(Kept {
        profile: profile_of(alloc, settings)?,
        parts: parts_of(alloc, settings, hashes)?,
        shelf: shelf_of(alloc, settings, hashes)?,
        unasked: Mutex::new(UnaskedKeys::new(alloc, hashes)?),
        serve_stale: settings.serve_stale,
        changed: Mutex::new(Vec::new(alloc)),
        has_changed: AtomicBool::new(false),
        tells_stored: tells_stored(settings),
    })
}

/// What is counted and told.
fn telling_in(
    alloc: Global,
    settings: &Settings,
    told: Logs,
    started: Option<Instant>,
) -> Result<Telling, AllocError> {
    let Logs {
        log,
        notices,
        version,
    } = told;
    let neighbours = settings.node.neighbours.as_slice();
    Ok(Telling {
        figures: Figures::new(alloc, neighbours.len())?,
        ends: NeighbourEnds::new(alloc, neighbours)?,
        connections: Arc::new(alloc, AtomicUsize::new(0))?,
        wanted_octets: Arc::new(alloc, AtomicU64::new(0))?,
        answered: AtomicU64::new(0),
        log,
        notices,
        admin_port: AtomicU16::new(settings.admin_port),
        version,
        started,
    })
}

/// What may be fetched and passed on, which is taken out of the settings.
fn ways_in(
    alloc: Global,
    settings: &mut Settings,
    hashes: KeyHashes,
    connecting: Duration,
) -> Result<Ways, AllocError> {
    let origins = origins_of(alloc, settings)?;
    match passes_of(alloc, settings, hashes, &origins, connecting) {
        Ok(passes) => Ok(Ways { origins, passes }),
        Err(fault) => {
            drop(origins);
            Err(fault)
        }
    }
}

/// The fields of each shared fetch, which are taken out of the settings.
fn shared_fields_of(alloc: Global, settings: &mut Settings) -> Result<Vec<Field>, AllocError> {
    let listed = mem::replace(&mut settings.shared_fields, Vec::new(alloc));
    let mut fields = Vec::with_capacity(alloc, listed.len())?;
    for field in listed {
        let SharedField { name, value } = field;
        fields.push((name.into_bytes(), value.into_bytes()))?;
    }
    Ok(fields)
}

/// The rules by which responses are kept, which are taken out of the settings.
fn profile_of(alloc: Global, settings: &mut Settings) -> Result<Profile, AllocError> {
    let rules = mem::replace(&mut settings.refresh, Vec::new(alloc));
    match settings.freshness {
        Freshness::Published => Ok(Profile::Published),
        Freshness::Rfc9111 => Ok(Profile::Rfc9111(rules_of(alloc, rules)?)),
    }
}

/// The shelf of what origins are asked about: as large as the settings say, or a quarter of the store. `None` by the published rules,
/// and where it has no octet.
fn shelf_of(
    alloc: Global,
    settings: &Settings,
    hashes: KeyHashes,
) -> Result<Option<Mutex<Shelf>>, AllocError> {
    let octets = settings.shelf_octets.unwrap_or(settings.node.octets / 4);
    if matches!(settings.freshness, Freshness::Published) || octets == 0 {
        return Ok(None);
    }
    let Ok(mut shelf) = Shelf::new(alloc, settings.node.entries, octets) else {
        return Err(AllocError);
    };
    shelf.hash_by(alloc, hashes)?;
    Ok(Some(Mutex::new(shelf)))
}

/// The most octets of an object's head and body whose client is told that it was stored: with any key, what has no more is within the
/// store's limits. `None` by the published rules.
fn tells_stored(settings: &Settings) -> Option<u32> {
    match settings.freshness {
        Freshness::Published => None,
        Freshness::Rfc9111 => Some(settings.node.octets.saturating_sub(MOST_KEY_OCTETS as u32)),
    }
}

/// The URLs of which parts are asked for. `None` by the published rules.
fn parts_of(
    alloc: Global,
    settings: &Settings,
    hashes: KeyHashes,
) -> Result<Option<Mutex<PartKeys>>, AllocError> {
    match settings.freshness {
        Freshness::Published => Ok(None),
        Freshness::Rfc9111 => {
            let parts = PartKeys::new(alloc, hashes, settings.body_limit)?;
            Ok(Some(Mutex::new(parts)))
        }
    }
}

/// The operator's refresh rules as the rules of caching have them.
fn rules_of(
    alloc: Global,
    settings: Vec<serve_config::RefreshRule>,
) -> Result<Vec<RefreshRule>, AllocError> {
    let mut rules = Vec::with_capacity(alloc, settings.len())?;
    for rule in settings {
        let serve_config::RefreshRule {
            place,
            seconds,
            overrides,
        } = rule;
        rules.push(RefreshRule {
            place: match place {
                UrlPart::Prefix(text) => UrlPlace::Prefix(text.into_bytes()),
                UrlPart::Suffix(text) => UrlPlace::Suffix(text.into_bytes()),
            },
            seconds,
            overrides,
        })?;
    }
    Ok(rules)
}

/// The sizes that the settings say, or the usual ones.
fn sizes_of(settings: &Settings) -> BookSizes {
    BookSizes {
        volume: settings.volume as usize,
        octets: settings.book_octets.unwrap_or(BOOK_OCTETS),
        room: settings.receipt_octets.unwrap_or(RECEIPT_OCTETS),
    }
}

/// A new node with its event log behind a lock, and the seats of the threads.
fn open_desk<L: Ledger>(
    alloc: Global,
    blank: Blank,
    config: Config,
    hashes: KeyHashes,
    sizes: BookSizes,
) -> Result<(Desk<L>, Vec<Seat<L>>), ServeFault>
    requires name { blank.name ≡ L.name }
    requires parts { blank.parts ≡ L.parts }
    requires seats { blank.parts ≡ SEATS }
{
    let mut node = Node::new(alloc, config).map_err(ServeFault::Node)?;
    if node.hash_by(alloc, hashes).is_err() {
        drop(node);
        return Err(ServeFault::NoMemory);
    }
    let booked = book_of(alloc, node, sizes.volume, sizes.octets)?;
    desk_of(alloc, blank, booked, sizes.room)
}

/// A new node with its event log, whose volumes have these capacities, in events and in octets of contents.
fn book_of(alloc: Global, node: Node, volume: usize, octets: u32) -> Result<Booked, ServeFault>
    ensures new { IfOk result (λ booked. count_of booked ≡ 0) }
{
    match Booked::within(alloc, node, volume, octets) {
        Ok(booked) => Ok(booked),
        Err(BookFault::Limits) => Err(ServeFault::Volume),
        Err(BookFault::NoMemory) => Err(ServeFault::NoMemory),
    }
}

/// The event log behind a lock, and the seats of the threads, whose receipts keep at most `room` octets of contents.
fn desk_of<L: Ledger>(
    alloc: Global,
    blank: Blank,
    booked: Booked,
    room: u32,
) -> Result<(Desk<L>, Vec<Seat<L>>), ServeFault>
    requires new { count_of booked ≡ 0 }
    requires name { blank.name ≡ L.name }
    requires parts { blank.parts ≡ L.parts }
    requires seats { blank.parts ≡ SEATS }
{
    match Desk::open_with(alloc, blank, booked, SEATS, room) {
        Ok(opened) => Ok(opened),
        Err(_) => Err(ServeFault::NoMemory),
    }
}

/// The element of CDN-Loop of a cache with this name, with a number that no other run of any cache has. Errors: the system has no
/// random numbers, or out of memory.
fn random_mark<R: RandomSource>(rt: &R, alloc: Global, name: &[u8]) -> Result<Vec<u8>, ServeFault> {
    loop_mark(alloc, name, random_number(rt)?).map_err(no_memory)
}

/// A random number. Errors: the system has none.
fn random_number<R: RandomSource>(rt: &R) -> Result<u64, ServeFault> {
    let mut number = [0; 8];
    if rt.fill_bytes(&mut number).is_err() {
        return Err(ServeFault::NoMemory);
    }
    Ok(u64::from_be_bytes(number))
}

/// Which servers may be fetched from as origins; the sockets of this cache are added once they are bound.
fn origins_of(alloc: Global, settings: &mut Settings) -> Result<OriginRules, AllocError> {
    let is_usual = settings.deny_origins.is_none();
    let denied_six = denied_six(alloc, settings.origins6.take(), is_usual)?;
    let denied = match settings.deny_origins.take() {
        Some(denied) => denied,
        None => usual_denials(alloc, judged_address(settings))?,
    };
    let ports = settings.origin_ports.take();
    Ok(OriginRules::new(alloc, denied, ports, denied_six))
}

/// The address by which it is judged whether this host's own servers are usually fetched from: that of the sockets, or none where clients of
/// other hosts come at an address of IPv6, which any but ::1 (RFC 4291, section 2.5.3) is.
fn judged_address(settings: &Settings) -> [u8; 4] {
    match &settings.six_clients {
        Some(clients) if clients.address != 1 => [0; 4],
        _ => settings.address,
    }
}

/// The networks of IPv6 that are never fetched from, where servers of IPv6 are fetched from at all.
fn denied_six(
    alloc: Global,
    networks: Option<Vec<serve_config::SixNetwork>>,
    is_usual: bool,
) -> Result<Option<Vec<SixNetwork>>, AllocError> {
    let Some(networks) = networks else {
        return Ok(None);
    };
    let denied = if is_usual {
        usual_six_denials(alloc)?
    } else {
        six_networks(alloc, networks.as_slice())?
    };
    Ok(Some(denied))
}

/// The same networks as the rules of HTTP have them. Errors: out of memory.
pub(crate) fn six_networks(
    alloc: Global,
    networks: &[serve_config::SixNetwork],
) -> Result<Vec<SixNetwork>, AllocError> {
    let mut denied = Vec::with_capacity(alloc, networks.len())?;
    for network in networks {
        denied.push(SixNetwork {
            address: network.address,
            prefix: network.prefix,
        })?;
    }
    Ok(denied)
}

fn peers_of(alloc: Global, config: &Config) -> Result<Vec<Peer>, AllocError> {
    let mut peers = Vec::new(alloc);
    for neighbour in config.neighbours.iter() {
        let (end, http_port) = (neighbour.end, neighbour.http_port);
        peers.push(Peer { end, http_port })?;
    }
    Ok(peers)
}
