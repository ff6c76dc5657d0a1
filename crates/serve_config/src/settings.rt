//! The settings of `serve`.
ghost use Rattle.std.specs.Prelude.{◌≡◌, IfOk, IsSomeAnd, Some, false};
ghost use Rattle.std.specs.List.{list_any};
ghost use Rattle.serde_json.specs.Read.{read as read_json};
ghost use Rattle.serde_json.specs.View.{view};
ghost use Rattle.serve_config.specs.Own.{is_self, shares_port};
ghost use Rattle.serve_config.specs.Settings.{AreSettings};

use crate::fault::Fault;
use crate::freshness::{Freshness, RefreshRule};
use crate::json_fault::{Expected, expected_at, offset_of};
use crate::keys::{BackKeys, Keys, keys_in};
use crate::mirrors::MirrorPath;
use crate::origins::SixNetwork;
use crate::own::check_own;
use crate::passing::{Large, PassingKeys};
use crate::shape::check;
use crate::shared_fields::SharedField;
use crate::six_clients::SixClients;
use crate::web::{SiteKeys, WebKeys};
use filter_text::FilterFile;
use http_traffic::PassedMethod;
use node_words::{Config, Network};
use serde_json::Value;
use std::alloc::Global;

// How the parser tells of a number that it has no place for. It then stops behind that number.
const OUT_OF_RANGE: &str = "number out of range";

/// The form of the lines about answers to clients.
#[derive(Clone, Copy)]
pub enum LogFormat {
    /// The combined form of NCSA, with two more fields. It is the usual one.
    Common,
    /// One JSON object a line.
    Json,
}

/// How much the program tells about its own work.
#[derive(Clone, Copy, PartialEq, Eq)]
pub enum LogLevel {
    /// Faults and what has always been told. It is the usual one.
    Quiet,
    /// Also what it does.
    Info,
}

/// The settings of `serve`. They have no `Debug`, so that nothing prints the token.
#[derive(Drop)]
pub struct Settings {
    /// The IPv4 address of the query sockets and of the client socket.
    pub address: [u8; 4],
    /// The port for clients, at each address where they are served.
    pub http_port: u16,
    /// Where clients with addresses of IPv6 are served, if they are.
    pub six_clients: Option<SixClients>,
    /// The port for administration.
    pub admin_port: u16,
    /// The name of the cache: one or more visible ASCII characters. `http_rules::written_name` is what fields have of it.
    pub name: String,
    /// Maximum length of a fetched body in octets, 1 to 1,073,741,824.
    pub body_limit: u32,
    /// Capacity of the event log, in events: 1 to 1,048,576.
    pub volume: u32,
    /// Octets of contents that the receipts of one thread keep at most, if the configuration says it.
    pub receipt_octets: Option<u32>,
    /// Octets of contents at which a volume of the event log ends, at least 1, if the configuration says it.
    pub book_octets: Option<u32>,
    /// Octets of bodies under way at most, 1 to 1,073,741,824, if the configuration says it.
    pub fetch_octets: Option<u32>,
    /// Octets of the objects that origins are asked about at most, 0 to 1,073,741,824, if the configuration says it.
    pub shelf_octets: Option<u32>,
    /// Connections from one address at most, 1 to 4,096, if the configuration says it.
    pub address_connections: Option<u32>,
    /// Threads that serve clients, 1 to 16, if the configuration says it.
    pub client_threads: Option<u32>,
    /// Threads that look up names of servers at most, 1 to 256, if the configuration says it.
    pub lookup_threads: Option<u32>,
    /// The networks that are never fetched from as origins, if the configuration says it.
    pub deny_origins: Option<Vec<Network>>,
    /// The only ports that origins are fetched from, at least one and none of them 0, if the configuration says it.
    pub origin_ports: Option<Vec<u16>>,
    /// The networks of IPv6 that are never fetched from as origins. `None` if no server is fetched from at an address of IPv6.
    pub origins6: Option<Vec<SixNetwork>>,
    /// What a change over the administration has to be authorized by, if the configuration says it: a token68 (RFC 9110, section
    /// 11.2) of at most 255 octets.
    pub admin_token: Option<String>,
    /// Where lines about answers to clients go, if the configuration says it: a file's path, not empty, or `-` for standard output.
    pub access_log: Option<String>,
    /// The form of these lines.
    pub access_log_format: LogFormat,
    /// How much the program tells about its own work.
    pub log_level: LogLevel,
    /// By which rules a stored answer is fresh.
    pub freshness: Freshness,
    /// The operator's rules about freshness, at most 64; none where `freshness` is as published.
    pub refresh: Vec<RefreshRule>,
    /// For how many seconds after it went stale an answer may be used whose origin is down: 0 to 31,536,000, and 0 where `freshness` is
    /// as published.
    pub serve_stale: u32,
    /// What requests in origin form stand for.
    pub mirrors: Vec<MirrorPath>,
    /// The methods beside GET whose requests are passed on as they are, none of them twice.
    pub methods: Vec<PassedMethod>,
    /// The ports that a tunnel (CONNECT) may lead to, at most 64 and none of them 0; without any there are no tunnels.
    pub connect_ports: Vec<u16>,
    /// What becomes of an answer that is too long for the store.
    pub large: Large,
    /// Requests and answers that are passed on as they come at most, at a time: 1 to 4,096.
    pub streams: u32,
    /// Tunnels at most, at a time: 1 to 4,096.
    pub tunnels: u32,
    /// Time for a fetch in seconds: 1 to 86,400.
    pub fetch_seconds: u32,
    /// Seconds without an octet after which a fetch ends, 1 to 86,400, if the configuration says it.
    pub fetch_idle: Option<u32>,
    /// The least octets of a content that come in a second, at most 1,000,000; with 0 as few come as may be.
    pub fetch_speed: u32,
    /// Under how many missing octets a fetch for all clients goes on whose last client has gone, 1 to 1,073,741,824, if the configuration
    /// says it; otherwise each goes on.
    pub quick_abort_octets: Option<u32>,
    /// Seconds that a connection is kept for further fetches, at most 3,600; with 0 none is.
    pub keep_alive: u32,
    /// The fields that the fetches for all clients send, at most 16.
    pub shared_fields: Vec<SharedField>,
    /// The files of the filters that are in force from the start.
    pub filters: Vec<FilterFile>,
    /// The number of answers to clients after which the program ends; 0 means never.
    pub stop_after: u64,
    /// The configuration of the node, including the endpoints of the query sockets.
    pub node: Config,
}

impl Settings {
    /// Parses the settings from JSON. If a key occurs twice in an object, the last one counts.
    ///
    /// Errors: [`Fault`]. If there are several, syntax comes first, then missing or unknown keys and wrong kinds, then values, then
    /// a neighbour that is this cache itself, and last clients and administration at the same port.
    pub fn read(alloc: Global, text: &[u8]) -> Result<Settings, Fault>
        ensures said { IfOk result (λ s. IsSomeAnd (read_json text.now) (λ d. AreSettings d s)) }
        ensures apart { IfOk result (λ s. list_any (is_self s) s.node.neighbours.items ≡ false) }
        ensures ports { IfOk result (λ s. shares_port s ≡ false) }
    {
        let value = json(alloc, text)?;
        let parsed = parse_values(alloc, &value);
        drop(value);
        let settings = parsed?;
        match check_own(alloc, &settings) {
            Ok(()) => Ok(settings),
            Err(fault) => {
                drop(settings);
                Err(fault)
            }
        }
    }
}

// Checks the keys of a configuration and the kinds of their values, and parses them.
fn parse_values(alloc: Global, value: &Value) -> Result<Settings, Fault>
    ensures { IfOk result (AreSettings (view value.now)) }
{
    check(alloc, value)?;
    let Keys {
        lengths,
        loads,
        front,
        logs,
        back,
    } = keys_in(alloc, value)?;
    let BackKeys { node, web, site } = back;
    let WebKeys {
        origins,
        freshness,
        passing,
    } = web;
    let PassingKeys {
        methods,
        connect_ports,
        large,
        pace,
    } = passing;
    let SiteKeys {
        mirrors,
        shared_fields,
    } = site;
    let address = front.address;
    Ok(Settings {
        address,
        http_port: front.http_port,
        six_clients: front.six_clients,
        admin_port: front.admin_port,
        name: front.name,
        body_limit: lengths.body_limit,
        volume: lengths.volume,
        receipt_octets: lengths.receipt_octets,
        book_octets: lengths.book_octets,
        fetch_octets: loads.fetch_octets,
        shelf_octets: loads.shelf_octets,
        address_connections: loads.address_connections,
        client_threads: loads.client_threads,
        lookup_threads: loads.lookup_threads,
        deny_origins: origins.deny_origins,
        origin_ports: origins.origin_ports,
        origins6: origins.origins6,
        admin_token: front.admin_token,
        access_log: logs.access_log,
        access_log_format: logs.access_log_format,
        log_level: logs.log_level,
        freshness: freshness.freshness,
        refresh: freshness.refresh,
        serve_stale: freshness.serve_stale,
        mirrors,
        methods,
        connect_ports,
        large,
        streams: pace.streams,
        tunnels: pace.tunnels,
        fetch_seconds: pace.fetch_seconds,
        fetch_idle: pace.fetch_idle,
        fetch_speed: pace.fetch_speed,
        quick_abort_octets: pace.quick_abort_octets,
        keep_alive: pace.keep_alive,
        shared_fields,
        filters: node.filters,
        stop_after: loads.stop_after,
        node: node.config,
    })
}

// Parses JSON.
fn json(alloc: Global, text: &[u8]) -> Result<Value, Fault>
    ensures { IfOk result (λ value. read_json text.now ≡ Some (view value)) }
{
    match Value::from_slice(alloc, text) {
        Ok(value) => Ok(value),
        Err(error) => {
            let fault = reading_fault(alloc, text, &error);
            drop(error);
            Err(fault)
        }
    }
}

// Why a text could not be read as JSON: memory is short, or where it is none, and what would have been right there.
fn reading_fault(alloc: Global, text: &[u8], error: &serde_json::Error) -> Fault {
    if error.is_memory() {
        return Fault::Memory;
    }
    let (line, column) = (error.line(), error.column());
    let Ok(said) = format!(in alloc; "{error}") else {
        return Fault::Memory;
    };
    let expected = if said.as_str().starts_with(OUT_OF_RANGE) {
        Expected::Word
    } else if error.is_eof() {
        expected_at(text, text.len())
    } else {
        expected_at(text, offset_of(text, line, column))
    };
    Fault::Syntax {
        line,
        column,
        expected,
    }
}
