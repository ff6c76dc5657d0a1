//! What passes the proxy without the node, as the settings say it.
use crate::limits::FETCHERS;
use crate::orders::purger_of;
use http_rules::{OriginRules, is_unsafe};
use neighbours::Role;
use node_words::Config;
use object_store::KeyHashes;
use proxy_state::{LargeKeys, Passes, Peer, Places};
use serve_config::{Large, Settings};
use server_connections::ServerConnections;
use std::alloc::{AllocError, Global};
use std::mem;
use std::sync::{Arc, Mutex};
use std::time::Duration;

/// How many seconds neither side of a request that is passed on may be without an octet.
const STREAM_SECONDS: u64 = 60;

/// How many seconds both sides of a tunnel may be without an octet.
const TUNNEL_SECONDS: u64 = 300;

/// Whether a configuration passes on methods which change what they ask for, and the cache may not ask itself: what is stored of it is taken
/// out of the store by a request of the cache to itself.
pub fn lacks_own_address(settings: &Settings) -> bool {
    let is_safe = settings
        .methods
        .iter()
        .all(|method| !is_unsafe(method.name()));
    !is_safe && !allows_own(&settings.node)
}

/// Whether queries from the address of the HTCP socket are answered.
pub(crate) fn allows_own(config: &Config) -> bool {
    let own = config.htcp.addr;
    config.allowed.iter().any(|network| network.contains(own))
}

/// What passes without the node, which is taken out of the settings. Tunnels lead to the ports that are configured for them, and to none of
/// the networks that nothing is fetched from.
pub(crate) fn passes_of(
    alloc: Global,
    settings: &mut Settings,
    hashes: KeyHashes,
    origins: &OriginRules,
    connecting: Duration,
) -> Result<Passes, AllocError> {
    let connect_ports = mem::replace(&mut settings.connect_ports, Vec::new(alloc));
    Ok(Passes {
        methods: mem::replace(&mut settings.methods, Vec::new(alloc)),
        has_six: origins.has_six(),
        ends: Mutex::new(origins.for_ports(alloc, connect_ports.as_slice())?),
        connect_ports,
        large: large_of(alloc, settings.large, hashes)?,
        streams: Places::new(alloc, settings.streams)?,
        tunnels: Places::new(alloc, settings.tunnels)?,
        stream_still: Duration::from_secs(STREAM_SECONDS),
        tunnel_still: Duration::from_secs(TUNNEL_SECONDS),
        connecting,
        is_direct: settings.node.origin,
        parent: parent_of(&settings.node),
        servers: Arc::new(alloc, ServerConnections::new(alloc, FETCHERS)?)?,
        purger: purger_of(alloc, &settings.node)?,
    })
}

/// Room for the URLs of large answers, where these are passed on.
fn large_of(
    alloc: Global,
    large: Large,
    hashes: KeyHashes,
) -> Result<Option<Mutex<LargeKeys>>, AllocError> {
    match large {
        Large::Refuse => Ok(None),
        Large::Stream => Ok(Some(Mutex::new(LargeKeys::new(alloc, hashes)?))),
    }
}

/// The first parent of a configuration.
fn parent_of(config: &Config) -> Option<Peer> {
    let parent = config
        .neighbours
        .iter()
        .find(|neighbour| neighbour.kind == Role::Parent)?;
    Some(Peer {
        end: parent.end,
        http_port: parent.http_port,
    })
}
