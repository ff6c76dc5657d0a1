//! What the threads of a proxy are started with.
use crate::equipment::Equipment;
use crate::own_key::settle_keys;
use crate::passing::allows_own;
use crate::state::{Given, Logs, six_networks};
use access_log::writer::LogTask;
use filter_text::{Filter, FilterFile};
use http_rules::{Mirror, SixNetwork, written_name};
use node_words::{Config, Network};
use proxy_state::{FrontRules, Purger};
use serve_config::{MirrorPath, Settings};
use std::alloc::{AllocError, Global};
use std::mem;
use std::random::RandomSource;
use std::time::Duration;
use tokio_util::sync::CancellationToken;

/// What the threads are started with, beside the shared state. `F` is a file.
#[derive(Drop)]
pub struct Orders<F> {
    /// What the first threads are started with.
    pub logs: LogTasks<F>,
    /// The filters that are in force from the first datagram on.
    pub filters: Vec<Filter>,
    /// What the servers are started with.
    pub servers: ServerOrders,
}

/// What writes logs. `F` is a file.
#[derive(Drop)]
pub struct LogTasks<F> {
    /// What writes the access log, if there is one.
    pub log: Option<LogTask<F>>,
    /// What writes the notices, if they are asked for.
    pub notices: Option<LogTask<F>>,
}

/// What the servers are started with.
#[derive(Drop)]
pub struct ServerOrders {
    /// The rules of the servers for clients.
    pub rules: FrontRules,
    /// What the administration keeps.
    pub keeping: Keeping,
    /// Ends the grace of clients early.
    pub hurry: CancellationToken,
}

/// What the administration keeps of the settings.
#[derive(Drop)]
pub struct Keeping {
    /// The token that administrators have to show, if there is one.
    pub token: Option<String>,
    /// The files that filters are read from.
    pub files: Vec<FilterFile>,
    /// What takes objects out of the store.
    pub purger: Purger,
}

/// What the administration keeps, which is taken out of the settings.
fn keeping_of(alloc: Global, settings: &mut Settings) -> Result<Keeping, AllocError> {
    Ok(Keeping {
        purger: purger_of(alloc, &settings.node)?,
        token: settings.admin_token.take(),
        files: mem::replace(&mut settings.filters, Vec::new(alloc)),
    })
}

/// What takes objects out of the store, with the first of the node's keys. Errors: there is none, or out of memory.
pub(crate) fn purger_of(alloc: Global, config: &Config) -> Result<Purger, AllocError> {
    let Some(key) = config.keys.as_slice().first() else {
        return Err(AllocError);
    };
    Ok(Purger {
        own: config.htcp,
        is_allowed: allows_own(config),
        key: key.copy(alloc)?,
    })
}

/// Has the settings say the name of the cache as fields have it, and the keys of the node, of which the first signs the requests of the cache to
/// itself. Errors: the system has no random numbers, or out of memory.
fn settle<R: RandomSource>(
    rt: &R,
    alloc: Global,
    settings: &mut Settings,
) -> Result<(), AllocError> {
    let name = written_name(alloc, settings.name.as_bytes())?;
    settings.name = String::from_str(alloc, str::from_utf8(name.as_slice()).unwrap_or(""))?;
    drop(name);
    settle_keys(rt, alloc, &mut settings.node)
}

/// What the servers are started with, which is taken out of the settings, and what ends the grace of clients early. The settings are settled
/// by this, so it comes before anything else is made of them. Errors: the system has no random numbers, or out of memory.
pub fn server_orders<R: RandomSource>(
    rt: &R,
    alloc: Global,
    settings: &mut Settings,
) -> Result<(ServerOrders, CancellationToken), AllocError> {
    settle(rt, alloc, settings)?;
    let hurry = CancellationToken::new(alloc)?;
    let orders = ServerOrders {
        rules: front_rules(alloc, settings)?,
        keeping: keeping_of(alloc, settings)?,
        hurry: hurry.clone()?,
    };
    Ok((orders, hurry))
}

/// Takes the equipment apart: where logs go belongs to the shared state, with the times to connect to a server and for a whole fetch, and
/// with what ends the grace of clients early. The tasks that write logs, and the filters, are for the threads.
pub fn equipped<F: Drop>(
    equipment: Equipment<F>,
    connecting: Duration,
    fetching: Duration,
    hurry: CancellationToken,
) -> (Given, LogTasks<F>, Vec<Filter>) {
    let (log, log_task) = split(equipment.log);
    let (notices, notices_task) = split(equipment.notices);
    let given = Given {
        connecting,
        fetching,
        told: Logs {
            log,
            notices,
            version: equipment.version,
        },
        hurry,
    };
    let logs = LogTasks {
        log: log_task,
        notices: notices_task,
    };
    (given, logs, equipment.filters)
}

/// The two parts of a log, if there is one: where lines go, and what writes them.
fn split<D: Drop, F: Drop>(log: Option<(D, LogTask<F>)>) -> (Option<D>, Option<LogTask<F>>) {
    match log {
        Some((log, writing)) => (Some(log), Some(writing)),
        None => (None, None),
    }
}

/// Whose requests are taken, and what they stand for.
fn front_rules(alloc: Global, settings: &mut Settings) -> Result<FrontRules, AllocError> {
    Ok(FrontRules {
        allowed: networks_of(alloc, &settings.node)?,
        allowed_six: six_allowed(alloc, settings)?,
        mirrors: mirrors_of(alloc, mem::replace(&mut settings.mirrors, Vec::new(alloc)))?,
        purger: purger_of(alloc, &settings.node)?,
    })
}

/// The mirrors as the rules of caching have them. The configuration has them in the order of their paths, a path before each that
/// begins with it; in reverse the first that fits a target is the longest.
fn mirrors_of(alloc: Global, settings: Vec<MirrorPath>) -> Result<Vec<Mirror>, AllocError> {
    let mut settings = settings;
    let mut mirrors = Vec::with_capacity(alloc, settings.len())?;
    for _ in 0..settings.len() {
        if let Some(mirror) = settings.pop() {
            let MirrorPath { path, url } = mirror;
            mirrors.push(Mirror { path, url })?;
        }
    }
    Ok(mirrors)
}

/// The networks of IPv6 whose clients are admitted; none where no clients are served at an address of IPv6.
fn six_allowed(alloc: Global, settings: &Settings) -> Result<Vec<SixNetwork>, AllocError> {
    match &settings.six_clients {
        Some(clients) => six_networks(alloc, clients.allowed.as_slice()),
        None => Ok(Vec::new(alloc)),
    }
}

fn networks_of(alloc: Global, config: &Config) -> Result<Vec<Network>, AllocError> {
    let mut networks = Vec::new(alloc);
    for network in config.allowed.iter() {
        networks.push(*network)?;
    }
    Ok(networks)
}
