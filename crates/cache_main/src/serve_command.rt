//! The command `serve`: runs the proxy until it has given its last answer.
ghost use Rattle.std.specs.Prelude.{◌≡◌};

use crate::version::VERSION;
use cache_serve::{ProxyLimits, few_files, start};
use commands::{StartFacts, equipment_of, tell_end, tell_finish, tell_listening, tell_start};
use proxy_setup::SEATS;
use serve_config::Settings;
use std::alloc::AllocGlobal;
use std::fs::Files;
use std::io::{Eprint, Print};
use std::net::Net;
use std::random::RandomSource;
use std::sync::Wait;
use std::sync::ledger::{Blank, Ledger};
use std::thread::Threads;
use std::time::Clock;

/// Runs the proxy until it has given its last answer. Once all sockets are bound prints lines about them on standard error, and then
/// `ready` on standard output, before any line of a log; and the line of a fault on standard error. Returns whether there was no fault.
pub fn run_serve<L, R>(rt: R, blank: Blank, settings: Settings) -> bool
where
    L: Ledger + Send + Sync + 'static,
    R: Threads
        + Wait
        + Net
        + Clock
        + RandomSource
        + AllocGlobal
        + Files
        + Print
        + Eprint
        + Copy
        + Send
        + 'static,
    R::Stream: Send + 'static,
    R::Listener: Send + 'static,
    R::File: Send + 'static,
    R::Dir: Send + 'static,
    requires name { blank.name ≡ L.name }
    requires parts { blank.parts ≡ L.parts }
    requires seats { blank.parts ≡ SEATS }
{
    let Some(equipment) = equipment_of(&rt, &settings, VERSION) else {
        drop(settings);
        return false;
    };
    let few = few_files(&rt, &settings, ProxyLimits::usual());
    let facts = StartFacts::of(&settings, VERSION, few);
    match start::<L, R>(rt, blank, settings, equipment, ProxyLimits::usual()) {
        Ok(site) => {
            tell_listening(rt, &facts, site.addresses(), site.held.clients.len());
            let _ = println!(rt; "ready");
            site.begin_logs(&rt);
            match site.finish(rt) {
                Ok(finish) => {
                    tell_finish(rt, &finish);
                    drop(finish);
                    true
                }
                Err(fault) => tell_end(&rt, fault),
            }
        }
        Err(fault) => tell_start(&rt, fault),
    }
}
