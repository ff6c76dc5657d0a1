//! Neighbours that are this cache itself, and own sockets that are in each other's way.
ghost use Rattle.std.specs.Prelude.{◌≡◌, IfOk, false, is_some};
ghost use Rattle.std.specs.List.{list_any};
ghost use Rattle.neighbours.specs.Rows.{same_end};
ghost use Rattle.serve_config.specs.Own.{queries_self, fetches_self, is_self, clashes, shares_port};

use crate::fault::Fault;
use crate::place::Place;
use crate::settings::Settings;
use neighbours::{End, Neighbour};
use std::alloc::Global;

/// Checks that none of the neighbours is this cache itself, and that this cache's sockets for clients and for administration can stand beside
/// one another. Errors: a neighbour that is, before two sockets that can't.
pub(crate) fn check_own(alloc: Global, settings: &Settings) -> Result<(), Fault>
    ensures apart { IfOk result (λ u. list_any (is_self settings.now) settings.now.node.neighbours.items ≡ false) }
    ensures ports { IfOk result (λ u. shares_port settings.now ≡ false) }
{
    check_apart(alloc, settings, settings.node.neighbours.as_slice())?;
    check_ports(alloc, settings)?;
    Ok(())
}

// Checks that none of these neighbours is this cache itself. Errors: the first one that is, at the key of the port.
fn check_apart(alloc: Global, settings: &Settings, neighbours: &[Neighbour]) -> Result<(), Fault>
    ensures { IfOk result (λ u. list_any (is_self settings.now) neighbours.now ≡ false) }
{
    for i in 0..neighbours.len() {
        if let Some(key) = own_port(settings, &neighbours[i]) {
            return Err(Fault::value(
                alloc,
                Place::item("neighbours", i).key(key),
                "this cache itself is at this address and port",
            ));
        }
    }
    Ok(())
}

// The key of the port at which a neighbour is this cache itself, or `None`.
fn own_port(settings: &Settings, neighbour: &Neighbour) -> Option<&'static str>
    ensures { is_some result ≡ is_self settings.now neighbour.now }
{
    if queries_self(settings, neighbour) {
        return Some("query_port");
    }
    if fetches_self(settings, neighbour) {
        return Some("http_port");
    }
    None
}

// Whether queries to a neighbour go to one of this cache's own query sockets.
fn queries_self(settings: &Settings, neighbour: &Neighbour) -> bool
    ensures { result ≡ queries_self settings.now neighbour.now }
{
    is_same(neighbour.end, settings.node.icp) || is_same(neighbour.end, settings.node.htcp)
}

// Whether two endpoints are the same.
fn is_same(a: End, b: End) -> bool
    ensures { result ≡ same_end a b }
{
    a.addr == b.addr && a.port == b.port
}

// Whether fetches from a neighbour go to this cache's own socket for clients or for administration.
fn fetches_self(settings: &Settings, neighbour: &Neighbour) -> bool
    ensures { result ≡ fetches_self settings.now neighbour.now }
{
    (neighbour.end.addr == settings.address && neighbour.http_port == settings.http_port)
        || (neighbour.end.addr == [127, 0, 0, 1] && neighbour.http_port == settings.admin_port)
}

// Checks that clients and administration, which is at 127.0.0.1, are not at one port. Port 0 is whichever is free. Two query sockets at one
// port are not looked for here: the second can't be bound, which is a fault of its own. Errors: they are, at the key of the latter.
fn check_ports(alloc: Global, settings: &Settings) -> Result<(), Fault>
    ensures { IfOk result (λ u. shares_port settings.now ≡ false) }
{
    if settings.address == [127, 0, 0, 1] && clashes(settings.http_port, settings.admin_port) {
        let place = Place::whole().key("admin_port");
        return Err(Fault::value(alloc, place, "http_port is the same port at this address"));
    }
    Ok(())
}

// Whether two sockets of one protocol at one address can't both have these ports.
fn clashes(port: u16, other: u16) -> bool
    ensures { result ≡ clashes port other }
{
    port != 0 && port == other
}
