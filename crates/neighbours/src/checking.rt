//! Validation of a configuration.

ghost use Rattle.std.specs.Prelude.{◌≡◌, length, not, ◌||◌, ◌&&◌, nat_le};
ghost use Rattle.std.specs.List.{list_any, list_all};
ghost use Rattle.std.specs.Str.{bytes_eq};
ghost use Rattle.neighbours.specs.Rows.{same_end};
ghost use Rattle.neighbours.specs.Faults.{has_double, is_weight, is_name, has_key, has_double_name, knows, are_named, fault_of};

use crate::fault::ConfigFault;
use crate::key::Key;
use crate::neighbour::Neighbour;
use crate::octets::Octets;
use node_terms::End;

/// Returns the first fault of a configuration, in the order of `ConfigFault`, or `None`.
pub fn fault_in(neighbours: &[Neighbour], keys: &[Key]) -> Option<ConfigFault>
    ensures { result ≡ fault_of neighbours.now keys.now }
{
    if neighbours.len() > 64 {
        return Some(ConfigFault::Count);
    }
    if shares_end(neighbours) {
        return Some(ConfigFault::DoubleAddress);
    }
    if !have_weights(neighbours) {
        return Some(ConfigFault::Weight);
    }
    if !have_names(neighbours, keys) {
        return Some(ConfigFault::KeyName);
    }
    None
}

/// Whether two ends have the same address and port.
pub fn is_same_end(a: End, b: End) -> bool
    ensures { result ≡ same_end a b }
{
    a.addr == b.addr && a.port == b.port
}

fn has_end(neighbours: &[Neighbour], end: End) -> bool
    ensures { result ≡ list_any (λ other. same_end other.end end) neighbours.now }
{
    neighbours.iter().any(|n| is_same_end(n.end, end))
}

fn shares_end(neighbours: &[Neighbour]) -> bool
    ensures { result ≡ has_double neighbours.now }
{
    let mut left = neighbours;
    while let [first, others @ ..] = left {
        if has_end(others, first.end) {
            return true;
        }
        left = others;
    }
    false
}

fn have_weights(neighbours: &[Neighbour]) -> bool
    ensures { result ≡ list_all (λ neighbour. is_weight neighbour.weight) neighbours.now }
{
    neighbours.iter().all(|n| 1 <= n.weight && n.weight <= 100)
}

fn have_names(neighbours: &[Neighbour], keys: &[Key]) -> bool
    ensures { result ≡ are_named neighbours.now keys.now }
{
    are_names(keys) && !shares_name(keys) && are_known(neighbours, keys)
}

fn are_names(keys: &[Key]) -> bool
    ensures { result ≡ list_all (λ key. is_name key.name) keys.now }
{
    keys.iter().all(|key| fits_name(key.name.as_slice()))
}

fn fits_name(name: &[u8]) -> bool
    ensures { result ≡ is_name name.now }
{
    1 <= name.len() && name.len() <= 255
}

fn is_known(keys: &[Key], name: &[u8]) -> bool
    ensures { result ≡ has_key keys.now name.now }
{
    keys.iter().any(|key| key.name.as_slice() == name)
}

fn shares_name(keys: &[Key]) -> bool
    ensures { result ≡ has_double_name keys.now }
{
    let mut left = keys;
    while let [first, others @ ..] = left {
        if is_known(others, first.name.as_slice()) {
            return true;
        }
        left = others;
    }
    false
}

fn knows_key(keys: &[Key], key: &Option<Octets>) -> bool
    ensures { result ≡ knows keys.now key.now }
{
    match key {
        None => true,
        Some(name) => is_known(keys, name.as_slice()),
    }
}

fn are_known(neighbours: &[Neighbour], keys: &[Key]) -> bool
    ensures { result ≡ list_all (λ neighbour. knows keys.now neighbour.key) neighbours.now }
{
    neighbours.iter().all(|n| knows_key(keys, &n.key))
}
