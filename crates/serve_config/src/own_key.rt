//! The key that signs the cache's requests to itself, and the keys of a configuration that the node is given.
ghost use Rattle.std.specs.Prelude.{◌≡◌};
ghost use Rattle.neighbours.specs.Faults.{has_key};
ghost use Rattle.serve_config.specs.OwnKey.{has_own_key, is_known, is_name, is_named, kept_keys, stays};

use neighbours::{Key, Neighbour, Octets};

// The secret that the example of a configuration had in earlier versions.
const KNOWN_SECRET: &[u8] = b"this is an example";

/// Whether everybody knows the secret of a key: it is that of an example.
pub fn is_known(key: &Key) -> bool
    ensures { result ≡ is_known key.now }
{
    key.secret.as_slice() == KNOWN_SECRET
}

/// Whether the first of these keys signs the cache's requests to itself: there is one, and not everybody knows it.
pub fn has_own_key(keys: &[Key]) -> bool
    ensures { result ≡ has_own_key keys.now }
{
    match keys {
        [] => false,
        [key, ..] => !is_known(key),
    }
}

/// Whether one of these keys has this name.
pub fn has_key(keys: &[Key], name: &[u8]) -> bool
    ensures { result ≡ has_key keys.now name.now }
{
    keys.iter().any(|key| key.name.as_slice() == name)
}

/// Of these keys of a configuration those that its node is given: not those that everybody knows, unless one of the neighbours has them.
pub fn keep_keys(keys: &mut Vec<Key>, neighbours: &[Neighbour])
    ensures { keys.new.items ≡ kept_keys neighbours.now keys.old.items }
{
    keys.retain(|key| stays(neighbours, key));
}

/// Whether the node is given a key.
pub fn stays(neighbours: &[Neighbour], key: &Key) -> bool
    ensures { result ≡ stays neighbours.now key.now }
{
    !is_known(key) || is_named(neighbours, key)
}

// Whether one of these neighbours has this key.
fn is_named(neighbours: &[Neighbour], key: &Key) -> bool
    ensures { result ≡ is_named neighbours.now key.now }
{
    neighbours
        .iter()
        .any(|neighbour| is_name(key.name.as_slice(), &neighbour.key))
}

// Whether the name of a neighbour's key, if it has one, is this one.
fn is_name(name: &[u8], key: &Option<Octets>) -> bool
    ensures { result ≡ is_name name.now key.now }
{
    match key {
        Some(key) => key.as_slice() == name,
        None => false,
    }
}
