//! The key that signs the cache's requests to itself, by which what was changed is taken out of the store.
use neighbours::{Key, Octets};
use node_words::Config;
use serve_config::{has_key, has_own_key, keep_keys};
use std::alloc::{AllocError, Global};
use std::random::RandomSource;

/// How many octets a drawn secret has: as many as a signature (RFC 2104, section 3).
const SECRET_OCTETS: usize = 16;

/// Leaves out the keys that everybody knows and that no neighbour has, and puts a drawn one before the others where no key of the
/// configuration signs the cache's requests to itself. Errors: the system has no random numbers, or out of memory.
pub(crate) fn settle_keys<R: RandomSource>(
    rt: &R,
    alloc: Global,
    config: &mut Config,
) -> Result<(), AllocError> {
    let drawn = if has_own_key(config.keys.as_slice()) {
        None
    } else {
        Some(drawn_key(rt, alloc, config.keys.as_slice())?)
    };
    keep_keys(&mut config.keys, config.neighbours.as_slice());
    match drawn {
        Some(drawn) => Ok(config.keys.insert(0, drawn)?),
        None => Ok(()),
    }
}

/// A key with a secret that nobody knows, and a name that none of these keys has. Errors: the system has no random numbers, or out of
/// memory.
fn drawn_key<R: RandomSource>(rt: &R, alloc: Global, keys: &[Key]) -> Result<Key, AllocError> {
    let mut secret = [0; SECRET_OCTETS];
    if rt.fill_bytes(&mut secret).is_err() {
        return Err(AllocError);
    }
    Ok(Key {
        name: Octets::new(free_name(alloc, keys)?),
        secret: Octets::new(secret.to_vec(alloc)?),
    })
}

/// A name that none of these keys has: of one more than there are keys, one is free.
fn free_name(alloc: Global, keys: &[Key]) -> Result<Vec<u8>, AllocError> {
    for number in 0..keys.len() {
        let name = format!(in alloc; "own-{number}")?.into_bytes();
        if !has_key(keys, name.as_slice()) {
            return Ok(name);
        }
        drop(name);
    }
    let last = keys.len();
    Ok(format!(in alloc; "own-{last}")?.into_bytes())
}
