//! Cache keys.

ghost use Rattle.std.specs.Prelude.{◌≡◌, ◌↔◌, IsTrue, IsOk, IfOk, IfErr, All};
ghost use Rattle.object_store.specs.Key.{IsKey, IsKeyFault, IsVisible};

use std::alloc::{AllocError, Global};
use std::collections::hash_map::Equivalent;
use std::hash::{Hash, Hasher};
use std::marker::Model;
use std::sync::Arc;
use thiserror::Error;

/// Maximum length of a key in octets.
pub const MOST_KEY_OCTETS: usize = 8192;

const SCHEME: &[u8] = b"http://";

/// Why octets are not accepted as a key.
#[derive(Clone, Copy, Debug, PartialEq, Eq, Error)]
pub enum KeyFault {
    /// They do not start with `http://`, are more than 8,192, or include one outside 0x21 to 0x7e.
    #[error("not a key")]
    NotKey,
    /// An allocation failed.
    #[error("out of memory")]
    NoMemory,
}

/// A URL as received: it starts with `http://` and has at most 8,192 octets, each from 0x21 to 0x7e. Its octets are
/// reference-counted. Contracts see the list of octets.
pub struct CacheKey {
    octets: Arc<Vec<u8>>,
}

// Written by hand, so that what lets it go is one call for the prover (docs/GATE.md).
impl Drop for CacheKey {
    fn drop(self) {
        let Self { octets: _ } = self;
    }
}

impl Model for CacheKey {
    ghost use Rattle.std.specs.Prelude.{List, ℕ};
    ghost use Rattle.std.specs.Arc.{arc_value};
    ghost use Rattle.object_store.specs.Key.{IsKey};

    ghost Value = { List ℕ };

    ghost view = { λ k. (arc_value k.octets).items };

    ghost invariant = { λ k. IsKey (arc_value k.octets).items };
}

impl CacheKey {
    /// Makes a key. Errors: the fault, and the octets back.
    pub fn new(alloc: Global, octets: Vec<u8>) -> Result<CacheKey, (KeyFault, Vec<u8>)>
        ensures sound { IsOk result → IsKey octets.items }
        ensures value { IfOk result (λ key. key ≡ octets.items) }
        ensures fault { IfErr result (λ refused. IsKeyFault octets.items refused.0) }
        ensures back { IfErr result (λ refused. refused.1 ≡ octets) }
    {
        if !is_key(&octets) {
            return Err((KeyFault::NotKey, octets));
        }
        match Arc::new(alloc, octets) {
            Ok(octets) => Ok(CacheKey { octets }),
            Err(refused) => Err((KeyFault::NoMemory, refused.value)),
        }
    }

    /// Another reference to the key. Allocates nothing. Errors: the reference count would overflow.
    pub fn share(&self) -> Result<CacheKey, AllocError>
        ensures { IfOk result (λ key. key ≡ self.now) }
    {
        Ok(CacheKey {
            octets: Arc::try_clone(&self.octets)?,
        })
    }

    /// The octets.
    #[inline(always)]
    pub fn as_slice(&self) -> &[u8]
        ensures value { result.now ≡ self.now }
        ensures key { IsKey self.now }
    {
        self.octets.as_slice()
    }
}

// Whether the octets are a valid key.
fn is_key(octets: &[u8]) -> bool
    ensures { IsTrue result ↔ IsKey octets.now }
{
    octets.len() <= MOST_KEY_OCTETS && octets.starts_with(SCHEME) && are_visible(octets)
}

// Whether each octet is visible ASCII.
fn are_visible(octets: &[u8]) -> bool
    ensures { IsTrue result ↔ All IsVisible octets.now }
{
    octets.iter().all(|&octet| 0x21 <= octet && octet <= 0x7e)
}

impl PartialEq for CacheKey {
    ghost use Rattle.std.specs.Prelude.{◌≡◌, ◌↔◌, IsTrue, bytes_eq, nat_eq};
    ghost use Rattle.std.specs.Cmp.{partial_equiv_from_equiv};
    ghost use Rattle.std.specs.Cmp.Lexicographic.{nat_list_eq_equiv};

    ghost eq = { bytes_eq };

    ghost laws = { partial_equiv_from_equiv nat_list_eq_equiv };

    fn eq(&self, other: &CacheKey) -> bool
        ensures value { result ≡ bytes_eq self.now other.now }
        ensures same { IsTrue result ↔ (self.now ≡ other.now) }
    {
        self.as_slice() == other.as_slice()
    }
}

impl Eq for CacheKey {
    ghost use Rattle.std.specs.Cmp.Lexicographic.{nat_list_eq_equiv};

    ghost laws = { nat_list_eq_equiv };
}

// All octets at once, in place of one after the other as a slice does it.
impl Hash for CacheKey {
    ghost use Rattle.std.specs.Prelude.{◌∷◌, []};
    ghost use Rattle.std.specs.Cmp.Rules.{hashing};
    ghost use Rattle.std.proofs.Common.{rules};

    ghost hash_input = { λ k. k ∷ [] };

    ghost respects_eq = { Prim.search (hashing, rules) };

    fn hash<H: Hasher>(&self, state: &mut H) {
        state.write(self.as_slice());
    }
}

/// The octets of a key that is looked up, so that none has to be made for it.
#[derive(Clone, Copy, PartialEq, Eq)]
pub struct KeyOctets<'a> {
    /// The octets.
    pub octets: &'a [u8],
}

// As a key with these octets.
impl<'a> Hash for KeyOctets<'a> {
    ghost use Rattle.std.specs.Prelude.{◌∷◌, []};
    ghost use Rattle.std.specs.Cmp.Rules.{hashing};
    ghost use Rattle.std.proofs.Common.{rules};

    ghost hash_input = { λ q. q.octets.now ∷ [] };

    ghost respects_eq = { Prim.search (hashing, rules) };

    fn hash<H: Hasher>(&self, state: &mut H) {
        state.write(self.octets);
    }
}

impl<'a> Equivalent<CacheKey> for KeyOctets<'a> {
    ghost use Rattle.std.specs.Prelude.{bytes_eq, ◌∷◌, []};
    ghost use Rattle.std.specs.Cmp.Lexicographic.{bytes_decides, nat_list_eq_equiv};
    ghost use Rattle.std.proofs.Common.{ap};

    ghost equivalent = { λ q k. bytes_eq q.octets.now k };

    ghost respects_hash = { λ q k h. ap (λ octets. octets ∷ []) ((bytes_decides q.octets.now k).0 h) };

    ghost respects_eq = { λ q x y. nat_list_eq_equiv.congr q.octets.now x y };

    fn equivalent(&self, key: &CacheKey) -> bool {
        self.octets == key.as_slice()
    }
}
